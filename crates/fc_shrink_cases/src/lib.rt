//! The shrinking rows of a case that read what is known of what it looks at. One function for each row, from an expression and that knowledge to what the row makes
//! of it; it answers none where the row does not apply.
#![tactic(auto)]

mod dead;
mod evaluated;
mod heads;

pub use dead::alt_dead;
pub use evaluated::case_evaluated;
