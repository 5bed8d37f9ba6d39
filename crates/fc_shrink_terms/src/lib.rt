//! The shrinking rows that read neither types nor what is known of variables. One function for each row, from an expression to what the row makes of it; it
//! answers none where the row does not apply.
#![tactic(auto)]

mod cases;
mod groups;
mod lets;

pub use cases::{case_merge, cast_cast};
pub use groups::{join_dead, let_dead, without_joins};
pub use lets::{let_atom, let_once};
