//! The shrinking rows that read types and what coercions prove, and nothing of what is known of variables. One function for each row, from an expression in its
//! context to what the row makes of it; it answers none where the row does not apply.
#![tactic(auto)]

mod applications;
mod casts;
mod failures;

pub use applications::beta;
pub use casts::cast_refl;
pub use failures::fail_absorb;
