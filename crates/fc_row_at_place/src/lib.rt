//! A row of the rewrite table at a place of a right side: the walk down to the place, with what stands around it, and what the row makes of the part there.
#![tactic(auto)]

mod alternatives;
mod asked;
mod binders;
mod groups;
mod joins;
mod places;
mod right_sides;
mod rows;

pub use asked::{Asked, Headers, Question};
pub use right_sides::{row_by_headers, row_of_right_side};
pub use rows::{fact_at, is_built, term_row};
