//! Which row of the rewrite table applies in a right side, and where.
#![tactic(auto)]

mod frames;
mod parts;
mod rows;
mod searching;
mod spots;
mod tests;
mod walking;

pub use searching::first_row_in;
pub use spots::{Applying, Search};
