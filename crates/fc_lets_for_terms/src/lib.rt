//! Lets for terms: arguments by the variables of lets, and a body behind these lets, each of the type that is asked of its term.
#![tactic(auto)]

mod arguments;
mod asking;
mod lets;

pub use arguments::{named_arguments, pairs_with, term_count};
pub use lets::behind_lets;
