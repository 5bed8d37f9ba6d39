//! The first half of the shrinking row of a join point with one jump: the jump becomes the right side of the join point.
#![tactic(auto)]

mod jumps;

pub use jumps::{MOST_TERMS, jump_once};
