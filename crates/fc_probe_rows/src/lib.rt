//! The calls of the probe on rows of the rewrite table.
#![tactic(auto)]

mod phases;
mod steps;

pub use phases::simplified;
pub use steps::applied;
