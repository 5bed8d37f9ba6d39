//! One step of a row of the rewrite table on a named module. Each call finds the nameless forms of the module and of those that it imports, takes the step there, and writes what the
//! row makes with names again.
#![tactic(auto)]

mod error;
mod forms;
mod rows;
mod steps;

pub use error::NotApplied;
pub use rows::{commutes, shrinks};
pub use steps::{commute, shrink};
