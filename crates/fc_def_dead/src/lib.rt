//! Definitions that nothing needs go from a module.
#![tactic(auto)]

mod dropping;
mod finding;
mod moving;

pub use dropping::{Dead, dead_definitions, drop_dead, take_away};
