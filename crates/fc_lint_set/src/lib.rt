//! Lint of a set of modules: every premise of names, declarations and types, in their order.
#![tactic(auto)]

mod right_sides;
mod sets;

pub use sets::{SetFlawed, lint_set};
