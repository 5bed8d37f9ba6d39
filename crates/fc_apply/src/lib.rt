//! One step of the rewrite table on a module: a row at a place of a definition, or definitions that go.
#![tactic(auto)]

mod aiming;
mod applying;
mod definitions;
mod dropping;

pub use applying::{apply, is_run};
