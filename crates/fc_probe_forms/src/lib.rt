//! The calls of the probe on nameless forms: what they refer to and reach, what they are named back to, and what they are after a change.
#![tactic(auto)]

mod binders;
pub mod changing;
pub mod names;
pub mod reaching;
mod references;
mod referring;
mod right_sides;
