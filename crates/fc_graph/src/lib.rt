//! Graphs over numbers: which numbers one leads to, and which lie on a cycle.
#![tactic(auto)]

mod checking;
mod components;
mod cycles;
mod edges;
mod finding;
mod reaching;

pub use cycles::on_cycles;
pub use reaching::{reached, reached_from};
