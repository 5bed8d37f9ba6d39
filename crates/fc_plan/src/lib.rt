//! The order in which the modules of a set are built, or what stands against it; and the modules in that order.
#![tactic(auto)]

mod needs;
mod numbers;
mod ordered;
mod planning;
mod refusing;
mod turns;

pub use ordered::in_order;
pub use planning::plan;
