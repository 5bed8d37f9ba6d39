//! What a module is told of those built before it: their declarations, and of their right sides those that their interfaces tell.
#![tactic(auto)]

mod reaching;
mod telling;

pub use reaching::reached;
pub use telling::told;
