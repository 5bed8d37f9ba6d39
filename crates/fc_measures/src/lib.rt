//! How large the named syntax tree of Core is: nodes, size and depth.
#![tactic(auto)]

mod depths;
mod node_counts;
mod sizes;
mod sums;

pub use depths::depth;
pub use node_counts::nodes;
pub use sizes::{size, size_of_decl};
pub use sums::add;
