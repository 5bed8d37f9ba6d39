//! Types of a table as nameless trees again.
#![tactic(auto)]

mod ends;
mod kinds;
mod room;
mod walk;

pub use ends::{EndTrees, trees_of_ends};
pub use kinds::{kind_within, tree_of_kind};
pub use room::Room;
pub use walk::tree_of_type;
