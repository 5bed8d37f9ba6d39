//! Types of a table as they are written: a number becomes a tree with words for its variables and names as a module says them.
#![tactic(auto)]

mod names;
mod walk;
mod words;

pub use walk::named_type;
