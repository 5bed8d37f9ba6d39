//! The words that are bound around a piece of a tree, by their space: types, values and join points, coercions.
#![tactic(auto)]

mod binders;
mod names;
mod scope;
mod table;
mod words;

pub use binders::Binders;
pub use names::Names;
pub use scope::{Found, Scope};
pub use words::{coercion_word, join_word, type_word, value_word};
