//! Whether each name of a nameless module means something, and that it does in what lints.
#![tactic(auto)]

mod declarations;
mod expressions;
mod laws;
mod types;
mod words;

pub use declarations::is_scoped;
pub use laws::{linted_are_scoped, test_agrees};
