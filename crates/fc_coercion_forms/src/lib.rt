//! What each form of coercion proves from what its parts prove, or the first of its own premises that fails. Types are numbers in a table, so
//! that types that double stay small.
#![tactic(auto)]

mod axioms;
mod constructions;
mod forms;
mod instances;
mod kinds;
mod parts;
mod quantifiers;
mod roles;
mod sides;

pub use axioms::{Pair, at_all_ends, fit};
pub use constructions::constructed;
pub use forms::{applied, function, joined, represented};
pub use instances::instance;
pub use parts::part;
pub use quantifiers::{quantified, taking};
pub use sides::{arguments, heads};
