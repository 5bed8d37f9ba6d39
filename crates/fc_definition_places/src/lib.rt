//! Where modules define words: a table that is made once, and that serves while right sides change.
#![tactic(auto)]

mod building;
mod keys;
mod places;

pub use places::DefinitionPlaces;
