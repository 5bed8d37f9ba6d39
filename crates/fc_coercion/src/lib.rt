//! What a coercion proves, or the first premise that fails.
#![tactic(auto)]

mod axioms;
mod coercions;

pub use coercions::{ends_of, ends_of_part};
