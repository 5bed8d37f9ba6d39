//! Expressions at places: the one there is exchanged for another.
#![tactic(auto)]

mod exchanging;

pub use exchanging::exchange;
