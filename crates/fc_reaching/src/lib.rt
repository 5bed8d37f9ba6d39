//! Which definitions of a module one reaches by what right sides mention, which reach themselves, and which none of some words reaches.
#![tactic(auto)]

mod definitions;
mod firsts;
mod mentions;
mod reaching;
mod recursion;
mod remaining;

pub use firsts::first_definitions;
pub use reaching::{mentions_of_each, reaches};
pub use recursion::recursive;
pub use remaining::unreached;
