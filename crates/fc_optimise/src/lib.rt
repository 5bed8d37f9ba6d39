//! The phases of a build on one module, against the interfaces of its imports.
#![tactic(auto)]

mod phases;

pub use phases::optimise;
