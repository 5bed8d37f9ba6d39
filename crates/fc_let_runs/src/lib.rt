//! Runs of lets whose right sides are atoms, which are variables, names and literals, one let in the body of the other. All lets of a run are put in by one copy
//! of the body of the innermost; the row that takes one let at a time copies that body for each of them.
#![tactic(auto)]

mod runs;

pub use runs::{Run, let_atoms};
