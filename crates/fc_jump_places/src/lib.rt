//! Where the first jump to a join point stands in an expression.
#![tactic(auto)]

mod finding;

pub use finding::jump_place;
