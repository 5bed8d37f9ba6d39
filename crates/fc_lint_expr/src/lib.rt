//! The type of an expression, or the first premise of typing that fails. Types are numbers in a table: equal types have one number, so
//! that a type is neither copied nor compared piece by piece.
#![tactic(auto)]

mod arguments;
mod binding;
mod cases;
mod expressions;
mod joins;
mod lets;
mod written;

pub use expressions::{has_type, judge, lint};
