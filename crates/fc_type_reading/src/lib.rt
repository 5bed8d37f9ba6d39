//! The type of an expression, read off without judging its premises. Types are numbers in a table, where type variables are in scope.
#![tactic(auto)]

mod constructors;
mod pieces;
mod reading;

pub use pieces::applied_type;
pub use reading::type_read_off;
