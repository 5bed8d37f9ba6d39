//! Expressions, types and coercions in place of the variables of a nameless tree, all at once, by copying it: `Replacement` says what stands in place of
//! each variable. What is put in below binders goes past them, so that no variable is captured.
#![tactic(auto)]

mod arguments;
mod coercions;
mod expressions;
mod parts;
mod replacement;
mod shift;
mod types;

pub use arguments::substitute_arguments;
pub use coercions::substitute_in_coercion;
pub use expressions::substitute;
pub use parts::{substitute_in_alternatives, substitute_in_argument, substitute_in_arguments};
pub use replacement::Replacement;
pub use shift::{NO_BINDERS, Shift};
pub use types::substitute_in_type;
