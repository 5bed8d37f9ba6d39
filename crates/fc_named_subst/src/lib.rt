//! Substitution on the named tree. Each call finds the nameless forms of its pieces, substitutes there, and writes its answer with words again, so that no name is
//! captured.
#![tactic(auto)]

mod entering;
mod forms;
mod fresh;
mod pieces;
mod scope;
mod substitute;

pub use fresh::freshen;
pub use scope::Scope;
pub use substitute::{subst_co, subst_expr, subst_type};
