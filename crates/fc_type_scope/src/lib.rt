//! Types where type variables are in scope, as numbers in a table: what is read, built and asked there, and what stands behind binders.
#![tactic(auto)]

mod binders;
mod ends;
mod entering;
mod scope;
mod scoped;

pub use binders::add_kind;
pub use ends::Ends;
pub use entering::Entered;
pub use scope::{Kinded, TypeScope};
