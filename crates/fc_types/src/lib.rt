//! Types of nameless modules: whether two are the same, and the declarations that they name.
#![tactic(auto)]

mod declarations;
mod families;
mod keys;
mod kinds;
mod sameness;
mod tables;

pub use declarations::Declarations;
pub use families::{is_family_applied, params_of_family};
pub use kinds::is_lifted;
pub use sameness::{same_kind, same_name, same_role, same_type, same_word};
pub use tables::{DeclaredAxiom, DeclaredCon};
