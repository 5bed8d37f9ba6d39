//! The shrinking row of a case of what is known: of a constructor, of a literal, or of a variable that is known to be one of these.
#![tactic(auto)]

mod alternatives;
mod arguments;
mod constructors;
mod found;
mod known;
mod scrutinees;
mod variables;

pub use constructors::MOST_TERMS;
pub use known::case_known;
