//! What takes arguments, the alternatives of a case, and the other premises that are judged behind those of the parts. Types are numbers
//! in a table, where type variables are in scope.
#![tactic(auto)]

mod alternatives;
mod arguments;
mod premises;

pub use alternatives::{Before, constructor_goes, default_goes, literal_goes};
pub use arguments::{Given, applied, called, is_atom, operated};
pub use premises::{
    bind_takes, body_fits, case_type, cast_type, fail_type, join_type, leaves_as, pays,
};
