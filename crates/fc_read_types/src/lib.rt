//! Readers of kinds, types, coercions, binders, parameters and constructors: each takes what it reads from the tokens ahead, or says where it
//! stops.
#![tactic(auto)]

mod binders;
mod coercions;
mod kinds;
mod parameters;
mod types;

pub use binders::{read_binder, read_binders, read_some_binders};
pub use coercions::read_coercion;
pub use kinds::read_kind;
pub use parameters::{read_constructors, read_parameters, read_plain_parameters};
pub use types::{read_type, read_types};
