//! Types, coercions, binders and parameters, from words to distances.
#![tactic(auto)]

mod binders;
mod coercions;
mod names;
mod params;
mod types;

pub use binders::{Entered, first_binder, resolved_binders};
pub use coercions::{co_part, resolved_co};
pub use names::{declared_axiom, declared_term, declared_type};
pub use params::{param_names, plain_names, ty_in_params};
pub use types::{resolved_ty, resolved_tys, ty_part};
