//! The needs of parameters: the least role at which each occurs in what its declaration holds.
#![tactic(auto)]

mod arguments;
mod constructors;
mod needs;
mod types;

pub use arguments::{later_params, next_role, params_of_name, roled_params};
pub use constructors::needs_of_constructors;
pub use needs::{Needs, role_within};
pub use types::needs_of_type;
