//! From distances back to names: the named module in which a nameless one is written.
#![tactic(auto)]

mod binders;
mod choose;
mod coercions;
mod declarations;
mod error;
mod expressions;
mod members;
mod module;
mod names;
mod params;
mod taken;
mod types;
mod used;
mod variables;

pub use choose::first_free;
pub use error::NotNamed;
pub use expressions::named_expr;
pub use module::name_back;
