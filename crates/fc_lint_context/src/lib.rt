//! What is in scope where an expression is judged: what the module declares, with its types in a table, and the local variables and
//! join points by the numbers of their types.
#![tactic(auto)]

mod axioms;
mod coercions;
mod constructors;
mod context;
mod declared_types;
mod groups;
mod joins;
mod locals;

pub use axioms::plain_kinds;
pub use coercions::Coercions;
pub use constructors::param_kinds;
pub use context::Context;
pub use declared_types::{DeclaredTypes, TypedAxiom, TypedCon};
pub use joins::{JoinPoint, Joins};
pub use locals::Locals;
