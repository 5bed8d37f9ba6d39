//! The commuting row that reads types: a field of a constructor gets a let of its own, at the type that the constructor asks of it. It goes from an expression in its
//! context to what the row makes of it, and answers none where it does not apply.
#![tactic(auto)]

mod asked;
mod fields;

pub use fields::name_field;
