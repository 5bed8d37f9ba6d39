//! The commuting rows: a let moves out of what stands around it, to where a shrinking row may meet what it stood in the way of. One function for each row,
//! from an expression to what the row makes of it; it answers none where the row does not apply.
#![tactic(auto)]

mod outward;

pub use outward::{application_of_let, case_of_let, cast_of_let, let_of_let};
