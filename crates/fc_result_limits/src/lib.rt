//! The limits on what rewriting makes of a module, and that the words of binders count for none of them.
#![tactic(auto)]

mod limits;

pub use limits::is_within_limits;
