//! The rewriting of expressions: what its definitions speak of, which stand in `specs`. In code how often variables and join points occur.
#![tactic(auto)]

mod occurrence;

pub use occurrence::Occurrence;
