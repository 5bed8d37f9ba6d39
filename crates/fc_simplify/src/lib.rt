//! The simplify phase on one module: rows of the rewrite table are taken, shrinking and commuting ones, until none applies any more.
#![tactic(auto)]

mod dropping;
mod lines;
mod rounds;
mod runs;
mod settling;
mod steps;
mod taking;
mod waiting;

pub use rounds::simplify;
