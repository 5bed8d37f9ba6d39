//! How large nameless trees are: nodes, size and depth, found in one walk.
#![tactic(auto)]

mod declarations;
mod expressions;
mod measures;
mod types;

pub use declarations::{measures_of_decl, measures_of_module};
pub use expressions::measures_of_expr;
pub use measures::Measures;
