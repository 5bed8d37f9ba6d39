//! Readers of expressions and declarations: each takes what it reads from the tokens ahead, or says where it stops.
#![tactic(auto)]

mod alternatives;
mod declarations;
mod expressions;
mod groups;
mod trees;

pub use declarations::{read_declaration, read_declaration_form};
pub use expressions::read_expression;
