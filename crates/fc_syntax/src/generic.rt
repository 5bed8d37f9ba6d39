//! The types of both trees, for what is written once for the named and the nameless one: `L` is what a variable of a type is, `V` what
//! a variable of a term is.
pub use crate::co::Co;
pub use crate::expr::{Alt, Arg, Bind, Binder, Expr, JoinBind};
pub use crate::module::{ConDecl, Decl, Module};
pub use crate::ty::Ty;
