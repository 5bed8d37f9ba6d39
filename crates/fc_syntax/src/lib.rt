//! The syntax trees of Core (System FC), named and nameless, its faults, limits and tokens. Both trees are one, at two kinds of
//! variables: words and names as they were read, or distances to binders.
#![tactic(auto)]

mod boxes;
mod co;
mod copy;
mod expr;
mod fault;
pub mod generic;
mod instances;
mod keyword;
mod limits;
mod make;
mod module;
pub mod part;
mod seq;
mod text;
mod token;
mod ty;
mod words;

pub use boxes::{boxed, boxed_copy};
pub use copy::{Variable, copy_binders, copy_params, copy_plains, copy_words};
pub use expr::{Head, PrimOp};
pub use fault::{Fault, FaultKind, Memory, Place, Refusal};
pub use instances::{
    Alt, Arg, Bind, Binder, Co, ConDecl, Decl, Expr, JoinBind, Module, NAlt, NArg, NBind, NBinder,
    NCo, NConDecl, NDecl, NExpr, NJoinBind, NModule, NTy, Ty,
};
pub use keyword::Keyword;
pub use limits::Limits;
pub use module::{Param, Plain};
pub use seq::Seq;
pub use text::Text;
pub use token::{Token, TokenKind};
pub use ty::{Kind, Name, Ref, Role};
pub use words::WordTable;
