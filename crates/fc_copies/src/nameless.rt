//! Copies of the nameless tree.
mod expressions;
mod modules;

pub use expressions::{
    copy_alt, copy_alts, copy_arg, copy_args, copy_bind, copy_binds, copy_expr, copy_exprs,
    copy_join, copy_joins,
};
pub use modules::{copy_decl, copy_module};
