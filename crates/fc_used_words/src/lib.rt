//! Which names of a nameless tree mean something, and the words that a piece of one uses: those by which the names in it are found again.
#![tactic(auto)]

mod around;
mod used_expressions;
mod used_types;

pub use around::Inside;
pub use used_expressions::{
    in_binder, in_group, in_joins, use_alts, use_binders, use_binds, use_expr, use_joins,
};
pub use used_types::{use_co, use_ty, use_tys};
