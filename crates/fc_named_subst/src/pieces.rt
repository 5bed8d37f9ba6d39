//! What stands in place of a name, and where.
use fc_model::Declared;
use fc_syntax::{Co, Expr, Text, Ty};

/// What stands in place of a name.
#[derive(Clone, Copy)]
pub(crate) enum Piece<'t> {
    /// An expression, for a value.
    Term(&'t Expr),
    /// A type.
    OfType(&'t Ty),
    /// A coercion.
    OfCo(&'t Co),
}

/// A substitution that is asked for.
#[derive(Clone, Copy)]
pub(crate) struct Task<'t> {
    /// What words mean, local ones aside.
    pub(crate) top: &'t Declared,
    /// In which expression.
    pub(crate) expr: &'t Expr,
    /// For which word.
    pub(crate) word: &'t Text,
    /// By what.
    pub(crate) by: Piece<'t>,
}
