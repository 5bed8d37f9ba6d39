//! Something in place of a name.
ghost use Rattle.std.specs.Prelude.{IfErr, IfOk};
ghost use Rattle.fc_syntax.specs.Tree.{ATerm, AType, ACo};
ghost use Rattle.fc_syntax.specs.View.{co_of, expr_of, ty_of};
ghost use Rattle.fc_model.specs.Says.{Refuses};
ghost use Rattle.fc_named_subst.specs.Scopes.{locals_of_scope, top_of};
ghost use Rattle.fc_named_subst.specs.Substituted.{IsSubstituted, substituted};
ghost use Rattle.fc_named_subst.specs.Tasks.{piece_of};

use crate::entering::behind_names;
use crate::pieces::{Piece, Task};
use crate::scope::Scope;
use fc_model::Flawed;
use fc_scope::Scope as Around;
use fc_syntax::{Co, Expr, Text, Ty};
use std::alloc::Global;

/// An expression with a piece in place of a word.
fn subst_piece(
    alloc: Global,
    expr: &Expr,
    word: &Text,
    by: Piece<'_>,
    scope: &Scope,
) -> Result<Expr, Flawed>
    ensures told { IfOk result (λ r. IsSubstituted (top_of scope.now) (locals_of_scope scope.now) (expr_of r) (substituted (top_of scope.now) (locals_of_scope scope.now) word.now (piece_of by.entry) (expr_of expr.now))) }
    ensures fault { IfErr result (λ e. Refuses e (substituted (top_of scope.now) (locals_of_scope scope.now) word.now (piece_of by.entry) (expr_of expr.now))) }
{
    let top = scope.top(alloc)?;
    let around = Around::End;
    let task = Task {
        top: &top,
        expr,
        word,
        by,
    };
    behind_names(alloc, scope.words.as_slice(), task, &around, u32::MAX)
}

/// `by` for the value `x` in `e`. The expression stands in the scope with `x` as a value behind it, the innermost one; what stands for `x` stands in the scope, and
/// so does what comes out: no name is captured. A binder of `e` keeps its word unless that would hide a name that is used below it; then it takes the word with a
/// number, the first that is not used there. A name that is not in scope is `Unbound`, and a word that is bound twice by one group `Duplicate`: the first of them in
/// `e`, and then in `by`, is answered, with the numbers of the parts on the way to it. It stands in no declaration. Out of memory tells nothing of the names; it is
/// answered also where a distance or the depth of calls has no 32 bits. Calls go one level deeper wherever names and join points take turns in the scope.
pub fn subst_expr(
    alloc: Global,
    e: &Expr,
    x: &Text,
    by: &Expr,
    scope: &Scope,
) -> Result<Expr, Flawed>
    ensures told { IfOk result (λ r. IsSubstituted (top_of scope.now) (locals_of_scope scope.now) (expr_of r) (substituted (top_of scope.now) (locals_of_scope scope.now) x.now (ATerm (expr_of by.now)) (expr_of e.now))) }
    ensures fault { IfErr result (λ f. Refuses f (substituted (top_of scope.now) (locals_of_scope scope.now) x.now (ATerm (expr_of by.now)) (expr_of e.now))) }
{
    subst_piece(alloc, e, x, Piece::Term(by), scope)
}

/// `by` for the type `a` in `e`, which stands in the scope with `a` as a type behind it. All else is as for `subst_expr`.
pub fn subst_type(alloc: Global, e: &Expr, a: &Text, by: &Ty, scope: &Scope) -> Result<Expr, Flawed>
    ensures told { IfOk result (λ r. IsSubstituted (top_of scope.now) (locals_of_scope scope.now) (expr_of r) (substituted (top_of scope.now) (locals_of_scope scope.now) a.now (AType (ty_of by.now)) (expr_of e.now))) }
    ensures fault { IfErr result (λ f. Refuses f (substituted (top_of scope.now) (locals_of_scope scope.now) a.now (AType (ty_of by.now)) (expr_of e.now))) }
{
    subst_piece(alloc, e, a, Piece::OfType(by), scope)
}

/// `by` for the coercion `c` in `e`, which stands in the scope with `c` as a coercion behind it. All else is as for `subst_expr`.
pub fn subst_co(alloc: Global, e: &Expr, c: &Text, by: &Co, scope: &Scope) -> Result<Expr, Flawed>
    ensures told { IfOk result (λ r. IsSubstituted (top_of scope.now) (locals_of_scope scope.now) (expr_of r) (substituted (top_of scope.now) (locals_of_scope scope.now) c.now (ACo (co_of by.now)) (expr_of e.now))) }
    ensures fault { IfErr result (λ f. Refuses f (substituted (top_of scope.now) (locals_of_scope scope.now) c.now (ACo (co_of by.now)) (expr_of e.now))) }
{
    subst_piece(alloc, e, c, Piece::OfCo(by), scope)
}
