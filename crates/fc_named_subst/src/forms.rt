//! Substitution in nameless forms.
ghost use Rattle.std.specs.Prelude.{◌≡◌, IfErr, IfOk, Ok};
ghost use Rattle.fc_syntax.specs.View.{expr_of};
ghost use Rattle.fc_model.specs.DeclaredWords.{top_by};
ghost use Rattle.fc_model.specs.Faulting.{and_then};
ghost use Rattle.fc_model.specs.NamelessView.{narg_of, nexpr_of};
ghost use Rattle.fc_model.specs.Replacing.{replaced as expr_replaced, unchanged, with_argument};
ghost use Rattle.fc_model.specs.Resolution.{resolved_arg, resolved_expr as expr_resolved};
ghost use Rattle.fc_model.specs.Says.{Refuses, Says};
ghost use Rattle.fc_scope.specs.ScopeWords.{locals_of};
ghost use Rattle.fc_named_subst.specs.Substituted.{IsApart, IsSubstituted, behind};
ghost use Rattle.fc_named_subst.specs.Tasks.{piece_of, task_judged};

use crate::pieces::{Piece, Task};
use fc_model::Flawed;
use fc_naming::named_expr;
use fc_resolve::resolved_expr;
use fc_resolve_parts::{resolved_co, resolved_ty};
use fc_scope::Scope as Around;
use fc_subst::{Replacement, substitute};
use fc_syntax::{Expr, Memory, NArg, NExpr};
use std::alloc::Global;

/// The nameless form of the expression, in which the word is the innermost one.
fn form_behind<'x>(alloc: Global, task: Task<'_>, around: &'x Around<'x>) -> Result<NExpr, Flawed>
    ensures { Says nexpr_of result (expr_resolved (top_by task.entry.top.now) (behind task.entry.word.now (piece_of task.entry.by) (locals_of around.now)) (expr_of task.entry.expr.now)) }
{
    match task.by {
        Piece::Term(_) => {
            let inner = Around::Value(task.word, &*around);
            resolved_expr(alloc, task.top, &inner, task.expr)
        }
        Piece::OfType(_) => {
            let inner = Around::Type(task.word, &*around);
            resolved_expr(alloc, task.top, &inner, task.expr)
        }
        Piece::OfCo(_) => {
            let inner = Around::Coercion(task.word, &*around);
            resolved_expr(alloc, task.top, &inner, task.expr)
        }
    }
}

/// The nameless form of what stands in place of the word.
#[tactic(auto, using(fc_syntax::proofs::View::view_rules))]
fn piece_form<'x>(alloc: Global, task: Task<'_>, around: &'x Around<'x>) -> Result<NArg, Flawed>
    ensures { Says narg_of result (resolved_arg (top_by task.entry.top.now) (locals_of around.now) (piece_of task.entry.by)) }
{
    match task.by {
        Piece::Term(e) => Ok(NArg::Term(resolved_expr(alloc, task.top, &*around, e)?)),
        Piece::OfType(t) => Ok(NArg::OfType(resolved_ty(alloc, task.top, &*around, t)?)),
        Piece::OfCo(g) => Ok(NArg::OfCo(resolved_co(alloc, task.top, &*around, g)?)),
    }
}

/// A nameless expression with an argument in place of its innermost variable.
#[tactic(auto, using(fc_syntax::proofs::View::view_rules))]
fn replaced(alloc: Global, e: &NExpr, by: &NArg) -> Result<NExpr, Memory>
    ensures { IfOk result (λ r. nexpr_of r ≡ expr_replaced (with_argument (narg_of by.now) unchanged) (nexpr_of e.now)) }
{
    let same = Replacement::Same;
    match by {
        NArg::Term(a) => {
            let replacement = Replacement::Value(a, &same);
            substitute(alloc, e, &replacement)
        }
        NArg::OfType(t) => {
            let replacement = Replacement::Type(t, &same);
            substitute(alloc, e, &replacement)
        }
        NArg::OfCo(g) => {
            let replacement = Replacement::Coercion(g, &same);
            substitute(alloc, e, &replacement)
        }
    }
}

/// A nameless expression with a piece in place of its innermost variable.
fn with_piece<'x>(
    alloc: Global,
    e: &NExpr,
    task: Task<'_>,
    around: &'x Around<'x>,
) -> Result<NExpr, Flawed>
    ensures { Says nexpr_of result (and_then (resolved_arg (top_by task.entry.top.now) (locals_of around.now) (piece_of task.entry.by)) (λ a. Ok (expr_replaced (with_argument a unchanged) (nexpr_of e.now)))) }
{
    let by = piece_form(alloc, task, &*around)?;
    Ok(replaced(alloc, e, &by)?)
}

/// The nameless form of the expression with that of the piece in place of the word.
fn substituted_form<'x>(
    alloc: Global,
    task: Task<'_>,
    around: &'x Around<'x>,
) -> Result<NExpr, Flawed>
    ensures { Says nexpr_of result (task_judged task.entry (locals_of around.now)) }
{
    let e = form_behind(alloc, task, &*around)?;
    with_piece(alloc, &e, task, &*around)
}

/// The expression with the piece in place of the word, where this is in scope.
#[tactic(auto, using(crate::proofs::Meaning::named_is_substituted))]
pub(crate) fn substituted<'x>(
    alloc: Global,
    task: Task<'_>,
    around: &'x Around<'x>,
) -> Result<Expr, Flawed>
    requires { IsApart (top_by task.top.now) }
    ensures told { IfOk result (λ r. IsSubstituted (top_by task.entry.top.now) (locals_of around.now) (expr_of r) (task_judged task.entry (locals_of around.now))) }
    ensures fault { IfErr result (λ e. Refuses e (task_judged task.entry (locals_of around.now))) }
{
    let form = substituted_form(alloc, task, &*around)?;
    Ok(named_expr(alloc, &form, task.top, &*around)?)
}
