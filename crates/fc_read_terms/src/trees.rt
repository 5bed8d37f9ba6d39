//! Expressions of several parts. Where there are many parts, they are put together from the last one.
ghost use Rattle.std.specs.Prelude.{◌≡◌, false, map, IfOk};
ghost use Rattle.fc_syntax.specs.Tree.{EVar, ELit, ECon, EFail, EJoin, EJump, ELet, EPrim, NoBinds, MoreBinds, NoJoins, MoreJoins};
ghost use Rattle.fc_syntax.specs.View.{arg_of, args_of, bind_of, binders_of, expr_of, exprs_of, join_of, ty_of};
ghost use Rattle.fc_model.specs.Grammar.{applications, lambdas as spec_lambdas};

use fc_syntax::{Arg, Bind, Binder, Expr, JoinBind, Memory, Name, PrimOp, Seq, Text, Ty};
use std::alloc::Global;

#[tactic(auto, using(fc_syntax::proofs::View::view_rules))]
pub(crate) fn variable(name: Name) -> Expr
    ensures { expr_of result ≡ EVar name }
{
    Expr::Var(name)
}

#[tactic(auto, using(fc_syntax::proofs::View::view_rules))]
pub(crate) fn literal(n: i64) -> Expr
    ensures { expr_of result ≡ ELit n }
{
    Expr::Lit(n)
}

#[tactic(auto, using(fc_syntax::proofs::View::view_rules))]
pub(crate) fn construction(name: Name, args: Seq<Arg>) -> Expr
    ensures { expr_of result ≡ ECon name (args_of args) }
{
    Expr::Con(name, args)
}

#[tactic(auto, using(fc_syntax::proofs::View::view_rules))]
pub(crate) fn primitive(op: PrimOp, args: Seq<Expr>) -> Expr
    ensures { expr_of result ≡ EPrim op (exprs_of args) }
{
    Expr::Prim(op, args)
}

#[tactic(auto, using(fc_syntax::proofs::View::view_rules))]
pub(crate) fn failure(t: Ty) -> Expr
    ensures { expr_of result ≡ EFail (ty_of t) }
{
    Expr::Fail(t)
}

#[tactic(auto, using(fc_syntax::proofs::View::view_rules))]
pub(crate) fn jump(name: Text, args: Seq<Arg>) -> Expr
    ensures { expr_of result ≡ EJump name (args_of args) }
{
    Expr::Jump(name, args)
}

/// A head applied to the first of these, then to the next, and so on.
#[inline(never)]
pub(crate) fn applied_to(alloc: Global, head: Expr, args: Seq<Arg>) -> Result<Expr, Memory>
    ensures { IfOk result (λ e. expr_of e ≡ applications (expr_of head) (map arg_of args)) }
{
    let mut e = head;
    for arg in args.into_vec() {
        e = Expr::application(alloc, e, arg)?;
    }
    Ok(e)
}

/// A lambda inside another for each binder.
#[inline(never)]
pub(crate) fn lambdas(alloc: Global, binders: Seq<Binder>, body: Expr) -> Result<Expr, Memory>
    ensures { IfOk result (λ e. expr_of e ≡ spec_lambdas (binders_of binders) (expr_of body)) }
{
    let mut left = binders.into_vec();
    let mut e = body;
    while let Some(binder) = left.pop() {
        e = Expr::lambda(alloc, binder, e)?;
    }
    Ok(e)
}

/// A let of one bind that is not recursive.
#[inline(never)]
pub(crate) fn one_bind(alloc: Global, bind: Bind, body: Expr) -> Result<Expr, Memory>
    ensures { IfOk result (λ e. expr_of e ≡ ELet false (MoreBinds (bind_of bind) NoBinds) (expr_of body)) }
{
    let mut binds = Seq::new(alloc);
    binds.push(bind)?;
    Expr::binding(alloc, false, binds, body)
}

/// One join point that is not recursive.
#[inline(never)]
pub(crate) fn one_join(alloc: Global, t: Ty, join: JoinBind, body: Expr) -> Result<Expr, Memory>
    ensures { IfOk result (λ e. expr_of e ≡ EJoin false (ty_of t) (MoreJoins (join_of join) NoJoins) (expr_of body)) }
{
    let mut joins = Seq::new(alloc);
    joins.push(join)?;
    Expr::joined(alloc, false, t, joins, body)
}
