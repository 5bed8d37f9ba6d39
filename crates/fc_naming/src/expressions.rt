//! Expressions with words for their binders.
ghost use Rattle.std.specs.Prelude.{◌≡◌, if◌then◌else◌, length, IfOk};
ghost use Rattle.fc_syntax.specs.Tree.{ELam};
ghost use Rattle.fc_syntax.specs.View.{alts_of, arg_of, args_of, binder_of, binders_of, binds_of, expr_of, exprs_of, joins_of};
ghost use Rattle.fc_model.specs.Resolution.{bind_words, join_words};
ghost use Rattle.fc_model.specs.DeclaredWords.{top_by};
ghost use Rattle.fc_scope.specs.ScopeWords.{locals_of, with_joins, with_values};
ghost use Rattle.fc_naming.specs.Named.{IsNamedAlts, IsNamedArg, IsNamedArgs, IsNamedBelow, IsNamedBinds, IsNamedExpr, IsNamedExprs, IsNamedJoins};

use crate::binders::{add_binder, binders_below, lambda_binder};
use crate::coercions::named_co;
use crate::members::{Group, let_words, point_words};
use crate::names::written;
use crate::types::named_ty;
use crate::variables::{join_point, local, named_head, word_around};
use fc_model::Declared;
use fc_scope::{Binders, Scope};
use fc_syntax::{
    Alt, Arg, Bind, Binder, Expr, JoinBind, Memory, NAlt, NArg, NBind, NBinder, NExpr, NJoinBind,
    Ref, Seq, Text, boxed,
};
use std::alloc::Global;

/// An expression as it is written in a scope.
#[cycle(naming)]
#[tactic(auto, using(fc_syntax::proofs::View::view_rules, crate::proofs::NamedExpressions::expression_names, crate::proofs::NamedGroups::group_names))]
pub fn named_expr<'x>(
    alloc: Global,
    e: &NExpr,
    top: &Declared,
    scope: &'x Scope<'x>,
) -> Result<Expr, Memory>
    ensures { IfOk result (λ r. IsNamedExpr (top_by top.now) (locals_of scope.now) (expr_of e.now) (expr_of r)) }
{
    match e {
        NExpr::Var(Ref::Local(distance)) => Ok(Expr::Var(local(alloc, &*scope, *distance)?)),
        NExpr::Var(Ref::Top(name)) => Ok(Expr::Var(written(alloc, top, name)?)),
        NExpr::Lit(n) => Ok(Expr::Lit(*n)),
        NExpr::App(f, a) => {
            let f = named_expr(alloc, f, top, &*scope)?;
            let a = named_arg(alloc, a, top, &*scope)?;
            Ok(Expr::App(boxed(alloc, f)?, boxed(alloc, a)?))
        }
        NExpr::Lam(binder, e) => lambda(alloc, e, top, &*scope, binder),
        NExpr::Let(recursive, binds, e) => {
            let binds = binds.as_slice();
            let group = let_words(alloc, e, top, &*scope, *recursive, binds)?;
            let members = let_binds(alloc, binds, top, &*scope, *recursive, &group)?;
            let inner = Scope::Values(&group.names, &*scope);
            let e = named_expr(alloc, e, top, &inner)?;
            Ok(Expr::Let(*recursive, members, boxed(alloc, e)?))
        }
        NExpr::Case(e, hint, t, u, alts) => {
            let e = named_expr(alloc, e, top, &*scope)?;
            let t = named_ty(alloc, t, top, &*scope)?;
            let u = named_ty(alloc, u, top, &*scope)?;
            let word = word_around(alloc, alts.as_slice(), top, &*scope, hint)?;
            let inner = Scope::Value(&word, &*scope);
            let alts = named_alts(alloc, alts.as_slice(), top, &inner)?;
            Ok(Expr::Case(boxed(alloc, e)?, word, t, u, alts))
        }
        NExpr::Cast(e, g) => {
            let e = named_expr(alloc, e, top, &*scope)?;
            let g = named_co(alloc, g, top, &*scope)?;
            Ok(Expr::Cast(boxed(alloc, e)?, g))
        }
        NExpr::Con(name, args) => {
            let name = written(alloc, top, name)?;
            let args = named_args(alloc, args.as_slice(), top, &*scope)?;
            Ok(Expr::Con(name, args))
        }
        NExpr::Prim(op, es) => {
            let es = named_exprs(alloc, es.as_slice(), top, &*scope)?;
            Ok(Expr::Prim(*op, es))
        }
        NExpr::Fail(t) => Ok(Expr::Fail(named_ty(alloc, t, top, &*scope)?)),
        NExpr::Join(recursive, t, joins, e) => {
            let t = named_ty(alloc, t, top, &*scope)?;
            let joins = joins.as_slice();
            let group = point_words(alloc, e, top, &*scope, *recursive, joins)?;
            let members = join_members(alloc, joins, top, &*scope, *recursive, &group)?;
            let inner = Scope::Joins(&group.names, &*scope);
            let e = named_expr(alloc, e, top, &inner)?;
            Ok(Expr::Join(*recursive, t, members, boxed(alloc, e)?))
        }
        NExpr::Jump(distance, args) => {
            let word = join_point(alloc, &*scope, *distance)?;
            let args = named_args(alloc, args.as_slice(), top, &*scope)?;
            Ok(Expr::Jump(word, args))
        }
    }
}

#[cycle(naming)]
#[tactic(auto, using(fc_syntax::proofs::View::view_rules, crate::proofs::NamedExpressions::argument_names))]
fn named_arg<'x>(
    alloc: Global,
    arg: &NArg,
    top: &Declared,
    scope: &'x Scope<'x>,
) -> Result<Arg, Memory>
    ensures { IfOk result (λ r. IsNamedArg (top_by top.now) (locals_of scope.now) (arg_of arg.now) (arg_of r)) }
{
    match arg {
        NArg::Term(e) => Ok(Arg::Term(named_expr(alloc, e, top, &*scope)?)),
        NArg::OfType(t) => Ok(Arg::OfType(named_ty(alloc, t, top, &*scope)?)),
        NArg::OfCo(g) => Ok(Arg::OfCo(named_co(alloc, g, top, &*scope)?)),
    }
}

#[cycle(naming)]
fn named_args<'x>(
    alloc: Global,
    args: &[NArg],
    top: &Declared,
    scope: &'x Scope<'x>,
) -> Result<Seq<Arg>, Memory>
    ensures { IfOk result (λ r. IsNamedArgs (top_by top.now) (locals_of scope.now) (args_of args.now) (args_of r)) }
{
    let mut out = Seq::new(alloc);
    for arg in args {
        let next = named_arg(alloc, arg, top, &*scope)?;
        out.push(next)?;
    }
    Ok(out)
}

#[cycle(naming)]
fn named_exprs<'x>(
    alloc: Global,
    es: &[NExpr],
    top: &Declared,
    scope: &'x Scope<'x>,
) -> Result<Seq<Expr>, Memory>
    ensures { IfOk result (λ r. IsNamedExprs (top_by top.now) (locals_of scope.now) (exprs_of es.now) (exprs_of r)) }
{
    let mut out = Seq::new(alloc);
    for e in es {
        let next = named_expr(alloc, e, top, &*scope)?;
        out.push(next)?;
    }
    Ok(out)
}

/// A lambda over one binder.
#[cycle(naming)]
#[tactic(auto, using(fc_syntax::proofs::View::view_rules))]
fn lambda<'x>(
    alloc: Global,
    e: &NExpr,
    top: &Declared,
    scope: &'x Scope<'x>,
    binder: &NBinder,
) -> Result<Expr, Memory>
    ensures { IfOk result (λ r. IsNamedExpr (top_by top.now) (locals_of scope.now) (ELam (binder_of binder.now) (expr_of e.now)) (expr_of r)) }
{
    let binder = lambda_binder(alloc, e, top, &*scope, binder)?;
    let mut words = Binders::new(alloc);
    add_binder(alloc, &mut words, &binder)?;
    let inner = Scope::Binders(&words, &*scope);
    let e = named_expr(alloc, e, top, &inner)?;
    Ok(Expr::Lam(boxed(alloc, binder)?, boxed(alloc, e)?))
}

// LETS

/// The right sides of a group, whose words are chosen.
#[cycle(naming)]
fn named_binds<'x>(
    alloc: Global,
    binds: &[NBind],
    top: &Declared,
    scope: &'x Scope<'x>,
    words: &[Text],
) -> Result<Seq<Bind>, Memory>
    requires { length words.now ≡ length binds.now }
    ensures named { IfOk result (λ r. IsNamedBinds (top_by top.now) (locals_of scope.now) (binds_of binds.now) (binds_of r)) }
    ensures words { IfOk result (λ r. bind_words (binds_of r) ≡ words.now) }
{
    let mut out = Seq::new(alloc);
    for (i, bind) in binds.iter().enumerate() {
        let ty = named_ty(alloc, &bind.ty, top, &*scope)?;
        let rhs = named_expr(alloc, &bind.rhs, top, &*scope)?;
        let name = words[i].copy(alloc)?;
        out.push(Bind { name, ty, rhs })?;
    }
    Ok(out)
}

/// The members of a let's group, which are in its scope where it is recursive.
#[cycle(naming)]
fn let_binds<'x>(
    alloc: Global,
    binds: &[NBind],
    top: &Declared,
    scope: &'x Scope<'x>,
    recursive: bool,
    group: &'x Group,
) -> Result<Seq<Bind>, Memory>
    requires { length group.now.words ≡ length binds.now }
    ensures named { IfOk result (λ r. IsNamedBinds (top_by top.now) (if recursive then with_values group.now.names (locals_of scope.now) else locals_of scope.now) (binds_of binds.now) (binds_of r)) }
    ensures words { IfOk result (λ r. bind_words (binds_of r) ≡ group.now.words) }
{
    let inner = Scope::Values(&group.names, &*scope);
    let words = group.words.as_slice();
    let binds = if recursive {
        named_binds(alloc, binds, top, &inner, words)?
    } else {
        named_binds(alloc, binds, top, &*scope, words)?
    };
    Ok(binds)
}

// JOIN POINTS AND ALTERNATIVES

/// Binders with an expression below them.
#[derive(Drop)]
struct Below {
    binders: Seq<Binder>,
    body: Expr,
}

/// An expression below the binders of an alternative or of a join point.
#[cycle(naming)]
fn named_below<'x>(
    alloc: Global,
    e: &NExpr,
    top: &Declared,
    scope: &'x Scope<'x>,
    binders: &[NBinder],
) -> Result<Below, Memory>
    ensures { IfOk result (λ r. IsNamedBelow (top_by top.now) (locals_of scope.now) (binders_of binders.now) (expr_of e.now) (binders_of r.binders) (expr_of r.body)) }
{
    let named = binders_below(alloc, e, top, &*scope, binders)?;
    let inner = Scope::Binders(&named.words, &*scope);
    let body = named_expr(alloc, e, top, &inner)?;
    let binders = named.binders;
    Ok(Below { binders, body })
}

/// The join points of a group, whose words are chosen.
#[cycle(naming)]
fn named_joins<'x>(
    alloc: Global,
    joins: &[NJoinBind],
    top: &Declared,
    scope: &'x Scope<'x>,
    words: &[Text],
) -> Result<Seq<JoinBind>, Memory>
    requires { length words.now ≡ length joins.now }
    ensures named { IfOk result (λ r. IsNamedJoins (top_by top.now) (locals_of scope.now) (joins_of joins.now) (joins_of r)) }
    ensures words { IfOk result (λ r. join_words (joins_of r) ≡ words.now) }
{
    let mut out = Seq::new(alloc);
    for (i, join) in joins.iter().enumerate() {
        let below = named_below(alloc, &join.rhs, top, &*scope, join.params.as_slice())?;
        let name = words[i].copy(alloc)?;
        let params = below.binders;
        let rhs = below.body;
        out.push(JoinBind { name, params, rhs })?;
    }
    Ok(out)
}

/// The members of a group of join points, which are in its scope where it is recursive.
#[cycle(naming)]
fn join_members<'x>(
    alloc: Global,
    joins: &[NJoinBind],
    top: &Declared,
    scope: &'x Scope<'x>,
    recursive: bool,
    group: &'x Group,
) -> Result<Seq<JoinBind>, Memory>
    requires { length group.now.words ≡ length joins.now }
    ensures named { IfOk result (λ r. IsNamedJoins (top_by top.now) (if recursive then with_joins group.now.names (locals_of scope.now) else locals_of scope.now) (joins_of joins.now) (joins_of r)) }
    ensures words { IfOk result (λ r. join_words (joins_of r) ≡ group.now.words) }
{
    let inner = Scope::Joins(&group.names, &*scope);
    let words = group.words.as_slice();
    let joins = if recursive {
        named_joins(alloc, joins, top, &inner, words)?
    } else {
        named_joins(alloc, joins, top, &*scope, words)?
    };
    Ok(joins)
}

/// The alternatives of a case.
#[cycle(naming)]
fn named_alts<'x>(
    alloc: Global,
    alts: &[NAlt],
    top: &Declared,
    scope: &'x Scope<'x>,
) -> Result<Seq<Alt>, Memory>
    ensures { IfOk result (λ r. IsNamedAlts (top_by top.now) (locals_of scope.now) (alts_of alts.now) (alts_of r)) }
{
    let mut out = Seq::new(alloc);
    for alt in alts {
        let head = named_head(alloc, &alt.head, top)?;
        let below = named_below(alloc, &alt.body, top, &*scope, alt.binders.as_slice())?;
        let binders = below.binders;
        let body = below.body;
        out.push(Alt {
            head,
            binders,
            body,
        })?;
    }
    Ok(out)
}
