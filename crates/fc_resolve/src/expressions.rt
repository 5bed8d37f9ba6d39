//! Expressions, from words to distances.
ghost use Rattle.std.specs.Prelude.{◌≡◌, Ok, [], IfOk};
ghost use Rattle.fc_syntax.specs.Hints as kept;
ghost use Rattle.fc_syntax.specs.View.{arg_of, args_of, binder_of, expr_of, exprs_of};
ghost use Rattle.fc_model.specs.DeclaredWords.{top_by};
ghost use Rattle.fc_model.specs.Faulting.{under};
ghost use Rattle.fc_model.specs.NamelessView.{narg_of, nargs_of, nexpr_of, nexprs_of};
ghost use Rattle.fc_model.specs.Resolution.{enter, found_term, join_index, no_locals, resolved_var, resolved_expr as expr_resolved, resolved_exprs as exprs_resolved, resolved_arg as arg_resolved, resolved_args as args_resolved};
ghost use Rattle.fc_model.specs.Says.{Says};
ghost use Rattle.fc_scope.specs.ScopeWords.{locals_of};

use crate::alternatives::alternatives_below;
use crate::groups::{below_joins, below_values, bind_names, group, join_group, join_names};
use fc_model::{Declared, Flawed, deeper, flaw_here, next_part};
use fc_resolve_parts::{co_part, declared_term, first_binder, resolved_co, resolved_ty, ty_part};
use fc_scope::{Found, Scope};
use fc_syntax::{
    Arg, Binder, Expr, FaultKind, Memory, NArg, NExpr, Name, Ref, Seq, Text, boxed, part,
};
use std::alloc::Global;

/// A variable: the innermost binder of its word where it has no module, else a definition. The word of a join point is `Unbound`.
#[tactic(auto, using(fc_syntax::proofs::View::view_rules))]
fn variable(alloc: Global, top: &Declared, scope: &Scope, name: &Name) -> Result<NExpr, Flawed>
    ensures form { Says nexpr_of result (resolved_var (top_by top.now) (locals_of scope.now) name.now.module name.now.text) }
    ensures words { IfOk result (λ n. kept.expr_hints (expr_of n) ≡ []) }
{
    match &name.module {
        None => match scope.term(&name.text)? {
            Found::Value(distance) => Ok(NExpr::Var(Ref::Local(distance))),
            Found::Join(_) => Err(flaw_here(alloc, FaultKind::Unbound)),
            Found::Nowhere => {
                let name = declared_term(alloc, top, name)?;
                Ok(NExpr::Var(Ref::Top(name)))
            }
        },
        Some(_) => {
            let name = declared_term(alloc, top, name)?;
            Ok(NExpr::Var(Ref::Top(name)))
        }
    }
}

/// The distance of the join point that a jump names. Another word is `Unbound`.
fn join_point(alloc: Global, scope: &Scope, word: &Text) -> Result<u32, Flawed>
    ensures form { Says (λ i. i) result (join_index (found_term (locals_of scope.now).terms word.now)) }
{
    match scope.term(word)? {
        Found::Join(distance) => Ok(distance),
        Found::Value(_) => Err(flaw_here(alloc, FaultKind::Unbound)),
        Found::Nowhere => Err(flaw_here(alloc, FaultKind::Unbound)),
    }
}

/// An expression in a scope, where its variables become distances and its words the names of what they declare. The first word of it that is
/// not in scope is `Unbound`, and the first that is bound twice by one group `Duplicate`, whichever comes first.
#[cycle(resolve)]
#[tactic(auto, using(fc_syntax::proofs::View::view_rules))]
pub fn resolved_expr<'x>(
    alloc: Global,
    top: &Declared,
    scope: &'x Scope<'x>,
    e: &Expr,
) -> Result<NExpr, Flawed>
    ensures form { Says nexpr_of result (expr_resolved (top_by top.now) (locals_of scope.now) (expr_of e.now)) }
    ensures words { IfOk result (λ n. kept.expr_hints (expr_of n) ≡ kept.expr_hints (expr_of e.now)) }
{
    match e {
        Expr::Var(name) => variable(alloc, top, &*scope, name),
        Expr::Lit(n) => Ok(NExpr::Lit(*n)),
        Expr::App(f, a) => {
            let f = boxed_part(alloc, top, &*scope, f, part::HEAD)?;
            let a = boxed_arg(alloc, top, &*scope, a, part::ARGUMENT)?;
            Ok(NExpr::App(f, a))
        }
        Expr::Lam(binder, e) => {
            let b = first_binder(alloc, top, &*scope, binder)?;
            let e = below(alloc, top, &*scope, e, binder)?;
            Ok(NExpr::Lam(boxed(alloc, b)?, e))
        }
        Expr::Let(recursive, binds, e) => {
            let binds = binds.as_slice();
            let names = bind_names(alloc, binds)?;
            let members = group(alloc, top, &*scope, binds, *recursive, &names)?;
            let e = below_values(alloc, top, &*scope, e, binds, &names)?;
            Ok(NExpr::Let(*recursive, members, e))
        }
        Expr::Case(e, word, t, u, alts) => {
            let e = boxed_part(alloc, top, &*scope, e, part::SCRUTINEE)?;
            let t = ty_part(alloc, top, &*scope, t, part::SCRUTINEE_TYPE)?;
            let u = ty_part(alloc, top, &*scope, u, part::ANSWER_TYPE)?;
            let alts = alternatives_below(alloc, top, &*scope, alts.as_slice(), word)?;
            let word = word.copy(alloc)?;
            Ok(NExpr::Case(e, word, t, u, alts))
        }
        Expr::Cast(e, g) => {
            let e = boxed_part(alloc, top, &*scope, e, 0)?;
            let g = co_part(alloc, top, &*scope, g, 1)?;
            Ok(NExpr::Cast(e, g))
        }
        Expr::Con(name, args) => {
            let name = declared_term(alloc, top, name)?;
            let args = resolved_args(alloc, top, &*scope, args.as_slice())?;
            Ok(NExpr::Con(name, args))
        }
        Expr::Prim(op, operands) => {
            let operands = resolved_exprs(alloc, top, &*scope, operands.as_slice())?;
            Ok(NExpr::Prim(*op, operands))
        }
        Expr::Fail(t) => Ok(NExpr::Fail(ty_part(alloc, top, &*scope, t, part::TYPE)?)),
        Expr::Join(recursive, t, joins, e) => {
            let t = ty_part(alloc, top, &*scope, t, part::TYPE)?;
            let joins = joins.as_slice();
            let names = join_names(alloc, joins)?;
            let members = join_group(alloc, top, &*scope, joins, *recursive, &names)?;
            let e = below_joins(alloc, top, &*scope, e, joins, &names)?;
            Ok(NExpr::Join(*recursive, t, members, e))
        }
        Expr::Jump(word, args) => {
            let distance = join_point(alloc, &*scope, word)?;
            let args = resolved_args(alloc, top, &*scope, args.as_slice())?;
            Ok(NExpr::Jump(distance, args))
        }
    }
}

/// An expression that is the part of this number.
#[cycle(resolve)]
pub fn expr_part<'x>(
    alloc: Global,
    top: &Declared,
    scope: &'x Scope<'x>,
    e: &Expr,
    part: u32,
) -> Result<NExpr, Flawed>
    ensures form { Says nexpr_of result (under part (expr_resolved (top_by top.now) (locals_of scope.now) (expr_of e.now))) }
    ensures words { IfOk result (λ n. kept.expr_hints (expr_of n) ≡ kept.expr_hints (expr_of e.now)) }
{
    match resolved_expr(alloc, top, &*scope, e) {
        Ok(n) => Ok(n),
        Err(flawed) => Err(deeper(flawed, part)),
    }
}

/// The same in a box. What takes parts of an expression holds them so, since a function pays at entry for the size of what it holds.
#[cycle(resolve)]
pub fn boxed_part<'x>(
    alloc: Global,
    top: &Declared,
    scope: &'x Scope<'x>,
    e: &Expr,
    part: u32,
) -> Result<Box<NExpr>, Flawed>
    ensures form { Says (λ n. nexpr_of n.value) result (under part (expr_resolved (top_by top.now) (locals_of scope.now) (expr_of e.now))) }
    ensures words { IfOk result (λ n. kept.expr_hints (expr_of n.value) ≡ kept.expr_hints (expr_of e.now)) }
{
    match resolved_expr(alloc, top, &*scope, e) {
        Ok(n) => Ok(boxed(alloc, n)?),
        Err(flawed) => Err(deeper(flawed, part)),
    }
}

/// The body of a lambda, which is part 1, in the scope of its binder.
#[cycle(resolve)]
fn below<'x>(
    alloc: Global,
    top: &Declared,
    scope: &'x Scope<'x>,
    e: &Expr,
    binder: &'x Binder,
) -> Result<Box<NExpr>, Flawed>
    ensures form { Says (λ n. nexpr_of n.value) result (under 1 (expr_resolved (top_by top.now) (enter (binder_of binder.now) (locals_of scope.now)) (expr_of e.now))) }
    ensures words { IfOk result (λ n. kept.expr_hints (expr_of n.value) ≡ kept.expr_hints (expr_of e.now)) }
{
    match binder {
        Binder::Value(word, _) => {
            let inner = Scope::Value(&*word, &*scope);
            boxed_part(alloc, top, &inner, e, part::BODY)
        }
        Binder::OfType(word, _) => {
            let inner = Scope::Type(&*word, &*scope);
            boxed_part(alloc, top, &inner, e, part::BODY)
        }
        Binder::OfCo(word, _, _, _) => {
            let inner = Scope::Coercion(&*word, &*scope);
            boxed_part(alloc, top, &inner, e, part::BODY)
        }
    }
}

/// An argument in a scope.
#[cycle(resolve)]
fn resolved_arg<'x>(
    alloc: Global,
    top: &Declared,
    scope: &'x Scope<'x>,
    arg: &Arg,
) -> Result<NArg, Flawed>
    ensures form { Says narg_of result (arg_resolved (top_by top.now) (locals_of scope.now) (arg_of arg.now)) }
    ensures words { IfOk result (λ n. kept.arg_hints (arg_of n) ≡ kept.arg_hints (arg_of arg.now)) }
{
    match arg {
        Arg::Term(e) => Ok(NArg::Term(resolved_expr(alloc, top, &*scope, e)?)),
        Arg::OfType(t) => Ok(NArg::OfType(resolved_ty(alloc, top, &*scope, t)?)),
        Arg::OfCo(g) => Ok(NArg::OfCo(resolved_co(alloc, top, &*scope, g)?)),
    }
}

/// An argument that is the part of this number.
#[cycle(resolve)]
fn arg_part<'x>(
    alloc: Global,
    top: &Declared,
    scope: &'x Scope<'x>,
    arg: &Arg,
    part: u32,
) -> Result<NArg, Flawed>
    ensures form { Says narg_of result (under part (arg_resolved (top_by top.now) (locals_of scope.now) (arg_of arg.now))) }
    ensures words { IfOk result (λ n. kept.arg_hints (arg_of n) ≡ kept.arg_hints (arg_of arg.now)) }
{
    match resolved_arg(alloc, top, &*scope, arg) {
        Ok(n) => Ok(n),
        Err(flawed) => Err(deeper(flawed, part)),
    }
}

/// The same in a box.
#[cycle(resolve)]
fn boxed_arg<'x>(
    alloc: Global,
    top: &Declared,
    scope: &'x Scope<'x>,
    arg: &Arg,
    part: u32,
) -> Result<Box<NArg>, Flawed>
    ensures form { Says (λ n. narg_of n.value) result (under part (arg_resolved (top_by top.now) (locals_of scope.now) (arg_of arg.now))) }
    ensures words { IfOk result (λ n. kept.arg_hints (arg_of n.value) ≡ kept.arg_hints (arg_of arg.now)) }
{
    match resolved_arg(alloc, top, &*scope, arg) {
        Ok(n) => Ok(boxed(alloc, n)?),
        Err(flawed) => Err(deeper(flawed, part)),
    }
}

/// Arguments, which are the parts from 0 on.
#[cycle(resolve)]
#[tactic(auto, using(crate::proofs::Building::building_rules, crate::proofs::WordSteps::word_rules, std::proofs::lemmas::Grind::common_steps))]
fn resolved_args<'x>(
    alloc: Global,
    top: &Declared,
    scope: &'x Scope<'x>,
    args: &[Arg],
) -> Result<Seq<NArg>, Flawed>
    ensures form { Says nargs_of result (args_resolved (top_by top.now) (locals_of scope.now) 0 (args_of args.now)) }
    ensures words { IfOk result (λ n. kept.args_hints (args_of n) ≡ kept.args_hints (args_of args.now)) }
{
    let mut out = Seq::new(alloc);
    let mut at = 0u32;
    for a in args {
        let next = arg_part(alloc, top, &*scope, a, at)?;
        out.push(next)?;
        at = next_part(at)?;
    }
    Ok(out)
}

/// Operands, which are the parts from 0 on.
#[cycle(resolve)]
#[tactic(auto, using(crate::proofs::Building::building_rules, crate::proofs::WordSteps::word_rules, std::proofs::lemmas::Grind::common_steps))]
fn resolved_exprs<'x>(
    alloc: Global,
    top: &Declared,
    scope: &'x Scope<'x>,
    operands: &[Expr],
) -> Result<Seq<NExpr>, Flawed>
    ensures form { Says nexprs_of result (exprs_resolved (top_by top.now) (locals_of scope.now) 0 (exprs_of operands.now)) }
    ensures words { IfOk result (λ n. kept.exprs_hints (exprs_of n) ≡ kept.exprs_hints (exprs_of operands.now)) }
{
    let mut out = Seq::new(alloc);
    let mut at = 0u32;
    for e in operands {
        let next = expr_part(alloc, top, &*scope, e, at)?;
        out.push(next)?;
        at = next_part(at)?;
    }
    Ok(out)
}

/// The right side of a definition, which is part 1 and in which nothing is bound yet.
pub fn right_side(alloc: Global, top: &Declared, e: &Expr) -> Result<NExpr, Flawed>
    ensures form { Says nexpr_of result (under 1 (expr_resolved (top_by top.now) no_locals (expr_of e.now))) }
    ensures words { IfOk result (λ n. kept.expr_hints (expr_of n) ≡ kept.expr_hints (expr_of e.now)) }
{
    let scope = Scope::End;
    expr_part(alloc, top, &scope, e, part::RIGHT_SIDE)
}
