//! What stands in place of the variables of an expression.
ghost use Rattle.std.specs.Prelude.{◌≡◌, ◌+◌, if◌then◌else◌, ◌++◌, IfOk, OnOk};
ghost use Rattle.fc_model.specs.Nameless.{NCase, NJoin, NLet, NLocal};
ghost use Rattle.fc_model.specs.NamelessView.{nty_of, nbinder_of, nbinders_of, nexpr_of, nexprs_of, narg_of, nargs_of, nbind_of, nbinds_of, njoin_of, njoins_of, nalt_of, nalts_of};
ghost use Rattle.fc_model.specs.Replacing.{below_binder, below_binders, below_joins, below_values, expressions, put_in_alt, put_in_alts, put_in_arg, put_in_args, put_in_bind, put_in_binds, put_in_exprs, put_in_join, put_in_joins, renamed, replaced, replaced_binder, replaced_binders, types_behind, whole_coercions};
ghost use Rattle.fc_subst.specs.Replacements.{lifted_of, renaming_of, replacement_of};

use crate::coercions::coercion_with;
use crate::replacement::{Lifted, Replacement};
use crate::shift::{NO_BINDERS, Shift};
use crate::types::type_with;
use fc_numbers::{deeper, number, sum};
use fc_syntax::{
    Memory, NAlt, NArg, NBind, NBinder, NExpr, NJoinBind, NTy, Ref, Seq, Text, boxed_copy,
};
use std::alloc::Global;

/// A variable of a value.
#[tactic(auto, using(fc_syntax::proofs::View::view_rules))]
fn local(number: u32) -> NExpr
    ensures { nexpr_of result ≡ NLocal number }
{
    NExpr::Var(Ref::Local(number))
}

/// What stands for a variable of a value, past so many binders more.
#[cycle(expressions)]
fn value_at<'x>(
    alloc: Global,
    replacement: &'x Replacement<'x>,
    number: u32,
    past: Shift,
    fuel: u32,
) -> Result<NExpr, Memory>
    ensures { IfOk result (λ e. nexpr_of e ≡ renamed (renaming_of past) ((replacement_of replacement.now).values number)) }
{
    let fuel = deeper(fuel)?;
    match replacement {
        Replacement::Same => Ok(local(sum(number, past.values)?)),
        Replacement::Past(by) => {
            let number = sum(number, by.values)?;
            Ok(local(sum(number, past.values)?))
        }
        Replacement::Without(by) => {
            let number = number.saturating_sub(by.values);
            Ok(local(sum(number, past.values)?))
        }
        Replacement::Value(e, rest) => {
            if number == 0 {
                shifted_expression(alloc, e, past, fuel)
            } else {
                value_at(alloc, rest, number - 1, past, fuel)
            }
        }
        Replacement::Type(_, rest) => value_at(alloc, rest, number, past, fuel),
        Replacement::Coercion(_, rest) => value_at(alloc, rest, number, past, fuel),
    }
}

/// What stands for a variable of a value below binders.
#[cycle(expressions)]
fn value_for<'x>(alloc: Global, by: &'x Lifted<'x>, number: u32, fuel: u32) -> Result<NExpr, Memory>
    ensures { IfOk result (λ e. nexpr_of e ≡ (lifted_of by.now).values number) }
{
    let fuel = deeper(fuel)?;
    let past = by.past;
    if number < past.values {
        Ok(local(number))
    } else {
        value_at(alloc, by.replacement, number - past.values, past, fuel)
    }
}

/// An expression past so many binders more.
#[cycle(expressions)]
fn shifted_expression(alloc: Global, e: &NExpr, past: Shift, fuel: u32) -> Result<NExpr, Memory>
    ensures { IfOk result (λ r. nexpr_of r ≡ renamed (renaming_of past) (nexpr_of e.now)) }
{
    let fuel = deeper(fuel)?;
    let replacement = Replacement::Past(past);
    let by = Lifted {
        replacement: &replacement,
        past: NO_BINDERS,
    };
    expression_with(alloc, e, &by, fuel)
}

/// What stands for a join point.
#[cycle(join_at)]
fn join_at<'x>(replacement: &'x Replacement<'x>, number: u32) -> Result<u32, Memory>
    ensures { IfOk result (λ j. j ≡ (replacement_of replacement.now).joins number) }
{
    match replacement {
        Replacement::Same => Ok(number),
        Replacement::Past(by) => sum(number, by.joins),
        Replacement::Without(by) => Ok(number.saturating_sub(by.joins)),
        Replacement::Value(_, rest) => join_at(rest, number),
        Replacement::Type(_, rest) => join_at(rest, number),
        Replacement::Coercion(_, rest) => join_at(rest, number),
    }
}

/// What stands for a join point below binders.
fn join_for<'x>(by: &'x Lifted<'x>, number: u32) -> Result<u32, Memory>
    ensures { IfOk result (λ j. j ≡ (lifted_of by.now).joins number) }
{
    let past = by.past;
    if number < past.joins {
        Ok(number)
    } else {
        let number = join_at(by.replacement, number - past.joins)?;
        sum(number, past.joins)
    }
}

/// A binder with what stands in place of the variables of its types.
#[tactic(auto, using(fc_syntax::proofs::View::view_rules))]
fn binder_with<'x>(
    alloc: Global,
    binder: &NBinder,
    by: &'x Lifted<'x>,
    fuel: u32,
) -> Result<NBinder, Memory>
    ensures { IfOk result (λ b. nbinder_of b ≡ replaced_binder (lifted_of by.now).types (nbinder_of binder.now)) }
{
    match binder {
        NBinder::Value(x, t) => {
            let x = x.copy(alloc)?;
            let t = type_with(alloc, t, &*by, fuel)?;
            Ok(NBinder::Value(x, t))
        }
        NBinder::OfType(a, kind) => {
            let a = a.copy(alloc)?;
            Ok(NBinder::OfType(a, kind.copy(alloc)?))
        }
        NBinder::OfCo(c, role, left, right) => {
            let c = c.copy(alloc)?;
            let left = type_with(alloc, left, &*by, fuel)?;
            let right = type_with(alloc, right, &*by, fuel)?;
            Ok(NBinder::OfCo(c, *role, left, right))
        }
    }
}

/// An expression with what stands in place of its variables.
#[cycle(expressions)]
#[tactic(auto, using(fc_syntax::proofs::View::view_rules))]
pub(crate) fn expression_with<'x>(
    alloc: Global,
    e: &NExpr,
    by: &'x Lifted<'x>,
    fuel: u32,
) -> Result<NExpr, Memory>
    ensures { IfOk result (λ r. nexpr_of r ≡ replaced (lifted_of by.now) (nexpr_of e.now)) }
{
    let fuel = deeper(fuel)?;
    match e {
        NExpr::Var(Ref::Local(number)) => value_for(alloc, &*by, *number, fuel),
        NExpr::Var(Ref::Top(name)) => Ok(NExpr::Var(Ref::Top(name.copy(alloc)?))),
        NExpr::Lit(n) => Ok(NExpr::Lit(*n)),
        NExpr::App(f, a) => {
            let f = boxed_copy(alloc, expression_with(alloc, f, &*by, fuel))?;
            let a = boxed_copy(alloc, argument_with(alloc, a, &*by, fuel))?;
            Ok(NExpr::App(f, a))
        }
        NExpr::Lam(b, e) => {
            let binder = boxed_copy(alloc, binder_with(alloc, b, &*by, fuel))?;
            let e = boxed_copy(alloc, expression_behind(alloc, b, e, &*by, fuel))?;
            Ok(NExpr::Lam(binder, e))
        }
        NExpr::Let(recursive, binds, e) => {
            let_with(alloc, *recursive, binds.as_slice(), e, &*by, fuel)
        }
        NExpr::Case(s, x, t, u, alts) => {
            case_with(alloc, s, x, t, u, alts.as_slice(), &*by, fuel)
        }
        NExpr::Cast(e, g) => {
            let e = boxed_copy(alloc, expression_with(alloc, e, &*by, fuel))?;
            let g = coercion_with(alloc, g, &*by, fuel)?;
            Ok(NExpr::Cast(e, g))
        }
        NExpr::Con(name, args) => {
            let name = name.copy(alloc)?;
            let args = arguments_with(alloc, args.as_slice(), &*by, fuel)?;
            Ok(NExpr::Con(name, args))
        }
        NExpr::Prim(op, operands) => {
            let operands = expressions_with(alloc, operands.as_slice(), &*by, fuel)?;
            Ok(NExpr::Prim(*op, operands))
        }
        NExpr::Fail(t) => {
            let t = type_with(alloc, t, &*by, fuel)?;
            Ok(NExpr::Fail(t))
        }
        NExpr::Join(recursive, t, joins, e) => {
            join_with(alloc, *recursive, t, joins.as_slice(), e, &*by, fuel)
        }
        NExpr::Jump(j, args) => {
            let j = join_for(&*by, *j)?;
            let args = arguments_with(alloc, args.as_slice(), &*by, fuel)?;
            Ok(NExpr::Jump(j, args))
        }
    }
}

/// A let with what stands in place of its variables.
#[cycle(expressions)]
fn let_with<'x>(
    alloc: Global,
    recursive: bool,
    binds: &[NBind],
    e: &NExpr,
    by: &'x Lifted<'x>,
    fuel: u32,
) -> Result<NExpr, Memory>
    ensures { IfOk result (λ r. nexpr_of r ≡ replaced (lifted_of by.now) (NLet recursive (nbinds_of binds.now) (nexpr_of e.now))) }
{
    let fuel = deeper(fuel)?;
    let count = number(binds.len())?;
    let members = group_with(alloc, recursive, binds, count, &*by, fuel)?;
    let body = expression_below_values(alloc, e, count, &*by, fuel)?;
    NExpr::binding(alloc, recursive, members, body)
}

/// A case with what stands in place of its variables.
#[cycle(expressions)]
fn case_with<'x>(
    alloc: Global,
    s: &NExpr,
    x: &Text,
    t: &NTy,
    u: &NTy,
    alts: &[NAlt],
    by: &'x Lifted<'x>,
    fuel: u32,
) -> Result<NExpr, Memory>
    ensures { IfOk result (λ r. nexpr_of r ≡ replaced (lifted_of by.now) (NCase (nexpr_of s.now) (nty_of t.now) (nty_of u.now) (nalts_of alts.now))) }
{
    let fuel = deeper(fuel)?;
    let scrutinee = expression_with(alloc, s, &*by, fuel)?;
    let word = x.copy(alloc)?;
    let ty = type_with(alloc, t, &*by, fuel)?;
    let answer = type_with(alloc, u, &*by, fuel)?;
    let branches = alternatives_below(alloc, alts, &*by, fuel)?;
    NExpr::case_of(alloc, scrutinee, word, ty, answer, branches)
}

/// Join points with what stands in place of their variables.
#[cycle(expressions)]
fn join_with<'x>(
    alloc: Global,
    recursive: bool,
    t: &NTy,
    joins: &[NJoinBind],
    e: &NExpr,
    by: &'x Lifted<'x>,
    fuel: u32,
) -> Result<NExpr, Memory>
    ensures { IfOk result (λ r. nexpr_of r ≡ replaced (lifted_of by.now) (NJoin recursive (nty_of t.now) (njoins_of joins.now) (nexpr_of e.now))) }
{
    let fuel = deeper(fuel)?;
    let count = number(joins.len())?;
    let ty = type_with(alloc, t, &*by, fuel)?;
    let members = join_group_with(alloc, recursive, joins, count, &*by, fuel)?;
    let body = expression_below_joins(alloc, e, count, &*by, fuel)?;
    NExpr::joined(alloc, recursive, ty, members, body)
}

/// An argument with what stands in place of its variables.
#[cycle(expressions)]
#[tactic(auto, using(fc_syntax::proofs::View::view_rules))]
pub(crate) fn argument_with<'x>(
    alloc: Global,
    a: &NArg,
    by: &'x Lifted<'x>,
    fuel: u32,
) -> Result<NArg, Memory>
    ensures { IfOk result (λ r. narg_of r ≡ put_in_arg expressions whole_coercions (lifted_of by.now) (narg_of a.now)) }
{
    let fuel = deeper(fuel)?;
    match a {
        NArg::Term(e) => {
            let e = expression_with(alloc, e, &*by, fuel)?;
            Ok(NArg::Term(e))
        }
        NArg::OfType(t) => {
            let t = type_with(alloc, t, &*by, fuel)?;
            Ok(NArg::OfType(t))
        }
        NArg::OfCo(g) => {
            let g = coercion_with(alloc, g, &*by, fuel)?;
            Ok(NArg::OfCo(g))
        }
    }
}

/// An expression behind a binder.
#[cycle(expressions)]
fn expression_behind<'x>(
    alloc: Global,
    binder: &NBinder,
    e: &NExpr,
    by: &'x Lifted<'x>,
    fuel: u32,
) -> Result<NExpr, Memory>
    ensures { IfOk result (λ r. nexpr_of r ≡ replaced (below_binder expressions whole_coercions (nbinder_of binder.now) (lifted_of by.now)) (nexpr_of e.now)) }
{
    let fuel = deeper(fuel)?;
    match binder {
        NBinder::Value(_, _) => {
            let below = by.below_values(1)?;
            expression_with(alloc, e, &below, fuel)
        }
        NBinder::OfType(_, _) => {
            let below = by.below_type()?;
            expression_with(alloc, e, &below, fuel)
        }
        NBinder::OfCo(_, _, _, _) => {
            let below = by.below_coercion()?;
            expression_with(alloc, e, &below, fuel)
        }
    }
}

/// An expression below so many values.
#[cycle(expressions)]
fn expression_below_values<'x>(
    alloc: Global,
    e: &NExpr,
    count: u32,
    by: &'x Lifted<'x>,
    fuel: u32,
) -> Result<NExpr, Memory>
    ensures { IfOk result (λ r. nexpr_of r ≡ replaced (below_values expressions whole_coercions count (lifted_of by.now)) (nexpr_of e.now)) }
{
    let fuel = deeper(fuel)?;
    let below = by.below_values(count)?;
    expression_with(alloc, e, &below, fuel)
}

/// An expression below so many join points.
#[cycle(expressions)]
fn expression_below_joins<'x>(
    alloc: Global,
    e: &NExpr,
    count: u32,
    by: &'x Lifted<'x>,
    fuel: u32,
) -> Result<NExpr, Memory>
    ensures { IfOk result (λ r. nexpr_of r ≡ replaced (below_joins expressions whole_coercions count (lifted_of by.now)) (nexpr_of e.now)) }
{
    let fuel = deeper(fuel)?;
    let below = by.below_joins(count)?;
    expression_with(alloc, e, &below, fuel)
}

/// The binds of a let.
#[cycle(expressions)]
fn group_with<'x>(
    alloc: Global,
    recursive: bool,
    binds: &[NBind],
    count: u32,
    by: &'x Lifted<'x>,
    fuel: u32,
) -> Result<Seq<NBind>, Memory>
    ensures { IfOk result (λ r. nbinds_of r ≡ put_in_binds expressions whole_coercions (if recursive then below_values expressions whole_coercions count (lifted_of by.now) else lifted_of by.now) (nbinds_of binds.now)) }
{
    let fuel = deeper(fuel)?;
    if recursive {
        let below = by.below_values(count)?;
        binds_with(alloc, binds, &below, fuel)
    } else {
        binds_with(alloc, binds, &*by, fuel)
    }
}

/// The members of a group of join points.
#[cycle(expressions)]
fn join_group_with<'x>(
    alloc: Global,
    recursive: bool,
    joins: &[NJoinBind],
    count: u32,
    by: &'x Lifted<'x>,
    fuel: u32,
) -> Result<Seq<NJoinBind>, Memory>
    ensures { IfOk result (λ r. njoins_of r ≡ put_in_joins expressions whole_coercions (if recursive then below_joins expressions whole_coercions count (lifted_of by.now) else lifted_of by.now) (njoins_of joins.now)) }
{
    let fuel = deeper(fuel)?;
    if recursive {
        let below = by.below_joins(count)?;
        join_points_with(alloc, joins, &below, fuel)
    } else {
        join_points_with(alloc, joins, &*by, fuel)
    }
}

/// The alternatives of a case, below its binder.
#[cycle(expressions)]
fn alternatives_below<'x>(
    alloc: Global,
    alts: &[NAlt],
    by: &'x Lifted<'x>,
    fuel: u32,
) -> Result<Seq<NAlt>, Memory>
    ensures { IfOk result (λ r. nalts_of r ≡ put_in_alts expressions whole_coercions (below_values expressions whole_coercions 1 (lifted_of by.now)) (nalts_of alts.now)) }
{
    let fuel = deeper(fuel)?;
    let below = by.below_values(1)?;
    alternatives_with(alloc, alts, &below, fuel)
}

/// A bind with what stands in place of its variables.
#[cycle(expressions)]
fn bind_with<'x>(
    alloc: Global,
    bind: &NBind,
    by: &'x Lifted<'x>,
    fuel: u32,
) -> Result<NBind, Memory>
    ensures { IfOk result (λ r. nbind_of r ≡ put_in_bind expressions whole_coercions (lifted_of by.now) (nbind_of bind.now)) }
{
    let fuel = deeper(fuel)?;
    let name = bind.name.copy(alloc)?;
    let ty = type_with(alloc, &bind.ty, &*by, fuel)?;
    let rhs = expression_with(alloc, &bind.rhs, &*by, fuel)?;
    Ok(NBind { name, ty, rhs })
}

/// A join point with what stands in place of its variables.
#[cycle(expressions)]
fn join_point_with<'x>(
    alloc: Global,
    join: &NJoinBind,
    by: &'x Lifted<'x>,
    fuel: u32,
) -> Result<NJoinBind, Memory>
    ensures { IfOk result (λ r. njoin_of r ≡ put_in_join expressions whole_coercions (lifted_of by.now) (njoin_of join.now)) }
{
    let fuel = deeper(fuel)?;
    let name = join.name.copy(alloc)?;
    let mut params = Seq::new(alloc);
    let rhs = scoped_with(
        alloc,
        &mut params,
        join.params.as_slice(),
        &join.rhs,
        &*by,
        fuel,
    )?;
    Ok(NJoinBind { name, params, rhs })
}

/// An alternative with what stands in place of its variables.
#[cycle(expressions)]
fn alternative_with<'x>(
    alloc: Global,
    alt: &NAlt,
    by: &'x Lifted<'x>,
    fuel: u32,
) -> Result<NAlt, Memory>
    ensures { IfOk result (λ r. nalt_of r ≡ put_in_alt expressions whole_coercions (lifted_of by.now) (nalt_of alt.now)) }
{
    let fuel = deeper(fuel)?;
    let head = alt.head.copy(alloc)?;
    let mut binders = Seq::new(alloc);
    let body = scoped_with(
        alloc,
        &mut binders,
        alt.binders.as_slice(),
        &alt.body,
        &*by,
        fuel,
    )?;
    Ok(NAlt {
        head,
        binders,
        body,
    })
}

/// An expression behind binders, which go to the end of those that are done.
#[cycle(expressions)]
fn scoped_with<'x>(
    alloc: Global,
    done: &mut Seq<NBinder>,
    binders: &[NBinder],
    e: &NExpr,
    by: &'x Lifted<'x>,
    fuel: u32,
) -> Result<NExpr, Memory>
    ensures binders { OnOk result (nbinders_of done.new ≡ nbinders_of done.old ++ replaced_binders (lifted_of by.now).types (nbinders_of binders.now)) }
    ensures body { IfOk result (λ r. nexpr_of r ≡ replaced (below_binders expressions whole_coercions (nbinders_of binders.now) (lifted_of by.now)) (nexpr_of e.now)) }
{
    let fuel = deeper(fuel)?;
    match binders.split_first() {
        None => expression_with(alloc, e, &*by, fuel),
        Some((first, rest)) => {
            done.push(binder_with(alloc, first, &*by, fuel)?)?;
            further_with(alloc, done, first, rest, e, &*by, fuel)
        }
    }
}

/// An expression behind one binder that is done and then others.
#[cycle(expressions)]
fn further_with<'x>(
    alloc: Global,
    done: &mut Seq<NBinder>,
    first: &NBinder,
    rest: &[NBinder],
    e: &NExpr,
    by: &'x Lifted<'x>,
    fuel: u32,
) -> Result<NExpr, Memory>
    ensures binders { OnOk result (nbinders_of done.new ≡ nbinders_of done.old ++ replaced_binders (types_behind (nbinder_of first.now) (lifted_of by.now).types) (nbinders_of rest.now)) }
    ensures body { IfOk result (λ r. nexpr_of r ≡ replaced (below_binders expressions whole_coercions (nbinders_of rest.now) (below_binder expressions whole_coercions (nbinder_of first.now) (lifted_of by.now))) (nexpr_of e.now)) }
{
    let fuel = deeper(fuel)?;
    match first {
        NBinder::Value(_, _) => {
            let below = by.below_values(1)?;
            scoped_with(alloc, done, rest, e, &below, fuel)
        }
        NBinder::OfType(_, _) => {
            let below = by.below_type()?;
            scoped_with(alloc, done, rest, e, &below, fuel)
        }
        NBinder::OfCo(_, _, _, _) => {
            let below = by.below_coercion()?;
            scoped_with(alloc, done, rest, e, &below, fuel)
        }
    }
}

/// Each with what stands in place of its variables.
#[cycle(expressions)]
#[tactic(auto, using(crate::proofs::Lists::exprs_step))]
fn expressions_with<'x>(
    alloc: Global,
    items: &[NExpr],
    by: &'x Lifted<'x>,
    fuel: u32,
) -> Result<Seq<NExpr>, Memory>
    ensures { IfOk result (λ s. nexprs_of s ≡ put_in_exprs expressions whole_coercions (lifted_of by.now) (nexprs_of items.now)) }
{
    let fuel = deeper(fuel)?;
    let mut all = Seq::new(alloc);
    for x in items {
        all.push(expression_with(alloc, x, &*by, fuel)?)?;
    }
    Ok(all)
}

/// Each with what stands in place of its variables.
#[cycle(expressions)]
#[tactic(auto, using(crate::proofs::Lists::args_step))]
pub(crate) fn arguments_with<'x>(
    alloc: Global,
    items: &[NArg],
    by: &'x Lifted<'x>,
    fuel: u32,
) -> Result<Seq<NArg>, Memory>
    ensures { IfOk result (λ s. nargs_of s ≡ put_in_args expressions whole_coercions (lifted_of by.now) (nargs_of items.now)) }
{
    let fuel = deeper(fuel)?;
    let mut all = Seq::new(alloc);
    for x in items {
        all.push(argument_with(alloc, x, &*by, fuel)?)?;
    }
    Ok(all)
}

/// Each with what stands in place of its variables.
#[cycle(expressions)]
#[tactic(auto, using(crate::proofs::Lists::binds_step))]
fn binds_with<'x>(
    alloc: Global,
    items: &[NBind],
    by: &'x Lifted<'x>,
    fuel: u32,
) -> Result<Seq<NBind>, Memory>
    ensures { IfOk result (λ s. nbinds_of s ≡ put_in_binds expressions whole_coercions (lifted_of by.now) (nbinds_of items.now)) }
{
    let fuel = deeper(fuel)?;
    let mut all = Seq::new(alloc);
    for x in items {
        all.push(bind_with(alloc, x, &*by, fuel)?)?;
    }
    Ok(all)
}

/// Each with what stands in place of its variables.
#[cycle(expressions)]
#[tactic(auto, using(crate::proofs::Lists::joins_step))]
fn join_points_with<'x>(
    alloc: Global,
    items: &[NJoinBind],
    by: &'x Lifted<'x>,
    fuel: u32,
) -> Result<Seq<NJoinBind>, Memory>
    ensures { IfOk result (λ s. njoins_of s ≡ put_in_joins expressions whole_coercions (lifted_of by.now) (njoins_of items.now)) }
{
    let fuel = deeper(fuel)?;
    let mut all = Seq::new(alloc);
    for x in items {
        all.push(join_point_with(alloc, x, &*by, fuel)?)?;
    }
    Ok(all)
}

/// Each with what stands in place of its variables.
#[cycle(expressions)]
#[tactic(auto, using(crate::proofs::Lists::alts_step))]
pub(crate) fn alternatives_with<'x>(
    alloc: Global,
    items: &[NAlt],
    by: &'x Lifted<'x>,
    fuel: u32,
) -> Result<Seq<NAlt>, Memory>
    ensures { IfOk result (λ s. nalts_of s ≡ put_in_alts expressions whole_coercions (lifted_of by.now) (nalts_of items.now)) }
{
    let fuel = deeper(fuel)?;
    let mut all = Seq::new(alloc);
    for x in items {
        all.push(alternative_with(alloc, x, &*by, fuel)?)?;
    }
    Ok(all)
}

/// An expression with what stands in place of each of its variables: of values and join points, and in its types and coercions. Fails only where memory
/// runs out, a distance or a number of parts has no 32 bits, or calls would go 2^32 deep.
pub fn substitute<'x>(
    alloc: Global,
    e: &NExpr,
    replacement: &'x Replacement<'x>,
) -> Result<NExpr, Memory>
    ensures { IfOk result (λ r. nexpr_of r ≡ replaced (replacement_of replacement.now) (nexpr_of e.now)) }
{
    let by = Lifted {
        replacement: &*replacement,
        past: NO_BINDERS,
    };
    expression_with(alloc, e, &by, u32::MAX)
}
