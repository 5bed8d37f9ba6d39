//! How often what is sought occurs in an expression.
ghost use Rattle.std.specs.Prelude.{◌≡◌, if◌then◌else◌, IfOk};
ghost use Rattle.fc_model.specs.Nameless.{NApp, NCase, NJoin, NLet};
ghost use Rattle.fc_model.specs.NamelessView.{nalts_of, narg_of, nargs_of, nbinder_of, nbinders_of, nbinds_of, nexpr_of, nexprs_of, njoins_of, nty_of};
ghost use Rattle.fc_rows.specs.Occurrences.{behind, behind_all, below_lambda, in_alts, in_arg, in_args, in_binds, in_exprs, in_field, in_fields, in_joins, innermost_joins, innermost_values, inside, is_local as is_variable, occurrences};
ghost use Rattle.fc_occur.specs.Spans.{bound_values, sought_of};

use crate::sought::{NO_SPAN, Sought, Span};
use fc_numbers::{deeper, number, sum};
use fc_rows::Occurrence;
use fc_syntax::{Memory, NAlt, NArg, NBind, NBinder, NExpr, NJoinBind, NTy, Ref};

/// Whether an expression is a variable of a value.
#[tactic(auto, using(fc_syntax::proofs::View::view_rules))]
fn is_local(e: &NExpr) -> bool
    ensures { result ≡ is_variable (nexpr_of e.now) }
{
    match e {
        NExpr::Var(Ref::Local(_)) => true,
        _ => false,
    }
}

/// How often it occurs in an expression.
#[cycle(counting)]
#[tactic(auto, using(fc_syntax::proofs::View::view_rules))]
fn in_expression(e: &NExpr, sought: Sought, fuel: u32) -> Result<Occurrence, Memory>
    ensures { IfOk result (λ n. n ≡ occurrences (sought_of sought) (nexpr_of e.now)) }
{
    let fuel = deeper(fuel)?;
    match e {
        NExpr::Var(Ref::Local(distance)) => Ok(sought.value(*distance)),
        NExpr::Var(Ref::Top(_)) => Ok(Occurrence::Dead),
        NExpr::Lit(_) => Ok(Occurrence::Dead),
        NExpr::App(f, a) => in_application(f, a, sought, fuel),
        NExpr::Lam(binder, body) => in_lambda(binder, body, sought, fuel),
        NExpr::Let(recursive, binds, body) => in_let(
            *recursive,
            binds.as_slice(),
            body,
            sought,
            fuel,
        ),
        NExpr::Case(scrutinee, _, t, u, alts) => {
            in_case(scrutinee, t, u, alts.as_slice(), sought, fuel)
        }
        NExpr::Cast(inner, _) => in_expression(inner, sought, fuel),
        NExpr::Con(_, args) => in_constructor(args.as_slice(), sought, fuel),
        NExpr::Prim(_, operands) => in_expressions(operands.as_slice(), sought, fuel),
        NExpr::Fail(_) => Ok(Occurrence::Dead),
        NExpr::Join(recursive, t, joins, body) => {
            in_join(*recursive, t, joins.as_slice(), body, sought, fuel)
        }
        NExpr::Jump(distance, args) => {
            let first = sought.join(*distance);
            Ok(first.and_further(in_arguments(args.as_slice(), sought, fuel)?))
        }
    }
}

/// How often it occurs in an application.
#[cycle(counting)]
fn in_application(f: &NExpr, a: &NArg, sought: Sought, fuel: u32) -> Result<Occurrence, Memory>
    ensures { IfOk result (λ n. n ≡ occurrences (sought_of sought) (NApp (nexpr_of f.now) (narg_of a.now))) }
{
    let fuel = deeper(fuel)?;
    let first = in_expression(f, sought, fuel)?;
    if first.is_many() {
        return Ok(Occurrence::Many);
    }
    Ok(first.and_further(in_argument(a, sought, fuel)?))
}

/// How often it occurs in a let.
#[cycle(counting)]
fn in_let(
    recursive: bool,
    binds: &[NBind],
    body: &NExpr,
    sought: Sought,
    fuel: u32,
) -> Result<Occurrence, Memory>
    ensures { IfOk result (λ n. n ≡ occurrences (sought_of sought) (NLet recursive (nbinds_of binds.now) (nexpr_of body.now))) }
{
    let fuel = deeper(fuel)?;
    let inner = sought.behind_values(number(binds.len())?)?;
    let first = in_right_sides(recursive, binds, inner, sought, fuel)?;
    if first.is_many() {
        return Ok(Occurrence::Many);
    }
    Ok(first.and_further(in_expression(body, inner, fuel)?))
}

/// How often it occurs in the right sides of a let, which stand behind its binders where it is recursive.
#[cycle(counting)]
fn in_right_sides(
    recursive: bool,
    binds: &[NBind],
    inner: Sought,
    sought: Sought,
    fuel: u32,
) -> Result<Occurrence, Memory>
    ensures { IfOk result (λ n. n ≡ in_binds (if recursive then sought_of inner else sought_of sought) (nbinds_of binds.now)) }
{
    let fuel = deeper(fuel)?;
    if recursive {
        in_group(binds, inner, fuel)
    } else {
        in_group(binds, sought, fuel)
    }
}

/// How often it occurs in a case.
#[cycle(counting)]
fn in_case(
    scrutinee: &NExpr,
    t: &NTy,
    u: &NTy,
    alts: &[NAlt],
    sought: Sought,
    fuel: u32,
) -> Result<Occurrence, Memory>
    ensures { IfOk result (λ n. n ≡ occurrences (sought_of sought) (NCase (nexpr_of scrutinee.now) (nty_of t.now) (nty_of u.now) (nalts_of alts.now))) }
{
    let fuel = deeper(fuel)?;
    let first = in_expression(scrutinee, sought, fuel)?;
    if first.is_many() {
        return Ok(Occurrence::Many);
    }
    let inner = sought.behind_values(1)?;
    Ok(first.and_further(in_alternatives(alts, inner, fuel)?))
}

/// How often it occurs in what has join points.
#[cycle(counting)]
fn in_join(
    recursive: bool,
    t: &NTy,
    joins: &[NJoinBind],
    body: &NExpr,
    sought: Sought,
    fuel: u32,
) -> Result<Occurrence, Memory>
    ensures { IfOk result (λ n. n ≡ occurrences (sought_of sought) (NJoin recursive (nty_of t.now) (njoins_of joins.now) (nexpr_of body.now))) }
{
    let fuel = deeper(fuel)?;
    let inner = sought.behind_joins(number(joins.len())?)?;
    let first = in_join_sides(recursive, joins, inner, sought, fuel)?;
    if first.is_many() {
        return Ok(Occurrence::Many);
    }
    Ok(first.and_further(in_expression(body, inner, fuel)?))
}

/// How often it occurs in a lambda.
#[cycle(counting)]
fn in_lambda(
    binder: &NBinder,
    body: &NExpr,
    sought: Sought,
    fuel: u32,
) -> Result<Occurrence, Memory>
    ensures { IfOk result (λ n. n ≡ below_lambda (nbinder_of binder.now) (occurrences (behind (nbinder_of binder.now) (sought_of sought)) (nexpr_of body.now))) }
{
    let fuel = deeper(fuel)?;
    match binder {
        NBinder::Value(_, _) => {
            let inner = sought.behind_values(1)?;
            Ok(in_expression(body, inner, fuel)?.inside())
        }
        NBinder::OfType(_, _) => in_expression(body, sought, fuel),
        NBinder::OfCo(_, _, _, _) => Ok(in_expression(body, sought, fuel)?.inside()),
    }
}

/// How often it occurs in an argument.
#[cycle(counting)]
#[tactic(auto, using(fc_syntax::proofs::View::view_rules))]
fn in_argument(a: &NArg, sought: Sought, fuel: u32) -> Result<Occurrence, Memory>
    ensures { IfOk result (λ n. n ≡ in_arg (sought_of sought) (narg_of a.now)) }
{
    let fuel = deeper(fuel)?;
    match a {
        NArg::Term(e) => in_expression(e, sought, fuel),
        NArg::OfType(_) => Ok(Occurrence::Dead),
        NArg::OfCo(_) => Ok(Occurrence::Dead),
    }
}

/// How often it occurs in an argument of a constructor.
#[cycle(counting)]
#[tactic(auto, using(fc_syntax::proofs::View::view_rules))]
fn in_constructor_argument(a: &NArg, sought: Sought, fuel: u32) -> Result<Occurrence, Memory>
    ensures { IfOk result (λ n. n ≡ in_field (sought_of sought) (narg_of a.now)) }
{
    let fuel = deeper(fuel)?;
    match a {
        NArg::Term(e) => {
            let found = in_expression(e, sought, fuel)?;
            Ok(if is_local(e) { found.as_field() } else { found })
        }
        NArg::OfType(_) => Ok(Occurrence::Dead),
        NArg::OfCo(_) => Ok(Occurrence::Dead),
    }
}

/// How often it occurs in arguments together.
#[cycle(counting)]
#[tactic(auto, using(crate::proofs::Together::together_rules))]
fn in_arguments(items: &[NArg], sought: Sought, fuel: u32) -> Result<Occurrence, Memory>
    ensures { IfOk result (λ n. n ≡ in_args (sought_of sought) (nargs_of items.now)) }
{
    let fuel = deeper(fuel)?;
    let mut all = Occurrence::Dead;
    for x in items {
        if all.is_many() {
            return Ok(Occurrence::Many);
        }
        all = all.and_further(in_argument(x, sought, fuel)?);
    }
    Ok(all)
}

/// How often it occurs in arguments of a constructor together.
#[cycle(counting)]
#[tactic(auto, using(crate::proofs::Together::together_rules))]
fn in_constructor(items: &[NArg], sought: Sought, fuel: u32) -> Result<Occurrence, Memory>
    ensures { IfOk result (λ n. n ≡ in_fields (sought_of sought) (nargs_of items.now)) }
{
    let fuel = deeper(fuel)?;
    let mut all = Occurrence::Dead;
    for x in items {
        if all.is_many() {
            return Ok(Occurrence::Many);
        }
        all = all.and_further(in_constructor_argument(x, sought, fuel)?);
    }
    Ok(all)
}

/// How often it occurs in expressions together.
#[cycle(counting)]
#[tactic(auto, using(crate::proofs::Together::together_rules))]
fn in_expressions(items: &[NExpr], sought: Sought, fuel: u32) -> Result<Occurrence, Memory>
    ensures { IfOk result (λ n. n ≡ in_exprs (sought_of sought) (nexprs_of items.now)) }
{
    let fuel = deeper(fuel)?;
    let mut all = Occurrence::Dead;
    for x in items {
        if all.is_many() {
            return Ok(Occurrence::Many);
        }
        all = all.and_further(in_expression(x, sought, fuel)?);
    }
    Ok(all)
}

/// How often it occurs in the right sides of binds together.
#[cycle(counting)]
#[tactic(auto, using(crate::proofs::Together::together_rules))]
fn in_group(items: &[NBind], sought: Sought, fuel: u32) -> Result<Occurrence, Memory>
    ensures { IfOk result (λ n. n ≡ in_binds (sought_of sought) (nbinds_of items.now)) }
{
    let fuel = deeper(fuel)?;
    let mut all = Occurrence::Dead;
    for x in items {
        if all.is_many() {
            return Ok(Occurrence::Many);
        }
        all = all.and_further(in_expression(&x.rhs, sought, fuel)?);
    }
    Ok(all)
}

/// How many of the binders bind values. Fails where they are no number of 32 bits.
fn value_binders(binders: &[NBinder]) -> Result<u32, Memory>
    ensures { IfOk result (λ n. n ≡ bound_values (nbinders_of binders.now)) }
{
    let mut count = 0u32;
    for binder in binders {
        if matches!(binder, NBinder::Value(_, _)) {
            count = sum(count, 1)?;
        }
    }
    Ok(count)
}

/// How often it occurs behind binders.
#[cycle(counting)]
fn in_scoped(
    binders: &[NBinder],
    body: &NExpr,
    sought: Sought,
    fuel: u32,
) -> Result<Occurrence, Memory>
    ensures { IfOk result (λ n. n ≡ occurrences (behind_all (nbinders_of binders.now) (sought_of sought)) (nexpr_of body.now)) }
{
    let fuel = deeper(fuel)?;
    let inner = sought.behind_values(value_binders(binders)?)?;
    in_expression(body, inner, fuel)
}

/// How often it occurs in the right sides of join points together.
#[cycle(counting)]
#[tactic(auto, using(crate::proofs::Together::together_rules))]
fn in_join_points(items: &[NJoinBind], sought: Sought, fuel: u32) -> Result<Occurrence, Memory>
    ensures { IfOk result (λ n. n ≡ in_joins (sought_of sought) (njoins_of items.now)) }
{
    let fuel = deeper(fuel)?;
    let mut all = Occurrence::Dead;
    for x in items {
        if all.is_many() {
            return Ok(Occurrence::Many);
        }
        all = all.and_further(in_scoped(x.params.as_slice(), &x.rhs, sought, fuel)?);
    }
    Ok(all)
}

/// How often it occurs in the right sides of a group of join points, which stand beside the group and may run more than once where it is recursive.
#[cycle(counting)]
fn in_join_sides(
    recursive: bool,
    joins: &[NJoinBind],
    inner: Sought,
    sought: Sought,
    fuel: u32,
) -> Result<Occurrence, Memory>
    ensures { IfOk result (λ n. n ≡ (if recursive then inside (in_joins (sought_of inner) (njoins_of joins.now)) else in_joins (sought_of sought) (njoins_of joins.now))) }
{
    let fuel = deeper(fuel)?;
    if recursive {
        Ok(in_join_points(joins, inner, fuel)?.inside())
    } else {
        in_join_points(joins, sought, fuel)
    }
}

/// How often it occurs in alternatives together.
#[cycle(counting)]
#[tactic(auto, using(crate::proofs::Together::together_rules))]
fn in_alternatives(items: &[NAlt], sought: Sought, fuel: u32) -> Result<Occurrence, Memory>
    ensures { IfOk result (λ n. n ≡ in_alts (sought_of sought) (nalts_of items.now)) }
{
    let fuel = deeper(fuel)?;
    let mut all = Occurrence::Dead;
    for x in items {
        if all.is_many() {
            return Ok(Occurrence::Many);
        }
        all = all.and_further(in_scoped(x.binders.as_slice(), &x.body, sought, fuel)?);
    }
    Ok(all)
}

/// How often so many of the innermost variables of values occur in an expression together; it ends at the second occurrence. Takes no memory. Fails only
/// where a distance or a number of parts has no 32 bits, or calls would go 2^32 deep; each is answered as out of memory.
pub fn occurrences_of_innermost(e: &NExpr, count: u32) -> Result<Occurrence, Memory>
    ensures { IfOk result (λ n. n ≡ occurrences (innermost_values count) (nexpr_of e.now)) }
{
    let sought = Sought {
        values: Span { from: 0, count },
        joins: NO_SPAN,
    };
    in_expression(e, sought, u32::MAX)
}

/// How often so many of the innermost join points are jumped to in an expression together; it ends at the second jump. Takes no memory. Fails only where
/// a distance or a number of parts has no 32 bits, or calls would go 2^32 deep; each is answered as out of memory.
pub fn jumps_to_innermost(e: &NExpr, count: u32) -> Result<Occurrence, Memory>
    ensures { IfOk result (λ n. n ≡ occurrences (innermost_joins count) (nexpr_of e.now)) }
{
    let sought = Sought {
        values: NO_SPAN,
        joins: Span { from: 0, count },
    };
    in_expression(e, sought, u32::MAX)
}
