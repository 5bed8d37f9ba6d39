//! Groups of values and of join points.
ghost use Rattle.std.specs.Prelude.{◌≡◌, ◌+◌, Ok, IfOk, if◌then◌else◌, length, not, reverse};
ghost use Rattle.fc_syntax.specs.declared.fault.FaultKind.TheVariants.{Duplicate};
ghost use Rattle.fc_syntax.specs.Hints as kept;
ghost use Rattle.fc_syntax.specs.View.{bind_of, binds_of, expr_of, join_of, joins_of};
ghost use Rattle.fc_model.specs.DeclaredWords.{top_by};
ghost use Rattle.fc_model.specs.Faulting.{need, under};
ghost use Rattle.fc_model.specs.NamelessView.{nbind_of, nbinds_of, nexpr_of, njoin_of, njoins_of};
ghost use Rattle.fc_model.specs.Resolution.{bind_words, join_words, enter_joins, enter_values, no_word, resolved_expr as expr_resolved, resolved_bind as bind_resolved, resolved_binds as binds_resolved, resolved_join as join_resolved, resolved_joins as joins_resolved};
ghost use Rattle.fc_model.specs.Says.{Says};
ghost use Rattle.fc_scope.specs.Among.{among};
ghost use Rattle.fc_scope.specs.ScopeWords.{locals_of};

use crate::alternatives::below_binders;
use crate::expressions::{boxed_part, expr_part};
use fc_model::{Declared, Flawed, deeper, flaw_here, next_part};
use fc_resolve_parts::{Entered, resolved_binders, ty_part};
use fc_scope::{Names, Scope};
use fc_syntax::{Bind, Expr, FaultKind, JoinBind, Memory, NBind, NExpr, NJoinBind, Seq, part};
use std::alloc::Global;

/// The words of a let group.
pub fn bind_names(alloc: Global, binds: &[Bind]) -> Result<Names, Memory>
    ensures { IfOk result (λ names. names ≡ reverse (bind_words (binds_of binds.now))) }
{
    let mut names = Names::new(alloc);
    for bind in binds {
        names.add(alloc, &bind.name)?;
    }
    Ok(names)
}

/// The words of a group of join points.
pub fn join_names(alloc: Global, joins: &[JoinBind]) -> Result<Names, Memory>
    ensures { IfOk result (λ names. names ≡ reverse (join_words (joins_of joins.now))) }
{
    let mut names = Names::new(alloc);
    for join in joins {
        names.add(alloc, &join.name)?;
    }
    Ok(names)
}

/// The members of a let group, which are in the scope of the group where it is recursive.
#[cycle(resolve)]
pub fn group<'x>(
    alloc: Global,
    top: &Declared,
    scope: &'x Scope<'x>,
    binds: &[Bind],
    recursive: bool,
    names: &'x Names,
) -> Result<Seq<NBind>, Flawed>
    requires { names.now ≡ reverse (bind_words (binds_of binds.now)) }
    ensures form { Says nbinds_of result (binds_resolved (top_by top.now) (if recursive then enter_values (bind_words (binds_of binds.now)) (locals_of scope.now) else locals_of scope.now) no_word 0 (binds_of binds.now)) }
    ensures words { IfOk result (λ n. kept.binds_hints (binds_of n) ≡ kept.binds_hints (binds_of binds.now)) }
{
    if recursive {
        let inner = Scope::Values(&*names, &*scope);
        resolved_binds(alloc, top, &inner, binds)
    } else {
        resolved_binds(alloc, top, &*scope, binds)
    }
}

/// What a let group is for, which is the part behind the members.
#[cycle(resolve)]
pub fn below_values<'x>(
    alloc: Global,
    top: &Declared,
    scope: &'x Scope<'x>,
    e: &Expr,
    binds: &[Bind],
    names: &'x Names,
) -> Result<Box<NExpr>, Flawed>
    requires { names.now ≡ reverse (bind_words (binds_of binds.now)) }
    ensures form { Says (λ n. nexpr_of n.value) result (under (length (bind_words (binds_of binds.now))) (expr_resolved (top_by top.now) (enter_values (bind_words (binds_of binds.now)) (locals_of scope.now)) (expr_of e.now))) }
    ensures words { IfOk result (λ n. kept.expr_hints (expr_of n.value) ≡ kept.expr_hints (expr_of e.now)) }
{
    let inner = Scope::Values(&*names, &*scope);
    boxed_part(alloc, top, &inner, e, names.len())
}

/// Members of a let group, which are the parts from 0 on. One whose word was there before is `Duplicate`.
#[cycle(resolve)]
#[tactic(auto, using(crate::proofs::Building::building_rules, crate::proofs::WordSteps::word_rules, std::proofs::lemmas::Grind::common_steps))]
fn resolved_binds<'x>(
    alloc: Global,
    top: &Declared,
    scope: &'x Scope<'x>,
    binds: &[Bind],
) -> Result<Seq<NBind>, Flawed>
    ensures form { Says nbinds_of result (binds_resolved (top_by top.now) (locals_of scope.now) no_word 0 (binds_of binds.now)) }
    ensures words { IfOk result (λ n. kept.binds_hints (binds_of n) ≡ kept.binds_hints (binds_of binds.now)) }
{
    let mut out = Seq::new(alloc);
    let mut earlier = Names::new(alloc);
    let mut at = 0u32;
    for bind in binds {
        let next = bind_part(alloc, top, &*scope, bind, &earlier, at)?;
        earlier.add(alloc, &bind.name)?;
        out.push(next)?;
        at = next_part(at)?;
    }
    Ok(out)
}

/// A member that is the part of this number.
#[cycle(resolve)]
fn bind_part<'x>(
    alloc: Global,
    top: &Declared,
    scope: &'x Scope<'x>,
    bind: &Bind,
    earlier: &Names,
    part: u32,
) -> Result<NBind, Flawed>
    ensures form { Says nbind_of result (under part (need (not (among earlier.now bind.now.name)) Duplicate (bind_resolved (top_by top.now) (locals_of scope.now) (bind_of bind.now)))) }
    ensures words { IfOk result (λ n. kept.bind_hints (bind_of n) ≡ kept.bind_hints (bind_of bind.now)) }
{
    match new_bind(alloc, top, &*scope, bind, earlier) {
        Ok(n) => Ok(n),
        Err(flawed) => Err(deeper(flawed, part)),
    }
}

/// A member behind the words of those before it.
#[cycle(resolve)]
fn new_bind<'x>(
    alloc: Global,
    top: &Declared,
    scope: &'x Scope<'x>,
    bind: &Bind,
    earlier: &Names,
) -> Result<NBind, Flawed>
    ensures form { Says nbind_of result (need (not (among earlier.now bind.now.name)) Duplicate (bind_resolved (top_by top.now) (locals_of scope.now) (bind_of bind.now))) }
    ensures words { IfOk result (λ n. kept.bind_hints (bind_of n) ≡ kept.bind_hints (bind_of bind.now)) }
{
    if earlier.has(&bind.name) {
        return Err(flaw_here(alloc, FaultKind::Duplicate));
    }
    let ty = ty_part(alloc, top, &*scope, &bind.ty, part::TYPE)?;
    let rhs = expr_part(alloc, top, &*scope, &bind.rhs, part::RIGHT_SIDE)?;
    let name = bind.name.copy(alloc)?;
    Ok(NBind { name, ty, rhs })
}

/// The join points of a group, which are in its scope where it is recursive.
#[cycle(resolve)]
pub fn join_group<'x>(
    alloc: Global,
    top: &Declared,
    scope: &'x Scope<'x>,
    joins: &[JoinBind],
    recursive: bool,
    names: &'x Names,
) -> Result<Seq<NJoinBind>, Flawed>
    requires { names.now ≡ reverse (join_words (joins_of joins.now)) }
    ensures form { Says njoins_of result (joins_resolved (top_by top.now) (if recursive then enter_joins (join_words (joins_of joins.now)) (locals_of scope.now) else locals_of scope.now) no_word 1 (joins_of joins.now)) }
    ensures words { IfOk result (λ n. kept.joins_hints (joins_of n) ≡ kept.joins_hints (joins_of joins.now)) }
{
    if recursive {
        let inner = Scope::Joins(&*names, &*scope);
        resolved_joins(alloc, top, &inner, joins)
    } else {
        resolved_joins(alloc, top, &*scope, joins)
    }
}

/// What a group of join points is for, which is the part behind the type and the members.
#[cycle(resolve)]
pub fn below_joins<'x>(
    alloc: Global,
    top: &Declared,
    scope: &'x Scope<'x>,
    e: &Expr,
    joins: &[JoinBind],
    names: &'x Names,
) -> Result<Box<NExpr>, Flawed>
    requires { names.now ≡ reverse (join_words (joins_of joins.now)) }
    ensures form { Says (λ n. nexpr_of n.value) result (under (1 + length (join_words (joins_of joins.now))) (expr_resolved (top_by top.now) (enter_joins (join_words (joins_of joins.now)) (locals_of scope.now)) (expr_of e.now))) }
    ensures words { IfOk result (λ n. kept.expr_hints (expr_of n.value) ≡ kept.expr_hints (expr_of e.now)) }
{
    let part = next_part(names.len())?;
    let inner = Scope::Joins(&*names, &*scope);
    boxed_part(alloc, top, &inner, e, part)
}

/// Join points, which are the parts from 1 on. One whose word was there before is `Duplicate`.
#[cycle(resolve)]
#[tactic(auto, using(crate::proofs::Building::building_rules, crate::proofs::WordSteps::word_rules, std::proofs::lemmas::Grind::common_steps))]
fn resolved_joins<'x>(
    alloc: Global,
    top: &Declared,
    scope: &'x Scope<'x>,
    joins: &[JoinBind],
) -> Result<Seq<NJoinBind>, Flawed>
    ensures form { Says njoins_of result (joins_resolved (top_by top.now) (locals_of scope.now) no_word 1 (joins_of joins.now)) }
    ensures words { IfOk result (λ n. kept.joins_hints (joins_of n) ≡ kept.joins_hints (joins_of joins.now)) }
{
    let mut out = Seq::new(alloc);
    let mut earlier = Names::new(alloc);
    let mut at = part::FIRST_JOIN;
    for join in joins {
        let next = join_part(alloc, top, &*scope, join, &earlier, at)?;
        earlier.add(alloc, &join.name)?;
        out.push(next)?;
        at = next_part(at)?;
    }
    Ok(out)
}

/// A join point that is the part of this number.
#[cycle(resolve)]
fn join_part<'x>(
    alloc: Global,
    top: &Declared,
    scope: &'x Scope<'x>,
    join: &JoinBind,
    earlier: &Names,
    part: u32,
) -> Result<NJoinBind, Flawed>
    ensures form { Says njoin_of result (under part (need (not (among earlier.now join.now.name)) Duplicate (join_resolved (top_by top.now) (locals_of scope.now) (join_of join.now)))) }
    ensures words { IfOk result (λ n. kept.join_hints (join_of n) ≡ kept.join_hints (join_of join.now)) }
{
    match new_join(alloc, top, &*scope, join, earlier) {
        Ok(n) => Ok(n),
        Err(flawed) => Err(deeper(flawed, part)),
    }
}

/// A join point behind the words of those before it.
#[cycle(resolve)]
fn new_join<'x>(
    alloc: Global,
    top: &Declared,
    scope: &'x Scope<'x>,
    join: &JoinBind,
    earlier: &Names,
) -> Result<NJoinBind, Flawed>
    ensures form { Says njoin_of result (need (not (among earlier.now join.now.name)) Duplicate (join_resolved (top_by top.now) (locals_of scope.now) (join_of join.now))) }
    ensures words { IfOk result (λ n. kept.join_hints (join_of n) ≡ kept.join_hints (join_of join.now)) }
{
    if earlier.has(&join.name) {
        return Err(flaw_here(alloc, FaultKind::Duplicate));
    }
    let params = join.params.as_slice();
    let Entered { binders, names } = resolved_binders(alloc, top, &*scope, params)?;
    let rhs = below_binders(alloc, top, &*scope, &join.rhs, params, &names)?;
    let name = join.name.copy(alloc)?;
    Ok(NJoinBind {
        name,
        params: binders,
        rhs,
    })
}
