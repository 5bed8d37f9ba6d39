//! Join points and jumps.
ghost use Rattle.std.specs.Prelude.{◌≡◌, IfOk, OnOk, if◌then◌else◌};
ghost use Rattle.fc_model.specs.Says.{Says};
ghost use Rattle.fc_lint_context.specs.ContextViews.{IsContextOver, context_in, modules_of_context};
ghost use Rattle.fc_type_scope.specs.Scopes.{scope_in};
ghost use Rattle.fc_model.specs.Faulting.{under};
ghost use Rattle.fc_model.specs.Nameless.{NJoin};
ghost use Rattle.fc_model.specs.NamelessView.{nexpr_of, njoin_of, njoins_of, nty_of};
ghost use Rattle.fc_model.specs.Typing as words;
ghost use Rattle.fc_model.specs.Typing.{join_judged, joins_judged, type_or_fault, with_joins};
ghost use Rattle.fc_lint_context.specs.JoinViews.{AreJoinsAt, shown_joins_at};
ghost use Rattle.fc_lint_context.specs.JoinViews as views;
ghost use Rattle.fc_type_table.specs.TypeTables.{Grows, IsType, modules_in, nodes_of, shown};

use crate::binding::{part_behind, type_behind};
use crate::expressions::type_of_part;
use crate::written::{judged_binders, kinded_part};
use fc_lint_calls::{join_type, leaves_as, pays};
use fc_lint_context::{Context, JoinPoint};
use fc_model::{Flawed, deeper, next_part};
use fc_syntax::{FaultKind, NExpr, NJoinBind, NTy};
use fc_type_table::{TypeId, TypeTable};
use std::alloc::Global;

/// Whether the right side of a join point is of the type of its join.
#[cycle(lint)]
pub(crate) fn join_fits(
    alloc: Global,
    bind: &NJoinBind,
    answer: TypeId,
    types: &mut TypeTable,
    context: &Context,
) -> Result<(), Flawed>
    requires context { IsContextOver types.old context.now }
    requires answer_in { IsType types.old (scope_in context.now.scope) answer }
    ensures says { Says (λ _. (shown types.old (scope_in context.now.scope) answer)) result (join_judged (modules_of_context context.now) (context_in types.old context.now) (shown types.old (scope_in context.now.scope) answer) (njoin_of bind.now)) }
    ensures grows { OnOk result (Grows types.old types.new) }
    ensures context { OnOk result (IsContextOver types.new context.now) }
{
    let params = bind.params.as_slice();
    let behind = judged_binders(alloc, params, types, &*context)?;
    let part = part_behind(params)?;
    let ty = type_behind(
        alloc,
        &bind.rhs,
        params,
        &behind.entered,
        types,
        &*context,
        part,
    )?;
    pays(alloc, behind.owed)?;
    leaves_as(alloc, ty, answer, FaultKind::LetType, types, &context.scope)
}

/// The same of the join point that is the part of this number of its join.
#[cycle(lint)]
pub(crate) fn join_part_fits(
    alloc: Global,
    bind: &NJoinBind,
    answer: TypeId,
    types: &mut TypeTable,
    context: &Context,
    part: u32,
) -> Result<(), Flawed>
    requires context { IsContextOver types.old context.now }
    requires answer_in { IsType types.old (scope_in context.now.scope) answer }
    ensures says { Says (λ _. (shown types.old (scope_in context.now.scope) answer)) result (under part (join_judged (modules_of_context context.now) (context_in types.old context.now) (shown types.old (scope_in context.now.scope) answer) (njoin_of bind.now))) }
    ensures grows { OnOk result (Grows types.old types.new) }
    ensures context { OnOk result (IsContextOver types.new context.now) }
{
    match join_fits(alloc, bind, answer, types, &*context) {
        Ok(()) => Ok(()),
        Err(flawed) => Err(deeper(flawed, part)),
    }
}

/// Whether the right sides of join points are of the type of the join in the scope of the right sides; the number of the part behind them.
#[cycle(lint)]
pub(crate) fn each_join_fits(
    alloc: Global,
    binds: &[NJoinBind],
    answer: TypeId,
    types: &mut TypeTable,
    context: &Context,
) -> Result<u32, Flawed>
    requires context { IsContextOver types.old context.now }
    requires answer_in { IsType types.old (scope_in context.now.scope) answer }
    ensures says { Says (λ i. i) result (joins_judged (modules_of_context context.now) (context_in types.old context.now) (shown types.old (scope_in context.now.scope) answer) 1 (njoins_of binds.now)) }
    ensures grows { OnOk result (Grows types.old types.new) }
    ensures context { OnOk result (IsContextOver types.new context.now) }
{
    let mut part = 1u32;
    for bind in binds {
        join_part_fits(alloc, bind, answer, types, &*context, part)?;
        part = next_part(part)?;
    }
    Ok(part)
}

/// The same in the scope of the join: its right sides see the join points where it is recursive.
#[cycle(lint)]
pub(crate) fn joins_fit(
    alloc: Global,
    binds: &[NJoinBind],
    points: &[JoinPoint],
    answer: TypeId,
    recursive: bool,
    types: &mut TypeTable,
    context: &Context,
) -> Result<u32, Flawed>
    requires context { IsContextOver types.old context.now }
    requires answer_in { IsType types.old (scope_in context.now.scope) answer }
    requires points_in { AreJoinsAt (nodes_of types.old) (scope_in context.now.scope) points.now }
    requires points_view { shown_joins_at (nodes_of types.old) (scope_in context.now.scope) points.now ≡ views.join_points (shown types.old (scope_in context.now.scope) answer) (njoins_of binds.now) }
    ensures says { Says (λ i. i) result (joins_judged (modules_of_context context.now) (if recursive then with_joins (shown types.old (scope_in context.now.scope) answer) (njoins_of binds.now) (context_in types.old context.now) else (context_in types.old context.now)) (shown types.old (scope_in context.now.scope) answer) 1 (njoins_of binds.now)) }
    ensures grows { OnOk result (Grows types.old types.new) }
    ensures context { OnOk result (IsContextOver types.new context.now) }
{
    if recursive {
        let inner = (&*context).behind_joins(&*points);
        each_join_fits(alloc, binds, answer, types, &inner)
    } else {
        each_join_fits(alloc, binds, answer, types, &*context)
    }
}

/// The type of the body behind join points, which is the part of this number.
#[cycle(lint)]
pub(crate) fn type_behind_joins(
    alloc: Global,
    body: &NExpr,
    binds: &[NJoinBind],
    points: &[JoinPoint],
    answer: TypeId,
    types: &mut TypeTable,
    context: &Context,
    part: u32,
) -> Result<TypeId, Flawed>
    requires context { IsContextOver types.old context.now }
    requires answer_in { IsType types.old (scope_in context.now.scope) answer }
    requires points_in { AreJoinsAt (nodes_of types.old) (scope_in context.now.scope) points.now }
    requires points_view { shown_joins_at (nodes_of types.old) (scope_in context.now.scope) points.now ≡ views.join_points (shown types.old (scope_in context.now.scope) answer) (njoins_of binds.now) }
    ensures valid { IfOk result (λ id. IsType types.new (scope_in context.now.scope) id) }
    ensures says { Says (λ id. shown types.new (scope_in context.now.scope) id) result (under part (type_or_fault (modules_of_context context.now) (with_joins (shown types.old (scope_in context.now.scope) answer) (njoins_of binds.now) (context_in types.old context.now)) (nexpr_of body.now))) }
    ensures grows { OnOk result (Grows types.old types.new) }
    ensures context { OnOk result (IsContextOver types.new context.now) }
{
    let inner = (&*context).behind_joins(&*points);
    type_of_part(alloc, body, types, &inner, part)
}

/// The type of a join, of a recursive one or not.
#[cycle(lint)]
pub(crate) fn type_of_join(
    alloc: Global,
    body: &NExpr,
    binds: &[NJoinBind],
    t: &NTy,
    recursive: bool,
    types: &mut TypeTable,
    context: &Context,
) -> Result<TypeId, Flawed>
    requires context { IsContextOver types.old context.now }
    ensures valid { IfOk result (λ id. IsType types.new (scope_in context.now.scope) id) }
    ensures says { Says (λ id. shown types.new (scope_in context.now.scope) id) result (type_or_fault (modules_of_context context.now) (context_in types.old context.now) (NJoin recursive (nty_of t.now) (njoins_of binds.now) (nexpr_of body.now))) }
    ensures grows { OnOk result (Grows types.old types.new) }
    ensures context { OnOk result (IsContextOver types.new context.now) }
{
    let read = kinded_part(alloc, t, types, &*context, 0)?;
    let is_value = types.is_value_kind(read.kind);
    let answer = read.ty;
    let points = context.join_points(alloc, binds, answer, types)?;
    let group = points.as_slice();
    let part = joins_fit(alloc, binds, group, answer, recursive, types, &*context)?;
    let found = type_behind_joins(alloc, body, binds, group, answer, types, &*context, part)?;
    join_type(alloc, found, is_value, answer, types, &context.scope)
}
