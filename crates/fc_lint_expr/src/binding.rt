//! What stands behind binders, and lambdas.
ghost use Rattle.std.specs.Prelude.{◌≡◌, [], ◌∷◌, length, IfErr, IfOk, OnOk};
ghost use Rattle.fc_model.specs.Says.{Says};
ghost use Rattle.fc_lint_context.specs.ContextViews.{IsContextOver, context_in, modules_of_context};
ghost use Rattle.fc_type_scope.specs.Scopes.{scope_in};
ghost use Rattle.fc_model.specs.Faulting.{under};
ghost use Rattle.fc_model.specs.Nameless.{NLam};
ghost use Rattle.fc_model.specs.NamelessView.{nbinder_of, nbinders_of, nexpr_of};
ghost use Rattle.fc_model.specs.Typing.{type_or_fault, with_binders, without_joins};
ghost use Rattle.fc_lint_expr.specs.Lambdas.{body_judged};
ghost use Rattle.fc_model.specs.declared.flaw.Flawed.TheVariants.{Memory as memory};
ghost use Rattle.fc_type_scope.specs.Behind.{IsEntered, kinds_past};
ghost use Rattle.fc_type_table.specs.TypeTables.{Grows, IsType, nodes_of, shown};

use crate::expressions::type_of_part;
use crate::written::judged_binder;
use fc_lint_calls::{body_fits, pays};
use fc_lint_context::Context;
use fc_model::Flawed;
use fc_syntax::{FaultKind, NBinder, NExpr};
use fc_type_scope::Entered;
use fc_type_table::{TypeId, TypeTable};
use std::alloc::Global;

/// The type of the part of this number behind binders that were entered here.
#[cycle(lint)]
pub(crate) fn type_behind(
    alloc: Global,
    body: &NExpr,
    binders: &[NBinder],
    entered: &Entered,
    types: &mut TypeTable,
    context: &Context,
    part: u32,
) -> Result<TypeId, Flawed>
    requires context { IsContextOver types.old context.now }
    requires entered_in { IsEntered (nodes_of types.old) (scope_in context.now.scope) (nbinders_of binders.now) entered.now }
    ensures valid { IfOk result (λ id. IsType types.new (kinds_past (nbinders_of binders.now) (scope_in context.now.scope)) id) }
    ensures says { Says (λ id. shown types.new (kinds_past (nbinders_of binders.now) (scope_in context.now.scope)) id) result (under part (type_or_fault (modules_of_context context.now) (with_binders (nbinders_of binders.now) (context_in types.old context.now)) (nexpr_of body.now))) }
    ensures grows { OnOk result (Grows types.old types.new) }
    ensures context { OnOk result (IsContextOver types.new context.now) }
    ensures entered_in { OnOk result (IsEntered (nodes_of types.new) (scope_in context.now.scope) (nbinders_of binders.now) entered.now) }
{
    let kinds = (&*entered).kinds_behind(&*context.scope.kinds);
    let inner = (&*context).behind_binders(&*entered, &kinds);
    type_of_part(alloc, body, types, &inner, part)
}

/// The type of the body of a lambda over a binder that was entered here, which is its part 1, and what was still asked of the binder.
#[cycle(lint)]
fn type_of_body(
    alloc: Global,
    body: &NExpr,
    binder: &NBinder,
    entered: &Entered,
    owed: Option<FaultKind>,
    types: &mut TypeTable,
    context: &Context,
) -> Result<TypeId, Flawed>
    requires context { IsContextOver types.old context.now }
    requires entered_in { IsEntered (nodes_of types.old) (scope_in context.now.scope) (nbinder_of binder.now ∷ []) entered.now }
    ensures valid { IfOk result (λ id. IsType types.new (kinds_past (nbinder_of binder.now ∷ []) (scope_in context.now.scope)) id) }
    ensures says { Says (λ id. shown types.new (kinds_past (nbinder_of binder.now ∷ []) (scope_in context.now.scope)) id) result (body_judged (modules_of_context context.now) (context_in types.old context.now) (nbinder_of binder.now) (nexpr_of body.now) owed) }
    ensures grows { OnOk result (Grows types.old types.new) }
    ensures context { OnOk result (IsContextOver types.new context.now) }
    ensures entered_in { OnOk result (IsEntered (nodes_of types.new) (scope_in context.now.scope) (nbinder_of binder.now ∷ []) entered.now) }
{
    let kinds = (&*entered).kinds_behind(&*context.scope.kinds);
    let inner = (&*context).behind_binders(&*entered, &kinds);
    let ty = type_of_part(alloc, body, types, &inner, 1)?;
    pays(alloc, owed)?;
    body_fits(alloc, binder, ty, types, &inner.scope)?;
    Ok(ty)
}

/// The same where no join point is in tail reach.
#[cycle(lint)]
fn type_below(
    alloc: Global,
    body: &NExpr,
    binder: &NBinder,
    entered: &Entered,
    owed: Option<FaultKind>,
    types: &mut TypeTable,
    context: &Context,
) -> Result<TypeId, Flawed>
    requires context { IsContextOver types.old context.now }
    requires entered_in { IsEntered (nodes_of types.old) (scope_in context.now.scope) (nbinder_of binder.now ∷ []) entered.now }
    ensures valid { IfOk result (λ id. IsType types.new (kinds_past (nbinder_of binder.now ∷ []) (scope_in context.now.scope)) id) }
    ensures says { Says (λ id. shown types.new (kinds_past (nbinder_of binder.now ∷ []) (scope_in context.now.scope)) id) result (body_judged (modules_of_context context.now) (without_joins (context_in types.old context.now)) (nbinder_of binder.now) (nexpr_of body.now) owed) }
    ensures grows { OnOk result (Grows types.old types.new) }
    ensures context { OnOk result (IsContextOver types.new context.now) }
    ensures entered_in { OnOk result (IsEntered (nodes_of types.new) (scope_in context.now.scope) (nbinder_of binder.now ∷ []) entered.now) }
{
    let inner = context.without_joins();
    type_of_body(alloc, body, binder, entered, owed, types, &inner)
}

/// The type of a lambda.
#[cycle(lint)]
pub(crate) fn type_of_lambda(
    alloc: Global,
    body: &NExpr,
    binder: &NBinder,
    types: &mut TypeTable,
    context: &Context,
) -> Result<TypeId, Flawed>
    requires context { IsContextOver types.old context.now }
    ensures valid { IfOk result (λ id. IsType types.new (scope_in context.now.scope) id) }
    ensures says { Says (λ id. shown types.new (scope_in context.now.scope) id) result (type_or_fault (modules_of_context context.now) (context_in types.old context.now) (NLam (nbinder_of binder.now) (nexpr_of body.now))) }
    ensures grows { OnOk result (Grows types.old types.new) }
    ensures context { OnOk result (IsContextOver types.new context.now) }
{
    let behind = judged_binder(alloc, binder, types, &*context)?;
    let ty = type_below(
        alloc,
        body,
        binder,
        &behind.entered,
        behind.owed,
        types,
        &*context,
    )?;
    Ok(
        context
            .scope
            .function_over_one(alloc, binder, &behind.entered, ty, types)?,
    )
}

/// The number of the part behind binders, which are the first parts of their piece.
pub(crate) fn part_behind(binders: &[NBinder]) -> Result<u32, Flawed>
    ensures part { IfOk result (λ i. i ≡ length (nbinders_of binders.now)) }
    ensures memory { IfErr result (λ e. e ≡ memory) }
{
    match u32::try_from(binders.len()) {
        Ok(part) => Ok(part),
        Err(_) => Err(Flawed::Memory),
    }
}
