//! Types and binders that are written in an expression, in its context.
ghost use Rattle.std.specs.Prelude.{◌≡◌, [], ◌∷◌, None, IfOk, OnOk};
ghost use Rattle.fc_model.specs.Faulting.{under};
ghost use Rattle.fc_model.specs.Kinding.{kind_or_fault};
ghost use Rattle.fc_model.specs.NamelessView.{nbinder_of, nbinders_of, nty_of};
ghost use Rattle.fc_model.specs.Says.{Says};
ghost use Rattle.fc_model.specs.Typing.{binder_judged, binders_judged};
ghost use Rattle.fc_lint_context.specs.ContextViews.{IsContextOver, context_in, modules_of_context};
ghost use Rattle.fc_type_scope.specs.Behind.{IsEntered};
ghost use Rattle.fc_type_scope.specs.Scopes.{scope_in};
ghost use Rattle.fc_type_table.specs.TypeTables.{Grows, IsKindId, IsType, kind_shown, modules_in, nodes_of, shown};

use fc_lint_context::Context;
use fc_model::{Flawed, deeper};
use fc_syntax::{FaultKind, NBinder, NTy};
use fc_type_scope::{Entered, Kinded};
use fc_type_table::TypeTable;
use std::alloc::Global;

/// A type with its kind, or the first premise of its kind that fails.
pub(crate) fn kinded(
    alloc: Global,
    t: &NTy,
    types: &mut TypeTable,
    context: &Context,
) -> Result<Kinded, Flawed>
    requires context { IsContextOver types.old context.now }
    ensures valid { IfOk result (λ k. IsType types.new (scope_in context.now.scope) k.ty) }
    ensures view { IfOk result (λ k. shown types.new (scope_in context.now.scope) k.ty ≡ nty_of t.now) }
    ensures is_kind { IfOk result (λ k. IsKindId types.new k.kind) }
    ensures says { Says (λ k. kind_shown types.new k.kind) result (kind_or_fault (modules_of_context context.now) (context_in types.old context.now).kinds (nty_of t.now)) }
    ensures grows { OnOk result (Grows types.old types.new) }
    ensures context { OnOk result (IsContextOver types.new context.now) }
{
    context.scope.kinded(alloc, t, types)
}

/// The same of the part of this number.
pub(crate) fn kinded_part(
    alloc: Global,
    t: &NTy,
    types: &mut TypeTable,
    context: &Context,
    part: u32,
) -> Result<Kinded, Flawed>
    requires context { IsContextOver types.old context.now }
    ensures valid { IfOk result (λ k. IsType types.new (scope_in context.now.scope) k.ty) }
    ensures view { IfOk result (λ k. shown types.new (scope_in context.now.scope) k.ty ≡ nty_of t.now) }
    ensures is_kind { IfOk result (λ k. IsKindId types.new k.kind) }
    ensures says { Says (λ k. kind_shown types.new k.kind) result (under part (kind_or_fault (modules_of_context context.now) (context_in types.old context.now).kinds (nty_of t.now))) }
    ensures grows { OnOk result (Grows types.old types.new) }
    ensures context { OnOk result (IsContextOver types.new context.now) }
{
    match kinded(alloc, t, types, &*context) {
        Ok(kinded) => Ok(kinded),
        Err(flawed) => Err(deeper(flawed, part)),
    }
}

/// Binders that are judged.
#[derive(Drop)]
pub(crate) struct Judged<'a> {
    /// The fault of the first premise that is asked of them only behind what stands below them, where it fails.
    pub(crate) owed: Option<FaultKind>,
    /// What they bind.
    pub(crate) entered: Entered<'a>,
}

/// The premises of binders, and what they bind.
pub(crate) fn judged_binders<'a>(
    alloc: Global,
    binders: &'a [NBinder],
    types: &mut TypeTable,
    context: &Context,
) -> Result<Judged<'a>, Flawed>
    requires context { IsContextOver types.old context.now }
    ensures says { Says (λ b. b.owed) result (binders_judged (modules_of_context context.now) (context_in types.old context.now).kinds 0 None (nbinders_of binders.now)) }
    ensures entered { IfOk result (λ b. IsEntered (nodes_of types.new) (scope_in context.now.scope) (nbinders_of binders.now) b.entered) }
    ensures grows { OnOk result (Grows types.old types.new) }
    ensures context { OnOk result (IsContextOver types.new context.now) }
{
    let owed = context.scope.binders_owe(alloc, binders, types)?;
    let entered = context.scope.enter(alloc, binders, types)?;
    Ok(Judged { owed, entered })
}

/// The premises of the binder of a lambda, its part 0, and what it binds.
pub(crate) fn judged_binder<'a>(
    alloc: Global,
    binder: &'a NBinder,
    types: &mut TypeTable,
    context: &Context,
) -> Result<Judged<'a>, Flawed>
    requires context { IsContextOver types.old context.now }
    ensures says { Says (λ b. b.owed) result (under 0 (binder_judged (modules_of_context context.now) (context_in types.old context.now).kinds (nbinder_of binder.now))) }
    ensures entered { IfOk result (λ b. IsEntered (nodes_of types.new) (scope_in context.now.scope) (nbinder_of binder.now ∷ []) b.entered) }
    ensures grows { OnOk result (Grows types.old types.new) }
    ensures context { OnOk result (IsContextOver types.new context.now) }
{
    let owed = match context.scope.binder_owes(alloc, binder, types) {
        Ok(owed) => owed,
        Err(flawed) => return Err(deeper(flawed, 0)),
    };
    let entered = context.scope.enter_one(alloc, binder, types)?;
    Ok(Judged { owed, entered })
}
