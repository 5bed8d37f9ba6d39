//! Lets.
ghost use Rattle.std.specs.Prelude.{◌≡◌, IfOk, OnOk, if◌then◌else◌};
ghost use Rattle.fc_model.specs.Says.{Says};
ghost use Rattle.fc_lint_context.specs.ContextViews.{IsContextOver, context_in, modules_of_context};
ghost use Rattle.fc_type_scope.specs.Scopes.{scope_in};
ghost use Rattle.fc_model.specs.Faulting.{under};
ghost use Rattle.fc_model.specs.Nameless.{NLet};
ghost use Rattle.fc_model.specs.NamelessView.{nbind_of, nbinds_of, nexpr_of, nty_of};
ghost use Rattle.fc_model.specs.Typing.{bind_judged, binds_judged, type_or_fault, with_binds, without_joins};
ghost use Rattle.fc_lint_context.specs.LocalViews.{bind_types};
ghost use Rattle.fc_type_scope.specs.Scopes.{AreTypes, shown_all};
ghost use Rattle.fc_type_table.specs.TypeTables.{Grows, IsType, modules_in, shown};

use crate::expressions::type_of_part;
use crate::written::kinded_part;
use fc_lint_calls::{bind_takes, is_atom};
use fc_lint_context::Context;
use fc_model::{Flawed, deeper, next_part};
use fc_syntax::{NBind, NExpr};
use fc_type_table::{TypeId, TypeTable};
use std::alloc::Global;

/// Whether a bind of a let, of a recursive one or not, has its type.
#[cycle(lint)]
pub(crate) fn bind_fits(
    alloc: Global,
    bind: &NBind,
    recursive: bool,
    types: &mut TypeTable,
    context: &Context,
) -> Result<(), Flawed>
    requires context { IsContextOver types.old context.now }
    ensures says { Says (λ _. nty_of bind.now.ty) result (bind_judged (modules_of_context context.now) (context_in types.old context.now) recursive (nbind_of bind.now)) }
    ensures grows { OnOk result (Grows types.old types.new) }
    ensures context { OnOk result (IsContextOver types.new context.now) }
{
    let read = kinded_part(alloc, &bind.ty, types, &*context, 0)?;
    let is_value = types.is_value_kind(read.kind);
    let right = type_of_part(alloc, &bind.rhs, types, &*context, 1)?;
    let atom = !recursive && is_atom(&bind.rhs);
    bind_takes(alloc, is_value, read.ty, right, atom, types, &context.scope)
}

/// The same of the bind that is the part of this number of its let.
#[cycle(lint)]
pub(crate) fn bind_part_fits(
    alloc: Global,
    bind: &NBind,
    recursive: bool,
    types: &mut TypeTable,
    context: &Context,
    part: u32,
) -> Result<(), Flawed>
    requires context { IsContextOver types.old context.now }
    ensures says { Says (λ _. nty_of bind.now.ty) result (under part (bind_judged (modules_of_context context.now) (context_in types.old context.now) recursive (nbind_of bind.now))) }
    ensures grows { OnOk result (Grows types.old types.new) }
    ensures context { OnOk result (IsContextOver types.new context.now) }
{
    match bind_fits(alloc, bind, recursive, types, &*context) {
        Ok(()) => Ok(()),
        Err(flawed) => Err(deeper(flawed, part)),
    }
}

/// Whether the binds of a let have their types in the scope of their right sides; the number of the part behind them.
#[cycle(lint)]
pub(crate) fn each_bind_fits(
    alloc: Global,
    binds: &[NBind],
    recursive: bool,
    types: &mut TypeTable,
    context: &Context,
) -> Result<u32, Flawed>
    requires context { IsContextOver types.old context.now }
    ensures says { Says (λ i. i) result (binds_judged (modules_of_context context.now) (context_in types.old context.now) recursive 0 (nbinds_of binds.now)) }
    ensures grows { OnOk result (Grows types.old types.new) }
    ensures context { OnOk result (IsContextOver types.new context.now) }
{
    let mut part = 0u32;
    for bind in binds {
        bind_part_fits(alloc, bind, recursive, types, &*context, part)?;
        part = next_part(part)?;
    }
    Ok(part)
}

/// The same in the scope of the let: its right sides see the binds where it is recursive, and no join point.
#[cycle(lint)]
pub(crate) fn binds_fit(
    alloc: Global,
    binds: &[NBind],
    ids: &[TypeId],
    recursive: bool,
    types: &mut TypeTable,
    context: &Context,
) -> Result<u32, Flawed>
    requires context { IsContextOver types.old context.now }
    requires types_in { AreTypes types.old (scope_in context.now.scope) ids.now }
    requires all { shown_all types.old (scope_in context.now.scope) ids.now ≡ bind_types (nbinds_of binds.now) }
    ensures says { Says (λ i. i) result (binds_judged (modules_of_context context.now) (without_joins (if recursive then with_binds (nbinds_of binds.now) (context_in types.old context.now) else (context_in types.old context.now))) recursive 0 (nbinds_of binds.now)) }
    ensures grows { OnOk result (Grows types.old types.new) }
    ensures context { OnOk result (IsContextOver types.new context.now) }
{
    if recursive {
        let group = (&*context).behind_binds(&*ids);
        let inner = group.without_joins();
        each_bind_fits(alloc, binds, true, types, &inner)
    } else {
        let inner = context.without_joins();
        each_bind_fits(alloc, binds, false, types, &inner)
    }
}

/// The type of the body behind binds of these types, which is the part of this number.
#[cycle(lint)]
pub(crate) fn type_behind_binds(
    alloc: Global,
    body: &NExpr,
    binds: &[NBind],
    ids: &[TypeId],
    types: &mut TypeTable,
    context: &Context,
    part: u32,
) -> Result<TypeId, Flawed>
    requires context { IsContextOver types.old context.now }
    requires types_in { AreTypes types.old (scope_in context.now.scope) ids.now }
    requires all { shown_all types.old (scope_in context.now.scope) ids.now ≡ bind_types (nbinds_of binds.now) }
    ensures valid { IfOk result (λ id. IsType types.new (scope_in context.now.scope) id) }
    ensures says { Says (λ id. shown types.new (scope_in context.now.scope) id) result (under part (type_or_fault (modules_of_context context.now) (with_binds (nbinds_of binds.now) (context_in types.old context.now)) (nexpr_of body.now))) }
    ensures grows { OnOk result (Grows types.old types.new) }
    ensures context { OnOk result (IsContextOver types.new context.now) }
{
    let inner = (&*context).behind_binds(&*ids);
    type_of_part(alloc, body, types, &inner, part)
}

/// The type of a let.
#[cycle(lint)]
pub(crate) fn type_of_let(
    alloc: Global,
    body: &NExpr,
    binds: &[NBind],
    recursive: bool,
    types: &mut TypeTable,
    context: &Context,
) -> Result<TypeId, Flawed>
    requires context { IsContextOver types.old context.now }
    ensures valid { IfOk result (λ id. IsType types.new (scope_in context.now.scope) id) }
    ensures says { Says (λ id. shown types.new (scope_in context.now.scope) id) result (type_or_fault (modules_of_context context.now) (context_in types.old context.now) (NLet recursive (nbinds_of binds.now) (nexpr_of body.now))) }
    ensures grows { OnOk result (Grows types.old types.new) }
    ensures context { OnOk result (IsContextOver types.new context.now) }
{
    let ids = context.types_of_binds(alloc, binds, types)?;
    let group = ids.as_slice();
    let part = binds_fit(alloc, binds, group, recursive, types, &*context)?;
    type_behind_binds(alloc, body, binds, group, types, &*context, part)
}
