//! `forall`s at types that a coercion relates.
ghost use Rattle.std.specs.Prelude.{◌≡◌, IfOk, IfSome, OnOk};
ghost use Rattle.std.specs.Option.{option_map};
ghost use Rattle.fc_model.specs.Coercing as words;
ghost use Rattle.fc_model.specs.Says.{Says};
ghost use Rattle.fc_model.specs.Calling.{at_type};
ghost use Rattle.fc_coercion_forms.specs.Foralls.{ends_at_types, one_forall_kind};
ghost use Rattle.fc_type_scope.specs.EndViews.{IsEnds, shown_ends};
ghost use Rattle.fc_type_scope.specs.Refusals.{OnFlaw};
ghost use Rattle.fc_type_scope.specs.Scopes.{scope_in};
ghost use Rattle.fc_type_table.specs.TypeTables.{Grows, IsKindId, kind_shown, modules_in, shown};

use crate::kinds::is_of_kind;
use crate::roles::is_nominal;
use fc_model::{Flawed, flaw_here};
use fc_syntax::FaultKind;
use fc_type_scope::{Ends, TypeScope};
use fc_type_table::{TypeId, TypeTable};
use std::alloc::Global;

/// The kind of the variables of two `forall`s, if both are `forall`s over variables of one kind.
fn kind_of_foralls(ends: &Ends, types: &TypeTable, scope: &TypeScope<'_>) -> Option<TypeId>
    requires { IsEnds types.now (scope_in scope.now) ends.now }
    ensures valid { IfSome result (λ k. IsKindId types.now k) }
    ensures view { option_map (λ k. kind_shown types.now k) result ≡ one_forall_kind (shown types.now (scope_in scope.now) ends.now.left) (shown types.now (scope_in scope.now) ends.now.right) }
{
    let left = types.forall_kind(ends.left)?;
    let right = types.forall_kind(ends.right)?;
    if types.same_kind(left, right) {
        Some(left)
    } else {
        None
    }
}

/// The first of two `forall`s at the left end of a coercion, and the second at its right end.
#[tactic(auto, using(fc_type_scope::proofs::Proven::table_rules))]
fn instantiated(
    alloc: Global,
    foralls: Ends,
    at: Ends,
    types: &mut TypeTable,
    scope: &TypeScope<'_>,
) -> Result<Ends, Flawed>
    requires foralls_in { IsEnds types.old (scope_in scope.now) foralls }
    requires at_in { IsEnds types.old (scope_in scope.now) at }
    ensures valid { IfOk result (λ e. IsEnds types.new (scope_in scope.now) e) }
    ensures says { Says (λ e. shown_ends types.new (scope_in scope.now) e) result (ends_at_types foralls.role (at_type (shown types.old (scope_in scope.now) foralls.left) (shown types.old (scope_in scope.now) at.left)) (at_type (shown types.old (scope_in scope.now) foralls.right) (shown types.old (scope_in scope.now) at.right))) }
    ensures grows { OnOk result (Grows types.old types.new) }
    ensures refused { OnFlaw result (Grows types.old types.new) }
{
    let Some(left) = scope.instantiate(alloc, foralls.left, at.left, types)? else {
        return Err(flaw_here(alloc, FaultKind::EndsDiffer));
    };
    let Some(right) = scope.instantiate(alloc, foralls.right, at.right, types)? else {
        return Err(flaw_here(alloc, FaultKind::EndsDiffer));
    };
    Ok(Ends {
        role: foralls.role,
        left,
        right,
    })
}

/// What two `forall`s that a coercion relates are at what another relates: `EndsDiffer` where they are not `forall`s over variables of one
/// kind, then `RoleWrong` where the other is not at N, and `KindMismatch` where an end of it is not of that kind.
#[tactic(auto, using(fc_type_scope::proofs::Proven::table_rules))]
pub fn instance(
    alloc: Global,
    foralls: Ends,
    at: Ends,
    types: &mut TypeTable,
    scope: &TypeScope<'_>,
) -> Result<Ends, Flawed>
    requires foralls_in { IsEnds types.old (scope_in scope.now) foralls }
    requires at_in { IsEnds types.old (scope_in scope.now) at }
    ensures valid { IfOk result (λ e. IsEnds types.new (scope_in scope.now) e) }
    ensures says { Says (λ e. shown_ends types.new (scope_in scope.now) e) result (words.instance_ends (modules_in types.old) (scope_in scope.now) (shown_ends types.old (scope_in scope.now) foralls) (shown_ends types.old (scope_in scope.now) at)) }
    ensures grows { OnOk result (Grows types.old types.new) }
    ensures refused { OnFlaw result (Grows types.old types.new) }
{
    let Some(kind) = kind_of_foralls(&foralls, types, scope) else {
        return Err(flaw_here(alloc, FaultKind::EndsDiffer));
    };
    if !is_nominal(at.role) {
        return Err(flaw_here(alloc, FaultKind::RoleWrong));
    }
    if !is_of_kind(kind, at.left, types, scope) || !is_of_kind(kind, at.right, types, scope) {
        return Err(flaw_here(alloc, FaultKind::KindMismatch));
    }
    instantiated(alloc, foralls, at, types, scope)
}
