//! What is proved by coercions that stand beside each other.
ghost use Rattle.std.specs.Prelude.{◌≡◌, IfOk, OnOk};
ghost use Rattle.fc_model.specs.Coercing as words;
ghost use Rattle.fc_model.specs.Nameless.{NTApp};
ghost use Rattle.fc_model.specs.Says.{Says};
ghost use Rattle.fc_coercion_forms.specs.Kinded.{kinded_or_fault};
ghost use Rattle.fc_type_scope.specs.EndViews.{IsEnds, shown_ends};
ghost use Rattle.fc_type_scope.specs.Refusals.{OnFlaw};
ghost use Rattle.fc_type_scope.specs.Scopes.{scope_in};
ghost use Rattle.fc_type_table.specs.TypeTables.{Grows, modules_in, shown};

use crate::kinds::{are_kinded, have_one_value_kind};
use crate::roles::{is_nominal, is_phantom};
use fc_model::{Flawed, flaw_here};
use fc_syntax::{FaultKind, Memory, Role};
use fc_type_scope::{Ends, TypeScope};
use fc_type_table::TypeTable;
use fc_types::same_role;
use std::alloc::Global;

/// One coercion and then another: `RoleWrong` where they are at two roles, and then `EndsDiffer` where they do not meet.
pub fn joined(
    alloc: Global,
    first: Ends,
    second: Ends,
    types: &TypeTable,
    scope: &TypeScope<'_>,
) -> Result<Ends, Flawed>
    requires first_in { IsEnds types.now (scope_in scope.now) first }
    requires second_in { IsEnds types.now (scope_in scope.now) second }
    ensures valid { IfOk result (λ e. IsEnds types.now (scope_in scope.now) e) }
    ensures says { Says (λ e. shown_ends types.now (scope_in scope.now) e) result (words.joined_ends (shown_ends types.now (scope_in scope.now) first) (shown_ends types.now (scope_in scope.now) second)) }
{
    if !same_role(first.role, second.role) {
        return Err(flaw_here(alloc, FaultKind::RoleWrong));
    }
    if !scope.same(first.right, second.left, types) {
        return Err(flaw_here(alloc, FaultKind::EndsDiffer));
    }
    Ok(Ends {
        role: first.role,
        left: first.left,
        right: second.right,
    })
}

/// A coercion at N as one at R: `RoleWrong` from another role.
pub fn represented(
    alloc: Global,
    ends: Ends,
    types: &TypeTable,
    scope: &TypeScope<'_>,
) -> Result<Ends, Flawed>
    requires { IsEnds types.now (scope_in scope.now) ends }
    ensures valid { IfOk result (λ e. IsEnds types.now (scope_in scope.now) e) }
    ensures says { Says (λ e. shown_ends types.now (scope_in scope.now) e) result (words.represented_ends (shown_ends types.now (scope_in scope.now) ends)) }
{
    if !is_nominal(ends.role) {
        return Err(flaw_here(alloc, FaultKind::RoleWrong));
    }
    Ok(Ends {
        role: Role::R,
        left: ends.left,
        right: ends.right,
    })
}

/// Two types, each applied to one more.
#[tactic(auto, using(fc_type_scope::proofs::Proven::table_rules))]
pub(crate) fn applied_once(
    so_far: Ends,
    ends: Ends,
    types: &mut TypeTable,
    scope: &TypeScope<'_>,
) -> Result<Ends, Memory>
    requires so_far_in { IsEnds types.old (scope_in scope.now) so_far }
    requires ends_in { IsEnds types.old (scope_in scope.now) ends }
    ensures valid { IfOk result (λ e. IsEnds types.new (scope_in scope.now) e) }
    ensures view { IfOk result (λ e. shown_ends types.new (scope_in scope.now) e ≡ words.ends so_far.role (NTApp (shown types.old (scope_in scope.now) so_far.left) (shown types.old (scope_in scope.now) ends.left)) (NTApp (shown types.old (scope_in scope.now) so_far.right) (shown types.old (scope_in scope.now) ends.right))) }
    ensures grows { OnOk result (Grows types.old types.new) }
{
    let left = scope.application(so_far.left, ends.left, types)?;
    let right = scope.application(so_far.right, ends.right, types)?;
    Ok(Ends {
        role: so_far.role,
        left,
        right,
    })
}

/// What a coercion relates, if both ends have kinds: `KindMismatch`.
pub(crate) fn kinded(
    alloc: Global,
    ends: Ends,
    types: &TypeTable,
    scope: &TypeScope<'_>,
) -> Result<Ends, Flawed>
    requires { IsEnds types.now (scope_in scope.now) ends }
    ensures valid { IfOk result (λ e. IsEnds types.now (scope_in scope.now) e) }
    ensures says { Says (λ e. shown_ends types.now (scope_in scope.now) e) result (kinded_or_fault (modules_in types.now) (scope_in scope.now) (shown_ends types.now (scope_in scope.now) ends)) }
{
    if !are_kinded(ends.left, ends.right, types, scope) {
        return Err(flaw_here(alloc, FaultKind::KindMismatch));
    }
    Ok(ends)
}

/// Applications of what one coercion relates to what the other does: `RoleWrong` where the first is at P or the second not at N, and then
/// `KindMismatch` where one of them has no kind.
#[tactic(auto, using(fc_type_scope::proofs::Proven::table_rules))]
pub fn applied(
    alloc: Global,
    head: Ends,
    argument: Ends,
    types: &mut TypeTable,
    scope: &TypeScope<'_>,
) -> Result<Ends, Flawed>
    requires head_in { IsEnds types.old (scope_in scope.now) head }
    requires argument_in { IsEnds types.old (scope_in scope.now) argument }
    ensures valid { IfOk result (λ e. IsEnds types.new (scope_in scope.now) e) }
    ensures says { Says (λ e. shown_ends types.new (scope_in scope.now) e) result (words.applied_ends (modules_in types.old) (scope_in scope.now) (shown_ends types.old (scope_in scope.now) head) (shown_ends types.old (scope_in scope.now) argument)) }
    ensures grows { OnOk result (Grows types.old types.new) }
    ensures refused { OnFlaw result (Grows types.old types.new) }
{
    if is_phantom(head.role) || !is_nominal(argument.role) {
        return Err(flaw_here(alloc, FaultKind::RoleWrong));
    }
    let ends = applied_once(head, argument, types, scope)?;
    kinded(alloc, ends, types, scope)
}

/// Functions from what one coercion relates to what the other does: `RoleWrong` where they are at two roles or at P, and then `NotAType`
/// where the ends of one of them are not of one kind of values.
#[tactic(auto, using(fc_type_scope::proofs::Proven::table_rules))]
pub fn function(
    alloc: Global,
    from: Ends,
    to: Ends,
    types: &mut TypeTable,
    scope: &TypeScope<'_>,
) -> Result<Ends, Flawed>
    requires from_in { IsEnds types.old (scope_in scope.now) from }
    requires to_in { IsEnds types.old (scope_in scope.now) to }
    ensures valid { IfOk result (λ e. IsEnds types.new (scope_in scope.now) e) }
    ensures says { Says (λ e. shown_ends types.new (scope_in scope.now) e) result (words.arrow_ends (modules_in types.old) (scope_in scope.now) (shown_ends types.old (scope_in scope.now) from) (shown_ends types.old (scope_in scope.now) to)) }
    ensures grows { OnOk result (Grows types.old types.new) }
    ensures refused { OnFlaw result (Grows types.old types.new) }
{
    if !same_role(from.role, to.role) || is_phantom(from.role) {
        return Err(flaw_here(alloc, FaultKind::RoleWrong));
    }
    let from_fits = have_one_value_kind(from.left, from.right, types, scope);
    if !from_fits || !have_one_value_kind(to.left, to.right, types, scope) {
        return Err(flaw_here(alloc, FaultKind::NotAType));
    }
    let left = scope.function(from.left, to.left, types)?;
    let right = scope.function(from.right, to.right, types)?;
    Ok(Ends {
        role: from.role,
        left,
        right,
    })
}
