//! What is proved by coercions below a `forall` and a `coforall`.
ghost use Rattle.std.specs.Prelude.{◌≡◌, [], ◌∷◌, IfOk, OnOk};
ghost use Rattle.fc_syntax.specs.declared.ty.Role.TheVariants.{R};
ghost use Rattle.fc_syntax.specs.Tree.{KStar};
ghost use Rattle.fc_syntax.specs.View.{kind_of};
ghost use Rattle.fc_model.specs.Coercing as words;
ghost use Rattle.fc_model.specs.Nameless.{NTCoForall, NTInt};
ghost use Rattle.fc_model.specs.Says.{Says};
ghost use Rattle.fc_type_scope.specs.EndViews.{IsEnds, shown_ends};
ghost use Rattle.fc_type_scope.specs.Refusals.{OnFlaw};
ghost use Rattle.fc_type_scope.specs.Scopes.{scope_in};
ghost use Rattle.fc_type_table.specs.TypeTables.{Grows, IsType, modules_in, shown};

use crate::kinds::{have_one_kind, is_value_type};
use fc_model::{Flawed, flaw_here};
use fc_roles::role_within;
use fc_syntax::{FaultKind, Kind, Memory, Role};
use fc_type_scope::{Ends, TypeScope};
use fc_type_table::{TypeId, TypeTable};
use fc_types::{is_lifted, same_role};
use std::alloc::Global;

/// The `forall`s over what a coercion relates behind a variable of a kind: `UnliftedVariable`, and then `NotAType` where one of them is not
/// of kind `*`.
#[tactic(auto, using(fc_type_scope::proofs::Proven::table_rules))]
pub fn quantified(
    alloc: Global,
    kind: &Kind,
    ends: Ends,
    types: &mut TypeTable,
    inner: &TypeScope<'_>,
    scope: &TypeScope<'_>,
) -> Result<Ends, Flawed>
    requires inner { scope_in inner.now ≡ kind_of kind.now ∷ scope_in scope.now }
    requires ends_in { IsEnds types.old (kind_of kind.now ∷ scope_in scope.now) ends }
    ensures valid { IfOk result (λ e. IsEnds types.new (scope_in scope.now) e) }
    ensures says { Says (λ e. shown_ends types.new (scope_in scope.now) e) result (words.forall_ends (modules_in types.old) (scope_in scope.now) (kind_of kind.now) (shown_ends types.old (kind_of kind.now ∷ scope_in scope.now) ends)) }
    ensures grows { OnOk result (Grows types.old types.new) }
    ensures refused { OnFlaw result (Grows types.old types.new) }
{
    if !is_lifted(kind) {
        return Err(flaw_here(alloc, FaultKind::UnliftedVariable));
    }
    if !inner.has_kind_star(ends.left, types) || !inner.has_kind_star(ends.right, types) {
        return Err(flaw_here(alloc, FaultKind::NotAType));
    }
    let left = scope.forall(alloc, kind, ends.left, types)?;
    let right = scope.forall(alloc, kind, ends.right, types)?;
    Ok(Ends {
        role: ends.role,
        left,
        right,
    })
}

/// Whether a type may take a coercion between the first two types and then be of the third: `KindsDiffer`, and then `NotAType`.
fn coforall_kinded(
    alloc: Global,
    left: TypeId,
    right: TypeId,
    body: TypeId,
    types: &TypeTable,
    scope: &TypeScope<'_>,
) -> Result<(), Flawed>
    requires left_in { IsType types.now (scope_in scope.now) left }
    requires right_in { IsType types.now (scope_in scope.now) right }
    requires body_in { IsType types.now (scope_in scope.now) body }
    ensures { Says (λ _. KStar) result (words.coforall_kinded (modules_in types.now) (scope_in scope.now) (shown types.now (scope_in scope.now) left) (shown types.now (scope_in scope.now) right) (shown types.now (scope_in scope.now) body)) }
{
    if !have_one_kind(left, right, types, scope) {
        return Err(flaw_here(alloc, FaultKind::KindsDiffer));
    }
    if !is_value_type(body, types, scope) {
        return Err(flaw_here(alloc, FaultKind::NotAType));
    }
    Ok(())
}

/// Whether the parts of types that take coercions at a role are at the roles that they have in what stands at another.
fn parts_at_roles(outer: Role, role: Role, left: &Ends, right: &Ends, body: &Ends) -> bool
    ensures { result ≡ words.are_at_roles outer (role ∷ role ∷ R ∷ []) (record { role = left.now.role; left = NTInt; right = NTInt } ∷ record { role = right.now.role; left = NTInt; right = NTInt } ∷ record { role = body.now.role; left = NTInt; right = NTInt } ∷ []) }
{
    let asked = role_within(outer, role);
    let ends = same_role(left.role, asked) && same_role(right.role, asked);
    ends && same_role(body.role, role_within(outer, Role::R))
}

/// The type that takes a coercion at a role between the first two types, and is then the third.
fn coforall(
    role: Role,
    left: TypeId,
    right: TypeId,
    body: TypeId,
    types: &mut TypeTable,
    scope: &TypeScope<'_>,
) -> Result<TypeId, Memory>
    requires left_in { IsType types.old (scope_in scope.now) left }
    requires right_in { IsType types.old (scope_in scope.now) right }
    requires body_in { IsType types.old (scope_in scope.now) body }
    ensures valid { IfOk result (λ id. IsType types.new (scope_in scope.now) id) }
    ensures view { IfOk result (λ id. shown types.new (scope_in scope.now) id ≡ NTCoForall role (shown types.old (scope_in scope.now) left) (shown types.old (scope_in scope.now) right) (shown types.old (scope_in scope.now) body)) }
    ensures grows { OnOk result (Grows types.old types.new) }
{
    types.coforall(role, left, right, body)
}

/// The types that take coercions at a role between what two coercions relate, and are then what the third relates.
#[tactic(auto, using(fc_type_scope::proofs::Proven::table_rules))]
fn coforalls(
    outer: Role,
    role: Role,
    left: Ends,
    right: Ends,
    body: Ends,
    types: &mut TypeTable,
    scope: &TypeScope<'_>,
) -> Result<Ends, Memory>
    requires left_in { IsEnds types.old (scope_in scope.now) left }
    requires right_in { IsEnds types.old (scope_in scope.now) right }
    requires body_in { IsEnds types.old (scope_in scope.now) body }
    ensures valid { IfOk result (λ e. IsEnds types.new (scope_in scope.now) e) }
    ensures view { IfOk result (λ e. shown_ends types.new (scope_in scope.now) e ≡ words.ends outer (NTCoForall role (shown types.old (scope_in scope.now) left.left) (shown types.old (scope_in scope.now) right.left) (shown types.old (scope_in scope.now) body.left)) (NTCoForall role (shown types.old (scope_in scope.now) left.right) (shown types.old (scope_in scope.now) right.right) (shown types.old (scope_in scope.now) body.right))) }
    ensures grows { OnOk result (Grows types.old types.new) }
{
    let from = coforall(role, left.left, right.left, body.left, types, scope)?;
    let to = coforall(role, left.right, right.right, body.right, types, scope)?;
    Ok(Ends {
        role: outer,
        left: from,
        right: to,
    })
}

/// The types that take coercions at a role between what two coercions relate, and are then what the third relates: `RoleWrong`, and then
/// `KindsDiffer` and `NotAType`, the left end first.
pub fn taking(
    alloc: Global,
    outer: Role,
    role: Role,
    left: Ends,
    right: Ends,
    body: Ends,
    types: &mut TypeTable,
    scope: &TypeScope<'_>,
) -> Result<Ends, Flawed>
    requires left_in { IsEnds types.old (scope_in scope.now) left }
    requires right_in { IsEnds types.old (scope_in scope.now) right }
    requires body_in { IsEnds types.old (scope_in scope.now) body }
    ensures valid { IfOk result (λ e. IsEnds types.new (scope_in scope.now) e) }
    ensures says { Says (λ e. shown_ends types.new (scope_in scope.now) e) result (words.coforall_ends (modules_in types.old) (scope_in scope.now) outer role (shown_ends types.old (scope_in scope.now) left) (shown_ends types.old (scope_in scope.now) right) (shown_ends types.old (scope_in scope.now) body)) }
    ensures grows { OnOk result (Grows types.old types.new) }
    ensures refused { OnFlaw result (Grows types.old types.new) }
{
    if !parts_at_roles(outer, role, &left, &right, &body) {
        return Err(flaw_here(alloc, FaultKind::RoleWrong));
    }
    coforall_kinded(alloc, left.left, right.left, body.left, types, scope)?;
    coforall_kinded(alloc, left.right, right.right, body.right, types, scope)?;
    Ok(coforalls(outer, role, left, right, body, types, scope)?)
}
