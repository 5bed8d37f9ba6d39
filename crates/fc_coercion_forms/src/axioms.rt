//! Parameters of axioms, and their sides at what coercions relate.
ghost use Rattle.std.specs.Prelude.{◌≡◌, ◌&&◌, IfOk, IfSome, OnOk};
ghost use Rattle.std.specs.Option.{option_map};
ghost use Rattle.fc_model.specs.Calling.{at_type};
ghost use Rattle.fc_model.specs.Coercing as words;
ghost use Rattle.fc_model.specs.NamelessView.{nparams_of};
ghost use Rattle.fc_model.specs.Needs.{param_roles};
ghost use Rattle.fc_model.specs.Says.{Says};
ghost use Rattle.fc_coercion_forms.specs.Axioms as views;
ghost use Rattle.fc_coercion_forms.specs.Axioms.{parameters_fit};
ghost use Rattle.fc_type_scope.specs.EndViews.{AreEndsAt, IsEnds, shown_all_ends_at};
ghost use Rattle.fc_type_scope.specs.Scopes.{scope_in};
ghost use Rattle.fc_type_table.specs.InScope.{AreNumbered, own_kinds};
ghost use Rattle.fc_type_table.specs.TypeTables.{Grows, IsKindId, IsType, kind_shown, modules_in, nodes_of, shown};

use crate::kinds::is_of_kind;
use crate::roles::are_at_roles;
use fc_model::{Flawed, flaw_here};
use fc_syntax::{FaultKind, Memory, Param, Role};
use fc_type_scope::{Ends, TypeScope};
use fc_type_table::{NumberedKind, TypeId, TypeTable};
use std::alloc::Global;

/// Whether both ends of a coercion are of a kind.
fn is_between(kind: TypeId, ends: &Ends, types: &TypeTable, scope: &TypeScope<'_>) -> bool
    requires kind_in { IsKindId types.now kind }
    requires ends_in { IsEnds types.now (scope_in scope.now) ends.now }
    ensures { result ≡ (words.is_of_kind (modules_in types.now) (scope_in scope.now) (kind_shown types.now kind) (shown types.now (scope_in scope.now) ends.now.left) && words.is_of_kind (modules_in types.now) (scope_in scope.now) (kind_shown types.now kind) (shown types.now (scope_in scope.now) ends.now.right)) }
{
    let left = is_of_kind(kind, ends.left, types, scope);
    left && is_of_kind(kind, ends.right, types, scope)
}

/// Whether both ends of each coercion are of the kind of its parameter.
fn are_of_kinds(
    kinds: &[NumberedKind],
    group: &[Ends],
    types: &TypeTable,
    scope: &TypeScope<'_>,
) -> bool
    requires kinds_in { AreNumbered (nodes_of types.now) kinds.now }
    requires group_in { AreEndsAt (nodes_of types.now) (scope_in scope.now) group.now }
    ensures { result ≡ words.are_of_kinds (modules_in types.now) (scope_in scope.now) (own_kinds kinds.now) (shown_all_ends_at (nodes_of types.now) (scope_in scope.now) group.now) }
{
    let mut at = 0;
    while at < kinds.len() && at < group.len() {
        if !is_between(kinds[at].id, &group[at], types, scope) {
            return false;
        }
        at += 1;
    }
    true
}

/// Whether coercions fit parameters of these kinds and roles, in what stands at a role: `AxiomArity`, `RoleWrong` and `KindsDiffer`, in this
/// order. The answer is that role.
pub fn fit(
    alloc: Global,
    role: Role,
    params: &[Param],
    kinds: &[NumberedKind],
    group: &[Ends],
    types: &TypeTable,
    scope: &TypeScope<'_>,
) -> Result<Role, Flawed>
    requires kinds_in { AreNumbered (nodes_of types.now) kinds.now }
    requires group_in { AreEndsAt (nodes_of types.now) (scope_in scope.now) group.now }
    ensures { Says (λ r. r) result (parameters_fit (modules_in types.now) (scope_in scope.now) (own_kinds kinds.now) role (param_roles (nparams_of params.now)) (shown_all_ends_at (nodes_of types.now) (scope_in scope.now) group.now)) }
{
    if group.len() != kinds.len() {
        return Err(flaw_here(alloc, FaultKind::AxiomArity));
    }
    if !are_at_roles(role, params, group) {
        return Err(flaw_here(alloc, FaultKind::RoleWrong));
    }
    if !are_of_kinds(kinds, group, types, scope) {
        return Err(flaw_here(alloc, FaultKind::KindsDiffer));
    }
    Ok(role)
}

/// Two types.
#[derive(Clone, Copy)]
pub struct Pair {
    /// The first.
    pub left: TypeId,
    /// The second.
    pub right: TypeId,
}

/// Two `forall`s at one type more, the first at the left end of a coercion and the second at its right end; nothing where one is no
/// `forall`.
#[tactic(auto, using(fc_type_scope::proofs::Proven::table_rules))]
fn at_ends(
    alloc: Global,
    pair: Pair,
    ends: &Ends,
    types: &mut TypeTable,
    scope: &TypeScope<'_>,
) -> Result<Option<Pair>, Memory>
    requires left_in { IsType types.old (scope_in scope.now) pair.left }
    requires right_in { IsType types.old (scope_in scope.now) pair.right }
    requires ends_in { IsEnds types.old (scope_in scope.now) ends.now }
    ensures valid { IfOk result (λ o. IfSome o (λ p. IsType types.new (scope_in scope.now) p.left × IsType types.new (scope_in scope.now) p.right)) }
    ensures view { IfOk result (λ o. option_map (λ p. (shown types.new (scope_in scope.now) p.left, shown types.new (scope_in scope.now) p.right)) o ≡ views.both_of (at_type (shown types.old (scope_in scope.now) pair.left) (shown types.old (scope_in scope.now) ends.now.left)) (at_type (shown types.old (scope_in scope.now) pair.right) (shown types.old (scope_in scope.now) ends.now.right))) }
    ensures grows { OnOk result (Grows types.old types.new) }
{
    let Some(left) = scope.instantiate(alloc, pair.left, ends.left, types)? else {
        return Ok(None);
    };
    let Some(right) = scope.instantiate(alloc, pair.right, ends.right, types)? else {
        return Ok(None);
    };
    Ok(Some(Pair { left, right }))
}

/// The same at all coercions, one after the other.
pub fn at_all_ends(
    alloc: Global,
    pair: Pair,
    group: &[Ends],
    types: &mut TypeTable,
    scope: &TypeScope<'_>,
) -> Result<Option<Pair>, Memory>
    requires left_in { IsType types.old (scope_in scope.now) pair.left }
    requires right_in { IsType types.old (scope_in scope.now) pair.right }
    requires group_in { AreEndsAt (nodes_of types.old) (scope_in scope.now) group.now }
    ensures valid { IfOk result (λ o. IfSome o (λ p. IsType types.new (scope_in scope.now) p.left × IsType types.new (scope_in scope.now) p.right)) }
    ensures view { IfOk result (λ o. option_map (λ p. (shown types.new (scope_in scope.now) p.left, shown types.new (scope_in scope.now) p.right)) o ≡ views.sides_at (shown types.old (scope_in scope.now) pair.left) (shown types.old (scope_in scope.now) pair.right) (shown_all_ends_at (nodes_of types.old) (scope_in scope.now) group.now)) }
    ensures grows { OnOk result (Grows types.old types.new) }
{
    let mut so_far = pair;
    for ends in group {
        match at_ends(alloc, so_far, ends, types, scope)? {
            None => return Ok(None),
            Some(next) => so_far = next,
        }
    }
    Ok(Some(so_far))
}
