//! The heads and the arguments of applications that a coercion relates.
ghost use Rattle.std.specs.Prelude.{◌≡◌, IfOk, IfSome};
ghost use Rattle.std.specs.Option.{option_map};
ghost use Rattle.fc_model.specs.Coercing as words;
ghost use Rattle.fc_model.specs.Kinding as kinding;
ghost use Rattle.fc_model.specs.Calling.{application_ends};
ghost use Rattle.fc_model.specs.Says.{Says};
ghost use Rattle.fc_coercion_forms.specs.Splits.{both_split, one_kind_or_fault, split_or_fault};
ghost use Rattle.fc_type_scope.specs.EndViews.{IsEnds, shown_ends};
ghost use Rattle.fc_type_scope.specs.Scopes.{scope_in};
ghost use Rattle.fc_type_table.specs.TypeTables.{IsType, modules_in, shown};

use crate::kinds::have_one_kind;
use crate::roles::is_nominal;
use fc_model::{Flawed, flaw_here};
use fc_syntax::{FaultKind, Memory, Role};
use fc_type_scope::{Ends, TypeScope};
use fc_type_spines::spine_of;
use fc_type_table::{TypeId, TypeTable};
use fc_types::params_of_family;
use std::alloc::Global;

/// Whether a type is a family applied to exactly as many types as it has parameters.
fn is_family_applied(
    alloc: Global,
    id: TypeId,
    types: &TypeTable,
    scope: &TypeScope<'_>,
) -> Result<bool, Memory>
    requires { IsType types.now (scope_in scope.now) id }
    ensures { IfOk result (λ b. b ≡ kinding.is_family_applied (modules_in types.now) 0 (shown types.now (scope_in scope.now) id)) }
{
    let spine = spine_of(alloc, id, types, scope)?;
    let Some(decl) = types.declaration(spine.head) else {
        return Ok(false);
    };
    match params_of_family(decl) {
        None => Ok(false),
        Some(count) => Ok(count == spine.arguments.len()),
    }
}

/// What a coercion relates where it relates applications: their heads, and what they are applied to.
#[derive(Clone, Copy)]
struct Applications {
    /// The heads.
    heads: Ends,
    /// What they are applied to.
    arguments: Ends,
}

/// Both ends as applications, if they are.
fn as_applications(ends: &Ends, types: &TypeTable, scope: &TypeScope<'_>) -> Option<Applications>
    requires { IsEnds types.now (scope_in scope.now) ends.now }
    ensures valid { IfSome result (λ a. IsEnds types.now (scope_in scope.now) a.heads × IsEnds types.now (scope_in scope.now) a.arguments) }
    ensures view { option_map (λ a. (shown_ends types.now (scope_in scope.now) a.heads, shown_ends types.now (scope_in scope.now) a.arguments)) result ≡ both_split (application_ends (shown types.now (scope_in scope.now) ends.now.left)) (application_ends (shown types.now (scope_in scope.now) ends.now.right)) }
{
    let left = scope.application_parts(ends.left, types)?;
    let right = scope.application_parts(ends.right, types)?;
    Some(Applications {
        heads: Ends {
            role: Role::N,
            left: left.0,
            right: right.0,
        },
        arguments: Ends {
            role: Role::N,
            left: left.1,
            right: right.1,
        },
    })
}

/// Both ends as applications that can be taken apart: `RoleWrong` where they are not related at N, and then `NotInjective` where they are no
/// applications or one of them makes a family applied in full.
fn split(
    alloc: Global,
    ends: &Ends,
    types: &TypeTable,
    scope: &TypeScope<'_>,
) -> Result<Applications, Flawed>
    requires { IsEnds types.now (scope_in scope.now) ends.now }
    ensures valid { IfOk result (λ a. IsEnds types.now (scope_in scope.now) a.heads × IsEnds types.now (scope_in scope.now) a.arguments) }
    ensures says { Says (λ a. (shown_ends types.now (scope_in scope.now) a.heads, shown_ends types.now (scope_in scope.now) a.arguments)) result (split_or_fault (modules_in types.now) (shown_ends types.now (scope_in scope.now) ends.now)) }
{
    if !is_nominal(ends.role) {
        return Err(flaw_here(alloc, FaultKind::RoleWrong));
    }
    let Some(both) = as_applications(ends, types, scope) else {
        return Err(flaw_here(alloc, FaultKind::NotInjective));
    };
    let left = is_family_applied(alloc, ends.left, types, scope)?;
    if left || is_family_applied(alloc, ends.right, types, scope)? {
        return Err(flaw_here(alloc, FaultKind::NotInjective));
    }
    Ok(both)
}

/// What a coercion relates, if it is of one kind: `KindsDiffer`.
fn of_one_kind(
    alloc: Global,
    ends: Ends,
    types: &TypeTable,
    scope: &TypeScope<'_>,
) -> Result<Ends, Flawed>
    requires { IsEnds types.now (scope_in scope.now) ends }
    ensures valid { IfOk result (λ e. IsEnds types.now (scope_in scope.now) e) }
    ensures says { Says (λ e. shown_ends types.now (scope_in scope.now) e) result (one_kind_or_fault (modules_in types.now) (scope_in scope.now) (shown_ends types.now (scope_in scope.now) ends)) }
{
    if !have_one_kind(ends.left, ends.right, types, scope) {
        return Err(flaw_here(alloc, FaultKind::KindsDiffer));
    }
    Ok(ends)
}

/// The heads of the applications that a coercion relates: the faults of `split`, and then `KindsDiffer`.
pub fn heads(
    alloc: Global,
    ends: Ends,
    types: &TypeTable,
    scope: &TypeScope<'_>,
) -> Result<Ends, Flawed>
    requires { IsEnds types.now (scope_in scope.now) ends }
    ensures valid { IfOk result (λ e. IsEnds types.now (scope_in scope.now) e) }
    ensures says { Says (λ e. shown_ends types.now (scope_in scope.now) e) result (words.side_ends (modules_in types.now) (scope_in scope.now) (λ p. p.0) (shown_ends types.now (scope_in scope.now) ends)) }
{
    let both = split(alloc, &ends, types, scope)?;
    of_one_kind(alloc, both.heads, types, scope)
}

/// What they are applied to: the same faults.
pub fn arguments(
    alloc: Global,
    ends: Ends,
    types: &TypeTable,
    scope: &TypeScope<'_>,
) -> Result<Ends, Flawed>
    requires { IsEnds types.now (scope_in scope.now) ends }
    ensures valid { IfOk result (λ e. IsEnds types.now (scope_in scope.now) e) }
    ensures says { Says (λ e. shown_ends types.now (scope_in scope.now) e) result (words.side_ends (modules_in types.now) (scope_in scope.now) (λ p. p.1) (shown_ends types.now (scope_in scope.now) ends)) }
{
    let both = split(alloc, &ends, types, scope)?;
    of_one_kind(alloc, both.arguments, types, scope)
}
