//! The parts of types that a coercion relates.
ghost use Rattle.std.specs.Prelude.{◌≡◌, [], ◌∷◌, length, reverse, Some, IfOk, IfSome};
ghost use Rattle.fc_syntax.specs.declared.ty.Role.TheVariants.{R};
ghost use Rattle.std.specs.Option.{option_map};
ghost use Rattle.fc_model.specs.Coercing as words;
ghost use Rattle.fc_model.specs.NamelessView.{ndecl_of, nparams_of};
ghost use Rattle.fc_model.specs.Needs.{param_roles, role_within};
ghost use Rattle.fc_model.specs.Says.{Says};
ghost use Rattle.fc_coercion_forms.specs.Parts.{spine_parts};
ghost use Rattle.fc_type_scope.specs.EndViews.{AreEndsAt, IsEnds, shown_all_ends_at, shown_ends};
ghost use Rattle.fc_type_scope.specs.Scopes.{AreTypes, scope_in, shown_all};
ghost use Rattle.fc_type_table.specs.TypeTables.{IsType, modules_in, nodes_of, shown};

use crate::kinds::have_one_kind;
use crate::roles::{is_nominal, is_phantom};
use fc_model::{Flawed, flaw_here};
use fc_roles::{later_params, next_role, role_within, roled_params};
use fc_syntax::{FaultKind, Memory, NDecl, Param, Role, Seq};
use fc_type_scope::{Ends, TypeScope};
use fc_type_spines::{Spine, spine_of};
use fc_type_table::{TypeId, TypeTable};
use fc_types::same_role;
use std::alloc::Global;

/// The arguments of two types in pairs, each at the role of its parameter; both come the last one first.
fn pairs(
    alloc: Global,
    role: Role,
    params: &[Param],
    lefts: &[TypeId],
    rights: &[TypeId],
    types: &TypeTable,
    scope: &TypeScope<'_>,
) -> Result<Seq<Ends>, Memory>
    requires lefts_in { AreTypes types.now (scope_in scope.now) lefts.now }
    requires rights_in { AreTypes types.now (scope_in scope.now) rights.now }
    requires alike { length lefts.now ≡ length rights.now }
    ensures valid { IfOk result (λ es. AreEndsAt (nodes_of types.now) (scope_in scope.now) es) }
    ensures view { IfOk result (λ es. shown_all_ends_at (nodes_of types.now) (scope_in scope.now) es ≡ words.paired role (param_roles (nparams_of params.now)) (reverse (shown_all types.now (scope_in scope.now) lefts.now)) (reverse (shown_all types.now (scope_in scope.now) rights.now))) }
{
    let mut group = Seq::new(alloc);
    let mut roles = params;
    let mut left = lefts.len();
    while left > 0 {
        left -= 1;
        group.push(Ends {
            role: role_within(role, next_role(roles)),
            left: lefts[left],
            right: rights[left],
        })?;
        roles = later_params(roles);
    }
    Ok(group)
}

/// Whether a type of a declaration can be taken apart at a role.
#[tactic(auto, using(fc_syntax::proofs::View::view_rules))]
fn is_injective(role: Role, decl: &NDecl) -> bool
    ensures { result ≡ words.is_injective role (Some (ndecl_of decl.now)) }
{
    match decl {
        NDecl::DataType(_, _, _) => true,
        NDecl::NewType(_, _, _, _) => is_nominal(role),
        NDecl::Family(_, _, _) => false,
        NDecl::Axiom(_, _, _, _) => false,
        NDecl::Def(_, _, _) => false,
        NDecl::Wrap(_, _, _) => false,
    }
}

/// The parts of two types that are heads at arguments, where both are of one declared type that can be taken apart.
fn named_parts(
    alloc: Global,
    role: Role,
    left: &Spine,
    right: &Spine,
    types: &TypeTable,
    scope: &TypeScope<'_>,
) -> Result<Option<Seq<Ends>>, Memory>
    requires left_head { IsType types.now (scope_in scope.now) left.now.head }
    requires right_head { IsType types.now (scope_in scope.now) right.now.head }
    requires lefts_in { AreTypes types.now (scope_in scope.now) left.now.arguments }
    requires rights_in { AreTypes types.now (scope_in scope.now) right.now.arguments }
    ensures valid { IfOk result (λ o. IfSome o (λ es. AreEndsAt (nodes_of types.now) (scope_in scope.now) es)) }
    ensures view { IfOk result (λ o. option_map (shown_all_ends_at (nodes_of types.now) (scope_in scope.now)) o ≡ spine_parts (modules_in types.now) role (shown types.now (scope_in scope.now) left.now.head) (reverse (shown_all types.now (scope_in scope.now) left.now.arguments)) (shown types.now (scope_in scope.now) right.now.head) (reverse (shown_all types.now (scope_in scope.now) right.now.arguments))) }
{
    let Some(decl) = types.declaration(left.head) else {
        return Ok(None);
    };
    let same = scope.same(left.head, right.head, types);
    let alike = left.arguments.len() == right.arguments.len();
    if !same || !alike || !is_injective(role, decl) {
        return Ok(None);
    }
    let lefts = left.arguments.as_slice();
    let rights = right.arguments.as_slice();
    let group = pairs(alloc, role, roled_params(decl), lefts, rights, types, scope)?;
    Ok(Some(group))
}

/// Two parts of functions, in pairs.
fn function_parts(
    alloc: Global,
    role: Role,
    left: (TypeId, TypeId),
    right: (TypeId, TypeId),
    types: &TypeTable,
    scope: &TypeScope<'_>,
) -> Result<Seq<Ends>, Memory>
    requires left_in { IsType types.now (scope_in scope.now) left.0 × IsType types.now (scope_in scope.now) left.1 }
    requires right_in { IsType types.now (scope_in scope.now) right.0 × IsType types.now (scope_in scope.now) right.1 }
    ensures valid { IfOk result (λ es. AreEndsAt (nodes_of types.now) (scope_in scope.now) es) }
    ensures view { IfOk result (λ es. shown_all_ends_at (nodes_of types.now) (scope_in scope.now) es ≡ words.ends (role_within role R) (shown types.now (scope_in scope.now) left.0) (shown types.now (scope_in scope.now) right.0) ∷ words.ends (role_within role R) (shown types.now (scope_in scope.now) left.1) (shown types.now (scope_in scope.now) right.1) ∷ []) }
{
    let role = role_within(role, Role::R);
    let mut group = Seq::new(alloc);
    group.push(Ends {
        role,
        left: left.0,
        right: right.0,
    })?;
    group.push(Ends {
        role,
        left: left.1,
        right: right.1,
    })?;
    Ok(group)
}

/// Three parts of types that take coercions at one role, in pairs.
fn equality_parts(
    alloc: Global,
    role: Role,
    left: (Ends, TypeId),
    right: (Ends, TypeId),
    types: &TypeTable,
    scope: &TypeScope<'_>,
) -> Result<Seq<Ends>, Memory>
    requires left_in { IsEnds types.now (scope_in scope.now) left.0 × IsType types.now (scope_in scope.now) left.1 }
    requires right_in { IsEnds types.now (scope_in scope.now) right.0 × IsType types.now (scope_in scope.now) right.1 }
    ensures valid { IfOk result (λ es. AreEndsAt (nodes_of types.now) (scope_in scope.now) es) }
    ensures view { IfOk result (λ es. shown_all_ends_at (nodes_of types.now) (scope_in scope.now) es ≡ words.ends (role_within role left.0.role) (shown types.now (scope_in scope.now) left.0.left) (shown types.now (scope_in scope.now) right.0.left) ∷ words.ends (role_within role left.0.role) (shown types.now (scope_in scope.now) left.0.right) (shown types.now (scope_in scope.now) right.0.right) ∷ words.ends (role_within role R) (shown types.now (scope_in scope.now) left.1) (shown types.now (scope_in scope.now) right.1) ∷ []) }
{
    let inner = role_within(role, left.0.role);
    let mut group = Seq::new(alloc);
    group.push(Ends {
        role: inner,
        left: left.0.left,
        right: right.0.left,
    })?;
    group.push(Ends {
        role: inner,
        left: left.0.right,
        right: right.0.right,
    })?;
    group.push(Ends {
        role: role_within(role, Role::R),
        left: left.1,
        right: right.1,
    })?;
    Ok(group)
}

/// The parts of two types that are related at a role, in pairs; nothing where they cannot be taken apart alike.
fn parts(
    alloc: Global,
    ends: &Ends,
    types: &TypeTable,
    scope: &TypeScope<'_>,
) -> Result<Option<Seq<Ends>>, Memory>
    requires { IsEnds types.now (scope_in scope.now) ends.now }
    ensures valid { IfOk result (λ o. IfSome o (λ es. AreEndsAt (nodes_of types.now) (scope_in scope.now) es)) }
    ensures view { IfOk result (λ o. option_map (shown_all_ends_at (nodes_of types.now) (scope_in scope.now)) o ≡ words.parts_of (modules_in types.now) ends.now.role (words.shape_of (shown types.now (scope_in scope.now) ends.now.left)) (words.shape_of (shown types.now (scope_in scope.now) ends.now.right))) }
{
    if let Some(left) = scope.function_parts(ends.left, types) {
        return match scope.function_parts(ends.right, types) {
            None => Ok(None),
            Some(right) => Ok(Some(function_parts(alloc, ends.role, left, right, types, scope)?)),
        };
    }
    if let Some(left) = scope.coercion_asked(ends.left, types) {
        return match scope.coercion_asked(ends.right, types) {
            None => Ok(None),
            Some(right) => {
                if !same_role(left.0.role, right.0.role) {
                    return Ok(None);
                }
                Ok(Some(equality_parts(alloc, ends.role, left, right, types, scope)?))
            }
        };
    }
    let left = spine_of(alloc, ends.left, types, scope)?;
    let right = spine_of(alloc, ends.right, types, scope)?;
    named_parts(alloc, ends.role, &left, &right, types, scope)
}

/// The part of a number of what a coercion relates: `NotInjective` at P and where the types cannot be taken apart alike, then `NthRange`,
/// and `KindsDiffer` where the parts are not of one kind.
pub fn part(
    alloc: Global,
    number: u32,
    ends: Ends,
    types: &TypeTable,
    scope: &TypeScope<'_>,
) -> Result<Ends, Flawed>
    requires { IsEnds types.now (scope_in scope.now) ends }
    ensures valid { IfOk result (λ e. IsEnds types.now (scope_in scope.now) e) }
    ensures says { Says (λ e. shown_ends types.now (scope_in scope.now) e) result (words.part_ends (modules_in types.now) (scope_in scope.now) number (shown_ends types.now (scope_in scope.now) ends)) }
{
    if is_phantom(ends.role) {
        return Err(flaw_here(alloc, FaultKind::NotInjective));
    }
    let Some(group) = parts(alloc, &ends, types, scope)? else {
        return Err(flaw_here(alloc, FaultKind::NotInjective));
    };
    let Some(part) = group.get(number as usize) else {
        return Err(flaw_here(alloc, FaultKind::NthRange));
    };
    if !have_one_kind(part.left, part.right, types, scope) {
        return Err(flaw_here(alloc, FaultKind::KindsDiffer));
    }
    Ok(*part)
}
