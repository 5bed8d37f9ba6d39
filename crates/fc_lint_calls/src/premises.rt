//! The premises of binds, cases, casts, errors, joins and binders, behind those of their parts.
ghost use Rattle.std.specs.Prelude.{◌≡◌, ◌++◌, List, length, Ok, IfOk};
ghost use Rattle.fc_model.specs.Calling.{atom_fits};
ghost use Rattle.fc_model.specs.Faulting.{need};
ghost use Rattle.fc_model.specs.Kinding.{same_type};
ghost use Rattle.fc_model.specs.NamelessView.{nbinder_of};
ghost use Rattle.fc_model.specs.Says.{Says};
ghost use Rattle.fc_model.specs.Typing as words;
ghost use Rattle.fc_model.specs.Typing.{kinds_behind, paid};
ghost use Rattle.fc_syntax.specs.Tree as trees;
ghost use Rattle.fc_syntax.specs.declared.fault.FaultKind.TheVariants.{LetType, NotAType, ScrutineeType, UnliftedNotAtom};
ghost use Rattle.fc_type_scope.specs.EndViews.{IsEnds, shown_ends};
ghost use Rattle.fc_type_scope.specs.Scopes.{scope_in};
ghost use Rattle.fc_type_table.specs.TypeTables.{IsNumber, IsType, modules_in, shown};

use fc_model::{Flawed, flaw_here};
use fc_syntax::{FaultKind, NBinder, Role};
use fc_type_scope::{Ends, TypeScope};
use fc_type_table::{TypeId, TypeTable};
use fc_types::same_role;
use std::alloc::Global;

/// What was asked of binders, behind what stands below them: the fault, if there is one.
pub fn pays(alloc: Global, owed: Option<FaultKind>) -> Result<(), Flawed>
    ensures { Says (λ _. tt {0}) result (paid owed (Ok (tt {0}))) }
{
    match owed {
        None => Ok(()),
        Some(kind) => Err(flaw_here(alloc, kind)),
    }
}

/// Whether what is of the type `inner` behind type variables is of the type `outer` before them, in the scope: `EscapingType` where `inner`
/// mentions one of them, and then `differs`.
pub fn leaves_as(
    alloc: Global,
    inner: TypeId,
    outer: TypeId,
    differs: FaultKind,
    types: &TypeTable,
    scope: &TypeScope<'_>,
) -> Result<(), Flawed>
    requires inner_in { IsNumber types.now inner }
    requires outer_in { IsType types.now (scope_in scope.now) outer }
    ensures { (bs : List trees.Kind) → IsType types.now (bs ++ scope_in scope.now) inner → Says (λ _. tt {0}) result (words.leaves_as (length bs) (shown types.now (bs ++ scope_in scope.now) inner) (shown types.now (scope_in scope.now) outer) differs (Ok (tt {0}))) }
{
    if scope.escapes(inner, types)? {
        return Err(flaw_here(alloc, FaultKind::EscapingType));
    }
    if !types.same(inner, outer) {
        return Err(flaw_here(alloc, differs));
    }
    Ok(())
}

/// Whether a bind of this type, which is one of values or not, takes a right side of the other type, an atom or not: `NotAType`, `LetType` and
/// `UnliftedNotAtom`, in this order.
pub fn bind_takes(
    alloc: Global,
    is_value: bool,
    ty: TypeId,
    right: TypeId,
    atom: bool,
    types: &TypeTable,
    scope: &TypeScope<'_>,
) -> Result<(), Flawed>
    requires type_in { IsType types.now (scope_in scope.now) ty }
    requires right_in { IsType types.now (scope_in scope.now) right }
    ensures { Says (λ _. shown types.now (scope_in scope.now) ty) result (need is_value NotAType (need (same_type (shown types.now (scope_in scope.now) ty) (shown types.now (scope_in scope.now) right)) LetType (need (atom_fits (shown types.now (scope_in scope.now) ty) atom) UnliftedNotAtom (Ok (shown types.now (scope_in scope.now) ty))))) }
{
    if !is_value {
        return Err(flaw_here(alloc, FaultKind::NotAType));
    }
    if !scope.same(ty, right, types) {
        return Err(flaw_here(alloc, FaultKind::LetType));
    }
    if !scope.atom_fits(ty, atom, types) {
        return Err(flaw_here(alloc, FaultKind::UnliftedNotAtom));
    }
    Ok(())
}

/// The type of a case whose binder is of the type `of` and whose result is of the type `answer`, which is one of values or not: `ScrutineeType`
/// where the binder is not of the type of the scrutinee, and then `NotAType`.
pub fn case_type(
    alloc: Global,
    of: TypeId,
    scrutinee: TypeId,
    is_value: bool,
    answer: TypeId,
    types: &TypeTable,
    scope: &TypeScope<'_>,
) -> Result<TypeId, Flawed>
    requires of_in { IsType types.now (scope_in scope.now) of }
    requires scrutinee_in { IsType types.now (scope_in scope.now) scrutinee }
    requires answer_in { IsType types.now (scope_in scope.now) answer }
    ensures valid { IfOk result (λ id. IsType types.now (scope_in scope.now) id) }
    ensures says { Says (λ id. shown types.now (scope_in scope.now) id) result (need (same_type (shown types.now (scope_in scope.now) of) (shown types.now (scope_in scope.now) scrutinee)) ScrutineeType (need is_value NotAType (Ok (shown types.now (scope_in scope.now) answer)))) }
{
    if !scope.same(of, scrutinee, types) {
        return Err(flaw_here(alloc, FaultKind::ScrutineeType));
    }
    if !is_value {
        return Err(flaw_here(alloc, FaultKind::NotAType));
    }
    Ok(answer)
}

/// The type of a cast of what is of this type, by a coercion that proves this: `RoleWrong` where it is not at R, and then `CastFrom` where it
/// goes from another type. Takes no memory.
pub fn cast_type(
    alloc: Global,
    ends: &Ends,
    from: TypeId,
    types: &TypeTable,
    scope: &TypeScope<'_>,
) -> Result<TypeId, Flawed>
    requires ends_in { IsEnds types.now (scope_in scope.now) ends.now }
    requires from_in { IsType types.now (scope_in scope.now) from }
    ensures valid { IfOk result (λ id. IsType types.now (scope_in scope.now) id) }
    ensures says { Says (λ id. shown types.now (scope_in scope.now) id) result (words.cast (shown types.now (scope_in scope.now) from) (shown_ends types.now (scope_in scope.now) ends.now)) }
{
    if !same_role(ends.role, Role::R) {
        return Err(flaw_here(alloc, FaultKind::RoleWrong));
    }
    if !scope.same(ends.left, from, types) {
        return Err(flaw_here(alloc, FaultKind::CastFrom));
    }
    Ok(ends.right)
}

/// The type of an error at this type: `NotAType` where it is none of values.
pub fn fail_type(
    alloc: Global,
    is_value: bool,
    ty: TypeId,
    types: &TypeTable,
    scope: &TypeScope<'_>,
) -> Result<TypeId, Flawed>
    requires { IsType types.now (scope_in scope.now) ty }
    ensures valid { IfOk result (λ id. IsType types.now (scope_in scope.now) id) }
    ensures says { Says (λ id. shown types.now (scope_in scope.now) id) result (need is_value NotAType (Ok (shown types.now (scope_in scope.now) ty))) }
{
    if !is_value {
        return Err(flaw_here(alloc, FaultKind::NotAType));
    }
    Ok(ty)
}

/// The type of a join of this type, which is one of values or not, whose body is of the other type: `LetType`, and then `NotAType`.
pub fn join_type(
    alloc: Global,
    body: TypeId,
    is_value: bool,
    ty: TypeId,
    types: &TypeTable,
    scope: &TypeScope<'_>,
) -> Result<TypeId, Flawed>
    requires body_in { IsType types.now (scope_in scope.now) body }
    requires type_in { IsType types.now (scope_in scope.now) ty }
    ensures valid { IfOk result (λ id. IsType types.now (scope_in scope.now) id) }
    ensures says { Says (λ id. shown types.now (scope_in scope.now) id) result (need (same_type (shown types.now (scope_in scope.now) body) (shown types.now (scope_in scope.now) ty)) LetType (need is_value NotAType (Ok (shown types.now (scope_in scope.now) ty)))) }
{
    if !scope.same(body, ty, types) {
        return Err(flaw_here(alloc, FaultKind::LetType));
    }
    if !is_value {
        return Err(flaw_here(alloc, FaultKind::NotAType));
    }
    Ok(ty)
}

/// Whether a lambda over this binder takes a body of this type, in the scope behind the binder: `NotAType` where it binds a type variable
/// and the body's type is not of kind `*`.
pub fn body_fits(
    alloc: Global,
    binder: &NBinder,
    body: TypeId,
    types: &TypeTable,
    inner: &TypeScope<'_>,
) -> Result<(), Flawed>
    requires { IsType types.now (scope_in inner.now) body }
    ensures { (ks : List trees.Kind) → scope_in inner.now ≡ kinds_behind (nbinder_of binder.now) ks → Says (λ _. tt {0}) result (need (words.body_fits (modules_in types.now) ks (nbinder_of binder.now) (shown types.now (scope_in inner.now) body)) NotAType (Ok (tt {0}))) }
{
    match binder {
        NBinder::Value(_, _) => Ok(()),
        NBinder::OfType(_, _) => {
            if !inner.has_kind_star(body, types) {
                return Err(flaw_here(alloc, FaultKind::NotAType));
            }
            Ok(())
        }
        NBinder::OfCo(_, _, _, _) => Ok(()),
    }
}
