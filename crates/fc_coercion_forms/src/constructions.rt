//! Declared types at what coercions relate.
ghost use Rattle.std.specs.Prelude.{◌≡◌, length, nat_le, Ok, IfOk, OnOk};
ghost use Rattle.fc_model.specs.Coercing as words;
ghost use Rattle.fc_model.specs.Faulting.{need};
ghost use Rattle.fc_model.specs.Kinding.{name_kind};
ghost use Rattle.fc_model.specs.NamelessView.{nplains_of};
ghost use Rattle.fc_model.specs.Nameless.{NTCon};
ghost use Rattle.fc_model.specs.Says.{Says};
ghost use Rattle.fc_coercion_forms.specs.Kinded.{takes_or_fault};
ghost use Rattle.fc_syntax.specs.Tree.{KStar};
ghost use Rattle.fc_syntax.specs.declared.fault.FaultKind.TheVariants.{FamilyArity};
ghost use Rattle.fc_types.specs.ModuleViews.{modules_of};
ghost use Rattle.fc_type_scope.specs.EndViews.{AreEndsAt, IsEnds, shown_all_ends_at, shown_ends};
ghost use Rattle.fc_type_scope.specs.Refusals.{OnFlaw};
ghost use Rattle.fc_type_scope.specs.Scopes.{scope_in};
ghost use Rattle.fc_type_table.specs.TypeTables.{Grows, IsType, modules_in, nodes_of, shown};

use crate::forms::{applied_once, kinded};
use crate::roles::are_at_roles;
use fc_model::{Flawed, flaw_here};
use fc_roles::params_of_name;
use fc_syntax::{FaultKind, Memory, NDecl, Name, Plain, Role};
use fc_type_scope::{Ends, TypeScope};
use fc_type_table::{TypeId, TypeTable};
use fc_types::Declarations;
use std::alloc::Global;

/// A type applied to the left ends of coercions, and to their right ends.
fn applied_to(
    role: Role,
    head: TypeId,
    group: &[Ends],
    types: &mut TypeTable,
    scope: &TypeScope<'_>,
) -> Result<Ends, Memory>
    requires head_in { IsType types.old (scope_in scope.now) head }
    requires group_in { AreEndsAt (nodes_of types.old) (scope_in scope.now) group.now }
    ensures valid { IfOk result (λ e. IsEnds types.new (scope_in scope.now) e) }
    ensures view { IfOk result (λ e. shown_ends types.new (scope_in scope.now) e ≡ words.ends role (words.applied_to (shown types.old (scope_in scope.now) head) (words.lefts (shown_all_ends_at (nodes_of types.old) (scope_in scope.now) group.now))) (words.applied_to (shown types.old (scope_in scope.now) head) (words.rights (shown_all_ends_at (nodes_of types.old) (scope_in scope.now) group.now)))) }
    ensures grows { OnOk result (Grows types.old types.new) }
{
    let mut so_far = Ends {
        role,
        left: head,
        right: head,
    };
    for ends in group {
        so_far = applied_once(so_far, *ends, types, scope)?;
    }
    Ok(so_far)
}

/// A declared type at what coercions relate, whatever the kinds.
#[tactic(auto, using(fc_type_scope::proofs::Proven::table_rules))]
fn named(
    role: Role,
    name: &Name,
    group: &[Ends],
    types: &mut TypeTable,
    scope: &TypeScope<'_>,
) -> Result<Ends, Memory>
    requires { AreEndsAt (nodes_of types.old) (scope_in scope.now) group.now }
    ensures valid { IfOk result (λ e. IsEnds types.new (scope_in scope.now) e) }
    ensures view { IfOk result (λ e. shown_ends types.new (scope_in scope.now) e ≡ words.ends role (words.applied_to (NTCon name.now) (words.lefts (shown_all_ends_at (nodes_of types.old) (scope_in scope.now) group.now))) (words.applied_to (NTCon name.now) (words.rights (shown_all_ends_at (nodes_of types.old) (scope_in scope.now) group.now)))) }
    ensures grows { OnOk result (Grows types.old types.new) }
{
    let head = scope.constructor(name.module.as_ref(), &name.text, types)?;
    applied_to(role, head, group, types, scope)
}

/// Whether a family takes so many arguments: `FamilyArity` where they are fewer than its parameters.
fn family_takes(alloc: Global, params: &[Plain], count: usize) -> Result<(), Flawed>
    ensures { Says (λ _. KStar) result (need (nat_le (length (nplains_of params.now)) count) FamilyArity (Ok KStar)) }
{
    if params.len() > count {
        return Err(flaw_here(alloc, FaultKind::FamilyArity));
    }
    Ok(())
}

/// Whether a name takes this many arguments: `Unbound` where no type is declared by it, and `FamilyArity`. Its kind is not made.
#[tactic(auto, using(fc_syntax::proofs::View::view_rules))]
fn takes(alloc: Global, name: &Name, count: usize, declared: &Declarations) -> Result<(), Flawed>
    ensures { Says (λ _. KStar) result (takes_or_fault (name_kind (modules_of declared.now) name.now count)) }
{
    match declared.type_named(name) {
        None => Err(flaw_here(alloc, FaultKind::Unbound)),
        Some(decl) => match decl {
            NDecl::DataType(_, _, _) => Ok(()),
            NDecl::NewType(_, _, _, _) => Ok(()),
            NDecl::Family(_, params, _) => family_takes(alloc, params.as_slice(), count),
            NDecl::Axiom(_, _, _, _) => Err(flaw_here(alloc, FaultKind::Unbound)),
            NDecl::Def(_, _, _) => Err(flaw_here(alloc, FaultKind::Unbound)),
            NDecl::Wrap(_, _, _) => Err(flaw_here(alloc, FaultKind::Unbound)),
        },
    }
}

/// A declared type at what coercions relate: `RoleWrong` where one is not at the role of its parameter, then the fault of a name that takes
/// more arguments, and `KindMismatch` where one of the types has no kind.
#[tactic(auto, using(fc_type_scope::proofs::Proven::table_rules))]
pub fn constructed(
    alloc: Global,
    role: Role,
    name: &Name,
    group: &[Ends],
    types: &mut TypeTable,
    declared: &Declarations,
    scope: &TypeScope<'_>,
) -> Result<Ends, Flawed>
    requires group_in { AreEndsAt (nodes_of types.old) (scope_in scope.now) group.now }
    requires modules { modules_in types.old ≡ modules_of declared.now }
    ensures valid { IfOk result (λ e. IsEnds types.new (scope_in scope.now) e) }
    ensures says { Says (λ e. shown_ends types.new (scope_in scope.now) e) result (words.constructed_ends (modules_of declared.now) (scope_in scope.now) role name.now (shown_all_ends_at (nodes_of types.old) (scope_in scope.now) group.now)) }
    ensures grows { OnOk result (Grows types.old types.new) }
    ensures refused { OnFlaw result (Grows types.old types.new) }
{
    if !are_at_roles(role, params_of_name(declared, name), group) {
        return Err(flaw_here(alloc, FaultKind::RoleWrong));
    }
    takes(alloc, name, group.len(), declared)?;
    let ends = named(role, name, group, types, scope)?;
    kinded(alloc, ends, types, scope)
}
