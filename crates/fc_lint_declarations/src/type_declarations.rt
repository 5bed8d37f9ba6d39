//! Type declarations: data types, newtypes, families and axioms.
ghost use Rattle.std.specs.Prelude.{◌≡◌, [], Ok, OnOk};
ghost use Rattle.fc_syntax.specs.declared.fault.FaultKind.TheVariants.{NotAType, UnliftedVariable};
ghost use Rattle.fc_syntax.specs.declared.ty.Role.TheVariants.{R};
ghost use Rattle.fc_syntax.specs.View.{kind_of};
ghost use Rattle.fc_model.specs.Declaring.{ndecl_word};
ghost use Rattle.fc_model.specs.Faulting.{and_then, need, within};
ghost use Rattle.fc_model.specs.Kinding as kinds;
ghost use Rattle.fc_model.specs.Linting.{done, roles_judged, type_decl_judged, type_decls_judged, variables_judged};
ghost use Rattle.fc_model.specs.Nameless.{NAxiom, NData, NNew};
ghost use Rattle.fc_model.specs.NamelessView.{ncons_of, ndecl_of, ndecls_of, nparams_of, nplains_of, nty_of};
ghost use Rattle.fc_model.specs.Needs.{need_in, need_in_cons};
ghost use Rattle.fc_model.specs.Says.{Says};
ghost use Rattle.fc_types.specs.ModuleViews.{modules_of};
ghost use Rattle.fc_type_table.specs.TypeTables.{Grows, modules_in};

use crate::constructors::lint_constructors;
use crate::variables::{lint_roles, lint_variables};
use crate::written::kind_of_part;
use fc_lint_context::{param_kinds, plain_kinds};
use fc_model::{Flawed, flaw_here, in_declaration, next_part, word_of};
use fc_roles::{needs_of_constructors, needs_of_type};
use fc_syntax::{FaultKind, Kind, NConDecl, NDecl, NTy, Param, Plain};
use fc_type_scope::TypeScope;
use fc_type_table::{NumberedKinds, TypeTable};
use fc_types::{Declarations, is_family_applied, is_lifted};
use std::alloc::Global;

/// That the fields of a data type are of the kinds of values: `NotAType` where they are not.
fn fields_have_values(alloc: Global, values: bool) -> Result<(), Flawed>
    ensures { Says (λ _. done) result (need values NotAType (Ok done)) }
{
    if values {
        Ok(())
    } else {
        Err(flaw_here(alloc, FaultKind::NotAType))
    }
}

/// The roles of a data type with these constructors.
fn lint_data_roles(
    alloc: Global,
    params: &[Param],
    cons: &[NConDecl],
    declared: &Declarations,
) -> Result<(), Flawed>
    ensures { Says (λ _. done) result (roles_judged (λ p. need_in_cons (modules_of declared.now) p (ncons_of cons.now)) 0 (nparams_of params.now)) }
{
    let needs = needs_of_constructors(alloc, params.len(), cons, declared)?;
    lint_roles(alloc, params, &needs)
}

/// The roles of a newtype of this type.
fn lint_newtype_roles(
    alloc: Global,
    params: &[Param],
    t: &NTy,
    declared: &Declarations,
) -> Result<(), Flawed>
    ensures { Says (λ _. done) result (roles_judged (λ p. need_in (modules_of declared.now) R p (nty_of t.now)) 0 (nparams_of params.now)) }
{
    let needs = needs_of_type(alloc, params.len(), t, declared)?;
    lint_roles(alloc, params, &needs)
}

/// A data type: its parameters, its constructors, then `NotAType` where a field is of no kind of values, and then its roles.
#[tactic(auto, using(crate::proofs::Params::scope_rules, fc_type_table::proofs::Numbers::number_rules), unfolding(fc_type_scope::specs::Scopes::scope_in))]
fn lint_data(
    alloc: Global,
    params: &[Param],
    cons: &[NConDecl],
    declared: &Declarations,
    types: &mut TypeTable,
) -> Result<(), Flawed>
    requires modules { modules_in types.old ≡ modules_of declared.now }
    ensures says { Says (λ _. done) result (type_decl_judged (modules_of declared.now) (NData [] (nparams_of params.now) (ncons_of cons.now))) }
    ensures modules { OnOk result (modules_in types.new ≡ modules_of declared.now) }
    ensures grows { OnOk result (Grows types.old types.new) }
{
    let kinds = param_kinds(alloc, params, types)?;
    let first = lint_variables(alloc, kinds.as_slice())?;
    let group = NumberedKinds::Group(kinds.as_slice(), &NumberedKinds::End);
    let scope = TypeScope { kinds: &group };
    let values = lint_constructors(alloc, cons, declared, types, &scope, first)?;
    fields_have_values(alloc, values)?;
    lint_data_roles(alloc, params, cons, declared)
}

/// A newtype: its parameters, its type, then `NotAType` where this is not of kind `*`, and then its roles.
#[tactic(auto, using(crate::proofs::Params::scope_rules, fc_type_table::proofs::Numbers::number_rules), unfolding(fc_type_scope::specs::Scopes::scope_in))]
fn lint_newtype(
    alloc: Global,
    params: &[Param],
    t: &NTy,
    declared: &Declarations,
    types: &mut TypeTable,
) -> Result<(), Flawed>
    requires modules { modules_in types.old ≡ modules_of declared.now }
    ensures says { Says (λ _. done) result (type_decl_judged (modules_of declared.now) (NNew [] (nparams_of params.now) (nty_of t.now) [])) }
    ensures modules { OnOk result (modules_in types.new ≡ modules_of declared.now) }
    ensures grows { OnOk result (Grows types.old types.new) }
{
    let kinds = param_kinds(alloc, params, types)?;
    let part = lint_variables(alloc, kinds.as_slice())?;
    let group = NumberedKinds::Group(kinds.as_slice(), &NumberedKinds::End);
    let scope = TypeScope { kinds: &group };
    let kind = kind_of_part(alloc, t, declared, types, &scope, part)?;
    if !types.is_star(kind) {
        return Err(flaw_here(alloc, FaultKind::NotAType));
    }
    lint_newtype_roles(alloc, params, t, declared)
}

/// A family: its parameters, and then `UnliftedVariable` where the kind of its result has `#`.
fn lint_family(
    alloc: Global,
    params: &[Plain],
    result_kind: &Kind,
    types: &mut TypeTable,
) -> Result<(), Flawed>
    ensures says { Says (λ _. done) result (and_then (variables_judged 0 (nplains_of params.now)) (λ _. need (kinds.is_lifted (kind_of result_kind.now)) UnliftedVariable (Ok done))) }
    ensures grows { OnOk result (Grows types.old types.new) }
{
    let kinds = plain_kinds(alloc, params, types)?;
    lint_variables(alloc, kinds.as_slice())?;
    if is_lifted(result_kind) {
        Ok(())
    } else {
        Err(flaw_here(alloc, FaultKind::UnliftedVariable))
    }
}

/// An axiom: its parameters, its sides, then `FamilyArity` where the left side is no family that is applied in full, and then
/// `KindsDiffer` where the sides have two kinds.
#[tactic(auto, using(crate::proofs::Params::scope_rules, fc_type_table::proofs::Numbers::number_rules), unfolding(fc_type_scope::specs::Scopes::scope_in))]
fn lint_axiom(
    alloc: Global,
    params: &[Plain],
    left: &NTy,
    right: &NTy,
    declared: &Declarations,
    types: &mut TypeTable,
) -> Result<(), Flawed>
    requires modules { modules_in types.old ≡ modules_of declared.now }
    ensures says { Says (λ _. done) result (type_decl_judged (modules_of declared.now) (NAxiom [] (nplains_of params.now) (nty_of left.now) (nty_of right.now))) }
    ensures modules { OnOk result (modules_in types.new ≡ modules_of declared.now) }
    ensures grows { OnOk result (Grows types.old types.new) }
{
    let kinds = plain_kinds(alloc, params, types)?;
    let part = lint_variables(alloc, kinds.as_slice())?;
    let group = NumberedKinds::Group(kinds.as_slice(), &NumberedKinds::End);
    let scope = TypeScope { kinds: &group };
    let from = kind_of_part(alloc, left, declared, types, &scope, part)?;
    let behind = next_part(part)?;
    let to = kind_of_part(alloc, right, declared, types, &scope, behind)?;
    if !is_family_applied(left, declared) {
        return Err(flaw_here(alloc, FaultKind::FamilyArity));
    }
    if types.same_kind(from, to) {
        Ok(())
    } else {
        Err(flaw_here(alloc, FaultKind::KindsDiffer))
    }
}

/// A type declaration.
#[tactic(auto, using(fc_syntax::proofs::View::view_rules))]
fn lint_type(
    alloc: Global,
    decl: &NDecl,
    declared: &Declarations,
    types: &mut TypeTable,
) -> Result<(), Flawed>
    requires modules { modules_in types.old ≡ modules_of declared.now }
    ensures says { Says (λ _. done) result (type_decl_judged (modules_of declared.now) (ndecl_of decl.now)) }
    ensures modules { OnOk result (modules_in types.new ≡ modules_of declared.now) }
    ensures grows { OnOk result (Grows types.old types.new) }
{
    match decl {
        NDecl::DataType(_, params, cons) => {
            lint_data(alloc, params.as_slice(), cons.as_slice(), declared, types)
        }
        NDecl::NewType(_, params, t, _) => lint_newtype(
            alloc,
            params.as_slice(),
            t,
            declared,
            types,
        ),
        NDecl::Family(_, params, kind) => lint_family(alloc, params.as_slice(), kind, types),
        NDecl::Axiom(_, params, left, right) => {
            lint_axiom(alloc, params.as_slice(), left, right, declared, types)
        }
        NDecl::Def(_, _, _) => Ok(()),
        NDecl::Wrap(_, _, _) => Ok(()),
    }
}

/// The same, with the word of the declaration in a flaw.
#[tactic(auto, using(fc_model::proofs::Declares::bare_decl_word))]
fn lint_type_within(
    alloc: Global,
    decl: &NDecl,
    declared: &Declarations,
    types: &mut TypeTable,
) -> Result<(), Flawed>
    requires modules { modules_in types.old ≡ modules_of declared.now }
    ensures says { Says (λ _. done) result (within (ndecl_word (ndecl_of decl.now)) (type_decl_judged (modules_of declared.now) (ndecl_of decl.now))) }
    ensures modules { OnOk result (modules_in types.new ≡ modules_of declared.now) }
    ensures grows { OnOk result (Grows types.old types.new) }
{
    match lint_type(alloc, decl, declared, types) {
        Ok(()) => Ok(()),
        Err(flawed) => Err(in_declaration(alloc, flawed, word_of(decl))),
    }
}

/// The type declarations of a module, in their order: the faults of kinds in a type, `UnliftedVariable`, `KindsDiffer`, `NotAType`,
/// `RoleTooWeak` and `FamilyArity`, each declaration's parts from left to right before its own premises.
pub fn lint_types(
    alloc: Global,
    decls: &[NDecl],
    declared: &Declarations,
    types: &mut TypeTable,
) -> Result<(), Flawed>
    requires modules { modules_in types.old ≡ modules_of declared.now }
    ensures says { Says (λ _. done) result (type_decls_judged (modules_of declared.now) (ndecls_of decls.now)) }
    ensures modules { OnOk result (modules_in types.new ≡ modules_of declared.now) }
    ensures grows { OnOk result (Grows types.old types.new) }
{
    for decl in decls {
        lint_type_within(alloc, decl, declared, types)?;
    }
    Ok(())
}
