//! The types of definitions.
ghost use Rattle.std.specs.Prelude.{◌≡◌, [], OnOk};
ghost use Rattle.fc_model.specs.Declaring.{ndecl_word};
ghost use Rattle.fc_model.specs.Faulting.{and_then, under, within};
ghost use Rattle.fc_model.specs.Kinding.{kind_or_fault};
ghost use Rattle.fc_model.specs.Linting as words;
ghost use Rattle.fc_model.specs.Linting.{def_type_judged, def_types_judged, done};
ghost use Rattle.fc_model.specs.NamelessView.{ndecl_of, ndecls_of, nty_of};
ghost use Rattle.fc_model.specs.Says.{Says};
ghost use Rattle.fc_type_table.specs.TypeTables.{Grows, IsKindId, kind_shown, modules_in};
ghost use Rattle.fc_types.specs.ModuleViews.{modules_of};

use crate::written::kind_of_part;
use fc_model::{Flawed, flaw_here, in_declaration, word_of};
use fc_syntax::{FaultKind, NDecl, NTy};
use fc_type_scope::TypeScope;
use fc_type_table::{NumberedKinds, TypeId, TypeTable};
use fc_types::Declarations;
use std::alloc::Global;

/// The kind of the type of a definition: `UnliftedTop` at `#`, and `NotAType` at a kind with an arrow.
fn definition_kind(alloc: Global, kind: TypeId, types: &TypeTable) -> Result<(), Flawed>
    requires { IsKindId types.now kind }
    ensures { Says (λ _. done) result (words.definition_kind (kind_shown types.now kind)) }
{
    if types.is_star(kind) {
        Ok(())
    } else if types.is_value_kind(kind) {
        Err(flaw_here(alloc, FaultKind::UnliftedTop))
    } else {
        Err(flaw_here(alloc, FaultKind::NotAType))
    }
}

/// The type that a definition or a wrap is written with, which is its part 0.
#[tactic(auto, unfolding(fc_type_scope::specs::Scopes::scope_in))]
fn lint_type_of(
    alloc: Global,
    t: &NTy,
    declared: &Declarations,
    types: &mut TypeTable,
) -> Result<(), Flawed>
    requires modules { modules_in types.old ≡ modules_of declared.now }
    ensures says { Says (λ _. done) result (and_then (under 0 (kind_or_fault (modules_of declared.now) [] (nty_of t.now))) (λ k. words.definition_kind k)) }
    ensures modules { OnOk result (modules_in types.new ≡ modules_of declared.now) }
    ensures grows { OnOk result (Grows types.old types.new) }
{
    let scope = TypeScope {
        kinds: &NumberedKinds::End,
    };
    let kind = kind_of_part(alloc, t, declared, types, &scope, 0)?;
    definition_kind(alloc, kind, types)
}

/// The type of a declaration that has one.
fn lint_definition_type(
    alloc: Global,
    decl: &NDecl,
    declared: &Declarations,
    types: &mut TypeTable,
) -> Result<(), Flawed>
    requires modules { modules_in types.old ≡ modules_of declared.now }
    ensures says { Says (λ _. done) result (def_type_judged (modules_of declared.now) (ndecl_of decl.now)) }
    ensures modules { OnOk result (modules_in types.new ≡ modules_of declared.now) }
    ensures grows { OnOk result (Grows types.old types.new) }
{
    match decl {
        NDecl::Def(_, t, _) => lint_type_of(alloc, t, declared, types),
        NDecl::DataType(_, _, _) => Ok(()),
        NDecl::NewType(_, _, _, _) => Ok(()),
        NDecl::Family(_, _, _) => Ok(()),
        NDecl::Axiom(_, _, _, _) => Ok(()),
        NDecl::Wrap(_, t, _) => lint_type_of(alloc, t, declared, types),
    }
}

/// The same, with the word of the declaration in a flaw.
#[tactic(auto, using(fc_model::proofs::Declares::bare_decl_word))]
fn lint_definition_type_within(
    alloc: Global,
    decl: &NDecl,
    declared: &Declarations,
    types: &mut TypeTable,
) -> Result<(), Flawed>
    requires modules { modules_in types.old ≡ modules_of declared.now }
    ensures says { Says (λ _. done) result (within (ndecl_word (ndecl_of decl.now)) (def_type_judged (modules_of declared.now) (ndecl_of decl.now))) }
    ensures modules { OnOk result (modules_in types.new ≡ modules_of declared.now) }
    ensures grows { OnOk result (Grows types.old types.new) }
{
    match lint_definition_type(alloc, decl, declared, types) {
        Ok(()) => Ok(()),
        Err(flawed) => Err(in_declaration(alloc, flawed, word_of(decl))),
    }
}

/// The types of the definitions of a module, in their order: `Unbound` in one, `UnliftedTop` and `NotAType`.
pub fn lint_definition_types(
    alloc: Global,
    decls: &[NDecl],
    declared: &Declarations,
    types: &mut TypeTable,
) -> Result<(), Flawed>
    requires modules { modules_in types.old ≡ modules_of declared.now }
    ensures says { Says (λ _. done) result (def_types_judged (modules_of declared.now) (ndecls_of decls.now)) }
    ensures modules { OnOk result (modules_in types.new ≡ modules_of declared.now) }
    ensures grows { OnOk result (Grows types.old types.new) }
{
    for decl in decls {
        lint_definition_type_within(alloc, decl, declared, types)?;
    }
    Ok(())
}
