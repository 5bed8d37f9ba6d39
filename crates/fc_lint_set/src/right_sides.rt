//! The right sides of definitions.
ghost use Rattle.std.specs.Prelude.{◌≡◌, OnOk};
ghost use Rattle.fc_model.specs.Declaring.{ndecl_word};
ghost use Rattle.fc_model.specs.Faulting.{within};
ghost use Rattle.fc_model.specs.Linting.{done, right_judged, right_side_judged, rights_judged};
ghost use Rattle.fc_model.specs.NamelessView.{ndecl_of, ndecls_of, nexpr_of, nty_of};
ghost use Rattle.fc_model.specs.Says.{Says};
ghost use Rattle.fc_type_table.specs.TypeTables.{modules_in, nodes_of};
ghost use Rattle.fc_lint_context.specs.DeclaredViews.{AreRead, modules_read};

use fc_lint_context::DeclaredTypes;
use fc_lint_expr::has_type;
use fc_model::{Flawed, deeper, flaw_here, in_declaration, word_of};
use fc_syntax::{FaultKind, NDecl, NExpr, NTy};
use fc_type_table::TypeTable;
use std::alloc::Global;

/// The right side of a definition of this type.
#[tactic(auto, using(crate::proofs::RightSides::right_rules))]
fn lint_right_side(
    alloc: Global,
    t: &NTy,
    e: &NExpr,
    types: &mut TypeTable,
    declared: &DeclaredTypes,
) -> Result<(), Flawed>
    requires read { AreRead (nodes_of types.old) declared.now }
    requires modules { modules_in types.old ≡ modules_read declared.now }
    ensures says { Says (λ _. done) result (right_side_judged (modules_read declared.now) (nty_of t.now) (nexpr_of e.now)) }
    ensures read { OnOk result (AreRead (nodes_of types.new) declared.now) }
    ensures modules { OnOk result (modules_in types.new ≡ modules_read declared.now) }
{
    match has_type(alloc, e, t, types, declared) {
        Ok(true) => Ok(()),
        Ok(false) => Err(flaw_here(alloc, FaultKind::DefType)),
        Err(flawed) => Err(deeper(flawed, 1)),
    }
}

/// The right side of a declaration that has one.
fn lint_right(
    alloc: Global,
    decl: &NDecl,
    types: &mut TypeTable,
    declared: &DeclaredTypes,
) -> Result<(), Flawed>
    requires read { AreRead (nodes_of types.old) declared.now }
    requires modules { modules_in types.old ≡ modules_read declared.now }
    ensures says { Says (λ _. done) result (right_judged (modules_read declared.now) (ndecl_of decl.now)) }
    ensures read { OnOk result (AreRead (nodes_of types.new) declared.now) }
    ensures modules { OnOk result (modules_in types.new ≡ modules_read declared.now) }
{
    match decl {
        NDecl::Def(_, t, e) => lint_right_side(alloc, t, e, types, declared),
        NDecl::DataType(_, _, _) => Ok(()),
        NDecl::NewType(_, _, _, _) => Ok(()),
        NDecl::Family(_, _, _) => Ok(()),
        NDecl::Axiom(_, _, _, _) => Ok(()),
        NDecl::Wrap(_, t, e) => lint_right_side(alloc, t, e, types, declared),
    }
}

/// The same, with the word of the declaration in a flaw.
#[tactic(auto, using(fc_model::proofs::Declares::bare_decl_word))]
fn lint_right_within(
    alloc: Global,
    decl: &NDecl,
    types: &mut TypeTable,
    declared: &DeclaredTypes,
) -> Result<(), Flawed>
    requires read { AreRead (nodes_of types.old) declared.now }
    requires modules { modules_in types.old ≡ modules_read declared.now }
    ensures says { Says (λ _. done) result (within (ndecl_word (ndecl_of decl.now)) (right_judged (modules_read declared.now) (ndecl_of decl.now))) }
    ensures read { OnOk result (AreRead (nodes_of types.new) declared.now) }
    ensures modules { OnOk result (modules_in types.new ≡ modules_read declared.now) }
{
    match lint_right(alloc, decl, types, declared) {
        Ok(()) => Ok(()),
        Err(flawed) => Err(in_declaration(alloc, flawed, word_of(decl))),
    }
}

/// The right sides of the definitions of a module, in their order: the faults of `lint` there, and `DefType`.
pub fn lint_rights(
    alloc: Global,
    decls: &[NDecl],
    types: &mut TypeTable,
    declared: &DeclaredTypes,
) -> Result<(), Flawed>
    requires read { AreRead (nodes_of types.old) declared.now }
    requires modules { modules_in types.old ≡ modules_read declared.now }
    ensures says { Says (λ _. done) result (rights_judged (modules_read declared.now) (ndecls_of decls.now)) }
    ensures read { OnOk result (AreRead (nodes_of types.new) declared.now) }
    ensures modules { OnOk result (modules_in types.new ≡ modules_read declared.now) }
{
    for decl in decls {
        lint_right_within(alloc, decl, types, declared)?;
    }
    Ok(())
}
