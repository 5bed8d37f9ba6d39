//! Declarations, each behind the words of those before.
ghost use Rattle.std.specs.Prelude.{◌≡◌, [], ◌++◌, Ok, OnOk, IfOk, flat_map, map};
ghost use Rattle.fc_syntax.specs.declared.ty.Name.{Name};
ghost use Rattle.fc_syntax.specs.Tree.{DAxiom, DData, DDef, DFamily, DNew, DWrap};
ghost use Rattle.fc_syntax.specs.Hints as kept;
ghost use Rattle.fc_syntax.specs.View.{cons_of, decl_of, decls_of, expr_of, kind_of, params_of, plains_of, ty_of};
ghost use Rattle.fc_model.specs.DeclaredWords.{top_by, words_by_space};
ghost use Rattle.fc_model.specs.Declaring.{decl_word};
ghost use Rattle.fc_model.specs.Faulting.{under, within};
ghost use Rattle.fc_model.specs.Nameless.{NDef, NWrap};
ghost use Rattle.fc_model.specs.NamelessView.{ndecl_of, ndecls_of, nexpr_of, nty_of};
ghost use Rattle.fc_model.specs.Resolution.{behind, resolved_decl as decl_resolved, resolved_decls as decls_resolved, resolved_ty as ty_resolved};
ghost use Rattle.fc_model.specs.Says.{Says};

use crate::constructors::constructors_in_params;
use crate::expressions::right_side;
use fc_model::{Declared, Flawed, Spaces, flaw_here, in_declaration, next_part, word_of};
use fc_resolve_parts::{param_names, plain_names, ty_in_params, ty_part};
use fc_scope::Scope;
use fc_syntax::{
    ConDecl, Decl, Expr, FaultKind, Kind, Memory, NDecl, NExpr, NTy, Param, Plain, Seq, Text, Ty,
    copy_params, copy_plains, part,
};
use std::alloc::Global;

/// A data type, whose words come behind those of declarations before.
#[tactic(auto, unfolding(fc_model::specs::DeclaredWords::words_by_space))]
fn data_type(
    alloc: Global,
    top: &Declared,
    earlier: &mut Spaces,
    name: &Text,
    params: &[Param],
    cons: &[ConDecl],
) -> Result<NDecl, Flawed>
    ensures form { Says ndecl_of result (decl_resolved (top_by top.now) (words_by_space earlier.old) (DData name.now (params_of params.now) (cons_of cons.now))) }
    ensures words { IfOk result (λ n. kept.decl_hints (decl_of n) ≡ map kept.param_hint (params_of params.now) ++ flat_map kept.con_hints (cons_of cons.now)) }
    ensures behind { OnOk result (words_by_space earlier.new ≡ behind {V = Name} (DData name.now (params_of params.now) (cons_of cons.now)) (words_by_space earlier.old)) }
{
    if earlier.types.has(name) {
        return Err(flaw_here(alloc, FaultKind::Duplicate));
    }
    let names = param_names(alloc, params)?;
    let cons = constructors_in_params(alloc, top, &names, cons, &mut earlier.terms)?;
    earlier.types.add(alloc, name)?;
    let name = name.copy(alloc)?;
    let params = copy_params(alloc, params)?;
    Ok(NDecl::DataType(name, params, cons))
}

#[tactic(auto, unfolding(fc_model::specs::DeclaredWords::words_by_space))]
fn new_type(
    alloc: Global,
    top: &Declared,
    earlier: &Spaces,
    name: &Text,
    params: &[Param],
    t: &Ty,
    coercion: &Text,
) -> Result<NDecl, Flawed>
    ensures form { Says ndecl_of result (decl_resolved (top_by top.now) (words_by_space earlier.now) (DNew name.now (params_of params.now) (ty_of t.now) coercion.now)) }
    ensures words { IfOk result (λ n. kept.decl_hints (decl_of n) ≡ map kept.param_hint (params_of params.now) ++ kept.ty_hints (ty_of t.now)) }
{
    if earlier.types.has(name) {
        return Err(flaw_here(alloc, FaultKind::Duplicate));
    }
    let names = param_names(alloc, params)?;
    let t = ty_in_params(alloc, top, &names, t, names.len())?;
    if earlier.coercions.has(coercion) {
        return Err(flaw_here(alloc, FaultKind::Duplicate));
    }
    let name = name.copy(alloc)?;
    let params = copy_params(alloc, params)?;
    let coercion = coercion.copy(alloc)?;
    Ok(NDecl::NewType(name, params, t, coercion))
}

#[tactic(auto, unfolding(fc_model::specs::DeclaredWords::words_by_space))]
fn family(
    alloc: Global,
    top: &Declared,
    earlier: &Spaces,
    name: &Text,
    params: &[Plain],
    kind: &Kind,
) -> Result<NDecl, Flawed>
    ensures form { Says ndecl_of result (decl_resolved (top_by top.now) (words_by_space earlier.now) (DFamily name.now (plains_of params.now) (kind_of kind.now))) }
    ensures words { IfOk result (λ n. kept.decl_hints (decl_of n) ≡ map kept.plain_hint (plains_of params.now)) }
{
    if earlier.types.has(name) {
        return Err(flaw_here(alloc, FaultKind::Duplicate));
    }
    let _names = plain_names(alloc, params)?;
    let name = name.copy(alloc)?;
    let params = copy_plains(alloc, params)?;
    let kind = kind.copy(alloc)?;
    Ok(NDecl::Family(name, params, kind))
}

#[tactic(auto, unfolding(fc_model::specs::DeclaredWords::words_by_space))]
fn equation(
    alloc: Global,
    top: &Declared,
    earlier: &Spaces,
    name: &Text,
    params: &[Plain],
    left: &Ty,
    right: &Ty,
) -> Result<NDecl, Flawed>
    ensures form { Says ndecl_of result (decl_resolved (top_by top.now) (words_by_space earlier.now) (DAxiom name.now (plains_of params.now) (ty_of left.now) (ty_of right.now))) }
    ensures words { IfOk result (λ n. kept.decl_hints (decl_of n) ≡ map kept.plain_hint (plains_of params.now) ++ (kept.ty_hints (ty_of left.now) ++ kept.ty_hints (ty_of right.now))) }
{
    if earlier.coercions.has(name) {
        return Err(flaw_here(alloc, FaultKind::Duplicate));
    }
    let names = plain_names(alloc, params)?;
    let left = ty_in_params(alloc, top, &names, left, names.len())?;
    let right = ty_in_params(alloc, top, &names, right, next_part(names.len())?)?;
    let name = name.copy(alloc)?;
    let params = copy_plains(alloc, params)?;
    Ok(NDecl::Axiom(name, params, left, right))
}

/// The type of a definition, which is part 0 and in which nothing is bound.
fn definition_type(alloc: Global, top: &Declared, t: &Ty) -> Result<NTy, Flawed>
    ensures form { Says nty_of result (under 0 (ty_resolved (top_by top.now) [] (ty_of t.now))) }
    ensures words { IfOk result (λ n. kept.ty_hints (ty_of n) ≡ kept.ty_hints (ty_of t.now)) }
{
    let scope = Scope::End;
    ty_part(alloc, top, &scope, t, part::TYPE)
}

/// The type and the right side of a definition or a wrapper, whose word comes behind those of declarations before.
#[tactic(auto, unfolding(fc_model::specs::DeclaredWords::words_by_space))]
fn type_and_right_side(
    alloc: Global,
    top: &Declared,
    earlier: &Spaces,
    name: &Text,
    t: &Ty,
    e: &Expr,
) -> Result<(NTy, NExpr), Flawed>
    ensures definition { Says (λ p. NDef name.now (nty_of p.0) (nexpr_of p.1)) result (decl_resolved (top_by top.now) (words_by_space earlier.now) (DDef name.now (ty_of t.now) (expr_of e.now))) }
    ensures wrapper { Says (λ p. NWrap name.now (nty_of p.0) (nexpr_of p.1)) result (decl_resolved (top_by top.now) (words_by_space earlier.now) (DWrap name.now (ty_of t.now) (expr_of e.now))) }
    ensures words { IfOk result (λ p. kept.ty_hints (ty_of p.0) ++ kept.expr_hints (expr_of p.1) ≡ kept.ty_hints (ty_of t.now) ++ kept.expr_hints (expr_of e.now)) }
{
    if earlier.terms.has(name) {
        return Err(flaw_here(alloc, FaultKind::Duplicate));
    }
    let t = definition_type(alloc, top, t)?;
    let e = right_side(alloc, top, e)?;
    Ok((t, e))
}

/// A declaration behind the words of those before, to which it adds its own.
fn declaration(
    alloc: Global,
    top: &Declared,
    earlier: &mut Spaces,
    decl: &Decl,
) -> Result<NDecl, Flawed>
    ensures form { Says ndecl_of result (decl_resolved (top_by top.now) (words_by_space earlier.old) (decl_of decl.now)) }
    ensures words { IfOk result (λ n. kept.decl_hints (decl_of n) ≡ kept.decl_hints (decl_of decl.now)) }
    ensures behind { OnOk result (words_by_space earlier.new ≡ behind (decl_of decl.now) (words_by_space earlier.old)) }
{
    match decl {
        Decl::DataType(name, params, cons) => {
            data_type(
                alloc,
                top,
                earlier,
                name,
                params.as_slice(),
                cons.as_slice(),
            )
        }
        Decl::NewType(name, params, t, con) => {
            let n = new_type(alloc, top, earlier, name, params.as_slice(), t, con)?;
            earlier.add(alloc, decl)?;
            Ok(n)
        }
        Decl::Family(name, params, kind) => {
            let n = family(alloc, top, earlier, name, params.as_slice(), kind)?;
            earlier.add(alloc, decl)?;
            Ok(n)
        }
        Decl::Axiom(name, params, left, right) => {
            let n = equation(alloc, top, earlier, name, params.as_slice(), left, right)?;
            earlier.add(alloc, decl)?;
            Ok(n)
        }
        Decl::Def(name, t, e) => {
            let (t, e) = type_and_right_side(alloc, top, earlier, name, t, e)?;
            earlier.add(alloc, decl)?;
            Ok(NDecl::Def(name.copy(alloc)?, t, e))
        }
        Decl::Wrap(name, t, e) => {
            let (t, e) = type_and_right_side(alloc, top, earlier, name, t, e)?;
            earlier.add(alloc, decl)?;
            Ok(NDecl::Wrap(name.copy(alloc)?, t, e))
        }
    }
}

/// The same, where its word is told of a fault.
fn declaration_within(
    alloc: Global,
    top: &Declared,
    earlier: &mut Spaces,
    decl: &Decl,
) -> Result<NDecl, Flawed>
    ensures form { Says ndecl_of result (within (decl_word (decl_of decl.now)) (decl_resolved (top_by top.now) (words_by_space earlier.old) (decl_of decl.now))) }
    ensures words { IfOk result (λ n. kept.decl_hints (decl_of n) ≡ kept.decl_hints (decl_of decl.now)) }
    ensures behind { OnOk result (words_by_space earlier.new ≡ behind (decl_of decl.now) (words_by_space earlier.old)) }
{
    match declaration(alloc, top, earlier, decl) {
        Ok(n) => Ok(n),
        Err(flawed) => Err(in_declaration(alloc, flawed, word_of(decl))),
    }
}

/// Declarations behind the words of those before, to which they add their own.
#[tactic(auto, using(fc_resolve_parts::proofs::Building::building_rules, crate::proofs::WordSteps::word_rules, std::proofs::lemmas::Grind::common_steps))]
pub fn resolved_decls(
    alloc: Global,
    top: &Declared,
    earlier: &mut Spaces,
    decls: &[Decl],
) -> Result<Seq<NDecl>, Flawed>
    ensures form { Says ndecls_of result (decls_resolved (top_by top.now) (words_by_space earlier.old) (decls_of decls.now)) }
    ensures words { IfOk result (λ n. kept.decls_hints (decls_of n) ≡ kept.decls_hints (decls_of decls.now)) }
{
    let mut out = Seq::new(alloc);
    for decl in decls {
        let next = declaration_within(alloc, top, earlier, decl)?;
        out.push(next)?;
    }
    Ok(out)
}
