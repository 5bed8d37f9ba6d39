//! The names of declarations.
ghost use Rattle.std.specs.Prelude.{◌≡◌, Some, Ok, IfOk};
ghost use Rattle.fc_model.specs.DeclaredWords.{top_by};
ghost use Rattle.fc_model.specs.Resolution.{WordSet, declared_name};
ghost use Rattle.fc_model.specs.Says.{Says};
ghost use Rattle.fc_syntax.specs.Tree as trees;

use fc_model::{Declared, Flawed, flaw_here};
use fc_syntax::{FaultKind, Memory, Name, Text};
use std::alloc::Global;

/// A word of the module of this word.
fn name_in(alloc: Global, owner: &Text, text: &Text) -> Result<Name, Memory>
    ensures { IfOk result (λ n. n ≡ record { «module» = Some owner.now; text = text.now }) }
{
    let owner = owner.copy(alloc)?;
    let text = text.copy(alloc)?;
    Ok(Name {
        module: Some(owner),
        text,
    })
}

/// The name of what a declaration declares, with its module, by whether its word is declared here in its space, and whether the module
/// that it says has it for others.
fn declared(
    alloc: Global,
    top: &Declared,
    is_here: bool,
    is_offered: bool,
    name: &Name,
) -> Result<Name, Flawed>
    ensures { (words : WordSet) (offered : trees.Word → WordSet) → is_here ≡ words name.now.text → ((m : trees.Word) → name.now.module ≡ Some m → is_offered ≡ offered m name.now.text) → Says (λ n. n) result (declared_name (top_by top.now) words offered name.now.module name.now.text) }
{
    match &name.module {
        None => {
            if !is_here {
                return Err(flaw_here(alloc, FaultKind::Unbound));
            }
            Ok(name_in(alloc, &top.own, &name.text)?)
        }
        Some(module) => {
            if !top.imports.has(module) {
                return Err(flaw_here(alloc, FaultKind::Unbound));
            }
            if !is_offered {
                return Err(flaw_here(alloc, FaultKind::NotExported));
            }
            Ok(name_in(alloc, module, &name.text)?)
        }
    }
}

/// The name of a declared type, with its module. `Unbound` is a word without a module that is not declared here, and a module that is not
/// imported; then `NotExported` one that its module does not have for others.
pub fn declared_type(alloc: Global, top: &Declared, name: &Name) -> Result<Name, Flawed>
    ensures { Says (λ n. n) result (declared_name (top_by top.now) (top_by top.now).types (top_by top.now).offers.types name.now.module name.now.text) }
{
    let is_here = top.spaces.types.has(&name.text);
    let is_offered = top.offers.has_type(name);
    declared(alloc, top, is_here, is_offered, name)
}

/// The same of a definition or a constructor.
pub fn declared_term(alloc: Global, top: &Declared, name: &Name) -> Result<Name, Flawed>
    ensures { Says (λ n. n) result (declared_name (top_by top.now) (top_by top.now).terms (top_by top.now).offers.terms name.now.module name.now.text) }
{
    let is_here = top.spaces.terms.has(&name.text);
    let is_offered = top.offers.has_term(name);
    declared(alloc, top, is_here, is_offered, name)
}

/// The same of an axiom.
pub fn declared_axiom(alloc: Global, top: &Declared, name: &Name) -> Result<Name, Flawed>
    ensures { Says (λ n. n) result (declared_name (top_by top.now) (top_by top.now).coercions (top_by top.now).offers.coercions name.now.module name.now.text) }
{
    let is_here = top.spaces.coercions.has(&name.text);
    let is_offered = top.offers.has_coercion(name);
    declared(alloc, top, is_here, is_offered, name)
}
