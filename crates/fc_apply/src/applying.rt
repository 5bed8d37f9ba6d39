//! One step on a module.
ghost use Rattle.std.specs.Prelude.{◌≡◌, ◌<◌, IfErr, IfOk, IfSome, IsFalse, IsTrue, List, None, Ok, length, slice_set, true};
ghost use Rattle.fc_model.specs.Nameless.{NModule as Form};
ghost use Rattle.fc_model.specs.NamelessView.{nmodule_of, nmodules_of};
ghost use Rattle.fc_rows.specs.ResultLimits.{IsWithinLimits};
ghost use Rattle.fc_row_at_place.specs.Rows.{is_built as spec_is_built};
ghost use Rattle.fc_apply.specs.Definitions.{HasDecl, with_decl};
ghost use Rattle.fc_apply.specs.Steps.{FirstFits, Makes, Takes, is_run as spec_is_run};

use crate::aiming::{aimed, placed};
use crate::definitions::{changed_definition, definition_of};
use crate::dropping::{drop_in_first, is_of_the_module};
use fc_log::{Row, Step};
use fc_result_limits::is_within_limits;
use fc_row_at_place::{Asked, Question, is_built};
use fc_syntax::{Memory, NDecl, NModule};
use std::alloc::Global;
use std::mem;

/// Puts a declaration in the place of the one of a number, where the module is then within the limits on what is made, and answers whether it is. Where it is not,
/// and where that cannot be found out, the module is as before.
fn put_within_limits(module: &mut NModule, number: usize, decl: NDecl) -> Result<bool, Memory>
    requires { number < length module.old.decls }
    ensures put { IfOk result (λ b. IsTrue b → (module.new ≡ record module.old { decls = slice_set module.old.decls number decl }) × IsWithinLimits (nmodule_of module.new)) }
    ensures beyond { IfOk result (λ b. IsFalse b → IsWithinLimits (nmodule_of (record module.old { decls = slice_set module.old.decls number decl })) → ⊥) }
    ensures unchanged { (result ≡ Ok true → ⊥) → module.new ≡ module.old }
{
    let old = mem::replace(module.decls.at_mut(number), decl);
    match is_within_limits(module) {
        Ok(true) => Ok(true),
        other => {
            *module.decls.at_mut(number) = old;
            other
        }
    }
}

/// The same in the first of some modules.
fn put_in_first(modules: &mut [NModule], number: usize, decl: NDecl) -> Result<bool, Memory>
    requires { HasDecl number modules.old }
    ensures put { IfOk result (λ b. IsTrue b → (modules.new ≡ with_decl number decl modules.old) × FirstFits (nmodules_of modules.new)) }
    ensures beyond { IfOk result (λ b. IsFalse b → FirstFits (nmodules_of (with_decl number decl modules.old)) → ⊥) }
    ensures unchanged { (result ≡ Ok true → ⊥) → modules.new ≡ modules.old }
{
    put_within_limits(&mut modules[0], number, decl)
}

/// The declaration that a step puts in the place of the one of a number in the first of some modules, whether the module is then within the limits or not. Answers none where
/// the row does not apply, and where it is none of those that are built. Fails as `apply` does.
fn changed(
    alloc: Global,
    modules: &[NModule],
    step: &Step,
) -> Result<Option<(usize, NDecl)>, Memory>
    ensures some { IfOk result (λ o. IfSome o (λ c. HasDecl c.0 modules.now × Makes step.now (nmodules_of modules.now) (nmodules_of (with_decl c.0 c.1 modules.now)))) }
    ensures none { IfOk result (λ o. o ≡ None → IsTrue (spec_is_built step.now.row) → (after : List Form) → Makes step.now (nmodules_of modules.now) after → ⊥) }
{
    if !is_built(step.row) {
        return Ok(None);
    }
    let Some((module, _)) = modules.split_first() else {
        return Ok(None);
    };
    let Some((word, path)) = placed(step) else {
        return Ok(None);
    };
    let Some((place, alternative)) = aimed(step.row, path) else {
        return Ok(None);
    };
    let Some(number) = definition_of(module.decls.as_slice(), word) else {
        return Ok(None);
    };
    let asked = Asked {
        question: Question::Row(step.row, alternative),
        modules,
    };
    match changed_definition(alloc, module.decls.at(number), place, &asked)? {
        Some(decl) => Ok(Some((number, decl))),
        None => Ok(None),
    }
}

/// Takes a step of a row at a place of a definition of the first of some modules. Answers whether it was taken: it is not exactly where the row does not apply at the place, its result
/// is beyond the limits on what is made, or the row is none of those that are built; then nothing has changed. Fails as `apply` does.
fn apply_at_place(alloc: Global, modules: &mut [NModule], step: &Step) -> Result<bool, Memory>
    ensures taken { IfOk result (λ b. IsTrue b → Takes step.now (nmodules_of modules.old) (nmodules_of modules.new)) }
    ensures refused { IfOk result (λ b. IsFalse b → IsTrue (spec_is_built step.now.row) → (after : List Form) → Takes step.now (nmodules_of modules.old) after → ⊥) }
    ensures unchanged { (result ≡ Ok true → ⊥) → modules.new ≡ modules.old }
{
    match changed(alloc, &*modules, step)? {
        Some((number, decl)) => put_in_first(modules, number, decl),
        None => Ok(false),
    }
}

/// Whether steps of a row are run: of those that are built at a place, and of def-dead.
pub fn is_run(row: Row) -> bool
    ensures { result ≡ spec_is_run row }
{
    match row {
        Row::DefDead => true,
        row => is_built(row),
    }
}

/// Takes a step on the first of some modules: of a row at a place of a definition, or def-dead, which takes away all definitions that nothing needs. The other modules are those that
/// it imports, as their interfaces tell them. Answers whether the step was taken. It is not exactly where its row does not apply at the place, where its result is beyond the limits on
/// what is made, where nothing needs to go, where a def-dead names a definition, a place or an answer, and where its row is none of those that are run. Then nothing has changed. Fails
/// where memory runs out, the name of the module is shared too often to be counted, a type names a variable out of scope, a distance or a number of parts has no 32 bits, or calls
/// would go 2^32 deep. Then nothing has changed either.
pub fn apply(alloc: Global, modules: &mut [NModule], step: &Step) -> Result<bool, Memory>
    ensures taken { IfOk result (λ b. IsTrue b → Takes step.now (nmodules_of modules.old) (nmodules_of modules.new)) }
    ensures refused { IfOk result (λ b. IsFalse b → IsTrue (spec_is_run step.now.row) → (after : List Form) → Takes step.now (nmodules_of modules.old) after → ⊥) }
    ensures unchanged { (result ≡ Ok true → ⊥) → modules.new ≡ modules.old }
{
    if is_of_the_module(step) {
        drop_in_first(alloc, modules)
    } else {
        apply_at_place(alloc, modules, step)
    }
}
