//! Steps on a named module.
ghost use Rattle.std.specs.Prelude.{◌≡◌, IfErr, IfOk, IfSome, IsFalse, IsTrue, None, Ok, false, map, true};
ghost use Rattle.fc_syntax.specs.View.{module_of};
ghost use Rattle.fc_lattice.specs.View.{as_interface};
ghost use Rattle.fc_model.specs.Nameless.{NModule as Form};
ghost use Rattle.fc_model.specs.NamelessView.{nmodule_of, nmodules_of};
ghost use Rattle.fc_model.specs.ResolutionRules.{Resolves};
ghost use Rattle.fc_apply.specs.Steps.{is_run};
ghost use Rattle.fc_named_rows.specs.Among.{IsMade, MakesFirst};
ghost use Rattle.fc_named_rows.specs.Rows.{commutes as spec_commutes, shrinks as spec_shrinks};
ghost use Rattle.fc_named_rows.specs.Taking.{Explains, ExplainsStep, IsTaken, IsWritten, TellsNaming, interfaces_of};

use crate::error::NotApplied;
use crate::forms::modules_among;
use crate::rows::{commutes, shrinks};
use fc_apply::apply;
use fc_lattice::{Imports, Interface};
use fc_log::Step;
use fc_naming::{NotNamed, name_back};
use fc_syntax::{Module, NModule};
use std::alloc::Global;

/// The named module in which a nameless one is written.
fn named(alloc: Global, form: &NModule) -> Result<Module, NotApplied>
    ensures resolves { IfOk result (λ m. Resolves (module_of m) (nmodule_of form.now)) }
    ensures error { IfErr result (λ e. TellsNaming e (nmodule_of form.now)) }
{
    match name_back(alloc, form) {
        Ok(m) => Ok(m),
        Err(NotNamed::Unscoped) => Err(NotApplied::Unscoped),
        Err(NotNamed::Memory) => Err(NotApplied::Memory),
    }
}

/// What a step makes of the first of some modules, with names, and none where it is not taken. The others are those that it imports.
fn written_after(
    alloc: Global,
    modules: &mut [NModule],
    step: &Step,
) -> Result<Option<Module>, NotApplied>
    ensures written { IfOk result (λ o. IfSome o (λ after. IsWritten step.now (nmodules_of modules.old) (module_of after))) }
    ensures none { IfOk result (λ o. o ≡ None → IsTrue (is_run step.now.row) → (left : Form) → MakesFirst step.now (nmodules_of modules.old) left → ⊥) }
    ensures error { IfErr result (λ e. ExplainsStep e step.now (nmodules_of modules.old)) }
{
    match apply(alloc, modules, step) {
        Ok(true) => match named(alloc, &modules[0]) {
            Ok(after) => Ok(Some(after)),
            Err(error) => Err(error),
        },
        Ok(false) => Ok(None),
        Err(_) => Err(NotApplied::Memory),
    }
}

/// What a step makes of a module among imports, and none where it is not taken.
fn module_after(
    alloc: Global,
    m: &Module,
    interfaces: &[Interface],
    step: &Step,
) -> Result<Option<Module>, NotApplied>
    ensures taken { IfOk result (λ o. IfSome o (λ after. IsTaken step.now (map as_interface interfaces.now) (module_of m.now) (module_of after))) }
    ensures none { IfOk result (λ o. o ≡ None → IsTrue (is_run step.now.row) → (left : Form) → IsMade step.now (map as_interface interfaces.now) (module_of m.now) left → ⊥) }
    ensures error { IfErr result (λ e. Explains e step.now (map as_interface interfaces.now) (module_of m.now)) }
{
    let mut modules = modules_among(alloc, m, interfaces)?;
    written_after(alloc, modules.as_mut_slice(), step)
}

/// Takes a step on a module among imports, if its row is one of the call. Fails as the calls do.
fn take(
    alloc: Global,
    m: &mut Module,
    imports: &Imports,
    step: &Step,
    is_of_call: bool,
) -> Result<bool, NotApplied>
    ensures taken { IfOk result (λ b. IsTrue b → IsTaken step.now (interfaces_of imports.now) (module_of m.old) (module_of m.new)) }
    ensures refused { IfOk result (λ b. IsFalse b → IsTrue is_of_call → IsTrue (is_run step.now.row) → (left : Form) → IsMade step.now (interfaces_of imports.now) (module_of m.old) left → ⊥) }
    ensures other { IsFalse is_of_call → result ≡ Ok false }
    ensures unchanged { (result ≡ Ok true → ⊥) → m.new ≡ m.old }
    ensures error { IfErr result (λ e. Explains e step.now (interfaces_of imports.now) (module_of m.old)) }
{
    if !is_of_call {
        return Ok(false);
    }
    match module_after(alloc, &*m, imports.interfaces.as_slice(), step) {
        Ok(Some(after)) => {
            *m = after;
            Ok(true)
        }
        Ok(None) => Ok(false),
        Err(error) => Err(error),
    }
}

/// Takes a step of a row that shrinks on a module: at a place of a definition, or def-dead, which takes away all definitions that nothing needs. What the module imports is known as the
/// interfaces tell it: of their right sides those whose mark is true. Answers whether the step was taken. Then the module is what the row makes of it, with names: a binder keeps its
/// word, with a number behind it where the word would hide one that is used in its scope. The step is not taken exactly where its row does not apply at its place, where what it makes is
/// beyond the limits on what is made, where nothing needs to go, where a def-dead names a definition, a place or an answer, where its row is not run yet, and where its row is none that
/// shrinks. Then nothing has changed.
///
/// Fails with `Flaw` where the module, or that of an interface, has no nameless form: the first fault of names of the first such module, and the module itself comes before its imports. A
/// step of another row does not come so far. Fails with `Unscoped` where what the row makes names something that is not in scope. Fails with `Memory` where memory runs out, a name is shared
/// too often to be counted, a type names a variable out of scope, a distance or a number of parts has no 32 bits, or calls would go 2^32 deep. After each of these nothing has changed.
pub fn shrink(
    alloc: Global,
    m: &mut Module,
    imports: &Imports,
    step: &Step,
) -> Result<bool, NotApplied>
    ensures taken { IfOk result (λ b. IsTrue b → IsTaken step.now (interfaces_of imports.now) (module_of m.old) (module_of m.new)) }
    ensures refused { IfOk result (λ b. IsFalse b → IsTrue (spec_shrinks step.now.row) → IsTrue (is_run step.now.row) → (left : Form) → IsMade step.now (interfaces_of imports.now) (module_of m.old) left → ⊥) }
    ensures other { IsFalse (spec_shrinks step.now.row) → result ≡ Ok false }
    ensures unchanged { (result ≡ Ok true → ⊥) → m.new ≡ m.old }
    ensures error { IfErr result (λ e. Explains e step.now (interfaces_of imports.now) (module_of m.old)) }
{
    take(alloc, m, imports, step, shrinks(step.row))
}

/// Takes a step of a row that commutes on a module: app-of-let, case-of-let, let-of-let, cast-of-let or name-field, at a place of a definition. Answers whether the step was taken. It is not
/// exactly where its row does not apply at its place, where what it makes is beyond the limits on what is made, and where its row is none that commutes. Then nothing has changed. All else,
/// and how it fails, is as for `shrink`.
pub fn commute(
    alloc: Global,
    m: &mut Module,
    imports: &Imports,
    step: &Step,
) -> Result<bool, NotApplied>
    ensures taken { IfOk result (λ b. IsTrue b → IsTaken step.now (interfaces_of imports.now) (module_of m.old) (module_of m.new)) }
    ensures refused { IfOk result (λ b. IsFalse b → IsTrue (spec_commutes step.now.row) → (left : Form) → IsMade step.now (interfaces_of imports.now) (module_of m.old) left → ⊥) }
    ensures other { IsFalse (spec_commutes step.now.row) → result ≡ Ok false }
    ensures unchanged { (result ≡ Ok true → ⊥) → m.new ≡ m.old }
    ensures error { IfErr result (λ e. Explains e step.now (interfaces_of imports.now) (module_of m.old)) }
{
    take(alloc, m, imports, step, commutes(step.row))
}
