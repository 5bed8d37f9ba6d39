//! The step that is of a module as a whole: all definitions that nothing needs go.
ghost use Rattle.std.specs.Prelude.{◌≡◌, IfOk, IsFalse, IsTrue, List, Ok, true};
ghost use Rattle.fc_model.specs.Nameless.{NModule as Form};
ghost use Rattle.fc_model.specs.NamelessView.{nmodules_of};
ghost use Rattle.fc_apply.specs.Steps.{FirstDrops, is_of_the_module as spec_is_of_the_module};

use fc_def_dead::drop_dead;
use fc_log::{Row, Step};
use fc_syntax::{Memory, NModule, Place};
use std::alloc::Global;

/// Whether a step is the def-dead of a module as a whole: it names no definition, no place and no answer.
pub(crate) fn is_of_the_module(step: &Step) -> bool
    ensures { result ≡ spec_is_of_the_module step.now }
{
    match (&step.def, &step.path, &step.answer, step.row) {
        (None, Place::Nowhere, None, Row::DefDead) => true,
        _ => false,
    }
}

/// Takes away all definitions of the first of some modules that nothing needs, and answers whether there were any. The others stay. Where there were none nothing has changed, and so it
/// is on failure: that is only where memory runs out, or the name of the module is shared too often to be counted.
pub(crate) fn drop_in_first(alloc: Global, modules: &mut [NModule]) -> Result<bool, Memory>
    ensures dropped { IfOk result (λ b. IsTrue b → FirstDrops (nmodules_of modules.old) (nmodules_of modules.new)) }
    ensures none { IfOk result (λ b. IsFalse b → (after : List Form) → FirstDrops (nmodules_of modules.old) after → ⊥) }
    ensures unchanged { (result ≡ Ok true → ⊥) → modules.new ≡ modules.old }
{
    match modules.first_mut() {
        Some(module) => drop_dead(alloc, module),
        None => Ok(false),
    }
}
