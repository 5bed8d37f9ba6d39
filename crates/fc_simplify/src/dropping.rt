//! Def-dead as a step of the phase.
ghost use Rattle.std.specs.Prelude.{◌≡◌, IfOk, IsFalse, Ok, List, true};
ghost use Rattle.fc_model.specs.Nameless.{NModule as Form};
ghost use Rattle.fc_model.specs.NamelessView.{nmodules_of};
ghost use Rattle.fc_apply.specs.Steps.{FirstDrops, FirstFits};
ghost use Rattle.fc_simplify.specs.Phase.{Continues};

use crate::steps::dead_step;
use fc_def_dead::{dead_definitions, take_away};
use fc_log::Entry;
use fc_syntax::{Memory, NModule, Seq};
use std::alloc::Global;

/// Takes away all definitions of the first of some modules that nothing needs, with a step in the log, and answers whether there were any. Where there were none nothing has changed.
/// Fails only where memory runs out, or the name of the module is shared too often to be counted; then nothing has changed either.
#[tactic(auto, using(crate::proofs::First::same_rules))]
pub(crate) fn drop_unneeded(
    alloc: Global,
    modules: &mut [NModule],
    log: &mut Seq<Entry>,
) -> Result<bool, Memory>
    requires { FirstFits (nmodules_of modules.old) }
    ensures continues { Continues (nmodules_of modules.old) (nmodules_of modules.new) log.old log.new }
    ensures fits { FirstFits (nmodules_of modules.new) }
    ensures none { IfOk result (λ b. IsFalse b → (after : List Form) → FirstDrops (nmodules_of modules.old) after → ⊥) }
    ensures unchanged { (result ≡ Ok true → ⊥) → modules.new ≡ modules.old }
{
    let Some(module) = modules.first_mut() else {
        return Ok(false);
    };
    let Some(dead) = dead_definitions(alloc, &*module)? else {
        return Ok(false);
    };
    log.push(Entry::Step(dead_step()))?;
    take_away(alloc, module, dead);
    Ok(true)
}
