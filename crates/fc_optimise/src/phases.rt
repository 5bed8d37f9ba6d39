//! The phases of a build, one after the other.
ghost use Rattle.std.specs.Prelude.{IfOk, IsTrue, OnOk};
ghost use Rattle.fc_model.specs.NamelessView.{nmodules_of};
ghost use Rattle.fc_apply.specs.Steps.{FirstFits};
ghost use Rattle.fc_simplify.specs.Phase.{Continues, FirstIsQuiet};
ghost use Rattle.fc_optimise.specs.Optimised.{FirstIsMadeBy, FirstIsOptimised};
ghost use Rattle.fc_optimise.specs.Phases.{RunsPhase};

use fc_log::{Entry, Phase};
use fc_simplify::simplify;
use fc_syntax::{Memory, NModule, Seq};
use std::alloc::Global;

/// The phases of a build, in their order.
const PHASES: [Phase; 9] = [
    Phase::Simplify,
    Phase::Special,
    Phase::Simplify,
    Phase::FloatOut,
    Phase::Simplify,
    Phase::FloatIn,
    Phase::Strict,
    Phase::Split,
    Phase::Simplify,
];

/// Simplifies the first of some modules, unless it is told that no row of the phase applies.
#[tactic(auto, using(fc_simplify::proofs::Logs::continues_same))]
fn simplify_unless_quiet(
    alloc: Global,
    quiet: bool,
    modules: &mut [NModule],
    log: &mut Seq<Entry>,
) -> Result<(), Memory>
    requires fits { FirstFits (nmodules_of modules.old) }
    requires quiet { IsTrue quiet → FirstIsQuiet (nmodules_of modules.old) }
    ensures continues { OnOk result (Continues (nmodules_of modules.old) (nmodules_of modules.new) log.old log.new) }
    ensures fits { OnOk result (FirstFits (nmodules_of modules.new)) }
    ensures quiet { OnOk result (FirstIsQuiet (nmodules_of modules.new)) }
{
    if quiet {
        Ok(())
    } else {
        simplify(alloc, modules, log)
    }
}

/// Runs a phase on the first of some modules, and marks its end in the log. Answers whether it is known that no row of the simplify phase applies there, which is told before of the module
/// as it was. Only simplifying has rows yet.
fn run_phase(
    alloc: Global,
    phase: Phase,
    quiet: bool,
    modules: &mut [NModule],
    log: &mut Seq<Entry>,
) -> Result<bool, Memory>
    requires fits { FirstFits (nmodules_of modules.old) }
    requires quiet { IsTrue quiet → FirstIsQuiet (nmodules_of modules.old) }
    ensures runs { OnOk result (RunsPhase phase (nmodules_of modules.old) (nmodules_of modules.new) log.old log.new) }
    ensures fits { OnOk result (FirstFits (nmodules_of modules.new)) }
    ensures quiet { IfOk result (λ b. IsTrue b → FirstIsQuiet (nmodules_of modules.new)) }
{
    match phase {
        Phase::Simplify => {
            simplify_unless_quiet(alloc, quiet, modules, log)?;
            log.push(Entry::Mark(Phase::Simplify))?;
            Ok(true)
        }
        Phase::Special | Phase::FloatOut | Phase::FloatIn | Phase::Strict | Phase::Split => {
            log.push(Entry::Mark(phase))?;
            Ok(quiet)
        }
    }
}

/// Runs phases on the first of some modules, one after the other, and answers what was done.
fn run_phases(
    alloc: Global,
    phases: &[Phase],
    modules: &mut [NModule],
) -> Result<Seq<Entry>, Memory>
    requires { FirstFits (nmodules_of modules.old) }
    ensures { IfOk result (λ es. FirstIsMadeBy phases.now es (nmodules_of modules.old) (nmodules_of modules.new)) }
{
    let mut log = Seq::new(alloc);
    let mut quiet = false;
    for phase in phases {
        quiet = run_phase(alloc, *phase, quiet, modules, &mut log)?;
    }
    Ok(log)
}

/// Takes the first of some modules through the phases of a build, and answers what was done to it; the others are those that its imports reach, as their interfaces tell them. Each step
/// is of a shrinking or a commuting row, and where a simplify phase ends none of these rows applies any more. The other phases have no rows yet. The module must be
/// within the limits on results, as every module is that was read, and what is made of it is. Fails only where memory runs out, a type names a variable out of scope, a number has no 32 bits, or after
/// 2^64 rounds; what the first module is then is not told.
pub fn optimise(alloc: Global, modules: &mut [NModule]) -> Result<Seq<Entry>, Memory>
    requires { FirstFits (nmodules_of modules.old) }
    ensures { IfOk result (λ es. FirstIsOptimised es (nmodules_of modules.old) (nmodules_of modules.new)) }
{
    run_phases(alloc, PHASES.as_slice(), modules)
}
