//! The phase, round by round.
ghost use Rattle.std.specs.Prelude.{◌≡◌, IfOk, OnOk};
ghost use Rattle.fc_model.specs.NamelessView.{nmodules_of};
ghost use Rattle.fc_outlines.specs.Outlines.{outlined_all};
ghost use Rattle.fc_types.specs.ModuleViews.{modules_of};
ghost use Rattle.fc_model.specs.Kinding.{decls_at};
ghost use Rattle.fc_definition_places.specs.Places.{HasPlaces};
ghost use Rattle.fc_apply.specs.Steps.{FirstFits};
ghost use Rattle.fc_simplify.specs.Phase.{AllSettled, Continues, FirstHasSpare, FirstIsQuiet, FirstsAre};

use crate::dropping::drop_unneeded;
use crate::settling::settle_rounds;
use fc_definition_places::DefinitionPlaces;
use fc_lint_context::DeclaredTypes;
use fc_log::Entry;
use fc_nameless_measures::measures_of_module;
use fc_outlines::outlines;
use fc_reaching::first_definitions;
use fc_row_at_place::Headers;
use fc_syntax::{Limits, Memory, NModule, Seq};
use fc_type_table::TypeTable;
use fc_types::Declarations;
use std::alloc::Global;

/// By how many pieces the first of some modules may grow. Fails only where a number has no 32 bits.
fn spare_of(modules: &[NModule]) -> Result<u32, Memory>
    requires { FirstFits (nmodules_of modules.now) }
    ensures { IfOk result (λ n. FirstHasSpare n (nmodules_of modules.now)) }
{
    match modules.first() {
        Some(module) => {
            let measures = measures_of_module(module)?;
            let limits = Limits::standard();
            Ok(limits.result_size - measures.size)
        }
        None => Ok(0),
    }
}

/// For each declaration of the first of some modules, whether it is the first definition of its word.
fn firsts_of(alloc: Global, modules: &[NModule]) -> Result<Vec<bool>, Memory>
    ensures { IfOk result (λ marks. FirstsAre marks.items (nmodules_of modules.now)) }
{
    match modules.first() {
        Some(module) => first_definitions(alloc, module),
        None => Ok(Vec::new(alloc)),
    }
}

/// Takes steps in the definitions of the first of some modules until none applies in any of them, where the outlines of the modules declare this, and these are the places of their
/// definitions: what is kept of them serves for all these steps, since they leave what is declared as it is, but for right sides.
#[tactic(auto, using(crate::proofs::First::same_rules))]
fn settle_among(
    alloc: Global,
    modules: &mut [NModule],
    declared: &Declarations<'_>,
    places: &DefinitionPlaces<'_>,
    log: &mut Seq<Entry>,
) -> Result<(), Memory>
    requires fits { FirstFits (nmodules_of modules.old) }
    requires declared { modules_of declared.now ≡ decls_at (outlined_all (nmodules_of modules.old)) }
    requires places { HasPlaces (outlined_all (nmodules_of modules.old)) places.now }
    ensures continues { Continues (nmodules_of modules.old) (nmodules_of modules.new) log.old log.new }
    ensures settled { OnOk result (AllSettled (nmodules_of modules.new)) }
{
    let spare = spare_of(&*modules)?;
    let firsts = firsts_of(alloc, &*modules)?;
    let mut types = TypeTable::new(alloc, &*declared);
    let read = DeclaredTypes::new(alloc, &*declared, &mut types)?;
    let headers = Headers {
        declared: &read,
        places: &*places,
    };
    settle_rounds(
        alloc,
        modules,
        firsts.as_slice(),
        spare,
        &mut types,
        &headers,
        log,
    )
}

/// Takes steps in the definitions of the first of some modules until none applies in any of them.
#[tactic(auto, using(crate::proofs::First::same_rules))]
fn settle_definitions(
    alloc: Global,
    modules: &mut [NModule],
    log: &mut Seq<Entry>,
) -> Result<(), Memory>
    requires { FirstFits (nmodules_of modules.old) }
    ensures continues { Continues (nmodules_of modules.old) (nmodules_of modules.new) log.old log.new }
    ensures settled { OnOk result (AllSettled (nmodules_of modules.new)) }
{
    let outlined = outlines(alloc, &*modules)?;
    let declared = Declarations::new(alloc, outlined.as_slice())?;
    let places = DefinitionPlaces::new(alloc, outlined.as_slice())?;
    settle_among(alloc, modules, &declared, &places, log)
}

/// Simplifies the first of some modules; the others are those that it imports, as their interfaces tell them. Rows of the rewrite table are taken, shrinking and commuting ones, until
/// none applies any more, at no place of a definition and of the module as a whole. Each step gets a line in the log, behind those that are there. Fails only where memory runs out, a
/// type names a variable out of scope, a number has no 32 bits, or after 2^64 rounds. What stands then is what the log replays to: the steps so far were taken, and the others not.
#[tactic(auto, using(crate::proofs::First::same_rules))]
pub fn simplify(alloc: Global, modules: &mut [NModule], log: &mut Seq<Entry>) -> Result<(), Memory>
    requires { FirstFits (nmodules_of modules.old) }
    ensures continues { Continues (nmodules_of modules.old) (nmodules_of modules.new) log.old log.new }
    ensures fits { OnOk result (FirstFits (nmodules_of modules.new)) }
    ensures quiet { OnOk result (FirstIsQuiet (nmodules_of modules.new)) }
{
    drop_unneeded(alloc, modules, log)?;
    for _ in 0..u64::MAX {
        settle_definitions(alloc, modules, log)?;
        if !drop_unneeded(alloc, modules, log)? {
            return Ok(());
        }
    }
    Err(Memory)
}
