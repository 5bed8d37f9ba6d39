//! Steps in a definition, and in all definitions, until none applies.
ghost use Rattle.std.specs.Prelude.{◌≡◌, [], IfOk, IsFalse, IsTrue, OnOk, Some, slice_get, true};
ghost use Rattle.fc_model.specs.NamelessView.{nmodules_of};
ghost use Rattle.fc_type_table.specs.TypeTables.{Grows};
ghost use Rattle.fc_row_at_place.specs.Sites.{AreHeaders};
ghost use Rattle.fc_simplify.specs.Phase.{AllSettled, AreSettled, Continues, FirstDefines, FirstHasSpare, FirstsAre, IsSettled, KeepsHeaders};

use crate::taking::take_next;
use crate::waiting::Waiting;
use fc_log::Entry;
use fc_row_at_place::Headers;
use fc_syntax::{Memory, NModule, Seq};
use fc_type_table::TypeTable;
use std::alloc::Global;

/// What steps came to.
#[derive(Clone, Copy)]
struct Settled {
    /// By how many pieces the module may grow now.
    spare: u32,
    /// Whether there was a step.
    stepped: bool,
}

/// Takes steps in the definition of a number of the first of some modules until none applies there: each search goes on where the last step was, and where nothing is found any more
/// the whole is searched again. Fails as `take_next` does, and after 2^64 rounds.
#[tactic(auto, using(crate::proofs::First::same_rules))]
fn settle(
    alloc: Global,
    modules: &mut [NModule],
    number: usize,
    spare: u32,
    types: &mut TypeTable,
    headers: &Headers<'_>,
    log: &mut Seq<Entry>,
) -> Result<Settled, Memory>
    requires first { FirstDefines number (nmodules_of modules.old) }
    requires spare { FirstHasSpare spare (nmodules_of modules.old) }
    requires headers { AreHeaders types.old headers.now (nmodules_of modules.old) }
    ensures continues { Continues (nmodules_of modules.old) (nmodules_of modules.new) log.old log.new }
    ensures keeps { KeepsHeaders (nmodules_of modules.old) (nmodules_of modules.new) }
    ensures grows { OnOk result (Grows types.old types.new) }
    ensures spare { IfOk result (λ s. FirstHasSpare s.spare (nmodules_of modules.new)) }
    ensures unchanged { IfOk result (λ s. IsFalse s.stepped → (modules.new ≡ modules.old) × (s.spare ≡ spare)) }
    ensures settled { IfOk result (λ s. IsFalse s.stepped → IsSettled spare number (nmodules_of modules.old)) }
{
    let mut from = Vec::new(alloc);
    let mut settled = Settled {
        spare,
        stepped: false,
    };
    for _ in 0..u64::MAX {
        let went = take_next(
            alloc,
            modules,
            number,
            from.as_slice(),
            settled.spare,
            types,
            headers,
            log,
        )?;
        match went {
            Some(went) => {
                from = went.place;
                settled = Settled {
                    spare: went.spare,
                    stepped: true,
                };
            }
            None if from.is_empty() => return Ok(settled),
            None => from = Vec::new(alloc),
        }
    }
    Err(Memory)
}

/// What searching each definition once came to.
#[derive(Drop)]
struct Round {
    /// By how many pieces the module may grow now.
    spare: u32,
    /// The numbers of the definitions in which there was a step.
    changed: Vec<usize>,
}

/// The same in each definition of the first of some modules that is the first of its word, as the marks tell.
#[tactic(auto, using(crate::proofs::First::same_rules))]
fn settle_all(
    alloc: Global,
    modules: &mut [NModule],
    firsts: &[bool],
    spare: u32,
    types: &mut TypeTable,
    headers: &Headers<'_>,
    log: &mut Seq<Entry>,
) -> Result<Round, Memory>
    requires firsts { FirstsAre firsts.now (nmodules_of modules.old) }
    requires spare { FirstHasSpare spare (nmodules_of modules.old) }
    requires headers { AreHeaders types.old headers.now (nmodules_of modules.old) }
    ensures continues { Continues (nmodules_of modules.old) (nmodules_of modules.new) log.old log.new }
    ensures keeps { OnOk result (KeepsHeaders (nmodules_of modules.old) (nmodules_of modules.new)) }
    ensures grows { OnOk result (Grows types.old types.new) }
    ensures spare { IfOk result (λ r. FirstHasSpare r.spare (nmodules_of modules.new)) }
    ensures unchanged { IfOk result (λ r. r.changed.items ≡ [] → modules.new ≡ modules.old) }
    ensures settled { IfOk result (λ r. r.changed.items ≡ [] → AreSettled spare firsts.now (nmodules_of modules.old)) }
{
    let mut left = spare;
    let mut changed = Vec::new(alloc);
    for (number, first) in firsts.iter().enumerate() {
        if *first {
            let one = settle(alloc, modules, number, left, types, headers, log)?;
            left = one.spare;
            if one.stepped {
                changed.push(number)?;
            }
        }
    }
    Ok(Round {
        spare: left,
        changed,
    })
}

/// Whether the declaration of a number is marked.
fn is_first(firsts: &[bool], number: usize) -> bool
    ensures { IsTrue result → slice_get firsts.now number ≡ Some true }
{
    match firsts.get(number) {
        Some(first) => *first,
        None => false,
    }
}

/// The same in the definitions that mention one that has changed, in those that mention one of these that changes then, and so on. Answers by how many pieces the module may grow now.
#[tactic(auto, using(crate::proofs::First::same_rules))]
fn settle_waiting(
    alloc: Global,
    modules: &mut [NModule],
    firsts: &[bool],
    round: Round,
    types: &mut TypeTable,
    headers: &Headers<'_>,
    log: &mut Seq<Entry>,
) -> Result<u32, Memory>
    requires firsts { FirstsAre firsts.now (nmodules_of modules.old) }
    requires spare { FirstHasSpare round.spare (nmodules_of modules.old) }
    requires headers { AreHeaders types.old headers.now (nmodules_of modules.old) }
    ensures continues { Continues (nmodules_of modules.old) (nmodules_of modules.new) log.old log.new }
    ensures keeps { OnOk result (KeepsHeaders (nmodules_of modules.old) (nmodules_of modules.new)) }
    ensures grows { OnOk result (Grows types.old types.new) }
    ensures spare { IfOk result (λ n. FirstHasSpare n (nmodules_of modules.new)) }
{
    let mut waiting = Waiting::new(alloc, &*modules, round.changed.as_slice())?;
    let mut left = round.spare;
    for _ in 0..u64::MAX {
        let Some(number) = waiting.next() else {
            return Ok(left);
        };
        if is_first(firsts, number) {
            let one = settle(alloc, modules, number, left, types, headers, log)?;
            left = one.spare;
            if one.stepped {
                waiting.wake(number)?;
            }
        }
    }
    Err(Memory)
}

/// The same again and again, until no step is taken in any definition. Fails as `take_next` does, and after 2^64 rounds.
#[tactic(auto, using(crate::proofs::First::same_rules))]
pub(crate) fn settle_rounds(
    alloc: Global,
    modules: &mut [NModule],
    firsts: &[bool],
    spare: u32,
    types: &mut TypeTable,
    headers: &Headers<'_>,
    log: &mut Seq<Entry>,
) -> Result<(), Memory>
    requires firsts { FirstsAre firsts.now (nmodules_of modules.old) }
    requires spare { FirstHasSpare spare (nmodules_of modules.old) }
    requires headers { AreHeaders types.old headers.now (nmodules_of modules.old) }
    ensures continues { Continues (nmodules_of modules.old) (nmodules_of modules.new) log.old log.new }
    ensures settled { OnOk result (AllSettled (nmodules_of modules.new)) }
{
    let mut spare = spare;
    for _ in 0..u64::MAX {
        let round = settle_all(alloc, modules, firsts, spare, types, headers, log)?;
        if round.changed.is_empty() {
            return Ok(());
        }
        spare = settle_waiting(alloc, modules, firsts, round, types, headers, log)?;
    }
    Err(Memory)
}
