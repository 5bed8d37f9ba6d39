//! The lines of a log, and one step so many times behind them.
ghost use Rattle.std.specs.Prelude.{◌≡◌, ◌++◌, IfOk, OnOk};
ghost use Rattle.fc_simplify.specs.Steps.{lines_of};

use crate::steps::add_all;
use fc_log::{Entry, Step};
use fc_syntax::{Memory, Place, Seq, Text};
use std::alloc::Global;

/// A copy of numbers.
fn copy_numbers(alloc: Global, numbers: &[u32]) -> Result<Seq<u32>, Memory>
    ensures { IfOk result (λ s. s ≡ numbers.now) }
{
    let mut copy = Seq::new(alloc);
    add_all(numbers, &mut copy)?;
    Ok(copy)
}

/// A copy of a place.
fn copy_place(alloc: Global, place: &Place) -> Result<Place, Memory>
    ensures { IfOk result (λ p. p ≡ place.now) }
{
    match place {
        Place::Nowhere => Ok(Place::Nowhere),
        Place::Byte(at) => Ok(Place::Byte(*at)),
        Place::Parts(parts) => Ok(Place::Parts(copy_numbers(alloc, parts.as_slice())?)),
    }
}

/// A copy of a word, where there is one.
fn copy_word(alloc: Global, word: &Option<Text>) -> Result<Option<Text>, Memory>
    ensures { IfOk result (λ w. w ≡ word.now) }
{
    match word {
        Some(word) => Ok(Some(word.copy(alloc)?)),
        None => Ok(None),
    }
}

/// A copy of a step.
fn copy_step(alloc: Global, step: &Step) -> Result<Step, Memory>
    ensures { IfOk result (λ s. s ≡ step.now) }
{
    let def = copy_word(alloc, &step.def)?;
    let path = copy_place(alloc, &step.path)?;
    Ok(Step {
        row: step.row,
        def,
        path,
        answer: step.answer,
    })
}

/// A copy of a line.
fn copy_line(alloc: Global, line: &Entry) -> Result<Entry, Memory>
    ensures { IfOk result (λ e. e ≡ line.now) }
{
    match line {
        Entry::Step(step) => Ok(Entry::Step(copy_step(alloc, step)?)),
        Entry::Mark(phase) => Ok(Entry::Mark(*phase)),
    }
}

/// Puts copies of lines behind others.
fn add_lines(alloc: Global, log: &[Entry], lines: &mut Seq<Entry>) -> Result<(), Memory>
    ensures { OnOk result (lines.new ≡ lines.old ++ log.now) }
{
    for line in log {
        lines.push(copy_line(alloc, line)?)?;
    }
    Ok(())
}

/// Puts a step behind lines, so many times.
fn add_steps(alloc: Global, step: &Step, count: u32, lines: &mut Seq<Entry>) -> Result<(), Memory>
    ensures { OnOk result (lines.new ≡ lines.old ++ lines_of count step.now) }
{
    for number in 0..count {
        lines.push(Entry::Step(copy_step(alloc, step)?))?;
    }
    Ok(())
}

/// A copy of the lines of a log, with a step behind them so many times. Fails only where memory runs out, or a word is shared too often to be counted.
pub(crate) fn with_steps(
    alloc: Global,
    log: &[Entry],
    step: &Step,
    count: u32,
) -> Result<Seq<Entry>, Memory>
    ensures { IfOk result (λ es. es ≡ log.now ++ lines_of count step.now) }
{
    let mut lines = Seq::with_capacity(alloc, log.len())?;
    add_lines(alloc, log, &mut lines)?;
    add_steps(alloc, step, count, &mut lines)?;
    Ok(lines)
}
