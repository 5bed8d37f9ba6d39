//! Steps as lines of a log.
ghost use Rattle.std.specs.Prelude.{◌≡◌, ◌++◌, IfOk, OnOk};
ghost use Rattle.fc_simplify.specs.Steps.{dead_step as spec_dead_step, path_of as spec_path_of, step_of as spec_step_of};

use fc_log::{Row, Step};
use fc_numbers::{number, sum};
use fc_row_search::Applying;
use fc_syntax::{Memory, Place, Seq, Text, part};
use std::alloc::Global;

/// Puts numbers behind others.
pub(crate) fn add_all(numbers: &[u32], path: &mut Seq<u32>) -> Result<(), Memory>
    ensures { OnOk result (path.new ≡ path.old ++ numbers.now) }
{
    for number in numbers {
        path.push(*number)?;
    }
    Ok(())
}

/// The place that a log tells of a row: that of the expression that the row looks at, in the right side of its definition; of alt-dead that of the alternative.
fn path_of(alloc: Global, found: &Applying) -> Result<Seq<u32>, Memory>
    ensures { IfOk result (λ p. p ≡ spec_path_of found.now) }
{
    let mut path = Seq::new(alloc);
    path.push(part::RIGHT_SIDE)?;
    add_all(found.place.as_slice(), &mut path)?;
    if let Row::AltDead = found.row {
        path.push(sum(number(found.alternative)?, part::FIRST_ALTERNATIVE)?)?;
    }
    Ok(path)
}

/// The step of a row that was found in the definition of a word.
pub(crate) fn step_of(alloc: Global, word: &Text, found: &Applying) -> Result<Step, Memory>
    ensures { IfOk result (λ s. s ≡ spec_step_of word.now found.now) }
{
    let path = path_of(alloc, found)?;
    Ok(Step {
        row: found.row,
        def: Some(word.copy(alloc)?),
        path: Place::Parts(path),
        answer: None,
    })
}

/// The step that takes away all definitions that nothing needs.
pub(crate) fn dead_step() -> Step
    ensures { result ≡ spec_dead_step }
{
    Step {
        row: Row::DefDead,
        def: None,
        path: Place::Nowhere,
        answer: None,
    }
}
