//! Makes a step of the words that were read.
ghost use Rattle.std.specs.Prelude.{◌≡◌, IfOk, IsTrue};
ghost use Rattle.std.specs.Option.{option_copied};
ghost use Rattle.std.specs.Str.Parse.{digits_value};
ghost use Rattle.fc_log.specs.Grammar as spec;
ghost use Rattle.fc_log.specs.declared.log.Entry.{Entry};
ghost use Rattle.fc_log.specs.Reading.{IsPathRead, place_read};

use crate::log::{Answer, Row, Step};
use fc_lex::number;
use fc_syntax::{Memory, Place, Seq, Text};
use std::alloc::Global;

/// The number of a part.
fn part_number(word: &[u8]) -> u32
    requires { IsTrue (spec.is_part_number word.now) }
    ensures { result ≡ digits_value 10 word.now }
{
    match number(word) {
        Some(n) => n,
        None => unreachable!(),
    }
}

/// The numbers of a path. Fails only where memory runs out.
fn path_numbers(alloc: Global, path: &[u8]) -> Result<Seq<u32>, Memory>
    requires { IsTrue (spec.is_path path.now) }
    ensures { IfOk result (λ ns. ns ≡ spec.path_of path.now) }
{
    let mut numbers = Seq::new(alloc);
    for part in path.split(|b| *b == b'.') {
        numbers.push(part_number(part))?;
    }
    Ok(numbers)
}

/// A place by its path, which none is nowhere. Fails only where memory runs out.
fn place_at(alloc: Global, path: Option<&[u8]>) -> Result<Place, Memory>
    requires { IsPathRead path }
    ensures { IfOk result (λ p. p ≡ place_read (option_copied path.entry)) }
{
    match path {
        Some(path) => Ok(Place::Parts(path_numbers(alloc, path)?)),
        None => Ok(Place::Nowhere),
    }
}

/// The word of a definition as text, where there is one. Fails only where memory runs out.
fn def_text(alloc: Global, def: Option<&str>) -> Result<Option<Text>, Memory>
    ensures { IfOk result (λ d. d ≡ option_copied def.entry) }
{
    match def {
        Some(word) => Ok(Some(Text::from_str(alloc, word)?)),
        None => Ok(None),
    }
}

/// A step by the words that were read of it. Fails only where memory runs out.
pub(crate) fn step_of(
    alloc: Global,
    row: Row,
    def: Option<&str>,
    path: Option<&[u8]>,
    answer: Option<Answer>,
) -> Result<Step, Memory>
    requires { IsPathRead path }
    ensures { IfOk result (λ s. Entry.Step s ≡ spec.step_at row (option_copied def.entry) (place_read (option_copied path.entry)) answer) }
{
    let def = def_text(alloc, def)?;
    let path = place_at(alloc, path)?;
    Ok(Step {
        row,
        def,
        path,
        answer,
    })
}
