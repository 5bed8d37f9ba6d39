//! The line that tells a refusal on the error stream.
#![tactic(auto)]

ghost use Rattle.std.specs.Prelude.{◌≡◌, ◌++◌, decimal, IfOk, OnOk};
ghost use Rattle.fc_refusals.specs.Lines.{definition_text, dotted_text, parts_text, place_text, refusal_line as line_of};

use fc_syntax::{Fault, Memory, Place, Text};
use itoa::Buffer;
use std::alloc::Global;

/// Appends a number in decimal digits. Fails only where no memory is left.
pub fn put_number(n: u32, to: &mut Vec<u8>) -> Result<(), Memory>
    ensures { OnOk result (to.new.items ≡ to.old.items ++ decimal n) }
{
    let mut digits = Buffer::new();
    to.extend_from_slice(digits.format(n).as_bytes())?;
    Ok(())
}

/// Numbers, each behind a dot.
fn put_dotted(numbers: &[u32], to: &mut Vec<u8>) -> Result<(), Memory>
    ensures { OnOk result (to.new.items ≡ to.old.items ++ dotted_text numbers.now) }
{
    for n in numbers {
        to.push(b'.')?;
        put_number(*n, to)?;
    }
    Ok(())
}

/// Part numbers joined by dots, and a hyphen where there are none.
fn put_parts(numbers: &[u32], to: &mut Vec<u8>) -> Result<(), Memory>
    ensures { OnOk result (to.new.items ≡ to.old.items ++ parts_text numbers.now) }
{
    match numbers {
        [] => {
            to.push(b'-')?;
            Ok(())
        }
        [first, others @ ..] => {
            put_number(*first, to)?;
            put_dotted(others, to)
        }
    }
}

fn put_place(place: &Place, to: &mut Vec<u8>) -> Result<(), Memory>
    ensures { OnOk result (to.new.items ≡ to.old.items ++ place_text place.now) }
{
    match place {
        Place::Nowhere => {
            to.push(b'-')?;
            Ok(())
        }
        Place::Byte(at) => {
            to.push(b'@')?;
            put_number(*at, to)
        }
        Place::Parts(path) => put_parts(path.as_slice(), to),
    }
}

/// The word of the declaration, and a hyphen where there is none.
fn put_definition(def: &Option<Text>, to: &mut Vec<u8>) -> Result<(), Memory>
    ensures { OnOk result (to.new.items ≡ to.old.items ++ definition_text def.now) }
{
    match def {
        Some(word) => {
            to.extend_from_slice(word.as_str().as_bytes())?;
            Ok(())
        }
        None => {
            to.push(b'-')?;
            Ok(())
        }
    }
}

/// The line of a refusal, with its line feed: number and word of the fault, module or file, declaration, place. A hyphen stands where there is no declaration
/// or no place; a place is a byte behind `@`, or part numbers joined by dots. Fails only where no memory is left.
pub fn refusal_line(alloc: Global, fault: &Fault) -> Result<Vec<u8>, Memory>
    ensures { IfOk result (λ line. line.items ≡ line_of fault.now) }
{
    let mut line = Vec::from_slice(alloc, b"refused ")?;
    put_number(u32::from(fault.kind.number()), &mut line)?;
    line.push(b' ')?;
    line.extend_from_slice(fault.kind.word().as_bytes())?;
    line.push(b' ')?;
    line.extend_from_slice(fault.module.as_str().as_bytes())?;
    line.push(b' ')?;
    put_definition(&fault.def, &mut line)?;
    line.push(b' ')?;
    put_place(&fault.path, &mut line)?;
    line.push(b'\n')?;
    Ok(line)
}
