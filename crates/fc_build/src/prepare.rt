//! From the words and the files to what is to be written.
ghost use Rattle.std.specs.Prelude.{◌≡◌, ◌≤◌, ◌∷◌, IfOk, map};
ghost use Rattle.fc_words.specs.Asking.{texts};
ghost use Rattle.fc_build.specs.Preparing.{Prepares, StopsAtFault};

use crate::judge::{Judged, judge};
use crate::product::{Step, steps_for};
use fc_files::Files;
use fc_refusals::refusal_line;
use fc_syntax::Fault;
use fc_words::{Unasked, request_of};
use std::alloc::{AllocError, Global};

/// Why nothing is to be written.
#[derive(Debug, Drop)]
pub enum Stop<'a> {
    /// The set is not accepted, and this line tells its first fault.
    Refused(Vec<u8>),
    /// The words ask for nothing.
    Usage,
    /// The read of this file failed.
    ReadFault(&'a str),
    /// Out of memory.
    Memory,
}

/// The stop at a fault, or where no memory is left to tell it.
fn stop_at<'a>(alloc: Global, fault: &Fault) -> Stop<'a>
    ensures { StopsAtFault fault.now result }
{
    match refusal_line(alloc, fault) {
        Ok(line) => Stop::Refused(line),
        Err(_) => Stop::Memory,
    }
}

/// The names of all files, in the order of the words.
fn names_of<'a>(
    alloc: Global,
    file: &'a str,
    others: &[&'a str],
) -> Result<Vec<&'a str>, AllocError>
    ensures { IfOk result (λ names. map (λ s. s.now) names.items ≡ file.now ∷ map (λ s. s.now) others.now) }
{
    let mut names = Vec::new(alloc);
    names.push(file)?;
    names.extend_from_slice(others)?;
    Ok(names)
}

/// What is to be done, by the words and what the files hold; or why nothing is. Writes nothing.
pub(crate) fn prepare<'a, F: Files>(
    alloc: Global,
    words: &'a [String],
    files: &mut F,
) -> Result<Vec<Step>, Stop<'a>>
    ensures held { F.held files.new ≡ F.held files.old }
    ensures writes { F.write_faults files.new ≡ F.write_faults files.old }
    ensures reads { F.read_faults files.old ≤ F.read_faults files.new }
    ensures answer { Prepares (texts words.entry.now) (F.held files.old) (F.read_faults files.old) (F.read_faults files.new) result }
{
    let request = match request_of(alloc, words) {
        Ok(request) => request,
        Err(Unasked::Usage) => return Err(Stop::Usage),
        Err(Unasked::Memory) => return Err(Stop::Memory),
    };
    let Ok(names) = names_of(alloc, request.file, request.others.as_slice()) else {
        return Err(Stop::Memory);
    };
    match judge(alloc, files, names.as_slice()) {
        Judged::Accepted(set) => match steps_for(alloc, request.command, set) {
            Ok(steps) => Ok(steps),
            Err(_) => Err(Stop::Memory),
        },
        Judged::Refused(fault) => Err(stop_at(alloc, &fault)),
        Judged::ReadFault(name) => Err(Stop::ReadFault(name)),
        Judged::Memory => Err(Stop::Memory),
    }
}
