//! How calls end, and the lines and statuses that tell it.
use fc_files::{PutAnswer, Sink};
use fc_model::{Flaw, Flawed};
use fc_refusals::refusal_line;
use fc_syntax::{Fault, Memory, Place, Refusal, Seq, Text};
use std::alloc::{AllocError, AllocFailed, Global};

/// Why a call answers nothing.
#[derive(Drop)]
pub enum NoAnswer {
    /// What is read has a fault.
    Refused(Fault),
    /// The words are no call.
    Usage,
    /// The file of this name cannot be read.
    ReadFault(Text),
    /// Out of memory.
    Memory,
}

impl From<Memory> for NoAnswer {
    fn from(_error: Memory) -> NoAnswer {
        NoAnswer::Memory
    }
}

impl From<AllocError> for NoAnswer {
    fn from(_error: AllocError) -> NoAnswer {
        NoAnswer::Memory
    }
}

impl<T: Drop> From<AllocFailed<T>> for NoAnswer {
    fn from(_error: AllocFailed<T>) -> NoAnswer {
        NoAnswer::Memory
    }
}

impl From<Refusal> for NoAnswer {
    fn from(refusal: Refusal) -> NoAnswer {
        match refusal {
            Refusal::Fault(fault) => NoAnswer::Refused(fault),
            Refusal::Memory => NoAnswer::Memory,
        }
    }
}

// LINES

/// Appends parts, with a text between each and the next.
pub fn put_joined(parts: &[Vec<u8>], between: &[u8], to: &mut Vec<u8>) -> Result<(), Memory> {
    let mut behind = false;
    for part in parts {
        if behind {
            to.extend_from_slice(between)?;
        }
        to.extend_from_slice(part.as_slice())?;
        behind = true;
    }
    Ok(())
}

/// A line of parts, with a text between each and the next.
pub fn line_of(alloc: Global, parts: &[Vec<u8>], between: &[u8]) -> Result<Vec<u8>, Memory> {
    let mut line = Vec::new(alloc);
    put_joined(parts, between, &mut line)?;
    line.push(b'\n')?;
    Ok(line)
}

/// The line of a word.
pub fn line(alloc: Global, word: &str) -> Result<Vec<u8>, Memory> {
    let mut line = Vec::from_slice(alloc, word.as_bytes())?;
    line.push(b'\n')?;
    Ok(line)
}

/// The line for a file that cannot be read.
fn read_fault_line(alloc: Global, name: &Text) -> Result<Vec<u8>, Memory> {
    let mut line = Vec::from_slice(alloc, b"read fault ")?;
    line.extend_from_slice(name.as_str().as_bytes())?;
    line.push(b'\n')?;
    Ok(line)
}

// FLAWS

/// Part numbers in the other order.
fn reversed(alloc: Global, numbers: &[u32]) -> Result<Seq<u32>, Memory> {
    let mut all = Seq::new(alloc);
    for n in numbers.iter().rev() {
        all.push(*n)?;
    }
    Ok(all)
}

/// The fault of a flaw in the module of this name.
fn fault_of(alloc: Global, module: &str, flaw: Flaw) -> Result<Fault, Memory> {
    let Flaw { kind, def, path } = flaw;
    let path = reversed(alloc, path.as_slice())?;
    Ok(Fault {
        kind,
        module: Text::from_str(alloc, module)?,
        def,
        path: Place::Parts(path),
    })
}

/// Why a judgement of the module of this name answers nothing.
pub fn flawed_in(alloc: Global, module: &str, flawed: Flawed) -> NoAnswer {
    let Flawed::Flaw(flaw) = flawed else {
        return NoAnswer::Memory;
    };
    match fault_of(alloc, module, flaw) {
        Ok(fault) => NoAnswer::Refused(fault),
        Err(Memory) => NoAnswer::Memory,
    }
}

// OUTCOMES

/// Puts a line, and answers the status that goes with it; a put that fails changes nothing else.
fn end_with<S: Sink>(to: &mut S, line: &[u8], status: u8) -> u8 {
    let _ = to.put(line);
    status
}

/// Puts the line that was made, and answers its status; where no memory was left to make it, tells that.
fn end<S: Sink>(to: &mut S, line: Result<Vec<u8>, Memory>, status: u8) -> u8 {
    match line {
        Ok(line) => end_with(to, line.as_slice(), status),
        Err(Memory) => end_with(to, b"out of memory\n", 5),
    }
}

/// Puts what a call answers on the output, or on the error stream why there is no answer, and answers the status of the program.
pub fn tell<O: Sink, E: Sink>(
    alloc: Global,
    out: &mut O,
    err: &mut E,
    answer: Result<Vec<u8>, NoAnswer>,
) -> u8 {
    match answer {
        Ok(text) => match out.put(text.as_slice()) {
            PutAnswer::Ok => 0,
            PutAnswer::Failed => end_with(err, b"write fault -\n", 4),
        },
        Err(NoAnswer::Refused(fault)) => end(err, refusal_line(alloc, &fault), 1),
        Err(NoAnswer::Usage) => end_with(err, b"usage\n", 2),
        Err(NoAnswer::ReadFault(name)) => end(err, read_fault_line(alloc, &name), 3),
        Err(NoAnswer::Memory) => end_with(err, b"out of memory\n", 5),
    }
}
