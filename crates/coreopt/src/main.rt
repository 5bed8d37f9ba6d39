//! The program `coreopt`: the top call over the real files and the standard streams.
#![tactic(auto)]

ghost use Rattle.std.specs.Prelude.{◌≡◌, ◌≢◌, codes};
ghost use Rattle.fc_files.specs.Outside.{Rose, Takes, Told};
ghost use Rattle.fc_files.specs.declared.PutAnswer.{PutAnswer};

use fc_build::run;
use fc_files::{HostFiles, HostSink, Sink};
use std::env::Env;
use std::io::ErrorKind;
use std::process::ExitCode;
use std::{env, io};

/// The status of words that the program does not accept.
const USAGE: u8 = 2;

/// The status where no memory was left.
const MEMORY: u8 = 5;

/// Puts the line for words that cannot be had, by the kind of the error, and answers the status of the program.
///
/// A word that is not UTF-8 is usage. Every other error is told as out of memory, which says nothing against the words: beside
/// that one the library has only out of memory itself. Nothing was read or written.
fn end_without_words<S: Sink>(kind: ErrorKind, err: &mut S) -> u8
    ensures usage { kind ≡ ErrorKind.InvalidData → result ≡ 2 }
    ensures memory { kind ≢ ErrorKind.InvalidData → result ≡ 5 }

    // the line is put, and a part from its front only where the count of failed puts rose
    ensures usage_says { kind ≡ ErrorKind.InvalidData → (answer : PutAnswer)
        × (answer ≡ PutAnswer.Failed → Rose (S.faults err.old) (S.faults err.new))
        × Told (S.taken err.old) (S.taken err.new) (Takes answer (codes "usage\n")) }
    ensures memory_says { kind ≢ ErrorKind.InvalidData → (answer : PutAnswer)
        × (answer ≡ PutAnswer.Failed → Rose (S.faults err.old) (S.faults err.new))
        × Told (S.taken err.old) (S.taken err.new) (Takes answer (codes "out of memory\n")) }
{
    if kind == ErrorKind::InvalidData {
        let _ = err.put(b"usage\n");
        return USAGE;
    }
    let _ = err.put(b"out of memory\n");
    MEMORY
}

/// The words of the command line behind the program's name.
fn words_of<R: Env + AllocGlobal>(rt: &R) -> io::Result<Vec<String>> {
    Ok(env::args(rt)?.skip(1).collect(rt.alloc())?)
}

fn main(rt: HostRuntime) -> ExitCode {
    let alloc = rt.alloc();
    let mut out = HostSink::new(rt.stdout());
    let mut err = HostSink::new(rt.stderr());
    let words = match words_of(&rt) {
        Ok(words) => words,
        Err(error) => return ExitCode::from(end_without_words(error.kind(), &mut err)),
    };
    let mut files = HostFiles::new(rt);
    ExitCode::from(run(alloc, words.as_slice(), &mut files, &mut out, &mut err))
}
