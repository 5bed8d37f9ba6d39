//! The real files and streams, over the system, and over a system and a writer that fail where they are told to.
use crate::fakes::{Flaky, OddFile, OddSystem, OneFails};
use crate::tests::give;
use fc_files::{Files, HostFiles, HostSink, PutAnswer, ReadAnswer, Sink, WriteAnswer};
use std::alloc::{Alloc, Global};
use std::env::Env;
use std::fs::Permissions;
use std::io::{BufWriter, ErrorKind};
use std::os::unix::fs::{PermissionsExt, symlink};
use std::process::Abort;
use std::test::Fail;
use std::{env, fs, io, str};

/// What a read answered: its bytes as text, or the answer's name.
fn word_of(answer: &ReadAnswer) -> &str {
    match answer {
        ReadAnswer::Ok(bytes) => str::from_utf8(bytes.as_slice()).unwrap_or("no text"),
        ReadAnswer::Absent => "Absent",
        ReadAnswer::TooLong => "TooLong",
        ReadAnswer::Failed => "Failed",
        ReadAnswer::Memory => "Memory",
    }
}

/// Reads each file up to its limit, and wants its text or the name of the answer.
fn read_each<F: Files>(rt: &impl Abort, alloc: Global, files: &mut F, cases: &[(&str, u64, &str)]) {
    for (name, most, want) in cases {
        assert!(rt; *most <= 4);
        let answer = files.read(alloc, *name, *most);
        assert_eq!(rt; word_of(&answer), *want, "reading {name} up to {most}");
    }
}

/// Writes each file, and wants its answer.
fn write_each<F: Files>(
    rt: &impl Abort,
    alloc: Global,
    files: &mut F,
    cases: &[(&str, &[u8], WriteAnswer)],
) {
    for (name, bytes, want) in cases {
        let answer = files.write(alloc, *name, *bytes);
        assert_eq!(rt; answer, *want, "writing {name}");
    }
}

/// The folder in which a test makes its files.
const FOLDER: &str = "made_by_a_test";

/// Makes the folder anew, and goes into it.
fn enter<R: std::rt::Files + Env + Alloc>(rt: &R) -> io::Result<()> {
    let _ = fs::remove_dir_all(rt, FOLDER);
    fs::create_dir(rt, FOLDER)?;
    env::set_current_dir(rt, FOLDER)
}

/// Goes out of the folder, and removes it.
fn leave<R: std::rt::Files + Env + Alloc>(rt: &R) -> io::Result<()> {
    env::set_current_dir(rt, "..")?;
    fs::remove_dir_all(rt, FOLDER)
}

/// Makes a folder, a link to itself and a link to nothing.
fn make_odd_names<R: std::rt::Files>(rt: &R) -> io::Result<()> {
    fs::create_dir(rt, "folder")?;
    symlink(rt, "loop", "loop")?;
    symlink(rt, "nothing", "dangling")
}

#[test]
fn real_files_answer(rt: HostRuntime) -> Result<(), Fail> {
    enter(&rt)?;
    make_odd_names(&rt)?;
    let alloc = rt.alloc();
    let long_name = "n".repeat(alloc, 300)?;
    let mut files = HostFiles::new(&rt);
    let writes: [(&str, &[u8], WriteAnswer); 10] = [
        ("kept", b"longer", WriteAnswer::Ok),
        ("kept", b"kept", WriteAnswer::Ok),
        ("folder/empty", b"", WriteAnswer::Ok),
        ("folder", b"x", WriteAnswer::Failed),
        ("kept/below", b"x", WriteAnswer::Failed),
        ("absent/below", b"x", WriteAnswer::Failed),
        ("/dev/full", b"x", WriteAnswer::Failed),
        ("a\0b", b"x", WriteAnswer::Failed),
        ("", b"x", WriteAnswer::Failed),
        (long_name.as_str(), b"x", WriteAnswer::Failed),
    ];
    write_each(&rt, alloc, &mut files, &writes);
    let reads: [(&str, u64, &str); 15] = [
        ("kept", 4, "kept"),
        ("kept", 3, "TooLong"),
        ("kept", 0, "TooLong"),
        ("folder/empty", 0, ""),
        ("absent", 4, "Absent"),
        ("absent/below", 4, "Absent"),
        ("dangling", 4, "Absent"),
        ("", 4, "Absent"),
        ("/dev/zero", 4, "TooLong"),
        ("folder", 4, "Failed"),
        (".", 4, "Failed"),
        ("kept/below", 4, "Failed"),
        ("loop", 4, "Failed"),
        ("a\0b", 4, "Failed"),
        (long_name.as_str(), 4, "Failed"),
    ];
    read_each(&rt, alloc, &mut files, &reads);
    assert_eq!(rt; (files.read_faults(), files.write_faults()), (6, 7));
    leave(&rt)?;
    Ok(())
}

/// Reads and writes a file that may be neither read nor written.
fn at_locked<F: Files>(rt: &impl Abort, alloc: Global, files: &mut F) {
    read_each(rt, alloc, files, &[("locked", 4, "Failed")]);
    write_each(rt, alloc, files, &[("locked", b"x", WriteAnswer::Failed)]);
}

#[test]
fn a_locked_file_fails(rt: HostRuntime) -> Result<(), Fail> {
    enter(&rt)?;
    fs::write(&rt, "locked", "text")?;
    fs::set_permissions(&rt, "locked", Permissions::from_mode(0))?;
    if fs::open(&rt, "locked").is_ok() {
        eprintln!(rt; "a locked file could not be tried: this user may read every file")?;
    } else {
        let mut files = HostFiles::new(&rt);
        at_locked(&rt, rt.alloc(), &mut files);
        assert_eq!(rt; (files.read_faults(), files.write_faults()), (1, 1));
    }
    leave(&rt)?;
    Ok(())
}

/// What a read and a write answer, each with the count of faults after it.
type Outcome = (&'static str, u64, WriteAnswer, u64);

const DONE: Outcome = ("xxx", 0, WriteAnswer::Ok, 0);

const TOO_LONG: Outcome = ("TooLong", 0, WriteAnswer::Ok, 0);

const ABSENT: Outcome = ("Absent", 0, WriteAnswer::Failed, 1);

const FAILED: Outcome = ("Failed", 1, WriteAnswer::Failed, 1);

const MEMORY: Outcome = ("Memory", 0, WriteAnswer::Memory, 0);

/// Reads up to three bytes and writes three bytes, at a system of one file, and wants their outcome.
fn at_system(rt: &impl Abort, alloc: Global, system: OddSystem, want: Outcome) {
    let (read, read_faults, written, write_faults) = want;
    let mut files = HostFiles::new(system);
    read_each(rt, alloc, &mut files, &[("any", 3, read)]);
    write_each(rt, alloc, &mut files, &[("any", b"abc", written)]);
    assert_eq!(rt; files.read_faults(), read_faults);
    assert_eq!(rt; files.write_faults(), write_faults);
}

#[test]
fn errors_of_opening_are_told(rt: HostRuntime) {
    let cases = [
        (ErrorKind::NotFound, ABSENT),
        (ErrorKind::OutOfMemory, MEMORY),
        (ErrorKind::PermissionDenied, FAILED),
        (ErrorKind::NotADirectory, FAILED),
        (ErrorKind::IsADirectory, FAILED),
        (ErrorKind::Interrupted, FAILED),
        (ErrorKind::Uncategorized, FAILED),
    ];
    for (kind, want) in cases {
        let file = OddFile {
            left: 3,
            calls: OneFails::new(0, kind),
        };
        let refusal = Some(kind);
        at_system(&rt, rt.alloc(), OddSystem { refusal, file }, want);
    }
}

#[test]
fn errors_in_mid_stream_are_told(rt: HostRuntime) {
    let cases = [
        (3, 0, ErrorKind::Other, DONE),
        (4, 0, ErrorKind::Other, TOO_LONG),
        // Of a longer file one byte more than was asked for is read, and no further.
        (9, 5, ErrorKind::Other, TOO_LONG),
        (3, 2, ErrorKind::NotFound, FAILED),
        (3, 2, ErrorKind::StorageFull, FAILED),
        (3, 2, ErrorKind::UnexpectedEof, FAILED),
        (3, 2, ErrorKind::OutOfMemory, MEMORY),
        (3, 2, ErrorKind::Interrupted, DONE),
    ];
    for (left, number, kind, want) in cases {
        let file = OddFile {
            left,
            calls: OneFails::new(number, kind),
        };
        let refusal = None;
        at_system(&rt, rt.alloc(), OddSystem { refusal, file }, want);
    }
}

/// Puts the pieces into a stream over a writer, and wants their answers, what the writer then has, and the count of faults.
fn at_writer(
    rt: &impl Abort,
    mut writer: Flaky,
    pieces: &[(&[u8], PutAnswer)],
    want_taken: &[u8],
    want_faults: u64,
) {
    let mut sink = HostSink::new(&mut writer);
    give(rt, &mut sink, pieces);
    let faults = sink.faults();
    assert_eq!(rt; writer.taken.as_slice(), want_taken);
    assert_eq!(rt; faults, want_faults);
}

/// The most bytes that a write takes, the number of the write and of the flush that fail, and the kind of the error.
type Device = (usize, u32, u32, ErrorKind);

/// Pieces with the answers that are wanted.
type Pieces<'a> = &'a [(&'a [u8], PutAnswer)];

#[test]
fn a_piece_is_written_once(rt: HostRuntime) {
    let full = ErrorKind::StorageFull;
    let (ok, no) = (PutAnswer::Ok, PutAnswer::Failed);
    // What the writer has in the end, and the count of faults, stand last.
    let cases: [(Device, Pieces, &[u8], u64); 8] = [
        ((8, 1, 0, full), &[(b"ab", no), (b"cd", ok)], b"cd", 1),
        ((8, 2, 0, full), &[(b"ab", ok), (b"cd", no)], b"ab", 1),
        ((1, 2, 0, full), &[(b"abc", no), (b"d", ok)], b"ad", 1),
        ((8, 0, 1, full), &[(b"ab", no), (b"cd", ok)], b"abcd", 1),
        ((1, 0, 0, full), &[(b"abc", ok)], b"abc", 0),
        (
            (0, 0, 0, full),
            &[(b"a", no), (b"", ok), (b"b", no)],
            b"",
            2,
        ),
        (
            (1, 2, 0, ErrorKind::Interrupted),
            &[(b"abc", ok)],
            b"abc",
            0,
        ),
        ((8, 1, 0, ErrorKind::OutOfMemory), &[(b"ab", no)], b"", 1),
    ];
    for ((most, write, flush, kind), pieces, want_taken, want_faults) in cases {
        let writer = Flaky {
            taken: Vec::new(rt.alloc()),
            most,
            writes: OneFails::new(write, kind),
            flushes: OneFails::new(flush, kind),
        };
        at_writer(&rt, writer, pieces, want_taken, want_faults);
    }
}

#[test]
fn a_buffer_hides_no_fault(rt: HostRuntime) -> Result<(), Fail> {
    let mut room = [0; 5];
    let mut sink = HostSink::new(BufWriter::new(rt.alloc(), room.as_mut_slice())?);
    give(
        &rt,
        &mut sink,
        &[(b"kept", PutAnswer::Ok), (b"kept", PutAnswer::Failed)],
    );
    assert_eq!(rt; sink.faults(), 1);
    Ok(())
}

#[test]
fn a_closed_pipe_fails(rt: HostRuntime) -> Result<(), Fail> {
    let (reader, writer) = io::pipe(&rt)?;
    drop(reader);
    let mut sink = HostSink::new(writer);
    give(
        &rt,
        &mut sink,
        &[(b"kept", PutAnswer::Failed), (b"", PutAnswer::Ok)],
    );
    assert_eq!(rt; sink.faults(), 1);
    Ok(())
}
