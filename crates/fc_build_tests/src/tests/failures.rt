//! Each call on files and each put on a stream that fails, one at a time and together, and streams that take too little.
use super::{Devices, HEADER, LOG, SOUND, holds, run_over};
use std::alloc::Global;
use std::process::Abort;
use std::test::Fail;

const CORE: &[u8] = b"(module M (imports) (exports))\n";

const INTERFACE: &[u8] = b"(interface 1 M (imports) (exports))\n";

/// The line for a file that is one bracket.
const REFUSED: &[u8] = b"refused 3 BadForm M.fc - @1\n";

/// A run: its devices, the text of the file, the status, the two streams, and how many files were written.
type Row<'a> = (Devices<'a>, &'a [u8], u8, &'a [u8], &'a [u8], usize);

/// Runs a row, and compares all that stands after it; the file that was read is never touched.
fn is_as_told(rt: &impl Abort, alloc: Global, row: &Row<'_>) -> Result<(), Fail> {
    let (devices, text, status, out, err, written) = row;
    let mut ran = run_over(rt, alloc, &["build", "M.fc"], text, devices)?;
    assert_eq!(rt; ran.status, *status);
    assert_eq!(rt; ran.out.bytes(), *out);
    assert_eq!(rt; ran.err.bytes(), *err);
    let core = if *written > 0 { Some(CORE) } else { None };
    let interface = if *written > 1 { Some(INTERFACE) } else { None };
    let log = if *written > 2 { Some(LOG) } else { None };
    assert!(rt; holds(alloc, &mut ran, "./M.opt.fc", core)?);
    assert!(rt; holds(alloc, &mut ran, "./M.fci", interface)?);
    assert!(rt; holds(alloc, &mut ran, "./M.why", log)?);
    assert!(rt; holds(alloc, &mut ran, "M.fc", Some(*text))?);
    Ok(())
}

const fn calls(numbers: &[u64]) -> Devices<'_> {
    Devices {
        calls: numbers,
        ..SOUND
    }
}

const fn out(numbers: &[u64], room: usize) -> Devices<'_> {
    Devices {
        out_puts: numbers,
        out_room: room,
        ..SOUND
    }
}

const fn err<'a>(calls: &'a [u64], numbers: &'a [u64], room: usize) -> Devices<'a> {
    Devices {
        calls,
        err_puts: numbers,
        err_room: room,
        ..SOUND
    }
}

#[test]
fn files_that_fail_are_told(rt: HostRuntime) -> Result<(), Fail> {
    let alloc = rt.alloc();
    let rows: [Row<'_>; 5] = [
        (SOUND, HEADER, 0, b"built M\n", b"", 3),
        (calls(&[1]), HEADER, 3, b"", b"read fault M.fc\n", 0),
        (calls(&[2]), HEADER, 4, b"", b"write fault ./M.opt.fc\n", 0),
        (calls(&[3]), HEADER, 4, b"", b"write fault ./M.fci\n", 1),
        (calls(&[4]), HEADER, 4, b"", b"write fault ./M.why\n", 2),
    ];
    for row in &rows {
        is_as_told(&rt, alloc, row)?;
    }
    Ok(())
}

#[test]
fn an_output_that_fails_is_told(rt: HostRuntime) -> Result<(), Fail> {
    let alloc = rt.alloc();
    let rows: [Row<'_>; 7] = [
        (out(&[1], 100), HEADER, 4, b"", b"write fault -\n", 3),
        // there is one put
        (out(&[2], 100), HEADER, 0, b"built M\n", b"", 3),
        // it takes what fits
        (out(&[], 0), HEADER, 4, b"", b"write fault -\n", 3),
        (out(&[], 5), HEADER, 4, b"built", b"write fault -\n", 3),
        (out(&[], 7), HEADER, 4, b"built M", b"write fault -\n", 3),
        (out(&[], 8), HEADER, 0, b"built M\n", b"", 3),
        // nothing is put where the file is refused
        (out(&[1], 0), b"(", 1, b"", REFUSED, 0),
    ];
    for row in &rows {
        is_as_told(&rt, alloc, row)?;
    }
    Ok(())
}

#[test]
fn an_error_stream_that_fails_changes_no_status(rt: HostRuntime) -> Result<(), Fail> {
    let alloc = rt.alloc();
    let rows: [Row<'_>; 11] = [
        (err(&[1], &[1], 100), HEADER, 3, b"", b"", 0),
        (err(&[1], &[2], 100), HEADER, 3, b"", b"read fault ", 0),
        (err(&[1], &[3], 100), HEADER, 3, b"", b"read fault M.fc", 0),
        (err(&[1], &[], 4), HEADER, 3, b"", b"read", 0),
        (err(&[2], &[1], 100), HEADER, 4, b"", b"", 0),
        (err(&[3], &[2], 100), HEADER, 4, b"", b"write fault ", 1),
        (err(&[3], &[], 14), HEADER, 4, b"", b"write fault ./", 1),
        (err(&[], &[1], 100), b"(", 1, b"", b"", 0),
        // there is one put
        (err(&[], &[2], 100), b"(", 1, b"", REFUSED, 0),
        (err(&[], &[], 10), b"(", 1, b"", b"refused 3 ", 0),
        // nothing is put there where all is well
        (err(&[], &[1], 0), HEADER, 0, b"built M\n", b"", 3),
    ];
    for row in &rows {
        is_as_told(&rt, alloc, row)?;
    }
    Ok(())
}
