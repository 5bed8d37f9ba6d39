//! Sets of modules: the order in which they are built, their faults, their files, and each call on files and each put that fails.
use super::{Devices, Entry, Ran, SOUND, holds, run_set};
use std::alloc::{AllocError, Global};
use std::process::Abort;
use std::test::Fail;

/// A module that imports none.
const A: &[u8] = b"(module A (imports) (exports T K) (data T () (K ())))";

/// One that imports it.
const B: &[u8] = b"(module B (imports A) (exports x) (def x A.T (con A.K)))";

/// One that imports both.
const C: &[u8] = b"(module C (imports B A) (exports y) (def y A.T B.x))";

const CORE_A: &[u8] = b"(module A (imports) (exports T K)\n (data T () (K ())))\n";

const CORE_B: &[u8] = b"(module B (imports A) (exports x)\n (def x A.T (con A.K)))\n";

const CORE_C: &[u8] = b"(module C (imports B A) (exports y)\n (def y A.T B.x))\n";

/// What stands behind the name of a module in its log, where no step is taken.
const MARKS: &[u8] =
    b"\nmark simplify\nmark special\nmark simplify\nmark float-out\nmark simplify\nmark float-in\nmark strict\nmark split\nmark simplify\n";

const INTERFACE_C: &[u8] =
    b"(interface 1 C (imports B A) (exports y)\n (value y A.T (sig) (def B.x)))\n";

/// The logs of modules of these names, to which no step is taken.
fn logs_of(alloc: Global, names: &[&str]) -> Result<Vec<u8>, AllocError> {
    let mut text = Vec::new(alloc);
    for name in names {
        text.extend_from_slice(b"log 1 ")?;
        text.extend_from_slice(name.as_bytes())?;
        text.extend_from_slice(MARKS)?;
    }
    Ok(text)
}

/// The set, with the module that is built last in front.
const SET: [Entry<'static>; 3] = [("C.fc", C), ("A.fc", A), ("B.fc", B)];

const WORDS: [&str; 4] = ["build", "C.fc", "A.fc", "B.fc"];

const EXPLAINING: [&str; 4] = ["why", "C.fc", "A.fc", "B.fc"];

/// The modules in the order in which they are built.
const BUILT: [&str; 3] = ["A", "B", "C"];

#[test]
fn modules_are_written_in_the_order_in_which_they_are_built(rt: HostRuntime) -> Result<(), Fail> {
    let alloc = rt.alloc();
    let mut ran = run_set(&rt, alloc, &WORDS, &SET, &SOUND)?;
    assert_eq!(rt; ran.err.bytes(), b"".as_slice());
    assert_eq!(rt; ran.status, 0);
    assert_eq!(rt; ran.out.bytes(), b"built A\nbuilt B\nbuilt C\n".as_slice());
    assert!(rt; holds(alloc, &mut ran, "./A.opt.fc", Some(CORE_A))?);
    assert!(rt; holds(alloc, &mut ran, "./B.opt.fc", Some(CORE_B))?);
    assert!(rt; holds(alloc, &mut ran, "./C.opt.fc", Some(CORE_C))?);
    assert!(rt; holds(alloc, &mut ran, "./C.fci", Some(INTERFACE_C))?);
    let log = logs_of(alloc, &["C"])?;
    assert!(rt; holds(alloc, &mut ran, "./C.why", Some(log.as_slice()))?);
    Ok(())
}

/// Fails unless so many of the nine files stand, the first in the order in which they are written, and no other.
fn stand_up_to(rt: &impl Abort, alloc: Global, ran: &mut Ran, count: usize) -> Result<(), Fail> {
    let names = [
        "./A.opt.fc",
        "./A.fci",
        "./A.why",
        "./B.opt.fc",
        "./B.fci",
        "./B.why",
        "./C.opt.fc",
        "./C.fci",
        "./C.why",
    ];
    for (number, name) in names.iter().enumerate() {
        let absent = holds(alloc, ran, *name, None)?;
        assert!(rt; absent == (number >= count));
    }
    Ok(())
}

/// A run over the set: its devices, the status, the two streams, and how many files stand.
type Row<'a> = (Devices<'a>, u8, &'a [u8], &'a [u8], usize);

/// Runs each row, and compares all that stands after it.
fn are_as_told(rt: &impl Abort, alloc: Global, rows: &[Row<'_>]) -> Result<(), Fail> {
    for (devices, status, out, err, stand) in rows {
        let mut ran = run_set(rt, alloc, &WORDS, &SET, devices)?;
        assert_eq!(rt; ran.err.bytes(), *err);
        assert_eq!(rt; ran.status, *status);
        assert_eq!(rt; ran.out.bytes(), *out);
        stand_up_to(rt, alloc, &mut ran, *stand)?;
    }
    Ok(())
}

const fn calls(numbers: &[u64]) -> Devices<'_> {
    Devices {
        calls: numbers,
        ..SOUND
    }
}

const fn puts(numbers: &[u64], room: usize) -> Devices<'_> {
    Devices {
        out_puts: numbers,
        out_room: room,
        ..SOUND
    }
}

#[test]
fn each_call_that_fails_is_told(rt: HostRuntime) -> Result<(), Fail> {
    let rows: [Row<'_>; 12] = [
        // reads, in the order of the words
        (calls(&[1]), 3, b"", b"read fault C.fc\n", 0),
        (calls(&[2]), 3, b"", b"read fault A.fc\n", 0),
        (calls(&[3]), 3, b"", b"read fault B.fc\n", 0),
        // writes, in the order in which modules are built; the line of a module is put behind its files
        (calls(&[4]), 4, b"", b"write fault ./A.opt.fc\n", 0),
        (calls(&[5]), 4, b"", b"write fault ./A.fci\n", 1),
        (calls(&[6]), 4, b"", b"write fault ./A.why\n", 2),
        (calls(&[7]), 4, b"built A\n", b"write fault ./B.opt.fc\n", 3),
        (calls(&[8]), 4, b"built A\n", b"write fault ./B.fci\n", 4),
        (calls(&[9]), 4, b"built A\n", b"write fault ./B.why\n", 5),
        (
            calls(&[10]),
            4,
            b"built A\nbuilt B\n",
            b"write fault ./C.opt.fc\n",
            6,
        ),
        (
            calls(&[11]),
            4,
            b"built A\nbuilt B\n",
            b"write fault ./C.fci\n",
            7,
        ),
        (
            calls(&[12]),
            4,
            b"built A\nbuilt B\n",
            b"write fault ./C.why\n",
            8,
        ),
    ];
    are_as_told(&rt, rt.alloc(), rows.as_slice())
}

#[test]
fn each_put_that_fails_is_told(rt: HostRuntime) -> Result<(), Fail> {
    let rows: [Row<'_>; 5] = [
        (puts(&[1], 100), 4, b"", b"write fault -\n", 3),
        (puts(&[2], 100), 4, b"built A\n", b"write fault -\n", 6),
        (
            puts(&[3], 100),
            4,
            b"built A\nbuilt B\n",
            b"write fault -\n",
            9,
        ),
        // the stream takes what fits
        (puts(&[], 11), 4, b"built A\nbui", b"write fault -\n", 6),
        (puts(&[], 24), 0, b"built A\nbuilt B\nbuilt C\n", b"", 9),
    ];
    are_as_told(&rt, rt.alloc(), rows.as_slice())
}

/// A run of `why` over the set: its devices, the status, the error stream, and how many logs are put.
type Explained<'a> = (Devices<'a>, u8, &'a [u8], usize);

/// Runs each row, compares the streams, and that no file was written.
fn are_explained(rt: &impl Abort, alloc: Global, rows: &[Explained<'_>]) -> Result<(), Fail> {
    for (devices, status, err, count) in rows {
        let mut ran = run_set(rt, alloc, &EXPLAINING, &SET, devices)?;
        let logs = logs_of(alloc, &BUILT[..BUILT.len().min(*count)])?;
        assert_eq!(rt; ran.err.bytes(), *err);
        assert_eq!(rt; ran.status, *status);
        assert_eq!(rt; ran.out.bytes(), logs.as_slice());
        stand_up_to(rt, alloc, &mut ran, 0)?;
    }
    Ok(())
}

#[test]
fn logs_are_put_in_the_order_in_which_modules_are_built(rt: HostRuntime) -> Result<(), Fail> {
    let rows: [Explained<'_>; 5] = [
        (SOUND, 0, b"", 3),
        (calls(&[2]), 3, b"read fault A.fc\n", 0),
        (puts(&[1], 500), 4, b"write fault -\n", 0),
        (puts(&[2], 500), 4, b"write fault -\n", 1),
        (puts(&[3], 500), 4, b"write fault -\n", 2),
    ];
    are_explained(&rt, rt.alloc(), rows.as_slice())
}

/// A set that is not accepted: its files in the order of the words, and the line.
type Refused<'a> = (&'a [Entry<'a>], &'a [u8]);

/// Lints each set, and compares the line and that nothing else came.
fn are_refused(rt: &impl Abort, alloc: Global, sets: &[Refused<'_>]) -> Result<(), Fail> {
    for (texts, line) in sets {
        let mut words = vec![in alloc; "lint"]?;
        for (name, _) in *texts {
            words.push(*name)?;
        }
        let ran = run_set(rt, alloc, words.as_slice(), *texts, &SOUND)?;
        assert_eq!(rt; ran.err.bytes(), *line);
        assert_eq!(rt; ran.status, 1);
        assert_eq!(rt; ran.out.bytes(), b"".as_slice());
    }
    Ok(())
}

#[test]
fn the_first_fault_of_a_set_is_told(rt: HostRuntime) -> Result<(), Fail> {
    let sets: [Refused<'_>; 9] = [
        // a module twice, told of the later file by the name of the module
        (
            &[("A.fc", A), ("B.fc", A)],
            b"refused 11 DuplicateModule A - -\n",
        ),
        // an import that is not in the set
        (&[("B.fc", B)], b"refused 12 ImportUnknown B - -\n"),
        // a module twice counts before an import that is not in the set
        (
            &[("B.fc", B), ("C.fc", C), ("D.fc", B)],
            b"refused 11 DuplicateModule B - -\n",
        ),
        // modules that import each other
        (
            &[
                ("A.fc", b"(module A (imports B) (exports))"),
                ("B.fc", b"(module B (imports A) (exports))"),
            ],
            b"refused 13 ImportCycle A - -\n",
        ),
        // the first file with a fault, in the order of the words
        (
            &[("A.fc", b"("), ("B.fc", b")")],
            b"refused 3 BadForm A.fc - @1\n",
        ),
        // reading counts before the set as a whole
        (
            &[("B.fc", B), ("D.fc", b"(")],
            b"refused 3 BadForm D.fc - @1\n",
        ),
        // a module that is not imported
        (
            &[
                ("A.fc", A),
                ("B.fc", b"(module B (imports) (exports) (def x A.T x))"),
            ],
            b"refused 20 Unbound B x 0\n",
        ),
        // what a module neither exports nor hides
        (
            &[
                ("A.fc", b"(module A (imports) (exports) (data T () (K ())))"),
                ("B.fc", b"(module B (imports A) (exports) (def x A.T x))"),
            ],
            b"refused 22 NotExported B x 0\n",
        ),
        // the module that is built first is told, though it stands behind
        (
            &[
                ("B.fc", b"(module B (imports A) (exports) (def x A.T y))"),
                (
                    "A.fc",
                    b"(module A (imports) (exports T) (data T ()) (def x T 1#))",
                ),
            ],
            b"refused 63 DefType A x -\n",
        ),
    ];
    are_refused(&rt, rt.alloc(), sets.as_slice())
}

#[test]
fn hidden_words_of_an_import_may_be_used(rt: HostRuntime) -> Result<(), Fail> {
    let alloc = rt.alloc();
    let hides: &[u8] = b"(module A (imports) (exports) (hidden T K) (data T () (K ())))";
    let files: [Entry<'_>; 2] = [("B.fc", B), ("A.fc", hides)];
    let ran = run_set(&rt, alloc, &["lint", "B.fc", "A.fc"], &files, &SOUND)?;
    assert_eq!(rt; ran.err.bytes(), b"".as_slice());
    assert_eq!(rt; ran.out.bytes(), b"ok A\nok B\n".as_slice());
    Ok(())
}
