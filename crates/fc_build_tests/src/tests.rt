//! The top call over files and streams in memory.
ghost use Rattle.std.specs.Prelude.{None};

mod failures;
mod many;
mod out_of_memory;
mod sets;

use fc_build::run;
use fc_files::{Files, MemFiles, MemSink, ReadAnswer, WriteAnswer, has_distinct_names};
use fc_syntax::Limits;
use std::alloc::Global;
use std::process::Abort;
use std::test::Fail;

const HEADER: &[u8] = b"(module M (imports) (exports))";

/// The log of `M`, to which no step is taken.
const LOG: &[u8] =
    b"log 1 M\nmark simplify\nmark special\nmark simplify\nmark float-out\nmark simplify\nmark float-in\nmark strict\nmark split\nmark simplify\n";

/// What a run gave: its status, what the streams took, and the files after it.
#[derive(Drop)]
struct Ran {
    status: u8,
    out: MemSink,
    err: MemSink,
    files: MemFiles,
}

/// The devices of a run: the numbers of the calls and puts that fail, and how many bytes each stream takes.
#[derive(Clone, Copy)]
struct Devices<'a> {
    calls: &'a [u64],
    out_puts: &'a [u64],
    err_puts: &'a [u64],
    out_room: usize,
    err_room: usize,
}

/// Devices that do not fail.
const SOUND: Devices<'static> = Devices {
    calls: &[],
    out_puts: &[],
    err_puts: &[],
    out_room: 500,
    err_room: 100,
};

/// A file of a run: its name and its text.
type Entry<'a> = (&'a str, &'a [u8]);

/// Runs the words over these files.
fn run_set(
    rt: &impl Abort,
    alloc: Global,
    words: &[&str],
    texts: &[Entry<'_>],
    devices: &Devices<'_>,
) -> Result<Ran, Fail> {
    let mut given = Vec::new(alloc);
    for word in words {
        given.push(String::from_str(alloc, *word)?)?;
    }
    let mut entries = Vec::new(alloc);
    for (name, text) in texts {
        entries.push((String::from_str(alloc, *name)?, text.to_vec(alloc)?))?;
    }
    assert!(rt; has_distinct_names(&entries));
    let mut files = MemFiles::new(entries, devices.calls.to_vec(alloc)?);
    let out_room = vec![in alloc; 0; devices.out_room]?;
    let mut out = MemSink::new(out_room, devices.out_puts.to_vec(alloc)?);
    let err_room = vec![in alloc; 0; devices.err_room]?;
    let mut err = MemSink::new(err_room, devices.err_puts.to_vec(alloc)?);
    let status = run(alloc, given.as_slice(), &mut files, &mut out, &mut err);
    Ok(Ran {
        status,
        out,
        err,
        files,
    })
}

/// Runs the words over the file `M.fc`.
fn run_over(
    rt: &impl Abort,
    alloc: Global,
    words: &[&str],
    text: &[u8],
    devices: &Devices<'_>,
) -> Result<Ran, Fail> {
    run_set(rt, alloc, words, &[("M.fc", text)], devices)
}

/// A run over the file `M.fc`: the words, the text, the status, and what the two streams take.
type Row<'a> = (&'a [&'a str], &'a [u8], u8, &'a [u8], &'a [u8]);

/// Runs each row, and compares the status and the two streams.
fn are_as_told(rt: &impl Abort, alloc: Global, rows: &[Row<'_>]) -> Result<(), Fail> {
    for (words, text, status, out, err) in rows {
        let ran = run_over(rt, alloc, *words, *text, &SOUND)?;
        assert_eq!(rt; ran.err.bytes(), *err);
        assert_eq!(rt; ran.status, *status);
        assert_eq!(rt; ran.out.bytes(), *out);
    }
    Ok(())
}

#[test]
fn each_status_has_its_line(rt: HostRuntime) -> Result<(), Fail> {
    let usage: &[u8] = b"usage\n";
    let rows: [Row<'_>; 15] = [
        (&["build", "M.fc"], HEADER, 0, b"built M\n", b""),
        (&["why", "M.fc"], HEADER, 0, LOG, b""),
        (
            &["why", "--small=5", "--grow", "40", "M.fc"],
            HEADER,
            0,
            LOG,
            b"",
        ),
        (&["lint", "M.fc"], HEADER, 0, b"ok M\n", b""),
        (
            &["build", "--out", "b/", "--ticks=0", "M.fc"],
            HEADER,
            0,
            b"built M\n",
            b"",
        ),
        (
            &["build", "C.fc"],
            HEADER,
            1,
            b"",
            b"refused 10 Missing C.fc - -\n",
        ),
        (
            &["why", "C.fc"],
            HEADER,
            1,
            b"",
            b"refused 10 Missing C.fc - -\n",
        ),
        (
            &["lint", "C.fc"],
            HEADER,
            1,
            b"",
            b"refused 10 Missing C.fc - -\n",
        ),
        (
            &["build", "M.fc", "C.fc"],
            HEADER,
            1,
            b"",
            b"refused 10 Missing C.fc - -\n",
        ),
        (&["build"], HEADER, 2, b"", usage),
        (&["build", "-M.fc"], HEADER, 2, b"", usage),
        (
            &["build", "--small", "10", "--grow", "5", "M.fc"],
            HEADER,
            2,
            b"",
            usage,
        ),
        (&["lint", "--ticks", "5", "M.fc"], HEADER, 2, b"", usage),
        (&["why", "--out", "b/", "M.fc"], HEADER, 2, b"", usage),
        (&["--help", "build"], HEADER, 2, b"", usage),
    ];
    are_as_told(&rt, rt.alloc(), rows.as_slice())
}

/// Whether a name holds these bytes after a run, or nothing where none are given. Fails where that cannot be read.
fn holds(alloc: Global, ran: &mut Ran, name: &str, bytes: Option<&[u8]>) -> Result<bool, Fail> {
    let most = Limits::standard().file_bytes as u64;
    match ran.files.read(alloc, name, most) {
        ReadAnswer::Ok(found) => match bytes {
            Some(bytes) => Ok(found.as_slice() == bytes),
            None => Ok(false),
        },
        ReadAnswer::Absent => Ok(bytes.is_none()),
        ReadAnswer::TooLong => Err("too long a file".into()),
        ReadAnswer::Failed => Err("a failed read".into()),
        ReadAnswer::Memory => Err("no memory".into()),
    }
}

#[test]
fn empty_module_is_written(rt: HostRuntime) -> Result<(), Fail> {
    let alloc = rt.alloc();
    let mut ran = run_over(&rt, alloc, &["build", "M.fc"], HEADER, &SOUND)?;
    let core: &[u8] = b"(module M (imports) (exports))\n";
    assert!(rt; holds(alloc, &mut ran, "./M.opt.fc", Some(core))?);
    let interface: &[u8] = b"(interface 1 M (imports) (exports))\n";
    assert!(rt; holds(alloc, &mut ran, "./M.fci", Some(interface))?);
    Ok(())
}

#[test]
fn a_fault_of_form_stands_at_the_first_token_that_cannot_go_on(
    rt: HostRuntime,
) -> Result<(), Fail> {
    let alloc = rt.alloc();
    let cases: [(&[u8], u32); 20] = [
        // a module name has no quote
        (b"(module M' (imports) (exports))", 8),
        // a definition has a lower name
        (b"(module M (imports) (exports) (def X T 1#))", 35),
        // a word of a form is no name
        (b"(module M (imports) (exports) (def con T 1#))", 35),
        // a type has an upper name
        (b"(module M (imports) (exports) (data t ()))", 36),
        // a field is a type
        (
            b"(module M (imports) (exports) (data T () (K () (con K))))",
            48,
        ),
        // no result
        (b"(module M (imports) (exports) (def x (fun T) y))", 43),
        // no argument
        (b"(module M (imports) (exports) (def x T (app y)))", 45),
        // no binder
        (b"(module M (imports) (exports) (def x T (lam () y)))", 45),
        // no type at a binder
        (
            b"(module M (imports) (exports) (def x T (lam ((y)) y)))",
            47,
        ),
        // two right sides
        (
            b"(module M (imports) (exports) (def x T (let (y T z z) y)))",
            51,
        ),
        // of a case, no binder
        (
            b"(module M (imports) (exports) (def f T (case k T (default k))))",
            47,
        ),
        // no type of the binder
        (
            b"(module M (imports) (exports) (def f T (case k (y) T (default k))))",
            49,
        ),
        // no type of the whole
        (
            b"(module M (imports) (exports) (def f T (case k (y T) (default k))))",
            54,
        ),
        // of an alternative, no answer
        (
            b"(module M (imports) (exports) (def f T (case k (y T) T (default))))",
            63,
        ),
        // two answers
        (
            b"(module M (imports) (exports) (def f T (case k (y T) T (default k k))))",
            66,
        ),
        // no bracket for its binders
        (
            b"(module M (imports) (exports) (def f T (case k (y T) T (K k))))",
            58,
        ),
        // a lower word
        (
            b"(module M (imports) (exports) (def f T (case k (y T) T (z () k))))",
            56,
        ),
        // no word
        (
            b"(module M (imports) (exports) (def f T (case k (y T) T (() k))))",
            56,
        ),
        // no bracket
        (
            b"(module M (imports) (exports) (def f T (case k (y T) T k)))",
            55,
        ),
        // no end
        (b"(module M (imports", 18),
    ];
    for (text, at) in cases {
        let ran = run_over(&rt, alloc, &["lint", "M.fc"], text, &SOUND)?;
        let line = format!(in alloc; "refused 3 BadForm M.fc - @{at}\n")?;
        assert_eq!(rt; ran.err.bytes(), line.as_bytes());
        assert_eq!(rt; ran.status, 1);
    }
    Ok(())
}

#[test]
fn a_module_is_refused_as_a_whole_behind_its_form_and_before_its_names(
    rt: HostRuntime,
) -> Result<(), Fail> {
    let alloc = rt.alloc();
    let cases: [(&[u8], &[u8]); 8] = [
        // an import of a module that is not in the set
        (
            b"(module M (imports N) (exports))",
            b"refused 12 ImportUnknown M - -\n",
        ),
        // one of the module itself
        (
            b"(module M (imports M) (exports))",
            b"refused 13 ImportCycle M - -\n",
        ),
        // an import that is not in the set counts before one of the module itself
        (
            b"(module M (imports M N) (exports))",
            b"refused 12 ImportUnknown M - -\n",
        ),
        // a coercion that a constructor takes none of, and one that a function does not take
        (
            b"(module M (imports) (exports) (data T () (K ())) (def x T (con K (co (refl R T)))))",
            b"refused 58 ConArity M x 1\n",
        ),
        (
            b"(module M (imports) (exports) (data T () (K ())) (def x T (lam ((co c R T T)) x)))",
            b"refused 63 DefType M x -\n",
        ),
        // imports count before names
        (
            b"(module M (imports N) (exports) (def x T (cast x c)))",
            b"refused 12 ImportUnknown M - -\n",
        ),
        (
            b"(module M (imports) (exports) (def f T (cast x c)))",
            b"refused 20 Unbound M f 0\n",
        ),
        // a name in a module that is not imported
        (
            b"(module M (imports) (exports) (data T () (K ())) (def f T A.x))",
            b"refused 20 Unbound M f 1\n",
        ),
    ];
    for (text, line) in cases {
        let ran = run_over(&rt, alloc, &["lint", "M.fc"], text, &SOUND)?;
        assert_eq!(rt; ran.err.bytes(), line);
        assert_eq!(rt; ran.status, 1);
    }
    Ok(())
}

#[test]
fn each_fault_has_its_number_and_place(rt: HostRuntime) -> Result<(), Fail> {
    let alloc = rt.alloc();
    let cases: [(&[u8], &[u8]); 30] = [
        // of bytes, form and limits
        (
            b"\x80(module M (imports) (exports))",
            b"1 BadByte M.fc - @0",
        ),
        (
            b"(module M (imports) (exports) 'a)",
            b"2 BadToken M.fc - @30",
        ),
        (
            b"(module M (imports) (exports) (data T () (K () T T T T T T T T T T T T T T T T T)))",
            b"6 TooMany M.fc - @30",
        ),
        (
            b"(module M (imports) (exports Int f) (data Int () (I# () Int#)) (def f Int (con I# 9223372036854775808#)))",
            b"7 LiteralRange M.fc - @82",
        ),
        // of names
        (
            b"(module M (imports) (exports) (data Int () (I# () Int#)) (def f Int x))",
            b"20 Unbound M f 1",
        ),
        (
            b"(module M (imports) (exports) (data Int () (I# () Zz)))",
            b"20 Unbound M Int 0.0",
        ),
        (
            b"(module M (imports) (exports) (data T ()) (def f T f) (def f T f))",
            b"21 Duplicate M f -",
        ),
        (
            b"(module M (imports) (exports) (data T () (K ()) (K ())))",
            b"21 Duplicate M T 1",
        ),
        (
            b"(module M (imports) (exports f))",
            b"23 ExportUnknown M - -",
        ),
        (
            b"(module M (imports) (exports) (hidden K))",
            b"23 ExportUnknown M - -",
        ),
        // of terms
        (
            b"(module M (imports) (exports) (data Int () (I# () Int#)) (def f Int (con I# f)))",
            b"50 ArgType M f 1",
        ),
        (
            b"(module M (imports) (exports) (data Int () (I# () Int#)) (def f Int (app f f)))",
            b"51 NotFunction M f 1",
        ),
        (
            b"(module M (imports) (exports) (data Int () (I# () Int#)) (def f Int (app f (type Int))))",
            b"52 NotForall M f 1",
        ),
        (
            b"(module M (imports) (exports) (data Int () (I# () Int#)) (def f Int (let (n Int# (case f (m Int) Int# (I# ((k Int#)) k))) (con I# n))))",
            b"53 UnliftedNotAtom M f 1.0",
        ),
        (
            b"(module M (imports) (exports) (data Int () (I# () Int#)) (def f Int (case 0# (x Int#) Int (default x))))",
            b"55 AltType M f 1.3",
        ),
        (
            b"(module M (imports) (exports) (data Int () (I# () Int#)) (def f Int (case 0# (x Int#) Int (1# f) (0# f))))",
            b"56 AltOrder M f 1.4",
        ),
        (
            b"(module M (imports) (exports) (data Int () (I# () Int#)) (data U () (V ())) (def f Int (case f (x Int) Int (V () f))))",
            b"57 AltConstructor M f 1.3",
        ),
        (
            b"(module M (imports) (exports) (data Int () (I# () Int#)) (def f Int (con I#)))",
            b"58 ConArity M f 1",
        ),
        (
            b"(module M (imports) (exports) (data Int () (I# () Int#)) (def f Int (case f (x Int#) Int (default f))))",
            b"59 ScrutineeType M f 1",
        ),
        (
            b"(module M (imports) (exports) (data Int () (I# () Int#)) (def f Int (join Int (j () f) (case (jump j) (x Int) Int (default x)))))",
            b"60 JumpNotTail M f 1.2.0",
        ),
        (
            b"(module M (imports) (exports) (data Int () (I# () Int#)) (def f Int (join Int (j () f) (jump j f))))",
            b"61 JumpArity M f 1.2",
        ),
        (
            b"(module M (imports) (exports) (data Int () (I# () Int#)) (def f Int (join Int (j ((type a *) (x a)) x) f)))",
            b"62 EscapingType M f 1.1",
        ),
        (
            b"(module M (imports) (exports) (data Int () (I# () Int#)) (def f Int 0#))",
            b"63 DefType M f -",
        ),
        (
            b"(module M (imports) (exports) (data Int () (I# () Int#)) (def f Int (let (x Int 0#) x)))",
            b"64 LetType M f 1.0",
        ),
        (
            b"(module M (imports) (exports) (data Int () (I# () Int#)) (def f Int (prim +# 0#)))",
            b"65 PrimArity M f 1",
        ),
        (
            b"(module M (imports) (exports) (data Int () (I# () Int#)) (def f Int (case f (x Int) Int (0# x))))",
            b"66 LitAlt M f 1.3",
        ),
        (
            b"(module M (imports) (exports) (def f Int# 0#))",
            b"67 UnliftedTop M f -",
        ),
        // the first of several: bytes before form, form before names, names before exports, exports before types
        (
            b"(module M (imports) (imports) \x80)",
            b"1 BadByte M.fc - @30",
        ),
        (
            b"(module M (imports) (exports zz) (def f T f))",
            b"20 Unbound M f 0",
        ),
        (
            b"(module M (imports) (exports zz) (def f Int# 0#))",
            b"23 ExportUnknown M - -",
        ),
    ];
    for (text, fault) in cases {
        let ran = run_over(&rt, alloc, &["lint", "M.fc"], text, &SOUND)?;
        let mut line = Vec::from_slice(alloc, b"refused ")?;
        line.extend_from_slice(fault)?;
        line.push(b'\n')?;
        assert_eq!(rt; ran.err.bytes(), line.as_slice());
        assert_eq!(rt; ran.status, 1);
        assert_eq!(rt; ran.out.bytes(), b"".as_slice());
    }
    Ok(())
}

#[test]
fn the_greatest_literals_and_counts_are_accepted(rt: HostRuntime) -> Result<(), Fail> {
    let lint: &[&str] = &["lint", "M.fc"];
    let ok: &[u8] = b"ok M\n";
    let rows: [Row<'_>; 3] = [
        (
            lint,
            b"(module M (imports) (exports Int f) (data Int () (I# () Int#)) (def f Int (con I# 9223372036854775807#)))",
            0,
            ok,
            b"",
        ),
        (
            lint,
            b"(module M (imports) (exports) (data T () (K () Int#)) (def f T (con K -9223372036854775808#)))",
            0,
            ok,
            b"",
        ),
        // sixteen fields
        (
            lint,
            b"(module M (imports) (exports) (data T () (K () T T T T T T T T T T T T T T T T)))",
            0,
            ok,
            b"",
        ),
    ];
    are_as_told(&rt, rt.alloc(), rows.as_slice())
}

#[test]
fn six_hundred_arguments_of_a_function_type_are_too_deep(rt: HostRuntime) -> Result<(), Fail> {
    let alloc = rt.alloc();
    let mut text = Vec::from_slice(alloc, b"(module M (imports) (exports) (def f (fun")?;
    for _ in 0..600 {
        text.extend_from_slice(b" Int#")?;
    }
    text.extend_from_slice(b") 0#))")?;
    let row: Row<'_> = (
        &["build", "M.fc"],
        &text,
        1,
        b"",
        b"refused 4 TooDeep M.fc - @30\n",
    );
    are_as_told(&rt, alloc, &[row])
}

#[test]
fn a_byte_more_than_a_file_may_have_is_too_long(rt: HostRuntime) -> Result<(), Fail> {
    let alloc = rt.alloc();
    let mut text = vec![in alloc; b' '; Limits::standard().file_bytes as usize]?;
    let form: Row<'_> = (
        &["build", "M.fc"],
        &text,
        1,
        b"",
        b"refused 3 BadForm M.fc - @4194304\n",
    );
    are_as_told(&rt, alloc, &[form])?;
    text.push(b' ')?;
    let long: Row<'_> = (
        &["build", "M.fc"],
        &text,
        1,
        b"",
        b"refused 5 TooLong M.fc - @4194304\n",
    );
    are_as_told(&rt, alloc, &[long])
}

#[test]
fn lint_and_why_write_no_file(rt: HostRuntime) -> Result<(), Fail> {
    let alloc = rt.alloc();
    for command in ["lint", "why"] {
        let mut ran = run_over(&rt, alloc, &[command, "M.fc"], HEADER, &SOUND)?;
        assert_eq!(rt; ran.status, 0);
        assert!(rt; holds(alloc, &mut ran, "./M.opt.fc", None)?);
        assert!(rt; holds(alloc, &mut ran, "./M.fci", None)?);
        assert!(rt; holds(alloc, &mut ran, "./M.why", None)?);
    }
    Ok(())
}

#[test]
fn a_prefix_stands_before_the_names_of_files(rt: HostRuntime) -> Result<(), Fail> {
    let alloc = rt.alloc();
    let words: &[&str] = &["build", "--out", "made/x-", "M.fc"];
    let mut ran = run_over(&rt, alloc, words, HEADER, &SOUND)?;
    let core: &[u8] = b"(module M (imports) (exports))\n";
    assert!(rt; holds(alloc, &mut ran, "made/x-M.opt.fc", Some(core))?);
    let interface: &[u8] = b"(interface 1 M (imports) (exports))\n";
    assert!(rt; holds(alloc, &mut ran, "made/x-M.fci", Some(interface))?);
    assert!(rt; !holds(alloc, &mut ran, "made/x-M.why", None)?);
    assert!(rt; holds(alloc, &mut ran, "./M.opt.fc", None)?);
    Ok(())
}

#[test]
fn declarations_are_written(rt: HostRuntime) -> Result<(), Fail> {
    let alloc = rt.alloc();
    let text =
        b"(module M (imports) (exports T x)\n(hidden K) (data T () (K ()) (P () T Int#))\n; a comment\n(def x T y) (def y T (con P (con K) -007#)))";
    let mut ran = run_over(&rt, alloc, &["build", "M.fc"], text, &SOUND)?;
    assert_eq!(rt; ran.status, 0);
    let core: &[u8] =
        b"(module M (imports) (exports T x) (hidden K P y)\n (data T () (K ()) (P () T Int#))\n (def x T y)\n (def y T (con P (con K) -7#)))\n";
    assert!(rt; holds(alloc, &mut ran, "./M.opt.fc", Some(core))?);
    let interface: &[u8] =
        b"(interface 1 M (imports) (exports T x) (hidden K P y)\n (data T () (K ()) (P () T Int#))\n (value x T (sig) (def y))\n (value y T (sig) (def (con P (con K) -7#))))\n";
    assert!(rt; holds(alloc, &mut ran, "./M.fci", Some(interface))?);
    Ok(())
}

#[test]
fn cases_are_written(rt: HostRuntime) -> Result<(), Fail> {
    let alloc = rt.alloc();
    let text =
        b"(module M (imports) (exports f) (data P () (L ()) (N () Int# P))\n(def f (fun P Int# P) (lam ((x P) (k Int#)) (case x (y P) P\n (default (case k (m Int#) P (default y) (-01# x) (007# x))) (N ((n Int#) (p P)) (con N n p))))))";
    let mut ran = run_over(&rt, alloc, &["build", "M.fc"], text, &SOUND)?;
    assert_eq!(rt; ran.status, 0);
    let core: &[u8] =
        b"(module M (imports) (exports f) (hidden P L N)\n (data P () (L ()) (N () Int# P))\n (def f (fun P Int# P) (lam ((x P) (k Int#)) (case x (y P) P (default (case k (m Int#) P (default y) (-1# x) (7# x))) (N ((n Int#) (p P)) (con N n p))))))\n";
    assert!(rt; holds(alloc, &mut ran, "./M.opt.fc", Some(core))?);
    Ok(())
}

#[test]
fn functions_are_written(rt: HostRuntime) -> Result<(), Fail> {
    let alloc = rt.alloc();
    let text =
        b"(module M (imports) (exports compose y) (data T () (K ())) (def compose (fun (fun T T) (fun (fun T T) (fun T T))) (lam ((f (fun T T))) (lam ((g (fun T T)) (x T)) (app f (app g x)))))\n(def y T (let (z T (con K)) (app (app (app compose (lam ((x T)) x)) (lam ((x T)) z)) z))))";
    let mut ran = run_over(&rt, alloc, &["build", "M.fc"], text, &SOUND)?;
    assert_eq!(rt; ran.status, 0);
    let core: &[u8] =
        b"(module M (imports) (exports compose y) (hidden T K)\n (data T () (K ()))\n (def compose (fun (fun T T) (fun T T) T T) (lam ((f (fun T T)) (g (fun T T)) (x T)) (app f (app g x))))\n (def y T (let (z T (con K)) (app compose (lam ((x T)) x) (lam ((x T)) z) z))))\n";
    assert!(rt; holds(alloc, &mut ran, "./M.opt.fc", Some(core))?);
    let interface: &[u8] =
        b"(interface 1 M (imports) (exports compose y) (hidden T K)\n (data T () (K ()))\n (value compose (fun (fun T T) (fun T T) T T) (sig) (def (lam ((f (fun T T)) (g (fun T T)) (x T)) (app f (app g x)))))\n (value y T (sig) (def (let (z T (con K)) (app compose (lam ((x T)) x) (lam ((x T)) z) z)))))\n";
    assert!(rt; holds(alloc, &mut ran, "./M.fci", Some(interface))?);
    Ok(())
}

#[test]
fn polymorphic_functions_are_written(rt: HostRuntime) -> Result<(), Fail> {
    let alloc = rt.alloc();
    let text =
        b"(module Id (imports) (exports id) (def id (forall (a *) (fun a a)) (lam ((type a *)) (lam ((x a)) x))))";
    let mut ran = run_over(&rt, alloc, &["build", "M.fc"], text, &SOUND)?;
    assert_eq!(rt; ran.status, 0);
    assert_eq!(rt; ran.out.bytes(), b"built Id\n".as_slice());
    let core: &[u8] =
        b"(module Id (imports) (exports id)\n (def id (forall (a *) (fun a a)) (lam ((type a *) (x a)) x)))\n";
    assert!(rt; holds(alloc, &mut ran, "./Id.opt.fc", Some(core))?);
    let interface: &[u8] =
        b"(interface 1 Id (imports) (exports id)\n (value id (forall (a *) (fun a a)) (sig) (def (lam ((type a *) (x a)) x))))\n";
    assert!(rt; holds(alloc, &mut ran, "./Id.fci", Some(interface))?);
    Ok(())
}

#[test]
fn loops_are_written(rt: HostRuntime) -> Result<(), Fail> {
    let alloc = rt.alloc();
    let text =
        b"(module M (imports) (exports f)\n(wrap f (fun Int# Int#) (lam ((n Int#)) (joinrec Int# ((go ((k Int#)) (case (prim ># k 09#) (b Int#) Int# (default k) (0# (case (prim +# k 1#) (m Int#) Int# (default (jump go m))))))) (jump go n)))))";
    let mut ran = run_over(&rt, alloc, &["build", "M.fc"], text, &SOUND)?;
    assert_eq!(rt; ran.status, 0);
    let core: &[u8] =
        b"(module M (imports) (exports f)\n (wrap f (fun Int# Int#) (lam ((n Int#)) (joinrec Int# ((go ((k Int#)) (case (prim ># k 9#) (b Int#) Int# (default k) (0# (case (prim +# k 1#) (m Int#) Int# (default (jump go m))))))) (jump go n)))))\n";
    assert!(rt; holds(alloc, &mut ran, "./M.opt.fc", Some(core))?);
    let interface: &[u8] =
        b"(interface 1 M (imports) (exports f)\n (value f (fun Int# Int#) (sig) (wrap (lam ((n Int#)) (joinrec Int# ((go ((k Int#)) (case (prim ># k 9#) (b Int#) Int# (default k) (0# (case (prim +# k 1#) (m Int#) Int# (default (jump go m))))))) (jump go n))))))\n";
    assert!(rt; holds(alloc, &mut ran, "./M.fci", Some(interface))?);
    Ok(())
}

#[test]
fn right_sides_are_told_up_to_the_bound(rt: HostRuntime) -> Result<(), Fail> {
    let alloc = rt.alloc();
    let text =
        b"(module M (imports) (exports f g h w) (data T () (K ())) (def f T g) (def g T f) (def h (fun T T) (lam ((f T)) f)) (wrap w T (app h w)))";
    let front =
        "(interface 1 M (imports) (exports f g h w) (hidden T K)\n (data T () (K ()))\n (value f T (sig) none)\n (value g T (sig) none)\n ";
    let cases: [(&str, &str); 5] = [
        (
            "0",
            "(value h (fun T T) (sig) none)\n (value w T (sig) none))\n",
        ),
        (
            "1",
            "(value h (fun T T) (sig) none)\n (value w T (sig) none))\n",
        ),
        (
            "2",
            "(value h (fun T T) (sig) (def (lam ((f T)) f)))\n (value w T (sig) none))\n",
        ),
        (
            "3",
            "(value h (fun T T) (sig) (def (lam ((f T)) f)))\n (value w T (sig) (wrap (app h w))))\n",
        ),
        (
            "10000",
            "(value h (fun T T) (sig) (def (lam ((f T)) f)))\n (value w T (sig) (wrap (app h w))))\n",
        ),
    ];
    for (grow, back) in cases {
        let words: &[&str] = &["build", "--small", "0", "--grow", grow, "M.fc"];
        let mut ran = run_over(&rt, alloc, words, text, &SOUND)?;
        let mut interface = String::from_str(alloc, front)?;
        interface.push_str(back)?;
        assert!(rt;
            holds(
                alloc,
                &mut ran,
                "./M.fci",
                Some(interface.as_str().as_bytes())
            )?,
            "{grow}"
        );
    }
    Ok(())
}

/// Files that have no memory to read with.
#[derive(Drop)]
struct NoMemory;

impl Files for NoMemory {
    ghost held = { λ _. None };

    ghost read_faults = { λ _. 0 };

    ghost write_faults = { λ _. 0 };

    fn read(&mut self, _alloc: Global, _name: &str, _most: u64) -> ReadAnswer {
        ReadAnswer::Memory
    }

    fn write(&mut self, _alloc: Global, _name: &str, _bytes: &[u8]) -> WriteAnswer {
        WriteAnswer::Memory
    }
}

#[test]
fn out_of_memory_is_told(rt: HostRuntime) -> Result<(), Fail> {
    let alloc = rt.alloc();
    let words = vec![in alloc;
        String::from_str(alloc, "build")?,
        String::from_str(alloc, "M.fc")?,
    ]?;
    let mut out = MemSink::new(vec![in alloc; 0; 100]?, Vec::new(alloc));
    let mut err = MemSink::new(vec![in alloc; 0; 100]?, Vec::new(alloc));
    let status = run(alloc, words.as_slice(), &mut NoMemory, &mut out, &mut err);
    assert_eq!(rt; status, 5);
    assert_eq!(rt; err.bytes(), b"out of memory\n".as_slice());
    assert_eq!(rt; out.bytes(), b"".as_slice());
    Ok(())
}
