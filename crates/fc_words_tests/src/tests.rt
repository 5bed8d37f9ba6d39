//! Words, and what they ask for. Where the definitions leave it to clap, a row pins what clap does.
use fc_words::{Command, Request, Unasked, request_of};
use std::alloc::{AllocError, Global};
use std::process::Abort;
use std::test::Fail;

/// The words as a command line holds them.
fn words_of(alloc: Global, texts: &[&str]) -> Result<Vec<String>, AllocError> {
    let mut words = Vec::new(alloc);
    for text in texts {
        words.push(String::from_str(alloc, *text)?)?;
    }
    Ok(words)
}

/// Whether these are the files of the request, in this order.
fn has_files(request: &Request<'_>, files: &[&str]) -> bool {
    match files {
        [first, rest @ ..] => request.file == *first && request.others.as_slice() == rest,
        [] => false,
    }
}

/// What words ask for.
#[derive(Clone, Copy, Debug)]
enum Want<'a> {
    Build((u64, u64, u64), &'a str, &'a [&'a str]),
    Why((u64, u64, u64), &'a [&'a str]),
    Lint(&'a [&'a str]),
    Usage,
}

/// Whether the request is the one that is wanted.
fn is_wanted(request: &Request<'_>, want: Want<'_>) -> bool {
    match (request.command, want) {
        (Command::Build(tuning, folder), Want::Build(numbers, prefix, files)) => {
            (tuning.ticks, tuning.small, tuning.grow) == numbers
                && folder == prefix
                && has_files(request, files)
        }
        (Command::Why(tuning), Want::Why(numbers, files)) => {
            (tuning.ticks, tuning.small, tuning.grow) == numbers && has_files(request, files)
        }
        (Command::Lint, Want::Lint(files)) => has_files(request, files),
        _ => false,
    }
}

/// Expects what is wanted of the words.
fn expect(
    rt: &impl Abort,
    alloc: Global,
    texts: &[&str],
    want: Want<'_>,
) -> Result<(), AllocError> {
    let words = words_of(alloc, texts)?;
    let is_met = match request_of(alloc, &words) {
        Ok(request) => is_wanted(&request, want),
        Err(Unasked::Usage) => matches!(want, Want::Usage),
        Err(Unasked::Memory) => return Err(AllocError),
    };
    assert!(rt; is_met, "{texts:?}: {want:?}");
    Ok(())
}

/// Expects a build of the file `a` below the folder of the run, with these numbers.
fn expect_numbers(
    rt: &impl Abort,
    alloc: Global,
    rows: &[(&[&str], (u64, u64, u64))],
) -> Result<(), AllocError> {
    for (words, numbers) in rows {
        expect(rt, alloc, *words, Want::Build(*numbers, "./", &["a"]))?;
    }
    Ok(())
}

/// Expects a build with no option, of these files.
fn expect_files(
    rt: &impl Abort,
    alloc: Global,
    rows: &[(&[&str], &[&str])],
) -> Result<(), AllocError> {
    for (words, files) in rows {
        expect(
            rt,
            alloc,
            *words,
            Want::Build((2000, 30, 300), "./", *files),
        )?;
    }
    Ok(())
}

/// Expects that no row asks for anything.
fn expect_usage(rt: &impl Abort, alloc: Global, rows: &[&[&str]]) -> Result<(), AllocError> {
    for words in rows {
        expect(rt, alloc, *words, Want::Usage)?;
    }
    Ok(())
}

#[test]
fn numbers_are_read(rt: HostRuntime) -> Result<(), Fail> {
    let rows: [(&[&str], (u64, u64, u64)); 14] = [
        (&["build", "a"], (2000, 30, 300)),
        (&["build", "--ticks", "5", "a"], (5, 30, 300)),
        (&["build", "--ticks=5", "a"], (5, 30, 300)),
        (&["build", "--ticks", "0", "a"], (0, 30, 300)),
        (&["build", "--ticks=1000000", "a"], (1_000_000, 30, 300)),
        (&["build", "--small", "5", "a"], (2000, 5, 300)),
        (&["build", "--small=0", "a"], (2000, 0, 300)),
        (&["build", "--grow", "31", "a"], (2000, 30, 31)),
        (&["build", "--grow=10000", "a"], (2000, 30, 10_000)),
        (&["build", "--small=0", "--grow", "0", "a"], (2000, 0, 0)),
        (
            &["build", "--grow", "10000", "--small", "10000", "a"],
            (2000, 10_000, 10_000),
        ),
        (
            &["build", "--grow=7", "--ticks", "8", "--small=6", "a"],
            (8, 6, 7),
        ),
        // `small` may equal `grow`, each by its default.
        (&["build", "--small", "300", "a"], (2000, 300, 300)),
        (&["build", "--grow", "30", "a"], (2000, 30, 30)),
    ];
    expect_numbers(&rt, rt.alloc(), &rows)?;
    Ok(())
}

/// What the definitions leave to clap: it reads a number as Rust's `parse` does.
#[test]
fn numbers_of_other_forms_are_read(rt: HostRuntime) -> Result<(), Fail> {
    let rows: [(&[&str], (u64, u64, u64)); 6] = [
        (&["build", "--ticks", "007", "a"], (7, 30, 300)),
        (
            &["build", "--ticks=00000000000000000000000007", "a"],
            (7, 30, 300),
        ),
        (&["build", "--ticks", "+5", "a"], (5, 30, 300)),
        (&["build", "--ticks=+0", "a"], (0, 30, 300)),
        (&["build", "--small=+007", "a"], (2000, 7, 300)),
        (&["build", "--grow", "0300", "a"], (2000, 30, 300)),
    ];
    expect_numbers(&rt, rt.alloc(), &rows)?;
    Ok(())
}

#[test]
fn prefixes_are_read(rt: HostRuntime) -> Result<(), Fail> {
    let rows: [(&[&str], &str); 11] = [
        (&["build", "--out", "p/", "a"], "p/"),
        (&["build", "--out=p/", "a"], "p/"),
        (&["build", "--out", "build", "a"], "build"),
        (&["build", "a", "--out", "p"], "p"),
        (&["build", "--out", "5", "a"], "5"),
        // A prefix may be empty, and hold any byte; the first `=` ends the name of the option.
        (&["build", "--out=", "a"], ""),
        (&["build", "--out", "", "a"], ""),
        (&["build", "--out=a=b", "a"], "a=b"),
        (&["build", "--out", "é ü", "a"], "é ü"),
        // What the definitions leave to clap: behind a `=` a prefix may begin with a hyphen, and a lone hyphen is a value.
        (&["build", "--out=--ticks", "a"], "--ticks"),
        (&["build", "--out", "-", "a"], "-"),
    ];
    for (words, prefix) in rows {
        let want = Want::Build((2000, 30, 300), prefix, &["a"]);
        expect(&rt, rt.alloc(), words, want)?;
    }
    Ok(())
}

#[test]
fn files_are_read(rt: HostRuntime) -> Result<(), Fail> {
    let rows: [(&[&str], &[&str]); 13] = [
        (&["build", "a", "b"], &["a", "b"]),
        (&["build", "b", "a", "c", "a"], &["b", "a", "c", "a"]),
        (&["build", "build"], &["build"]),
        (&["build", "lint", "help"], &["lint", "help"]),
        (&["build", "a=b", "5"], &["a=b", "5"]),
        (&["build", "--", "a"], &["a"]),
        (
            &["build", "--", "-x", "--ticks", "5"],
            &["-x", "--ticks", "5"],
        ),
        (&["build", "a", "--", "b"], &["a", "b"]),
        (&["build", "a", "--", "--", "b"], &["a", "--", "b"]),
        (&["build", "--ticks=2000", "--", "--help"], &["--help"]),
        (
            &["build", "a", "--ticks=2000", "b", "--out", "./", "c"],
            &["a", "b", "c"],
        ),
        // What the definitions leave to clap: a lone hyphen is a name, and so is no text at all.
        (&["build", "-", "a"], &["-", "a"]),
        (&["build", "", "a"], &["", "a"]),
    ];
    expect_files(&rt, rt.alloc(), &rows)?;
    Ok(())
}

#[test]
fn options_stand_anywhere(rt: HostRuntime) -> Result<(), Fail> {
    let want = Want::Build((9, 8, 77), "p", &["a", "b"]);
    let rows: [&[&str]; 4] = [
        &[
            "build",
            "--ticks=9",
            "--small=8",
            "--grow=77",
            "--out=p",
            "a",
            "b",
        ],
        &[
            "build", "--out", "p", "--grow", "77", "--small", "8", "--ticks", "9", "a", "b",
        ],
        &[
            "build",
            "a",
            "b",
            "--small=8",
            "--ticks",
            "9",
            "--out=p",
            "--grow",
            "77",
        ],
        &[
            "build",
            "--grow=77",
            "a",
            "--out",
            "p",
            "--small=8",
            "b",
            "--ticks",
            "9",
        ],
    ];
    for words in rows {
        expect(&rt, rt.alloc(), words, want)?;
    }
    Ok(())
}

#[test]
fn whys_are_read(rt: HostRuntime) -> Result<(), Fail> {
    let rows: [(&[&str], (u64, u64, u64), &[&str]); 6] = [
        (&["why", "a"], (2000, 30, 300), &["a"]),
        (
            &["why", "--ticks", "7", "--grow=40", "--small", "2", "a", "b"],
            (7, 2, 40),
            &["a", "b"],
        ),
        (&["why", "a", "--ticks=7", "b"], (7, 30, 300), &["a", "b"]),
        (&["why", "--small", "300", "a"], (2000, 300, 300), &["a"]),
        (&["why", "why", "build"], (2000, 30, 300), &["why", "build"]),
        (
            &["why", "--", "--out", "x"],
            (2000, 30, 300),
            &["--out", "x"],
        ),
    ];
    for (words, numbers, files) in rows {
        expect(&rt, rt.alloc(), words, Want::Why(numbers, files))?;
    }
    Ok(())
}

#[test]
fn lints_are_read(rt: HostRuntime) -> Result<(), Fail> {
    let rows: [(&[&str], &[&str]); 6] = [
        (&["lint", "a"], &["a"]),
        (&["lint", "c", "a", "b"], &["c", "a", "b"]),
        (&["lint", "build", "lint"], &["build", "lint"]),
        (
            &["lint", "--", "-x", "--ticks", "5"],
            &["-x", "--ticks", "5"],
        ),
        (&["lint", "a", "--", "b"], &["a", "b"]),
        // What the definitions leave to clap: a lone hyphen is a name, and so is no text at all.
        (&["lint", "-", ""], &["-", ""]),
    ];
    for (words, files) in rows {
        expect(&rt, rt.alloc(), words, Want::Lint(files))?;
    }
    Ok(())
}

#[test]
fn small_may_not_be_above_grow(rt: HostRuntime) -> Result<(), Fail> {
    let rows: [&[&str]; 6] = [
        &["build", "--small", "301", "a"],
        &["build", "--grow", "29", "a"],
        &["build", "--grow=0", "a"],
        &["build", "--small=5", "--grow=4", "a"],
        &["build", "--grow", "9999", "--small", "10000", "a"],
        &["why", "--small", "5", "--grow", "4", "a"],
    ];
    expect_usage(&rt, rt.alloc(), &rows)?;
    Ok(())
}

#[test]
fn numbers_out_of_range_are_refused(rt: HostRuntime) -> Result<(), Fail> {
    let rows: [&[&str]; 8] = [
        &["build", "--ticks", "1000001", "a"],
        &["build", "--ticks=18446744073709551616", "a"],
        &["build", "--ticks=18446744073709551621", "a"],
        &["build", "--ticks", "100000000000000000000000000000005", "a"],
        &["build", "--grow", "10001", "a"],
        &["build", "--small=10001", "--grow=10001", "a"],
        &["build", "--ticks", "-1", "a"],
        &["build", "--ticks=-1", "a"],
    ];
    expect_usage(&rt, rt.alloc(), &rows)?;
    Ok(())
}

#[test]
fn values_that_are_no_number_are_refused(rt: HostRuntime) -> Result<(), Fail> {
    let values = [
        "", "x", "5x", "x5", " 5", "5 ", "0x5", "5.0", "1e3", "1_000", "1,000", "+", "-", "++5",
        "+-5", "-0", "٥", "５", "²",
    ];
    for value in values {
        expect(
            &rt,
            rt.alloc(),
            &["build", "--ticks", value, "a"],
            Want::Usage,
        )?;
        let joined = format!(in rt.alloc(); "--grow={value}")?;
        expect(
            &rt,
            rt.alloc(),
            &["build", joined.as_str(), "a"],
            Want::Usage,
        )?;
    }
    Ok(())
}

#[test]
fn an_option_stands_once(rt: HostRuntime) -> Result<(), Fail> {
    let rows: [&[&str]; 7] = [
        &["build", "--ticks", "5", "--ticks", "6", "a"],
        &["build", "--ticks=5", "--ticks=5", "a"],
        &["build", "--ticks=5", "a", "--ticks", "5"],
        &["build", "--small", "5", "--small=6", "a"],
        &["build", "--grow=35", "--grow", "36", "a"],
        &["build", "--out", "p", "--out", "q", "a"],
        &["build", "--out=p", "--out=p", "a"],
    ];
    expect_usage(&rt, rt.alloc(), &rows)?;
    Ok(())
}

#[test]
fn an_option_has_a_value(rt: HostRuntime) -> Result<(), Fail> {
    let rows: [&[&str]; 7] = [
        &["build", "--ticks"],
        &["build", "a", "--grow"],
        &["build", "a", "--out"],
        &["build", "--small", "--ticks", "5", "a"],
        &["build", "--out", "--ticks=5", "a"],
        &["build", "--out", "-p", "a"],
        &["build", "--out", "--", "a"],
    ];
    expect_usage(&rt, rt.alloc(), &rows)?;
    Ok(())
}

#[test]
fn other_options_are_refused(rt: HostRuntime) -> Result<(), Fail> {
    let options = [
        "--unknown",
        "--unknown=5",
        "--reuse",
        "--tick=5",
        "--tick",
        "--t=5",
        "--Ticks=5",
        "--ticks5",
        "--help",
        "--version",
        "--=5",
        "--files",
        "--files=b",
        "-x",
        "-h",
        "-V",
        "-t5",
        "-ticks=5",
        "---ticks=5",
        "--build",
        "--lint",
        "--why",
    ];
    for option in options {
        expect(&rt, rt.alloc(), &["build", option, "a"], Want::Usage)?;
        expect(&rt, rt.alloc(), &["build", "a", option], Want::Usage)?;
        expect(&rt, rt.alloc(), &["why", option, "a"], Want::Usage)?;
        expect(&rt, rt.alloc(), &["lint", option, "a"], Want::Usage)?;
        expect(&rt, rt.alloc(), &[option, "build", "a"], Want::Usage)?;
        expect(&rt, rt.alloc(), &[option], Want::Usage)?;
    }
    Ok(())
}

#[test]
fn a_lint_has_no_option_of_a_build(rt: HostRuntime) -> Result<(), Fail> {
    let rows: [&[&str]; 6] = [
        &["lint", "--ticks", "5", "a"],
        &["lint", "--ticks=5", "a"],
        &["lint", "a", "--small=5"],
        &["lint", "a", "--grow", "35"],
        &["lint", "--out", "p", "a"],
        &["lint", "--out=p", "a"],
    ];
    expect_usage(&rt, rt.alloc(), &rows)?;
    Ok(())
}

#[test]
fn a_why_has_no_place_of_what_is_written(rt: HostRuntime) -> Result<(), Fail> {
    let rows: [&[&str]; 3] = [
        &["why", "--out", "x", "a"],
        &["why", "--out=x", "a"],
        &["why", "a", "--out", "x"],
    ];
    expect_usage(&rt, rt.alloc(), &rows)?;
    Ok(())
}

#[test]
fn other_commands_are_refused(rt: HostRuntime) -> Result<(), Fail> {
    let names = [
        "wh", "whys", "WHY", "gen", "migrate", "check", "help", "coreopt", "buil", "b", "l",
        "builds", "Build", "LINT", "", "-", "--", "a", "5", " build", "build ",
    ];
    for name in names {
        expect(&rt, rt.alloc(), &[name], Want::Usage)?;
        expect(&rt, rt.alloc(), &[name, "a"], Want::Usage)?;
        expect(&rt, rt.alloc(), &[name, "build", "a"], Want::Usage)?;
    }
    Ok(())
}

#[test]
fn a_command_has_a_file(rt: HostRuntime) -> Result<(), Fail> {
    let rows: [&[&str]; 11] = [
        &["build"],
        &["why"],
        &["lint"],
        &["build", "--"],
        &["why", "--"],
        &["lint", "--"],
        &["build", "--ticks", "5"],
        &["why", "--ticks", "5"],
        &["build", "--ticks=5", "--small=4", "--grow=6", "--out=p"],
        &["build", "--out", "a"],
        &["build", "--out", "a", "--"],
    ];
    expect_usage(&rt, rt.alloc(), &rows)?;
    Ok(())
}

#[test]
fn no_words_ask_for_nothing(rt: HostRuntime) -> Result<(), Fail> {
    expect(&rt, rt.alloc(), &[], Want::Usage)?;
    Ok(())
}
