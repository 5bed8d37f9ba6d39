//! The files and streams in memory, each once, through its trait.
use fc_files::{
    CountSink, Files, MemFiles, MemSink, PutAnswer, ReadAnswer, Sink, SureFiles, WriteAnswer,
    has_distinct_names,
};
use std::alloc::{AllocError, Global};
use std::process::Abort;
use std::test::Fail;

/// Writes a file, and reads it back.
fn store<F: Files>(
    files: &mut F,
    alloc: Global,
    name: &str,
    bytes: &[u8],
) -> (WriteAnswer, ReadAnswer) {
    let written = files.write(alloc, name, bytes);
    (written, files.read(alloc, name, 3))
}

/// Whether a read gave these bytes, or failed where there are none.
fn gave(answer: &ReadAnswer, want: Option<&[u8]>) -> bool {
    match (answer, want) {
        (ReadAnswer::Ok(bytes), Some(want)) => bytes.as_slice() == want,
        (ReadAnswer::Failed, None) => true,
        _ => false,
    }
}

/// A file of each name, in this order, each with three bytes.
fn files_of(alloc: Global, names: &[&str]) -> Result<Vec<(String, Vec<u8>)>, AllocError> {
    let mut entries = Vec::new(alloc);
    for name in names {
        let bytes = b"one".to_vec(alloc)?;
        entries.push((String::from_str(alloc, *name)?, bytes))?;
    }
    Ok(entries)
}

#[test]
fn numbered_calls_fail(rt: HostRuntime) -> Result<(), Fail> {
    let alloc = rt.alloc();
    let cases: [(&[u64], WriteAnswer, Option<&[u8]>); 5] = [
        (&[], WriteAnswer::Ok, Some(b"new")),
        (&[1], WriteAnswer::Failed, Some(b"one")),
        (&[2], WriteAnswer::Ok, None),
        (&[2, 1], WriteAnswer::Failed, None),
        (&[0, 3], WriteAnswer::Ok, Some(b"new")),
    ];
    for (fails, want_written, want_read) in cases {
        let entries = files_of(alloc, &["a", "b"])?;
        assert!(rt; has_distinct_names(&entries));
        let mut files = MemFiles::new(entries, fails.to_vec(alloc)?);
        let (written, read) = store(&mut files, alloc, "b", b"new");
        assert_eq!(rt; written, want_written);
        assert!(rt; gave(&read, want_read));
    }
    Ok(())
}

#[test]
fn names_hold_what_was_written(rt: HostRuntime) -> Result<(), Fail> {
    let alloc = rt.alloc();
    let mut entries = files_of(alloc, &["a", "b", "ab", "b"])?;
    assert!(rt; !has_distinct_names(&entries));
    entries.truncate(3);
    assert!(rt; has_distinct_names(&entries));
    let mut files = SureFiles::new(entries);
    assert!(rt; matches!(files.read(alloc, "b", 2), ReadAnswer::TooLong));
    assert!(rt; gave(&store(&mut files, alloc, "a", b"two").1, Some(b"two")));
    assert!(rt; gave(&store(&mut files, alloc, "c", b"").1, Some(b"")));
    assert!(rt; gave(&files.read(alloc, "ab", 3), Some(b"one")));
    Ok(())
}

/// Gives the pieces to a stream, in turn, each with the answer that is wanted.
pub fn give<S: Sink>(rt: &impl Abort, sink: &mut S, pieces: &[(&[u8], PutAnswer)]) {
    for (piece, want) in pieces {
        assert_eq!(rt; sink.put(*piece), *want);
    }
}

#[test]
fn a_stream_takes_what_fits(rt: HostRuntime) -> Result<(), Fail> {
    let alloc = rt.alloc();
    let mut sink = MemSink::new(vec![in alloc; b'-'; 5]?, vec![in alloc; 2]?);
    let pieces: [(&[u8], PutAnswer); 5] = [
        (b"ab", PutAnswer::Ok),
        (b"x", PutAnswer::Failed),
        (b"cd", PutAnswer::Ok),
        (b"efg", PutAnswer::Failed),
        (b"", PutAnswer::Ok),
    ];
    give(&rt, &mut sink, &pieces);
    assert!(rt; sink.bytes() == b"abcde".as_slice());
    Ok(())
}

#[test]
fn bytes_are_counted(rt: HostRuntime) {
    let mut sink = CountSink::new();
    give(
        &rt,
        &mut sink,
        &[(b"ab", PutAnswer::Ok), (b"cde", PutAnswer::Ok)],
    );
    assert_eq!(rt; sink.count(), 5);
}
