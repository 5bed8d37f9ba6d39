//! Sets of as many modules as there may be, and of one more.
use fc_build::run;
use fc_files::{MemFiles, MemSink, has_distinct_names};
use std::alloc::Global;
use std::process::Abort;
use std::test::Fail;

/// Lints so many modules, each in a file of its own, and gives the status and the error stream.
fn lint_many(rt: &impl Abort, alloc: Global, count: usize) -> Result<(u8, MemSink), Fail> {
    let mut words = Vec::new(alloc);
    words.push(String::from_str(alloc, "lint")?)?;
    let mut entries = Vec::new(alloc);
    for number in 0..count {
        words.push(format!(in alloc; "M{number}.fc")?)?;
        let text = format!(in alloc; "(module M{number} (imports) (exports))")?;
        entries.push((format!(in alloc; "M{number}.fc")?, text.into_bytes()))?;
    }
    assert!(rt; has_distinct_names(&entries));
    let mut files = MemFiles::new(entries, Vec::new(alloc));
    let mut out = MemSink::new(vec![in alloc; 0; 4000]?, Vec::new(alloc));
    let mut err = MemSink::new(vec![in alloc; 0; 100]?, Vec::new(alloc));
    let status = run(alloc, words.as_slice(), &mut files, &mut out, &mut err);
    Ok((status, err))
}

#[test]
fn a_set_has_as_many_modules_as_it_may(rt: HostRuntime) -> Result<(), Fail> {
    let alloc = rt.alloc();
    let (status, err) = lint_many(&rt, alloc, 256)?;
    assert_eq!(rt; err.bytes(), b"".as_slice());
    assert_eq!(rt; status, 0);
    let (status, err) = lint_many(&rt, alloc, 257)?;
    assert_eq!(rt;
        err.bytes(),
        b"refused 14 TooManyModules M256.fc - -\n".as_slice()
    );
    assert_eq!(rt; status, 1);
    Ok(())
}
