//! Running out of memory: whichever allocation fails, a build answers 5 or as with ample memory. In the gate none fails; each fails in turn
//! under `rt try --test --fail-alloc N`, where the test here fails only if it has no memory for its own files, which it says, and no
//! assertion of it fails. (The other tests take memory to be ample.)
use super::{SOUND, holds, run_over};
use std::alloc::Global;
use std::process::Abort;
use std::test::Fail;

const TEXT: &[u8] =
    b"(module M (imports) (exports not) (data Bool () (False ()) (True ()))\n(def not (fun Bool Bool) (lam ((b Bool)) (case b (same Bool) Bool (default (con True)) (True () (con False))))))";

const CORE: &[u8] =
    b"(module M (imports) (exports not) (hidden Bool False True)\n (data Bool () (False ()) (True ()))\n (def not (fun Bool Bool) (lam ((b Bool)) (case b (same Bool) Bool (default (con True)) (True () (con False))))))\n";

const INTERFACE: &[u8] =
    b"(interface 1 M (imports) (exports not) (hidden Bool False True)\n (data Bool () (False ()) (True ()))\n (value not (fun Bool Bool) (sig) (def (lam ((b Bool)) (case b (same Bool) Bool (default (con True)) (True () (con False)))))))\n";

/// Builds the text. Fails where there is no memory for the files and streams of the test.
fn build(rt: &impl Abort, alloc: Global) -> Result<(), Fail> {
    let mut ran = run_over(rt, alloc, &["build", "M.fc"], TEXT, &SOUND)?;
    assert!(rt; holds(alloc, &mut ran, "M.fc", Some(TEXT))?);
    let core = holds(alloc, &mut ran, "./M.opt.fc", Some(CORE))?;
    let interface = holds(alloc, &mut ran, "./M.fci", Some(INTERFACE))?;
    let log = !holds(alloc, &mut ran, "./M.why", None)?;
    match ran.status {
        0 => {
            assert!(rt; core && interface && log);
            assert_eq!(rt; ran.out.bytes(), b"built M\n".as_slice());
            assert_eq!(rt; ran.err.bytes(), b"".as_slice());
        }
        status => {
            assert_eq!(rt; status, 5);
            assert!(rt; core || !interface);
            assert!(rt; interface || !log);
            assert_eq!(rt; ran.out.bytes(), b"".as_slice());
            assert_eq!(rt; ran.err.bytes(), b"out of memory\n".as_slice());
        }
    }
    Ok(())
}

#[test]
fn running_out_of_memory_changes_no_answer(rt: HostRuntime) -> Result<(), Fail> {
    build(&rt, rt.alloc())
}
