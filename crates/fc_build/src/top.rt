//! The top call.
ghost use Rattle.std.specs.Prelude.{◌≡◌, ◌≤◌, ◌⊎◌, List, Some, None, IfSome};
ghost use Rattle.fc_files.specs.Outside.{Rose};
ghost use Rattle.fc_syntax.specs.Tree.{Module as ModuleTree};
ghost use Rattle.fc_syntax.specs.declared.fault.Fault.{Fault};
ghost use Rattle.fc_build.specs.Acceptance.{Accepted, FirstFault};
ghost use Rattle.fc_words.specs.Asking.{Asked, asked, texts};
ghost use Rattle.fc_words.specs.Plain.{IsPlain};
ghost use Rattle.fc_build.specs.Building.{IsReading};
ghost use Rattle.fc_build.specs.Delivering.{IsSameDevice};
ghost use Rattle.fc_build.specs.Lines.{Gets, usage_line};
ghost use Rattle.fc_build.specs.Preparing.{files_in};
ghost use Rattle.fc_build.specs.Run.{IsDone, IsMemoryEnd, IsReadFault, IsRefused, IsSilent, IsUntouched, IsWriteFault};

use crate::deliver::deliver;
use crate::lines::{tell_delivery, tell_stop};
use crate::prepare::prepare;
use fc_files::{Files, Sink};
use std::alloc::Global;

/// Does what the words of a command line ask, over any files and streams, and answers the status of the program.
///
/// `build` reads all modules of a set, in the order of the words, judges them, and only then writes the canonical text and the interface of
/// each, in the order in which they are built, and puts `built` with its name on `out` behind its files. `why` reads and judges alike, writes nothing, and
/// puts the log of each on `out`. `lint` reads and judges alike, writes nothing, and puts `ok` with the name of each. The statuses are 0 done, 1 refused, 2 usage, 3 a read failed, 4 a write or a put on
/// `out` failed, 5 out of memory; each but 0 puts one line on `err`, or a prefix of it where a put there fails, and 0 puts nothing there.
pub fn run<F: Files, O: Sink, E: Sink>(
    alloc: Global,
    words: &[String],
    files: &mut F,
    out: &mut O,
    err: &mut E,
) -> u8
    ensures known { result ≤ 5 }

    // 0: the set is accepted, the files are those before with the files of all modules put in, so that they hold modules faithful to those that were read,
    // and the lines are put
    ensures done { result ≡ 0 → IsDone (texts words.now) (F.held files.old) (F.held files.new) (O.taken out.old) (O.taken out.new) }
    ensures silent { result ≡ 0 → IsSilent (E.taken err.old) (E.taken err.new) (E.faults err.old) (E.faults err.new) }

    // 1: the set is not accepted, and the line names its first fault
    ensures refused { result ≡ 1 → IsRefused (texts words.now) (F.held files.old) (E.taken err.old) (E.taken err.new) (E.faults err.old) (E.faults err.new) }

    // 2: only where the words ask for nothing, and there 2 or 5; never on plain words
    ensures usage { result ≡ 2 → asked (texts words.now) ≡ None }
    ensures usage_back { asked (texts words.now) ≡ None → (result ≡ 2) ⊎ (result ≡ 5) }
    ensures plain { IsPlain (texts words.now) → result ≡ 2 → ⊥ }
    ensures usage_says { result ≡ 2 → Gets usage_line (E.faults err.old) (E.faults err.new) (E.taken err.old) (E.taken err.new) }

    // 3: only where the count of failed reads rose
    ensures read_fault { result ≡ 3 → IsReadFault (texts words.now) (F.held files.old) (F.read_faults files.old) (F.read_faults files.new) (E.taken err.old) (E.taken err.new) (E.faults err.old) (E.faults err.new) }

    // 4: only where the count of failed writes, or of failed puts, rose; a prefix of the work stands
    ensures write_fault { result ≡ 4 → IsWriteFault (texts words.now) (F.held files.old) (F.held files.new) (F.write_faults files.old) (F.write_faults files.new) (O.taken out.old) (O.taken out.new) (O.faults out.old) (O.faults out.new) (E.taken err.old) (E.taken err.new) (E.faults err.old) (E.faults err.new) }

    // 5: free before the last line is put; a prefix of the work stands
    ensures memory { result ≡ 5 → IsMemoryEnd (texts words.now) (F.held files.old) (F.held files.new) (O.taken out.old) (O.taken out.new) (E.taken err.old) (E.taken err.new) (E.faults err.old) (E.faults err.new) }

    // on 1, 2 and 3 no file was written and nothing was put
    ensures untouched { (result ≡ 1) ⊎ ((result ≡ 2) ⊎ (result ≡ 3)) → IsUntouched (F.held files.old) (F.held files.new) (F.write_faults files.old) (F.write_faults files.new) (O.taken out.old) (O.taken out.new) (O.faults out.old) (O.faults out.new) }

    // an explanation and Lint write no file, whatever the answer
    ensures writes_nothing { (a : Asked) → asked (texts words.now) ≡ Some a → IsReading a.order
        → IsSameDevice (F.held files.old) (F.held files.new) (F.write_faults files.old) (F.write_faults files.new) }

    // a set with a fault is refused, where no read failed
    ensures complete_refused { (a : Asked) → asked (texts words.now) ≡ Some a → (Rose (F.read_faults files.old) (F.read_faults files.new) → ⊥)
        → IfSome (F.held files.old) (λ m. (fault : Fault) → FirstFault (files_in a) m fault → (result ≡ 1) ⊎ (result ≡ 5)) }

    // an accepted set is done, where no count rose
    ensures complete { (a : Asked) → asked (texts words.now) ≡ Some a → (Rose (F.read_faults files.old) (F.read_faults files.new) → ⊥)
        → (Rose (F.write_faults files.old) (F.write_faults files.new) → ⊥) → (Rose (O.faults out.old) (O.faults out.new) → ⊥)
        → IfSome (F.held files.old) (λ m. (set : List ModuleTree) → Accepted (files_in a) m set → (result ≡ 0) ⊎ (result ≡ 5)) }

    ensures reads_later { F.read_faults files.old ≤ F.read_faults files.new }
    ensures writes_later { F.write_faults files.old ≤ F.write_faults files.new }
    ensures puts_later { O.faults out.old ≤ O.faults out.new }
    ensures err_later { E.faults err.old ≤ E.faults err.new }
{
    let steps = match prepare(alloc, words, files) {
        Ok(steps) => steps,
        Err(stop) => return tell_stop(err, &stop),
    };
    let delivery = deliver(alloc, files, out, steps.as_slice());
    tell_delivery(err, delivery)
}
