//! Writes the files of modules and puts the lines for them.
ghost use Rattle.std.specs.Prelude.{◌≡◌, ◌≤◌, []};
ghost use Rattle.fc_build.specs.Delivering.{Delivers, DeliversStep, IsSameDevice, step_in, steps_in};
ghost use Rattle.fc_build.specs.Product.{all_files};

use crate::product::{Step, Written, write_all};
use fc_files::{Files, PutAnswer, Sink};
use std::alloc::Global;

/// How the writing and the putting ended.
#[derive(Clone, Copy)]
pub enum Delivery<'a> {
    /// All is written and put.
    Done,
    /// The write of this file failed.
    WriteFault(&'a str),
    /// The files of a module are written, and the put of its line failed.
    PutFault,
    /// No memory was left at one of the files.
    Memory,
}

/// Writes the files of a module in order, and then puts its line, up to the first of these that fails.
fn deliver_step<'a, F: Files, O: Sink>(
    alloc: Global,
    files: &mut F,
    out: &mut O,
    step: &'a Step,
) -> Delivery<'a>
    ensures reads { F.read_faults files.new ≡ F.read_faults files.old }
    ensures writes_later { F.write_faults files.old ≤ F.write_faults files.new }
    ensures puts_later { O.faults out.old ≤ O.faults out.new }
    ensures delivers { DeliversStep result (step_in step.now) (F.held files.old) (F.held files.new) (F.write_faults files.old) (F.write_faults files.new) (O.taken out.old) (O.taken out.new) (O.faults out.old) (O.faults out.new) }
    ensures nothing { step.now.files.items ≡ [] → IsSameDevice (F.held files.old) (F.held files.new) (F.write_faults files.old) (F.write_faults files.new) }
{
    match write_all(alloc, files, step.files.as_slice()) {
        Written::All => {}
        Written::FailedAt(name) => return Delivery::WriteFault(name),
        Written::Memory => return Delivery::Memory,
    }
    match out.put(step.line.as_slice()) {
        PutAnswer::Ok => Delivery::Done,
        PutAnswer::Failed => Delivery::PutFault,
    }
}

/// Writes the files of modules and puts the line of each behind its files, up to the first of these that fails.
pub(crate) fn deliver<'a, F: Files, O: Sink>(
    alloc: Global,
    files: &mut F,
    out: &mut O,
    steps: &'a [Step],
) -> Delivery<'a>
    ensures reads { F.read_faults files.new ≡ F.read_faults files.old }
    ensures writes_later { F.write_faults files.old ≤ F.write_faults files.new }
    ensures puts_later { O.faults out.old ≤ O.faults out.new }
    ensures delivers { Delivers result (steps_in steps.now) (F.held files.old) (F.held files.new) (F.write_faults files.old) (F.write_faults files.new) (O.taken out.old) (O.taken out.new) (O.faults out.old) (O.faults out.new) }
    ensures nothing { all_files (steps_in steps.now) ≡ [] → IsSameDevice (F.held files.old) (F.held files.new) (F.write_faults files.old) (F.write_faults files.new) }
{
    match steps {
        [] => Delivery::Done,
        [first, rest @ ..] => match deliver_step(alloc, files, out, first) {
            Delivery::Done => deliver(alloc, files, out, rest),
            Delivery::WriteFault(name) => Delivery::WriteFault(name),
            Delivery::PutFault => Delivery::PutFault,
            Delivery::Memory => Delivery::Memory,
        },
    }
}
