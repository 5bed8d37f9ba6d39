//! The lines on the error stream, and the statuses that go with them.
ghost use Rattle.std.specs.Prelude.{◌≡◌, ◌≤◌, ◌++◌, [], ◌∷◌};
ghost use Rattle.fc_build.specs.Lines.{Gets};
ghost use Rattle.fc_build.specs.Ending.{TellsDelivery, delivery_status, stop_line, stop_status};

use crate::deliver::Delivery;
use crate::prepare::Stop;
use fc_files::{PutAnswer, Sink};

/// Puts a line. A put that fails changes nothing else.
fn tell_line<S: Sink>(to: &mut S, line: &[u8])
    ensures later { S.faults to.old ≤ S.faults to.new }
    ensures line { Gets line.now (S.faults to.old) (S.faults to.new) (S.taken to.old) (S.taken to.new) }
{
    match to.put(line) {
        PutAnswer::Failed => {}
        PutAnswer::Ok => {}
    }
}

/// Puts a line that ends with the name of a file, in three parts and so without memory, up to the first put that fails.
fn tell_name<S: Sink>(to: &mut S, first: &[u8], name: &str)
    ensures later { S.faults to.old ≤ S.faults to.new }
    ensures line { Gets (first.now ++ (name.now ++ 10 ∷ [])) (S.faults to.old) (S.faults to.new) (S.taken to.old) (S.taken to.new) }
{
    match to.put(first) {
        PutAnswer::Failed => return,
        PutAnswer::Ok => {}
    }
    match to.put(name.as_bytes()) {
        PutAnswer::Failed => return,
        PutAnswer::Ok => {}
    }
    match to.put(b"\n") {
        PutAnswer::Failed => {}
        PutAnswer::Ok => {}
    }
}

/// Tells why nothing was written, and answers the status for it.
pub(crate) fn tell_stop<E: Sink>(err: &mut E, stop: &Stop<'_>) -> u8
    ensures status { result ≡ stop_status stop.now }
    ensures later { E.faults err.old ≤ E.faults err.new }
    ensures line { Gets (stop_line stop.now) (E.faults err.old) (E.faults err.new) (E.taken err.old) (E.taken err.new) }
{
    match stop {
        Stop::Refused(line) => {
            tell_line(err, line.as_slice());
            1
        }
        Stop::Usage => {
            tell_line(err, b"usage\n");
            2
        }
        Stop::ReadFault(name) => {
            tell_name(err, b"read fault ", *name);
            3
        }
        Stop::Memory => {
            tell_line(err, b"out of memory\n");
            5
        }
    }
}

/// Tells how the writing ended, and answers the status for it. Where all is done nothing is told.
pub(crate) fn tell_delivery<E: Sink>(err: &mut E, delivery: Delivery<'_>) -> u8
    ensures status { result ≡ delivery_status delivery.entry }
    ensures later { E.faults err.old ≤ E.faults err.new }
    ensures line { TellsDelivery delivery.entry (E.faults err.old) (E.faults err.new) (E.taken err.old) (E.taken err.new) }
{
    match delivery {
        Delivery::Done => 0,
        Delivery::WriteFault(name) => {
            tell_name(err, b"write fault ", name);
            4
        }
        Delivery::PutFault => {
            tell_name(err, b"write fault ", "-");
            4
        }
        Delivery::Memory => {
            tell_line(err, b"out of memory\n");
            5
        }
    }
}
