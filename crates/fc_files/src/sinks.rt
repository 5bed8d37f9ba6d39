// Streams in memory.
ghost use Rattle.std.specs.Prelude.{◌≡◌, ◌≤◌, ◌+◌, ◌-◌, ◌^◌, ◌++◌, ◌↔◌, [], Some, None, IsTrue};
ghost use Rattle.std.specs.Prelude.{length, min, take, vec_len};
ghost use Rattle.fc_files.specs.Outside.{Rose, Takes, Told};
ghost use Rattle.fc_files.specs.Counts.{count_after_put, next_count};

use crate::numbered::NumberedCalls;
use crate::{PutAnswer, Sink};

/// A stream into a room of fixed size, of which chosen puts fail.
///
/// It fills the room from its start. Puts are numbered from 1, and those with the chosen numbers
/// answer `Failed` and take nothing. After 2^64 - 1 puts no put fails for its number. Each other
/// put takes what fits into the room, and answers `Failed` where that is not the whole piece.
#[derive(Drop)]
pub struct MemSink {
    room: Vec<u8>,
    len: usize,
    puts: NumberedCalls,
    faults: u64,
    ghost within: { len ≤ length room.items },
}

/// A stream that keeps only how many bytes it was given. No put fails.
#[derive(Drop)]
pub struct CountSink {
    count: u64,
}

// Copies as much of the piece as fits from `at` on, and says how much.
fn copy_in(room: &mut [u8], at: usize, piece: &[u8]) -> usize
    requires { at ≤ length room.old }
    ensures count { result ≡ min (length piece.now) (length room.old - at) }
    ensures bytes { take (at + result) room.new ≡ take at room.old ++ take result piece.now }
{
    let count = piece.len().min(room.len() - at);
    room[at..at + count].copy_from_slice(&piece[..count]);
    count
}

impl MemSink {
    ghost use Rattle.fc_files.specs.Streams.{failing_puts_of, puts_of, room_of};

    /// A stream that has taken nothing, into as many bytes as `room` has, of which the puts with
    /// the numbers in `fails` fail. What stands in `room` does not matter. Numbers that no put has,
    /// as 0, and further copies of a number do nothing.
    pub fn new(room: Vec<u8>, fails: Vec<u64>) -> MemSink
        ensures taken { ⟦<Self as Sink>⟧.taken result ≡ Some [] }
        ensures faults { ⟦<Self as Sink>⟧.faults result ≡ 0 }
        ensures room { room_of result ≡ vec_len room }
        ensures puts { puts_of result ≡ 0 }
        ensures fails { failing_puts_of result ≡ fails.items }
    {
        MemSink {
            room,
            len: 0,
            puts: NumberedCalls::new(fails),
            faults: 0,
        }
    }

    /// The bytes that it has taken.
    pub fn bytes(&self) -> &[u8]
        ensures { ⟦<Self as Sink>⟧.taken self.now ≡ Some result.now }
    {
        &self.room[..self.len]
    }
}

impl Sink for MemSink {
    ghost use Rattle.fc_files.specs.Streams.{bytes_of, is_failing_put, taken_of_put};
    ghost use Rattle.fc_files.specs.Streams.{failing_puts_of, puts_of, room_of};

    ghost taken = { λ s. Some (bytes_of s) };

    ghost faults = { λ s. s.faults };

    fn put(&mut self, bytes: &[u8]) -> PutAnswer
        ensures takes { Told (⟦<Self as Sink>⟧.taken self.old) (⟦<Self as Sink>⟧.taken self.new)
            (Takes result bytes.now) }
        ensures later { ⟦<Self as Sink>⟧.faults self.old ≤ ⟦<Self as Sink>⟧.faults self.new }
        ensures cause { result ≡ PutAnswer.Failed
            → Rose (⟦<Self as Sink>⟧.faults self.old) (⟦<Self as Sink>⟧.faults self.new) }

        // Which puts fail, and what each takes.
        ensures fails { (result ≡ PutAnswer.Failed) ↔ IsTrue (is_failing_put self.old bytes.now) }
        ensures exactly { ⟦<Self as Sink>⟧.taken self.new
            ≡ Some (bytes_of self.old ++ taken_of_put self.old bytes.now) }
        ensures count { ⟦<Self as Sink>⟧.faults self.new
            ≡ count_after_put result (⟦<Self as Sink>⟧.faults self.old) }
        ensures puts { puts_of self.new ≡ next_count (puts_of self.old) }
        ensures list_stays { failing_puts_of self.new ≡ failing_puts_of self.old }
        ensures room_stays { room_of self.new ≡ room_of self.old }
    {
        if self.puts.next_fails() {
            self.faults = self.faults.saturating_add(1);
            return PutAnswer::Failed;
        }
        let count = copy_in(&mut self.room, self.len, bytes);
        self.len += count;
        if count < bytes.len() {
            self.faults = self.faults.saturating_add(1);
            return PutAnswer::Failed;
        }
        PutAnswer::Ok
    }
}

impl CountSink {
    ghost use Rattle.fc_files.specs.Streams.{count_of};

    /// A stream that was given nothing.
    pub fn new() -> CountSink
        ensures { count_of result ≡ 0 }
    {
        CountSink { count: 0 }
    }

    /// How many bytes it was given, and 2^64 - 1 if they were more.
    pub fn count(&self) -> u64
        ensures { result ≡ count_of self.now }
    {
        self.count
    }
}

impl Sink for CountSink {
    ghost use Rattle.fc_files.specs.Streams.{count_of};

    ghost taken = { λ _. None };

    ghost faults = { λ _. 0 };

    fn put(&mut self, bytes: &[u8]) -> PutAnswer
        ensures takes { Told (⟦<Self as Sink>⟧.taken self.old) (⟦<Self as Sink>⟧.taken self.new)
            (Takes result bytes.now) }
        ensures later { ⟦<Self as Sink>⟧.faults self.old ≤ ⟦<Self as Sink>⟧.faults self.new }
        ensures sure { result ≡ PutAnswer.Ok }
        ensures count { count_of self.new
            ≡ min (count_of self.old + length bytes.now) (2 ^ 64 - 1) }
    {
        self.count = self.count.saturating_add(bytes.len() as u64);
        PutAnswer::Ok
    }
}
