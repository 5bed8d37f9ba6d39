//! The outside of the compiler: files by name and streams that take bytes, each with a meaning and
//! with counts of its faults.
//!
//! Code above is generic in [`Files`] and [`Sink`], so that it is proved for every device and
//! tested with devices that fail. [`MemFiles`], [`SureFiles`] and [`MemSink`] stand in memory and
//! tell what they hold. [`CountSink`] keeps a number alone. [`HostFiles`] and [`HostSink`] are the
//! real files and streams: what a real file holds is not claimed.
//!
//! A call that cannot be done answers `Failed`, and then its count of faults rose in that call, or
//! stands at its last value, 2^64 - 1. Counts never fall. Out of memory may be answered by every
//! call that takes an allocator, and is counted nowhere.
#![tactic(auto)]

mod answers;
mod entries;
mod host;
mod mem_files;
mod numbered;
mod sinks;
mod transfers;

ghost use Rattle.std.specs.Prelude.{◌≡◌, ◌<◌, ◌≤◌, List, ℕ, Option, IfSome};
ghost use Rattle.fc_files.specs.Outside.{FileMap, IsWithin, Reads, Rose, Takes, Told, Writes};

pub use entries::has_distinct_names;
pub use host::{HostFiles, HostSink};
pub use mem_files::{MemFiles, SureFiles};
pub use sinks::{CountSink, MemSink};
use std::alloc::Global;

/// What a read answers.
#[derive(Debug, Drop)]
pub enum ReadAnswer {
    /// All bytes of the file.
    Ok(Vec<u8>),
    /// There is no file of this name.
    Absent,
    /// The file has more bytes than were asked for at most.
    TooLong,
    /// The device failed, and counted it.
    Failed,
    /// No memory was left for the bytes.
    Memory,
}

/// What a write answers.
#[derive(Clone, Copy, Debug, PartialEq, Eq)]
pub enum WriteAnswer {
    /// The name holds the bytes, and every other name what it held.
    Ok,
    /// The device failed, and counted it. The name may hold anything, or nothing.
    Failed,
    /// No memory was left. The name may hold anything, or nothing.
    Memory,
}

/// What a put answers.
#[derive(Clone, Copy, Debug, PartialEq, Eq)]
pub enum PutAnswer {
    /// The whole piece was taken.
    Ok,
    /// The device failed, and counted it. A part from the front of the piece was taken, or nothing.
    Failed,
}

/// Files by name.
pub trait Files {
    /// What each name holds, where it is told.
    ghost held: { Self → Option FileMap };

    /// How many reads have failed, up to 2^64 - 1.
    ghost read_faults: { Self → ℕ };

    /// How many writes have failed, up to 2^64 - 1.
    ghost write_faults: { Self → ℕ };

    /// All bytes of the file `name`, which are to be at most `most`, itself less than the largest `u64`.
    ///
    /// No answer changes what the names hold.
    ///
    /// # Errors
    ///
    /// `Absent` where there is no such file, `TooLong` where it has more than `most` bytes,
    /// `Failed` where the device failed, and `Memory` where no memory was left for the bytes.
    fn read(&mut self, alloc: Global, name: &str, most: u64) -> ReadAnswer
        requires { most < u64.MAX }
        ensures within { IsWithin result most }
        ensures reads { IfSome (held self.old) (λ m. Reads (m name.now) most result) }
        ensures held_stays { held self.new ≡ held self.old }
        ensures write_faults_stay { write_faults self.new ≡ write_faults self.old }
        ensures later { read_faults self.old ≤ read_faults self.new }
        ensures cause { result ≡ ReadAnswer.Failed
            → Rose (read_faults self.old) (read_faults self.new) };

    /// Makes `bytes` the bytes of the file `name`, whether or not it was there.
    ///
    /// # Errors
    ///
    /// `Failed` where the device failed, and `Memory` where no memory was left. After either the
    /// file `name` may hold anything or be gone, and every other file stands as before.
    fn write(&mut self, alloc: Global, name: &str, bytes: &[u8]) -> WriteAnswer
        ensures writes { Told (held self.old) (held self.new) (Writes result name.now bytes.now) }
        ensures read_faults_stay { read_faults self.new ≡ read_faults self.old }
        ensures later { write_faults self.old ≤ write_faults self.new }
        ensures cause { result ≡ WriteAnswer.Failed
            → Rose (write_faults self.old) (write_faults self.new) };
}

/// A stream that takes bytes.
pub trait Sink {
    /// The bytes that it has taken, where they are told.
    ghost taken: { Self → Option (List ℕ) };

    /// How many puts have failed, up to 2^64 - 1.
    ghost faults: { Self → ℕ };

    /// Takes the piece `bytes` at the end of what it has taken. It needs no memory.
    ///
    /// # Errors
    ///
    /// `Failed` where the device failed: it has then taken a part from the front of the piece,
    /// which may be nothing or all of it.
    fn put(&mut self, bytes: &[u8]) -> PutAnswer
        ensures takes { Told (taken self.old) (taken self.new) (Takes result bytes.now) }
        ensures later { faults self.old ≤ faults self.new }
        ensures cause { result ≡ PutAnswer.Failed → Rose (faults self.old) (faults self.new) };
}
