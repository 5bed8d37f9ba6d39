// The real files and streams.
ghost use Rattle.std.specs.Prelude.{◌≡◌, ◌<◌, ◌≤◌, None};
ghost use Rattle.std.specs.Io.KnownBytes.{Appends};
ghost use Rattle.fc_files.specs.Outside.{IsWithin, Rose};
ghost use Rattle.fc_files.specs.Counts.{count_after_put, count_after_read, count_after_write};
ghost use Rattle.fc_files.specs.Host.{writer_of};
ghost use Rattle.fc_files.specs.Transfers.{AppendsPart, IsFromFile, IsInFile};

use crate::transfers::{put_into, read_opened, write_opened};
use crate::{Files, PutAnswer, ReadAnswer, Sink, WriteAnswer};
use std::alloc::Global;
use std::fs;
use std::io::Write;

/// The files of the system, each named by its path.
///
/// It tells nothing of what they hold. A read takes at most one byte more than was asked for. A
/// path at which there is nothing is `Absent`; an error after the file was opened never is. Where
/// the system answers a read or a write with out of memory, that is `Memory` and no fault of the
/// device. Every other error is `Failed` and counted. A write makes the file anew, creates no
/// folder, and writes its bytes once and in order, up to the first error.
#[derive(Drop)]
pub struct HostFiles<R> {
    rt: R,
    read_faults: u64,
    write_faults: u64,
}

/// A stream of the system, as standard output.
///
/// It tells nothing of what it has taken. Each piece is written once and in order, up to the first
/// error, and goes through any buffer of the writer before its put answers. Every error is `Failed`
/// and counted, out of memory too, since a put has no other answer.
#[derive(Drop)]
pub struct HostSink<W> {
    to: W,
    faults: u64,
}

impl<R: std::rt::Files> HostFiles<R> {
    /// The files that `rt` reaches. No call has failed yet.
    pub fn new(rt: R) -> HostFiles<R>
        ensures reads { ⟦<Self as Files>⟧.read_faults result ≡ 0 }
        ensures writes { ⟦<Self as Files>⟧.write_faults result ≡ 0 }
    {
        HostFiles {
            rt,
            read_faults: 0,
            write_faults: 0,
        }
    }

    /// How many reads have failed, up to 2^64 - 1.
    pub fn read_faults(&self) -> u64
        ensures { result ≡ ⟦<Self as Files>⟧.read_faults self.now }
    {
        self.read_faults
    }

    /// How many writes have failed, up to 2^64 - 1.
    pub fn write_faults(&self) -> u64
        ensures { result ≡ ⟦<Self as Files>⟧.write_faults self.now }
    {
        self.write_faults
    }
}

impl<R: std::rt::Files> Files for HostFiles<R> {
    ghost held = { λ _. None };

    ghost read_faults = { λ s. s.read_faults };

    ghost write_faults = { λ s. s.write_faults };

    fn read(&mut self, alloc: Global, name: &str, most: u64) -> ReadAnswer
        requires { most < u64.MAX }
        ensures within { IsWithin result most }
        ensures write_faults_stay { ⟦<Self as Files>⟧.write_faults self.new
            ≡ ⟦<Self as Files>⟧.write_faults self.old }
        ensures later { ⟦<Self as Files>⟧.read_faults self.old
            ≤ ⟦<Self as Files>⟧.read_faults self.new }
        ensures cause { result ≡ ReadAnswer.Failed
            → Rose (⟦<Self as Files>⟧.read_faults self.old) (⟦<Self as Files>⟧.read_faults self.new) }

        // Bytes are those of a file that was opened, where it tells what it has.
        ensures from_file { IsFromFile R.File.remaining most result }
        ensures count { ⟦<Self as Files>⟧.read_faults self.new
            ≡ count_after_read result (⟦<Self as Files>⟧.read_faults self.old) }
    {
        let answer = read_opened(alloc, fs::open(&self.rt, name), most);
        if matches!(answer, ReadAnswer::Failed) {
            self.read_faults = self.read_faults.saturating_add(1);
        }
        answer
    }

    fn write(&mut self, _alloc: Global, name: &str, bytes: &[u8]) -> WriteAnswer
        ensures read_faults_stay { ⟦<Self as Files>⟧.read_faults self.new
            ≡ ⟦<Self as Files>⟧.read_faults self.old }
        ensures later { ⟦<Self as Files>⟧.write_faults self.old
            ≤ ⟦<Self as Files>⟧.write_faults self.new }
        ensures cause { result ≡ WriteAnswer.Failed
            → Rose (⟦<Self as Files>⟧.write_faults self.old) (⟦<Self as Files>⟧.write_faults self.new) }

        // All bytes went into a file that was opened, where it tells what it holds.
        ensures in_file { result ≡ WriteAnswer.Ok → IsInFile R.File.contents bytes.now }
        ensures count { ⟦<Self as Files>⟧.write_faults self.new
            ≡ count_after_write result (⟦<Self as Files>⟧.write_faults self.old) }
    {
        let answer = write_opened(&mut fs::create(&self.rt, name), bytes);
        if answer == WriteAnswer::Failed {
            self.write_faults = self.write_faults.saturating_add(1);
        }
        answer
    }
}

impl<W: Write> HostSink<W> {
    /// A stream that writes into `to`. No put has failed yet.
    pub fn new(to: W) -> HostSink<W>
        ensures faults { ⟦<Self as Sink>⟧.faults result ≡ 0 }
        ensures to { writer_of result ≡ to }
    {
        HostSink { to, faults: 0 }
    }

    /// How many puts have failed, up to 2^64 - 1.
    pub fn faults(&self) -> u64
        ensures { result ≡ ⟦<Self as Sink>⟧.faults self.now }
    {
        self.faults
    }
}

impl<W: Write> Sink for HostSink<W> {
    ghost taken = { λ _. None };

    ghost faults = { λ s. s.faults };

    fn put(&mut self, bytes: &[u8]) -> PutAnswer
        ensures later { ⟦<Self as Sink>⟧.faults self.old ≤ ⟦<Self as Sink>⟧.faults self.new }
        ensures cause { result ≡ PutAnswer.Failed
            → Rose (⟦<Self as Sink>⟧.faults self.old) (⟦<Self as Sink>⟧.faults self.new) }

        // What the writer holds grows by the piece, or where the put failed by a part from its
        // front, where the writer tells it.
        ensures written { result ≡ PutAnswer.Ok
            → Appends (W.contents (writer_of self.old)) (W.contents (writer_of self.new)) bytes.now }
        ensures part { AppendsPart (W.contents (writer_of self.old))
            (W.contents (writer_of self.new)) bytes.now }
        ensures count { ⟦<Self as Sink>⟧.faults self.new
            ≡ count_after_put result (⟦<Self as Sink>⟧.faults self.old) }
    {
        let answer = put_into(&mut self.to, bytes);
        if answer == PutAnswer::Failed {
            self.faults = self.faults.saturating_add(1);
        }
        answer
    }
}
