// Files in memory.
ghost use Rattle.std.specs.Prelude.{◌≡◌, ◌≤◌, ◌↔◌, ◌⊎◌, Some, IfSome, IsTrue};
ghost use Rattle.fc_files.specs.Outside.{IsWithin, Reads, Rose, Told, Writes};
ghost use Rattle.fc_files.specs.Entries.{HasDistinctNames, map_of};
ghost use Rattle.fc_files.specs.Counts.{count_after_read, count_after_write, is_failing_call};
ghost use Rattle.fc_files.specs.Counts.{next_count};
ghost use Rattle.fc_files.specs.Calls.{calls_of, fails_of};

use crate::entries::{read_entry, write_entry};
use crate::numbered::NumberedCalls;
use crate::{Files, ReadAnswer, WriteAnswer};
use std::alloc::Global;

/// Files in memory, of which chosen calls fail.
///
/// Reads and writes are numbered together, from 1. The calls with the chosen numbers answer
/// `Failed` and change nothing but the counts, and no other call answers `Failed`. After
/// 2^64 - 1 calls none fails.
#[derive(Drop)]
pub struct MemFiles {
    entries: Vec<(String, Vec<u8>)>,
    calls: NumberedCalls,
    read_faults: u64,
    write_faults: u64,
}

/// Files in memory, of which no call fails.
#[derive(Drop)]
pub struct SureFiles {
    entries: Vec<(String, Vec<u8>)>,
}

impl SureFiles {
    /// Files with these names and bytes. No two entries may have the same name, as
    /// [`has_distinct_names`](crate::has_distinct_names) tests.
    pub fn new(entries: Vec<(String, Vec<u8>)>) -> SureFiles
        requires { HasDistinctNames entries.items }
        ensures { ⟦<Self as Files>⟧.held result ≡ Some (map_of entries.items) }
    {
        SureFiles { entries }
    }
}

impl Files for SureFiles {
    ghost held = { λ s. Some (map_of s.entries.items) };

    ghost read_faults = { λ _. 0 };

    ghost write_faults = { λ _. 0 };

    fn read(&mut self, alloc: Global, name: &str, most: u64) -> ReadAnswer
        ensures within { IsWithin result most }
        ensures reads { IfSome (⟦<Self as Files>⟧.held self.old)
            (λ m. Reads (m name.now) most result) }
        ensures held_stays { ⟦<Self as Files>⟧.held self.new ≡ ⟦<Self as Files>⟧.held self.old }

        ensures sure { result ≡ ReadAnswer.Failed → ⊥ }
    {
        read_entry(alloc, &self.entries, name, most)
    }

    fn write(&mut self, alloc: Global, name: &str, bytes: &[u8]) -> WriteAnswer
        ensures writes { Told (⟦<Self as Files>⟧.held self.old) (⟦<Self as Files>⟧.held self.new)
            (Writes result name.now bytes.now) }

        ensures sure { result ≡ WriteAnswer.Failed → ⊥ }
        ensures stays { result ≡ WriteAnswer.Memory
            → ⟦<Self as Files>⟧.held self.new ≡ ⟦<Self as Files>⟧.held self.old }
    {
        write_entry(alloc, &mut self.entries, name, bytes)
    }
}

impl MemFiles {
    /// Files with these names and bytes, of which the calls with the numbers in `fails` fail. No
    /// two entries may have the same name, as
    /// [`has_distinct_names`](crate::has_distinct_names) tests. Numbers that no call has, as 0,
    /// and further copies of a number do nothing.
    pub fn new(entries: Vec<(String, Vec<u8>)>, fails: Vec<u64>) -> MemFiles
        requires { HasDistinctNames entries.items }
        ensures held { ⟦<Self as Files>⟧.held result ≡ Some (map_of entries.items) }
        ensures reads { ⟦<Self as Files>⟧.read_faults result ≡ 0 }
        ensures writes { ⟦<Self as Files>⟧.write_faults result ≡ 0 }
        ensures calls { calls_of result ≡ 0 }
        ensures fails { fails_of result ≡ fails.items }
    {
        MemFiles {
            entries,
            calls: NumberedCalls::new(fails),
            read_faults: 0,
            write_faults: 0,
        }
    }
}

impl Files for MemFiles {
    ghost held = { λ s. Some (map_of s.entries.items) };

    ghost read_faults = { λ s. s.read_faults };

    ghost write_faults = { λ s. s.write_faults };

    fn read(&mut self, alloc: Global, name: &str, most: u64) -> ReadAnswer
        ensures within { IsWithin result most }
        ensures reads { IfSome (⟦<Self as Files>⟧.held self.old)
            (λ m. Reads (m name.now) most result) }
        ensures held_stays { ⟦<Self as Files>⟧.held self.new ≡ ⟦<Self as Files>⟧.held self.old }
        ensures write_faults_stay { ⟦<Self as Files>⟧.write_faults self.new
            ≡ ⟦<Self as Files>⟧.write_faults self.old }
        ensures later { ⟦<Self as Files>⟧.read_faults self.old
            ≤ ⟦<Self as Files>⟧.read_faults self.new }
        ensures cause { result ≡ ReadAnswer.Failed
            → Rose (⟦<Self as Files>⟧.read_faults self.old) (⟦<Self as Files>⟧.read_faults self.new) }

        // The calls of the given numbers fail, and no other fails.
        ensures fails { (result ≡ ReadAnswer.Failed)
            ↔ IsTrue (is_failing_call (calls_of self.old) (fails_of self.old)) }
        ensures count { ⟦<Self as Files>⟧.read_faults self.new
            ≡ count_after_read result (⟦<Self as Files>⟧.read_faults self.old) }
        ensures calls { calls_of self.new ≡ next_count (calls_of self.old) }
        ensures list_stays { fails_of self.new ≡ fails_of self.old }
    {
        if self.calls.next_fails() {
            self.read_faults = self.read_faults.saturating_add(1);
            return ReadAnswer::Failed;
        }
        read_entry(alloc, &self.entries, name, most)
    }

    fn write(&mut self, alloc: Global, name: &str, bytes: &[u8]) -> WriteAnswer
        ensures writes { Told (⟦<Self as Files>⟧.held self.old) (⟦<Self as Files>⟧.held self.new)
            (Writes result name.now bytes.now) }
        ensures read_faults_stay { ⟦<Self as Files>⟧.read_faults self.new
            ≡ ⟦<Self as Files>⟧.read_faults self.old }
        ensures later { ⟦<Self as Files>⟧.write_faults self.old
            ≤ ⟦<Self as Files>⟧.write_faults self.new }
        ensures cause { result ≡ WriteAnswer.Failed
            → Rose (⟦<Self as Files>⟧.write_faults self.old) (⟦<Self as Files>⟧.write_faults self.new) }

        // The calls of the given numbers fail and change nothing, and no other fails.
        ensures fails { (result ≡ WriteAnswer.Failed)
            ↔ IsTrue (is_failing_call (calls_of self.old) (fails_of self.old)) }
        ensures stays { (result ≡ WriteAnswer.Failed) ⊎ (result ≡ WriteAnswer.Memory)
            → ⟦<Self as Files>⟧.held self.new ≡ ⟦<Self as Files>⟧.held self.old }
        ensures count { ⟦<Self as Files>⟧.write_faults self.new
            ≡ count_after_write result (⟦<Self as Files>⟧.write_faults self.old) }
        ensures calls { calls_of self.new ≡ next_count (calls_of self.old) }
        ensures list_stays { fails_of self.new ≡ fails_of self.old }
    {
        if self.calls.next_fails() {
            self.write_faults = self.write_faults.saturating_add(1);
            return WriteAnswer::Failed;
        }
        write_entry(alloc, &mut self.entries, name, bytes)
    }
}
