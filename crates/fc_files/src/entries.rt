// Lists of entries, each a name with its bytes: what the files in memory keep.
ghost use Rattle.std.specs.Prelude.{◌≡◌, ◌↔◌, IsTrue, position};
ghost use Rattle.std.specs.List.{list_any};
ghost use Rattle.fc_files.specs.Outside.{IsWithin, Reads, Writes};
ghost use Rattle.fc_files.specs.Entries.{HasDistinctNames, is_named, map_of};

use crate::{ReadAnswer, WriteAnswer};
use std::alloc::Global;

/// Whether no two of the entries have the same name, as files in memory want it.
pub fn has_distinct_names(entries: &[(String, Vec<u8>)]) -> bool
    ensures { IsTrue result ↔ HasDistinctNames entries.now }
{
    'entries: for i in 0..entries.len() {
        if contains_name(&entries[i + 1..], entries[i].0.as_str()) {
            return false;
        }
    }
    true
}

// Whether an entry has this name.
fn contains_name(entries: &[(String, Vec<u8>)], name: &str) -> bool
    ensures { result ≡ list_any (is_named name.now) entries.now }
{
    entries.iter().any(|entry| entry.0.as_str() == name)
}

// The place of the first entry of this name.
fn place_of(entries: &[(String, Vec<u8>)], name: &str) -> Option<usize>
    ensures { result ≡ position (is_named name.now) entries.now }
{
    entries.iter().position(|entry| entry.0.as_str() == name)
}

// The bytes of the first entry of this name.
pub(crate) fn read_entry(
    alloc: Global,
    entries: &[(String, Vec<u8>)],
    name: &str,
    most: u64,
) -> ReadAnswer
    ensures within { IsWithin result most }
    ensures reads { Reads (map_of entries.now name.now) most result }
    ensures sure { result ≡ ReadAnswer.Failed → ⊥ }
{
    match place_of(entries, name) {
        Some(place) => {
            let bytes = entries[place].1.as_slice();
            if bytes.len() as u64 > most {
                return ReadAnswer::TooLong;
            }
            match bytes.to_vec(alloc) {
                Ok(copy) => ReadAnswer::Ok(copy),
                Err(_) => ReadAnswer::Memory,
            }
        }
        None => ReadAnswer::Absent,
    }
}

// Puts the bytes into the first entry of this name, or into a new one at the end.
pub(crate) fn write_entry(
    alloc: Global,
    entries: &mut Vec<(String, Vec<u8>)>,
    name: &str,
    bytes: &[u8],
) -> WriteAnswer
    ensures writes { Writes result name.now bytes.now (map_of entries.old.items)
        (map_of entries.new.items) }
    ensures sure { result ≡ WriteAnswer.Failed → ⊥ }
    ensures stays { result ≡ WriteAnswer.Memory → entries.new.items ≡ entries.old.items }
{
    let Ok(copy) = bytes.to_vec(alloc) else {
        return WriteAnswer::Memory;
    };
    match place_of(entries, name) {
        Some(place) => {
            entries[place].1 = copy;
            WriteAnswer::Ok
        }
        None => {
            let Ok(key) = String::from_str(alloc, name) else {
                return WriteAnswer::Memory;
            };
            if entries.push((key, copy)).is_err() {
                return WriteAnswer::Memory;
            }
            WriteAnswer::Ok
        }
    }
}
