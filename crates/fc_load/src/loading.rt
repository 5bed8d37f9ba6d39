//! The files of a set, one after the other.
ghost use Rattle.std.specs.Prelude.{◌≡◌, ◌≤◌, IfSome, map};
ghost use Rattle.fc_files.specs.Outside.{Rose};
ghost use Rattle.fc_load.specs.Answers.{AreFormed, AreWithinLimits, IsOfFiles, Loads};

use crate::amount::Read;
use crate::one_file::{LoadedFile, load_one};
use fc_files::Files;
use fc_syntax::{Fault, Module};
use std::alloc::Global;

/// What the files of a set hold.
#[derive(Drop)]
pub enum Loaded<'a> {
    /// Modules within the limits, in the order of the files.
    Modules(Vec<Module>),
    /// The first fault of reading.
    Refused(Fault),
    /// The read of this file failed; those before it hold modules.
    ReadFault(&'a str),
    /// Out of memory.
    Memory,
}

/// Reads the files of these names, one after the other: the modules that they hold within the limits of a set, or the first fault. A file that is
/// not there is `Missing`; one that has more bytes than a file may have, or than are left of the set, is `TooLong`, at the limit that was
/// used; the other faults are those of `read_module`, where the size of what was read before counts. No file is read behind the first fault.
/// The memory of a file's bytes is given back as soon as they are read.
pub fn load<'a, F: Files>(alloc: Global, files: &mut F, names: &[&'a str]) -> Loaded<'a>
    ensures held { F.held files.new ≡ F.held files.old }
    ensures writes { F.write_faults files.new ≡ F.write_faults files.old }
    ensures reads { F.read_faults files.old ≤ F.read_faults files.new }
    ensures cause { (name : _) → result ≡ Loaded.ReadFault name → Rose (F.read_faults files.old) (F.read_faults files.new) }
    ensures answer { IfSome (F.held files.old) (λ m. Loads m (map (λ s. s.now) names.now) result) }
    ensures named { IsOfFiles (map (λ s. s.now) names.now) result }
    ensures formed { AreFormed result }
    ensures limits { AreWithinLimits result }
{
    let mut modules = Vec::new(alloc);
    let mut read = Read::nothing();
    for name in names {
        match load_one(alloc, files, *name, read) {
            LoadedFile::Module(m, with) => {
                if modules.push(m).is_err() {
                    return Loaded::Memory;
                }
                read = with;
            }
            LoadedFile::Refused(fault) => return Loaded::Refused(fault),
            LoadedFile::ReadFault => return Loaded::ReadFault(*name),
            LoadedFile::Memory => return Loaded::Memory,
        }
    }
    Loaded::Modules(modules)
}
