//! One file of a set, behind what has been read.
ghost use Rattle.std.specs.Prelude.{◌≡◌, ◌≤◌, IfErr, IfOk, IfSome, length};
ghost use Rattle.fc_files.specs.Outside.{Rose};
ghost use Rattle.fc_model.specs.Planning.{of_file as fault_of_file};
ghost use Rattle.fc_load.specs.Amounts.{amount_of};
ghost use Rattle.fc_load.specs.Loading.{room_for_bytes};
ghost use Rattle.fc_load.specs.OneFile.{IsFormedOne, IsOfFile, IsWithinOne, LoadsBytes, LoadsOne};

use crate::amount::Read;
use fc_files::{Files, ReadAnswer};
use fc_reader::read_module;
use fc_syntax::{Fault, FaultKind, Memory, Module, Place, Refusal, Text};
use std::alloc::Global;

/// What one file holds.
#[derive(Drop)]
pub(crate) enum LoadedFile {
    /// A module within the limits, and how much has been read with it.
    Module(Module, Read),
    /// The first fault of reading.
    Refused(Fault),
    /// The read failed.
    ReadFault,
    /// Out of memory.
    Memory,
}

/// A fault of a file, in no declaration.
fn of_file(alloc: Global, kind: FaultKind, file: &str, path: Place) -> Result<Fault, Memory>
    ensures { IfOk result (λ f. f ≡ fault_of_file kind file.now path) }
{
    let module = Text::from_str(alloc, file)?;
    Ok(Fault {
        kind,
        module,
        def: None,
        path,
    })
}

/// The answer for a fault, or where no memory is left to tell it.
fn refused(fault: Result<Fault, Memory>) -> LoadedFile
    ensures told { IfOk fault (λ f. result ≡ LoadedFile.Refused f) }
    ensures untold { IfErr fault (λ _. result ≡ LoadedFile.Memory) }
{
    match fault {
        Ok(fault) => LoadedFile::Refused(fault),
        Err(Memory) => LoadedFile::Memory,
    }
}

/// The module that the bytes of a file spell, whose memory is given back as soon as they are read.
fn load_bytes(alloc: Global, file: &str, bytes: Vec<u8>, read: Read) -> LoadedFile
    requires { length bytes.items ≤ room_for_bytes (amount_of read) }
    ensures answer { LoadsBytes (amount_of read) file.now bytes.items result }
    ensures named { IsOfFile file.now result }
    ensures formed { IsFormedOne result }
    ensures limits { IsWithinOne result }
{
    let count = bytes.len() as u32;
    let spelled = read_module(alloc, file, &bytes, read.size_left());
    drop(bytes);
    match spelled {
        Ok(m) => {
            let read = read.with_file(count, &m);
            LoadedFile::Module(m, read)
        }
        Err(Refusal::Fault(fault)) => LoadedFile::Refused(fault),
        Err(Refusal::Memory) => LoadedFile::Memory,
    }
}

/// Reads a file, behind what has been read.
pub(crate) fn load_one<F: Files>(alloc: Global, files: &mut F, file: &str, read: Read) -> LoadedFile
    ensures held { F.held files.new ≡ F.held files.old }
    ensures writes { F.write_faults files.new ≡ F.write_faults files.old }
    ensures reads { F.read_faults files.old ≤ F.read_faults files.new }
    ensures cause { result ≡ LoadedFile.ReadFault → Rose (F.read_faults files.old) (F.read_faults files.new) }
    ensures answer { IfSome (F.held files.old) (λ m. LoadsOne m (amount_of read) file.now result) }
    ensures named { IsOfFile file.now result }
    ensures formed { IsFormedOne result }
    ensures limits { IsWithinOne result }
{
    let most = read.bytes_left();
    match files.read(alloc, file, most as u64) {
        ReadAnswer::Ok(bytes) => load_bytes(alloc, file, bytes, read),
        ReadAnswer::Absent => refused(of_file(alloc, FaultKind::Missing, file, Place::Nowhere)),
        ReadAnswer::TooLong => {
            refused(of_file(alloc, FaultKind::TooLong, file, Place::Byte(most)))
        }
        ReadAnswer::Failed => LoadedFile::ReadFault,
        ReadAnswer::Memory => LoadedFile::Memory,
    }
}
