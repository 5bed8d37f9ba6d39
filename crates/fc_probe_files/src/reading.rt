//! Files, and what they hold.
ghost use Rattle.std.specs.Prelude.{◌≤◌, length};
ghost use Rattle.fc_syntax.specs.Limits.{standard_limits};

use crate::answers::{NoAnswer, flawed_in};
use fc_files::{Files, ReadAnswer};
use fc_iface::read_interface;
use fc_lattice::Interface;
use fc_log::{Log, read as read_log};
use fc_reader::read_module;
use fc_resolve::resolve;
use fc_syntax::{Limits, Module, NModule, Text};
use std::alloc::Global;

/// A file that was read.
#[derive(Drop)]
pub struct File<'a> {
    /// Its name.
    pub name: &'a str,
    /// What it holds.
    bytes: Vec<u8>,
}

impl<'a> File<'a> {
    /// What the file holds, which is no more than a file may have.
    pub fn bytes(&self) -> &[u8]
        ensures { length result.now ≤ standard_limits.file_bytes }
    {
        let bytes = self.bytes.as_slice();
        if bytes.len() <= Limits::standard().file_bytes as usize {
            bytes
        } else {
            &[]
        }
    }
}

/// Reads a file.
fn read<'a, F: Files>(alloc: Global, files: &mut F, name: &'a str) -> Result<File<'a>, NoAnswer> {
    match files.read(alloc, name, Limits::standard().file_bytes as u64) {
        ReadAnswer::Ok(bytes) => Ok(File { name, bytes }),
        ReadAnswer::Memory => Err(NoAnswer::Memory),
        ReadAnswer::Absent | ReadAnswer::TooLong | ReadAnswer::Failed => {
            Err(NoAnswer::ReadFault(Text::from_str(alloc, name)?))
        }
    }
}

/// Reads files, in their order.
pub fn read_all<'a, F: Files>(
    alloc: Global,
    files: &mut F,
    names: &[&'a str],
) -> Result<Vec<File<'a>>, NoAnswer> {
    let mut all = Vec::new(alloc);
    for name in names {
        all.push(read(alloc, files, *name)?)?;
    }
    Ok(all)
}

/// The number that a word writes in decimal digits, without a sign.
pub fn number_in(word: &str) -> Result<u32, NoAnswer> {
    if word.starts_with('+') {
        return Err(NoAnswer::Usage);
    }
    match word.parse::<u32>() {
        Ok(n) => Ok(n),
        Err(_) => Err(NoAnswer::Usage),
    }
}

/// The module in a file, where there is this much room for its declarations.
pub fn module_in_room(alloc: Global, file: &File, room: u32) -> Result<Module, NoAnswer> {
    Ok(read_module(alloc, file.name, file.bytes(), room)?)
}

/// The module in a file.
pub fn module_in(alloc: Global, file: &File) -> Result<Module, NoAnswer> {
    module_in_room(alloc, file, Limits::standard().size)
}

/// The interface in a file, where there is this much room for its declarations.
pub fn interface_in_room(alloc: Global, file: &File, room: u32) -> Result<Interface, NoAnswer> {
    Ok(read_interface(alloc, file.name, file.bytes(), room)?)
}

/// The interface in a file.
pub fn interface_in(alloc: Global, file: &File) -> Result<Interface, NoAnswer> {
    interface_in_room(alloc, file, Limits::standard().size)
}

/// The log in a file.
pub fn log_in(alloc: Global, file: &File) -> Result<Log, NoAnswer> {
    Ok(read_log(alloc, file.name, file.bytes())?)
}

/// The nameless form of a module.
pub fn form_of(alloc: Global, m: &Module) -> Result<NModule, NoAnswer> {
    match resolve(alloc, m) {
        Ok(form) => Ok(form),
        Err(flawed) => Err(flawed_in(alloc, m.name.as_str(), flawed)),
    }
}

/// The nameless form of the module in a file.
pub fn form_in(alloc: Global, file: &File) -> Result<NModule, NoAnswer> {
    let m = module_in(alloc, file)?;
    form_of(alloc, &m)
}
