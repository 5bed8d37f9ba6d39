//! Interfaces: readers, printers, and what they tell of modules.
use fc_iface::{interface, print_interface};
use fc_lattice::{Demand, Imports, Sig};
use fc_probe_files::{
    File, NoAnswer, form_of, interface_in, interface_in_room, line, line_of, module_in, number_in,
};
use fc_reaching::recursive;
use fc_syntax::{Decl, Memory, Module, Seq};
use std::alloc::Global;

/// Reads the interface of a file, where there is this much room for its declarations.
pub fn reads(alloc: Global, room: u32, file: &File) -> Result<Vec<u8>, NoAnswer> {
    let _interface = interface_in_room(alloc, file, room)?;
    Ok(line(alloc, "read")?)
}

/// The canonical text of the interface of a file.
pub fn printed(alloc: Global, file: &File) -> Result<Vec<u8>, NoAnswer> {
    let i = interface_in(alloc, file)?;
    Ok(print_interface(alloc, &i)?)
}

// SIGNATURES

/// A signature with so many lazy arguments.
fn lazy(alloc: Global, count: usize) -> Result<Sig, Memory> {
    let mut args = Seq::new(alloc);
    for _ in 0..count {
        args.push(Demand::L)?;
    }
    Ok(Sig {
        args,
        diverges: false,
    })
}

/// For each definition of a module a signature with as many lazy arguments as there are definitions before it.
fn numbered(alloc: Global, m: &Module) -> Result<Vec<Sig>, Memory> {
    let mut all = Vec::new(alloc);
    for decl in m.decls.as_slice() {
        if matches!(decl, Decl::Def(_, _, _) | Decl::Wrap(_, _, _)) {
            let sig = lazy(alloc, all.len())?;
            all.push(sig)?;
        }
    }
    Ok(all)
}

/// The text of the interface of the module of a file, in which right sides of as many nodes are told as a word says.
pub fn told(alloc: Global, grow: &str, file: &File) -> Result<Vec<u8>, NoAnswer> {
    let grow = u64::from(number_in(grow)?);
    let m = module_in(alloc, file)?;
    let form = form_of(alloc, &m)?;
    let marks = recursive(alloc, &form)?;
    let sigs = numbered(alloc, &m)?;
    let i = interface(alloc, &m, marks.as_slice(), sigs.as_slice(), grow)?;
    Ok(print_interface(alloc, &i)?)
}

// IMPORTS

/// The interfaces of files, in their order.
fn imports_in(alloc: Global, files: &[File]) -> Result<Imports, NoAnswer> {
    let mut imports = Imports::new(alloc);
    for file in files {
        imports.add(interface_in(alloc, file)?)?;
    }
    Ok(imports)
}

/// The names of the modules of the interfaces of files, in their order.
pub fn imported(alloc: Global, files: &[File]) -> Result<Vec<u8>, NoAnswer> {
    let imports = imports_in(alloc, files)?;
    let mut parts = Vec::new(alloc);
    for i in imports.interfaces.as_slice() {
        parts.push(Vec::from_slice(alloc, i.module.name.as_str().as_bytes())?)?;
    }
    Ok(line_of(alloc, parts.as_slice(), b" ")?)
}
