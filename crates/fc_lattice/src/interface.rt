//! What is known of a module from outside.
ghost use Rattle.std.specs.Prelude.{◌≡◌, [], ◌∷◌, ◌++◌, OnErr, OnOk};

use crate::demand::Sig;
use fc_syntax::{Memory, Module, Seq};
use std::alloc::Global;

/// What a later module knows of a module: its header, its types and axioms, and of each definition the type, the signature and maybe the
/// right side (the interface files of GHC).
#[derive(Drop)]
pub struct Interface {
    /// The module, in which each definition whose right side is not told is a `def` of its type that fails.
    pub module: Module,
    /// The signatures of the definitions, in declared order.
    pub sigs: Seq<Sig>,
    /// For each definition, in declared order, whether its right side is told.
    pub unfold: Seq<bool>,
}

/// The interfaces of modules that are imported.
#[derive(Drop)]
pub struct Imports {
    /// In the order in which they were added.
    pub interfaces: Seq<Interface>,
}

impl Imports {
    /// No interfaces, which take no memory.
    pub fn new(alloc: Global) -> Imports
        ensures { result.interfaces ≡ [] }
    {
        Imports {
            interfaces: Seq::new(alloc),
        }
    }

    /// Puts one more behind those that are there. Fails only where memory runs out; then those that are there stay as they are.
    pub fn add(&mut self, interface: Interface) -> Result<(), Memory>
        ensures added { OnOk result (self.new.interfaces ≡ self.old.interfaces ++ interface ∷ []) }
        ensures kept { OnErr result (self.new ≡ self.old) }
    {
        self.interfaces.push(interface)
    }
}
