//! A fault of a set of modules, on the way out to the public call.
ghost use Rattle.std.specs.Prelude.{Some};
ghost use Rattle.fc_model.specs.Planning.{of_kind};
ghost use Rattle.fc_plan.specs.Refusing.{Tells};

use fc_syntax::{Fault, FaultKind, Memory, Place, Refusal, Text};
use std::alloc::Global;

/// A fault of the whole of a module, or that no memory is left to tell it.
pub(crate) fn refusal(alloc: Global, kind: FaultKind, name: &Text) -> Refusal
    ensures { Tells (Some (of_kind kind name.now)) result }
{
    match name.copy(alloc) {
        Ok(module) => Refusal::Fault(Fault {
            kind,
            module,
            def: None,
            path: Place::Nowhere,
        }),
        Err(Memory) => Refusal::Memory,
    }
}
