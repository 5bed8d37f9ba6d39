//! What is told of a text that is refused.
ghost use Rattle.fc_read_parts.specs.Refusing.{IsRefusalAt};

use fc_syntax::{Fault, FaultKind, Place, Refusal, Text};
use std::alloc::Global;

/// A fault at a byte of a file, in no declaration; out of memory where the name of the file cannot be copied.
pub fn refusal_at(alloc: Global, file: &str, kind: FaultKind, at: u32) -> Refusal
    ensures { IsRefusalAt file.now kind at result }
{
    match Text::from_str(alloc, file) {
        Err(_) => Refusal::Memory,
        Ok(module) => Refusal::Fault(Fault {
            kind,
            module,
            def: None,
            path: Place::Byte(at),
        }),
    }
}
