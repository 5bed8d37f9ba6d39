//! Reads the text of an interface.
#![tactic(auto)]

ghost use Rattle.std.specs.Prelude.{◌≤◌, length, IfOk, IfErr};
ghost use Rattle.fc_syntax.specs.Limits.{standard_limits};
ghost use Rattle.fc_model.specs.FileForms.{InterfaceFile};
ghost use Rattle.fc_model.specs.Formed.{IsInterfaceFormed};
ghost use Rattle.fc_model.specs.ReadFaults.{ReadsTo};
ghost use Rattle.fc_lattice.specs.View.{as_interface};
ghost use Rattle.fc_reader.specs.Refusals.{IsReadRefusalOf};

mod form;
mod items;
mod whole;

use crate::whole::read_tokens;
use fc_lattice::Interface;
use fc_read_parts::terminals;
use fc_reader::refusal_of;
use fc_syntax::Refusal;
use std::alloc::Global;

/// The interface that the bytes of a file spell, within the limits. `room` is the most size that its declarations may have together,
/// where each definition whose right side is not told counts as a `def` of its type that fails.
///
/// A fault has the name of the file as its module, no declaration, and the byte at which the first fault stands: all tokens
/// are made first (a bad byte, a bad token, a literal out of range), then the form is read, item after item. A fault of form stands at
/// the first token that cannot go on, or at the length of the file; brackets that nest too deep, at the first such bracket; an item whose
/// declaration is too deep, has too many parts or makes the interface too large for the room, at its own opening bracket.
#[tactic(auto, using(crate::proofs::Wholes::interface_formed))]
pub fn read_interface(
    alloc: Global,
    file: &str,
    bytes: &[u8],
    room: u32,
) -> Result<Interface, Refusal>
    requires { length bytes.now ≤ standard_limits.file_bytes }
    ensures found { IfOk result (λ i. ReadsTo InterfaceFile room bytes.now (as_interface i)) }
    ensures formed { IfOk result (λ i. IsInterfaceFormed (as_interface i)) }
    ensures fault { IfErr result (IsReadRefusalOf InterfaceFile room file.now bytes.now) }
{
    let tokens = match fc_lex::tokens(alloc, bytes) {
        Err(error) => return Err(refusal_of(alloc, file, error)),
        Ok(tokens) => tokens,
    };
    let terminals = terminals(alloc, bytes, tokens.as_slice())?;
    read_tokens(
        alloc,
        file,
        bytes,
        tokens.as_slice(),
        terminals.as_slice(),
        room,
    )
}
