//! Reads the text of a module, and the parts of one from its tokens.
//!
//! `read_expr`, `read_type` and `read_decl` each read one form from the tokens ahead, and leave those behind it; at the first token
//! that cannot go on they stop. They go as deep as brackets nest in the tokens that they are given: `up_to_deep_bracket` cuts these
//! where they nest too deep. The other limits are those of a module, and `read_module` alone looks at them.
//!
//! What a reader of interfaces shares with that of modules is offered too: `read_module_names` and `read_names` for the header, `measure`
//! for the limits of each declaration, and `refusal_of` and `halted` for the faults of a file.
#![tactic(auto)]

ghost use Rattle.std.specs.Prelude.{◌≡◌, ◌≤◌, length, IfOk, IfErr};
ghost use Rattle.fc_syntax.specs.Limits.{standard_limits};
ghost use Rattle.fc_syntax.specs.View.{module_of};
ghost use Rattle.fc_model.specs.FileForms.{FileForm, ModuleFile};
ghost use Rattle.fc_model.specs.Formed.{IsFormed};
ghost use Rattle.fc_model.specs.ReadFaults.{ReadsTo};
ghost use Rattle.fc_reader.specs.Refusals.{HasOneFirstFault, IsReadRefusal, SpellsOne};

mod decls;
mod header;
mod limits;
mod nesting;
mod whole;

pub use crate::header::{Header, read_module_names, read_names};
pub use crate::limits::{Halt, Measured, measure};
pub use crate::nesting::up_to_deep_bracket;
use crate::whole::read_tokens;
pub use crate::whole::{halted, refusal_of};
pub use fc_read_parts::{Stop, Terminal, Tokens, terminals};
pub use fc_read_terms::{read_declaration as read_decl, read_expression as read_expr};
pub use fc_read_types::read_type;
use fc_syntax::{Module, Refusal};
use std::alloc::Global;

/// The module that the bytes of a file spell, within the limits. `room` is the most size that its declarations may have together: the
/// limit of a set, without the size of the modules read before.
///
/// A fault has the name of the file as its module, no declaration, and the byte at which the first fault stands: all tokens
/// are made first (a bad byte, a bad token, a literal out of range), then the form is read, declaration after declaration. A
/// fault of form stands at the first token that cannot go on, or at the length of the file; brackets that nest too deep, at
/// the first such bracket; a declaration that is too deep, has too many parts or makes the module too large for the room, at
/// its own opening bracket.
#[tactic(auto, using(crate::proofs::RowsFormed::module_formed))]
pub fn read_module(alloc: Global, file: &str, bytes: &[u8], room: u32) -> Result<Module, Refusal>
    requires { length bytes.now ≤ standard_limits.file_bytes }
    ensures found { IfOk result (λ m. ReadsTo ModuleFile room bytes.now (module_of m)) }
    ensures formed { IfOk result (λ m. IsFormed (module_of m)) }
    ensures fault { IfErr result (IsReadRefusal room file.now bytes.now) }
{
    let tokens = match fc_lex::tokens(alloc, bytes) {
        Err(error) => return Err(refusal_of(alloc, file, error)),
        Ok(tokens) => tokens,
    };
    let terminals = terminals(alloc, bytes, tokens.as_slice())?;
    read_tokens(
        alloc,
        file,
        bytes,
        tokens.as_slice(),
        terminals.as_slice(),
        room,
    )
}

/// Bytes spell at most one file of a form, and where there is a first fault they spell none within the limits, whatever room there is.
pub fn a_text_has_one_module()
    ensures one { (f : FileForm) → SpellsOne f }
{}

/// Bytes have at most one first fault as a file of a form, whatever room there is.
pub fn a_text_has_one_first_fault()
    ensures one { (f : FileForm) → HasOneFirstFault f }
{}
