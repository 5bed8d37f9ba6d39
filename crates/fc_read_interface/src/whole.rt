//! A whole text.
ghost use Rattle.std.specs.Prelude.{◌≡◌, ◌≤◌, [], length, map, true, Ok, IfOk, IfErr};
ghost use Rattle.fc_syntax.specs.Limits.{standard_limits};
ghost use Rattle.fc_syntax.specs.Tokens.{lexeme_of, tokens_of};
ghost use Rattle.fc_syntax.specs.View.{module_of};
ghost use Rattle.fc_model.specs.Words.{toks};
ghost use Rattle.fc_model.specs.FileForms.{InterfaceFile};
ghost use Rattle.fc_model.specs.Grammar.{AnInterface};
ghost use Rattle.fc_model.specs.Reading.{Reads};
ghost use Rattle.fc_model.specs.ReadFaults.{decls_within, ReadsTo};
ghost use Rattle.fc_lattice.specs.View.{as_interface};
ghost use Rattle.fc_read_parts.specs.Seen.{seen_all};
ghost use Rattle.fc_reader.specs.Halting.{RefusesFile};
ghost use Rattle.fc_reader.specs.Refusals.{IsReadRefusalOf};

use crate::form::read_interface_form;
use fc_lattice::Interface;
use fc_read_parts::{Stop, Terminal, Tokens};
use fc_reader::{Halt, halted, up_to_deep_bracket};
use fc_syntax::{Refusal, Token};
use std::alloc::Global;

/// The interface within the limits that all the tokens are a text of, where there is this much room for its declarations.
fn read_whole(alloc: Global, tokens: &[Terminal<'_>], room: u32) -> Result<Interface, Halt>
    ensures found { IfOk result (λ i. Reads AnInterface (seen_all tokens.now) (as_interface i) []) }
    ensures within { IfOk result (λ i. decls_within room (module_of i.module) ≡ true) }
    ensures fault { IfErr result (RefusesFile InterfaceFile room (seen_all tokens.now)) }
{
    let mut rest = Tokens::new(alloc, tokens);
    let interface = read_interface_form(alloc, &mut rest, room)?;
    let left = rest.left();
    if left > 0 {
        return Err(Halt::Stop(Stop::Form(left)));
    }
    Ok(interface)
}

/// The interface that the tokens of a file spell, within the limits, where there is this much room for its declarations.
pub(crate) fn read_tokens(
    alloc: Global,
    file: &str,
    bytes: &[u8],
    tokens: &[Token],
    terminals: &[Terminal<'_>],
    room: u32,
) -> Result<Interface, Refusal>
    requires short { length bytes.now ≤ standard_limits.file_bytes }
    requires lexed { tokens_of bytes.now ≡ Ok (map (lexeme_of bytes.now) tokens.now) }
    requires classed { seen_all terminals.now ≡ toks bytes.now tokens.now }
    ensures found { IfOk result (λ i. ReadsTo InterfaceFile room bytes.now (as_interface i)) }
    ensures fault { IfErr result (IsReadRefusalOf InterfaceFile room file.now bytes.now) }
{
    let (part, deep) = up_to_deep_bracket(alloc, terminals);
    match read_whole(alloc, part, room) {
        Err(halt) => Err(halted(alloc, file, bytes, tokens, part, deep, halt)),
        Ok(interface) => Ok(interface),
    }
}
