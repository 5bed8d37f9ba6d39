//! A whole text, and the bytes of its faults.
ghost use Rattle.std.specs.Prelude.{◌≡◌, ◌≤◌, ℕ, ◌&&◌, ◌==◌, [], length, map, drop, true, Ok, IfOk, IfErr};
ghost use Rattle.fc_syntax.specs.Limits.{standard_limits};
ghost use Rattle.fc_syntax.specs.Tokens.{lexeme_of, tokens_of};
ghost use Rattle.fc_syntax.specs.View.{module_of};
ghost use Rattle.fc_model.specs.Words.{toks};
ghost use Rattle.fc_model.specs.FileForms.{FileForm, ModuleFile};
ghost use Rattle.fc_model.specs.Grammar.{AModule};
ghost use Rattle.fc_model.specs.Reading.{Reads};
ghost use Rattle.fc_model.specs.ReadFaults.{byte_of, decls_within, ReadsTo};
ghost use Rattle.fc_read_parts.specs.Seen.{seen_all};
ghost use Rattle.fc_reader.specs.Halting.{RefusesFile};
ghost use Rattle.fc_reader.specs.Nested.{IsPart};
ghost use Rattle.fc_reader.specs.Refusals.{IsReadRefusal, IsReadRefusalOf};
ghost use Rattle.fc_reader.specs.Outcomes.{IsRefusalOf};

use crate::header::read_module_form;
use crate::limits::Halt;
use crate::nesting::up_to_deep_bracket;
use fc_lex::LexError;
use fc_read_parts::{Stop, Terminal, Tokens, refusal_at};
use fc_syntax::{FaultKind, Module, Refusal, Token};
use std::alloc::Global;

/// The module within the limits that all the tokens are a text of, where there is this much room for its declarations.
fn read_whole(alloc: Global, tokens: &[Terminal<'_>], room: u32) -> Result<Module, Halt>
    ensures found { IfOk result (λ m. Reads AModule (seen_all tokens.now) (module_of m) []) }
    ensures within { IfOk result (λ m. decls_within room (module_of m) ≡ true) }
    ensures fault { IfErr result (RefusesFile ModuleFile room (seen_all tokens.now)) }
{
    let mut rest = Tokens::new(alloc, tokens);
    let m = read_module_form(alloc, &mut rest, room)?;
    let left = rest.left();
    if left > 0 {
        return Err(Halt::Stop(Stop::Form(left)));
    }
    Ok(m)
}

/// Whether all tokens up to a bracket that nests too deep were taken.
fn ends_at_bracket(deep: bool, left: usize) -> bool
    ensures { result ≡ (deep && (left == 0)) }
{
    deep && left == 0
}

/// What is told of a file whose reading halted, of whichever form the file is: the fault where it halted, and the byte of that; out of
/// memory where memory ran out, then or now.
///
/// `part` is what was read of the tokens: those up to and with the first bracket that nests too deep, where there is one, as `deep` says.
pub fn halted(
    alloc: Global,
    file: &str,
    bytes: &[u8],
    tokens: &[Token],
    part: &[Terminal<'_>],
    deep: bool,
    halt: Halt,
) -> Refusal
    requires short { length bytes.now ≤ standard_limits.file_bytes }
    requires lexed { tokens_of bytes.now ≡ Ok (map (lexeme_of bytes.now) tokens.now) }
    requires cut { IsPart (toks bytes.now tokens.now) (seen_all part.now) deep }
    ensures { (f : FileForm) (room : ℕ) → RefusesFile f room (seen_all part.now) halt → IsReadRefusalOf f room file.now bytes.now result }
{
    match halt {
        Halt::Stop(stop) => match stop {
            Stop::Memory => Refusal::Memory,
            Stop::Form(left) => {
                let at_bracket = ends_at_bracket(deep, left);
                if at_bracket {
                    let at = byte_of_token(bytes, tokens, part.len().saturating_sub(1));
                    return refusal_at(alloc, file, FaultKind::TooDeep, at);
                }
                let at = byte_of_token(bytes, tokens, part.len().saturating_sub(left));
                refusal_at(alloc, file, FaultKind::BadForm, at)
            }
        },
        Halt::Depth(left) => {
            let at = byte_of_token(bytes, tokens, part.len().saturating_sub(left));
            refusal_at(alloc, file, FaultKind::TooDeep, at)
        }
        Halt::Counts(left) => {
            let at = byte_of_token(bytes, tokens, part.len().saturating_sub(left));
            refusal_at(alloc, file, FaultKind::TooMany, at)
        }
    }
}

/// The module that the tokens of a file spell, within the limits, where there is this much room for its declarations.
pub(crate) fn read_tokens(
    alloc: Global,
    file: &str,
    bytes: &[u8],
    tokens: &[Token],
    terminals: &[Terminal<'_>],
    room: u32,
) -> Result<Module, Refusal>
    requires short { length bytes.now ≤ standard_limits.file_bytes }
    requires lexed { tokens_of bytes.now ≡ Ok (map (lexeme_of bytes.now) tokens.now) }
    requires classed { seen_all terminals.now ≡ toks bytes.now tokens.now }
    ensures found { IfOk result (λ m. ReadsTo ModuleFile room bytes.now (module_of m)) }
    ensures fault { IfErr result (IsReadRefusal room file.now bytes.now) }
{
    let (part, deep) = up_to_deep_bracket(alloc, terminals);
    match read_whole(alloc, part, room) {
        Err(halt) => Err(halted(alloc, file, bytes, tokens, part, deep, halt)),
        Ok(m) => Ok(m),
    }
}

/// The byte of the token of this number, counted from 0, or the length of the file where there is none.
fn byte_of_token(bytes: &[u8], tokens: &[Token], number: usize) -> u32
    requires short { length bytes.now ≤ standard_limits.file_bytes }
    requires inside { number ≤ length tokens.now }
    ensures { result ≡ byte_of bytes.now (map (lexeme_of bytes.now) (drop number tokens.now)) }
{
    match &tokens[number..] {
        [] => bytes.len() as u32,
        [token, ..] => token.from,
    }
}

/// What is told of a file whose bytes are no tokens: their first fault, and the byte of that; out of memory where memory ran out, then or
/// now.
pub fn refusal_of(alloc: Global, file: &str, error: LexError) -> Refusal
    ensures { IsRefusalOf file.now error result }
{
    match error {
        LexError::BadByte(at) => refusal_at(alloc, file, FaultKind::BadByte, at),
        LexError::BadToken(at) => refusal_at(alloc, file, FaultKind::BadToken, at),
        LexError::LiteralRange(at) => refusal_at(alloc, file, FaultKind::LiteralRange, at),
        LexError::Memory => Refusal::Memory,
    }
}
