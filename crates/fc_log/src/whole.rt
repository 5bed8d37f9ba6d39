//! A whole text, and the bytes of its faults.
ghost use Rattle.std.specs.Prelude.{◌≡◌, ◌≤◌, None, length, IfErr, IfOk};
ghost use Rattle.fc_syntax.specs.Limits.{standard_limits};
ghost use Rattle.fc_log.specs.Grammar as spec;
ghost use Rattle.fc_log.specs.Reading.{StopsAt, tokens_in};
ghost use Rattle.fc_log.specs.Seen.{seen_all};
ghost use Rattle.fc_log.specs.Texts.{IsFormedLog, IsLogRefusal, SpellsLog, answer_kind, bad_byte_from, byte_of, cuts_of, stuck_at};

use crate::cut::{Piece, Token, bad_byte, cut};
use crate::log::Log;
use crate::numbers::is_written_literal;
use crate::reading::{read_entries, read_head};
use crate::tokens::{Stop, Tokens};
use fc_read_parts::refusal_at;
use fc_syntax::{FaultKind, Refusal, Text};
use std::alloc::Global;

/// The log that the bytes of a file of at most 4 MiB spell.
///
/// A fault has the name of the file as its module, no declaration, and the byte at which it stands. A byte that is neither printable
/// ASCII nor a line feed comes first; then the first word or end of a line that cannot stand where it stands, or the length of the file
/// where it ends too early. That is a bad form, or a literal out of range, where the answer of a fold stands next. Out of memory says
/// nothing of the file.
pub fn read(alloc: Global, file: &str, bytes: &[u8]) -> Result<Log, Refusal>
    requires { length bytes.now ≤ standard_limits.file_bytes }
    ensures found { IfOk result (λ l. SpellsLog bytes.now l) }
    ensures formed { IfOk result (λ l. IsFormedLog l) }
    ensures fault { IfErr result (λ r. IsLogRefusal file.now bytes.now r) }
{
    if let Some(at) = bad_byte(bytes) {
        return Err(refusal_at(alloc, file, FaultKind::BadByte, at));
    }
    let pieces = cut(alloc, bytes)?;
    match read_pieces(alloc, pieces.as_slice()) {
        Ok(log) => Ok(log),
        Err(stop) => Err(stopped(alloc, file, bytes, pieces.as_slice(), stop)),
    }
}

/// The log that all the tokens are a text of.
fn read_pieces(alloc: Global, pieces: &[Piece<'_>]) -> Result<Log, Stop>
    ensures found { IfOk result (λ l. spec.reads spec.AtStart (tokens_in (seen_all pieces.now)) ≡ spec.Got l) }
    ensures fault { IfErr result (StopsAt spec.AtStart (tokens_in (seen_all pieces.now))) }
{
    let mut tokens = Tokens::new(pieces);
    let name = read_head(&mut tokens)?;
    let entries = read_entries(alloc, &mut tokens)?;
    let module = Text::from_str(alloc, name)?;
    Ok(Log { module, entries })
}

/// The tokens from where reading stopped on: the last so many.
fn last_pieces<'a, 'b>(pieces: &'a [Piece<'b>], left: usize) -> &'a [Piece<'b>]
    ensures { seen_all result.now ≡ stuck_at left (seen_all pieces.now) }
{
    &pieces[pieces.len().saturating_sub(left)..]
}

/// The byte of the first of these tokens, or the length of the file where there is none.
fn byte_of_first(bytes: &[u8], pieces: &[Piece<'_>]) -> u32
    requires { length bytes.now ≤ standard_limits.file_bytes }
    ensures { result ≡ byte_of bytes.now (seen_all pieces.now) }
{
    match pieces {
        [] => bytes.len() as u32,
        [piece, ..] => piece.at,
    }
}

/// What is wrong with the first of these tokens, where the answer of a fold stands next.
fn answer_fault(pieces: &[Piece<'_>]) -> FaultKind
    ensures { result ≡ answer_kind (tokens_in (seen_all pieces.now)) }
{
    match pieces {
        [] => FaultKind::BadForm,
        [piece, ..] => match piece.token {
            Token::Word(word) if is_written_literal(word) => FaultKind::LiteralRange,
            _ => FaultKind::BadForm,
        },
    }
}

/// What is told of a file whose reading stopped; out of memory where memory ran out, then or now.
fn stopped(alloc: Global, file: &str, bytes: &[u8], pieces: &[Piece<'_>], stop: Stop) -> Refusal
    requires short { length bytes.now ≤ standard_limits.file_bytes }
    requires clean { bad_byte_from 0 bytes.now ≡ None }
    requires pieces { seen_all pieces.now ≡ cuts_of bytes.now }
    requires stops { StopsAt spec.AtStart (tokens_in (seen_all pieces.now)) stop }
    ensures { IsLogRefusal file.now bytes.now result }
{
    match stop {
        Stop::Memory => Refusal::Memory,
        Stop::Form(left) => {
            let rest = last_pieces(pieces, left);
            refusal_at(alloc, file, FaultKind::BadForm, byte_of_first(bytes, rest))
        }
        Stop::Answer(left) => {
            let rest = last_pieces(pieces, left);
            refusal_at(alloc, file, answer_fault(rest), byte_of_first(bytes, rest))
        }
    }
}
