//! Cuts a text into tokens.
ghost use Rattle.std.specs.Prelude.{◌≡◌, ◌≤◌, ◌<◌, ◌+◌, ◌++◌, ◌==◌, Bool, None, Some, length, slice_index, slice_range, IfOk};
ghost use Rattle.fc_syntax.specs.Limits.{standard_limits};
ghost use Rattle.fc_log.specs.Grammar.{AWord, ALineEnd};
ghost use Rattle.fc_log.specs.Seen.{seen, seen_all, uncut};
ghost use Rattle.fc_log.specs.Texts as spec;

use fc_syntax::{Memory, Seq};
use std::alloc::Global;

/// A word, or the end of a line.
#[derive(Clone, Copy, Debug)]
pub(crate) enum Token<'a> {
    /// The bytes of a word.
    Word(&'a [u8]),
    /// A line feed.
    LineEnd,
}

/// A token, and where it stands.
#[derive(Clone, Copy, Debug)]
pub(crate) struct Piece<'a> {
    /// The byte at which it begins.
    pub(crate) at: u32,
    /// The token.
    pub(crate) token: Token<'a>,
}

/// Whether a byte may stand in a log: it is printable ASCII or a line feed.
fn is_log_byte(byte: u8) -> bool
    ensures { result ≡ spec.is_log_byte byte }
{
    matches!(byte, b' '..=b'~' | b'\n')
}

/// The first byte that may not stand in a log, counted from 0.
pub(crate) fn bad_byte(bytes: &[u8]) -> Option<u32>
    requires { length bytes.now ≤ standard_limits.file_bytes }
    ensures { result ≡ spec.bad_byte_from 0 bytes.now }
{
    for (at, byte) in bytes.iter().enumerate() {
        if !is_log_byte(*byte) {
            return Some(at as u32);
        }
    }
    None
}

/// The word that ends before a byte.
fn word(bytes: &[u8], begun: usize, end: usize) -> Piece<'_>
    requires ordered { begun ≤ end }
    requires inside { end ≤ length bytes.now }
    requires room { length bytes.now ≤ standard_limits.file_bytes }
    ensures { seen result ≡ record { at = begun; token = AWord (slice_range bytes.now begun end) } }
{
    Piece {
        at: begun as u32,
        token: Token::Word(&bytes[begun..end]),
    }
}

/// The end of a line at a byte.
fn line_end<'a>(at: usize) -> Piece<'a>
    requires { at ≤ standard_limits.file_bytes }
    ensures { seen result ≡ record { at = at; token = ALineEnd } }
{
    Piece {
        at: at as u32,
        token: Token::LineEnd,
    }
}

/// Puts what ends at a byte behind the others: the word at a space, the word and the line at a line feed. Answers where the word
/// begins that goes on behind the byte.
fn push_ended<'a>(
    pieces: &mut Seq<Piece<'a>>,
    bytes: &'a [u8],
    begun: usize,
    at: usize,
) -> Result<usize, Memory>
    requires ordered { begun ≤ at }
    requires inside { at < length bytes.now }
    requires room { length bytes.now ≤ standard_limits.file_bytes }
    ensures same { IfOk result (λ next. (fresh : Bool) → seen_all pieces.new ++ uncut bytes.now (slice_index bytes.now at == 10) next (at + 1) ≡ seen_all pieces.old ++ uncut bytes.now fresh begun at) }
    ensures within { IfOk result (λ next. next ≤ at + 1) }
{
    match bytes[at] {
        b' ' => {
            pieces.push(word(bytes, begun, at))?;
            Ok(at + 1)
        }
        b'\n' => {
            pieces.push(word(bytes, begun, at))?;
            pieces.push(line_end(at))?;
            Ok(at + 1)
        }
        _ => Ok(begun),
    }
}

/// The tokens of a text of at most 4 MiB, in their order. Fails only where memory runs out.
pub(crate) fn cut<'a>(alloc: Global, bytes: &'a [u8]) -> Result<Seq<Piece<'a>>, Memory>
    requires { length bytes.now ≤ standard_limits.file_bytes }
    ensures { IfOk result (λ ps. seen_all ps ≡ spec.cuts_of bytes.now) }
{
    let mut pieces = Seq::new(alloc);
    let mut begun = 0;
    let mut fresh = true;
    for at in 0..bytes.len() {
        begun = push_ended(&mut pieces, bytes, begun, at)?;
        fresh = bytes[at] == b'\n';
    }
    if !fresh {
        pieces.push(word(bytes, begun, bytes.len()))?;
    }
    Ok(pieces)
}
