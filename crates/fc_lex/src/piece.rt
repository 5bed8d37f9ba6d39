//! A text a piece at a time.
ghost use Rattle.std.specs.Prelude.{◌≡◌, ◌≤◌, ◌<◌, drop, length, slice_index, IfOk, IfErr};
ghost use Rattle.fc_syntax.specs.Limits.{standard_limits};
ghost use Rattle.fc_syntax.specs.Tokens.{byte_class, lexed, Between, Plain};
ghost use Rattle.fc_lex.specs.Faults.{IsFirstFault};
ghost use Rattle.fc_lex.specs.Pieces.{then_piece};

use crate::LexError;
use crate::class::{Class, class_of, comment_end, word_end};
use crate::word::{name_bytes_end, starts_name, word_kind};
use fc_syntax::TokenKind;

/// A blank, a comment or a token.
#[derive(Clone, Copy, Debug)]
pub(crate) struct Piece {
    /// The number of the byte after its last.
    pub(crate) end: usize,
    /// What the token is, `None` for a blank or a comment.
    pub(crate) kind: Option<TokenKind>,
}

/// A blank or a comment.
fn blank(end: usize) -> Piece
    ensures { result ≡ record { end = end; kind = None } }
{
    Piece { end, kind: None }
}

/// A token.
fn token(end: usize, kind: TokenKind) -> Piece
    ensures { result ≡ record { end = end; kind = Some kind } }
{
    Piece {
        end,
        kind: Some(kind),
    }
}

/// The word that begins at a byte between tokens. Most words are names without a dot, and end where their bytes of names do.
fn word_at(bytes: &[u8], at: usize) -> Result<Piece, LexError>
    requires inside { at < length bytes.now }
    requires room { length bytes.now ≤ standard_limits.file_bytes }
    requires plain { byte_class (slice_index bytes.now at) ≡ Plain }
    ensures read { IfOk result (λ p. lexed Between at (drop at bytes.now)
        ≡ then_piece bytes.now at p.end p.kind (lexed Between p.end (drop p.end bytes.now))) }
    ensures forward { IfOk result (λ p. at < p.end) }
    ensures within { IfOk result (λ p. p.end ≤ length bytes.now) }
    ensures fault { IfErr result (IsFirstFault (lexed Between at (drop at bytes.now))) }
{
    let names = name_bytes_end(bytes, at + 1);
    let end = word_end(bytes, names);
    if end == names && starts_name(bytes[at]) {
        Ok(token(end, TokenKind::Word))
    } else {
        let kind = word_kind(&bytes[at..end], at as u32)?;
        Ok(token(end, kind))
    }
}

/// The piece that begins at a byte between tokens.
pub(crate) fn piece_at(bytes: &[u8], at: usize) -> Result<Piece, LexError>
    requires inside { at < length bytes.now }
    requires room { length bytes.now ≤ standard_limits.file_bytes }
    ensures read { IfOk result (λ p. lexed Between at (drop at bytes.now)
        ≡ then_piece bytes.now at p.end p.kind (lexed Between p.end (drop p.end bytes.now))) }
    ensures forward { IfOk result (λ p. at < p.end) }
    ensures within { IfOk result (λ p. p.end ≤ length bytes.now) }
    ensures fault { IfErr result (IsFirstFault (lexed Between at (drop at bytes.now))) }
{
    match class_of(bytes[at]) {
        Class::Blank | Class::LineFeed => Ok(blank(at + 1)),
        Class::Semicolon => {
            let end = comment_end(bytes, at + 1)?;
            Ok(blank(end))
        }
        Class::Opening => Ok(token(at + 1, TokenKind::Open)),
        Class::Closing => Ok(token(at + 1, TokenKind::Close)),
        Class::Plain => word_at(bytes, at),
        Class::Foreign => Err(LexError::BadByte(at as u32)),
    }
}
