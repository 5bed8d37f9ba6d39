//! Bytes by what they may do in a text.
ghost use Rattle.std.specs.Prelude.{◌≡◌, ◌+◌, ◌≤◌, drop, length, IfOk, IfErr};
ghost use Rattle.std.specs.List.{prefix_len};
ghost use Rattle.fc_syntax.specs.Limits.{standard_limits};
ghost use Rattle.fc_syntax.specs.Tokens.{byte_class, is_plain, lexed, Between, InComment};
ghost use Rattle.fc_lex.specs.Classes.{as_byte_class};
ghost use Rattle.fc_lex.specs.Faults.{IsFirstFault};

use crate::LexError;

/// What a byte may do in a text.
#[derive(Clone, Copy, Debug, PartialEq, Eq)]
pub(crate) enum Class {
    /// A space, a tab or a carriage return.
    Blank,
    /// The end of a line.
    LineFeed,
    /// `(`
    Opening,
    /// `)`
    Closing,
    /// The start of a comment.
    Semicolon,
    /// Part of a word.
    Plain,
    /// May not stand in a text.
    Foreign,
}

/// The class of a byte.
#[inline(always)]
pub(crate) fn class_of(byte: u8) -> Class
    ensures { as_byte_class result ≡ byte_class byte }
{
    match byte {
        b'\n' => Class::LineFeed,
        b'\t' | b'\r' | b' ' => Class::Blank,
        b'(' => Class::Opening,
        b')' => Class::Closing,
        b';' => Class::Semicolon,
        b'!'..=b'~' => Class::Plain,
        _ => Class::Foreign,
    }
}

/// Whether a byte is part of a word.
pub(crate) fn is_plain_byte(byte: u8) -> bool
    ensures { result ≡ is_plain byte }
{
    matches!(byte, b'!'..=b'~') && !matches!(byte, b'(' | b')' | b';')
}

/// The end of the word that goes on at `at`: the first byte from there on that is no part of it.
pub(crate) fn word_end(bytes: &[u8], at: usize) -> usize
    requires { at ≤ length bytes.now }
    ensures value { result ≡ at + prefix_len is_plain (drop at bytes.now) }
    ensures within { result ≤ length bytes.now }
{
    let mut end = at;
    while end < bytes.len() && is_plain_byte(bytes[end]) {
        end += 1;
    }
    end
}

/// The end of the comment that goes on at `at`: its line feed, or the end of the text; or the first byte that may not stand
/// in it.
pub(crate) fn comment_end(bytes: &[u8], at: usize) -> Result<usize, LexError>
    requires inside { at ≤ length bytes.now }
    requires room { length bytes.now ≤ standard_limits.file_bytes }
    ensures read { IfOk result (λ end. lexed InComment at (drop at bytes.now) ≡ lexed Between end (drop end bytes.now)) }
    ensures forward { IfOk result (λ end. at ≤ end) }
    ensures within { IfOk result (λ end. end ≤ length bytes.now) }
    ensures fault { IfErr result (IsFirstFault (lexed InComment at (drop at bytes.now))) }
{
    let mut end = at;
    while end < bytes.len() {
        match class_of(bytes[end]) {
            Class::LineFeed => return Ok(end),
            Class::Foreign => return Err(LexError::BadByte(end as u32)),
            _ => end += 1,
        }
    }
    Ok(end)
}
