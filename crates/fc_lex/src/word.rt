//! What words are.
ghost use Rattle.std.specs.Prelude.{◌≡◌, ◌+◌, ◌≤◌, ◌<◌, ◌↔◌, IsTrue, not, length, drop, IfOk, IfErr, SomeIff, Ok};
ghost use Rattle.std.specs.List.{list_all, list_any, prefix_len, suffix_len};
ghost use Rattle.std.specs.Str.Parse.{digits_value};
ghost use Rattle.fc_syntax.specs.Tokens as spec;
ghost use Rattle.fc_lex.specs.Faults.{IsWordFault};

use crate::LexError;
use fc_syntax::TokenKind;
use std::str;

/// A decimal digit.
fn is_digit(byte: u8) -> bool
    ensures { result ≡ spec.is_digit byte }
{
    matches!(byte, b'0'..=b'9')
}

/// An upper letter.
fn is_upper_letter(byte: u8) -> bool
    ensures { result ≡ spec.is_upper_letter byte }
{
    matches!(byte, b'A'..=b'Z')
}

/// A letter, a digit or `_`.
fn is_module_byte(byte: u8) -> bool
    ensures { result ≡ spec.is_module_byte byte }
{
    matches!(byte, b'a'..=b'z' | b'A'..=b'Z' | b'0'..=b'9' | b'_')
}

/// For each byte whether it may stand in a name: `s` anywhere, as a letter, `_` or `$`, `n` only after the first, as a digit, `'` or `#`,
/// and a dot nowhere.
static IN_NAMES: [u8; 256] = *b"\
    ................................\
    ...ns..n........nnnnnnnnnn......\
    .ssssssssssssssssssssssssss....s\
    .ssssssssssssssssssssssssss.....\
    ................................\
    ................................\
    ................................\
    ................................";

/// A byte of a name after its first.
fn is_name_byte(byte: u8) -> bool
    ensures { result ≡ spec.is_name_byte byte }
{
    IN_NAMES[byte as usize] != b'.'
}

/// Whether a name may start with a byte: a letter, `_` or `$`.
pub(crate) fn starts_name(byte: u8) -> bool
    ensures { result ≡ spec.starts_names byte }
{
    IN_NAMES[byte as usize] == b's'
}

/// Whether each byte is a decimal digit.
fn all_digits(bytes: &[u8]) -> bool
    ensures { result ≡ list_all spec.is_digit bytes.now }
{
    bytes.iter().all(|b| is_digit(*b))
}

/// Whether each byte is a letter, a digit or `_`.
fn all_module_bytes(bytes: &[u8]) -> bool
    ensures { result ≡ list_all spec.is_module_byte bytes.now }
{
    bytes.iter().all(|b| is_module_byte(*b))
}

/// Whether each byte may stand in a name after its first.
fn all_name_bytes(bytes: &[u8]) -> bool
    ensures { result ≡ list_all spec.is_name_byte bytes.now }
{
    bytes.iter().all(|b| is_name_byte(*b))
}

/// The first byte from `at` on that may not stand in a name after its first.
pub(crate) fn name_bytes_end(bytes: &[u8], at: usize) -> usize
    requires { at ≤ length bytes.now }
    ensures value { result ≡ at + prefix_len spec.is_name_byte (drop at bytes.now) }
    ensures within { result ≤ length bytes.now }
{
    let mut end = at;
    while end < bytes.len() && is_name_byte(bytes[end]) {
        end += 1;
    }
    end
}

/// Whether a word is a lower name, as variables and definitions have: a lower letter, `_` or `$`, then letters, digits, `_`, `'`,
/// `#` and `$`. Takes no memory.
pub fn is_lower_name(word: &[u8]) -> bool
    ensures { result ≡ spec.is_lower_name word.now }
{
    match word.split_first() {
        None => false,
        Some((first, rest)) => {
            matches!(*first, b'a'..=b'z' | b'_' | b'$') && all_name_bytes(rest)
        }
    }
}

/// Whether a word is an upper name, as types and constructors have: an upper letter, then letters, digits, `_`, `'`, `#` and `$`.
/// Takes no memory.
pub fn is_upper_name(word: &[u8]) -> bool
    ensures { result ≡ spec.is_upper_name word.now }
{
    match word.split_first() {
        None => false,
        Some((first, rest)) => is_upper_letter(*first) && all_name_bytes(rest),
    }
}

/// Whether a word is a part of a module name, between its dots: an upper letter, then letters, digits and `_`. Takes no memory.
pub fn is_module_part(word: &[u8]) -> bool
    ensures { result ≡ spec.is_module_part word.now }
{
    match word.split_first() {
        None => false,
        Some((first, rest)) => is_upper_letter(*first) && all_module_bytes(rest),
    }
}

/// A lower or an upper name, without a module.
fn is_plain_name(word: &[u8]) -> bool
    ensures { result ≡ spec.is_plain_name word.now }
{
    is_lower_name(word) || is_upper_name(word)
}

/// Whether a word is a module name: parts, each as `is_module_part` says, joined by dots. Takes no memory.
pub fn is_module_name(word: &[u8]) -> bool
    ensures { result ≡ spec.is_module_name word.now }
{
    word.split(|b| *b == b'.').all(|part| is_module_part(part))
}

/// Where a word's last part begins: after its last dot, or at 0 where there is none. Takes no memory.
pub fn last_part(word: &[u8]) -> usize
    ensures within { result ≤ length word.now }
    ensures value { result + suffix_len (λ b. not (spec.is_dot b)) word.now ≡ length word.now }
    ensures dotted { IsTrue (list_any spec.is_dot word.now) ↔ (0 < result) }
{
    let mut start = word.len();
    while start > 0 && word[start - 1] != b'.' {
        start -= 1;
    }
    start
}

/// A name, or a module name, a dot and a name.
fn is_name(word: &[u8]) -> bool
    ensures { result ≡ spec.is_name word.now }
{
    let start = last_part(word);
    is_plain_name(&word[start..]) && (start == 0 || is_module_name(&word[..start - 1]))
}

/// A sign of kinds and primitives.
fn is_sign(word: &[u8]) -> bool
    ensures { result ≡ spec.is_sign word.now }
{
    matches!(
        word,
        b"*" | b"#"
            | b"->"
            | b"+#"
            | b"-#"
            | b"*#"
            | b"==#"
            | b"/=#"
            | b"<#"
            | b"<=#"
            | b">#"
            | b">=#"
    )
}

/// One decimal digit or more.
fn is_digits(word: &[u8]) -> bool
    ensures { result ≡ spec.is_digits word.now }
{
    !word.is_empty() && all_digits(word)
}

/// Whether a word is a number: one to nine decimal digits. Takes no memory.
pub fn is_number(word: &[u8]) -> bool
    ensures { result ≡ spec.is_number word.now }
{
    word.len() <= 9 && is_digits(word)
}

/// The number that one to nine decimal digits write, `None` for any other word. Takes no memory.
pub fn number(word: &[u8]) -> Option<u32>
    ensures { SomeIff result (IsTrue (spec.is_number word.now)) (digits_value 10 word.now) }
{
    if !is_number(word) {
        return None;
    }
    match str::from_utf8(word) {
        Ok(text) => text.parse::<u32>().ok(),
        Err(_) => None,
    }
}

/// A numeral without the minus before it, where there is one. Takes no memory.
pub fn without_minus(numeral: &[u8]) -> &[u8]
    ensures { result.now ≡ spec.without_minus numeral.now }
{
    match numeral.split_first() {
        Some((b'-', digits)) => digits,
        _ => numeral,
    }
}

/// Whether a word is a literal: a minus where there is one, decimal digits, `#`. Takes no memory.
pub fn is_literal(word: &[u8]) -> bool
    ensures { result ≡ spec.is_literal word.now }
{
    match word.split_last() {
        Some((last, numeral)) => *last == b'#' && is_digits(without_minus(numeral)),
        None => false,
    }
}

/// The value of a literal, `None` beyond 64 bits. Takes no memory.
pub fn literal_value(word: &[u8]) -> Option<i64>
    requires { IsTrue (spec.is_literal word.now) }
    ensures { SomeIff result (IsTrue (spec.is_in_range word.now)) (spec.literal_value word.now) }
{
    match str::from_utf8(&word[..word.len() - 1]) {
        Ok(numeral) => numeral.parse::<i64>().ok(),
        Err(_) => None,
    }
}

/// What the word that begins at a byte is: a literal, a number, or a name or sign.
pub(crate) fn word_kind(word: &[u8], at: u32) -> Result<TokenKind, LexError>
    ensures kind { IfOk result (λ k. spec.word_kind at word.now ≡ Ok k) }
    ensures fault { IfErr result (IsWordFault (spec.word_kind at word.now)) }
{
    if is_literal(word) {
        match literal_value(word) {
            Some(value) => Ok(TokenKind::Literal(value)),
            None => Err(LexError::LiteralRange(at)),
        }
    } else if let Some(value) = number(word) {
        Ok(TokenKind::Number(value))
    } else if is_name(word) || is_sign(word) {
        Ok(TokenKind::Word)
    } else {
        Err(LexError::BadToken(at))
    }
}
