//! What tokens are to the grammar.
ghost use Rattle.std.specs.Prelude.{◌≡◌, ◌≤◌, length, true, false, None, IfOk};
ghost use Rattle.fc_syntax.specs.Tokens.{AreSlices, is_module_name as spec_is_module_name, is_plain_name, lexeme_of};
ghost use Rattle.fc_model.specs.Words.{dotted_tok, name_in_tok, tok_of, toks, word_tok, keyword_of as spec_keyword_of};
ghost use Rattle.fc_read_parts.specs.Seen.{seen, seen_all};

use crate::words::{keyword_of, sign_of};
use fc_lex::{is_lower_name, is_module_name, is_upper_name, last_part};
use fc_syntax::{Keyword, Memory, PrimOp, Seq, Token, TokenKind};
use std::alloc::Global;
use std::str;

/// What a token is to the grammar. A name is borrowed from the text; one with a dot is split at its last one.
#[derive(Clone, Copy, Debug)]
pub enum Terminal<'a> {
    /// `(`
    Open,
    /// `)`
    Close,
    /// A word of a form.
    Key(Keyword),
    /// A name that starts with a lower letter, `_` or `$`.
    Lower(&'a str),
    /// A name that starts with an upper letter.
    Upper(&'a str),
    /// A lower name behind a dot: the module before the dot, and the name.
    LowerOf(&'a str, &'a str),
    /// An upper name behind a dot: the module before the dot, and the name.
    UpperOf(&'a str, &'a str),
    /// `*`
    Star,
    /// `#`
    Hash,
    /// `->`
    Arrow,
    /// The sign of a primitive.
    Operator(PrimOp),
    /// A literal, by its value.
    Literal(i64),
    /// A number, by its value.
    Number(u32),
    /// A word of a form behind a dot.
    Other,
}

/// A lower or an upper name as text. Takes no memory.
#[tactic(auto, using(crate::proofs::Ascii::name_utf8))]
pub fn name_text(word: &[u8]) -> &str
    requires { is_plain_name word.now ≡ true }
    ensures { result.now ≡ word.now }
{
    match str::from_utf8(word) {
        Ok(text) => text,
        Err(_) => unreachable!(),
    }
}

/// A module name as text. Takes no memory.
#[tactic(auto, using(crate::proofs::Ascii::module_utf8))]
pub fn module_text(word: &[u8]) -> &str
    requires { spec_is_module_name word.now ≡ true }
    ensures { result.now ≡ word.now }
{
    match str::from_utf8(word) {
        Ok(text) => text,
        Err(_) => unreachable!(),
    }
}

/// What a word behind the dot of a module is.
fn terminal_in_module<'a>(front: &'a [u8], word: &'a [u8]) -> Terminal<'a>
    requires { spec_is_module_name front.now ≡ true }
    ensures { seen result ≡ name_in_tok front.now word.now }
{
    if is_lower_name(word) {
        Terminal::LowerOf(module_text(front), name_text(word))
    } else if is_upper_name(word) {
        Terminal::UpperOf(module_text(front), name_text(word))
    } else {
        Terminal::Other
    }
}

/// What a word with a dot is, by what stands before its last dot and behind it.
fn terminal_of_dotted<'a>(front: &'a [u8], word: &'a [u8]) -> Terminal<'a>
    ensures { seen result ≡ dotted_tok (spec_keyword_of word.now) front.now word.now }
{
    match keyword_of(word) {
        None if is_module_name(front) => terminal_in_module(front, word),
        _ => Terminal::Other,
    }
}

/// What a word is that is no word of a form and no name without a dot.
fn terminal_of_other(word: &[u8]) -> Terminal<'_>
    requires no_keyword { spec_keyword_of word.now ≡ None }
    requires no_name { is_plain_name word.now ≡ false }
    ensures { seen result ≡ word_tok word.now }
{
    let start = last_part(word);
    if start > 0 {
        terminal_of_dotted(&word[..start - 1], &word[start..])
    } else {
        match sign_of(word) {
            Some(sign) => sign,
            None => Terminal::Other,
        }
    }
}

/// What a word is that is no word of a form.
#[tactic(auto, using(crate::proofs::Names::name_rules))]
fn terminal_of_name(word: &[u8]) -> Terminal<'_>
    requires { spec_keyword_of word.now ≡ None }
    ensures { seen result ≡ word_tok word.now }
{
    if is_lower_name(word) {
        Terminal::Lower(name_text(word))
    } else if is_upper_name(word) {
        Terminal::Upper(name_text(word))
    } else {
        terminal_of_other(word)
    }
}

/// What a word is.
fn terminal_of_word(word: &[u8]) -> Terminal<'_>
    ensures { seen result ≡ word_tok word.now }
{
    match keyword_of(word) {
        Some(key) => Terminal::Key(key),
        None => terminal_of_name(word),
    }
}

/// What a token of these bytes is.
fn terminal_of<'a>(bytes: &'a [u8], token: &Token) -> Terminal<'a>
    requires ordered { token.now.from ≤ token.now.to }
    requires inside { token.now.to ≤ length bytes.now }
    ensures { seen result ≡ tok_of (lexeme_of bytes.now token.now) }
{
    match token.kind {
        TokenKind::Open => Terminal::Open,
        TokenKind::Close => Terminal::Close,
        TokenKind::Word => terminal_of_word(&bytes[token.from as usize..token.to as usize]),
        TokenKind::Literal(n) => Terminal::Literal(n),
        TokenKind::Number(n) => Terminal::Number(n),
    }
}

/// What the tokens of a text are, each found once. Fails only where memory runs out.
#[inline(never)]
pub fn terminals<'a>(
    alloc: Global,
    bytes: &'a [u8],
    tokens: &[Token],
) -> Result<Seq<Terminal<'a>>, Memory>
    requires { AreSlices bytes.now tokens.now }
    ensures { IfOk result (λ ts. seen_all ts ≡ toks bytes.now tokens.now) }
{
    let mut all = Seq::with_capacity(alloc, tokens.len())?;
    for token in tokens {
        all.push(terminal_of(bytes, token))?;
    }
    Ok(all)
}
