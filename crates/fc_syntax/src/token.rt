//! Tokens of a text.

/// What a token is.
#[derive(Clone, Copy, Debug, PartialEq, Eq)]
pub enum TokenKind {
    /// `(`
    Open,
    /// `)`
    Close,
    /// A name, a qualified name or a sign.
    Word,
    /// A literal as `-12#`, by its value.
    Literal(i64),
    /// A number of one to nine decimal digits, by its value.
    Number(u32),
}

/// A token: the bytes from `from` up to `to`, counted from 0, and what they are.
#[derive(Clone, Copy, Debug, PartialEq, Eq)]
pub struct Token {
    /// The number of its first byte.
    pub from: u32,
    /// The number of the byte after its last.
    pub to: u32,
    /// What it is.
    pub kind: TokenKind,
}
