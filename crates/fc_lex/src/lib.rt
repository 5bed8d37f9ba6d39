//! The tokens of a text.
#![tactic(auto)]

ghost use Rattle.std.specs.Prelude.{◌≡◌, ◌≤◌, length, map, IfOk, IfErr, Ok};
ghost use Rattle.fc_syntax.specs.Limits.{standard_limits};
ghost use Rattle.fc_syntax.specs.Tokens.{AreInOrder, AreSlices, lexeme_of, tokens_of};
ghost use Rattle.fc_lex.specs.Faults.{IsFirstFault};
ghost use Rattle.fc_lex.specs.declared.LexError.TheVariants.{Memory as out_of_memory};

mod class;
mod piece;
mod word;

use crate::piece::piece_at;
pub use crate::word::{
    is_literal, is_lower_name, is_module_name, is_module_part, is_number, is_upper_name, last_part,
    literal_value, number, without_minus,
};
use fc_syntax::{Memory, Seq, Token};
use std::alloc::Global;
use thiserror::Error;

/// Why a text has no tokens. The numbers are bytes of the text, counted from 0.
#[derive(Debug, Drop, Error)]
pub enum LexError {
    /// A byte that is neither printable ASCII nor white space.
    #[error("bad byte at {0}")]
    BadByte(u32),
    /// The first byte of a word of no form.
    #[error("bad token at {0}")]
    BadToken(u32),
    /// The first byte of a literal beyond 64 bits.
    #[error("literal out of range at {0}")]
    LiteralRange(u32),
    /// Out of memory.
    #[error("out of memory")]
    Memory,
}

impl From<Memory> for LexError {
    ghost from_gives = { λ _ e. e ≡ out_of_memory };

    fn from(_e: Memory) -> LexError {
        LexError::Memory
    }
}

/// The tokens of a text of at most 4 MiB, in their order; or the first byte or word that is no part of one.
#[inline(never)]
pub fn tokens(alloc: Global, bytes: &[u8]) -> Result<Seq<Token>, LexError>
    requires { length bytes.now ≤ standard_limits.file_bytes }
    ensures found { IfOk result (λ ts. tokens_of bytes.now ≡ Ok (map (lexeme_of bytes.now) ts)) }
    ensures slices { IfOk result (λ ts. AreSlices bytes.now ts) }
    ensures in_order { IfOk result AreInOrder }
    ensures fault { IfErr result (IsFirstFault (tokens_of bytes.now)) }
{
    let mut all = Seq::new(alloc);
    let mut at = 0;
    while at < bytes.len() {
        let piece = piece_at(bytes, at)?;
        if let Some(kind) = piece.kind {
            all.push(Token {
                from: at as u32,
                to: piece.end as u32,
                kind,
            })?;
        }
        at = piece.end;
    }
    Ok(all)
}
