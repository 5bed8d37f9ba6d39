//! Part numbers, paths and how literals are written. Takes no memory.
ghost use Rattle.std.specs.Prelude.{◌≡◌, ◌&&◌, not, codes, IsTrue};
ghost use Rattle.std.specs.Str.{bytes_eq};
ghost use Rattle.fc_syntax.specs.Tokens as lex;
ghost use Rattle.fc_log.specs.Grammar as spec;

use fc_lex::{is_literal, is_number, without_minus};

/// Whether digits begin with no zero that could be left out.
fn no_leading_zero(digits: &[u8]) -> bool
    ensures { result ≡ spec.no_leading_zero digits.now }
{
    match digits {
        [] | [_] => true,
        [first, ..] => *first != b'0',
    }
}

/// Whether a word is a part number: one to nine digits without leading zeros.
fn is_part_number(word: &[u8]) -> bool
    ensures { result ≡ spec.is_part_number word.now }
{
    is_number(word) && no_leading_zero(word)
}

/// Whether a word is a path: part numbers with dots between them.
pub(crate) fn is_path(word: &[u8]) -> bool
    ensures { result ≡ spec.is_path word.now }
{
    word.split(|b| *b == b'.').all(|part| is_part_number(part))
}

/// Whether a literal is written as it is printed: without leading zeros, and not as `-0#`.
fn is_printed_so(word: &[u8]) -> bool
    requires { IsTrue (lex.is_literal word.now) }
    ensures { result ≡ (spec.no_leading_zero (lex.without_minus (lex.without_hash word.now)) && not (bytes_eq word.now (codes "-0#"))) }
{
    no_leading_zero(without_minus(&word[..word.len() - 1])) && word != b"-0#".as_slice()
}

/// Whether a word is a literal that is written as it is printed, in range or not.
pub(crate) fn is_written_literal(word: &[u8]) -> bool
    ensures { result ≡ spec.is_written_literal word.now }
{
    is_literal(word) && is_printed_so(word)
}
