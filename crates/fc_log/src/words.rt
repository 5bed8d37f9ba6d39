//! What words are where they stand.
ghost use Rattle.std.specs.Prelude.{◌≡◌, option_map, IfSome};
ghost use Rattle.std.specs.Option.{option_copied};
ghost use Rattle.fc_log.specs.Grammar as spec;
ghost use Rattle.fc_log.specs.Reading.{IsPathRead, place_read};

use crate::log::{Answer, Row};
use crate::numbers::{is_path, is_written_literal};
use fc_lex::{is_lower_name, literal_value};
use fc_read_parts::name_text;

/// Whether a row is of the whole module, and of no definition.
fn is_def_dead(row: Row) -> bool
    ensures { result ≡ spec.is_def_dead row }
{
    matches!(row, Row::DefDead)
}

/// Whether a row has an answer.
pub(crate) fn is_fold(row: Row) -> bool
    ensures { result ≡ spec.is_fold row }
{
    matches!(row, Row::Fold)
}

/// The definition that a word names in a step of a row, `None` inside for that of the whole module; `None` where the word names none.
pub(crate) fn def_of(row: Row, word: &[u8]) -> Option<Option<&str>>
    ensures { option_map option_copied result ≡ spec.def_of row word.now }
{
    if is_def_dead(row) {
        match word {
            b"-" => Some(None),
            _ => None,
        }
    } else if is_lower_name(word) {
        Some(Some(name_text(word)))
    } else {
        None
    }
}

/// The path that a word writes in a step of a row, `None` inside for a step of the whole module; `None` where the word writes none.
pub(crate) fn path_of(row: Row, word: &[u8]) -> Option<Option<&[u8]>>
    ensures place { option_map (λ p. place_read (option_copied p)) result ≡ spec.place_of row word.now }
    ensures path { IfSome result IsPathRead }
{
    if is_def_dead(row) {
        match word {
            b"-" => Some(None),
            _ => None,
        }
    } else if is_path(word) {
        Some(Some(word))
    } else {
        None
    }
}

/// The answer of a fold that a word is.
pub(crate) fn answer_of(word: &[u8]) -> Option<Answer>
    ensures { result ≡ spec.answer_of word.now }
{
    if word == b"first".as_slice() {
        Some(Answer::First)
    } else if word == b"second".as_slice() {
        Some(Answer::Second)
    } else if is_written_literal(word) {
        literal_value(word).map(Answer::Literal)
    } else {
        None
    }
}
