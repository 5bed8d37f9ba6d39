//! Prints kinds and the variables that are declared with them.
ghost use Rattle.std.specs.Prelude.{◌≡◌, ◌++◌, OnOk};
ghost use Rattle.fc_syntax.specs.View.{kind_of};
ghost use Rattle.fc_model.specs.Words.{Lower};
ghost use Rattle.fc_model.specs.Pieces.{Group, NoPieces, first_text, piece_text, spaced_text};
ghost use Rattle.fc_model.specs.Spelling.{kind_pieces, leaf};

use crate::words::put_word;
use fc_syntax::{Kind, Memory, Text};

#[cycle(kinds)]
#[tactic(auto, using(crate::proofs::Spaced::kind_rules))]
pub(crate) fn put_kind(k: &Kind, to: &mut Vec<u8>) -> Result<(), Memory>
    ensures { OnOk result (to.new.items ≡ to.old.items ++ first_text (kind_pieces (kind_of k.now) NoPieces)) }
{
    match k {
        Kind::Star => {
            to.push(b'*')?;
            Ok(())
        }
        Kind::Hash => {
            to.push(b'#')?;
            Ok(())
        }
        Kind::Arrow(from, result) => {
            to.extend_from_slice(b"(->")?;
            put_next_kind(from, to)?;
            put_next_kind(result, to)?;
            to.push(b')')?;
            Ok(())
        }
    }
}

// A kind behind a space, as all that a name with `next` puts.
#[cycle(kinds)]
#[tactic(auto, using(crate::proofs::Spaced::next_kind_rules))]
pub(crate) fn put_next_kind(k: &Kind, to: &mut Vec<u8>) -> Result<(), Memory>
    ensures { OnOk result (to.new.items ≡ to.old.items ++ spaced_text (kind_pieces (kind_of k.now) NoPieces)) }
{
    to.push(b' ')?;
    put_kind(k, to)
}

// (a kind)
pub(crate) fn put_variable(a: &Text, k: &Kind, to: &mut Vec<u8>) -> Result<(), Memory>
    ensures { OnOk result (to.new.items ≡ to.old.items ++ piece_text (Group (leaf (Lower a.now) (kind_pieces (kind_of k.now) NoPieces)))) }
{
    to.push(b'(')?;
    put_word(a, to)?;
    put_next_kind(k, to)?;
    to.push(b')')?;
    Ok(())
}
