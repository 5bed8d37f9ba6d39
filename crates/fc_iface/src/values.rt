//! Prints the items of an interface.
ghost use Rattle.std.specs.Prelude.{◌≡◌, ◌++◌, codes, OnOk};
ghost use Rattle.fc_syntax.specs.View.{decl_of, expr_of, ty_of};
ghost use Rattle.fc_model.specs.Pieces.{NoPieces, first_text, piece_text, spaced_text};
ghost use Rattle.fc_model.specs.Spelling.{Alone, expr_pieces, type_pieces};
ghost use Rattle.fc_lattice.specs.View.{sig_of};
ghost use Rattle.fc_model.specs.InterfaceTexts.{sig_pieces, unfolding_pieces, value_piece};

use crate::demands::put_sig;
use fc_lattice::Sig;
use fc_printer::{put_expr, put_type, put_word};
use fc_syntax::{Decl, Expr, Memory, Text, Ty};

/// The right side of a definition behind the word of its declaration.
#[tactic(auto, using(fc_printer::proofs::SpacedForms::next_expr_rules))]
fn put_right(opening: &[u8], e: &Expr, to: &mut Vec<u8>) -> Result<(), Memory>
    ensures { OnOk result (to.new.items ≡ to.old.items ++ (opening.now ++ (spaced_text (expr_pieces Alone (expr_of e.now) NoPieces) ++ codes ")"))) }
{
    to.extend_from_slice(opening)?;
    to.push(b' ')?;
    put_expr(e, to)?;
    to.push(b')')?;
    Ok(())
}

/// What is told of the right side of a declaration.
fn put_unfolding(d: &Decl, told: bool, to: &mut Vec<u8>) -> Result<(), Memory>
    ensures { OnOk result (to.new.items ≡ to.old.items ++ first_text (unfolding_pieces told (decl_of d.now) NoPieces)) }
{
    match d {
        Decl::Def(_, _, e) if told => put_right(b"(def", e, to),
        Decl::Wrap(_, _, e) if told => put_right(b"(wrap", e, to),
        _ => {
            to.extend_from_slice(b"none")?;
            Ok(())
        }
    }
}

/// A name and its type, behind the word of a value.
#[tactic(auto, using(fc_printer::proofs::Spaced::next_type_rules))]
fn put_typed(x: &Text, t: &Ty, to: &mut Vec<u8>) -> Result<(), Memory>
    ensures { OnOk result (to.new.items ≡ to.old.items ++ (codes "(value " ++ (x.now ++ spaced_text (type_pieces Alone (ty_of t.now) NoPieces)))) }
{
    to.extend_from_slice(b"(value ")?;
    put_word(x, to)?;
    to.push(b' ')?;
    put_type(t, to)
}

/// A signature and what is told of the right side.
#[tactic(auto, using(crate::proofs::Spaced::told_rules))]
fn put_told(s: &Sig, told: bool, d: &Decl, to: &mut Vec<u8>) -> Result<(), Memory>
    ensures { OnOk result (to.new.items ≡ to.old.items ++ spaced_text (sig_pieces (sig_of s.now) (unfolding_pieces told (decl_of d.now) NoPieces))) }
{
    to.push(b' ')?;
    put_sig(s, to)?;
    to.push(b' ')?;
    put_unfolding(d, told, to)
}

/// A definition as a value.
#[tactic(auto, using(crate::proofs::Spaced::value_rules))]
pub(crate) fn put_value(
    x: &Text,
    t: &Ty,
    s: &Sig,
    told: bool,
    d: &Decl,
    to: &mut Vec<u8>,
) -> Result<(), Memory>
    ensures { OnOk result (to.new.items ≡ to.old.items ++ piece_text (value_piece x.now (ty_of t.now) (sig_of s.now) told (decl_of d.now))) }
{
    put_typed(x, t, to)?;
    put_told(s, told, d, to)?;
    to.push(b')')?;
    Ok(())
}
