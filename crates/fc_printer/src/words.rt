//! Prints words, signs and numbers.
ghost use Rattle.std.specs.Prelude.{◌≡◌, ◌++◌, OnOk};
ghost use Rattle.fc_model.specs.Words.{Literal, Number};
ghost use Rattle.fc_model.specs.Pieces.{tok_text};
ghost use Rattle.fc_model.specs.Spelling.{lower_tok, operator_tok, role_tok, upper_tok};

use fc_syntax::{Memory, Name, PrimOp, Role, Text};
use itoa::Buffer;

/// Appends a word. Where memory runs out, the bytes before stand and a part of the text may follow, here and in all functions that put a
/// text.
pub fn put_word(w: &Text, to: &mut Vec<u8>) -> Result<(), Memory>
    ensures { OnOk result (to.new.items ≡ to.old.items ++ w.now) }
{
    to.extend_from_slice(w.as_str().as_bytes())?;
    Ok(())
}

/// Appends a name of either case, behind its module where it has one.
pub fn put_name(n: &Name, to: &mut Vec<u8>) -> Result<(), Memory>
    ensures upper { OnOk result (to.new.items ≡ to.old.items ++ tok_text (upper_tok n.now)) }
    ensures lower { OnOk result (to.new.items ≡ to.old.items ++ tok_text (lower_tok n.now)) }
{
    match &n.module {
        None => put_word(&n.text, to),
        Some(m) => {
            put_word(m, to)?;
            to.push(b'.')?;
            put_word(&n.text, to)
        }
    }
}

pub(crate) fn put_role(r: Role, to: &mut Vec<u8>) -> Result<(), Memory>
    ensures { OnOk result (to.new.items ≡ to.old.items ++ tok_text (role_tok r)) }
{
    match r {
        Role::N => to.push(b'N')?,
        Role::R => to.push(b'R')?,
        Role::P => to.push(b'P')?,
    }
    Ok(())
}

#[tactic(auto, using(crate::proofs::FormWords::operator_written))]
pub(crate) fn put_operator(o: PrimOp, to: &mut Vec<u8>) -> Result<(), Memory>
    ensures { OnOk result (to.new.items ≡ to.old.items ++ tok_text (operator_tok o)) }
{
    to.extend_from_slice(o.text().as_bytes())?;
    Ok(())
}

// A literal in decimal digits, without leading zeros.
pub(crate) fn put_literal(n: i64, to: &mut Vec<u8>) -> Result<(), Memory>
    ensures { OnOk result (to.new.items ≡ to.old.items ++ tok_text (Literal n)) }
{
    let mut digits = Buffer::new();
    to.extend_from_slice(digits.format(n).as_bytes())?;
    to.push(b'#')?;
    Ok(())
}

pub(crate) fn put_number(n: u32, to: &mut Vec<u8>) -> Result<(), Memory>
    ensures { OnOk result (to.new.items ≡ to.old.items ++ tok_text (Number n)) }
{
    let mut digits = Buffer::new();
    to.extend_from_slice(digits.format(n).as_bytes())?;
    Ok(())
}
