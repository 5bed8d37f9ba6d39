//! Prints types and the names in them.
ghost use Rattle.std.specs.Prelude.{◌≡◌, ◌++◌, OnOk};
ghost use Rattle.fc_syntax.specs.Tree.{TForall};
ghost use Rattle.fc_syntax.specs.View.{kind_of, ty_of, tys_of};
ghost use Rattle.fc_model.specs.Pieces.{NoPieces, pieces_text, spaced_text};
ghost use Rattle.fc_model.specs.Spelling.{Alone, AsHead, Result, type_pieces, types_pieces};
ghost use Rattle.fc_model.specs.Canonical.{type_text};

use crate::kinds::put_variable;
use crate::words::{put_name, put_role, put_word};
use fc_syntax::{Kind, Memory, Text, Ty};

/// Appends the text of a type. Where memory runs out, the bytes before stand and a part of the text may follow.
#[cycle(types)]
#[tactic(auto, using(crate::proofs::Spaced::type_rules))]
pub fn put_type(t: &Ty, to: &mut Vec<u8>) -> Result<(), Memory>
    ensures { OnOk result (to.new.items ≡ to.old.items ++ type_text (ty_of t.now)) }
{
    match t {
        Ty::Var(a) => put_word(a, to),
        Ty::Con(n) => put_name(n, to),
        Ty::IntHash => {
            to.extend_from_slice(b"Int#")?;
            Ok(())
        }
        Ty::App(head, u) => {
            to.push(b'(')?;
            put_type_head(head, to)?;
            put_next_type(u, to)?;
            to.push(b')')?;
            Ok(())
        }
        Ty::Fun(from, result) => {
            to.extend_from_slice(b"(fun")?;
            put_next_type(from, to)?;
            put_result(result, to)?;
            to.push(b')')?;
            Ok(())
        }
        Ty::Forall(a, k, body) => put_forall(body, a, k, to),
        Ty::CoForall(r, left, right, body) => {
            to.extend_from_slice(b"(coforall ")?;
            put_role(*r, to)?;
            put_next_type(left, to)?;
            put_next_type(right, to)?;
            put_next_type(body, to)?;
            to.push(b')')?;
            Ok(())
        }
    }
}

#[cycle(types)]
#[tactic(auto, using(crate::proofs::Spaced::forall_rules))]
fn put_forall(body: &Ty, a: &Text, k: &Kind, to: &mut Vec<u8>) -> Result<(), Memory>
    ensures { OnOk result (to.new.items ≡ to.old.items ++ type_text (TForall a.now (kind_of k.now) (ty_of body.now))) }
{
    to.extend_from_slice(b"(forall ")?;
    put_variable(a, k, to)?;
    to.push(b' ')?;
    put_type(body, to)?;
    to.push(b')')?;
    Ok(())
}

#[cycle(types)]
#[tactic(auto, using(crate::proofs::Spaced::next_type_rules))]
pub(crate) fn put_next_type(t: &Ty, to: &mut Vec<u8>) -> Result<(), Memory>
    ensures { OnOk result (to.new.items ≡ to.old.items ++ spaced_text (type_pieces Alone (ty_of t.now) NoPieces)) }
{
    to.push(b' ')?;
    put_type(t, to)
}

// The head of an application: its own arguments stand before those that follow.
#[cycle(types)]
#[tactic(auto, using(crate::proofs::Spaced::type_rules))]
fn put_type_head(t: &Ty, to: &mut Vec<u8>) -> Result<(), Memory>
    ensures { OnOk result (to.new.items ≡ to.old.items ++ pieces_text (type_pieces AsHead (ty_of t.now) NoPieces)) }
{
    match t {
        Ty::App(head, u) => {
            put_type_head(head, to)?;
            put_next_type(u, to)
        }
        Ty::Var(_)
        | Ty::Con(_)
        | Ty::IntHash
        | Ty::Fun(_, _)
        | Ty::Forall(_, _, _)
        | Ty::CoForall(_, _, _, _) => put_type(t, to),
    }
}

// The result of a function, which goes on with the list of its parts: one space before each.
#[cycle(types)]
#[tactic(auto, using(crate::proofs::Spaced::type_rules))]
fn put_result(t: &Ty, to: &mut Vec<u8>) -> Result<(), Memory>
    ensures { OnOk result (to.new.items ≡ to.old.items ++ spaced_text (type_pieces Result (ty_of t.now) NoPieces)) }
{
    match t {
        Ty::Fun(next, result) => {
            put_next_type(next, to)?;
            put_result(result, to)
        }
        Ty::Var(_)
        | Ty::Con(_)
        | Ty::IntHash
        | Ty::App(_, _)
        | Ty::Forall(_, _, _)
        | Ty::CoForall(_, _, _, _) => put_next_type(t, to),
    }
}

#[tactic(auto, using(crate::proofs::Spaced::next_type, std::proofs::lemmas::Grind::common_steps))]
pub(crate) fn put_next_types(types: &[Ty], to: &mut Vec<u8>) -> Result<(), Memory>
    ensures { OnOk result (to.new.items ≡ to.old.items ++ spaced_text (types_pieces (tys_of types.now) NoPieces)) }
{
    for t in types {
        put_next_type(t, to)?;
    }
    Ok(())
}
