//! Prints binders and parameters.
ghost use Rattle.std.specs.Prelude.{◌≡◌, ◌++◌, OnOk};
ghost use Rattle.fc_syntax.specs.Tree.{BCo, BType, BValue};
ghost use Rattle.fc_syntax.specs.View.{binder_of, binders_of, kind_of, param_of, params_of, plain_of, plains_of, ty_of};
ghost use Rattle.fc_model.specs.Pieces.{NoPieces, first_text, pieces_text, spaced_text};
ghost use Rattle.fc_model.specs.Spelling.{binder_pieces, binders_pieces, param_pieces, params_pieces, plain_pieces, plains_pieces};

use crate::kinds::{put_next_kind, put_variable};
use crate::types::put_next_type;
use crate::words::{put_role, put_word};
use fc_syntax::{Binder, Kind, Memory, Param, Plain, Role, Text, Ty};

pub(crate) fn put_value(x: &Text, t: &Ty, to: &mut Vec<u8>) -> Result<(), Memory>
    ensures { OnOk result (to.new.items ≡ to.old.items ++ first_text (binder_pieces (BValue x.now (ty_of t.now)) NoPieces)) }
{
    to.push(b'(')?;
    put_word(x, to)?;
    put_next_type(t, to)?;
    to.push(b')')?;
    Ok(())
}

fn put_type_binder(a: &Text, k: &Kind, to: &mut Vec<u8>) -> Result<(), Memory>
    ensures { OnOk result (to.new.items ≡ to.old.items ++ first_text (binder_pieces (BType a.now (kind_of k.now)) NoPieces)) }
{
    to.extend_from_slice(b"(type ")?;
    put_word(a, to)?;
    put_next_kind(k, to)?;
    to.push(b')')?;
    Ok(())
}

#[tactic(auto, using(crate::proofs::Spaced::type_rules))]
fn put_co_binder(c: &Text, r: Role, t: &Ty, u: &Ty, to: &mut Vec<u8>) -> Result<(), Memory>
    ensures { OnOk result (to.new.items ≡ to.old.items ++ first_text (binder_pieces (BCo c.now r (ty_of t.now) (ty_of u.now)) NoPieces)) }
{
    to.extend_from_slice(b"(co ")?;
    put_word(c, to)?;
    to.push(b' ')?;
    put_role(r, to)?;
    put_next_type(t, to)?;
    put_next_type(u, to)?;
    to.push(b')')?;
    Ok(())
}

pub(crate) fn put_binder(b: &Binder, to: &mut Vec<u8>) -> Result<(), Memory>
    ensures { OnOk result (to.new.items ≡ to.old.items ++ first_text (binder_pieces (binder_of b.now) NoPieces)) }
{
    match b {
        Binder::Value(x, t) => put_value(x, t, to),
        Binder::OfType(a, k) => put_type_binder(a, k, to),
        Binder::OfCo(c, r, t, u) => put_co_binder(c, *r, t, u, to),
    }
}

#[tactic(auto, using(crate::proofs::SpacedForms::next_binder_rules))]
pub(crate) fn put_next_binder(b: &Binder, to: &mut Vec<u8>) -> Result<(), Memory>
    ensures { OnOk result (to.new.items ≡ to.old.items ++ spaced_text (binder_pieces (binder_of b.now) NoPieces)) }
{
    to.push(b' ')?;
    put_binder(b, to)
}

#[tactic(auto, using(crate::proofs::SpacedForms::next_binder, std::proofs::lemmas::Grind::common_steps))]
fn put_next_binders(binders: &[Binder], to: &mut Vec<u8>) -> Result<(), Memory>
    ensures { OnOk result (to.new.items ≡ to.old.items ++ spaced_text (binders_pieces (binders_of binders.now) NoPieces)) }
{
    for b in binders {
        put_next_binder(b, to)?;
    }
    Ok(())
}

// One space between binders.
#[tactic(auto, using(crate::proofs::SpacedForms::first_binder, std::proofs::lemmas::Grind::common_steps))]
pub(crate) fn put_binders(binders: &[Binder], to: &mut Vec<u8>) -> Result<(), Memory>
    ensures { OnOk result (to.new.items ≡ to.old.items ++ pieces_text (binders_pieces (binders_of binders.now) NoPieces)) }
{
    match binders {
        [] => Ok(()),
        [first, others @ ..] => {
            put_binder(first, to)?;
            put_next_binders(others, to)
        }
    }
}

#[tactic(auto, using(crate::proofs::Spaced::kind_rules))]
fn put_param(p: &Param, to: &mut Vec<u8>) -> Result<(), Memory>
    ensures { OnOk result (to.new.items ≡ to.old.items ++ first_text (param_pieces (param_of p.now) NoPieces)) }
{
    to.push(b'(')?;
    put_word(&p.name, to)?;
    put_next_kind(&p.kind, to)?;
    to.push(b' ')?;
    put_role(p.role, to)?;
    to.push(b')')?;
    Ok(())
}

#[tactic(auto, using(crate::proofs::SpacedForms::next_param, std::proofs::lemmas::Grind::common_steps))]
fn put_next_params(params: &[Param], to: &mut Vec<u8>) -> Result<(), Memory>
    ensures { OnOk result (to.new.items ≡ to.old.items ++ spaced_text (params_pieces (params_of params.now) NoPieces)) }
{
    for p in params {
        to.push(b' ')?;
        put_param(p, to)?;
    }
    Ok(())
}

pub(crate) fn put_params(params: &[Param], to: &mut Vec<u8>) -> Result<(), Memory>
    ensures { OnOk result (to.new.items ≡ to.old.items ++ pieces_text (params_pieces (params_of params.now) NoPieces)) }
{
    match params {
        [] => Ok(()),
        [first, others @ ..] => {
            put_param(first, to)?;
            put_next_params(others, to)
        }
    }
}

fn put_plain(p: &Plain, to: &mut Vec<u8>) -> Result<(), Memory>
    ensures { OnOk result (to.new.items ≡ to.old.items ++ first_text (plain_pieces (plain_of p.now) NoPieces)) }
{
    put_variable(&p.name, &p.kind, to)
}

#[tactic(auto, using(crate::proofs::SpacedForms::next_plain, std::proofs::lemmas::Grind::common_steps))]
fn put_next_plains(plains: &[Plain], to: &mut Vec<u8>) -> Result<(), Memory>
    ensures { OnOk result (to.new.items ≡ to.old.items ++ spaced_text (plains_pieces (plains_of plains.now) NoPieces)) }
{
    for p in plains {
        to.push(b' ')?;
        put_plain(p, to)?;
    }
    Ok(())
}

pub(crate) fn put_plains(plains: &[Plain], to: &mut Vec<u8>) -> Result<(), Memory>
    ensures { OnOk result (to.new.items ≡ to.old.items ++ pieces_text (plains_pieces (plains_of plains.now) NoPieces)) }
{
    match plains {
        [] => Ok(()),
        [first, others @ ..] => {
            put_plain(first, to)?;
            put_next_plains(others, to)
        }
    }
}
