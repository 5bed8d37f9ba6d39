//! Prints what stands in expressions: the bindings of a let, join points and the alternatives of a case.
ghost use Rattle.std.specs.Prelude.{◌≡◌, ◌∷◌, ◌++◌, codes, OnOk};
ghost use Rattle.fc_syntax.specs.Tree.{BValue};
ghost use Rattle.fc_syntax.specs.View.{alt_of, alts_of, bind_of, binders_of, binds_of, join_of, joins_of, ty_of};
ghost use Rattle.fc_model.specs.Pieces.{NoPieces, first_text, pieces_text, spaced_text, tok_text};
ghost use Rattle.fc_model.specs.Spelling.{Alone, alt_pieces, alts_pieces, bind_pieces, binder_pieces, binders_pieces, binds_pieces, join_pieces, joins_pieces, type_pieces, upper_tok};

use crate::binders::{put_binders, put_value};
use crate::exprs::put_last_expr;
use crate::types::put_next_type;
use crate::words::{put_literal, put_name, put_word};
use fc_syntax::{Alt, Bind, Binder, Head, JoinBind, Memory, Name, Text, Ty};

#[cycle(exprs)]
#[tactic(auto, using(crate::proofs::Spaced::type_rules))]
fn put_bind(b: &Bind, to: &mut Vec<u8>) -> Result<(), Memory>
    ensures { OnOk result (to.new.items ≡ to.old.items ++ first_text (bind_pieces (bind_of b.now) NoPieces)) }
{
    to.push(b'(')?;
    put_word(&b.name, to)?;
    put_next_type(&b.ty, to)?;
    put_last_expr(&b.rhs, to)
}

#[cycle(exprs)]
#[tactic(auto, using(crate::proofs::SpacedForms::spaced_bind, std::proofs::lemmas::Grind::common_steps))]
pub(crate) fn put_next_binds(binds: &[Bind], to: &mut Vec<u8>) -> Result<(), Memory>
    ensures { OnOk result (to.new.items ≡ to.old.items ++ spaced_text (binds_pieces (binds_of binds.now) NoPieces)) }
{
    for b in binds {
        to.push(b' ')?;
        put_bind(b, to)?;
    }
    Ok(())
}

// One space between bindings.
#[cycle(exprs)]
#[tactic(auto, using(crate::proofs::SpacedForms::first_bind_rules, std::proofs::lemmas::Grind::common_steps))]
pub(crate) fn put_binds(binds: &[Bind], to: &mut Vec<u8>) -> Result<(), Memory>
    ensures { OnOk result (to.new.items ≡ to.old.items ++ pieces_text (binds_pieces (binds_of binds.now) NoPieces)) }
{
    let mut behind = false;
    for b in binds {
        if behind {
            to.push(b' ')?;
        }
        put_bind(b, to)?;
        behind = true;
    }
    Ok(())
}

#[cycle(exprs)]
fn put_join(j: &JoinBind, to: &mut Vec<u8>) -> Result<(), Memory>
    ensures { OnOk result (to.new.items ≡ to.old.items ++ first_text (join_pieces (join_of j.now) NoPieces)) }
{
    to.push(b'(')?;
    put_word(&j.name, to)?;
    to.extend_from_slice(b" (")?;
    put_binders(j.params.as_slice(), to)?;
    to.push(b')')?;
    put_last_expr(&j.rhs, to)
}

#[cycle(exprs)]
#[tactic(auto, using(crate::proofs::SpacedForms::spaced_join, std::proofs::lemmas::Grind::common_steps))]
pub(crate) fn put_next_joins(joins: &[JoinBind], to: &mut Vec<u8>) -> Result<(), Memory>
    ensures { OnOk result (to.new.items ≡ to.old.items ++ spaced_text (joins_pieces (joins_of joins.now) NoPieces)) }
{
    for j in joins {
        to.push(b' ')?;
        put_join(j, to)?;
    }
    Ok(())
}

// One space between join points.
#[cycle(exprs)]
#[tactic(auto, using(crate::proofs::SpacedForms::first_join_rules, std::proofs::lemmas::Grind::common_steps))]
pub(crate) fn put_joins(joins: &[JoinBind], to: &mut Vec<u8>) -> Result<(), Memory>
    ensures { OnOk result (to.new.items ≡ to.old.items ++ pieces_text (joins_pieces (joins_of joins.now) NoPieces)) }
{
    let mut behind = false;
    for j in joins {
        if behind {
            to.push(b' ')?;
        }
        put_join(j, to)?;
        behind = true;
    }
    Ok(())
}

fn put_constructor(n: &Name, binders: &[Binder], to: &mut Vec<u8>) -> Result<(), Memory>
    ensures { OnOk result (to.new.items ≡ to.old.items ++ (tok_text (upper_tok n.now) ++ (codes " (" ++ (pieces_text (binders_pieces (binders_of binders.now) NoPieces) ++ codes ")")))) }
{
    put_name(n, to)?;
    to.extend_from_slice(b" (")?;
    put_binders(binders, to)?;
    to.push(b')')?;
    Ok(())
}

#[cycle(exprs)]
fn put_alt(a: &Alt, to: &mut Vec<u8>) -> Result<(), Memory>
    ensures { OnOk result (to.new.items ≡ to.old.items ++ first_text (alt_pieces (alt_of a.now) NoPieces)) }
{
    to.push(b'(')?;
    match &a.head {
        Head::Default => to.extend_from_slice(b"default")?,
        Head::Lit(n) => put_literal(*n, to)?,
        Head::Con(n) => put_constructor(n, a.binders.as_slice(), to)?,
    }
    put_last_expr(&a.body, to)
}

#[cycle(exprs)]
#[tactic(auto, using(crate::proofs::SpacedForms::next_alt, std::proofs::lemmas::Grind::common_steps))]
fn put_next_alts(alts: &[Alt], to: &mut Vec<u8>) -> Result<(), Memory>
    ensures { OnOk result (to.new.items ≡ to.old.items ++ spaced_text (alts_pieces (alts_of alts.now) NoPieces)) }
{
    for a in alts {
        to.push(b' ')?;
        put_alt(a, to)?;
    }
    Ok(())
}

// What a case has behind its scrutinee.
#[cycle(exprs)]
pub(crate) fn put_case(
    alts: &[Alt],
    x: &Text,
    t: &Ty,
    u: &Ty,
    to: &mut Vec<u8>,
) -> Result<(), Memory>
    ensures { OnOk result (to.new.items ≡ to.old.items ++ (32 ∷ first_text (binder_pieces (BValue x.now (ty_of t.now)) NoPieces) ++ (spaced_text (type_pieces Alone (ty_of u.now) NoPieces) ++ (spaced_text (alts_pieces (alts_of alts.now) NoPieces) ++ codes ")")))) }
{
    to.push(b' ')?;
    put_value(x, t, to)?;
    put_next_type(u, to)?;
    put_next_alts(alts, to)?;
    to.push(b')')?;
    Ok(())
}
