//! Prints coercions.
ghost use Rattle.std.specs.Prelude.{◌≡◌, ◌++◌, codes, OnOk};
ghost use Rattle.fc_syntax.specs.Tree.{GAx, GRefl, GTc, GUniv};
ghost use Rattle.fc_syntax.specs.View.{co_of, cos_of, kind_of, ty_of};
ghost use Rattle.fc_model.specs.Words.{Lower, Number};
ghost use Rattle.fc_model.specs.Pieces.{Group, NoPieces, first_text, piece_text, spaced_text, tok_text};
ghost use Rattle.fc_model.specs.Spelling.{co_pieces, cos_pieces, kind_pieces, leaf, role_tok};

use crate::kinds::put_variable;
use crate::types::put_next_type;
use crate::words::{put_name, put_number, put_role, put_word};
use fc_syntax::{Co, Kind, Memory, Name, Role, Text, Ty};

#[cycle(coercions)]
#[tactic(auto, using(crate::proofs::SpacedForms::co_rules))]
pub(crate) fn put_co(g: &Co, to: &mut Vec<u8>) -> Result<(), Memory>
    ensures { OnOk result (to.new.items ≡ to.old.items ++ first_text (co_pieces (co_of g.now) NoPieces)) }
{
    match g {
        Co::Var(c) => put_word(c, to),
        Co::Refl(r, t) => put_refl(*r, t, to),
        Co::Sym(g) => put_co_form(g, b"(sym", to),
        Co::Trans(g, h) => {
            put_co_behind(g, b"(trans", to)?;
            put_co_form(h, b"", to)
        }
        Co::Tc(r, n, gs) => put_tc(gs.as_slice(), *r, n, to),
        Co::Capp(g, h) => {
            put_co_behind(g, b"(capp", to)?;
            put_co_form(h, b"", to)
        }
        Co::FunCo(g, h) => {
            put_co_behind(g, b"(funco", to)?;
            put_co_form(h, b"", to)
        }
        Co::AllCo(a, k, g) => {
            put_allco(a, k, to)?;
            put_co_form(g, b"", to)
        }
        Co::CoAllCo(r, s, f, g, h) => {
            put_coallco(*r, *s, to)?;
            put_co_behind(f, b"", to)?;
            put_co_behind(g, b"", to)?;
            put_co_form(h, b"", to)
        }
        Co::Inst(g, h) => {
            put_co_behind(g, b"(inst", to)?;
            put_co_form(h, b"", to)
        }
        Co::Nth(n, g) => {
            put_nth(*n, to)?;
            put_co_form(g, b"", to)
        }
        Co::Left(g) => put_co_form(g, b"(left", to),
        Co::Right(g) => put_co_form(g, b"(right", to),
        Co::Sub(g) => put_co_form(g, b"(sub", to),
        Co::Ax(n, gs) => put_ax(gs.as_slice(), n, to),
        Co::Univ(t, u) => put_univ(t, u, to),
    }
}

// A coercion behind what stands before it.
#[cycle(coercions)]
#[tactic(auto, using(crate::proofs::SpacedForms::next_co_rules))]
fn put_co_behind(g: &Co, opening: &[u8], to: &mut Vec<u8>) -> Result<(), Memory>
    ensures { OnOk result (to.new.items ≡ to.old.items ++ (opening.now ++ spaced_text (co_pieces (co_of g.now) NoPieces))) }
{
    to.extend_from_slice(opening)?;
    to.push(b' ')?;
    put_co(g, to)
}

// The last part of a form, behind what stands before it.
#[cycle(coercions)]
fn put_co_form(g: &Co, opening: &[u8], to: &mut Vec<u8>) -> Result<(), Memory>
    ensures { OnOk result (to.new.items ≡ to.old.items ++ (opening.now ++ (spaced_text (co_pieces (co_of g.now) NoPieces) ++ codes ")"))) }
{
    put_co_behind(g, opening, to)?;
    to.push(b')')?;
    Ok(())
}

pub(crate) fn put_next_co(g: &Co, to: &mut Vec<u8>) -> Result<(), Memory>
    ensures { OnOk result (to.new.items ≡ to.old.items ++ spaced_text (co_pieces (co_of g.now) NoPieces)) }
{
    put_co_behind(g, b"", to)
}

#[cycle(coercions)]
#[tactic(auto, using(crate::proofs::SpacedForms::next_co, std::proofs::lemmas::Grind::common_steps))]
fn put_next_cos(gs: &[Co], to: &mut Vec<u8>) -> Result<(), Memory>
    ensures { OnOk result (to.new.items ≡ to.old.items ++ spaced_text (cos_pieces (cos_of gs.now) NoPieces)) }
{
    for g in gs {
        put_co_behind(g, b"", to)?;
    }
    Ok(())
}

#[cycle(coercions)]
fn put_tc(gs: &[Co], r: Role, n: &Name, to: &mut Vec<u8>) -> Result<(), Memory>
    ensures { OnOk result (to.new.items ≡ to.old.items ++ first_text (co_pieces (GTc r n.now (cos_of gs.now)) NoPieces)) }
{
    to.extend_from_slice(b"(tc ")?;
    put_role(r, to)?;
    to.push(b' ')?;
    put_name(n, to)?;
    put_next_cos(gs, to)?;
    to.push(b')')?;
    Ok(())
}

#[cycle(coercions)]
fn put_ax(gs: &[Co], n: &Name, to: &mut Vec<u8>) -> Result<(), Memory>
    ensures { OnOk result (to.new.items ≡ to.old.items ++ first_text (co_pieces (GAx n.now (cos_of gs.now)) NoPieces)) }
{
    to.extend_from_slice(b"(ax ")?;
    put_name(n, to)?;
    put_next_cos(gs, to)?;
    to.push(b')')?;
    Ok(())
}

fn put_refl(r: Role, t: &Ty, to: &mut Vec<u8>) -> Result<(), Memory>
    ensures { OnOk result (to.new.items ≡ to.old.items ++ first_text (co_pieces (GRefl r (ty_of t.now)) NoPieces)) }
{
    to.extend_from_slice(b"(refl ")?;
    put_role(r, to)?;
    put_next_type(t, to)?;
    to.push(b')')?;
    Ok(())
}

#[tactic(auto, using(crate::proofs::Spaced::type_rules))]
fn put_univ(t: &Ty, u: &Ty, to: &mut Vec<u8>) -> Result<(), Memory>
    ensures { OnOk result (to.new.items ≡ to.old.items ++ first_text (co_pieces (GUniv (ty_of t.now) (ty_of u.now)) NoPieces)) }
{
    to.extend_from_slice(b"(univ")?;
    put_next_type(t, to)?;
    put_next_type(u, to)?;
    to.push(b')')?;
    Ok(())
}

// What stands before the parts of three forms.
fn put_allco(a: &Text, k: &Kind, to: &mut Vec<u8>) -> Result<(), Memory>
    ensures { OnOk result (to.new.items ≡ to.old.items ++ (codes "(allco " ++ piece_text (Group (leaf (Lower a.now) (kind_pieces (kind_of k.now) NoPieces))))) }
{
    to.extend_from_slice(b"(allco ")?;
    put_variable(a, k, to)
}

fn put_coallco(r: Role, s: Role, to: &mut Vec<u8>) -> Result<(), Memory>
    ensures { OnOk result (to.new.items ≡ to.old.items ++ (codes "(coallco " ++ (tok_text (role_tok r) ++ (codes " " ++ tok_text (role_tok s))))) }
{
    to.extend_from_slice(b"(coallco ")?;
    put_role(r, to)?;
    to.push(b' ')?;
    put_role(s, to)
}

fn put_nth(n: u32, to: &mut Vec<u8>) -> Result<(), Memory>
    ensures { OnOk result (to.new.items ≡ to.old.items ++ (codes "(nth " ++ tok_text (Number n))) }
{
    to.extend_from_slice(b"(nth ")?;
    put_number(n, to)
}
