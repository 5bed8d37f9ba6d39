//! Whether types, coercions and binders are scoped.
ghost use Rattle.std.specs.Prelude.{◌≡◌, IfOk};
ghost use Rattle.fc_model.specs.DeclaredWords.{top_by};
ghost use Rattle.fc_model.specs.NamelessView.{nbinder_of, nbinders_of, nco_of, ncos_of, nty_of, ntys_of};
ghost use Rattle.fc_model.specs.WordSets.{set_of};
ghost use Rattle.fc_used_words.specs.Around.{counts_of};
ghost use Rattle.fc_used_words.specs.Scoped.{in_binders};
ghost use Rattle.fc_scoped.specs.Testing.{binder_scoped, binders_scoped, co_scoped, cos_scoped, name_scoped, ty_scoped, tys_scoped};

use fc_model::{Declared, WordSet};
use fc_syntax::{Memory, NBinder, NCo, NTy, Name};
use fc_used_words::{Inside, in_binder};

/// Whether a name is of the module itself, which has these words, or of one that it imports.
pub(crate) fn name(top: &Declared, words: &WordSet, name: &Name) -> bool
    ensures { result ≡ name_scoped (top_by top.now) (set_of words.now) name.now }
{
    match &name.module {
        None => false,
        Some(module) => {
            if module.as_str() == top.own.as_str() {
                words.has(&name.text)
            } else {
                top.imports.has(module)
            }
        }
    }
}

/// Whether each name in a type means something.
#[tactic(auto, using(fc_syntax::proofs::View::view_rules))]
pub(crate) fn ty(top: &Declared, t: &NTy, around: Inside) -> Result<bool, Memory>
    ensures { IfOk result (λ b. b ≡ ty_scoped (top_by top.now) (counts_of around) (nty_of t.now)) }
{
    match t {
        NTy::Var(distance) => Ok(*distance < around.types),
        NTy::Con(n) => Ok(name(top, &top.spaces.types, n)),
        NTy::IntHash => Ok(true),
        NTy::App(t, u) | NTy::Fun(t, u) => Ok(ty(top, t, around)? && ty(top, u, around)?),
        NTy::Forall(_, _, t) => ty(top, t, around.in_type()?),
        NTy::CoForall(_, t, u, v) => {
            Ok(ty(top, t, around)? && ty(top, u, around)? && ty(top, v, around)?)
        }
    }
}

/// Whether each name in types means something.
pub(crate) fn tys(top: &Declared, types: &[NTy], around: Inside) -> Result<bool, Memory>
    ensures { IfOk result (λ b. b ≡ tys_scoped (top_by top.now) (counts_of around) (ntys_of types.now)) }
{
    for t in types {
        if !ty(top, t, around)? {
            return Ok(false);
        }
    }
    Ok(true)
}

/// Whether each name in a coercion means something.
#[cycle(coercions)]
#[tactic(auto, using(fc_syntax::proofs::View::view_rules))]
pub(crate) fn co(top: &Declared, g: &NCo, around: Inside) -> Result<bool, Memory>
    ensures { IfOk result (λ b. b ≡ co_scoped (top_by top.now) (counts_of around) (nco_of g.now)) }
{
    match g {
        NCo::Var(distance) => Ok(*distance < around.coercions),
        NCo::Refl(_, t) => ty(top, t, around),
        NCo::Tc(_, n, gs) => {
            Ok(name(top, &top.spaces.types, n) && cos(top, gs.as_slice(), around)?)
        }
        NCo::Ax(n, gs) => {
            Ok(name(top, &top.spaces.coercions, n) && cos(top, gs.as_slice(), around)?)
        }
        NCo::Trans(g, h) | NCo::Capp(g, h) | NCo::FunCo(g, h) | NCo::Inst(g, h) => {
            Ok(co(top, g, around)? && co(top, h, around)?)
        }
        NCo::AllCo(_, _, g) => co(top, g, around.in_type()?),
        NCo::CoAllCo(_, _, f, g, h) => {
            Ok(co(top, f, around)? && co(top, g, around)? && co(top, h, around)?)
        }
        NCo::Sym(g) | NCo::Nth(_, g) | NCo::Left(g) | NCo::Right(g) | NCo::Sub(g) => {
            co(top, g, around)
        }
        NCo::Univ(t, u) => Ok(ty(top, t, around)? && ty(top, u, around)?),
    }
}

/// Whether each name in coercions means something.
#[cycle(coercions)]
fn cos(top: &Declared, coercions: &[NCo], around: Inside) -> Result<bool, Memory>
    ensures { IfOk result (λ b. b ≡ cos_scoped (top_by top.now) (counts_of around) (ncos_of coercions.now)) }
{
    for g in coercions {
        if !co(top, g, around)? {
            return Ok(false);
        }
    }
    Ok(true)
}

// BINDERS

/// Whether each name in the types of a binder means something.
#[tactic(auto, using(fc_syntax::proofs::View::view_rules))]
pub(crate) fn binder(top: &Declared, b: &NBinder, around: Inside) -> Result<bool, Memory>
    ensures { IfOk result (λ r. r ≡ binder_scoped (top_by top.now) (counts_of around) (nbinder_of b.now)) }
{
    match b {
        NBinder::Value(_, t) => ty(top, t, around),
        NBinder::OfType(_, _) => Ok(true),
        NBinder::OfCo(_, _, t, u) => Ok(ty(top, t, around)? && ty(top, u, around)?),
    }
}

/// Whether each name in the types of binders means something, each binder below those before it.
pub(crate) fn binders(top: &Declared, items: &[NBinder], around: Inside) -> Result<bool, Memory>
    ensures { IfOk result (λ b. b ≡ binders_scoped (top_by top.now) (counts_of around) (nbinders_of items.now)) }
{
    let mut inner = around;
    for b in items {
        if !binder(top, b, inner)? {
            return Ok(false);
        }
        inner = in_binder(inner, b)?;
    }
    Ok(true)
}

/// Below binders that stand together.
pub(crate) fn in_binders(around: Inside, items: &[NBinder]) -> Result<Inside, Memory>
    ensures { IfOk result (λ k. counts_of k ≡ in_binders (nbinders_of items.now) (counts_of around)) }
{
    let mut inner = around;
    for b in items {
        inner = in_binder(inner, b)?;
    }
    Ok(inner)
}
