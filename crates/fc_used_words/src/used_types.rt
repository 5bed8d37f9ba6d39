//! The words that types and coercions use.
ghost use Rattle.std.specs.Prelude.{slice_get, OnOk};
ghost use Rattle.fc_model.specs.NamelessView.{nbinder_of, nco_of, ncos_of, nty_of, ntys_of};
ghost use Rattle.fc_model.specs.WordSets.{set_of};
ghost use Rattle.fc_model.specs.DeclaredWords.{words_by_space};
ghost use Rattle.fc_scope.specs.ScopeWords.{locals_of};
ghost use Rattle.fc_used_words.specs.Around.{counts_of};
ghost use Rattle.fc_used_words.specs.Used.{AddsAt, AddsBinder, AddsCo, AddsCos, AddsTy, AddsTys};

use crate::around::Inside;
use fc_model::{Spaces, WordSet};
use fc_scope::{Scope, coercion_word, type_word};
use fc_syntax::{Memory, NBinder, NCo, NTy, Text};
use std::alloc::Global;

/// Puts the word of a type at a distance in, unless it is one of so many inner binders.
#[tactic(auto, using(crate::proofs::Collecting::distance_adds))]
fn add_type<'x>(
    alloc: Global,
    distance: u32,
    scope: &'x Scope<'x>,
    inside: u32,
    types: &mut WordSet,
) -> Result<(), Memory>
    ensures { OnOk result (AddsAt (slice_get (locals_of scope.now).types) inside distance (set_of types.old) (set_of types.new)) }
{
    if distance < inside {
        return Ok(());
    }
    match type_word(&*scope, distance - inside) {
        Some(word) => types.add(alloc, word),
        None => Ok(()),
    }
}

/// Puts the words in that a type uses.
#[tactic(auto, using(fc_syntax::proofs::View::view_rules, crate::proofs::Collecting::type_adds), unfolding(fc_model::specs::DeclaredWords::words_by_space))]
pub fn use_ty<'x>(
    alloc: Global,
    own: &Text,
    t: &NTy,
    scope: &'x Scope<'x>,
    inside: Inside,
    used: &mut Spaces,
) -> Result<(), Memory>
    ensures { OnOk result (AddsTy own.now (locals_of scope.now) (counts_of inside) (nty_of t.now) (words_by_space used.old) (words_by_space used.new)) }
{
    match t {
        NTy::Var(distance) => add_type(alloc, *distance, &*scope, inside.types, &mut used.types),
        NTy::Con(_) => Ok(()),
        NTy::IntHash => Ok(()),
        NTy::App(t, u) => {
            use_ty(alloc, own, t, &*scope, inside, used)?;
            use_ty(alloc, own, u, &*scope, inside, used)?;
            Ok(())
        }
        NTy::Fun(t, u) => {
            use_ty(alloc, own, t, &*scope, inside, used)?;
            use_ty(alloc, own, u, &*scope, inside, used)?;
            Ok(())
        }
        NTy::Forall(_, _, t) => {
            let inside = inside.in_type()?;
            use_ty(alloc, own, t, &*scope, inside, used)
        }
        NTy::CoForall(_, t, u, v) => {
            use_ty(alloc, own, t, &*scope, inside, used)?;
            use_ty(alloc, own, u, &*scope, inside, used)?;
            use_ty(alloc, own, v, &*scope, inside, used)?;
            Ok(())
        }
    }
}

/// Puts the words in that types use.
pub fn use_tys<'x>(
    alloc: Global,
    own: &Text,
    types: &[NTy],
    scope: &'x Scope<'x>,
    inside: Inside,
    used: &mut Spaces,
) -> Result<(), Memory>
    ensures { OnOk result (AddsTys own.now (locals_of scope.now) (counts_of inside) (ntys_of types.now) (words_by_space used.old) (words_by_space used.new)) }
{
    for t in types {
        use_ty(alloc, own, t, &*scope, inside, used)?;
    }
    Ok(())
}

/// Puts the word of a coercion at a distance in, unless it is one of so many inner binders.
#[tactic(auto, using(crate::proofs::Collecting::distance_adds))]
fn add_coercion<'x>(
    alloc: Global,
    distance: u32,
    scope: &'x Scope<'x>,
    inside: u32,
    coercions: &mut WordSet,
) -> Result<(), Memory>
    ensures { OnOk result (AddsAt (slice_get (locals_of scope.now).coercions) inside distance (set_of coercions.old) (set_of coercions.new)) }
{
    if distance < inside {
        return Ok(());
    }
    match coercion_word(&*scope, distance - inside) {
        Some(word) => coercions.add(alloc, word),
        None => Ok(()),
    }
}

/// Puts the words in that a coercion uses.
#[cycle(coercions)]
#[tactic(auto, using(fc_syntax::proofs::View::view_rules, crate::proofs::Collecting::coercion_adds), unfolding(fc_model::specs::DeclaredWords::words_by_space))]
pub fn use_co<'x>(
    alloc: Global,
    own: &Text,
    g: &NCo,
    scope: &'x Scope<'x>,
    inside: Inside,
    used: &mut Spaces,
) -> Result<(), Memory>
    ensures { OnOk result (AddsCo own.now (locals_of scope.now) (counts_of inside) (nco_of g.now) (words_by_space used.old) (words_by_space used.new)) }
{
    match g {
        NCo::Var(distance) => add_coercion(
            alloc,
            *distance,
            &*scope,
            inside.coercions,
            &mut used.coercions,
        ),
        NCo::Refl(_, t) => use_ty(alloc, own, t, &*scope, inside, used),
        NCo::Sym(g) => use_co(alloc, own, g, &*scope, inside, used),
        NCo::Trans(g, h) => {
            use_co(alloc, own, g, &*scope, inside, used)?;
            use_co(alloc, own, h, &*scope, inside, used)?;
            Ok(())
        }
        NCo::Tc(_, _, gs) => {
            use_cos(alloc, own, gs.as_slice(), &*scope, inside, used)?;
            Ok(())
        }
        NCo::Capp(g, h) => {
            use_co(alloc, own, g, &*scope, inside, used)?;
            use_co(alloc, own, h, &*scope, inside, used)?;
            Ok(())
        }
        NCo::FunCo(g, h) => {
            use_co(alloc, own, g, &*scope, inside, used)?;
            use_co(alloc, own, h, &*scope, inside, used)?;
            Ok(())
        }
        NCo::AllCo(_, _, g) => {
            let inside = inside.in_type()?;
            use_co(alloc, own, g, &*scope, inside, used)?;
            Ok(())
        }
        NCo::CoAllCo(_, _, f, g, h) => {
            use_co(alloc, own, f, &*scope, inside, used)?;
            use_co(alloc, own, g, &*scope, inside, used)?;
            use_co(alloc, own, h, &*scope, inside, used)?;
            Ok(())
        }
        NCo::Inst(g, h) => {
            use_co(alloc, own, g, &*scope, inside, used)?;
            use_co(alloc, own, h, &*scope, inside, used)?;
            Ok(())
        }
        NCo::Nth(_, g) => use_co(alloc, own, g, &*scope, inside, used),
        NCo::Left(g) => use_co(alloc, own, g, &*scope, inside, used),
        NCo::Right(g) => use_co(alloc, own, g, &*scope, inside, used),
        NCo::Sub(g) => use_co(alloc, own, g, &*scope, inside, used),
        NCo::Ax(_, gs) => {
            use_cos(alloc, own, gs.as_slice(), &*scope, inside, used)?;
            Ok(())
        }
        NCo::Univ(t, u) => {
            use_ty(alloc, own, t, &*scope, inside, used)?;
            use_ty(alloc, own, u, &*scope, inside, used)?;
            Ok(())
        }
    }
}

#[cycle(coercions)]
fn use_cos<'x>(
    alloc: Global,
    own: &Text,
    gs: &[NCo],
    scope: &'x Scope<'x>,
    inside: Inside,
    used: &mut Spaces,
) -> Result<(), Memory>
    ensures { OnOk result (AddsCos own.now (locals_of scope.now) (counts_of inside) (ncos_of gs.now) (words_by_space used.old) (words_by_space used.new)) }
{
    for g in gs {
        use_co(alloc, own, g, &*scope, inside, used)?;
    }
    Ok(())
}

/// Puts the words in that the types of a binder use.
#[tactic(auto, using(fc_syntax::proofs::View::view_rules, crate::proofs::Collecting::binder_adds))]
pub fn use_binder<'x>(
    alloc: Global,
    own: &Text,
    binder: &NBinder,
    scope: &'x Scope<'x>,
    inside: Inside,
    used: &mut Spaces,
) -> Result<(), Memory>
    ensures { OnOk result (AddsBinder own.now (locals_of scope.now) (counts_of inside) (nbinder_of binder.now) (words_by_space used.old) (words_by_space used.new)) }
{
    match binder {
        NBinder::Value(_, t) => use_ty(alloc, own, t, &*scope, inside, used),
        NBinder::OfType(_, _) => Ok(()),
        NBinder::OfCo(_, _, t, u) => {
            use_ty(alloc, own, t, &*scope, inside, used)?;
            use_ty(alloc, own, u, &*scope, inside, used)?;
            Ok(())
        }
    }
}
