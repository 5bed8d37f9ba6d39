//! Coercions with words for their binders.
ghost use Rattle.std.specs.Prelude.{slice_get, IfOk};
ghost use Rattle.fc_syntax.specs.View.{co_of, cos_of};
ghost use Rattle.fc_model.specs.NamelessView.{nco_of};
ghost use Rattle.fc_model.specs.DeclaredWords.{top_by};
ghost use Rattle.fc_scope.specs.ScopeWords.{locals_of};
ghost use Rattle.fc_naming.specs.Named.{IsNamedCo, IsNamedCos, IsWritten, MayTakeCo};

use crate::choose::{choose, new_word};
use crate::names::{word_or_other, written};
use crate::taken::Space;
use crate::types::named_ty;
use crate::used::used_in_coercion;
use fc_model::Declared;
use fc_scope::{Scope, coercion_word};
use fc_syntax::{Co, Memory, NCo, Seq, Text, boxed};
use std::alloc::Global;

/// The word of a coercion variable at a distance.
fn coercion_variable<'x>(alloc: Global, scope: &'x Scope<'x>, distance: u32) -> Result<Text, Memory>
    ensures { IfOk result (λ v. IsWritten (slice_get (locals_of scope.now).coercions distance) v) }
{
    word_or_other(alloc, coercion_word(&*scope, distance))
}

/// The word for a binder of a type around a coercion.
fn word_around<'x>(
    alloc: Global,
    g: &NCo,
    top: &Declared,
    scope: &'x Scope<'x>,
    hint: &Text,
) -> Result<Text, Memory>
    ensures { IfOk result (λ v. MayTakeCo (top_by top.now) (locals_of scope.now) hint.now v (nco_of g.now)) }
{
    if let Some(kept) = new_word(alloc, hint, Space::Types, top, &*scope)? {
        return Ok(kept);
    }
    let used = used_in_coercion(alloc, g, top, &*scope)?;
    let word = choose(alloc, hint, Space::Types, &used)?;
    Ok(word)
}

/// A coercion as it is written in a scope.
#[cycle(named)]
#[tactic(auto, using(fc_syntax::proofs::View::view_rules, crate::proofs::NamedTypes::coercion_names))]
pub fn named_co<'x>(
    alloc: Global,
    g: &NCo,
    top: &Declared,
    scope: &'x Scope<'x>,
) -> Result<Co, Memory>
    ensures { IfOk result (λ r. IsNamedCo (top_by top.now) (locals_of scope.now) (co_of g.now) (co_of r)) }
{
    match g {
        NCo::Var(distance) => Ok(Co::Var(coercion_variable(alloc, &*scope, *distance)?)),
        NCo::Refl(role, t) => Ok(Co::Refl(*role, named_ty(alloc, t, top, &*scope)?)),
        NCo::Sym(g) => {
            let g = named_co(alloc, g, top, &*scope)?;
            Ok(Co::Sym(boxed(alloc, g)?))
        }
        NCo::Trans(g, h) => {
            let g = named_co(alloc, g, top, &*scope)?;
            let h = named_co(alloc, h, top, &*scope)?;
            Ok(Co::Trans(boxed(alloc, g)?, boxed(alloc, h)?))
        }
        NCo::Tc(role, name, gs) => {
            let name = written(alloc, top, name)?;
            let gs = named_cos(alloc, gs.as_slice(), top, &*scope)?;
            Ok(Co::Tc(*role, name, gs))
        }
        NCo::Capp(g, h) => {
            let g = named_co(alloc, g, top, &*scope)?;
            let h = named_co(alloc, h, top, &*scope)?;
            Ok(Co::Capp(boxed(alloc, g)?, boxed(alloc, h)?))
        }
        NCo::FunCo(g, h) => {
            let g = named_co(alloc, g, top, &*scope)?;
            let h = named_co(alloc, h, top, &*scope)?;
            Ok(Co::FunCo(boxed(alloc, g)?, boxed(alloc, h)?))
        }
        NCo::AllCo(hint, kind, g) => {
            let word = word_around(alloc, g, top, &*scope, hint)?;
            let inner = Scope::Type(&word, &*scope);
            let g = named_co(alloc, g, top, &inner)?;
            let kind = kind.copy(alloc)?;
            Ok(Co::AllCo(word, kind, boxed(alloc, g)?))
        }
        NCo::CoAllCo(left, right, f, g, h) => {
            let f = named_co(alloc, f, top, &*scope)?;
            let g = named_co(alloc, g, top, &*scope)?;
            let h = named_co(alloc, h, top, &*scope)?;
            let f = boxed(alloc, f)?;
            let g = boxed(alloc, g)?;
            Ok(Co::CoAllCo(*left, *right, f, g, boxed(alloc, h)?))
        }
        NCo::Inst(g, h) => {
            let g = named_co(alloc, g, top, &*scope)?;
            let h = named_co(alloc, h, top, &*scope)?;
            Ok(Co::Inst(boxed(alloc, g)?, boxed(alloc, h)?))
        }
        NCo::Nth(n, g) => {
            let g = named_co(alloc, g, top, &*scope)?;
            Ok(Co::Nth(*n, boxed(alloc, g)?))
        }
        NCo::Left(g) => {
            let g = named_co(alloc, g, top, &*scope)?;
            Ok(Co::Left(boxed(alloc, g)?))
        }
        NCo::Right(g) => {
            let g = named_co(alloc, g, top, &*scope)?;
            Ok(Co::Right(boxed(alloc, g)?))
        }
        NCo::Sub(g) => {
            let g = named_co(alloc, g, top, &*scope)?;
            Ok(Co::Sub(boxed(alloc, g)?))
        }
        NCo::Ax(name, gs) => {
            let name = written(alloc, top, name)?;
            let gs = named_cos(alloc, gs.as_slice(), top, &*scope)?;
            Ok(Co::Ax(name, gs))
        }
        NCo::Univ(t, u) => {
            let t = named_ty(alloc, t, top, &*scope)?;
            let u = named_ty(alloc, u, top, &*scope)?;
            Ok(Co::Univ(t, u))
        }
    }
}

#[cycle(named)]
fn named_cos<'x>(
    alloc: Global,
    gs: &[NCo],
    top: &Declared,
    scope: &'x Scope<'x>,
) -> Result<Seq<Co>, Memory>
    ensures { IfOk result (λ r. IsNamedCos (top_by top.now) (locals_of scope.now) (cos_of gs.now) (cos_of r)) }
{
    let mut out = Seq::new(alloc);
    for g in gs {
        let next = named_co(alloc, g, top, &*scope)?;
        out.push(next)?;
    }
    Ok(out)
}
