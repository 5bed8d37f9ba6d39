//! Types with words for their binders.
ghost use Rattle.std.specs.Prelude.{slice_get, IfOk};
ghost use Rattle.fc_syntax.specs.View.{ty_of, tys_of};
ghost use Rattle.fc_model.specs.NamelessView.{nty_of};
ghost use Rattle.fc_model.specs.DeclaredWords.{top_by};
ghost use Rattle.fc_scope.specs.ScopeWords.{locals_of};
ghost use Rattle.fc_naming.specs.Named.{IsNamedTy, IsNamedTys, IsWritten, MayTakeTy};

use crate::choose::{choose, new_word};
use crate::names::{word_or_other, written};
use crate::taken::Space;
use crate::used::used_in_type;
use fc_model::Declared;
use fc_scope::{Scope, type_word};
use fc_syntax::{Memory, NTy, Seq, Text, Ty, boxed};
use std::alloc::Global;

/// The word of a type variable at a distance.
fn type_variable<'x>(alloc: Global, scope: &'x Scope<'x>, distance: u32) -> Result<Text, Memory>
    ensures { IfOk result (λ v. IsWritten (slice_get (locals_of scope.now).types distance) v) }
{
    word_or_other(alloc, type_word(&*scope, distance))
}

/// The word for a binder of a type around a type.
fn word_around<'x>(
    alloc: Global,
    t: &NTy,
    top: &Declared,
    scope: &'x Scope<'x>,
    hint: &Text,
) -> Result<Text, Memory>
    ensures { IfOk result (λ v. MayTakeTy (top_by top.now) (locals_of scope.now) hint.now v (nty_of t.now)) }
{
    if let Some(kept) = new_word(alloc, hint, Space::Types, top, &*scope)? {
        return Ok(kept);
    }
    let used = used_in_type(alloc, t, top, &*scope)?;
    let word = choose(alloc, hint, Space::Types, &used)?;
    Ok(word)
}

/// A type as it is written in a scope.
#[tactic(auto, using(fc_syntax::proofs::View::view_rules, crate::proofs::NamedTypes::type_names))]
pub fn named_ty<'x>(
    alloc: Global,
    t: &NTy,
    top: &Declared,
    scope: &'x Scope<'x>,
) -> Result<Ty, Memory>
    ensures { IfOk result (λ r. IsNamedTy (top_by top.now) (locals_of scope.now) (ty_of t.now) (ty_of r)) }
{
    match t {
        NTy::Var(distance) => Ok(Ty::Var(type_variable(alloc, &*scope, *distance)?)),
        NTy::Con(name) => Ok(Ty::Con(written(alloc, top, name)?)),
        NTy::IntHash => Ok(Ty::IntHash),
        NTy::App(t, u) => {
            let t = named_ty(alloc, t, top, &*scope)?;
            let u = named_ty(alloc, u, top, &*scope)?;
            Ok(Ty::App(boxed(alloc, t)?, boxed(alloc, u)?))
        }
        NTy::Fun(t, u) => {
            let t = named_ty(alloc, t, top, &*scope)?;
            let u = named_ty(alloc, u, top, &*scope)?;
            Ok(Ty::Fun(boxed(alloc, t)?, boxed(alloc, u)?))
        }
        NTy::Forall(hint, kind, t) => {
            let word = word_around(alloc, t, top, &*scope, hint)?;
            let inner = Scope::Type(&word, &*scope);
            let t = named_ty(alloc, t, top, &inner)?;
            let kind = kind.copy(alloc)?;
            Ok(Ty::Forall(word, kind, boxed(alloc, t)?))
        }
        NTy::CoForall(role, t, u, v) => {
            let t = named_ty(alloc, t, top, &*scope)?;
            let u = named_ty(alloc, u, top, &*scope)?;
            let v = named_ty(alloc, v, top, &*scope)?;
            let t = boxed(alloc, t)?;
            let u = boxed(alloc, u)?;
            Ok(Ty::CoForall(*role, t, u, boxed(alloc, v)?))
        }
    }
}

/// Types as they are written in a scope.
pub fn named_tys<'x>(
    alloc: Global,
    types: &[NTy],
    top: &Declared,
    scope: &'x Scope<'x>,
) -> Result<Seq<Ty>, Memory>
    ensures { IfOk result (λ r. IsNamedTys (top_by top.now) (locals_of scope.now) (tys_of types.now) (tys_of r)) }
{
    let mut out = Seq::new(alloc);
    for t in types {
        let next = named_ty(alloc, t, top, &*scope)?;
        out.push(next)?;
    }
    Ok(out)
}
