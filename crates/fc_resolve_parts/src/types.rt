//! Types, from words to distances.
ghost use Rattle.std.specs.Prelude.{◌≡◌, ◌∷◌, Ok, [], IfOk};
ghost use Rattle.fc_syntax.specs.Hints as kept;
ghost use Rattle.fc_syntax.specs.View.{ty_of, tys_of};
ghost use Rattle.fc_model.specs.DeclaredWords.{top_by};
ghost use Rattle.fc_model.specs.Faulting.{under};
ghost use Rattle.fc_model.specs.NamelessView.{nty_of, ntys_of};
ghost use Rattle.fc_model.specs.Resolution.{index_of, local_type, resolved_ty as ty_resolved, resolved_tys as tys_resolved};
ghost use Rattle.fc_model.specs.Says.{Says};
ghost use Rattle.fc_scope.specs.ScopeWords.{locals_of};

use crate::names::declared_type;
use fc_model::{Declared, Flawed, deeper, flaw_here, next_part};
use fc_scope::Scope;
use fc_syntax::{FaultKind, Memory, NTy, Seq, Text, Ty, boxed, part};
use std::alloc::Global;

/// A type variable: the innermost binder of its word.
#[tactic(auto, using(fc_syntax::proofs::View::view_rules))]
fn variable(alloc: Global, scope: &Scope, word: &Text) -> Result<NTy, Flawed>
    ensures form { Says nty_of result (local_type (index_of (locals_of scope.now).types word.now)) }
    ensures words { IfOk result (λ n. kept.ty_hints (ty_of n) ≡ []) }
{
    match scope.ty(word)? {
        Some(distance) => Ok(NTy::Var(distance)),
        None => Err(flaw_here(alloc, FaultKind::Unbound)),
    }
}

/// A type in a scope, where its variables become distances and its words the names of what they declare. The first word of it that is
/// not in scope is `Unbound`.
#[cycle(types)]
#[tactic(auto, using(fc_syntax::proofs::View::view_rules))]
pub fn resolved_ty<'x>(
    alloc: Global,
    top: &Declared,
    scope: &'x Scope<'x>,
    t: &Ty,
) -> Result<NTy, Flawed>
    ensures form { Says nty_of result (ty_resolved (top_by top.now) (locals_of scope.now).types (ty_of t.now)) }
    ensures words { IfOk result (λ n. kept.ty_hints (ty_of n) ≡ kept.ty_hints (ty_of t.now)) }
{
    match t {
        Ty::Var(word) => variable(alloc, &*scope, word),
        Ty::Con(name) => Ok(NTy::Con(declared_type(alloc, top, name)?)),
        Ty::IntHash => Ok(NTy::IntHash),
        Ty::App(head, argument) => {
            let head = ty_part(alloc, top, &*scope, head, part::HEAD)?;
            let argument = ty_part(alloc, top, &*scope, argument, part::ARGUMENT)?;
            Ok(NTy::App(boxed(alloc, head)?, boxed(alloc, argument)?))
        }
        Ty::Fun(from, to) => {
            let from = ty_part(alloc, top, &*scope, from, 0)?;
            let to = ty_part(alloc, top, &*scope, to, 1)?;
            Ok(NTy::Fun(boxed(alloc, from)?, boxed(alloc, to)?))
        }
        Ty::Forall(word, kind, body) => {
            let body = below(alloc, top, &*scope, body, word)?;
            let word = word.copy(alloc)?;
            let kind = kind.copy(alloc)?;
            Ok(NTy::Forall(word, kind, boxed(alloc, body)?))
        }
        Ty::CoForall(role, left, right, body) => {
            let left = ty_part(alloc, top, &*scope, left, 0)?;
            let right = ty_part(alloc, top, &*scope, right, 1)?;
            let body = ty_part(alloc, top, &*scope, body, 2)?;
            Ok(NTy::CoForall(
                *role,
                boxed(alloc, left)?,
                boxed(alloc, right)?,
                boxed(alloc, body)?,
            ))
        }
    }
}

/// A type that is the part of this number, by which its fault is told.
#[cycle(types)]
pub fn ty_part<'x>(
    alloc: Global,
    top: &Declared,
    scope: &'x Scope<'x>,
    t: &Ty,
    part: u32,
) -> Result<NTy, Flawed>
    ensures form { Says nty_of result (under part (ty_resolved (top_by top.now) (locals_of scope.now).types (ty_of t.now))) }
    ensures words { IfOk result (λ n. kept.ty_hints (ty_of n) ≡ kept.ty_hints (ty_of t.now)) }
{
    match resolved_ty(alloc, top, &*scope, t) {
        Ok(n) => Ok(n),
        Err(flawed) => Err(deeper(flawed, part)),
    }
}

/// The type below the binder of a type, which is part 0.
#[cycle(types)]
fn below<'x>(
    alloc: Global,
    top: &Declared,
    scope: &'x Scope<'x>,
    t: &Ty,
    word: &'x Text,
) -> Result<NTy, Flawed>
    ensures form { Says nty_of result (under 0 (ty_resolved (top_by top.now) (word.now ∷ (locals_of scope.now).types) (ty_of t.now))) }
    ensures words { IfOk result (λ n. kept.ty_hints (ty_of n) ≡ kept.ty_hints (ty_of t.now)) }
{
    let inner = Scope::Type(&*word, &*scope);
    ty_part(alloc, top, &inner, t, 0)
}

/// Types in a scope, which are the parts from this number on. The fault of the first one that has one is told.
#[tactic(auto, using(crate::proofs::Building::building_rules, crate::proofs::WordSteps::word_rules, std::proofs::lemmas::Grind::common_steps))]
pub fn resolved_tys<'x>(
    alloc: Global,
    top: &Declared,
    scope: &'x Scope<'x>,
    types: &[Ty],
    first: u32,
) -> Result<Seq<NTy>, Flawed>
    ensures form { Says ntys_of result (tys_resolved (top_by top.now) (locals_of scope.now).types first (tys_of types.now)) }
    ensures words { IfOk result (λ n. kept.tys_hints (tys_of n) ≡ kept.tys_hints (tys_of types.now)) }
{
    let mut out = Seq::new(alloc);
    let mut at = first;
    for t in types {
        let next = ty_part(alloc, top, &*scope, t, at)?;
        out.push(next)?;
        at = next_part(at)?;
    }
    Ok(out)
}
