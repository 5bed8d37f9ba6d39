//! Coercions, from words to distances.
ghost use Rattle.std.specs.Prelude.{◌≡◌, Ok, [], IfOk};
ghost use Rattle.fc_syntax.specs.Hints as kept;
ghost use Rattle.fc_syntax.specs.View.{co_of, cos_of};
ghost use Rattle.fc_model.specs.DeclaredWords.{top_by};
ghost use Rattle.fc_model.specs.Faulting.{under};
ghost use Rattle.fc_model.specs.NamelessView.{nco_of, ncos_of};
ghost use Rattle.fc_model.specs.Resolution.{index_of, local_co, resolved_co as co_resolved, resolved_cos as cos_resolved, with_type};
ghost use Rattle.fc_model.specs.Says.{Says};
ghost use Rattle.fc_scope.specs.ScopeWords.{locals_of};

use crate::names::{declared_axiom, declared_type};
use crate::types::ty_part;
use fc_model::{Declared, Flawed, deeper, flaw_here, next_part};
use fc_scope::Scope;
use fc_syntax::{Co, FaultKind, Memory, NCo, Seq, Text, boxed, part};
use std::alloc::Global;

/// A coercion variable: the innermost binder of its word.
#[tactic(auto, using(fc_syntax::proofs::View::view_rules))]
fn variable(alloc: Global, scope: &Scope, word: &Text) -> Result<NCo, Flawed>
    ensures form { Says nco_of result (local_co (index_of (locals_of scope.now).coercions word.now)) }
    ensures words { IfOk result (λ n. kept.co_hints (co_of n) ≡ []) }
{
    match scope.coercion(word)? {
        Some(distance) => Ok(NCo::Var(distance)),
        None => Err(flaw_here(alloc, FaultKind::Unbound)),
    }
}

/// A coercion in a scope, where its variables become distances and its words the names of what they declare. The first word of it that
/// is not in scope is `Unbound`.
#[cycle(coercions)]
#[tactic(auto, using(fc_syntax::proofs::View::view_rules))]
pub fn resolved_co<'x>(
    alloc: Global,
    top: &Declared,
    scope: &'x Scope<'x>,
    g: &Co,
) -> Result<NCo, Flawed>
    ensures form { Says nco_of result (co_resolved (top_by top.now) (locals_of scope.now) (co_of g.now)) }
    ensures words { IfOk result (λ n. kept.co_hints (co_of n) ≡ kept.co_hints (co_of g.now)) }
{
    match g {
        Co::Var(word) => variable(alloc, &*scope, word),
        Co::Refl(role, t) => Ok(NCo::Refl(*role, ty_part(alloc, top, &*scope, t, 0)?)),
        Co::Sym(g) => {
            let g = co_part(alloc, top, &*scope, g, 0)?;
            Ok(NCo::Sym(boxed(alloc, g)?))
        }
        Co::Trans(g, h) => {
            let g = co_part(alloc, top, &*scope, g, 0)?;
            let h = co_part(alloc, top, &*scope, h, 1)?;
            Ok(NCo::Trans(boxed(alloc, g)?, boxed(alloc, h)?))
        }
        Co::Tc(role, name, parts) => {
            let name = declared_type(alloc, top, name)?;
            let parts = resolved_cos(alloc, top, &*scope, parts.as_slice())?;
            Ok(NCo::Tc(*role, name, parts))
        }
        Co::Capp(g, h) => {
            let g = co_part(alloc, top, &*scope, g, part::HEAD)?;
            let h = co_part(alloc, top, &*scope, h, part::ARGUMENT)?;
            Ok(NCo::Capp(boxed(alloc, g)?, boxed(alloc, h)?))
        }
        Co::FunCo(g, h) => {
            let g = co_part(alloc, top, &*scope, g, 0)?;
            let h = co_part(alloc, top, &*scope, h, 1)?;
            Ok(NCo::FunCo(boxed(alloc, g)?, boxed(alloc, h)?))
        }
        Co::AllCo(word, kind, g) => {
            let g = below(alloc, top, &*scope, g, word)?;
            let word = word.copy(alloc)?;
            let kind = kind.copy(alloc)?;
            Ok(NCo::AllCo(word, kind, boxed(alloc, g)?))
        }
        Co::CoAllCo(role, ends, g, h, body) => {
            let g = co_part(alloc, top, &*scope, g, 0)?;
            let h = co_part(alloc, top, &*scope, h, 1)?;
            let body = co_part(alloc, top, &*scope, body, 2)?;
            Ok(NCo::CoAllCo(
                *role,
                *ends,
                boxed(alloc, g)?,
                boxed(alloc, h)?,
                boxed(alloc, body)?,
            ))
        }
        Co::Inst(g, h) => {
            let g = co_part(alloc, top, &*scope, g, 0)?;
            let h = co_part(alloc, top, &*scope, h, 1)?;
            Ok(NCo::Inst(boxed(alloc, g)?, boxed(alloc, h)?))
        }
        Co::Nth(number, g) => {
            let g = co_part(alloc, top, &*scope, g, 0)?;
            Ok(NCo::Nth(*number, boxed(alloc, g)?))
        }
        Co::Left(g) => {
            let g = co_part(alloc, top, &*scope, g, 0)?;
            Ok(NCo::Left(boxed(alloc, g)?))
        }
        Co::Right(g) => {
            let g = co_part(alloc, top, &*scope, g, 0)?;
            Ok(NCo::Right(boxed(alloc, g)?))
        }
        Co::Sub(g) => {
            let g = co_part(alloc, top, &*scope, g, 0)?;
            Ok(NCo::Sub(boxed(alloc, g)?))
        }
        Co::Ax(name, parts) => {
            let name = declared_axiom(alloc, top, name)?;
            let parts = resolved_cos(alloc, top, &*scope, parts.as_slice())?;
            Ok(NCo::Ax(name, parts))
        }
        Co::Univ(left, right) => {
            let left = ty_part(alloc, top, &*scope, left, 0)?;
            let right = ty_part(alloc, top, &*scope, right, 1)?;
            Ok(NCo::Univ(left, right))
        }
    }
}

/// A coercion that is the part of this number, by which its fault is told.
#[cycle(coercions)]
pub fn co_part<'x>(
    alloc: Global,
    top: &Declared,
    scope: &'x Scope<'x>,
    g: &Co,
    part: u32,
) -> Result<NCo, Flawed>
    ensures form { Says nco_of result (under part (co_resolved (top_by top.now) (locals_of scope.now) (co_of g.now))) }
    ensures words { IfOk result (λ n. kept.co_hints (co_of n) ≡ kept.co_hints (co_of g.now)) }
{
    match resolved_co(alloc, top, &*scope, g) {
        Ok(n) => Ok(n),
        Err(flawed) => Err(deeper(flawed, part)),
    }
}

/// The coercion below the binder of a type, which is part 0.
#[cycle(coercions)]
fn below<'x>(
    alloc: Global,
    top: &Declared,
    scope: &'x Scope<'x>,
    g: &Co,
    word: &'x Text,
) -> Result<NCo, Flawed>
    ensures form { Says nco_of result (under 0 (co_resolved (top_by top.now) (with_type word.now (locals_of scope.now)) (co_of g.now))) }
    ensures words { IfOk result (λ n. kept.co_hints (co_of n) ≡ kept.co_hints (co_of g.now)) }
{
    let inner = Scope::Type(&*word, &*scope);
    co_part(alloc, top, &inner, g, 0)
}

/// Coercions, which are the parts from 0 on.
#[cycle(coercions)]
#[tactic(auto, using(crate::proofs::Building::building_rules, crate::proofs::WordSteps::word_rules, std::proofs::lemmas::Grind::common_steps))]
fn resolved_cos<'x>(
    alloc: Global,
    top: &Declared,
    scope: &'x Scope<'x>,
    parts: &[Co],
) -> Result<Seq<NCo>, Flawed>
    ensures form { Says ncos_of result (cos_resolved (top_by top.now) (locals_of scope.now) 0 (cos_of parts.now)) }
    ensures words { IfOk result (λ n. kept.cos_hints (cos_of n) ≡ kept.cos_hints (cos_of parts.now)) }
{
    let mut out = Seq::new(alloc);
    let mut at = 0u32;
    for g in parts {
        let next = co_part(alloc, top, &*scope, g, at)?;
        out.push(next)?;
        at = next_part(at)?;
    }
    Ok(out)
}
