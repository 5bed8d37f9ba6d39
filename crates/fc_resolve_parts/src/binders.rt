//! Binders, and the scope behind them.
ghost use Rattle.std.specs.Prelude.{◌≡◌, Ok, IfOk, OnOk};
ghost use Rattle.fc_syntax.specs.declared.fault.FaultKind.TheVariants.{Duplicate};
ghost use Rattle.fc_syntax.specs.Hints as kept;
ghost use Rattle.fc_syntax.specs.View.{binder_of, binders_of};
ghost use Rattle.fc_model.specs.DeclaredWords.{top_by};
ghost use Rattle.fc_model.specs.Faulting.{need, under};
ghost use Rattle.fc_model.specs.NamelessView.{nbinder_of, nbinders_of};
ghost use Rattle.fc_model.specs.Resolution.{enter_all, is_new, no_words, resolved_binder as binder_resolved, resolved_binders as binders_resolved};
ghost use Rattle.fc_model.specs.Says.{Says};
ghost use Rattle.fc_scope.specs.ScopeWords.{locals_of, with_binders};
ghost use Rattle.fc_resolve_parts.specs.Entered.{entered_by, words_of};

use crate::types::ty_part;
use fc_model::{Declared, Flawed, deeper, flaw_here, next_part};
use fc_scope::{Binders, Scope};
use fc_syntax::{Binder, FaultKind, Memory, NBinder, Seq, part};
use std::alloc::Global;

/// A binder in a scope.
fn resolved_binder<'x>(
    alloc: Global,
    top: &Declared,
    scope: &'x Scope<'x>,
    binder: &Binder,
) -> Result<NBinder, Flawed>
    ensures form { Says nbinder_of result (binder_resolved (top_by top.now) (locals_of scope.now) (binder_of binder.now)) }
    ensures words { IfOk result (λ n. kept.binder_hints (binder_of n) ≡ kept.binder_hints (binder_of binder.now)) }
{
    match binder {
        Binder::Value(word, t) => {
            let t = ty_part(alloc, top, &*scope, t, part::TYPE)?;
            Ok(NBinder::Value(word.copy(alloc)?, t))
        }
        Binder::OfType(word, kind) => {
            let word = word.copy(alloc)?;
            Ok(NBinder::OfType(word, kind.copy(alloc)?))
        }
        Binder::OfCo(word, role, left, right) => {
            let left = ty_part(alloc, top, &*scope, left, 0)?;
            let right = ty_part(alloc, top, &*scope, right, 1)?;
            Ok(NBinder::OfCo(word.copy(alloc)?, *role, left, right))
        }
    }
}

/// The binder of a lambda, which is part 0. A word of its type that is not in scope is `Unbound`.
pub fn first_binder<'x>(
    alloc: Global,
    top: &Declared,
    scope: &'x Scope<'x>,
    binder: &Binder,
) -> Result<NBinder, Flawed>
    ensures form { Says nbinder_of result (under 0 (binder_resolved (top_by top.now) (locals_of scope.now) (binder_of binder.now))) }
    ensures words { IfOk result (λ n. kept.binder_hints (binder_of n) ≡ kept.binder_hints (binder_of binder.now)) }
{
    match resolved_binder(alloc, top, &*scope, binder) {
        Ok(n) => Ok(n),
        Err(flawed) => Err(deeper(flawed, part::BINDER)),
    }
}

/// Whether no binder of a group has the word of this one in its space.
fn is_new_in(names: &Binders, binder: &Binder) -> bool
    ensures { result ≡ is_new (binder_of binder.now) (words_of names.now) }
{
    match binder {
        Binder::Value(word, _) => !names.values.has(word),
        Binder::OfType(word, _) => !names.types.has(word),
        Binder::OfCo(word, _, _, _) => !names.coercions.has(word),
    }
}

/// A binder behind those of its group before it, in whose scope it is.
fn new_binder<'x>(
    alloc: Global,
    top: &Declared,
    scope: &'x Scope<'x>,
    names: &'x Binders,
    binder: &Binder,
) -> Result<NBinder, Flawed>
    ensures form { Says nbinder_of result (need (is_new (binder_of binder.now) (words_of names.now)) Duplicate (binder_resolved (top_by top.now) (with_binders names.now (locals_of scope.now)) (binder_of binder.now))) }
    ensures words { IfOk result (λ n. kept.binder_hints (binder_of n) ≡ kept.binder_hints (binder_of binder.now)) }
{
    if !is_new_in(&*names, binder) {
        return Err(flaw_here(alloc, FaultKind::Duplicate));
    }
    let inner = Scope::Binders(&*names, &*scope);
    resolved_binder(alloc, top, &inner, binder)
}

/// The same, where the binder is the part of this number.
fn binder_part<'x>(
    alloc: Global,
    top: &Declared,
    scope: &'x Scope<'x>,
    names: &'x Binders,
    binder: &Binder,
    part: u32,
) -> Result<NBinder, Flawed>
    ensures form { Says nbinder_of result (under part (need (is_new (binder_of binder.now) (words_of names.now)) Duplicate (binder_resolved (top_by top.now) (with_binders names.now (locals_of scope.now)) (binder_of binder.now)))) }
    ensures words { IfOk result (λ n. kept.binder_hints (binder_of n) ≡ kept.binder_hints (binder_of binder.now)) }
{
    match new_binder(alloc, top, &*scope, &*names, binder) {
        Ok(n) => Ok(n),
        Err(flawed) => Err(deeper(flawed, part)),
    }
}

/// Puts the word of a binder behind those before it.
fn enter(alloc: Global, names: &mut Binders, binder: &Binder) -> Result<(), Memory>
    ensures { OnOk result (names.new ≡ entered_by (binder_of binder.now) names.old) }
{
    match binder {
        Binder::Value(word, _) => names.values.add(alloc, word),
        Binder::OfType(word, _) => names.types.add(alloc, word),
        Binder::OfCo(word, _, _, _) => names.coercions.add(alloc, word),
    }
}

/// The binders of an alternative, a join point or a constructor, with the words that are in scope behind them.
#[derive(Drop)]
pub struct Entered {
    /// The binders.
    pub binders: Seq<NBinder>,
    /// Their words.
    pub names: Binders,
}

/// Binders, which are the parts from 0 on, each in the scope of those before it. One whose word was there before in its space is
/// `Duplicate`, and a word of its type that is not in scope `Unbound`, whichever comes first.
#[tactic(auto, using(crate::proofs::Building::building_rules, crate::proofs::WordSteps::word_rules, std::proofs::lemmas::Grind::common_steps))]
pub fn resolved_binders<'x>(
    alloc: Global,
    top: &Declared,
    scope: &'x Scope<'x>,
    binders: &[Binder],
) -> Result<Entered, Flawed>
    ensures form { Says (λ e. nbinders_of e.binders) result (binders_resolved (top_by top.now) (locals_of scope.now) no_words 0 (binders_of binders.now)) }
    ensures words { IfOk result (λ e. kept.binders_hints (binders_of e.binders) ≡ kept.binders_hints (binders_of binders.now)) }
    ensures scope { IfOk result (λ e. with_binders e.names (locals_of scope.now) ≡ enter_all (binders_of binders.now) (locals_of scope.now)) }
{
    let mut out = Seq::new(alloc);
    let mut names = Binders::new(alloc);
    let mut at = 0u32;
    for binder in binders {
        let next = binder_part(alloc, top, &*scope, &names, binder, at)?;
        enter(alloc, &mut names, binder)?;
        out.push(next)?;
        at = next_part(at)?;
    }
    Ok(Entered {
        binders: out,
        names,
    })
}
