//! The alternatives of a case.
ghost use Rattle.std.specs.Prelude.{◌≡◌, Ok, length, IfOk};
ghost use Rattle.fc_syntax.specs.Hints as kept;
ghost use Rattle.fc_syntax.specs.View.{alt_of, alts_of, binders_of, expr_of};
ghost use Rattle.fc_model.specs.DeclaredWords.{top_by};
ghost use Rattle.fc_model.specs.Faulting.{under};
ghost use Rattle.fc_model.specs.NamelessView.{nalt_of, nalts_of, nexpr_of};
ghost use Rattle.fc_model.specs.Resolution.{Value, enter_all, with_term, resolved_expr as expr_resolved, resolved_head as head_resolved, resolved_alt as alt_resolved, resolved_alts as alts_resolved};
ghost use Rattle.fc_model.specs.Says.{Says};
ghost use Rattle.fc_scope.specs.ScopeWords.{locals_of, with_binders};

use crate::expressions::expr_part;
use fc_model::{Declared, Flawed, deeper, next_part};
use fc_resolve_parts::{Entered, declared_term, resolved_binders};
use fc_scope::{Binders, Scope};
use fc_syntax::{Alt, Binder, Expr, Head, Memory, NAlt, NExpr, Seq, Text, part};
use std::alloc::Global;

/// What an alternative is for. The word of a constructor that is not in scope is `Unbound`.
fn resolved_head(alloc: Global, top: &Declared, head: &Head) -> Result<Head, Flawed>
    ensures form { Says (λ h. h) result (head_resolved (top_by top.now) head.now) }
{
    match head {
        Head::Default => Ok(Head::Default),
        Head::Lit(n) => Ok(Head::Lit(*n)),
        Head::Con(name) => Ok(Head::Con(declared_term(alloc, top, name)?)),
    }
}

/// The alternatives of a case below its binder.
#[cycle(resolve)]
pub fn alternatives_below<'x>(
    alloc: Global,
    top: &Declared,
    scope: &'x Scope<'x>,
    alts: &[Alt],
    word: &'x Text,
) -> Result<Seq<NAlt>, Flawed>
    ensures form { Says nalts_of result (alts_resolved (top_by top.now) (with_term (Value word.now) (locals_of scope.now)) 3 (alts_of alts.now)) }
    ensures words { IfOk result (λ n. kept.alts_hints (alts_of n) ≡ kept.alts_hints (alts_of alts.now)) }
{
    let inner = Scope::Value(&*word, &*scope);
    alternatives(alloc, top, &inner, alts)
}

/// The alternatives of a case, which are its parts from 3 on.
#[cycle(resolve)]
#[tactic(auto, using(crate::proofs::Building::building_rules, crate::proofs::WordSteps::word_rules, std::proofs::lemmas::Grind::common_steps))]
fn alternatives<'x>(
    alloc: Global,
    top: &Declared,
    scope: &'x Scope<'x>,
    alts: &[Alt],
) -> Result<Seq<NAlt>, Flawed>
    ensures form { Says nalts_of result (alts_resolved (top_by top.now) (locals_of scope.now) 3 (alts_of alts.now)) }
    ensures words { IfOk result (λ n. kept.alts_hints (alts_of n) ≡ kept.alts_hints (alts_of alts.now)) }
{
    let mut out = Seq::new(alloc);
    let mut at = part::FIRST_ALTERNATIVE;
    for alt in alts {
        let next = alternative_part(alloc, top, &*scope, alt, at)?;
        out.push(next)?;
        at = next_part(at)?;
    }
    Ok(out)
}

/// An alternative that is the part of this number.
#[cycle(resolve)]
fn alternative_part<'x>(
    alloc: Global,
    top: &Declared,
    scope: &'x Scope<'x>,
    alt: &Alt,
    part: u32,
) -> Result<NAlt, Flawed>
    ensures form { Says nalt_of result (under part (alt_resolved (top_by top.now) (locals_of scope.now) (alt_of alt.now))) }
    ensures words { IfOk result (λ n. kept.alt_hints (alt_of n) ≡ kept.alt_hints (alt_of alt.now)) }
{
    match alternative(alloc, top, &*scope, alt) {
        Ok(n) => Ok(n),
        Err(flawed) => Err(deeper(flawed, part)),
    }
}

/// An alternative: what it is for, its binders, and below them what it answers.
#[cycle(resolve)]
fn alternative<'x>(
    alloc: Global,
    top: &Declared,
    scope: &'x Scope<'x>,
    alt: &Alt,
) -> Result<NAlt, Flawed>
    ensures form { Says nalt_of result (alt_resolved (top_by top.now) (locals_of scope.now) (alt_of alt.now)) }
    ensures words { IfOk result (λ n. kept.alt_hints (alt_of n) ≡ kept.alt_hints (alt_of alt.now)) }
{
    let head = resolved_head(alloc, top, &alt.head)?;
    let group = alt.binders.as_slice();
    let Entered { binders, names } = resolved_binders(alloc, top, &*scope, group)?;
    let body = below_binders(alloc, top, &*scope, &alt.body, group, &names)?;
    Ok(NAlt {
        head,
        binders,
        body,
    })
}

/// What stands below binders, which is the part behind them.
#[cycle(resolve)]
pub fn below_binders<'x>(
    alloc: Global,
    top: &Declared,
    scope: &'x Scope<'x>,
    e: &Expr,
    binders: &[Binder],
    names: &'x Binders,
) -> Result<NExpr, Flawed>
    requires { with_binders names.now (locals_of scope.now) ≡ enter_all (binders_of binders.now) (locals_of scope.now) }
    ensures form { Says nexpr_of result (under (length (binders_of binders.now)) (expr_resolved (top_by top.now) (enter_all (binders_of binders.now) (locals_of scope.now)) (expr_of e.now))) }
    ensures words { IfOk result (λ n. kept.expr_hints (expr_of n) ≡ kept.expr_hints (expr_of e.now)) }
{
    let inner = Scope::Binders(&*names, &*scope);
    match u32::try_from(binders.len()) {
        Ok(part) => expr_part(alloc, top, &inner, e, part),
        Err(_) => Err(Flawed::Memory),
    }
}
