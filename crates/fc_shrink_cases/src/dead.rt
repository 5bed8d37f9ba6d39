//! Alternatives that are never taken.
ghost use Rattle.std.specs.Prelude.{◌<◌, ◌≡◌, IfOk, length};
ghost use Rattle.std.specs.Option.{option_map};
ghost use Rattle.fc_model.specs.NamelessView.{nalts_of, nexpr_of};
ghost use Rattle.fc_rows.specs.Shrinking.{alt_dead as spec_alt_dead, known};
ghost use Rattle.fc_rows.specs.Surroundings.{Surroundings};
ghost use Rattle.fc_known.specs.Told.{told};
ghost use Rattle.fc_shrink_cases.specs.Cases.{scrutinee_of, without};

use crate::heads::is_excluded;
use fc_copies::nameless::{copy_alt, copy_alts, copy_expr};
use fc_forms::as_case;
use fc_known::Fact;
use fc_syntax::{Memory, NAlt, NExpr, Seq};
use std::alloc::Global;

/// Copies of alternatives but for the one of a number. Fails only where memory runs out.
fn others(alloc: Global, alternatives: &[NAlt], number: usize) -> Result<Seq<NAlt>, Memory>
    requires { number < length alternatives.now }
    ensures { IfOk result (λ r. nalts_of r ≡ without number (nalts_of alternatives.now)) }
{
    let before = &alternatives[..number];
    let after = &alternatives[number + 1..];
    let mut copies = copy_alts(alloc, before)?;
    for alternative in after {
        copies.push(copy_alt(alloc, alternative)?)?;
    }
    Ok(copies)
}

/// A case without the alternative of a number, where what it looks at is known not to have its head. `fact` is what is known of that. Answers none where the expression
/// is no such case. Fails only where memory runs out.
pub fn alt_dead(
    alloc: Global,
    e: &NExpr,
    number: usize,
    fact: &Fact,
) -> Result<Option<NExpr>, Memory>
    ensures { (s : Surroundings) → told fact.now ≡ known s (scrutinee_of (nexpr_of e.now)) → IfOk result (λ o. option_map nexpr_of o ≡ spec_alt_dead number s (nexpr_of e.now)) }
{
    let Some(case) = as_case(e) else {
        return Ok(None);
    };
    let Some(alternative) = case.alternatives.get(number) else {
        return Ok(None);
    };
    if !is_excluded(fact, &alternative.head) {
        return Ok(None);
    }
    let alternatives = others(alloc, case.alternatives, number)?;
    let scrutinee = copy_expr(alloc, case.scrutinee)?;
    let word = case.word.copy(alloc)?;
    let ty = case.ty.copy(alloc)?;
    let answer = case.answer.copy(alloc)?;
    Ok(Some(NExpr::case_of(alloc, scrutinee, word, ty, answer, alternatives)?))
}
