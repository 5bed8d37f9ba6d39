//! Alternatives without binders, behind a let for the case binder.
ghost use Rattle.std.specs.Prelude.{◌≡◌, IfOk};
ghost use Rattle.std.specs.Option.{option_map};
ghost use Rattle.fc_model.specs.Calling.{first_of, from_some};
ghost use Rattle.fc_model.specs.NamelessView.{nalts_of, nexpr_of, nty_of};
ghost use Rattle.fc_rows.specs.Shrinking.{alternative_of, at_scrutinee as spec_at_scrutinee};
ghost use Rattle.fc_syntax.specs.declared.expr.Head.TheVariants.{Default, Lit};
ghost use Rattle.fc_case_known.specs.Alternatives.{branch_of};

use crate::alternatives::{alternative_at, default_of};
use fc_copies::nameless::copy_expr;
use fc_forms::{Case, let_of};
use fc_syntax::{Memory, NAlt, NExpr};
use std::alloc::Global;

/// An alternative behind a let of what the case looks at. Nothing where the alternative has binders. Fails only where memory runs out.
fn at_scrutinee(alloc: Global, case: &Case<'_>, alternative: &NAlt) -> Result<Option<NExpr>, Memory>
    ensures { IfOk result (λ o. option_map nexpr_of o ≡ spec_at_scrutinee (nty_of case.now.ty.now) (nexpr_of case.now.scrutinee.now) (branch_of alternative.now)) }
{
    if !alternative.binders.is_empty() {
        return Ok(None);
    }
    let word = case.word.copy(alloc)?;
    let ty = case.ty.copy(alloc)?;
    let scrutinee = copy_expr(alloc, case.scrutinee)?;
    let body = copy_expr(alloc, &alternative.body)?;
    Ok(Some(let_of(alloc, word, ty, scrutinee, body)?))
}

/// The same of the alternative that a case may have.
fn at_scrutinee_if(
    alloc: Global,
    case: &Case<'_>,
    alternative: Option<&NAlt>,
) -> Result<Option<NExpr>, Memory>
    ensures { IfOk result (λ o. option_map nexpr_of o ≡ from_some (spec_at_scrutinee (nty_of case.now.ty.now) (nexpr_of case.now.scrutinee.now)) (option_map (λ a. branch_of a.now) alternative.entry)) }
{
    match alternative {
        None => Ok(None),
        Some(alternative) => at_scrutinee(alloc, case, alternative),
    }
}

/// The default of a case behind a let of what the case looks at. Nothing where there is none. Fails only where memory runs out.
pub(crate) fn at_default(alloc: Global, case: &Case<'_>) -> Result<Option<NExpr>, Memory>
    ensures { IfOk result (λ o. option_map nexpr_of o ≡ from_some (spec_at_scrutinee (nty_of case.now.ty.now) (nexpr_of case.now.scrutinee.now)) (alternative_of Default (nalts_of case.now.alternatives.now))) }
{
    at_scrutinee_if(alloc, case, default_of(case.alternatives))
}

/// The alternative for the literal that a case looks at, else the default, behind a let of it. Nothing where there is none. Fails only where memory runs out.
pub(crate) fn case_of_literal(
    alloc: Global,
    case: &Case<'_>,
    literal: i64,
) -> Result<Option<NExpr>, Memory>
    ensures { IfOk result (λ o. option_map nexpr_of o ≡ from_some (spec_at_scrutinee (nty_of case.now.ty.now) (nexpr_of case.now.scrutinee.now)) (first_of (alternative_of (Lit literal) (nalts_of case.now.alternatives.now)) (alternative_of Default (nalts_of case.now.alternatives.now)))) }
{
    at_scrutinee_if(alloc, case, alternative_at(case.alternatives, literal))
}
