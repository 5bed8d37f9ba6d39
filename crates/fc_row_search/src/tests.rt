//! Whether an expression is of a form to which a row may apply.
ghost use Rattle.std.specs.Prelude.{◌≡◌, IfOk};
ghost use Rattle.fc_model.specs.NamelessView.{nexpr_of};
ghost use Rattle.fc_rows.specs.Shrinking.{is_con};
ghost use Rattle.fc_known.specs.Told.{told};
ghost use Rattle.fc_known.specs.Around.{HasCounts};
ghost use Rattle.fc_row_search.specs.Spots.{KnowsPlaces, here_at};
ghost use Rattle.fc_row_search.specs.Tests.{is_applied_lambda as spec_is_applied_lambda, is_around_failure as spec_is_around_failure, is_case_of_default as spec_is_case_of_default, is_case_of_known as spec_is_case_of_known, is_cast as spec_is_cast, is_failure as spec_is_failure, is_known as spec_is_known, is_lambda as spec_is_lambda, is_let_with_fields as spec_is_let_with_fields, is_literal as spec_is_literal, is_single_join as spec_is_single_join, may_apply as spec_may_apply};

use crate::spots::Spot;
use fc_forms::{are_trivial, as_case, as_construction, as_single_binding, is_value, only_default};
use fc_known::Fact;
use fc_log::Row;
use fc_row_at_place::fact_at;
use fc_syntax::{Head, Memory, NExpr};

/// Whether an expression is a lambda.
#[tactic(auto, using(fc_syntax::proofs::View::view_rules))]
fn is_lambda(e: &NExpr) -> bool
    ensures { result ≡ spec_is_lambda (nexpr_of e.now) }
{
    matches!(e, NExpr::Lam(_, _))
}

/// Whether an expression is a failure.
#[tactic(auto, using(fc_syntax::proofs::View::view_rules))]
fn is_failure(e: &NExpr) -> bool
    ensures { result ≡ spec_is_failure (nexpr_of e.now) }
{
    matches!(e, NExpr::Fail(_))
}

/// Whether an expression is a literal.
#[tactic(auto, using(fc_syntax::proofs::View::view_rules))]
fn is_literal(e: &NExpr) -> bool
    ensures { result ≡ spec_is_literal (nexpr_of e.now) }
{
    matches!(e, NExpr::Lit(_))
}

/// Whether an expression is a lambda that is applied.
#[tactic(auto, using(fc_syntax::proofs::View::view_rules))]
fn is_applied_lambda(e: &NExpr) -> bool
    ensures { result ≡ spec_is_applied_lambda (nexpr_of e.now) }
{
    match e {
        NExpr::App(head, _) => is_lambda(head),
        _ => false,
    }
}

/// Whether an expression is a failure that is applied, looked at or cast.
#[tactic(auto, using(fc_syntax::proofs::View::view_rules))]
fn is_around_failure(e: &NExpr) -> bool
    ensures { result ≡ spec_is_around_failure (nexpr_of e.now) }
{
    match e {
        NExpr::App(inner, _) => is_failure(inner),
        NExpr::Case(inner, _, _, _, _) => is_failure(inner),
        NExpr::Cast(inner, _) => is_failure(inner),
        _ => false,
    }
}

/// Whether an expression is a cast.
#[tactic(auto, using(fc_syntax::proofs::View::view_rules))]
fn is_cast(e: &NExpr) -> bool
    ensures { result ≡ spec_is_cast (nexpr_of e.now) }
{
    matches!(e, NExpr::Cast(_, _))
}

/// Whether an expression has one join point, which is not recursive.
#[tactic(auto, using(fc_syntax::proofs::View::view_rules, crate::proofs::Counted::count_rules))]
fn is_single_join(e: &NExpr) -> bool
    ensures { result ≡ spec_is_single_join (nexpr_of e.now) }
{
    match e {
        NExpr::Join(recursive, _, points, _) => !*recursive && points.len() == 1,
        _ => false,
    }
}

/// Whether an expression is a let of a constructor, not recursive, with an argument that is not trivial.
fn is_let_with_fields(e: &NExpr) -> bool
    ensures { result ≡ spec_is_let_with_fields (nexpr_of e.now) }
{
    let Some(binding) = as_single_binding(e) else {
        return false;
    };
    match as_construction(&binding.binding.rhs) {
        Some(construction) => !are_trivial(construction.arguments),
        None => false,
    }
}

/// Whether an expression is a case with one alternative, which is the default.
fn is_case_of_default(e: &NExpr) -> bool
    ensures { result ≡ spec_is_case_of_default (nexpr_of e.now) }
{
    match as_case(e) {
        Some(case) => only_default(case.alternatives).is_some(),
        None => false,
    }
}

/// Whether an expression is a constructor with its arguments.
#[tactic(auto, using(fc_syntax::proofs::View::view_rules))]
fn is_construction(e: &NExpr) -> bool
    ensures { result ≡ is_con (nexpr_of e.now) }
{
    matches!(e, NExpr::Con(_, _))
}

/// Whether the fact is a value.
fn is_known(fact: &Fact) -> bool
    ensures { result ≡ spec_is_known (told fact.now) }
{
    match fact {
        Fact::Nothing => false,
        Fact::Bound(e, _) => is_value(e),
        Fact::Found(branch, _) => !matches!(branch.alternative.head, Head::Default),
    }
}

/// Whether an expression is a case of a constructor, of a literal, or of a variable whose value is known. Fails only where a number of binders has no 32 bits.
fn is_case_of_known(e: &NExpr, spot: &Spot) -> Result<bool, Memory>
    requires counts { HasCounts spot.now.around.now }
    requires places { KnowsPlaces spot.now }
    ensures { IfOk result (λ b. b ≡ spec_is_case_of_known (here_at spot.now) (nexpr_of e.now)) }
{
    let Some(case) = as_case(e) else {
        return Ok(false);
    };
    if is_construction(case.scrutinee) || is_literal(case.scrutinee) {
        return Ok(true);
    }
    let search = spot.search;
    let places = search.headers.places;
    let fact = fact_at(case.scrutinee, spot.around, search.modules, places)?;
    Ok(is_known(&fact))
}

/// Whether a row that reads types may apply. Of every other row this is not asked. Fails only where a number of binders has no 32 bits.
pub(crate) fn may_apply(row: Row, e: &NExpr, spot: &Spot) -> Result<bool, Memory>
    requires counts { HasCounts spot.now.around.now }
    requires places { KnowsPlaces spot.now }
    ensures { IfOk result (λ b. b ≡ spec_may_apply row (here_at spot.now) (nexpr_of e.now)) }
{
    match row {
        Row::Beta => Ok(is_applied_lambda(e)),
        Row::FailAbsorb => Ok(is_around_failure(e)),
        Row::CastRefl => Ok(is_cast(e)),
        Row::NameField => Ok(is_let_with_fields(e)),
        Row::CaseKnown => is_case_of_known(e, spot),
        Row::CaseEvaluated => Ok(is_case_of_default(e)),
        Row::JoinOnce => Ok(is_single_join(e)),
        _ => Ok(true),
    }
}
