//! What rows make of an expression where a walk stands.
ghost use Rattle.std.specs.Prelude.{◌≡◌, IfOk, OnOk};
ghost use Rattle.std.specs.Option.{option_map};
ghost use Rattle.fc_model.specs.Kinding.{decls_at};
ghost use Rattle.fc_model.specs.NamelessView.{nexpr_of, nmodules_of};
ghost use Rattle.fc_log.specs.declared.log.Row.TheVariants.{JoinOnce};
ghost use Rattle.fc_lint_context.specs.ContextViews.{IsContextOver, context_in, modules_of_context};
ghost use Rattle.fc_case_known.specs.Within.{case_known_within};
ghost use Rattle.fc_rows.specs.Shrinking.{alt_dead as spec_alt_dead, case_evaluated as spec_case_evaluated, known as spec_known};
ghost use Rattle.fc_rows.specs.Surroundings.{Surroundings};
ghost use Rattle.fc_definition_places.specs.Places.{HasPlaces};
ghost use Rattle.fc_known.specs.Around.{HasCounts, surroundings_of};
ghost use Rattle.fc_known.specs.Told.{told};
ghost use Rattle.fc_shrink_cases.specs.Cases.{is_unlifted_local};
ghost use Rattle.fc_type_table.specs.TypeTables.{Grows};
ghost use Rattle.fc_row_at_place.specs.Rows.{built_row, is_built as spec_is_built, term_row as spec_term_row};
ghost use Rattle.fc_row_at_place.specs.Sites.{IsSite, modules_at, surroundings_at};

use crate::asked::Site;
use fc_case_known::case_known;
use fc_commute::{application_of_let, case_of_let, cast_of_let, let_of_let};
use fc_commute_types::name_field;
use fc_definition_places::DefinitionPlaces;
use fc_forms::as_case;
use fc_known::{Around, Fact, known, known_name};
use fc_lint_context::Context;
use fc_log::Row;
use fc_model::Flawed;
use fc_shrink_cases::{alt_dead, case_evaluated};
use fc_shrink_terms::{case_merge, cast_cast, join_dead, let_atom, let_dead, let_once};
use fc_shrink_types::{beta, cast_refl, fail_absorb};
use fc_syntax::{Memory, NExpr, NModule, Ref};
use fc_type_table::TypeTable;
use std::alloc::Global;

/// Whether a row is one that is built here.
pub fn is_built(row: Row) -> bool
    ensures { result ≡ spec_is_built row }
{
    match row {
        Row::Beta | Row::FailAbsorb | Row::CastRefl | Row::NameField => true,
        Row::AltDead | Row::CaseEvaluated | Row::CaseKnown | Row::JoinOnce => true,
        Row::LetDead | Row::LetAtom | Row::LetOnce => true,
        Row::CaseMerge | Row::CastCast | Row::JoinDead => true,
        Row::AppOfLet | Row::CaseOfLet | Row::LetOfLet | Row::CastOfLet => true,
        _ => false,
    }
}

/// What a row that reads the expression alone makes of one. Answers none where the row does not apply, and for every other row. Fails only where memory runs out, a
/// distance or a number of parts has no 32 bits, or calls would go 2^32 deep.
pub fn term_row(alloc: Global, row: Row, e: &NExpr) -> Result<Option<NExpr>, Memory>
    ensures { IfOk result (λ o. option_map nexpr_of o ≡ spec_term_row row (nexpr_of e.now)) }
{
    match row {
        Row::LetDead => let_dead(alloc, e),
        Row::LetAtom => let_atom(alloc, e),
        Row::LetOnce => let_once(alloc, e),
        Row::CaseMerge => case_merge(alloc, e),
        Row::CastCast => cast_cast(alloc, e),
        Row::JoinDead => join_dead(alloc, e),
        Row::AppOfLet => application_of_let(alloc, e),
        Row::CaseOfLet => case_of_let(alloc, e),
        Row::LetOfLet => let_of_let(alloc, e),
        Row::CastOfLet => cast_of_let(alloc, e),
        _ => Ok(None),
    }
}

/// What is known of an expression, which is a variable or of which nothing is known, where this stands around it, and the right sides of modules are known. Where several have one
/// name, the first counts; where they define words, the table tells. Fails only where a number of binders has no 32 bits.
#[tactic(auto, using(fc_syntax::proofs::View::view_rules))]
pub fn fact_at<'x>(
    e: &NExpr,
    around: &'x Around<'x>,
    modules: &'x [NModule],
    places: &DefinitionPlaces<'_>,
) -> Result<Fact<'x>, Memory>
    requires counts { HasCounts around.now }
    requires places { HasPlaces (nmodules_of modules.now) places.now }
    ensures { IfOk result (λ f. told f ≡ spec_known (surroundings_of (decls_at (nmodules_of modules.now)) around.now) (nexpr_of e.now)) }
{
    match e {
        NExpr::Var(Ref::Local(distance)) => known(around, *distance),
        NExpr::Var(Ref::Top(name)) => known_name(around, name, places.right_side(modules, name)),
        _ => Ok(Fact::Nothing),
    }
}

/// The same where a walk stands.
fn fact_of<'x>(e: &NExpr, site: &Site<'x>) -> Result<Fact<'x>, Memory>
    requires counts { HasCounts site.now.around.now }
    requires places { HasPlaces (nmodules_of site.now.asked.now.modules.now) site.now.places.now }
    ensures { IfOk result (λ f. told f ≡ spec_known (surroundings_at site.now) (nexpr_of e.now)) }
{
    let asked = site.asked;
    fact_at(e, site.around, asked.modules, site.places)
}

/// Whether an expression is a local variable of an unlifted type. Fails only where memory runs out.
#[tactic(auto, using(fc_syntax::proofs::View::view_rules))]
fn is_unlifted_variable(
    alloc: Global,
    e: &NExpr,
    types: &TypeTable,
    context: &Context,
) -> Result<bool, Memory>
    requires { IsContextOver types.now context.now }
    ensures { (s : Surroundings) → s.context ≡ context_in types.now context.now → IfOk result (λ b. b ≡ is_unlifted_local (modules_of_context context.now) s (nexpr_of e.now)) }
{
    match e {
        NExpr::Var(Ref::Local(distance)) => match context.local(alloc, *distance) {
            Ok(t) => Ok(types.is_unlifted(t)),
            Err(Flawed::Memory) => Err(Memory),
            Err(Flawed::Flaw(_)) => Ok(false),
        },
        _ => Ok(false),
    }
}

/// What alt-dead makes of an expression where a walk stands.
fn without_dead(
    alloc: Global,
    e: &NExpr,
    alternative: usize,
    site: &Site,
) -> Result<Option<NExpr>, Memory>
    requires counts { HasCounts site.now.around.now }
    requires places { HasPlaces (nmodules_of site.now.asked.now.modules.now) site.now.places.now }
    ensures { IfOk result (λ o. option_map nexpr_of o ≡ spec_alt_dead alternative (surroundings_at site.now) (nexpr_of e.now)) }
{
    let Some(case) = as_case(e) else {
        return Ok(None);
    };
    let fact = fact_of(case.scrutinee, site)?;
    alt_dead(alloc, e, alternative, &fact)
}

/// What case-evaluated makes of an expression where a walk stands.
fn without_case(
    alloc: Global,
    e: &NExpr,
    types: &TypeTable,
    site: &Site,
) -> Result<Option<NExpr>, Memory>
    requires { IsSite types.now site.now }
    ensures { IfOk result (λ o. option_map nexpr_of o ≡ spec_case_evaluated (modules_at site.now) (surroundings_at site.now) (nexpr_of e.now)) }
{
    let Some(case) = as_case(e) else {
        return Ok(None);
    };
    let fact = fact_of(case.scrutinee, site)?;
    let unlifted = is_unlifted_variable(alloc, case.scrutinee, types, site.context)?;
    case_evaluated(alloc, e, &fact, unlifted)
}

/// What case-known makes of an expression where a walk stands, unless that is more than 500 lets.
fn at_alternative(
    alloc: Global,
    e: &NExpr,
    types: &mut TypeTable,
    site: &Site,
) -> Result<Option<NExpr>, Memory>
    requires { IsSite types.old site.now }
    ensures answer { IfOk result (λ o. option_map nexpr_of o ≡ case_known_within (modules_at site.now) (surroundings_at site.now) (nexpr_of e.now)) }
    ensures grows { OnOk result (Grows types.old types.new) }
{
    let Some(case) = as_case(e) else {
        return Ok(None);
    };
    let fact = fact_of(case.scrutinee, site)?;
    case_known(alloc, e, &fact, types, site.context)
}

/// What a row but for join-once makes of an expression where a walk stands. Answers none where the row does not apply, where its result would be beyond the limits on
/// results, and where it is none of those that are built here.
pub(crate) fn row_alone(
    alloc: Global,
    row: Row,
    alternative: usize,
    e: &NExpr,
    types: &mut TypeTable,
    site: &Site,
) -> Result<Option<NExpr>, Memory>
    requires site { IsSite types.old site.now }
    requires other { row ≡ JoinOnce → ⊥ }
    ensures answer { IfOk result (λ o. option_map nexpr_of o ≡ built_row (modules_at site.now) row alternative (surroundings_at site.now) (nexpr_of e.now)) }
    ensures grows { OnOk result (Grows types.old types.new) }
{
    match row {
        Row::Beta => beta(alloc, e, types, site.context),
        Row::FailAbsorb => fail_absorb(alloc, e, types, site.context),
        Row::CastRefl => cast_refl(alloc, e, types, site.context),
        Row::NameField => name_field(alloc, e, types, site.context),
        Row::AltDead => without_dead(alloc, e, alternative, site),
        Row::CaseKnown => at_alternative(alloc, e, types, site),
        Row::CaseEvaluated => without_case(alloc, e, &*types, site),
        row => term_row(alloc, row, e),
    }
}
