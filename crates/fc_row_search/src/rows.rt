//! Rows that are tried where a search stands.
ghost use Rattle.std.specs.Prelude.{◌≡◌, ℕ, IfOk, OnOk};
ghost use Rattle.std.specs.Option.{option_map};
ghost use Rattle.fc_log.specs.declared.log.Row.TheVariants.{AltDead};
ghost use Rattle.fc_model.specs.Nameless.{NExpr as Form};
ghost use Rattle.fc_model.specs.NamelessView.{nexpr_of};
ghost use Rattle.fc_type_table.specs.TypeTables.{Grows};
ghost use Rattle.fc_search_laws.specs.Searching.{alternatives_of as spec_alternatives_of, fits, here, rows_tried};
ghost use Rattle.fc_row_search.specs.Spots.{HasHeaders, IsSpot, KnowsPlaces, applying_of, dead_at, here_at, made_at, modules_of, rows_at, told_at, told_here, tried_at};

use crate::parts::alternatives_of;
use crate::spots::{Applying, Spot, place_of};
use crate::tests::may_apply;
use fc_forms::as_case;
use fc_log::Row;
use fc_nameless_measures::measures_of_expr;
use fc_numbers::sum;
use fc_row_at_place::{Asked, Question, fact_at, row_by_headers, term_row};
use fc_shrink_cases::alt_dead;
use fc_syntax::{Memory, NExpr};
use fc_type_table::TypeTable;
use std::alloc::Global;

/// The rows in the order in which they are tried; alt-dead is tried behind them.
const ROWS: [Row; 17] = [
    Row::LetDead,
    Row::LetAtom,
    Row::LetOnce,
    Row::Beta,
    Row::CaseKnown,
    Row::CaseEvaluated,
    Row::CaseMerge,
    Row::FailAbsorb,
    Row::CastRefl,
    Row::CastCast,
    Row::JoinDead,
    Row::JoinOnce,
    Row::AppOfLet,
    Row::CaseOfLet,
    Row::LetOfLet,
    Row::CastOfLet,
    Row::NameField,
];

/// What alt-dead makes of an expression.
fn without_dead(
    alloc: Global,
    alternative: usize,
    e: &NExpr,
    spot: &Spot,
) -> Result<Option<NExpr>, Memory>
    requires spot { IsSpot spot.now (nexpr_of e.now) }
    requires places { KnowsPlaces spot.now }
    ensures { IfOk result (λ o. option_map nexpr_of o ≡ made_at spot.now AltDead alternative (nexpr_of e.now)) }
{
    let Some(case) = as_case(e) else {
        return Ok(None);
    };
    let search = spot.search;
    let places = search.headers.places;
    let fact = fact_at(case.scrutinee, spot.around, search.modules, places)?;
    alt_dead(alloc, e, alternative, &fact)
}

/// What a row makes where the search stands, by a walk of its own that reads types.
fn asked_there(
    alloc: Global,
    row: Row,
    alternative: usize,
    types: &mut TypeTable,
    spot: &Spot,
) -> Result<Option<NExpr>, Memory>
    requires types { HasHeaders types.old spot.now }
    ensures found { (e : Form) → IsSpot spot.now e → IfOk result (λ o. option_map nexpr_of o ≡ made_at spot.now row alternative e) }
    ensures grows { OnOk result (Grows types.old types.new) }
{
    let search = spot.search;
    let place = place_of(alloc, spot.path)?;
    let asked = Asked {
        question: Question::Row(row, alternative),
        modules: search.modules,
    };
    row_by_headers(
        alloc,
        search.right,
        place.as_slice(),
        types,
        search.headers,
        &asked,
    )
}

/// What a row that reads types makes of an expression, which is asked only where the form of the expression lets it apply.
fn typed_row(
    alloc: Global,
    row: Row,
    alternative: usize,
    e: &NExpr,
    types: &mut TypeTable,
    spot: &Spot,
) -> Result<Option<NExpr>, Memory>
    requires spot { IsSpot spot.now (nexpr_of e.now) }
    requires types { HasHeaders types.old spot.now }
    ensures found { IfOk result (λ o. option_map nexpr_of o ≡ made_at spot.now row alternative (nexpr_of e.now)) }
    ensures grows { OnOk result (Grows types.old types.new) }
{
    if may_apply(row, e, spot)? {
        asked_there(alloc, row, alternative, types, spot)
    } else {
        Ok(None)
    }
}

/// What a row makes of an expression. Answers none where the row does not apply, where its result would be beyond the limits on results, and where it is none of those that are
/// built.
fn made(
    alloc: Global,
    row: Row,
    alternative: usize,
    e: &NExpr,
    types: &mut TypeTable,
    spot: &Spot,
) -> Result<Option<NExpr>, Memory>
    requires spot { IsSpot spot.now (nexpr_of e.now) }
    requires types { HasHeaders types.old spot.now }
    ensures found { IfOk result (λ o. option_map nexpr_of o ≡ made_at spot.now row alternative (nexpr_of e.now)) }
    ensures grows { OnOk result (Grows types.old types.new) }
{
    match row {
        Row::AltDead => without_dead(alloc, alternative, e, spot),
        Row::Beta | Row::FailAbsorb | Row::CastRefl | Row::NameField => {
            typed_row(alloc, row, alternative, e, types, spot)
        }
        Row::CaseKnown | Row::CaseEvaluated | Row::JoinOnce => {
            typed_row(alloc, row, alternative, e, types, spot)
        }
        row => term_row(alloc, row, e),
    }
}

/// Whether an expression may stand in the place of another: it is no deeper than there is room, and no larger than the other by more than the module may grow. Fails only where a
/// number has no 32 bits.
#[tactic(auto, using(crate::proofs::Sizes::size_rules))]
fn may_stand(old: &NExpr, new: &NExpr, spot: &Spot) -> Result<bool, Memory>
    ensures { IfOk result (λ b. b ≡ fits spot.now.room spot.now.search.now.spare (nexpr_of old.now) (nexpr_of new.now)) }
{
    let search = spot.search;
    let old = measures_of_expr(old)?;
    let new = measures_of_expr(new)?;
    let most = sum(old.size, search.spare)?;
    Ok(new.depth <= spot.room && new.size <= most)
}

/// What is found where a row made this of an expression, which may stand in its place or not.
fn applying(
    alloc: Global,
    row: Row,
    alternative: usize,
    e: &NExpr,
    new: NExpr,
    spot: &Spot,
) -> Result<Option<Applying>, Memory>
    ensures { IfOk result (λ o. option_map applying_of o ≡ told_here spot.now row alternative (nexpr_of e.now) (nexpr_of new)) }
{
    if !may_stand(e, &new, spot)? {
        return Ok(None);
    }
    let place = place_of(alloc, spot.path)?;
    Ok(Some(Applying {
        row,
        alternative,
        place,
        new,
    }))
}

/// What is found of one row at an expression.
fn tried(
    alloc: Global,
    row: Row,
    alternative: usize,
    e: &NExpr,
    types: &mut TypeTable,
    spot: &Spot,
) -> Result<Option<Applying>, Memory>
    requires spot { IsSpot spot.now (nexpr_of e.now) }
    requires types { HasHeaders types.old spot.now }
    ensures found { IfOk result (λ o. option_map applying_of o ≡ tried_at spot.now row alternative (nexpr_of e.now)) }
    ensures grows { OnOk result (Grows types.old types.new) }
{
    match made(alloc, row, alternative, e, types, spot)? {
        Some(new) => applying(alloc, row, alternative, e, new, spot),
        None => Ok(None),
    }
}

/// The first of some rows that applies to an expression.
fn first_among(
    alloc: Global,
    rows: &[Row],
    e: &NExpr,
    types: &mut TypeTable,
    spot: &Spot,
) -> Result<Option<Applying>, Memory>
    requires spot { IsSpot spot.now (nexpr_of e.now) }
    requires types { HasHeaders types.old spot.now }
    ensures found { IfOk result (λ o. option_map applying_of o ≡ rows_at spot.now rows.now (nexpr_of e.now)) }
    ensures grows { OnOk result (Grows types.old types.new) }
{
    match rows {
        [] => Ok(None),
        [row, rest @ ..] => match tried(alloc, *row, 0, e, types, spot)? {
            Some(found) => Ok(Some(found)),
            None => first_among(alloc, rest, e, types, spot),
        },
    }
}

/// The first row that applies to an expression, but for alt-dead.
fn first_row(
    alloc: Global,
    e: &NExpr,
    types: &mut TypeTable,
    spot: &Spot,
) -> Result<Option<Applying>, Memory>
    requires spot { IsSpot spot.now (nexpr_of e.now) }
    requires types { HasHeaders types.old spot.now }
    ensures found { IfOk result (λ o. option_map applying_of o ≡ rows_at spot.now rows_tried (nexpr_of e.now)) }
    ensures grows { OnOk result (Grows types.old types.new) }
{
    first_among(alloc, ROWS.as_slice(), e, types, spot)
}

/// The first alternative of an expression that is dead.
fn first_dead(
    alloc: Global,
    e: &NExpr,
    types: &mut TypeTable,
    spot: &Spot,
) -> Result<Option<Applying>, Memory>
    requires spot { IsSpot spot.now (nexpr_of e.now) }
    requires types { HasHeaders types.old spot.now }
    ensures found { IfOk result (λ o. option_map applying_of o ≡ dead_at spot.now (spec_alternatives_of (nexpr_of e.now)) 0 (nexpr_of e.now)) }
    ensures grows { OnOk result (Grows types.old types.new) }
{
    for alternative in 0..alternatives_of(e) {
        if let Some(found) = tried(alloc, Row::AltDead, alternative, e, types, spot)? {
            return Ok(Some(found));
        }
    }
    Ok(None)
}

/// The first row that applies to an expression itself.
pub(crate) fn row_here(
    alloc: Global,
    e: &NExpr,
    types: &mut TypeTable,
    spot: &Spot,
) -> Result<Option<Applying>, Memory>
    requires spot { IsSpot spot.now (nexpr_of e.now) }
    requires types { HasHeaders types.old spot.now }
    ensures found { IfOk result (λ o. option_map applying_of o ≡ told_at spot.now (here (modules_of spot.now.search.now) spot.now.room spot.now.search.now.spare (here_at spot.now) (nexpr_of e.now))) }
    ensures grows { OnOk result (Grows types.old types.new) }
{
    match first_row(alloc, e, types, spot)? {
        Some(found) => Ok(Some(found)),
        None => first_dead(alloc, e, types, spot),
    }
}
