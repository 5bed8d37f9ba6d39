//! What is asked where a walk stands, and join points with one jump.
ghost use Rattle.std.specs.Prelude.{◌≡◌, IfOk, Option, Some, OnOk};
ghost use Rattle.std.specs.Option.{option_map};
ghost use Rattle.fc_model.specs.Calling.{from_some};
ghost use Rattle.fc_model.specs.Nameless as pure;
ghost use Rattle.fc_model.specs.NamelessView.{nexpr_of, njoins_of, nty_of};
ghost use Rattle.fc_parts.specs.PartsAt.{at_place};
ghost use Rattle.fc_rows.specs.Changing.{changed};
ghost use Rattle.fc_rows.specs.ChangingCoercions.{as_they_are};
ghost use Rattle.fc_rows.specs.Shrinking.{occurs_once as spec_occurs_once};
ghost use Rattle.fc_rows.specs.Occurrences.{innermost_joins, occurrences};
ghost use Rattle.fc_rows.specs.Surroundings.{Surroundings, behind_joins};
ghost use Rattle.fc_jump_once.specs.Within.{jump_once_within};
ghost use Rattle.fc_type_table.specs.TypeTables.{Grows};
ghost use Rattle.fc_row_at_place.specs.Joins.{with_one_jump, without_dead_join as spec_without_dead_join};
ghost use Rattle.fc_row_at_place.specs.Rows.{join_once_within};
ghost use Rattle.fc_row_at_place.specs.Sites.{IsSite, row_for, surroundings_at};

use crate::asked::{Asked, Question, Site};
use crate::groups::row_behind_points;
use crate::rows::row_alone;
use fc_copies::nameless::copy_expr;
use fc_forms::{Joining, as_joining};
use fc_jump_once::jump_once;
use fc_jump_places::jump_place;
use fc_known::known_point;
use fc_log::Row;
use fc_occur::jumps_to_innermost;
use fc_places::exchange;
use fc_rows::Occurrence;
use fc_shrink_terms::without_joins;
use fc_syntax::{Memory, NExpr};
use fc_type_table::TypeTable;
use std::alloc::Global;

/// What a jump becomes where a walk stands, and it is the only one to its join point. Answers none where the expression is no jump, or one with more than 500 terms.
#[tactic(auto, using(fc_syntax::proofs::View::view_rules))]
fn jump_taken(
    alloc: Global,
    e: &NExpr,
    types: &mut TypeTable,
    site: &Site,
) -> Result<Option<NExpr>, Memory>
    requires { IsSite types.old site.now }
    ensures answer { IfOk result (λ o. option_map nexpr_of o ≡ jump_once_within (surroundings_at site.now) (nexpr_of e.now)) }
    ensures grows { OnOk result (Grows types.old types.new) }
{
    match e {
        NExpr::Jump(distance, _) => {
            let point = known_point(site.around, *distance)?;
            jump_once(alloc, e, &point, types, site.context)
        }
        _ => Ok(None),
    }
}

/// Whether the body of an expression with one join point jumps there once.
fn has_one_jump(body: &NExpr) -> Result<bool, Memory>
    ensures { IfOk result (λ b. b ≡ spec_occurs_once (occurrences (innermost_joins 1) (nexpr_of body.now))) }
{
    match jumps_to_innermost(body, 1)? {
        Occurrence::Dead | Occurrence::Many => Ok(false),
        Occurrence::Once | Occurrence::OnceAsField | Occurrence::OnceInside => Ok(true),
    }
}

/// A body behind one join point, as it is alone where it does not jump there; else nothing.
fn without_dead_join(alloc: Global, body: &NExpr) -> Result<Option<NExpr>, Memory>
    ensures { IfOk result (λ o. option_map nexpr_of o ≡ spec_without_dead_join (nexpr_of body.now)) }
{
    match jumps_to_innermost(body, 1)? {
        Occurrence::Dead => Ok(Some(without_joins(alloc, body, 1)?)),
        _ => Ok(None),
    }
}

/// The body of an expression with one join point, with another expression at a place, as it is alone where it jumps there no more; else nothing.
fn without_jump(
    alloc: Global,
    body: &NExpr,
    place: &[u32],
    taken: NExpr,
) -> Result<Option<NExpr>, Memory>
    ensures { (row : Surroundings → pure.NExpr → Option pure.NExpr) (s : Surroundings) → at_place row place.now s (nexpr_of body.now) ≡ Some (nexpr_of taken) → IfOk result (λ o. option_map nexpr_of o ≡ from_some spec_without_dead_join (changed row as_they_are s place.now (nexpr_of body.now))) }
{
    let mut whole = copy_expr(alloc, body)?;
    match exchange(&mut whole, place, taken) {
        Ok(_) => without_dead_join(alloc, &whole),
        Err(_) => Ok(None),
    }
}

/// What join-once makes of an expression with one join point that is not recursive.
#[cycle(places)]
fn joined_once<'x>(
    alloc: Global,
    joining: &Joining<'x>,
    types: &mut TypeTable,
    site: &Site<'x>,
) -> Result<Option<NExpr>, Memory>
    requires { IsSite types.old site.now }
    ensures answer { IfOk result (λ o. option_map nexpr_of o ≡ with_one_jump (nty_of joining.now.answer.now) (njoins_of joining.now.points.now) (nexpr_of joining.now.body.now) (surroundings_at site.now)) }
    ensures grows { OnOk result (Grows types.old types.new) }
{
    let Some(place) = jump_place(alloc, 0, joining.body)? else {
        return Ok(None);
    };
    let asked = Asked {
        question: Question::Jump,
        modules: site.asked.modules,
    };
    let inner = Site {
        asked: &asked,
        places: &*site.places,
        context: &*site.context,
        around: &*site.around,
    };
    let found = row_behind_points(
        alloc,
        false,
        joining.answer,
        joining.points,
        joining.body,
        place.as_slice(),
        types,
        &inner,
    )?;
    match found {
        Some(taken) => without_jump(alloc, joining.body, place.as_slice(), taken),
        None => Ok(None),
    }
}

/// What join-once makes of an expression where a walk stands.
#[cycle(places)]
fn join_once<'x>(
    alloc: Global,
    e: &'x NExpr,
    types: &mut TypeTable,
    site: &Site<'x>,
) -> Result<Option<NExpr>, Memory>
    requires { IsSite types.old site.now }
    ensures answer { IfOk result (λ o. option_map nexpr_of o ≡ join_once_within (surroundings_at site.now) (nexpr_of e.now)) }
    ensures grows { OnOk result (Grows types.old types.new) }
{
    let Some(joining) = as_joining(e) else {
        return Ok(None);
    };
    if joining.recursive {
        return Ok(None);
    }
    if joining.points.len() != 1 {
        return Ok(None);
    }
    if !has_one_jump(joining.body)? {
        return Ok(None);
    }
    joined_once(alloc, &joining, types, site)
}

/// What is answered of an expression where a walk stands. Answers none where a row does not apply, where its result would be beyond the limits on results, and where it is none
/// of those that are built here.
#[cycle(places)]
pub(crate) fn answer_here<'x>(
    alloc: Global,
    e: &'x NExpr,
    types: &mut TypeTable,
    site: &Site<'x>,
) -> Result<Option<NExpr>, Memory>
    requires { IsSite types.old site.now }
    ensures answer { IfOk result (λ o. option_map nexpr_of o ≡ row_for site.now (surroundings_at site.now) (nexpr_of e.now)) }
    ensures grows { OnOk result (Grows types.old types.new) }
{
    let asked = site.asked;
    match asked.question {
        Question::Jump => jump_taken(alloc, e, types, site),
        Question::Row(Row::JoinOnce, _) => join_once(alloc, e, types, site),
        Question::Row(row, alternative) => row_alone(alloc, row, alternative, e, types, site),
    }
}
