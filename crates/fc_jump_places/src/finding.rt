//! The walk to the first jump.
ghost use Rattle.std.specs.Prelude.{◌≡◌, ◌+◌, ◌&&◌, ◌∷◌, if◌then◌else◌, IfOk, length, suc, None};
ghost use Rattle.std.specs.Option.{option_map};
ghost use Rattle.fc_model.specs.Calling.{first_of};
ghost use Rattle.fc_model.specs.NamelessView.{nalts_of, nbinders_of, nbinds_of, nexpr_of, njoins_of};
ghost use Rattle.fc_model.specs.Replacing.{bind_count, join_count};
ghost use Rattle.fc_rows.specs.Changing.{made};
ghost use Rattle.fc_rows.specs.Shrinking.{is_case_or_join as spec_is_case_or_join, is_jump as spec_is_jump, jump_place as spec_jump_place, jump_place_in_alts, jump_place_in_joins};
ghost use Rattle.fc_jump_places.specs.Backwards.{place_of};

use fc_numbers::{number, sum};
use fc_syntax::{Memory, NAlt, NBind, NBinder, NExpr, NJoinBind, part};
use std::alloc::Global;

/// Whether an expression is a case or has join points.
#[tactic(auto, using(fc_syntax::proofs::View::view_rules))]
fn is_case_or_join(e: &NExpr) -> bool
    ensures { result ≡ spec_is_case_or_join (nexpr_of e.now) }
{
    match e {
        NExpr::Case(_, _, _, _, _) => true,
        NExpr::Join(_, _, _, _) => true,
        _ => false,
    }
}

/// Whether an expression is a jump.
#[tactic(auto, using(fc_syntax::proofs::View::view_rules))]
fn is_jump(e: &NExpr) -> bool
    ensures { result ≡ spec_is_jump (nexpr_of e.now) }
{
    match e {
        NExpr::Jump(_, _) => true,
        _ => false,
    }
}

/// The place that was found in the part of this number, as one of the whole. Up to the end of the walk a place lists its numbers from the innermost part outwards.
fn in_part(place: Option<Vec<u32>>, part: u32) -> Result<Option<Vec<u32>>, Memory>
    ensures { IfOk result (λ o. place_of o ≡ made (λ p. part ∷ p) (place_of place)) }
{
    let Some(mut place) = place else {
        return Ok(None);
    };
    place.push(part)?;
    Ok(Some(place))
}

/// The place that was found behind the binders of the part of this number, as one of the whole: what stands behind binders is the part that follows them.
fn behind_binders(
    place: Option<Vec<u32>>,
    binders: &[NBinder],
    part: u32,
) -> Result<Option<Vec<u32>>, Memory>
    ensures { IfOk result (λ o. place_of o ≡ made (λ p. part ∷ length (nbinders_of binders.now) ∷ p) (place_of place)) }
{
    let Some(mut place) = place else {
        return Ok(None);
    };
    place.push(number(binders.len())?)?;
    in_part(Some(place), part)
}

/// The place of the first jump to the join point at a distance.
#[cycle(finding)]
#[tactic(auto, using(fc_syntax::proofs::View::view_rules))]
fn in_expression(alloc: Global, e: &NExpr, distance: u32) -> Result<Option<Vec<u32>>, Memory>
    ensures { IfOk result (λ o. place_of o ≡ spec_jump_place distance (nexpr_of e.now)) }
{
    match e {
        NExpr::Var(_) => Ok(None),
        NExpr::Lit(_) => Ok(None),
        NExpr::App(_, _) => Ok(None),
        NExpr::Lam(_, _) => Ok(None),
        NExpr::Let(_, binds, body) => in_let(alloc, binds.as_slice(), body, distance),
        NExpr::Case(scrutinee, _, _, _, alts) => {
            in_alternatives(alloc, alts.as_slice(), is_case_or_join(scrutinee), distance)
        }
        NExpr::Cast(_, _) => Ok(None),
        NExpr::Con(_, _) => Ok(None),
        NExpr::Prim(_, _) => Ok(None),
        NExpr::Fail(_) => Ok(None),
        NExpr::Join(recursive, _, joins, body) => {
            in_join(alloc, *recursive, joins.as_slice(), body, distance)
        }
        NExpr::Jump(to, _) => Ok(if *to == distance {
            Some(Vec::new(alloc))
        } else {
            None
        }),
    }
}

/// The place of the first jump in a let, of which the body alone is in tail position.
#[cycle(finding)]
fn in_let(
    alloc: Global,
    binds: &[NBind],
    body: &NExpr,
    distance: u32,
) -> Result<Option<Vec<u32>>, Memory>
    ensures { IfOk result (λ o. place_of o ≡ made (λ p. bind_count (nbinds_of binds.now) ∷ p) (spec_jump_place distance (nexpr_of body.now))) }
{
    let count = number(binds.len())?;
    in_part(in_expression(alloc, body, distance)?, count)
}

/// The place of the first jump in a join point, which is the part of this number.
#[cycle(finding)]
fn in_join_point(
    alloc: Global,
    join: &NJoinBind,
    part: u32,
    distance: u32,
) -> Result<Option<Vec<u32>>, Memory>
    ensures { IfOk result (λ o. place_of o ≡ made (λ p. part ∷ length (nbinders_of join.now.params) ∷ p) (spec_jump_place distance (nexpr_of join.now.rhs))) }
{
    let found = in_expression(alloc, &join.rhs, distance)?;
    behind_binders(found, join.params.as_slice(), part)
}

/// The place of the first jump in the join points of a group.
#[cycle(finding)]
fn in_join_points(
    alloc: Global,
    joins: &[NJoinBind],
    distance: u32,
) -> Result<Option<Vec<u32>>, Memory>
    ensures { IfOk result (λ o. place_of o ≡ jump_place_in_joins distance 1 (njoins_of joins.now)) }
{
    let mut part = part::FIRST_JOIN;
    for join in joins {
        let found = in_join_point(alloc, join, part, distance)?;
        if found.is_some() {
            return Ok(found);
        }
        part = sum(part, 1)?;
    }
    Ok(None)
}

/// The place of the first jump in the right sides of a group of join points, which stand behind the group where it is recursive.
#[cycle(finding)]
fn in_join_sides(
    alloc: Global,
    recursive: bool,
    joins: &[NJoinBind],
    inner: u32,
    distance: u32,
) -> Result<Option<Vec<u32>>, Memory>
    ensures { IfOk result (λ o. place_of o ≡ jump_place_in_joins (if recursive then inner else distance) 1 (njoins_of joins.now)) }
{
    if recursive {
        in_join_points(alloc, joins, inner)
    } else {
        in_join_points(alloc, joins, distance)
    }
}

/// The place of the first jump in what has join points: in their right sides, else in the body.
#[cycle(finding)]
fn in_join(
    alloc: Global,
    recursive: bool,
    joins: &[NJoinBind],
    body: &NExpr,
    distance: u32,
) -> Result<Option<Vec<u32>>, Memory>
    ensures { IfOk result (λ o. place_of o ≡ first_of (jump_place_in_joins (if recursive then distance + join_count (njoins_of joins.now) else distance) 1 (njoins_of joins.now)) (made (λ p. suc (join_count (njoins_of joins.now)) ∷ p) (spec_jump_place (distance + join_count (njoins_of joins.now)) (nexpr_of body.now)))) }
{
    let count = number(joins.len())?;
    let inner = sum(distance, count)?;
    let found = in_join_sides(alloc, recursive, joins, inner, distance)?;
    if found.is_some() {
        return Ok(found);
    }
    in_part(
        in_expression(alloc, body, inner)?,
        sum(count, part::FIRST_JOIN)?,
    )
}

/// The place of the first jump in an alternative, which is the part of this number. A jump that is all of its body does not count where the case looks at a case or at what has join
/// points (`held`).
#[cycle(finding)]
fn in_alternative(
    alloc: Global,
    alt: &NAlt,
    held: bool,
    part: u32,
    distance: u32,
) -> Result<Option<Vec<u32>>, Memory>
    ensures { IfOk result (λ o. place_of o ≡ (if held && spec_is_jump (nexpr_of alt.now.body) then None else made (λ p. part ∷ length (nbinders_of alt.now.binders) ∷ p) (spec_jump_place distance (nexpr_of alt.now.body)))) }
{
    if held && is_jump(&alt.body) {
        return Ok(None);
    }
    let found = in_expression(alloc, &alt.body, distance)?;
    behind_binders(found, alt.binders.as_slice(), part)
}

/// The place of the first jump in the alternatives of a case, which looks at a case or at what has join points, or not (`held`).
#[cycle(finding)]
fn in_alternatives(
    alloc: Global,
    alts: &[NAlt],
    held: bool,
    distance: u32,
) -> Result<Option<Vec<u32>>, Memory>
    ensures { IfOk result (λ o. place_of o ≡ jump_place_in_alts distance held 3 (nalts_of alts.now)) }
{
    let mut part = part::FIRST_ALTERNATIVE;
    for alt in alts {
        let found = in_alternative(alloc, alt, held, part, distance)?;
        if found.is_some() {
            return Ok(found);
        }
        part = sum(part, 1)?;
    }
    Ok(None)
}

/// The place of the first jump to the join point at a distance, in tail position, but for one that is the whole body of an alternative of a case whose scrutinee is a case or has join
/// points. A place is a list of part numbers, from the outermost part inwards. `None` where there is no such jump. Fails only where memory runs out, or a distance or a number of
/// parts has no 32 bits; both are answered as out of memory.
pub fn jump_place(alloc: Global, distance: u32, e: &NExpr) -> Result<Option<Vec<u32>>, Memory>
    ensures { IfOk result (λ o. option_map (λ p. p.items) o ≡ spec_jump_place distance (nexpr_of e.now)) }
{
    let Some(mut place) = in_expression(alloc, e, distance)? else {
        return Ok(None);
    };
    place.reverse();
    Ok(Some(place))
}
