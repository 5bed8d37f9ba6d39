//! A row below a let and below join points.
ghost use Rattle.std.specs.Prelude.{◌≡◌, ◌∷◌, IfOk, true, OnOk};
ghost use Rattle.std.specs.Option.{option_map};
ghost use Rattle.fc_model.specs.Nameless.{NJoin, NLet};
ghost use Rattle.fc_model.specs.NamelessView.{nbind_of, nbinds_of, nexpr_of, njoin_of, njoins_of, nty_of};
ghost use Rattle.fc_parts.specs.PartsAt.{at_place, at_place_of_bind, at_place_of_join};
ghost use Rattle.fc_rows.specs.Surroundings.{apart, at_join_sides, at_right_sides, behind_binds, behind_joins};
ghost use Rattle.fc_known.specs.Around.{unapplied};
ghost use Rattle.fc_type_table.specs.TypeTables.{Grows};
ghost use Rattle.fc_row_at_place.specs.Sites.{IsSite, row_for, surroundings_at};

use crate::asked::Site;
use crate::binders::row_behind_binders;
use crate::places::{row_apart, row_at};
use fc_known::Around;
use fc_syntax::{Memory, NBind, NExpr, NJoinBind, NTy, part};
use fc_type_table::TypeTable;
use std::alloc::Global;

/// The same in a let.
#[cycle(places)]
#[tactic(auto, using(fc_syntax::proofs::View::view_rules, fc_parts::proofs::PartRules::part_rules))]
pub(crate) fn row_in_let<'x>(
    alloc: Global,
    recursive: bool,
    bindings: &'x [NBind],
    body: &'x NExpr,
    number: u32,
    rest: &[u32],
    types: &mut TypeTable,
    site: &Site<'x>,
) -> Result<Option<NExpr>, Memory>
    requires { IsSite types.old site.now }
    ensures answer { IfOk result (λ o. option_map nexpr_of o ≡ at_place (row_for site.now) (number ∷ rest.now) (surroundings_at site.now) (NLet recursive (nbinds_of bindings.now) (nexpr_of body.now))) }
    ensures grows { OnOk result (Grows types.old types.new) }
{
    if number as usize == bindings.len() {
        return row_behind_bindings(alloc, recursive, bindings, body, rest, types, site);
    }
    match bindings.get(number as usize) {
        Some(binding) => row_at_right_side(alloc, recursive, bindings, binding, rest, types, site),
        None => Ok(None),
    }
}

/// The same behind the bindings of a let.
#[cycle(places)]
fn row_behind_bindings<'x>(
    alloc: Global,
    recursive: bool,
    bindings: &'x [NBind],
    body: &'x NExpr,
    place: &[u32],
    types: &mut TypeTable,
    site: &Site<'x>,
) -> Result<Option<NExpr>, Memory>
    requires { IsSite types.old site.now }
    ensures answer { IfOk result (λ o. option_map nexpr_of o ≡ at_place (row_for site.now) place.now (behind_binds recursive (nbinds_of bindings.now) (surroundings_at site.now)) (nexpr_of body.now)) }
    ensures grows { OnOk result (Grows types.old types.new) }
{
    let outer = site.context;
    let ids = outer.types_of_binds(alloc, bindings, types)?;
    let context = (&*outer).behind_binds(ids.as_slice());
    let around = Around::Group(recursive, &*bindings, &*site.around);
    let inner = Site {
        asked: &*site.asked,
        places: &*site.places,
        context: &context,
        around: &around,
    };
    row_at(alloc, &*body, place, types, &inner)
}

/// The same in the right side of a binding, which sees the bindings where the let is recursive.
#[cycle(places)]
fn row_at_right_side<'x>(
    alloc: Global,
    recursive: bool,
    bindings: &'x [NBind],
    binding: &'x NBind,
    place: &[u32],
    types: &mut TypeTable,
    site: &Site<'x>,
) -> Result<Option<NExpr>, Memory>
    requires { IsSite types.old site.now }
    ensures answer { IfOk result (λ o. option_map nexpr_of o ≡ at_place_of_bind (row_for site.now) place.now (at_right_sides recursive (nbinds_of bindings.now) (surroundings_at site.now)) (nbind_of binding.now)) }
    ensures grows { OnOk result (Grows types.old types.new) }
{
    if recursive {
        row_of_member(alloc, bindings, binding, place, types, site)
    } else {
        row_of_binding(alloc, binding, place, types, site)
    }
}

/// The same in the right side of a binding of a recursive let.
#[cycle(places)]
fn row_of_member<'x>(
    alloc: Global,
    bindings: &'x [NBind],
    binding: &'x NBind,
    place: &[u32],
    types: &mut TypeTable,
    site: &Site<'x>,
) -> Result<Option<NExpr>, Memory>
    requires { IsSite types.old site.now }
    ensures answer { IfOk result (λ o. option_map nexpr_of o ≡ at_place_of_bind (row_for site.now) place.now (at_right_sides true (nbinds_of bindings.now) (surroundings_at site.now)) (nbind_of binding.now)) }
    ensures grows { OnOk result (Grows types.old types.new) }
{
    let outer = site.context;
    let ids = outer.types_of_binds(alloc, bindings, types)?;
    let context = (&*outer).behind_binds(ids.as_slice());
    let around = Around::Group(true, &*bindings, &*site.around);
    let inner = Site {
        asked: &*site.asked,
        places: &*site.places,
        context: &context,
        around: &around,
    };
    row_of_binding(alloc, &*binding, place, types, &inner)
}

/// The same in the right side of a binding, which is its last part and not in tail reach.
#[cycle(places)]
#[tactic(auto, using(fc_syntax::proofs::View::view_rules, fc_parts::proofs::PartRules::part_rules))]
fn row_of_binding<'x>(
    alloc: Global,
    binding: &'x NBind,
    place: &[u32],
    types: &mut TypeTable,
    site: &Site<'x>,
) -> Result<Option<NExpr>, Memory>
    requires { IsSite types.old site.now }
    ensures answer { IfOk result (λ o. option_map nexpr_of o ≡ at_place_of_bind (row_for site.now) place.now (apart (surroundings_at site.now)) (nbind_of binding.now)) }
    ensures grows { OnOk result (Grows types.old types.new) }
{
    match place.split_first() {
        None => Ok(None),
        Some((number, rest)) => {
            if *number == part::RIGHT_SIDE {
                row_apart(alloc, &binding.rhs, rest, types, site)
            } else {
                Ok(None)
            }
        }
    }
}

/// The same in an expression with join points.
#[cycle(places)]
#[tactic(auto, using(fc_syntax::proofs::View::view_rules, fc_parts::proofs::PartRules::part_rules))]
pub(crate) fn row_in_join<'x>(
    alloc: Global,
    recursive: bool,
    ty: &'x NTy,
    points: &'x [NJoinBind],
    body: &'x NExpr,
    number: u32,
    rest: &[u32],
    types: &mut TypeTable,
    site: &Site<'x>,
) -> Result<Option<NExpr>, Memory>
    requires { IsSite types.old site.now }
    ensures answer { IfOk result (λ o. option_map nexpr_of o ≡ at_place (row_for site.now) (number ∷ rest.now) (surroundings_at site.now) (NJoin recursive (nty_of ty.now) (njoins_of points.now) (nexpr_of body.now))) }
    ensures grows { OnOk result (Grows types.old types.new) }
{
    if number < part::FIRST_JOIN {
        return Ok(None);
    }
    let number = (number - part::FIRST_JOIN) as usize;
    if number == points.len() {
        return row_behind_points(alloc, recursive, ty, points, body, rest, types, site);
    }
    match points.get(number) {
        Some(point) => row_at_join_side(alloc, recursive, ty, points, point, rest, types, site),
        None => Ok(None),
    }
}

/// The same behind join points.
#[cycle(places)]
pub(crate) fn row_behind_points<'x>(
    alloc: Global,
    recursive: bool,
    ty: &'x NTy,
    points: &'x [NJoinBind],
    body: &'x NExpr,
    place: &[u32],
    types: &mut TypeTable,
    site: &Site<'x>,
) -> Result<Option<NExpr>, Memory>
    requires { IsSite types.old site.now }
    ensures answer { IfOk result (λ o. option_map nexpr_of o ≡ at_place (row_for site.now) place.now (behind_joins recursive (nty_of ty.now) (njoins_of points.now) (surroundings_at site.now)) (nexpr_of body.now)) }
    ensures grows { OnOk result (Grows types.old types.new) }
{
    let outer = site.context;
    let answer = outer.scope.read(ty, types)?;
    let joins = outer.join_points(alloc, points, answer, types)?;
    let context = (&*outer).behind_joins(joins.as_slice());
    let around = Around::Joins(recursive, &*ty, &*points, &*site.around);
    let inner = Site {
        asked: &*site.asked,
        places: &*site.places,
        context: &context,
        around: &around,
    };
    row_at(alloc, &*body, place, types, &inner)
}

/// The same in the right side of a join point, which sees the join points where they are recursive.
#[cycle(places)]
fn row_at_join_side<'x>(
    alloc: Global,
    recursive: bool,
    ty: &'x NTy,
    points: &'x [NJoinBind],
    point: &'x NJoinBind,
    place: &[u32],
    types: &mut TypeTable,
    site: &Site<'x>,
) -> Result<Option<NExpr>, Memory>
    requires { IsSite types.old site.now }
    ensures answer { IfOk result (λ o. option_map nexpr_of o ≡ at_place_of_join (row_for site.now) place.now (at_join_sides recursive (nty_of ty.now) (njoins_of points.now) (surroundings_at site.now)) (njoin_of point.now)) }
    ensures grows { OnOk result (Grows types.old types.new) }
{
    if recursive {
        row_of_recursive_point(alloc, ty, points, point, place, types, site)
    } else {
        row_of_point_alone(alloc, point, place, types, site)
    }
}

/// The same in the right side of a recursive join point.
#[cycle(places)]
fn row_of_recursive_point<'x>(
    alloc: Global,
    ty: &'x NTy,
    points: &'x [NJoinBind],
    point: &'x NJoinBind,
    place: &[u32],
    types: &mut TypeTable,
    site: &Site<'x>,
) -> Result<Option<NExpr>, Memory>
    requires { IsSite types.old site.now }
    ensures answer { IfOk result (λ o. option_map nexpr_of o ≡ at_place_of_join (row_for site.now) place.now (behind_joins true (nty_of ty.now) (njoins_of points.now) (surroundings_at site.now)) (njoin_of point.now)) }
    ensures grows { OnOk result (Grows types.old types.new) }
{
    let outer = site.context;
    let answer = outer.scope.read(ty, types)?;
    let joins = outer.join_points(alloc, points, answer, types)?;
    let context = (&*outer).behind_joins(joins.as_slice());
    let around = Around::Joins(true, &*ty, &*points, &*site.around);
    let inner = Site {
        asked: &*site.asked,
        places: &*site.places,
        context: &context,
        around: &around,
    };
    row_of_point(alloc, &*point, place, types, &inner)
}

/// The same in the right side of a join point that is not recursive: nothing is applied there.
#[cycle(places)]
fn row_of_point_alone<'x>(
    alloc: Global,
    point: &'x NJoinBind,
    place: &[u32],
    types: &mut TypeTable,
    site: &Site<'x>,
) -> Result<Option<NExpr>, Memory>
    requires { IsSite types.old site.now }
    ensures answer { IfOk result (λ o. option_map nexpr_of o ≡ at_place_of_join (row_for site.now) place.now (unapplied (surroundings_at site.now)) (njoin_of point.now)) }
    ensures grows { OnOk result (Grows types.old types.new) }
{
    let around = Around::Unapplied(&*site.around);
    let inner = Site {
        asked: &*site.asked,
        places: &*site.places,
        context: &*site.context,
        around: &around,
    };
    row_of_point(alloc, &*point, place, types, &inner)
}

/// The same in the right side of a join point, which is its last part.
#[cycle(places)]
#[tactic(auto, using(fc_syntax::proofs::View::view_rules, fc_parts::proofs::PartRules::part_rules))]
fn row_of_point<'x>(
    alloc: Global,
    point: &'x NJoinBind,
    place: &[u32],
    types: &mut TypeTable,
    site: &Site<'x>,
) -> Result<Option<NExpr>, Memory>
    requires { IsSite types.old site.now }
    ensures answer { IfOk result (λ o. option_map nexpr_of o ≡ at_place_of_join (row_for site.now) place.now (surroundings_at site.now) (njoin_of point.now)) }
    ensures grows { OnOk result (Grows types.old types.new) }
{
    match place.split_first() {
        None => Ok(None),
        Some((number, rest)) => {
            if *number as usize == point.params.len() {
                let params = point.params.as_slice();
                row_behind_binders(alloc, params, &point.rhs, rest, types, site)
            } else {
                Ok(None)
            }
        }
    }
}
