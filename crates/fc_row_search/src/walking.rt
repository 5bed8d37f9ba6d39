//! The search through an expression and its parts.
ghost use Rattle.std.specs.Prelude.{◌≡◌, IfOk, OnOk, Some};
ghost use Rattle.std.specs.Option.{option_map};
ghost use Rattle.fc_model.specs.NamelessView.{nexpr_of};
ghost use Rattle.fc_known.specs.Around.{HasCounts};
ghost use Rattle.fc_type_table.specs.TypeTables.{Grows};
ghost use Rattle.fc_search_laws.specs.Searching.{part_count as spec_part_count, part_place};
ghost use Rattle.fc_row_search.specs.Frames.{child as spec_child, outer as spec_outer};
ghost use Rattle.fc_row_search.specs.Spots.{HasHeaders, IsPart, IsSpot, applying_of, around_at, child_at, here_at, part_at as spec_part_at, part_of, parts_at, search_at as spec_search_at};

use crate::frames::{child, inner_frame, outer_frame};
use crate::parts::{Part, begun, part_at, part_count};
use crate::rows::row_here;
use crate::spots::{Applying, Path, Spot};
use fc_known::Around;
use fc_numbers::deeper;
use fc_syntax::{Memory, NExpr};
use fc_type_table::TypeTable;
use std::alloc::Global;

/// The first row that applies in an expression, from a place on: at the expression itself, then in its parts in order; where the search begins at a place in a part, in the parts
/// from that one on, and then at the expression itself. Fails only where memory runs out, a type names a variable out of scope, a number has no 32 bits, or the search goes deeper
/// than there is room. Where it does not fail, the table of types has only grown.
#[cycle(searching)]
pub(crate) fn search_at<'x>(
    alloc: Global,
    e: &'x NExpr,
    from: &[u32],
    types: &mut TypeTable,
    spot: &Spot<'x>,
) -> Result<Option<Applying>, Memory>
    requires spot { IsSpot spot.now (nexpr_of e.now) }
    requires types { HasHeaders types.old spot.now }
    ensures found { IfOk result (λ o. option_map applying_of o ≡ spec_search_at spot.now from.now (nexpr_of e.now)) }
    ensures grows { OnOk result (Grows types.old types.new) }
{
    let room = deeper(spot.room)?;
    if from.is_empty() {
        match row_here(alloc, e, types, spot)? {
            Some(found) => Ok(Some(found)),
            None => search_parts(alloc, e, from, room, types, spot),
        }
    } else {
        match search_parts(alloc, e, from, room, types, spot)? {
            Some(found) => Ok(Some(found)),
            None => row_here(alloc, e, types, spot),
        }
    }
}

/// The first row that applies in a part of an expression, from a place on.
#[cycle(searching)]
fn search_parts<'x>(
    alloc: Global,
    e: &'x NExpr,
    from: &[u32],
    room: u32,
    types: &mut TypeTable,
    spot: &Spot<'x>,
) -> Result<Option<Applying>, Memory>
    requires spot { IsSpot spot.now (nexpr_of e.now) }
    requires types { HasHeaders types.old spot.now }
    ensures found { IfOk result (λ o. option_map applying_of o ≡ parts_at spot.now room (spec_part_count (nexpr_of e.now)) 0 from.now (nexpr_of e.now)) }
    ensures grows { OnOk result (Grows types.old types.new) }
{
    let count = part_count(e)?;
    let mut from = from;
    for number in 0..count {
        let part = part_at(e, number)?;
        if let Some(rest) = begun(&part, from) {
            if let Some(found) = search_part(alloc, e, number, &part, rest, room, types, spot)? {
                return Ok(Some(found));
            }
            from = &[];
        }
    }
    Ok(None)
}

/// The first row that applies in the part of a number, from a place in it on.
#[cycle(searching)]
fn search_part<'x>(
    alloc: Global,
    e: &'x NExpr,
    number: u32,
    part: &Part,
    from: &[u32],
    room: u32,
    types: &mut TypeTable,
    spot: &Spot<'x>,
) -> Result<Option<Applying>, Memory>
    requires spot { IsSpot spot.now (nexpr_of e.now) }
    requires part { part_of part.now ≡ part_place number (nexpr_of e.now) }
    requires types { HasHeaders types.old spot.now }
    ensures found { IfOk result (λ o. option_map applying_of o ≡ child_at spot.now room number from.now (nexpr_of e.now)) }
    ensures grows { OnOk result (Grows types.old types.new) }
{
    let Some(inside) = child(e, number) else {
        return Ok(None);
    };
    let outer = outer_frame(e, number, spot.around);
    search_framed(
        alloc, e, inside, number, part, from, room, &outer, types, spot,
    )
}

/// The same where an expression stands in the part, and this stands around it, first.
#[cycle(searching)]
fn search_framed<'x, 'y>(
    alloc: Global,
    e: &'x NExpr,
    inside: &'x NExpr,
    number: u32,
    part: &Part,
    from: &[u32],
    room: u32,
    outer: &'y Around<'x>,
    types: &mut TypeTable,
    spot: &Spot<'x>,
) -> Result<Option<Applying>, Memory>
    requires spot { IsSpot spot.now (nexpr_of e.now) }
    requires part { part_of part.now ≡ part_place number (nexpr_of e.now) }
    requires inside { spec_child number (nexpr_of e.now) ≡ Some (nexpr_of inside.now) }
    requires counts { HasCounts outer.now }
    requires outer { around_at spot.now outer.now ≡ spec_outer number (nexpr_of e.now) (here_at spot.now) }
    requires types { HasHeaders types.old spot.now }
    ensures found { IfOk result (λ o. option_map applying_of o ≡ child_at spot.now room number from.now (nexpr_of e.now)) }
    ensures grows { OnOk result (Grows types.old types.new) }
{
    let inner = inner_frame(e, number, outer)?;
    search_inside(alloc, inside, part, from, room, &inner, types, spot)
}

/// The first row that applies in an expression that stands in a part, in which this stands around it.
#[cycle(searching)]
fn search_inside<'x, 'y, 'z>(
    alloc: Global,
    e: &'x NExpr,
    part: &Part,
    from: &[u32],
    room: u32,
    around: &'z Around<'y>,
    types: &mut TypeTable,
    spot: &Spot<'x>,
) -> Result<Option<Applying>, Memory>
    requires counts { HasCounts around.now }
    requires stands { IsPart spot.now (part_of part.now) (around_at spot.now around.now) (nexpr_of e.now) }
    requires types { HasHeaders types.old spot.now }
    ensures found { IfOk result (λ o. option_map applying_of o ≡ spec_part_at spot.now room (part_of part.now) from.now (around_at spot.now around.now) (nexpr_of e.now)) }
    ensures grows { OnOk result (Grows types.old types.new) }
{
    let first = Path::Part(part.first, &*spot.path);
    match part.second {
        None => {
            let inner = Spot {
                search: &*spot.search,
                path: &first,
                around: &*around,
                room,
            };
            search_at(alloc, &*e, from, types, &inner)
        }
        Some(second) => {
            let path = Path::Part(second, &first);
            let inner = Spot {
                search: &*spot.search,
                path: &path,
                around: &*around,
                room: deeper(room)?,
            };
            search_at(alloc, &*e, from, types, &inner)
        }
    }
}
