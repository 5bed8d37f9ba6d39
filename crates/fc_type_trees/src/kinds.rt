//! Kinds from their numbers.
ghost use Rattle.std.specs.Prelude.{◌≡◌, IfOk};
ghost use Rattle.fc_syntax.specs.View.{kind_of};
ghost use Rattle.fc_type_table.specs.TypeTables.{IsNumber, kind_shown};

use crate::room::Room;
use fc_syntax::{Kind, Memory};
use fc_type_table::{Piece, TypeId, TypeTable};
use std::alloc::Global;

/// The kind of a number. Fails where memory or the room for pieces runs out, and at a number that is not one of a kind.
#[cycle(kinds)]
pub fn kind_within(
    alloc: Global,
    id: TypeId,
    types: &TypeTable,
    room: &mut Room,
) -> Result<Kind, Memory>
    requires { IsNumber types.now id }
    ensures { IfOk result (λ k. kind_of k ≡ kind_shown types.now id) }
{
    room.enter()?;
    let kind = kind_below(alloc, id, types, room)?;
    room.leave();
    Ok(kind)
}

/// The same, where the room is entered.
#[cycle(kinds)]
#[tactic(auto, using(fc_syntax::proofs::View::view_rules, crate::proofs::NumberKinds::piece_kind), unfolding(fc_type_table::specs::Nodes::kind_at))]
fn kind_below(alloc: Global, id: TypeId, types: &TypeTable, room: &mut Room) -> Result<Kind, Memory>
    requires { IsNumber types.now id }
    ensures { IfOk result (λ k. kind_of k ≡ kind_shown types.now id) }
{
    match *types.piece(id) {
        Piece::Star => Ok(Kind::Star),
        Piece::Hash => Ok(Kind::Hash),
        Piece::Arrow(from, to) => {
            let from = kind_within(alloc, from, types, room)?;
            let to = kind_within(alloc, to, types, room)?;
            Kind::arrow(alloc, from, to)
        }
        Piece::Bound(_, _) => Err(Memory),
        Piece::Free(_, _) => Err(Memory),
        Piece::Con(_) => Err(Memory),
        Piece::IntHash => Err(Memory),
        Piece::App(_, _) => Err(Memory),
        Piece::Fun(_, _) => Err(Memory),
        Piece::Forall(_, _) => Err(Memory),
        Piece::CoForall(_, _, _, _) => Err(Memory),
    }
}

/// The kind of a number as a tree. Fails where memory runs out, where the answer would have more than `most` pieces or nest deeper than
/// 2,000, and at a number that is not one of a kind.
pub fn tree_of_kind(alloc: Global, id: TypeId, types: &TypeTable, most: u32) -> Result<Kind, Memory>
    requires { IsNumber types.now id }
    ensures { IfOk result (λ k. kind_of k ≡ kind_shown types.now id) }
{
    let mut room = Room::new(most);
    kind_within(alloc, id, types, &mut room)
}
