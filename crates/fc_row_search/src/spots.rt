//! Where a search stands.
ghost use Rattle.std.specs.Prelude.{◌≡◌, IfOk};
ghost use Rattle.fc_row_search.specs.Spots.{place_of as spec_place_of};

use fc_known::Around;
use fc_log::Row;
use fc_row_at_place::Headers;
use fc_syntax::{Memory, NExpr, NModule};
use std::alloc::Global;

/// A row that applies at a place of a right side.
#[derive(Drop)]
pub struct Applying {
    /// The row.
    pub row: Row,
    /// The number of the alternative that alt-dead takes away, from 0; it is 0 for every other row.
    pub alternative: usize,
    /// The place of the expression that the row looks at, the outermost part first.
    pub place: Vec<u32>,
    /// What the row makes of it.
    pub new: NExpr,
}

/// What a search is for.
#[derive(Clone, Copy)]
pub struct Search<'x> {
    /// The right side that is searched.
    pub right: &'x NExpr,
    /// The modules whose right sides are known: the one that is changed and those that it imports. Where several have one name, the first counts.
    pub modules: &'x [NModule],
    /// What is kept of these modules, or of others with the same headers.
    pub headers: &'x Headers<'x>,
    /// By how many pieces the module may grow.
    pub spare: u32,
}

/// A place on the stack of who walks there, the innermost part first.
#[derive(Clone, Copy)]
pub(crate) enum Path<'x> {
    /// That of the whole.
    Whole,
    /// The part of a number of what stands further out.
    Part(u32, &'x Path<'x>),
}

/// Where a search stands.
#[derive(Clone, Copy)]
pub(crate) struct Spot<'x> {
    /// What it is for.
    pub(crate) search: &'x Search<'x>,
    /// The place.
    pub(crate) path: &'x Path<'x>,
    /// What stands around.
    pub(crate) around: &'x Around<'x>,
    /// How deep the expression there may be.
    pub(crate) room: u32,
}

/// The numbers of a place, the outermost part first. Fails only where memory runs out.
pub(crate) fn place_of(alloc: Global, path: &Path) -> Result<Vec<u32>, Memory>
    ensures { IfOk result (λ p. p.items ≡ spec_place_of path.now) }
{
    match path {
        Path::Whole => Ok(Vec::new(alloc)),
        Path::Part(number, outer) => {
            let mut place = place_of(alloc, outer)?;
            place.push(*number)?;
            Ok(place)
        }
    }
}
