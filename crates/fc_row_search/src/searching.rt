//! The search through a right side.
ghost use Rattle.std.specs.Prelude.{◌≡◌, IfOk, OnOk, []};
ghost use Rattle.std.specs.Option.{option_map};
ghost use Rattle.fc_model.specs.NamelessView.{nexpr_of, nmodules_of};
ghost use Rattle.fc_type_table.specs.TypeTables.{Grows};
ghost use Rattle.fc_rows.specs.Surroundings.{outside};
ghost use Rattle.fc_row_at_place.specs.Sites.{AreHeaders};
ghost use Rattle.fc_search_laws.specs.Searching.{found_within, searched};
ghost use Rattle.fc_row_search.specs.Spots.{applying_of, modules_of};

use crate::spots::{Applying, Path, Search, Spot};
use crate::walking::search_at;
use fc_known::Around;
use fc_syntax::Memory;
use fc_type_table::TypeTable;
use std::alloc::Global;

/// The first row of the rewrite table that applies in a right side whose result may stand there, from a place on, with that place and what the row makes; none where none is found.
/// The right side may be so deep. With the place without numbers the whole is searched. The table has the types of what is declared; where the search does not fail, it has only
/// grown. Fails only where memory runs out, a type names a variable out of scope, a number has no 32 bits, or the right side is deeper.
pub fn first_row_in<'x>(
    alloc: Global,
    search: &'x Search<'x>,
    from: &[u32],
    room: u32,
    types: &mut TypeTable,
) -> Result<Option<Applying>, Memory>
    requires { AreHeaders types.old search.now.headers.now (nmodules_of search.now.modules.now) }
    ensures found { IfOk result (λ o. option_map applying_of o ≡ found_within [] (searched (modules_of search.now) search.now.spare room from.now (outside (modules_of search.now)) (nexpr_of search.now.right.now))) }
    ensures grows { OnOk result (Grows types.old types.new) }
{
    let path = Path::Whole;
    let around = Around::Outside;
    let spot = Spot {
        search: &*search,
        path: &path,
        around: &around,
        room,
    };
    search_at(alloc, &*search.right, from, types, &spot)
}
