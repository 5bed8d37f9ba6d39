//! A row at a place of a right side.
ghost use Rattle.std.specs.Prelude.{◌≡◌, IfOk, OnOk};
ghost use Rattle.std.specs.Option.{option_map};
ghost use Rattle.fc_model.specs.NamelessView.{nexpr_of, nmodules_of};
ghost use Rattle.fc_parts.specs.PartsAt.{at_place};
ghost use Rattle.fc_rows.specs.Surroundings.{outside};
ghost use Rattle.fc_types.specs.ModuleViews.{modules_of};
ghost use Rattle.fc_type_table.specs.TypeTables.{Grows};
ghost use Rattle.fc_row_at_place.specs.Sites.{AreHeaders, decls_of, row_of};

use crate::asked::{Asked, Headers, Site};
use crate::places::row_at;
use fc_definition_places::DefinitionPlaces;
use fc_known::Around;
use fc_lint_context::{Context, DeclaredTypes};
use fc_syntax::{Memory, NExpr};
use fc_type_table::{NumberedKinds, TypeTable};
use fc_types::Declarations;
use std::alloc::Global;

/// What the row that is asked for makes of the part of a right side at a place, as `row_of_right_side`, where what is kept of the modules is there already. It may have been
/// made of other modules with the same headers, as outlines, so that it serves while right sides change. Fails as `row_of_right_side` does; where it does not, the table has only
/// grown.
pub fn row_by_headers<'x>(
    alloc: Global,
    right: &'x NExpr,
    place: &[u32],
    types: &mut TypeTable,
    headers: &Headers<'x>,
    asked: &'x Asked<'x>,
) -> Result<Option<NExpr>, Memory>
    requires { AreHeaders types.old headers.now (nmodules_of asked.now.modules.now) }
    ensures answer { IfOk result (λ o. option_map nexpr_of o ≡ at_place (row_of asked.now) place.now (outside (decls_of asked.now)) (nexpr_of right.now)) }
    ensures grows { OnOk result (Grows types.old types.new) }
{
    let kinds = NumberedKinds::End;
    let context = Context::closed(&*headers.declared, &kinds);
    let around = Around::Outside;
    let site = Site {
        asked: &*asked,
        places: &*headers.places,
        context: &context,
        around: &around,
    };
    row_at(alloc, &*right, place, types, &site)
}

/// The same where this is declared, which is read into a table of its own.
fn row_among<'x>(
    alloc: Global,
    right: &'x NExpr,
    place: &[u32],
    declared: &Declarations<'x>,
    asked: &'x Asked<'x>,
) -> Result<Option<NExpr>, Memory>
    requires { modules_of declared.now ≡ decls_of asked.now }
    ensures { IfOk result (λ o. option_map nexpr_of o ≡ at_place (row_of asked.now) place.now (outside (decls_of asked.now)) (nexpr_of right.now)) }
{
    let places = DefinitionPlaces::new(alloc, asked.modules)?;
    let mut types = TypeTable::new(alloc, &*declared);
    let read = DeclaredTypes::new(alloc, &*declared, &mut types)?;
    let headers = Headers {
        declared: &read,
        places: &places,
    };
    row_by_headers(alloc, &*right, place, &mut types, &headers, &*asked)
}

/// What the row that is asked for makes of the part of a right side at a place, where a row may look. A place is a list of part numbers, from the outermost part inwards; the place
/// without numbers is that of the whole. Answers none where no expression stands there, where the row does not apply to it, and where it is none of those that are built here.
/// Fails only where memory runs out, a type names a variable out of scope, a distance or a number of parts has no 32 bits, or calls would go 2^32 deep.
pub fn row_of_right_side<'x>(
    alloc: Global,
    right: &'x NExpr,
    place: &[u32],
    asked: &'x Asked<'x>,
) -> Result<Option<NExpr>, Memory>
    ensures { IfOk result (λ o. option_map nexpr_of o ≡ at_place (row_of asked.now) place.now (outside (decls_of asked.now)) (nexpr_of right.now)) }
{
    let declared = Declarations::new(alloc, asked.modules)?;
    row_among(alloc, right, place, &declared, asked)
}
