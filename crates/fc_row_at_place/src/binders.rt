//! A row behind binders.
ghost use Rattle.std.specs.Prelude.{◌≡◌, IfOk, OnOk};
ghost use Rattle.std.specs.Option.{option_map};
ghost use Rattle.fc_model.specs.NamelessView.{nbinder_of, nbinders_of, nexpr_of};
ghost use Rattle.fc_parts.specs.PartsAt.{at_place};
ghost use Rattle.fc_rows.specs.Surroundings.{apart, behind_binder, behind_binders};
ghost use Rattle.fc_type_scope.specs.Behind.{IsEntered};
ghost use Rattle.fc_type_scope.specs.Scopes.{scope_in};
ghost use Rattle.fc_type_table.specs.TypeTables.{Grows, nodes_of};
ghost use Rattle.fc_row_at_place.specs.Sites.{IsSite, row_for, surroundings_at};

use crate::asked::Site;
use crate::places::row_at;
use fc_known::{Around, counted};
use fc_syntax::{Memory, NBinder, NExpr};
use fc_type_scope::Entered;
use fc_type_table::TypeTable;
use std::alloc::Global;
use std::slice;

/// The same behind binders of which nothing is known, that were entered here.
#[cycle(places)]
fn row_past_binders<'x>(
    alloc: Global,
    binders: &'x [NBinder],
    entered: &Entered<'x>,
    body: &'x NExpr,
    place: &[u32],
    types: &mut TypeTable,
    site: &Site<'x>,
) -> Result<Option<NExpr>, Memory>
    requires site { IsSite types.old site.now }
    requires entered_in { IsEntered (nodes_of types.old) (scope_in site.now.context.now.scope) (nbinders_of binders.now) entered.now }
    ensures answer { IfOk result (λ o. option_map nexpr_of o ≡ at_place (row_for site.now) place.now (behind_binders (nbinders_of binders.now) (surroundings_at site.now)) (nexpr_of body.now)) }
    ensures grows { OnOk result (Grows types.old types.new) }
{
    let own = counted(binders)?;
    let outer = site.context;
    let kinds = (&*entered).kinds_behind(&*outer.scope.kinds);
    let context = (&*outer).behind_binders(&*entered, &kinds);
    let around = Around::Binders(&*binders, own, &*site.around);
    let inner = Site {
        asked: &*site.asked,
        places: &*site.places,
        context: &context,
        around: &around,
    };
    row_at(alloc, &*body, place, types, &inner)
}

/// The same behind binders of which nothing is known.
#[cycle(places)]
pub(crate) fn row_behind_binders<'x>(
    alloc: Global,
    binders: &'x [NBinder],
    body: &'x NExpr,
    place: &[u32],
    types: &mut TypeTable,
    site: &Site<'x>,
) -> Result<Option<NExpr>, Memory>
    requires { IsSite types.old site.now }
    ensures answer { IfOk result (λ o. option_map nexpr_of o ≡ at_place (row_for site.now) place.now (behind_binders (nbinders_of binders.now) (surroundings_at site.now)) (nexpr_of body.now)) }
    ensures grows { OnOk result (Grows types.old types.new) }
{
    let context = site.context;
    let entered = context.scope.enter(alloc, binders, types)?;
    row_past_binders(alloc, binders, &entered, body, place, types, site)
}

/// The same in the body of a lambda.
#[cycle(places)]
pub(crate) fn row_in_lambda<'x>(
    alloc: Global,
    binder: &'x NBinder,
    body: &'x NExpr,
    place: &[u32],
    types: &mut TypeTable,
    site: &Site<'x>,
) -> Result<Option<NExpr>, Memory>
    requires { IsSite types.old site.now }
    ensures answer { IfOk result (λ o. option_map nexpr_of o ≡ at_place (row_for site.now) place.now (behind_binder (nbinder_of binder.now) (apart (surroundings_at site.now))) (nexpr_of body.now)) }
    ensures grows { OnOk result (Grows types.old types.new) }
{
    let context = (&*site.context).without_joins();
    let around = Around::Apart(&*site.around);
    let inner = Site {
        asked: &*site.asked,
        places: &*site.places,
        context: &context,
        around: &around,
    };
    row_behind_binders(
        alloc,
        slice::from_ref(&*binder),
        &*body,
        place,
        types,
        &inner,
    )
}
