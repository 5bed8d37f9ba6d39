//! The walk down to a place.
ghost use Rattle.std.specs.Prelude.{◌≡◌, ◌∷◌, IfOk, OnOk};
ghost use Rattle.std.specs.Option.{option_map};
ghost use Rattle.fc_model.specs.NamelessView.{narg_of, nargs_of, nexpr_of, nexprs_of};
ghost use Rattle.fc_parts.specs.PartsAt.{at_place, of_arg, of_expr, of_term};
ghost use Rattle.fc_rows.specs.Surroundings.{apart, at_head};
ghost use Rattle.fc_type_table.specs.TypeTables.{Grows};
ghost use Rattle.fc_row_at_place.specs.Sites.{IsSite, row_for, surroundings_at};

use crate::alternatives::row_in_case;
use crate::asked::Site;
use crate::binders::row_in_lambda;
use crate::groups::{row_in_join, row_in_let};
use crate::joins::answer_here;
use fc_known::Around;
use fc_syntax::{Memory, NArg, NExpr, part};
use fc_type_table::TypeTable;
use std::alloc::Global;

/// What the row that is asked for makes of the part of an expression at a place, where a row may look. A place is a list of part numbers, from the outermost part inwards; the
/// place without numbers is that of the whole. Answers none where no expression stands there, where the row does not apply to it, and where it is none of those that are built
/// here. Fails only where memory runs out, a type names a variable out of scope, a distance or a number of parts has no 32 bits, or calls would go 2^32 deep. Where it
/// does not fail, the table of types has only grown.
#[cycle(places)]
#[tactic(auto, using(fc_parts::proofs::PartRules::part_rules))]
pub(crate) fn row_at<'x>(
    alloc: Global,
    e: &'x NExpr,
    place: &[u32],
    types: &mut TypeTable,
    site: &Site<'x>,
) -> Result<Option<NExpr>, Memory>
    requires { IsSite types.old site.now }
    ensures answer { IfOk result (λ o. option_map nexpr_of o ≡ at_place (row_for site.now) place.now (surroundings_at site.now) (nexpr_of e.now)) }
    ensures grows { OnOk result (Grows types.old types.new) }
{
    match place.split_first() {
        None => answer_here(alloc, e, types, site),
        Some((number, rest)) => row_within(alloc, e, *number, rest, types, site),
    }
}

#[cycle(places)]
#[tactic(auto, using(fc_syntax::proofs::View::view_rules, fc_parts::proofs::PartRules::part_rules))]
fn row_within<'x>(
    alloc: Global,
    e: &'x NExpr,
    number: u32,
    rest: &[u32],
    types: &mut TypeTable,
    site: &Site<'x>,
) -> Result<Option<NExpr>, Memory>
    requires { IsSite types.old site.now }
    ensures answer { IfOk result (λ o. option_map nexpr_of o ≡ at_place (row_for site.now) (number ∷ rest.now) (surroundings_at site.now) (nexpr_of e.now)) }
    ensures grows { OnOk result (Grows types.old types.new) }
{
    match e {
        NExpr::Var(_) | NExpr::Lit(_) | NExpr::Fail(_) => Ok(None),
        NExpr::App(head, argument) => {
            if number == part::HEAD {
                row_at_head(alloc, head, argument, rest, types, site)
            } else if number == part::ARGUMENT {
                row_in_argument(alloc, argument, rest, types, site)
            } else {
                Ok(None)
            }
        }
        NExpr::Lam(binder, body) => {
            if number == part::BODY {
                row_in_lambda(alloc, binder, body, rest, types, site)
            } else {
                Ok(None)
            }
        }
        NExpr::Let(recursive, bindings, body) => row_in_let(
            alloc,
            *recursive,
            bindings.as_slice(),
            body,
            number,
            rest,
            types,
            site,
        ),
        NExpr::Case(scrutinee, _, ty, _, alternatives) => {
            if number == part::SCRUTINEE {
                row_apart(alloc, scrutinee, rest, types, site)
            } else {
                row_in_case(
                    alloc,
                    scrutinee,
                    ty,
                    alternatives.as_slice(),
                    number,
                    rest,
                    types,
                    site,
                )
            }
        }
        NExpr::Cast(inner, _) => {
            if number == part::HEAD {
                row_apart(alloc, inner, rest, types, site)
            } else {
                Ok(None)
            }
        }
        NExpr::Con(_, arguments) => {
            row_among_arguments(alloc, arguments.as_slice(), number, rest, types, site)
        }
        NExpr::Prim(_, operands) => {
            row_among_operands(alloc, operands.as_slice(), number, rest, types, site)
        }
        NExpr::Join(recursive, ty, points, body) => row_in_join(
            alloc,
            *recursive,
            ty,
            points.as_slice(),
            body,
            number,
            rest,
            types,
            site,
        ),
        NExpr::Jump(_, arguments) => {
            row_among_arguments(alloc, arguments.as_slice(), number, rest, types, site)
        }
    }
}

/// The same in a part whose answer is not that of the whole.
#[cycle(places)]
pub(crate) fn row_apart<'x>(
    alloc: Global,
    e: &'x NExpr,
    place: &[u32],
    types: &mut TypeTable,
    site: &Site<'x>,
) -> Result<Option<NExpr>, Memory>
    requires { IsSite types.old site.now }
    ensures answer { IfOk result (λ o. option_map nexpr_of o ≡ at_place (row_for site.now) place.now (apart (surroundings_at site.now)) (nexpr_of e.now)) }
    ensures grows { OnOk result (Grows types.old types.new) }
{
    let context = (&*site.context).without_joins();
    let around = Around::Apart(&*site.around);
    let inner = Site {
        asked: &*site.asked,
        places: &*site.places,
        context: &context,
        around: &around,
    };
    row_at(alloc, &*e, place, types, &inner)
}

/// The same in the head of an application to an argument.
#[cycle(places)]
fn row_at_head<'x>(
    alloc: Global,
    head: &'x NExpr,
    argument: &'x NArg,
    place: &[u32],
    types: &mut TypeTable,
    site: &Site<'x>,
) -> Result<Option<NExpr>, Memory>
    requires { IsSite types.old site.now }
    ensures answer { IfOk result (λ o. option_map nexpr_of o ≡ at_place (row_for site.now) place.now (at_head (narg_of argument.now) (surroundings_at site.now)) (nexpr_of head.now)) }
    ensures grows { OnOk result (Grows types.old types.new) }
{
    let context = (&*site.context).without_joins();
    let around = Around::Head(&*argument, &*site.around);
    let inner = Site {
        asked: &*site.asked,
        places: &*site.places,
        context: &context,
        around: &around,
    };
    row_at(alloc, &*head, place, types, &inner)
}

/// The same in an argument: a term stands at the place of the argument.
#[cycle(places)]
#[tactic(auto, using(fc_syntax::proofs::View::view_rules))]
fn row_in_argument<'x>(
    alloc: Global,
    argument: &'x NArg,
    place: &[u32],
    types: &mut TypeTable,
    site: &Site<'x>,
) -> Result<Option<NExpr>, Memory>
    requires { IsSite types.old site.now }
    ensures answer { IfOk result (λ o. option_map nexpr_of o ≡ of_term (at_place (row_for site.now) place.now (apart (surroundings_at site.now))) (narg_of argument.now)) }
    ensures grows { OnOk result (Grows types.old types.new) }
{
    match argument {
        NArg::Term(e) => row_apart(alloc, e, place, types, site),
        NArg::OfType(_) => Ok(None),
        NArg::OfCo(_) => Ok(None),
    }
}

/// The same in the one of a number among arguments.
#[cycle(places)]
#[tactic(auto, using(fc_parts::proofs::PartRules::part_rules))]
fn row_among_arguments<'x>(
    alloc: Global,
    arguments: &'x [NArg],
    number: u32,
    rest: &[u32],
    types: &mut TypeTable,
    site: &Site<'x>,
) -> Result<Option<NExpr>, Memory>
    requires { IsSite types.old site.now }
    ensures answer { IfOk result (λ o. option_map nexpr_of o ≡ of_arg number (of_term (at_place (row_for site.now) rest.now (apart (surroundings_at site.now)))) (nargs_of arguments.now)) }
    ensures grows { OnOk result (Grows types.old types.new) }
{
    match arguments.get(number as usize) {
        Some(argument) => row_in_argument(alloc, argument, rest, types, site),
        None => Ok(None),
    }
}

/// The same in the one of a number among the operands of a primitive.
#[cycle(places)]
#[tactic(auto, using(fc_parts::proofs::PartRules::part_rules))]
fn row_among_operands<'x>(
    alloc: Global,
    operands: &'x [NExpr],
    number: u32,
    rest: &[u32],
    types: &mut TypeTable,
    site: &Site<'x>,
) -> Result<Option<NExpr>, Memory>
    requires { IsSite types.old site.now }
    ensures answer { IfOk result (λ o. option_map nexpr_of o ≡ of_expr number (at_place (row_for site.now) rest.now (apart (surroundings_at site.now))) (nexprs_of operands.now)) }
    ensures grows { OnOk result (Grows types.old types.new) }
{
    match operands.get(number as usize) {
        Some(operand) => row_apart(alloc, operand, rest, types, site),
        None => Ok(None),
    }
}
