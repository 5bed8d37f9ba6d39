//! A jump as the right side of its join point.
ghost use Rattle.std.specs.Prelude.{◌≡◌, ◌+◌, IfOk, OnOk, None, if◌then◌else◌};
ghost use Rattle.std.specs.Option.{option_map};
ghost use Rattle.fc_model.specs.Faulting.{at_distance};
ghost use Rattle.fc_model.specs.NamelessView.{nargs_of, nexpr_of};
ghost use Rattle.fc_model.specs.Replacing.{replaced, with_arguments};
ghost use Rattle.fc_rows.specs.Shrinking.{jump_made, jump_taken, named_arguments as spec_named_arguments};
ghost use Rattle.fc_rows.specs.Surroundings.{Surroundings};
ghost use Rattle.fc_subst.specs.Replacements.{past_all};
ghost use Rattle.fc_known.specs.ToldOfPoints.{point_told};
ghost use Rattle.fc_known.specs.declared.points.KnownPoint.TheVariants.{Bound};
ghost use Rattle.fc_type_scope.specs.Scopes.{IsScope, scope_in};
ghost use Rattle.fc_type_table.specs.TypeTables.{Grows, IsType, shown};
ghost use Rattle.fc_lint_context.specs.ContextViews.{IsContextOver, context_in};
ghost use Rattle.fc_jump_once.specs.Within.{IsPointOf, are_few_terms, jump_once_within};

use fc_known::KnownPoint;
use fc_lets_for_terms::{behind_lets, named_arguments, pairs_with, term_count};
use fc_lint_context::Context;
use fc_numbers::sum;
use fc_subst::{Replacement, Shift, substitute_arguments};
use fc_syntax::{Memory, NArg, NExpr, NJoinBind};
use fc_type_scope::TypeScope;
use fc_type_table::{TypeId, TypeTable};
use std::alloc::Global;

/// How many terms a jump may have among its arguments: a declaration is at most 500 deep, so that more lets are beyond the limits on results.
pub const MOST_TERMS: u32 = 500;

/// The right side of a join point that stands so many binders further out, behind a let for each of so many terms: the arguments stand in place of its parameters, a term by
/// the variable of its let. Fails only where memory runs out, a distance or a number of parts has no 32 bits, or calls would go 2^32 deep.
fn inside_lets(
    alloc: Global,
    args: &[NArg],
    point: &NJoinBind,
    own: Shift,
    lets: u32,
) -> Result<NExpr, Memory>
    ensures { IfOk result (λ e. nexpr_of e ≡ replaced (with_arguments (spec_named_arguments (nargs_of args.now)) (past_all (record own { values = own.values + lets }))) (nexpr_of point.now.rhs)) }
{
    let values = sum(own.values, lets)?;
    let named = named_arguments(alloc, args)?;
    let others = Replacement::Past(Shift { values, ..own });
    substitute_arguments(alloc, named.as_slice(), &point.rhs, &others)
}

/// The right side of a join point, which takes arguments as what is of a type does and stands so many binders further out, at arguments, behind lets for their terms. Nothing
/// where they do not agree with its parameters or are of other sorts than are asked, or where they have more than 500 terms.
#[tactic(auto, using(crate::proofs::Taken::taken_rules))]
fn at_arguments(
    alloc: Global,
    args: &[NArg],
    ty: TypeId,
    point: &NJoinBind,
    own: Shift,
    types: &mut TypeTable,
    scope: &TypeScope<'_>,
) -> Result<Option<NExpr>, Memory>
    requires scope { IsScope types.old scope.now }
    requires ty_in { IsType types.old (scope_in scope.now) ty }
    ensures view { IfOk result (λ o. option_map nexpr_of o ≡ (if are_few_terms (nargs_of args.now) then jump_taken (point_told (Bound point.entry own)) (shown types.old (scope_in scope.now) ty) (nargs_of args.now) else None)) }
    ensures grows { OnOk result (Grows types.old types.new) }
{
    let lets = term_count(args)?;
    if lets > MOST_TERMS {
        return Ok(None);
    }
    if !pairs_with(point.params.as_slice(), args) {
        return Ok(None);
    }
    let body = inside_lets(alloc, args, point, own, lets)?;
    behind_lets(alloc, args, ty, body, types, scope)
}

/// A jump to the join point at a distance, of which this is known.
fn jump_to(
    alloc: Global,
    distance: u32,
    args: &[NArg],
    point: &KnownPoint,
    types: &mut TypeTable,
    context: &Context,
) -> Result<Option<NExpr>, Memory>
    requires { IsContextOver types.old context.now }
    ensures view { IfOk result (λ o. option_map nexpr_of o ≡ (if are_few_terms (nargs_of args.now) then jump_made (at_distance (context_in types.old context.now).joins distance) (point_told point.now) (nargs_of args.now) else None)) }
    ensures grows { OnOk result (Grows types.old types.new) }
{
    let Some(join) = context.join(distance) else {
        return Ok(None);
    };
    match point {
        KnownPoint::Nothing => Ok(None),
        KnownPoint::Bound(bound, own) => {
            at_arguments(alloc, args, join.ty, bound, *own, types, &context.scope)
        }
    }
}

/// A jump as the right side of its join point, of which `point` says what is known, behind a let for each term among its arguments (join-once makes this of the only jump to
/// a join point). Answers none where the expression is no jump, the join point is recursive or not in tail reach, the arguments do not agree with its parameters or are of
/// other sorts than are asked, or they have more than 500 terms. Fails only where memory runs out, a type among the arguments names a variable out of scope, the type of a let
/// has more than 1,500,000 pieces or nests deeper than 2,000, a distance or a number of parts has no 32 bits, or calls would go 2^32 deep.
#[tactic(auto, using(fc_syntax::proofs::View::view_rules))]
pub fn jump_once(
    alloc: Global,
    e: &NExpr,
    point: &KnownPoint,
    types: &mut TypeTable,
    context: &Context,
) -> Result<Option<NExpr>, Memory>
    requires { IsContextOver types.old context.now }
    ensures view { (s : Surroundings) → s.context ≡ context_in types.old context.now → IsPointOf point.now s (nexpr_of e.now) → IfOk result (λ o. option_map nexpr_of o ≡ jump_once_within s (nexpr_of e.now)) }
    ensures grows { OnOk result (Grows types.old types.new) }
{
    let NExpr::Jump(distance, args) = e else {
        return Ok(None);
    };
    jump_to(alloc, *distance, args.as_slice(), point, types, context)
}
