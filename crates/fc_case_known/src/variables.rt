//! Alternatives for variables that are known to be constructors or literals.
ghost use Rattle.std.specs.Prelude.{◌≡◌, IfOk};
ghost use Rattle.std.specs.Option.{option_map};
ghost use Rattle.fc_model.specs.Calling.{first_of, from_some};
ghost use Rattle.fc_model.specs.Nameless.{NoNArgs};
ghost use Rattle.fc_model.specs.NamelessView.{nalts_of, nargs_of, nexpr_of};
ghost use Rattle.fc_rows.specs.Shrinking.{alternative_of, at_variable as spec_at_variable, case_of_known, case_of_variable as spec_case_of_variable};
ghost use Rattle.fc_rows.specs.Surroundings.{known_of, moved_known};
ghost use Rattle.fc_syntax.specs.declared.expr.Head.TheVariants.{Con, Default, Lit};
ghost use Rattle.fc_subst.specs.Replacements.{renaming_of};
ghost use Rattle.fc_known.specs.Told.{known_there, told};
ghost use Rattle.fc_lint_context.specs.ContextViews.{modules_of_context};
ghost use Rattle.fc_case_known.specs.Alternatives.{branch_of};
ghost use Rattle.fc_case_known.specs.Valid.{IsOverSome};

use crate::alternatives::{Sought, alternative_at, alternative_for, default_of};
use crate::arguments::{behind_parameters, past};
use crate::found::arguments_found;
use fc_forms::{Case, Construction, are_trivial, as_construction};
use fc_known::{Branch, Fact};
use fc_lets_for_terms::pairs_with;
use fc_lint_context::Context;
use fc_subst::{Replacement, Shift, substitute_arguments};
use fc_syntax::{Head, Memory, NAlt, NArg, NExpr};
use std::alloc::Global;

/// An alternative with a variable in place of the case binder, and the parts that the variable is made of in place of the alternative's binders. Nothing where these do
/// not agree. Fails only where memory runs out, a distance or a number of parts has no 32 bits, or calls would go 2^32 deep.
fn at_variable(
    alloc: Global,
    variable: &NExpr,
    parts: &[NArg],
    alternative: &NAlt,
) -> Result<Option<NExpr>, Memory>
    ensures { IfOk result (λ o. option_map nexpr_of o ≡ spec_at_variable (nexpr_of variable.now) (nargs_of parts.now) (branch_of alternative.now)) }
{
    if !pairs_with(alternative.binders.as_slice(), parts) {
        return Ok(None);
    }
    let others = Replacement::Same;
    let replacement = Replacement::Value(variable, &others);
    let body = substitute_arguments(alloc, parts, &alternative.body, &replacement)?;
    Ok(Some(body))
}

/// The same without parts, of the alternative that a case may have.
fn at_variable_if(
    alloc: Global,
    variable: &NExpr,
    alternative: Option<&NAlt>,
) -> Result<Option<NExpr>, Memory>
    ensures { IfOk result (λ o. option_map nexpr_of o ≡ from_some (spec_at_variable (nexpr_of variable.now) NoNArgs) (option_map (λ a. branch_of a.now) alternative.entry)) }
{
    match alternative {
        None => Ok(None),
        Some(alternative) => at_variable(alloc, variable, &[], alternative),
    }
}

/// A case of a variable that is known as a literal.
fn case_of_number(alloc: Global, case: &Case<'_>, literal: i64) -> Result<Option<NExpr>, Memory>
    ensures { IfOk result (λ o. option_map nexpr_of o ≡ from_some (spec_at_variable (nexpr_of case.now.scrutinee.now) NoNArgs) (first_of (alternative_of (Lit literal) (nalts_of case.now.alternatives.now)) (alternative_of Default (nalts_of case.now.alternatives.now)))) }
{
    at_variable_if(
        alloc,
        case.scrutinee,
        alternative_at(case.alternatives, literal),
    )
}

/// A case of a variable that is known as a constructor with these arguments.
fn case_of_variable(
    alloc: Global,
    case: &Case<'_>,
    known: &Construction<'_>,
    context: &Context,
) -> Result<Option<NExpr>, Memory>
    requires { IsOverSome context.now }
    ensures { IfOk result (λ o. option_map nexpr_of o ≡ spec_case_of_variable (modules_of_context context.now) (nexpr_of case.now.scrutinee.now) known.now.name.now (nargs_of known.now.arguments.now) (alternative_of (Con known.now.name.now) (nalts_of case.now.alternatives.now)) (alternative_of Default (nalts_of case.now.alternatives.now))) }
{
    let Some(alternative) = alternative_for(case.alternatives, &Sought::Named(known.name)) else {
        return at_variable_if(alloc, case.scrutinee, default_of(case.alternatives));
    };
    match context.constructor_named(known.name) {
        None => Ok(None),
        Some(found) => {
            let parts = behind_parameters(known.arguments, found.con.params.as_slice());
            at_variable(alloc, case.scrutinee, parts, alternative)
        }
    }
}

/// A case of a variable that is bound to an expression, so many binders further out.
fn case_of_bound(
    alloc: Global,
    case: &Case<'_>,
    bound: &NExpr,
    by: Shift,
    context: &Context,
) -> Result<Option<NExpr>, Memory>
    requires { IsOverSome context.now }
    ensures { IfOk result (λ o. option_map nexpr_of o ≡ case_of_known (modules_of_context context.now) (nexpr_of case.now.scrutinee.now) (moved_known (renaming_of by) (known_of (nexpr_of bound.now))) (nalts_of case.now.alternatives.now)) }
{
    let Some(known) = as_construction(bound) else {
        return Ok(None);
    };
    if !are_trivial(known.arguments) {
        return Ok(None);
    }
    let args = past(alloc, known.arguments, by)?;
    let here = Construction {
        name: known.name,
        arguments: args.as_slice(),
    };
    case_of_variable(alloc, case, &here, context)
}

/// A case of a variable that is looked at by a case around, so many binders further out.
fn case_of_found(
    alloc: Global,
    case: &Case<'_>,
    branch: &Branch<'_>,
    by: Shift,
    context: &Context,
) -> Result<Option<NExpr>, Memory>
    requires { IsOverSome context.now }
    ensures { IfOk result (λ o. option_map nexpr_of o ≡ case_of_known (modules_of_context context.now) (nexpr_of case.now.scrutinee.now) (moved_known (renaming_of by) (known_there branch.now)) (nalts_of case.now.alternatives.now)) }
{
    match &branch.alternative.head {
        Head::Default => Ok(None),
        Head::Lit(literal) => case_of_number(alloc, case, *literal),
        Head::Con(name) => {
            let args = arguments_found(alloc, branch, by)?;
            if !are_trivial(args.as_slice()) {
                return Ok(None);
            }
            let here = Construction {
                name,
                arguments: args.as_slice(),
            };
            case_of_variable(alloc, case, &here, context)
        }
    }
}

/// A case of something of which this is known, which is neither a constructor nor a literal itself. Nothing where it is not known as one of these, with trivial arguments.
/// Fails only where memory runs out, a distance or a number of parts has no 32 bits, or calls would go 2^32 deep.
pub(crate) fn case_of_fact(
    alloc: Global,
    case: &Case<'_>,
    fact: &Fact<'_>,
    context: &Context,
) -> Result<Option<NExpr>, Memory>
    requires { IsOverSome context.now }
    ensures { IfOk result (λ o. option_map nexpr_of o ≡ case_of_known (modules_of_context context.now) (nexpr_of case.now.scrutinee.now) (told fact.now) (nalts_of case.now.alternatives.now)) }
{
    match fact {
        Fact::Nothing => Ok(None),
        Fact::Bound(bound, by) => case_of_bound(alloc, case, bound, *by, context),
        Fact::Found(branch, by) => case_of_found(alloc, case, branch, *by, context),
    }
}
