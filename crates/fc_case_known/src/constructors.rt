//! The alternative for a constructor that a case looks at, with lets for the constructor's terms.
ghost use Rattle.std.specs.Prelude.{◌≡◌, IfOk, OnOk, None, if◌then◌else◌, nat_le};
ghost use Rattle.std.specs.Option.{option_map};
ghost use Rattle.fc_model.specs.Calling.{constructor_type};
ghost use Rattle.fc_model.specs.NamelessView.{nalts_of, nargs_of, nexpr_of, nty_of};
ghost use Rattle.fc_model.specs.Nameless.{NCon};
ghost use Rattle.fc_rows.specs.Shrinking.{alternative_of, at_constructor as spec_at_constructor, case_of_constructor as spec_case_of_constructor, term_count as spec_term_count};
ghost use Rattle.fc_syntax.specs.declared.expr.Head.TheVariants.{Con, Default};
ghost use Rattle.fc_types.specs.TableViews.{constructor_of};
ghost use Rattle.fc_type_scope.specs.Scopes.{scope_in};
ghost use Rattle.fc_type_table.specs.TypeTables.{Grows, IsType, shown};
ghost use Rattle.fc_lint_context.specs.ContextViews.{IsContextOver, modules_of_context};
ghost use Rattle.fc_case_known.specs.Alternatives.{branch_of};
ghost use Rattle.fc_case_known.specs.Opening.{bound_in, inside_lets as spec_inside_lets, put_in};
ghost use Rattle.fc_case_known.specs.Within.{are_few_terms};

use crate::alternatives::{Sought, alternative_for};
use crate::arguments::{behind_parameters, past};
use crate::scrutinees::at_default;
use fc_copies::nameless::copy_args;
use fc_forms::{Case, Construction, let_of};
use fc_lets_for_terms::{behind_lets, named_arguments, pairs_with, term_count};
use fc_lint_context::{Context, TypedCon};
use fc_numbers::sum;
use fc_occur::occurrences_of_innermost;
use fc_rows::Occurrence;
use fc_subst::{NO_BINDERS, Replacement, Shift, substitute_arguments};
use fc_syntax::{Memory, NAlt, NArg, NExpr, Name, Ref};
use fc_type_table::TypeTable;
use std::alloc::Global;

/// How many terms a constructor may have that a case looks at: a declaration is at most 500 deep, so that more lets are beyond the limits on results.
pub const MOST_TERMS: u32 = 500;

/// A constructor behind a let for each of its terms.
#[derive(Clone, Copy)]
struct Opened<'a> {
    /// The constructor.
    name: &'a Name,
    /// Its arguments, by the variables of the lets.
    named: &'a [NArg],
    /// Those that stand for the binders of an alternative.
    parts: &'a [NArg],
    /// How many lets there are.
    lets: u32,
}

/// What an alternative answers, behind lets and the case binder, with the parts of the constructor in place of the alternative's binders. Fails only where memory runs out,
/// a distance or a number of parts has no 32 bits, or calls would go 2^32 deep.
fn behind_binder(alloc: Global, opened: &Opened<'_>, body: &NExpr) -> Result<NExpr, Memory>
    ensures { IfOk result (λ e. nexpr_of e ≡ bound_in opened.now.lets (nargs_of opened.now.parts.now) (nexpr_of body.now)) }
{
    let one = Shift {
        values: 1,
        ..NO_BINDERS
    };
    let moved = past(alloc, opened.parts, one)?;
    let values = sum(opened.lets, 1)?;
    let others = Replacement::Past(Shift {
        values,
        ..NO_BINDERS
    });
    let binder = NExpr::Var(Ref::Local(0));
    let replacement = Replacement::Value(&binder, &others);
    substitute_arguments(alloc, moved.as_slice(), body, &replacement)
}

/// What an alternative answers, behind lets, with the parts of the constructor in place of the alternative's binders and an expression in place of the case binder. Fails
/// only where memory runs out, a distance or a number of parts has no 32 bits, or calls would go 2^32 deep.
fn with_expression(
    alloc: Global,
    opened: &Opened<'_>,
    whole: &NExpr,
    body: &NExpr,
) -> Result<NExpr, Memory>
    ensures { IfOk result (λ e. nexpr_of e ≡ put_in opened.now.lets (nexpr_of whole.now) (nargs_of opened.now.parts.now) (nexpr_of body.now)) }
{
    let others = Replacement::Past(Shift {
        values: opened.lets,
        ..NO_BINDERS
    });
    let replacement = Replacement::Value(whole, &others);
    substitute_arguments(alloc, opened.parts, body, &replacement)
}

/// A constructor with its arguments. Fails only where memory runs out.
#[tactic(auto, using(fc_syntax::proofs::View::view_rules))]
fn constructor(alloc: Global, name: &Name, args: &[NArg]) -> Result<NExpr, Memory>
    ensures { IfOk result (λ e. nexpr_of e ≡ NCon name.now (nargs_of args.now)) }
{
    let name = name.copy(alloc)?;
    let args = copy_args(alloc, args)?;
    Ok(NExpr::Con(name, args))
}

/// What an alternative answers, behind lets: the case binder is bound to the constructor where it occurs. Fails only where memory runs out, a distance or a number of parts
/// has no 32 bits, or calls would go 2^32 deep.
fn inside_lets(
    alloc: Global,
    case: &Case<'_>,
    opened: &Opened<'_>,
    body: &NExpr,
) -> Result<NExpr, Memory>
    ensures { IfOk result (λ e. nexpr_of e ≡ spec_inside_lets (nty_of case.now.ty.now) opened.now.name.now (nargs_of opened.now.named.now) (nargs_of opened.now.parts.now) opened.now.lets (nexpr_of body.now)) }
{
    let bound = behind_binder(alloc, opened, body)?;
    let whole = constructor(alloc, opened.name, opened.named)?;
    match occurrences_of_innermost(&bound, 1)? {
        Occurrence::Dead => with_expression(alloc, opened, &whole, body),
        _ => {
            let word = case.word.copy(alloc)?;
            let ty = case.ty.copy(alloc)?;
            let_of(alloc, word, ty, whole, bound)
        }
    }
}

/// The alternative for a constructor that a case looks at, behind lets for the constructor's terms. Nothing where its arguments do not agree with the alternative's binders
/// or with what the constructor asks for, or where it has more than 500 terms.
fn at_constructor(
    alloc: Global,
    case: &Case<'_>,
    taken: &Construction<'_>,
    found: &TypedCon<'_>,
    alternative: &NAlt,
    types: &mut TypeTable,
    context: &Context,
) -> Result<Option<NExpr>, Memory>
    requires context { IsContextOver types.old context.now }
    requires type_in { IsType types.old (scope_in context.now.scope) found.now.ty }
    requires type_view { shown types.old (scope_in context.now.scope) found.now.ty ≡ constructor_type taken.now.name.now (constructor_of found.now.con) }
    ensures view { IfOk result (λ o. option_map nexpr_of o ≡ (if nat_le (spec_term_count (nargs_of taken.now.arguments.now)) 500 then spec_at_constructor (nty_of case.now.ty.now) taken.now.name.now (nargs_of taken.now.arguments.now) (constructor_of found.now.con) (branch_of alternative.now) else None)) }
    ensures grows { OnOk result (Grows types.old types.new) }
{
    let lets = term_count(taken.arguments)?;
    if lets > MOST_TERMS {
        return Ok(None);
    }
    let named = named_arguments(alloc, taken.arguments)?;
    let all = named.as_slice();
    let parts = behind_parameters(all, found.con.params.as_slice());
    if !pairs_with(alternative.binders.as_slice(), parts) {
        return Ok(None);
    }
    let opened = Opened {
        name: taken.name,
        named: all,
        parts,
        lets,
    };
    let body = inside_lets(alloc, case, &opened, &alternative.body)?;
    behind_lets(
        alloc,
        taken.arguments,
        found.ty,
        body,
        types,
        &context.scope,
    )
}

/// A case of a constructor: its own alternative, behind lets for its terms, else the default, behind a let of the constructor. Nothing where the case has neither, the
/// constructor's arguments do not agree with the alternative's binders or with what it asks for, or it has an alternative and more than 500 terms. Fails only where
/// memory runs out, a type among the arguments names a variable out of scope, the type of a let has more than 1,500,000 pieces or nests deeper than 2,000, a distance
/// or a number of parts has no 32 bits, or calls would go 2^32 deep.
pub(crate) fn case_of_constructor(
    alloc: Global,
    case: &Case<'_>,
    taken: &Construction<'_>,
    types: &mut TypeTable,
    context: &Context,
) -> Result<Option<NExpr>, Memory>
    requires context { IsContextOver types.old context.now }
    requires scrutinee { nexpr_of case.now.scrutinee.now ≡ NCon taken.now.name.now (nargs_of taken.now.arguments.now) }
    ensures view { IfOk result (λ o. option_map nexpr_of o ≡ (if are_few_terms (nargs_of taken.now.arguments.now) (alternative_of (Con taken.now.name.now) (nalts_of case.now.alternatives.now)) then spec_case_of_constructor (modules_of_context context.now) (nty_of case.now.ty.now) taken.now.name.now (nargs_of taken.now.arguments.now) (alternative_of (Con taken.now.name.now) (nalts_of case.now.alternatives.now)) (alternative_of Default (nalts_of case.now.alternatives.now)) else None)) }
    ensures grows { OnOk result (Grows types.old types.new) }
{
    let Some(alternative) = alternative_for(case.alternatives, &Sought::Named(taken.name)) else {
        return at_default(alloc, case);
    };
    match context.constructor_named(taken.name) {
        None => Ok(None),
        Some(found) => at_constructor(alloc, case, taken, &found, alternative, types, context),
    }
}
