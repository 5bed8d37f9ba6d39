//! A field of a constructor gets a let.
ghost use Rattle.std.specs.Prelude.{◌≡◌, ◌&&◌, not, if◌then◌else◌, IfOk, OnOk};
ghost use Rattle.std.specs.Option.{is_some, option_map};
ghost use Rattle.fc_model.specs.Nameless.{NATerm, NCon, NLocal};
ghost use Rattle.fc_model.specs.NamelessView.{narg_of, nargs_of, nexpr_of, nty_of};
ghost use Rattle.fc_model.specs.Replacing.{below_values, coercion_variables, past_a_value, renamed, variables};
ghost use Rattle.fc_rows.specs.Commuting.{name_field as spec_name_field, with_first_named as spec_with_first_named};
ghost use Rattle.fc_rows.specs.Shrinking.{let_of as spec_let_of, moved_arg};
ghost use Rattle.fc_type_table.specs.TypeTables.{Grows};
ghost use Rattle.fc_lint_context.specs.ContextViews.{IsContextOver, modules_of_context};
ghost use Rattle.fc_commute_types.specs.Fields.{field_in};

use crate::asked::{as_field, first_field};
use fc_copies::nameless::copy_expr;
use fc_forms::{Construction, SingleBinding, as_construction, as_single_binding, let_of};
use fc_lint_context::Context;
use fc_subst::{NO_BINDERS, Replacement, Shift, substitute, substitute_in_argument};
use fc_syntax::{Limits, Memory, NArg, NExpr, NTy, Ref, Seq};
use fc_type_table::TypeTable;
use fc_type_trees::tree_of_type;
use std::alloc::Global;

/// The innermost variable where an argument gets its name; elsewhere the argument past one value more. Fails only where memory runs out, a distance or a number of parts
/// has no 32 bits, or calls would go 2^32 deep.
#[tactic(auto, using(fc_syntax::proofs::View::view_rules, crate::proofs::Moved::argument_moved))]
fn argument_past(alloc: Global, argument: &NArg, named: bool) -> Result<NArg, Memory>
    ensures { IfOk result (λ a. narg_of a ≡ (if named then NATerm (NLocal 0) else moved_arg past_a_value (narg_of argument.now))) }
{
    if named {
        return Ok(NArg::Term(NExpr::Var(Ref::Local(0))));
    }
    let past = Replacement::Past(Shift {
        values: 1,
        ..NO_BINDERS
    });
    substitute_in_argument(alloc, argument, &past)
}

/// Whether an argument gets the name: it is a term that is not trivial, and none before it has got the name.
fn gets_name(argument: &NArg, found: bool) -> bool
    ensures { result ≡ (not found && is_some (field_in (narg_of argument.now))) }
{
    !found && as_field(argument).is_some()
}

/// Arguments past one value more, with its variable in place of the first term that is not trivial. Fails only where memory runs out, a distance or a number of parts has
/// no 32 bits, or calls would go 2^32 deep.
#[tactic(auto, using(crate::proofs::Named::named_rules))]
fn with_first_named(alloc: Global, arguments: &[NArg]) -> Result<Seq<NArg>, Memory>
    ensures { IfOk result (λ r. nargs_of r ≡ spec_with_first_named (nargs_of arguments.now)) }
{
    let mut all = Seq::new(alloc);
    let mut found = false;
    for argument in arguments {
        let named = gets_name(argument, found);
        all.push(argument_past(alloc, argument, named)?)?;
        found |= named;
    }
    Ok(all)
}

/// An expression past one value more, which stands outside of the innermost one. Fails only where memory runs out, a distance or a number of parts has no 32 bits, or
/// calls would go 2^32 deep.
fn past_below_one(alloc: Global, e: &NExpr) -> Result<NExpr, Memory>
    ensures { IfOk result (λ r. nexpr_of r ≡ renamed (below_values variables coercion_variables 1 past_a_value) (nexpr_of e.now)) }
{
    let innermost = NExpr::Var(Ref::Local(0));
    let others = Replacement::Past(Shift {
        values: 2,
        ..NO_BINDERS
    });
    let replacement = Replacement::Value(&innermost, &others);
    substitute(alloc, e, &replacement)
}

/// A let of a constructor behind a let of the type `ty` for its first field that is not trivial, which is this term. Fails only where memory runs out, a distance or a
/// number of parts has no 32 bits, or calls would go 2^32 deep.
#[tactic(auto, using(fc_syntax::proofs::View::view_rules, crate::proofs::Lets::same_let))]
fn behind_field(
    alloc: Global,
    ty: NTy,
    field: &NExpr,
    construction: &Construction<'_>,
    outer: &SingleBinding<'_>,
) -> Result<NExpr, Memory>
    ensures { IfOk result (λ r. nexpr_of r ≡ spec_let_of (nty_of ty) (nexpr_of field.now) (spec_let_of (nty_of outer.now.binding.now.ty) (NCon construction.now.name.now (spec_with_first_named (nargs_of construction.now.arguments.now))) (renamed (below_values variables coercion_variables 1 past_a_value) (nexpr_of outer.now.body.now)))) }
{
    let arguments = with_first_named(alloc, construction.arguments)?;
    let rhs = NExpr::Con(construction.name.copy(alloc)?, arguments);
    let body = past_below_one(alloc, outer.body)?;
    let binding = outer.binding;
    let inner = let_of(
        alloc,
        binding.name.copy(alloc)?,
        binding.ty.copy(alloc)?,
        rhs,
        body,
    )?;
    let word = binding.name.copy(alloc)?;
    let term = copy_expr(alloc, field)?;
    let_of(alloc, word, ty, term, inner)
}

/// A let of a constructor: its first field that is not trivial gets a let of its own (name-field), at the type that the constructor asks of it. Answers none where the
/// expression is no such let, no constructor has the name, there is no such field, or an argument up to there is of another sort than the constructor asks. Fails only
/// where memory runs out, a distance or a number of parts has no 32 bits, calls would go 2^32 deep, a type names a variable out of scope, or the type of the field has
/// more than 1,500,000 pieces or nests deeper than 2,000.
pub fn name_field(
    alloc: Global,
    e: &NExpr,
    types: &mut TypeTable,
    context: &Context,
) -> Result<Option<NExpr>, Memory>
    requires { IsContextOver types.old context.now }
    ensures view { IfOk result (λ o. option_map nexpr_of o ≡ spec_name_field (modules_of_context context.now) (nexpr_of e.now)) }
    ensures grows { OnOk result (Grows types.old types.new) }
{
    let Some(outer) = as_single_binding(e) else {
        return Ok(None);
    };
    let Some(construction) = as_construction(&outer.binding.rhs) else {
        return Ok(None);
    };
    let Some(constructor) = context.constructor_named(construction.name) else {
        return Ok(None);
    };
    let arguments = construction.arguments;
    let Some(field) = first_field(alloc, constructor.ty, arguments, types, &context.scope)? else {
        return Ok(None);
    };
    let variables = context.scope.variables()?;
    let ty = tree_of_type(
        alloc,
        field.ty,
        types,
        variables,
        Limits::standard().result_size,
    )?;
    Ok(Some(behind_field(alloc, ty, field.term, &construction, &outer)?))
}
