//! Applications of lambdas.
ghost use Rattle.std.specs.Prelude.{◌≡◌, IfOk, OnOk};
ghost use Rattle.std.specs.Option.{option_map};
ghost use Rattle.fc_model.specs.NamelessView.{nexpr_of};
ghost use Rattle.fc_rows.specs.Shrinking.{beta as spec_beta};
ghost use Rattle.fc_rows.specs.Surroundings.{Surroundings};
ghost use Rattle.fc_type_table.specs.TypeTables.{Grows};
ghost use Rattle.fc_lint_context.specs.ContextViews.{IsContextOver, context_in, modules_of_context};

use fc_copies::nameless::copy_expr;
use fc_forms::{as_application, as_lambda, let_of};
use fc_lint_context::Context;
use fc_subst::{Replacement, substitute};
use fc_syntax::{Memory, NArg, NBinder, NExpr};
use fc_type_reading::type_read_off;
use fc_type_table::TypeTable;
use std::alloc::Global;

/// A lambda that is applied: to a value, as a let; to a type or a coercion, as its body with that in place of the variable (beta). Answers none where the expression is
/// no such application, or its head has no type. Fails only where memory runs out, a distance or a number of parts has no 32 bits, or calls would go 2^32 deep.
pub fn beta(
    alloc: Global,
    e: &NExpr,
    types: &mut TypeTable,
    context: &Context,
) -> Result<Option<NExpr>, Memory>
    requires { IsContextOver types.old context.now }
    ensures view { (s : Surroundings) → s.context ≡ context_in types.old context.now → IfOk result (λ o. option_map nexpr_of o ≡ spec_beta (modules_of_context context.now) s (nexpr_of e.now)) }
    ensures grows { OnOk result (Grows types.old types.new) }
{
    let Some(application) = as_application(e) else {
        return Ok(None);
    };
    let Some(lambda) = as_lambda(application.head) else {
        return Ok(None);
    };
    let others = Replacement::Same;
    match (lambda.binder, application.argument) {
        (NBinder::Value(name, ty), NArg::Term(argument)) => {
            let Some(_) = type_read_off(alloc, application.head, types, context)? else {
                return Ok(None);
            };
            let name = name.copy(alloc)?;
            let ty = ty.copy(alloc)?;
            let argument = copy_expr(alloc, argument)?;
            let body = copy_expr(alloc, lambda.body)?;
            Ok(Some(let_of(alloc, name, ty, argument, body)?))
        }
        (NBinder::OfType(_, _), NArg::OfType(t)) => {
            let replacement = Replacement::Type(t, &others);
            Ok(Some(substitute(alloc, lambda.body, &replacement)?))
        }
        (NBinder::OfCo(_, _, _, _), NArg::OfCo(g)) => {
            let replacement = Replacement::Coercion(g, &others);
            Ok(Some(substitute(alloc, lambda.body, &replacement)?))
        }
        _ => Ok(None),
    }
}
