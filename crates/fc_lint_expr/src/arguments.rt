//! What is given to applications, constructors, primitives and jumps: no join point is in tail reach of it.
ghost use Rattle.std.specs.Prelude.{◌≡◌, IfOk, OnOk};
ghost use Rattle.fc_model.specs.Says.{Says};
ghost use Rattle.fc_lint_context.specs.ContextViews.{IsContextOver, context_in, modules_of_context};
ghost use Rattle.fc_type_scope.specs.Scopes.{scope_in};
ghost use Rattle.fc_model.specs.Faulting.{under};
ghost use Rattle.fc_model.specs.NamelessView.{narg_of};
ghost use Rattle.fc_model.specs.Typing.{argument_given, without_joins};
ghost use Rattle.fc_lint_calls.specs.GivenViews.{AreGiven, IsGiven, given_in, givens_in};
ghost use Rattle.fc_lint_expr.specs.Lists.{args_from, operand_given, operands_from};
ghost use Rattle.fc_type_table.specs.TypeTables.{Grows, modules_in};

use crate::expressions::type_apart;
use crate::written::kinded;
use fc_coercion::ends_of;
use fc_lint_calls::{Given, is_atom};
use fc_lint_context::Context;
use fc_model::{Flawed, deeper, next_part};
use fc_syntax::{NArg, NExpr, Seq};
use fc_type_table::TypeTable;
use std::alloc::Global;

/// What is given as an argument.
#[cycle(lint)]
pub(crate) fn argument(
    alloc: Global,
    arg: &NArg,
    types: &mut TypeTable,
    context: &Context,
) -> Result<Given, Flawed>
    requires context { IsContextOver types.old context.now }
    ensures valid { IfOk result (λ g. IsGiven types.new (scope_in context.now.scope) g) }
    ensures says { Says (λ g. given_in types.new (scope_in context.now.scope) g) result (argument_given (modules_of_context context.now) (without_joins (context_in types.old context.now)) (narg_of arg.now)) }
    ensures grows { OnOk result (Grows types.old types.new) }
    ensures context { OnOk result (IsContextOver types.new context.now) }
{
    match arg {
        NArg::Term(e) => {
            let ty = type_apart(alloc, e, types, &*context)?;
            Ok(Given::Term(ty, is_atom(e)))
        }
        NArg::OfType(t) => {
            let read = kinded(alloc, t, types, &*context)?;
            Ok(Given::OfType(read.ty, read.kind))
        }
        NArg::OfCo(g) => {
            let ends = ends_of(alloc, g, types, &*context)?;
            Ok(Given::Coercion(ends))
        }
    }
}

/// The same of the argument that is the part of this number.
#[cycle(lint)]
pub(crate) fn argument_of_part(
    alloc: Global,
    arg: &NArg,
    types: &mut TypeTable,
    context: &Context,
    part: u32,
) -> Result<Given, Flawed>
    requires context { IsContextOver types.old context.now }
    ensures valid { IfOk result (λ g. IsGiven types.new (scope_in context.now.scope) g) }
    ensures says { Says (λ g. given_in types.new (scope_in context.now.scope) g) result (under part (argument_given (modules_of_context context.now) (without_joins (context_in types.old context.now)) (narg_of arg.now))) }
    ensures grows { OnOk result (Grows types.old types.new) }
    ensures context { OnOk result (IsContextOver types.new context.now) }
{
    match argument(alloc, arg, types, &*context) {
        Ok(given) => Ok(given),
        Err(flawed) => Err(deeper(flawed, part)),
    }
}

/// What is given as arguments, in their order.
#[cycle(lint)]
pub(crate) fn arguments(
    alloc: Global,
    args: &[NArg],
    types: &mut TypeTable,
    context: &Context,
) -> Result<Seq<Given>, Flawed>
    requires context { IsContextOver types.old context.now }
    ensures valid { IfOk result (λ g. AreGiven types.new (scope_in context.now.scope) g) }
    ensures says { Says (λ g. givens_in types.new (scope_in context.now.scope) g) result (args_from (modules_of_context context.now) (without_joins (context_in types.old context.now)) 0 args.now) }
    ensures grows { OnOk result (Grows types.old types.new) }
    ensures context { OnOk result (IsContextOver types.new context.now) }
{
    let mut given = Seq::new(alloc);
    let mut part = 0u32;
    for arg in args {
        let next = argument_of_part(alloc, arg, types, &*context, part)?;
        given.push(next)?;
        part = next_part(part)?;
    }
    Ok(given)
}

/// What is given as the operand that is the part of this number.
#[cycle(lint)]
pub(crate) fn operand_of_part(
    alloc: Global,
    e: &NExpr,
    types: &mut TypeTable,
    context: &Context,
    part: u32,
) -> Result<Given, Flawed>
    requires context { IsContextOver types.old context.now }
    ensures valid { IfOk result (λ g. IsGiven types.new (scope_in context.now.scope) g) }
    ensures says { Says (λ g. given_in types.new (scope_in context.now.scope) g) result (operand_given (modules_of_context context.now) (without_joins (context_in types.old context.now)) part e.now) }
    ensures grows { OnOk result (Grows types.old types.new) }
    ensures context { OnOk result (IsContextOver types.new context.now) }
{
    match type_apart(alloc, e, types, &*context) {
        Ok(ty) => Ok(Given::Term(ty, is_atom(e))),
        Err(flawed) => Err(deeper(flawed, part)),
    }
}

/// What is given to a primitive, in their order.
#[cycle(lint)]
pub(crate) fn operands(
    alloc: Global,
    operands: &[NExpr],
    types: &mut TypeTable,
    context: &Context,
) -> Result<Seq<Given>, Flawed>
    requires context { IsContextOver types.old context.now }
    ensures valid { IfOk result (λ g. AreGiven types.new (scope_in context.now.scope) g) }
    ensures says { Says (λ g. givens_in types.new (scope_in context.now.scope) g) result (operands_from (modules_of_context context.now) (without_joins (context_in types.old context.now)) 0 operands.now) }
    ensures grows { OnOk result (Grows types.old types.new) }
    ensures context { OnOk result (IsContextOver types.new context.now) }
{
    let mut given = Seq::new(alloc);
    let mut part = 0u32;
    for operand in operands {
        let next = operand_of_part(alloc, operand, types, &*context, part)?;
        given.push(next)?;
        part = next_part(part)?;
    }
    Ok(given)
}
