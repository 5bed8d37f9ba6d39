//! Failures that are applied, looked at or cast.
ghost use Rattle.std.specs.Prelude.{◌≡◌, IfOk, OnOk};
ghost use Rattle.std.specs.Option.{option_map};
ghost use Rattle.fc_model.specs.Nameless.{NFail};
ghost use Rattle.fc_model.specs.NamelessView.{nexpr_of};
ghost use Rattle.fc_model.specs.Typing.{type_read_off as spec_type_read_off};
ghost use Rattle.fc_rows.specs.Changing.{made};
ghost use Rattle.fc_rows.specs.Shrinking.{fail_absorb as spec_fail_absorb};
ghost use Rattle.fc_rows.specs.Surroundings.{Surroundings};
ghost use Rattle.fc_type_table.specs.TypeTables.{Grows};
ghost use Rattle.fc_lint_context.specs.ContextViews.{IsContextOver, context_in, modules_of_context};

use fc_lint_context::Context;
use fc_syntax::{Limits, Memory, NExpr};
use fc_type_reading::type_read_off;
use fc_type_table::TypeTable;
use fc_type_trees::tree_of_type;
use std::alloc::Global;

/// A failure at the type of an expression. Answers none where the expression has no type. Fails only where memory runs out, a distance has no 32 bits, a type names a
/// variable out of scope, or the type has more than 1,500,000 pieces or nests deeper than 2,000.
#[tactic(auto, using(fc_syntax::proofs::View::view_rules))]
fn failure_at_type_of(
    alloc: Global,
    e: &NExpr,
    types: &mut TypeTable,
    context: &Context,
) -> Result<Option<NExpr>, Memory>
    requires { IsContextOver types.old context.now }
    ensures view { IfOk result (λ o. option_map nexpr_of o ≡ made NFail (spec_type_read_off (modules_of_context context.now) (context_in types.old context.now) (nexpr_of e.now))) }
    ensures grows { OnOk result (Grows types.old types.new) }
{
    let Some(id) = type_read_off(alloc, e, types, context)? else {
        return Ok(None);
    };
    let variables = context.scope.variables()?;
    let ty = tree_of_type(alloc, id, types, variables, Limits::standard().result_size)?;
    Ok(Some(NExpr::Fail(ty)))
}

/// A failure that is applied, looked at or cast, as the failure at the type of the whole (fail-absorb). Answers none where the expression is none of these, or is an
/// application or a cast that has no type. Fails only where memory runs out, a distance has no 32 bits, a type names a variable out of scope, or the type has more than
/// 1,500,000 pieces or nests deeper than 2,000.
#[tactic(auto, using(fc_syntax::proofs::View::view_rules))]
pub fn fail_absorb(
    alloc: Global,
    e: &NExpr,
    types: &mut TypeTable,
    context: &Context,
) -> Result<Option<NExpr>, Memory>
    requires { IsContextOver types.old context.now }
    ensures view { (s : Surroundings) → s.context ≡ context_in types.old context.now → IfOk result (λ o. option_map nexpr_of o ≡ spec_fail_absorb (modules_of_context context.now) s (nexpr_of e.now)) }
    ensures grows { OnOk result (Grows types.old types.new) }
{
    match e {
        NExpr::App(head, _) => match &**head {
            NExpr::Fail(_) => failure_at_type_of(alloc, e, types, context),
            _ => Ok(None),
        },
        NExpr::Case(scrutinee, _, _, answer, _) => match &**scrutinee {
            NExpr::Fail(_) => Ok(Some(NExpr::Fail(answer.copy(alloc)?))),
            _ => Ok(None),
        },
        NExpr::Cast(inner, _) => match &**inner {
            NExpr::Fail(_) => failure_at_type_of(alloc, e, types, context),
            _ => Ok(None),
        },
        _ => Ok(None),
    }
}
