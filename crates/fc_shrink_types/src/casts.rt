//! Casts between equal types.
ghost use Rattle.std.specs.Prelude.{◌≡◌, IfOk, OnOk};
ghost use Rattle.std.specs.Option.{option_map};
ghost use Rattle.fc_model.specs.NamelessView.{nexpr_of};
ghost use Rattle.fc_rows.specs.Shrinking.{cast_refl as spec_cast_refl};
ghost use Rattle.fc_rows.specs.Surroundings.{Surroundings};
ghost use Rattle.fc_type_table.specs.TypeTables.{Grows};
ghost use Rattle.fc_lint_context.specs.ContextViews.{IsContextOver, context_in, modules_of_context};

use fc_coercion::ends_of;
use fc_copies::nameless::copy_expr;
use fc_forms::as_cast;
use fc_lint_context::Context;
use fc_model::Flawed;
use fc_syntax::{Memory, NExpr};
use fc_type_table::TypeTable;
use std::alloc::Global;

/// A cast between equal types, as what is cast. Answers none where the expression is no such cast, or its coercion is refused. Fails only where memory runs out.
pub fn cast_refl(
    alloc: Global,
    e: &NExpr,
    types: &mut TypeTable,
    context: &Context,
) -> Result<Option<NExpr>, Memory>
    requires { IsContextOver types.old context.now }
    ensures view { (s : Surroundings) → s.context ≡ context_in types.old context.now → IfOk result (λ o. option_map nexpr_of o ≡ spec_cast_refl (modules_of_context context.now) s (nexpr_of e.now)) }
    ensures grows { OnOk result (Grows types.old types.new) }
{
    let Some(cast) = as_cast(e) else {
        return Ok(None);
    };
    match ends_of(alloc, cast.coercion, types, context) {
        Ok(ends) => {
            if types.same(ends.left, ends.right) {
                Ok(Some(copy_expr(alloc, cast.inner)?))
            } else {
                Ok(None)
            }
        }
        Err(Flawed::Memory) => Err(Memory),
        Err(Flawed::Flaw(_)) => Ok(None),
    }
}
