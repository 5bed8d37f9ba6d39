//! Groups of bindings and of join points that go.
ghost use Rattle.std.specs.Prelude.{◌≡◌, IfOk};
ghost use Rattle.std.specs.Option.{option_map};
ghost use Rattle.fc_model.specs.NamelessView.{nexpr_of};
ghost use Rattle.fc_model.specs.Replacing.{renamed};
ghost use Rattle.fc_rows.specs.Shrinking.{before_joins, before_values, join_dead as spec_join_dead, let_dead as spec_let_dead};

use fc_forms::{as_binding, as_joining};
use fc_numbers::number;
use fc_occur::{jumps_to_innermost, occurrences_of_innermost};
use fc_rows::Occurrence;
use fc_subst::{NO_BINDERS, Replacement, Shift, substitute};
use fc_syntax::{Memory, NExpr};
use std::alloc::Global;

/// An expression without so many of its innermost values, none of which occurs. Fails only where memory runs out, a distance or a number of parts has no 32
/// bits, or calls would go 2^32 deep.
fn without_values(alloc: Global, e: &NExpr, count: u32) -> Result<NExpr, Memory>
    ensures { IfOk result (λ r. nexpr_of r ≡ renamed (before_values count) (nexpr_of e.now)) }
{
    let without = Replacement::Without(Shift {
        values: count,
        ..NO_BINDERS
    });
    substitute(alloc, e, &without)
}

/// An expression without so many of its innermost join points, to none of which it jumps. Fails only where memory runs out, a distance or a number of parts has
/// no 32 bits, or calls would go 2^32 deep.
pub fn without_joins(alloc: Global, e: &NExpr, count: u32) -> Result<NExpr, Memory>
    ensures { IfOk result (λ r. nexpr_of r ≡ renamed (before_joins count) (nexpr_of e.now)) }
{
    let without = Replacement::Without(Shift {
        joins: count,
        ..NO_BINDERS
    });
    substitute(alloc, e, &without)
}

/// A let none of whose variables occurs in its body, as the body alone. Answers none where the expression is no such let. Fails only where memory runs out, a
/// distance or a number of parts has no 32 bits, or calls would go 2^32 deep.
pub fn let_dead(alloc: Global, e: &NExpr) -> Result<Option<NExpr>, Memory>
    ensures { IfOk result (λ o. option_map nexpr_of o ≡ spec_let_dead (nexpr_of e.now)) }
{
    let Some(binding) = as_binding(e) else {
        return Ok(None);
    };
    let count = number(binding.bindings.len())?;
    match occurrences_of_innermost(binding.body, count)? {
        Occurrence::Dead => Ok(Some(without_values(alloc, binding.body, count)?)),
        _ => Ok(None),
    }
}

/// Join points to none of which the body jumps, as the body alone. Answers none where the expression has no such join points. Fails only where memory runs out, a
/// distance or a number of parts has no 32 bits, or calls would go 2^32 deep.
pub fn join_dead(alloc: Global, e: &NExpr) -> Result<Option<NExpr>, Memory>
    ensures { IfOk result (λ o. option_map nexpr_of o ≡ spec_join_dead (nexpr_of e.now)) }
{
    let Some(joining) = as_joining(e) else {
        return Ok(None);
    };
    let count = number(joining.points.len())?;
    match jumps_to_innermost(joining.body, count)? {
        Occurrence::Dead => Ok(Some(without_joins(alloc, joining.body, count)?)),
        _ => Ok(None),
    }
}
