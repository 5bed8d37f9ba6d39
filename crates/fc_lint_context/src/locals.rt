//! The types of the local variables in scope.
ghost use Rattle.std.specs.Prelude.{◌≡◌, List};
ghost use Rattle.fc_model.specs.Faulting.{at_distance};
ghost use Rattle.fc_model.specs.Says.{Says};
ghost use Rattle.fc_type_table.specs.declared.node.TypeId as ids;
ghost use Rattle.fc_lint_context.specs.LocalViews.{behind, found_among, numbers_of};

use fc_model::{Flawed, flaw_here};
use fc_syntax::FaultKind;
use fc_type_table::TypeId;
use std::alloc::Global;

/// The types of the local variables in scope. They stand on the stack of the walk, so a binder's variable ends with its scope.
#[derive(Clone, Copy)]
pub enum Locals<'x> {
    /// None.
    End,
    /// That of the innermost one, and those around it.
    Value(TypeId, &'x Locals<'x>),
    /// Those of variables that stand together, the last one the innermost, and those around them.
    Group(&'x [TypeId], &'x Locals<'x>),
}

/// The type at a distance among types, the last of which is the innermost, or the distance that is left outside of them.
#[tactic(auto, using(crate::proofs::LocalTypes::type_rules))]
fn type_among(types: &[TypeId], distance: u32) -> Result<TypeId, u32>
    ensures { (outer : List ids.TypeId) → at_distance (behind types.now outer) distance ≡ found_among result outer }
{
    let count = types.len();
    let place = distance as usize;
    if place < count {
        Ok(types[count - 1 - place])
    } else {
        Err((place - count) as u32)
    }
}

/// The type of the local variable at a distance.
pub(crate) fn local_type(alloc: Global, locals: &Locals, distance: u32) -> Result<TypeId, Flawed>
    ensures { Says (λ id. id) result (at_distance (numbers_of locals.now) distance) }
{
    match locals {
        Locals::End => Err(flaw_here(alloc, FaultKind::Unbound)),
        Locals::Value(t, rest) => {
            if distance == 0 {
                Ok(*t)
            } else {
                local_type(alloc, rest, distance - 1)
            }
        }
        Locals::Group(types, rest) => match type_among(types, distance) {
            Ok(t) => Ok(t),
            Err(left) => local_type(alloc, rest, left),
        },
    }
}
