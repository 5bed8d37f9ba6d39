//! What the coercion variables in scope prove.
ghost use Rattle.std.specs.Prelude.{◌≡◌, List};
ghost use Rattle.fc_model.specs.Faulting.{at_distance};
ghost use Rattle.fc_model.specs.Says.{Says};
ghost use Rattle.fc_type_scope.specs.declared.ends.Ends as proven;
ghost use Rattle.fc_lint_context.specs.CoercionViews.{ends_behind, proven_among, proven_of};

use fc_model::{Flawed, flaw_here};
use fc_syntax::FaultKind;
use fc_type_scope::Ends;
use std::alloc::Global;

/// What the coercion variables in scope prove. They stand on the stack of the walk, as local variables do.
#[derive(Clone, Copy)]
pub enum Coercions<'x> {
    /// None.
    End,
    /// Those that stand together, the last one the innermost, and those around them.
    Group(&'x [Ends], &'x Coercions<'x>),
}

/// What the variable at a distance proves among some, the last of which is the innermost, or the distance that is left outside of them.
#[tactic(auto, using(crate::proofs::Coerced::coerced_rules))]
fn ends_among(group: &[Ends], distance: u32) -> Result<Ends, u32>
    ensures { (outer : List proven.Ends) → at_distance (ends_behind group.now outer) distance ≡ proven_among result outer }
{
    let count = group.len();
    let place = distance as usize;
    if place < count {
        Ok(group[count - 1 - place])
    } else {
        Err((place - count) as u32)
    }
}

/// What the coercion variable at a distance proves.
pub(crate) fn ends_at(alloc: Global, coercions: &Coercions, distance: u32) -> Result<Ends, Flawed>
    ensures { Says (λ e. e) result (at_distance (proven_of coercions.now) distance) }
{
    match coercions {
        Coercions::End => Err(flaw_here(alloc, FaultKind::Unbound)),
        Coercions::Group(group, rest) => match ends_among(group, distance) {
            Ok(ends) => Ok(ends),
            Err(left) => ends_at(alloc, rest, left),
        },
    }
}
