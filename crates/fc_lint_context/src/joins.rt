//! The join points in tail reach.
ghost use Rattle.std.specs.Prelude.{◌≡◌, List};
ghost use Rattle.fc_model.specs.Faulting.{at_distance};
ghost use Rattle.fc_model.specs.Typing.{answered};
ghost use Rattle.fc_lint_context.specs.JoinViews.{join_among, joins_behind, points_of};
ghost use Rattle.fc_lint_context.specs.declared.joins.JoinPoint as joined;

use fc_type_table::TypeId;

/// A join point.
#[derive(Clone, Copy)]
pub struct JoinPoint {
    /// How many parameters it has.
    pub arity: usize,
    /// Its type as a function of them.
    pub ty: TypeId,
    /// The written type of the join.
    pub answer: TypeId,
}

/// The join points in tail reach. They stand on the stack of the walk, as local variables do.
#[derive(Clone, Copy)]
pub enum Joins<'x> {
    /// None.
    End,
    /// Those that stand together, the last one the innermost, and those around them.
    Group(&'x [JoinPoint], &'x Joins<'x>),
}

/// The join point at a distance among some, the last of which is the innermost, or the distance that is left outside of them.
#[tactic(auto, using(crate::proofs::JoinPoints::point_rules))]
fn point_among(points: &[JoinPoint], distance: u32) -> Result<JoinPoint, u32>
    ensures { (outer : List joined.JoinPoint) → answered (at_distance (joins_behind points.now outer) distance) ≡ join_among result outer }
{
    let count = points.len();
    let place = distance as usize;
    if place < count {
        Ok(points[count - 1 - place])
    } else {
        Err((place - count) as u32)
    }
}

/// The join point at a distance.
pub(crate) fn join_at(joins: &Joins, distance: u32) -> Option<JoinPoint>
    ensures { result ≡ answered (at_distance (points_of joins.now) distance) }
{
    match joins {
        Joins::End => None,
        Joins::Group(points, rest) => match point_among(points, distance) {
            Ok(point) => Some(point),
            Err(left) => join_at(rest, left),
        },
    }
}
