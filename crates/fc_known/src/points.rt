//! What is known of a join point.
ghost use Rattle.std.specs.Prelude.{◌≡◌, ◌<◌, ℕ, IfOk, length};
ghost use Rattle.fc_model.specs.Kinding.{Modules};
ghost use Rattle.fc_model.specs.NamelessView.{njoins_of};
ghost use Rattle.fc_rows.specs.Surroundings.{Point, moved_point, points_in_group};
ghost use Rattle.fc_subst.specs.Replacements.{renaming_of};
ghost use Rattle.fc_known.specs.Around.{HasCounts, surroundings_of};
ghost use Rattle.fc_known.specs.ToldOfPoints.{point_told};

use crate::around::Around;
use crate::counts::both;
use crate::knowing::values;
use fc_numbers::{number, sum};
use fc_subst::{NO_BINDERS, Shift};
use fc_syntax::{Memory, NJoinBind};

/// What is known of a join point.
#[derive(Clone, Copy)]
pub enum KnownPoint<'x> {
    /// Nothing: no join point is in tail reach there, or it is recursive.
    Nothing,
    /// Its parameters and its right side, which stand so many binders further out.
    Bound(&'x NJoinBind, Shift),
}

impl<'x> KnownPoint<'x> {
    /// The same behind so many binders more. Fails where their number has no 32 bits; this is answered as out of memory.
    fn past(self, by: Shift) -> Result<KnownPoint<'x>, Memory>
        ensures { IfOk result (λ p. point_told p ≡ moved_point (renaming_of by) (point_told self.entry)) }
    {
        match self {
            KnownPoint::Nothing => Ok(KnownPoint::Nothing),
            KnownPoint::Bound(point, own) => Ok(KnownPoint::Bound(point, both(own, by)?)),
        }
    }
}

/// So many join points.
fn joins(count: u32) -> Shift
    ensures { result ≡ record { types = 0; coercions = 0; values = 0; joins = count } }
{
    Shift {
        joins: count,
        ..NO_BINDERS
    }
}

/// What is known of the join point at a distance among those of a group.
fn point_among<'x>(
    recursive: bool,
    points: &'x [NJoinBind],
    count: u32,
    distance: u32,
) -> KnownPoint<'x>
    requires count { count ≡ length points.now }
    requires distance { distance < count }
    ensures { (f : ℕ → Point) → point_told result ≡ points_in_group recursive count (njoins_of points.now) f distance }
{
    let point = &points[count as usize - 1 - distance as usize];
    if recursive {
        KnownPoint::Nothing
    } else {
        KnownPoint::Bound(point, joins(count))
    }
}

/// What is known of the join point at a distance. Fails only where a number of binders has no 32 bits; this is answered as out of memory.
pub fn known_point<'x>(around: &'x Around<'x>, distance: u32) -> Result<KnownPoint<'x>, Memory>
    requires { HasCounts around.now }
    ensures { (ms : Modules) → IfOk result (λ p. point_told p ≡ (surroundings_of ms around.now).points distance) }
{
    match around {
        Around::Outside => Ok(KnownPoint::Nothing),
        Around::Binders(_, own, outer) => known_point(outer, distance)?.past(*own),
        Around::Group(_, bindings, outer) => {
            let count = number(bindings.len())?;
            known_point(outer, distance)?.past(values(count))
        }
        Around::Joins(recursive, _, points, outer) => {
            let count = number(points.len())?;
            if distance < count {
                Ok(point_among(*recursive, points, count, distance))
            } else {
                known_point(outer, distance - count)?.past(joins(count))
            }
        }
        Around::Alternative(branch, outer) => {
            let values = sum(branch.own.values, 1)?;
            known_point(outer, distance)?.past(Shift {
                values,
                ..branch.own
            })
        }
        Around::Apart(_) => Ok(KnownPoint::Nothing),
        Around::Head(_, _) => Ok(KnownPoint::Nothing),
        Around::Unapplied(outer) => known_point(outer, distance),
    }
}
