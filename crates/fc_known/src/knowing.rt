//! What is known of a variable.
ghost use Rattle.std.specs.Prelude.{◌≡◌, ◌<◌, ◌||◌, ℕ, IfOk, if◌then◌else◌, length, nat_eq};
ghost use Rattle.std.specs.Option.{option_map};
ghost use Rattle.fc_model.specs.Kinding.{Modules};
ghost use Rattle.fc_model.specs.NamelessView.{nbinders_of, nbinds_of, nexpr_of};
ghost use Rattle.fc_rows.specs.Surroundings.{Known, known_definition, known_in_group, moved_known};
ghost use Rattle.fc_subst.specs.Replacements.{renaming_of};
ghost use Rattle.fc_known.specs.Around.{HasCounts, behind_alternative, surroundings_of};
ghost use Rattle.fc_known.specs.Counts.{counts};
ghost use Rattle.fc_known.specs.Told.{is_it, is_named, right_side, told};

use crate::around::{Around, Branch};
use crate::counts::both;
use fc_numbers::{number, sum};
use fc_subst::{NO_BINDERS, Shift};
use fc_syntax::{Memory, NBind, NExpr, Name, Ref};
use fc_types::same_name;

/// What is known of a variable of a value.
#[derive(Clone, Copy)]
pub enum Fact<'x> {
    /// Nothing.
    Nothing,
    /// It is bound to this expression, so many binders further out. Where that is no value, nothing is known.
    Bound(&'x NExpr, Shift),
    /// It is looked at by a case, of which this is the alternative, so many binders further out.
    Found(Branch<'x>, Shift),
}

impl<'x> Fact<'x> {
    /// The same behind so many binders more. Fails where their number has no 32 bits; this is answered as out of memory.
    fn past(self, by: Shift) -> Result<Fact<'x>, Memory>
        ensures { IfOk result (λ f. told f ≡ moved_known (renaming_of by) (told self.entry)) }
    {
        match self {
            Fact::Nothing => Ok(Fact::Nothing),
            Fact::Bound(e, own) => Ok(Fact::Bound(e, both(own, by)?)),
            Fact::Found(branch, own) => Ok(Fact::Found(branch, both(own, by)?)),
        }
    }
}

/// So many binders of values.
pub(crate) fn values(count: u32) -> Shift
    ensures { result ≡ record { types = 0; coercions = 0; values = count; joins = 0 } }
{
    Shift {
        values: count,
        ..NO_BINDERS
    }
}

/// How much further out the right sides of a group of so many stand than its body.
fn past_group(recursive: bool, count: u32) -> Shift
    ensures { result ≡ (if recursive then record { types = 0; coercions = 0; values = 0; joins = 0 } else record { types = 0; coercions = 0; values = count; joins = 0 }) }
{
    if recursive { NO_BINDERS } else { values(count) }
}

/// What is known of the variable at a distance among those of a group. The right sides of a group that is recursive stand behind its variables.
fn known_among<'x>(recursive: bool, bindings: &'x [NBind], count: u32, distance: u32) -> Fact<'x>
    requires count { count ≡ length bindings.now }
    requires distance { distance < count }
    ensures { (f : ℕ → Known) → told result ≡ known_in_group recursive count (nbinds_of bindings.now) f distance }
{
    let binding = &bindings[count as usize - 1 - distance as usize];
    Fact::Bound(&binding.rhs, past_group(recursive, count))
}

/// Whether an expression, from so many values further out, is the variable at a distance.
#[tactic(auto, using(fc_syntax::proofs::View::view_rules))]
fn is_variable(e: &NExpr, out: u32, distance: u32) -> bool
    ensures { result ≡ is_it (nexpr_of e.now) out distance }
{
    match e {
        NExpr::Var(Ref::Local(other)) => distance >= out && distance - out == *other,
        _ => false,
    }
}

/// What is known of the variable of a value at a distance. Fails only where a number of binders has no 32 bits; this is answered as out of memory.
#[cycle(knowing)]
pub fn known<'x>(around: &'x Around<'x>, distance: u32) -> Result<Fact<'x>, Memory>
    requires { HasCounts around.now }
    ensures { (ms : Modules) → IfOk result (λ f. told f ≡ (surroundings_of ms around.now).locals distance) }
{
    match around {
        Around::Outside => Ok(Fact::Nothing),
        Around::Binders(_, own, outer) => {
            if distance < own.values {
                Ok(Fact::Nothing)
            } else {
                known(outer, distance - own.values)?.past(*own)
            }
        }
        Around::Group(recursive, bindings, outer) => {
            let count = number(bindings.len())?;
            if distance < count {
                Ok(known_among(*recursive, bindings, count, distance))
            } else {
                known(outer, distance - count)?.past(values(count))
            }
        }
        Around::Joins(_, _, points, outer) => {
            let joins = number(points.len())?;
            known(outer, distance)?.past(Shift {
                joins,
                ..NO_BINDERS
            })
        }
        Around::Alternative(branch, outer) => known_inside(branch, outer, distance),
        Around::Apart(outer) => known(outer, distance),
        Around::Head(_, outer) => known(outer, distance),
        Around::Unapplied(outer) => known(outer, distance),
    }
}

/// Whether the variable at a distance is the binder of a case or what the case looks at, from so many values further out.
fn is_looked_at(branch: &Branch, out: u32, distance: u32) -> bool
    ensures { result ≡ (nat_eq distance branch.now.own.values || is_it (nexpr_of branch.now.scrutinee.now) out distance) }
{
    distance == branch.own.values || is_variable(branch.scrutinee, out, distance)
}

/// What is known of it in an alternative, of which its case binder and the variable that the case looks at are what it is for.
#[cycle(knowing)]
fn known_inside<'x>(
    branch: &'x Branch<'x>,
    outer: &'x Around<'x>,
    distance: u32,
) -> Result<Fact<'x>, Memory>
    requires own { branch.now.own ≡ counts (nbinders_of branch.now.alternative.now.binders) }
    requires outer { HasCounts outer.now }
    ensures { (ms : Modules) → IfOk result (λ f. told f ≡ (behind_alternative branch.now (surroundings_of ms outer.now)).locals distance) }
{
    let values = sum(branch.own.values, 1)?;
    if is_looked_at(branch, values, distance) {
        Ok(Fact::Found(*branch, NO_BINDERS))
    } else if distance < values {
        Ok(Fact::Nothing)
    } else {
        known(outer, distance - values)?.past(Shift {
            values,
            ..branch.own
        })
    }
}

/// Whether an expression is a top-level name.
#[tactic(auto, using(fc_syntax::proofs::View::view_rules))]
fn is_name(e: &NExpr, name: &Name) -> bool
    ensures { result ≡ is_named (nexpr_of e.now) name.now }
{
    match e {
        NExpr::Var(Ref::Top(other)) => same_name(name, other),
        _ => false,
    }
}

/// What is known of a top-level name, whose definition has this right side where it has one that is told: what an alternative is for tells more than that. Fails only
/// where a number of binders has no 32 bits; this is answered as out of memory.
pub fn known_name<'x>(
    around: &'x Around<'x>,
    name: &Name,
    definition: Option<&'x NExpr>,
) -> Result<Fact<'x>, Memory>
    requires { HasCounts around.now }
    ensures { (ms : Modules) → right_side (option_map (λ e. nexpr_of e.now) definition.entry) ≡ known_definition (ms name.now.module) name.now.text → IfOk result (λ f. told f ≡ (surroundings_of ms around.now).names name.now) }
{
    match around {
        Around::Outside => match definition {
            None => Ok(Fact::Nothing),
            Some(e) => Ok(Fact::Bound(e, NO_BINDERS)),
        },
        Around::Binders(_, own, outer) => known_name(outer, name, definition)?.past(*own),
        Around::Group(_, bindings, outer) => {
            let count = number(bindings.len())?;
            known_name(outer, name, definition)?.past(values(count))
        }
        Around::Joins(_, _, points, outer) => {
            let joins = number(points.len())?;
            known_name(outer, name, definition)?.past(Shift {
                joins,
                ..NO_BINDERS
            })
        }
        Around::Alternative(branch, outer) => {
            if is_name(branch.scrutinee, name) {
                return Ok(Fact::Found(*branch, NO_BINDERS));
            }
            let values = sum(branch.own.values, 1)?;
            known_name(outer, name, definition)?.past(Shift {
                values,
                ..branch.own
            })
        }
        Around::Apart(outer) => known_name(outer, name, definition),
        Around::Head(_, outer) => known_name(outer, name, definition),
        Around::Unapplied(outer) => known_name(outer, name, definition),
    }
}
