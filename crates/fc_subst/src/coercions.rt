//! Coercions in place of the coercion variables of a coercion, and types in place of its type variables.
ghost use Rattle.std.specs.Prelude.{◌≡◌, IfOk};
ghost use Rattle.fc_syntax.specs.View.{kind_of};
ghost use Rattle.fc_model.specs.Nameless.{NGAll, NGVar};
ghost use Rattle.fc_model.specs.NamelessView.{nco_of, ncos_of};
ghost use Rattle.fc_model.specs.Replacing.{put_in_coercions, renamed_coercion, replaced_coercion, whole_coercions};
ghost use Rattle.fc_model.specs.Substituting.{types_below};
ghost use Rattle.fc_subst.specs.Replacements.{lifted_of, past_coercions, past_types, replacement_of};

use crate::replacement::{Lifted, Replacement};
use crate::shift::{NO_BINDERS, Shift};
use crate::types::type_with;
use fc_numbers::{deeper, sum};
use fc_syntax::{Kind, Memory, NCo, Seq, Text, boxed_copy};
use std::alloc::Global;

/// A coercion variable.
#[tactic(auto, using(fc_syntax::proofs::View::view_rules))]
fn variable(number: u32) -> NCo
    ensures { nco_of result ≡ NGVar number }
{
    NCo::Var(number)
}

/// What stands for a coercion variable, past so many types and coercions more.
#[cycle(coercions)]
#[tactic(auto, using(fc_syntax::proofs::View::view_rules))]
fn coercion_at<'x>(
    alloc: Global,
    replacement: &'x Replacement<'x>,
    number: u32,
    past: Shift,
    fuel: u32,
) -> Result<NCo, Memory>
    ensures { IfOk result (λ g. nco_of g ≡ renamed_coercion (past_types past) (past_coercions past) ((replacement_of replacement.now).coercions number)) }
{
    let fuel = deeper(fuel)?;
    match replacement {
        Replacement::Same => Ok(NCo::Var(sum(number, past.coercions)?)),
        Replacement::Past(by) => {
            let number = sum(number, by.coercions)?;
            Ok(NCo::Var(sum(number, past.coercions)?))
        }
        Replacement::Without(by) => {
            let number = number.saturating_sub(by.coercions);
            Ok(NCo::Var(sum(number, past.coercions)?))
        }
        Replacement::Value(_, rest) => coercion_at(alloc, rest, number, past, fuel),
        Replacement::Type(_, rest) => coercion_at(alloc, rest, number, past, fuel),
        Replacement::Coercion(g, rest) => {
            if number == 0 {
                shifted_coercion(alloc, g, past, fuel)
            } else {
                coercion_at(alloc, rest, number - 1, past, fuel)
            }
        }
    }
}

/// What stands for a coercion variable below binders.
#[cycle(coercions)]
fn coercion_for<'x>(
    alloc: Global,
    by: &'x Lifted<'x>,
    number: u32,
    fuel: u32,
) -> Result<NCo, Memory>
    ensures { IfOk result (λ g. nco_of g ≡ (lifted_of by.now).coercions number) }
{
    let fuel = deeper(fuel)?;
    let past = by.past;
    if number < past.coercions {
        Ok(variable(number))
    } else {
        coercion_at(alloc, by.replacement, number - past.coercions, past, fuel)
    }
}

/// A coercion past so many types and coercions more.
#[cycle(coercions)]
fn shifted_coercion(alloc: Global, g: &NCo, past: Shift, fuel: u32) -> Result<NCo, Memory>
    ensures { IfOk result (λ r. nco_of r ≡ renamed_coercion (past_types past) (past_coercions past) (nco_of g.now)) }
{
    let fuel = deeper(fuel)?;
    let replacement = Replacement::Past(past);
    let by = Lifted {
        replacement: &replacement,
        past: NO_BINDERS,
    };
    coercion_with(alloc, g, &by, fuel)
}

/// A coercion between two types that begin with `forall`.
#[cycle(coercions)]
fn for_all_with<'x>(
    alloc: Global,
    a: &Text,
    kind: &Kind,
    g: &NCo,
    by: &'x Lifted<'x>,
    fuel: u32,
) -> Result<NCo, Memory>
    ensures { IfOk result (λ r. nco_of r ≡ replaced_coercion (lifted_of by.now).types (lifted_of by.now).coercions (NGAll (kind_of kind.now) (nco_of g.now))) }
{
    let fuel = deeper(fuel)?;
    let a = a.copy(alloc)?;
    let kind = kind.copy(alloc)?;
    let g = coercion_below(alloc, g, &*by, fuel)?;
    NCo::for_all(alloc, a, kind, g)
}

/// A coercion below a binder of a type.
#[cycle(coercions)]
fn coercion_below<'x>(alloc: Global, g: &NCo, by: &'x Lifted<'x>, fuel: u32) -> Result<NCo, Memory>
    ensures { IfOk result (λ r. nco_of r ≡ replaced_coercion (types_below (lifted_of by.now).types) (λ i. whole_coercions.past_type ((lifted_of by.now).coercions i)) (nco_of g.now)) }
{
    let fuel = deeper(fuel)?;
    let below = by.below_type()?;
    coercion_with(alloc, g, &below, fuel)
}

/// A coercion with what stands in place of its variables.
#[cycle(coercions)]
#[tactic(auto, using(fc_syntax::proofs::View::view_rules))]
pub(crate) fn coercion_with<'x>(
    alloc: Global,
    g: &NCo,
    by: &'x Lifted<'x>,
    fuel: u32,
) -> Result<NCo, Memory>
    ensures { IfOk result (λ r. nco_of r ≡ replaced_coercion (lifted_of by.now).types (lifted_of by.now).coercions (nco_of g.now)) }
{
    let fuel = deeper(fuel)?;
    match g {
        NCo::Var(number) => coercion_for(alloc, &*by, *number, fuel),
        NCo::Refl(role, t) => {
            let t = type_with(alloc, t, &*by, fuel)?;
            Ok(NCo::Refl(*role, t))
        }
        NCo::Sym(g) => {
            let g = boxed_copy(alloc, coercion_with(alloc, g, &*by, fuel))?;
            Ok(NCo::Sym(g))
        }
        NCo::Trans(g, h) => {
            let g = boxed_copy(alloc, coercion_with(alloc, g, &*by, fuel))?;
            let h = boxed_copy(alloc, coercion_with(alloc, h, &*by, fuel))?;
            Ok(NCo::Trans(g, h))
        }
        NCo::Tc(role, name, parts) => {
            let name = name.copy(alloc)?;
            let parts = coercions_with(alloc, parts.as_slice(), &*by, fuel)?;
            Ok(NCo::Tc(*role, name, parts))
        }
        NCo::Capp(g, h) => {
            let g = boxed_copy(alloc, coercion_with(alloc, g, &*by, fuel))?;
            let h = boxed_copy(alloc, coercion_with(alloc, h, &*by, fuel))?;
            Ok(NCo::Capp(g, h))
        }
        NCo::FunCo(g, h) => {
            let g = boxed_copy(alloc, coercion_with(alloc, g, &*by, fuel))?;
            let h = boxed_copy(alloc, coercion_with(alloc, h, &*by, fuel))?;
            Ok(NCo::FunCo(g, h))
        }
        NCo::AllCo(a, kind, g) => for_all_with(alloc, a, kind, g, &*by, fuel),
        NCo::CoAllCo(role, ends, g, h, k) => {
            let g = boxed_copy(alloc, coercion_with(alloc, g, &*by, fuel))?;
            let h = boxed_copy(alloc, coercion_with(alloc, h, &*by, fuel))?;
            let k = boxed_copy(alloc, coercion_with(alloc, k, &*by, fuel))?;
            Ok(NCo::CoAllCo(*role, *ends, g, h, k))
        }
        NCo::Inst(g, h) => {
            let g = boxed_copy(alloc, coercion_with(alloc, g, &*by, fuel))?;
            let h = boxed_copy(alloc, coercion_with(alloc, h, &*by, fuel))?;
            Ok(NCo::Inst(g, h))
        }
        NCo::Nth(number, g) => {
            let g = boxed_copy(alloc, coercion_with(alloc, g, &*by, fuel))?;
            Ok(NCo::Nth(*number, g))
        }
        NCo::Left(g) => {
            let g = boxed_copy(alloc, coercion_with(alloc, g, &*by, fuel))?;
            Ok(NCo::Left(g))
        }
        NCo::Right(g) => {
            let g = boxed_copy(alloc, coercion_with(alloc, g, &*by, fuel))?;
            Ok(NCo::Right(g))
        }
        NCo::Sub(g) => {
            let g = boxed_copy(alloc, coercion_with(alloc, g, &*by, fuel))?;
            Ok(NCo::Sub(g))
        }
        NCo::Ax(name, parts) => {
            let name = name.copy(alloc)?;
            let parts = coercions_with(alloc, parts.as_slice(), &*by, fuel)?;
            Ok(NCo::Ax(name, parts))
        }
        NCo::Univ(left, right) => {
            let left = type_with(alloc, left, &*by, fuel)?;
            let right = type_with(alloc, right, &*by, fuel)?;
            Ok(NCo::Univ(left, right))
        }
    }
}

/// Coercions with what stands in place of their variables.
#[cycle(coercions)]
#[tactic(auto, using(crate::proofs::Lists::cos_step))]
fn coercions_with<'x>(
    alloc: Global,
    items: &[NCo],
    by: &'x Lifted<'x>,
    fuel: u32,
) -> Result<Seq<NCo>, Memory>
    ensures { IfOk result (λ s. ncos_of s ≡ put_in_coercions whole_coercions (lifted_of by.now).types (lifted_of by.now).coercions (ncos_of items.now)) }
{
    let fuel = deeper(fuel)?;
    let mut all = Seq::new(alloc);
    for x in items {
        all.push(coercion_with(alloc, x, &*by, fuel)?)?;
    }
    Ok(all)
}

/// A coercion with what stands in place of each of its variables, those of its types among them. Fails only where memory runs out, a distance has no 32
/// bits, or calls would go 2^32 deep.
pub fn substitute_in_coercion<'x>(
    alloc: Global,
    g: &NCo,
    replacement: &'x Replacement<'x>,
) -> Result<NCo, Memory>
    ensures { IfOk result (λ r. nco_of r ≡ replaced_coercion (replacement_of replacement.now).types (replacement_of replacement.now).coercions (nco_of g.now)) }
{
    let by = Lifted {
        replacement: &*replacement,
        past: NO_BINDERS,
    };
    coercion_with(alloc, g, &by, u32::MAX)
}
