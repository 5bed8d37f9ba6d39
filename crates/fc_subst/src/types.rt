//! Types in place of the type variables of a type.
ghost use Rattle.std.specs.Prelude.{◌≡◌, ◌+◌, IfOk};
ghost use Rattle.fc_model.specs.Nameless.{NTVar};
ghost use Rattle.fc_model.specs.NamelessView.{nty_of};
ghost use Rattle.fc_model.specs.Substituting.{renamed_type, substituted_type, types_below};
ghost use Rattle.fc_subst.specs.Replacements.{lifted_of, replacement_of};

use crate::replacement::{Lifted, Replacement};
use crate::shift::{NO_BINDERS, Shift};
use fc_numbers::{deeper, sum};
use fc_syntax::{Memory, NTy, boxed_copy};
use std::alloc::Global;

/// A type variable.
#[tactic(auto, using(fc_syntax::proofs::View::view_rules))]
fn variable(number: u32) -> NTy
    ensures { nty_of result ≡ NTVar number }
{
    NTy::Var(number)
}

/// What stands for a type variable, past so many types more.
#[cycle(types)]
#[tactic(auto, using(fc_syntax::proofs::View::view_rules))]
fn type_at<'x>(
    alloc: Global,
    replacement: &'x Replacement<'x>,
    number: u32,
    past: Shift,
    fuel: u32,
) -> Result<NTy, Memory>
    ensures { IfOk result (λ t. nty_of t ≡ renamed_type (λ i. i + past.types) ((replacement_of replacement.now).types number)) }
{
    let fuel = deeper(fuel)?;
    match replacement {
        Replacement::Same => Ok(NTy::Var(sum(number, past.types)?)),
        Replacement::Past(by) => {
            let number = sum(number, by.types)?;
            Ok(NTy::Var(sum(number, past.types)?))
        }
        Replacement::Without(by) => {
            let number = number.saturating_sub(by.types);
            Ok(NTy::Var(sum(number, past.types)?))
        }
        Replacement::Value(_, rest) => type_at(alloc, rest, number, past, fuel),
        Replacement::Type(t, rest) => {
            if number == 0 {
                shifted_type(alloc, t, past, fuel)
            } else {
                type_at(alloc, rest, number - 1, past, fuel)
            }
        }
        Replacement::Coercion(_, rest) => type_at(alloc, rest, number, past, fuel),
    }
}

/// What stands for a type variable below binders.
#[cycle(types)]
fn type_for<'x>(alloc: Global, by: &'x Lifted<'x>, number: u32, fuel: u32) -> Result<NTy, Memory>
    ensures { IfOk result (λ t. nty_of t ≡ (lifted_of by.now).types number) }
{
    let fuel = deeper(fuel)?;
    let past = by.past;
    if number < past.types {
        Ok(variable(number))
    } else {
        type_at(alloc, by.replacement, number - past.types, past, fuel)
    }
}

/// A type past so many types more.
#[cycle(types)]
fn shifted_type(alloc: Global, t: &NTy, past: Shift, fuel: u32) -> Result<NTy, Memory>
    ensures { IfOk result (λ r. nty_of r ≡ renamed_type (λ i. i + past.types) (nty_of t.now)) }
{
    let fuel = deeper(fuel)?;
    let replacement = Replacement::Past(past);
    let by = Lifted {
        replacement: &replacement,
        past: NO_BINDERS,
    };
    type_with(alloc, t, &by, fuel)
}

/// A type below a binder of a type.
#[cycle(types)]
fn type_below<'x>(alloc: Global, t: &NTy, by: &'x Lifted<'x>, fuel: u32) -> Result<NTy, Memory>
    ensures { IfOk result (λ r. nty_of r ≡ substituted_type (types_below (lifted_of by.now).types) (nty_of t.now)) }
{
    let fuel = deeper(fuel)?;
    let below = by.below_type()?;
    type_with(alloc, t, &below, fuel)
}

/// A type with what stands in place of its variables.
#[cycle(types)]
#[tactic(auto, using(fc_syntax::proofs::View::view_rules))]
pub(crate) fn type_with<'x>(
    alloc: Global,
    t: &NTy,
    by: &'x Lifted<'x>,
    fuel: u32,
) -> Result<NTy, Memory>
    ensures { IfOk result (λ r. nty_of r ≡ substituted_type (lifted_of by.now).types (nty_of t.now)) }
{
    let fuel = deeper(fuel)?;
    match t {
        NTy::Var(number) => type_for(alloc, &*by, *number, fuel),
        NTy::Con(name) => Ok(NTy::Con(name.copy(alloc)?)),
        NTy::IntHash => Ok(NTy::IntHash),
        NTy::App(t, u) => {
            let t = boxed_copy(alloc, type_with(alloc, t, &*by, fuel))?;
            let u = boxed_copy(alloc, type_with(alloc, u, &*by, fuel))?;
            Ok(NTy::App(t, u))
        }
        NTy::Fun(t, u) => {
            let t = boxed_copy(alloc, type_with(alloc, t, &*by, fuel))?;
            let u = boxed_copy(alloc, type_with(alloc, u, &*by, fuel))?;
            Ok(NTy::Fun(t, u))
        }
        NTy::Forall(a, kind, body) => {
            let a = a.copy(alloc)?;
            let kind = kind.copy(alloc)?;
            let body = boxed_copy(alloc, type_below(alloc, body, &*by, fuel))?;
            Ok(NTy::Forall(a, kind, body))
        }
        NTy::CoForall(role, left, right, body) => {
            let left = boxed_copy(alloc, type_with(alloc, left, &*by, fuel))?;
            let right = boxed_copy(alloc, type_with(alloc, right, &*by, fuel))?;
            let body = boxed_copy(alloc, type_with(alloc, body, &*by, fuel))?;
            Ok(NTy::CoForall(*role, left, right, body))
        }
    }
}

/// A type with what stands in place of each of its variables. Fails only where memory runs out, a distance has no 32 bits,
/// or calls would go 2^32 deep.
pub fn substitute_in_type<'x>(
    alloc: Global,
    t: &NTy,
    replacement: &'x Replacement<'x>,
) -> Result<NTy, Memory>
    ensures { IfOk result (λ r. nty_of r ≡ substituted_type (replacement_of replacement.now).types (nty_of t.now)) }
{
    let by = Lifted {
        replacement: &*replacement,
        past: NO_BINDERS,
    };
    type_with(alloc, t, &by, u32::MAX)
}
