//! The needs of parameters in a type.
ghost use Rattle.std.specs.Prelude.{◌≡◌, ◌+◌, ◌<◌, ℕ, nat_eq, if◌then◌else◌, length, get_or, IfOk, OnOk};
ghost use Rattle.fc_syntax.specs.declared.ty.Role.TheVariants.{P, R};
ghost use Rattle.fc_model.specs.NamelessView.{nparams_of, nty_of};
ghost use Rattle.fc_model.specs.Needs.{argument_roles, least, need_in, param_roles};
ghost use Rattle.fc_types.specs.ModuleViews.{modules_of};
ghost use Rattle.fc_roles.specs.NeedViews.{need_at};

use crate::arguments::{later_params, next_role, params_of_name};
use crate::needs::{Needs, note, role_within};
use fc_syntax::{Memory, NTy, Param, Role};
use fc_types::Declarations;
use std::alloc::Global;

/// One binder more, where the number can be told.
pub fn one_more(binders: u32) -> Result<u32, Memory>
    ensures { IfOk result (λ more. more ≡ binders + 1) }
{
    match binders.checked_add(1) {
        Some(more) => Ok(more),
        None => Err(Memory),
    }
}

/// Notes a type variable, below so many binders, at a role.
#[tactic(auto, using(crate::proofs::Roles::variable_rules))]
fn note_variable(needs: &mut [Role], distance: u32, binders: u32, role: Role)
    ensures length { length needs.new ≡ length needs.old }
    ensures noted { (i : ℕ) → i < length needs.new → get_or needs.new i P ≡ least (get_or needs.old i P) (if nat_eq (i + binders) distance then role else P) }
{
    if distance >= binders {
        note(needs, (distance - binders) as usize, role);
    }
}

/// Notes the parameters that occur in a type that stands at a role below so many binders; the parameters at whose roles the type takes
/// further arguments.
#[cycle(types)]
#[tactic(auto, using(fc_syntax::proofs::View::view_rules, crate::proofs::Roles::least_rules))]
pub fn note_type<'d>(
    t: &NTy,
    role: Role,
    binders: u32,
    declared: &'d Declarations,
    needs: &mut [Role],
) -> Result<&'d [Param], Memory>
    ensures length { length needs.new ≡ length needs.old }
    ensures noted { OnOk result ((i : ℕ) → i < length needs.new → get_or needs.new i P ≡ least (get_or needs.old i P) (need_in (modules_of declared.now) role (i + binders) (nty_of t.now))) }
    ensures roles { IfOk result (λ params. param_roles (nparams_of params.now) ≡ argument_roles (modules_of declared.now) (nty_of t.now)) }
{
    match t {
        NTy::Var(distance) => {
            note_variable(needs, *distance, binders, role);
            Ok(&[])
        }
        NTy::Con(name) => Ok(params_of_name(declared, name)),
        NTy::IntHash => Ok(&[]),
        NTy::App(head, argument) => {
            let params = note_type(head, role, binders, declared, needs)?;
            let inner = role_within(role, next_role(params));
            note_type(argument, inner, binders, declared, needs)?;
            Ok(later_params(params))
        }
        NTy::Fun(from, to) => {
            note_type(from, role, binders, declared, needs)?;
            note_type(to, role, binders, declared, needs)?;
            Ok(&[])
        }
        NTy::Forall(_, _, body) => {
            let inside = one_more(binders)?;
            note_type(body, role, inside, declared, needs)?;
            Ok(&[])
        }
        NTy::CoForall(at, left, right, body) => {
            let inner = role_within(role, *at);
            note_type(left, inner, binders, declared, needs)?;
            note_type(right, inner, binders, declared, needs)?;
            note_type(body, role, binders, declared, needs)?;
            Ok(&[])
        }
    }
}

/// The needs of so many parameters in the type of a newtype. Fails only where memory runs out.
#[tactic(auto, using(crate::proofs::Roles::start_rules))]
pub fn needs_of_type(
    alloc: Global,
    params: usize,
    t: &NTy,
    declared: &Declarations,
) -> Result<Needs, Memory>
    ensures { IfOk result (λ needs. (i : ℕ) → i < params → need_at needs i ≡ need_in (modules_of declared.now) R i (nty_of t.now)) }
{
    let mut needs = Needs::of_nothing(alloc, params)?;
    note_type(t, Role::R, 0, declared, needs.as_mut_slice())?;
    Ok(Needs::from_noted(needs))
}
