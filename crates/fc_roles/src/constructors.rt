//! The needs of parameters in constructors.
ghost use Rattle.std.specs.Prelude.{◌≡◌, ◌+◌, ◌<◌, ℕ, length, get_or, IfOk, OnOk};
ghost use Rattle.fc_syntax.specs.declared.ty.Role.TheVariants.{P};
ghost use Rattle.fc_model.specs.NamelessView.{nbinder_of, nbinders_of, ncons_of, ntys_of};
ghost use Rattle.fc_model.specs.Needs.{least, need_in_con, need_in_cons, need_in_fields};
ghost use Rattle.fc_types.specs.ModuleViews.{modules_of};
ghost use Rattle.fc_roles.specs.NeedViews.{distance_behind, need_at, need_in_binder};

use crate::needs::Needs;
use crate::types::{note_type, one_more};
use fc_syntax::{Memory, NBinder, NConDecl, NTy, Role};
use fc_types::Declarations;
use std::alloc::Global;

/// Notes the parameters that occur in fields below so many binders.
#[tactic(auto, using(crate::proofs::Roles::least_rules))]
fn note_fields(
    fields: &[NTy],
    binders: u32,
    declared: &Declarations,
    needs: &mut [Role],
) -> Result<(), Memory>
    ensures length { length needs.new ≡ length needs.old }
    ensures noted { OnOk result ((i : ℕ) → i < length needs.new → get_or needs.new i P ≡ least (get_or needs.old i P) (need_in_fields (modules_of declared.now) (i + binders) (ntys_of fields.now))) }
{
    for field in fields {
        note_type(field, Role::R, binders, declared, needs)?;
    }
    Ok(())
}

/// Notes the parameters that occur in a binder of a constructor below so many binders; the number of binders behind it.
#[tactic(auto, using(crate::proofs::Roles::least_rules))]
fn note_binder(
    binder: &NBinder,
    binders: u32,
    declared: &Declarations,
    needs: &mut [Role],
) -> Result<u32, Memory>
    ensures length { length needs.new ≡ length needs.old }
    ensures noted { OnOk result ((i : ℕ) → i < length needs.new → get_or needs.new i P ≡ least (get_or needs.old i P) (need_in_binder (modules_of declared.now) (i + binders) (nbinder_of binder.now))) }
    ensures behind { IfOk result (λ more. more ≡ distance_behind (nbinder_of binder.now) binders) }
{
    match binder {
        NBinder::Value(_, t) => {
            note_type(t, Role::R, binders, declared, needs)?;
            Ok(binders)
        }
        NBinder::OfType(_, _) => one_more(binders),
        NBinder::OfCo(_, role, left, right) => {
            note_type(left, *role, binders, declared, needs)?;
            note_type(right, *role, binders, declared, needs)?;
            Ok(binders)
        }
    }
}

/// Notes the parameters that occur in a constructor.
#[tactic(auto, using(crate::proofs::Roles::binder_rules))]
fn note_constructor(
    con: &NConDecl,
    declared: &Declarations,
    needs: &mut [Role],
) -> Result<(), Memory>
    ensures length { length needs.new ≡ length needs.old }
    ensures noted { OnOk result ((i : ℕ) → i < length needs.new → get_or needs.new i P ≡ least (get_or needs.old i P) (need_in_con (modules_of declared.now) i (nbinders_of con.now.binders) (ntys_of con.now.fields))) }
{
    let mut binders = 0u32;
    for binder in con.binders.as_slice() {
        binders = note_binder(binder, binders, declared, needs)?;
    }
    note_fields(con.fields.as_slice(), binders, declared, needs)
}

/// Notes the parameters that occur in constructors.
#[tactic(auto, using(crate::proofs::Roles::least_rules))]
fn note_constructors(
    cons: &[NConDecl],
    declared: &Declarations,
    needs: &mut [Role],
) -> Result<(), Memory>
    ensures length { length needs.new ≡ length needs.old }
    ensures noted { OnOk result ((i : ℕ) → i < length needs.new → get_or needs.new i P ≡ least (get_or needs.old i P) (need_in_cons (modules_of declared.now) i (ncons_of cons.now))) }
{
    for con in cons {
        note_constructor(con, declared, needs)?;
    }
    Ok(())
}

/// The needs of so many parameters in the constructors of a data type. Fails only where memory runs out.
#[tactic(auto, using(crate::proofs::Roles::start_rules))]
pub fn needs_of_constructors(
    alloc: Global,
    params: usize,
    cons: &[NConDecl],
    declared: &Declarations,
) -> Result<Needs, Memory>
    ensures { IfOk result (λ needs. (i : ℕ) → i < params → need_at needs i ≡ need_in_cons (modules_of declared.now) i (ncons_of cons.now)) }
{
    let mut needs = Needs::of_nothing(alloc, params)?;
    note_constructors(cons, declared, needs.as_mut_slice())?;
    Ok(Needs::from_noted(needs))
}
