//! What an alternative's constructor has as arguments: the types that its data type is at, and the alternative's binders.
ghost use Rattle.std.specs.Prelude.{◌≡◌, IfOk, OnOk};
ghost use Rattle.fc_model.specs.Calling.{type_arguments};
ghost use Rattle.fc_model.specs.Nameless.{NoNArgs};
ghost use Rattle.fc_model.specs.NamelessView.{narg_of, nargs_of, nbinder_of, nbinders_of, nty_of};
ghost use Rattle.fc_model.specs.Substituting.{raised_type};
ghost use Rattle.fc_rows.specs.Shrinking.{moved_args};
ghost use Rattle.fc_rows.specs.Surroundings.{as_arguments, types_as_arguments};
ghost use Rattle.fc_subst.specs.Replacements.{renaming_of};
ghost use Rattle.fc_known.specs.Counts.{counts};
ghost use Rattle.fc_lets_for_terms.specs.Naming.{before};
ghost use Rattle.fc_case_known.specs.Found.{arguments_there, as_argument, behind_binder};

use crate::arguments::past;
use fc_known::{Branch, counted};
use fc_subst::{NO_BINDERS, Replacement, Shift, substitute_in_type};
use fc_syntax::{Memory, NArg, NBinder, NCo, NExpr, NTy, Ref, Seq};
use std::alloc::Global;

/// A type past so many type variables.
fn raised(alloc: Global, t: &NTy, by: u32) -> Result<NTy, Memory>
    ensures { IfOk result (λ r. nty_of r ≡ raised_type by (nty_of t.now)) }
{
    let further_in = Replacement::Past(Shift {
        types: by,
        ..NO_BINDERS
    });
    substitute_in_type(alloc, t, &further_in)
}

/// Puts the types that the head of a type is applied to, past so many type variables, behind other arguments.
#[tactic(auto, using(fc_syntax::proofs::View::view_rules, crate::proofs::Parts::none_added))]
fn add_types(alloc: Global, t: &NTy, by: u32, args: &mut Seq<NArg>) -> Result<(), Memory>
    ensures { OnOk result (nargs_of args.new ≡ before (nargs_of args.old) (types_as_arguments by (type_arguments (nty_of t.now)) NoNArgs)) }
{
    match t {
        NTy::App(head, argument) => {
            add_types(alloc, head, by, args)?;
            let argument = raised(alloc, argument, by)?;
            args.push(NArg::OfType(argument))
        }
        NTy::Var(_) => Ok(()),
        NTy::Con(_) => Ok(()),
        NTy::IntHash => Ok(()),
        NTy::Fun(_, _) => Ok(()),
        NTy::Forall(_, _, _) => Ok(()),
        NTy::CoForall(_, _, _, _) => Ok(()),
    }
}

/// How many binders stand behind the first of so many.
fn behind(binder: &NBinder, left: Shift) -> Shift
    ensures { result ≡ behind_binder (nbinder_of binder.now) left }
{
    match binder {
        NBinder::Value(_, _) => Shift {
            values: left.values.saturating_sub(1),
            ..left
        },
        NBinder::OfType(_, _) => Shift {
            types: left.types.saturating_sub(1),
            ..left
        },
        NBinder::OfCo(_, _, _, _) => Shift {
            coercions: left.coercions.saturating_sub(1),
            ..left
        },
    }
}

/// The variable of a binder as an argument, where so many binders stand behind it.
#[tactic(auto, using(fc_syntax::proofs::View::view_rules))]
fn argument_of(binder: &NBinder, behind: Shift) -> NArg
    ensures { narg_of result ≡ as_argument (nbinder_of binder.now) behind }
{
    match binder {
        NBinder::Value(_, _) => NArg::Term(NExpr::Var(Ref::Local(behind.values))),
        NBinder::OfType(_, _) => NArg::OfType(NTy::Var(behind.types)),
        NBinder::OfCo(_, _, _, _) => NArg::OfCo(NCo::Var(behind.coercions)),
    }
}

/// Puts the variables of binders, of which there are so many, behind other arguments.
fn add_binders(binders: &[NBinder], own: Shift, args: &mut Seq<NArg>) -> Result<(), Memory>
    requires { own ≡ counts (nbinders_of binders.now) }
    ensures { OnOk result (nargs_of args.new ≡ before (nargs_of args.old) (as_arguments (nbinders_of binders.now))) }
{
    let mut left = own;
    for binder in binders {
        left = behind(binder, left);
        args.push(argument_of(binder, left))?;
    }
    Ok(())
}

/// The arguments of the constructor that an alternative is for, so many binders further in. Fails only where memory runs out, a distance or a number of parts has
/// no 32 bits, or calls would go 2^32 deep.
pub(crate) fn arguments_found(
    alloc: Global,
    branch: &Branch<'_>,
    by: Shift,
) -> Result<Seq<NArg>, Memory>
    ensures { IfOk result (λ r. nargs_of r ≡ moved_args (renaming_of by) (arguments_there branch.now)) }
{
    let binders = branch.alternative.binders.as_slice();
    let own = counted(binders)?;
    let mut args = Seq::new(alloc);
    add_types(alloc, branch.ty, own.types, &mut args)?;
    add_binders(binders, own, &mut args)?;
    past(alloc, args.as_slice(), by)
}
