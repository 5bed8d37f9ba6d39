//! Arguments beside binders and by the variables of lets.
ghost use Rattle.std.specs.Prelude.{◌≡◌, IfOk};
ghost use Rattle.fc_model.specs.NamelessView.{narg_of, nargs_of, nbinder_of, nbinders_of};
ghost use Rattle.fc_rows.specs.Shrinking.{named_arguments as spec_named_arguments, pair_with, term_count as spec_term_count};
ghost use Rattle.fc_lets_for_terms.specs.Naming.{is_same_sort, named_argument, terms_in};

use fc_copies::nameless::copy_arg;
use fc_numbers::sum;
use fc_syntax::{Memory, NArg, NBinder, NExpr, Ref, Seq};
use std::alloc::Global;

/// How many terms an argument is.
fn terms_of(argument: &NArg) -> u32
    ensures { result ≡ terms_in (narg_of argument.now) }
{
    match argument {
        NArg::Term(_) => 1,
        NArg::OfType(_) => 0,
        NArg::OfCo(_) => 0,
    }
}

/// How many terms are among arguments. Fails where their number has no 32 bits; this is answered as out of memory.
pub fn term_count(args: &[NArg]) -> Result<u32, Memory>
    ensures { IfOk result (λ n. n ≡ spec_term_count (nargs_of args.now)) }
{
    let mut count = 0;
    for argument in args {
        count = sum(count, terms_of(argument))?;
    }
    Ok(count)
}

/// An argument that has so many terms behind it, where a term stands for the variable of its let.
#[tactic(auto, using(fc_syntax::proofs::View::view_rules))]
fn named(alloc: Global, argument: &NArg, behind: u32) -> Result<NArg, Memory>
    ensures { IfOk result (λ a. narg_of a ≡ named_argument behind (narg_of argument.now)) }
{
    match argument {
        NArg::Term(_) => Ok(NArg::Term(NExpr::Var(Ref::Local(behind)))),
        NArg::OfType(_) => copy_arg(alloc, argument),
        NArg::OfCo(_) => copy_arg(alloc, argument),
    }
}

/// Arguments behind a let for each term among them, with the variable of its let for each term. Fails only where memory runs out, or the number of
/// terms has no 32 bits.
pub fn named_arguments(alloc: Global, args: &[NArg]) -> Result<Seq<NArg>, Memory>
    ensures { IfOk result (λ r. nargs_of r ≡ spec_named_arguments (nargs_of args.now)) }
{
    let mut behind = term_count(args)?;
    let mut all = Seq::new(alloc);
    for argument in args {
        behind -= terms_of(argument);
        all.push(named(alloc, argument, behind)?)?;
    }
    Ok(all)
}

/// Whether an argument is of the sort of a binder: a term, a type or a coercion.
fn fits(binder: &NBinder, argument: &NArg) -> bool
    ensures { result ≡ is_same_sort (nbinder_of binder.now) (narg_of argument.now) }
{
    match (binder, argument) {
        (NBinder::Value(_, _), NArg::Term(_)) => true,
        (NBinder::OfType(_, _), NArg::OfType(_)) => true,
        (NBinder::OfCo(_, _, _, _), NArg::OfCo(_)) => true,
        _ => false,
    }
}

/// Whether arguments agree with binders in number and in being terms, types and coercions.
pub fn pairs_with(binders: &[NBinder], args: &[NArg]) -> bool
    ensures { result ≡ pair_with (nbinders_of binders.now) (nargs_of args.now) }
{
    if binders.len() != args.len() {
        return false;
    }
    for (place, argument) in args.iter().enumerate() {
        if !fits(&binders[place], argument) {
            return false;
        }
    }
    true
}
