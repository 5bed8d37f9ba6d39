//! The arguments of constructors, and literals.
ghost use Rattle.std.specs.Prelude.{◌≡◌, IfOk};
ghost use Rattle.fc_model.specs.NamelessView.{nargs_of, nexpr_of, nparams_of};
ghost use Rattle.fc_rows.specs.Shrinking.{moved_args, without_first};
ghost use Rattle.fc_subst.specs.Replacements.{renaming_of};
ghost use Rattle.fc_case_known.specs.Literals.{literal_in};

use fc_subst::{Replacement, Shift, substitute_in_arguments};
use fc_syntax::{Memory, NArg, NExpr, Param, Seq};
use std::alloc::Global;

/// The number where an expression is a literal.
#[tactic(auto, using(fc_syntax::proofs::View::view_rules))]
pub(crate) fn as_literal(e: &NExpr) -> Option<i64>
    ensures { result ≡ literal_in (nexpr_of e.now) }
{
    match e {
        NExpr::Lit(n) => Some(*n),
        _ => None,
    }
}

/// Arguments past so many binders more. Fails only where memory runs out, a distance or a number of parts has no 32 bits, or calls would go 2^32 deep.
pub(crate) fn past(alloc: Global, args: &[NArg], by: Shift) -> Result<Seq<NArg>, Memory>
    ensures { IfOk result (λ r. nargs_of r ≡ moved_args (renaming_of by) (nargs_of args.now)) }
{
    let further_in = Replacement::Past(by);
    substitute_in_arguments(alloc, args, &further_in)
}

/// The arguments of a constructor behind those for the parameters of its data type.
pub(crate) fn behind_parameters<'a>(args: &'a [NArg], params: &[Param]) -> &'a [NArg]
    ensures { nargs_of result.now ≡ without_first (nparams_of params.now) (nargs_of args.now) }
{
    if params.len() > args.len() {
        &args[args.len()..]
    } else {
        &args[params.len()..]
    }
}
