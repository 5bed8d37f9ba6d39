//! Arguments in place of the binders that they are given for.
ghost use Rattle.std.specs.Prelude.{◌≡◌, IfOk};
ghost use Rattle.fc_model.specs.NamelessView.{nargs_of, nexpr_of};
ghost use Rattle.fc_model.specs.Replacing.{replaced, with_arguments};
ghost use Rattle.fc_subst.specs.Replacements.{replacement_of};

use crate::expressions::substitute;
use crate::replacement::Replacement;
use fc_syntax::{Memory, NArg, NExpr};
use std::alloc::Global;

/// An expression with arguments in place of the innermost binders, which stand together, the last one innermost; `replacement` says what stands in place of the
/// variables outside of these. Fails only where memory runs out, a distance or a number of parts has no 32 bits, or calls would go 2^32 deep.
pub fn substitute_arguments<'x>(
    alloc: Global,
    args: &'x [NArg],
    e: &NExpr,
    replacement: &'x Replacement<'x>,
) -> Result<NExpr, Memory>
    ensures { IfOk result (λ r. nexpr_of r ≡ replaced (with_arguments (nargs_of args.now) (replacement_of replacement.now)) (nexpr_of e.now)) }
{
    match args.split_first() {
        None => substitute(alloc, e, &*replacement),
        Some((NArg::Term(a), rest)) => {
            let with = Replacement::Value(a, &*replacement);
            substitute_arguments(alloc, rest, e, &with)
        }
        Some((NArg::OfType(t), rest)) => {
            let with = Replacement::Type(t, &*replacement);
            substitute_arguments(alloc, rest, e, &with)
        }
        Some((NArg::OfCo(g), rest)) => {
            let with = Replacement::Coercion(g, &*replacement);
            substitute_arguments(alloc, rest, e, &with)
        }
    }
}
