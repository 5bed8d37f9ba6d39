//! What stands in place of the variables of parts of an expression.
ghost use Rattle.std.specs.Prelude.{◌≡◌, IfOk};
ghost use Rattle.fc_model.specs.NamelessView.{nalts_of, narg_of, nargs_of};
ghost use Rattle.fc_model.specs.Replacing.{below_values, expressions, put_in_alts, put_in_arg, put_in_args, whole_coercions};
ghost use Rattle.fc_subst.specs.Replacements.{replacement_of};

use crate::expressions::{alternatives_with, argument_with, arguments_with};
use crate::replacement::{Lifted, Replacement};
use crate::shift::{NO_BINDERS, Shift};
use fc_syntax::{Memory, NAlt, NArg, Seq};
use std::alloc::Global;

/// An argument with what stands in place of each of its variables. Fails only where memory runs out, a distance or a number of parts has no 32 bits, or calls
/// would go 2^32 deep.
pub fn substitute_in_argument<'x>(
    alloc: Global,
    argument: &NArg,
    replacement: &'x Replacement<'x>,
) -> Result<NArg, Memory>
    ensures { IfOk result (λ r. narg_of r ≡ put_in_arg expressions whole_coercions (replacement_of replacement.now) (narg_of argument.now)) }
{
    let by = Lifted {
        replacement: &*replacement,
        past: NO_BINDERS,
    };
    argument_with(alloc, argument, &by, u32::MAX)
}

/// Arguments with what stands in place of each of their variables. Fails only where memory runs out, a distance or a number of parts has no 32 bits, or calls
/// would go 2^32 deep.
pub fn substitute_in_arguments<'x>(
    alloc: Global,
    arguments: &[NArg],
    replacement: &'x Replacement<'x>,
) -> Result<Seq<NArg>, Memory>
    ensures { IfOk result (λ r. nargs_of r ≡ put_in_args expressions whole_coercions (replacement_of replacement.now) (nargs_of arguments.now)) }
{
    let by = Lifted {
        replacement: &*replacement,
        past: NO_BINDERS,
    };
    arguments_with(alloc, arguments, &by, u32::MAX)
}

/// Alternatives that stand below so many binders of values, which stay, with what stands in place of each variable outside of these. Fails only where memory
/// runs out, a distance or a number of parts has no 32 bits, or calls would go 2^32 deep.
pub fn substitute_in_alternatives<'x>(
    alloc: Global,
    alternatives: &[NAlt],
    below: u32,
    replacement: &'x Replacement<'x>,
) -> Result<Seq<NAlt>, Memory>
    ensures { IfOk result (λ r. nalts_of r ≡ put_in_alts expressions whole_coercions (below_values expressions whole_coercions below (replacement_of replacement.now)) (nalts_of alternatives.now)) }
{
    let by = Lifted {
        replacement: &*replacement,
        past: Shift {
            values: below,
            ..NO_BINDERS
        },
    };
    alternatives_with(alloc, alternatives, &by, u32::MAX)
}
