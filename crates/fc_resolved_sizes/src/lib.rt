//! What a module resolves to is as deep and as large as the module, and so is within the limits on results where that is within the limits on what is read.
#![tactic(auto)]

ghost use Rattle.fc_resolved_sizes.specs.ResolvedSizes.{ReadAreWithinLimits, ResolvedAreAsLarge};

/// What a module resolves to has declarations as deep as those of the module, each in its place, and as large together. So what was read within its limits
/// resolves to a module within those on results.
pub fn resolved_sizes_are_kept()
    ensures as_large { ResolvedAreAsLarge }
    ensures within { ReadAreWithinLimits }
{}
