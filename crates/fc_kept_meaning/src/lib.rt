//! The law that a rewrite of a module keeps what programs show that hold the module.
#![tactic(auto)]

ghost use Rattle.fc_kept_meaning.specs.FairImports.{FairImportsTellTruth};
ghost use Rattle.fc_kept_meaning.specs.KeptMeaningLaws.{RewritesAreTyped, RewritesKeepMeaning};
ghost use Rattle.fc_kept_meaning.specs.MeaningKept.{DeadTaken, KeepsMeaning};

/// Where both sides of a rewrite have types, the sorts of its parts are those that it needs.
pub fn typing_gives_the_sorts()
    ensures typed { RewritesAreTyped }
{}

/// Imports that are fair for a program tell its right sides.
pub fn fair_imports_tell_truth()
    ensures told { FairImportsTellTruth }
{}

/// A module that lints, whose imports tell the right sides of a program that holds it, may be replaced by what a rewrite makes of it: each closed
/// sorted term that may be asked of the program shows the same.
pub fn rewrites_keep_meaning()
    // One part of one right side is rewritten, with what holds of names before and after.
    ensures parts { RewritesKeepMeaning }
    // Definitions that nothing reaches are taken away.
    ensures dead { KeepsMeaning DeadTaken }
{}
