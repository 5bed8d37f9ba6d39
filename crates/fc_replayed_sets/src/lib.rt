//! Modules that are made of those of a set, with the logs of what was done to them, are faithful to it.
#![tactic(auto)]

ghost use Rattle.fc_replayed_sets.specs.Faithful.{ReplayedSetsAreFaithful, ReplaysCanBeWritten};

/// What logs leave of the modules of a set that lints can be written, and what is written lints, offers the same, and shows the same.
pub fn replayed_sets_are_faithful()
    ensures written { ReplaysCanBeWritten }
    ensures faithful { ReplayedSetsAreFaithful }
{}
