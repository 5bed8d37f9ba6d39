//! What the phases of a build make of a module.
#![tactic(auto)]

ghost use Rattle.fc_phases.specs.Optimising.{OptimisedAreReplayed};

/// The log of the phases of a build replays what they made.
pub fn optimised_are_replayed()
    ensures replayed { OptimisedAreReplayed }
{}
