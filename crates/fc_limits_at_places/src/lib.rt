//! What another part at a place does to the depth and the size of the whole, and so when a module that is changed at a place keeps within the limits on results.
#![tactic(auto)]

ghost use Rattle.fc_limits_at_places.specs.Fitting.{KeepsWithinLimits};

/// A module that is within the limits on results keeps within them, where a row makes something of the part at a place, exactly if what the row makes is no deeper
/// there and no larger than there is room for.
pub fn keeps_within_limits()
    ensures within { KeepsWithinLimits }
{}
