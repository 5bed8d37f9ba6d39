//! When modules lint as a set, by their nameless forms.
#![tactic(auto)]

ghost use Rattle.fc_written_sets.specs.WrittenSets.{WrittenSetsLint};

/// Modules whose nameless forms hold against all of these, and tell others all that they declare, lint as a set.
pub fn written_sets_lint()
    ensures lint { WrittenSetsLint }
{}
