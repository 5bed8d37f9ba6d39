//! Laws of sets: what logs of the modules of a set, one after the other, keep.
#![tactic(auto)]

ghost use Rattle.fc_set_types.specs.SetsReplayed.{ReplayedSetsKeepLint, TheSameAreHeaded, WrittenAreHeaded};

/// Modules in build order that lint as a set are replayed, each among what is told of those before it. Each then stands among these, it offers what it
/// did at the same types, with the same declarations of types. Each is headed anew, as it is written, and then holds against all of the new ones.
pub fn replayed_sets_keep_lint()
    ensures lint { ReplayedSetsKeepLint }
    ensures same { TheSameAreHeaded }
    ensures written { WrittenAreHeaded }
{}
