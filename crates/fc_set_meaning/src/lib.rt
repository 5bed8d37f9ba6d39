//! Laws of sets: what logs of the modules of a set, one after the other, keep of what its program shows.
#![tactic(auto)]

ghost use Rattle.fc_set_meaning.specs.SetMeaning.{MainExpressionsShowTheSame, ReplayedSetsKeepMeaning};

/// Modules in build order that lint as a set, and whose right sides are written, are replayed, each among what is told of those before it, and headed anew. Each closed
/// term over what they offer shows the same in the program of what is left; each main expression over their exports is one over those of what is left.
pub fn replayed_sets_keep_meaning()
    ensures meaning { ReplayedSetsKeepMeaning }
    ensures main { MainExpressionsShowTheSame }
{}
