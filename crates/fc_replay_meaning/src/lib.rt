//! The law that the steps of a log, one after the other, keep what programs show.
#![tactic(auto)]

ghost use Rattle.fc_replay_meaning.specs.ReplaysMeaning.{ReplaysKeepMeaning};

/// What a log makes of a module that stands among its imports shows the same as the module in each program that holds it and of which its imports tell right sides, if all
/// right sides are written.
pub fn replays_keep_meaning()
    ensures replays { ReplaysKeepMeaning }
{}
