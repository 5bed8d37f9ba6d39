//! Laws of logs: what their steps, one after the other, keep.
#![tactic(auto)]

ghost use Rattle.fc_replay_types.specs.ReplaysKept.{ReplaysKeepLint};

/// What the steps of a log make of a module that stands among its imports stands among them, under the same header, and what others may use of it is of its old type.
pub fn replays_keep_lint()
    ensures lint { ReplaysKeepLint }
{}
