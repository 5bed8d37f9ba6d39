//! The lines of a log that replays can be written.
#![tactic(auto)]

ghost use Rattle.fc_logs_formed.specs.LogsFormed.{LogsAreFormed, StepsAreFormed};

/// Of a formed module within the limits on results each step can be written in a log, and so can all lines of a log that replays from it.
pub fn logs_are_formed()
    ensures steps { StepsAreFormed }
    ensures logs { LogsAreFormed }
{}
