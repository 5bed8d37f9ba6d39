//! Laws of the rewrite table: shrinking and commuting rows make no module grow, and they come to an end.
#![tactic(auto)]

ghost use Rattle.fc_row_ends.specs.Ending.{NoEndlessSteps};
ghost use Rattle.fc_row_ends.specs.Growth.{ReplaysRaiseNoNodes, RowsRaiseNoNodes};

/// What a step of a shrinking or a commuting row leaves of a module has no more nodes than the module, whether it lints or not.
pub fn rows_raise_no_nodes()
    ensures rows { RowsRaiseNoNodes }
{}

/// What the steps of a log leave of a module has no more nodes than the module: there are steps of shrinking and commuting rows alone yet.
pub fn replays_raise_no_nodes()
    ensures replays { ReplaysRaiseNoNodes }
{}

/// Steps of shrinking and commuting rows, one after the other, come to an end, whatever the module is and whether it lints or not.
pub fn rows_come_to_an_end()
    ensures rows { NoEndlessSteps }
{}
