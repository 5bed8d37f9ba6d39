//! Rows keep nameless modules formed.
#![tactic(auto)]

ghost use Rattle.fc_rows_formed.specs.RowsFormed.{HeadedIsFormed, ReplaysKeepFormed, RowsKeepFormed, ToldIsFormed};

/// What a row or a log makes of a formed module among formed imports is formed; so is what is told of a formed module, and the module under its written header.
pub fn rows_keep_formed()
    ensures rows { RowsKeepFormed }
    ensures replays { ReplaysKeepFormed }
    ensures told { ToldIsFormed }
    ensures headed { HeadedIsFormed }
{}
