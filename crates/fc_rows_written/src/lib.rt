//! Rows keep what expressions are written as.
#![tactic(auto)]

ghost use Rattle.fc_rows_written.specs.RowsWritten.{RowsKeepWritten};

/// Each literal is in range, each alternative has binders of its own, and what is not recursive has one binder. Where this holds of the right
/// sides of a module and of its imports, it holds of those of what a row makes of the module.
pub fn rows_keep_written()
    ensures written { RowsKeepWritten }
{}
