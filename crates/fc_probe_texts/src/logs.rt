//! Logs.
use fc_log::print;
use fc_probe_files::{File, NoAnswer, log_in};
use std::alloc::Global;

/// The text of the log of a file.
pub fn printed(alloc: Global, file: &File) -> Result<Vec<u8>, NoAnswer> {
    let log = log_in(alloc, file)?;
    Ok(print(alloc, &log)?)
}
