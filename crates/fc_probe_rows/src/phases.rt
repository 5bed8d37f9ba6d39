//! The simplify phase on a module.
use crate::steps::modules_in;
use fc_log::{Log, print};
use fc_probe_files::{File, NoAnswer};
use fc_probe_forms::names::named;
use fc_result_limits::is_within_limits;
use fc_simplify::simplify;
use fc_syntax::Seq;
use std::alloc::Global;

/// What simplifying makes of the last module of some files, named back, and behind it the log. The others are those that it imports, as their interfaces tell them.
pub fn simplified(alloc: Global, files: &[File]) -> Result<Vec<u8>, NoAnswer> {
    let mut modules = modules_in(alloc, files)?;
    let Some(first) = modules.first() else {
        return Err(NoAnswer::Usage);
    };
    if !is_within_limits(first)? {
        return Err(NoAnswer::Usage);
    }
    let mut log = Log {
        module: first.name.copy(alloc)?,
        entries: Seq::new(alloc),
    };
    simplify(alloc, modules.as_mut_slice(), &mut log.entries)?;
    let mut told = named(alloc, &modules[0])?;
    told.extend_from_slice(print(alloc, &log)?.as_slice())?;
    Ok(told)
}
