//! One step of the rewrite table on a module.
use fc_apply::{apply, is_run};
use fc_iface::interface;
use fc_log::{Entry, Log, read as read_log};
use fc_probe_files::{File, NoAnswer, form_in, form_of, line, module_in};
use fc_probe_forms::names::named;
use fc_reaching::recursive;
use fc_syntax::{Limits, NModule};
use std::alloc::Global;

/// How many nodes a right side may have that is told of an import.
const GROW: u64 = 300;

/// The log that has one line behind its head.
fn log_of(alloc: Global, step: &str) -> Result<Log, NoAnswer> {
    let text = format!(in alloc; "log 1 M\n{step}\n")?;
    let bytes = text.as_bytes();
    if bytes.len() > Limits::standard().file_bytes as usize {
        return Err(NoAnswer::Usage);
    }
    match read_log(alloc, "STEP", bytes) {
        Ok(log) => Ok(log),
        Err(_) => Err(NoAnswer::Usage),
    }
}

/// The nameless form of the module in a file, as its interface tells it.
fn told_in(alloc: Global, file: &File) -> Result<NModule, NoAnswer> {
    let module = module_in(alloc, file)?;
    let form = form_of(alloc, &module)?;
    let marks = recursive(alloc, &form)?;
    let told = interface(alloc, &module, marks.as_slice(), &[], GROW)?;
    form_of(alloc, &told.module)
}

/// The nameless form of the module in the last of some files, and then those of the others as their interfaces tell them.
pub(crate) fn modules_in(alloc: Global, files: &[File]) -> Result<Vec<NModule>, NoAnswer> {
    let Some((last, others)) = files.split_last() else {
        return Err(NoAnswer::Usage);
    };
    let mut modules = Vec::new(alloc);
    modules.push(form_in(alloc, last)?)?;
    for file in others {
        modules.push(told_in(alloc, file)?)?;
    }
    Ok(modules)
}

/// What the last module of some files is named back to after a step, which a line of a log says, or `none` where the step is not taken. The others are those that it imports, as
/// their interfaces tell them.
pub fn applied(alloc: Global, files: &[File], step: &str) -> Result<Vec<u8>, NoAnswer> {
    let log = log_of(alloc, step)?;
    let [Entry::Step(step)] = log.entries.as_slice() else {
        return Err(NoAnswer::Usage);
    };
    if !is_run(step.row) {
        return Err(NoAnswer::Usage);
    }
    let mut modules = modules_in(alloc, files)?;
    if apply(alloc, modules.as_mut_slice(), step)? {
        Ok(named(alloc, &modules[0])?)
    } else {
        Ok(line(alloc, "none")?)
    }
}
