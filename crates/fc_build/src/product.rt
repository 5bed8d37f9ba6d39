//! Makes the files of the modules of a set, and writes them.
ghost use Rattle.std.specs.Prelude.{◌≡◌, ◌≤◌, ◌++◌, ◌∷◌, [], IfOk, map, slice_get, string_bytes};
ghost use Rattle.std.specs.List.{filter_map};
ghost use Rattle.fc_syntax.specs.View.{module_of};
ghost use Rattle.fc_model.specs.NamelessView.{nmodules_of};
ghost use Rattle.fc_lattice.specs.View.{as_interface};
ghost use Rattle.fc_words.specs.Asking.{order_of};
ghost use Rattle.fc_words.specs.Numbers.{IsWithinRanges};
ghost use Rattle.fc_build.specs.Delivering.{IsSameDevice, WritesAll, step_in, steps_in};
ghost use Rattle.fc_plan.specs.Modules.{behind};
ghost use Rattle.fc_reaching.specs.Numbering.{word_of};
ghost use Rattle.fc_build.specs.Judging.{IsReadySet, modules_in};
ghost use Rattle.fc_build.specs.Product as spec;
ghost use Rattle.fc_build.specs.Product.{core_output, interface_output, log_output, output_of, outputs};
ghost use Rattle.fc_build.specs.SetSteps.{AllAreMade, AreStepsMade, AreStepsOf, CanBeBuiltInOrder, step_made};

use crate::judge::Set;
use fc_files::{Files, WriteAnswer};
use fc_iface::print_interface;
use fc_lattice::Interface;
use fc_log::{Log, print};
use fc_plan::in_order;
use fc_printer::print_module;
use fc_product::{Product, make};
use fc_syntax::{Memory, Module, NModule, Seq, Text};
use fc_words::Command;
use std::alloc::{AllocError, Global};

/// A file to be written.
#[derive(Debug, Drop)]
pub struct File {
    /// Its name.
    pub name: String,
    /// All its bytes.
    pub text: Vec<u8>,
}

/// What is done for a module of an accepted set.
#[derive(Debug, Drop)]
pub struct Step {
    /// The files that are written, in this order.
    pub files: Vec<File>,
    /// What is put on the output when they stand: a line, or the lines of a log.
    pub line: Vec<u8>,
}

/// How the writing of a list of files ended.
#[derive(Clone, Copy)]
pub enum Written<'a> {
    /// All are written.
    All,
    /// The write of this name failed.
    FailedAt(&'a str),
    /// No memory was left at one of them.
    Memory,
}

/// The name of a module's file, behind the prefix.
fn file_name(alloc: Global, prefix: &str, name: &str, ending: &str) -> Result<String, AllocError>
    ensures { IfOk result (λ s. string_bytes s ≡ prefix.now ++ (name.now ++ ending.now)) }
{
    let mut text = String::from_str(alloc, prefix)?;
    text.push_str(name)?;
    text.push_str(ending)?;
    Ok(text)
}

/// The canonical text of a module, under its name.
fn core_file(alloc: Global, prefix: &str, m: &Module) -> Result<File, Memory>
    ensures { IfOk result (λ f. output_of f ≡ core_output prefix.now (module_of m.now)) }
{
    let name = file_name(alloc, prefix, m.name.as_str(), ".opt.fc")?;
    let text = print_module(alloc, m)?;
    Ok(File { name, text })
}

/// The interface of a module, under its name.
fn interface_file(
    alloc: Global,
    prefix: &str,
    m: &Module,
    interface: &Interface,
) -> Result<File, Memory>
    ensures { IfOk result (λ f. output_of f ≡ interface_output prefix.now (module_of m.now) (as_interface interface.now)) }
{
    let name = file_name(alloc, prefix, m.name.as_str(), ".fci")?;
    let text = print_interface(alloc, interface)?;
    Ok(File { name, text })
}

/// The log of a module, under its name.
fn log_file(alloc: Global, prefix: &str, m: &Module, log: &Log) -> Result<File, Memory>
    ensures { IfOk result (λ f. output_of f ≡ log_output prefix.now (module_of m.now) log.now) }
{
    let name = file_name(alloc, prefix, m.name.as_str(), ".why")?;
    let text = print(alloc, log)?;
    Ok(File { name, text })
}

/// The files of a module, in the order in which they are written.
fn files_of(
    alloc: Global,
    prefix: &str,
    m: &Module,
    interface: &Interface,
    log: &Log,
) -> Result<Vec<File>, Memory>
    ensures { IfOk result (λ files. outputs files.items ≡ core_output prefix.now (module_of m.now) ∷ interface_output prefix.now (module_of m.now) (as_interface interface.now) ∷ log_output prefix.now (module_of m.now) log.now ∷ []) }
{
    let core = core_file(alloc, prefix, m)?;
    let interface = interface_file(alloc, prefix, m, interface)?;
    let log = log_file(alloc, prefix, m, log)?;
    Ok(vec![in alloc; core, interface, log]?)
}

/// A line of a word and the name of a module.
fn line_of(alloc: Global, word: &str, name: &Text) -> Result<Vec<u8>, Memory>
    ensures { IfOk result (λ line. line.items ≡ word.now ++ (name.now ++ 10 ∷ [])) }
{
    let mut line = Vec::from_slice(alloc, word.as_bytes())?;
    line.extend_from_slice(name.as_str().as_bytes())?;
    line.push(b'\n')?;
    Ok(line)
}

/// What a build does for a module with its interface and its log.
fn built_step(
    alloc: Global,
    prefix: &str,
    m: &Module,
    interface: &Interface,
    log: &Log,
) -> Result<Step, Memory>
    ensures { IfOk result (λ s. step_in s ≡ spec.built_step prefix.now (module_of m.now) (as_interface interface.now) log.now) }
{
    let line = line_of(alloc, "built ", &m.name)?;
    let files = files_of(alloc, prefix, m, interface, log)?;
    Ok(Step { files, line })
}

/// What an explanation does for a module with its log.
fn explained_step(alloc: Global, log: &Log) -> Result<Step, Memory>
    ensures { IfOk result (λ s. step_in s ≡ spec.explained_step log.now) }
{
    let line = print(alloc, log)?;
    Ok(Step {
        files: Vec::new(alloc),
        line,
    })
}

/// What Lint does for a module.
fn linted_step(alloc: Global, m: &Module) -> Result<Step, Memory>
    ensures { IfOk result (λ s. step_in s ≡ spec.linted_step (module_of m.now)) }
{
    let line = line_of(alloc, "ok ", &m.name)?;
    Ok(Step {
        files: Vec::new(alloc),
        line,
    })
}

/// What is done with a module that is made, its interface and its log.
fn step_for(
    alloc: Global,
    command: Command<'_>,
    m: &Module,
    interface: &Interface,
    log: &Log,
) -> Result<Step, Memory>
    ensures { IfOk result (λ s. step_in s ≡ step_made (order_of command.entry) (module_of m.now) (as_interface interface.now) log.now) }
{
    match command {
        Command::Build(_, prefix) => built_step(alloc, prefix, m, interface, log),
        Command::Why(_) => explained_step(alloc, log),
        Command::Lint => linted_step(alloc, m),
    }
}

/// The names of modules.
fn names_of(alloc: Global, forms: &[NModule]) -> Result<Seq<Text>, Memory>
    ensures { IfOk result (λ names. names ≡ map word_of (nmodules_of forms.now)) }
{
    let mut names = Seq::new(alloc);
    for form in forms {
        names.push(form.name.copy(alloc)?)?;
    }
    Ok(names)
}

/// What is done with what is made of modules, given by their nameless forms, one after the other. Each is made against the interfaces of those before it, as they were just made.
fn made_steps(
    alloc: Global,
    command: Command<'_>,
    grow: u64,
    order: &[Text],
    forms: Vec<NModule>,
) -> Result<Vec<Step>, Memory>
    requires grow { grow ≤ 10000 }
    requires built { CanBeBuiltInOrder order.now [] (nmodules_of forms.items) }
    ensures { IfOk result (λ steps. AreStepsMade (order_of command.entry) grow order.now [] (nmodules_of forms.items) (steps_in steps.items)) }
{
    let mut before = Vec::new(alloc);
    let mut steps = Vec::new(alloc);
    for form in forms {
        let product = make(alloc, grow, order, before.as_slice(), form)?;
        let Product {
            module,
            interface,
            log,
            told,
        } = product;
        steps.push(step_for(alloc, command, &module, &interface, &log)?)?;
        before.insert(0, told)?;
    }
    Ok(steps)
}

/// What is done with what is made of the modules of an accepted set, in the order in which they are built. The modules as they were read are gone before any is made.
fn made(alloc: Global, command: Command<'_>, grow: u64, set: Set) -> Result<Vec<Step>, Memory>
    requires grow { grow ≤ 10000 }
    requires ready { IsReadySet set }
    ensures { IfOk result (λ steps. AllAreMade (order_of command.entry) grow (nmodules_of set.forms.items) (steps_in steps.items)) }
{
    let Set {
        modules,
        order: _,
        forms,
    } = set;
    drop(modules);
    let names = names_of(alloc, forms.as_slice())?;
    made_steps(alloc, command, grow, names.as_slice(), forms)
}

/// What Lint does for modules, one after the other.
fn linted_steps(alloc: Global, modules: &[&Module]) -> Result<Vec<Step>, Memory>
    ensures { IfOk result (λ steps. steps_in steps.items ≡ map spec.linted_step (behind modules.now)) }
{
    let mut steps = Vec::new(alloc);
    for m in modules {
        let step = linted_step(alloc, *m)?;
        steps.push(step)?;
    }
    Ok(steps)
}

/// What Lint does for each module of an accepted set, in the order in which they are built.
fn linted(alloc: Global, set: Set) -> Result<Vec<Step>, Memory>
    ensures { IfOk result (λ steps. steps_in steps.items ≡ map spec.linted_step (filter_map (slice_get (modules_in set)) set.order)) }
{
    let ordered = in_order(alloc, set.modules.as_slice(), set.order.as_slice())?;
    linted_steps(alloc, ordered.as_slice())
}

/// What is done for each module of an accepted set, in the order in which they are built.
pub(crate) fn steps_for(alloc: Global, command: Command<'_>, set: Set) -> Result<Vec<Step>, Memory>
    requires within { IsWithinRanges command }
    requires ready { IsReadySet set }
    ensures { IfOk result (λ steps. AreStepsOf (order_of command.entry) set (steps_in steps.items)) }
{
    match command {
        Command::Build(tuning, _) | Command::Why(tuning) => made(alloc, command, tuning.grow, set),
        Command::Lint => linted(alloc, set),
    }
}

/// Writes the files in order, up to the first write that fails.
pub(crate) fn write_all<'a, F: Files>(alloc: Global, files: &mut F, list: &'a [File]) -> Written<'a>
    ensures reads { F.read_faults files.new ≡ F.read_faults files.old }
    ensures later { F.write_faults files.old ≤ F.write_faults files.new }
    ensures writes { WritesAll result (outputs list.now) (F.held files.old) (F.held files.new) (F.write_faults files.old) (F.write_faults files.new) }
    ensures nothing { list.now ≡ [] → IsSameDevice (F.held files.old) (F.held files.new) (F.write_faults files.old) (F.write_faults files.new) }
{
    match list {
        [] => Written::All,
        [first, rest @ ..] => match files.write(alloc, first.name.as_str(), &first.text) {
            WriteAnswer::Failed => Written::FailedAt(first.name.as_str()),
            WriteAnswer::Memory => Written::Memory,
            WriteAnswer::Ok => write_all(alloc, files, rest),
        },
    }
}
