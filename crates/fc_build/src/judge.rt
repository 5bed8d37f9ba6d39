//! Reads the files of a set and judges them.
ghost use Rattle.std.specs.Prelude.{◌≡◌, ◌≤◌, None, Some, IfOk, IfErr, IfSome, length, map, reverse, slice_get};
ghost use Rattle.std.specs.List.{All};
ghost use Rattle.fc_files.specs.Outside.{Rose};
ghost use Rattle.fc_syntax.specs.Limits.{standard_limits};
ghost use Rattle.fc_syntax.specs.View.{module_of};
ghost use Rattle.fc_model.specs.Formed.{IsFormed};
ghost use Rattle.fc_load.specs.Loading.{IsWithinReadLimits};
ghost use Rattle.fc_model.specs.Planning.{build_order, of_file as fault_of_file, plan_fault};
ghost use Rattle.fc_build.specs.Acceptance.{of_module as fault_of_module};
ghost use Rattle.fc_build.specs.Judging.{IsOfFiles, IsReadFault, IsReadyAnswer, Judges, JudgesSet};

use fc_files::Files;
use fc_lint_set::{SetFlawed, lint_set};
use fc_load::{Loaded, load};
use fc_model::Flaw;
use fc_plan::plan;
use fc_syntax::{Fault, FaultKind, Limits, Memory, Module, NModule, Place, Refusal, Seq, Text};
use std::alloc::Global;

/// The modules of a set that lints.
#[derive(Drop)]
pub struct Set {
    /// In the order of their files.
    pub modules: Vec<Module>,
    /// The order in which they are built: each by its number in the set, counted from 0.
    pub order: Seq<usize>,
    /// Their nameless forms, in the order in which they are built.
    pub forms: Vec<NModule>,
}

/// What the files of a set are.
#[derive(Drop)]
pub enum Judged<'a> {
    /// A set that lints.
    Accepted(Set),
    /// No accepted set, and its first fault.
    Refused(Fault),
    /// The read of this file failed; those before it hold modules.
    ReadFault(&'a str),
    /// Out of memory.
    Memory,
}

/// A fault of a file, in no declaration.
fn of_file(alloc: Global, kind: FaultKind, file: &str, path: Place) -> Result<Fault, Memory>
    ensures { IfOk result (λ f. f ≡ fault_of_file kind file.now path) }
{
    let module = Text::from_str(alloc, file)?;
    Ok(Fault {
        kind,
        module,
        def: None,
        path,
    })
}

/// The numbers, as a list of the project's own.
fn listed(alloc: Global, numbers: &[u32]) -> Result<Seq<u32>, Memory>
    ensures { IfOk result (λ s. s ≡ numbers.now) }
{
    let mut all = Seq::new(alloc);
    for n in numbers {
        all.push(*n)?;
    }
    Ok(all)
}

/// The numbers in the other order.
fn reversed(alloc: Global, numbers: &[u32]) -> Result<Seq<u32>, Memory>
    ensures { IfOk result (λ s. s ≡ reverse numbers.now) }
{
    let backwards: Vec<u32> = numbers.iter().rev().copied().collect(alloc)?;
    listed(alloc, backwards.as_slice())
}

/// A premise that fails in the module of this name, with the parts on the way to its piece, the outermost first.
fn of_module(alloc: Global, name: Text, flaw: Flaw) -> Result<Fault, Memory>
    ensures { IfOk result (λ f. f ≡ fault_of_module name flaw.kind flaw.def (reverse flaw.path)) }
{
    let Flaw { kind, def, path } = flaw;
    let path = reversed(alloc, path.as_slice())?;
    Ok(Fault {
        kind,
        module: name,
        def,
        path: Place::Parts(path),
    })
}

/// The answer for a fault, or where no memory is left to tell it.
fn refused<'a>(fault: Result<Fault, Memory>) -> Judged<'a>
    ensures told { IfOk fault (λ f. result ≡ Judged.Refused f) }
    ensures untold { IfErr fault (λ _. result ≡ Judged.Memory) }
{
    match fault {
        Ok(fault) => Judged::Refused(fault),
        Err(Memory) => Judged::Memory,
    }
}

/// Judges each module of a set, in the order in which they are built, and against all of them.
fn judge_in_order<'a>(alloc: Global, modules: Vec<Module>, order: Seq<usize>) -> Judged<'a>
    requires formed { All IsFormed (map module_of modules.items) }
    requires within { All IsWithinReadLimits (map module_of modules.items) }
    requires planned { plan_fault (map module_of modules.items) ≡ None }
    requires order { map (slice_get (map module_of modules.items)) order ≡ map Some (build_order (map module_of modules.items)) }
    ensures judged { JudgesSet (map module_of modules.items) result }
    ensures ready { IsReadyAnswer result }
{
    match lint_set(alloc, modules.as_slice(), order.as_slice()) {
        Ok(forms) => Judged::Accepted(Set {
            modules,
            order,
            forms,
        }),
        Err(SetFlawed::Flaw(name, flaw)) => refused(of_module(alloc, name, flaw)),
        Err(SetFlawed::Memory) => Judged::Memory,
    }
}

/// Judges modules that were read: the set as a whole, and then every premise of Lint.
fn judge_set<'a>(alloc: Global, modules: Vec<Module>) -> Judged<'a>
    requires formed { All IsFormed (map module_of modules.items) }
    requires within { All IsWithinReadLimits (map module_of modules.items) }
    ensures judged { JudgesSet (map module_of modules.items) result }
    ensures ready { IsReadyAnswer result }
{
    match plan(alloc, modules.as_slice()) {
        Ok(order) => judge_in_order(alloc, modules, order),
        Err(Refusal::Fault(fault)) => Judged::Refused(fault),
        Err(Refusal::Memory) => Judged::Memory,
    }
}

/// Reads the files of a set, which are no more than a set may have modules, and judges what they hold.
fn judge_files<'a, F: Files>(alloc: Global, files: &mut F, names: &[&'a str]) -> Judged<'a>
    requires { length names.now ≤ standard_limits.modules }
    ensures held { F.held files.new ≡ F.held files.old }
    ensures writes { F.write_faults files.new ≡ F.write_faults files.old }
    ensures reads { F.read_faults files.old ≤ F.read_faults files.new }
    ensures cause { IsReadFault result → Rose (F.read_faults files.old) (F.read_faults files.new) }
    ensures answer { IfSome (F.held files.old) (λ m. Judges (map (λ s. s.now) names.now) m result) }
    ensures of_files { IsOfFiles (map (λ s. s.now) names.now) result }
    ensures ready { IsReadyAnswer result }
{
    match load(alloc, files, names) {
        Loaded::Modules(modules) => judge_set(alloc, modules),
        Loaded::Refused(fault) => Judged::Refused(fault),
        Loaded::ReadFault(name) => Judged::ReadFault(name),
        Loaded::Memory => Judged::Memory,
    }
}

/// Reads the files of a set and judges what they hold. A file too many is told before any is read.
pub(crate) fn judge<'a, F: Files>(alloc: Global, files: &mut F, names: &[&'a str]) -> Judged<'a>
    ensures held { F.held files.new ≡ F.held files.old }
    ensures writes { F.write_faults files.new ≡ F.write_faults files.old }
    ensures reads { F.read_faults files.old ≤ F.read_faults files.new }
    ensures cause { IsReadFault result → Rose (F.read_faults files.old) (F.read_faults files.new) }
    ensures answer { IfSome (F.held files.old) (λ m. Judges (map (λ s. s.now) names.now) m result) }
    ensures of_files { IsOfFiles (map (λ s. s.now) names.now) result }
    ensures ready { IsReadyAnswer result }
{
    match names.get(Limits::standard().modules as usize) {
        None => judge_files(alloc, files, names),
        Some(name) => refused(of_file(alloc, FaultKind::TooManyModules, *name, Place::Nowhere)),
    }
}
