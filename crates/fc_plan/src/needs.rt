//! The numbers of the modules that each module of a set imports.
ghost use Rattle.std.specs.Prelude.{◌≡◌, [], None, IfErr, IfOk, IfSome, is_some};
ghost use Rattle.std.specs.List.{list_all};
ghost use Rattle.fc_plan.specs.Modules.{modules_of, names_of};
ghost use Rattle.fc_plan.specs.Numbering.{AreNeeds, AreNumbers, AreNumbersOf, at, number_in};
ghost use Rattle.fc_model.specs.Planning.{first_importer_beyond, first_repeated, plan_fault};
ghost use Rattle.fc_plan.specs.Refusing.{Tells};

use crate::refusing::refusal;
use fc_syntax::{FaultKind, Memory, Module, Refusal, Seq, Text};
use indexmap::{IndexMap, IndexSet};
use std::alloc::Global;

/// The numbers, as a list of the project's own.
fn listed(alloc: Global, numbers: &[usize]) -> Result<Seq<usize>, Memory>
    ensures { IfOk result (λ s. s ≡ numbers.now) }
{
    let mut all = Seq::new(alloc);
    for number in numbers {
        all.push(*number)?;
    }
    Ok(all)
}

/// The numbers of the modules of these names, each once, where each is the name of a module.
fn numbers_of_imports(
    alloc: Global,
    numbers: &IndexMap<&str, usize>,
    imports: &[Text],
) -> Result<Option<IndexSet<usize>>, Memory>
    ensures known { IfOk result (λ found. is_some found ≡ list_all (λ w. is_some (at numbers.now w)) imports.now) }
    ensures found { IfOk result (λ found. IfSome found (λ set. AreNumbersOf (at numbers.now) imports.now set.keys)) }
{
    let mut found = IndexSet::new(alloc);
    for import in imports {
        match numbers.get(import.as_str()) {
            Some(number) => {
                found.insert(*number)?;
            }
            None => return Ok(None),
        }
    }
    Ok(Some(found))
}

/// The numbers of the modules that a module imports, each once, where each import is the name of a module.
fn needs_of_module(
    alloc: Global,
    numbers: &IndexMap<&str, usize>,
    imports: &[Text],
) -> Result<Option<Seq<usize>>, Memory>
    ensures known { IfOk result (λ found. is_some found ≡ list_all (λ w. is_some (at numbers.now w)) imports.now) }
    ensures found { IfOk result (λ found. IfSome found (AreNumbersOf (at numbers.now) imports.now)) }
{
    match numbers_of_imports(alloc, numbers, imports)? {
        Some(found) => Ok(Some(listed(alloc, found.as_slice())?)),
        None => Ok(None),
    }
}

/// The numbers of the modules that each module imports, or a fault at the first that imports what no module of the set is.
pub(crate) fn needs_of(
    alloc: Global,
    numbers: &IndexMap<&str, usize>,
    modules: &[Module],
) -> Result<Seq<Seq<usize>>, Refusal>
    requires numbers { AreNumbers (modules_of modules.now) (at numbers.now) }
    requires distinct { first_repeated [] (names_of (modules_of modules.now)) ≡ None }
    ensures needs { IfOk result (AreNeeds (number_in (modules_of modules.now)) (modules_of modules.now)) }
    ensures known { IfOk result (λ _. first_importer_beyond (names_of (modules_of modules.now)) (modules_of modules.now) ≡ None) }
    ensures fault { IfErr result (Tells (plan_fault (modules_of modules.now))) }
{
    let mut needs = Seq::new(alloc);
    for module in modules {
        match needs_of_module(alloc, numbers, module.imports.as_slice())? {
            Some(found) => needs.push(found)?,
            None => return Err(refusal(alloc, FaultKind::ImportUnknown, &module.name)),
        }
    }
    Ok(needs)
}
