//! The numbers of the modules of a set, by their names.
ghost use Rattle.std.specs.Prelude.{◌≡◌, [], None, Some, IfErr, IfOk, IsTrue, if◌then◌else◌, is_some, not};
ghost use Rattle.std.specs.Str.{bytes_eq};
ghost use Rattle.fc_syntax.specs.Tree.{Word};
ghost use Rattle.fc_plan.specs.Modules.{modules_of, names_of};
ghost use Rattle.fc_plan.specs.Numbering.{AreNumbers, at};
ghost use Rattle.fc_model.specs.Planning.{first_repeated, plan_fault};
ghost use Rattle.fc_plan.specs.Refusing.{Tells};

use crate::refusing::refusal;
use fc_syntax::{FaultKind, Memory, Module, Refusal, Text};
use indexmap::IndexMap;
use std::alloc::Global;

/// Puts the number of a module in by its name, if no other module has that name.
fn add<'a>(
    numbers: &mut IndexMap<&'a str, usize>,
    name: &'a Text,
    number: usize,
) -> Result<bool, Memory>
    ensures free { IfOk result (λ added. added ≡ not (is_some (at numbers.old name.now))) }
    ensures put { IfOk result (λ added. IsTrue added → (w : Word) → at numbers.new w ≡ (if bytes_eq name.now w then Some number else at numbers.old w)) }
{
    if numbers.contains_key(name.as_str()) {
        return Ok(false);
    }
    numbers.insert(name.as_str(), number)?;
    Ok(true)
}

/// The number of each module by its name, or a fault at the first whose name an earlier one has.
pub(crate) fn numbers_of<'a>(
    alloc: Global,
    modules: &'a [Module],
) -> Result<IndexMap<&'a str, usize>, Refusal>
    ensures numbers { IfOk result (λ numbers. AreNumbers (modules_of modules.now) (at numbers)) }
    ensures distinct { IfOk result (λ _. first_repeated [] (names_of (modules_of modules.now)) ≡ None) }
    ensures fault { IfErr result (Tells (plan_fault (modules_of modules.now))) }
{
    let mut numbers = IndexMap::new(alloc);
    for (number, module) in modules.iter().enumerate() {
        if !add(&mut numbers, &module.name, number)? {
            return Err(refusal(alloc, FaultKind::DuplicateModule, &module.name));
        }
    }
    Ok(numbers)
}
