//! The modules of a set in another order.
ghost use Rattle.std.specs.Prelude.{◌≡◌, ◌∷◌, ◌++◌, List, ℕ, IfOk, OnOk, map, slice_get};
ghost use Rattle.std.specs.List.{filter_map};
ghost use Rattle.std.specs.Option.{option_copied};
ghost use Rattle.fc_syntax.specs.View.{module_of};
ghost use Rattle.fc_plan.specs.Modules.{behind};

use fc_syntax::{Memory, Module};
use std::alloc::Global;

/// The module of a number of a set.
fn module_at<'m>(modules: &'m [Module], number: usize) -> Option<&'m Module>
    ensures { option_copied result ≡ slice_get modules.now number }
{
    modules.get(number)
}

/// Puts the module of a number behind others, where there is one.
#[tactic(auto, using(crate::proofs::Picks::pick_none))]
fn pick<'m>(found: &mut Vec<&'m Module>, modules: &'m [Module], number: usize) -> Result<(), Memory>
    ensures { OnOk result ((more : List ℕ) → behind found.new.items ++ filter_map (slice_get (map module_of modules.now)) more ≡ behind found.old.items ++ filter_map (slice_get (map module_of modules.now)) (number ∷ more)) }
{
    match module_at(modules, number) {
        None => Ok(()),
        Some(m) => {
            found.push(m)?;
            Ok(())
        }
    }
}

/// The modules of these numbers of a set, in the order of the numbers, as `plan` gives them; a number that the set has no module for gives none. Fails only where
/// memory runs out.
pub fn in_order<'m>(
    alloc: Global,
    modules: &'m [Module],
    order: &[usize],
) -> Result<Vec<&'m Module>, Memory>
    ensures { IfOk result (λ found. behind found.items ≡ filter_map (slice_get (map module_of modules.now)) order.now) }
{
    let mut found = Vec::new(alloc);
    for number in order {
        pick(&mut found, modules, *number)?;
    }
    Ok(found)
}
