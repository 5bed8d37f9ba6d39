//! The order in which the modules of a set are built.
ghost use Rattle.std.specs.Prelude.{◌≡◌, Some, None, IfErr, IfOk, map, slice_get};
ghost use Rattle.fc_plan.specs.Modules.{modules_of};
ghost use Rattle.fc_model.specs.Planning.{build_order, plan_fault};
ghost use Rattle.fc_plan.specs.Refusing.{Tells};

use crate::needs::needs_of;
use crate::numbers::numbers_of;
use crate::refusing::refusal;
use crate::turns::{Turns, first_unbuilt, take_turns};
use fc_syntax::{FaultKind, Module, Refusal, Seq};
use std::alloc::Global;

/// The order in which the modules of a set are built, each by its number in the set, counted from 0. Fails with the first fault that
/// stands against it, or where memory runs out, which says nothing of the set.
pub fn plan(alloc: Global, modules: &[Module]) -> Result<Seq<usize>, Refusal>
    ensures order { IfOk result (λ numbers. map (slice_get (modules_of modules.now)) numbers ≡ map Some (build_order (modules_of modules.now))) }
    ensures planned { IfOk result (λ _. plan_fault (modules_of modules.now) ≡ None) }
    ensures fault { IfErr result (Tells (plan_fault (modules_of modules.now))) }
{
    let numbers = numbers_of(alloc, modules)?;
    let needs = needs_of(alloc, &numbers, modules)?;
    let turns = take_turns(alloc, needs.as_slice())?;
    match first_unbuilt(modules, turns.built.as_slice()) {
        None => {
            let Turns { built: _, order } = turns;
            Ok(order)
        }
        Some(name) => Err(refusal(alloc, FaultKind::ImportCycle, name)),
    }
}
