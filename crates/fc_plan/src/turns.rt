//! The turns in which modules are built.
ghost use Rattle.std.specs.Prelude.{◌≡◌, ◌<◌, [], ◌∷◌, ◌++◌, false, true, IfOk, IfSome, OnOk, length, replicate, slice_set};
ghost use Rattle.std.specs.List.{list_all};
ghost use Rattle.std.specs.Option.{option_copied};
ghost use Rattle.fc_plan.specs.Modules.{modules_of, names_of};
ghost use Rattle.fc_plan.specs.Turning.{AreUnderway, first_free, first_unbuilt as first_unmarked, is_marked};

use fc_syntax::{Memory, Module, Seq, Text};
use std::alloc::Global;

/// The modules of a set that are built so far, by their numbers.
#[derive(Drop)]
pub(crate) struct Turns {
    /// For each module whether it is built.
    pub(crate) built: Vec<bool>,
    /// Those that are built, in the order in which they are.
    pub(crate) order: Seq<usize>,
}

/// Whether the module of a number is built.
fn is_built(built: &[bool], number: usize) -> bool
    ensures { result ≡ is_marked built.now number }
{
    match built.get(number) {
        Some(built) => *built,
        None => false,
    }
}

/// Whether the modules of all these numbers are built.
fn are_built(built: &[bool], numbers: &[usize]) -> bool
    ensures { result ≡ list_all (is_marked built.now) numbers.now }
{
    for number in numbers {
        if !is_built(built, *number) {
            return false;
        }
    }
    true
}

/// The number of the first module that is not built and imports none that is not.
fn first_ready(needs: &[Seq<usize>], built: &[bool]) -> Option<usize>
    ensures first { result ≡ first_free (is_marked built.now) 0 needs.now }
    ensures within { IfSome result (λ number. number < length needs.now) }
{
    for (number, needed) in needs.iter().enumerate() {
        if !is_built(built, number) && are_built(built, needed.as_slice()) {
            return Some(number);
        }
    }
    None
}

impl Turns {
    /// No module of so many is built.
    fn new(alloc: Global, count: usize) -> Result<Turns, Memory>
        ensures built { IfOk result (λ turns. turns.built.items ≡ replicate count false) }
        ensures order { IfOk result (λ turns. turns.order ≡ []) }
    {
        let built = vec![in alloc; false; count]?;
        Ok(Turns {
            built,
            order: Seq::new(alloc),
        })
    }

    /// Builds the module of a number.
    fn build(&mut self, number: usize) -> Result<(), Memory>
        requires { number < length self.old.built.items }
        ensures built { OnOk result (self.new.built.items ≡ slice_set self.old.built.items number true) }
        ensures order { OnOk result (self.new.order ≡ self.old.order ++ number ∷ []) }
    {
        self.order.push(number)?;
        self.built[number] = true;
        Ok(())
    }
}

/// Builds the modules that may be built, each the first that may be behind the others.
pub(crate) fn take_turns(alloc: Global, needs: &[Seq<usize>]) -> Result<Turns, Memory>
    ensures { IfOk result (λ turns. AreUnderway needs.now turns.built.items turns.order 0) }
{
    let mut turns = Turns::new(alloc, needs.len())?;
    for _turn in needs {
        match first_ready(needs, turns.built.as_slice()) {
            Some(number) => turns.build(number)?,
            None => return Ok(turns),
        }
    }
    Ok(turns)
}

/// The name of the first module that is not built.
pub(crate) fn first_unbuilt<'a>(modules: &'a [Module], built: &[bool]) -> Option<&'a Text>
    ensures { option_copied result ≡ first_unmarked (is_marked built.now) 0 (names_of (modules_of modules.now)) }
{
    for (number, module) in modules.iter().enumerate() {
        if !is_built(built, number) {
            return Some(&module.name);
        }
    }
    None
}
