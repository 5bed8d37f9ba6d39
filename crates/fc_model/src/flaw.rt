//! The first premise that fails, on the way out to the public call.
ghost use Rattle.std.specs.Prelude.{◌≡◌, ◌+◌, IfOk, IfErr};
ghost use Rattle.fc_model.specs.declared.flaw.Flawed.TheVariants.{Memory as memory};
ghost use Rattle.fc_model.specs.Says.{Deepens, IsFlaw, StandsIn};

use fc_syntax::{FaultKind, Memory, Seq, Text};
use std::alloc::Global;

/// A premise that fails, while its place is being told.
#[derive(Drop)]
pub struct Flaw {
    /// What is wrong.
    pub kind: FaultKind,
    /// The word of the declaration, where it stands in one and that is told.
    pub def: Option<Text>,
    /// The part numbers on the way to the piece, the innermost first.
    pub path: Seq<u32>,
}

/// Why a judgement gives no answer.
#[derive(Drop)]
pub enum Flawed {
    /// A premise fails.
    Flaw(Flaw),
    /// Out of memory.
    Memory,
}

impl From<Memory> for Flawed {
    ghost use Rattle.fc_model.specs.declared.flaw.Flawed.{Flawed};

    ghost from_gives = { λ e r. r ≡ Flawed.Memory };

    fn from(_error: Memory) -> Flawed {
        Flawed::Memory
    }
}

/// A premise of the piece itself that fails.
pub fn flaw_here(alloc: Global, kind: FaultKind) -> Flawed
    ensures { IsFlaw kind result }
{
    Flawed::Flaw(Flaw {
        kind,
        def: None,
        path: Seq::new(alloc),
    })
}

/// The number of the next part, where it can be told.
pub fn next_part(part: u32) -> Result<u32, Flawed>
    ensures next { IfOk result (λ next. next ≡ part + 1) }
    ensures memory { IfErr result (λ e. e ≡ memory) }
{
    match part.checked_add(1) {
        Some(next) => Ok(next),
        None => Err(Flawed::Memory),
    }
}

/// The flaw of a part, seen from the piece whose part it is.
pub fn deeper(flawed: Flawed, part: u32) -> Flawed
    ensures { Deepens part flawed result }
{
    match flawed {
        Flawed::Memory => Flawed::Memory,
        Flawed::Flaw(mut flaw) => match flaw.path.push(part) {
            Ok(()) => Flawed::Flaw(flaw),
            Err(_) => Flawed::Memory,
        },
    }
}

/// The flaw of a declaration's piece, seen from the module.
pub fn in_declaration(alloc: Global, flawed: Flawed, word: &Text) -> Flawed
    ensures { StandsIn word.now flawed result }
{
    match flawed {
        Flawed::Memory => Flawed::Memory,
        Flawed::Flaw(flaw) => match word.copy(alloc) {
            Ok(word) => Flawed::Flaw(Flaw {
                kind: flaw.kind,
                def: Some(word),
                path: flaw.path,
            }),
            Err(_) => Flawed::Memory,
        },
    }
}
