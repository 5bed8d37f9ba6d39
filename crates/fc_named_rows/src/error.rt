//! Why a step has no answer.
ghost use Rattle.std.specs.Prelude.{◌≡◌};

use fc_model::Flaw;
use fc_syntax::{Memory, Text};

/// Why a step on a named module has no answer.
#[derive(Drop)]
pub enum NotApplied {
    /// The module of this name has no nameless form: its first fault of names.
    Flaw(Text, Flaw),
    /// What the row made names something that is not in scope, so that it cannot be written with names.
    Unscoped,
    /// Out of memory, or a number has no 32 bits.
    Memory,
}

impl From<Memory> for NotApplied {
    ghost use Rattle.fc_named_rows.specs.declared.error.NotApplied.{NotApplied};

    ghost from_gives = { λ e r. r ≡ NotApplied.Memory };

    fn from(_error: Memory) -> NotApplied {
        NotApplied::Memory
    }
}
