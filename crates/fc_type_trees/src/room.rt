//! How large an answer may still be.
ghost use Rattle.std.specs.Prelude.{◌≡◌, ◌+◌, ◌^◌, ◌<◌, OnOk};

use fc_syntax::Memory;

/// The most that parts of an answer nest, so that a walk over it keeps off the end of the stack.
const DEEPEST: u32 = 2_000;

/// How many pieces an answer may still have, and how many levels below the one that is reached.
#[derive(Clone, Copy)]
pub struct Room {
    pieces: u32,
    levels: u32,
}

impl Room {
    /// Room for an answer of so many pieces.
    pub fn new(pieces: u32) -> Room
        ensures pieces { result.pieces ≡ pieces }
        ensures levels { result.levels ≡ 2000 }
    {
        Room {
            pieces,
            levels: DEEPEST,
        }
    }

    /// Goes one level down, for one piece. Fails where there is no room for it.
    pub fn enter(&mut self) -> Result<(), Memory>
        ensures pieces { OnOk result (self.new.pieces + 1 ≡ self.old.pieces) }
        ensures levels { OnOk result (self.new.levels + 1 ≡ self.old.levels) }
    {
        match (self.pieces.checked_sub(1), self.levels.checked_sub(1)) {
            (Some(pieces), Some(levels)) => {
                self.pieces = pieces;
                self.levels = levels;
                Ok(())
            }
            _ => Err(Memory),
        }
    }

    /// Goes one level up again.
    pub fn leave(&mut self)
        ensures pieces { self.new.pieces ≡ self.old.pieces }
        ensures levels { self.old.levels + 1 < 2 ^ 32 → self.new.levels ≡ self.old.levels + 1 }
    {
        self.levels = self.levels.saturating_add(1);
    }
}
