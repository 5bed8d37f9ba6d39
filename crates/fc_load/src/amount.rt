//! How much of a set has been read.
ghost use Rattle.std.specs.Prelude.{◌≡◌, ◌≤◌, ◌+◌};
ghost use Rattle.fc_syntax.specs.Limits.{standard_limits};
ghost use Rattle.fc_syntax.specs.Measures.{size_of};
ghost use Rattle.fc_syntax.specs.View.{module_of};

use fc_measures::size;
use fc_syntax::{Limits, Module};

/// How much of a set has been read so far, which is within its limits.
#[derive(Clone, Copy)]
pub(crate) struct Read {
    /// Bytes of files.
    bytes: u32,
    /// Size of declarations.
    size: u32,
    ghost bytes_fit: { bytes ≤ standard_limits.set_bytes },
    ghost size_fits: { size ≤ standard_limits.size },
}

impl Read {
    ghost use Rattle.fc_load.specs.Amounts.{amount_of};
    ghost use Rattle.fc_load.specs.Loading.{nothing_read, room_for_bytes, room_for_size};

    /// Nothing has been read.
    pub(crate) fn nothing() -> Read
        ensures { amount_of result ≡ nothing_read }
    {
        Read { bytes: 0, size: 0 }
    }

    /// The most bytes that the next file may have.
    pub(crate) fn bytes_left(self) -> u32
        ensures { result ≡ room_for_bytes (amount_of self) }
    {
        let limits = Limits::standard();
        limits.file_bytes.min(limits.set_bytes - self.bytes)
    }

    /// The most size that the declarations of the next file may have together.
    pub(crate) fn size_left(self) -> u32
        ensures { result ≡ room_for_size (amount_of self) }
    {
        Limits::standard().size - self.size
    }

    /// So much, and a file of so many bytes that holds this module, for which there is room.
    pub(crate) fn with_file(self, bytes: u32, m: &Module) -> Read
        requires bytes { bytes ≤ room_for_bytes (amount_of self) }
        requires size { size_of (module_of m.now) ≤ room_for_size (amount_of self) }
        ensures { amount_of result ≡ record { bytes = self.bytes + bytes; size = self.size + size_of (module_of m.now) } }
    {
        let size = size(m, self.size_left() as u64) as u32;
        Read {
            bytes: self.bytes + bytes,
            size: self.size + size,
        }
    }
}
