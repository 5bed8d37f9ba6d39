//! Sums up to a limit.
ghost use Rattle.std.specs.Prelude.{◌≡◌, ◌+◌, min};

/// `a + b`, or `most` where that is less. Takes no memory.
pub fn add(a: u64, b: u64, most: u64) -> u64
    ensures { result ≡ min (a + b) most }
{
    a.saturating_add(b).min(most)
}
