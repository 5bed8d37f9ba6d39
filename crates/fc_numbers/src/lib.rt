//! Numbers of 32 bits: those of the parts of a tree, distances, and how deep calls may go.
#![tactic(auto)]

ghost use Rattle.std.specs.Prelude.{◌≡◌, ◌+◌, IfOk};

use fc_syntax::Memory;

/// The sum of two numbers. Fails where it has no 32 bits; this is answered as out of memory.
pub fn sum(a: u32, b: u32) -> Result<u32, Memory>
    ensures { IfOk result (λ n. n ≡ a + b) }
{
    match a.checked_add(b) {
        Some(n) => Ok(n),
        None => Err(Memory),
    }
}

/// How many parts a list has. Fails where the number has no 32 bits; this is answered as out of memory.
pub fn number(count: usize) -> Result<u32, Memory>
    ensures { IfOk result (λ n. n ≡ count) }
{
    match u32::try_from(count) {
        Ok(count) => Ok(count),
        Err(_) => Err(Memory),
    }
}

/// How many levels of calls are left one level further in. Fails where none is left; this is answered as out of memory.
pub fn deeper(left: u32) -> Result<u32, Memory>
    ensures { IfOk result (λ n. n + 1 ≡ left) }
{
    match left.checked_sub(1) {
        Some(n) => Ok(n),
        None => Err(Memory),
    }
}
