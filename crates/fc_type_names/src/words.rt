//! The words of type variables.
ghost use Rattle.std.specs.Prelude.{◌≡◌, IfOk, None, Some};
ghost use Rattle.fc_model.specs.Resolution.{index_of};
ghost use Rattle.fc_scope.specs.ScopeWords.{locals_of};
ghost use Rattle.fc_type_names.specs.Meant.{AreSeen};

use fc_scope::{Scope, type_word};
use fc_syntax::{Memory, Text};
use itoa::Buffer;
use std::alloc::Global;

/// The word of the type variable at a distance. Fails where memory runs out, and at a distance that is out of scope.
pub fn word_at(alloc: Global, scope: &Scope, distance: u32) -> Result<Text, Memory>
    requires { AreSeen (locals_of scope.now).types }
    ensures { IfOk result (λ w. index_of (locals_of scope.now).types w ≡ Some distance) }
{
    match type_word(&*scope, distance) {
        Some(word) => word.copy(alloc),
        None => Err(Memory),
    }
}

/// The word `a`, then `a_1`, `a_2` and so on.
fn candidate(alloc: Global, number: u32) -> Result<Text, Memory> {
    if number == 0 {
        return Text::from_str(alloc, "a");
    }
    let mut digits = Buffer::new();
    let mut text = String::from_str(alloc, "a_")?;
    text.push_str(digits.format(number))?;
    Text::from_str(alloc, text.as_str())
}

/// The first of the words `a`, `a_1`, `a_2` and so on, from the one of this number on, that no type variable in scope has. Where the
/// number is that of the binders which took such words already, the first one is mostly free. Fails where memory or the words run out.
pub fn free_word(alloc: Global, scope: &Scope, first: u32) -> Result<Text, Memory>
    ensures { IfOk result (λ w. index_of (locals_of scope.now).types w ≡ None) }
{
    for number in first..u32::MAX {
        let word = candidate(alloc, number)?;
        let free = scope.ty(&word)?.is_none();
        if free {
            return Ok(word);
        }
    }
    Err(Memory)
}
