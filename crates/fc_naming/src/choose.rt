//! The word that a binder takes.
ghost use Rattle.std.specs.Prelude.{◌≡◌, codes, if◌then◌else◌, IfOk, IfSome};
ghost use Rattle.fc_model.specs.DeclaredWords.{top_by, words_by_space};
ghost use Rattle.fc_model.specs.Formed as formed;
ghost use Rattle.fc_model.specs.WordSets.{set_of};
ghost use Rattle.fc_scope.specs.ScopeWords.{locals_of};
ghost use Rattle.fc_naming.specs.Named.{IsChosen, IsWordFor, candidate as is_candidate};
ghost use Rattle.fc_naming.specs.Taken.{more_words, words_around, words_of};

use crate::taken::{Space, add_word, is_around, words_among};
use fc_lex::is_lower_name;
use fc_model::{Declared, Spaces, WordSet};
use fc_read_parts::keyword_of;
use fc_scope::Scope;
use fc_syntax::{Memory, Text};
use itoa::Buffer;
use std::alloc::Global;

// A WORD THAT IS A LOWER WORD

/// Whether a word may be written as that of a binder: a lower name that is no word of a form.
fn is_lower_word(word: &Text) -> bool
    ensures { result ≡ formed.is_lower_word word.now }
{
    let bytes = word.as_str().as_bytes();
    is_lower_name(bytes) && keyword_of(bytes).is_none()
}

/// The word that a binder was read with, if that may be written, and `x` if not: what a row makes may have any words.
fn readable(alloc: Global, hint: &Text) -> Result<Text, Memory>
    ensures { IfOk result (λ w. w ≡ (if formed.is_lower_word hint.now then hint.now else codes "x")) }
{
    if is_lower_word(hint) {
        return hint.copy(alloc);
    }
    Text::from_str(alloc, "x")
}

// A WORD THAT IS NEW. The scope of a binder uses only words around it. So a binder that was read with a new word keeps it, and its scope is not
// walked through. A word that is not new may still be kept, where the scope does not use it: only a walk tells.

/// The word that a binder was read with, if it may be written and is new: no word in scope and, of a term, none of the module's terms.
pub fn new_word<'x>(
    alloc: Global,
    hint: &Text,
    space: Space,
    top: &Declared,
    scope: &'x Scope<'x>,
) -> Result<Option<Text>, Memory>
    ensures { IfOk result (λ o. IfSome o (λ v. IsWordFor (words_of space (words_around (top_by top.now) (locals_of scope.now))) hint.now v)) }
{
    if !is_lower_word(hint) || is_around(space, hint, top, &*scope)? {
        return Ok(None);
    }
    Ok(Some(hint.copy(alloc)?))
}

// THE FIRST WORD THAT IS FREE

/// The word itself, then `w_1`, `w_2` and so on.
fn candidate(alloc: Global, word: &Text, number: u32) -> Result<Text, Memory>
    ensures { IfOk result (λ v. v ≡ is_candidate word.now number) }
{
    if number == 0 {
        return word.copy(alloc);
    }
    let mut digits = Buffer::new();
    let mut text = String::from_str(alloc, word.as_str())?;
    text.push_str("_")?;
    text.push_str(digits.format(number))?;
    Text::from_str(alloc, text.as_str())
}

/// The first of `w`, `w_1`, `w_2` and so on that is none of these words. Fails only where memory runs out, or where 2^32 - 1 of them are
/// taken.
pub fn first_free(alloc: Global, word: &Text, taken: &WordSet) -> Result<Text, Memory>
    ensures { IfOk result (λ v. IsChosen (set_of taken.now) word.now v) }
{
    for number in 0..u32::MAX {
        let next = candidate(alloc, word, number)?;
        if !taken.has(&next) {
            return Ok(next);
        }
    }
    Err(Memory)
}

/// The first of them that is not taken, where a binder was read with the word `hint`; `x` and so on, where that may not be written.
pub fn choose(alloc: Global, hint: &Text, space: Space, taken: &Spaces) -> Result<Text, Memory>
    ensures { IfOk result (λ v. IsWordFor (words_of space (words_by_space taken.now)) hint.now v) }
{
    let word = readable(alloc, hint)?;
    first_free(alloc, &word, words_among(taken, space))
}

/// The same, after which the word is taken.
pub fn take_word(
    alloc: Global,
    hint: &Text,
    space: Space,
    taken: &mut Spaces,
) -> Result<Text, Memory>
    ensures chosen { IfOk result (λ v. IsWordFor (words_of space (words_by_space taken.old)) hint.now v) }
    ensures taken { IfOk result (λ v. words_by_space taken.new ≡ more_words space v (words_by_space taken.old)) }
{
    let word = choose(alloc, hint, space, taken)?;
    add_word(alloc, taken, space, &word)?;
    Ok(word)
}
