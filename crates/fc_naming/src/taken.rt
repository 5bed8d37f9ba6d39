//! The words that a binder must not take.
ghost use Rattle.std.specs.Prelude.{◌≡◌, IfOk, OnOk};
ghost use Rattle.fc_model.specs.DeclaredWords.{top_by, words_by_space};
ghost use Rattle.fc_model.specs.WordSets.{set_of};
ghost use Rattle.fc_scope.specs.ScopeWords.{locals_of};
ghost use Rattle.fc_naming.specs.Taken.{more_words, words_around, words_of};

use fc_model::{Declared, Spaces, WordSet};
use fc_scope::{Found, Scope};
use fc_syntax::{Memory, Text};
use std::alloc::Global;

/// What is bound.
#[derive(Clone, Copy)]
pub enum Space {
    /// Types.
    Types,
    /// Values and join points, which share their words.
    Terms,
    /// Coercions.
    Coercions,
}

/// Those of a space.
#[tactic(auto, unfolding(fc_model::specs::DeclaredWords::words_by_space))]
pub fn words_among(words: &Spaces, space: Space) -> &WordSet
    ensures { set_of result.now ≡ words_of space (words_by_space words.now) }
{
    match space {
        Space::Types => &words.types,
        Space::Terms => &words.terms,
        Space::Coercions => &words.coercions,
    }
}

/// Puts a word in.
#[tactic(auto, unfolding(fc_model::specs::DeclaredWords::words_by_space))]
pub fn add_word(alloc: Global, words: &mut Spaces, space: Space, word: &Text) -> Result<(), Memory>
    ensures { OnOk result (words_by_space words.new ≡ more_words space word.now (words_by_space words.old)) }
{
    match space {
        Space::Types => words.types.add(alloc, word),
        Space::Terms => words.terms.add(alloc, word),
        Space::Coercions => words.coercions.add(alloc, word),
    }
}

/// Whether a word is one of a term in scope or of the module.
fn is_term<'x>(word: &Text, top: &Declared, scope: &'x Scope<'x>) -> Result<bool, Memory>
    ensures { IfOk result (λ b. b ≡ (words_around (top_by top.now) (locals_of scope.now)).terms word.now) }
{
    match scope.term(word)? {
        Found::Nowhere => Ok(top.spaces.terms.has(word)),
        Found::Value(_) => Ok(true),
        Found::Join(_) => Ok(true),
    }
}

/// Whether a word is one of those in scope or of the module's terms. Fails where a distance has no 32 bits.
pub fn is_around<'x>(
    space: Space,
    word: &Text,
    top: &Declared,
    scope: &'x Scope<'x>,
) -> Result<bool, Memory>
    ensures { IfOk result (λ b. b ≡ words_of space (words_around (top_by top.now) (locals_of scope.now)) word.now) }
{
    match space {
        Space::Types => Ok(scope.ty(word)?.is_some()),
        Space::Terms => is_term(word, top, &*scope),
        Space::Coercions => Ok(scope.coercion(word)?.is_some()),
    }
}
