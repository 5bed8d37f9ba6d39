//! The words that are bound around a piece.
ghost use Rattle.std.specs.Prelude.{◌≡◌};
ghost use Rattle.fc_free.specs.Bound.{words_of};
ghost use Rattle.fc_free.specs.Free.{is_bound_by};

use fc_model::WordSet;
use fc_syntax::{Name, Text};

/// The words of values and join points that are bound around a piece, the innermost first. They stand on the stack of the walk.
#[derive(Clone, Copy)]
pub(crate) enum Around<'a> {
    /// None.
    Nothing,
    /// The word of one binder, and what is around it.
    Word(&'a Text, &'a Around<'a>),
    /// The words of binders that stand together.
    Words(&'a WordSet, &'a Around<'a>),
}

impl<'a> Around<'a> {
    /// Whether a word is bound.
    fn has(&self, word: &Text) -> bool
        ensures { result ≡ words_of self.now word.now }
    {
        match self {
            Around::Nothing => false,
            Around::Word(bound, rest) => bound.as_str() == word.as_str() || rest.has(word),
            Around::Words(bound, rest) => bound.has(word) || rest.has(word),
        }
    }

    /// Whether a name is bound, which it is only without a dot.
    pub(crate) fn binds(&self, name: &Name) -> bool
        ensures { result ≡ is_bound_by (words_of self.now) name.now.module name.now.text }
    {
        match &name.module {
            None => self.has(&name.text),
            Some(_) => false,
        }
    }
}
