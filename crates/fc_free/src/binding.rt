//! Which words binders bind in the space of values and join points.
ghost use Rattle.std.specs.Prelude.{◌≡◌, ◌∷◌, []};
ghost use Rattle.fc_syntax.specs.View.{binder_of, binders_of, binds_of, joins_of};
ghost use Rattle.fc_model.specs.Resolution.{bind_words, join_words};
ghost use Rattle.fc_free.specs.Free.{of_one, of_words, value_words};

use fc_syntax::{Bind, Binder, JoinBind, Text};

/// Whether a word is that of a binder.
fn is_word(bound: &Text, word: &Text) -> bool
    ensures { result ≡ of_one bound.now word.now }
{
    bound.as_str() == word.as_str()
}

/// Whether a binder binds a word as a value. Takes no memory.
pub fn binder_binds(binder: &Binder, word: &Text) -> bool
    ensures { result ≡ of_words (value_words (binder_of binder.now ∷ [])) word.now }
{
    match binder {
        Binder::Value(x, _) => is_word(x, word),
        Binder::OfType(_, _) => false,
        Binder::OfCo(_, _, _, _) => false,
    }
}

/// Whether one of the binders binds a word as a value. Takes no memory.
pub fn binders_bind(binders: &[Binder], word: &Text) -> bool
    ensures { result ≡ of_words (value_words (binders_of binders.now)) word.now }
{
    for binder in binders {
        if binder_binds(binder, word) {
            return true;
        }
    }
    false
}

/// Whether a word is that of one of the binds. Takes no memory.
pub fn binds_bind(binds: &[Bind], word: &Text) -> bool
    ensures { result ≡ of_words (bind_words (binds_of binds.now)) word.now }
{
    for bind in binds {
        if is_word(&bind.name, word) {
            return true;
        }
    }
    false
}

/// Whether a word is that of one of the join points. Takes no memory.
pub fn joins_bind(joins: &[JoinBind], word: &Text) -> bool
    ensures { result ≡ of_words (join_words (joins_of joins.now)) word.now }
{
    for join in joins {
        if is_word(&join.name, word) {
            return true;
        }
    }
    false
}
