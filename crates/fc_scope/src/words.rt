//! The word of the binder at a distance.
ghost use Rattle.std.specs.Prelude.{◌≡◌, slice_get};
ghost use Rattle.std.specs.Option.{option_copied};
ghost use Rattle.fc_scope.specs.ScopeWords.{locals_of};
ghost use Rattle.fc_scope.specs.WordsAt.{join_word as join_word_at, value_word as value_word_at};

use crate::scope::Scope;
use fc_syntax::Text;

/// The word of the type at a distance, `None` exactly where no binder is that far. Takes no memory.
#[tactic(auto, using(crate::proofs::Distances::distance_rules))]
pub fn type_word<'x>(scope: &'x Scope<'x>, distance: u32) -> Option<&'x Text>
    ensures { option_copied result ≡ slice_get (locals_of scope.now).types distance }
{
    match scope {
        Scope::End => None,
        Scope::Type(a, rest) => {
            if distance == 0 {
                Some(&**a)
            } else {
                type_word(&**rest, distance - 1)
            }
        }
        Scope::Types(names, rest) => match names.word(distance) {
            Some(word) => Some(word),
            None => type_word(&**rest, distance.saturating_sub(names.len())),
        },
        Scope::Binders(binders, rest) => match binders.types.word(distance) {
            Some(word) => Some(word),
            None => type_word(&**rest, distance.saturating_sub(binders.types.len())),
        },
        Scope::Value(_, rest) => type_word(&**rest, distance),
        Scope::Coercion(_, rest) => type_word(&**rest, distance),
        Scope::Values(_, rest) => type_word(&**rest, distance),
        Scope::Joins(_, rest) => type_word(&**rest, distance),
    }
}

/// The word of the coercion at a distance, `None` exactly where no binder is that far. Takes no memory.
#[tactic(auto, using(crate::proofs::Distances::distance_rules))]
pub fn coercion_word<'x>(scope: &'x Scope<'x>, distance: u32) -> Option<&'x Text>
    ensures { option_copied result ≡ slice_get (locals_of scope.now).coercions distance }
{
    match scope {
        Scope::End => None,
        Scope::Coercion(c, rest) => {
            if distance == 0 {
                Some(&**c)
            } else {
                coercion_word(&**rest, distance - 1)
            }
        }
        Scope::Binders(binders, rest) => match binders.coercions.word(distance) {
            Some(word) => Some(word),
            None => coercion_word(&**rest, distance.saturating_sub(binders.coercions.len())),
        },
        Scope::Type(_, rest) => coercion_word(&**rest, distance),
        Scope::Types(_, rest) => coercion_word(&**rest, distance),
        Scope::Value(_, rest) => coercion_word(&**rest, distance),
        Scope::Values(_, rest) => coercion_word(&**rest, distance),
        Scope::Joins(_, rest) => coercion_word(&**rest, distance),
    }
}

/// The word of the value at a distance, `None` exactly where no binder is that far. Takes no memory.
#[tactic(auto, using(crate::proofs::Distances::distance_rules))]
pub fn value_word<'x>(scope: &'x Scope<'x>, distance: u32) -> Option<&'x Text>
    ensures { option_copied result ≡ value_word_at (locals_of scope.now).terms distance }
{
    match scope {
        Scope::End => None,
        Scope::Value(x, rest) => {
            if distance == 0 {
                Some(&**x)
            } else {
                value_word(&**rest, distance - 1)
            }
        }
        Scope::Values(names, rest) => match names.word(distance) {
            Some(word) => Some(word),
            None => value_word(&**rest, distance.saturating_sub(names.len())),
        },
        Scope::Binders(binders, rest) => match binders.values.word(distance) {
            Some(word) => Some(word),
            None => value_word(&**rest, distance.saturating_sub(binders.values.len())),
        },
        Scope::Type(_, rest) => value_word(&**rest, distance),
        Scope::Coercion(_, rest) => value_word(&**rest, distance),
        Scope::Types(_, rest) => value_word(&**rest, distance),
        Scope::Joins(_, rest) => value_word(&**rest, distance),
    }
}

/// The word of the join point at a distance, `None` exactly where no binder is that far. Takes no memory.
#[tactic(auto, using(crate::proofs::Distances::distance_rules))]
pub fn join_word<'x>(scope: &'x Scope<'x>, distance: u32) -> Option<&'x Text>
    ensures { option_copied result ≡ join_word_at (locals_of scope.now).terms distance }
{
    match scope {
        Scope::End => None,
        Scope::Joins(names, rest) => match names.word(distance) {
            Some(word) => Some(word),
            None => join_word(&**rest, distance.saturating_sub(names.len())),
        },
        Scope::Type(_, rest) => join_word(&**rest, distance),
        Scope::Value(_, rest) => join_word(&**rest, distance),
        Scope::Coercion(_, rest) => join_word(&**rest, distance),
        Scope::Types(_, rest) => join_word(&**rest, distance),
        Scope::Values(_, rest) => join_word(&**rest, distance),
        Scope::Binders(_, rest) => join_word(&**rest, distance),
    }
}
