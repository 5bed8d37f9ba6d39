//! The words that are bound around a piece.
ghost use Rattle.std.specs.Prelude.{◌≡◌, ◌+◌, IfOk, option_map};
ghost use Rattle.fc_model.specs.Resolution.{found_term, index_of};
ghost use Rattle.fc_scope.specs.ScopeWords.{found_of, locals_of, past_joins, past_values};

use crate::binders::Binders;
use crate::names::Names;
use fc_syntax::{Memory, Text};

/// The binders around a piece, the innermost first. They stand on the stack of the walk, so a word ends with its scope.
#[derive(Clone, Copy)]
pub enum Scope<'a> {
    /// None.
    End,
    /// A type, and what is around it.
    Type(&'a Text, &'a Scope<'a>),
    /// A value.
    Value(&'a Text, &'a Scope<'a>),
    /// A coercion.
    Coercion(&'a Text, &'a Scope<'a>),
    /// Types that stand together, as parameters do.
    Types(&'a Names, &'a Scope<'a>),
    /// The values of a let group.
    Values(&'a Names, &'a Scope<'a>),
    /// The join points of a group.
    Joins(&'a Names, &'a Scope<'a>),
    /// The binders of an alternative, a join point or a constructor.
    Binders(&'a Binders, &'a Scope<'a>),
}

/// What a word of the terms is in a scope, where values and join points share one space. A distance counts the binders of its own
/// kind.
#[derive(Clone, Copy, Debug, PartialEq, Eq)]
pub enum Found {
    /// A value at a distance.
    Value(u32),
    /// A join point at a distance.
    Join(u32),
    /// Not bound in the scope.
    Nowhere,
}

/// A distance from further in. Fails where it has no 32 bits.
fn further(distance: Option<u32>, by: u32) -> Result<Option<u32>, Memory>
    ensures { IfOk result (λ d. d ≡ option_map (λ i. i + by) distance) }
{
    match distance {
        None => Ok(None),
        Some(distance) => match distance.checked_add(by) {
            Some(distance) => Ok(Some(distance)),
            None => Err(Memory),
        },
    }
}

/// What was found, seen from inside so many values.
fn inside_values(found: Found, by: u32) -> Result<Found, Memory>
    ensures { IfOk result (λ f. found_of f ≡ past_values by (found_of found)) }
{
    match found {
        Found::Value(distance) => match distance.checked_add(by) {
            Some(distance) => Ok(Found::Value(distance)),
            None => Err(Memory),
        },
        Found::Join(distance) => Ok(Found::Join(distance)),
        Found::Nowhere => Ok(Found::Nowhere),
    }
}

/// What was found, seen from inside so many join points.
fn inside_joins(found: Found, by: u32) -> Result<Found, Memory>
    ensures { IfOk result (λ f. found_of f ≡ past_joins by (found_of found)) }
{
    match found {
        Found::Value(distance) => Ok(Found::Value(distance)),
        Found::Join(distance) => match distance.checked_add(by) {
            Some(distance) => Ok(Found::Join(distance)),
            None => Err(Memory),
        },
        Found::Nowhere => Ok(Found::Nowhere),
    }
}

impl<'a> Scope<'a> {
    /// The distance to the innermost binder of a type's word. Fails where it has no 32 bits.
    #[tactic(auto, using(crate::proofs::Lookups::lookup_rules))]
    pub fn ty(&self, word: &Text) -> Result<Option<u32>, Memory>
        ensures { IfOk result (λ d. d ≡ index_of (locals_of self.now).types word.now) }
    {
        match self {
            Scope::End => Ok(None),
            Scope::Type(a, rest) => {
                if a.as_str() == word.as_str() {
                    Ok(Some(0))
                } else {
                    further(rest.ty(word)?, 1)
                }
            }
            Scope::Types(names, rest) => match names.distance(word) {
                Some(distance) => Ok(Some(distance)),
                None => further(rest.ty(word)?, names.len()),
            },
            Scope::Binders(binders, rest) => match binders.types.distance(word) {
                Some(distance) => Ok(Some(distance)),
                None => further(rest.ty(word)?, binders.types.len()),
            },
            Scope::Value(_, rest) => rest.ty(word),
            Scope::Coercion(_, rest) => rest.ty(word),
            Scope::Values(_, rest) => rest.ty(word),
            Scope::Joins(_, rest) => rest.ty(word),
        }
    }

    /// The distance to the innermost binder of a coercion's word. Fails where it has no 32 bits.
    #[tactic(auto, using(crate::proofs::Lookups::lookup_rules))]
    pub fn coercion(&self, word: &Text) -> Result<Option<u32>, Memory>
        ensures { IfOk result (λ d. d ≡ index_of (locals_of self.now).coercions word.now) }
    {
        match self {
            Scope::End => Ok(None),
            Scope::Coercion(c, rest) => {
                if c.as_str() == word.as_str() {
                    Ok(Some(0))
                } else {
                    further(rest.coercion(word)?, 1)
                }
            }
            Scope::Binders(binders, rest) => match binders.coercions.distance(word) {
                Some(distance) => Ok(Some(distance)),
                None => further(rest.coercion(word)?, binders.coercions.len()),
            },
            Scope::Type(_, rest) => rest.coercion(word),
            Scope::Value(_, rest) => rest.coercion(word),
            Scope::Types(_, rest) => rest.coercion(word),
            Scope::Values(_, rest) => rest.coercion(word),
            Scope::Joins(_, rest) => rest.coercion(word),
        }
    }

    /// What a word of the terms is. Fails where its distance has no 32 bits.
    #[tactic(auto, using(crate::proofs::Lookups::lookup_rules))]
    pub fn term(&self, word: &Text) -> Result<Found, Memory>
        ensures { IfOk result (λ f. found_of f ≡ found_term (locals_of self.now).terms word.now) }
    {
        match self {
            Scope::End => Ok(Found::Nowhere),
            Scope::Value(x, rest) => {
                if x.as_str() == word.as_str() {
                    Ok(Found::Value(0))
                } else {
                    inside_values(rest.term(word)?, 1)
                }
            }
            Scope::Values(names, rest) => match names.distance(word) {
                Some(distance) => Ok(Found::Value(distance)),
                None => inside_values(rest.term(word)?, names.len()),
            },
            Scope::Joins(names, rest) => match names.distance(word) {
                Some(distance) => Ok(Found::Join(distance)),
                None => inside_joins(rest.term(word)?, names.len()),
            },
            Scope::Binders(binders, rest) => match binders.values.distance(word) {
                Some(distance) => Ok(Found::Value(distance)),
                None => inside_values(rest.term(word)?, binders.values.len()),
            },
            Scope::Type(_, rest) => rest.term(word),
            Scope::Coercion(_, rest) => rest.term(word),
            Scope::Types(_, rest) => rest.term(word),
        }
    }
}
