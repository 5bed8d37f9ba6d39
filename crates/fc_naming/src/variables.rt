//! Variables of terms, what alternatives are for, and the value that a case binds around them.
ghost use Rattle.std.specs.Prelude.{◌≡◌, None, IfOk};
ghost use Rattle.fc_model.specs.Resolution.{Locals};
ghost use Rattle.fc_model.specs.DeclaredWords.{top_by};
ghost use Rattle.fc_scope.specs.ScopeWords.{locals_of};
ghost use Rattle.fc_scope.specs.WordsAt.{join_word as join_word_at, value_word as value_word_at};
ghost use Rattle.fc_model.specs.NamelessView.{nalts_of};
ghost use Rattle.fc_naming.specs.Named.{IsNamedHead, IsWritten, MayTakeAlts};

use crate::choose::{choose, new_word};
use crate::names::{word_or_other, written};
use crate::taken::Space;
use crate::used::used_in_alts;
use fc_model::Declared;
use fc_scope::{Scope, join_word, value_word};
use fc_syntax::{Head, Memory, NAlt, Name, Text};
use std::alloc::Global;

/// A value at a distance.
pub fn local<'x>(alloc: Global, scope: &'x Scope<'x>, distance: u32) -> Result<Name, Memory>
    ensures alone { IfOk result (λ n. n.module ≡ None) }
    ensures word { IfOk result (λ n. IsWritten (value_word_at (locals_of scope.now).terms distance) n.text) }
{
    let text = word_or_other(alloc, value_word(&*scope, distance))?;
    Ok(Name { module: None, text })
}

/// The word of a join point at a distance.
pub fn join_point<'x>(alloc: Global, scope: &'x Scope<'x>, distance: u32) -> Result<Text, Memory>
    ensures { IfOk result (λ v. IsWritten (join_word_at (locals_of scope.now).terms distance) v) }
{
    word_or_other(alloc, join_word(&*scope, distance))
}

/// What an alternative is for.
#[tactic(auto, using(crate::proofs::NamedExpressions::head_names))]
pub fn named_head(alloc: Global, head: &Head, top: &Declared) -> Result<Head, Memory>
    ensures { IfOk result (λ h. (s : Locals) → IsNamedHead (top_by top.now) s head.now h) }
{
    match head {
        Head::Default => Ok(Head::Default),
        Head::Lit(_) => Ok(head.copy(alloc)?),
        Head::Con(name) => Ok(Head::Con(written(alloc, top, name)?)),
    }
}

/// The word for the value that a case binds around its alternatives.
pub fn word_around<'x>(
    alloc: Global,
    alts: &[NAlt],
    top: &Declared,
    scope: &'x Scope<'x>,
    hint: &Text,
) -> Result<Text, Memory>
    ensures { IfOk result (λ v. MayTakeAlts (top_by top.now) (locals_of scope.now) hint.now v (nalts_of alts.now)) }
{
    if let Some(kept) = new_word(alloc, hint, Space::Terms, top, &*scope)? {
        return Ok(kept);
    }
    let used = used_in_alts(alloc, alts, top, &*scope)?;
    let word = choose(alloc, hint, Space::Terms, &used)?;
    Ok(word)
}
