//! Binders with the words that they take.
ghost use Rattle.std.specs.Prelude.{◌≡◌, IfOk, IfSome, OnOk};
ghost use Rattle.fc_syntax.specs.View.{binder_of, binders_of};
ghost use Rattle.fc_model.specs.NamelessView.{nexpr_of, ntys_of};
ghost use Rattle.fc_model.specs.Resolution.{Locals, Words, enter};
ghost use Rattle.fc_model.specs.DeclaredWords.{top_by, words_by_space};
ghost use Rattle.fc_scope.specs.ScopeWords.{locals_of, with_binders};
ghost use Rattle.fc_naming.specs.BinderWords.{BelowWords, FieldWords, LambdaWord};
ghost use Rattle.fc_naming.specs.Named.{IsWordFor, TakeWords, TakesWord};
ghost use Rattle.fc_naming.specs.Taken.{hint_of, more_words, space_of, words_around, words_of};

use crate::choose::{new_word, take_word};
use crate::taken::Space;
use crate::types::named_ty;
use crate::used::{used_below, used_in_con, used_in_lambda};
use fc_model::{Declared, Spaces};
use fc_scope::{Binders, Scope};
use fc_syntax::{Binder, Memory, NBinder, NConDecl, NExpr, Seq, Text};
use std::alloc::Global;

// ONE BINDER

/// The word that a binder was read with.
fn hint(binder: &NBinder) -> &Text
    ensures { result.now ≡ hint_of (binder_of binder.now) }
{
    match binder {
        NBinder::Value(hint, _) => hint,
        NBinder::OfType(hint, _) => hint,
        NBinder::OfCo(hint, _, _, _) => hint,
    }
}

/// What it binds.
fn space(binder: &NBinder) -> Space
    ensures { result ≡ space_of (binder_of binder.now) }
{
    match binder {
        NBinder::Value(_, _) => Space::Terms,
        NBinder::OfType(_, _) => Space::Types,
        NBinder::OfCo(_, _, _, _) => Space::Coercions,
    }
}

/// A binder with a word that was chosen for it.
fn worded<'x>(
    alloc: Global,
    binder: &NBinder,
    top: &Declared,
    scope: &'x Scope<'x>,
    word: Text,
) -> Result<Binder, Memory>
    ensures { IfOk result (λ b. (taken more : Words) → IsWordFor (words_of (space_of (binder_of binder.now)) taken) (hint_of (binder_of binder.now)) word → more ≡ more_words (space_of (binder_of binder.now)) word taken → TakesWord (top_by top.now) (locals_of scope.now) taken (binder_of binder.now) (binder_of b) (enter (binder_of b) (locals_of scope.now)) more) }
{
    match binder {
        NBinder::Value(_, t) => {
            let t = named_ty(alloc, t, top, &*scope)?;
            Ok(Binder::Value(word, t))
        }
        NBinder::OfType(_, kind) => {
            let kind = kind.copy(alloc)?;
            Ok(Binder::OfType(word, kind))
        }
        NBinder::OfCo(_, role, t, u) => {
            let t = named_ty(alloc, t, top, &*scope)?;
            let u = named_ty(alloc, u, top, &*scope)?;
            Ok(Binder::OfCo(word, *role, t, u))
        }
    }
}

/// A binder with the word that it was read with, if that is new: no word in scope and, of a value, none of the module's terms.
pub fn new_binder<'x>(
    alloc: Global,
    binder: &NBinder,
    top: &Declared,
    scope: &'x Scope<'x>,
) -> Result<Option<Binder>, Memory>
    ensures { IfOk result (λ o. IfSome o (λ b. TakesWord (top_by top.now) (locals_of scope.now) (words_around (top_by top.now) (locals_of scope.now)) (binder_of binder.now) (binder_of b) (enter (binder_of b) (locals_of scope.now)) (words_around (top_by top.now) (enter (binder_of b) (locals_of scope.now))))) }
{
    let Some(word) = new_word(alloc, hint(binder), space(binder), top, &*scope)? else {
        return Ok(None);
    };
    let binder = worded(alloc, binder, top, &*scope, word)?;
    Ok(Some(binder))
}

/// A binder with a word that is not taken, which is taken then.
pub fn named_binder<'x>(
    alloc: Global,
    binder: &NBinder,
    top: &Declared,
    scope: &'x Scope<'x>,
    taken: &mut Spaces,
) -> Result<Binder, Memory>
    ensures { IfOk result (λ b. TakesWord (top_by top.now) (locals_of scope.now) (words_by_space taken.old) (binder_of binder.now) (binder_of b) (enter (binder_of b) (locals_of scope.now)) (words_by_space taken.new)) }
{
    let word = take_word(alloc, hint(binder), space(binder), taken)?;
    let binder = worded(alloc, binder, top, &*scope, word)?;
    Ok(binder)
}

/// The binder of a lambda around an expression.
pub fn lambda_binder<'x>(
    alloc: Global,
    e: &NExpr,
    top: &Declared,
    scope: &'x Scope<'x>,
    binder: &NBinder,
) -> Result<Binder, Memory>
    ensures { IfOk result (λ b. LambdaWord (top_by top.now) (locals_of scope.now) (binder_of binder.now) (nexpr_of e.now) (binder_of b)) }
{
    if let Some(kept) = new_binder(alloc, binder, top, &*scope)? {
        return Ok(kept);
    }
    let mut used = used_in_lambda(alloc, e, top, &*scope, binder)?;
    let binder = named_binder(alloc, binder, top, &*scope, &mut used)?;
    Ok(binder)
}

// SOME BINDERS

/// Puts the word of a binder in.
pub fn add_binder(alloc: Global, words: &mut Binders, binder: &Binder) -> Result<(), Memory>
    ensures { OnOk result ((s : Locals) → with_binders words.new s ≡ enter (binder_of binder.now) (with_binders words.old s)) }
{
    match binder {
        Binder::Value(word, _) => words.values.add(alloc, word),
        Binder::OfType(word, _) => words.types.add(alloc, word),
        Binder::OfCo(word, _, _, _) => words.coercions.add(alloc, word),
    }
}

/// Binders with their words.
#[derive(Drop)]
pub struct Named {
    /// The binders, the outermost first.
    pub binders: Seq<Binder>,
    /// Their words.
    pub words: Binders,
}

/// Binders with the words that they were read with, if each is new behind those before it.
fn new_binders<'x>(
    alloc: Global,
    binders: &[NBinder],
    top: &Declared,
    scope: &'x Scope<'x>,
) -> Result<Option<Named>, Memory>
    ensures { IfOk result (λ o. IfSome o (λ r. TakeWords (top_by top.now) (locals_of scope.now) (words_around (top_by top.now) (locals_of scope.now)) (binders_of binders.now) (binders_of r.binders) (with_binders r.words (locals_of scope.now)) (words_around (top_by top.now) (with_binders r.words (locals_of scope.now))))) }
{
    let mut words = Binders::new(alloc);
    let mut out = Seq::new(alloc);
    for binder in binders {
        let around = Scope::Binders(&words, &*scope);
        let Some(next) = new_binder(alloc, binder, top, &around)? else {
            return Ok(None);
        };
        add_binder(alloc, &mut words, &next)?;
        out.push(next)?;
    }
    Ok(Some(Named {
        binders: out,
        words,
    }))
}

/// Binders, each with a word that is not taken by a name in its scope or by a binder before it.
fn named_binders<'x>(
    alloc: Global,
    binders: &[NBinder],
    top: &Declared,
    scope: &'x Scope<'x>,
    taken: &mut Spaces,
) -> Result<Named, Memory>
    ensures { IfOk result (λ r. TakeWords (top_by top.now) (locals_of scope.now) (words_by_space taken.old) (binders_of binders.now) (binders_of r.binders) (with_binders r.words (locals_of scope.now)) (words_by_space taken.new)) }
{
    let mut words = Binders::new(alloc);
    let mut out = Seq::new(alloc);
    for binder in binders {
        let around = Scope::Binders(&words, &*scope);
        let next = named_binder(alloc, binder, top, &around, taken)?;
        add_binder(alloc, &mut words, &next)?;
        out.push(next)?;
    }
    Ok(Named {
        binders: out,
        words,
    })
}

/// The binders of an alternative or of a join point, around an expression.
pub fn binders_below<'x>(
    alloc: Global,
    e: &NExpr,
    top: &Declared,
    scope: &'x Scope<'x>,
    binders: &[NBinder],
) -> Result<Named, Memory>
    ensures { IfOk result (λ r. BelowWords (top_by top.now) (locals_of scope.now) (binders_of binders.now) (nexpr_of e.now) (binders_of r.binders) (with_binders r.words (locals_of scope.now))) }
{
    if let Some(kept) = new_binders(alloc, binders, top, &*scope)? {
        return Ok(kept);
    }
    let mut used = used_below(alloc, e, top, &*scope, binders)?;
    let named = named_binders(alloc, binders, top, &*scope, &mut used)?;
    Ok(named)
}

/// The binders of a constructor.
pub fn con_binders<'x>(
    alloc: Global,
    con: &NConDecl,
    top: &Declared,
    scope: &'x Scope<'x>,
) -> Result<Named, Memory>
    ensures { IfOk result (λ r. FieldWords (top_by top.now) (locals_of scope.now) (binders_of con.now.binders) (ntys_of con.now.fields) (binders_of r.binders) (with_binders r.words (locals_of scope.now))) }
{
    let binders = con.binders.as_slice();
    if let Some(kept) = new_binders(alloc, binders, top, &*scope)? {
        return Ok(kept);
    }
    let mut used = used_in_con(alloc, con, top, &*scope)?;
    let named = named_binders(alloc, binders, top, &*scope, &mut used)?;
    Ok(named)
}
