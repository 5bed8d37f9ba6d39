//! Other words for the binders of nameless expressions.
use fc_syntax::{Memory, NAlt, NBind, NBinder, NExpr, NJoinBind, Seq, Text};
use std::alloc::Global;
use std::mem;

/// The words behind so many of them.
fn behind(words: &[Text], count: usize) -> &[Text] {
    if count < words.len() {
        &words[count..]
    } else {
        &[]
    }
}

/// Gives a binder another word.
fn set_binder(alloc: Global, binder: &mut NBinder, word: &Text) -> Result<(), Memory> {
    let word = word.copy(alloc)?;
    match binder {
        NBinder::Value(hint, _) => *hint = word,
        NBinder::OfType(hint, _) => *hint = word,
        NBinder::OfCo(hint, _, _, _) => *hint = word,
    }
    Ok(())
}

/// Gives binders other words, the first word to the first.
fn set_binders(alloc: Global, binders: &mut Seq<NBinder>, words: &[Text]) -> Result<(), Memory> {
    for (at, word) in words.iter().enumerate() {
        if at < binders.len() {
            set_binder(alloc, binders.at_mut(at), word)?;
        }
    }
    Ok(())
}

/// Gives the binds of a let other words, the first word to the first.
fn set_binds(alloc: Global, binds: &mut Seq<NBind>, words: &[Text]) -> Result<(), Memory> {
    for (at, word) in words.iter().enumerate() {
        if at < binds.len() {
            let bind = binds.at_mut(at);
            bind.name = word.copy(alloc)?;
        }
    }
    Ok(())
}

/// Gives join points other words, the first word to the first.
fn set_joins(alloc: Global, joins: &mut Seq<NJoinBind>, words: &[Text]) -> Result<(), Memory> {
    for (at, word) in words.iter().enumerate() {
        if at < joins.len() {
            let join = joins.at_mut(at);
            join.name = word.copy(alloc)?;
        }
    }
    Ok(())
}

/// Gives the binders of the first alternative other words.
fn set_alternative(alloc: Global, alts: &mut Seq<NAlt>, words: &[Text]) -> Result<(), Memory> {
    if alts.is_empty() {
        return Ok(());
    }
    let alt = alts.at_mut(0);
    set_binders(alloc, &mut alt.binders, words)
}

/// Gives the binders of an expression other words, from the outermost in: of lambdas, of groups of binds or join points, and of a case and its
/// first alternative, behind which all keep their words.
pub(crate) fn set_words(alloc: Global, e: &mut NExpr, words: &[Text]) -> Result<(), Memory> {
    let [word, others @ ..] = words else {
        return Ok(());
    };
    match e {
        NExpr::Lam(binder, body) => {
            set_binder(alloc, &mut **binder, word)?;
            set_words(alloc, &mut **body, others)
        }
        NExpr::Let(_, binds, body) => {
            set_binds(alloc, binds, words)?;
            set_words(alloc, &mut **body, behind(words, binds.len()))
        }
        NExpr::Join(_, _, joins, body) => {
            set_joins(alloc, joins, words)?;
            set_words(alloc, &mut **body, behind(words, joins.len()))
        }
        NExpr::Case(_, hint, _, _, alts) => {
            *hint = word.copy(alloc)?;
            set_alternative(alloc, alts, others)
        }
        _ => Ok(()),
    }
}

/// Puts the body of a lambda in its place. What is no lambda stays.
pub(crate) fn leave_lambda(e: &mut NExpr) {
    let mut inner = NExpr::Lit(0);
    match e {
        NExpr::Lam(_, body) => mem::swap(&mut inner, &mut **body),
        _ => return,
    }
    *e = inner;
}
