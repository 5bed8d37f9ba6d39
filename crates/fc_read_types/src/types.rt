//! Types.
ghost use Rattle.std.specs.Prelude.{◌≡◌, ◌<◌, ◌∷◌, length, IfOk, IfErr};
ghost use Rattle.fc_syntax.specs.Tree.{TVar, TCon, TInt};
ghost use Rattle.fc_syntax.specs.View.{ty_of, tys_of};
ghost use Rattle.fc_syntax.specs.declared.keyword.Keyword.TheVariants as key;
ghost use Rattle.fc_model.specs.Words.{Key};
ghost use Rattle.fc_model.specs.Grammar.{AType, ATypeForm, Many, Several, functions, type_applications};
ghost use Rattle.fc_read_parts.specs.Reading.{StopsAt, Takes};
ghost use Rattle.fc_read_parts.specs.Seen.{ahead};

use crate::kinds::read_kind;
use fc_read_parts::{
    Stop, Terminal, Tokens, closes, read_close, read_equality_role, read_lower, read_open,
};
use fc_syntax::{Keyword, Memory, Name, Seq, Text, Ty};
use std::alloc::Global;

#[tactic(auto, using(fc_syntax::proofs::View::view_rules))]
fn variable(word: Text) -> Ty
    ensures { ty_of result ≡ TVar word }
{
    Ty::Var(word)
}

#[tactic(auto, using(fc_syntax::proofs::View::view_rules))]
fn constructor(name: Name) -> Ty
    ensures { ty_of result ≡ TCon name }
{
    Ty::Con(name)
}

#[tactic(auto, using(fc_syntax::proofs::View::view_rules))]
fn integer() -> Ty
    ensures { ty_of result ≡ TInt }
{
    Ty::IntHash
}

/// From the first type to the next, and so on; the last one is the result.
fn chain(alloc: Global, first: Ty, others: Seq<Ty>) -> Result<Ty, Memory>
    ensures { IfOk result (λ t. ty_of t ≡ functions (ty_of first) (tys_of others)) }
{
    let mut front = others.into_vec();
    let Some(last) = front.pop() else {
        return Ok(first);
    };
    let mut t = last;
    while let Some(from) = front.pop() {
        t = Ty::function(alloc, from, t)?;
    }
    Ty::function(alloc, first, t)
}

/// A type applied to the first of these, then to the next, and so on.
fn applied_to(alloc: Global, head: Ty, arguments: Seq<Ty>) -> Result<Ty, Memory>
    ensures { IfOk result (λ t. ty_of t ≡ type_applications (ty_of head) (tys_of arguments)) }
{
    let mut t = head;
    for argument in arguments.into_vec() {
        t = Ty::applied(alloc, t, argument)?;
    }
    Ok(t)
}

/// Reads a type. Stops at the first token that cannot go on.
#[cycle(types)]
#[inline(never)]
pub fn read_type(alloc: Global, tokens: &mut Tokens<'_>) -> Result<Ty, Stop>
    ensures read { IfOk result (λ x. Takes AType (ahead tokens.old) (ty_of x) (ahead tokens.new)) }
    ensures shorter { IfOk result (λ _. length (ahead tokens.new) < length (ahead tokens.old)) }
    ensures fault { IfErr result (StopsAt AType (ahead tokens.old)) }
{
    let left = tokens.left();
    match tokens.next() {
        Some(Terminal::Lower(word)) => Ok(variable(tokens.text(alloc, word)?)),
        Some(Terminal::Upper(word)) => Ok(constructor(tokens.plain_name(alloc, word)?)),
        Some(Terminal::UpperOf(front, word)) => Ok(constructor(tokens.name_in(
            alloc, front, word,
        )?)),
        Some(Terminal::Key(Keyword::IntHash)) => Ok(integer()),
        Some(Terminal::Open) => read_type_form(alloc, tokens),
        _ => Err(Stop::Form(left)),
    }
}

/// A type behind its opening bracket: a form of its own, or a head that is applied.
#[cycle(types)]
#[inline(never)]
fn read_type_form(alloc: Global, tokens: &mut Tokens<'_>) -> Result<Ty, Stop>
    ensures read { IfOk result (λ x. Takes ATypeForm (ahead tokens.old) (ty_of x) (ahead tokens.new)) }
    ensures shorter { IfOk result (λ _. length (ahead tokens.new) < length (ahead tokens.old)) }
    ensures fault { IfErr result (StopsAt ATypeForm (ahead tokens.old)) }
{
    let left = tokens.left();
    match tokens.next() {
        Some(Terminal::Key(Keyword::Fun)) => read_function(alloc, tokens),
        Some(Terminal::Key(Keyword::Forall)) => read_for_all(alloc, tokens),
        Some(Terminal::Key(Keyword::CoForall)) => read_for_all_coercions(alloc, tokens),
        Some(Terminal::Lower(word)) => {
            let head = variable(tokens.text(alloc, word)?);
            let types = read_some_types(alloc, tokens)?;
            Ok(applied_to(alloc, head, types)?)
        }
        Some(Terminal::Upper(word)) => {
            let head = constructor(tokens.plain_name(alloc, word)?);
            let types = read_some_types(alloc, tokens)?;
            Ok(applied_to(alloc, head, types)?)
        }
        Some(Terminal::UpperOf(front, word)) => {
            let head = constructor(tokens.name_in(alloc, front, word)?);
            let types = read_some_types(alloc, tokens)?;
            Ok(applied_to(alloc, head, types)?)
        }
        Some(Terminal::Key(Keyword::IntHash)) => {
            let head = integer();
            let types = read_some_types(alloc, tokens)?;
            Ok(applied_to(alloc, head, types)?)
        }
        Some(Terminal::Open) => {
            let head = read_type_form(alloc, tokens)?;
            let types = read_some_types(alloc, tokens)?;
            Ok(applied_to(alloc, head, types)?)
        }
        _ => Err(Stop::Form(left)),
    }
}

/// A type of functions, behind its word.
#[cycle(types)]
#[inline(never)]
fn read_function(alloc: Global, tokens: &mut Tokens<'_>) -> Result<Ty, Stop>
    ensures read { IfOk result (λ x. Takes ATypeForm (Key key.Fun ∷ ahead tokens.old) (ty_of x) (ahead tokens.new)) }
    ensures shorter { IfOk result (λ _. length (ahead tokens.new) < length (ahead tokens.old)) }
    ensures fault { IfErr result (StopsAt ATypeForm (Key key.Fun ∷ ahead tokens.old)) }
{
    let from = read_type(alloc, tokens)?;
    let others = read_some_types(alloc, tokens)?;
    Ok(chain(alloc, from, others)?)
}

/// A type for each type, behind its word.
#[cycle(types)]
#[inline(never)]
fn read_for_all(alloc: Global, tokens: &mut Tokens<'_>) -> Result<Ty, Stop>
    ensures read { IfOk result (λ x. Takes ATypeForm (Key key.Forall ∷ ahead tokens.old) (ty_of x) (ahead tokens.new)) }
    ensures shorter { IfOk result (λ _. length (ahead tokens.new) < length (ahead tokens.old)) }
    ensures fault { IfErr result (StopsAt ATypeForm (Key key.Forall ∷ ahead tokens.old)) }
{
    read_open(tokens)?;
    let word = read_lower(alloc, tokens)?;
    let kind = read_kind(alloc, tokens)?;
    read_close(tokens)?;
    let body = read_type(alloc, tokens)?;
    read_close(tokens)?;
    Ok(Ty::for_all(alloc, word, kind, body)?)
}

/// A type for each coercion, behind its word.
#[cycle(types)]
#[inline(never)]
fn read_for_all_coercions(alloc: Global, tokens: &mut Tokens<'_>) -> Result<Ty, Stop>
    ensures read { IfOk result (λ x. Takes ATypeForm (Key key.CoForall ∷ ahead tokens.old) (ty_of x) (ahead tokens.new)) }
    ensures shorter { IfOk result (λ _. length (ahead tokens.new) < length (ahead tokens.old)) }
    ensures fault { IfErr result (StopsAt ATypeForm (Key key.CoForall ∷ ahead tokens.old)) }
{
    let role = read_equality_role(tokens)?;
    let left = read_type(alloc, tokens)?;
    let right = read_type(alloc, tokens)?;
    let body = read_type(alloc, tokens)?;
    read_close(tokens)?;
    Ok(Ty::for_all_coercions(alloc, role, left, right, body)?)
}

/// Reads types, one at least, up to the closing bracket, and that. Stops at the first token that cannot go on.
#[cycle(types)]
#[tactic(auto, using(fc_read_parts::proofs::Stars::star_rules))]
#[inline(never)]
fn read_some_types(alloc: Global, tokens: &mut Tokens<'_>) -> Result<Seq<Ty>, Stop>
    ensures read { IfOk result (λ x. Takes (Several AType) (ahead tokens.old) (tys_of x) (ahead tokens.new)) }
    ensures shorter { IfOk result (λ _. length (ahead tokens.new) < length (ahead tokens.old)) }
    ensures fault { IfErr result (StopsAt (Several AType) (ahead tokens.old)) }
{
    let mut all = Seq::new(alloc);
    all.push(read_type(alloc, tokens)?)?;
    'each: loop {
        if closes(tokens) {
            return Ok(all);
        }
        all.push(read_type(alloc, tokens)?)?;
    }
}

/// Reads types up to the closing bracket, and that. Stops at the first token that cannot go on.
#[tactic(auto, using(fc_read_parts::proofs::Stars::star_rules))]
#[inline(never)]
pub fn read_types(alloc: Global, tokens: &mut Tokens<'_>) -> Result<Seq<Ty>, Stop>
    ensures read { IfOk result (λ x. Takes (Many AType) (ahead tokens.old) (tys_of x) (ahead tokens.new)) }
    ensures shorter { IfOk result (λ _. length (ahead tokens.new) < length (ahead tokens.old)) }
    ensures fault { IfErr result (StopsAt (Many AType) (ahead tokens.old)) }
{
    let mut all = Seq::new(alloc);
    'each: loop {
        if closes(tokens) {
            return Ok(all);
        }
        all.push(read_type(alloc, tokens)?)?;
    }
}
