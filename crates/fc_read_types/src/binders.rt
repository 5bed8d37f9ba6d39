//! Binders of expressions.
ghost use Rattle.std.specs.Prelude.{◌<◌, ◌∷◌, length, IfOk, IfErr};
ghost use Rattle.fc_syntax.specs.View.{binder_of, binders_of};
ghost use Rattle.fc_syntax.specs.declared.keyword.Keyword.TheVariants as key;
ghost use Rattle.fc_model.specs.Words.{Key};
ghost use Rattle.fc_model.specs.Grammar.{ABinder, ABinderForm, Many, Several};
ghost use Rattle.fc_read_parts.specs.Reading.{StopsAt, Takes};
ghost use Rattle.fc_read_parts.specs.Seen.{ahead};

use crate::kinds::read_kind;
use crate::types::read_type;
use fc_read_parts::{Stop, Terminal, Tokens, closes, read_close, read_equality_role, read_lower};
use fc_syntax::{Binder, Keyword, Seq};
use std::alloc::Global;

/// Reads a binder. Stops at the first token that cannot go on.
pub fn read_binder(alloc: Global, tokens: &mut Tokens<'_>) -> Result<Binder, Stop>
    ensures read { IfOk result (λ x. Takes ABinder (ahead tokens.old) (binder_of x) (ahead tokens.new)) }
    ensures shorter { IfOk result (λ _. length (ahead tokens.new) < length (ahead tokens.old)) }
    ensures fault { IfErr result (StopsAt ABinder (ahead tokens.old)) }
{
    let left = tokens.left();
    let Some(Terminal::Open) = tokens.next() else {
        return Err(Stop::Form(left));
    };
    let binder = read_binder_form(alloc, tokens)?;
    Ok(binder)
}

/// A binder behind its opening bracket.
fn read_binder_form(alloc: Global, tokens: &mut Tokens<'_>) -> Result<Binder, Stop>
    ensures read { IfOk result (λ x. Takes ABinderForm (ahead tokens.old) (binder_of x) (ahead tokens.new)) }
    ensures shorter { IfOk result (λ _. length (ahead tokens.new) < length (ahead tokens.old)) }
    ensures fault { IfErr result (StopsAt ABinderForm (ahead tokens.old)) }
{
    let left = tokens.left();
    match tokens.next() {
        Some(Terminal::Lower(word)) => {
            let name = tokens.text(alloc, word)?;
            let t = read_type(alloc, tokens)?;
            read_close(tokens)?;
            Ok(Binder::Value(name, t))
        }
        Some(Terminal::Key(Keyword::Type)) => read_type_binder(alloc, tokens),
        Some(Terminal::Key(Keyword::Co)) => read_coercion_binder(alloc, tokens),
        _ => Err(Stop::Form(left)),
    }
}

/// A binder of a type, behind its word.
fn read_type_binder(alloc: Global, tokens: &mut Tokens<'_>) -> Result<Binder, Stop>
    ensures read { IfOk result (λ x. Takes ABinderForm (Key key.Type ∷ ahead tokens.old) (binder_of x) (ahead tokens.new)) }
    ensures shorter { IfOk result (λ _. length (ahead tokens.new) < length (ahead tokens.old)) }
    ensures fault { IfErr result (StopsAt ABinderForm (Key key.Type ∷ ahead tokens.old)) }
{
    let name = read_lower(alloc, tokens)?;
    let kind = read_kind(alloc, tokens)?;
    read_close(tokens)?;
    Ok(Binder::OfType(name, kind))
}

/// A binder of a coercion, behind its word.
fn read_coercion_binder(alloc: Global, tokens: &mut Tokens<'_>) -> Result<Binder, Stop>
    ensures read { IfOk result (λ x. Takes ABinderForm (Key key.Co ∷ ahead tokens.old) (binder_of x) (ahead tokens.new)) }
    ensures shorter { IfOk result (λ _. length (ahead tokens.new) < length (ahead tokens.old)) }
    ensures fault { IfErr result (StopsAt ABinderForm (Key key.Co ∷ ahead tokens.old)) }
{
    let name = read_lower(alloc, tokens)?;
    let role = read_equality_role(tokens)?;
    let left = read_type(alloc, tokens)?;
    let right = read_type(alloc, tokens)?;
    read_close(tokens)?;
    Ok(Binder::OfCo(name, role, left, right))
}

/// Reads binders up to the closing bracket, and that. Stops at the first token that cannot go on.
#[tactic(auto, using(fc_read_parts::proofs::Stars::star_rules))]
#[inline(never)]
pub fn read_binders(alloc: Global, tokens: &mut Tokens<'_>) -> Result<Seq<Binder>, Stop>
    ensures read { IfOk result (λ x. Takes (Many ABinder) (ahead tokens.old) (binders_of x) (ahead tokens.new)) }
    ensures shorter { IfOk result (λ _. length (ahead tokens.new) < length (ahead tokens.old)) }
    ensures fault { IfErr result (StopsAt (Many ABinder) (ahead tokens.old)) }
{
    let mut all = Seq::new(alloc);
    'each: loop {
        if closes(tokens) {
            return Ok(all);
        }
        all.push(read_binder(alloc, tokens)?)?;
    }
}

/// Reads binders, one at least, up to the closing bracket, and that. Stops at the first token that cannot go on.
#[tactic(auto, using(fc_read_parts::proofs::Stars::star_rules))]
#[inline(never)]
pub fn read_some_binders(alloc: Global, tokens: &mut Tokens<'_>) -> Result<Seq<Binder>, Stop>
    ensures read { IfOk result (λ x. Takes (Several ABinder) (ahead tokens.old) (binders_of x) (ahead tokens.new)) }
    ensures shorter { IfOk result (λ _. length (ahead tokens.new) < length (ahead tokens.old)) }
    ensures fault { IfErr result (StopsAt (Several ABinder) (ahead tokens.old)) }
{
    let mut all = Seq::new(alloc);
    all.push(read_binder(alloc, tokens)?)?;
    'each: loop {
        if closes(tokens) {
            return Ok(all);
        }
        all.push(read_binder(alloc, tokens)?)?;
    }
}
