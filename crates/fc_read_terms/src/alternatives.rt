//! Cases and their alternatives.
ghost use Rattle.std.specs.Prelude.{◌≡◌, ◌<◌, ◌∷◌, length, map, IfOk, IfErr};
ghost use Rattle.fc_syntax.specs.Tree.{Branch};
ghost use Rattle.fc_syntax.specs.View.{alt_of, binders_of, expr_of};
ghost use Rattle.fc_syntax.specs.declared.keyword.Keyword.TheVariants as key;
ghost use Rattle.fc_model.specs.Words.{Key};
ghost use Rattle.fc_model.specs.Grammar.{AnAlternative, AnAlternativeForm, AnExpressionForm, Many};
ghost use Rattle.fc_read_parts.specs.Reading.{StopsAt, Takes};
ghost use Rattle.fc_read_parts.specs.Seen.{ahead};

use crate::expressions::read_expression;
use fc_read_parts::{Stop, Terminal, Tokens, closes, read_close, read_lower, read_open};
use fc_read_types::{read_binders, read_type};
use fc_syntax::{Alt, Binder, Expr, Head, Keyword, Seq};
use std::alloc::Global;

/// A case, behind its word.
#[cycle(expressions)]
#[tactic(auto, using(crate::proofs::Lists::alts_are))]
#[inline(never)]
pub(crate) fn read_case(alloc: Global, tokens: &mut Tokens<'_>) -> Result<Expr, Stop>
    ensures read { IfOk result (λ x. Takes AnExpressionForm (Key key.Case ∷ ahead tokens.old) (expr_of x) (ahead tokens.new)) }
    ensures shorter { IfOk result (λ _. length (ahead tokens.new) < length (ahead tokens.old)) }
    ensures fault { IfErr result (StopsAt AnExpressionForm (Key key.Case ∷ ahead tokens.old)) }
{
    let scrutinee = read_expression(alloc, tokens)?;
    read_open(tokens)?;
    let word = read_lower(alloc, tokens)?;
    let ty = read_type(alloc, tokens)?;
    read_close(tokens)?;
    let answer = read_type(alloc, tokens)?;
    let alts = read_alternatives(alloc, tokens)?;
    Ok(Expr::case_of(alloc, scrutinee, word, ty, answer, alts)?)
}

/// An alternative.
#[cycle(expressions)]
#[inline(never)]
fn read_alternative(alloc: Global, tokens: &mut Tokens<'_>) -> Result<Alt, Stop>
    ensures read { IfOk result (λ x. Takes AnAlternative (ahead tokens.old) (alt_of x) (ahead tokens.new)) }
    ensures shorter { IfOk result (λ _. length (ahead tokens.new) < length (ahead tokens.old)) }
    ensures fault { IfErr result (StopsAt AnAlternative (ahead tokens.old)) }
{
    let left = tokens.left();
    let Some(Terminal::Open) = tokens.next() else {
        return Err(Stop::Form(left));
    };
    read_alternative_form(alloc, tokens)
}

#[inline(never)]
fn branch(head: Head, binders: Seq<Binder>, body: Expr) -> Alt
    ensures { alt_of result ≡ Branch head (binders_of binders) (expr_of body) }
{
    Alt {
        head,
        binders,
        body,
    }
}

/// An alternative behind its opening bracket.
#[cycle(expressions)]
#[inline(never)]
fn read_alternative_form(alloc: Global, tokens: &mut Tokens<'_>) -> Result<Alt, Stop>
    ensures read { IfOk result (λ x. Takes AnAlternativeForm (ahead tokens.old) (alt_of x) (ahead tokens.new)) }
    ensures shorter { IfOk result (λ _. length (ahead tokens.new) < length (ahead tokens.old)) }
    ensures fault { IfErr result (StopsAt AnAlternativeForm (ahead tokens.old)) }
{
    let left = tokens.left();
    match tokens.next() {
        Some(Terminal::Key(Keyword::Default)) => {
            let body = read_expression(alloc, tokens)?;
            read_close(tokens)?;
            Ok(branch(Head::Default, Seq::new(alloc), body))
        }
        Some(Terminal::Literal(n)) => {
            let body = read_expression(alloc, tokens)?;
            read_close(tokens)?;
            Ok(branch(Head::Lit(n), Seq::new(alloc), body))
        }
        Some(Terminal::Upper(word)) => {
            let name = tokens.plain_name(alloc, word)?;
            read_open(tokens)?;
            let binders = read_binders(alloc, tokens)?;
            let body = read_expression(alloc, tokens)?;
            read_close(tokens)?;
            Ok(branch(Head::Con(name), binders, body))
        }
        Some(Terminal::UpperOf(front, word)) => {
            let name = tokens.name_in(alloc, front, word)?;
            read_open(tokens)?;
            let binders = read_binders(alloc, tokens)?;
            let body = read_expression(alloc, tokens)?;
            read_close(tokens)?;
            Ok(branch(Head::Con(name), binders, body))
        }
        _ => Err(Stop::Form(left)),
    }
}

/// Alternatives up to the closing bracket, and that.
#[cycle(expressions)]
#[tactic(auto, using(fc_read_parts::proofs::Stars::star_rules))]
#[inline(never)]
fn read_alternatives(alloc: Global, tokens: &mut Tokens<'_>) -> Result<Seq<Alt>, Stop>
    ensures read { IfOk result (λ x. Takes (Many AnAlternative) (ahead tokens.old) (map alt_of x) (ahead tokens.new)) }
    ensures shorter { IfOk result (λ _. length (ahead tokens.new) < length (ahead tokens.old)) }
    ensures fault { IfErr result (StopsAt (Many AnAlternative) (ahead tokens.old)) }
{
    let mut all = Seq::new(alloc);
    'each: loop {
        if closes(tokens) {
            return Ok(all);
        }
        all.push(read_alternative(alloc, tokens)?)?;
    }
}
