//! Lets and join points.
ghost use Rattle.std.specs.Prelude.{◌<◌, ◌∷◌, length, map, IfOk, IfErr};
ghost use Rattle.fc_syntax.specs.View.{bind_of, expr_of, join_of};
ghost use Rattle.fc_syntax.specs.declared.keyword.Keyword.TheVariants as key;
ghost use Rattle.fc_model.specs.Words.{Key};
ghost use Rattle.fc_model.specs.Grammar.{ABind, AJoinBind, AnExpressionForm, Several};
ghost use Rattle.fc_read_parts.specs.Reading.{StopsAt, Takes};
ghost use Rattle.fc_read_parts.specs.Seen.{ahead};

use crate::expressions::read_expression;
use crate::trees::{one_bind, one_join};
use fc_read_parts::{Stop, Terminal, Tokens, closes, read_close, read_lower, read_open};
use fc_read_types::{read_binders, read_type};
use fc_syntax::{Bind, Expr, JoinBind, Seq};
use std::alloc::Global;

/// A let of one bind, behind its word.
#[cycle(expressions)]
#[inline(never)]
pub(crate) fn read_let(alloc: Global, tokens: &mut Tokens<'_>) -> Result<Expr, Stop>
    ensures read { IfOk result (λ x. Takes AnExpressionForm (Key key.Let ∷ ahead tokens.old) (expr_of x) (ahead tokens.new)) }
    ensures shorter { IfOk result (λ _. length (ahead tokens.new) < length (ahead tokens.old)) }
    ensures fault { IfErr result (StopsAt AnExpressionForm (Key key.Let ∷ ahead tokens.old)) }
{
    let bind = read_bind(alloc, tokens)?;
    let body = read_expression(alloc, tokens)?;
    read_close(tokens)?;
    Ok(one_bind(alloc, bind, body)?)
}

/// A recursive let, behind its word.
#[cycle(expressions)]
#[tactic(auto, using(crate::proofs::Lists::binds_are))]
#[inline(never)]
pub(crate) fn read_recursive_let(alloc: Global, tokens: &mut Tokens<'_>) -> Result<Expr, Stop>
    ensures read { IfOk result (λ x. Takes AnExpressionForm (Key key.LetRec ∷ ahead tokens.old) (expr_of x) (ahead tokens.new)) }
    ensures shorter { IfOk result (λ _. length (ahead tokens.new) < length (ahead tokens.old)) }
    ensures fault { IfErr result (StopsAt AnExpressionForm (Key key.LetRec ∷ ahead tokens.old)) }
{
    read_open(tokens)?;
    let binds = read_some_binds(alloc, tokens)?;
    let body = read_expression(alloc, tokens)?;
    read_close(tokens)?;
    Ok(Expr::binding(alloc, true, binds, body)?)
}

/// One join point, behind its word.
#[cycle(expressions)]
#[inline(never)]
pub(crate) fn read_join(alloc: Global, tokens: &mut Tokens<'_>) -> Result<Expr, Stop>
    ensures read { IfOk result (λ x. Takes AnExpressionForm (Key key.Join ∷ ahead tokens.old) (expr_of x) (ahead tokens.new)) }
    ensures shorter { IfOk result (λ _. length (ahead tokens.new) < length (ahead tokens.old)) }
    ensures fault { IfErr result (StopsAt AnExpressionForm (Key key.Join ∷ ahead tokens.old)) }
{
    let t = read_type(alloc, tokens)?;
    let join = read_join_bind(alloc, tokens)?;
    let body = read_expression(alloc, tokens)?;
    read_close(tokens)?;
    Ok(one_join(alloc, t, join, body)?)
}

/// Recursive join points, behind their word.
#[cycle(expressions)]
#[tactic(auto, using(crate::proofs::Lists::joins_are))]
#[inline(never)]
pub(crate) fn read_recursive_join(alloc: Global, tokens: &mut Tokens<'_>) -> Result<Expr, Stop>
    ensures read { IfOk result (λ x. Takes AnExpressionForm (Key key.JoinRec ∷ ahead tokens.old) (expr_of x) (ahead tokens.new)) }
    ensures shorter { IfOk result (λ _. length (ahead tokens.new) < length (ahead tokens.old)) }
    ensures fault { IfErr result (StopsAt AnExpressionForm (Key key.JoinRec ∷ ahead tokens.old)) }
{
    let t = read_type(alloc, tokens)?;
    read_open(tokens)?;
    let joins = read_some_join_binds(alloc, tokens)?;
    let body = read_expression(alloc, tokens)?;
    read_close(tokens)?;
    Ok(Expr::joined(alloc, true, t, joins, body)?)
}

/// A bind of a let.
#[cycle(expressions)]
#[inline(never)]
fn read_bind(alloc: Global, tokens: &mut Tokens<'_>) -> Result<Bind, Stop>
    ensures read { IfOk result (λ x. Takes ABind (ahead tokens.old) (bind_of x) (ahead tokens.new)) }
    ensures shorter { IfOk result (λ _. length (ahead tokens.new) < length (ahead tokens.old)) }
    ensures fault { IfErr result (StopsAt ABind (ahead tokens.old)) }
{
    let left = tokens.left();
    let Some(Terminal::Open) = tokens.next() else {
        return Err(Stop::Form(left));
    };
    let name = read_lower(alloc, tokens)?;
    let ty = read_type(alloc, tokens)?;
    let rhs = read_expression(alloc, tokens)?;
    read_close(tokens)?;
    Ok(Bind { name, ty, rhs })
}

/// Binds of a let, one at least, up to the closing bracket, and that.
#[cycle(expressions)]
#[tactic(auto, using(fc_read_parts::proofs::Stars::star_rules))]
#[inline(never)]
fn read_some_binds(alloc: Global, tokens: &mut Tokens<'_>) -> Result<Seq<Bind>, Stop>
    ensures read { IfOk result (λ x. Takes (Several ABind) (ahead tokens.old) (map bind_of x) (ahead tokens.new)) }
    ensures shorter { IfOk result (λ _. length (ahead tokens.new) < length (ahead tokens.old)) }
    ensures fault { IfErr result (StopsAt (Several ABind) (ahead tokens.old)) }
{
    let mut all = Seq::new(alloc);
    all.push(read_bind(alloc, tokens)?)?;
    'each: loop {
        if closes(tokens) {
            return Ok(all);
        }
        all.push(read_bind(alloc, tokens)?)?;
    }
}

/// A join point.
#[cycle(expressions)]
#[inline(never)]
fn read_join_bind(alloc: Global, tokens: &mut Tokens<'_>) -> Result<JoinBind, Stop>
    ensures read { IfOk result (λ x. Takes AJoinBind (ahead tokens.old) (join_of x) (ahead tokens.new)) }
    ensures shorter { IfOk result (λ _. length (ahead tokens.new) < length (ahead tokens.old)) }
    ensures fault { IfErr result (StopsAt AJoinBind (ahead tokens.old)) }
{
    let left = tokens.left();
    let Some(Terminal::Open) = tokens.next() else {
        return Err(Stop::Form(left));
    };
    let name = read_lower(alloc, tokens)?;
    read_open(tokens)?;
    let params = read_binders(alloc, tokens)?;
    let rhs = read_expression(alloc, tokens)?;
    read_close(tokens)?;
    Ok(JoinBind { name, params, rhs })
}

/// Join points, one at least, up to the closing bracket, and that.
#[cycle(expressions)]
#[tactic(auto, using(fc_read_parts::proofs::Stars::star_rules))]
#[inline(never)]
fn read_some_join_binds(alloc: Global, tokens: &mut Tokens<'_>) -> Result<Seq<JoinBind>, Stop>
    ensures read { IfOk result (λ x. Takes (Several AJoinBind) (ahead tokens.old) (map join_of x) (ahead tokens.new)) }
    ensures shorter { IfOk result (λ _. length (ahead tokens.new) < length (ahead tokens.old)) }
    ensures fault { IfErr result (StopsAt (Several AJoinBind) (ahead tokens.old)) }
{
    let mut all = Seq::new(alloc);
    all.push(read_join_bind(alloc, tokens)?)?;
    'each: loop {
        if closes(tokens) {
            return Ok(all);
        }
        all.push(read_join_bind(alloc, tokens)?)?;
    }
}
