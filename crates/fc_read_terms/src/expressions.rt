//! Expressions and their arguments.
ghost use Rattle.std.specs.Prelude.{◌<◌, ◌∷◌, length, map, IfOk, IfErr};
ghost use Rattle.fc_syntax.specs.View.{arg_of, expr_of};
ghost use Rattle.fc_syntax.specs.declared.keyword.Keyword.TheVariants as key;
ghost use Rattle.fc_model.specs.Words.{Key};
ghost use Rattle.fc_model.specs.Grammar.{AnArgument, AnArgumentForm, AnExpression, AnExpressionForm, Many, Several};
ghost use Rattle.fc_read_parts.specs.Reading.{StopsAt, Takes};
ghost use Rattle.fc_read_parts.specs.Seen.{ahead};

use crate::alternatives::read_case;
use crate::groups::{read_join, read_let, read_recursive_join, read_recursive_let};
use crate::trees::{
    applied_to, construction, failure, jump, lambdas, literal, primitive, variable,
};
use fc_read_parts::{
    Stop, Terminal, Tokens, closes, read_close, read_lower, read_open, read_operator,
    read_upper_name, takes_co, takes_type,
};
use fc_read_types::{read_coercion, read_some_binders, read_type};
use fc_syntax::{Arg, Expr, Keyword, Seq};
use std::alloc::Global;

/// Reads an expression. Stops at the first token that cannot go on.
#[cycle(expressions)]
#[inline(never)]
pub fn read_expression(alloc: Global, tokens: &mut Tokens<'_>) -> Result<Expr, Stop>
    ensures read { IfOk result (λ x. Takes AnExpression (ahead tokens.old) (expr_of x) (ahead tokens.new)) }
    ensures shorter { IfOk result (λ _. length (ahead tokens.new) < length (ahead tokens.old)) }
    ensures fault { IfErr result (StopsAt AnExpression (ahead tokens.old)) }
{
    let left = tokens.left();
    match tokens.next() {
        Some(Terminal::Lower(word)) => Ok(variable(tokens.plain_name(alloc, word)?)),
        Some(Terminal::LowerOf(front, word)) => Ok(variable(tokens.name_in(alloc, front, word)?)),
        Some(Terminal::Literal(n)) => Ok(literal(n)),
        Some(Terminal::Open) => read_expression_form(alloc, tokens),
        _ => Err(Stop::Form(left)),
    }
}

/// An expression behind its opening bracket.
#[cycle(expressions)]
#[inline(never)]
fn read_expression_form(alloc: Global, tokens: &mut Tokens<'_>) -> Result<Expr, Stop>
    ensures read { IfOk result (λ x. Takes AnExpressionForm (ahead tokens.old) (expr_of x) (ahead tokens.new)) }
    ensures shorter { IfOk result (λ _. length (ahead tokens.new) < length (ahead tokens.old)) }
    ensures fault { IfErr result (StopsAt AnExpressionForm (ahead tokens.old)) }
{
    let left = tokens.left();
    match tokens.next() {
        Some(Terminal::Key(Keyword::App)) => read_application(alloc, tokens),
        Some(Terminal::Key(Keyword::Lam)) => read_lambda(alloc, tokens),
        Some(Terminal::Key(Keyword::Let)) => read_let(alloc, tokens),
        Some(Terminal::Key(Keyword::LetRec)) => read_recursive_let(alloc, tokens),
        Some(Terminal::Key(Keyword::Case)) => read_case(alloc, tokens),
        Some(Terminal::Key(Keyword::Cast)) => read_cast(alloc, tokens),
        Some(Terminal::Key(Keyword::Con)) => read_construction(alloc, tokens),
        Some(Terminal::Key(Keyword::Prim)) => read_primitive(alloc, tokens),
        Some(Terminal::Key(Keyword::Fail)) => read_failure(alloc, tokens),
        Some(Terminal::Key(Keyword::Join)) => read_join(alloc, tokens),
        Some(Terminal::Key(Keyword::JoinRec)) => read_recursive_join(alloc, tokens),
        Some(Terminal::Key(Keyword::Jump)) => read_jump(alloc, tokens),
        _ => Err(Stop::Form(left)),
    }
}

/// An application, behind its word.
#[cycle(expressions)]
#[inline(never)]
fn read_application(alloc: Global, tokens: &mut Tokens<'_>) -> Result<Expr, Stop>
    ensures read { IfOk result (λ x. Takes AnExpressionForm (Key key.App ∷ ahead tokens.old) (expr_of x) (ahead tokens.new)) }
    ensures shorter { IfOk result (λ _. length (ahead tokens.new) < length (ahead tokens.old)) }
    ensures fault { IfErr result (StopsAt AnExpressionForm (Key key.App ∷ ahead tokens.old)) }
{
    let head = read_expression(alloc, tokens)?;
    let args = read_some_arguments(alloc, tokens)?;
    Ok(applied_to(alloc, head, args)?)
}

/// A lambda, behind its word.
#[cycle(expressions)]
#[inline(never)]
fn read_lambda(alloc: Global, tokens: &mut Tokens<'_>) -> Result<Expr, Stop>
    ensures read { IfOk result (λ x. Takes AnExpressionForm (Key key.Lam ∷ ahead tokens.old) (expr_of x) (ahead tokens.new)) }
    ensures shorter { IfOk result (λ _. length (ahead tokens.new) < length (ahead tokens.old)) }
    ensures fault { IfErr result (StopsAt AnExpressionForm (Key key.Lam ∷ ahead tokens.old)) }
{
    read_open(tokens)?;
    let binders = read_some_binders(alloc, tokens)?;
    let body = read_expression(alloc, tokens)?;
    read_close(tokens)?;
    Ok(lambdas(alloc, binders, body)?)
}

/// An expression at another type, behind its word.
#[cycle(expressions)]
#[inline(never)]
fn read_cast(alloc: Global, tokens: &mut Tokens<'_>) -> Result<Expr, Stop>
    ensures read { IfOk result (λ x. Takes AnExpressionForm (Key key.Cast ∷ ahead tokens.old) (expr_of x) (ahead tokens.new)) }
    ensures shorter { IfOk result (λ _. length (ahead tokens.new) < length (ahead tokens.old)) }
    ensures fault { IfErr result (StopsAt AnExpressionForm (Key key.Cast ∷ ahead tokens.old)) }
{
    let e = read_expression(alloc, tokens)?;
    let g = read_coercion(alloc, tokens)?;
    read_close(tokens)?;
    Ok(Expr::cast(alloc, e, g)?)
}

/// A constructor with its arguments, behind its word.
#[cycle(expressions)]
#[tactic(auto, using(crate::proofs::Lists::args_are))]
#[inline(never)]
fn read_construction(alloc: Global, tokens: &mut Tokens<'_>) -> Result<Expr, Stop>
    ensures read { IfOk result (λ x. Takes AnExpressionForm (Key key.Con ∷ ahead tokens.old) (expr_of x) (ahead tokens.new)) }
    ensures shorter { IfOk result (λ _. length (ahead tokens.new) < length (ahead tokens.old)) }
    ensures fault { IfErr result (StopsAt AnExpressionForm (Key key.Con ∷ ahead tokens.old)) }
{
    let name = read_upper_name(alloc, tokens)?;
    let args = read_arguments(alloc, tokens)?;
    Ok(construction(name, args))
}

/// A primitive with its arguments, behind its word.
#[cycle(expressions)]
#[tactic(auto, using(crate::proofs::Lists::exprs_are))]
#[inline(never)]
fn read_primitive(alloc: Global, tokens: &mut Tokens<'_>) -> Result<Expr, Stop>
    ensures read { IfOk result (λ x. Takes AnExpressionForm (Key key.Prim ∷ ahead tokens.old) (expr_of x) (ahead tokens.new)) }
    ensures shorter { IfOk result (λ _. length (ahead tokens.new) < length (ahead tokens.old)) }
    ensures fault { IfErr result (StopsAt AnExpressionForm (Key key.Prim ∷ ahead tokens.old)) }
{
    let op = read_operator(tokens)?;
    let args = read_expressions(alloc, tokens)?;
    Ok(primitive(op, args))
}

/// A failure, behind its word.
#[inline(never)]
fn read_failure(alloc: Global, tokens: &mut Tokens<'_>) -> Result<Expr, Stop>
    ensures read { IfOk result (λ x. Takes AnExpressionForm (Key key.Fail ∷ ahead tokens.old) (expr_of x) (ahead tokens.new)) }
    ensures shorter { IfOk result (λ _. length (ahead tokens.new) < length (ahead tokens.old)) }
    ensures fault { IfErr result (StopsAt AnExpressionForm (Key key.Fail ∷ ahead tokens.old)) }
{
    let t = read_type(alloc, tokens)?;
    read_close(tokens)?;
    Ok(failure(t))
}

/// A jump, behind its word.
#[cycle(expressions)]
#[tactic(auto, using(crate::proofs::Lists::args_are))]
#[inline(never)]
fn read_jump(alloc: Global, tokens: &mut Tokens<'_>) -> Result<Expr, Stop>
    ensures read { IfOk result (λ x. Takes AnExpressionForm (Key key.Jump ∷ ahead tokens.old) (expr_of x) (ahead tokens.new)) }
    ensures shorter { IfOk result (λ _. length (ahead tokens.new) < length (ahead tokens.old)) }
    ensures fault { IfErr result (StopsAt AnExpressionForm (Key key.Jump ∷ ahead tokens.old)) }
{
    let name = read_lower(alloc, tokens)?;
    let args = read_arguments(alloc, tokens)?;
    Ok(jump(name, args))
}

/// An argument: a term, a type or a coercion.
#[cycle(expressions)]
#[inline(never)]
fn read_argument(alloc: Global, tokens: &mut Tokens<'_>) -> Result<Arg, Stop>
    ensures read { IfOk result (λ x. Takes AnArgument (ahead tokens.old) (arg_of x) (ahead tokens.new)) }
    ensures shorter { IfOk result (λ _. length (ahead tokens.new) < length (ahead tokens.old)) }
    ensures fault { IfErr result (StopsAt AnArgument (ahead tokens.old)) }
{
    let left = tokens.left();
    match tokens.next() {
        Some(Terminal::Lower(word)) => Ok(Arg::Term(variable(tokens.plain_name(alloc, word)?))),
        Some(Terminal::LowerOf(front, word)) => {
            Ok(Arg::Term(variable(tokens.name_in(alloc, front, word)?)))
        }
        Some(Terminal::Literal(n)) => Ok(Arg::Term(literal(n))),
        Some(Terminal::Open) => read_argument_form(alloc, tokens),
        _ => Err(Stop::Form(left)),
    }
}

/// A type as an argument, behind its word.
#[inline(never)]
fn read_type_argument(alloc: Global, tokens: &mut Tokens<'_>) -> Result<Arg, Stop>
    ensures read { IfOk result (λ x. Takes AnArgumentForm (Key key.Type ∷ ahead tokens.old) (arg_of x) (ahead tokens.new)) }
    ensures shorter { IfOk result (λ _. length (ahead tokens.new) < length (ahead tokens.old)) }
    ensures fault { IfErr result (StopsAt AnArgumentForm (Key key.Type ∷ ahead tokens.old)) }
{
    let t = read_type(alloc, tokens)?;
    read_close(tokens)?;
    Ok(Arg::OfType(t))
}

/// A coercion as an argument, behind its word.
#[inline(never)]
fn read_coercion_argument(alloc: Global, tokens: &mut Tokens<'_>) -> Result<Arg, Stop>
    ensures read { IfOk result (λ x. Takes AnArgumentForm (Key key.Co ∷ ahead tokens.old) (arg_of x) (ahead tokens.new)) }
    ensures shorter { IfOk result (λ _. length (ahead tokens.new) < length (ahead tokens.old)) }
    ensures fault { IfErr result (StopsAt AnArgumentForm (Key key.Co ∷ ahead tokens.old)) }
{
    let g = read_coercion(alloc, tokens)?;
    read_close(tokens)?;
    Ok(Arg::OfCo(g))
}

/// An argument behind its opening bracket.
#[cycle(expressions)]
#[tactic(auto, using(crate::proofs::Lists::argument_is_expression))]
#[inline(never)]
fn read_argument_form(alloc: Global, tokens: &mut Tokens<'_>) -> Result<Arg, Stop>
    ensures read { IfOk result (λ x. Takes AnArgumentForm (ahead tokens.old) (arg_of x) (ahead tokens.new)) }
    ensures shorter { IfOk result (λ _. length (ahead tokens.new) < length (ahead tokens.old)) }
    ensures fault { IfErr result (StopsAt AnArgumentForm (ahead tokens.old)) }
{
    if takes_type(tokens) {
        return read_type_argument(alloc, tokens);
    }
    if takes_co(tokens) {
        return read_coercion_argument(alloc, tokens);
    }
    let e = read_expression_form(alloc, tokens)?;
    Ok(Arg::Term(e))
}

/// Arguments, one at least, up to the closing bracket, and that.
#[cycle(expressions)]
#[tactic(auto, using(fc_read_parts::proofs::Stars::star_rules))]
#[inline(never)]
fn read_some_arguments(alloc: Global, tokens: &mut Tokens<'_>) -> Result<Seq<Arg>, Stop>
    ensures read { IfOk result (λ x. Takes (Several AnArgument) (ahead tokens.old) (map arg_of x) (ahead tokens.new)) }
    ensures shorter { IfOk result (λ _. length (ahead tokens.new) < length (ahead tokens.old)) }
    ensures fault { IfErr result (StopsAt (Several AnArgument) (ahead tokens.old)) }
{
    let mut all = Seq::new(alloc);
    all.push(read_argument(alloc, tokens)?)?;
    'each: loop {
        if closes(tokens) {
            return Ok(all);
        }
        all.push(read_argument(alloc, tokens)?)?;
    }
}

/// Arguments up to the closing bracket, and that.
#[cycle(expressions)]
#[tactic(auto, using(fc_read_parts::proofs::Stars::star_rules))]
#[inline(never)]
fn read_arguments(alloc: Global, tokens: &mut Tokens<'_>) -> Result<Seq<Arg>, Stop>
    ensures read { IfOk result (λ x. Takes (Many AnArgument) (ahead tokens.old) (map arg_of x) (ahead tokens.new)) }
    ensures shorter { IfOk result (λ _. length (ahead tokens.new) < length (ahead tokens.old)) }
    ensures fault { IfErr result (StopsAt (Many AnArgument) (ahead tokens.old)) }
{
    let mut all = Seq::new(alloc);
    'each: loop {
        if closes(tokens) {
            return Ok(all);
        }
        all.push(read_argument(alloc, tokens)?)?;
    }
}

/// Expressions up to the closing bracket, and that.
#[cycle(expressions)]
#[tactic(auto, using(fc_read_parts::proofs::Stars::star_rules))]
#[inline(never)]
fn read_expressions(alloc: Global, tokens: &mut Tokens<'_>) -> Result<Seq<Expr>, Stop>
    ensures read { IfOk result (λ x. Takes (Many AnExpression) (ahead tokens.old) (map expr_of x) (ahead tokens.new)) }
    ensures shorter { IfOk result (λ _. length (ahead tokens.new) < length (ahead tokens.old)) }
    ensures fault { IfErr result (StopsAt (Many AnExpression) (ahead tokens.old)) }
{
    let mut all = Seq::new(alloc);
    'each: loop {
        if closes(tokens) {
            return Ok(all);
        }
        all.push(read_expression(alloc, tokens)?)?;
    }
}
