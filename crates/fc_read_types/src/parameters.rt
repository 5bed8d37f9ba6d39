//! Parameters and constructors of declarations.
ghost use Rattle.std.specs.Prelude.{◌≡◌, ◌<◌, ◌++◌, ◌∷◌, length, IfOk, IfErr};
ghost use Rattle.fc_syntax.specs.View.{binder_of, binders_of, con_of, cons_of, param_of, params_of, plain_of, plains_of};
ghost use Rattle.fc_model.specs.Grammar.{ACoercionField, AConstructor, AParameter, APlainParameter, FieldBinders, FieldBindersForm, Many};
ghost use Rattle.fc_model.specs.Words.{Open};
ghost use Rattle.fc_read_parts.specs.Reading.{StopsAt, Takes};
ghost use Rattle.fc_read_parts.specs.Seen.{ahead};
ghost use Rattle.fc_read_types.specs.Fields.{TakesField};

use crate::kinds::read_kind;
use crate::types::{read_type, read_types};
use fc_read_parts::{
    Stop, Terminal, Tokens, closes, read_close, read_equality_role, read_lower, read_open,
    read_role, read_upper, read_word,
};
use fc_syntax::{Binder, ConDecl, Keyword, Memory, Param, Plain, Seq};
use std::alloc::Global;

/// A parameter with its role.
fn read_parameter(alloc: Global, tokens: &mut Tokens<'_>) -> Result<Param, Stop>
    ensures read { IfOk result (λ x. Takes AParameter (ahead tokens.old) (param_of x) (ahead tokens.new)) }
    ensures shorter { IfOk result (λ _. length (ahead tokens.new) < length (ahead tokens.old)) }
    ensures fault { IfErr result (StopsAt AParameter (ahead tokens.old)) }
{
    let left = tokens.left();
    let Some(Terminal::Open) = tokens.next() else {
        return Err(Stop::Form(left));
    };
    let name = read_lower(alloc, tokens)?;
    let kind = read_kind(alloc, tokens)?;
    let role = read_role(tokens)?;
    read_close(tokens)?;
    Ok(Param { name, kind, role })
}

/// Reads parameters with their roles up to the closing bracket, and that. Stops at the first token that cannot go on.
#[tactic(auto, using(fc_read_parts::proofs::Stars::star_rules))]
#[inline(never)]
pub fn read_parameters(alloc: Global, tokens: &mut Tokens<'_>) -> Result<Seq<Param>, Stop>
    ensures read { IfOk result (λ x. Takes (Many AParameter) (ahead tokens.old) (params_of x) (ahead tokens.new)) }
    ensures shorter { IfOk result (λ _. length (ahead tokens.new) < length (ahead tokens.old)) }
    ensures fault { IfErr result (StopsAt (Many AParameter) (ahead tokens.old)) }
{
    let mut all = Seq::new(alloc);
    'each: loop {
        if closes(tokens) {
            return Ok(all);
        }
        all.push(read_parameter(alloc, tokens)?)?;
    }
}

/// A parameter without a role.
fn read_plain_parameter(alloc: Global, tokens: &mut Tokens<'_>) -> Result<Plain, Stop>
    ensures read { IfOk result (λ x. Takes APlainParameter (ahead tokens.old) (plain_of x) (ahead tokens.new)) }
    ensures shorter { IfOk result (λ _. length (ahead tokens.new) < length (ahead tokens.old)) }
    ensures fault { IfErr result (StopsAt APlainParameter (ahead tokens.old)) }
{
    let left = tokens.left();
    let Some(Terminal::Open) = tokens.next() else {
        return Err(Stop::Form(left));
    };
    let name = read_lower(alloc, tokens)?;
    let kind = read_kind(alloc, tokens)?;
    read_close(tokens)?;
    Ok(Plain { name, kind })
}

/// Reads parameters without roles up to the closing bracket, and that. Stops at the first token that cannot go on.
#[tactic(auto, using(fc_read_parts::proofs::Stars::star_rules))]
#[inline(never)]
pub fn read_plain_parameters(alloc: Global, tokens: &mut Tokens<'_>) -> Result<Seq<Plain>, Stop>
    ensures read { IfOk result (λ x. Takes (Many APlainParameter) (ahead tokens.old) (plains_of x) (ahead tokens.new)) }
    ensures shorter { IfOk result (λ _. length (ahead tokens.new) < length (ahead tokens.old)) }
    ensures fault { IfErr result (StopsAt (Many APlainParameter) (ahead tokens.old)) }
{
    let mut all = Seq::new(alloc);
    'each: loop {
        if closes(tokens) {
            return Ok(all);
        }
        all.push(read_plain_parameter(alloc, tokens)?)?;
    }
}

/// What stands next among the binders of a constructor.
#[derive(Drop)]
enum Field {
    /// The closing bracket.
    End,
    /// A binder of a type, behind which there may be more.
    OfType(Binder),
    /// A binder of a coercion, behind which there may be no more types.
    OfCoercion(Binder),
}

/// What stands next among the binders of a constructor.
fn read_field(alloc: Global, tokens: &mut Tokens<'_>) -> Result<Field, Stop>
    ensures read { IfOk result (λ x. TakesField (ahead tokens.old) x (ahead tokens.new)) }
    ensures shorter { IfOk result (λ _. length (ahead tokens.new) < length (ahead tokens.old)) }
    ensures fault { IfErr result (StopsAt FieldBinders (ahead tokens.old)) }
{
    let left = tokens.left();
    match tokens.next() {
        Some(Terminal::Close) => Ok(Field::End),
        Some(Terminal::Open) => read_field_form(alloc, tokens),
        _ => Err(Stop::Form(left)),
    }
}

/// A binder of a constructor behind its opening bracket.
fn read_field_form(alloc: Global, tokens: &mut Tokens<'_>) -> Result<Field, Stop>
    ensures read { IfOk result (λ x. TakesField (Open ∷ ahead tokens.old) x (ahead tokens.new)) }
    ensures shorter { IfOk result (λ _. length (ahead tokens.new) < length (ahead tokens.old)) }
    ensures fault { IfErr result (StopsAt FieldBindersForm (ahead tokens.old)) }
{
    let left = tokens.left();
    match tokens.next() {
        Some(Terminal::Key(Keyword::Type)) => {
            let name = read_lower(alloc, tokens)?;
            let kind = read_kind(alloc, tokens)?;
            read_close(tokens)?;
            Ok(Field::OfType(Binder::OfType(name, kind)))
        }
        Some(Terminal::Key(Keyword::Co)) => {
            let name = read_lower(alloc, tokens)?;
            let role = read_equality_role(tokens)?;
            let left = read_type(alloc, tokens)?;
            let right = read_type(alloc, tokens)?;
            read_close(tokens)?;
            Ok(Field::OfCoercion(Binder::OfCo(name, role, left, right)))
        }
        _ => Err(Stop::Form(left)),
    }
}

/// A binder of a coercion of a constructor.
fn read_coercion_field(alloc: Global, tokens: &mut Tokens<'_>) -> Result<Binder, Stop>
    ensures read { IfOk result (λ x. Takes ACoercionField (ahead tokens.old) (binder_of x) (ahead tokens.new)) }
    ensures shorter { IfOk result (λ _. length (ahead tokens.new) < length (ahead tokens.old)) }
    ensures fault { IfErr result (StopsAt ACoercionField (ahead tokens.old)) }
{
    let left = tokens.left();
    let Some(Terminal::Open) = tokens.next() else {
        return Err(Stop::Form(left));
    };
    read_word(tokens, Keyword::Co)?;
    let name = read_lower(alloc, tokens)?;
    let role = read_equality_role(tokens)?;
    let left = read_type(alloc, tokens)?;
    let right = read_type(alloc, tokens)?;
    read_close(tokens)?;
    Ok(Binder::OfCo(name, role, left, right))
}

/// Coercions of a constructor up to the closing bracket, and that.
#[tactic(auto, using(fc_read_parts::proofs::Stars::star_rules))]
#[inline(never)]
fn read_coercion_fields(alloc: Global, tokens: &mut Tokens<'_>) -> Result<Seq<Binder>, Stop>
    ensures read { IfOk result (λ x. Takes (Many ACoercionField) (ahead tokens.old) (binders_of x) (ahead tokens.new)) }
    ensures shorter { IfOk result (λ _. length (ahead tokens.new) < length (ahead tokens.old)) }
    ensures fault { IfErr result (StopsAt (Many ACoercionField) (ahead tokens.old)) }
{
    let mut all = Seq::new(alloc);
    'each: loop {
        if closes(tokens) {
            return Ok(all);
        }
        all.push(read_coercion_field(alloc, tokens)?)?;
    }
}

/// Binders, and others behind them.
fn joined(all: Seq<Binder>, others: Seq<Binder>) -> Result<Seq<Binder>, Memory>
    ensures { IfOk result (λ bs. binders_of bs ≡ binders_of all ++ binders_of others) }
{
    let mut all = all;
    for binder in others.into_vec() {
        all.push(binder)?;
    }
    Ok(all)
}

/// The binders of a constructor up to the closing bracket, and that: its types and then its coercions.
fn read_fields(alloc: Global, tokens: &mut Tokens<'_>) -> Result<Seq<Binder>, Stop>
    ensures read { IfOk result (λ x. Takes FieldBinders (ahead tokens.old) (binders_of x) (ahead tokens.new)) }
    ensures shorter { IfOk result (λ _. length (ahead tokens.new) < length (ahead tokens.old)) }
    ensures fault { IfErr result (StopsAt FieldBinders (ahead tokens.old)) }
{
    let mut all = Seq::new(alloc);
    'each: loop {
        match read_field(alloc, tokens)? {
            Field::End => return Ok(all),
            Field::OfType(binder) => all.push(binder)?,
            Field::OfCoercion(binder) => {
                all.push(binder)?;
                let others = read_coercion_fields(alloc, tokens)?;
                return Ok(joined(all, others)?);
            }
        }
    }
}

/// A constructor with its binders and the types of its fields.
fn read_constructor(alloc: Global, tokens: &mut Tokens<'_>) -> Result<ConDecl, Stop>
    ensures read { IfOk result (λ x. Takes AConstructor (ahead tokens.old) (con_of x) (ahead tokens.new)) }
    ensures shorter { IfOk result (λ _. length (ahead tokens.new) < length (ahead tokens.old)) }
    ensures fault { IfErr result (StopsAt AConstructor (ahead tokens.old)) }
{
    let left = tokens.left();
    let Some(Terminal::Open) = tokens.next() else {
        return Err(Stop::Form(left));
    };
    let name = read_upper(alloc, tokens)?;
    read_open(tokens)?;
    let binders = read_fields(alloc, tokens)?;
    let fields = read_types(alloc, tokens)?;
    Ok(ConDecl {
        name,
        binders,
        fields,
    })
}

/// Reads constructors up to the closing bracket, and that. Stops at the first token that cannot go on.
#[tactic(auto, using(fc_read_parts::proofs::Stars::star_rules))]
#[inline(never)]
pub fn read_constructors(alloc: Global, tokens: &mut Tokens<'_>) -> Result<Seq<ConDecl>, Stop>
    ensures read { IfOk result (λ x. Takes (Many AConstructor) (ahead tokens.old) (cons_of x) (ahead tokens.new)) }
    ensures shorter { IfOk result (λ _. length (ahead tokens.new) < length (ahead tokens.old)) }
    ensures fault { IfErr result (StopsAt (Many AConstructor) (ahead tokens.old)) }
{
    let mut all = Seq::new(alloc);
    'each: loop {
        if closes(tokens) {
            return Ok(all);
        }
        all.push(read_constructor(alloc, tokens)?)?;
    }
}
