//! Declarations.
ghost use Rattle.std.specs.Prelude.{◌<◌, ◌∷◌, length, IfOk, IfErr};
ghost use Rattle.fc_syntax.specs.View.{decl_of};
ghost use Rattle.fc_syntax.specs.declared.keyword.Keyword.TheVariants as key;
ghost use Rattle.fc_model.specs.Words.{Key};
ghost use Rattle.fc_model.specs.Grammar.{ADeclaration, ADeclarationForm};
ghost use Rattle.fc_read_parts.specs.Reading.{StopsAt, Takes};
ghost use Rattle.fc_read_parts.specs.Seen.{ahead};

use crate::expressions::read_expression;
use fc_read_parts::{Stop, Terminal, Tokens, read_close, read_lower, read_open, read_upper};
use fc_read_types::{
    read_constructors, read_kind, read_parameters, read_plain_parameters, read_type,
};
use fc_syntax::{Decl, Keyword};
use std::alloc::Global;

/// Reads a declaration. Stops at the first token that cannot go on.
pub fn read_declaration(alloc: Global, tokens: &mut Tokens<'_>) -> Result<Decl, Stop>
    ensures read { IfOk result (λ x. Takes ADeclaration (ahead tokens.old) (decl_of x) (ahead tokens.new)) }
    ensures shorter { IfOk result (λ _. length (ahead tokens.new) < length (ahead tokens.old)) }
    ensures fault { IfErr result (StopsAt ADeclaration (ahead tokens.old)) }
{
    let left = tokens.left();
    let Some(Terminal::Open) = tokens.next() else {
        return Err(Stop::Form(left));
    };
    let decl = read_declaration_form(alloc, tokens)?;
    Ok(decl)
}

/// Reads a declaration behind its opening bracket. Stops at the first token that cannot go on.
pub fn read_declaration_form(alloc: Global, tokens: &mut Tokens<'_>) -> Result<Decl, Stop>
    ensures read { IfOk result (λ x. Takes ADeclarationForm (ahead tokens.old) (decl_of x) (ahead tokens.new)) }
    ensures shorter { IfOk result (λ _. length (ahead tokens.new) < length (ahead tokens.old)) }
    ensures fault { IfErr result (StopsAt ADeclarationForm (ahead tokens.old)) }
{
    let left = tokens.left();
    match tokens.next() {
        Some(Terminal::Key(Keyword::Data)) => read_data(alloc, tokens),
        Some(Terminal::Key(Keyword::NewType)) => read_newtype(alloc, tokens),
        Some(Terminal::Key(Keyword::Family)) => read_family(alloc, tokens),
        Some(Terminal::Key(Keyword::Axiom)) => read_axiom(alloc, tokens),
        Some(Terminal::Key(Keyword::Def)) => read_definition(alloc, tokens),
        Some(Terminal::Key(Keyword::Wrap)) => read_wrapper(alloc, tokens),
        _ => Err(Stop::Form(left)),
    }
}

/// A data type, behind its word.
fn read_data(alloc: Global, tokens: &mut Tokens<'_>) -> Result<Decl, Stop>
    ensures read { IfOk result (λ x. Takes ADeclarationForm (Key key.Data ∷ ahead tokens.old) (decl_of x) (ahead tokens.new)) }
    ensures shorter { IfOk result (λ _. length (ahead tokens.new) < length (ahead tokens.old)) }
    ensures fault { IfErr result (StopsAt ADeclarationForm (Key key.Data ∷ ahead tokens.old)) }
{
    let name = read_upper(alloc, tokens)?;
    read_open(tokens)?;
    let params = read_parameters(alloc, tokens)?;
    let cons = read_constructors(alloc, tokens)?;
    Ok(Decl::DataType(name, params, cons))
}

/// A newtype, behind its word.
fn read_newtype(alloc: Global, tokens: &mut Tokens<'_>) -> Result<Decl, Stop>
    ensures read { IfOk result (λ x. Takes ADeclarationForm (Key key.NewType ∷ ahead tokens.old) (decl_of x) (ahead tokens.new)) }
    ensures shorter { IfOk result (λ _. length (ahead tokens.new) < length (ahead tokens.old)) }
    ensures fault { IfErr result (StopsAt ADeclarationForm (Key key.NewType ∷ ahead tokens.old)) }
{
    let name = read_upper(alloc, tokens)?;
    read_open(tokens)?;
    let params = read_parameters(alloc, tokens)?;
    let ty = read_type(alloc, tokens)?;
    let axiom = read_upper(alloc, tokens)?;
    read_close(tokens)?;
    Ok(Decl::NewType(name, params, ty, axiom))
}

/// A family of types, behind its word.
fn read_family(alloc: Global, tokens: &mut Tokens<'_>) -> Result<Decl, Stop>
    ensures read { IfOk result (λ x. Takes ADeclarationForm (Key key.Family ∷ ahead tokens.old) (decl_of x) (ahead tokens.new)) }
    ensures shorter { IfOk result (λ _. length (ahead tokens.new) < length (ahead tokens.old)) }
    ensures fault { IfErr result (StopsAt ADeclarationForm (Key key.Family ∷ ahead tokens.old)) }
{
    let name = read_upper(alloc, tokens)?;
    read_open(tokens)?;
    let params = read_plain_parameters(alloc, tokens)?;
    let kind = read_kind(alloc, tokens)?;
    read_close(tokens)?;
    Ok(Decl::Family(name, params, kind))
}

/// An axiom, behind its word.
fn read_axiom(alloc: Global, tokens: &mut Tokens<'_>) -> Result<Decl, Stop>
    ensures read { IfOk result (λ x. Takes ADeclarationForm (Key key.Axiom ∷ ahead tokens.old) (decl_of x) (ahead tokens.new)) }
    ensures shorter { IfOk result (λ _. length (ahead tokens.new) < length (ahead tokens.old)) }
    ensures fault { IfErr result (StopsAt ADeclarationForm (Key key.Axiom ∷ ahead tokens.old)) }
{
    let name = read_upper(alloc, tokens)?;
    read_open(tokens)?;
    let params = read_plain_parameters(alloc, tokens)?;
    let left = read_type(alloc, tokens)?;
    let right = read_type(alloc, tokens)?;
    read_close(tokens)?;
    Ok(Decl::Axiom(name, params, left, right))
}

/// A definition, behind its word.
fn read_definition(alloc: Global, tokens: &mut Tokens<'_>) -> Result<Decl, Stop>
    ensures read { IfOk result (λ x. Takes ADeclarationForm (Key key.Def ∷ ahead tokens.old) (decl_of x) (ahead tokens.new)) }
    ensures shorter { IfOk result (λ _. length (ahead tokens.new) < length (ahead tokens.old)) }
    ensures fault { IfErr result (StopsAt ADeclarationForm (Key key.Def ∷ ahead tokens.old)) }
{
    let name = read_lower(alloc, tokens)?;
    let ty = read_type(alloc, tokens)?;
    let rhs = read_expression(alloc, tokens)?;
    read_close(tokens)?;
    Ok(Decl::Def(name, ty, rhs))
}

/// A wrapper, behind its word.
fn read_wrapper(alloc: Global, tokens: &mut Tokens<'_>) -> Result<Decl, Stop>
    ensures read { IfOk result (λ x. Takes ADeclarationForm (Key key.Wrap ∷ ahead tokens.old) (decl_of x) (ahead tokens.new)) }
    ensures shorter { IfOk result (λ _. length (ahead tokens.new) < length (ahead tokens.old)) }
    ensures fault { IfErr result (StopsAt ADeclarationForm (Key key.Wrap ∷ ahead tokens.old)) }
{
    let name = read_lower(alloc, tokens)?;
    let ty = read_type(alloc, tokens)?;
    let rhs = read_expression(alloc, tokens)?;
    read_close(tokens)?;
    Ok(Decl::Wrap(name, ty, rhs))
}
