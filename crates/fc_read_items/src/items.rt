//! Items of an interface.
ghost use Rattle.std.specs.Prelude.{◌<◌, ◌∷◌, length, codes, IfOk, IfErr};
ghost use Rattle.fc_model.specs.Words.{Lower};
ghost use Rattle.fc_model.specs.Grammar.{AnItem, AnItemForm, AnUnfolding, AnUnfoldingForm};
ghost use Rattle.fc_read_parts.specs.Reading.{StopsAt, Takes};
ghost use Rattle.fc_read_parts.specs.Seen.{ahead};
ghost use Rattle.fc_read_items.specs.View.{item_of, unfolding_of};

use crate::demands::read_signature;
use crate::words::{begins_definition, takes_value};
use fc_lattice::Sig;
use fc_read_parts::{Stop, Terminal, Tokens, read_close, read_lower};
use fc_read_terms::{read_declaration_form, read_expression};
use fc_read_types::read_type;
use fc_syntax::{Decl, Expr, Keyword, Text, Ty};
use std::alloc::Global;

/// What an interface tells of the right side of a definition.
#[derive(Drop)]
pub enum Unfolding {
    /// `none`: nothing.
    Untold,
    /// `(def e)`: it is this, of a `def`.
    Def(Expr),
    /// `(wrap e)`: it is this, of a `wrap`.
    Wrap(Expr),
}

/// An item of an interface.
#[derive(Drop)]
pub enum Item {
    /// A declaration of a type or an axiom.
    Decl(Decl),
    /// A definition: its name, its type, its signature and what is told of its right side.
    Value(Text, Ty, Sig, Unfolding),
}

/// Reads what is told of the right side of a definition. Stops at the first token that cannot go on.
fn read_unfolding(alloc: Global, tokens: &mut Tokens<'_>) -> Result<Unfolding, Stop>
    ensures read { IfOk result (λ x. Takes AnUnfolding (ahead tokens.old) (unfolding_of x) (ahead tokens.new)) }
    ensures shorter { IfOk result (λ _. length (ahead tokens.new) < length (ahead tokens.old)) }
    ensures fault { IfErr result (StopsAt AnUnfolding (ahead tokens.old)) }
{
    let left = tokens.left();
    match tokens.next() {
        Some(Terminal::Key(Keyword::None)) => Ok(Unfolding::Untold),
        Some(Terminal::Open) => read_unfolding_form(alloc, tokens),
        _ => Err(Stop::Form(left)),
    }
}

/// A right side that is told, behind its opening bracket.
fn read_unfolding_form(alloc: Global, tokens: &mut Tokens<'_>) -> Result<Unfolding, Stop>
    ensures read { IfOk result (λ x. Takes AnUnfoldingForm (ahead tokens.old) (unfolding_of x) (ahead tokens.new)) }
    ensures shorter { IfOk result (λ _. length (ahead tokens.new) < length (ahead tokens.old)) }
    ensures fault { IfErr result (StopsAt AnUnfoldingForm (ahead tokens.old)) }
{
    let left = tokens.left();
    match tokens.next() {
        Some(Terminal::Key(Keyword::Def)) => {
            let rhs = read_expression(alloc, tokens)?;
            read_close(tokens)?;
            Ok(Unfolding::Def(rhs))
        }
        Some(Terminal::Key(Keyword::Wrap)) => {
            let rhs = read_expression(alloc, tokens)?;
            read_close(tokens)?;
            Ok(Unfolding::Wrap(rhs))
        }
        _ => Err(Stop::Form(left)),
    }
}

/// A value, behind its word.
fn read_value(alloc: Global, tokens: &mut Tokens<'_>) -> Result<Item, Stop>
    ensures read { IfOk result (λ x. Takes AnItemForm (Lower (codes "value") ∷ ahead tokens.old) (item_of x) (ahead tokens.new)) }
    ensures shorter { IfOk result (λ _. length (ahead tokens.new) < length (ahead tokens.old)) }
    ensures fault { IfErr result (StopsAt AnItemForm (Lower (codes "value") ∷ ahead tokens.old)) }
{
    let name = read_lower(alloc, tokens)?;
    let ty = read_type(alloc, tokens)?;
    let sig = read_signature(alloc, tokens)?;
    let unfolding = read_unfolding(alloc, tokens)?;
    read_close(tokens)?;
    Ok(Item::Value(name, ty, sig, unfolding))
}

/// An item behind its opening bracket.
fn read_item_form(alloc: Global, tokens: &mut Tokens<'_>) -> Result<Item, Stop>
    ensures read { IfOk result (λ x. Takes AnItemForm (ahead tokens.old) (item_of x) (ahead tokens.new)) }
    ensures shorter { IfOk result (λ _. length (ahead tokens.new) < length (ahead tokens.old)) }
    ensures fault { IfErr result (StopsAt AnItemForm (ahead tokens.old)) }
{
    if takes_value(tokens) {
        return read_value(alloc, tokens);
    }
    if begins_definition(tokens) {
        return Err(Stop::Form(tokens.left()));
    }
    Ok(Item::Decl(read_declaration_form(alloc, tokens)?))
}

/// Reads an item. Stops at the first token that cannot go on.
pub fn read_item(alloc: Global, tokens: &mut Tokens<'_>) -> Result<Item, Stop>
    ensures read { IfOk result (λ x. Takes AnItem (ahead tokens.old) (item_of x) (ahead tokens.new)) }
    ensures shorter { IfOk result (λ _. length (ahead tokens.new) < length (ahead tokens.old)) }
    ensures fault { IfErr result (StopsAt AnItem (ahead tokens.old)) }
{
    let left = tokens.left();
    let Some(Terminal::Open) = tokens.next() else {
        return Err(Stop::Form(left));
    };
    let item = read_item_form(alloc, tokens)?;
    Ok(item)
}
