//! A row at a place of a definition.
ghost use Rattle.std.specs.Prelude.{◌≡◌, IfErr, IfOk, position};
ghost use Rattle.std.specs.Option.{option_map};
ghost use Rattle.fc_syntax.specs.View.{decl_of, expr_of};
ghost use Rattle.fc_model.specs.NamelessView.{ndecl_of, nexpr_of};
ghost use Rattle.fc_places.specs.Places.{answered};
ghost use Rattle.fc_rows.specs.ChangingCoercions.{as_they_are};
ghost use Rattle.fc_rows.specs.Surroundings.{outside};
ghost use Rattle.fc_row_at_place.specs.Sites.{decls_of, row_of};
ghost use Rattle.fc_apply.specs.Definitions.{changed_decl, exchanged_in_decl, is_definition as spec_is_definition, row_in_decl};

use fc_copies::nameless::copy_decl;
use fc_places::exchange;
use fc_row_at_place::{Asked, row_of_right_side};
use fc_syntax::{Memory, NDecl, NExpr, Text, part};
use std::alloc::Global;

/// Whether a declaration is a definition of a word.
fn is_definition(d: &NDecl, word: &Text) -> bool
    ensures { result ≡ spec_is_definition word.now (ndecl_of d.now) }
{
    match d {
        NDecl::Def(name, _, _) | NDecl::Wrap(name, _, _) => name.as_str() == word.as_str(),
        NDecl::DataType(_, _, _) | NDecl::NewType(_, _, _, _) => false,
        NDecl::Family(_, _, _) | NDecl::Axiom(_, _, _, _) => false,
    }
}

/// The number of the first definition of a word among declarations.
pub(crate) fn definition_of(decls: &[NDecl], word: &Text) -> Option<usize>
    ensures { result ≡ position (λ d. spec_is_definition word.now (ndecl_of d)) decls.now }
{
    decls.iter().position(|d| is_definition(d, word))
}

/// What the row that is asked for makes of the part of a definition at a place, where a row may look. The right side is part 1. Answers none where no expression stands there, and
/// where the row does not apply to it. Fails as `row_of_right_side` does.
fn row_in(alloc: Global, d: &NDecl, place: &[u32], asked: &Asked) -> Result<Option<NExpr>, Memory>
    ensures { IfOk result (λ o. option_map nexpr_of o ≡ row_in_decl (row_of asked.now) (outside (decls_of asked.now)) place.now (ndecl_of d.now)) }
{
    let Some((number, rest)) = place.split_first() else {
        return Ok(None);
    };
    if *number != part::RIGHT_SIDE {
        return Ok(None);
    }
    match d {
        NDecl::Def(_, _, right) => row_of_right_side(alloc, right, rest, asked),
        NDecl::Wrap(_, _, right) => row_of_right_side(alloc, right, rest, asked),
        NDecl::DataType(_, _, _) | NDecl::NewType(_, _, _, _) => Ok(None),
        NDecl::Family(_, _, _) | NDecl::Axiom(_, _, _, _) => Ok(None),
    }
}

/// Puts `by` at a place of a definition, and answers what stood there. Where no expression stands at the place, `by` comes back as the error, and nothing has
/// changed. Takes no memory.
fn exchange_in(d: &mut NDecl, place: &[u32], by: NExpr) -> Result<NExpr, NExpr>
    ensures { answered result (decl_of d.new) ≡ exchanged_in_decl (expr_of by) place.now (decl_of d.old) }
{
    let Some((number, rest)) = place.split_first() else {
        return Err(by);
    };
    if *number != part::RIGHT_SIDE {
        return Err(by);
    }
    match d {
        NDecl::Def(_, _, right) => exchange(right, rest, by),
        NDecl::Wrap(_, _, right) => exchange(right, rest, by),
        NDecl::DataType(_, _, _) | NDecl::NewType(_, _, _, _) => Err(by),
        NDecl::Family(_, _, _) | NDecl::Axiom(_, _, _, _) => Err(by),
    }
}

/// A definition in which the row that is asked for replaced the part at a place. Answers none where no expression stands there, or the row does not apply to it. Fails as
/// `row_of_right_side` does.
pub(crate) fn changed_definition(
    alloc: Global,
    d: &NDecl,
    place: &[u32],
    asked: &Asked,
) -> Result<Option<NDecl>, Memory>
    ensures { IfOk result (λ o. option_map ndecl_of o ≡ changed_decl (row_of asked.now) as_they_are (outside (decls_of asked.now)) place.now (ndecl_of d.now)) }
{
    let Some(new) = row_in(alloc, d, place, asked)? else {
        return Ok(None);
    };
    let mut changed = copy_decl(alloc, d)?;
    match exchange_in(&mut changed, place, new) {
        Ok(_) => Ok(Some(changed)),
        Err(_) => Ok(None),
    }
}
