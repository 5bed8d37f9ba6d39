//! Kinds.
ghost use Rattle.std.specs.Prelude.{◌<◌, length, IfOk, IfErr};
ghost use Rattle.fc_syntax.specs.View.{kind_of};
ghost use Rattle.fc_model.specs.Grammar.{AKind, AKindForm};
ghost use Rattle.fc_read_parts.specs.Reading.{StopsAt, Takes};
ghost use Rattle.fc_read_parts.specs.Seen.{ahead};

use fc_read_parts::{Stop, Terminal, Tokens, read_close};
use fc_syntax::Kind;
use std::alloc::Global;

/// Reads a kind. Stops at the first token that cannot go on.
#[cycle(kinds)]
#[tactic(auto, using(fc_syntax::proofs::View::view_rules))]
#[inline(never)]
pub fn read_kind(alloc: Global, tokens: &mut Tokens<'_>) -> Result<Kind, Stop>
    ensures read { IfOk result (λ x. Takes AKind (ahead tokens.old) (kind_of x) (ahead tokens.new)) }
    ensures shorter { IfOk result (λ _. length (ahead tokens.new) < length (ahead tokens.old)) }
    ensures fault { IfErr result (StopsAt AKind (ahead tokens.old)) }
{
    let left = tokens.left();
    match tokens.next() {
        Some(Terminal::Star) => Ok(Kind::Star),
        Some(Terminal::Hash) => Ok(Kind::Hash),
        Some(Terminal::Open) => read_kind_form(alloc, tokens),
        _ => Err(Stop::Form(left)),
    }
}

/// A kind behind its opening bracket.
#[cycle(kinds)]
#[inline(never)]
fn read_kind_form(alloc: Global, tokens: &mut Tokens<'_>) -> Result<Kind, Stop>
    ensures read { IfOk result (λ x. Takes AKindForm (ahead tokens.old) (kind_of x) (ahead tokens.new)) }
    ensures shorter { IfOk result (λ _. length (ahead tokens.new) < length (ahead tokens.old)) }
    ensures fault { IfErr result (StopsAt AKindForm (ahead tokens.old)) }
{
    let left = tokens.left();
    let Some(Terminal::Arrow) = tokens.next() else {
        return Err(Stop::Form(left));
    };
    let from = read_kind(alloc, tokens)?;
    let to = read_kind(alloc, tokens)?;
    read_close(tokens)?;
    Ok(Kind::arrow(alloc, from, to)?)
}
