//! Coercions.
ghost use Rattle.std.specs.Prelude.{◌≡◌, ◌<◌, ◌∷◌, length, map, IfOk, IfErr};
ghost use Rattle.fc_syntax.specs.Tree.{GVar, GRefl, GTc, GAx, GUniv};
ghost use Rattle.fc_syntax.specs.View.{co_of, cos_of, ty_of};
ghost use Rattle.fc_syntax.specs.declared.keyword.Keyword.TheVariants as key;
ghost use Rattle.fc_model.specs.Words.{Key};
ghost use Rattle.fc_model.specs.Grammar.{ACoercion, ACoercionForm, Many, Several, cos_from};
ghost use Rattle.fc_read_parts.specs.Reading.{StopsAt, Takes};
ghost use Rattle.fc_read_parts.specs.Seen.{ahead};

use crate::kinds::read_kind;
use crate::types::read_type;
use fc_read_parts::{
    Stop, Terminal, Tokens, closes, read_close, read_equality_role, read_lower, read_number,
    read_open, read_role, read_upper_name,
};
use fc_syntax::{Co, Keyword, Name, Role, Seq, Text, Ty};
use std::alloc::Global;

#[tactic(auto, using(fc_syntax::proofs::View::view_rules))]
fn variable(word: Text) -> Co
    ensures { co_of result ≡ GVar word }
{
    Co::Var(word)
}

#[tactic(auto, using(fc_syntax::proofs::View::view_rules))]
fn reflexive(role: Role, t: Ty) -> Co
    ensures { co_of result ≡ GRefl role (ty_of t) }
{
    Co::Refl(role, t)
}

#[tactic(auto, using(fc_syntax::proofs::View::view_rules))]
fn universal(left: Ty, right: Ty) -> Co
    ensures { co_of result ≡ GUniv (ty_of left) (ty_of right) }
{
    Co::Univ(left, right)
}

#[tactic(auto, using(fc_syntax::proofs::View::view_rules))]
fn of_constructor(role: Role, name: Name, parts: Seq<Co>) -> Co
    ensures { co_of result ≡ GTc role name (cos_of parts) }
{
    Co::Tc(role, name, parts)
}

#[tactic(auto, using(fc_syntax::proofs::View::view_rules))]
fn of_axiom(name: Name, parts: Seq<Co>) -> Co
    ensures { co_of result ≡ GAx name (cos_of parts) }
{
    Co::Ax(name, parts)
}

/// Reads a coercion. Stops at the first token that cannot go on.
#[cycle(coercions)]
#[inline(never)]
pub fn read_coercion(alloc: Global, tokens: &mut Tokens<'_>) -> Result<Co, Stop>
    ensures read { IfOk result (λ x. Takes ACoercion (ahead tokens.old) (co_of x) (ahead tokens.new)) }
    ensures shorter { IfOk result (λ _. length (ahead tokens.new) < length (ahead tokens.old)) }
    ensures fault { IfErr result (StopsAt ACoercion (ahead tokens.old)) }
{
    let left = tokens.left();
    match tokens.next() {
        Some(Terminal::Lower(word)) => Ok(variable(tokens.text(alloc, word)?)),
        Some(Terminal::Open) => read_coercion_form(alloc, tokens),
        _ => Err(Stop::Form(left)),
    }
}

/// A coercion behind its opening bracket.
#[cycle(coercions)]
#[inline(never)]
fn read_coercion_form(alloc: Global, tokens: &mut Tokens<'_>) -> Result<Co, Stop>
    ensures read { IfOk result (λ x. Takes ACoercionForm (ahead tokens.old) (co_of x) (ahead tokens.new)) }
    ensures shorter { IfOk result (λ _. length (ahead tokens.new) < length (ahead tokens.old)) }
    ensures fault { IfErr result (StopsAt ACoercionForm (ahead tokens.old)) }
{
    let left = tokens.left();
    match tokens.next() {
        Some(Terminal::Key(Keyword::Refl)) => read_reflexive(alloc, tokens),
        Some(Terminal::Key(Keyword::Sym)) => read_symmetric(alloc, tokens),
        Some(Terminal::Key(Keyword::Trans)) => read_transitive(alloc, tokens),
        Some(Terminal::Key(Keyword::Tc)) => read_constructor(alloc, tokens),
        Some(Terminal::Key(Keyword::Capp)) => read_applied(alloc, tokens),
        Some(Terminal::Key(Keyword::FunCo)) => read_function(alloc, tokens),
        Some(Terminal::Key(Keyword::AllCo)) => read_for_all(alloc, tokens),
        Some(Terminal::Key(Keyword::CoAllCo)) => read_for_all_coercions(alloc, tokens),
        Some(Terminal::Key(Keyword::Inst)) => read_instance(alloc, tokens),
        Some(Terminal::Key(Keyword::Nth)) => read_nth(alloc, tokens),
        Some(Terminal::Key(Keyword::Left)) => read_left(alloc, tokens),
        Some(Terminal::Key(Keyword::Right)) => read_right(alloc, tokens),
        Some(Terminal::Key(Keyword::Sub)) => read_weaker(alloc, tokens),
        Some(Terminal::Key(Keyword::Ax)) => read_axiom(alloc, tokens),
        Some(Terminal::Key(Keyword::Univ)) => read_universal(alloc, tokens),
        _ => Err(Stop::Form(left)),
    }
}

/// What a type is to itself, behind its word.
#[inline(never)]
fn read_reflexive(alloc: Global, tokens: &mut Tokens<'_>) -> Result<Co, Stop>
    ensures read { IfOk result (λ x. Takes ACoercionForm (Key key.Refl ∷ ahead tokens.old) (co_of x) (ahead tokens.new)) }
    ensures shorter { IfOk result (λ _. length (ahead tokens.new) < length (ahead tokens.old)) }
    ensures fault { IfErr result (StopsAt ACoercionForm (Key key.Refl ∷ ahead tokens.old)) }
{
    let role = read_role(tokens)?;
    let t = read_type(alloc, tokens)?;
    read_close(tokens)?;
    Ok(reflexive(role, t))
}

/// Two types that are only said to be one, behind their word.
#[inline(never)]
fn read_universal(alloc: Global, tokens: &mut Tokens<'_>) -> Result<Co, Stop>
    ensures read { IfOk result (λ x. Takes ACoercionForm (Key key.Univ ∷ ahead tokens.old) (co_of x) (ahead tokens.new)) }
    ensures shorter { IfOk result (λ _. length (ahead tokens.new) < length (ahead tokens.old)) }
    ensures fault { IfErr result (StopsAt ACoercionForm (Key key.Univ ∷ ahead tokens.old)) }
{
    let left = read_type(alloc, tokens)?;
    let right = read_type(alloc, tokens)?;
    read_close(tokens)?;
    Ok(universal(left, right))
}

/// A coercion turned round, behind its word.
#[cycle(coercions)]
#[inline(never)]
fn read_symmetric(alloc: Global, tokens: &mut Tokens<'_>) -> Result<Co, Stop>
    ensures read { IfOk result (λ x. Takes ACoercionForm (Key key.Sym ∷ ahead tokens.old) (co_of x) (ahead tokens.new)) }
    ensures shorter { IfOk result (λ _. length (ahead tokens.new) < length (ahead tokens.old)) }
    ensures fault { IfErr result (StopsAt ACoercionForm (Key key.Sym ∷ ahead tokens.old)) }
{
    let g = read_coercion(alloc, tokens)?;
    read_close(tokens)?;
    Ok(Co::symmetric(alloc, g)?)
}

/// One coercion and then another, behind their word.
#[cycle(coercions)]
#[inline(never)]
fn read_transitive(alloc: Global, tokens: &mut Tokens<'_>) -> Result<Co, Stop>
    ensures read { IfOk result (λ x. Takes ACoercionForm (Key key.Trans ∷ ahead tokens.old) (co_of x) (ahead tokens.new)) }
    ensures shorter { IfOk result (λ _. length (ahead tokens.new) < length (ahead tokens.old)) }
    ensures fault { IfErr result (StopsAt ACoercionForm (Key key.Trans ∷ ahead tokens.old)) }
{
    let first = read_coercion(alloc, tokens)?;
    let second = read_coercion(alloc, tokens)?;
    read_close(tokens)?;
    Ok(Co::transitive(alloc, first, second)?)
}

/// A coercion of a type constructor by those of its arguments, behind its word.
#[cycle(coercions)]
#[tactic(auto, using(crate::proofs::Lists::cos_are))]
#[inline(never)]
fn read_constructor(alloc: Global, tokens: &mut Tokens<'_>) -> Result<Co, Stop>
    ensures read { IfOk result (λ x. Takes ACoercionForm (Key key.Tc ∷ ahead tokens.old) (co_of x) (ahead tokens.new)) }
    ensures shorter { IfOk result (λ _. length (ahead tokens.new) < length (ahead tokens.old)) }
    ensures fault { IfErr result (StopsAt ACoercionForm (Key key.Tc ∷ ahead tokens.old)) }
{
    let role = read_equality_role(tokens)?;
    let name = read_upper_name(alloc, tokens)?;
    let parts = read_some_coercions(alloc, tokens)?;
    Ok(of_constructor(role, name, parts))
}

/// A coercion of applications, behind its word.
#[cycle(coercions)]
#[inline(never)]
fn read_applied(alloc: Global, tokens: &mut Tokens<'_>) -> Result<Co, Stop>
    ensures read { IfOk result (λ x. Takes ACoercionForm (Key key.Capp ∷ ahead tokens.old) (co_of x) (ahead tokens.new)) }
    ensures shorter { IfOk result (λ _. length (ahead tokens.new) < length (ahead tokens.old)) }
    ensures fault { IfErr result (StopsAt ACoercionForm (Key key.Capp ∷ ahead tokens.old)) }
{
    let first = read_coercion(alloc, tokens)?;
    let second = read_coercion(alloc, tokens)?;
    read_close(tokens)?;
    Ok(Co::applied(alloc, first, second)?)
}

/// A coercion of functions, behind its word.
#[cycle(coercions)]
#[inline(never)]
fn read_function(alloc: Global, tokens: &mut Tokens<'_>) -> Result<Co, Stop>
    ensures read { IfOk result (λ x. Takes ACoercionForm (Key key.FunCo ∷ ahead tokens.old) (co_of x) (ahead tokens.new)) }
    ensures shorter { IfOk result (λ _. length (ahead tokens.new) < length (ahead tokens.old)) }
    ensures fault { IfErr result (StopsAt ACoercionForm (Key key.FunCo ∷ ahead tokens.old)) }
{
    let first = read_coercion(alloc, tokens)?;
    let second = read_coercion(alloc, tokens)?;
    read_close(tokens)?;
    Ok(Co::function(alloc, first, second)?)
}

/// A coercion for each type, behind its word.
#[cycle(coercions)]
#[inline(never)]
fn read_for_all(alloc: Global, tokens: &mut Tokens<'_>) -> Result<Co, Stop>
    ensures read { IfOk result (λ x. Takes ACoercionForm (Key key.AllCo ∷ ahead tokens.old) (co_of x) (ahead tokens.new)) }
    ensures shorter { IfOk result (λ _. length (ahead tokens.new) < length (ahead tokens.old)) }
    ensures fault { IfErr result (StopsAt ACoercionForm (Key key.AllCo ∷ ahead tokens.old)) }
{
    read_open(tokens)?;
    let word = read_lower(alloc, tokens)?;
    let kind = read_kind(alloc, tokens)?;
    read_close(tokens)?;
    let body = read_coercion(alloc, tokens)?;
    read_close(tokens)?;
    Ok(Co::for_all(alloc, word, kind, body)?)
}

/// A coercion for each coercion, behind its word.
#[cycle(coercions)]
#[inline(never)]
fn read_for_all_coercions(alloc: Global, tokens: &mut Tokens<'_>) -> Result<Co, Stop>
    ensures read { IfOk result (λ x. Takes ACoercionForm (Key key.CoAllCo ∷ ahead tokens.old) (co_of x) (ahead tokens.new)) }
    ensures shorter { IfOk result (λ _. length (ahead tokens.new) < length (ahead tokens.old)) }
    ensures fault { IfErr result (StopsAt ACoercionForm (Key key.CoAllCo ∷ ahead tokens.old)) }
{
    let first = read_equality_role(tokens)?;
    let second = read_equality_role(tokens)?;
    let left = read_coercion(alloc, tokens)?;
    let right = read_coercion(alloc, tokens)?;
    let body = read_coercion(alloc, tokens)?;
    read_close(tokens)?;
    Ok(Co::for_all_coercions(alloc, (first, second), left, right, body)?)
}

/// A coercion at what its variable stands for, behind its word.
#[cycle(coercions)]
#[inline(never)]
fn read_instance(alloc: Global, tokens: &mut Tokens<'_>) -> Result<Co, Stop>
    ensures read { IfOk result (λ x. Takes ACoercionForm (Key key.Inst ∷ ahead tokens.old) (co_of x) (ahead tokens.new)) }
    ensures shorter { IfOk result (λ _. length (ahead tokens.new) < length (ahead tokens.old)) }
    ensures fault { IfErr result (StopsAt ACoercionForm (Key key.Inst ∷ ahead tokens.old)) }
{
    let first = read_coercion(alloc, tokens)?;
    let second = read_coercion(alloc, tokens)?;
    read_close(tokens)?;
    Ok(Co::instance(alloc, first, second)?)
}

/// A part of a coercion by its number, behind its word.
#[cycle(coercions)]
#[inline(never)]
fn read_nth(alloc: Global, tokens: &mut Tokens<'_>) -> Result<Co, Stop>
    ensures read { IfOk result (λ x. Takes ACoercionForm (Key key.Nth ∷ ahead tokens.old) (co_of x) (ahead tokens.new)) }
    ensures shorter { IfOk result (λ _. length (ahead tokens.new) < length (ahead tokens.old)) }
    ensures fault { IfErr result (StopsAt ACoercionForm (Key key.Nth ∷ ahead tokens.old)) }
{
    let number = read_number(tokens)?;
    let g = read_coercion(alloc, tokens)?;
    read_close(tokens)?;
    Ok(Co::nth(alloc, number, g)?)
}

/// The heads of two applications, behind their word.
#[cycle(coercions)]
#[inline(never)]
fn read_left(alloc: Global, tokens: &mut Tokens<'_>) -> Result<Co, Stop>
    ensures read { IfOk result (λ x. Takes ACoercionForm (Key key.Left ∷ ahead tokens.old) (co_of x) (ahead tokens.new)) }
    ensures shorter { IfOk result (λ _. length (ahead tokens.new) < length (ahead tokens.old)) }
    ensures fault { IfErr result (StopsAt ACoercionForm (Key key.Left ∷ ahead tokens.old)) }
{
    let g = read_coercion(alloc, tokens)?;
    read_close(tokens)?;
    Ok(Co::left(alloc, g)?)
}

/// The arguments of two applications, behind their word.
#[cycle(coercions)]
#[inline(never)]
fn read_right(alloc: Global, tokens: &mut Tokens<'_>) -> Result<Co, Stop>
    ensures read { IfOk result (λ x. Takes ACoercionForm (Key key.Right ∷ ahead tokens.old) (co_of x) (ahead tokens.new)) }
    ensures shorter { IfOk result (λ _. length (ahead tokens.new) < length (ahead tokens.old)) }
    ensures fault { IfErr result (StopsAt ACoercionForm (Key key.Right ∷ ahead tokens.old)) }
{
    let g = read_coercion(alloc, tokens)?;
    read_close(tokens)?;
    Ok(Co::right(alloc, g)?)
}

/// A coercion at a weaker role, behind its word.
#[cycle(coercions)]
#[inline(never)]
fn read_weaker(alloc: Global, tokens: &mut Tokens<'_>) -> Result<Co, Stop>
    ensures read { IfOk result (λ x. Takes ACoercionForm (Key key.Sub ∷ ahead tokens.old) (co_of x) (ahead tokens.new)) }
    ensures shorter { IfOk result (λ _. length (ahead tokens.new) < length (ahead tokens.old)) }
    ensures fault { IfErr result (StopsAt ACoercionForm (Key key.Sub ∷ ahead tokens.old)) }
{
    let g = read_coercion(alloc, tokens)?;
    read_close(tokens)?;
    Ok(Co::weaker(alloc, g)?)
}

/// A coercion of an axiom by those of its parameters, behind its word.
#[cycle(coercions)]
#[tactic(auto, using(crate::proofs::Lists::cos_are))]
#[inline(never)]
fn read_axiom(alloc: Global, tokens: &mut Tokens<'_>) -> Result<Co, Stop>
    ensures read { IfOk result (λ x. Takes ACoercionForm (Key key.Ax ∷ ahead tokens.old) (co_of x) (ahead tokens.new)) }
    ensures shorter { IfOk result (λ _. length (ahead tokens.new) < length (ahead tokens.old)) }
    ensures fault { IfErr result (StopsAt ACoercionForm (Key key.Ax ∷ ahead tokens.old)) }
{
    let name = read_upper_name(alloc, tokens)?;
    let parts = read_coercions(alloc, tokens)?;
    Ok(of_axiom(name, parts))
}

/// Coercions, one at least, up to the closing bracket, and that.
#[cycle(coercions)]
#[tactic(auto, using(fc_read_parts::proofs::Stars::star_rules))]
#[inline(never)]
fn read_some_coercions(alloc: Global, tokens: &mut Tokens<'_>) -> Result<Seq<Co>, Stop>
    ensures read { IfOk result (λ x. Takes (Several ACoercion) (ahead tokens.old) (map co_of x) (ahead tokens.new)) }
    ensures shorter { IfOk result (λ _. length (ahead tokens.new) < length (ahead tokens.old)) }
    ensures fault { IfErr result (StopsAt (Several ACoercion) (ahead tokens.old)) }
{
    let mut all = Seq::new(alloc);
    all.push(read_coercion(alloc, tokens)?)?;
    'each: loop {
        if closes(tokens) {
            return Ok(all);
        }
        all.push(read_coercion(alloc, tokens)?)?;
    }
}

/// Coercions up to the closing bracket, and that.
#[cycle(coercions)]
#[tactic(auto, using(fc_read_parts::proofs::Stars::star_rules))]
#[inline(never)]
fn read_coercions(alloc: Global, tokens: &mut Tokens<'_>) -> Result<Seq<Co>, Stop>
    ensures read { IfOk result (λ x. Takes (Many ACoercion) (ahead tokens.old) (map co_of x) (ahead tokens.new)) }
    ensures shorter { IfOk result (λ _. length (ahead tokens.new) < length (ahead tokens.old)) }
    ensures fault { IfErr result (StopsAt (Many ACoercion) (ahead tokens.old)) }
{
    let mut all = Seq::new(alloc);
    'each: loop {
        if closes(tokens) {
            return Ok(all);
        }
        all.push(read_coercion(alloc, tokens)?)?;
    }
}
