//! Words and numbers that stand in an interface alone, where they are no words of a form.
ghost use Rattle.std.specs.Prelude.{◌≡◌, ◌<◌, ◌∷◌, length, codes, Some, false, IfOk, IfErr, IsTrue};
ghost use Rattle.fc_syntax.specs.declared.keyword.Keyword.TheVariants as key;
ghost use Rattle.fc_model.specs.Words.{Key, Lower};
ghost use Rattle.fc_model.specs.Grammar.{AThis, AThisNumber, here};
ghost use Rattle.fc_read_parts.specs.Reading.{StopsAt, Takes, first_tok};
ghost use Rattle.fc_read_parts.specs.Seen.{ahead};
ghost use Rattle.fc_read_items.specs.Starts.{BeginsDefinition};

use fc_read_parts::{Stop, Terminal, Tokens};
use fc_syntax::Keyword;

/// Reads a lower name that is this word. Stops at any other token.
pub fn read_this(tokens: &mut Tokens<'_>, word: &str) -> Result<(), Stop>
    ensures read { IfOk result (λ _. Takes (AThis word.now) (ahead tokens.old) here (ahead tokens.new)) }
    ensures shorter { IfOk result (λ _. length (ahead tokens.new) < length (ahead tokens.old)) }
    ensures fault { IfErr result (StopsAt (AThis word.now) (ahead tokens.old)) }
{
    let left = tokens.left();
    let Some(Terminal::Lower(name)) = tokens.next() else {
        return Err(Stop::Form(left));
    };
    if name == word {
        Ok(())
    } else {
        Err(Stop::Form(left))
    }
}

/// Reads this number. Stops at any other token.
pub fn read_this_number(tokens: &mut Tokens<'_>, n: u32) -> Result<(), Stop>
    ensures read { IfOk result (λ _. Takes (AThisNumber n) (ahead tokens.old) here (ahead tokens.new)) }
    ensures shorter { IfOk result (λ _. length (ahead tokens.new) < length (ahead tokens.old)) }
    ensures fault { IfErr result (StopsAt (AThisNumber n) (ahead tokens.old)) }
{
    let left = tokens.left();
    let Some(Terminal::Number(number)) = tokens.next() else {
        return Err(Stop::Form(left));
    };
    if number == n {
        Ok(())
    } else {
        Err(Stop::Form(left))
    }
}

/// Takes `diverges`, where it comes first, and answers whether it did.
pub(crate) fn takes_diverges(tokens: &mut Tokens<'_>) -> bool
    ensures taken { IsTrue result → ahead tokens.old ≡ Key key.Diverges ∷ ahead tokens.new }
    ensures other { result ≡ false → (first_tok (ahead tokens.old) ≡ Some (Key key.Diverges) → ⊥) × (ahead tokens.new ≡ ahead tokens.old) }
{
    match tokens.peek() {
        Some(Terminal::Key(Keyword::Diverges)) => {
            tokens.next();
            true
        }
        _ => false,
    }
}

/// Takes `value`, where it comes first, and answers whether it did.
pub(crate) fn takes_value(tokens: &mut Tokens<'_>) -> bool
    ensures taken { IsTrue result → ahead tokens.old ≡ Lower (codes "value") ∷ ahead tokens.new }
    ensures other { result ≡ false → (first_tok (ahead tokens.old) ≡ Some (Lower (codes "value")) → ⊥) × (ahead tokens.new ≡ ahead tokens.old) }
{
    match tokens.peek() {
        Some(Terminal::Lower(word)) if word == "value" => {
            tokens.next();
            true
        }
        _ => false,
    }
}

/// Whether `def` or `wrap` comes first, with which no item begins.
pub(crate) fn begins_definition(tokens: &Tokens<'_>) -> bool
    ensures definition { IsTrue result → BeginsDefinition (ahead tokens.now) }
    ensures other { result ≡ false → BeginsDefinition (ahead tokens.now) → ⊥ }
{
    matches!(
        tokens.peek(),
        Some(Terminal::Key(Keyword::Def | Keyword::Wrap))
    )
}
