//! Single tokens that a form wants. Each reader takes its tokens from those ahead; a fault counts the tokens that were ahead of the first
//! that cannot go on, with that one.
ghost use Rattle.std.specs.Prelude.{◌≡◌, ◌<◌, ◌≤◌, ◌++◌, ◌∷◌, [], length, None, Some, false, IfOk, IfErr, IfSome, IfNone, IsTrue};
ghost use Rattle.fc_syntax.specs.declared.keyword.Keyword.TheVariants as key;
ghost use Rattle.fc_model.specs.Words.{Open, Close, Key};
ghost use Rattle.fc_model.specs.Grammar.{
  AClose,
  ALower,
  AModuleName,
  AName,
  ANumber,
  ARole,
  AWord,
  AnEqualityRole,
  AnOpen,
  AnOperator,
  AnUpper,
  AnUpperName,
  equality_role_row,
  gives,
  here,
  name_in as spec_name_in,
  plain_name as spec_plain_name,
  role_row,
};
ghost use Rattle.fc_read_parts.specs.Seen.{ahead, seen, seen_all};
ghost use Rattle.fc_read_parts.specs.Reading.{GoesOn, NotHidden, StopsAt, Takes, first_tok};
ghost use Rattle.fc_read_parts.specs.declared.parts.Stop.TheVariants.{Memory as memory_stop};

use crate::terminal::Terminal;
use fc_lex::is_module_part;
use fc_syntax::{Keyword, Memory, Name, PrimOp, Role, Text, WordTable};
use std::alloc::Global;

/// Why a reader stopped.
#[derive(Debug, Drop)]
pub enum Stop {
    /// Out of memory.
    Memory,
    /// How many tokens are left from the first on that cannot go on, 0 where the tokens end too early.
    Form(usize),
}

impl From<Memory> for Stop {
    ghost from_gives = { λ _ e. e ≡ memory_stop };

    fn from(_e: Memory) -> Stop {
        Stop::Memory
    }
}

/// The tokens that are still to be read, and the words that were made of those before.
#[derive(Debug, Drop)]
pub struct Tokens<'a> {
    rest: &'a [Terminal<'a>],
    words: WordTable,
}

impl<'a> Tokens<'a> {
    /// All of these tokens, of which no word was made yet.
    pub fn new(alloc: Global, tokens: &'a [Terminal<'a>]) -> Tokens<'a>
        ensures { ahead result ≡ seen_all tokens.now }
    {
        Tokens {
            rest: tokens,
            words: WordTable::new(alloc),
        }
    }

    /// A word as text, which shares its bytes with those that were made of it before. Fails only where memory runs out.
    pub fn text(&mut self, alloc: Global, word: &str) -> Result<Text, Memory>
        ensures text { IfOk result (λ t. t ≡ word.now) }
        ensures ahead { ahead self.new ≡ ahead self.old }
    {
        self.words.text(alloc, word)
    }

    /// A word without a dot, as a name. Fails only where memory runs out.
    pub fn plain_name(&mut self, alloc: Global, word: &str) -> Result<Name, Memory>
        ensures name { IfOk result (λ n. n ≡ spec_plain_name word.now) }
        ensures ahead { ahead self.new ≡ ahead self.old }
    {
        let text = self.text(alloc, word)?;
        Ok(Name { module: None, text })
    }

    /// A name of a module. Fails only where memory runs out.
    pub fn name_in(&mut self, alloc: Global, front: &str, word: &str) -> Result<Name, Memory>
        ensures name { IfOk result (λ n. n ≡ spec_name_in front.now word.now) }
        ensures ahead { ahead self.new ≡ ahead self.old }
    {
        let module = self.text(alloc, front)?;
        let text = self.text(alloc, word)?;
        Ok(Name {
            module: Some(module),
            text,
        })
    }

    /// How many tokens are ahead.
    pub fn left(&self) -> usize
        ensures { result ≡ length (ahead self.now) }
    {
        self.rest.len()
    }

    /// The first token ahead, which stays there.
    pub fn peek(&self) -> Option<Terminal<'a>>
        ensures none { IfNone result (first_tok (ahead self.now) ≡ None) }
        ensures some { IfSome result (λ t. first_tok (ahead self.now) ≡ Some (seen t)) }
    {
        match self.rest {
            [] => None,
            [token, ..] => Some(*token),
        }
    }

    /// Takes the first token ahead.
    pub fn next(&mut self) -> Option<Terminal<'a>>
        ensures none { IfNone result ((ahead self.old ≡ []) × (ahead self.new ≡ [])) }
        ensures some { IfSome result (λ t. ahead self.old ≡ seen t ∷ ahead self.new) }
    {
        match self.rest {
            [] => None,
            [token, ..] => {
                let token = *token;
                self.rest = &self.rest[1..];
                Some(token)
            }
        }
    }
}

/// Takes a closing bracket, where one comes first, and answers whether it did.
#[tactic(auto, using(crate::proofs::Rows::goes_on))]
pub fn closes(tokens: &mut Tokens<'_>) -> bool
    ensures closed { IsTrue result → ahead tokens.old ≡ Close ∷ ahead tokens.new }
    ensures open { result ≡ false → GoesOn (ahead tokens.old) × (ahead tokens.new ≡ ahead tokens.old) }
{
    match tokens.peek() {
        Some(Terminal::Close) => {
            tokens.next();
            true
        }
        _ => false,
    }
}

/// Takes `type`, where it comes first, and answers whether it did.
pub fn takes_type(tokens: &mut Tokens<'_>) -> bool
    ensures taken { IsTrue result → ahead tokens.old ≡ Key key.Type ∷ ahead tokens.new }
    ensures other { result ≡ false → (first_tok (ahead tokens.old) ≡ Some (Key key.Type) → ⊥) × (ahead tokens.new ≡ ahead tokens.old) }
{
    match tokens.peek() {
        Some(Terminal::Key(Keyword::Type)) => {
            tokens.next();
            true
        }
        _ => false,
    }
}

/// Takes `co`, where it comes first, and answers whether it did.
pub fn takes_co(tokens: &mut Tokens<'_>) -> bool
    ensures taken { IsTrue result → ahead tokens.old ≡ Key key.Co ∷ ahead tokens.new }
    ensures other { result ≡ false → (first_tok (ahead tokens.old) ≡ Some (Key key.Co) → ⊥) × (ahead tokens.new ≡ ahead tokens.old) }
{
    match tokens.peek() {
        Some(Terminal::Key(Keyword::Co)) => {
            tokens.next();
            true
        }
        _ => false,
    }
}

/// Takes an opening bracket and `hidden`, where both come first, and answers whether it did.
pub fn opens_hidden(tokens: &mut Tokens<'_>) -> bool
    ensures hidden { IsTrue result → ahead tokens.old ≡ Open ∷ Key key.Hidden ∷ ahead tokens.new }
    ensures plain { result ≡ false → NotHidden (ahead tokens.old) × (ahead tokens.new ≡ ahead tokens.old) }
{
    match tokens.rest {
        [Terminal::Open, Terminal::Key(Keyword::Hidden), ..] => {
            tokens.rest = &tokens.rest[2..];
            true
        }
        _ => false,
    }
}

/// Reads `(`. Stops at any other token.
pub fn read_open(tokens: &mut Tokens<'_>) -> Result<(), Stop>
    ensures read { IfOk result (λ _. Takes AnOpen (ahead tokens.old) here (ahead tokens.new)) }
    ensures shorter { IfOk result (λ _. length (ahead tokens.new) < length (ahead tokens.old)) }
    ensures fault { IfErr result (StopsAt AnOpen (ahead tokens.old)) }
{
    let left = tokens.left();
    match tokens.next() {
        Some(Terminal::Open) => Ok(()),
        _ => Err(Stop::Form(left)),
    }
}

/// Reads `)`. Stops at any other token.
pub fn read_close(tokens: &mut Tokens<'_>) -> Result<(), Stop>
    ensures read { IfOk result (λ _. Takes AClose (ahead tokens.old) here (ahead tokens.new)) }
    ensures shorter { IfOk result (λ _. length (ahead tokens.new) < length (ahead tokens.old)) }
    ensures fault { IfErr result (StopsAt AClose (ahead tokens.old)) }
{
    let left = tokens.left();
    match tokens.next() {
        Some(Terminal::Close) => Ok(()),
        _ => Err(Stop::Form(left)),
    }
}

/// Reads this word of a form. Stops at any other token.
pub fn read_word(tokens: &mut Tokens<'_>, word: Keyword) -> Result<(), Stop>
    ensures read { IfOk result (λ _. Takes (AWord word) (ahead tokens.old) here (ahead tokens.new)) }
    ensures shorter { IfOk result (λ _. length (ahead tokens.new) < length (ahead tokens.old)) }
    ensures fault { IfErr result (StopsAt (AWord word) (ahead tokens.old)) }
{
    let left = tokens.left();
    let Some(Terminal::Key(key)) = tokens.next() else {
        return Err(Stop::Form(left));
    };
    if key.text() == word.text() {
        Ok(())
    } else {
        Err(Stop::Form(left))
    }
}

/// Reads a lower name. Stops at any other token.
pub fn read_lower(alloc: Global, tokens: &mut Tokens<'_>) -> Result<Text, Stop>
    ensures read { IfOk result (λ x. Takes ALower (ahead tokens.old) x (ahead tokens.new)) }
    ensures shorter { IfOk result (λ _. length (ahead tokens.new) < length (ahead tokens.old)) }
    ensures fault { IfErr result (StopsAt ALower (ahead tokens.old)) }
{
    let left = tokens.left();
    match tokens.next() {
        Some(Terminal::Lower(word)) => Ok(tokens.text(alloc, word)?),
        _ => Err(Stop::Form(left)),
    }
}

/// Reads an upper name. Stops at any other token.
pub fn read_upper(alloc: Global, tokens: &mut Tokens<'_>) -> Result<Text, Stop>
    ensures read { IfOk result (λ x. Takes AnUpper (ahead tokens.old) x (ahead tokens.new)) }
    ensures shorter { IfOk result (λ _. length (ahead tokens.new) < length (ahead tokens.old)) }
    ensures fault { IfErr result (StopsAt AnUpper (ahead tokens.old)) }
{
    let left = tokens.left();
    match tokens.next() {
        Some(Terminal::Upper(word)) => Ok(tokens.text(alloc, word)?),
        _ => Err(Stop::Form(left)),
    }
}

/// Reads a lower or an upper name. Stops at any other token.
pub fn read_name(alloc: Global, tokens: &mut Tokens<'_>) -> Result<Text, Stop>
    ensures read { IfOk result (λ x. Takes AName (ahead tokens.old) x (ahead tokens.new)) }
    ensures shorter { IfOk result (λ _. length (ahead tokens.new) < length (ahead tokens.old)) }
    ensures fault { IfErr result (StopsAt AName (ahead tokens.old)) }
{
    let left = tokens.left();
    match tokens.next() {
        Some(Terminal::Lower(word)) => Ok(tokens.text(alloc, word)?),
        Some(Terminal::Upper(word)) => Ok(tokens.text(alloc, word)?),
        _ => Err(Stop::Form(left)),
    }
}

/// A module's name and a word, with a dot between them.
fn dotted(alloc: Global, front: &str, word: &str) -> Result<Text, Memory>
    ensures { IfOk result (λ t. t ≡ front.now ++ 46 ∷ word.now) }
{
    let mut text = String::from_str(alloc, front)?;
    text.push_str(".")?;
    text.push_str(word)?;
    Text::from_str(alloc, text.as_str())
}

/// Reads the name of a module: upper names of letters, digits and `_`, joined by dots. Stops at any other token.
pub fn read_module_name(alloc: Global, tokens: &mut Tokens<'_>) -> Result<Text, Stop>
    ensures read { IfOk result (λ x. Takes AModuleName (ahead tokens.old) x (ahead tokens.new)) }
    ensures shorter { IfOk result (λ _. length (ahead tokens.new) < length (ahead tokens.old)) }
    ensures fault { IfErr result (StopsAt AModuleName (ahead tokens.old)) }
{
    let left = tokens.left();
    match tokens.next() {
        Some(Terminal::Upper(word)) if is_module_part(word.as_bytes()) => {
            Ok(tokens.text(alloc, word)?)
        }
        Some(Terminal::UpperOf(front, word)) if is_module_part(word.as_bytes()) => {
            Ok(dotted(alloc, front, word)?)
        }
        _ => Err(Stop::Form(left)),
    }
}

/// Reads an upper name, which may be one of a module. Stops at any other token.
pub fn read_upper_name(alloc: Global, tokens: &mut Tokens<'_>) -> Result<Name, Stop>
    ensures read { IfOk result (λ x. Takes AnUpperName (ahead tokens.old) x (ahead tokens.new)) }
    ensures shorter { IfOk result (λ _. length (ahead tokens.new) < length (ahead tokens.old)) }
    ensures fault { IfErr result (StopsAt AnUpperName (ahead tokens.old)) }
{
    let left = tokens.left();
    match tokens.next() {
        Some(Terminal::Upper(word)) => Ok(tokens.plain_name(alloc, word)?),
        Some(Terminal::UpperOf(front, word)) => Ok(tokens.name_in(alloc, front, word)?),
        _ => Err(Stop::Form(left)),
    }
}

/// The role that a word is.
fn role_of(word: &str) -> Option<Role>
    ensures none { IfNone result (role_row word.now ≡ None) }
    ensures some { IfSome result (λ r. role_row word.now ≡ Some (gives r)) }
{
    if word == "N" {
        Some(Role::N)
    } else if word == "R" {
        Some(Role::R)
    } else if word == "P" {
        Some(Role::P)
    } else {
        None
    }
}

/// Reads `N`, `R` or `P`. Stops at any other token.
pub fn read_role(tokens: &mut Tokens<'_>) -> Result<Role, Stop>
    ensures read { IfOk result (λ x. Takes ARole (ahead tokens.old) x (ahead tokens.new)) }
    ensures shorter { IfOk result (λ _. length (ahead tokens.new) < length (ahead tokens.old)) }
    ensures fault { IfErr result (StopsAt ARole (ahead tokens.old)) }
{
    let left = tokens.left();
    let Some(Terminal::Upper(word)) = tokens.next() else {
        return Err(Stop::Form(left));
    };
    match role_of(word) {
        Some(role) => Ok(role),
        None => Err(Stop::Form(left)),
    }
}

/// The role of an equality that a word is.
fn equality_role_of(word: &str) -> Option<Role>
    ensures none { IfNone result (equality_role_row word.now ≡ None) }
    ensures some { IfSome result (λ r. equality_role_row word.now ≡ Some (gives r)) }
{
    if word == "N" {
        Some(Role::N)
    } else if word == "R" {
        Some(Role::R)
    } else {
        None
    }
}

/// Reads `N` or `R`. Stops at any other token.
pub fn read_equality_role(tokens: &mut Tokens<'_>) -> Result<Role, Stop>
    ensures read { IfOk result (λ x. Takes AnEqualityRole (ahead tokens.old) x (ahead tokens.new)) }
    ensures shorter { IfOk result (λ _. length (ahead tokens.new) < length (ahead tokens.old)) }
    ensures fault { IfErr result (StopsAt AnEqualityRole (ahead tokens.old)) }
{
    let left = tokens.left();
    let Some(Terminal::Upper(word)) = tokens.next() else {
        return Err(Stop::Form(left));
    };
    match equality_role_of(word) {
        Some(role) => Ok(role),
        None => Err(Stop::Form(left)),
    }
}

/// Reads a number. Stops at any other token.
pub fn read_number(tokens: &mut Tokens<'_>) -> Result<u32, Stop>
    ensures read { IfOk result (λ x. Takes ANumber (ahead tokens.old) x (ahead tokens.new)) }
    ensures shorter { IfOk result (λ _. length (ahead tokens.new) < length (ahead tokens.old)) }
    ensures fault { IfErr result (StopsAt ANumber (ahead tokens.old)) }
{
    let left = tokens.left();
    match tokens.next() {
        Some(Terminal::Number(n)) => Ok(n),
        _ => Err(Stop::Form(left)),
    }
}

/// Reads the sign or the word of a primitive. Stops at any other token.
pub fn read_operator(tokens: &mut Tokens<'_>) -> Result<PrimOp, Stop>
    ensures read { IfOk result (λ x. Takes AnOperator (ahead tokens.old) x (ahead tokens.new)) }
    ensures shorter { IfOk result (λ _. length (ahead tokens.new) < length (ahead tokens.old)) }
    ensures fault { IfErr result (StopsAt AnOperator (ahead tokens.old)) }
{
    let left = tokens.left();
    match tokens.next() {
        Some(Terminal::Operator(op)) => Ok(op),
        Some(Terminal::Key(Keyword::Quot)) => Ok(PrimOp::Quot),
        Some(Terminal::Key(Keyword::Rem)) => Ok(PrimOp::Rem),
        _ => Err(Stop::Form(left)),
    }
}
