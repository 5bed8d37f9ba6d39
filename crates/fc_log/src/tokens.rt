//! The tokens that are still to be read, and where reading stops.
ghost use Rattle.std.specs.Prelude.{◌≡◌, ◌∷◌, [], length, false, IfNone, IfSome, IsTrue};
ghost use Rattle.fc_log.specs.Grammar.{AWord, ALineEnd};
ghost use Rattle.fc_log.specs.Reading.{NoLineEnd, NoWord, Other, ahead, tokens_in};
ghost use Rattle.fc_log.specs.Seen.{seen_all, seen_token};
ghost use Rattle.fc_log.specs.declared.tokens.Stop.TheVariants.{Memory as memory_stop};

use crate::cut::{Piece, Token};
use fc_syntax::Memory;

/// Why reading stopped. The numbers count the tokens that are left from the first on that cannot stand there, which are none at the end.
#[derive(Debug, Drop)]
pub(crate) enum Stop {
    /// Out of memory.
    Memory,
    /// At a token that cannot stand there.
    Form(usize),
    /// At a token that cannot stand there, where the answer of a fold is wanted.
    Answer(usize),
}

impl From<Memory> for Stop {
    ghost from_gives = { λ _ e. e ≡ memory_stop };

    fn from(_e: Memory) -> Stop {
        Stop::Memory
    }
}

/// The tokens that are still to be read.
#[derive(Debug, Drop)]
pub(crate) struct Tokens<'a> {
    rest: &'a [Piece<'a>],
}

impl<'a> Tokens<'a> {
    /// All of these tokens.
    pub(crate) fn new(pieces: &'a [Piece<'a>]) -> Tokens<'a>
        ensures { ahead result ≡ tokens_in (seen_all pieces.now) }
    {
        Tokens { rest: pieces }
    }

    /// How many tokens are ahead.
    pub(crate) fn left(&self) -> usize
        ensures { result ≡ length (ahead self.now) }
    {
        self.rest.len()
    }

    /// Takes the first token ahead.
    fn next(&mut self) -> Option<Token<'a>>
        ensures none { IfNone result ((ahead self.old ≡ []) × (ahead self.new ≡ [])) }
        ensures some { IfSome result (λ t. ahead self.old ≡ seen_token t ∷ ahead self.new) }
    {
        match self.rest {
            [] => None,
            [piece, ..] => {
                let token = piece.token;
                self.rest = &self.rest[1..];
                Some(token)
            }
        }
    }

    /// Takes a word, where one comes first.
    pub(crate) fn word(&mut self) -> Option<&'a [u8]>
        ensures none { IfNone result (NoWord (ahead self.old)) }
        ensures some { IfSome result (λ w. ahead self.old ≡ AWord w.now ∷ ahead self.new) }
    {
        match self.next() {
            Some(Token::Word(word)) => Some(word),
            Some(Token::LineEnd) | None => None,
        }
    }

    /// Takes the end of a line, where it comes first, and answers whether it did.
    pub(crate) fn ends_line(&mut self) -> bool
        ensures ended { IsTrue result → ahead self.old ≡ ALineEnd ∷ ahead self.new }
        ensures other { result ≡ false → NoLineEnd (ahead self.old) }
    {
        match self.next() {
            Some(Token::LineEnd) => true,
            Some(Token::Word(_)) | None => false,
        }
    }

    /// Takes this word, where it comes first, and answers whether it did.
    pub(crate) fn takes(&mut self, wanted: &[u8]) -> bool
        ensures taken { IsTrue result → ahead self.old ≡ AWord wanted.now ∷ ahead self.new }
        ensures other { result ≡ false → Other wanted.now (ahead self.old) }
    {
        match self.word() {
            Some(word) => word == wanted,
            None => false,
        }
    }
}
