//! Words of a text, each of which is made once.
ghost use Rattle.std.specs.Prelude.{◌≡◌, IfOk};

use crate::fault::Memory;
use crate::text::Text;
use indexmap::IndexSet;
use std::alloc::Global;
use std::rc::RcStr;

/// The words of a text that were made so far. A word that stands in it again shares its bytes with the first.
#[derive(Debug, Drop)]
pub struct WordTable {
    words: IndexSet<RcStr>,
}

impl WordTable {
    /// A table of no words, which takes no memory.
    pub fn new(alloc: Global) -> WordTable {
        WordTable {
            words: IndexSet::new(alloc),
        }
    }

    /// A text with the bytes of `word`. Fails only where memory runs out; then the words that were made before are as they were.
    pub fn text(&mut self, alloc: Global, word: &str) -> Result<Text, Memory>
        ensures { IfOk result (λ t. t ≡ word.now) }
    {
        match self.words.get(word) {
            Some(known) => Text::sharing(known),
            None => self.add(alloc, word),
        }
    }

    /// A word that is not in the table yet.
    fn add(&mut self, alloc: Global, word: &str) -> Result<Text, Memory>
        ensures { IfOk result (λ t. t ≡ word.now) }
    {
        let string = RcStr::from_str(alloc, word)?;
        let text = Text::sharing(&string)?;
        self.words.insert(string)?;
        Ok(text)
    }
}
