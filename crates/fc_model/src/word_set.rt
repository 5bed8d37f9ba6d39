//! Sets of words.
ghost use Rattle.std.specs.Prelude.{◌≡◌, OnOk, OnErr};
ghost use Rattle.fc_model.specs.Resolution.{no_word, plus, plus_all};

use fc_syntax::{Memory, Text};
use indexmap::IndexSet;
use std::alloc::Global;
use std::rc::RcStr;

/// A set of words, in which a word is found in constant time. It shares the bytes of its words with the texts that they were put in from.
#[derive(Drop)]
pub struct WordSet {
    words: IndexSet<RcStr>,
}

impl WordSet {
    ghost use Rattle.fc_model.specs.WordSets.{set_of};

    /// No words.
    #[tactic(auto, unfolding(crate::specs::WordSets::set_of))]
    pub fn new(alloc: Global) -> WordSet
        ensures { set_of result ≡ no_word }
    {
        WordSet {
            words: IndexSet::new(alloc),
        }
    }

    /// Whether a word is one of them. Takes no memory.
    #[tactic(auto, unfolding(crate::specs::WordSets::set_of))]
    pub fn has(&self, word: &Text) -> bool
        ensures { result ≡ set_of self.now word.now }
    {
        self.words.contains(word.as_str())
    }

    /// Puts a word in. Where memory runs out, the set is as before.
    #[tactic(auto, unfolding(crate::specs::WordSets::set_of))]
    pub fn add(&mut self, _alloc: Global, word: &Text) -> Result<(), Memory>
        ensures ok { OnOk result (set_of self.new ≡ plus word.now (set_of self.old)) }
        ensures err { OnErr result (set_of self.new ≡ set_of self.old) }
    {
        let word = word.shared()?;
        self.words.insert(word)?;
        Ok(())
    }

    /// Puts words in. Where memory runs out, some of them may be missing.
    pub fn add_all(&mut self, alloc: Global, words: &[Text]) -> Result<(), Memory>
        ensures { OnOk result (set_of self.new ≡ plus_all words.now (set_of self.old)) }
    {
        for word in words {
            self.add(alloc, word)?;
        }
        Ok(())
    }
}
