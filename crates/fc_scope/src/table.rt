//! The words of a large group of binders.
ghost use Rattle.std.specs.Prelude.{◌≡◌, [], ◌∷◌, OnErr, OnOk, length, slice_get};
ghost use Rattle.std.specs.Option.{option_copied};
ghost use Rattle.fc_model.specs.Resolution.{index_of};

use fc_syntax::{Memory, Text};
use indexmap::IndexMap;
use std::alloc::Global;
use std::marker::Model;

/// Words with a table from each to its last place. Contracts see the list of the words, the last one that was put in first.
pub struct Table {
    words: Vec<Text>,
    count: u32,
    last: IndexMap<String, u32>,
}

impl Model for Table {
    ghost use Rattle.std.specs.Prelude.{List, ℕ, reverse};
    ghost use Rattle.std.specs.HashMap.{get_by_text};
    ghost use Rattle.std.specs.Coded.{coded_list, coded_ℕ};
    ghost use Rattle.fc_scope.specs.Tied.{IsTied};

    ghost Value = { List (List ℕ) };

    ghost coded = { coded_list (coded_list coded_ℕ) };

    ghost view = { λ n. reverse n.words.items };

    ghost invariant = { λ n. IsTied n.words.items n.count (get_by_text n.last) };
}

impl Table {
    /// No words, which take no memory.
    pub fn new(alloc: Global) -> Table
        ensures { result ≡ [] }
    {
        Table {
            words: Vec::new(alloc),
            count: 0,
            last: IndexMap::new(alloc),
        }
    }

    /// Puts one more word in. Fails where memory runs out or a count passes 32 bits, and then leaves the words as they were.
    pub fn add(&mut self, alloc: Global, word: &Text) -> Result<(), Memory>
        ensures ok { OnOk result (self.new ≡ word.now ∷ self.old) }
        ensures err { OnErr result (self.new ≡ self.old) }
    {
        let count = match self.count.checked_add(1) {
            Some(count) => count,
            None => return Err(Memory),
        };
        let key = String::from_str(alloc, word.as_str())?;
        let word = word.copy(alloc)?;
        self.words.push(word)?;
        match self.last.insert(key, count) {
            Ok(_) => {
                self.count = count;
                Ok(())
            }
            Err(_) => {
                let _word = self.words.pop();
                Err(Memory)
            }
        }
    }

    /// The number of the words.
    pub fn len(&self) -> u32
        ensures { result ≡ length self.now }
    {
        self.count
    }

    /// The distance to the last place of a word: how many words were put in behind it. Takes no memory.
    pub fn distance(&self, word: &Text) -> Option<u32>
        ensures { result ≡ index_of self.now word.now }
    {
        match self.last.get(word.as_str()) {
            None => None,
            Some(last) => Some(self.count - *last),
        }
    }

    /// The word at a distance, `None` exactly where there are no more words than that.
    pub fn word(&self, distance: u32) -> Option<&Text>
        ensures { option_copied result ≡ slice_get self.now distance }
    {
        if distance < self.count {
            Some(&self.words[(self.count - 1 - distance) as usize])
        } else {
            None
        }
    }
}

impl Drop for Table {
    fn drop(self) {
        let Table {
            words: _,
            count: _,
            last: _,
        } = self;
    }
}
