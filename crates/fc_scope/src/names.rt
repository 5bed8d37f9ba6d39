//! The words of a group of binders.
ghost use Rattle.std.specs.Prelude.{◌≡◌, ◌≤◌, ◌<◌, ◌+◌, [], ◌∷◌, IfSome, OnOk, Some, if◌then◌else◌, length, option_map, reverse, slice_get};
ghost use Rattle.std.specs.Option.{option_copied};
ghost use Rattle.fc_model.specs.Resolution.{index_of};
ghost use Rattle.fc_scope.specs.Among.{among};

use crate::table::Table;
use fc_syntax::{Memory, Text};
use std::alloc::Global;
use std::marker::Model;

/// The number of words up to which each is looked at, before there is a table.
const FEW: usize = 8;

/// The words of binders of one space that stand together. Contracts see the list of the words, the last one that was put in first. A
/// word may be there more than once, and the last binder of it counts.
pub struct Names {
    few: Vec<Text>,
    many: Table,
}

impl Model for Names {
    ghost use Rattle.std.specs.Prelude.{List, ℕ, ◌++◌, length, reverse};
    ghost use Rattle.std.specs.Coded.{coded_list, coded_ℕ};
    ghost use Rattle.fc_scope.specs.Apart.{AreApart};

    ghost Value = { List (List ℕ) };

    ghost coded = { coded_list (coded_list coded_ℕ) };

    ghost view = { λ n. n.many ++ reverse n.few.items };

    ghost invariant = { λ n. AreApart (length n.few.items) n.many };
}

/// A distance from one word further in, where the word there is the one that is sought or not.
fn one_further(distance: Option<u32>, here: bool) -> Option<u32>
    requires { IfSome distance (λ d. d < 8) }
    ensures { result ≡ (if here then Some 0 else option_map (λ i. i + 1) distance) }
{
    if here {
        Some(0)
    } else {
        match distance {
            Some(distance) => Some(distance + 1),
            None => None,
        }
    }
}

/// The distance to the last place of a word among few.
fn distance_among(words: &[Text], word: &Text) -> Option<u32>
    requires { length words.now ≤ 8 }
    ensures { result ≡ index_of (reverse words.now) word.now }
{
    let mut distance = None;
    for other in words {
        distance = one_further(distance, other.as_str() == word.as_str());
    }
    distance
}

/// The word at a distance among few.
fn word_among(words: &[Text], distance: u32) -> Option<&Text>
    ensures { option_copied result ≡ slice_get (reverse words.now) distance }
{
    let count = words.len();
    let place = distance as usize;
    if place < count {
        Some(&words[count - 1 - place])
    } else {
        None
    }
}

impl Names {
    /// No words, which take no memory.
    pub fn new(alloc: Global) -> Names
        ensures { result ≡ [] }
    {
        Names {
            few: Vec::new(alloc),
            many: Table::new(alloc),
        }
    }

    /// Puts the word of one more binder in, the innermost. Fails where memory runs out or a count passes 32 bits.
    pub fn add(&mut self, alloc: Global, word: &Text) -> Result<(), Memory>
        ensures { OnOk result (self.new ≡ word.now ∷ self.old) }
    {
        if self.few.len() < FEW {
            let word = word.copy(alloc)?;
            self.few.push(word)?;
            Ok(())
        } else {
            if self.many.len() >= u32::MAX - 8 {
                return Err(Memory);
            }
            self.many.add(alloc, word)
        }
    }

    /// The number of the words.
    pub fn len(&self) -> u32
        ensures { result ≡ length self.now }
    {
        self.many.len() + self.few.len() as u32
    }

    /// The distance to the last binder of a word: how many words were put in behind it. Takes no memory.
    pub fn distance(&self, word: &Text) -> Option<u32>
        ensures { result ≡ index_of self.now word.now }
    {
        match self.many.distance(word) {
            Some(distance) => Some(distance),
            None => match distance_among(self.few.as_slice(), word) {
                Some(distance) => Some(distance + self.many.len()),
                None => None,
            },
        }
    }

    /// Whether a word is one of them. Takes no memory.
    pub fn has(&self, word: &Text) -> bool
        ensures { result ≡ among self.now word.now }
    {
        self.distance(word).is_some()
    }

    /// The word of the binder at a distance, `None` exactly where there are no more binders than that.
    pub fn word(&self, distance: u32) -> Option<&Text>
        ensures { option_copied result ≡ slice_get self.now distance }
    {
        match self.many.word(distance) {
            Some(word) => Some(word),
            None => word_among(
                self.few.as_slice(),
                distance.saturating_sub(self.many.len()),
            ),
        }
    }
}

impl Drop for Names {
    fn drop(self) {
        let Names { few: _, many: _ } = self;
    }
}
