//! When a nameless tree can be written as a text, but for the words of its binders.
#![tactic(auto)]

ghost use Rattle.fc_formed.specs.Laws.{FormedWithWords, FormedWithoutWords};

/// A nameless module is formed exactly if it is with words for its binders, whatever these are; so it is where they are of their form.
pub fn formed_as_with_words()
    ensures words { FormedWithWords }
    ensures bare { FormedWithoutWords }
{}
