//! The definitions of the project: the grammar, the canonical text, names, typing and meaning, over the pure trees. Beside them stand what a
//! judgement in code answers, sets of words, what a module declares, and what modules have for others.
#![tactic(auto)]

mod declared;
mod flaw;
mod laws;
mod offers;
mod word_set;

pub use declared::{Declared, Spaces, word_of, words_declared};
pub use flaw::{Flaw, Flawed, deeper, flaw_here, in_declaration, next_part};
pub use laws::{coercions_agree, judgements_agree, substitution_agrees, typing_agrees};
pub use offers::{Offer, Offers};
pub use word_set::WordSet;
