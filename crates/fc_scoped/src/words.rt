//! Whether declarations declare each word once in each space.
ghost use Rattle.std.specs.Prelude.{◌≡◌, ◌∷◌, ◌++◌, ◌&&◌, List, IfOk};
ghost use Rattle.fc_syntax.specs.Tree.{Word};
ghost use Rattle.fc_model.specs.Declaring.{ncon_words};
ghost use Rattle.fc_model.specs.DeclaredWords.{words_by_space};
ghost use Rattle.fc_model.specs.Nameless.{NDecl};
ghost use Rattle.fc_model.specs.NamelessView.{ncons_of, ndecl_of, ndecls_of};
ghost use Rattle.fc_model.specs.Resolution.{no_words};
ghost use Rattle.fc_model.specs.WordSets.{set_of};
ghost use Rattle.fc_scoped.specs.Testing.{are_distinct, declare_distinct};

use fc_model::{Spaces, WordSet};
use fc_syntax::{Memory, NConDecl, NDecl, Text};
use std::alloc::Global;

/// Puts a word in, and answers whether it is new.
fn add(alloc: Global, words: &mut WordSet, word: &Text) -> Result<bool, Memory>
    ensures { IfOk result (λ b. (ws : List Word) → are_distinct (set_of words.old) (word.now ∷ ws) ≡ (b && are_distinct (set_of words.new) ws)) }
{
    if words.has(word) {
        return Ok(false);
    }
    words.add(alloc, word)?;
    Ok(true)
}

/// Puts the words of constructors in, and answers whether each is new.
fn add_constructors(alloc: Global, words: &mut WordSet, cons: &[NConDecl]) -> Result<bool, Memory>
    ensures { IfOk result (λ b. (ws : List Word) → are_distinct (set_of words.old) (ncon_words (ncons_of cons.now) ++ ws) ≡ (b && are_distinct (set_of words.new) ws)) }
{
    for con in cons {
        if !add(alloc, words, &con.name)? {
            return Ok(false);
        }
    }
    Ok(true)
}

/// Puts the words of a declaration in, and answers whether each is new in its space.
#[tactic(auto, unfolding(fc_model::specs::DeclaredWords::words_by_space))]
fn add_words(alloc: Global, spaces: &mut Spaces, decl: &NDecl) -> Result<bool, Memory>
    ensures { IfOk result (λ b. (ds : List NDecl) → declare_distinct (words_by_space spaces.old) (ndecl_of decl.now ∷ ds) ≡ (b && declare_distinct (words_by_space spaces.new) ds)) }
{
    match decl {
        NDecl::DataType(name, _, cons) => Ok(
            add(alloc, &mut spaces.types, name)?
                && add_constructors(alloc, &mut spaces.terms, cons.as_slice())?,
        ),
        NDecl::NewType(name, _, _, axiom) => Ok(
            add(alloc, &mut spaces.types, name)? && add(alloc, &mut spaces.coercions, axiom)?,
        ),
        NDecl::Family(name, _, _) => add(alloc, &mut spaces.types, name),
        NDecl::Axiom(name, _, _, _) => add(alloc, &mut spaces.coercions, name),
        NDecl::Def(name, _, _) | NDecl::Wrap(name, _, _) => add(alloc, &mut spaces.terms, name),
    }
}

/// Whether the words of declarations are distinct in each space.
pub(crate) fn are_words_distinct(alloc: Global, decls: &[NDecl]) -> Result<bool, Memory>
    ensures { IfOk result (λ b. b ≡ declare_distinct no_words (ndecls_of decls.now)) }
{
    let mut spaces = Spaces::new(alloc);
    for decl in decls {
        if !add_words(alloc, &mut spaces, decl)? {
            return Ok(false);
        }
    }
    Ok(true)
}
