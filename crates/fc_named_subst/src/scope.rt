//! What is in scope where something is substituted.
ghost use Rattle.std.specs.Prelude.{◌≡◌, ◌++◌, ◌∷◌, [], List, IfOk, OnErr, OnOk};
ghost use Rattle.fc_syntax.specs.Tree as trees;
ghost use Rattle.fc_model.specs.DeclaredWords.{top_by};
ghost use Rattle.fc_model.specs.Resolution.{Join, no_locals, no_word, plus, plus_all, with_term};
ghost use Rattle.fc_model.specs.WordSets.{set_of};
ghost use Rattle.fc_named_subst.specs.Scopes.{in_scope, locals_of_scope, modules_named, top_of, with_name, word_text, word_texts, words_but};

use fc_model::{Declared, Offers, Spaces, WordSet};
use fc_syntax::{Memory, Text};
use std::alloc::Global;

/// A word in scope.
#[derive(Drop)]
pub(crate) enum ScopeWord {
    /// One of a type, of a value and of a coercion.
    Name(Text),
    /// One of a join point.
    JoinPoint(Text),
}

/// The names in scope where something is substituted: words, and modules that names with a dot may name, which have whatever is asked of them. A word is one of a local
/// type, value and coercion, and of what the own module declares: of a type, a constructor and an axiom.
#[derive(Drop)]
pub struct Scope {
    /// The modules.
    pub(crate) modules: Vec<Text>,
    /// The words, the outermost first.
    pub(crate) words: Vec<ScopeWord>,
}

/// Puts the name of a module in that is not the own one.
fn add_other(alloc: Global, own: &Text, name: &Text, names: &mut WordSet) -> Result<(), Memory>
    ensures { OnOk result ((ws : List trees.Word) → plus_all (words_but own.now ws) (set_of names.new) ≡ plus_all (words_but own.now (name.now ∷ ws)) (set_of names.old)) }
{
    if name.as_str() == own.as_str() {
        Ok(())
    } else {
        names.add(alloc, name)
    }
}

/// The names of modules but the own one.
fn other_names(alloc: Global, own: &Text, modules: &[Text]) -> Result<WordSet, Memory>
    ensures { IfOk result (λ s. set_of s ≡ plus_all (words_but own.now modules.now) no_word) }
{
    let mut names = WordSet::new(alloc);
    for name in modules {
        add_other(alloc, own, name, &mut names)?;
    }
    Ok(names)
}

/// Puts a word of a scope into a set.
fn add_text(alloc: Global, word: &ScopeWord, words: &mut WordSet) -> Result<(), Memory>
    ensures { OnOk result ((ws : List trees.Word) → plus_all ws (set_of words.new) ≡ plus_all (word_text word.now ∷ ws) (set_of words.old)) }
{
    match word {
        ScopeWord::Name(text) => words.add(alloc, text),
        ScopeWord::JoinPoint(text) => words.add(alloc, text),
    }
}

/// The words of a scope, as a set.
fn texts_of(alloc: Global, words: &[ScopeWord]) -> Result<WordSet, Memory>
    ensures { IfOk result (λ s. set_of s ≡ plus_all (word_texts words.now) no_word) }
{
    let mut texts = WordSet::new(alloc);
    for word in words {
        add_text(alloc, word, &mut texts)?;
    }
    Ok(texts)
}

impl Scope {
    /// A scope without names, which takes no memory.
    pub fn empty(alloc: Global) -> Scope
        ensures locals { locals_of_scope result ≡ no_locals }
        ensures modules { modules_named result ≡ [] }
        ensures words { in_scope result ≡ no_word }
    {
        Scope {
            modules: Vec::new(alloc),
            words: Vec::new(alloc),
        }
    }

    /// Puts a name in, as the innermost type, value and coercion. Fails only where memory runs out, and then the scope is as before.
    #[tactic(auto, using(crate::proofs::ScopeSteps::enter_more, crate::proofs::ScopeSteps::texts_more))]
    pub fn add(&mut self, alloc: Global, name: &Text) -> Result<(), Memory>
        ensures locals { OnOk result (locals_of_scope self.new ≡ with_name name.now (locals_of_scope self.old)) }
        ensures words { OnOk result (in_scope self.new ≡ plus name.now (in_scope self.old)) }
        ensures locals_kept { OnErr result (locals_of_scope self.new ≡ locals_of_scope self.old) }
        ensures words_kept { OnErr result (in_scope self.new ≡ in_scope self.old) }
        ensures modules { modules_named self.new ≡ modules_named self.old }
    {
        let name = name.copy(alloc)?;
        self.words.push(ScopeWord::Name(name))?;
        Ok(())
    }

    /// Puts the name of a join point in, the innermost one. Fails only where memory runs out, and then the scope is as before.
    #[tactic(auto, using(crate::proofs::ScopeSteps::enter_more, crate::proofs::ScopeSteps::texts_more))]
    pub fn add_join(&mut self, alloc: Global, name: &Text) -> Result<(), Memory>
        ensures locals { OnOk result (locals_of_scope self.new ≡ with_term (Join name.now) (locals_of_scope self.old)) }
        ensures words { OnOk result (in_scope self.new ≡ plus name.now (in_scope self.old)) }
        ensures locals_kept { OnErr result (locals_of_scope self.new ≡ locals_of_scope self.old) }
        ensures words_kept { OnErr result (in_scope self.new ≡ in_scope self.old) }
        ensures modules { modules_named self.new ≡ modules_named self.old }
    {
        let name = name.copy(alloc)?;
        self.words.push(ScopeWord::JoinPoint(name))?;
        Ok(())
    }

    /// Puts a module in that names with a dot may name; the empty word names none. Fails only where memory runs out, and then the scope is as before.
    pub fn add_module(&mut self, alloc: Global, name: &Text) -> Result<(), Memory>
        ensures modules { OnOk result (modules_named self.new ≡ modules_named self.old ++ name.now ∷ []) }
        ensures modules_kept { OnErr result (modules_named self.new ≡ modules_named self.old) }
        ensures locals { locals_of_scope self.new ≡ locals_of_scope self.old }
        ensures words { in_scope self.new ≡ in_scope self.old }
    {
        let name = name.copy(alloc)?;
        self.modules.push(name)?;
        Ok(())
    }

    /// What words mean there, local ones aside.
    #[tactic(auto, unfolding(fc_model::specs::DeclaredWords::words_by_space, fc_model::specs::OfferViews::offers_in))]
    pub(crate) fn top(&self, alloc: Global) -> Result<Declared, Memory>
        ensures { IfOk result (λ d. top_by d ≡ top_of self.now) }
    {
        let own = Text::from_str(alloc, "")?;
        let imports = other_names(alloc, &own, self.modules.as_slice())?;
        Ok(Declared {
            own,
            imports,
            offers: Offers::All,
            spaces: Spaces {
                types: self.texts(alloc)?,
                terms: self.texts(alloc)?,
                coercions: self.texts(alloc)?,
            },
        })
    }

    /// The words that are in scope, as whatever.
    pub(crate) fn texts(&self, alloc: Global) -> Result<WordSet, Memory>
        ensures { IfOk result (λ s. set_of s ≡ in_scope self.now) }
    {
        texts_of(alloc, self.words.as_slice())
    }
}
