//! The words that a module declares.
ghost use Rattle.std.specs.Prelude.{◌≡◌, ◌++◌, OnOk, IfOk};
ghost use Rattle.fc_syntax.specs.View.{cons_of, decl_of, decls_of, module_of};
ghost use Rattle.fc_model.specs.Declaring.{con_words, decl_word, decl_words, declared_words};
ghost use Rattle.fc_model.specs.DeclaredWords.{all_behind, top_by, words_by_space};
ghost use Rattle.fc_model.specs.Resolution.{behind, no_words, plus_all, top_among, top_of};
ghost use Rattle.fc_model.specs.OfferViews.{offers_in};
ghost use Rattle.fc_model.specs.WordSets.{set_of};

use crate::offers::Offers;
use crate::word_set::WordSet;
use fc_syntax::generic::{ConDecl, Decl, Module};
use fc_syntax::{Memory, Seq, Text};
use std::alloc::Global;

/// Words by the space of names that they are in.
#[derive(Drop)]
pub struct Spaces {
    /// Of types: data types, newtypes and families.
    pub types: WordSet,
    /// Of terms: constructors, definitions and, among local words, values and join points.
    pub terms: WordSet,
    /// Of coercions: axioms.
    pub coercions: WordSet,
}

/// What a module declares and imports.
#[derive(Drop)]
pub struct Declared {
    /// Its name.
    pub own: Text,
    /// The names of the modules that it imports.
    pub imports: WordSet,
    /// What these have for it.
    pub offers: Offers,
    /// The words that it declares.
    pub spaces: Spaces,
}

impl Spaces {
    /// No words.
    #[tactic(auto, unfolding(crate::specs::DeclaredWords::words_by_space))]
    pub fn new(alloc: Global) -> Spaces
        ensures { words_by_space result ≡ no_words }
    {
        Spaces {
            types: WordSet::new(alloc),
            terms: WordSet::new(alloc),
            coercions: WordSet::new(alloc),
        }
    }

    /// Puts the words of a declaration in, named or nameless. Where memory runs out, some of them may be missing.
    #[tactic(auto, unfolding(crate::specs::DeclaredWords::words_by_space))]
    pub fn add<L, V>(&mut self, alloc: Global, decl: &Decl<L, V>) -> Result<(), Memory>
        ensures { OnOk result (words_by_space self.new ≡ behind (decl_of decl.now) (words_by_space self.old)) }
    {
        match decl {
            Decl::DataType(name, _, cons) => {
                self.types.add(alloc, name)?;
                add_constructors(alloc, cons.as_slice(), &mut self.terms)
            }
            Decl::NewType(name, _, _, axiom) => {
                self.types.add(alloc, name)?;
                self.coercions.add(alloc, axiom)
            }
            Decl::Family(name, _, _) => self.types.add(alloc, name),
            Decl::Axiom(name, _, _, _) => self.coercions.add(alloc, name),
            Decl::Def(name, _, _) => self.terms.add(alloc, name),
            Decl::Wrap(name, _, _) => self.terms.add(alloc, name),
        }
    }
}

fn add_constructors<L>(
    alloc: Global,
    cons: &[ConDecl<L>],
    terms: &mut WordSet,
) -> Result<(), Memory>
    ensures { OnOk result (set_of terms.new ≡ plus_all (con_words (cons_of cons.now)) (set_of terms.old)) }
{
    for con in cons {
        terms.add(alloc, &con.name)?;
    }
    Ok(())
}

pub(crate) fn spaces_of<L, V>(alloc: Global, decls: &[Decl<L, V>]) -> Result<Spaces, Memory>
    ensures { IfOk result (λ s. words_by_space s ≡ all_behind (decls_of decls.now) no_words) }
{
    let mut spaces = Spaces::new(alloc);
    for decl in decls {
        spaces.add(alloc, decl)?;
    }
    Ok(spaces)
}

impl Declared {
    /// What a module declares and imports, named or nameless, whatever other modules have for it.
    #[tactic(auto, unfolding(crate::specs::OfferViews::offers_in))]
    pub fn of_module<L, V>(alloc: Global, m: &Module<L, V>) -> Result<Declared, Memory>
        ensures { IfOk result (λ d. top_by d ≡ top_of (module_of m.now)) }
    {
        Declared::among(alloc, m, Offers::All)
    }

    /// What a module declares, and what it imports of modules that have this for others.
    #[tactic(auto, using(crate::proofs::Declares::behind_all))]
    pub fn among<L, V>(alloc: Global, m: &Module<L, V>, offers: Offers) -> Result<Declared, Memory>
        ensures top { IfOk result (λ d. top_by d ≡ top_among (offers_in offers) (module_of m.now)) }
        ensures offers { IfOk result (λ d. d.offers ≡ offers) }
    {
        let own = m.name.copy(alloc)?;
        let mut imports = WordSet::new(alloc);
        imports.add_all(alloc, m.imports.as_slice())?;
        let spaces = spaces_of(alloc, m.decls.as_slice())?;
        Ok(Declared {
            own,
            imports,
            offers,
            spaces,
        })
    }
}

/// The word of a declaration, by which a fault in it is told.
pub fn word_of<L, V>(decl: &Decl<L, V>) -> &Text
    ensures { result.now ≡ decl_word (decl_of decl.now) }
{
    match decl {
        Decl::DataType(name, _, _) => name,
        Decl::NewType(name, _, _, _) => name,
        Decl::Family(name, _, _) => name,
        Decl::Axiom(name, _, _, _) => name,
        Decl::Def(name, _, _) => name,
        Decl::Wrap(name, _, _) => name,
    }
}

fn push_constructors<L>(
    alloc: Global,
    cons: &[ConDecl<L>],
    words: &mut Seq<Text>,
) -> Result<(), Memory>
    ensures { OnOk result (words.new ≡ words.old ++ con_words (cons_of cons.now)) }
{
    for con in cons {
        words.push(con.name.copy(alloc)?)?;
    }
    Ok(())
}

/// Puts the words that a declaration declares behind others.
fn push_words<L, V>(alloc: Global, decl: &Decl<L, V>, words: &mut Seq<Text>) -> Result<(), Memory>
    ensures { OnOk result (words.new ≡ words.old ++ decl_words (decl_of decl.now)) }
{
    match decl {
        Decl::DataType(name, _, cons) => {
            words.push(name.copy(alloc)?)?;
            push_constructors(alloc, cons.as_slice(), words)
        }
        Decl::NewType(name, _, _, axiom) => {
            words.push(name.copy(alloc)?)?;
            words.push(axiom.copy(alloc)?)
        }
        Decl::Family(name, _, _) => words.push(name.copy(alloc)?),
        Decl::Axiom(name, _, _, _) => words.push(name.copy(alloc)?),
        Decl::Def(name, _, _) => words.push(name.copy(alloc)?),
        Decl::Wrap(name, _, _) => words.push(name.copy(alloc)?),
    }
}

/// The words that declarations declare in any space, in their order: a type and then its constructors, a newtype and then its axiom.
pub fn words_declared<L, V>(alloc: Global, decls: &[Decl<L, V>]) -> Result<Seq<Text>, Memory>
    ensures { IfOk result (λ s. s ≡ declared_words (decls_of decls.now)) }
{
    let mut words = Seq::new(alloc);
    for decl in decls {
        push_words(alloc, decl, &mut words)?;
    }
    Ok(words)
}
