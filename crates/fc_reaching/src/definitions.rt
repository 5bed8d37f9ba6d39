//! The definitions of a module, found by their names.
ghost use Rattle.std.specs.Prelude.{◌≡◌, ◌+◌, ◌∷◌, ℕ, List, Option, Some, None, OnOk, IfOk, if◌then◌else◌};
ghost use Rattle.std.specs.Str.{bytes_eq};
ghost use Rattle.fc_syntax.specs.Tree.{Word};
ghost use Rattle.fc_syntax.specs.declared.module.Decl.{Decl};
ghost use Rattle.fc_syntax.specs.declared.ty.Ref.{Ref};
ghost use Rattle.fc_model.specs.Calling.{first_of};
ghost use Rattle.fc_model.specs.NamelessView.{ndecls_of, nmodule_of};
ghost use Rattle.fc_reaching.specs.DefinitionsView.{meant_by, number_by};
ghost use Rattle.fc_reaching.specs.Numbering.{at, meant_in, number_from, number_in};

use fc_syntax::{Memory, NDecl, NModule, Name, Text};
use indexmap::IndexMap;
use std::alloc::Global;

/// The definitions of a module. Where several have one word, the first counts.
#[derive(Drop)]
pub(crate) struct Definitions<'a> {
    /// The word of the module.
    own: &'a Text,
    /// The number of each definition among the declarations, by its word.
    numbers: IndexMap<&'a str, usize>,
}

/// Puts a number at a word that has none yet.
fn put_first<'a>(
    numbers: &mut IndexMap<&'a str, usize>,
    word: &'a Text,
    number: usize,
) -> Result<(), Memory>
    ensures { OnOk result ((w : Word) → at numbers.new w ≡ first_of (at numbers.old w) (if bytes_eq word.now w then Some number else None)) }
{
    let key = word.as_str();
    if numbers.contains_key(key) {
        Ok(())
    } else {
        numbers.insert(key, number)?;
        Ok(())
    }
}

/// Puts the number of a declaration in, where it is the first definition of its word.
#[tactic(auto, using(crate::proofs::Numbered::put_before, crate::proofs::Numbered::none_later))]
fn put_definition<'a>(
    numbers: &mut IndexMap<&'a str, usize>,
    decl: &'a NDecl,
    number: usize,
) -> Result<(), Memory>
    ensures { OnOk result ((w : Word) (rest : List (Decl ℕ Ref)) → first_of (at numbers.new w) (number_from (number + 1) (ndecls_of rest) w) ≡ first_of (at numbers.old w) (number_from number (ndecls_of (decl.now ∷ rest)) w)) }
{
    match decl {
        NDecl::DataType(_, _, _) => Ok(()),
        NDecl::NewType(_, _, _, _) => Ok(()),
        NDecl::Family(_, _, _) => Ok(()),
        NDecl::Axiom(_, _, _, _) => Ok(()),
        NDecl::Def(word, _, _) => put_first(numbers, word, number),
        NDecl::Wrap(word, _, _) => put_first(numbers, word, number),
    }
}

/// The number of the first definition of each word.
fn numbers_of<'a>(alloc: Global, decls: &'a [NDecl]) -> Result<IndexMap<&'a str, usize>, Memory>
    ensures { IfOk result (λ numbers. (w : Word) → at numbers w ≡ number_from 0 (ndecls_of decls.now) w) }
{
    let mut numbers = IndexMap::new(alloc);
    for (number, decl) in decls.iter().enumerate() {
        put_definition(&mut numbers, decl, number)?;
    }
    Ok(numbers)
}

impl<'a> Definitions<'a> {
    /// The definitions of a module. Fails only where memory runs out.
    pub(crate) fn new(alloc: Global, m: &'a NModule) -> Result<Definitions<'a>, Memory>
        ensures numbers { IfOk result (λ d. number_by d ≡ number_in (nmodule_of m.now)) }
        ensures meant { IfOk result (λ d. meant_by d ≡ meant_in (nmodule_of m.now)) }
    {
        let numbers = numbers_of(alloc, m.decls.as_slice())?;
        Ok(Definitions {
            own: &m.name,
            numbers,
        })
    }

    /// The number of the definition of a word. Takes no memory.
    #[tactic(auto, unfolding(crate::specs::DefinitionsView::number_by))]
    pub(crate) fn number_at(&self, word: &str) -> Option<usize>
        ensures { result ≡ number_by self.now word.now }
    {
        self.numbers.get(word).copied()
    }

    /// The number of the definition that a name means. Takes no memory.
    #[tactic(auto, unfolding(crate::specs::DefinitionsView::meant_by))]
    pub(crate) fn number_of(&self, name: &Name) -> Option<usize>
        ensures { result ≡ meant_by self.now name.now }
    {
        match &name.module {
            None => None,
            Some(module) => {
                if self.own.as_str() == module.as_str() {
                    self.number_at(name.text.as_str())
                } else {
                    None
                }
            }
        }
    }
}
