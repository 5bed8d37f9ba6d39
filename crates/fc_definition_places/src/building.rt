//! The table of the places of definitions, while it is made.
ghost use Rattle.std.specs.Prelude.{◌≡◌, ◌+◌, ◌&&◌, ◌∷◌, ℕ, false, List, Option, Some, None, OnOk, IfOk, if◌then◌else◌};
ghost use Rattle.std.specs.Str.{bytes_eq};
ghost use Rattle.fc_syntax.specs.Tree.{Word};
ghost use Rattle.fc_syntax.specs.declared.module.Decl.{Decl};
ghost use Rattle.fc_syntax.specs.declared.module.Module as trees;
ghost use Rattle.fc_syntax.specs.declared.ty.Ref.{Ref};
ghost use Rattle.fc_model.specs.Calling.{first_of};
ghost use Rattle.fc_model.specs.NamelessView.{ndecls_of, nmodules_of};
ghost use Rattle.fc_reaching.specs.Numbering.{number_from};
ghost use Rattle.fc_definition_places.specs.Building.{in_module, has_word, place_before};
ghost use Rattle.fc_definition_places.specs.Places.{at, place_at, place_in, placed};

use crate::keys::{DefinitionPlace, WordKey};
use fc_syntax::{Memory, NDecl, NModule, Text};
use indexmap::{IndexMap, IndexSet};
use std::alloc::Global;

/// Puts a place at a word of a module that has none yet.
fn put_first<'a>(
    table: &mut IndexMap<WordKey<'a>, DefinitionPlace>,
    qualifier: &'a Text,
    word: &'a Text,
    place: DefinitionPlace,
) -> Result<(), Memory>
    ensures { OnOk result ((m w : Word) → at table.new m w ≡ first_of (at table.old m w) (if bytes_eq qualifier.now m && bytes_eq word.now w then Some place else None)) }
{
    let key = WordKey {
        module: qualifier.as_str(),
        word: word.as_str(),
    };
    if table.contains_key(&key) {
        Ok(())
    } else {
        table.insert(key, place)?;
        Ok(())
    }
}

/// Puts the place of a declaration in, where it is the first definition of its word.
#[tactic(auto, using(crate::proofs::FirstPuts::put_seen))]
fn put_definition<'a>(
    table: &mut IndexMap<WordKey<'a>, DefinitionPlace>,
    qualifier: &'a Text,
    decl: &'a NDecl,
    place: DefinitionPlace,
) -> Result<(), Memory>
    ensures { OnOk result ((m w : Word) (rest : List (Decl ℕ Ref)) → first_of (place_at table.new m w) (in_module qualifier.now m (placed place.module (number_from (place.decl + 1) (ndecls_of rest) w))) ≡ first_of (place_at table.old m w) (in_module qualifier.now m (placed place.module (number_from place.decl (ndecls_of (decl.now ∷ rest)) w)))) }
{
    match decl {
        NDecl::DataType(_, _, _) => Ok(()),
        NDecl::NewType(_, _, _, _) => Ok(()),
        NDecl::Family(_, _, _) => Ok(()),
        NDecl::Axiom(_, _, _, _) => Ok(()),
        NDecl::Def(word, _, _) => put_first(table, qualifier, word, place),
        NDecl::Wrap(word, _, _) => put_first(table, qualifier, word, place),
    }
}

/// Puts the places of the definitions of a module in, which has this number.
#[tactic(auto, using(crate::proofs::FirstPuts::none_more))]
fn put_definitions<'a>(
    table: &mut IndexMap<WordKey<'a>, DefinitionPlace>,
    qualifier: &'a Text,
    decls: &'a [NDecl],
    number: usize,
) -> Result<(), Memory>
    ensures { OnOk result ((m w : Word) → place_at table.new m w ≡ first_of (place_at table.old m w) (in_module qualifier.now m (placed number (number_from 0 (ndecls_of decls.now) w)))) }
{
    for (index, decl) in decls.iter().enumerate() {
        let place = DefinitionPlace {
            module: number,
            decl: index,
        };
        put_definition(table, qualifier, decl, place)?;
    }
    Ok(())
}

/// Puts the word and the definitions of a module in, where its word is the first.
fn add_module<'a>(
    words: &mut IndexSet<&'a str>,
    table: &mut IndexMap<WordKey<'a>, DefinitionPlace>,
    m: &'a NModule,
    number: usize,
) -> Result<(), Memory>
    requires { has_word words.old m.now.name ≡ false }
    ensures { OnOk result ((v w : Word) (rest : List (trees.Module ℕ Ref)) → place_before words.new table.new (number + 1) (nmodules_of rest) v w ≡ place_before words.old table.old number (nmodules_of (m.now ∷ rest)) v w) }
{
    words.insert(m.name.as_str())?;
    put_definitions(table, &m.name, m.decls.as_slice(), number)
}

/// Puts the definitions of a module in; nothing where a module before it has its word.
fn add_first<'a>(
    words: &mut IndexSet<&'a str>,
    table: &mut IndexMap<WordKey<'a>, DefinitionPlace>,
    m: &'a NModule,
    number: usize,
) -> Result<(), Memory>
    ensures { OnOk result ((v w : Word) (rest : List (trees.Module ℕ Ref)) → place_before words.new table.new (number + 1) (nmodules_of rest) v w ≡ place_before words.old table.old number (nmodules_of (m.now ∷ rest)) v w) }
{
    if words.contains(m.name.as_str()) {
        Ok(())
    } else {
        add_module(words, table, m, number)
    }
}

/// The table of the places of all definitions. Fails only where memory runs out.
pub(crate) fn table_of<'a>(
    alloc: Global,
    modules: &'a [NModule],
) -> Result<IndexMap<WordKey<'a>, DefinitionPlace>, Memory>
    ensures { IfOk result (λ table. (m w : Word) → place_at table m w ≡ place_in (nmodules_of modules.now) m w) }
{
    let mut words = IndexSet::new(alloc);
    let mut table = IndexMap::new(alloc);
    for (number, m) in modules.iter().enumerate() {
        add_first(&mut words, &mut table, m, number)?;
    }
    Ok(table)
}
