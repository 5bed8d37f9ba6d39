//! Tables from the words of modules to the first of what they declare.
ghost use Rattle.std.specs.Prelude.{◌≡◌, ◌&&◌, ◌||◌, ◌++◌, [], ℕ, List, ◌∷◌, Option, Some, None, OnOk, IfOk, if◌then◌else◌, length};
ghost use Rattle.std.specs.Str.{bytes_eq};
ghost use Rattle.fc_syntax.specs.Tree.{Word};
ghost use Rattle.fc_syntax.specs.declared.module.Decl.{Decl};
ghost use Rattle.fc_syntax.specs.declared.module.Module as trees;
ghost use Rattle.fc_syntax.specs.declared.ty.Ref.{Ref};
ghost use Rattle.fc_model.specs.Calling.{constructor_binders, first_of};
ghost use Rattle.fc_types.specs.FirstDeclared.{Numbered, first_axiom, first_constructor, first_definition, first_type_decl, in_module, numbered_among};
ghost use Rattle.fc_types.specs.Tables.{at, has_word};
ghost use Rattle.fc_types.specs.TableViews.{axiom_entry, decl_at, definition_at, numbered_at};
ghost use Rattle.fc_types.specs.Built.{Adds, AreTables};

use crate::keys::WordKey;
use fc_syntax::{Memory, NConDecl, NDecl, NModule, NTy, Param, Seq, Text};
use indexmap::{IndexMap, IndexSet};
use std::alloc::Global;

/// A constructor that a module declares.
#[derive(Clone, Copy)]
pub struct DeclaredCon<'a> {
    /// The word of the module.
    pub module: &'a Text,
    /// The word of its data type.
    pub data_word: &'a Text,
    /// The parameters of its data type.
    pub params: &'a Seq<Param>,
    /// Its number among the constructors there, counted from 0.
    pub number: usize,
    /// What it declares.
    pub con: &'a NConDecl,
}

impl<'a> DeclaredCon<'a> {
    ghost use Rattle.fc_types.specs.TableViews.{constructor_of};

    /// How many binders it has: its data type's parameters, its own types and coercions, and its fields.
    pub fn arity(&self) -> Result<usize, Memory>
        ensures { IfOk result (λ n. n ≡ length (constructor_binders (constructor_of self.now))) }
    {
        let own = self.con.binders.len();
        let types = match self.params.len().checked_add(own) {
            Some(types) => types,
            None => return Err(Memory),
        };
        match types.checked_add(self.con.fields.len()) {
            Some(all) => Ok(all),
            None => Err(Memory),
        }
    }
}

/// An axiom that a module declares.
#[derive(Clone, Copy)]
pub struct DeclaredAxiom<'a> {
    /// The word of the module.
    pub module: &'a Text,
    /// The newtype or the equation of a family that has it.
    pub decl: &'a NDecl,
}

/// The tables of what modules declare.
#[derive(Drop)]
pub struct Tables<'a> {
    words: IndexSet<&'a str>,
    /// The types.
    pub types: IndexMap<WordKey<'a>, &'a NDecl>,
    /// The axioms.
    pub axioms: IndexMap<WordKey<'a>, DeclaredAxiom<'a>>,
    /// The types of the definitions.
    pub definitions: IndexMap<WordKey<'a>, &'a NTy>,
    /// The constructors.
    pub constructors: IndexMap<WordKey<'a>, DeclaredCon<'a>>,
}

/// Puts a value at a word of a module that has none yet.
fn put_first<'a, V: Drop>(
    table: &mut IndexMap<WordKey<'a>, V>,
    qualifier: &'a Text,
    word: &'a Text,
    value: V,
) -> Result<(), Memory>
    ensures { OnOk result ((m w : Word) → at table.new m w ≡ first_of (at table.old m w) (if bytes_eq qualifier.now m && bytes_eq word.now w then Some value else None)) }
{
    let key = WordKey {
        module: qualifier.as_str(),
        word: word.as_str(),
    };
    if table.contains_key(&key) {
        Ok(())
    } else {
        table.insert(key, value)?;
        Ok(())
    }
}

/// Puts a declaration of a module in, where it is the first type of its word.
#[tactic(auto, using(crate::proofs::FirstPuts::put_seen))]
fn add_type<'a>(
    types: &mut IndexMap<WordKey<'a>, &'a NDecl>,
    qualifier: &'a Text,
    decl: &'a NDecl,
) -> Result<(), Memory>
    ensures { OnOk result ((m w : Word) (rest : List (Decl ℕ Ref)) → first_of (decl_at types.new m w) (in_module qualifier.now m (first_type_decl rest w)) ≡ first_of (decl_at types.old m w) (in_module qualifier.now m (first_type_decl (decl.now ∷ rest) w))) }
{
    match decl {
        NDecl::DataType(word, _, _) => put_first(types, qualifier, word, decl),
        NDecl::NewType(word, _, _, _) => put_first(types, qualifier, word, decl),
        NDecl::Family(word, _, _) => put_first(types, qualifier, word, decl),
        NDecl::Axiom(_, _, _, _) => Ok(()),
        NDecl::Def(_, _, _) => Ok(()),
        NDecl::Wrap(_, _, _) => Ok(()),
    }
}

/// Puts the types of a module in, where they are the first of their words.
#[tactic(auto, using(crate::proofs::FirstPuts::none_more))]
fn add_types<'a>(
    types: &mut IndexMap<WordKey<'a>, &'a NDecl>,
    qualifier: &'a Text,
    decls: &'a [NDecl],
) -> Result<(), Memory>
    ensures { OnOk result ((m w : Word) → decl_at types.new m w ≡ first_of (decl_at types.old m w) (in_module qualifier.now m (first_type_decl decls.now w))) }
{
    for decl in decls {
        add_type(types, qualifier, decl)?;
    }
    Ok(())
}

/// Puts a declaration of a module in, where it has the first axiom of its word.
#[tactic(auto, using(crate::proofs::FirstPuts::put_seen))]
fn add_axiom<'a>(
    axioms: &mut IndexMap<WordKey<'a>, DeclaredAxiom<'a>>,
    qualifier: &'a Text,
    decl: &'a NDecl,
) -> Result<(), Memory>
    ensures { OnOk result ((m w : Word) (rest : List (Decl ℕ Ref)) → first_of (axiom_entry axioms.new m w) (in_module qualifier.now m (first_axiom qualifier.now rest w)) ≡ first_of (axiom_entry axioms.old m w) (in_module qualifier.now m (first_axiom qualifier.now (decl.now ∷ rest) w))) }
{
    let declared = DeclaredAxiom {
        module: qualifier,
        decl,
    };
    match decl {
        NDecl::DataType(_, _, _) => Ok(()),
        NDecl::NewType(_, _, _, word) => put_first(axioms, qualifier, word, declared),
        NDecl::Family(_, _, _) => Ok(()),
        NDecl::Axiom(word, _, _, _) => put_first(axioms, qualifier, word, declared),
        NDecl::Def(_, _, _) => Ok(()),
        NDecl::Wrap(_, _, _) => Ok(()),
    }
}

/// Puts the axioms of a module in, where they are the first of their words.
#[tactic(auto, using(crate::proofs::FirstPuts::none_more))]
fn add_axioms<'a>(
    axioms: &mut IndexMap<WordKey<'a>, DeclaredAxiom<'a>>,
    qualifier: &'a Text,
    decls: &'a [NDecl],
) -> Result<(), Memory>
    ensures { OnOk result ((m w : Word) → axiom_entry axioms.new m w ≡ first_of (axiom_entry axioms.old m w) (in_module qualifier.now m (first_axiom qualifier.now decls.now w))) }
{
    for decl in decls {
        add_axiom(axioms, qualifier, decl)?;
    }
    Ok(())
}

/// Puts a definition of a module in, where it is the first of its word.
#[tactic(auto, using(crate::proofs::FirstPuts::put_seen))]
fn add_definition<'a>(
    definitions: &mut IndexMap<WordKey<'a>, &'a NTy>,
    qualifier: &'a Text,
    decl: &'a NDecl,
) -> Result<(), Memory>
    ensures { OnOk result ((m w : Word) (rest : List (Decl ℕ Ref)) → first_of (definition_at definitions.new m w) (in_module qualifier.now m (first_definition rest w)) ≡ first_of (definition_at definitions.old m w) (in_module qualifier.now m (first_definition (decl.now ∷ rest) w))) }
{
    match decl {
        NDecl::DataType(_, _, _) => Ok(()),
        NDecl::NewType(_, _, _, _) => Ok(()),
        NDecl::Family(_, _, _) => Ok(()),
        NDecl::Axiom(_, _, _, _) => Ok(()),
        NDecl::Def(word, ty, _) => put_first(definitions, qualifier, word, ty),
        NDecl::Wrap(word, ty, _) => put_first(definitions, qualifier, word, ty),
    }
}

/// Puts the types of a module's definitions in, where they are the first of their words.
#[tactic(auto, using(crate::proofs::FirstPuts::none_more))]
fn add_definitions<'a>(
    definitions: &mut IndexMap<WordKey<'a>, &'a NTy>,
    qualifier: &'a Text,
    decls: &'a [NDecl],
) -> Result<(), Memory>
    ensures { OnOk result ((m w : Word) → definition_at definitions.new m w ≡ first_of (definition_at definitions.old m w) (in_module qualifier.now m (first_definition decls.now w))) }
{
    for decl in decls {
        add_definition(definitions, qualifier, decl)?;
    }
    Ok(())
}

/// Puts the constructors of a data type of a module in, where they are the first of their words.
#[tactic(auto, using(crate::proofs::FirstPuts::put_seen))]
fn add_data<'a>(
    constructors: &mut IndexMap<WordKey<'a>, DeclaredCon<'a>>,
    qualifier: &'a Text,
    data_word: &'a Text,
    params: &'a Seq<Param>,
    cons: &'a [NConDecl],
) -> Result<(), Memory>
    ensures { OnOk result ((m w : Word) (rest : Option Numbered) → first_of (numbered_at constructors.new m w) (in_module qualifier.now m rest) ≡ first_of (numbered_at constructors.old m w) (in_module qualifier.now m (first_of (numbered_among qualifier.now data_word.now params.now 0 cons.now w) rest))) }
{
    for (number, con) in cons.iter().enumerate() {
        let declared = DeclaredCon {
            module: qualifier,
            data_word,
            params,
            number,
            con,
        };
        put_first(constructors, qualifier, &con.name, declared)?;
    }
    Ok(())
}

/// Puts the constructors of a declaration of a module in, where they are the first of their words.
fn add_declared<'a>(
    constructors: &mut IndexMap<WordKey<'a>, DeclaredCon<'a>>,
    qualifier: &'a Text,
    decl: &'a NDecl,
) -> Result<(), Memory>
    ensures { OnOk result ((m w : Word) (rest : List (Decl ℕ Ref)) → first_of (numbered_at constructors.new m w) (in_module qualifier.now m (first_constructor qualifier.now rest w)) ≡ first_of (numbered_at constructors.old m w) (in_module qualifier.now m (first_constructor qualifier.now (decl.now ∷ rest) w))) }
{
    match decl {
        NDecl::DataType(word, params, cons) => {
            add_data(constructors, qualifier, word, params, cons.as_slice())
        }
        NDecl::NewType(_, _, _, _) => Ok(()),
        NDecl::Family(_, _, _) => Ok(()),
        NDecl::Axiom(_, _, _, _) => Ok(()),
        NDecl::Def(_, _, _) => Ok(()),
        NDecl::Wrap(_, _, _) => Ok(()),
    }
}

/// Puts the constructors of a module in, where they are the first of their words.
#[tactic(auto, using(crate::proofs::FirstPuts::none_more))]
fn add_constructors<'a>(
    constructors: &mut IndexMap<WordKey<'a>, DeclaredCon<'a>>,
    qualifier: &'a Text,
    decls: &'a [NDecl],
) -> Result<(), Memory>
    ensures { OnOk result ((m w : Word) → numbered_at constructors.new m w ≡ first_of (numbered_at constructors.old m w) (in_module qualifier.now m (first_constructor qualifier.now decls.now w))) }
{
    for decl in decls {
        add_declared(constructors, qualifier, decl)?;
    }
    Ok(())
}

/// Puts the word of a module in.
fn add_word<'a>(words: &mut IndexSet<&'a str>, word: &'a Text) -> Result<(), Memory>
    ensures { OnOk result ((m : Word) → has_word words.new m ≡ (bytes_eq word.now m || has_word words.old m)) }
{
    words.insert(word.as_str())?;
    Ok(())
}

/// Puts what a module declares in, where its words are the first.
fn add_module<'a>(tables: &mut Tables<'a>, m: &'a NModule) -> Result<(), Memory>
    ensures { OnOk result (Adds tables.old tables.new m.now) }
{
    let word = &m.name;
    let decls = m.decls.as_slice();
    add_word(&mut tables.words, word)?;
    add_types(&mut tables.types, word, decls)?;
    add_axioms(&mut tables.axioms, word, decls)?;
    add_definitions(&mut tables.definitions, word, decls)?;
    add_constructors(&mut tables.constructors, word, decls)
}

/// Puts what a module declares in; nothing where a module before it has its word.
fn add_first<'a>(tables: &mut Tables<'a>, m: &'a NModule) -> Result<(), Memory>
    ensures { OnOk result ((ms : List (trees.Module ℕ Ref)) → AreTables ms tables.old → AreTables (ms ++ m.now ∷ []) tables.new) }
{
    if tables.words.contains(m.name.as_str()) {
        Ok(())
    } else {
        add_module(tables, m)
    }
}

/// The tables of modules.
pub fn tables_of<'a>(alloc: Global, modules: &'a [NModule]) -> Result<Tables<'a>, Memory>
    ensures { IfOk result (λ tables. AreTables modules.now tables) }
{
    let mut tables = Tables {
        words: IndexSet::new(alloc),
        types: IndexMap::new(alloc),
        axioms: IndexMap::new(alloc),
        definitions: IndexMap::new(alloc),
        constructors: IndexMap::new(alloc),
    };
    for m in modules {
        add_first(&mut tables, m)?;
    }
    Ok(tables)
}
