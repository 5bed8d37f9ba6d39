//! The declarations of modules, found by their words.
ghost use Rattle.std.specs.Prelude.{◌≡◌, length, slice_get, IfOk, IfSome};
ghost use Rattle.std.specs.Option.{option_and_then, option_map};
ghost use Rattle.fc_model.specs.Kinding.{decls_at, type_decl};
ghost use Rattle.fc_model.specs.NamelessView.{ndecl_of, nty_of};
ghost use Rattle.fc_model.specs.Calling.{constructor};
ghost use Rattle.fc_model.specs.Coercing.{axiom_named};
ghost use Rattle.fc_model.specs.Typing.{value_type};
ghost use Rattle.fc_types.specs.Codes.{has_axioms_prop, has_constructors_prop, has_definitions_prop, has_types_prop};
ghost use Rattle.fc_types.specs.Tables.{found};
ghost use Rattle.fc_types.specs.TableViews.{HasAxioms, HasConstructors, HasDefinitions, HasTypes, axiom_of, constructor_of};

use crate::keys::{number_named, value_at, value_named};
use crate::tables::{DeclaredAxiom, DeclaredCon, Tables, tables_of};
use fc_syntax::{Memory, NDecl, NModule, NTy, Name};
use std::alloc::Global;

/// The declarations of modules. A name is found in constant time; where several modules have one name, or several declarations of a module
/// one word, the first counts.
#[derive(Drop)]
pub struct Declarations<'a> {
    modules: &'a [NModule],
    tables: Tables<'a>,
    ghost types_are: { HasTypes modules.now tables.types } by { has_types_prop modules.now tables.types },
    ghost axioms_are: { HasAxioms modules.now tables.axioms } by { has_axioms_prop modules.now tables.axioms },
    ghost definitions_are: { HasDefinitions modules.now tables.definitions } by { has_definitions_prop modules.now tables.definitions },
    ghost constructors_are: { HasConstructors modules.now tables.constructors } by { has_constructors_prop modules.now tables.constructors },
}

impl<'a> Declarations<'a> {
    ghost use Rattle.fc_types.specs.Listed.{IsConstructor, IsDefinitionType, axioms_in, constructors_in, definition_types, own_axiom, own_axioms, own_constructor, own_constructors};
    ghost use Rattle.fc_types.specs.ModuleViews.{modules_of};
    ghost use Rattle.fc_model.specs.NamelessView.{nmodules_of};

    /// The declarations of modules. Fails only where memory runs out.
    #[tactic(auto, unfolding(crate::specs::ModuleViews::modules_of))]
    pub fn new(alloc: Global, modules: &'a [NModule]) -> Result<Declarations<'a>, Memory>
        ensures { IfOk result (λ d. modules_of d ≡ decls_at (nmodules_of modules.now)) }
    {
        let tables = tables_of(alloc, modules)?;
        Ok(Declarations { modules, tables })
    }

    /// The type of a name: a data type, a newtype or a family. Takes no memory.
    pub fn type_named(&self, name: &Name) -> Option<&NDecl>
        ensures { option_map (λ d. ndecl_of d.now) result ≡ type_decl (modules_of self.now name.now.module) name.now.text }
    {
        match value_named(&self.tables.types, name) {
            None => None,
            Some(decl) => Some(*decl),
        }
    }

    /// The type of a word of a module, as `type_named` finds it. Takes no memory.
    pub fn type_at(&self, qualifier: Option<&str>, word: &str) -> Option<&NDecl>
        ensures { option_map (λ d. ndecl_of d.now) result ≡ type_decl (modules_of self.now (option_map (λ w. w.now) qualifier.entry)) word.now }
    {
        match value_at(&self.tables.types, qualifier, word) {
            None => None,
            Some(decl) => Some(*decl),
        }
    }

    /// The type of the definition of a name. Takes no memory.
    pub fn definition_named(&self, name: &Name) -> Option<&NTy>
        ensures { found (option_map (λ t. nty_of t.now) result) ≡ value_type (modules_of self.now) name.now }
    {
        match value_named(&self.tables.definitions, name) {
            None => None,
            Some(ty) => Some(*ty),
        }
    }

    /// The constructor of a name. Takes no memory.
    pub fn constructor_named(&self, name: &Name) -> Option<DeclaredCon>
        ensures { option_map constructor_of result ≡ constructor (modules_of self.now) name.now }
    {
        match value_named(&self.tables.constructors, name) {
            None => None,
            Some(con) => Some(*con),
        }
    }

    /// How many words have a definition. Takes no memory.
    #[tactic(auto, unfolding(crate::specs::Listed::definition_types))]
    pub fn definition_count(&self) -> usize
        ensures { result ≡ length (definition_types self.now) }
    {
        self.tables.definitions.len()
    }

    /// The type of a definition by its number below `definition_count`: words are numbered in the order of their first definitions.
    pub fn definition_at(&self, number: usize) -> Option<&'a NTy>
        ensures value { option_map (λ t. nty_of t.now) result ≡ slice_get (definition_types self.now) number }
        ensures declared { IfSome result (λ t. IsDefinitionType (modules_of self.now) (nty_of t.now)) }
    {
        match self.tables.definitions.get_index(number) {
            None => None,
            Some((_, ty)) => Some(*ty),
        }
    }

    /// The number of the definition of a name. Takes no memory.
    pub fn definition_number(&self, name: &Name) -> Option<usize>
        ensures { found (option_and_then (λ i. slice_get (definition_types self.now) i) result) ≡ value_type (modules_of self.now) name.now }
    {
        number_named(&self.tables.definitions, name)
    }

    /// How many words have a constructor. Takes no memory.
    #[tactic(auto, unfolding(crate::specs::Listed::constructors_in))]
    pub fn constructor_count(&self) -> usize
        ensures { result ≡ length (constructors_in self.now) }
    {
        self.tables.constructors.len()
    }

    /// A constructor by its number below `constructor_count`: words are numbered in the order of their first constructors.
    pub fn constructor_at(&self, number: usize) -> Option<DeclaredCon<'a>>
        ensures value { option_map constructor_of result ≡ slice_get (constructors_in self.now) number }
        ensures own { option_map own_constructor result ≡ slice_get (own_constructors self.now) number }
        ensures declared { IfSome result (λ k. IsConstructor (modules_of self.now) (constructor_of k)) }
    {
        match self.tables.constructors.get_index(number) {
            None => None,
            Some((_, con)) => Some(*con),
        }
    }

    /// The number of the constructor of a name. Takes no memory.
    pub fn constructor_number(&self, name: &Name) -> Option<usize>
        ensures value { option_and_then (λ i. slice_get (constructors_in self.now) i) result ≡ constructor (modules_of self.now) name.now }
        ensures own { IfSome result (λ i. option_map (λ k. k.0) (slice_get (own_constructors self.now) i) ≡ name.now.module) }
    {
        number_named(&self.tables.constructors, name)
    }

    /// How many words have an axiom. Takes no memory.
    #[tactic(auto, unfolding(crate::specs::Listed::axioms_in))]
    pub fn axiom_count(&self) -> usize
        ensures { result ≡ length (axioms_in self.now) }
    {
        self.tables.axioms.len()
    }

    /// An axiom by its number below `axiom_count`: words are numbered in the order of their first axioms.
    pub fn axiom_at(&self, number: usize) -> Option<DeclaredAxiom<'a>>
        ensures value { option_map (λ a. ndecl_of a.decl.now) result ≡ slice_get (axioms_in self.now) number }
        ensures own { option_map own_axiom result ≡ slice_get (own_axioms self.now) number }
    {
        match self.tables.axioms.get_index(number) {
            None => None,
            Some((_, axiom)) => Some(*axiom),
        }
    }

    /// The number of the axiom of a name. Takes no memory.
    pub fn axiom_number(&self, name: &Name) -> Option<usize>
        ensures value { option_and_then (axiom_of name.now.module) (option_and_then (λ i. slice_get (axioms_in self.now) i) result) ≡ axiom_named (modules_of self.now) name.now }
        ensures own { IfSome result (λ i. option_map (λ a. a.0) (slice_get (own_axioms self.now) i) ≡ name.now.module) }
    {
        number_named(&self.tables.axioms, name)
    }
}
