//! The places of definitions, and the right sides that stand there.
ghost use Rattle.std.specs.Prelude.{◌≡◌, IfOk, slice_get};
ghost use Rattle.std.specs.Option.{option_copied, option_map};
ghost use Rattle.fc_model.specs.Kinding.{decls_at};
ghost use Rattle.fc_model.specs.NamelessView.{ndecl_of, nexpr_of, nmodules_of};
ghost use Rattle.fc_rows.specs.Surroundings.{known_definition};
ghost use Rattle.fc_known.specs.Told.{right_side};
ghost use Rattle.fc_definition_places.specs.Places.{HasPlaces, place_of, right_at as spec_right_at, right_of as spec_right_of};

use crate::building::table_of;
use crate::keys::{DefinitionPlace, WordKey};
use fc_syntax::{Memory, NDecl, NExpr, NModule, Name};
use indexmap::IndexMap;
use std::alloc::Global;

/// Where modules define words. The places stay right while right sides change.
#[derive(Drop)]
pub struct DefinitionPlaces<'a> {
    /// The place of the first definition of each word in the first module of each word.
    table: IndexMap<WordKey<'a>, DefinitionPlace>,
}

/// The right side of a declaration that is a definition.
fn right_of(decl: &NDecl) -> Option<&NExpr>
    ensures { option_map (λ e. nexpr_of e.now) result ≡ spec_right_of (ndecl_of decl.now) }
{
    match decl {
        NDecl::DataType(_, _, _) => None,
        NDecl::NewType(_, _, _, _) => None,
        NDecl::Family(_, _, _) => None,
        NDecl::Axiom(_, _, _, _) => None,
        NDecl::Def(_, _, right) => Some(right),
        NDecl::Wrap(_, _, right) => Some(right),
    }
}

/// The declaration of a number.
fn decl_at(decls: &[NDecl], number: usize) -> Option<&NDecl>
    ensures { option_copied result ≡ slice_get decls.now number }
{
    decls.get(number)
}

/// The module of a number.
fn module_at(modules: &[NModule], number: usize) -> Option<&NModule>
    ensures { option_copied result ≡ slice_get modules.now number }
{
    modules.get(number)
}

/// The right side at a place among modules.
fn right_at(modules: &[NModule], place: DefinitionPlace) -> Option<&NExpr>
    ensures { option_map (λ e. nexpr_of e.now) result ≡ spec_right_at (nmodules_of modules.now) (place_of place) }
{
    match module_at(modules, place.module) {
        None => None,
        Some(m) => match decl_at(m.decls.as_slice(), place.decl) {
            None => None,
            Some(decl) => right_of(decl),
        },
    }
}

impl<'a> DefinitionPlaces<'a> {
    /// The places of the definitions of modules. Takes constant time for each definition. Fails only where memory runs out.
    pub fn new(alloc: Global, modules: &'a [NModule]) -> Result<DefinitionPlaces<'a>, Memory>
        ensures { IfOk result (λ p. HasPlaces (nmodules_of modules.now) p) }
    {
        let table = table_of(alloc, modules)?;
        Ok(DefinitionPlaces { table })
    }

    /// The right side of the first definition of a name, among modules that define words at these places. A name without a module has none. Takes constant time, and no memory.
    pub fn right_side<'m>(&self, modules: &'m [NModule], name: &Name) -> Option<&'m NExpr>
        requires { HasPlaces (nmodules_of modules.now) self.now }
        ensures { right_side (option_map (λ e. nexpr_of e.now) result) ≡ known_definition (decls_at (nmodules_of modules.now) name.now.module) name.now.text }
    {
        match &name.module {
            None => None,
            Some(word) => match self.table.get(&WordKey {
                module: word.as_str(),
                word: name.text.as_str(),
            }) {
                None => None,
                Some(place) => right_at(modules, *place),
            },
        }
    }
}
