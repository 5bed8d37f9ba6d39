//! Words of modules as keys of tables.
ghost use Rattle.std.specs.Prelude.{◌≡◌, is_some, IfSome, slice_get};
ghost use Rattle.std.specs.Option.{option_copied, option_map};
ghost use Rattle.fc_types.specs.Tables.{at_place};
ghost use Rattle.indexmap.specs.IndexMap.{values};

use fc_syntax::{Name, Text};
use indexmap::IndexMap;

/// A word of a module.
#[derive(Clone, Copy, PartialEq, Eq, Hash)]
pub struct WordKey<'a> {
    /// The word of the module.
    pub module: &'a str,
    /// The word itself.
    pub word: &'a str,
}

/// What a table has at a word of a module; nothing where there is no module. Takes no memory.
pub fn value_at<'t, V>(
    table: &'t IndexMap<WordKey<'t>, V>,
    qualifier: Option<&'t str>,
    word: &'t str,
) -> Option<&'t V>
    ensures { option_copied result ≡ at_place table.now (option_map (λ w. w.now) qualifier.entry) word.now }
{
    match qualifier {
        None => None,
        Some(module) => table.get(&WordKey { module, word }),
    }
}

/// What a table has at a name. Takes no memory.
pub fn value_named<'t, V>(table: &'t IndexMap<WordKey<'t>, V>, name: &'t Name) -> Option<&'t V>
    ensures { option_copied result ≡ at_place table.now name.now.module name.now.text }
{
    value_at(
        table,
        name.module.as_ref().map(Text::as_str),
        name.text.as_str(),
    )
}

/// The number that a table has of a name. Takes no memory.
pub fn number_named<V>(table: &IndexMap<WordKey, V>, name: &Name) -> Option<usize>
    ensures found { is_some result ≡ is_some (at_place table.now name.now.module name.now.text) }
    ensures value { IfSome result (λ i. slice_get (values table.now) i ≡ at_place table.now name.now.module name.now.text) }
{
    match &name.module {
        None => None,
        Some(module) => table.get_index_of(&WordKey {
            module: module.as_str(),
            word: name.text.as_str(),
        }),
    }
}
