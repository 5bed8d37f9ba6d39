//! Words of modules as keys of a table, and the places that it has.

/// A word of a module.
#[derive(Clone, Copy, PartialEq, Eq, Hash)]
pub struct WordKey<'a> {
    /// The word of the module.
    pub module: &'a str,
    /// The word itself.
    pub word: &'a str,
}

/// The place of a definition among modules.
#[derive(Clone, Copy)]
pub struct DefinitionPlace {
    /// The number of the module, counted from 0.
    pub module: usize,
    /// The number of the declaration in the module, counted from 0.
    pub decl: usize,
}
