//! Why names are not put back.

/// Why a nameless module is not written with names.
#[derive(Debug, Drop)]
pub enum NotNamed {
    /// The module is not scoped: a distance reaches no binder, a name is not known, since the module itself does not declare it or it is of a
    /// module that is not imported, or a word is declared twice in one space.
    Unscoped,
    /// Out of memory, or a count of 32 bits was too small.
    Memory,
}
