//! The words of binders of every space.
ghost use Rattle.std.specs.Prelude.{◌≡◌, []};

use crate::names::Names;
use std::alloc::Global;

/// The words of the binders of an alternative, a join point or a constructor, by their space.
pub struct Binders {
    /// The words of types.
    pub types: Names,
    /// The words of values.
    pub values: Names,
    /// The words of coercions.
    pub coercions: Names,
}

impl Binders {
    /// No words, which take no memory.
    pub fn new(alloc: Global) -> Binders
        ensures { result ≡ record { types = []; values = []; coercions = [] } }
    {
        Binders {
            types: Names::new(alloc),
            values: Names::new(alloc),
            coercions: Names::new(alloc),
        }
    }
}

impl Drop for Binders {
    fn drop(self) {
        let Binders {
            types: _,
            values: _,
            coercions: _,
        } = self;
    }
}
