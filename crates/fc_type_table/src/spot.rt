//! Where a walk stands in a type.
use crate::node::TypeId;

/// A part of a type, under a number of the type's binders.
#[derive(Clone, Copy, PartialEq, Eq, Hash)]
pub struct Spot {
    /// How many binders the part stands under.
    pub depth: u32,
    /// The part.
    pub part: TypeId,
}
