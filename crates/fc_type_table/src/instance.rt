//! What a type was put in for.
use crate::node::TypeId;

/// The body of a `forall` and a type that is put in for its variable.
#[derive(Clone, Copy, PartialEq, Eq, Hash)]
pub struct Instance {
    /// The body.
    pub body: TypeId,
    /// The type.
    pub by: TypeId,
}
