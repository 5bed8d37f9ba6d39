//! Names, kinds, roles and types.
ghost use Rattle.std.specs.Prelude.{◌≡◌};
ghost use Rattle.fc_syntax.specs.Roles.{role_below};

use crate::text::Text;

/// A name of a type, a value, a constructor or an axiom.
#[derive(Debug, Drop)]
pub struct Name {
    /// The module before the dot, `None` for a word without a dot.
    pub module: Option<Text>,
    /// The word itself.
    pub text: Text,
}

/// What a variable of a nameless tree refers to.
#[derive(Debug, Drop)]
pub enum Ref {
    /// A binder of a value around it, by its distance: how many binders of values stand between the two.
    Local(u32),
    /// A definition; its module is always told.
    Top(Name),
}

/// A kind: the type of a type.
#[derive(Debug, Drop)]
pub enum Kind {
    /// `*`, of lifted types.
    Star,
    /// `#`, of `Int#` alone.
    Hash,
    /// `(-> from to)`, of type constructors.
    Arrow(Box<Kind>, Box<Kind>),
}

/// A role: how much a use of a type distinguishes (GHC's roles, "Safe zero-cost coercions for Haskell").
#[derive(Clone, Copy, Debug, PartialEq, Eq, Hash)]
pub enum Role {
    /// Nominal: equal names.
    N,
    /// Representational: equal at run time.
    R,
    /// Phantom: not used.
    P,
}

impl Role {
    /// Whether this role is `other` or stands before it in the order N, R, P. Takes no memory.
    pub fn below(self, other: Role) -> bool
        ensures { result ≡ role_below self other }
    {
        match (self, other) {
            (Role::N, _) => true,
            (Role::R, Role::N) => false,
            (Role::R, _) => true,
            (Role::P, Role::P) => true,
            (Role::P, _) => false,
        }
    }
}

/// A type, whose variables are `L`: their words in a named tree, distances to their binders in a nameless one. A binder keeps its
/// word in both.
pub enum Ty<L> {
    /// A type variable.
    Var(L),
    /// A data type, newtype or family by its name.
    Con(Name),
    /// `Int#`, the machine integer of 64 bits.
    IntHash,
    /// `(t u)`: a type applied to one type.
    App(Box<Ty<L>>, Box<Ty<L>>),
    /// `(fun t u)`: functions from the first type to the second.
    Fun(Box<Ty<L>>, Box<Ty<L>>),
    /// `(forall (a kind) t)`.
    Forall(Text, Kind, Box<Ty<L>>),
    /// `(coforall role left right t)`: the type of what takes a coercion between the two ends.
    CoForall(Role, Box<Ty<L>>, Box<Ty<L>>, Box<Ty<L>>),
}

// A function or a forall may have as many parts as a text has, so what they end with is dropped in a loop.
impl<L: Drop> Drop for Ty<L> {
    fn drop(mut self) {
        loop {
            match self {
                Ty::Var(_) => return,
                Ty::Con(_) => return,
                Ty::IntHash => return,
                Ty::App(head, _) => self = Box::into_inner(head),
                Ty::Fun(_, result) => self = Box::into_inner(result),
                Ty::Forall(_, _, body) => self = Box::into_inner(body),
                Ty::CoForall(_, _, _, body) => self = Box::into_inner(body),
            }
        }
    }
}
