//! The nodes of a table.
ghost use Rattle.std.specs.Prelude.{◌≡◌, ◌+◌, ◌-◌, max, false, None, IfOk};
ghost use Rattle.std.specs.Cmp.Rules.{hashing};
ghost use Rattle.std.specs.Option.{option_map};
ghost use Rattle.std.proofs.Common.{rules};
ghost use Rattle.fc_type_table.specs.Names.{name_from, name_of};

use fc_syntax::{Memory, Role, Text};
use std::hash::{Hash, Hasher};
use std::rc::RcStr;

/// The most that parts of a type in a table nest. A type that would be deeper is answered as out of memory, so that a walk over
/// a type keeps off the end of the stack.
pub(crate) const DEEPEST: u32 = 10_000;

/// A type by its number in a table.
#[derive(Clone, Copy, Debug, PartialEq, Eq, Hash)]
pub struct TypeId(pub(crate) u32);

/// A name of a type. It shares the bytes of the words that it was made of, so that it outlives the tree in which they stand.
#[derive(PartialEq, Eq, Hash, Drop)]
pub struct NameKey {
    /// The module before the dot, `None` for a word without a dot.
    pub module: Option<RcStr>,
    /// The word itself.
    pub text: RcStr,
}

impl NameKey {
    /// The key of a name: the module before the dot, if there is one, and the word itself. Fails only where a word is shared too often to be
    /// counted. Takes no memory.
    pub fn new(qualifier: Option<&Text>, text: &Text) -> Result<NameKey, Memory>
        ensures { IfOk result (λ k. name_of k ≡ name_from (option_map (λ w. w.now) qualifier.entry) text.now) }
    {
        let module = match qualifier {
            None => None,
            Some(word) => Some(word.shared()?),
        };
        let text = text.shared()?;
        Ok(NameKey { module, text })
    }

    /// The module before the dot, if there is one.
    pub fn qualifier(&self) -> Option<&str>
        ensures { option_map (λ w. w.now) result ≡ (name_of self.now).module }
    {
        match &self.module {
            None => None,
            Some(word) => Some(word.as_str()),
        }
    }

    /// The same key again. Fails and takes memory as `new` does.
    pub(crate) fn copy(&self) -> Result<NameKey, Memory>
        ensures { IfOk result (λ k. name_of k ≡ name_of self.now) }
    {
        let module = match &self.module {
            None => None,
            Some(word) => Some(word.clone()?),
        };
        let text = self.text.clone()?;
        Ok(NameKey { module, text })
    }
}

/// One piece of a type or of a kind, whose parts have numbers.
#[derive(PartialEq, Eq, Hash, Drop)]
pub enum Piece {
    /// The kind `*`.
    Star,
    /// The kind `#`.
    Hash,
    /// The kind of what goes from the first kind to the second.
    Arrow(TypeId, TypeId),
    /// A variable that a `forall` of the type binds, by its distance to its binder, with its kind.
    Bound(u32, TypeId),
    /// A variable of the context, by its place there, counted from the outermost, with its kind.
    Free(u32, TypeId),
    /// A data type, newtype or family.
    Con(NameKey),
    /// `Int#`.
    IntHash,
    /// A type applied to one type.
    App(TypeId, TypeId),
    /// Functions from the first type to the second.
    Fun(TypeId, TypeId),
    /// A `forall` over a variable of the kind.
    Forall(TypeId, TypeId),
    /// The type of what takes a coercion between the first two types.
    CoForall(Role, TypeId, TypeId, TypeId),
}

/// What is kept of each type, so that a walk sees at once where it has nothing to do.
#[derive(Clone, Copy, PartialEq, Eq)]
pub struct Measure {
    /// How deep the type is.
    pub depth: u32,
    /// Each index that is bound outside the type is below this: 0 where there is none.
    pub loose: u32,
    /// Each place of a variable of the context is below this: 0 where there is none.
    pub levels: u32,
}

impl Measure {
    /// Of a piece without parts and without variables.
    pub fn leaf() -> Measure
        ensures { result ≡ record { depth = 0; loose = 0; levels = 0 } }
    {
        Measure {
            depth: 0,
            loose: 0,
            levels: 0,
        }
    }

    /// Of a variable that a `forall` binds.
    pub fn bound(index: u32) -> Result<Measure, Memory>
        ensures { IfOk result (λ m. m ≡ record { depth = 0; loose = index + 1; levels = 0 }) }
    {
        match index.checked_add(1) {
            Some(loose) => Ok(Measure {
                depth: 0,
                loose,
                levels: 0,
            }),
            None => Err(Memory),
        }
    }

    /// Of a variable of the context.
    pub fn free(level: u32) -> Result<Measure, Memory>
        ensures { IfOk result (λ m. m ≡ record { depth = 0; loose = 0; levels = level + 1 }) }
    {
        match level.checked_add(1) {
            Some(levels) => Ok(Measure {
                depth: 0,
                loose: 0,
                levels,
            }),
            None => Err(Memory),
        }
    }

    /// Of two parts together.
    pub fn beside(self, other: Measure) -> Measure
        ensures { result ≡ record { depth = max self.depth other.depth; loose = max self.loose other.loose; levels = max self.levels other.levels } }
    {
        Measure {
            depth: self.depth.max(other.depth),
            loose: self.loose.max(other.loose),
            levels: self.levels.max(other.levels),
        }
    }

    /// Of a body behind the binder of a variable of a kind.
    pub fn behind(self, kind: Measure) -> Measure
        ensures { result ≡ record { depth = max kind.depth self.depth; loose = self.loose - 1; levels = self.levels } }
    {
        Measure {
            depth: kind.depth.max(self.depth),
            loose: self.loose.saturating_sub(1),
            levels: self.levels,
        }
    }

    /// Of a piece with these parts.
    pub fn around(self) -> Result<Measure, Memory>
        ensures { IfOk result (λ m. m ≡ record { depth = self.depth + 1; loose = self.loose; levels = self.levels }) }
    {
        if self.depth >= DEEPEST {
            return Err(Memory);
        }
        Ok(Measure {
            depth: self.depth + 1,
            loose: self.loose,
            levels: self.levels,
        })
    }
}

/// What is told of the kind of each type when it is made, so that it is never worked out again.
#[derive(Clone, Copy, PartialEq, Eq)]
pub struct Judged {
    /// Whether this is a kind, without `#`.
    pub lifted: bool,
    /// The least number of arguments that the type is the head of, where it has a kind.
    pub needed: u32,
    /// The kind of the type as the head of so many arguments, where it has one.
    pub kind: Option<TypeId>,
}

impl Judged {
    /// Of a type that needs no argument.
    pub fn whole(kind: Option<TypeId>) -> Judged
        ensures { result ≡ record { lifted = false; needed = 0; kind = kind } }
    {
        Judged {
            lifted: false,
            needed: 0,
            kind,
        }
    }

    /// Of a kind.
    pub fn of_kind(lifted: bool) -> Judged
        ensures { result ≡ record { lifted = lifted; needed = 0; kind = None } }
    {
        Judged {
            lifted,
            needed: 0,
            kind: None,
        }
    }
}

/// A piece, and what is kept of the type that it is the outermost piece of.
#[derive(PartialEq, Eq, Drop)]
pub struct Node {
    /// The piece.
    pub piece: Piece,
    /// What is kept of the type.
    pub measure: Measure,
    /// What is told of its kind.
    pub judged: Judged,
}

// What is kept and told of a type follows from its piece, so that the piece alone is hashed.
impl Hash for Node {
    ghost hash_input = { λ n. ⟦<Piece as Hash>⟧.hash_input n.piece };

    ghost respects_eq = { Prim.search (hashing, rules) };

    fn hash<H: Hasher>(&self, state: &mut H) {
        self.piece.hash(state);
    }
}
