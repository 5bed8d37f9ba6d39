//! A walk over a type of a table.
ghost use Rattle.std.specs.Prelude.{◌≡◌, ◌+◌, ◌-◌, List, length, IfOk};
ghost use Rattle.fc_syntax.specs.Tree as trees;
ghost use Rattle.fc_model.specs.Nameless.{NTApp, NTCoForall, NTCon, NTForall, NTFun, NTVar};
ghost use Rattle.fc_model.specs.NamelessView.{nty_of};
ghost use Rattle.fc_type_table.specs.Names.{name_of};
ghost use Rattle.fc_type_table.specs.TypeTables.{IsNumber, IsType, kind_shown, shown};
ghost use Rattle.fc_type_trees.specs.Parts.{part_of};

use crate::kinds::kind_within;
use crate::room::Room;
use fc_syntax::{Memory, NTy, Name, Role, Text};
use fc_type_table::{NameKey, Piece, TypeId, TypeTable};
use std::alloc::Global;

/// The word that the binder of a `forall` takes. A table keeps none, and no judgement looks at it.
const HINT: &str = "a";

/// What a walk over a type goes by.
#[derive(Drop)]
struct Walk<'w> {
    alloc: Global,
    /// The table.
    types: &'w TypeTable<'w>,
    /// How many type variables the type stands among.
    variables: u32,
}

/// The name of a key.
fn name_tree(alloc: Global, key: &NameKey) -> Result<Name, Memory>
    ensures { IfOk result (λ n. n ≡ name_of key.now) }
{
    let module = match key.qualifier() {
        None => None,
        Some(word) => Some(Text::from_str(alloc, word)?),
    };
    let text = Text::from_str(alloc, key.text.as_str())?;
    Ok(Name { module, text })
}

impl Walk<'_> {
    /// The type variable that the type stands among with so many outside of it, below so many binders of the type.
    #[tactic(auto, using(fc_syntax::proofs::View::view_rules))]
    fn outer_variable(&self, binders: u32, level: u32) -> Result<NTy, Memory>
        ensures { IfOk result (λ t. nty_of t ≡ NTVar (binders + ((self.now.variables - 1) - level))) }
    {
        let further_in = self.variables.saturating_sub(1).saturating_sub(level);
        match binders.checked_add(further_in) {
            Some(distance) => Ok(NTy::Var(distance)),
            None => Err(Memory),
        }
    }

    /// The type of a name.
    #[tactic(auto, using(fc_syntax::proofs::View::view_rules))]
    fn constructor(&self, key: &NameKey) -> Result<NTy, Memory>
        ensures { IfOk result (λ t. nty_of t ≡ NTCon (name_of key.now)) }
    {
        Ok(NTy::Con(name_tree(self.alloc, key)?))
    }

    /// A type applied to another.
    #[cycle(parts)]
    #[tactic(auto, using(crate::proofs::Shown::made_as))]
    fn application(
        &self,
        head: TypeId,
        argument: TypeId,
        binders: u32,
        room: &mut Room,
    ) -> Result<NTy, Memory>
        requires head { IsNumber self.now.types.now head }
        requires argument { IsNumber self.now.types.now argument }
        ensures { IfOk result (λ t. nty_of t ≡ NTApp (part_of self.now binders head) (part_of self.now binders argument)) }
    {
        let head = self.part(head, binders, room)?;
        let argument = self.part(argument, binders, room)?;
        NTy::applied(self.alloc, head, argument)
    }

    /// Functions from one type to another.
    #[cycle(parts)]
    #[tactic(auto, using(crate::proofs::Shown::made_as))]
    fn function(
        &self,
        from: TypeId,
        to: TypeId,
        binders: u32,
        room: &mut Room,
    ) -> Result<NTy, Memory>
        requires from { IsNumber self.now.types.now from }
        requires to { IsNumber self.now.types.now to }
        ensures { IfOk result (λ t. nty_of t ≡ NTFun (part_of self.now binders from) (part_of self.now binders to)) }
    {
        let from = self.part(from, binders, room)?;
        let to = self.part(to, binders, room)?;
        NTy::function(self.alloc, from, to)
    }

    /// A `forall`.
    #[cycle(parts)]
    #[tactic(auto, using(crate::proofs::Shown::made_as))]
    fn forall(
        &self,
        kind: TypeId,
        body: TypeId,
        binders: u32,
        room: &mut Room,
    ) -> Result<NTy, Memory>
        requires kind { IsNumber self.now.types.now kind }
        requires body { IsNumber self.now.types.now body }
        ensures { IfOk result (λ t. nty_of t ≡ NTForall (kind_shown self.now.types.now kind) (part_of self.now (binders + 1) body)) }
    {
        let Some(below) = binders.checked_add(1) else {
            return Err(Memory);
        };
        let word = Text::from_str(self.alloc, HINT)?;
        let kind = kind_within(self.alloc, kind, self.types, room)?;
        let body = self.part(body, below, room)?;
        NTy::for_all(self.alloc, word, kind, body)
    }

    /// The type of what takes a coercion.
    #[cycle(parts)]
    #[tactic(auto, using(crate::proofs::Shown::made_as))]
    fn coforall(
        &self,
        role: Role,
        ends: (TypeId, TypeId),
        body: TypeId,
        binders: u32,
        room: &mut Room,
    ) -> Result<NTy, Memory>
        requires left { IsNumber self.now.types.now ends.0 }
        requires right { IsNumber self.now.types.now ends.1 }
        requires body { IsNumber self.now.types.now body }
        ensures { IfOk result (λ t. nty_of t ≡ NTCoForall role (part_of self.now binders ends.0) (part_of self.now binders ends.1) (part_of self.now binders body)) }
    {
        let (left, right) = ends;
        let left = self.part(left, binders, room)?;
        let right = self.part(right, binders, room)?;
        let body = self.part(body, binders, room)?;
        NTy::for_all_coercions(self.alloc, role, left, right, body)
    }

    /// A part of the type below so many of its binders. Fails where memory or the room for pieces runs out, and at a number that is not
    /// one of a type.
    #[cycle(parts)]
    fn part(&self, id: TypeId, binders: u32, room: &mut Room) -> Result<NTy, Memory>
        requires { IsNumber self.now.types.now id }
        ensures { IfOk result (λ t. nty_of t ≡ part_of self.now binders id) }
    {
        room.enter()?;
        let t = self.below(id, binders, room)?;
        room.leave();
        Ok(t)
    }

    /// The same, where the room is entered.
    #[cycle(parts)]
    #[tactic(auto, using(fc_syntax::proofs::View::view_rules, crate::proofs::Shown::part_shown), unfolding(fc_type_table::specs::Scopes::indexed, fc_type_table::specs::Nodes::kind_at))]
    fn below(&self, id: TypeId, binders: u32, room: &mut Room) -> Result<NTy, Memory>
        requires { IsNumber self.now.types.now id }
        ensures { IfOk result (λ t. nty_of t ≡ part_of self.now binders id) }
    {
        match *self.types.piece(id) {
            Piece::Star => Err(Memory),
            Piece::Hash => Err(Memory),
            Piece::Arrow(_, _) => Err(Memory),
            Piece::Bound(index, _) => Ok(NTy::Var(index)),
            Piece::Free(level, _) => self.outer_variable(binders, level),
            Piece::Con(ref key) => self.constructor(key),
            Piece::IntHash => Ok(NTy::IntHash),
            Piece::App(head, argument) => self.application(head, argument, binders, room),
            Piece::Fun(from, to) => self.function(from, to, binders, room),
            Piece::Forall(kind, body) => self.forall(kind, body, binders, room),
            Piece::CoForall(role, left, right, body) => {
                self.coforall(role, (left, right), body, binders, room)
            }
        }
    }
}

/// The type of a number as a tree, among so many type variables. The word of each `forall` in it is `a`. Fails where memory runs out,
/// where the answer, with the kinds in it, would have more than `most` pieces or nest deeper than 2,000, and at a number that is not one
/// of a type.
#[tactic(auto, using(crate::proofs::Shown::whole_shown))]
pub fn tree_of_type(
    alloc: Global,
    id: TypeId,
    types: &TypeTable,
    variables: u32,
    most: u32,
) -> Result<NTy, Memory>
    requires { IsNumber types.now id }
    ensures { (ks : List trees.Kind) → length ks ≡ variables → IsType types.now ks id → IfOk result (λ t. nty_of t ≡ shown types.now ks id) }
{
    let walk = Walk {
        alloc,
        types: &*types,
        variables,
    };
    let mut room = Room::new(most);
    walk.part(id, 0, &mut room)
}
