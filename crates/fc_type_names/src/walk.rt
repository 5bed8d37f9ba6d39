//! A walk over a type of a table.
ghost use Rattle.std.specs.Prelude.{◌≡◌, ◌+◌, ◌-◌, List, length, IfOk, Ok};
ghost use Rattle.fc_syntax.specs.Tree as trees;
ghost use Rattle.fc_syntax.specs.View.{ty_of};
ghost use Rattle.fc_model.specs.Nameless.{NTApp, NTCoForall, NTCon, NTForall, NTFun, NTVar};
ghost use Rattle.fc_scope.specs.ScopeWords.{locals_of};
ghost use Rattle.fc_type_names.specs.Meant.{AreSeen, meant};
ghost use Rattle.fc_type_names.specs.Parts.{part_of};
ghost use Rattle.fc_type_table.specs.Names.{name_of};
ghost use Rattle.fc_type_table.specs.TypeTables.{IsNumber, IsType, kind_shown, shown};

use crate::names::written;
use crate::words::{free_word, word_at};
use fc_scope::Scope;
use fc_syntax::{Memory, Role, Text, Ty};
use fc_type_table::{NameKey, Piece, TypeId, TypeTable};
use fc_type_trees::{Room, kind_within};
use std::alloc::Global;

/// What a walk over a type goes by.
#[derive(Drop)]
struct Walk<'w> {
    alloc: Global,
    /// The table.
    types: &'w TypeTable<'w>,
    /// The module in which the type is to be written.
    own: &'w Text,
    /// How many type variables the type stands among.
    variables: u32,
}

impl Walk<'_> {
    /// The type variable at a distance.
    #[tactic(auto, using(fc_syntax::proofs::View::view_rules, crate::proofs::Meanings::meaning_rules))]
    fn variable(&self, scope: &Scope, distance: u32) -> Result<Ty, Memory>
        requires { AreSeen (locals_of scope.now).types }
        ensures { IfOk result (λ t. meant self.now.own.now (locals_of scope.now).types (ty_of t) ≡ Ok (NTVar distance)) }
    {
        Ok(Ty::Var(word_at(self.alloc, &*scope, distance)?))
    }

    /// The type variable that the type stands among with so many outside of it, below so many binders of the type.
    fn outer_variable(&self, scope: &Scope, binders: u32, level: u32) -> Result<Ty, Memory>
        requires { AreSeen (locals_of scope.now).types }
        ensures { IfOk result (λ t. meant self.now.own.now (locals_of scope.now).types (ty_of t) ≡ Ok (NTVar (binders + ((self.now.variables - 1) - level)))) }
    {
        let further_in = self.variables.saturating_sub(1).saturating_sub(level);
        match binders.checked_add(further_in) {
            Some(distance) => self.variable(&*scope, distance),
            None => Err(Memory),
        }
    }

    /// The type of a name.
    #[tactic(auto, using(fc_syntax::proofs::View::view_rules, crate::proofs::Meanings::meaning_rules))]
    fn constructor(&self, name: &NameKey) -> Result<Ty, Memory>
        ensures { (words : List trees.Word) → IfOk result (λ t. meant self.now.own.now words (ty_of t) ≡ Ok (NTCon (name_of name.now))) }
    {
        Ok(Ty::Con(written(self.alloc, self.own, name)?))
    }

    /// A type applied to another.
    #[cycle(parts)]
    #[tactic(auto, using(crate::proofs::Meanings::meaning_rules))]
    fn application(
        &self,
        head: TypeId,
        argument: TypeId,
        scope: &Scope,
        binders: u32,
        room: &mut Room,
    ) -> Result<Ty, Memory>
        requires head { IsNumber self.now.types.now head }
        requires argument { IsNumber self.now.types.now argument }
        requires seen { AreSeen (locals_of scope.now).types }
        ensures { IfOk result (λ t. meant self.now.own.now (locals_of scope.now).types (ty_of t) ≡ Ok (NTApp (part_of self.now binders head) (part_of self.now binders argument))) }
    {
        let head = self.part(head, &*scope, binders, room)?;
        let argument = self.part(argument, &*scope, binders, room)?;
        Ty::applied(self.alloc, head, argument)
    }

    /// Functions from one type to another.
    #[cycle(parts)]
    #[tactic(auto, using(crate::proofs::Meanings::meaning_rules))]
    fn function(
        &self,
        from: TypeId,
        to: TypeId,
        scope: &Scope,
        binders: u32,
        room: &mut Room,
    ) -> Result<Ty, Memory>
        requires from { IsNumber self.now.types.now from }
        requires to { IsNumber self.now.types.now to }
        requires seen { AreSeen (locals_of scope.now).types }
        ensures { IfOk result (λ t. meant self.now.own.now (locals_of scope.now).types (ty_of t) ≡ Ok (NTFun (part_of self.now binders from) (part_of self.now binders to))) }
    {
        let from = self.part(from, &*scope, binders, room)?;
        let to = self.part(to, &*scope, binders, room)?;
        Ty::function(self.alloc, from, to)
    }

    /// A `forall`, whose variable takes a word that no other in scope has.
    #[cycle(parts)]
    #[tactic(auto, using(crate::proofs::Meanings::meaning_rules, crate::proofs::Seen::seen_more))]
    fn forall(
        &self,
        kind: TypeId,
        body: TypeId,
        scope: &Scope,
        binders: u32,
        room: &mut Room,
    ) -> Result<Ty, Memory>
        requires kind { IsNumber self.now.types.now kind }
        requires body { IsNumber self.now.types.now body }
        requires seen { AreSeen (locals_of scope.now).types }
        ensures { IfOk result (λ t. meant self.now.own.now (locals_of scope.now).types (ty_of t) ≡ Ok (NTForall (kind_shown self.now.types.now kind) (part_of self.now (binders + 1) body))) }
    {
        let Some(below) = binders.checked_add(1) else {
            return Err(Memory);
        };
        let word = free_word(self.alloc, &*scope, binders)?;
        let inner = Scope::Type(&word, &*scope);
        let body = self.part(body, &inner, below, room)?;
        let kind = kind_within(self.alloc, kind, self.types, room)?;
        Ty::for_all(self.alloc, word, kind, body)
    }

    /// The type of what takes a coercion.
    #[cycle(parts)]
    #[tactic(auto, using(crate::proofs::Meanings::meaning_rules))]
    fn coforall(
        &self,
        role: Role,
        ends: (TypeId, TypeId),
        body: TypeId,
        scope: &Scope,
        binders: u32,
        room: &mut Room,
    ) -> Result<Ty, Memory>
        requires left { IsNumber self.now.types.now ends.0 }
        requires right { IsNumber self.now.types.now ends.1 }
        requires body { IsNumber self.now.types.now body }
        requires seen { AreSeen (locals_of scope.now).types }
        ensures { IfOk result (λ t. meant self.now.own.now (locals_of scope.now).types (ty_of t) ≡ Ok (NTCoForall role (part_of self.now binders ends.0) (part_of self.now binders ends.1) (part_of self.now binders body))) }
    {
        let (left, right) = ends;
        let left = self.part(left, &*scope, binders, room)?;
        let right = self.part(right, &*scope, binders, room)?;
        let body = self.part(body, &*scope, binders, room)?;
        Ty::for_all_coercions(self.alloc, role, left, right, body)
    }

    /// A part of the type below so many of its binders, whose words are in scope inside those that the type stands among. Fails where
    /// memory or the room for pieces runs out, at a number that is not one of a type, and at a variable that is out of scope.
    #[cycle(parts)]
    fn part(&self, id: TypeId, scope: &Scope, binders: u32, room: &mut Room) -> Result<Ty, Memory>
        requires number { IsNumber self.now.types.now id }
        requires seen { AreSeen (locals_of scope.now).types }
        ensures { IfOk result (λ t. meant self.now.own.now (locals_of scope.now).types (ty_of t) ≡ Ok (part_of self.now binders id)) }
    {
        room.enter()?;
        let t = self.below(id, &*scope, binders, room)?;
        room.leave();
        Ok(t)
    }

    /// The same, where the room is entered.
    #[cycle(parts)]
    #[tactic(auto, using(fc_syntax::proofs::View::view_rules, crate::proofs::Shown::part_shown), unfolding(fc_type_table::specs::Scopes::indexed, fc_type_table::specs::Nodes::kind_at))]
    fn below(&self, id: TypeId, scope: &Scope, binders: u32, room: &mut Room) -> Result<Ty, Memory>
        requires number { IsNumber self.now.types.now id }
        requires seen { AreSeen (locals_of scope.now).types }
        ensures { IfOk result (λ t. meant self.now.own.now (locals_of scope.now).types (ty_of t) ≡ Ok (part_of self.now binders id)) }
    {
        match *self.types.piece(id) {
            Piece::Star => Err(Memory),
            Piece::Hash => Err(Memory),
            Piece::Arrow(_, _) => Err(Memory),
            Piece::Bound(index, _) => self.variable(&*scope, index),
            Piece::Free(level, _) => self.outer_variable(&*scope, binders, level),
            Piece::Con(ref name) => self.constructor(name),
            Piece::IntHash => Ok(Ty::IntHash),
            Piece::App(head, argument) => self.application(head, argument, &*scope, binders, room),
            Piece::Fun(from, to) => self.function(from, to, &*scope, binders, room),
            Piece::Forall(kind, body) => self.forall(kind, body, &*scope, binders, room),
            Piece::CoForall(role, left, right, body) => {
                self.coforall(role, (left, right), body, &*scope, binders, room)
            }
        }
    }
}

/// The type of a number as it is written in the module `own`, with words for its variables: those in `scope` for the variables that the
/// type stands among, and for that of each `forall` in it one of `a`, `a_1`, `a_2` and so on that is not in scope there. Fails where
/// memory runs out, where the answer, with the kinds in it, would have more than `most` pieces or nest deeper than 2,000, and at a name
/// without a module, which no type of a resolved module has.
#[tactic(auto, using(crate::proofs::Shown::whole_shown))]
pub fn named_type(
    alloc: Global,
    id: TypeId,
    types: &TypeTable,
    own: &Text,
    scope: &Scope,
    variables: u32,
    most: u32,
) -> Result<Ty, Memory>
    requires number { IsNumber types.now id }
    requires seen { AreSeen (locals_of scope.now).types }
    requires count { length (locals_of scope.now).types ≡ variables }
    ensures { (ks : List trees.Kind) → length ks ≡ variables → IsType types.now ks id → IfOk result (λ t. meant own.now (locals_of scope.now).types (ty_of t) ≡ Ok (shown types.now ks id)) }
{
    let walk = Walk {
        alloc,
        types: &*types,
        own,
        variables,
    };
    let mut room = Room::new(most);
    walk.part(id, &*scope, 0, &mut room)
}
