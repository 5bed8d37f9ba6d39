//! A type put in for the variable of a `forall`.
ghost use Rattle.std.specs.Prelude.{◌≡◌, ◌<◌, ◌+◌, ◌^◌, ◌⊎◌, List, length, Some, IfOk, IfSome, OnOk};
ghost use Rattle.std.specs.Option.{option_map};
ghost use Rattle.fc_syntax.specs.Tree as trees;
ghost use Rattle.fc_type_table.specs.Nodes.{Extends, tree_at};
ghost use Rattle.fc_type_table.specs.Trees.{opened};
ghost use Rattle.fc_model.specs.Calling.{at_type};
ghost use Rattle.fc_type_table.specs.TypeTables.{Grows, IsNumber, IsType, modules_in, nodes_of, shown};
ghost use Rattle.fc_type_table.specs.Walks.{Opened, noted};
ghost use Rattle.fc_type_table.specs.declared.node.TypeId as the_id;
ghost use Rattle.fc_type_table.specs.declared.spot.Spot as the_spot;

use crate::instance::Instance;
use crate::node::{Piece, TypeId};
use crate::spot::Spot;
use crate::table::TypeTable;
use fc_syntax::Memory;
use indexmap::IndexMap;
use std::alloc::Global;

/// Notes the answer at a spot.
pub(crate) fn note(
    done: &mut IndexMap<Spot, TypeId>,
    spot: Spot,
    answer: TypeId,
) -> Result<(), Memory>
    ensures { OnOk result ((s : the_spot.Spot) (r : the_id.TypeId) → noted done.new s ≡ Some r → ((s ≡ spot) × (r ≡ answer)) ⊎ (noted done.old s ≡ Some r)) }
{
    done.insert(spot, answer)?;
    Ok(())
}

impl TypeTable<'_> {
    /// The number of a part with the type `by` put in for the variable that is bound `depth` binders above it. What was done
    /// before is not done again, and a part without such a variable is its own answer.
    #[cycle(open)]
    fn open_seen(
        &mut self,
        done: &mut IndexMap<Spot, TypeId>,
        depth: u32,
        part: TypeId,
        by: TypeId,
    ) -> Result<TypeId, Memory>
        requires part_in { part.0 < length (nodes_of self.old) }
        requires by_in { by.0 < length (nodes_of self.old) }
        requires room { depth + part.0 < 2 ^ 32 }
        requires seen { Opened (nodes_of self.old) by.0 done.old }
        ensures within { IfOk result (λ id. id.0 < length (nodes_of self.new)) }
        ensures shown { IfOk result (λ id. tree_at (nodes_of self.new) id.0 ≡ opened depth (tree_at (nodes_of self.old) by.0) (tree_at (nodes_of self.old) part.0)) }
        ensures extends { OnOk result (Extends (nodes_of self.old) (nodes_of self.new)) }
        ensures modules { OnOk result (modules_in self.new ≡ modules_in self.old) }
        ensures seen { OnOk result (Opened (nodes_of self.new) by.0 done.new) }
    {
        let measure = self.measure(part);
        if measure.loose <= depth {
            return Ok(part);
        }
        let spot = Spot { depth, part };
        if let Some(answer) = done.get(&spot) {
            return Ok(*answer);
        }
        let answer = self.open_part(done, depth, part, by)?;
        note(done, spot, answer)?;
        Ok(answer)
    }

    /// The same, where the part was not seen before.
    #[cycle(open)]
    #[tactic(auto, unfolding(crate::specs::Trees::opened))]
    fn open_part(
        &mut self,
        done: &mut IndexMap<Spot, TypeId>,
        depth: u32,
        part: TypeId,
        by: TypeId,
    ) -> Result<TypeId, Memory>
        requires part_in { part.0 < length (nodes_of self.old) }
        requires by_in { by.0 < length (nodes_of self.old) }
        requires room { depth + part.0 < 2 ^ 32 }
        requires seen { Opened (nodes_of self.old) by.0 done.old }
        ensures within { IfOk result (λ id. id.0 < length (nodes_of self.new)) }
        ensures shown { IfOk result (λ id. tree_at (nodes_of self.new) id.0 ≡ opened depth (tree_at (nodes_of self.old) by.0) (tree_at (nodes_of self.old) part.0)) }
        ensures extends { OnOk result (Extends (nodes_of self.old) (nodes_of self.new)) }
        ensures modules { OnOk result (modules_in self.new ≡ modules_in self.old) }
        ensures seen { OnOk result (Opened (nodes_of self.new) by.0 done.new) }
    {
        match *self.piece(part) {
            Piece::Star => Ok(part),
            Piece::Hash => Ok(part),
            Piece::Arrow(_, _) => Ok(part),
            Piece::Bound(index, _) => { if index == depth { Ok(by) } else { Ok(part) } }
            Piece::Free(_, _) => Ok(part),
            Piece::Con(_) => Ok(part),
            Piece::IntHash => Ok(part),
            Piece::App(head, argument) => {
                let head = self.open_seen(done, depth, head, by)?;
                let argument = self.open_seen(done, depth, argument, by)?;
                self.intern(Piece::App(head, argument))
            }
            Piece::Fun(from, to) => {
                let from = self.open_seen(done, depth, from, by)?;
                let to = self.open_seen(done, depth, to, by)?;
                self.intern(Piece::Fun(from, to))
            }
            Piece::Forall(kind, body) => {
                let body = self.open_seen(done, depth + 1, body, by)?;
                self.intern(Piece::Forall(kind, body))
            }
            Piece::CoForall(role, left, right, body) => {
                let left = self.open_seen(done, depth, left, by)?;
                let right = self.open_seen(done, depth, right, by)?;
                let body = self.open_seen(done, depth, body, by)?;
                self.intern(Piece::CoForall(role, left, right, body))
            }
        }
    }

    /// The body of a `forall` with a type put in for its variable. What was asked before is not done again.
    fn instance(&mut self, alloc: Global, instance: Instance) -> Result<TypeId, Memory>
        requires body_in { instance.body.0 < length (nodes_of self.old) }
        requires by_in { instance.by.0 < length (nodes_of self.old) }
        ensures within { IfOk result (λ id. id.0 < length (nodes_of self.new)) }
        ensures shown { IfOk result (λ id. tree_at (nodes_of self.new) id.0 ≡ opened 0 (tree_at (nodes_of self.old) instance.by.0) (tree_at (nodes_of self.old) instance.body.0)) }
        ensures extends { OnOk result (Extends (nodes_of self.old) (nodes_of self.new)) }
        ensures modules { OnOk result (modules_in self.new ≡ modules_in self.old) }
    {
        if let Some(answer) = self.noted_instance(instance) {
            return Ok(answer);
        }
        let mut done = IndexMap::new(alloc);
        let answer = self.open_seen(&mut done, 0, instance.body, instance.by)?;
        self.keep_instance(instance, answer)?;
        Ok(answer)
    }

    /// The body of a `forall` at a type, if the first type is a `forall`. Each part of the body is visited once, and none at a type that was
    /// put in before.
    #[tactic(auto, unfolding(crate::specs::Scopes::shown_at, crate::specs::Scopes::indexed))]
    pub fn instantiate(
        &mut self,
        alloc: Global,
        forall: TypeId,
        by: TypeId,
    ) -> Result<Option<TypeId>, Memory>
        requires forall_in { IsNumber self.old forall }
        requires by_in { IsNumber self.old by }
        ensures number { IfOk result (λ r. IfSome r (λ id. IsNumber self.new id)) }
        ensures valid { IfOk result (λ r. IfSome r (λ id. (ks : List trees.Kind) → IsType self.old ks forall → IsType self.old ks by → IsType self.new ks id)) }
        ensures view { IfOk result (λ r. (ks : List trees.Kind) → IsType self.old ks forall → IsType self.old ks by → option_map (λ id. shown self.new ks id) r ≡ at_type (shown self.old ks forall) (shown self.old ks by)) }
        ensures grows { OnOk result (Grows self.old self.new) }
    {
        match *self.piece(forall) {
            Piece::Star => Ok(None),
            Piece::Hash => Ok(None),
            Piece::Arrow(_, _) => Ok(None),
            Piece::Bound(_, _) => Ok(None),
            Piece::Free(_, _) => Ok(None),
            Piece::Con(_) => Ok(None),
            Piece::IntHash => Ok(None),
            Piece::App(_, _) => Ok(None),
            Piece::Fun(_, _) => Ok(None),
            Piece::Forall(_, body) => {
                let answer = self.instance(alloc, Instance { body, by })?;
                Ok(Some(answer))
            }
            Piece::CoForall(_, _, _, _) => Ok(None),
        }
    }
}
