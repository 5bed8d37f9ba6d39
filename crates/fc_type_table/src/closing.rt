//! A variable of the context bound by a `forall`.
ghost use Rattle.std.specs.Prelude.{◌≡◌, ◌<◌, ◌+◌, ◌^◌, List, ◌∷◌, length, IfOk, OnOk};
ghost use Rattle.fc_syntax.specs.Tree as trees;
ghost use Rattle.fc_syntax.specs.View.{kind_of};
ghost use Rattle.fc_model.specs.Nameless.{NTForall};
ghost use Rattle.fc_type_table.specs.Nodes.{Extends, tree_at};
ghost use Rattle.fc_type_table.specs.Trees.{closed_over};
ghost use Rattle.fc_type_table.specs.TypeTables.{Grows, IsNumber, IsType, modules_in, nodes_of, shown};
ghost use Rattle.fc_type_table.specs.Walks.{Closed};

use crate::node::{Piece, TypeId};
use crate::opening::note;
use crate::spot::Spot;
use crate::table::TypeTable;
use fc_syntax::{Kind, Memory};
use indexmap::IndexMap;
use std::alloc::Global;

impl TypeTable<'_> {
    /// The number of a part with the variable of a level bound `depth` binders above it. What was done before is not done again,
    /// and a part without a variable of that level or a further one is its own answer.
    #[cycle(close)]
    fn close_seen(
        &mut self,
        done: &mut IndexMap<Spot, TypeId>,
        depth: u32,
        part: TypeId,
        level: u32,
    ) -> Result<TypeId, Memory>
        requires part_in { part.0 < length (nodes_of self.old) }
        requires room { depth + part.0 < 2 ^ 32 }
        requires seen { Closed (nodes_of self.old) level done.old }
        ensures within { IfOk result (λ id. id.0 < length (nodes_of self.new)) }
        ensures shown { IfOk result (λ id. tree_at (nodes_of self.new) id.0 ≡ closed_over level depth (tree_at (nodes_of self.old) part.0)) }
        ensures extends { OnOk result (Extends (nodes_of self.old) (nodes_of self.new)) }
        ensures modules { OnOk result (modules_in self.new ≡ modules_in self.old) }
        ensures seen { OnOk result (Closed (nodes_of self.new) level done.new) }
    {
        let measure = self.measure(part);
        if measure.levels <= level {
            return Ok(part);
        }
        let spot = Spot { depth, part };
        if let Some(answer) = done.get(&spot) {
            return Ok(*answer);
        }
        let answer = self.close_part(done, depth, part, level)?;
        note(done, spot, answer)?;
        Ok(answer)
    }

    /// The same, where the part was not seen before.
    #[cycle(close)]
    #[tactic(auto, unfolding(crate::specs::Trees::closed_over))]
    fn close_part(
        &mut self,
        done: &mut IndexMap<Spot, TypeId>,
        depth: u32,
        part: TypeId,
        level: u32,
    ) -> Result<TypeId, Memory>
        requires part_in { part.0 < length (nodes_of self.old) }
        requires room { depth + part.0 < 2 ^ 32 }
        requires seen { Closed (nodes_of self.old) level done.old }
        ensures within { IfOk result (λ id. id.0 < length (nodes_of self.new)) }
        ensures shown { IfOk result (λ id. tree_at (nodes_of self.new) id.0 ≡ closed_over level depth (tree_at (nodes_of self.old) part.0)) }
        ensures extends { OnOk result (Extends (nodes_of self.old) (nodes_of self.new)) }
        ensures modules { OnOk result (modules_in self.new ≡ modules_in self.old) }
        ensures seen { OnOk result (Closed (nodes_of self.new) level done.new) }
    {
        match *self.piece(part) {
            Piece::Star => Ok(part),
            Piece::Hash => Ok(part),
            Piece::Arrow(_, _) => Ok(part),
            Piece::Bound(_, _) => Ok(part),
            Piece::Free(of, kind) => {
                if of == level {
                    self.intern(Piece::Bound(depth, kind))
                } else {
                    Ok(part)
                }
            }
            Piece::Con(_) => Ok(part),
            Piece::IntHash => Ok(part),
            Piece::App(head, argument) => {
                let head = self.close_seen(done, depth, head, level)?;
                let argument = self.close_seen(done, depth, argument, level)?;
                self.intern(Piece::App(head, argument))
            }
            Piece::Fun(from, to) => {
                let from = self.close_seen(done, depth, from, level)?;
                let to = self.close_seen(done, depth, to, level)?;
                self.intern(Piece::Fun(from, to))
            }
            Piece::Forall(kind, body) => {
                let body = self.close_seen(done, depth + 1, body, level)?;
                self.intern(Piece::Forall(kind, body))
            }
            Piece::CoForall(role, left, right, body) => {
                let left = self.close_seen(done, depth, left, level)?;
                let right = self.close_seen(done, depth, right, level)?;
                let body = self.close_seen(done, depth, body, level)?;
                self.intern(Piece::CoForall(role, left, right, body))
            }
        }
    }

    /// The `forall` over the innermost of `variables + 1` type variables, which is of this kind, with a body that stands among them. Each
    /// part of the body is visited once.
    pub fn generalize(
        &mut self,
        alloc: Global,
        kind: &Kind,
        body: TypeId,
        variables: u32,
    ) -> Result<TypeId, Memory>
        requires { IsNumber self.old body }
        ensures number { IfOk result (λ id. IsNumber self.new id) }
        ensures valid { IfOk result (λ id. (ks : List trees.Kind) → length ks ≡ variables → IsType self.old (kind_of kind.now ∷ ks) body → IsType self.new ks id) }
        ensures view { IfOk result (λ id. (ks : List trees.Kind) → length ks ≡ variables → IsType self.old (kind_of kind.now ∷ ks) body → shown self.new ks id ≡ NTForall (kind_of kind.now) (shown self.old (kind_of kind.now ∷ ks) body)) }
        ensures grows { OnOk result (Grows self.old self.new) }
    {
        let kind = self.put_kind(kind, 0)?;
        let mut done = IndexMap::new(alloc);
        let body = self.close_seen(&mut done, 0, body, variables)?;
        self.intern(Piece::Forall(kind, body))
    }
}
