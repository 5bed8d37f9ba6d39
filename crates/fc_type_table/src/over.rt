//! The type of what takes arguments for binders.
ghost use Rattle.std.specs.Prelude.{◌≡◌, ◌-◌, ◌<◌, ◌≤◌, [], ◌∷◌, length, IfOk, OnOk};
ghost use Rattle.fc_model.specs.Calling.{binders_to, type_count};
ghost use Rattle.fc_model.specs.NamelessView.{nbinder_of, nbinders_of};
ghost use Rattle.fc_type_table.specs.Binders.{AreScopedBinders, binder_kinds, tree_over};
ghost use Rattle.fc_type_table.specs.InScope.{AreNumbered, IsScopeAt, kinds_of, own_kinds};
ghost use Rattle.fc_type_table.specs.Nodes.{Extends, tree_at};
ghost use Rattle.fc_type_table.specs.TypeTables.{Grows, IsType, modules_in, nodes_of, shown};

use crate::node::{Piece, TypeId};
use crate::numbered::{NumberedKind, NumberedKinds};
use crate::table::TypeTable;
use fc_syntax::{Memory, NBinder};

/// How many type variables all but the last of binders bind, which is this one, where all of them bind so many.
fn count_before(count: u32, binder: &NBinder) -> u32
    requires { type_count (nbinder_of binder.now ∷ []) ≤ count }
    ensures { result ≡ count - type_count (nbinder_of binder.now ∷ []) }
{
    match binder {
        NBinder::Value(_, _) => count,
        NBinder::OfType(_, _) => count - 1,
        NBinder::OfCo(_, _, _, _) => count,
    }
}

impl TypeTable<'_> {
    /// The number of what takes an argument for a binder and is then of the type of a number. The binder stands under so many binders of
    /// the type. The kinds are those of the type's own variables and of the so many of the context.
    fn over_binder(
        &mut self,
        binder: &NBinder,
        kinds: &NumberedKinds,
        context: u32,
        binders: u32,
        body: TypeId,
    ) -> Result<TypeId, Memory>
        requires body_in { body.0 < length (nodes_of self.old) }
        requires numbered { IsScopeAt (nodes_of self.old) kinds.now }
        ensures within { IfOk result (λ id. id.0 < length (nodes_of self.new)) }
        ensures shown { IfOk result (λ id. tree_at (nodes_of self.new) id.0 ≡ tree_over context (kinds_of kinds.now) binders (nbinder_of binder.now) (tree_at (nodes_of self.old) body.0)) }
        ensures extends { OnOk result (Extends (nodes_of self.old) (nodes_of self.new)) }
        ensures modules { OnOk result (modules_in self.new ≡ modules_in self.old) }
    {
        match binder {
            NBinder::Value(_, t) => {
                let from = self.read_part(t, &*kinds, context, binders, binders)?;
                self.intern(Piece::Fun(from, body))
            }
            NBinder::OfType(_, kind) => {
                let kind = self.put_kind(kind, 0)?;
                self.intern(Piece::Forall(kind, body))
            }
            NBinder::OfCo(_, role, left, right) => {
                let left = self.read_part(left, &*kinds, context, binders, binders)?;
                let right = self.read_part(right, &*kinds, context, binders, binders)?;
                self.intern(Piece::CoForall(*role, left, right, body))
            }
        }
    }

    /// The type of what takes arguments for binders and is then of the type `answer`, which stands outside them, among so many type
    /// variables, as the binders do. The binders' own variables are of these kinds. The answer keeps its number, and each type in the
    /// binders is read once, where it stands.
    pub fn read_over<'x>(
        &mut self,
        binders: &[NBinder],
        own: &'x [NumberedKind<'x>],
        outer: &'x NumberedKinds<'x>,
        variables: u32,
        answer: TypeId,
    ) -> Result<TypeId, Memory>
        requires count { variables ≡ length (kinds_of outer.now) }
        requires own { own_kinds own.now ≡ binder_kinds (nbinders_of binders.now) }
        requires own_numbered { AreNumbered (nodes_of self.old) own.now }
        requires outer_numbered { IsScopeAt (nodes_of self.old) outer.now }
        requires scoped { AreScopedBinders variables (nbinders_of binders.now) }
        requires answer_in { IsType self.old (kinds_of outer.now) answer }
        ensures valid { IfOk result (λ id. IsType self.new (kinds_of outer.now) id) }
        ensures view { IfOk result (λ id. shown self.new (kinds_of outer.now) id ≡ binders_to (nbinders_of binders.now) (shown self.old (kinds_of outer.now) answer)) }
        ensures grows { OnOk result (Grows self.old self.new) }
    {
        let Ok(mut count) = u32::try_from(own.len()) else {
            return Err(Memory);
        };
        let mut whole = answer;
        let mut at = binders.len();
        while at > 0 {
            at -= 1;
            let binder = &binders[at];
            count = count_before(count, binder);
            let kinds = NumberedKinds::Group(&own[..count as usize], outer);
            whole = self.over_binder(binder, &kinds, variables, count, whole)?;
        }
        Ok(whole)
    }
}
