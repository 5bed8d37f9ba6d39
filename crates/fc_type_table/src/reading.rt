//! Types put into the table.
ghost use Rattle.std.specs.Prelude.{◌≡◌, ◌<◌, ◌≤◌, length, IfOk, OnOk};
ghost use Rattle.fc_model.specs.Nameless.{NTVar};
ghost use Rattle.fc_model.specs.NamelessView.{nty_of};
ghost use Rattle.fc_model.specs.Substituting.{IsScopedType};
ghost use Rattle.fc_type_table.specs.InScope.{IsScopeAt, kinds_of};
ghost use Rattle.fc_type_table.specs.Nodes.{Extends, tree_at};
ghost use Rattle.fc_type_table.specs.Scopes.{label, leveled};
ghost use Rattle.fc_type_table.specs.TypeTables.{Grows, IsType, modules_in, nodes_of, shown};

use crate::node::{DEEPEST, NameKey, Piece, TypeId};
use crate::numbered::{NumberedKind, NumberedKinds, number_at};
use crate::table::TypeTable;
use fc_syntax::{Memory, NTy};

impl TypeTable<'_> {
    /// The number of what a variable carries: its kind.
    #[tactic(auto, using(crate::proofs::KindsInScope::label_rules))]
    fn read_label(&mut self, kinds: &NumberedKinds, index: u32) -> Result<TypeId, Memory>
        requires numbered { IsScopeAt (nodes_of self.old) kinds.now }
        ensures within { IfOk result (λ id. id.0 < length (nodes_of self.new)) }
        ensures shown { IfOk result (λ id. tree_at (nodes_of self.new) id.0 ≡ label (kinds_of kinds.now) index) }
        ensures extends { OnOk result (Extends (nodes_of self.old) (nodes_of self.new)) }
        ensures modules { OnOk result (modules_in self.new ≡ modules_in self.old) }
    {
        match number_at(kinds, index) {
            Some(kind) => Ok(kind.id),
            None => self.star(),
        }
    }

    /// The number of a variable by its index among variables of these kinds, under so many binders of the type, in a context of so many
    /// type variables.
    #[tactic(auto, unfolding(crate::specs::Scopes::leveled))]
    fn read_variable(
        &mut self,
        index: u32,
        kinds: &NumberedKinds,
        context: u32,
        binders: u32,
    ) -> Result<TypeId, Memory>
        requires numbered { IsScopeAt (nodes_of self.old) kinds.now }
        ensures within { IfOk result (λ id. id.0 < length (nodes_of self.new)) }
        ensures shown { IfOk result (λ id. tree_at (nodes_of self.new) id.0 ≡ leveled context (kinds_of kinds.now) binders (NTVar index)) }
        ensures extends { OnOk result (Extends (nodes_of self.old) (nodes_of self.new)) }
        ensures modules { OnOk result (modules_in self.new ≡ modules_in self.old) }
    {
        let kind = self.read_label(kinds, index)?;
        if index < binders {
            return self.intern(Piece::Bound(index, kind));
        }
        let innermost = context.saturating_sub(1);
        let level = innermost.saturating_sub(index - binders);
        self.intern(Piece::Free(level, kind))
    }

    /// The number of a part of a type, under so many binders of the type, so deep in it. The kinds are those of the type's own
    /// variables and of the so many of the context.
    #[tactic(auto, using(fc_syntax::proofs::View::view_rules, crate::proofs::KindsInScope::numbered_rules), unfolding(crate::specs::Scopes::leveled))]
    pub(crate) fn read_part(
        &mut self,
        t: &NTy,
        kinds: &NumberedKinds,
        context: u32,
        binders: u32,
        nested: u32,
    ) -> Result<TypeId, Memory>
        requires nested { binders ≤ nested }
        requires numbered { IsScopeAt (nodes_of self.old) kinds.now }
        ensures within { IfOk result (λ id. id.0 < length (nodes_of self.new)) }
        ensures shown { IfOk result (λ id. tree_at (nodes_of self.new) id.0 ≡ leveled context (kinds_of kinds.now) binders (nty_of t.now)) }
        ensures extends { OnOk result (Extends (nodes_of self.old) (nodes_of self.new)) }
        ensures modules { OnOk result (modules_in self.new ≡ modules_in self.old) }
    {
        if nested >= DEEPEST {
            return Err(Memory);
        }
        match t {
            NTy::Var(index) => self.read_variable(*index, &*kinds, context, binders),
            NTy::Con(name) => {
                let key = NameKey::new(name.module.as_ref(), &name.text)?;
                self.name(key)
            }
            NTy::IntHash => self.intern(Piece::IntHash),
            NTy::App(head, argument) => {
                let head = self.read_part(head, &*kinds, context, binders, nested + 1)?;
                let argument = self.read_part(argument, &*kinds, context, binders, nested + 1)?;
                self.intern(Piece::App(head, argument))
            }
            NTy::Fun(from, to) => {
                let from = self.read_part(from, &*kinds, context, binders, nested + 1)?;
                let to = self.read_part(to, &*kinds, context, binders, nested + 1)?;
                self.intern(Piece::Fun(from, to))
            }
            NTy::Forall(_, variable, body) => {
                let kind = self.put_kind(variable, nested + 1)?;
                let variable = NumberedKind {
                    kind: &*variable,
                    id: kind,
                };
                let inner = NumberedKinds::Kind(variable, &*kinds);
                let body = self.read_part(body, &inner, context, binders + 1, nested + 1)?;
                self.intern(Piece::Forall(kind, body))
            }
            NTy::CoForall(role, left, right, body) => {
                let left = self.read_part(left, &*kinds, context, binders, nested + 1)?;
                let right = self.read_part(right, &*kinds, context, binders, nested + 1)?;
                let body = self.read_part(body, &*kinds, context, binders, nested + 1)?;
                self.intern(Piece::CoForall(*role, left, right, body))
            }
        }
    }

    /// The number of a type whose variables stand in a context of so many type variables, of these kinds.
    pub fn read(&mut self, t: &NTy, kinds: &NumberedKinds, variables: u32) -> Result<TypeId, Memory>
        requires count { variables ≡ length (kinds_of kinds.now) }
        requires numbered { IsScopeAt (nodes_of self.old) kinds.now }
        requires scoped { IsScopedType variables (nty_of t.now) }
        ensures valid { IfOk result (λ id. IsType self.new (kinds_of kinds.now) id) }
        ensures view { IfOk result (λ id. shown self.new (kinds_of kinds.now) id ≡ nty_of t.now) }
        ensures grows { OnOk result (Grows self.old self.new) }
    {
        self.read_part(t, &*kinds, variables, 0, 0)
    }

    /// The number of the type variable at a distance in a context of so many type variables, of these kinds.
    pub fn variable(
        &mut self,
        distance: u32,
        kinds: &NumberedKinds,
        variables: u32,
    ) -> Result<TypeId, Memory>
        requires count { variables ≡ length (kinds_of kinds.now) }
        requires numbered { IsScopeAt (nodes_of self.old) kinds.now }
        requires scoped { distance < variables }
        ensures valid { IfOk result (λ id. IsType self.new (kinds_of kinds.now) id) }
        ensures view { IfOk result (λ id. shown self.new (kinds_of kinds.now) id ≡ NTVar distance) }
        ensures grows { OnOk result (Grows self.old self.new) }
    {
        self.read_variable(distance, &*kinds, variables, 0)
    }
}
