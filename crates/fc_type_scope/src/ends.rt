//! What coercions prove.
ghost use Rattle.std.specs.Prelude.{◌≡◌, ◌&&◌, IfOk, IfSome, OnOk};
ghost use Rattle.std.specs.Option.{option_map};
ghost use Rattle.fc_model.specs.Calling.{coercion_asked};
ghost use Rattle.fc_model.specs.Coercing.{ends};
ghost use Rattle.fc_model.specs.Kinding as words;
ghost use Rattle.fc_model.specs.Kinding.{same_type};
ghost use Rattle.fc_model.specs.NamelessView.{nty_of};
ghost use Rattle.fc_type_scope.specs.EndViews.{IsEnds, shown_ends};
ghost use Rattle.fc_type_scope.specs.Scopes.{IsScope, scope_in};
ghost use Rattle.fc_type_table.specs.TypeTables.{Grows, IsType, shown};

use crate::scope::TypeScope;
use fc_syntax::{Memory, NTy, Role};
use fc_type_table::{TypeId, TypeTable};
use fc_types::same_role;

/// What a coercion proves: at a role, that two types are equal.
#[derive(Clone, Copy)]
pub struct Ends {
    /// The role.
    pub role: Role,
    /// The type that it goes from.
    pub left: TypeId,
    /// The type that it goes to.
    pub right: TypeId,
}

impl TypeScope<'_> {
    /// The written ends of a coercion variable. A type that names a variable out of scope is answered as out of memory.
    #[tactic(auto, using(crate::proofs::Numbers::number_rules, crate::proofs::Proven::ends_rules))]
    pub fn read_ends(
        &self,
        role: Role,
        left: &NTy,
        right: &NTy,
        types: &mut TypeTable,
    ) -> Result<Ends, Memory>
        requires { IsScope types.old self.now }
        ensures valid { IfOk result (λ e. IsEnds types.new (scope_in self.now) e) }
        ensures view { IfOk result (λ e. shown_ends types.new (scope_in self.now) e ≡ ends role (nty_of left.now) (nty_of right.now)) }
        ensures grows { OnOk result (Grows types.old types.new) }
    {
        let left = self.read(left, types)?;
        let right = self.read(right, types)?;
        Ok(Ends { role, left, right })
    }

    /// What takes a coercion: the role and the ends that it asks, and the type behind it, if the type is one. Takes no memory.
    pub fn coercion_asked(&self, id: TypeId, types: &TypeTable) -> Option<(Ends, TypeId)>
        requires { IsType types.now (scope_in self.now) id }
        ensures ends_in { IfSome result (λ p. IsEnds types.now (scope_in self.now) p.0) }
        ensures body_in { IfSome result (λ p. IsType types.now (scope_in self.now) p.1) }
        ensures view { option_map (λ p. (p.0.role, shown types.now (scope_in self.now) p.0.left, shown types.now (scope_in self.now) p.0.right, shown types.now (scope_in self.now) p.1)) result ≡ coercion_asked (shown types.now (scope_in self.now) id) }
    {
        match types.coercion_asked(id) {
            None => None,
            Some((role, left, right, body)) => Some((Ends { role, left, right }, body)),
        }
    }

    /// Whether a coercion that proves the second is one that proves the first. Takes no memory.
    pub fn same_ends(&self, asked: &Ends, given: &Ends, types: &TypeTable) -> bool
        requires asked_in { IsEnds types.now (scope_in self.now) asked.now }
        requires given_in { IsEnds types.now (scope_in self.now) given.now }
        ensures { result ≡ (words.same_role asked.now.role given.now.role && (same_type (shown types.now (scope_in self.now) asked.now.left) (shown types.now (scope_in self.now) given.now.left) && same_type (shown types.now (scope_in self.now) asked.now.right) (shown types.now (scope_in self.now) given.now.right))) }
    {
        let same = self.same(asked.left, given.left, types)
            && self.same(asked.right, given.right, types);
        same_role(asked.role, given.role) && same
    }
}
