//! Answers with words, behind the binders of an environment.
ghost use Rattle.std.specs.Prelude.{◌≡◌, List, length, Ok, IfOk};
ghost use Rattle.fc_syntax.specs.Tree as trees;
ghost use Rattle.fc_syntax.specs.View.{ty_of};
ghost use Rattle.fc_model.specs.NamelessView.{nbinders_of};
ghost use Rattle.fc_model.specs.Resolution.{no_locals};
ghost use Rattle.fc_scope.specs.ScopeWords.{with_binders};
ghost use Rattle.fc_type_names.specs.Meant.{AreSeen, meant};
ghost use Rattle.fc_type_scope.specs.EndViews.{IsEnds};
ghost use Rattle.fc_type_table.specs.TypeTables.{IsNumber, IsType, shown};
ghost use Rattle.fc_typing.specs.Behind.{context_behind, forms_of_binders, locals_behind};
ghost use Rattle.fc_typing.specs.Environments.{binders_known, top_known};
ghost use Rattle.fc_typing.specs.Wording.{own_of, types_of};

use crate::environment::TypeEnv;
use fc_resolve_parts::Entered;
use fc_scope::{Binders, Scope};
use fc_syntax::{Memory, Role, Text, Ty};
use fc_type_names::named_type;
use fc_type_scope::Ends as Proven;
use fc_type_table::{TypeId, TypeTable};
use std::alloc::Global;

/// The most pieces that a type may have that is answered. A type in a table may have more than there is memory for.
pub(crate) const MOST: u32 = 1_500_000;

/// What a coercion proves: that two types are equal at a role.
#[derive(Drop)]
pub struct Ends {
    /// The role.
    pub role: Role,
    /// What it goes from.
    pub left: Ty,
    /// What it goes to.
    pub right: Ty,
}

/// The words that name types behind binders.
#[derive(Clone, Copy)]
pub(crate) struct Words<'o, 'n> {
    /// The own module.
    pub own: &'o Text,
    /// The words of the binders.
    pub names: &'n Binders,
}

/// The words that name types in an environment whose binders were entered so.
pub(crate) fn words_of<'o, 'n>(env: &'o TypeEnv, entered: &'n Entered) -> Words<'o, 'n>
    requires form { forms_of_binders (top_known env.now) (binders_known env.now) ≡ Ok (nbinders_of entered.now.binders) }
    requires names { with_binders entered.now.names no_locals ≡ locals_behind (binders_known env.now) }
    ensures own { own_of result ≡ (top_known env.now).own }
    ensures types { types_of result ≡ (locals_behind (binders_known env.now)).types }
    ensures seen { AreSeen (types_of result) }
    ensures count { length (context_behind (nbinders_of entered.now.binders)).kinds ≡ length (types_of result) }
{
    Words {
        own: &env.own.own,
        names: &entered.names,
    }
}

impl<'o, 'n> Words<'o, 'n> {
    /// A type of a table.
    #[tactic(auto, unfolding(crate::specs::Wording::types_of))]
    pub fn named(self, alloc: Global, id: TypeId, types: &TypeTable) -> Result<Ty, Memory>
        requires number { IsNumber types.now id }
        requires seen { AreSeen (types_of self) }
        ensures { (ks : List trees.Kind) → length ks ≡ length (types_of self.entry) → IsType types.now ks id → IfOk result (λ t. meant (own_of self.entry) (types_of self.entry) (ty_of t) ≡ Ok (shown types.now ks id)) }
    {
        let around = Scope::End;
        let scope = Scope::Binders(self.names, &around);
        named_type(
            alloc,
            id,
            types,
            self.own,
            &scope,
            self.names.types.len(),
            MOST,
        )
    }

    /// What a coercion proves.
    pub fn named_ends(self, alloc: Global, found: Proven, types: &TypeTable) -> Result<Ends, Memory>
        requires left { IsNumber types.now found.left }
        requires right { IsNumber types.now found.right }
        requires seen { AreSeen (types_of self) }
        ensures role { IfOk result (λ e. e.role ≡ found.role) }
        ensures left { (ks : List trees.Kind) → length ks ≡ length (types_of self.entry) → IsEnds types.now ks found → IfOk result (λ e. meant (own_of self.entry) (types_of self.entry) (ty_of e.left) ≡ Ok (shown types.now ks found.left)) }
        ensures right { (ks : List trees.Kind) → length ks ≡ length (types_of self.entry) → IsEnds types.now ks found → IfOk result (λ e. meant (own_of self.entry) (types_of self.entry) (ty_of e.right) ≡ Ok (shown types.now ks found.right)) }
    {
        let left = self.named(alloc, found.left, types)?;
        let right = self.named(alloc, found.right, types)?;
        Ok(Ends {
            role: found.role,
            left,
            right,
        })
    }
}
