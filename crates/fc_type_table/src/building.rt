//! Types built from parts in the table.
ghost use Rattle.std.specs.Prelude.{◌≡◌, List, ◌∷◌, length, IfOk, OnOk};
ghost use Rattle.std.specs.Option.{option_map};
ghost use Rattle.fc_syntax.specs.Tree as trees;
ghost use Rattle.fc_syntax.specs.View.{kind_of};
ghost use Rattle.fc_model.specs.Nameless.{NTApp, NTCoForall, NTCon, NTFun, NTInt, NTVar};
ghost use Rattle.fc_type_table.specs.Names.{name_from};
ghost use Rattle.fc_type_table.specs.TypeTables.{Grows, IsNumber, IsType, shown};

use crate::node::{NameKey, Piece, TypeId};
use crate::table::TypeTable;
use fc_syntax::{Kind, Memory, Role, Text};

impl TypeTable<'_> {
    /// The type `Int#`.
    #[tactic(auto, unfolding(crate::specs::Scopes::shown_at, crate::specs::Scopes::indexed))]
    pub fn int_hash(&mut self) -> Result<TypeId, Memory>
        ensures number { IfOk result (λ id. IsNumber self.new id) }
        ensures valid { IfOk result (λ id. (ks : List trees.Kind) → IsType self.new ks id) }
        ensures view { IfOk result (λ id. (ks : List trees.Kind) → shown self.new ks id ≡ NTInt) }
        ensures grows { OnOk result (Grows self.old self.new) }
    {
        self.intern(Piece::IntHash)
    }

    /// A data type, newtype or family by its name: the module before the dot, if there is one, and the word itself.
    #[tactic(auto, unfolding(crate::specs::Scopes::shown_at, crate::specs::Scopes::indexed))]
    pub fn constructor(&mut self, qualifier: Option<&Text>, text: &Text) -> Result<TypeId, Memory>
        ensures number { IfOk result (λ id. IsNumber self.new id) }
        ensures valid { IfOk result (λ id. (ks : List trees.Kind) → IsType self.new ks id) }
        ensures view { IfOk result (λ id. (ks : List trees.Kind) → shown self.new ks id ≡ NTCon (name_from (option_map (λ w. w.now) qualifier.entry) text.now)) }
        ensures grows { OnOk result (Grows self.old self.new) }
    {
        let key = NameKey::new(qualifier, text)?;
        self.name(key)
    }

    /// The innermost variable, of this kind, of a context with so many type variables outside it.
    #[tactic(auto, unfolding(crate::specs::Scopes::shown_at, crate::specs::Scopes::indexed))]
    pub fn innermost(&mut self, kind: &Kind, variables: u32) -> Result<TypeId, Memory>
        ensures number { IfOk result (λ id. IsNumber self.new id) }
        ensures valid { IfOk result (λ id. (ks : List trees.Kind) → length ks ≡ variables → IsType self.new (kind_of kind.now ∷ ks) id) }
        ensures view { IfOk result (λ id. (ks : List trees.Kind) → length ks ≡ variables → shown self.new (kind_of kind.now ∷ ks) id ≡ NTVar 0) }
        ensures grows { OnOk result (Grows self.old self.new) }
    {
        let kind = self.put_kind(kind, 0)?;
        self.intern(Piece::Free(variables, kind))
    }

    /// A type applied to one type.
    #[tactic(auto, unfolding(crate::specs::Scopes::shown_at, crate::specs::Scopes::indexed))]
    pub fn application(&mut self, head: TypeId, argument: TypeId) -> Result<TypeId, Memory>
        requires head_in { IsNumber self.old head }
        requires argument_in { IsNumber self.old argument }
        ensures number { IfOk result (λ id. IsNumber self.new id) }
        ensures valid { IfOk result (λ id. (ks : List trees.Kind) → IsType self.old ks head → IsType self.old ks argument → IsType self.new ks id) }
        ensures view { IfOk result (λ id. (ks : List trees.Kind) → shown self.new ks id ≡ NTApp (shown self.old ks head) (shown self.old ks argument)) }
        ensures grows { OnOk result (Grows self.old self.new) }
    {
        self.intern(Piece::App(head, argument))
    }

    /// The type of functions between two types.
    #[tactic(auto, unfolding(crate::specs::Scopes::shown_at, crate::specs::Scopes::indexed))]
    pub fn function(&mut self, from: TypeId, to: TypeId) -> Result<TypeId, Memory>
        requires from_in { IsNumber self.old from }
        requires to_in { IsNumber self.old to }
        ensures number { IfOk result (λ id. IsNumber self.new id) }
        ensures valid { IfOk result (λ id. (ks : List trees.Kind) → IsType self.old ks from → IsType self.old ks to → IsType self.new ks id) }
        ensures view { IfOk result (λ id. (ks : List trees.Kind) → shown self.new ks id ≡ NTFun (shown self.old ks from) (shown self.old ks to)) }
        ensures grows { OnOk result (Grows self.old self.new) }
    {
        self.intern(Piece::Fun(from, to))
    }

    /// The type of what takes a coercion between two types.
    #[tactic(auto, unfolding(crate::specs::Scopes::shown_at, crate::specs::Scopes::indexed))]
    pub fn coforall(
        &mut self,
        role: Role,
        left: TypeId,
        right: TypeId,
        body: TypeId,
    ) -> Result<TypeId, Memory>
        requires left_in { IsNumber self.old left }
        requires right_in { IsNumber self.old right }
        requires body_in { IsNumber self.old body }
        ensures number { IfOk result (λ id. IsNumber self.new id) }
        ensures valid { IfOk result (λ id. (ks : List trees.Kind) → IsType self.old ks left → IsType self.old ks right → IsType self.old ks body → IsType self.new ks id) }
        ensures view { IfOk result (λ id. (ks : List trees.Kind) → shown self.new ks id ≡ NTCoForall role (shown self.old ks left) (shown self.old ks right) (shown self.old ks body)) }
        ensures grows { OnOk result (Grows self.old self.new) }
    {
        self.intern(Piece::CoForall(role, left, right, body))
    }
}
