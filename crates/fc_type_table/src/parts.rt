//! What a type in a table is.
ghost use Rattle.std.specs.Prelude.{◌≡◌, List, ◌++◌, length, Bool, true, false, IfSome};
ghost use Rattle.std.specs.Option.{option_and_then, option_map};
ghost use Rattle.fc_syntax.specs.Tree as trees;
ghost use Rattle.fc_model.specs.Nameless as types;
ghost use Rattle.fc_model.specs.Kinding.{same_type};
ghost use Rattle.fc_model.specs.Calling.{is_int, is_unlifted};
ghost use Rattle.fc_model.specs.NamelessView.{ndecl_of};
ghost use Rattle.fc_model.specs.Calling.{application_ends, coercion_asked, declared_name, forall_kind, function_ends};
ghost use Rattle.fc_type_table.specs.TypeTables.{IsKindId, IsNumber, IsType, declaration_in, kind_shown, modules_in, past, shown};

use crate::node::{Piece, TypeId};
use crate::table::TypeTable;
use fc_syntax::{NDecl, Role};

impl TypeTable<'_> {
    /// Whether two types are the same. Takes no memory, and no time that grows with the types.
    pub fn same(&self, left: TypeId, right: TypeId) -> bool
        ensures { (ks : List trees.Kind) → IsType self.now ks left → IsType self.now ks right → result ≡ same_type (shown self.now ks left) (shown self.now ks right) }
    {
        left == right
    }

    /// Whether a type is `Int#`. Takes no memory.
    #[tactic(auto, unfolding(crate::specs::Scopes::shown_at, crate::specs::Scopes::indexed))]
    pub fn is_int_hash(&self, id: TypeId) -> bool
        requires { IsNumber self.now id }
        ensures { (ks : List trees.Kind) → result ≡ is_int (shown self.now ks id) }
    {
        match *self.piece(id) {
            Piece::Star => false,
            Piece::Hash => false,
            Piece::Arrow(_, _) => false,
            Piece::Bound(_, _) => false,
            Piece::Free(_, _) => false,
            Piece::Con(_) => false,
            Piece::IntHash => true,
            Piece::App(_, _) => false,
            Piece::Fun(_, _) => false,
            Piece::Forall(_, _) => false,
            Piece::CoForall(_, _, _, _) => false,
        }
    }

    /// Whether a type is unlifted: its values are there at once. Takes no memory.
    #[tactic(auto, unfolding(crate::specs::Scopes::shown_at, crate::specs::Scopes::indexed))]
    pub fn is_unlifted(&self, id: TypeId) -> bool
        requires { IsNumber self.now id }
        ensures { (ks : List trees.Kind) → result ≡ is_unlifted (shown self.now ks id) }
    {
        match *self.piece(id) {
            Piece::Star => false,
            Piece::Hash => false,
            Piece::Arrow(_, _) => false,
            Piece::Bound(_, _) => false,
            Piece::Free(_, _) => false,
            Piece::Con(_) => false,
            Piece::IntHash => true,
            Piece::App(_, _) => false,
            Piece::Fun(_, _) => false,
            Piece::Forall(_, _) => false,
            Piece::CoForall(_, _, _, _) => false,
        }
    }

    /// Where a function goes from and to, if the type is one of functions. Takes no memory.
    #[tactic(auto, unfolding(crate::specs::Scopes::shown_at, crate::specs::Scopes::indexed))]
    pub fn function_parts(&self, id: TypeId) -> Option<(TypeId, TypeId)>
        requires { IsNumber self.now id }
        ensures numbers { IfSome result (λ ends. IsNumber self.now ends.0 × IsNumber self.now ends.1) }
        ensures valid { IfSome result (λ ends. (ks : List trees.Kind) → IsType self.now ks id → IsType self.now ks ends.0 × IsType self.now ks ends.1) }
        ensures view { (ks : List trees.Kind) → option_map (λ ends. (shown self.now ks ends.0, shown self.now ks ends.1)) result ≡ function_ends (shown self.now ks id) }
    {
        match *self.piece(id) {
            Piece::Star => None,
            Piece::Hash => None,
            Piece::Arrow(_, _) => None,
            Piece::Bound(_, _) => None,
            Piece::Free(_, _) => None,
            Piece::Con(_) => None,
            Piece::IntHash => None,
            Piece::App(_, _) => None,
            Piece::Fun(from, to) => Some((from, to)),
            Piece::Forall(_, _) => None,
            Piece::CoForall(_, _, _, _) => None,
        }
    }

    /// The head of an application and what it is applied to, if the type is one. Takes no memory.
    #[tactic(auto, unfolding(crate::specs::Scopes::shown_at, crate::specs::Scopes::indexed))]
    pub fn application_parts(&self, id: TypeId) -> Option<(TypeId, TypeId)>
        requires { IsNumber self.now id }
        ensures numbers { IfSome result (λ ends. IsNumber self.now ends.0 × IsNumber self.now ends.1) }
        ensures valid { IfSome result (λ ends. (ks : List trees.Kind) → IsType self.now ks id → IsType self.now ks ends.0 × IsType self.now ks ends.1) }
        ensures view { (ks : List trees.Kind) → option_map (λ ends. (shown self.now ks ends.0, shown self.now ks ends.1)) result ≡ application_ends (shown self.now ks id) }
    {
        match *self.piece(id) {
            Piece::Star => None,
            Piece::Hash => None,
            Piece::Arrow(_, _) => None,
            Piece::Bound(_, _) => None,
            Piece::Free(_, _) => None,
            Piece::Con(_) => None,
            Piece::IntHash => None,
            Piece::App(head, argument) => Some((head, argument)),
            Piece::Fun(_, _) => None,
            Piece::Forall(_, _) => None,
            Piece::CoForall(_, _, _, _) => None,
        }
    }

    /// The kind of the variable that a `forall` binds, if the type is one. Takes no memory.
    #[tactic(auto, unfolding(crate::specs::Scopes::shown_at, crate::specs::Scopes::indexed, crate::specs::Nodes::kind_at))]
    pub fn forall_kind(&self, id: TypeId) -> Option<TypeId>
        requires { IsNumber self.now id }
        ensures number { IfSome result (λ k. IsNumber self.now k) }
        ensures valid { (ks : List trees.Kind) → IsType self.now ks id → IfSome result (λ k. IsKindId self.now k) }
        ensures view { (ks : List trees.Kind) → option_map (λ k. kind_shown self.now k) result ≡ forall_kind (shown self.now ks id) }
    {
        match *self.piece(id) {
            Piece::Star => None,
            Piece::Hash => None,
            Piece::Arrow(_, _) => None,
            Piece::Bound(_, _) => None,
            Piece::Free(_, _) => None,
            Piece::Con(_) => None,
            Piece::IntHash => None,
            Piece::App(_, _) => None,
            Piece::Fun(_, _) => None,
            Piece::Forall(kind, _) => Some(kind),
            Piece::CoForall(_, _, _, _) => None,
        }
    }

    /// What takes a coercion: the role and the ends that it asks, and the type behind it, if the type is one. Takes no memory.
    #[tactic(auto, unfolding(crate::specs::Scopes::shown_at, crate::specs::Scopes::indexed))]
    pub fn coercion_asked(&self, id: TypeId) -> Option<(Role, TypeId, TypeId, TypeId)>
        requires { IsNumber self.now id }
        ensures numbers { IfSome result (λ p. IsNumber self.now p.1 × IsNumber self.now p.2 × IsNumber self.now p.3) }
        ensures valid { IfSome result (λ p. (ks : List trees.Kind) → IsType self.now ks id → IsType self.now ks p.1 × IsType self.now ks p.2 × IsType self.now ks p.3) }
        ensures view { (ks : List trees.Kind) → option_map (λ p. (p.0, shown self.now ks p.1, shown self.now ks p.2, shown self.now ks p.3)) result ≡ coercion_asked (shown self.now ks id) }
    {
        match *self.piece(id) {
            Piece::Star => None,
            Piece::Hash => None,
            Piece::Arrow(_, _) => None,
            Piece::Bound(_, _) => None,
            Piece::Free(_, _) => None,
            Piece::Con(_) => None,
            Piece::IntHash => None,
            Piece::App(_, _) => None,
            Piece::Fun(_, _) => None,
            Piece::Forall(_, _) => None,
            Piece::CoForall(role, left, right, body) => Some((role, left, right, body)),
        }
    }

    /// The declaration of a data type, newtype or family, if the type is the name of one. Takes no memory.
    #[tactic(auto, unfolding(crate::specs::Scopes::shown_at, crate::specs::Scopes::indexed))]
    pub fn declaration(&self, id: TypeId) -> Option<&NDecl>
        requires { IsNumber self.now id }
        ensures { (ks : List trees.Kind) → option_map (λ d. ndecl_of d.now) result ≡ option_and_then (declaration_in (modules_in self.now)) (declared_name (shown self.now ks id)) }
    {
        match *self.piece(id) {
            Piece::Star => None,
            Piece::Hash => None,
            Piece::Arrow(_, _) => None,
            Piece::Bound(_, _) => None,
            Piece::Free(_, _) => None,
            Piece::Con(ref name) => self.declared(name),
            Piece::IntHash => None,
            Piece::App(_, _) => None,
            Piece::Fun(_, _) => None,
            Piece::Forall(_, _) => None,
            Piece::CoForall(_, _, _, _) => None,
        }
    }

    /// Whether a type mentions a variable of the context that has so many outside it, or one further in. Takes no memory, and no time
    /// that grows with the type.
    pub fn mentions_from(&self, id: TypeId, level: u32) -> bool
        requires { IsNumber self.now id }
        ensures kept { result ≡ false → (bs ks : List trees.Kind) → length ks ≡ level → IsType self.now (bs ++ ks) id → IsType self.now ks id }
        ensures same { result ≡ false → (bs ks : List trees.Kind) → length ks ≡ level → IsType self.now (bs ++ ks) id → shown self.now (bs ++ ks) id ≡ past (length bs) (shown self.now ks id) }
        ensures mentions { result ≡ true → (bs ks : List trees.Kind) → length ks ≡ level → IsType self.now (bs ++ ks) id → (t : types.NTy) → shown self.now (bs ++ ks) id ≡ past (length bs) t → ⊥ }
    {
        self.measure(id).levels > level
    }
}
