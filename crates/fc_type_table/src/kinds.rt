//! Kinds in the table, and the kinds of types.
ghost use Rattle.std.specs.Prelude.{◌≡◌, ◌<◌, List, length, IfOk, IfSome, OnOk};
ghost use Rattle.std.specs.Option.{option_map};
ghost use Rattle.fc_syntax.specs.Tree as trees;
ghost use Rattle.fc_syntax.specs.View.{kind_of};
ghost use Rattle.fc_model.specs.Kinding as words;
ghost use Rattle.fc_model.specs.Kinding.{kind_or_fault};
ghost use Rattle.fc_model.specs.Typing.{answered};
ghost use Rattle.fc_type_table.specs.Nodes.{Extends, IsKindAt, kind_at, tree_at};
ghost use Rattle.fc_type_table.specs.TreeKinds.{kind_tree, own_kind};
ghost use Rattle.fc_type_table.specs.Trees.{LArrow, LHash, LStar};
ghost use Rattle.fc_type_table.specs.TypeTables.{Grows, IsKindId, IsNumber, IsType, kind_shown, modules_in, nodes_of, shown};

use crate::node::{DEEPEST, Judged, Piece, TypeId};
use crate::table::TypeTable;
use fc_syntax::{Kind, Memory};

impl TypeTable<'_> {
    /// The kind `*`.
    pub(crate) fn star(&mut self) -> Result<TypeId, Memory>
        ensures within { IfOk result (λ id. id.0 < length (nodes_of self.new)) }
        ensures shown { IfOk result (λ id. tree_at (nodes_of self.new) id.0 ≡ LStar) }
        ensures extends { OnOk result (Extends (nodes_of self.old) (nodes_of self.new)) }
        ensures modules { OnOk result (modules_in self.new ≡ modules_in self.old) }
    {
        self.put(Piece::Star, Judged::of_kind(true))
    }

    /// The kind `#`.
    pub(crate) fn hash(&mut self) -> Result<TypeId, Memory>
        ensures within { IfOk result (λ id. id.0 < length (nodes_of self.new)) }
        ensures shown { IfOk result (λ id. tree_at (nodes_of self.new) id.0 ≡ LHash) }
        ensures extends { OnOk result (Extends (nodes_of self.old) (nodes_of self.new)) }
        ensures modules { OnOk result (modules_in self.new ≡ modules_in self.old) }
    {
        self.put(Piece::Hash, Judged::of_kind(false))
    }

    /// The kind of what goes from a kind to another.
    pub(crate) fn arrow(&mut self, from: TypeId, to: TypeId) -> Result<TypeId, Memory>
        requires from_in { from.0 < length (nodes_of self.old) }
        requires to_in { to.0 < length (nodes_of self.old) }
        ensures within { IfOk result (λ id. id.0 < length (nodes_of self.new)) }
        ensures shown { IfOk result (λ id. tree_at (nodes_of self.new) id.0 ≡ LArrow (tree_at (nodes_of self.old) from.0) (tree_at (nodes_of self.old) to.0)) }
        ensures extends { OnOk result (Extends (nodes_of self.old) (nodes_of self.new)) }
        ensures modules { OnOk result (modules_in self.new ≡ modules_in self.old) }
    {
        let lifted = self.judged(from).lifted && self.judged(to).lifted;
        self.put(Piece::Arrow(from, to), Judged::of_kind(lifted))
    }

    /// The number of a kind, which stands so deep in what is read.
    #[tactic(auto, using(fc_syntax::proofs::View::view_rules))]
    pub(crate) fn put_kind(&mut self, kind: &Kind, nested: u32) -> Result<TypeId, Memory>
        ensures within { IfOk result (λ id. id.0 < length (nodes_of self.new)) }
        ensures shown { IfOk result (λ id. tree_at (nodes_of self.new) id.0 ≡ kind_tree (kind_of kind.now)) }
        ensures extends { OnOk result (Extends (nodes_of self.old) (nodes_of self.new)) }
        ensures modules { OnOk result (modules_in self.new ≡ modules_in self.old) }
    {
        if nested >= DEEPEST {
            return Err(Memory);
        }
        match kind {
            Kind::Star => self.star(),
            Kind::Hash => self.hash(),
            Kind::Arrow(from, to) => {
                let from = self.put_kind(from, nested + 1)?;
                let to = self.put_kind(to, nested + 1)?;
                self.arrow(from, to)
            }
        }
    }

    /// The number of a kind.
    #[tactic(auto, using(crate::proofs::KindNumbers::kind_rules))]
    pub fn read_kind(&mut self, kind: &Kind) -> Result<TypeId, Memory>
        ensures valid { IfOk result (λ id. IsKindId self.new id) }
        ensures view { IfOk result (λ id. kind_shown self.new id ≡ kind_of kind.now) }
        ensures grows { OnOk result (Grows self.old self.new) }
    {
        self.put_kind(kind, 0)
    }

    /// Whether two kinds are the same. Takes no memory, and no time that grows with the kinds.
    pub fn same_kind(&self, left: TypeId, right: TypeId) -> bool
        ensures { IsKindId self.now left → IsKindId self.now right → result ≡ words.same_kind (kind_shown self.now left) (kind_shown self.now right) }
    {
        left == right
    }

    /// Whether a kind is `*`. Takes no memory.
    #[tactic(auto, unfolding(crate::specs::Nodes::kind_at))]
    pub fn is_star(&self, kind: TypeId) -> bool
        requires { IsKindId self.now kind }
        ensures { result ≡ words.is_star (kind_shown self.now kind) }
    {
        match *self.piece(kind) {
            Piece::Star => true,
            Piece::Hash => false,
            Piece::Arrow(_, _) => false,
            Piece::Bound(_, _) => false,
            Piece::Free(_, _) => false,
            Piece::Con(_) => false,
            Piece::IntHash => false,
            Piece::App(_, _) => false,
            Piece::Fun(_, _) => false,
            Piece::Forall(_, _) => false,
            Piece::CoForall(_, _, _, _) => false,
        }
    }

    /// Whether a kind is `*` or `#`, the kinds of the types of values. Takes no memory.
    #[tactic(auto, unfolding(crate::specs::Nodes::kind_at))]
    pub fn is_value_kind(&self, kind: TypeId) -> bool
        requires { IsKindId self.now kind }
        ensures { result ≡ words.is_value_kind (kind_shown self.now kind) }
    {
        match *self.piece(kind) {
            Piece::Star => true,
            Piece::Hash => true,
            Piece::Arrow(_, _) => false,
            Piece::Bound(_, _) => false,
            Piece::Free(_, _) => false,
            Piece::Con(_) => false,
            Piece::IntHash => false,
            Piece::App(_, _) => false,
            Piece::Fun(_, _) => false,
            Piece::Forall(_, _) => false,
            Piece::CoForall(_, _, _, _) => false,
        }
    }

    /// The kind that was told of a type, where it needs no argument.
    pub(crate) fn told_kind(&self, id: TypeId) -> Option<TypeId>
        requires { id.0 < length (nodes_of self.now) }
        ensures is_kind { IfSome result (λ k. IsKindAt (nodes_of self.now) k.0) }
        ensures view { option_map (λ k. kind_at (nodes_of self.now) k.0) result ≡ own_kind (modules_in self.now) (tree_at (nodes_of self.now) id.0) }
    {
        let judged = self.judged(id);
        if judged.needed == 0 {
            judged.kind
        } else {
            None
        }
    }

    /// The kind of a type, where it has one. Takes no memory, and no time that grows with the type.
    pub fn kind(&self, id: TypeId) -> Option<TypeId>
        requires { IsNumber self.now id }
        ensures valid { IfSome result (λ k. IsKindId self.now k) }
        ensures view { (ks : List trees.Kind) → IsType self.now ks id → option_map (λ k. kind_shown self.now k) result ≡ answered (kind_or_fault (modules_in self.now) ks (shown self.now ks id)) }
    {
        self.told_kind(id)
    }
}
