//! The kinds of types, told when they are made.
ghost use Rattle.std.specs.Prelude.{◌≡◌, ◌<◌, ◌≤◌, length, Some, IfOk, IfSome, OnOk};
ghost use Rattle.std.specs.Option.{option_map};
ghost use Rattle.fc_syntax.specs.Tree.{KStar};
ghost use Rattle.fc_type_table.specs.Names.{name_of};
ghost use Rattle.fc_type_table.specs.Nodes.{Extends, HasKinds, Judges, parts_end, piece_over, tree_at};
ghost use Rattle.fc_type_table.specs.TreeKinds.{kind_of_application, kind_of_coforall, kind_of_forall, kind_of_function};
ghost use Rattle.fc_type_table.specs.Trees.{LApp, LCoForall, LCon, LForall, LFun, LInt};
ghost use Rattle.fc_type_table.specs.TypeTables.{IsKindId, IsNumber, kind_shown, modules_in, nodes_of};

use crate::node::{Judged, NameKey, Piece, TypeId};
use crate::table::TypeTable;
use fc_syntax::{Memory, Role};

impl TypeTable<'_> {
    /// The kind of a head of a kind that is applied to a type of a kind.
    #[tactic(auto, unfolding(crate::specs::Nodes::kind_at))]
    fn kind_applied(&self, head: TypeId, argument: TypeId) -> Option<TypeId>
        requires head { IsKindId self.now head }
        requires argument { IsKindId self.now argument }
        ensures is_kind { IfSome result (λ k. IsKindId self.now k) }
        ensures view { option_map (λ k. kind_shown self.now k) result ≡ kind_of_application (Some (kind_shown self.now head)) (Some (kind_shown self.now argument)) }
    {
        match *self.piece(head) {
            Piece::Star => None,
            Piece::Hash => None,
            Piece::Arrow(from, to) => {
                if self.same_kind(from, argument) {
                    Some(to)
                } else {
                    None
                }
            }
            Piece::Bound(_, _) => None,
            Piece::Free(_, _) => None,
            Piece::Con(_) => None,
            Piece::IntHash => None,
            Piece::App(_, _) => None,
            Piece::Fun(_, _) => None,
            Piece::Forall(_, _) => None,
            Piece::CoForall(_, _, _, _) => None,
        }
    }

    /// The kind of an application, from those of its head and of what that is applied to.
    fn kind_of_application(&self, head: Option<TypeId>, argument: Option<TypeId>) -> Option<TypeId>
        requires head { IfSome head (λ k. IsKindId self.now k) }
        requires argument { IfSome argument (λ k. IsKindId self.now k) }
        ensures is_kind { IfSome result (λ k. IsKindId self.now k) }
        ensures view { option_map (λ k. kind_shown self.now k) result ≡ kind_of_application (option_map (λ k. kind_shown self.now k) head) (option_map (λ k. kind_shown self.now k) argument) }
    {
        match head {
            None => None,
            Some(head) => match argument {
                None => None,
                Some(argument) => self.kind_applied(head, argument),
            },
        }
    }

    /// The kind of functions, from those of their ends.
    fn kind_of_function(
        &self,
        from: Option<TypeId>,
        to: Option<TypeId>,
        star: TypeId,
    ) -> Option<TypeId>
        requires from { IfSome from (λ k. IsKindId self.now k) }
        requires to { IfSome to (λ k. IsKindId self.now k) }
        requires star { IsKindId self.now star }
        requires is_star { kind_shown self.now star ≡ KStar }
        ensures is_kind { IfSome result (λ k. IsKindId self.now k) }
        ensures view { option_map (λ k. kind_shown self.now k) result ≡ kind_of_function (option_map (λ k. kind_shown self.now k) from) (option_map (λ k. kind_shown self.now k) to) }
    {
        match from {
            None => None,
            Some(from) => match to {
                None => None,
                Some(to) => {
                    if self.is_value_kind(from) && self.is_value_kind(to) {
                        Some(star)
                    } else {
                        None
                    }
                }
            },
        }
    }

    /// The kind of a `forall`, from whether the kind of its variable is lifted and the kind of its body.
    fn kind_of_forall(&self, lifted: bool, body: Option<TypeId>, star: TypeId) -> Option<TypeId>
        requires body { IfSome body (λ k. IsKindId self.now k) }
        requires star { IsKindId self.now star }
        requires is_star { kind_shown self.now star ≡ KStar }
        ensures is_kind { IfSome result (λ k. IsKindId self.now k) }
        ensures view { option_map (λ k. kind_shown self.now k) result ≡ kind_of_forall lifted (option_map (λ k. kind_shown self.now k) body) }
    {
        match body {
            None => None,
            Some(body) => {
                if lifted && self.is_star(body) {
                    Some(star)
                } else {
                    None
                }
            }
        }
    }

    /// The kind of a type that takes a coercion between types of kinds.
    fn kind_behind(
        &self,
        left: TypeId,
        right: TypeId,
        body: Option<TypeId>,
        star: TypeId,
    ) -> Option<TypeId>
        requires left { IsKindId self.now left }
        requires right { IsKindId self.now right }
        requires body { IfSome body (λ k. IsKindId self.now k) }
        requires star { IsKindId self.now star }
        requires is_star { kind_shown self.now star ≡ KStar }
        ensures is_kind { IfSome result (λ k. IsKindId self.now k) }
        ensures view { option_map (λ k. kind_shown self.now k) result ≡ kind_of_coforall (Some (kind_shown self.now left)) (Some (kind_shown self.now right)) (option_map (λ k. kind_shown self.now k) body) }
    {
        match body {
            None => None,
            Some(body) => {
                if self.same_kind(left, right) && self.is_value_kind(body) {
                    Some(star)
                } else {
                    None
                }
            }
        }
    }

    /// The kind of a type that takes a coercion, from those of the ends and of the body.
    fn kind_of_coforall(
        &self,
        left: Option<TypeId>,
        right: Option<TypeId>,
        body: Option<TypeId>,
        star: TypeId,
    ) -> Option<TypeId>
        requires left { IfSome left (λ k. IsKindId self.now k) }
        requires right { IfSome right (λ k. IsKindId self.now k) }
        requires body { IfSome body (λ k. IsKindId self.now k) }
        requires star { IsKindId self.now star }
        requires is_star { kind_shown self.now star ≡ KStar }
        ensures is_kind { IfSome result (λ k. IsKindId self.now k) }
        ensures view { option_map (λ k. kind_shown self.now k) result ≡ kind_of_coforall (option_map (λ k. kind_shown self.now k) left) (option_map (λ k. kind_shown self.now k) right) (option_map (λ k. kind_shown self.now k) body) }
    {
        match left {
            None => None,
            Some(left) => match right {
                None => None,
                Some(right) => self.kind_behind(left, right, body, star),
            },
        }
    }

    /// What is told of `Int#`.
    #[tactic(auto, using(crate::proofs::KindNumbers::kind_rules))]
    fn judge_int(&mut self) -> Result<Judged, Memory>
        ensures judged { IfOk result (λ j. Judges (modules_in self.new) (nodes_of self.new) LInt j) }
        ensures extends { OnOk result (Extends (nodes_of self.old) (nodes_of self.new)) }
        ensures modules { OnOk result (modules_in self.new ≡ modules_in self.old) }
    {
        let hash = self.hash()?;
        Ok(Judged::whole(Some(hash)))
    }

    /// What is told of an application.
    fn judge_application(&self, head: TypeId, argument: TypeId) -> Judged
        requires head_in { IsNumber self.now head }
        requires argument_in { IsNumber self.now argument }
        ensures { Judges (modules_in self.now) (nodes_of self.now) (LApp (tree_at (nodes_of self.now) head.0) (tree_at (nodes_of self.now) argument.0)) result }
    {
        let judged = self.judged(head);
        let kind = self.kind_of_application(judged.kind, self.told_kind(argument));
        Judged {
            lifted: false,
            needed: judged.needed.saturating_sub(1),
            kind,
        }
    }

    /// What is told of functions.
    #[tactic(auto, using(crate::proofs::KindNumbers::kind_rules))]
    fn judge_function(&mut self, from: TypeId, to: TypeId) -> Result<Judged, Memory>
        requires from_in { IsNumber self.old from }
        requires to_in { IsNumber self.old to }
        ensures judged { IfOk result (λ j. Judges (modules_in self.new) (nodes_of self.new) (LFun (tree_at (nodes_of self.new) from.0) (tree_at (nodes_of self.new) to.0)) j) }
        ensures extends { OnOk result (Extends (nodes_of self.old) (nodes_of self.new)) }
        ensures modules { OnOk result (modules_in self.new ≡ modules_in self.old) }
    {
        let star = self.star()?;
        let kind = self.kind_of_function(self.told_kind(from), self.told_kind(to), star);
        Ok(Judged::whole(kind))
    }

    /// What is told of a `forall`.
    #[tactic(auto, using(crate::proofs::KindNumbers::kind_rules))]
    fn judge_forall(&mut self, variable: TypeId, body: TypeId) -> Result<Judged, Memory>
        requires variable_in { IsNumber self.old variable }
        requires body_in { IsNumber self.old body }
        ensures judged { IfOk result (λ j. Judges (modules_in self.new) (nodes_of self.new) (LForall (tree_at (nodes_of self.new) variable.0) (tree_at (nodes_of self.new) body.0)) j) }
        ensures extends { OnOk result (Extends (nodes_of self.old) (nodes_of self.new)) }
        ensures modules { OnOk result (modules_in self.new ≡ modules_in self.old) }
    {
        let star = self.star()?;
        let lifted = self.judged(variable).lifted;
        let kind = self.kind_of_forall(lifted, self.told_kind(body), star);
        Ok(Judged::whole(kind))
    }

    /// What is told of a type that takes a coercion.
    #[tactic(auto, using(crate::proofs::KindNumbers::kind_rules))]
    fn judge_coforall(
        &mut self,
        role: Role,
        left: TypeId,
        right: TypeId,
        body: TypeId,
    ) -> Result<Judged, Memory>
        requires left_in { IsNumber self.old left }
        requires right_in { IsNumber self.old right }
        requires body_in { IsNumber self.old body }
        ensures judged { IfOk result (λ j. Judges (modules_in self.new) (nodes_of self.new) (LCoForall role (tree_at (nodes_of self.new) left.0) (tree_at (nodes_of self.new) right.0) (tree_at (nodes_of self.new) body.0)) j) }
        ensures extends { OnOk result (Extends (nodes_of self.old) (nodes_of self.new)) }
        ensures modules { OnOk result (modules_in self.new ≡ modules_in self.old) }
    {
        let star = self.star()?;
        let ends = (self.told_kind(left), self.told_kind(right));
        let kind = self.kind_of_coforall(ends.0, ends.1, self.told_kind(body), star);
        Ok(Judged::whole(kind))
    }

    /// What is told of the type of a piece.
    fn judge(&mut self, piece: &Piece) -> Result<Judged, Memory>
        requires parts { parts_end piece.now ≤ length (nodes_of self.old) }
        requires kinds { HasKinds (piece_over (tree_at (nodes_of self.old)) piece.now) }
        ensures judged { IfOk result (λ j. Judges (modules_in self.new) (nodes_of self.new) (piece_over (tree_at (nodes_of self.new)) piece.now) j) }
        ensures extends { OnOk result (Extends (nodes_of self.old) (nodes_of self.new)) }
        ensures modules { OnOk result (modules_in self.new ≡ modules_in self.old) }
    {
        match *piece {
            Piece::Star => Ok(Judged::of_kind(true)),
            Piece::Hash => Ok(Judged::of_kind(false)),
            Piece::Arrow(from, to) => {
                let lifted = self.judged(from).lifted && self.judged(to).lifted;
                Ok(Judged::of_kind(lifted))
            }
            Piece::Bound(_, kind) => Ok(Judged::whole(Some(kind))),
            Piece::Free(_, kind) => Ok(Judged::whole(Some(kind))),
            Piece::Con(ref name) => self.judge_name(name),
            Piece::IntHash => self.judge_int(),
            Piece::App(head, argument) => Ok(self.judge_application(head, argument)),
            Piece::Fun(from, to) => self.judge_function(from, to),
            Piece::Forall(variable, body) => self.judge_forall(variable, body),
            Piece::CoForall(role, left, right, body) => {
                self.judge_coforall(role, left, right, body)
            }
        }
    }

    /// The number of the type of a piece. The types before keep their numbers.
    pub(crate) fn intern(&mut self, piece: Piece) -> Result<TypeId, Memory>
        requires parts { parts_end piece ≤ length (nodes_of self.old) }
        requires kinds { HasKinds (piece_over (tree_at (nodes_of self.old)) piece) }
        ensures within { IfOk result (λ id. id.0 < length (nodes_of self.new)) }
        ensures shown { IfOk result (λ id. tree_at (nodes_of self.new) id.0 ≡ piece_over (tree_at (nodes_of self.old)) piece) }
        ensures extends { OnOk result (Extends (nodes_of self.old) (nodes_of self.new)) }
        ensures modules { OnOk result (modules_in self.new ≡ modules_in self.old) }
    {
        let judged = self.judge(&piece)?;
        self.put(piece, judged)
    }

    /// The number of the type of a name, whose kind is told once.
    pub(crate) fn name(&mut self, name: NameKey) -> Result<TypeId, Memory>
        ensures within { IfOk result (λ id. id.0 < length (nodes_of self.new)) }
        ensures shown { IfOk result (λ id. tree_at (nodes_of self.new) id.0 ≡ LCon (name_of name)) }
        ensures extends { OnOk result (Extends (nodes_of self.old) (nodes_of self.new)) }
        ensures modules { OnOk result (modules_in self.new ≡ modules_in self.old) }
    {
        if let Some(answer) = self.noted_name(&name) {
            return Ok(answer);
        }
        let key = name.copy()?;
        let answer = self.intern(Piece::Con(key))?;
        self.keep_name(name, answer)?;
        Ok(answer)
    }
}
