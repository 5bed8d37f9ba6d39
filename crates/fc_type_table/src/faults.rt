//! Why types have no kind.
ghost use Rattle.std.specs.Prelude.{◌≡◌, ◌<◌, List, length, None, IfOk, IfSome};
ghost use Rattle.std.specs.Option.{option_map};
ghost use Rattle.fc_syntax.specs.Tree as trees;
ghost use Rattle.fc_model.specs.Faulting.{under};
ghost use Rattle.fc_model.specs.Kinding as words;
ghost use Rattle.fc_model.specs.Kinding.{name_kind};
ghost use Rattle.fc_model.specs.Says.{Refuses, Says};
ghost use Rattle.fc_model.specs.Typing.{answered};
ghost use Rattle.fc_type_table.specs.Names.{name_of};
ghost use Rattle.fc_type_table.specs.Nodes.{IsKindAt, kind_at, tree_at};
ghost use Rattle.fc_type_table.specs.TreeFaults.{behind_ends, kind_or_fault_in};
ghost use Rattle.fc_type_table.specs.Trees.{LApp, LCoForall, LForall, LFun};
ghost use Rattle.fc_type_table.specs.TypeTables.{IsKindId, IsNumber, IsType, kind_shown, modules_in, nodes_of, shown};

use crate::node::{NameKey, Piece, TypeId};
use crate::table::TypeTable;
use fc_model::{Flawed, deeper, flaw_here};
use fc_syntax::{FaultKind, NDecl, Role};
use std::alloc::Global;

impl TypeTable<'_> {
    /// The kind that was told of a type as the head of so many arguments, where it has one.
    #[tactic(auto, using(crate::proofs::KindsShown::head_rules))]
    fn kind_as_head(&self, id: TypeId, args: u32) -> Option<TypeId>
        requires { id.0 < length (nodes_of self.now) }
        ensures is_kind { IfSome result (λ k. IsKindAt (nodes_of self.now) k.0) }
        ensures view { option_map (λ k. kind_at (nodes_of self.now) k.0) result ≡ answered (kind_or_fault_in (modules_in self.now) args (tree_at (nodes_of self.now) id.0)) }
    {
        let judged = self.judged(id);
        if judged.needed <= args {
            judged.kind
        } else {
            None
        }
    }

    /// The kind of a type as the head of so many arguments, or its first fault.
    #[cycle(faults)]
    fn head_kind(&self, alloc: Global, id: TypeId, args: u32) -> Result<TypeId, Flawed>
        requires { id.0 < length (nodes_of self.now) }
        ensures is_kind { IfOk result (λ k. IsKindAt (nodes_of self.now) k.0) }
        ensures says { Says (λ k. kind_at (nodes_of self.now) k.0) result (kind_or_fault_in (modules_in self.now) args (tree_at (nodes_of self.now) id.0)) }
    {
        match self.kind_as_head(id, args) {
            Some(kind) => Ok(kind),
            None => Err(self.fault(alloc, id, args)),
        }
    }

    /// The same of a part, whose place is told from the piece whose part it is.
    #[cycle(faults)]
    fn part_kind(&self, alloc: Global, id: TypeId, args: u32, part: u32) -> Result<TypeId, Flawed>
        requires { id.0 < length (nodes_of self.now) }
        ensures is_kind { IfOk result (λ k. IsKindAt (nodes_of self.now) k.0) }
        ensures says { Says (λ k. kind_at (nodes_of self.now) k.0) result (under part (kind_or_fault_in (modules_in self.now) args (tree_at (nodes_of self.now) id.0))) }
    {
        match self.head_kind(alloc, id, args) {
            Ok(kind) => Ok(kind),
            Err(flawed) => Err(deeper(flawed, part)),
        }
    }

    /// Why a name has no kind as the head of so many arguments: nothing declares it, or it is a family with more parameters.
    #[tactic(auto, using(fc_syntax::proofs::View::view_rules))]
    fn name_fault(&self, alloc: Global, name: &NameKey, args: u32) -> Flawed
        requires { answered (name_kind (modules_in self.now) (name_of name.now) args) ≡ None }
        ensures { Refuses result (name_kind (modules_in self.now) (name_of name.now) args) }
    {
        match self.declared(name) {
            None => flaw_here(alloc, FaultKind::Unbound),
            Some(decl) => match decl {
                NDecl::DataType(_, _, _) => flaw_here(alloc, FaultKind::Unbound),
                NDecl::NewType(_, _, _, _) => flaw_here(alloc, FaultKind::Unbound),
                NDecl::Family(_, _, _) => flaw_here(alloc, FaultKind::FamilyArity),
                NDecl::Axiom(_, _, _, _) => flaw_here(alloc, FaultKind::Unbound),
                NDecl::Def(_, _, _) => flaw_here(alloc, FaultKind::Unbound),
                NDecl::Wrap(_, _, _) => flaw_here(alloc, FaultKind::Unbound),
            },
        }
    }

    /// Why a type that is applied to another has no kind as the head of so many arguments.
    #[cycle(faults)]
    fn application_fault(&self, alloc: Global, head: TypeId, argument: TypeId, args: u32) -> Flawed
        requires head_in { head.0 < length (nodes_of self.now) }
        requires argument_in { argument.0 < length (nodes_of self.now) }
        requires none { answered (kind_or_fault_in (modules_in self.now) args (LApp (tree_at (nodes_of self.now) head.0) (tree_at (nodes_of self.now) argument.0))) ≡ None }
        ensures { Refuses result (kind_or_fault_in (modules_in self.now) args (LApp (tree_at (nodes_of self.now) head.0) (tree_at (nodes_of self.now) argument.0))) }
    {
        let Some(more) = args.checked_add(1) else {
            return Flawed::Memory;
        };
        match self.part_kind(alloc, head, more, 0) {
            Err(flawed) => flawed,
            Ok(_) => match self.part_kind(alloc, argument, 0, 1) {
                Err(flawed) => flawed,
                Ok(_) => flaw_here(alloc, FaultKind::KindMismatch),
            },
        }
    }

    /// Why functions from one type to another have no kind.
    #[cycle(faults)]
    fn function_fault(&self, alloc: Global, from: TypeId, to: TypeId, args: u32) -> Flawed
        requires from_in { from.0 < length (nodes_of self.now) }
        requires to_in { to.0 < length (nodes_of self.now) }
        requires none { answered (kind_or_fault_in (modules_in self.now) args (LFun (tree_at (nodes_of self.now) from.0) (tree_at (nodes_of self.now) to.0))) ≡ None }
        ensures { Refuses result (kind_or_fault_in (modules_in self.now) args (LFun (tree_at (nodes_of self.now) from.0) (tree_at (nodes_of self.now) to.0))) }
    {
        match self.part_kind(alloc, from, 0, 0) {
            Err(flawed) => flawed,
            Ok(_) => match self.part_kind(alloc, to, 0, 1) {
                Err(flawed) => flawed,
                Ok(_) => flaw_here(alloc, FaultKind::NotAType),
            },
        }
    }

    /// Why a `forall` has no kind.
    #[cycle(faults)]
    fn forall_fault(&self, alloc: Global, variable: TypeId, body: TypeId, args: u32) -> Flawed
        requires variable_in { variable.0 < length (nodes_of self.now) }
        requires body_in { body.0 < length (nodes_of self.now) }
        requires none { answered (kind_or_fault_in (modules_in self.now) args (LForall (tree_at (nodes_of self.now) variable.0) (tree_at (nodes_of self.now) body.0))) ≡ None }
        ensures { Refuses result (kind_or_fault_in (modules_in self.now) args (LForall (tree_at (nodes_of self.now) variable.0) (tree_at (nodes_of self.now) body.0))) }
    {
        match self.part_kind(alloc, body, 0, 0) {
            Err(flawed) => flawed,
            Ok(_) => {
                if self.judged(variable).lifted {
                    flaw_here(alloc, FaultKind::NotAType)
                } else {
                    flaw_here(alloc, FaultKind::UnliftedVariable)
                }
            }
        }
    }

    /// Why a type that takes a coercion between two types has no kind, where both have one.
    #[cycle(faults)]
    fn body_fault(&self, alloc: Global, left: TypeId, right: TypeId, body: TypeId) -> Flawed
        requires left_in { IsKindId self.now left }
        requires right_in { IsKindId self.now right }
        requires body_in { body.0 < length (nodes_of self.now) }
        requires none { answered (behind_ends (kind_shown self.now left) (kind_shown self.now right) (kind_or_fault_in (modules_in self.now) 0 (tree_at (nodes_of self.now) body.0))) ≡ None }
        ensures { Refuses result (behind_ends (kind_shown self.now left) (kind_shown self.now right) (kind_or_fault_in (modules_in self.now) 0 (tree_at (nodes_of self.now) body.0))) }
    {
        match self.part_kind(alloc, body, 0, 2) {
            Err(flawed) => flawed,
            Ok(_) => {
                if self.same_kind(left, right) {
                    flaw_here(alloc, FaultKind::NotAType)
                } else {
                    flaw_here(alloc, FaultKind::KindsDiffer)
                }
            }
        }
    }

    /// Why a type that takes a coercion has no kind.
    #[cycle(faults)]
    fn coforall_fault(
        &self,
        alloc: Global,
        role: Role,
        ends: (TypeId, TypeId),
        body: TypeId,
        args: u32,
    ) -> Flawed
        requires left_in { ends.0.0 < length (nodes_of self.now) }
        requires right_in { ends.1.0 < length (nodes_of self.now) }
        requires body_in { body.0 < length (nodes_of self.now) }
        requires none { answered (kind_or_fault_in (modules_in self.now) args (LCoForall role (tree_at (nodes_of self.now) ends.0.0) (tree_at (nodes_of self.now) ends.1.0) (tree_at (nodes_of self.now) body.0))) ≡ None }
        ensures { Refuses result (kind_or_fault_in (modules_in self.now) args (LCoForall role (tree_at (nodes_of self.now) ends.0.0) (tree_at (nodes_of self.now) ends.1.0) (tree_at (nodes_of self.now) body.0))) }
    {
        let (left, right) = ends;
        match self.part_kind(alloc, left, 0, 0) {
            Err(flawed) => flawed,
            Ok(left) => match self.part_kind(alloc, right, 0, 1) {
                Err(flawed) => flawed,
                Ok(right) => self.body_fault(alloc, left, right, body),
            },
        }
    }

    /// Why a type has no kind as the head of so many arguments: the first premise that fails, the parts from left to right before the piece itself.
    #[cycle(faults)]
    fn fault(&self, alloc: Global, id: TypeId, args: u32) -> Flawed
        requires id_in { id.0 < length (nodes_of self.now) }
        requires none { answered (kind_or_fault_in (modules_in self.now) args (tree_at (nodes_of self.now) id.0)) ≡ None }
        ensures { Refuses result (kind_or_fault_in (modules_in self.now) args (tree_at (nodes_of self.now) id.0)) }
    {
        match *self.piece(id) {
            Piece::Star => flaw_here(alloc, FaultKind::Unbound),
            Piece::Hash => flaw_here(alloc, FaultKind::Unbound),
            Piece::Arrow(_, _) => flaw_here(alloc, FaultKind::Unbound),
            Piece::Bound(_, _) => flaw_here(alloc, FaultKind::Unbound),
            Piece::Free(_, _) => flaw_here(alloc, FaultKind::Unbound),
            Piece::Con(ref name) => self.name_fault(alloc, name, args),
            Piece::IntHash => flaw_here(alloc, FaultKind::Unbound),
            Piece::App(head, argument) => self.application_fault(alloc, head, argument, args),
            Piece::Fun(from, to) => self.function_fault(alloc, from, to, args),
            Piece::Forall(variable, body) => self.forall_fault(alloc, variable, body, args),
            Piece::CoForall(role, left, right, body) => {
                self.coforall_fault(alloc, role, (left, right), body, args)
            }
        }
    }

    /// The kind of a type, or the first premise that fails: the parts from left to right, before the premises of the piece itself. The faults are
    /// `Unbound` for a name without a declaration, `FamilyArity` for a family with fewer arguments than parameters, `KindMismatch` for an
    /// application, `UnliftedVariable` and `NotAType` for a forall, `KindsDiffer` and `NotAType` for a type that takes a coercion, and `NotAType` for
    /// functions from or to a type that is not of the kinds of values; each with the part numbers to the piece. Takes no time that grows with
    /// the type where there is no fault, and else one step for each level above it.
    pub fn kind_or_fault(&self, alloc: Global, id: TypeId) -> Result<TypeId, Flawed>
        requires { IsNumber self.now id }
        ensures valid { IfOk result (λ k. IsKindId self.now k) }
        ensures says { (ks : List trees.Kind) → IsType self.now ks id → Says (λ k. kind_shown self.now k) result (words.kind_or_fault (modules_in self.now) ks (shown self.now ks id)) }
    {
        self.head_kind(alloc, id, 0)
    }
}
