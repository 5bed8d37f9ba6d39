//! Types where type variables are in scope.
ghost use Rattle.std.specs.Prelude.{◌≡◌, [], ◌∷◌, ◌++◌, List, length, IfOk, IfSome, OnOk};
ghost use Rattle.std.specs.Option.{option_map};
ghost use Rattle.fc_syntax.specs.Tree as trees;
ghost use Rattle.fc_syntax.specs.View.{kind_of};
ghost use Rattle.fc_model.specs.Calling as words;
ghost use Rattle.fc_model.specs.Calling.{application_ends, at_type, forall_kind, function_ends, has_kind, is_int};
ghost use Rattle.fc_model.specs.Faulting.{under};
ghost use Rattle.fc_model.specs.Kinding.{kind_or_fault, same_type};
ghost use Rattle.fc_model.specs.Nameless.{NTApp, NTCon, NTForall, NTFun, NTInt, NTVar};
ghost use Rattle.fc_model.specs.NamelessView.{nty_of};
ghost use Rattle.fc_model.specs.Says.{Says};
ghost use Rattle.fc_model.specs.Substituting.{has_innermost};
ghost use Rattle.fc_model.specs.Typing.{is_star_found};
ghost use Rattle.fc_type_scope.specs.Refusals.{OnFlaw};
ghost use Rattle.fc_type_scope.specs.Scopes.{AreTypes, IsScope, scope_in, shown_all};
ghost use Rattle.fc_type_table.specs.Names.{name_from};
ghost use Rattle.fc_type_table.specs.TypeTables.{Grows, IsKindId, IsNumber, IsType, kind_shown, modules_in, shown};

use crate::scoped::{is_scoped, variables};
use fc_model::{Flawed, deeper};
use fc_syntax::{Kind, Memory, NTy, Seq, Text};
use fc_type_table::{NumberedKinds, TypeId, TypeTable};
use std::alloc::Global;

/// The type variables in scope, by their kinds.
#[derive(Clone, Copy)]
pub struct TypeScope<'x> {
    /// Their kinds, the innermost first, by numbers of a table.
    pub kinds: &'x NumberedKinds<'x>,
}

/// A type with its kind.
#[derive(Clone, Copy)]
pub struct Kinded {
    /// The type.
    pub ty: TypeId,
    /// Its kind.
    pub kind: TypeId,
}

impl TypeScope<'_> {
    /// How many type variables are in scope. Fails where the number has no 32 bits; this is answered as out of memory.
    #[tactic(auto, unfolding(crate::specs::Scopes::scope_in))]
    pub fn variables(&self) -> Result<u32, Memory>
        ensures { IfOk result (λ n. n ≡ length (scope_in self.now)) }
    {
        variables(self.kinds)
    }

    /// A written type. A type that names a variable out of scope is answered as out of memory: no module that has its names has one.
    #[tactic(auto, unfolding(crate::specs::Scopes::scope_in))]
    pub fn read(&self, t: &NTy, types: &mut TypeTable) -> Result<TypeId, Memory>
        requires { IsScope types.old self.now }
        ensures valid { IfOk result (λ id. IsType types.new (scope_in self.now) id) }
        ensures view { IfOk result (λ id. shown types.new (scope_in self.now) id ≡ nty_of t.now) }
        ensures grows { OnOk result (Grows types.old types.new) }
    {
        let variables = self.variables()?;
        if !is_scoped(t, variables) {
            return Err(Memory);
        }
        types.read(t, self.kinds, variables)
    }

    /// A written type with its kind, or the first premise of its kind that fails: as `TypeTable::kind_or_fault` tells it. A type that names a
    /// variable out of scope is answered as out of memory.
    #[tactic(auto, using(fc_type_table::proofs::Numbers::number_rules))]
    pub fn kinded(&self, alloc: Global, t: &NTy, types: &mut TypeTable) -> Result<Kinded, Flawed>
        requires { IsScope types.old self.now }
        ensures valid { IfOk result (λ k. IsType types.new (scope_in self.now) k.ty) }
        ensures view { IfOk result (λ k. shown types.new (scope_in self.now) k.ty ≡ nty_of t.now) }
        ensures is_kind { IfOk result (λ k. IsKindId types.new k.kind) }
        ensures says { Says (λ k. kind_shown types.new k.kind) result (kind_or_fault (modules_in types.old) (scope_in self.now) (nty_of t.now)) }
        ensures grows { OnOk result (Grows types.old types.new) }
        ensures refused { OnFlaw result (Grows types.old types.new) }
    {
        let ty = self.read(t, types)?;
        let kind = types.kind_or_fault(alloc, ty)?;
        Ok(Kinded { ty, kind })
    }

    /// The same of a part, whose place is told from the piece whose part it is.
    pub fn kinded_part(
        &self,
        alloc: Global,
        t: &NTy,
        types: &mut TypeTable,
        part: u32,
    ) -> Result<Kinded, Flawed>
        requires { IsScope types.old self.now }
        ensures valid { IfOk result (λ k. IsType types.new (scope_in self.now) k.ty) }
        ensures view { IfOk result (λ k. shown types.new (scope_in self.now) k.ty ≡ nty_of t.now) }
        ensures is_kind { IfOk result (λ k. IsKindId types.new k.kind) }
        ensures says { Says (λ k. kind_shown types.new k.kind) result (under part (kind_or_fault (modules_in types.old) (scope_in self.now) (nty_of t.now))) }
        ensures grows { OnOk result (Grows types.old types.new) }
        ensures refused { OnFlaw result (Grows types.old types.new) }
    {
        match self.kinded(alloc, t, types) {
            Ok(kinded) => Ok(kinded),
            Err(flawed) => Err(deeper(flawed, part)),
        }
    }

    /// Puts a written type behind others.
    #[tactic(auto, using(crate::proofs::Numbers::number_rules))]
    pub fn add(&self, ids: &mut Seq<TypeId>, t: &NTy, types: &mut TypeTable) -> Result<(), Memory>
        requires scope { IsScope types.old self.now }
        requires ids_in { AreTypes types.old (scope_in self.now) ids.old }
        ensures ids_in { OnOk result (AreTypes types.new (scope_in self.now) ids.new) }
        ensures added { OnOk result (shown_all types.new (scope_in self.now) ids.new ≡ shown_all types.old (scope_in self.now) ids.old ++ nty_of t.now ∷ []) }
        ensures grows { OnOk result (Grows types.old types.new) }
    {
        let id = self.read(t, types)?;
        ids.push(id)
    }

    /// A type variable by its distance. One out of scope is answered as out of memory.
    #[tactic(auto, unfolding(crate::specs::Scopes::scope_in))]
    pub fn variable(&self, distance: u32, types: &mut TypeTable) -> Result<TypeId, Memory>
        requires { IsScope types.old self.now }
        ensures valid { IfOk result (λ id. IsType types.new (scope_in self.now) id) }
        ensures view { IfOk result (λ id. shown types.new (scope_in self.now) id ≡ NTVar distance) }
        ensures grows { OnOk result (Grows types.old types.new) }
    {
        let variables = self.variables()?;
        if distance >= variables {
            return Err(Memory);
        }
        types.variable(distance, self.kinds, variables)
    }

    /// The type `Int#`.
    pub fn int_hash(&self, types: &mut TypeTable) -> Result<TypeId, Memory>
        ensures valid { IfOk result (λ id. IsType types.new (scope_in self.now) id) }
        ensures view { IfOk result (λ id. shown types.new (scope_in self.now) id ≡ NTInt) }
        ensures grows { OnOk result (Grows types.old types.new) }
    {
        types.int_hash()
    }

    /// A data type, newtype or family by its name: the module before the dot, if there is one, and the word itself.
    pub fn constructor(
        &self,
        qualifier: Option<&Text>,
        text: &Text,
        types: &mut TypeTable,
    ) -> Result<TypeId, Memory>
        ensures valid { IfOk result (λ id. IsType types.new (scope_in self.now) id) }
        ensures view { IfOk result (λ id. shown types.new (scope_in self.now) id ≡ NTCon (name_from (option_map (λ w. w.now) qualifier.entry) text.now)) }
        ensures grows { OnOk result (Grows types.old types.new) }
    {
        types.constructor(qualifier, text)
    }

    /// The type of functions from one type to the other.
    pub fn function(
        &self,
        from: TypeId,
        to: TypeId,
        types: &mut TypeTable,
    ) -> Result<TypeId, Memory>
        requires from_in { IsType types.old (scope_in self.now) from }
        requires to_in { IsType types.old (scope_in self.now) to }
        ensures valid { IfOk result (λ id. IsType types.new (scope_in self.now) id) }
        ensures view { IfOk result (λ id. shown types.new (scope_in self.now) id ≡ NTFun (shown types.old (scope_in self.now) from) (shown types.old (scope_in self.now) to)) }
        ensures grows { OnOk result (Grows types.old types.new) }
    {
        types.function(from, to)
    }

    /// A type applied to another.
    pub fn application(
        &self,
        head: TypeId,
        argument: TypeId,
        types: &mut TypeTable,
    ) -> Result<TypeId, Memory>
        requires head_in { IsType types.old (scope_in self.now) head }
        requires argument_in { IsType types.old (scope_in self.now) argument }
        ensures valid { IfOk result (λ id. IsType types.new (scope_in self.now) id) }
        ensures view { IfOk result (λ id. shown types.new (scope_in self.now) id ≡ NTApp (shown types.old (scope_in self.now) head) (shown types.old (scope_in self.now) argument)) }
        ensures grows { OnOk result (Grows types.old types.new) }
    {
        types.application(head, argument)
    }

    /// The `forall` over a variable of a kind, with a body behind it.
    pub fn forall(
        &self,
        alloc: Global,
        kind: &Kind,
        body: TypeId,
        types: &mut TypeTable,
    ) -> Result<TypeId, Memory>
        requires { IsType types.old (kind_of kind.now ∷ scope_in self.now) body }
        ensures valid { IfOk result (λ id. IsType types.new (scope_in self.now) id) }
        ensures view { IfOk result (λ id. shown types.new (scope_in self.now) id ≡ NTForall (kind_of kind.now) (shown types.old (kind_of kind.now ∷ scope_in self.now) body)) }
        ensures grows { OnOk result (Grows types.old types.new) }
    {
        let variables = self.variables()?;
        types.generalize(alloc, kind, body, variables)
    }

    /// A `forall` at a type, if the first type is a `forall`.
    pub fn instantiate(
        &self,
        alloc: Global,
        forall: TypeId,
        by: TypeId,
        types: &mut TypeTable,
    ) -> Result<Option<TypeId>, Memory>
        requires forall_in { IsType types.old (scope_in self.now) forall }
        requires by_in { IsType types.old (scope_in self.now) by }
        ensures valid { IfOk result (λ r. IfSome r (λ id. IsType types.new (scope_in self.now) id)) }
        ensures view { IfOk result (λ r. option_map (λ id. shown types.new (scope_in self.now) id) r ≡ at_type (shown types.old (scope_in self.now) forall) (shown types.old (scope_in self.now) by)) }
        ensures grows { OnOk result (Grows types.old types.new) }
    {
        types.instantiate(alloc, forall, by)
    }

    /// Whether a type is a `forall` over a variable of the kind of this number. Takes no memory.
    pub fn takes_kind(&self, id: TypeId, kind: TypeId, types: &TypeTable) -> bool
        requires type_in { IsType types.now (scope_in self.now) id }
        requires kind_in { IsKindId types.now kind }
        ensures { result ≡ has_kind (forall_kind (shown types.now (scope_in self.now) id)) (kind_shown types.now kind) }
    {
        match types.forall_kind(id) {
            Some(own) => types.same_kind(own, kind),
            None => false,
        }
    }

    /// Whether a type has the kind `*`. A type that was never judged may have no kind. Takes no memory.
    pub fn has_kind_star(&self, id: TypeId, types: &TypeTable) -> bool
        requires { IsType types.now (scope_in self.now) id }
        ensures { result ≡ is_star_found (kind_or_fault (modules_in types.now) (scope_in self.now) (shown types.now (scope_in self.now) id)) }
    {
        match types.kind(id) {
            Some(kind) => types.is_star(kind),
            None => false,
        }
    }

    /// Whether a type that stands behind more type variables than those of this scope mentions one of them.
    pub fn escapes(&self, id: TypeId, types: &TypeTable) -> Result<bool, Memory>
        requires { IsNumber types.now id }
        ensures { IfOk result (λ b. (bs : List trees.Kind) → IsType types.now (bs ++ scope_in self.now) id → b ≡ has_innermost (length bs) 0 (shown types.now (bs ++ scope_in self.now) id)) }
    {
        let variables = self.variables()?;
        Ok(types.mentions_from(id, variables))
    }

    /// Whether two types are the same.
    pub fn same(&self, left: TypeId, right: TypeId, types: &TypeTable) -> bool
        requires left_in { IsType types.now (scope_in self.now) left }
        requires right_in { IsType types.now (scope_in self.now) right }
        ensures { result ≡ same_type (shown types.now (scope_in self.now) left) (shown types.now (scope_in self.now) right) }
    {
        types.same(left, right)
    }

    /// Whether a type is `Int#`.
    pub fn is_int_hash(&self, id: TypeId, types: &TypeTable) -> bool
        requires { IsType types.now (scope_in self.now) id }
        ensures { result ≡ is_int (shown types.now (scope_in self.now) id) }
    {
        types.is_int_hash(id)
    }

    /// Whether a place of a type takes a term: an unlifted place takes an atom.
    pub fn atom_fits(&self, id: TypeId, atom: bool, types: &TypeTable) -> bool
        requires { IsType types.now (scope_in self.now) id }
        ensures { result ≡ words.atom_fits (shown types.now (scope_in self.now) id) atom }
    {
        !types.is_unlifted(id) || atom
    }

    /// Where a function goes from and to, if the type is one of functions.
    pub fn function_parts(&self, id: TypeId, types: &TypeTable) -> Option<(TypeId, TypeId)>
        requires { IsType types.now (scope_in self.now) id }
        ensures valid { IfSome result (λ ends. IsType types.now (scope_in self.now) ends.0 × IsType types.now (scope_in self.now) ends.1) }
        ensures view { option_map (λ ends. (shown types.now (scope_in self.now) ends.0, shown types.now (scope_in self.now) ends.1)) result ≡ function_ends (shown types.now (scope_in self.now) id) }
    {
        types.function_parts(id)
    }

    /// The head and the argument, if the type is an application.
    pub fn application_parts(&self, id: TypeId, types: &TypeTable) -> Option<(TypeId, TypeId)>
        requires { IsType types.now (scope_in self.now) id }
        ensures valid { IfSome result (λ ends. IsType types.now (scope_in self.now) ends.0 × IsType types.now (scope_in self.now) ends.1) }
        ensures view { option_map (λ ends. (shown types.now (scope_in self.now) ends.0, shown types.now (scope_in self.now) ends.1)) result ≡ application_ends (shown types.now (scope_in self.now) id) }
    {
        types.application_parts(id)
    }
}
