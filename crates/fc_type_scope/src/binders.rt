//! The premises of binders.
ghost use Rattle.std.specs.Prelude.{◌≡◌, ◌++◌, [], ◌∷◌, None, OnOk};
ghost use Rattle.fc_model.specs.Faulting.{under};
ghost use Rattle.fc_model.specs.NamelessView.{nbinder_of, nbinders_of};
ghost use Rattle.fc_model.specs.Says.{Says};
ghost use Rattle.fc_model.specs.Typing as words;
ghost use Rattle.fc_model.specs.Typing.{binder_judged, binders_judged};
ghost use Rattle.fc_type_scope.specs.Behind.{binder_kinds};
ghost use Rattle.fc_type_scope.specs.Scopes.{IsScope, scope_in};
ghost use Rattle.fc_type_table.specs.InScope.{AreNumbered, own_kinds};
ghost use Rattle.fc_type_table.specs.TypeTables.{Grows, modules_in, nodes_of};

use crate::scope::TypeScope;
use fc_model::{Flawed, deeper, flaw_here, next_part};
use fc_syntax::{FaultKind, Memory, NBinder, Seq};
use fc_type_table::{NumberedKind, NumberedKinds, TypeTable};
use fc_types::is_lifted;
use std::alloc::Global;

/// Puts the kind of a binder's type variable, if it binds one, behind others, the innermost last.
#[tactic(auto, using(std::proofs::lemmas::Grind::common_steps, crate::proofs::ScopeKinds::push_rules), unfolding(crate::specs::Behind::binder_kinds))]
pub fn add_kind<'b>(
    own: &mut Seq<NumberedKind<'b>>,
    binder: &'b NBinder,
    types: &mut TypeTable,
) -> Result<(), Memory>
    requires numbered { AreNumbered (nodes_of types.old) own.old }
    ensures numbered { OnOk result (AreNumbered (nodes_of types.new) own.new) }
    ensures grows { OnOk result (Grows types.old types.new) }
    ensures kinds { OnOk result (own_kinds own.new ≡ own_kinds own.old ++ binder_kinds (nbinder_of binder.now ∷ [])) }
{
    match binder {
        NBinder::Value(_, _) => Ok(()),
        NBinder::OfType(_, kind) => {
            let id = types.read_kind(kind)?;
            own.push(NumberedKind { kind, id })?;
            Ok(())
        }
        NBinder::OfCo(_, _, _, _) => Ok(()),
    }
}

/// The first of two faults.
fn first_fault(owed: Option<FaultKind>, more: Option<FaultKind>) -> Option<FaultKind>
    ensures { result ≡ words.first_fault owed more }
{
    match owed {
        Some(fault) => Some(fault),
        None => more,
    }
}

impl TypeScope<'_> {
    /// The premises of a binder, and the fault of the one that is asked of it only behind what stands below it.
    #[tactic(auto, using(crate::proofs::ScopeKinds::binder_rules))]
    pub fn binder_owes(
        &self,
        alloc: Global,
        binder: &NBinder,
        types: &mut TypeTable,
    ) -> Result<Option<FaultKind>, Flawed>
        requires { IsScope types.old self.now }
        ensures says { Says (λ o. o) result (binder_judged (modules_in types.old) (scope_in self.now) (nbinder_of binder.now)) }
        ensures grows { OnOk result (Grows types.old types.new) }
    {
        match binder {
            NBinder::Value(_, t) => {
                let t = self.kinded_part(alloc, t, types, 0)?;
                if types.is_value_kind(t.kind) {
                    Ok(None)
                } else {
                    Ok(Some(FaultKind::NotAType))
                }
            }
            NBinder::OfType(_, kind) => {
                if is_lifted(kind) {
                    Ok(None)
                } else {
                    Err(flaw_here(alloc, FaultKind::UnliftedVariable))
                }
            }
            NBinder::OfCo(_, _, left, right) => {
                let left = self.kinded_part(alloc, left, types, 0)?;
                let right = self.kinded_part(alloc, right, types, 1)?;
                if types.same_kind(left.kind, right.kind) {
                    Ok(None)
                } else {
                    Ok(Some(FaultKind::KindsDiffer))
                }
            }
        }
    }

    /// The same of a part, whose place is told from the piece whose part it is.
    fn part_owes(
        &self,
        alloc: Global,
        binder: &NBinder,
        types: &mut TypeTable,
        part: u32,
    ) -> Result<Option<FaultKind>, Flawed>
        requires { IsScope types.old self.now }
        ensures says { Says (λ o. o) result (under part (binder_judged (modules_in types.old) (scope_in self.now) (nbinder_of binder.now))) }
        ensures grows { OnOk result (Grows types.old types.new) }
    {
        match self.binder_owes(alloc, binder, types) {
            Ok(owed) => Ok(owed),
            Err(flawed) => Err(deeper(flawed, part)),
        }
    }

    /// The premises of binders that stand together, each behind those before it, and the fault of the first one that is asked of them
    /// only behind what stands below them: the type of a value is of kind `*` or `#`.
    pub fn binders_owe(
        &self,
        alloc: Global,
        binders: &[NBinder],
        types: &mut TypeTable,
    ) -> Result<Option<FaultKind>, Flawed>
        requires { IsScope types.old self.now }
        ensures says { Says (λ o. o) result (binders_judged (modules_in types.old) (scope_in self.now) 0 None (nbinders_of binders.now)) }
        ensures grows { OnOk result (Grows types.old types.new) }
    {
        let mut own = Seq::new(alloc);
        let mut owed = None;
        let mut part = 0u32;
        for binder in binders {
            let kinds = NumberedKinds::Group(own.as_slice(), self.kinds);
            let scope = TypeScope { kinds: &kinds };
            let more = scope.part_owes(alloc, binder, types, part)?;
            owed = first_fault(owed, more);
            add_kind(&mut own, binder, types)?;
            part = next_part(part)?;
        }
        Ok(owed)
    }
}
