//! Constructors of data types: their binders and their fields.
ghost use Rattle.std.specs.Prelude.{◌≡◌, true, ◌&&◌, OnOk};
ghost use Rattle.fc_model.specs.Faulting.{under};
ghost use Rattle.fc_model.specs.Linting.{con_binder_judged, con_judged, cons_judged, fields_judged};
ghost use Rattle.fc_model.specs.NamelessView.{nbinder_of, ncon_of, ncons_of, ntys_of};
ghost use Rattle.fc_model.specs.Says.{Says};
ghost use Rattle.fc_types.specs.ModuleViews.{modules_of};
ghost use Rattle.fc_type_scope.specs.Scopes.{IsScope, scope_in};
ghost use Rattle.fc_type_table.specs.TypeTables.{Grows, modules_in};

use crate::written::kind_of_part;
use fc_model::{Flawed, deeper, flaw_here, next_part};
use fc_syntax::{FaultKind, NBinder, NConDecl, NTy, Seq};
use fc_type_scope::{TypeScope, add_kind};
use fc_type_table::{NumberedKinds, TypeTable};
use fc_types::{Declarations, is_lifted};
use std::alloc::Global;

/// Whether both hold.
fn both(first: bool, second: bool) -> bool
    ensures { result ≡ (first && second) }
{
    first && second
}

/// A binder of a constructor: `UnliftedVariable` for a type variable of a kind with `#`. Whether its ends have one kind, where it is a
/// coercion.
#[tactic(auto, using(fc_syntax::proofs::View::view_rules, fc_type_table::proofs::Numbers::number_rules))]
fn lint_con_binder(
    alloc: Global,
    binder: &NBinder,
    declared: &Declarations,
    types: &mut TypeTable,
    scope: &TypeScope<'_>,
) -> Result<bool, Flawed>
    requires scope { IsScope types.old scope.now }
    requires modules { modules_in types.old ≡ modules_of declared.now }
    ensures says { Says (λ b. b) result (con_binder_judged (modules_of declared.now) (scope_in scope.now) (nbinder_of binder.now)) }
    ensures scope { OnOk result (IsScope types.new scope.now) }
    ensures modules { OnOk result (modules_in types.new ≡ modules_of declared.now) }
    ensures grows { OnOk result (Grows types.old types.new) }
{
    match binder {
        NBinder::Value(_, _) => Err(flaw_here(alloc, FaultKind::BadForm)),
        NBinder::OfType(_, kind) => {
            if is_lifted(kind) {
                Ok(true)
            } else {
                Err(flaw_here(alloc, FaultKind::UnliftedVariable))
            }
        }
        NBinder::OfCo(_, _, left, right) => {
            let left = kind_of_part(alloc, left, declared, types, scope, 0)?;
            let right = kind_of_part(alloc, right, declared, types, scope, 1)?;
            Ok(types.same_kind(left, right))
        }
    }
}

/// The same of the binder that is the part of this number.
fn lint_con_binder_part(
    alloc: Global,
    binder: &NBinder,
    declared: &Declarations,
    types: &mut TypeTable,
    scope: &TypeScope<'_>,
    part: u32,
) -> Result<bool, Flawed>
    requires scope { IsScope types.old scope.now }
    requires modules { modules_in types.old ≡ modules_of declared.now }
    ensures says { Says (λ b. b) result (under part (con_binder_judged (modules_of declared.now) (scope_in scope.now) (nbinder_of binder.now))) }
    ensures scope { OnOk result (IsScope types.new scope.now) }
    ensures modules { OnOk result (modules_in types.new ≡ modules_of declared.now) }
    ensures grows { OnOk result (Grows types.old types.new) }
{
    match lint_con_binder(alloc, binder, declared, types, scope) {
        Ok(same) => Ok(same),
        Err(flawed) => Err(deeper(flawed, part)),
    }
}

/// Fields, of which the first is the part of this number, behind fields that are all of the kinds of values; whether all are.
fn lint_fields(
    alloc: Global,
    fields: &[NTy],
    declared: &Declarations,
    types: &mut TypeTable,
    scope: &TypeScope<'_>,
    first: u32,
) -> Result<bool, Flawed>
    requires scope { IsScope types.old scope.now }
    requires modules { modules_in types.old ≡ modules_of declared.now }
    ensures says { Says (λ b. b) result (fields_judged (modules_of declared.now) (scope_in scope.now) first true (ntys_of fields.now)) }
    ensures scope { OnOk result (IsScope types.new scope.now) }
    ensures modules { OnOk result (modules_in types.new ≡ modules_of declared.now) }
    ensures grows { OnOk result (Grows types.old types.new) }
{
    let mut part = first;
    let mut all = true;
    for field in fields {
        let next = next_part(part)?;
        let kind = kind_of_part(alloc, field, declared, types, scope, part)?;
        all = both(all, types.is_value_kind(kind));
        part = next;
    }
    Ok(all)
}

/// A constructor: its binders, each among the type variables before it, its fields among all, and then `KindsDiffer` where the ends of a
/// coercion have two kinds; whether its fields are of the kinds of values.
#[tactic(auto, unfolding(fc_type_scope::specs::Scopes::scope_in))]
fn lint_constructor(
    alloc: Global,
    con: &NConDecl,
    declared: &Declarations,
    types: &mut TypeTable,
    outer: &TypeScope<'_>,
) -> Result<bool, Flawed>
    requires scope { IsScope types.old outer.now }
    requires modules { modules_in types.old ≡ modules_of declared.now }
    ensures says { Says (λ b. b) result (con_judged (modules_of declared.now) (scope_in outer.now) (ncon_of con.now)) }
    ensures scope { OnOk result (IsScope types.new outer.now) }
    ensures modules { OnOk result (modules_in types.new ≡ modules_of declared.now) }
    ensures grows { OnOk result (Grows types.old types.new) }
{
    let mut own = Seq::new(alloc);
    let mut part = 0u32;
    let mut one = true;
    for binder in con.binders.as_slice() {
        let kinds = NumberedKinds::Group(own.as_slice(), outer.kinds);
        let scope = TypeScope { kinds: &kinds };
        let same = lint_con_binder_part(alloc, binder, declared, types, &scope, part)?;
        one = both(one, same);
        part = next_part(part)?;
        add_kind(&mut own, binder, types)?;
    }
    let kinds = NumberedKinds::Group(own.as_slice(), outer.kinds);
    let scope = TypeScope { kinds: &kinds };
    let values = lint_fields(alloc, con.fields.as_slice(), declared, types, &scope, part)?;
    if one {
        Ok(values)
    } else {
        Err(flaw_here(alloc, FaultKind::KindsDiffer))
    }
}

/// The same of the constructor that is the part of this number.
fn lint_constructor_part(
    alloc: Global,
    con: &NConDecl,
    declared: &Declarations,
    types: &mut TypeTable,
    outer: &TypeScope<'_>,
    part: u32,
) -> Result<bool, Flawed>
    requires scope { IsScope types.old outer.now }
    requires modules { modules_in types.old ≡ modules_of declared.now }
    ensures says { Says (λ b. b) result (under part (con_judged (modules_of declared.now) (scope_in outer.now) (ncon_of con.now))) }
    ensures scope { OnOk result (IsScope types.new outer.now) }
    ensures modules { OnOk result (modules_in types.new ≡ modules_of declared.now) }
    ensures grows { OnOk result (Grows types.old types.new) }
{
    match lint_constructor(alloc, con, declared, types, outer) {
        Ok(values) => Ok(values),
        Err(flawed) => Err(deeper(flawed, part)),
    }
}

/// The constructors of a data type, of which the first is the part of this number; whether all their fields are of the kinds of values.
pub fn lint_constructors(
    alloc: Global,
    cons: &[NConDecl],
    declared: &Declarations,
    types: &mut TypeTable,
    outer: &TypeScope<'_>,
    first: u32,
) -> Result<bool, Flawed>
    requires scope { IsScope types.old outer.now }
    requires modules { modules_in types.old ≡ modules_of declared.now }
    ensures says { Says (λ b. b) result (cons_judged (modules_of declared.now) (scope_in outer.now) first true (ncons_of cons.now)) }
    ensures scope { OnOk result (IsScope types.new outer.now) }
    ensures modules { OnOk result (modules_in types.new ≡ modules_of declared.now) }
    ensures grows { OnOk result (Grows types.old types.new) }
{
    let mut part = first;
    let mut all = true;
    for con in cons {
        let values = lint_constructor_part(alloc, con, declared, types, outer, part)?;
        all = both(all, values);
        part = next_part(part)?;
    }
    Ok(all)
}
