//! Types that are written in declarations, among what modules declare.
ghost use Rattle.std.specs.Prelude.{◌≡◌, IfOk, OnOk};
ghost use Rattle.fc_model.specs.Faulting.{under};
ghost use Rattle.fc_model.specs.Kinding.{kind_or_fault};
ghost use Rattle.fc_model.specs.NamelessView.{nty_of};
ghost use Rattle.fc_model.specs.Says.{Says};
ghost use Rattle.fc_type_scope.specs.Scopes.{IsScope, scope_in};
ghost use Rattle.fc_type_table.specs.TypeTables.{Grows, IsKindId, kind_shown, modules_in};
ghost use Rattle.fc_types.specs.ModuleViews.{modules_of};

use fc_model::Flawed;
use fc_syntax::NTy;
use fc_type_scope::TypeScope;
use fc_type_table::{TypeId, TypeTable};
use fc_types::Declarations;
use std::alloc::Global;

/// The kind of the type that is the part of this number, or the first premise of its kind that fails.
pub(crate) fn kind_of_part(
    alloc: Global,
    t: &NTy,
    declared: &Declarations,
    types: &mut TypeTable,
    scope: &TypeScope<'_>,
    part: u32,
) -> Result<TypeId, Flawed>
    requires scope { IsScope types.old scope.now }
    requires modules { modules_in types.old ≡ modules_of declared.now }
    ensures is_kind { IfOk result (λ k. IsKindId types.new k) }
    ensures says { Says (λ k. kind_shown types.new k) result (under part (kind_or_fault (modules_of declared.now) (scope_in scope.now) (nty_of t.now))) }
    ensures scope { OnOk result (IsScope types.new scope.now) }
    ensures modules { OnOk result (modules_in types.new ≡ modules_of declared.now) }
    ensures grows { OnOk result (Grows types.old types.new) }
{
    match scope.kinded_part(alloc, t, types, part) {
        Ok(read) => Ok(read.kind),
        Err(flawed) => Err(flawed),
    }
}
