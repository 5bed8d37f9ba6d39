//! The kinds of the ends of coercions.
ghost use Rattle.std.specs.Prelude.{◌≡◌};
ghost use Rattle.fc_model.specs.Coercing as words;
ghost use Rattle.fc_type_scope.specs.Scopes.{scope_in};
ghost use Rattle.fc_type_table.specs.TypeTables.{IsKindId, IsType, kind_shown, modules_in, shown};

use fc_type_scope::TypeScope;
use fc_type_table::{TypeId, TypeTable};

/// Whether two types have one kind.
pub(crate) fn have_one_kind(
    left: TypeId,
    right: TypeId,
    types: &TypeTable,
    scope: &TypeScope<'_>,
) -> bool
    requires left_in { IsType types.now (scope_in scope.now) left }
    requires right_in { IsType types.now (scope_in scope.now) right }
    ensures { result ≡ words.have_one_kind (modules_in types.now) (scope_in scope.now) (shown types.now (scope_in scope.now) left) (shown types.now (scope_in scope.now) right) }
{
    match types.kind(left) {
        None => false,
        Some(left) => match types.kind(right) {
            None => false,
            Some(right) => types.same_kind(left, right),
        },
    }
}

/// Whether two types have one kind, which is that of types of values.
pub(crate) fn have_one_value_kind(
    left: TypeId,
    right: TypeId,
    types: &TypeTable,
    scope: &TypeScope<'_>,
) -> bool
    requires left_in { IsType types.now (scope_in scope.now) left }
    requires right_in { IsType types.now (scope_in scope.now) right }
    ensures { result ≡ words.have_one_value_kind (modules_in types.now) (scope_in scope.now) (shown types.now (scope_in scope.now) left) (shown types.now (scope_in scope.now) right) }
{
    match types.kind(left) {
        None => false,
        Some(left) => match types.kind(right) {
            None => false,
            Some(right) => types.is_value_kind(left) && types.same_kind(left, right),
        },
    }
}

/// Whether a type is of a kind.
pub(crate) fn is_of_kind(kind: TypeId, id: TypeId, types: &TypeTable, scope: &TypeScope<'_>) -> bool
    requires kind_in { IsKindId types.now kind }
    requires type_in { IsType types.now (scope_in scope.now) id }
    ensures { result ≡ words.is_of_kind (modules_in types.now) (scope_in scope.now) (kind_shown types.now kind) (shown types.now (scope_in scope.now) id) }
{
    match types.kind(id) {
        None => false,
        Some(own) => types.same_kind(kind, own),
    }
}

/// Whether a type is one of values.
pub(crate) fn is_value_type(id: TypeId, types: &TypeTable, scope: &TypeScope<'_>) -> bool
    requires { IsType types.now (scope_in scope.now) id }
    ensures { result ≡ words.is_value_type (modules_in types.now) (scope_in scope.now) (shown types.now (scope_in scope.now) id) }
{
    match types.kind(id) {
        None => false,
        Some(kind) => types.is_value_kind(kind),
    }
}

/// Whether two types have kinds.
pub(crate) fn are_kinded(
    left: TypeId,
    right: TypeId,
    types: &TypeTable,
    scope: &TypeScope<'_>,
) -> bool
    requires left_in { IsType types.now (scope_in scope.now) left }
    requires right_in { IsType types.now (scope_in scope.now) right }
    ensures { result ≡ words.are_kinded (modules_in types.now) (scope_in scope.now) (shown types.now (scope_in scope.now) left) (shown types.now (scope_in scope.now) right) }
{
    types.kind(left).is_some() && types.kind(right).is_some()
}
