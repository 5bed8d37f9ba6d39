//! Types as heads that are applied to types.
ghost use Rattle.std.specs.Prelude.{◌≡◌, ◌&&◌, length, nat_eq, reverse, IfOk, IfSome, OnOk};
ghost use Rattle.std.specs.Option.{option_map};
ghost use Rattle.fc_model.specs.Calling.{at_types, data_name, is_con_type, same_as, type_arguments, type_head};
ghost use Rattle.fc_types.specs.TableViews.{constructor_of};
ghost use Rattle.fc_type_scope.specs.Scopes.{AreTypes, scope_in, shown_all};
ghost use Rattle.fc_type_table.specs.TypeTables.{Grows, IsType, shown};

use fc_syntax::{Memory, Name, Seq};
use fc_type_scope::TypeScope;
use fc_type_table::{TypeId, TypeTable};
use fc_types::DeclaredCon;
use std::alloc::Global;

/// A type as a head that is applied to types.
#[derive(Drop)]
pub struct Spine {
    /// The head, which is no application.
    pub head: TypeId,
    /// What it is applied to, the last one first.
    pub arguments: Seq<TypeId>,
}

/// The head of a type, and what it is applied to. Fails only where memory runs out.
#[tactic(auto, using(crate::proofs::Heads::head_rules))]
pub fn spine_of(
    alloc: Global,
    ty: TypeId,
    types: &TypeTable,
    scope: &TypeScope<'_>,
) -> Result<Spine, Memory>
    requires { IsType types.now (scope_in scope.now) ty }
    ensures head_in { IfOk result (λ s. IsType types.now (scope_in scope.now) s.head) }
    ensures arguments_in { IfOk result (λ s. AreTypes types.now (scope_in scope.now) s.arguments) }
    ensures head { IfOk result (λ s. shown types.now (scope_in scope.now) s.head ≡ type_head (shown types.now (scope_in scope.now) ty)) }
    ensures arguments { IfOk result (λ s. reverse (shown_all types.now (scope_in scope.now) s.arguments) ≡ type_arguments (shown types.now (scope_in scope.now) ty)) }
{
    let mut head = ty;
    let mut arguments = Seq::new(alloc);
    while let Some((next, argument)) = scope.application_parts(head, types) {
        arguments.push(argument)?;
        head = next;
    }
    Ok(Spine { head, arguments })
}

/// Whether a type is the data type of a constructor of this name, at as many types as it has parameters.
#[tactic(auto, using(fc_type_scope::proofs::Proven::table_rules, crate::proofs::Heads::data_rules))]
pub fn is_data_of(
    name: &Name,
    con: &DeclaredCon,
    spine: &Spine,
    types: &mut TypeTable,
    scope: &TypeScope<'_>,
) -> Result<bool, Memory>
    requires { IsType types.old (scope_in scope.now) spine.now.head }
    ensures view { IfOk result (λ b. b ≡ (is_con_type (shown types.old (scope_in scope.now) spine.now.head) (data_name name.now (constructor_of con.now).data_word) && nat_eq (length spine.now.arguments) (length (constructor_of con.now).params))) }
    ensures grows { OnOk result (Grows types.old types.new) }
{
    let data_type = scope.constructor(name.module.as_ref(), con.data_word, types)?;
    let same = scope.same(spine.head, data_type, types);
    Ok(same && spine.arguments.len() == con.params.len())
}

/// A type of `forall`s at types, one after the other, the last one first; nothing where one is no `forall`.
#[tactic(auto, using(fc_type_scope::proofs::Proven::table_rules))]
pub fn type_at(
    alloc: Global,
    ty: TypeId,
    arguments: &[TypeId],
    types: &mut TypeTable,
    scope: &TypeScope<'_>,
) -> Result<Option<TypeId>, Memory>
    requires type_in { IsType types.old (scope_in scope.now) ty }
    requires arguments_in { AreTypes types.old (scope_in scope.now) arguments.now }
    ensures valid { IfOk result (λ r. IfSome r (λ id. IsType types.new (scope_in scope.now) id)) }
    ensures view { IfOk result (λ r. option_map (λ id. shown types.new (scope_in scope.now) id) r ≡ at_types (shown types.old (scope_in scope.now) ty) (reverse (shown_all types.old (scope_in scope.now) arguments.now))) }
    ensures grows { OnOk result (Grows types.old types.new) }
{
    let mut whole = ty;
    let mut left = arguments.len();
    while left > 0 {
        left -= 1;
        match scope.instantiate(alloc, whole, arguments[left], types)? {
            None => return Ok(None),
            Some(next) => whole = next,
        }
    }
    Ok(Some(whole))
}

/// Whether a type of `forall`s at what a spine is applied to is the type `wanted`.
#[tactic(auto, using(fc_type_scope::proofs::Proven::table_rules))]
pub fn is_at(
    alloc: Global,
    ty: TypeId,
    spine: &Spine,
    wanted: TypeId,
    types: &mut TypeTable,
    scope: &TypeScope<'_>,
) -> Result<bool, Memory>
    requires type_in { IsType types.old (scope_in scope.now) ty }
    requires arguments_in { AreTypes types.old (scope_in scope.now) spine.now.arguments }
    requires wanted_in { IsType types.old (scope_in scope.now) wanted }
    ensures view { IfOk result (λ b. b ≡ same_as (at_types (shown types.old (scope_in scope.now) ty) (reverse (shown_all types.old (scope_in scope.now) spine.now.arguments))) (shown types.old (scope_in scope.now) wanted)) }
    ensures grows { OnOk result (Grows types.old types.new) }
{
    match type_at(alloc, ty, spine.arguments.as_slice(), types, scope)? {
        None => Ok(false),
        Some(t) => Ok(scope.same(t, wanted, types)),
    }
}
