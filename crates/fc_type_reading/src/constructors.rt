//! What is read off of constructors: their data types at the types that they are applied to.
ghost use Rattle.std.specs.Prelude.{◌≡◌, drop, slice_get, IfOk, IfSome, OnOk};
ghost use Rattle.std.specs.Option.{option_map};
ghost use Rattle.fc_model.specs.Calling.{constructor, from_some};
ghost use Rattle.fc_model.specs.NamelessView.{nargs_of};
ghost use Rattle.fc_model.specs.Typing.{constructed_at};
ghost use Rattle.fc_types.specs.TableViews.{constructor_of};
ghost use Rattle.fc_lint_context.specs.ContextViews.{IsContextOver, modules_of_context};
ghost use Rattle.fc_type_scope.specs.Scopes.{IsScope, scope_in};
ghost use Rattle.fc_type_table.specs.TypeTables.{Grows, IsType, shown};
ghost use Rattle.fc_type_reading.specs.Readings.{applied_to_first, type_of_argument};

use fc_lint_context::Context;
use fc_syntax::{Memory, NArg, NTy, Name};
use fc_type_scope::TypeScope;
use fc_type_table::{TypeId, TypeTable};
use fc_types::DeclaredCon;

/// The argument at a place, if one is there and is a type.
fn type_argument<'a>(args: &'a [NArg], place: usize) -> Option<&'a NTy>
    ensures { option_map (λ t. t.now) result ≡ type_of_argument (slice_get args.now place) }
{
    match args.get(place) {
        None => None,
        Some(NArg::Term(_)) => None,
        Some(NArg::OfType(t)) => Some(t),
        Some(NArg::OfCo(_)) => None,
    }
}

/// A type applied to the argument at a place, if one is there and is a type.
#[tactic(auto, using(fc_type_scope::proofs::Proven::table_rules, crate::proofs::Constructed::step_rules))]
fn applied_at(
    whole: TypeId,
    args: &[NArg],
    place: usize,
    types: &mut TypeTable,
    scope: &TypeScope<'_>,
) -> Result<Option<TypeId>, Memory>
    requires scope { IsScope types.old scope.now }
    requires whole_in { IsType types.old (scope_in scope.now) whole }
    ensures valid { IfOk result (λ r. IfSome r (λ id. IsType types.new (scope_in scope.now) id)) }
    ensures view { IfOk result (λ r. option_map (λ id. shown types.new (scope_in scope.now) id) r ≡ applied_to_first 1 (shown types.old (scope_in scope.now) whole) (nargs_of (drop place args.now))) }
    ensures grows { OnOk result (Grows types.old types.new) }
{
    match type_argument(args, place) {
        None => Ok(None),
        Some(t) => {
            let by = scope.read(t, types)?;
            let next = scope.application(whole, by, types)?;
            Ok(Some(next))
        }
    }
}

/// A type applied to the first so many arguments. Nothing where there are fewer, or where one of them is no type.
#[tactic(auto, using(fc_type_scope::proofs::Proven::table_rules))]
fn applied_to(
    head: TypeId,
    count: usize,
    args: &[NArg],
    types: &mut TypeTable,
    scope: &TypeScope<'_>,
) -> Result<Option<TypeId>, Memory>
    requires scope { IsScope types.old scope.now }
    requires head_in { IsType types.old (scope_in scope.now) head }
    ensures valid { IfOk result (λ r. IfSome r (λ id. IsType types.new (scope_in scope.now) id)) }
    ensures view { IfOk result (λ r. option_map (λ id. shown types.new (scope_in scope.now) id) r ≡ applied_to_first count (shown types.old (scope_in scope.now) head) (nargs_of args.now)) }
    ensures grows { OnOk result (Grows types.old types.new) }
{
    let mut whole = head;
    for place in 0..count {
        match applied_at(whole, args, place, types, scope)? {
            None => return Ok(None),
            Some(next) => whole = next,
        }
    }
    Ok(Some(whole))
}

/// The data type of a constructor of this name at the types that the constructor is applied to first, as many as its data type has
/// parameters. Nothing where there are fewer arguments, or where one of these is no type.
#[tactic(auto, using(fc_type_scope::proofs::Proven::table_rules, crate::proofs::Constructed::data_rules))]
fn data_type_at(
    name: &Name,
    con: &DeclaredCon,
    args: &[NArg],
    types: &mut TypeTable,
    scope: &TypeScope<'_>,
) -> Result<Option<TypeId>, Memory>
    requires { IsScope types.old scope.now }
    ensures valid { IfOk result (λ r. IfSome r (λ id. IsType types.new (scope_in scope.now) id)) }
    ensures view { IfOk result (λ r. option_map (λ id. shown types.new (scope_in scope.now) id) r ≡ constructed_at name.now (nargs_of args.now) (constructor_of con.now)) }
    ensures grows { OnOk result (Grows types.old types.new) }
{
    let head = scope.constructor(name.module.as_ref(), con.data_word, types)?;
    applied_to(head, con.params.len(), args, types, scope)
}

/// The type of a constructor with its arguments: its data type at the first of them. Nothing where no constructor has the name, where there are
/// fewer arguments than the data type has parameters, or where one of these is no type. Fails only where memory runs out, and where one of
/// these types names a variable out of scope.
#[tactic(auto, using(fc_type_scope::proofs::Proven::table_rules))]
pub(crate) fn constructor_type(
    name: &Name,
    args: &[NArg],
    types: &mut TypeTable,
    context: &Context,
) -> Result<Option<TypeId>, Memory>
    requires { IsContextOver types.old context.now }
    ensures valid { IfOk result (λ r. IfSome r (λ id. IsType types.new (scope_in context.now.scope) id)) }
    ensures view { IfOk result (λ r. option_map (λ id. shown types.new (scope_in context.now.scope) id) r ≡ from_some (constructed_at name.now (nargs_of args.now)) (constructor (modules_of_context context.now) name.now)) }
    ensures grows { OnOk result (Grows types.old types.new) }
{
    match context.constructor_named(name) {
        None => Ok(None),
        Some(k) => data_type_at(name, &k.con, args, types, &context.scope),
    }
}
