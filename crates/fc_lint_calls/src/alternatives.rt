//! The heads of alternatives.
ghost use Rattle.std.specs.Prelude.{◌≡◌, ◌+◌, length, nat_eq, Ok, Some, IfOk, OnOk};
ghost use Rattle.fc_model.specs.Calling.{constructor_binders, constructor_type, is_int};
ghost use Rattle.fc_model.specs.Faulting.{need};
ghost use Rattle.fc_model.specs.NamelessView.{nbinders_of};
ghost use Rattle.fc_model.specs.Says.{Says};
ghost use Rattle.fc_model.specs.Typing as words;
ghost use Rattle.fc_model.specs.Typing.{constructor_in_order, default_in_order, literal_in_order};
ghost use Rattle.fc_syntax.specs.declared.fault.FaultKind.TheVariants.{AltOrder, LitAlt};
ghost use Rattle.fc_types.specs.TableViews.{constructor_of};
ghost use Rattle.fc_lint_calls.specs.AltViews.{before_of};
ghost use Rattle.fc_type_scope.specs.Behind.{IsEntered};
ghost use Rattle.fc_type_scope.specs.Scopes.{IsScope, scope_in};
ghost use Rattle.fc_type_table.specs.TypeTables.{Grows, IsType, nodes_of, shown};

use fc_model::{Flawed, flaw_here};
use fc_syntax::{FaultKind, Memory, NBinder, Name};
use fc_type_scope::{Entered, TypeScope};
use fc_type_spines::{is_at, is_data_of, spine_of};
use fc_type_table::{TypeId, TypeTable};
use fc_types::DeclaredCon;
use std::alloc::Global;

/// What stands before an alternative.
#[derive(Clone, Copy)]
pub enum Before {
    /// No alternative.
    Start,
    /// The default.
    AfterDefault,
    /// The alternative of a literal.
    AfterLit(i64),
    /// The alternative of a constructor, by its number in its data type.
    AfterCon(usize),
}

/// The default, which stands first: `AltOrder` where it does not.
pub fn default_goes(alloc: Global, before: Before) -> Result<Before, Flawed>
    ensures { Says before_of result (need (default_in_order (before_of before)) AltOrder (Ok words.AfterDefault)) }
{
    match before {
        Before::Start => Ok(Before::AfterDefault),
        Before::AfterDefault => Err(flaw_here(alloc, FaultKind::AltOrder)),
        Before::AfterLit(_) => Err(flaw_here(alloc, FaultKind::AltOrder)),
        Before::AfterCon(_) => Err(flaw_here(alloc, FaultKind::AltOrder)),
    }
}

/// Whether a literal stands behind the default and the lower literals alone.
fn literal_rises(before: Before, literal: i64) -> bool
    ensures { result ≡ literal_in_order (before_of before) literal }
{
    match before {
        Before::Start => true,
        Before::AfterDefault => true,
        Before::AfterLit(lower) => lower < literal,
        Before::AfterCon(_) => false,
    }
}

/// The alternative of a literal: `LitAlt` where the scrutinee is no `Int#`, and then `AltOrder`.
pub fn literal_goes(
    alloc: Global,
    scrutinee: TypeId,
    before: Before,
    literal: i64,
    types: &TypeTable,
    scope: &TypeScope<'_>,
) -> Result<Before, Flawed>
    requires { IsType types.now (scope_in scope.now) scrutinee }
    ensures { Says before_of result (need (is_int (shown types.now (scope_in scope.now) scrutinee)) LitAlt (need (literal_in_order (before_of before) literal) AltOrder (Ok (words.AfterLit literal)))) }
{
    if !scope.is_int_hash(scrutinee, types) {
        return Err(flaw_here(alloc, FaultKind::LitAlt));
    }
    if !literal_rises(before, literal) {
        return Err(flaw_here(alloc, FaultKind::AltOrder));
    }
    Ok(Before::AfterLit(literal))
}

/// Whether a constructor stands behind the default and the constructors alone that are declared before it.
fn constructor_follows(before: Before, number: usize) -> bool
    ensures { result ≡ constructor_in_order (before_of before) number }
{
    match before {
        Before::Start => true,
        Before::AfterDefault => true,
        Before::AfterLit(_) => false,
        Before::AfterCon(earlier) => earlier < number,
    }
}

/// Whether so many binders are as many as a constructor has behind the parameters of its data type.
fn binds_as_many(con: &DeclaredCon, binders: usize) -> Result<bool, Memory>
    ensures { IfOk result (λ b. b ≡ nat_eq (binders + length (constructor_of con.now).params) (length (constructor_binders (constructor_of con.now)))) }
{
    let arity = con.arity()?;
    match binders.checked_add(con.params.len()) {
        Some(all) => Ok(all == arity),
        None => Err(Memory),
    }
}

/// The alternative of the constructor of a name, which is of the type `ty`, with these binders, which bind this. `AltConstructor` where the scrutinee is not of the constructor's data type, and then `AltOrder`, and
/// `ConArity` where the binders do not agree with the constructor at the types of the scrutinee. Where they are not as many, no type is made for them.
#[tactic(auto, using(crate::proofs::Givens::given_rules))]
pub fn constructor_goes(
    alloc: Global,
    name: &Name,
    con: &DeclaredCon,
    ty: TypeId,
    scrutinee: TypeId,
    before: Before,
    binders: &[NBinder],
    entered: &Entered,
    types: &mut TypeTable,
    scope: &TypeScope<'_>,
) -> Result<Before, Flawed>
    requires scope { IsScope types.old scope.now }
    requires type_in { IsType types.old (scope_in scope.now) ty }
    requires type_view { shown types.old (scope_in scope.now) ty ≡ constructor_type name.now (constructor_of con.now) }
    requires scrutinee_in { IsType types.old (scope_in scope.now) scrutinee }
    requires entered { IsEntered (nodes_of types.old) (scope_in scope.now) (nbinders_of binders.now) entered.now }
    ensures says { Says before_of result (words.constructor_goes name.now (Some (constructor_of con.now)) (shown types.old (scope_in scope.now) scrutinee) (before_of before) (nbinders_of binders.now)) }
    ensures grows { OnOk result (Grows types.old types.new) }
{
    let spine = spine_of(alloc, scrutinee, types, scope)?;
    if !is_data_of(name, con, &spine, types, scope)? {
        return Err(flaw_here(alloc, FaultKind::AltConstructor));
    }
    if !constructor_follows(before, con.number) {
        return Err(flaw_here(alloc, FaultKind::AltOrder));
    }
    if !binds_as_many(con, binders.len())? {
        return Err(flaw_here(alloc, FaultKind::ConArity));
    }
    let over = scope.function_to(binders, entered, scrutinee, types)?;
    if !is_at(alloc, ty, &spine, over, types, scope)? {
        return Err(flaw_here(alloc, FaultKind::ConArity));
    }
    Ok(Before::AfterCon(con.number))
}
