//! A body behind lets.
ghost use Rattle.std.specs.Prelude.{◌≡◌, IfOk, OnOk};
ghost use Rattle.std.specs.Option.{option_map};
ghost use Rattle.fc_model.specs.NamelessView.{nargs_of, nexpr_of};
ghost use Rattle.fc_model.specs.Replacing.{renamed};
ghost use Rattle.fc_rows.specs.Shrinking.{behind_lets as spec_behind_lets, let_of as spec_let_of};
ghost use Rattle.fc_rows.specs.Surroundings.{past_values};
ghost use Rattle.fc_type_scope.specs.Scopes.{IsScope, scope_in};
ghost use Rattle.fc_type_table.specs.TypeTables.{Grows, IsType, shown};
ghost use Rattle.fc_lets_for_terms.specs.Asking.{AreAsked, asked_all, lets_around as spec_lets_around};

use crate::asking::{AskedTerm, terms_asked};
use fc_forms::let_of;
use fc_numbers::number;
use fc_subst::{NO_BINDERS, Replacement, Shift, substitute};
use fc_syntax::{Limits, Memory, NArg, NExpr, Text};
use fc_type_scope::TypeScope;
use fc_type_table::{TypeId, TypeTable};
use fc_type_trees::tree_of_type;
use std::alloc::Global;

/// The word of the binder of each let.
const WORD: &str = "x";

/// An expression past so many values more. Fails only where memory runs out, a distance or a number of parts has no 32 bits, or calls would go 2^32 deep.
fn past(alloc: Global, e: &NExpr, count: usize) -> Result<NExpr, Memory>
    ensures { IfOk result (λ r. nexpr_of r ≡ renamed (past_values count) (nexpr_of e.now)) }
{
    let values = number(count)?;
    let further_in = Replacement::Past(Shift {
        values,
        ..NO_BINDERS
    });
    substitute(alloc, e, &further_in)
}

/// A body behind a let for a term, around which so many such lets stand already.
fn let_around(
    alloc: Global,
    asked: &AskedTerm<'_>,
    outer: usize,
    types: &TypeTable,
    scope: &TypeScope<'_>,
    body: NExpr,
) -> Result<NExpr, Memory>
    requires { IsType types.now (scope_in scope.now) asked.now.ty }
    ensures { IfOk result (λ e. nexpr_of e ≡ spec_let_of (shown types.now (scope_in scope.now) asked.now.ty) (renamed (past_values outer) (nexpr_of asked.now.term.now)) (nexpr_of body)) }
{
    let variables = scope.variables()?;
    let ty = tree_of_type(
        alloc,
        asked.ty,
        types,
        variables,
        Limits::standard().result_size,
    )?;
    let rhs = past(alloc, asked.term, outer)?;
    let name = Text::from_str(alloc, WORD)?;
    let_of(alloc, name, ty, rhs, body)
}

/// A body behind a let for each term, the first one the outermost.
fn lets_around(
    alloc: Global,
    asked: &[AskedTerm<'_>],
    types: &TypeTable,
    scope: &TypeScope<'_>,
    body: NExpr,
) -> Result<NExpr, Memory>
    requires { AreAsked types.now (scope_in scope.now) asked.now }
    ensures { IfOk result (λ e. nexpr_of e ≡ spec_lets_around 0 (asked_all types.now (scope_in scope.now) asked.now) (nexpr_of body)) }
{
    let mut whole = body;
    let mut left = asked.len();
    while left > 0 {
        left -= 1;
        whole = let_around(alloc, &asked[left], left, types, scope, whole)?;
    }
    Ok(whole)
}

/// A body behind a let for each term among the arguments of what is of a type, in their order and of the type that is asked of it. The body stands behind these lets
/// already; the word of each binder is `x`. Nothing where one of the arguments is of another sort than is asked. Fails only where memory runs out, a type
/// among the arguments names a variable out of scope, the type of a let has more than 1,500,000 pieces or nests deeper than 2,000, a distance or a number of parts has
/// no 32 bits, or calls would go 2^32 deep.
pub fn behind_lets(
    alloc: Global,
    args: &[NArg],
    ty: TypeId,
    body: NExpr,
    types: &mut TypeTable,
    scope: &TypeScope<'_>,
) -> Result<Option<NExpr>, Memory>
    requires scope { IsScope types.old scope.now }
    requires ty_in { IsType types.old (scope_in scope.now) ty }
    ensures view { IfOk result (λ o. option_map nexpr_of o ≡ spec_behind_lets 0 (shown types.old (scope_in scope.now) ty) (nargs_of args.now) (nexpr_of body)) }
    ensures grows { OnOk result (Grows types.old types.new) }
{
    match terms_asked(alloc, args, ty, types, scope)? {
        None => Ok(None),
        Some(asked) => Ok(Some(lets_around(alloc, asked.as_slice(), types, scope, body)?)),
    }
}
