//! Lets that move outward.
ghost use Rattle.std.specs.Prelude.{◌≡◌, IfOk};
ghost use Rattle.std.specs.Option.{option_map};
ghost use Rattle.fc_model.specs.NamelessView.{nexpr_of};
ghost use Rattle.fc_model.specs.Replacing.{below_values, coercion_variables, renamed, variables};
ghost use Rattle.fc_rows.specs.Commuting.{app_of_let, case_of_let as spec_case_of_let, cast_of_let as spec_cast_of_let, is_value_behind_lets as spec_is_value_behind_lets, let_of_let as spec_let_of_let};
ghost use Rattle.fc_rows.specs.Surroundings.{past_values};

use fc_copies::nameless::{copy_binds, copy_expr};
use fc_forms::{as_application, as_binding, as_case, as_cast, as_single_binding, is_value, let_of};
use fc_numbers::{number, sum};
use fc_subst::{
    NO_BINDERS, Replacement, Shift, substitute, substitute_in_alternatives, substitute_in_argument,
};
use fc_syntax::{Memory, NExpr, Ref};
use std::alloc::Global;

/// A let that is applied: the application moves into the let. Answers none where the expression is no such application. Fails only where memory runs out, a
/// distance or a number of parts has no 32 bits, or calls would go 2^32 deep.
pub fn application_of_let(alloc: Global, e: &NExpr) -> Result<Option<NExpr>, Memory>
    ensures { IfOk result (λ o. option_map nexpr_of o ≡ app_of_let (nexpr_of e.now)) }
{
    let Some(application) = as_application(e) else {
        return Ok(None);
    };
    let Some(binding) = as_binding(application.head) else {
        return Ok(None);
    };
    let past = Replacement::Past(Shift {
        values: number(binding.bindings.len())?,
        ..NO_BINDERS
    });
    let argument = substitute_in_argument(alloc, application.argument, &past)?;
    let head = copy_expr(alloc, binding.body)?;
    let body = NExpr::application(alloc, head, argument)?;
    let bindings = copy_binds(alloc, binding.bindings)?;
    Ok(Some(NExpr::binding(alloc, binding.recursive, bindings, body)?))
}

/// A let that is cast: the cast moves into the let. Answers none where the expression is no such cast. Fails only where memory runs out.
pub fn cast_of_let(alloc: Global, e: &NExpr) -> Result<Option<NExpr>, Memory>
    ensures { IfOk result (λ o. option_map nexpr_of o ≡ spec_cast_of_let (nexpr_of e.now)) }
{
    let Some(cast) = as_cast(e) else {
        return Ok(None);
    };
    let Some(binding) = as_binding(cast.inner) else {
        return Ok(None);
    };
    let inner = copy_expr(alloc, binding.body)?;
    let body = NExpr::cast(alloc, inner, cast.coercion.copy(alloc)?)?;
    let bindings = copy_binds(alloc, binding.bindings)?;
    Ok(Some(NExpr::binding(alloc, binding.recursive, bindings, body)?))
}

/// A case that looks at a let: the case moves into the let. Answers none where the expression is no such case. Fails only where memory runs out, a
/// distance or a number of parts has no 32 bits, or calls would go 2^32 deep.
pub fn case_of_let(alloc: Global, e: &NExpr) -> Result<Option<NExpr>, Memory>
    ensures { IfOk result (λ o. option_map nexpr_of o ≡ spec_case_of_let (nexpr_of e.now)) }
{
    let Some(case) = as_case(e) else {
        return Ok(None);
    };
    let Some(binding) = as_binding(case.scrutinee) else {
        return Ok(None);
    };
    let past = Replacement::Past(Shift {
        values: number(binding.bindings.len())?,
        ..NO_BINDERS
    });
    let alternatives = substitute_in_alternatives(alloc, case.alternatives, 1, &past)?;
    let scrutinee = copy_expr(alloc, binding.body)?;
    let word = case.word.copy(alloc)?;
    let ty = case.ty.copy(alloc)?;
    let answer = case.answer.copy(alloc)?;
    let body = NExpr::case_of(alloc, scrutinee, word, ty, answer, alternatives)?;
    let bindings = copy_binds(alloc, binding.bindings)?;
    Ok(Some(NExpr::binding(alloc, binding.recursive, bindings, body)?))
}

/// An expression with each variable of a value past so many values more, but for the innermost one. Fails only where memory runs out, a distance or a number of
/// parts has no 32 bits, or calls would go 2^32 deep.
fn past_below_one(alloc: Global, e: &NExpr, count: u32) -> Result<NExpr, Memory>
    ensures { IfOk result (λ r. nexpr_of r ≡ renamed (below_values variables coercion_variables 1 (past_values count)) (nexpr_of e.now)) }
{
    let innermost = NExpr::Var(Ref::Local(0));
    let others = Replacement::Past(Shift {
        values: sum(count, 1)?,
        ..NO_BINDERS
    });
    let replacement = Replacement::Value(&innermost, &others);
    substitute(alloc, e, &replacement)
}

/// Whether an expression is a value behind any number of lets.
#[tactic(auto, using(fc_syntax::proofs::View::view_rules))]
fn is_value_behind_lets(e: &NExpr) -> bool
    ensures { result ≡ spec_is_value_behind_lets (nexpr_of e.now) }
{
    match e {
        NExpr::Let(_, _, body) => is_value_behind_lets(body),
        _ => is_value(e),
    }
}

/// A let of a value that stands behind lets: these move out of it. Answers none where the expression is no such let. Fails only where memory runs out, a distance
/// or a number of parts has no 32 bits, or calls would go 2^32 deep.
pub fn let_of_let(alloc: Global, e: &NExpr) -> Result<Option<NExpr>, Memory>
    ensures { IfOk result (λ o. option_map nexpr_of o ≡ spec_let_of_let (nexpr_of e.now)) }
{
    let Some(outer) = as_single_binding(e) else {
        return Ok(None);
    };
    let Some(inner) = as_binding(&outer.binding.rhs) else {
        return Ok(None);
    };
    if !is_value_behind_lets(inner.body) {
        return Ok(None);
    }
    let body = past_below_one(alloc, outer.body, number(inner.bindings.len())?)?;
    let name = outer.binding.name.copy(alloc)?;
    let ty = outer.binding.ty.copy(alloc)?;
    let value = copy_expr(alloc, inner.body)?;
    let within = let_of(alloc, name, ty, value, body)?;
    let bindings = copy_binds(alloc, inner.bindings)?;
    Ok(Some(NExpr::binding(alloc, inner.recursive, bindings, within)?))
}
