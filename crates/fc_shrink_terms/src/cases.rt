//! A case in the default of a case on the same variable, and a cast of a cast.
ghost use Rattle.std.specs.Prelude.{◌≡◌, IfOk};
ghost use Rattle.std.specs.Option.{option_map};
ghost use Rattle.fc_model.specs.NamelessView.{nexpr_of};
ghost use Rattle.fc_rows.specs.Shrinking.{case_merge as spec_case_merge, cast_cast as spec_cast_cast};

use fc_copies::nameless::copy_expr;
use fc_forms::{as_case, as_cast, is_innermost, only_default};
use fc_subst::{Replacement, substitute_in_alternatives};
use fc_syntax::{Memory, NCo, NExpr, Ref};
use std::alloc::Global;

/// A case whose only alternative is a default that looks at the case binder again, as one case with the alternatives of the inner one (case merging). Answers none
/// where the expression is no such case. Fails only where memory runs out, a distance or a number of parts has no 32 bits, or calls would go 2^32 deep.
pub fn case_merge(alloc: Global, e: &NExpr) -> Result<Option<NExpr>, Memory>
    ensures { IfOk result (λ o. option_map nexpr_of o ≡ spec_case_merge (nexpr_of e.now)) }
{
    let Some(outer) = as_case(e) else {
        return Ok(None);
    };
    let Some(body) = only_default(outer.alternatives) else {
        return Ok(None);
    };
    let Some(inner) = as_case(body) else {
        return Ok(None);
    };
    if !is_innermost(inner.scrutinee) {
        return Ok(None);
    }
    let binder = NExpr::Var(Ref::Local(0));
    let others = Replacement::Same;
    let replacement = Replacement::Value(&binder, &others);
    let alternatives = substitute_in_alternatives(alloc, inner.alternatives, 0, &replacement)?;
    let scrutinee = copy_expr(alloc, outer.scrutinee)?;
    let word = outer.word.copy(alloc)?;
    let ty = outer.ty.copy(alloc)?;
    let answer = outer.answer.copy(alloc)?;
    Ok(Some(NExpr::case_of(alloc, scrutinee, word, ty, answer, alternatives)?))
}

/// A cast of a cast, as one cast by both coercions. Answers none where the expression is no such cast. Fails only where memory runs out.
pub fn cast_cast(alloc: Global, e: &NExpr) -> Result<Option<NExpr>, Memory>
    ensures { IfOk result (λ o. option_map nexpr_of o ≡ spec_cast_cast (nexpr_of e.now)) }
{
    let Some(outer) = as_cast(e) else {
        return Ok(None);
    };
    let Some(inner) = as_cast(outer.inner) else {
        return Ok(None);
    };
    let first = inner.coercion.copy(alloc)?;
    let second = outer.coercion.copy(alloc)?;
    let both = NCo::transitive(alloc, first, second)?;
    let innermost = copy_expr(alloc, inner.inner)?;
    Ok(Some(NExpr::cast(alloc, innermost, both)?))
}
