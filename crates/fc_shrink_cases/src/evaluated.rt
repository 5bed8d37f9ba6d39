//! Cases of what is evaluated already.
ghost use Rattle.std.specs.Prelude.{◌≡◌, IfOk};
ghost use Rattle.std.specs.Option.{option_map};
ghost use Rattle.fc_model.specs.Kinding.{Modules};
ghost use Rattle.fc_model.specs.NamelessView.{nexpr_of};
ghost use Rattle.fc_rows.specs.Shrinking.{case_evaluated as spec_case_evaluated, is_con as spec_is_con, is_evaluated_atom, known};
ghost use Rattle.fc_rows.specs.Surroundings.{Surroundings};
ghost use Rattle.fc_known.specs.Told.{told};
ghost use Rattle.fc_shrink_cases.specs.Cases.{is_unlifted_local, scrutinee_of};

use crate::heads::is_evaluated;
use fc_copies::nameless::copy_expr;
use fc_forms::{as_case, is_value, let_of, only_default};
use fc_known::Fact;
use fc_subst::{Replacement, substitute};
use fc_syntax::{Memory, NExpr, Ref};
use std::alloc::Global;

/// Whether an expression is a literal, or a variable that is known to be evaluated or is of an unlifted type.
#[tactic(auto, using(fc_syntax::proofs::View::view_rules))]
fn is_evaluated_variable(e: &NExpr, fact: &Fact, unlifted: bool) -> bool
    ensures { (ms : Modules) (s : Surroundings) → told fact.now ≡ known s (nexpr_of e.now) → unlifted ≡ is_unlifted_local ms s (nexpr_of e.now) → result ≡ is_evaluated_atom ms s (nexpr_of e.now) }
{
    match e {
        NExpr::Lit(_) => true,
        NExpr::Var(Ref::Local(_)) => is_evaluated(fact) || unlifted,
        NExpr::Var(Ref::Top(_)) => is_evaluated(fact),
        _ => false,
    }
}

/// Whether an expression is a constructor with its arguments.
#[tactic(auto, using(fc_syntax::proofs::View::view_rules))]
fn is_con(e: &NExpr) -> bool
    ensures { result ≡ spec_is_con (nexpr_of e.now) }
{
    match e {
        NExpr::Con(_, _) => true,
        _ => false,
    }
}

/// A case whose only alternative is a default and that looks at what is evaluated already: at a variable or a literal, as the alternative with that in place of the case
/// binder; at a value that is no constructor, as a let of it. `fact` is what is known of what it looks at, and `unlifted` is whether that is a local variable of an
/// unlifted type. Answers none where the expression is no such case. Fails only where memory runs out, a distance or a number of parts has no 32 bits, or calls
/// would go 2^32 deep.
pub fn case_evaluated(
    alloc: Global,
    e: &NExpr,
    fact: &Fact,
    unlifted: bool,
) -> Result<Option<NExpr>, Memory>
    ensures { (ms : Modules) (s : Surroundings) → told fact.now ≡ known s (scrutinee_of (nexpr_of e.now)) → unlifted ≡ is_unlifted_local ms s (scrutinee_of (nexpr_of e.now)) → IfOk result (λ o. option_map nexpr_of o ≡ spec_case_evaluated ms s (nexpr_of e.now)) }
{
    let Some(case) = as_case(e) else {
        return Ok(None);
    };
    let Some(body) = only_default(case.alternatives) else {
        return Ok(None);
    };
    if is_evaluated_variable(case.scrutinee, fact, unlifted) {
        let others = Replacement::Same;
        let replacement = Replacement::Value(case.scrutinee, &others);
        return Ok(Some(substitute(alloc, body, &replacement)?));
    }
    if !is_value(case.scrutinee) || is_con(case.scrutinee) {
        return Ok(None);
    }
    let word = case.word.copy(alloc)?;
    let ty = case.ty.copy(alloc)?;
    let scrutinee = copy_expr(alloc, case.scrutinee)?;
    let body = copy_expr(alloc, body)?;
    Ok(Some(let_of(alloc, word, ty, scrutinee, body)?))
}
