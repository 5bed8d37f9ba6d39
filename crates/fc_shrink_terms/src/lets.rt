//! Lets of one binding whose right side comes in place of the variable.
ghost use Rattle.std.specs.Prelude.{◌≡◌, IfOk};
ghost use Rattle.std.specs.Option.{option_map};
ghost use Rattle.fc_model.specs.NamelessView.{nexpr_of};
ghost use Rattle.fc_model.specs.Replacing.{replaced, value_alone};
ghost use Rattle.fc_rows.specs.Shrinking.{let_atom as spec_let_atom, let_once as spec_let_once};

use fc_forms::{as_single_binding, is_trivial, is_unlifted};
use fc_occur::occurrences_of_innermost;
use fc_rows::Occurrence;
use fc_subst::{Replacement, substitute};
use fc_syntax::{Memory, NExpr};
use std::alloc::Global;

/// An expression with another in place of the innermost variable (substitution of one variable). Fails only where memory runs out, a distance or a number of
/// parts has no 32 bits, or calls would go 2^32 deep.
fn inlined(alloc: Global, value: &NExpr, body: &NExpr) -> Result<NExpr, Memory>
    ensures { IfOk result (λ e. nexpr_of e ≡ replaced (value_alone (nexpr_of value.now)) (nexpr_of body.now)) }
{
    let others = Replacement::Same;
    let replacement = Replacement::Value(value, &others);
    substitute(alloc, body, &replacement)
}

/// A let of what is trivial, as the body with that in place of the variable. Answers none where the expression is no such let. Fails only where memory runs out, a
/// distance or a number of parts has no 32 bits, or calls would go 2^32 deep.
pub fn let_atom(alloc: Global, e: &NExpr) -> Result<Option<NExpr>, Memory>
    ensures { IfOk result (λ o. option_map nexpr_of o ≡ spec_let_atom (nexpr_of e.now)) }
{
    let Some(parts) = as_single_binding(e) else {
        return Ok(None);
    };
    if !is_trivial(&parts.binding.rhs) {
        return Ok(None);
    }
    Ok(Some(inlined(alloc, &parts.binding.rhs, parts.body)?))
}

/// A let of a lifted type whose variable occurs once, neither inside a lambda nor as an argument of a constructor, as the body with the right side in place of
/// the variable (`preInlineUnconditionally` of "Secrets of the Glasgow Haskell Compiler inliner"). Answers none where the expression is no such let. Fails only
/// where memory runs out, a distance or a number of parts has no 32 bits, or calls would go 2^32 deep.
pub fn let_once(alloc: Global, e: &NExpr) -> Result<Option<NExpr>, Memory>
    ensures { IfOk result (λ o. option_map nexpr_of o ≡ spec_let_once (nexpr_of e.now)) }
{
    let Some(parts) = as_single_binding(e) else {
        return Ok(None);
    };
    if is_unlifted(&parts.binding.ty) {
        return Ok(None);
    }
    match occurrences_of_innermost(parts.body, 1)? {
        Occurrence::Once => Ok(Some(inlined(alloc, &parts.binding.rhs, parts.body)?)),
        _ => Ok(None),
    }
}
