//! The expression in a part of another, and what stands around it.
ghost use Rattle.std.specs.Prelude.{◌≡◌, ℕ, suc, IfOk, Some};
ghost use Rattle.std.specs.Option.{option_map};
ghost use Rattle.fc_model.specs.Kinding.{Modules};
ghost use Rattle.fc_model.specs.NamelessView.{nalt_of, nalts_of, narg_of, nargs_of, nbinder_of, nbinders_of, nbinds_of, nexpr_of, nexprs_of, njoins_of, nty_of};
ghost use Rattle.fc_parts.specs.PartsAt.{of_alt, of_arg, of_bind, of_expr, of_join, of_term};
ghost use Rattle.fc_rows.specs.Surroundings.{behind_binder, behind_binders, listed_heads};
ghost use Rattle.fc_known.specs.Around.{HasCounts, surroundings_of};
ghost use Rattle.fc_row_search.specs.Frames.{behind_branch, behind_point, child as spec_child, inner, outer, side_of_alt, side_of_bind, side_of_join};

use fc_known::{Around, Branch, counted};
use fc_parts::head_binds;
use fc_syntax::{Memory, NAlt, NArg, NBind, NBinder, NExpr, NJoinBind, NTy, part};
use std::slice;

/// The expression of an argument that is a term.
#[tactic(auto, using(fc_syntax::proofs::View::view_rules))]
fn term(argument: &NArg) -> Option<&NExpr>
    ensures { option_map (λ e. nexpr_of e.now) result ≡ of_term Some (narg_of argument.now) }
{
    match argument {
        NArg::Term(e) => Some(e),
        NArg::OfType(_) | NArg::OfCo(_) => None,
    }
}

/// The expression of the argument of a number, where it is a term.
#[tactic(auto, using(fc_parts::proofs::PartRules::part_rules))]
fn term_among(arguments: &[NArg], number: u32) -> Option<&NExpr>
    ensures { option_map (λ e. nexpr_of e.now) result ≡ of_arg number (of_term Some) (nargs_of arguments.now) }
{
    match arguments.get(number as usize) {
        Some(argument) => term(argument),
        None => None,
    }
}

/// The operand of a number.
#[tactic(auto, using(fc_parts::proofs::PartRules::part_rules))]
fn operand_among(operands: &[NExpr], number: u32) -> Option<&NExpr>
    ensures { option_map (λ e. nexpr_of e.now) result ≡ of_expr number Some (nexprs_of operands.now) }
{
    match operands.get(number as usize) {
        Some(operand) => Some(operand),
        None => None,
    }
}

/// The right side of the binding of a number.
#[tactic(auto, using(fc_parts::proofs::PartRules::part_rules))]
fn side_of_binding(bindings: &[NBind], number: u32) -> Option<&NExpr>
    ensures { option_map (λ e. nexpr_of e.now) result ≡ of_bind number side_of_bind (nbinds_of bindings.now) }
{
    match bindings.get(number as usize) {
        Some(binding) => Some(&binding.rhs),
        None => None,
    }
}

/// The right side of the join point of a number.
#[tactic(auto, using(fc_parts::proofs::PartRules::part_rules))]
fn side_of_point(points: &[NJoinBind], number: u32) -> Option<&NExpr>
    ensures { option_map (λ e. nexpr_of e.now) result ≡ of_join number side_of_join (njoins_of points.now) }
{
    match points.get(number as usize) {
        Some(point) => Some(&point.rhs),
        None => None,
    }
}

/// The right side of an alternative, where its head may have its binders.
fn side_of(alternative: &NAlt) -> Option<&NExpr>
    ensures { option_map (λ e. nexpr_of e.now) result ≡ side_of_alt (nalt_of alternative.now) }
{
    if head_binds(alternative) {
        Some(&alternative.body)
    } else {
        None
    }
}

/// The right side of the alternative of a number.
#[tactic(auto, using(fc_parts::proofs::PartRules::part_rules))]
fn side_among(alternatives: &[NAlt], number: u32) -> Option<&NExpr>
    ensures { option_map (λ e. nexpr_of e.now) result ≡ of_alt number side_of_alt (nalts_of alternatives.now) }
{
    match alternatives.get(number as usize) {
        Some(alternative) => side_of(alternative),
        None => None,
    }
}

/// The expression in a case: what it looks at, or the right side of an alternative.
fn child_of_case<'x>(
    scrutinee: &'x NExpr,
    alternatives: &'x [NAlt],
    number: u32,
) -> Option<&'x NExpr>
    ensures zero { number ≡ 0 → option_map (λ e. nexpr_of e.now) result ≡ Some (nexpr_of scrutinee.now) }
    ensures more { (k : ℕ) → number ≡ suc k → option_map (λ e. nexpr_of e.now) result ≡ of_alt k side_of_alt (nalts_of alternatives.now) }
{
    match number.checked_sub(1) {
        None => Some(scrutinee),
        Some(number) => side_among(alternatives, number),
    }
}

/// The expression in the part of a number among those that are searched, where there is one.
#[tactic(auto, using(fc_syntax::proofs::View::view_rules, fc_parts::proofs::PartRules::part_rules))]
pub(crate) fn child(e: &NExpr, number: u32) -> Option<&NExpr>
    ensures { option_map (λ e. nexpr_of e.now) result ≡ spec_child number (nexpr_of e.now) }
{
    match e {
        NExpr::Var(_) | NExpr::Lit(_) | NExpr::Fail(_) => None,
        NExpr::App(head, argument) => match number {
            part::HEAD => Some(head),
            part::ARGUMENT => term(argument),
            _ => None,
        },
        NExpr::Lam(_, body) => Some(body),
        NExpr::Let(_, bindings, body) => {
            if number as usize == bindings.len() {
                Some(body)
            } else {
                side_of_binding(bindings.as_slice(), number)
            }
        }
        NExpr::Case(scrutinee, _, _, _, alternatives) => {
            child_of_case(scrutinee, alternatives.as_slice(), number)
        }
        NExpr::Cast(inner, _) => Some(inner),
        NExpr::Con(_, arguments) | NExpr::Jump(_, arguments) => {
            term_among(arguments.as_slice(), number)
        }
        NExpr::Prim(_, operands) => operand_among(operands.as_slice(), number),
        NExpr::Join(_, _, points, body) => {
            if number as usize == points.len() {
                Some(body)
            } else {
                side_of_point(points.as_slice(), number)
            }
        }
    }
}

/// What stands around the part of a number, first: another frame may be in it.
#[tactic(auto, using(fc_syntax::proofs::View::view_rules, fc_parts::proofs::PartRules::part_rules))]
pub(crate) fn outer_frame<'x>(e: &'x NExpr, number: u32, around: &'x Around<'x>) -> Around<'x>
    requires { HasCounts around.now }
    ensures counts { HasCounts result }
    ensures stands { (ms : Modules) → surroundings_of ms result ≡ outer number (nexpr_of e.now) (surroundings_of ms around.now) }
{
    match e {
        NExpr::App(_, argument) if number == part::HEAD => Around::Head(argument, around),
        NExpr::Let(recursive, bindings, _) => {
            if number as usize == bindings.len() || *recursive {
                Around::Group(*recursive, bindings.as_slice(), around)
            } else {
                *around
            }
        }
        NExpr::Case(_, _, _, _, _) if number != part::SCRUTINEE => *around,
        NExpr::Join(recursive, ty, points, _) => {
            if number as usize == points.len() || *recursive {
                Around::Joins(*recursive, ty, points.as_slice(), around)
            } else {
                Around::Unapplied(around)
            }
        }
        _ => Around::Apart(around),
    }
}

/// Behind binders of which nothing is known. Fails where a number of them has no 32 bits.
fn behind<'x>(binders: &'x [NBinder], outer: &'x Around<'x>) -> Result<Around<'x>, Memory>
    requires { HasCounts outer.now }
    ensures counts { IfOk result HasCounts }
    ensures stands { (ms : Modules) → IfOk result (λ a. surroundings_of ms a ≡ behind_binders (nbinders_of binders.now) (surroundings_of ms outer.now)) }
{
    Ok(Around::Binders(binders, counted(binders)?, outer))
}

/// Behind one binder of which nothing is known.
fn behind_one<'x>(binder: &'x NBinder, outer: &'x Around<'x>) -> Result<Around<'x>, Memory>
    requires { HasCounts outer.now }
    ensures counts { IfOk result HasCounts }
    ensures stands { (ms : Modules) → IfOk result (λ a. surroundings_of ms a ≡ behind_binder (nbinder_of binder.now) (surroundings_of ms outer.now)) }
{
    behind(slice::from_ref(binder), outer)
}

/// Behind the parameters of the join point of a number.
#[tactic(auto, using(fc_parts::proofs::PartRules::part_rules, crate::proofs::Counted::count_rules))]
fn behind_parameters<'x>(
    points: &'x [NJoinBind],
    number: u32,
    outer: &'x Around<'x>,
) -> Result<Around<'x>, Memory>
    requires { HasCounts outer.now }
    ensures counts { IfOk result HasCounts }
    ensures stands { (ms : Modules) → IfOk result (λ a. surroundings_of ms a ≡ behind_point number (njoins_of points.now) (surroundings_of ms outer.now)) }
{
    match points.get(number as usize) {
        Some(point) => behind(point.params.as_slice(), outer),
        None => Ok(*outer),
    }
}

/// In the alternative of a number.
#[tactic(auto, using(crate::proofs::Counted::count_rules))]
fn in_alternative<'x>(
    scrutinee: &'x NExpr,
    ty: &'x NTy,
    alternatives: &'x [NAlt],
    number: u32,
    outer: &'x Around<'x>,
) -> Result<Around<'x>, Memory>
    requires { HasCounts outer.now }
    ensures counts { IfOk result HasCounts }
    ensures stands { (ms : Modules) → IfOk result (λ a. surroundings_of ms a ≡ behind_branch (nexpr_of scrutinee.now) (nty_of ty.now) (listed_heads (nalts_of alternatives.now)) number (nalts_of alternatives.now) (surroundings_of ms outer.now)) }
{
    let Some(alternative) = alternatives.get(number as usize) else {
        return Ok(*outer);
    };
    let own = counted(alternative.binders.as_slice())?;
    let branch = Branch {
        scrutinee,
        ty,
        alternatives,
        alternative,
        own,
    };
    Ok(Around::Alternative(branch, outer))
}

/// In a case: in what it looks at nothing more stands around.
fn in_case<'x>(
    scrutinee: &'x NExpr,
    ty: &'x NTy,
    alternatives: &'x [NAlt],
    number: u32,
    outer: &'x Around<'x>,
) -> Result<Around<'x>, Memory>
    requires { HasCounts outer.now }
    ensures counts { IfOk result HasCounts }
    ensures zero { (ms : Modules) → number ≡ 0 → IfOk result (λ a. surroundings_of ms a ≡ surroundings_of ms outer.now) }
    ensures more { (ms : Modules) (k : ℕ) → number ≡ suc k → IfOk result (λ a. surroundings_of ms a ≡ behind_branch (nexpr_of scrutinee.now) (nty_of ty.now) (listed_heads (nalts_of alternatives.now)) k (nalts_of alternatives.now) (surroundings_of ms outer.now)) }
{
    match number.checked_sub(1) {
        None => Ok(*outer),
        Some(number) => in_alternative(scrutinee, ty, alternatives, number, outer),
    }
}

/// What stands around the part of a number in the frame before. Fails where a number of binders has no 32 bits.
#[tactic(auto, using(fc_syntax::proofs::View::view_rules, fc_parts::proofs::PartRules::part_rules))]
pub(crate) fn inner_frame<'x, 'y>(
    e: &'x NExpr,
    number: u32,
    outer: &'y Around<'x>,
) -> Result<Around<'y>, Memory>
    requires { HasCounts outer.now }
    ensures counts { IfOk result HasCounts }
    ensures stands { (ms : Modules) → IfOk result (λ a. surroundings_of ms a ≡ inner number (nexpr_of e.now) (surroundings_of ms outer.now)) }
{
    match e {
        NExpr::Lam(binder, _) => behind_one(binder, outer),
        NExpr::Let(_, bindings, _) if number as usize != bindings.len() => Ok(Around::Apart(outer)),
        NExpr::Case(scrutinee, _, ty, _, alternatives) => {
            in_case(scrutinee, ty, alternatives.as_slice(), number, outer)
        }
        NExpr::Join(_, _, points, _) => behind_parameters(points.as_slice(), number, outer),
        _ => Ok(*outer),
    }
}
