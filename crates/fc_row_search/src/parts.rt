//! The parts of an expression that are searched.
ghost use Rattle.std.specs.Prelude.{◌≡◌, ◌∷◌, ◌+◌, ℕ, suc, [], IfOk, length, nat_eq, if◌then◌else◌};
ghost use Rattle.std.specs.Option.{option_map};
ghost use Rattle.fc_model.specs.NamelessView.{nalts_of, nexpr_of, njoins_of};
ghost use Rattle.fc_search_laws.specs.Searching.{alt_place, alternatives_of as spec_alternatives_of, begun as spec_begun, join_place, part_count as spec_part_count, part_place, rest_behind};
ghost use Rattle.fc_row_search.specs.Spots.{part_of};

use fc_numbers::{number, sum};
use fc_syntax::{Memory, NAlt, NExpr, NJoinBind, part};

/// The place of a part, which is one number long or two.
#[derive(Clone, Copy)]
pub(crate) struct Part {
    /// The first number.
    pub(crate) first: u32,
    /// The second.
    pub(crate) second: Option<u32>,
}

/// The part of a number.
fn alone(first: u32) -> Part
    ensures { part_of result ≡ first ∷ [] }
{
    Part {
        first,
        second: None,
    }
}

/// The part of a number, and in it the part of another.
fn further(first: u32, second: u32) -> Part
    ensures { part_of result ≡ first ∷ second ∷ [] }
{
    Part {
        first,
        second: Some(second),
    }
}

/// How many parts of an expression are searched. Fails where their number has no 32 bits.
#[tactic(auto, using(fc_syntax::proofs::View::view_rules, crate::proofs::Counted::count_rules))]
pub(crate) fn part_count(e: &NExpr) -> Result<u32, Memory>
    ensures { IfOk result (λ n. n ≡ spec_part_count (nexpr_of e.now)) }
{
    match e {
        NExpr::Var(_) | NExpr::Lit(_) | NExpr::Fail(_) => Ok(0),
        NExpr::App(_, _) => Ok(2),
        NExpr::Lam(_, _) | NExpr::Cast(_, _) => Ok(1),
        NExpr::Let(_, bindings, _) => sum(number(bindings.len())?, 1),
        NExpr::Case(_, _, _, _, alternatives) => sum(number(alternatives.len())?, 1),
        NExpr::Con(_, arguments) | NExpr::Jump(_, arguments) => number(arguments.len()),
        NExpr::Prim(_, operands) => number(operands.len()),
        NExpr::Join(_, _, points, _) => sum(number(points.len())?, 1),
    }
}

/// How many alternatives a case has; of another expression 0.
#[tactic(auto, using(fc_syntax::proofs::View::view_rules, crate::proofs::Counted::count_rules))]
pub(crate) fn alternatives_of(e: &NExpr) -> usize
    ensures { result ≡ spec_alternatives_of (nexpr_of e.now) }
{
    match e {
        NExpr::Case(_, _, _, _, alternatives) => alternatives.len(),
        NExpr::Var(_) | NExpr::Lit(_) | NExpr::Fail(_) => 0,
        NExpr::App(_, _) | NExpr::Lam(_, _) | NExpr::Let(_, _, _) | NExpr::Cast(_, _) => 0,
        NExpr::Con(_, _) | NExpr::Prim(_, _) | NExpr::Join(_, _, _, _) | NExpr::Jump(_, _) => 0,
    }
}

/// The part of an alternative that is searched, its right side. `first` is the number of the alternative among the parts of its case.
#[tactic(auto, using(crate::proofs::Counted::count_rules))]
fn part_of_alternative(alternatives: &[NAlt], at: u32, first: u32) -> Result<Part, Memory>
    ensures { IfOk result (λ p. part_of p ≡ alt_place first at (nalts_of alternatives.now)) }
{
    match alternatives.get(at as usize) {
        Some(alternative) => Ok(further(first, number(alternative.binders.len())?)),
        None => Ok(alone(first)),
    }
}

/// The part of a join point that is searched, its right side. `first` is the number of the join point among the parts of the expression.
#[tactic(auto, using(crate::proofs::Counted::count_rules))]
fn part_of_point(points: &[NJoinBind], at: u32, first: u32) -> Result<Part, Memory>
    ensures { IfOk result (λ p. part_of p ≡ join_place first at (njoins_of points.now)) }
{
    match points.get(at as usize) {
        Some(point) => Ok(further(first, number(point.params.len())?)),
        None => Ok(alone(first)),
    }
}

/// The part of an expression with join points.
fn part_among_points(points: &[NJoinBind], at: u32) -> Result<Part, Memory>
    ensures { IfOk result (λ p. part_of p ≡ (if nat_eq at (length points.now) then (at + 1) ∷ [] else join_place (at + 1) at (njoins_of points.now))) }
{
    let first = sum(at, part::FIRST_JOIN)?;
    if at as usize == points.len() {
        Ok(alone(first))
    } else {
        part_of_point(points, at, first)
    }
}

/// The part of a case: what it looks at, or the right side of an alternative.
fn part_of_case(alternatives: &[NAlt], at: u32) -> Result<Part, Memory>
    ensures zero { IfOk result (λ p. at ≡ 0 → part_of p ≡ 0 ∷ []) }
    ensures more { (k : ℕ) → at ≡ suc k → IfOk result (λ p. part_of p ≡ alt_place (3 + k) k (nalts_of alternatives.now)) }
{
    match at.checked_sub(1) {
        None => Ok(alone(part::SCRUTINEE)),
        Some(at) => part_of_alternative(alternatives, at, sum(at, part::FIRST_ALTERNATIVE)?),
    }
}

/// The part of a number among those of an expression that are searched.
#[tactic(auto, using(fc_syntax::proofs::View::view_rules, crate::proofs::Counted::count_rules))]
pub(crate) fn part_at(e: &NExpr, at: u32) -> Result<Part, Memory>
    ensures { IfOk result (λ p. part_of p ≡ part_place at (nexpr_of e.now)) }
{
    match e {
        NExpr::Var(_) | NExpr::Lit(_) | NExpr::Fail(_) => Ok(alone(at)),
        NExpr::App(_, _) | NExpr::Con(_, _) => Ok(alone(at)),
        NExpr::Prim(_, _) | NExpr::Jump(_, _) => Ok(alone(at)),
        NExpr::Lam(_, _) => Ok(alone(part::BODY)),
        NExpr::Cast(_, _) => Ok(alone(part::HEAD)),
        NExpr::Let(_, bindings, _) => {
            if at as usize == bindings.len() {
                Ok(alone(at))
            } else {
                Ok(further(at, part::RIGHT_SIDE))
            }
        }
        NExpr::Case(_, _, _, _, alternatives) => part_of_case(alternatives.as_slice(), at),
        NExpr::Join(_, _, points, _) => part_among_points(points.as_slice(), at),
    }
}

/// What is left of a place behind a part; all of a place that has no numbers.
pub(crate) fn begun<'a>(part: &Part, place: &'a [u32]) -> Option<&'a [u32]>
    ensures { option_map (λ p. p.now) result ≡ spec_begun (part_of part.now) place.now }
{
    let Some((first, rest)) = place.split_first() else {
        return Some(place);
    };
    if part.first != *first {
        return None;
    }
    match part.second {
        None => Some(rest),
        Some(second) => behind(second, rest),
    }
}

/// What is left of a place behind a number.
fn behind(number: u32, place: &[u32]) -> Option<&[u32]>
    ensures { option_map (λ p. p.now) result ≡ rest_behind (number ∷ []) place.now }
{
    match place.split_first() {
        Some((first, rest)) if *first == number => Some(rest),
        _ => None,
    }
}
