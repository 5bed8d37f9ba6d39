//! The exchange of the expression at a place.
ghost use Rattle.std.specs.Prelude.{◌≡◌, ◌∷◌, IfErr};
ghost use Rattle.fc_syntax.specs.View.{expr_of, arg_of, bind_of, join_of, alt_of};
ghost use Rattle.fc_places.specs.Places.{answered, exchanged, exchanged_in_alt, exchanged_in_bind, exchanged_in_join, in_term};

use fc_syntax::{NAlt, NArg, NBind, NExpr, NJoinBind, part};
use std::mem;

/// Puts `by` at a place of an expression, and answers what stood there. A place is a list of part numbers, from the outermost part inwards; the place without
/// numbers is that of the whole. Where no expression stands at the place, `by` comes back as the error, and the expression is as before. Takes no memory.
#[cycle(exchange)]
#[tactic(auto, using(fc_syntax::proofs::View::view_rules, crate::proofs::Exchanges::exchange_rules))]
pub fn exchange(e: &mut NExpr, place: &[u32], by: NExpr) -> Result<NExpr, NExpr>
    ensures answer { answered result (expr_of e.new) ≡ exchanged (expr_of by) place.now (expr_of e.old) }
    ensures back { IfErr result (λ given. expr_of given ≡ expr_of by) }
    ensures unchanged { IfErr result (λ _. expr_of e.new ≡ expr_of e.old) }
{
    match place.split_first() {
        None => Ok(mem::replace(e, by)),
        Some((number, rest)) => exchange_in_part(e, *number, rest, by),
    }
}

#[cycle(exchange)]
#[tactic(auto, using(fc_syntax::proofs::View::view_rules, crate::proofs::Exchanges::exchange_rules))]
fn exchange_in_part(e: &mut NExpr, number: u32, rest: &[u32], by: NExpr) -> Result<NExpr, NExpr>
    ensures answer { answered result (expr_of e.new) ≡ exchanged (expr_of by) (number ∷ rest.now) (expr_of e.old) }
    ensures back { IfErr result (λ given. expr_of given ≡ expr_of by) }
    ensures unchanged { IfErr result (λ _. expr_of e.new ≡ expr_of e.old) }
{
    match e {
        NExpr::Var(_) => Err(by),
        NExpr::Lit(_) => Err(by),
        NExpr::App(head, argument) => {
            if number == part::HEAD {
                exchange_in_box(head, rest, by)
            } else if number == part::ARGUMENT {
                exchange_in_boxed_argument(argument, rest, by)
            } else {
                Err(by)
            }
        }
        NExpr::Lam(_, body) => {
            if number == part::BODY {
                exchange_in_box(body, rest, by)
            } else {
                Err(by)
            }
        }
        NExpr::Let(_, binds, body) => {
            let number = number as usize;
            if number == binds.len() {
                exchange_in_box(body, rest, by)
            } else if number < binds.len() {
                exchange_in_bind(binds.at_mut(number), rest, by)
            } else {
                Err(by)
            }
        }
        NExpr::Case(scrutinee, _, _, _, alts) => {
            if number == part::SCRUTINEE {
                exchange_in_box(scrutinee, rest, by)
            } else if number < part::FIRST_ALTERNATIVE {
                Err(by)
            } else {
                let number = (number - part::FIRST_ALTERNATIVE) as usize;
                if number < alts.len() {
                    exchange_in_alternative(alts.at_mut(number), rest, by)
                } else {
                    Err(by)
                }
            }
        }
        NExpr::Cast(inner, _) => {
            if number == part::HEAD {
                exchange_in_box(inner, rest, by)
            } else {
                Err(by)
            }
        }
        NExpr::Con(_, args) => {
            let number = number as usize;
            if number < args.len() {
                exchange_in_argument(args.at_mut(number), rest, by)
            } else {
                Err(by)
            }
        }
        NExpr::Prim(_, operands) => {
            let number = number as usize;
            if number < operands.len() {
                exchange(operands.at_mut(number), rest, by)
            } else {
                Err(by)
            }
        }
        NExpr::Fail(_) => Err(by),
        NExpr::Join(_, _, joins, body) => {
            if number < part::FIRST_JOIN {
                Err(by)
            } else {
                let number = (number - part::FIRST_JOIN) as usize;
                if number == joins.len() {
                    exchange_in_box(body, rest, by)
                } else if number < joins.len() {
                    exchange_in_join(joins.at_mut(number), rest, by)
                } else {
                    Err(by)
                }
            }
        }
        NExpr::Jump(_, args) => {
            let number = number as usize;
            if number < args.len() {
                exchange_in_argument(args.at_mut(number), rest, by)
            } else {
                Err(by)
            }
        }
    }
}

#[cycle(exchange)]
fn exchange_in_box(e: &mut Box<NExpr>, place: &[u32], by: NExpr) -> Result<NExpr, NExpr>
    ensures answer { answered result (expr_of e.new.value) ≡ exchanged (expr_of by) place.now (expr_of e.old.value) }
    ensures back { IfErr result (λ given. expr_of given ≡ expr_of by) }
    ensures unchanged { IfErr result (λ _. expr_of e.new.value ≡ expr_of e.old.value) }
{
    exchange(&mut **e, place, by)
}

#[cycle(exchange)]
fn exchange_in_boxed_argument(a: &mut Box<NArg>, place: &[u32], by: NExpr) -> Result<NExpr, NExpr>
    ensures answer { answered result (arg_of a.new.value) ≡ in_term (exchanged (expr_of by) place.now) (arg_of a.old.value) }
    ensures back { IfErr result (λ given. expr_of given ≡ expr_of by) }
    ensures unchanged { IfErr result (λ _. arg_of a.new.value ≡ arg_of a.old.value) }
{
    exchange_in_argument(&mut **a, place, by)
}

#[cycle(exchange)]
#[tactic(auto, using(fc_syntax::proofs::View::view_rules, crate::proofs::Exchanges::exchange_rules))]
fn exchange_in_argument(a: &mut NArg, place: &[u32], by: NExpr) -> Result<NExpr, NExpr>
    ensures answer { answered result (arg_of a.new) ≡ in_term (exchanged (expr_of by) place.now) (arg_of a.old) }
    ensures back { IfErr result (λ given. expr_of given ≡ expr_of by) }
    ensures unchanged { IfErr result (λ _. arg_of a.new ≡ arg_of a.old) }
{
    match a {
        NArg::Term(e) => exchange(e, place, by),
        NArg::OfType(_) => Err(by),
        NArg::OfCo(_) => Err(by),
    }
}

#[cycle(exchange)]
#[tactic(auto, using(fc_syntax::proofs::View::view_rules, crate::proofs::Exchanges::exchange_rules))]
fn exchange_in_bind(bind: &mut NBind, place: &[u32], by: NExpr) -> Result<NExpr, NExpr>
    ensures answer { answered result (bind_of bind.new) ≡ exchanged_in_bind (expr_of by) place.now (bind_of bind.old) }
    ensures back { IfErr result (λ given. expr_of given ≡ expr_of by) }
    ensures unchanged { IfErr result (λ _. bind_of bind.new ≡ bind_of bind.old) }
{
    match place.split_first() {
        None => Err(by),
        Some((number, rest)) => {
            if *number == part::RIGHT_SIDE {
                exchange(&mut bind.rhs, rest, by)
            } else {
                Err(by)
            }
        }
    }
}

#[cycle(exchange)]
#[tactic(auto, using(fc_syntax::proofs::View::view_rules, crate::proofs::Exchanges::exchange_rules))]
fn exchange_in_join(join: &mut NJoinBind, place: &[u32], by: NExpr) -> Result<NExpr, NExpr>
    ensures answer { answered result (join_of join.new) ≡ exchanged_in_join (expr_of by) place.now (join_of join.old) }
    ensures back { IfErr result (λ given. expr_of given ≡ expr_of by) }
    ensures unchanged { IfErr result (λ _. join_of join.new ≡ join_of join.old) }
{
    match place.split_first() {
        None => Err(by),
        Some((number, rest)) => {
            if *number as usize == join.params.len() {
                exchange(&mut join.rhs, rest, by)
            } else {
                Err(by)
            }
        }
    }
}

#[cycle(exchange)]
#[tactic(auto, using(fc_syntax::proofs::View::view_rules, crate::proofs::Exchanges::exchange_rules))]
fn exchange_in_alternative(alt: &mut NAlt, place: &[u32], by: NExpr) -> Result<NExpr, NExpr>
    ensures answer { answered result (alt_of alt.new) ≡ exchanged_in_alt (expr_of by) place.now (alt_of alt.old) }
    ensures back { IfErr result (λ given. expr_of given ≡ expr_of by) }
    ensures unchanged { IfErr result (λ _. alt_of alt.new ≡ alt_of alt.old) }
{
    match place.split_first() {
        None => Err(by),
        Some((number, rest)) => {
            if *number as usize == alt.binders.len() {
                exchange(&mut alt.body, rest, by)
            } else {
                Err(by)
            }
        }
    }
}
