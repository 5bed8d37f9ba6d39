//! Which expressions are trivial, which are values, and which types are unlifted.
ghost use Rattle.std.specs.Prelude.{◌≡◌};
ghost use Rattle.fc_model.specs.Calling.{is_unlifted as spec_is_unlifted};
ghost use Rattle.fc_model.specs.NamelessView.{nargs_of, nexpr_of, nty_of};
ghost use Rattle.fc_rows.specs.Shrinking.{are_trivial as spec_are_trivial, is_trivial as spec_is_trivial};
ghost use Rattle.fc_rows.specs.Surroundings.{is_value as spec_is_value};

use fc_syntax::{NArg, NBinder, NExpr, NTy};

/// Whether an expression is trivial: a variable or a literal, at any number of types and under any number of casts.
#[tactic(auto, using(fc_syntax::proofs::View::view_rules))]
pub fn is_trivial(e: &NExpr) -> bool
    ensures { result ≡ spec_is_trivial (nexpr_of e.now) }
{
    match e {
        NExpr::Var(_) => true,
        NExpr::Lit(_) => true,
        NExpr::App(head, argument) => match &**argument {
            NArg::OfType(_) => is_trivial(head),
            _ => false,
        },
        NExpr::Cast(inner, _) => is_trivial(inner),
        _ => false,
    }
}

/// Whether each term among arguments is trivial.
pub fn are_trivial(arguments: &[NArg]) -> bool
    ensures { result ≡ spec_are_trivial (nargs_of arguments.now) }
{
    match arguments.split_first() {
        None => true,
        Some((NArg::Term(e), rest)) => is_trivial(e) && are_trivial(rest),
        Some((_, rest)) => are_trivial(rest),
    }
}

/// Whether an expression is a value: a constructor, a lambda over a value or a coercion, one over a type around a value, or a cast of a value.
#[tactic(auto, using(fc_syntax::proofs::View::view_rules))]
pub fn is_value(e: &NExpr) -> bool
    ensures { result ≡ spec_is_value (nexpr_of e.now) }
{
    match e {
        NExpr::Lam(binder, body) => match &**binder {
            NBinder::OfType(_, _) => is_value(body),
            _ => true,
        },
        NExpr::Cast(inner, _) => is_value(inner),
        NExpr::Con(_, _) => true,
        _ => false,
    }
}

/// Whether values of a type are there at once, and none is put off.
#[tactic(auto, using(fc_syntax::proofs::View::view_rules))]
pub fn is_unlifted(t: &NTy) -> bool
    ensures { result ≡ spec_is_unlifted (nty_of t.now) }
{
    match t {
        NTy::IntHash => true,
        NTy::Var(_) => false,
        NTy::Con(_) => false,
        NTy::App(_, _) => false,
        NTy::Fun(_, _) => false,
        NTy::Forall(_, _, _) => false,
        NTy::CoForall(_, _, _, _) => false,
    }
}
