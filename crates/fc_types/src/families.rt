//! Families, and whether one is applied in full.
ghost use Rattle.std.specs.Prelude.{◌≡◌, ℕ, Some};
ghost use Rattle.std.specs.Option.{option_map};
ghost use Rattle.fc_model.specs.Kinding.{type_decl};
ghost use Rattle.fc_model.specs.Kinding as words;
ghost use Rattle.fc_model.specs.Kinding.{is_family_of};
ghost use Rattle.fc_model.specs.NamelessView.{ndecl_of, nty_of};
ghost use Rattle.fc_types.specs.ModuleViews.{modules_of};
ghost use Rattle.fc_types.specs.Families.{takes_more};

use crate::declarations::Declarations;
use fc_syntax::{NDecl, NTy};

/// The number of a family's parameters; `None` for another declaration. Takes no memory.
#[tactic(auto, using(fc_syntax::proofs::View::view_rules))]
pub fn params_of_family(decl: &NDecl) -> Option<usize>
    ensures { (args : ℕ) → is_family_of (Some (ndecl_of decl.now)) args ≡ takes_more result args }
{
    match decl {
        NDecl::DataType(_, _, _) => None,
        NDecl::NewType(_, _, _, _) => None,
        NDecl::Family(_, params, _) => Some(params.len()),
        NDecl::Axiom(_, _, _, _) => None,
        NDecl::Def(_, _, _) => None,
        NDecl::Wrap(_, _, _) => None,
    }
}

/// How many types a family still takes by which it would be applied in full; `None` where it is no family or has too many.
#[cycle(families)]
#[tactic(auto, using(fc_syntax::proofs::View::view_rules))]
fn missing_types(t: &NTy, declared: &Declarations) -> Option<usize>
    ensures { (args : ℕ) → words.is_family_applied (modules_of declared.now) args (nty_of t.now) ≡ takes_more result args }
{
    match t {
        NTy::Var(_) => None,
        NTy::Con(name) => match declared.type_named(name) {
            None => None,
            Some(decl) => params_of_family(decl),
        },
        NTy::IntHash => None,
        NTy::App(head, _) => match missing_types(head, declared) {
            None => None,
            Some(missing) => missing.checked_sub(1),
        },
        NTy::Fun(_, _) => None,
        NTy::Forall(_, _, _) => None,
        NTy::CoForall(_, _, _, _) => None,
    }
}

/// Whether a type is a family applied to exactly as many types as it has parameters. Takes no memory.
pub fn is_family_applied(t: &NTy, declared: &Declarations) -> bool
    ensures { result ≡ words.is_family_applied (modules_of declared.now) 0 (nty_of t.now) }
{
    match missing_types(t, declared) {
        None => false,
        Some(missing) => missing == 0,
    }
}
