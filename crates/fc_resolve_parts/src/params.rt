//! The parameters of declarations.
ghost use Rattle.std.specs.Prelude.{◌≡◌, ◌∷◌, Ok, IfOk, OnOk, length, map, not, reverse};
ghost use Rattle.fc_syntax.specs.declared.fault.FaultKind.TheVariants.{Duplicate};
ghost use Rattle.fc_syntax.specs.Hints as kept;
ghost use Rattle.fc_syntax.specs.View.{params_of, plains_of, ty_of};
ghost use Rattle.fc_model.specs.DeclaredWords.{top_by};
ghost use Rattle.fc_model.specs.Faulting.{need, under};
ghost use Rattle.fc_model.specs.NamelessView.{nty_of};
ghost use Rattle.fc_model.specs.Resolution.{distinct_params, no_word, resolved_ty as ty_resolved};
ghost use Rattle.fc_model.specs.Says.{Says};
ghost use Rattle.fc_scope.specs.Among.{among};

use crate::types::ty_part;
use fc_model::{Declared, Flawed, deeper, flaw_here};
use fc_scope::{Names, Scope};
use fc_syntax::{FaultKind, NTy, Param, Plain, Text, Ty};
use std::alloc::Global;

/// Puts the word of a parameter behind those before it. A word that was there before is `Duplicate`.
fn add_distinct(alloc: Global, names: &mut Names, word: &Text) -> Result<(), Flawed>
    ensures form { Says (λ _. length names.old) result (under (length names.old) (need (not (among names.old word.now)) Duplicate (Ok (length names.old)))) }
    ensures names { OnOk result (names.new ≡ word.now ∷ names.old) }
{
    if names.has(word) {
        let part = names.len();
        return Err(deeper(flaw_here(alloc, FaultKind::Duplicate), part));
    }
    names.add(alloc, word)?;
    Ok(())
}

/// The words of the parameters of a data type or newtype, the last one first. The first one that was there before is `Duplicate`, at the
/// number of its part.
#[tactic(auto, using(crate::proofs::ParamWords::param_rules, std::proofs::lemmas::Grind::common_steps))]
pub fn param_names(alloc: Global, params: &[Param]) -> Result<Names, Flawed>
    ensures form { Says (λ names. length names) result (distinct_params no_word 0 (map kept.param_hint (params_of params.now))) }
    ensures names { IfOk result (λ names. names ≡ reverse (map kept.param_hint (params_of params.now))) }
{
    let mut names = Names::new(alloc);
    for param in params {
        add_distinct(alloc, &mut names, &param.name)?;
    }
    Ok(names)
}

/// The words of the parameters of a family or an axiom, the last one first. The first one that was there before is `Duplicate`, at the
/// number of its part.
#[tactic(auto, using(crate::proofs::ParamWords::param_rules, std::proofs::lemmas::Grind::common_steps))]
pub fn plain_names(alloc: Global, params: &[Plain]) -> Result<Names, Flawed>
    ensures form { Says (λ names. length names) result (distinct_params no_word 0 (map kept.plain_hint (plains_of params.now))) }
    ensures names { IfOk result (λ names. names ≡ reverse (map kept.plain_hint (plains_of params.now))) }
{
    let mut names = Names::new(alloc);
    for param in params {
        add_distinct(alloc, &mut names, &param.name)?;
    }
    Ok(names)
}

/// A type in the scope of parameters, which is the part of this number. The first word of it that is not in scope is `Unbound`.
pub fn ty_in_params(
    alloc: Global,
    top: &Declared,
    names: &Names,
    t: &Ty,
    part: u32,
) -> Result<NTy, Flawed>
    ensures form { Says nty_of result (under part (ty_resolved (top_by top.now) names.now (ty_of t.now))) }
    ensures words { IfOk result (λ n. kept.ty_hints (ty_of n) ≡ kept.ty_hints (ty_of t.now)) }
{
    let outside = Scope::End;
    let scope = Scope::Types(names, &outside);
    ty_part(alloc, top, &scope, t, part)
}
