//! The modules that types, coercions and binders of the nameless tree mention.
ghost use Rattle.std.specs.Prelude.{◌≡◌, OnOk};
ghost use Rattle.fc_model.specs.Mentioning.{in_name};
ghost use Rattle.fc_model.specs.NamelessView.{nbinder_of, nbinders_of, nco_of, ncos_of, ntys_of, nty_of};
ghost use Rattle.fc_model.specs.Resolution.{plus_all};
ghost use Rattle.fc_model.specs.WordSets.{set_of};
ghost use Rattle.fc_headers.specs.NamelessHeaders.{modules_in_binder, modules_in_binders, modules_in_coercion, modules_in_coercions, modules_in_type, modules_in_types};

use fc_model::WordSet;
use fc_syntax::{Memory, NBinder, NCo, NTy, Name};
use std::alloc::Global;

/// Puts the module of a name in.
pub(crate) fn in_name(alloc: Global, name: &Name, to: &mut WordSet) -> Result<(), Memory>
    ensures { OnOk result (set_of to.new ≡ plus_all (in_name name.now.module) (set_of to.old)) }
{
    match &name.module {
        Some(module) => to.add(alloc, module),
        None => Ok(()),
    }
}

/// Puts the modules in that a type mentions.
#[tactic(auto, using(fc_syntax::proofs::View::view_rules, crate::proofs::WordSteps::word_rules))]
pub(crate) fn in_type(alloc: Global, t: &NTy, to: &mut WordSet) -> Result<(), Memory>
    ensures { OnOk result (set_of to.new ≡ plus_all (modules_in_type (nty_of t.now)) (set_of to.old)) }
{
    match t {
        NTy::Var(_) => Ok(()),
        NTy::Con(name) => in_name(alloc, name, to),
        NTy::IntHash => Ok(()),
        NTy::App(t, u) | NTy::Fun(t, u) => {
            in_type(alloc, t, to)?;
            in_type(alloc, u, to)
        }
        NTy::Forall(_, _, body) => in_type(alloc, body, to),
        NTy::CoForall(_, left, right, body) => {
            in_type(alloc, left, to)?;
            in_type(alloc, right, to)?;
            in_type(alloc, body, to)
        }
    }
}

/// Puts the modules in that types mention.
pub(crate) fn in_types(alloc: Global, items: &[NTy], to: &mut WordSet) -> Result<(), Memory>
    ensures { OnOk result (set_of to.new ≡ plus_all (modules_in_types (ntys_of items.now)) (set_of to.old)) }
{
    for x in items {
        in_type(alloc, x, to)?;
    }
    Ok(())
}

/// Puts the modules in that a coercion mentions.
#[cycle(coercions)]
#[tactic(auto, using(fc_syntax::proofs::View::view_rules, crate::proofs::WordSteps::word_rules))]
pub(crate) fn in_coercion(alloc: Global, g: &NCo, to: &mut WordSet) -> Result<(), Memory>
    ensures { OnOk result (set_of to.new ≡ plus_all (modules_in_coercion (nco_of g.now)) (set_of to.old)) }
{
    match g {
        NCo::Var(_) => Ok(()),
        NCo::Refl(_, t) => in_type(alloc, t, to),
        NCo::Tc(_, name, parts) | NCo::Ax(name, parts) => {
            in_name(alloc, name, to)?;
            in_coercions(alloc, parts.as_slice(), to)
        }
        NCo::Trans(g, h) | NCo::Capp(g, h) | NCo::FunCo(g, h) | NCo::Inst(g, h) => {
            in_coercion(alloc, g, to)?;
            in_coercion(alloc, h, to)
        }
        NCo::Sym(g)
        | NCo::AllCo(_, _, g)
        | NCo::Nth(_, g)
        | NCo::Left(g)
        | NCo::Right(g)
        | NCo::Sub(g) => in_coercion(alloc, g, to),
        NCo::CoAllCo(_, _, f, g, h) => {
            in_coercion(alloc, f, to)?;
            in_coercion(alloc, g, to)?;
            in_coercion(alloc, h, to)
        }
        NCo::Univ(left, right) => {
            in_type(alloc, left, to)?;
            in_type(alloc, right, to)
        }
    }
}

/// Puts the modules in that coercions mention.
#[cycle(coercions)]
fn in_coercions(alloc: Global, items: &[NCo], to: &mut WordSet) -> Result<(), Memory>
    ensures { OnOk result (set_of to.new ≡ plus_all (modules_in_coercions (ncos_of items.now)) (set_of to.old)) }
{
    for x in items {
        in_coercion(alloc, x, to)?;
    }
    Ok(())
}

/// Puts the modules in that the types of a binder mention.
#[tactic(auto, using(fc_syntax::proofs::View::view_rules, crate::proofs::WordSteps::word_rules))]
pub(crate) fn in_binder(alloc: Global, binder: &NBinder, to: &mut WordSet) -> Result<(), Memory>
    ensures { OnOk result (set_of to.new ≡ plus_all (modules_in_binder (nbinder_of binder.now)) (set_of to.old)) }
{
    match binder {
        NBinder::Value(_, t) => in_type(alloc, t, to),
        NBinder::OfType(_, _) => Ok(()),
        NBinder::OfCo(_, _, left, right) => {
            in_type(alloc, left, to)?;
            in_type(alloc, right, to)
        }
    }
}

/// Puts the modules in that the types of binders mention.
pub(crate) fn in_binders(alloc: Global, items: &[NBinder], to: &mut WordSet) -> Result<(), Memory>
    ensures { OnOk result (set_of to.new ≡ plus_all (modules_in_binders (nbinders_of items.now)) (set_of to.old)) }
{
    for x in items {
        in_binder(alloc, x, to)?;
    }
    Ok(())
}
