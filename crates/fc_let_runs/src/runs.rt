//! All lets of a run at once.
ghost use Rattle.std.specs.Prelude.{◌≡◌, ◌≤◌, IfOk, IfSome, None, Some, false, true};
ghost use Rattle.fc_model.specs.NamelessView.{nexpr_of, nty_of};
ghost use Rattle.fc_model.specs.Replacing.{replaced};
ghost use Rattle.fc_model.specs.Typing.{is_atom as spec_is_atom};
ghost use Rattle.fc_rows.specs.Shrinking.{let_of};
ghost use Rattle.fc_subst.specs.Replacements.{replacement_of};
ghost use Rattle.fc_let_runs.specs.Runs.{IsRun, PutsAtoms, is_let_of_atom, iterated};

use fc_forms::{SingleBinding, as_single_binding};
use fc_numbers::sum;
use fc_subst::{Replacement, substitute};
use fc_syntax::{Memory, NExpr};
use std::alloc::Global;

/// What a run of lets becomes.
#[derive(Drop)]
pub struct Run {
    /// How many lets there were.
    pub count: u32,
    /// What the innermost of them was for, with the right sides in place of the variables.
    pub new: NExpr,
}

/// Whether an expression is an atom.
#[tactic(auto, using(fc_syntax::proofs::View::view_rules))]
fn is_atom(e: &NExpr) -> bool
    ensures { result ≡ spec_is_atom (nexpr_of e.now) }
{
    match e {
        NExpr::Var(_) => true,
        NExpr::Lit(_) => true,
        NExpr::App(_, _) => false,
        NExpr::Lam(_, _) => false,
        NExpr::Let(_, _, _) => false,
        NExpr::Case(_, _, _, _, _) => false,
        NExpr::Cast(_, _) => false,
        NExpr::Con(_, _) => false,
        NExpr::Prim(_, _) => false,
        NExpr::Fail(_) => false,
        NExpr::Join(_, _, _, _) => false,
        NExpr::Jump(_, _) => false,
    }
}

/// The parts of a let of an atom, where an expression is one.
fn as_let_of_atom<'a>(e: &'a NExpr) -> Option<SingleBinding<'a>>
    ensures form { IfSome result (λ p. nexpr_of e.now ≡ let_of (nty_of p.binding.now.ty) (nexpr_of p.binding.now.rhs) (nexpr_of p.body.now)) }
    ensures atom { IfSome result (λ p. spec_is_atom (nexpr_of p.binding.now.rhs) ≡ true) }
    ensures none { result ≡ None → is_let_of_atom (nexpr_of e.now) ≡ false }
{
    let parts = as_single_binding(e)?;
    if is_atom(&parts.binding.rhs) {
        Some(parts)
    } else {
        None
    }
}

/// An expression that is no let of an atom, as a run of no lets. Fails as `substitute` does.
fn without_lets<'x>(alloc: Global, e: &NExpr, by: &'x Replacement<'x>) -> Result<Run, Memory>
    requires atoms { PutsAtoms (replacement_of by.now) }
    requires apart { is_let_of_atom (nexpr_of e.now) ≡ false }
    ensures run { IfOk result (λ r. IsRun r.count (replaced (replacement_of by.now) (nexpr_of e.now)) (nexpr_of r.new)) }
    ensures all { IfOk result (λ r. is_let_of_atom (nexpr_of r.new) ≡ false) }
{
    let new = substitute(alloc, e, by)?;
    Ok(Run { count: 0, new })
}

/// What the lets of atoms become that stand one in the body of the other, from an expression on, with atoms in place of the variables around it. Fails as
/// `substitute` does, and where the number of lets has no 32 bits.
fn run_under<'x>(alloc: Global, e: &NExpr, by: &'x Replacement<'x>) -> Result<Run, Memory>
    requires { PutsAtoms (replacement_of by.now) }
    ensures run { IfOk result (λ r. IsRun r.count (replaced (replacement_of by.now) (nexpr_of e.now)) (nexpr_of r.new)) }
    ensures all { IfOk result (λ r. is_let_of_atom (nexpr_of r.new) ≡ false) }
{
    let Some(parts) = as_let_of_atom(e) else {
        return without_lets(alloc, e, &*by);
    };
    let atom = substitute(alloc, &parts.binding.rhs, &*by)?;
    let inner = Replacement::Value(&atom, &*by);
    let rest = run_under(alloc, parts.body, &inner)?;
    let count = sum(rest.count, 1)?;
    Ok(Run {
        count,
        new: rest.new,
    })
}

/// The lets of atoms that stand one in the body of the other, from an expression on, with the right side of each in place of its variable. What they are around is
/// copied once. Answers none where the expression is no such let. Fails only where memory runs out, a distance or a number of parts or of lets has no 32 bits, or
/// calls would go 2^32 deep.
pub fn let_atoms(alloc: Global, e: &NExpr) -> Result<Option<Run>, Memory>
    ensures run { IfOk result (λ o. IfSome o (λ r. iterated r.count (nexpr_of e.now) ≡ Some (nexpr_of r.new))) }
    ensures steps { IfOk result (λ o. IfSome o (λ r. IsRun r.count (nexpr_of e.now) (nexpr_of r.new))) }
    ensures all { IfOk result (λ o. IfSome o (λ r. is_let_of_atom (nexpr_of r.new) ≡ false)) }
    ensures some { IfOk result (λ o. IfSome o (λ r. 1 ≤ r.count)) }
    ensures none { IfOk result (λ o. o ≡ None → is_let_of_atom (nexpr_of e.now) ≡ false) }
{
    if as_let_of_atom(e).is_none() {
        return Ok(None);
    }
    let others = Replacement::Same;
    let run = run_under(alloc, e, &others)?;
    Ok(Some(run))
}
