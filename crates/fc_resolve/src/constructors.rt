//! The constructors of a data type.
ghost use Rattle.std.specs.Prelude.{◌≡◌, Ok, OnOk, length, not, IfOk, flat_map};
ghost use Rattle.fc_syntax.specs.declared.fault.FaultKind.TheVariants.{Duplicate};
ghost use Rattle.fc_syntax.specs.Hints as kept;
ghost use Rattle.fc_syntax.specs.View.{binders_of, con_of, cons_of, tys_of};
ghost use Rattle.fc_model.specs.DeclaredWords.{top_by};
ghost use Rattle.fc_model.specs.Declaring.{con_words};
ghost use Rattle.fc_model.specs.Faulting.{need, under};
ghost use Rattle.fc_model.specs.NamelessView.{ncon_of, ncons_of, ntys_of};
ghost use Rattle.fc_model.specs.Resolution.{enter_all, no_locals, plus_all, resolved_con as con_resolved, resolved_cons as cons_resolved, resolved_tys as tys_resolved};
ghost use Rattle.fc_model.specs.Says.{Says};
ghost use Rattle.fc_model.specs.WordSets.{set_of};
ghost use Rattle.fc_scope.specs.ScopeWords.{locals_of, with_binders};

use fc_model::{Declared, Flawed, WordSet, deeper, flaw_here, next_part};
use fc_resolve_parts::{Entered, resolved_binders, resolved_tys};
use fc_scope::{Binders, Names, Scope};
use fc_syntax::{Binder, ConDecl, FaultKind, Memory, NConDecl, NTy, Seq, Ty};
use std::alloc::Global;

/// The types of a constructor's terms below its binders, which are the parts behind them.
fn fields_below<'x>(
    alloc: Global,
    top: &Declared,
    scope: &'x Scope<'x>,
    fields: &[Ty],
    binders: &[Binder],
    names: &'x Binders,
) -> Result<Seq<NTy>, Flawed>
    requires { with_binders names.now (locals_of scope.now) ≡ enter_all (binders_of binders.now) (locals_of scope.now) }
    ensures form { Says ntys_of result (tys_resolved (top_by top.now) (enter_all (binders_of binders.now) (locals_of scope.now)).types (length (binders_of binders.now)) (tys_of fields.now)) }
    ensures words { IfOk result (λ n. kept.tys_hints (tys_of n) ≡ kept.tys_hints (tys_of fields.now)) }
{
    let inner = Scope::Binders(&*names, &*scope);
    match u32::try_from(binders.len()) {
        Ok(first) => resolved_tys(alloc, top, &inner, fields, first),
        Err(_) => Err(Flawed::Memory),
    }
}

/// A constructor: its binders, and below them the types of its terms.
fn constructor<'x>(
    alloc: Global,
    top: &Declared,
    scope: &'x Scope<'x>,
    con: &ConDecl,
) -> Result<NConDecl, Flawed>
    ensures form { Says ncon_of result (con_resolved (top_by top.now) (locals_of scope.now) (con_of con.now)) }
    ensures words { IfOk result (λ n. kept.con_hints (con_of n) ≡ kept.con_hints (con_of con.now)) }
{
    let group = con.binders.as_slice();
    let Entered { binders, names } = resolved_binders(alloc, top, &*scope, group)?;
    let fields = fields_below(alloc, top, &*scope, con.fields.as_slice(), group, &names)?;
    let name = con.name.copy(alloc)?;
    Ok(NConDecl {
        name,
        binders,
        fields,
    })
}

/// A constructor behind the words of terms before.
fn new_constructor<'x>(
    alloc: Global,
    top: &Declared,
    scope: &'x Scope<'x>,
    con: &ConDecl,
    earlier: &WordSet,
) -> Result<NConDecl, Flawed>
    ensures form { Says ncon_of result (need (not (set_of earlier.now con.now.name)) Duplicate (con_resolved (top_by top.now) (locals_of scope.now) (con_of con.now))) }
    ensures words { IfOk result (λ n. kept.con_hints (con_of n) ≡ kept.con_hints (con_of con.now)) }
{
    if earlier.has(&con.name) {
        return Err(flaw_here(alloc, FaultKind::Duplicate));
    }
    constructor(alloc, top, &*scope, con)
}

/// The same, where the constructor is the part of this number.
fn constructor_part<'x>(
    alloc: Global,
    top: &Declared,
    scope: &'x Scope<'x>,
    con: &ConDecl,
    earlier: &WordSet,
    part: u32,
) -> Result<NConDecl, Flawed>
    ensures form { Says ncon_of result (under part (need (not (set_of earlier.now con.now.name)) Duplicate (con_resolved (top_by top.now) (locals_of scope.now) (con_of con.now)))) }
    ensures words { IfOk result (λ n. kept.con_hints (con_of n) ≡ kept.con_hints (con_of con.now)) }
{
    match new_constructor(alloc, top, &*scope, con, earlier) {
        Ok(n) => Ok(n),
        Err(flawed) => Err(deeper(flawed, part)),
    }
}

/// Constructors, which are the parts from this number on and whose words come behind those of terms before.
#[tactic(auto, using(fc_resolve_parts::proofs::Building::building_rules, crate::proofs::WordSteps::word_rules, std::proofs::lemmas::Grind::common_steps))]
fn constructors<'x>(
    alloc: Global,
    top: &Declared,
    scope: &'x Scope<'x>,
    cons: &[ConDecl],
    earlier: &mut WordSet,
    first: u32,
) -> Result<Seq<NConDecl>, Flawed>
    ensures form { Says ncons_of result (cons_resolved (top_by top.now) (locals_of scope.now) (set_of earlier.old) first (cons_of cons.now)) }
    ensures words { IfOk result (λ n. flat_map kept.con_hints (cons_of n) ≡ flat_map kept.con_hints (cons_of cons.now)) }
    ensures behind { OnOk result (set_of earlier.new ≡ plus_all (con_words (cons_of cons.now)) (set_of earlier.old)) }
{
    let mut out = Seq::new(alloc);
    let mut at = first;
    for con in cons {
        let next = constructor_part(alloc, top, &*scope, con, earlier, at)?;
        earlier.add(alloc, &con.name)?;
        out.push(next)?;
        at = next_part(at)?;
    }
    Ok(out)
}

/// The constructors of a data type in the scope of its parameters, which are the parts before them.
pub fn constructors_in_params(
    alloc: Global,
    top: &Declared,
    names: &Names,
    cons: &[ConDecl],
    earlier: &mut WordSet,
) -> Result<Seq<NConDecl>, Flawed>
    ensures form { Says ncons_of result (cons_resolved (top_by top.now) (record no_locals { types = names.now }) (set_of earlier.old) (length names.now) (cons_of cons.now)) }
    ensures words { IfOk result (λ n. flat_map kept.con_hints (cons_of n) ≡ flat_map kept.con_hints (cons_of cons.now)) }
    ensures behind { OnOk result (set_of earlier.new ≡ plus_all (con_words (cons_of cons.now)) (set_of earlier.old)) }
{
    let outside = Scope::End;
    let scope = Scope::Types(names, &outside);
    constructors(alloc, top, &scope, cons, earlier, names.len())
}
