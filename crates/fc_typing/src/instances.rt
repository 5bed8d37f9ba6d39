//! Types of the named tree at types.
ghost use Rattle.std.specs.Prelude.{◌≡◌, length, IfErr, IfOk, Ok};
ghost use Rattle.fc_syntax.specs.View.{ty_of};
ghost use Rattle.fc_model.specs.Calling.{at_type};
ghost use Rattle.fc_model.specs.NamelessView.{nbinders_of, nty_of};
ghost use Rattle.fc_model.specs.Says.{Refuses};
ghost use Rattle.fc_type_names.specs.Meant.{AreSeen};
ghost use Rattle.fc_type_table.specs.InScope.{AreNumbered, IsScopeAt, kinds_of, own_kinds};
ghost use Rattle.fc_type_table.specs.TypeTables.{nodes_of};
ghost use Rattle.std.specs.Prelude.{◌++◌, reverse};
ghost use Rattle.fc_typing.specs.Behind.{context_behind, instance_judged, locals_behind};
ghost use Rattle.fc_typing.specs.Environments.{binders_known, top_known};
ghost use Rattle.fc_typing.specs.Told.{IsFoundTypeOf};
ghost use Rattle.fc_typing.specs.Wording.{own_of, types_of};

use crate::environment::TypeEnv;
use crate::naming::{Words, words_of};
use fc_model::Flawed;
use fc_resolve_parts::resolved_ty;
use fc_scope::Scope;
use fc_syntax::{Memory, NBinder, NTy, Ty};
use fc_type_scope::{Entered as Bound, TypeScope};
use fc_type_table::{NumberedKinds, TypeTable};
use fc_types::Declarations;
use std::alloc::Global;

/// A type at another one behind binders that were entered among these type variables.
#[tactic(auto, using(fc_type_scope::proofs::Numbers::number_rules, fc_type_scope::proofs::PastBinders::entry_rules))]
fn instance_inside(
    alloc: Global,
    t: &NTy,
    by: &NTy,
    types: &mut TypeTable,
    bound: &Bound,
    outside: &NumberedKinds,
    words: Words<'_, '_>,
) -> Result<Option<Ty>, Memory>
    requires bound { AreNumbered (nodes_of types.old) bound.now.kinds }
    requires outside { IsScopeAt (nodes_of types.old) outside.now }
    requires seen { AreSeen (types_of words) }
    requires count { length (reverse (own_kinds bound.now.kinds) ++ kinds_of outside.now) ≡ length (types_of words) }
    ensures { IfOk result (λ r. IsFoundTypeOf (own_of words.entry) (types_of words.entry) r (Ok (at_type (nty_of t.now) (nty_of by.now)))) }
{
    let kinds = (&*bound).kinds_behind(&*outside);
    let scope = TypeScope { kinds: &kinds };
    let forall = scope.read(t, types)?;
    let by = scope.read(by, types)?;
    match scope.instantiate(alloc, forall, by, types)? {
        None => Ok(None),
        Some(id) => Ok(Some(words.named(alloc, id, types)?)),
    }
}

/// A type at another one behind binders.
#[tactic(auto, using(fc_type_scope::proofs::PastBinders::entry_rules))]
fn instance_behind(
    alloc: Global,
    t: &NTy,
    by: &NTy,
    binders: &[NBinder],
    declared: &Declarations,
    words: Words<'_, '_>,
) -> Result<Option<Ty>, Memory>
    requires seen { AreSeen (types_of words) }
    requires count { length (context_behind (nbinders_of binders.now)).kinds ≡ length (types_of words) }
    ensures { IfOk result (λ r. IsFoundTypeOf (own_of words.entry) (types_of words.entry) r (Ok (at_type (nty_of t.now) (nty_of by.now)))) }
{
    let mut types = TypeTable::new(alloc, &*declared);
    let kinds = NumberedKinds::End;
    let outside = TypeScope { kinds: &kinds };
    let bound = outside.enter(alloc, binders, &mut types)?;
    instance_inside(alloc, t, by, &mut types, &bound, &kinds, words)
}

/// A `forall` of an environment at a type, which is the textbook substitution, so no variable is captured; `None` where the first type is no
/// `forall`. A fault is the first one of names: in the binders in scope, then in the first type, then in the other. Kinds are not judged.
/// The answer names the own module's declarations without a dot, all others with their module. Out of memory is answered also for a type of
/// more than 1,500,000 pieces or 2,000 levels.
pub fn instantiate(alloc: Global, t: &Ty, by: &Ty, env: &TypeEnv) -> Result<Option<Ty>, Flawed>
    ensures told { IfOk result (λ r. IsFoundTypeOf (top_known env.now).own (locals_behind (binders_known env.now)).types r (instance_judged (top_known env.now) (binders_known env.now) (ty_of t.now) (ty_of by.now))) }
    ensures fault { IfErr result (λ e. Refuses e (instance_judged (top_known env.now) (binders_known env.now) (ty_of t.now) (ty_of by.now))) }
{
    let entered = env.entered(alloc)?;
    let around = Scope::End;
    let scope = Scope::Binders(&entered.names, &around);
    let t = resolved_ty(alloc, &env.own, &scope, t)?;
    let by = resolved_ty(alloc, &env.own, &scope, by)?;
    let words = words_of(env, &entered);
    let binders = entered.binders.as_slice();
    Ok(instance_behind(alloc, &t, &by, binders, &env.declared, words)?)
}
