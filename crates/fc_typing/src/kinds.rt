//! Kinds of named types.
ghost use Rattle.std.specs.Prelude.{◌≡◌, ◌++◌, reverse};
ghost use Rattle.fc_syntax.specs.View.{kind_of as kind_shown, ty_of};
ghost use Rattle.fc_model.specs.Kinding.{kind_or_fault};
ghost use Rattle.fc_model.specs.NamelessView.{nbinders_of, nty_of};
ghost use Rattle.fc_model.specs.Says.{Says};
ghost use Rattle.fc_types.specs.ModuleViews.{modules_of};
ghost use Rattle.fc_type_table.specs.InScope.{AreNumbered, IsScopeAt, kinds_of, own_kinds};
ghost use Rattle.fc_type_table.specs.TypeTables.{modules_in, nodes_of};
ghost use Rattle.fc_typing.specs.Behind.{context_behind, kind_judged};
ghost use Rattle.fc_typing.specs.Environments.{binders_known, modules_known, top_known};

use crate::environment::TypeEnv;
use crate::naming::MOST;
use fc_model::Flawed;
use fc_resolve_parts::resolved_ty;
use fc_scope::Scope;
use fc_syntax::{Kind, NBinder, NTy, Ty};
use fc_type_scope::{Entered, TypeScope};
use fc_type_table::{NumberedKinds, TypeTable};
use fc_type_trees::tree_of_kind;
use fc_types::Declarations;
use std::alloc::Global;

/// The kind of a type behind binders that were entered among these type variables.
#[tactic(auto, using(fc_type_scope::proofs::Numbers::number_rules, fc_type_scope::proofs::PastBinders::entry_rules))]
fn kind_inside(
    alloc: Global,
    t: &NTy,
    types: &mut TypeTable,
    bound: &Entered,
    outside: &NumberedKinds,
) -> Result<Kind, Flawed>
    requires bound { AreNumbered (nodes_of types.old) bound.now.kinds }
    requires outside { IsScopeAt (nodes_of types.old) outside.now }
    ensures { Says kind_shown result (kind_or_fault (modules_in types.old) (reverse (own_kinds bound.now.kinds) ++ kinds_of outside.now) (nty_of t.now)) }
{
    let kinds = (&*bound).kinds_behind(&*outside);
    let scope = TypeScope { kinds: &kinds };
    let read = scope.kinded(alloc, t, types)?;
    Ok(tree_of_kind(alloc, read.kind, types, MOST)?)
}

/// The kind of a type behind binders.
#[tactic(auto, using(fc_type_scope::proofs::PastBinders::entry_rules))]
fn kind_behind(
    alloc: Global,
    t: &NTy,
    binders: &[NBinder],
    declared: &Declarations,
) -> Result<Kind, Flawed>
    ensures { Says kind_shown result (kind_or_fault (modules_of declared.now) (context_behind (nbinders_of binders.now)).kinds (nty_of t.now)) }
{
    let mut types = TypeTable::new(alloc, &*declared);
    let kinds = NumberedKinds::End;
    let outside = TypeScope { kinds: &kinds };
    let bound = outside.enter(alloc, binders, &mut types)?;
    kind_inside(alloc, t, &mut types, &bound, &kinds)
}

/// The kind of a type in an environment, or the first fault: of names in the binders in scope and then in the type (`Unbound`, and
/// `Duplicate` for a binder that has the word of another of its space), then the faults of kinds, as `TypeTable::kind_or_fault` tells
/// them. A fault stands in no declaration; its part numbers start at the type, but for one of the binders, which starts at the number of its
/// binder. Out of memory is answered also for a kind of more than 1,500,000 pieces or 2,000 levels.
pub fn kind_of(alloc: Global, t: &Ty, env: &TypeEnv) -> Result<Kind, Flawed>
    ensures { Says kind_shown result (kind_judged (modules_known env.now) (top_known env.now) (binders_known env.now) (ty_of t.now)) }
{
    let entered = env.entered(alloc)?;
    let around = Scope::End;
    let scope = Scope::Binders(&entered.names, &around);
    let form = resolved_ty(alloc, &env.own, &scope, t)?;
    kind_behind(alloc, &form, entered.binders.as_slice(), &env.declared)
}
