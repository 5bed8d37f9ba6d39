//! The words that expressions use.
ghost use Rattle.std.specs.Prelude.{◌≡◌, IfOk, OnOk};
ghost use Rattle.fc_model.specs.NamelessView.{nalts_of, narg_of, nargs_of, nbinder_of, nbinders_of, nbinds_of, nexpr_of, nexprs_of, njoins_of};
ghost use Rattle.fc_model.specs.WordSets.{set_of};
ghost use Rattle.fc_model.specs.DeclaredWords.{words_by_space};
ghost use Rattle.fc_scope.specs.ScopeWords.{locals_of};
ghost use Rattle.fc_scope.specs.WordsAt.{join_word as join_word_at, value_word as value_word_at};
ghost use Rattle.fc_used_words.specs.Around.{counts_of};
ghost use Rattle.fc_used_words.specs.Scoped.{in_binder, in_binders, in_group, in_joins};
ghost use Rattle.fc_used_words.specs.Used.{AddsAlts, AddsArg, AddsArgs, AddsAt, AddsBinders, AddsBinds, AddsDefinition, AddsExpr, AddsExprs, AddsJoins};

use crate::around::Inside;
use crate::used_types::{use_binder, use_co, use_ty};
use fc_model::{Spaces, WordSet};
use fc_scope::{Scope, join_word, value_word};
use fc_syntax::{Memory, NAlt, NArg, NBind, NBinder, NExpr, NJoinBind, Name, Ref, Text};
use std::alloc::Global;

// BINDERS

/// Below one more binder.
pub fn in_binder(inside: Inside, binder: &NBinder) -> Result<Inside, Memory>
    ensures { IfOk result (λ k. counts_of k ≡ in_binder (nbinder_of binder.now) (counts_of inside)) }
{
    match binder {
        NBinder::Value(_, _) => inside.in_value(),
        NBinder::OfType(_, _) => inside.in_type(),
        NBinder::OfCo(_, _, _, _) => inside.in_coercion(),
    }
}

/// Below the binders of a group.
pub fn in_group(inside: Inside, binds: &[NBind]) -> Result<Inside, Memory>
    ensures { IfOk result (λ k. counts_of k ≡ in_group (nbinds_of binds.now) (counts_of inside)) }
{
    let mut inner = inside;
    for bind in binds {
        inner = inner.in_value()?;
    }
    Ok(inner)
}

/// Below the join points of a group.
pub fn in_joins(inside: Inside, joins: &[NJoinBind]) -> Result<Inside, Memory>
    ensures { IfOk result (λ k. counts_of k ≡ in_joins (njoins_of joins.now) (counts_of inside)) }
{
    let mut inner = inside;
    for join in joins {
        inner = inner.in_join()?;
    }
    Ok(inner)
}

/// Puts the words in that binders use, each below those before it, and answers what is around a piece below them all.
pub fn use_binders<'x>(
    alloc: Global,
    own: &Text,
    binders: &[NBinder],
    scope: &'x Scope<'x>,
    inside: Inside,
    used: &mut Spaces,
) -> Result<Inside, Memory>
    ensures below { IfOk result (λ k. counts_of k ≡ in_binders (nbinders_of binders.now) (counts_of inside)) }
    ensures adds { OnOk result (AddsBinders own.now (locals_of scope.now) (counts_of inside) (nbinders_of binders.now) (words_by_space used.old) (words_by_space used.new)) }
{
    let mut inner = inside;
    for binder in binders {
        use_binder(alloc, own, binder, &*scope, inner, used)?;
        inner = in_binder(inner, binder)?;
    }
    Ok(inner)
}

// VARIABLES

/// Puts the word of a value at a distance in, unless it is one of so many inner binders.
#[tactic(auto, using(crate::proofs::Collecting::distance_adds))]
fn add_value<'x>(
    alloc: Global,
    distance: u32,
    scope: &'x Scope<'x>,
    inside: u32,
    terms: &mut WordSet,
) -> Result<(), Memory>
    ensures { OnOk result (AddsAt (value_word_at (locals_of scope.now).terms) inside distance (set_of terms.old) (set_of terms.new)) }
{
    if distance < inside {
        return Ok(());
    }
    match value_word(&*scope, distance - inside) {
        Some(word) => terms.add(alloc, word),
        None => Ok(()),
    }
}

/// The same of a join point.
#[tactic(auto, using(crate::proofs::Collecting::distance_adds))]
fn add_join<'x>(
    alloc: Global,
    distance: u32,
    scope: &'x Scope<'x>,
    inside: u32,
    terms: &mut WordSet,
) -> Result<(), Memory>
    ensures { OnOk result (AddsAt (join_word_at (locals_of scope.now).terms) inside distance (set_of terms.old) (set_of terms.new)) }
{
    if distance < inside {
        return Ok(());
    }
    match join_word(&*scope, distance - inside) {
        Some(word) => terms.add(alloc, word),
        None => Ok(()),
    }
}

/// Puts the word of a definition in, if it is one of the module `own`.
#[tactic(auto, using(crate::proofs::Collecting::definition_adds))]
fn add_definition(alloc: Global, own: &Text, name: &Name, terms: &mut WordSet) -> Result<(), Memory>
    ensures { OnOk result (AddsDefinition own.now name.now (set_of terms.old) (set_of terms.new)) }
{
    match &name.module {
        None => terms.add(alloc, &name.text),
        Some(module) => {
            if module.as_str() != own.as_str() {
                return Ok(());
            }
            terms.add(alloc, &name.text)
        }
    }
}

// EXPRESSIONS

/// Puts the words in that an expression uses.
#[cycle(uses)]
#[tactic(auto, using(fc_syntax::proofs::View::view_rules, crate::proofs::Collecting::expression_adds), unfolding(fc_model::specs::DeclaredWords::words_by_space))]
pub fn use_expr<'x>(
    alloc: Global,
    own: &Text,
    e: &NExpr,
    scope: &'x Scope<'x>,
    inside: Inside,
    used: &mut Spaces,
) -> Result<(), Memory>
    ensures { OnOk result (AddsExpr own.now (locals_of scope.now) (counts_of inside) (nexpr_of e.now) (words_by_space used.old) (words_by_space used.new)) }
{
    match e {
        NExpr::Var(Ref::Local(distance)) => {
            add_value(alloc, *distance, &*scope, inside.values, &mut used.terms)?;
            Ok(())
        }
        NExpr::Var(Ref::Top(name)) => {
            add_definition(alloc, own, name, &mut used.terms)?;
            Ok(())
        }
        NExpr::Lit(_) => Ok(()),
        NExpr::App(f, a) => {
            use_expr(alloc, own, f, &*scope, inside, used)?;
            use_arg(alloc, own, a, &*scope, inside, used)?;
            Ok(())
        }
        NExpr::Lam(binder, e) => {
            use_binder(alloc, own, binder, &*scope, inside, used)?;
            let inner = in_binder(inside, binder)?;
            use_expr(alloc, own, e, &*scope, inner, used)?;
            Ok(())
        }
        NExpr::Let(recursive, binds, e) => {
            let inner = in_group(inside, binds.as_slice())?;
            let beside = if *recursive { inner } else { inside };
            use_binds(alloc, own, binds.as_slice(), &*scope, beside, used)?;
            use_expr(alloc, own, e, &*scope, inner, used)?;
            Ok(())
        }
        NExpr::Case(e, _, t, u, alts) => {
            use_expr(alloc, own, e, &*scope, inside, used)?;
            use_ty(alloc, own, t, &*scope, inside, used)?;
            use_ty(alloc, own, u, &*scope, inside, used)?;
            let inner = inside.in_value()?;
            use_alts(alloc, own, alts.as_slice(), &*scope, inner, used)?;
            Ok(())
        }
        NExpr::Cast(e, g) => {
            use_expr(alloc, own, e, &*scope, inside, used)?;
            use_co(alloc, own, g, &*scope, inside, used)?;
            Ok(())
        }
        NExpr::Con(_, args) => {
            use_args(alloc, own, args.as_slice(), &*scope, inside, used)?;
            Ok(())
        }
        NExpr::Prim(_, es) => {
            use_exprs(alloc, own, es.as_slice(), &*scope, inside, used)?;
            Ok(())
        }
        NExpr::Fail(t) => {
            use_ty(alloc, own, t, &*scope, inside, used)?;
            Ok(())
        }
        NExpr::Join(recursive, t, joins, e) => {
            use_ty(alloc, own, t, &*scope, inside, used)?;
            let inner = in_joins(inside, joins.as_slice())?;
            let beside = if *recursive { inner } else { inside };
            use_joins(alloc, own, joins.as_slice(), &*scope, beside, used)?;
            use_expr(alloc, own, e, &*scope, inner, used)?;
            Ok(())
        }
        NExpr::Jump(distance, args) => {
            add_join(alloc, *distance, &*scope, inside.joins, &mut used.terms)?;
            use_args(alloc, own, args.as_slice(), &*scope, inside, used)?;
            Ok(())
        }
    }
}

#[cycle(uses)]
#[tactic(auto, using(fc_syntax::proofs::View::view_rules, crate::proofs::Collecting::expression_adds))]
fn use_arg<'x>(
    alloc: Global,
    own: &Text,
    arg: &NArg,
    scope: &'x Scope<'x>,
    inside: Inside,
    used: &mut Spaces,
) -> Result<(), Memory>
    ensures { OnOk result (AddsArg own.now (locals_of scope.now) (counts_of inside) (narg_of arg.now) (words_by_space used.old) (words_by_space used.new)) }
{
    match arg {
        NArg::Term(e) => use_expr(alloc, own, e, &*scope, inside, used),
        NArg::OfType(t) => use_ty(alloc, own, t, &*scope, inside, used),
        NArg::OfCo(g) => use_co(alloc, own, g, &*scope, inside, used),
    }
}

#[cycle(uses)]
fn use_args<'x>(
    alloc: Global,
    own: &Text,
    args: &[NArg],
    scope: &'x Scope<'x>,
    inside: Inside,
    used: &mut Spaces,
) -> Result<(), Memory>
    ensures { OnOk result (AddsArgs own.now (locals_of scope.now) (counts_of inside) (nargs_of args.now) (words_by_space used.old) (words_by_space used.new)) }
{
    for arg in args {
        use_arg(alloc, own, arg, &*scope, inside, used)?;
    }
    Ok(())
}

#[cycle(uses)]
fn use_exprs<'x>(
    alloc: Global,
    own: &Text,
    es: &[NExpr],
    scope: &'x Scope<'x>,
    inside: Inside,
    used: &mut Spaces,
) -> Result<(), Memory>
    ensures { OnOk result (AddsExprs own.now (locals_of scope.now) (counts_of inside) (nexprs_of es.now) (words_by_space used.old) (words_by_space used.new)) }
{
    for e in es {
        use_expr(alloc, own, e, &*scope, inside, used)?;
    }
    Ok(())
}

/// Puts the words in that the types and right sides of binds use.
#[cycle(uses)]
pub fn use_binds<'x>(
    alloc: Global,
    own: &Text,
    binds: &[NBind],
    scope: &'x Scope<'x>,
    inside: Inside,
    used: &mut Spaces,
) -> Result<(), Memory>
    ensures { OnOk result (AddsBinds own.now (locals_of scope.now) (counts_of inside) (nbinds_of binds.now) (words_by_space used.old) (words_by_space used.new)) }
{
    for bind in binds {
        use_ty(alloc, own, &bind.ty, &*scope, inside, used)?;
        use_expr(alloc, own, &bind.rhs, &*scope, inside, used)?;
    }
    Ok(())
}

/// Puts the words in that join points use.
#[cycle(uses)]
pub fn use_joins<'x>(
    alloc: Global,
    own: &Text,
    joins: &[NJoinBind],
    scope: &'x Scope<'x>,
    inside: Inside,
    used: &mut Spaces,
) -> Result<(), Memory>
    ensures { OnOk result (AddsJoins own.now (locals_of scope.now) (counts_of inside) (njoins_of joins.now) (words_by_space used.old) (words_by_space used.new)) }
{
    for join in joins {
        let inner = use_binders(alloc, own, join.params.as_slice(), &*scope, inside, used)?;
        use_expr(alloc, own, &join.rhs, &*scope, inner, used)?;
    }
    Ok(())
}

/// Puts the words in that alternatives use.
#[cycle(uses)]
pub fn use_alts<'x>(
    alloc: Global,
    own: &Text,
    alts: &[NAlt],
    scope: &'x Scope<'x>,
    inside: Inside,
    used: &mut Spaces,
) -> Result<(), Memory>
    ensures { OnOk result (AddsAlts own.now (locals_of scope.now) (counts_of inside) (nalts_of alts.now) (words_by_space used.old) (words_by_space used.new)) }
{
    for alt in alts {
        let inner = use_binders(alloc, own, alt.binders.as_slice(), &*scope, inside, used)?;
        use_expr(alloc, own, &alt.body, &*scope, inner, used)?;
    }
    Ok(())
}
