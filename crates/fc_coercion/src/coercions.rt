//! What a coercion proves.
ghost use Rattle.std.specs.Prelude.{◌≡◌, IfOk, OnOk};
ghost use Rattle.fc_syntax.specs.View.{kind_of};
ghost use Rattle.fc_model.specs.Coercing.{all_ends_or_fault, ends_or_fault};
ghost use Rattle.fc_model.specs.Faulting.{under};
ghost use Rattle.fc_model.specs.NamelessView.{nco_of, ncos_of, nty_of};
ghost use Rattle.fc_model.specs.Nameless.{NGAll, NGRefl, NGUniv};
ghost use Rattle.fc_model.specs.Says.{Says};
ghost use Rattle.fc_coercion.specs.Pairs.{two_ends};
ghost use Rattle.fc_lint_context.specs.ContextViews.{IsContextOver, context_in, modules_of_context};
ghost use Rattle.fc_type_scope.specs.EndViews.{AreEndsAt, IsEnds, shown_all_ends_at, shown_ends};
ghost use Rattle.fc_type_scope.specs.Refusals.{OnFlaw};
ghost use Rattle.fc_type_scope.specs.Scopes.{scope_in};
ghost use Rattle.fc_type_table.specs.TypeTables.{Grows, modules_in, nodes_of};

use crate::axioms::axiom_at;
use fc_coercion_forms::{
    applied, arguments, constructed, function, heads, instance, joined, part, quantified,
    represented, taking,
};
use fc_lint_context::Context;
use fc_model::{Flawed, deeper, flaw_here, next_part};
use fc_syntax::{FaultKind, Kind, NCo, NTy, Role, Seq};
use fc_type_scope::Ends;
use fc_type_table::{NumberedKind, NumberedKinds, TypeTable};
use std::alloc::Global;

/// A type is equal to itself: the faults of the type, which is the part 0.
#[tactic(auto, using(fc_lint_context::proofs::Contexts::context_rules))]
fn reflexive(
    alloc: Global,
    role: Role,
    t: &NTy,
    types: &mut TypeTable,
    context: &Context,
) -> Result<Ends, Flawed>
    requires context { IsContextOver types.old context.now }
    ensures valid { IfOk result (λ e. IsEnds types.new (scope_in context.now.scope) e) }
    ensures says { Says (λ e. shown_ends types.new (scope_in context.now.scope) e) result (ends_or_fault (modules_of_context context.now) (scope_in context.now.scope) (context_in types.old context.now).coercions (NGRefl role (nty_of t.now))) }
    ensures grows { OnOk result (Grows types.old types.new) }
    ensures context { OnOk result (IsContextOver types.new context.now) }
    ensures refused { OnFlaw result (Grows types.old types.new) }
{
    let read = context.scope.kinded_part(alloc, t, types, 0)?;
    Ok(Ends {
        role,
        left: read.ty,
        right: read.ty,
    })
}

/// Any two types of one kind at P: the faults of the types, which are the parts 0 and 1, and then `KindsDiffer`.
#[tactic(auto, using(fc_lint_context::proofs::Contexts::context_rules))]
fn universal(
    alloc: Global,
    t: &NTy,
    u: &NTy,
    types: &mut TypeTable,
    context: &Context,
) -> Result<Ends, Flawed>
    requires context { IsContextOver types.old context.now }
    ensures valid { IfOk result (λ e. IsEnds types.new (scope_in context.now.scope) e) }
    ensures says { Says (λ e. shown_ends types.new (scope_in context.now.scope) e) result (ends_or_fault (modules_of_context context.now) (scope_in context.now.scope) (context_in types.old context.now).coercions (NGUniv (nty_of t.now) (nty_of u.now))) }
    ensures grows { OnOk result (Grows types.old types.new) }
    ensures context { OnOk result (IsContextOver types.new context.now) }
    ensures refused { OnFlaw result (Grows types.old types.new) }
{
    let left = context.scope.kinded_part(alloc, t, types, 0)?;
    let right = context.scope.kinded_part(alloc, u, types, 1)?;
    if !types.same_kind(left.kind, right.kind) {
        return Err(flaw_here(alloc, FaultKind::KindsDiffer));
    }
    Ok(Ends {
        role: Role::P,
        left: left.ty,
        right: right.ty,
    })
}

/// What a coercion proves that is the part of this number.
#[cycle(coercions)]
pub fn ends_of_part(
    alloc: Global,
    g: &NCo,
    types: &mut TypeTable,
    context: &Context,
    part: u32,
) -> Result<Ends, Flawed>
    requires context { IsContextOver types.old context.now }
    ensures valid { IfOk result (λ e. IsEnds types.new (scope_in context.now.scope) e) }
    ensures says { Says (λ e. shown_ends types.new (scope_in context.now.scope) e) result (under part (ends_or_fault (modules_of_context context.now) (scope_in context.now.scope) (context_in types.old context.now).coercions (nco_of g.now))) }
    ensures grows { OnOk result (Grows types.old types.new) }
    ensures context { OnOk result (IsContextOver types.new context.now) }
    ensures refused { OnFlaw result (Grows types.old types.new) }
{
    match ends_of(alloc, g, types, &*context) {
        Ok(ends) => Ok(ends),
        Err(flawed) => Err(deeper(flawed, part)),
    }
}

/// What a coercion proves behind a type variable of this kind, which is the part 0.
#[cycle(coercions)]
fn ends_behind(
    alloc: Global,
    kind: &Kind,
    g: &NCo,
    types: &mut TypeTable,
    context: &Context,
) -> Result<Ends, Flawed>
    requires context { IsContextOver types.old context.now }
    ensures valid { IfOk result (λ e. IsEnds types.new (scope_in context.now.scope) e) }
    ensures says { Says (λ e. shown_ends types.new (scope_in context.now.scope) e) result (ends_or_fault (modules_of_context context.now) (scope_in context.now.scope) (context_in types.old context.now).coercions (NGAll (kind_of kind.now) (nco_of g.now))) }
    ensures grows { OnOk result (Grows types.old types.new) }
    ensures context { OnOk result (IsContextOver types.new context.now) }
    ensures refused { OnFlaw result (Grows types.old types.new) }
{
    let variable = NumberedKind {
        kind,
        id: types.read_kind(kind)?,
    };
    let kinds = NumberedKinds::Kind(variable, context.scope.kinds);
    let inner = (&*context).behind_type(&kinds);
    let body = ends_of_part(alloc, g, types, &inner, 0)?;
    quantified(alloc, kind, body, types, &inner.scope, &context.scope)
}

/// What two coercions prove that are the parts 0 and 1.
#[cycle(coercions)]
fn both_ends(
    alloc: Global,
    g: &NCo,
    h: &NCo,
    types: &mut TypeTable,
    context: &Context,
) -> Result<(Ends, Ends), Flawed>
    requires context { IsContextOver types.old context.now }
    ensures valid { IfOk result (λ p. IsEnds types.new (scope_in context.now.scope) p.0 × IsEnds types.new (scope_in context.now.scope) p.1) }
    ensures says { Says (λ p. (shown_ends types.new (scope_in context.now.scope) p.0, shown_ends types.new (scope_in context.now.scope) p.1)) result (two_ends (modules_of_context context.now) (scope_in context.now.scope) (context_in types.old context.now).coercions (nco_of g.now) (nco_of h.now)) }
    ensures grows { OnOk result (Grows types.old types.new) }
    ensures context { OnOk result (IsContextOver types.new context.now) }
    ensures refused { OnFlaw result (Grows types.old types.new) }
{
    let first = ends_of_part(alloc, g, types, &*context, 0)?;
    let second = ends_of_part(alloc, h, types, &*context, 1)?;
    Ok((first, second))
}

/// What coercions prove that are the parts from 0 on.
#[cycle(coercions)]
fn each_ends(
    alloc: Global,
    gs: &[NCo],
    types: &mut TypeTable,
    context: &Context,
) -> Result<Seq<Ends>, Flawed>
    requires context { IsContextOver types.old context.now }
    ensures valid { IfOk result (λ es. AreEndsAt (nodes_of types.new) (scope_in context.now.scope) es) }
    ensures says { Says (λ es. shown_all_ends_at (nodes_of types.new) (scope_in context.now.scope) es) result (all_ends_or_fault (modules_of_context context.now) (scope_in context.now.scope) (context_in types.old context.now).coercions 0 (ncos_of gs.now)) }
    ensures grows { OnOk result (Grows types.old types.new) }
    ensures context { OnOk result (IsContextOver types.new context.now) }
    ensures refused { OnFlaw result (Grows types.old types.new) }
{
    let mut group = Seq::new(alloc);
    let mut part = 0u32;
    for g in gs {
        let ends = ends_of_part(alloc, g, types, &*context, part)?;
        group.push(ends)?;
        part = next_part(part)?;
    }
    Ok(group)
}

/// What a coercion proves: the types that it relates and the role at which it does, or the first premise that fails, the parts from left to
/// right before the premises of the piece itself. The faults are `Unbound` for a variable or an axiom that is not in scope, `RoleWrong`,
/// `EndsDiffer`, `NotInjective`, `NthRange`, `AxiomArity` and `KindsDiffer`, those of the types that it mentions, and `KindMismatch`,
/// `NotAType`, `FamilyArity` and `UnliftedVariable` for the types that it makes; each with the part numbers to the piece.
#[cycle(coercions)]
pub fn ends_of(
    alloc: Global,
    g: &NCo,
    types: &mut TypeTable,
    context: &Context,
) -> Result<Ends, Flawed>
    requires context { IsContextOver types.old context.now }
    ensures valid { IfOk result (λ e. IsEnds types.new (scope_in context.now.scope) e) }
    ensures says { Says (λ e. shown_ends types.new (scope_in context.now.scope) e) result (ends_or_fault (modules_of_context context.now) (scope_in context.now.scope) (context_in types.old context.now).coercions (nco_of g.now)) }
    ensures grows { OnOk result (Grows types.old types.new) }
    ensures context { OnOk result (IsContextOver types.new context.now) }
    ensures refused { OnFlaw result (Grows types.old types.new) }
{
    match g {
        NCo::Var(distance) => context.coercion(alloc, *distance),
        NCo::Refl(role, t) => reflexive(alloc, *role, t, types, &*context),
        NCo::Sym(g) => {
            let e = ends_of_part(alloc, g, types, &*context, 0)?;
            Ok(Ends {
                role: e.role,
                left: e.right,
                right: e.left,
            })
        }
        NCo::Trans(g, h) => {
            let (e, d) = both_ends(alloc, g, h, types, &*context)?;
            joined(alloc, e, d, types, &context.scope)
        }
        NCo::Tc(role, name, gs) => {
            let group = each_ends(alloc, gs.as_slice(), types, &*context)?;
            let declared = context.declared.declared;
            constructed(
                alloc,
                *role,
                name,
                group.as_slice(),
                types,
                declared,
                &context.scope,
            )
        }
        NCo::Capp(g, h) => {
            let (e, d) = both_ends(alloc, g, h, types, &*context)?;
            applied(alloc, e, d, types, &context.scope)
        }
        NCo::FunCo(g, h) => {
            let (e, d) = both_ends(alloc, g, h, types, &*context)?;
            function(alloc, e, d, types, &context.scope)
        }
        NCo::AllCo(_, kind, g) => ends_behind(alloc, kind, g, types, &*context),
        NCo::CoAllCo(role, inner, f, g, h) => {
            let (e, d) = both_ends(alloc, f, g, types, &*context)?;
            let b = ends_of_part(alloc, h, types, &*context, 2)?;
            taking(alloc, *role, *inner, e, d, b, types, &context.scope)
        }
        NCo::Inst(g, h) => {
            let (e, d) = both_ends(alloc, g, h, types, &*context)?;
            instance(alloc, e, d, types, &context.scope)
        }
        NCo::Nth(number, g) => {
            let e = ends_of_part(alloc, g, types, &*context, 0)?;
            part(alloc, *number, e, types, &context.scope)
        }
        NCo::Left(g) => {
            let e = ends_of_part(alloc, g, types, &*context, 0)?;
            heads(alloc, e, types, &context.scope)
        }
        NCo::Right(g) => {
            let e = ends_of_part(alloc, g, types, &*context, 0)?;
            arguments(alloc, e, types, &context.scope)
        }
        NCo::Sub(g) => {
            let e = ends_of_part(alloc, g, types, &*context, 0)?;
            represented(alloc, e, types, &context.scope)
        }
        NCo::Ax(name, gs) => {
            let group = each_ends(alloc, gs.as_slice(), types, &*context)?;
            axiom_at(alloc, name, group.as_slice(), types, &*context)
        }
        NCo::Univ(t, u) => universal(alloc, t, u, types, &*context),
    }
}
