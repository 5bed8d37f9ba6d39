//! Cases and their alternatives.
ghost use Rattle.std.specs.Prelude.{◌≡◌, IfOk, OnOk};
ghost use Rattle.fc_model.specs.Says.{Says};
ghost use Rattle.fc_lint_context.specs.ContextViews.{IsContextOver, context_in, modules_of_context};
ghost use Rattle.fc_type_scope.specs.Scopes.{scope_in};
ghost use Rattle.fc_type_scope.specs.Behind.{IsEntered};
ghost use Rattle.fc_model.specs.Faulting.{under};
ghost use Rattle.fc_model.specs.NamelessView.{nalt_of, nalts_of, nbinders_of, nty_of};
ghost use Rattle.fc_model.specs.Typing as words;
ghost use Rattle.fc_model.specs.Typing.{Start, alt_judged, alts_judged, with_value};
ghost use Rattle.fc_lint_calls.specs.AltViews.{before_of};
ghost use Rattle.fc_lint_expr.specs.Cases.{case_judged};
ghost use Rattle.fc_type_table.specs.TypeTables.{Grows, IsType, modules_in, nodes_of, shown};

use crate::binding::{part_behind, type_behind};
use crate::written::{judged_binders, kinded_part};
use fc_lint_calls::{Before, case_type, constructor_goes, default_goes, leaves_as, literal_goes};
use fc_lint_context::Context;
use fc_model::{Flawed, deeper, flaw_here, next_part};
use fc_syntax::{FaultKind, Head, NAlt, NBinder, NTy};
use fc_type_scope::Entered;
use fc_type_table::{TypeId, TypeTable};
use std::alloc::Global;

/// What a case asks of its alternatives.
#[derive(Clone, Copy)]
pub(crate) struct Expected {
    /// The type of the scrutinee.
    pub(crate) scrutinee: TypeId,
    /// The type of what the case answers.
    pub(crate) answer: TypeId,
}

/// The premises of the head of an alternative with these binders, which bind this: `AltOrder` for the default, `LitAlt` and `AltOrder` for a
/// literal, `AltConstructor`, `AltOrder` and `ConArity` for a constructor. What stands before the next alternative.
#[tactic(auto, using(crate::proofs::Judging::judging_rules))]
fn head_goes(
    alloc: Global,
    head: &Head,
    binders: &[NBinder],
    entered: &Entered,
    scrutinee: TypeId,
    before: Before,
    types: &mut TypeTable,
    context: &Context,
) -> Result<Before, Flawed>
    requires context { IsContextOver types.old context.now }
    requires scrutinee_in { IsType types.old (scope_in context.now.scope) scrutinee }
    requires entered { IsEntered (nodes_of types.old) (scope_in context.now.scope) (nbinders_of binders.now) entered.now }
    ensures says { Says before_of result (words.head_goes (modules_of_context context.now) (shown types.old (scope_in context.now.scope) scrutinee) (before_of before) head.now (nbinders_of binders.now)) }
    ensures grows { OnOk result (Grows types.old types.new) }
    ensures context { OnOk result (IsContextOver types.new context.now) }
{
    match head {
        Head::Default => default_goes(alloc, before),
        Head::Lit(n) => literal_goes(alloc, scrutinee, before, *n, types, &context.scope),
        Head::Con(name) => match context.constructor_named(name) {
            None => Err(flaw_here(alloc, FaultKind::AltConstructor)),
            Some(k) => constructor_goes(
                alloc,
                name,
                &k.con,
                k.ty,
                scrutinee,
                before,
                binders,
                entered,
                types,
                &context.scope,
            ),
        },
    }
}

/// Whether an alternative fits its case; what stands before the next one.
#[cycle(lint)]
pub(crate) fn alternative_fits(
    alloc: Global,
    alternative: &NAlt,
    wanted: Expected,
    before: Before,
    types: &mut TypeTable,
    context: &Context,
) -> Result<Before, Flawed>
    requires context { IsContextOver types.old context.now }
    requires scrutinee_in { IsType types.old (scope_in context.now.scope) wanted.scrutinee }
    requires answer_in { IsType types.old (scope_in context.now.scope) wanted.answer }
    ensures says { Says before_of result (alt_judged (modules_of_context context.now) (context_in types.old context.now) (shown types.old (scope_in context.now.scope) wanted.scrutinee) (shown types.old (scope_in context.now.scope) wanted.answer) (before_of before) (nalt_of alternative.now)) }
    ensures grows { OnOk result (Grows types.old types.new) }
    ensures context { OnOk result (IsContextOver types.new context.now) }
{
    let binders = alternative.binders.as_slice();
    let behind = judged_binders(alloc, binders, types, &*context)?;
    let part = part_behind(binders)?;
    let body = type_behind(
        alloc,
        &alternative.body,
        binders,
        &behind.entered,
        types,
        &*context,
        part,
    )?;
    let next = head_goes(
        alloc,
        &alternative.head,
        binders,
        &behind.entered,
        wanted.scrutinee,
        before,
        types,
        &*context,
    )?;
    leaves_as(
        alloc,
        body,
        wanted.answer,
        FaultKind::AltType,
        types,
        &context.scope,
    )?;
    Ok(next)
}

/// The same of the alternative that is the part of this number of its case.
#[cycle(lint)]
pub(crate) fn alternative_part_fits(
    alloc: Global,
    alternative: &NAlt,
    wanted: Expected,
    before: Before,
    types: &mut TypeTable,
    context: &Context,
    number: u32,
) -> Result<Before, Flawed>
    requires context { IsContextOver types.old context.now }
    requires scrutinee_in { IsType types.old (scope_in context.now.scope) wanted.scrutinee }
    requires answer_in { IsType types.old (scope_in context.now.scope) wanted.answer }
    ensures says { Says before_of result (under number (alt_judged (modules_of_context context.now) (context_in types.old context.now) (shown types.old (scope_in context.now.scope) wanted.scrutinee) (shown types.old (scope_in context.now.scope) wanted.answer) (before_of before) (nalt_of alternative.now))) }
    ensures grows { OnOk result (Grows types.old types.new) }
    ensures context { OnOk result (IsContextOver types.new context.now) }
{
    match alternative_fits(alloc, alternative, wanted, before, types, &*context) {
        Ok(next) => Ok(next),
        Err(flawed) => Err(deeper(flawed, number)),
    }
}

/// Whether the alternatives fit a case in whose scope they stand; what stands behind the last one.
#[cycle(lint)]
pub(crate) fn each_alternative_fits(
    alloc: Global,
    alternatives: &[NAlt],
    wanted: Expected,
    types: &mut TypeTable,
    context: &Context,
) -> Result<Before, Flawed>
    requires context { IsContextOver types.old context.now }
    requires scrutinee_in { IsType types.old (scope_in context.now.scope) wanted.scrutinee }
    requires answer_in { IsType types.old (scope_in context.now.scope) wanted.answer }
    ensures says { Says before_of result (alts_judged (modules_of_context context.now) (context_in types.old context.now) (shown types.old (scope_in context.now.scope) wanted.scrutinee) (shown types.old (scope_in context.now.scope) wanted.answer) 3 Start (nalts_of alternatives.now)) }
    ensures grows { OnOk result (Grows types.old types.new) }
    ensures context { OnOk result (IsContextOver types.new context.now) }
{
    let mut before = Before::Start;
    let mut part = 3u32;
    for alternative in alternatives {
        before = alternative_part_fits(alloc, alternative, wanted, before, types, &*context, part)?;
        part = next_part(part)?;
    }
    Ok(before)
}

/// The same of a case whose binder is of this type.
#[cycle(lint)]
pub(crate) fn alternatives_fit(
    alloc: Global,
    alternatives: &[NAlt],
    of: TypeId,
    wanted: Expected,
    types: &mut TypeTable,
    context: &Context,
) -> Result<Before, Flawed>
    requires context { IsContextOver types.old context.now }
    requires of_in { IsType types.old (scope_in context.now.scope) of }
    requires scrutinee_in { IsType types.old (scope_in context.now.scope) wanted.scrutinee }
    requires answer_in { IsType types.old (scope_in context.now.scope) wanted.answer }
    ensures says { Says before_of result (alts_judged (modules_of_context context.now) (with_value (shown types.old (scope_in context.now.scope) of) (context_in types.old context.now)) (shown types.old (scope_in context.now.scope) wanted.scrutinee) (shown types.old (scope_in context.now.scope) wanted.answer) 3 Start (nalts_of alternatives.now)) }
    ensures grows { OnOk result (Grows types.old types.new) }
    ensures context { OnOk result (IsContextOver types.new context.now) }
{
    let inner = (&*context).behind_value(of);
    each_alternative_fits(alloc, alternatives, wanted, types, &inner)
}

/// The type of a case whose scrutinee is of this type.
#[cycle(lint)]
pub(crate) fn type_of_case(
    alloc: Global,
    alternatives: &[NAlt],
    of: &NTy,
    answer: &NTy,
    found: TypeId,
    types: &mut TypeTable,
    context: &Context,
) -> Result<TypeId, Flawed>
    requires context { IsContextOver types.old context.now }
    requires scrutinee_in { IsType types.old (scope_in context.now.scope) found }
    ensures valid { IfOk result (λ id. IsType types.new (scope_in context.now.scope) id) }
    ensures says { Says (λ id. shown types.new (scope_in context.now.scope) id) result (case_judged (modules_of_context context.now) (context_in types.old context.now) (shown types.old (scope_in context.now.scope) found) (nty_of of.now) (nty_of answer.now) (nalts_of alternatives.now)) }
    ensures grows { OnOk result (Grows types.old types.new) }
    ensures context { OnOk result (IsContextOver types.new context.now) }
{
    let binder = kinded_part(alloc, of, types, &*context, 1)?;
    let answer = kinded_part(alloc, answer, types, &*context, 2)?;
    let is_value = types.is_value_kind(answer.kind);
    let wanted = Expected {
        scrutinee: found,
        answer: answer.ty,
    };
    alternatives_fit(alloc, alternatives, binder.ty, wanted, types, &*context)?;
    case_type(
        alloc,
        binder.ty,
        found,
        is_value,
        wanted.answer,
        types,
        &context.scope,
    )
}
