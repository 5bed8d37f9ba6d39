//! The type of an expression.
ghost use Rattle.std.specs.Prelude.{◌≡◌, [], Ok, IfOk, OnOk};
ghost use Rattle.fc_model.specs.Says.{Says};
ghost use Rattle.fc_lint_context.specs.ContextViews.{IsContextOver, context_in, modules_of_context};
ghost use Rattle.fc_type_scope.specs.Scopes.{scope_in};
ghost use Rattle.fc_model.specs.Coercing.{ends_or_fault};
ghost use Rattle.fc_model.specs.Faulting.{and_then, under};
ghost use Rattle.fc_model.specs.Kinding.{same_type};
ghost use Rattle.fc_model.specs.Calling as words;
ghost use Rattle.fc_model.specs.Nameless.{NCon, NFail, NJump, NPrim};
ghost use Rattle.fc_model.specs.NamelessView.{narg_of, nargs_of, nco_of, nexpr_of, nexprs_of, nty_of};
ghost use Rattle.fc_model.specs.Typing.{argument_given, cast, no_context, type_or_fault, without_joins};
ghost use Rattle.fc_lint_context.specs.DeclaredViews.{AreRead, modules_read};
ghost use Rattle.fc_type_table.specs.TypeTables.{Grows, IsType, modules_in, nodes_of, shown};

use crate::arguments::{argument_of_part, arguments, operands};
use crate::binding::type_of_lambda;
use crate::cases::type_of_case;
use crate::joins::type_of_join;
use crate::lets::type_of_let;
use crate::written::kinded_part;
use fc_coercion::ends_of_part;
use fc_lint_calls::{applied, called, cast_type, fail_type, operated};
use fc_lint_context::{Context, DeclaredTypes};
use fc_model::{Flawed, deeper, flaw_here};
use fc_syntax::{FaultKind, NArg, NCo, NExpr, NTy, Name, PrimOp, Ref};
use fc_type_scope::TypeScope;
use fc_type_table::{NumberedKinds, TypeId, TypeTable};
use std::alloc::Global;

/// The type of the part of this number.
#[cycle(lint)]
pub(crate) fn type_of_part(
    alloc: Global,
    e: &NExpr,
    types: &mut TypeTable,
    context: &Context,
    part: u32,
) -> Result<TypeId, Flawed>
    requires context { IsContextOver types.old context.now }
    ensures valid { IfOk result (λ id. IsType types.new (scope_in context.now.scope) id) }
    ensures says { Says (λ id. shown types.new (scope_in context.now.scope) id) result (under part (type_or_fault (modules_of_context context.now) (context_in types.old context.now) (nexpr_of e.now))) }
    ensures grows { OnOk result (Grows types.old types.new) }
    ensures context { OnOk result (IsContextOver types.new context.now) }
{
    match judge(alloc, e, types, &*context) {
        Ok(t) => Ok(t),
        Err(flawed) => Err(deeper(flawed, part)),
    }
}

/// The type of an expression of whose tail no join point is in reach.
#[cycle(lint)]
pub(crate) fn type_apart(
    alloc: Global,
    e: &NExpr,
    types: &mut TypeTable,
    context: &Context,
) -> Result<TypeId, Flawed>
    requires context { IsContextOver types.old context.now }
    ensures valid { IfOk result (λ id. IsType types.new (scope_in context.now.scope) id) }
    ensures says { Says (λ id. shown types.new (scope_in context.now.scope) id) result (type_or_fault (modules_of_context context.now) (without_joins (context_in types.old context.now)) (nexpr_of e.now)) }
    ensures grows { OnOk result (Grows types.old types.new) }
    ensures context { OnOk result (IsContextOver types.new context.now) }
{
    let inner = context.without_joins();
    judge(alloc, e, types, &inner)
}

/// The type of the first part, which is not in tail reach.
#[cycle(lint)]
fn type_of_first(
    alloc: Global,
    e: &NExpr,
    types: &mut TypeTable,
    context: &Context,
) -> Result<TypeId, Flawed>
    requires context { IsContextOver types.old context.now }
    ensures valid { IfOk result (λ id. IsType types.new (scope_in context.now.scope) id) }
    ensures says { Says (λ id. shown types.new (scope_in context.now.scope) id) result (under 0 (type_or_fault (modules_of_context context.now) (without_joins (context_in types.old context.now)) (nexpr_of e.now))) }
    ensures grows { OnOk result (Grows types.old types.new) }
    ensures context { OnOk result (IsContextOver types.new context.now) }
{
    match type_apart(alloc, e, types, &*context) {
        Ok(t) => Ok(t),
        Err(flawed) => Err(deeper(flawed, 0)),
    }
}

/// The type of an application whose head is of this type.
#[cycle(lint)]
fn type_of_applied(
    alloc: Global,
    arg: &NArg,
    head: TypeId,
    types: &mut TypeTable,
    context: &Context,
) -> Result<TypeId, Flawed>
    requires context { IsContextOver types.old context.now }
    requires head_in { IsType types.old (scope_in context.now.scope) head }
    ensures valid { IfOk result (λ id. IsType types.new (scope_in context.now.scope) id) }
    ensures says { Says (λ id. shown types.new (scope_in context.now.scope) id) result (and_then (under 1 (argument_given (modules_of_context context.now) (without_joins (context_in types.old context.now)) (narg_of arg.now))) (λ g. words.applied (shown types.old (scope_in context.now.scope) head) g)) }
    ensures grows { OnOk result (Grows types.old types.new) }
    ensures context { OnOk result (IsContextOver types.new context.now) }
{
    let given = argument_of_part(alloc, arg, types, &*context, 1)?;
    applied(alloc, head, &given, types, &context.scope)
}

/// The type of a constructor with its arguments.
#[cycle(lint)]
fn type_of_constructor(
    alloc: Global,
    name: &Name,
    args: &[NArg],
    types: &mut TypeTable,
    context: &Context,
) -> Result<TypeId, Flawed>
    requires context { IsContextOver types.old context.now }
    ensures valid { IfOk result (λ id. IsType types.new (scope_in context.now.scope) id) }
    ensures says { Says (λ id. shown types.new (scope_in context.now.scope) id) result (type_or_fault (modules_of_context context.now) (context_in types.old context.now) (NCon name.now (nargs_of args.now))) }
    ensures grows { OnOk result (Grows types.old types.new) }
    ensures context { OnOk result (IsContextOver types.new context.now) }
{
    let given = arguments(alloc, args, types, &*context)?;
    match context.constructor_named(name) {
        None => Err(flaw_here(alloc, FaultKind::Unbound)),
        Some(k) => {
            let count = k.con.arity()?;
            called(
                alloc,
                FaultKind::ConArity,
                count,
                k.ty,
                given.as_slice(),
                types,
                &context.scope,
            )
        }
    }
}

/// The type of a primitive with its operands.
#[cycle(lint)]
fn type_of_primitive(
    alloc: Global,
    op: PrimOp,
    args: &[NExpr],
    types: &mut TypeTable,
    context: &Context,
) -> Result<TypeId, Flawed>
    requires context { IsContextOver types.old context.now }
    ensures valid { IfOk result (λ id. IsType types.new (scope_in context.now.scope) id) }
    ensures says { Says (λ id. shown types.new (scope_in context.now.scope) id) result (type_or_fault (modules_of_context context.now) (context_in types.old context.now) (NPrim op (nexprs_of args.now))) }
    ensures grows { OnOk result (Grows types.old types.new) }
    ensures context { OnOk result (IsContextOver types.new context.now) }
{
    let given = operands(alloc, args, types, &*context)?;
    operated(alloc, given.as_slice(), types, &context.scope)
}

/// The type of a jump to the join point at a distance.
#[cycle(lint)]
fn type_of_jump(
    alloc: Global,
    distance: u32,
    args: &[NArg],
    types: &mut TypeTable,
    context: &Context,
) -> Result<TypeId, Flawed>
    requires context { IsContextOver types.old context.now }
    ensures valid { IfOk result (λ id. IsType types.new (scope_in context.now.scope) id) }
    ensures says { Says (λ id. shown types.new (scope_in context.now.scope) id) result (type_or_fault (modules_of_context context.now) (context_in types.old context.now) (NJump distance (nargs_of args.now))) }
    ensures grows { OnOk result (Grows types.old types.new) }
    ensures context { OnOk result (IsContextOver types.new context.now) }
{
    let given = arguments(alloc, args, types, &*context)?;
    match context.join(distance) {
        None => Err(flaw_here(alloc, FaultKind::JumpNotTail)),
        Some(to) => {
            called(
                alloc,
                FaultKind::JumpArity,
                to.arity,
                to.ty,
                given.as_slice(),
                types,
                &context.scope,
            )?;
            Ok(to.answer)
        }
    }
}

/// The type of a cast of what is of this type, by the coercion that is the part 1.
#[tactic(auto, using(crate::proofs::Judging::judging_rules))]
fn type_of_cast(
    alloc: Global,
    g: &NCo,
    found: TypeId,
    types: &mut TypeTable,
    context: &Context,
) -> Result<TypeId, Flawed>
    requires context { IsContextOver types.old context.now }
    requires found_in { IsType types.old (scope_in context.now.scope) found }
    ensures valid { IfOk result (λ id. IsType types.new (scope_in context.now.scope) id) }
    ensures says { Says (λ id. shown types.new (scope_in context.now.scope) id) result (and_then (under 1 (ends_or_fault (modules_of_context context.now) (context_in types.old context.now).kinds (context_in types.old context.now).coercions (nco_of g.now))) (λ p. cast (shown types.old (scope_in context.now.scope) found) p)) }
    ensures grows { OnOk result (Grows types.old types.new) }
    ensures context { OnOk result (IsContextOver types.new context.now) }
{
    let ends = ends_of_part(alloc, g, types, &*context, 1)?;
    cast_type(alloc, &ends, found, types, &context.scope)
}

/// The type of an error.
#[tactic(auto, using(crate::proofs::Judging::judging_rules))]
fn type_of_fail(
    alloc: Global,
    t: &NTy,
    types: &mut TypeTable,
    context: &Context,
) -> Result<TypeId, Flawed>
    requires context { IsContextOver types.old context.now }
    ensures valid { IfOk result (λ id. IsType types.new (scope_in context.now.scope) id) }
    ensures says { Says (λ id. shown types.new (scope_in context.now.scope) id) result (type_or_fault (modules_of_context context.now) (context_in types.old context.now) (NFail (nty_of t.now))) }
    ensures grows { OnOk result (Grows types.old types.new) }
    ensures context { OnOk result (IsContextOver types.new context.now) }
{
    let read = kinded_part(alloc, t, types, &*context, 0)?;
    let is_value = types.is_value_kind(read.kind);
    fail_type(alloc, is_value, read.ty, types, &context.scope)
}

/// The type of an expression in a context, or the first premise that fails, as `lint` tells it.
#[cycle(lint)]
pub fn judge(
    alloc: Global,
    e: &NExpr,
    types: &mut TypeTable,
    context: &Context,
) -> Result<TypeId, Flawed>
    requires context { IsContextOver types.old context.now }
    ensures valid { IfOk result (λ id. IsType types.new (scope_in context.now.scope) id) }
    ensures says { Says (λ id. shown types.new (scope_in context.now.scope) id) result (type_or_fault (modules_of_context context.now) (context_in types.old context.now) (nexpr_of e.now)) }
    ensures grows { OnOk result (Grows types.old types.new) }
    ensures context { OnOk result (IsContextOver types.new context.now) }
{
    match e {
        NExpr::Var(Ref::Local(distance)) => context.local(alloc, *distance),
        NExpr::Var(Ref::Top(name)) => context.definition_type(alloc, name),
        NExpr::Lit(_) => Ok(context.scope.int_hash(types)?),
        NExpr::App(head, arg) => {
            let t = type_of_first(alloc, head, types, &*context)?;
            type_of_applied(alloc, arg, t, types, &*context)
        }
        NExpr::Lam(binder, body) => type_of_lambda(alloc, body, binder, types, &*context),
        NExpr::Let(recursive, binds, body) => {
            type_of_let(alloc, body, binds.as_slice(), *recursive, types, &*context)
        }
        NExpr::Case(scrutinee, _, of, answer, alternatives) => {
            let found = type_of_first(alloc, scrutinee, types, &*context)?;
            let alternatives = alternatives.as_slice();
            type_of_case(alloc, alternatives, of, answer, found, types, &*context)
        }
        NExpr::Cast(e, g) => {
            let found = type_of_first(alloc, e, types, &*context)?;
            type_of_cast(alloc, g, found, types, &*context)
        }
        NExpr::Con(name, args) => {
            type_of_constructor(alloc, name, args.as_slice(), types, &*context)
        }
        NExpr::Prim(op, args) => {
            type_of_primitive(alloc, *op, args.as_slice(), types, &*context)
        }
        NExpr::Fail(t) => type_of_fail(alloc, t, types, &*context),
        NExpr::Join(recursive, t, binds, body) => {
            type_of_join(
                alloc,
                body,
                binds.as_slice(),
                t,
                *recursive,
                types,
                &*context,
            )
        }
        NExpr::Jump(distance, args) => {
            type_of_jump(alloc, *distance, args.as_slice(), types, &*context)
        }
    }
}

/// The type of a closed expression among the declarations of its module, or the first premise that fails: the parts from left to right,
/// before the premises of the piece itself, each with the part numbers to the piece. The faults are those of kinds in each type; `Unbound`;
/// for an application `NotFunction`, `ArgType` and `UnliftedNotAtom`, to a type `NotForall` and `KindMismatch`, and to a coercion
/// `NotFunction` and `ArgType`; those of `ends_of` in each coercion; for a cast `RoleWrong` and `CastFrom`; for a lambda `NotAType`, over
/// a coercion `KindsDiffer`, and over a type `UnliftedVariable` before its body; for a bind `NotAType`, `LetType` and `UnliftedNotAtom`; for a
/// constructor `Unbound`, `ConArity`, `KindMismatch`, `ArgType` and `UnliftedNotAtom`; for a case `ScrutineeType` and `NotAType`; for the
/// default of a case `AltOrder`, for a literal's alternative `LitAlt` and `AltOrder`, for a constructor's `AltConstructor`, `AltOrder` and
/// `ConArity`, and for each of them then `EscapingType` and `AltType`; for a primitive `PrimArity`, `ArgType` and `UnliftedNotAtom`; for an
/// error `NotAType`; for a join point `NotAType` and `KindsDiffer`, `EscapingType` and `LetType`; for a join `LetType` and `NotAType`; for a jump
/// `JumpNotTail`, `JumpArity`, `KindMismatch`, `ArgType` and `UnliftedNotAtom`; in these orders.
#[tactic(auto, using(crate::proofs::Judging::judging_rules))]
pub fn lint(
    alloc: Global,
    e: &NExpr,
    types: &mut TypeTable,
    declared: &DeclaredTypes,
) -> Result<TypeId, Flawed>
    requires read { AreRead (nodes_of types.old) declared.now }
    requires modules { modules_in types.old ≡ modules_read declared.now }
    ensures valid { IfOk result (λ id. IsType types.new [] id) }
    ensures says { Says (λ id. shown types.new [] id) result (type_or_fault (modules_read declared.now) no_context (nexpr_of e.now)) }
    ensures grows { OnOk result (Grows types.old types.new) }
    ensures read { OnOk result (AreRead (nodes_of types.new) declared.now) }
{
    let kinds = NumberedKinds::End;
    let context = Context::closed(declared, &kinds);
    judge(alloc, e, types, &context)
}

/// Whether a closed expression is of a type, or the first premise that fails, as `lint` tells it.
#[tactic(auto, using(crate::proofs::Judging::judging_rules))]
pub fn has_type(
    alloc: Global,
    e: &NExpr,
    t: &NTy,
    types: &mut TypeTable,
    declared: &DeclaredTypes,
) -> Result<bool, Flawed>
    requires read { AreRead (nodes_of types.old) declared.now }
    requires modules { modules_in types.old ≡ modules_read declared.now }
    ensures says { Says (λ b. b) result (and_then (type_or_fault (modules_read declared.now) no_context (nexpr_of e.now)) (λ u. Ok (same_type (nty_of t.now) u))) }
    ensures grows { OnOk result (Grows types.old types.new) }
    ensures read { OnOk result (AreRead (nodes_of types.new) declared.now) }
{
    let kinds = NumberedKinds::End;
    let scope = TypeScope { kinds: &kinds };
    let found = lint(alloc, e, types, declared)?;
    let wanted = scope.read(t, types)?;
    Ok(scope.same(wanted, found, types))
}
