//! The type of an expression, read off.
ghost use Rattle.std.specs.Prelude.{◌≡◌, [], ◌∷◌, IfOk, IfSome, OnOk};
ghost use Rattle.std.specs.Option.{option_map};
ghost use Rattle.fc_lint_context.specs.ContextViews.{IsContextOver, context_in, modules_of_context};
ghost use Rattle.fc_lint_context.specs.LocalViews.{bind_types};
ghost use Rattle.fc_model.specs.Nameless.{NLam, NLet};
ghost use Rattle.fc_model.specs.NamelessView.{nbinder_of, nbinds_of, nexpr_of};
ghost use Rattle.fc_model.specs.Typing as words;
ghost use Rattle.fc_model.specs.Typing.{with_binder, with_binds};
ghost use Rattle.fc_type_scope.specs.Behind.{IsEntered, kinds_past};
ghost use Rattle.fc_type_scope.specs.Scopes.{AreTypes, scope_in, shown_all};
ghost use Rattle.fc_type_table.specs.TypeTables.{Grows, IsType, modules_in, nodes_of, shown};

use crate::constructors::constructor_type;
use crate::pieces::{applied_type, cast_type, judged_type, jump_type};
use fc_lint_context::Context;
use fc_syntax::{Memory, NBind, NBinder, NExpr, Ref};
use fc_type_scope::Entered;
use fc_type_table::{TypeId, TypeTable};
use std::alloc::Global;

/// The type of the body of a lambda over a binder that was entered here.
#[cycle(reading)]
fn type_below(
    alloc: Global,
    body: &NExpr,
    binder: &NBinder,
    entered: &Entered,
    types: &mut TypeTable,
    context: &Context,
) -> Result<Option<TypeId>, Memory>
    requires context { IsContextOver types.old context.now }
    requires entered_in { IsEntered (nodes_of types.old) (scope_in context.now.scope) (nbinder_of binder.now ∷ []) entered.now }
    ensures valid { IfOk result (λ r. IfSome r (λ id. IsType types.new (kinds_past (nbinder_of binder.now ∷ []) (scope_in context.now.scope)) id)) }
    ensures view { IfOk result (λ r. option_map (λ id. shown types.new (kinds_past (nbinder_of binder.now ∷ []) (scope_in context.now.scope)) id) r ≡ words.type_read_off (modules_of_context context.now) (with_binder (nbinder_of binder.now) (context_in types.old context.now)) (nexpr_of body.now)) }
    ensures grows { OnOk result (Grows types.old types.new) }
{
    let kinds = (&*entered).kinds_behind(&*context.scope.kinds);
    let inner = (&*context).behind_binders(&*entered, &kinds);
    type_read_off(alloc, body, types, &inner)
}

/// The type of a lambda: what takes an argument for its binder and is then of the type of its body.
#[cycle(reading)]
fn lambda_type(
    alloc: Global,
    body: &NExpr,
    binder: &NBinder,
    types: &mut TypeTable,
    context: &Context,
) -> Result<Option<TypeId>, Memory>
    requires { IsContextOver types.old context.now }
    ensures valid { IfOk result (λ r. IfSome r (λ id. IsType types.new (scope_in context.now.scope) id)) }
    ensures view { IfOk result (λ r. option_map (λ id. shown types.new (scope_in context.now.scope) id) r ≡ words.type_read_off (modules_of_context context.now) (context_in types.old context.now) (NLam (nbinder_of binder.now) (nexpr_of body.now))) }
    ensures grows { OnOk result (Grows types.old types.new) }
{
    let entered = context.scope.enter_one(alloc, binder, types)?;
    match type_below(alloc, body, binder, &entered, types, &*context)? {
        None => Ok(None),
        Some(id) => {
            let whole = context
                .scope
                .function_over_one(alloc, binder, &entered, id, types)?;
            Ok(Some(whole))
        }
    }
}

/// The type of the body of a let behind binds of these types.
#[cycle(reading)]
fn type_behind_binds(
    alloc: Global,
    body: &NExpr,
    binds: &[NBind],
    ids: &[TypeId],
    types: &mut TypeTable,
    context: &Context,
) -> Result<Option<TypeId>, Memory>
    requires context { IsContextOver types.old context.now }
    requires types_in { AreTypes types.old (scope_in context.now.scope) ids.now }
    requires all { shown_all types.old (scope_in context.now.scope) ids.now ≡ bind_types (nbinds_of binds.now) }
    ensures valid { IfOk result (λ r. IfSome r (λ id. IsType types.new (scope_in context.now.scope) id)) }
    ensures view { IfOk result (λ r. option_map (λ id. shown types.new (scope_in context.now.scope) id) r ≡ words.type_read_off (modules_of_context context.now) (with_binds (nbinds_of binds.now) (context_in types.old context.now)) (nexpr_of body.now)) }
    ensures grows { OnOk result (Grows types.old types.new) }
{
    let inner = (&*context).behind_binds(&*ids);
    type_read_off(alloc, body, types, &inner)
}

/// The type of a let: that of its body behind its binds, of which the written types alone are looked at.
#[cycle(reading)]
fn let_type(
    alloc: Global,
    body: &NExpr,
    binds: &[NBind],
    recursive: bool,
    types: &mut TypeTable,
    context: &Context,
) -> Result<Option<TypeId>, Memory>
    requires { IsContextOver types.old context.now }
    ensures valid { IfOk result (λ r. IfSome r (λ id. IsType types.new (scope_in context.now.scope) id)) }
    ensures view { IfOk result (λ r. option_map (λ id. shown types.new (scope_in context.now.scope) id) r ≡ words.type_read_off (modules_of_context context.now) (context_in types.old context.now) (NLet recursive (nbinds_of binds.now) (nexpr_of body.now))) }
    ensures grows { OnOk result (Grows types.old types.new) }
{
    let ids = context.types_of_binds(alloc, binds, types)?;
    type_behind_binds(alloc, body, binds, ids.as_slice(), types, &*context)
}

/// The type of an expression in a context, read off without judging its premises: the type that it has where it has one, and nothing where a
/// part that the type is read off has none, or a coercion there is refused. Visited are the heads of applications, the bodies of lambdas and lets,
/// the types of their binders, the type arguments that are put in, and the coercion of a cast, and nothing else. Fails only where memory runs
/// out, and where a type that is read names a variable out of scope, as no type does of a module that has its names.
#[cycle(reading)]
#[tactic(auto, using(fc_syntax::proofs::View::view_rules))]
pub fn type_read_off(
    alloc: Global,
    e: &NExpr,
    types: &mut TypeTable,
    context: &Context,
) -> Result<Option<TypeId>, Memory>
    requires { IsContextOver types.old context.now }
    ensures valid { IfOk result (λ r. IfSome r (λ id. IsType types.new (scope_in context.now.scope) id)) }
    ensures view { IfOk result (λ r. option_map (λ id. shown types.new (scope_in context.now.scope) id) r ≡ words.type_read_off (modules_of_context context.now) (context_in types.old context.now) (nexpr_of e.now)) }
    ensures grows { OnOk result (Grows types.old types.new) }
{
    match e {
        NExpr::Var(Ref::Local(distance)) => judged_type(context.local(alloc, *distance)),
        NExpr::Var(Ref::Top(name)) => judged_type(context.definition_type(alloc, name)),
        NExpr::Lit(_) => Ok(Some(context.scope.int_hash(types)?)),
        NExpr::App(head, arg) => match type_read_off(alloc, head, types, &*context)? {
            None => Ok(None),
            Some(t) => applied_type(alloc, t, arg, types, &context.scope),
        },
        NExpr::Lam(binder, body) => lambda_type(alloc, body, binder, types, &*context),
        NExpr::Let(recursive, binds, body) => {
            let_type(alloc, body, binds.as_slice(), *recursive, types, &*context)
        }
        NExpr::Case(_, _, _, answer, _) => Ok(Some(context.scope.read(answer, types)?)),
        NExpr::Cast(_, g) => cast_type(alloc, g, types, &*context),
        NExpr::Con(name, args) => constructor_type(name, args.as_slice(), types, &*context),
        NExpr::Prim(_, _) => Ok(Some(context.scope.int_hash(types)?)),
        NExpr::Fail(t) => Ok(Some(context.scope.read(t, types)?)),
        NExpr::Join(_, t, _, _) => Ok(Some(context.scope.read(t, types)?)),
        NExpr::Jump(distance, _) => Ok(jump_type(*distance, &*context)),
    }
}
