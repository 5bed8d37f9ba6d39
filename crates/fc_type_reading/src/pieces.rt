//! What is read off of names, jumps, applications and casts.
ghost use Rattle.std.specs.Prelude.{◌≡◌, List, Some, IfOk, IfSome, OnOk};
ghost use Rattle.std.specs.Option.{option_map};
ghost use Rattle.fc_model.specs.Calling.{from_some};
ghost use Rattle.fc_model.specs.Coercing.{ends_or_fault};
ghost use Rattle.fc_model.specs.Faulting.{at_distance};
ghost use Rattle.fc_model.specs.NamelessView.{narg_of, nco_of};
ghost use Rattle.fc_model.specs.Typing as words;
ghost use Rattle.fc_model.specs.Typing.{answered, right_end};
ghost use Rattle.fc_lint_context.specs.ContextViews.{IsContextAt, IsContextOver, context_at, context_in, modules_of_context};
ghost use Rattle.fc_type_scope.specs.Scopes.{IsScope, scope_in};
ghost use Rattle.fc_type_table.specs.Scopes.{IsTypeAt, shown_at};
ghost use Rattle.fc_type_table.specs.TypeTables.{Grows, IsType, shown};
ghost use Rattle.fc_type_table.specs.declared.node.Node as nodes;
ghost use Rattle.fc_type_reading.specs.Readings.{IsAnswer, type_applied};

use fc_coercion::ends_of;
use fc_lint_context::Context;
use fc_model::Flawed;
use fc_syntax::{Memory, NArg, NCo};
use fc_type_scope::TypeScope;
use fc_type_table::{TypeId, TypeTable};
use std::alloc::Global;

/// What was judged, and nothing where a premise fails. Fails only where memory ran out.
pub(crate) fn judged_type(found: Result<TypeId, Flawed>) -> Result<Option<TypeId>, Memory>
    ensures { IfOk result (λ r. IsAnswer found r) }
{
    match found {
        Ok(id) => Ok(Some(id)),
        Err(Flawed::Memory) => Err(Memory),
        Err(Flawed::Flaw(_)) => Ok(None),
    }
}

/// The type of a jump to the join point at a distance: the written type of its join. Nothing where none is in tail reach there.
pub(crate) fn jump_type(distance: u32, context: &Context) -> Option<TypeId>
    ensures valid { (ns : List nodes.Node) → IsContextAt ns context.now → IfSome result (λ id. IsTypeAt ns (scope_in context.now.scope) id.0) }
    ensures view { (ns : List nodes.Node) → option_map (λ id. shown_at ns (scope_in context.now.scope) id.0) result ≡ from_some (λ (j : words.JoinPoint). Some j.result) (answered (at_distance (context_at ns context.now).joins distance)) }
{
    match context.join(distance) {
        None => None,
        Some(point) => Some(point.answer),
    }
}

/// The type of what is of the type `head` and is applied to an argument, which is looked at only where it is a type. Nothing where no such
/// argument is taken. Fails only where memory runs out, and where the argument is a type that names a variable out of scope.
#[tactic(auto, using(fc_syntax::proofs::View::view_rules, fc_type_scope::proofs::Proven::table_rules, crate::proofs::Steps::applied_rules))]
pub fn applied_type(
    alloc: Global,
    head: TypeId,
    arg: &NArg,
    types: &mut TypeTable,
    scope: &TypeScope<'_>,
) -> Result<Option<TypeId>, Memory>
    requires scope { IsScope types.old scope.now }
    requires head_in { IsType types.old (scope_in scope.now) head }
    ensures valid { IfOk result (λ r. IfSome r (λ id. IsType types.new (scope_in scope.now) id)) }
    ensures view { IfOk result (λ r. option_map (λ id. shown types.new (scope_in scope.now) id) r ≡ type_applied (shown types.old (scope_in scope.now) head) (narg_of arg.now)) }
    ensures grows { OnOk result (Grows types.old types.new) }
{
    match arg {
        NArg::Term(_) => match scope.function_parts(head, types) {
            None => Ok(None),
            Some((_, to)) => Ok(Some(to)),
        },
        NArg::OfType(t) => {
            let by = scope.read(t, types)?;
            scope.instantiate(alloc, head, by, types)
        }
        NArg::OfCo(_) => match scope.coercion_asked(head, types) {
            None => Ok(None),
            Some((_, body)) => Ok(Some(body)),
        },
    }
}

/// The type of a cast by a coercion: its right end. Nothing where the coercion is refused. Fails only where memory runs out, and where a type
/// of the coercion names a variable out of scope.
pub(crate) fn cast_type(
    alloc: Global,
    g: &NCo,
    types: &mut TypeTable,
    context: &Context,
) -> Result<Option<TypeId>, Memory>
    requires { IsContextOver types.old context.now }
    ensures valid { IfOk result (λ r. IfSome r (λ id. IsType types.new (scope_in context.now.scope) id)) }
    ensures view { IfOk result (λ r. option_map (λ id. shown types.new (scope_in context.now.scope) id) r ≡ right_end (answered (ends_or_fault (modules_of_context context.now) (context_in types.old context.now).kinds (context_in types.old context.now).coercions (nco_of g.now)))) }
    ensures grows { OnOk result (Grows types.old types.new) }
{
    match ends_of(alloc, g, types, &*context) {
        Ok(ends) => Ok(Some(ends.right)),
        Err(Flawed::Memory) => Err(Memory),
        Err(Flawed::Flaw(_)) => Ok(None),
    }
}
