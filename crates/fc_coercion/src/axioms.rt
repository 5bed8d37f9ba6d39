//! Axioms at what coercions relate.
ghost use Rattle.std.specs.Prelude.{◌≡◌, Option, IfOk, OnOk};
ghost use Rattle.fc_model.specs.Coercing as words;
ghost use Rattle.fc_model.specs.Coercing.{axiom_named};
ghost use Rattle.fc_model.specs.NamelessView.{ndecl_of};
ghost use Rattle.fc_model.specs.Says.{Says};
ghost use Rattle.fc_syntax.specs.Tree as trees;
ghost use Rattle.fc_types.specs.TableViews.{axiom_of};
ghost use Rattle.fc_lint_context.specs.ContextViews.{IsContextOver, modules_of_context};
ghost use Rattle.fc_coercion_forms.specs.Axioms.{fits_or_fault};
ghost use Rattle.fc_type_scope.specs.EndViews.{AreEndsAt, IsEnds, shown_all_ends_at, shown_ends};
ghost use Rattle.fc_type_scope.specs.Refusals.{OnFlaw};
ghost use Rattle.fc_type_scope.specs.Scopes.{scope_in};
ghost use Rattle.fc_type_table.specs.TypeTables.{Grows, modules_in, nodes_of};

use fc_coercion_forms::{Pair, at_all_ends, fit};
use fc_lint_context::{Context, param_kinds, plain_kinds};
use fc_model::{Flawed, flaw_here};
use fc_syntax::{FaultKind, NDecl, Name, Role};
use fc_type_scope::{Ends, TypeScope};
use fc_type_table::TypeTable;
use std::alloc::Global;

/// Whether coercions fit the parameters of the axiom of a declaration; the answer is the role at which it relates its sides.
#[tactic(auto, using(fc_syntax::proofs::View::view_rules))]
fn fit_declared(
    alloc: Global,
    decl: &NDecl,
    group: &[Ends],
    types: &mut TypeTable,
    scope: &TypeScope<'_>,
) -> Result<Role, Flawed>
    requires { AreEndsAt (nodes_of types.old) (scope_in scope.now) group.now }
    ensures says { (m : Option trees.Word) → Says (λ r. r) result (fits_or_fault (modules_in types.old) (scope_in scope.now) (axiom_of m (ndecl_of decl.now)) (shown_all_ends_at (nodes_of types.old) (scope_in scope.now) group.now)) }
    ensures grows { OnOk result (Grows types.old types.new) }
    ensures refused { OnFlaw result (Grows types.old types.new) }
{
    match decl {
        NDecl::DataType(_, _, _) => Err(flaw_here(alloc, FaultKind::Unbound)),
        NDecl::NewType(_, params, _, _) => {
            let kinds = param_kinds(alloc, params.as_slice(), types)?;
            let params = params.as_slice();
            fit(
                alloc,
                Role::R,
                params,
                kinds.as_slice(),
                group,
                types,
                scope,
            )
        }
        NDecl::Family(_, _, _) => Err(flaw_here(alloc, FaultKind::Unbound)),
        NDecl::Axiom(_, params, _, _) => {
            let kinds = plain_kinds(alloc, params.as_slice(), types)?;
            fit(alloc, Role::N, &[], kinds.as_slice(), group, types, scope)
        }
        NDecl::Def(_, _, _) => Err(flaw_here(alloc, FaultKind::Unbound)),
        NDecl::Wrap(_, _, _) => Err(flaw_here(alloc, FaultKind::Unbound)),
    }
}

/// An axiom at what coercions relate: `Unbound` for a name without an axiom, then `AxiomArity`, `RoleWrong` and `KindsDiffer`.
pub(crate) fn axiom_at(
    alloc: Global,
    name: &Name,
    group: &[Ends],
    types: &mut TypeTable,
    context: &Context,
) -> Result<Ends, Flawed>
    requires context { IsContextOver types.old context.now }
    requires group_in { AreEndsAt (nodes_of types.old) (scope_in context.now.scope) group.now }
    ensures valid { IfOk result (λ e. IsEnds types.new (scope_in context.now.scope) e) }
    ensures says { Says (λ e. shown_ends types.new (scope_in context.now.scope) e) result (words.axiom_ends (modules_of_context context.now) (scope_in context.now.scope) (axiom_named (modules_of_context context.now) name.now) (shown_all_ends_at (nodes_of types.old) (scope_in context.now.scope) group.now)) }
    ensures grows { OnOk result (Grows types.old types.new) }
    ensures refused { OnFlaw result (Grows types.old types.new) }
{
    let Some(found) = context.axiom_named(name) else {
        return Err(flaw_here(alloc, FaultKind::Unbound));
    };
    let role = fit_declared(alloc, found.decl, group, types, &context.scope)?;
    let sides = Pair {
        left: found.left,
        right: found.right,
    };
    let Some(at) = at_all_ends(alloc, sides, group, types, &context.scope)? else {
        return Err(flaw_here(alloc, FaultKind::AxiomArity));
    };
    Ok(Ends {
        role,
        left: at.left,
        right: at.right,
    })
}
