//! What is in scope where an expression is judged.
ghost use Rattle.std.specs.Prelude.{◌≡◌, [], ◌∷◌, ◌++◌, List, reverse, IfOk, IfSome, Some};
ghost use Rattle.std.specs.Option.{option_and_then, option_map};
ghost use Rattle.fc_syntax.specs.Tree as trees;
ghost use Rattle.fc_model.specs.Calling as calls;
ghost use Rattle.fc_model.specs.Calling.{constructor};
ghost use Rattle.fc_model.specs.Coercing.{Axiom, axiom_named};
ghost use Rattle.fc_model.specs.Faulting.{at_distance};
ghost use Rattle.fc_model.specs.NamelessView.{ndecl_of};
ghost use Rattle.fc_model.specs.Nameless as pure;
ghost use Rattle.fc_model.specs.Says.{Says};
ghost use Rattle.fc_model.specs.Typing as words;
ghost use Rattle.fc_model.specs.Typing.{answered, value_type};
ghost use Rattle.fc_type_scope.specs.EndViews.{IsEndsAt, shown_ends_at};
ghost use Rattle.fc_type_scope.specs.Behind.{IsEntered, kinds_past};
ghost use Rattle.fc_type_scope.specs.Scopes.{AreTypesAt, scope_in, shown_all_at};
ghost use Rattle.fc_type_table.specs.InScope.{IsScopeAt, kinds_of, numbered_of, own_kinds};
ghost use Rattle.fc_type_table.specs.Scopes.{IsTypeAt, shown_at};
ghost use Rattle.fc_type_table.specs.declared.node.Node as nodes;
ghost use Rattle.fc_types.specs.TableViews.{axiom_of, constructor_of};
ghost use Rattle.fc_lint_context.specs.DeclaredViews.{AreRead, AreSidesAt, ShowSides, modules_read};
ghost use Rattle.fc_lint_context.specs.ContextViews.{IsContextAt, context_at, modules_of_context};
ghost use Rattle.fc_lint_context.specs.JoinViews.{AreJoinsAt, IsJoinAt, join_points, points_of, shown_join, shown_joins_at};
ghost use Rattle.fc_lint_context.specs.LocalViews.{bind_types, numbers_of};

use crate::coercions::{Coercions, ends_at};
use crate::declared_types::{DeclaredTypes, TypedAxiom, TypedCon};
use crate::joins::{JoinPoint, Joins, join_at};
use crate::locals::{Locals, local_type};
use fc_model::{Flawed, flaw_here};
use fc_syntax::{FaultKind, Name};
use fc_type_scope::{Ends, Entered, TypeScope};
use fc_type_table::{NumberedKinds, TypeId};
use std::alloc::Global;

/// What is in scope where an expression is judged.
#[derive(Clone, Copy)]
pub struct Context<'x> {
    /// What the modules declare.
    pub declared: &'x DeclaredTypes<'x>,
    /// The type variables in scope.
    pub scope: TypeScope<'x>,
    /// What the local variables of coercions prove.
    pub coercions: Coercions<'x>,
    /// The local variables of values, by their types.
    pub locals: Locals<'x>,
    /// The join points in tail reach.
    pub joins: Joins<'x>,
}

impl<'x> Context<'x> {
    /// Where nothing is in scope but what the modules declare; `kinds` has no type variable.
    pub fn closed(declared: &'x DeclaredTypes<'x>, kinds: &'x NumberedKinds<'x>) -> Context<'x>
        requires kinds { kinds_of kinds.now ≡ [] }
        requires numbered { numbered_of kinds.now ≡ [] }
        ensures declared { modules_of_context result ≡ modules_read declared.now }
        ensures scope { scope_in result.scope ≡ [] }
        ensures valid { (ns : List nodes.Node) → AreRead ns declared.now → IsContextAt ns result }
        ensures view { (ns : List nodes.Node) → context_at ns result ≡ words.no_context }
    {
        Context {
            declared,
            scope: TypeScope { kinds },
            coercions: Coercions::End,
            locals: Locals::End,
            joins: Joins::End,
        }
    }

    /// The type of the local variable at a distance.
    pub fn local(&self, alloc: Global, distance: u32) -> Result<TypeId, Flawed>
        ensures valid { (ns : List nodes.Node) → IsContextAt ns self.now → IfOk result (λ id. IsTypeAt ns (scope_in self.now.scope) id.0) }
        ensures says { (ns : List nodes.Node) → Says (λ id. shown_at ns (scope_in self.now.scope) id.0) result (at_distance (context_at ns self.now).values distance) }
    {
        local_type(alloc, &self.locals, distance)
    }

    /// What the coercion variable at a distance proves.
    pub fn coercion(&self, alloc: Global, distance: u32) -> Result<Ends, Flawed>
        ensures valid { (ns : List nodes.Node) → IsContextAt ns self.now → IfOk result (λ e. IsEndsAt ns (scope_in self.now.scope) e) }
        ensures says { (ns : List nodes.Node) → Says (λ e. shown_ends_at ns (scope_in self.now.scope) e) result (at_distance (context_at ns self.now).coercions distance) }
    {
        ends_at(alloc, &self.coercions, distance)
    }

    /// The join point at a distance.
    pub fn join(&self, distance: u32) -> Option<JoinPoint>
        ensures valid { (ns : List nodes.Node) → IsContextAt ns self.now → IfSome result (λ j. IsJoinAt ns (scope_in self.now.scope) j) }
        ensures view { (ns : List nodes.Node) → option_map (λ j. shown_join ns (scope_in self.now.scope) j) result ≡ answered (at_distance (context_at ns self.now).joins distance) }
    {
        join_at(&self.joins, distance)
    }

    /// The type of the definition of a name.
    pub fn definition_type(&self, alloc: Global, name: &Name) -> Result<TypeId, Flawed>
        ensures valid { (ns : List nodes.Node) → IsContextAt ns self.now → IfOk result (λ id. IsTypeAt ns (scope_in self.now.scope) id.0) }
        ensures says { (ns : List nodes.Node) → IsContextAt ns self.now → Says (λ id. shown_at ns (scope_in self.now.scope) id.0) result (value_type (modules_of_context self.now) name.now) }
    {
        match self.declared.definition_type(name) {
            None => Err(flaw_here(alloc, FaultKind::Unbound)),
            Some(t) => Ok(t),
        }
    }

    /// The constructor of a name, with its type as a function of its binders.
    pub fn constructor_named(&self, name: &Name) -> Option<TypedCon<'x>>
        ensures view { (ns : List nodes.Node) → IsContextAt ns self.now → option_map (λ k. constructor_of k.con) result ≡ constructor (modules_of_context self.now) name.now }
        ensures valid { (ns : List nodes.Node) → IsContextAt ns self.now → IfSome result (λ k. IsTypeAt ns (scope_in self.now.scope) k.ty.0) }
        ensures ty { (ns : List nodes.Node) → IsContextAt ns self.now → IfSome result (λ k. shown_at ns (scope_in self.now.scope) k.ty.0 ≡ calls.constructor_type name.now (constructor_of k.con)) }
    {
        self.declared.constructor_named(name)
    }

    /// The axiom of a name, with its sides as `forall`s over its parameters.
    pub fn axiom_named(&self, name: &Name) -> Option<TypedAxiom<'x>>
        ensures view { (ns : List nodes.Node) → IsContextAt ns self.now → option_and_then (λ k. axiom_of name.now.module (ndecl_of k.decl.now)) result ≡ axiom_named (modules_of_context self.now) name.now }
        ensures valid { (ns : List nodes.Node) → IsContextAt ns self.now → IfSome result (λ k. AreSidesAt ns (scope_in self.now.scope) k) }
        ensures sides { (ns : List nodes.Node) → IsContextAt ns self.now → IfSome result (λ k. (a : Axiom) → axiom_of name.now.module (ndecl_of k.decl.now) ≡ Some a → ShowSides ns (scope_in self.now.scope) k a) }
    {
        self.declared.axiom_named(name)
    }

    /// The same where no join point is in tail reach.
    pub fn without_joins(&self) -> Context<'x>
        ensures declared { modules_of_context result ≡ modules_of_context self.now }
        ensures scope { scope_in result.scope ≡ scope_in self.now.scope }
        ensures valid { (ns : List nodes.Node) → IsContextAt ns self.now → IsContextAt ns result }
        ensures view { (ns : List nodes.Node) → context_at ns result ≡ words.without_joins (context_at ns self.now) }
    {
        Context {
            declared: self.declared,
            scope: self.scope,
            coercions: self.coercions,
            locals: self.locals,
            joins: Joins::End,
        }
    }

    /// Behind a variable of a value of this type.
    pub fn behind_value(&'x self, t: TypeId) -> Context<'x>
        ensures declared { modules_of_context result ≡ modules_of_context self.now }
        ensures scope { scope_in result.scope ≡ scope_in self.now.scope }
        ensures valid { (ns : List nodes.Node) → IsContextAt ns self.now → IsTypeAt ns (scope_in self.now.scope) t.0 → IsContextAt ns result }
        ensures view { (ns : List nodes.Node) → context_at ns result ≡ words.with_value (shown_at ns (scope_in self.now.scope) t.0) (context_at ns self.now) }
    {
        Context {
            declared: self.declared,
            scope: self.scope,
            coercions: self.coercions,
            locals: Locals::Value(t, &self.locals),
            joins: self.joins,
        }
    }

    /// Behind the variables of binds of these types.
    pub fn behind_binds(&'x self, ids: &'x [TypeId]) -> Context<'x>
        ensures declared { modules_of_context result ≡ modules_of_context self.now }
        ensures scope { scope_in result.scope ≡ scope_in self.now.scope }
        ensures valid { (ns : List nodes.Node) → IsContextAt ns self.now → AreTypesAt ns (scope_in self.now.scope) ids.now → IsContextAt ns result }
        ensures view { (ns : List nodes.Node) (bs : pure.NBinds) → shown_all_at ns (scope_in self.now.scope) ids.now ≡ bind_types bs → context_at ns result ≡ words.with_binds bs (context_at ns self.now) }
    {
        Context {
            declared: self.declared,
            scope: self.scope,
            coercions: self.coercions,
            locals: Locals::Group(ids, &self.locals),
            joins: self.joins,
        }
    }

    /// Behind these join points.
    pub fn behind_joins(&'x self, points: &'x [JoinPoint]) -> Context<'x>
        ensures declared { modules_of_context result ≡ modules_of_context self.now }
        ensures scope { scope_in result.scope ≡ scope_in self.now.scope }
        ensures valid { (ns : List nodes.Node) → IsContextAt ns self.now → AreJoinsAt ns (scope_in self.now.scope) points.now → IsContextAt ns result }
        ensures view { (ns : List nodes.Node) (t : pure.NTy) (js : pure.NJoins) → shown_joins_at ns (scope_in self.now.scope) points.now ≡ join_points t js → context_at ns result ≡ words.with_joins t js (context_at ns self.now) }
    {
        Context {
            declared: self.declared,
            scope: self.scope,
            coercions: self.coercions,
            locals: self.locals,
            joins: Joins::Group(points, &self.joins),
        }
    }

    /// Behind a type variable, with the kinds of the type variables in scope there.
    pub fn behind_type(&'x self, kinds: &'x NumberedKinds<'x>) -> Context<'x>
        ensures declared { modules_of_context result ≡ modules_of_context self.now }
        ensures scope { scope_in result.scope ≡ kinds_of kinds.now }
        ensures valid { (ns : List nodes.Node) (k : trees.Kind) → kinds_of kinds.now ≡ k ∷ scope_in self.now.scope → IsScopeAt ns kinds.now → IsContextAt ns self.now → IsContextAt ns result }
        ensures view { (ns : List nodes.Node) (k : trees.Kind) → kinds_of kinds.now ≡ k ∷ scope_in self.now.scope → IsContextAt ns self.now → context_at ns result ≡ words.with_type k (context_at ns self.now) }
    {
        Context {
            declared: self.declared,
            scope: TypeScope { kinds },
            coercions: self.coercions,
            locals: self.locals,
            joins: self.joins,
        }
    }

    /// Behind binders that were entered here, with the kinds of the type variables in scope there.
    pub fn behind_binders(
        &'x self,
        entered: &'x Entered<'x>,
        kinds: &'x NumberedKinds<'x>,
    ) -> Context<'x>
        requires kinds { kinds_of kinds.now ≡ reverse (own_kinds entered.now.kinds) ++ kinds_of self.now.scope.kinds.now }
        requires numbered { numbered_of kinds.now ≡ reverse entered.now.kinds ++ numbered_of self.now.scope.kinds.now }
        ensures declared { modules_of_context result ≡ modules_of_context self.now }
        ensures scope { (ns : List nodes.Node) (bs : List pure.NBinder) → IsEntered ns (scope_in self.now.scope) bs entered.now → scope_in result.scope ≡ kinds_past bs (scope_in self.now.scope) }
        ensures valid { (ns : List nodes.Node) (bs : List pure.NBinder) → IsEntered ns (scope_in self.now.scope) bs entered.now → IsContextAt ns self.now → IsContextAt ns result }
        ensures view { (ns : List nodes.Node) (bs : List pure.NBinder) → IsEntered ns (scope_in self.now.scope) bs entered.now → IsContextAt ns self.now → context_at ns result ≡ words.with_binders bs (context_at ns self.now) }
    {
        Context {
            declared: self.declared,
            scope: TypeScope { kinds },
            coercions: Coercions::Group(entered.coercions.as_slice(), &self.coercions),
            locals: Locals::Group(entered.values.as_slice(), &self.locals),
            joins: self.joins,
        }
    }
}
