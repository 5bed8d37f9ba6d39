//! The types of binds and of join points that stand together.
ghost use Rattle.std.specs.Prelude.{◌≡◌, IfOk, OnOk};
ghost use Rattle.fc_model.specs.NamelessView.{nbinders_of, nbinds_of, njoins_of};
ghost use Rattle.fc_model.specs.Typing as words;
ghost use Rattle.fc_type_scope.specs.Scopes.{AreTypes, IsScope, scope_in, shown_all};
ghost use Rattle.fc_type_table.specs.TypeTables.{Grows, IsType, nodes_of, shown};
ghost use Rattle.fc_lint_context.specs.JoinViews as views;
ghost use Rattle.fc_lint_context.specs.JoinViews.{AreJoinsAt, IsJoinAt, shown_join, shown_joins_at};
ghost use Rattle.fc_lint_context.specs.LocalViews.{bind_types};

use crate::context::Context;
use crate::joins::JoinPoint;
use fc_syntax::{Memory, NBind, NBinder, NJoinBind, Seq};
use fc_type_table::{TypeId, TypeTable};
use std::alloc::Global;

impl Context<'_> {
    /// The written types of binds, in their order. Fails only where memory runs out.
    #[tactic(auto, using(crate::proofs::Contexts::context_rules))]
    pub fn types_of_binds(
        &self,
        alloc: Global,
        binds: &[NBind],
        types: &mut TypeTable,
    ) -> Result<Seq<TypeId>, Memory>
        requires { IsScope types.old self.now.scope }
        ensures valid { IfOk result (λ ids. AreTypes types.new (scope_in self.now.scope) ids) }
        ensures all { IfOk result (λ ids. shown_all types.new (scope_in self.now.scope) ids ≡ bind_types (nbinds_of binds.now)) }
        ensures grows { OnOk result (Grows types.old types.new) }
    {
        let mut ids = Seq::new(alloc);
        for bind in binds {
            self.scope.add(&mut ids, &bind.ty, types)?;
        }
        Ok(ids)
    }

    /// A join point with these parameters, of a join of this type. Fails only where memory runs out.
    #[tactic(auto, using(crate::proofs::Contexts::context_rules))]
    pub fn join_point(
        &self,
        alloc: Global,
        params: &[NBinder],
        answer: TypeId,
        types: &mut TypeTable,
    ) -> Result<JoinPoint, Memory>
        requires scope { IsScope types.old self.now.scope }
        requires answer_in { IsType types.old (scope_in self.now.scope) answer }
        ensures valid { IfOk result (λ j. IsJoinAt (nodes_of types.new) (scope_in self.now.scope) j) }
        ensures view { IfOk result (λ j. shown_join (nodes_of types.new) (scope_in self.now.scope) j ≡ words.join_point (shown types.old (scope_in self.now.scope) answer) (nbinders_of params.now)) }
        ensures grows { OnOk result (Grows types.old types.new) }
    {
        let entered = self.scope.enter(alloc, params, types)?;
        let arity = params.len();
        let ty = self.scope.function_to(params, &entered, answer, types)?;
        Ok(JoinPoint { arity, ty, answer })
    }

    /// The join points of a join of this type, in their order. Fails only where memory runs out.
    #[tactic(auto, using(crate::proofs::Contexts::context_rules))]
    pub fn join_points(
        &self,
        alloc: Global,
        joins: &[NJoinBind],
        answer: TypeId,
        types: &mut TypeTable,
    ) -> Result<Seq<JoinPoint>, Memory>
        requires scope { IsScope types.old self.now.scope }
        requires answer_in { IsType types.old (scope_in self.now.scope) answer }
        ensures valid { IfOk result (λ points. AreJoinsAt (nodes_of types.new) (scope_in self.now.scope) points) }
        ensures all { IfOk result (λ points. shown_joins_at (nodes_of types.new) (scope_in self.now.scope) points ≡ views.join_points (shown types.old (scope_in self.now.scope) answer) (njoins_of joins.now)) }
        ensures grows { OnOk result (Grows types.old types.new) }
    {
        let mut points = Seq::new(alloc);
        for join in joins {
            let point = self.join_point(alloc, join.params.as_slice(), answer, types)?;
            points.push(point)?;
        }
        Ok(points)
    }
}
