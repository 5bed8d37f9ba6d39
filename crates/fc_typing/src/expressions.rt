//! Types of expressions of the named tree.
ghost use Rattle.std.specs.Prelude.{◌≡◌, IfErr, IfOk};
ghost use Rattle.fc_syntax.specs.View.{expr_of, ty_of};
ghost use Rattle.fc_model.specs.Typing.{type_or_fault};
ghost use Rattle.fc_model.specs.NamelessView.{nexpr_of};
ghost use Rattle.fc_model.specs.Says.{Refuses};
ghost use Rattle.fc_typing.specs.Behind.{locals_behind, type_judged};
ghost use Rattle.fc_typing.specs.Environments.{binders_known, modules_known, top_known};
ghost use Rattle.fc_typing.specs.Told.{IsTypeOf};

use crate::asking::{Question, asked_behind};
use crate::environment::TypeEnv;
use crate::naming::{Words, words_of};
use fc_lint_context::Context;
use fc_lint_expr::judge;
use fc_model::Flawed;
use fc_resolve::resolved_expr;
use fc_scope::Scope;
use fc_syntax::{Expr, NExpr, Ty};
use fc_type_table::TypeTable;
use std::alloc::Global;

/// What the type of an expression is.
#[derive(Drop)]
struct TypeOf<'e> {
    e: &'e NExpr,
}

impl Question for TypeOf<'_> {
    type Answer = Ty;

    ghost told = { λ q ms ctx own ws t. IsTypeOf own ws (ty_of t) (type_or_fault ms ctx (nexpr_of q.e.now)) };

    ghost refused = { λ q ms ctx f. Refuses f (type_or_fault ms ctx (nexpr_of q.e.now)) };

    #[tactic(auto, using(fc_lint_context::proofs::Contexts::context_rules))]
    fn ask(
        &self,
        alloc: Global,
        types: &mut TypeTable,
        context: &Context,
        words: Words,
    ) -> Result<Ty, Flawed> {
        let found = judge(alloc, self.e, types, &*context)?;
        Ok(words.named(alloc, found, types)?)
    }

    ghost out_of_memory = { λ q ms ctx. tt };
}

/// The type of an expression in an environment, or the first fault: of names in the binders in scope and then in the expression (`Unbound`, and
/// `Duplicate` for a word that is bound twice by one group), then the faults of types, as `fc_lint_expr::lint` tells them. No join point is in
/// scope. A fault stands in no declaration; its part numbers start at the expression, but for one of the binders, which starts at the number
/// of its binder. The answer names the own module's declarations without a dot, all others with their module. What all modules declare is
/// read anew by each call. Out of memory is answered also for a type of more than 1,500,000 pieces or 2,000 levels.
pub fn lint(alloc: Global, e: &Expr, env: &TypeEnv) -> Result<Ty, Flawed>
    ensures told { IfOk result (λ t. IsTypeOf (top_known env.now).own (locals_behind (binders_known env.now)).types (ty_of t) (type_judged (modules_known env.now) (top_known env.now) (binders_known env.now) (expr_of e.now))) }
    ensures fault { IfErr result (λ f. Refuses f (type_judged (modules_known env.now) (top_known env.now) (binders_known env.now) (expr_of e.now))) }
{
    let entered = env.entered(alloc)?;
    let around = Scope::End;
    let scope = Scope::Binders(&entered.names, &around);
    let form = resolved_expr(alloc, &env.own, &scope, e)?;
    let words = words_of(env, &entered);
    let binders = entered.binders.as_slice();
    asked_behind(alloc, &TypeOf { e: &form }, binders, &env.declared, words)
}
