//! Types of expressions of the named tree, read off.
ghost use Rattle.std.specs.Prelude.{◌≡◌, IfErr, IfOk, Ok};
ghost use Rattle.fc_syntax.specs.View.{expr_of};
ghost use Rattle.fc_model.specs.Typing as typing;
ghost use Rattle.fc_model.specs.NamelessView.{nexpr_of};
ghost use Rattle.fc_model.specs.Says.{Refuses};
ghost use Rattle.fc_typing.specs.Behind.{locals_behind, read_off};
ghost use Rattle.fc_typing.specs.Environments.{binders_known, modules_known, top_known};
ghost use Rattle.fc_typing.specs.Told.{IsFoundTypeOf};

use crate::asking::{Question, asked_behind};
use crate::environment::TypeEnv;
use crate::naming::{Words, words_of};
use fc_lint_context::Context;
use fc_model::Flawed;
use fc_resolve::resolved_expr;
use fc_scope::Scope;
use fc_syntax::{Expr, NExpr, Ty};
use fc_type_reading::type_read_off;
use fc_type_table::TypeTable;
use std::alloc::Global;

/// What type is read off an expression.
#[derive(Drop)]
struct ReadOff<'e> {
    e: &'e NExpr,
}

impl Question for ReadOff<'_> {
    type Answer = Option<Ty>;

    ghost told = { λ q ms ctx own ws r. IsFoundTypeOf own ws r (Ok (typing.type_read_off ms ctx (nexpr_of q.e.now))) };

    ghost refused = { λ q ms ctx f. Refuses f (Ok (typing.type_read_off ms ctx (nexpr_of q.e.now))) };

    #[tactic(auto, using(fc_lint_context::proofs::Contexts::context_rules))]
    fn ask(
        &self,
        alloc: Global,
        types: &mut TypeTable,
        context: &Context,
        words: Words,
    ) -> Result<Option<Ty>, Flawed> {
        match type_read_off(alloc, self.e, types, &*context)? {
            None => Ok(None),
            Some(id) => Ok(Some(words.named(alloc, id, types)?)),
        }
    }

    ghost out_of_memory = { λ q ms ctx. tt };
}

/// The type of an expression in an environment, read off without judging its premises: the type that `lint` answers where it answers one. `None` where a
/// part that the type is read off has none, or a coercion there is refused. No join point is in scope. A fault is the first one of names: in the binders in
/// scope, then in the expression. The answer names the own module's declarations without a dot, all others with their module. What all modules declare is
/// read anew by each call. Out of memory is answered also for a type of more than 1,500,000 pieces or 2,000 levels.
pub fn type_of(alloc: Global, e: &Expr, env: &TypeEnv) -> Result<Option<Ty>, Flawed>
    ensures told { IfOk result (λ r. IsFoundTypeOf (top_known env.now).own (locals_behind (binders_known env.now)).types r (read_off (modules_known env.now) (top_known env.now) (binders_known env.now) (expr_of e.now))) }
    ensures fault { IfErr result (λ f. Refuses f (read_off (modules_known env.now) (top_known env.now) (binders_known env.now) (expr_of e.now))) }
{
    let entered = env.entered(alloc)?;
    let around = Scope::End;
    let scope = Scope::Binders(&entered.names, &around);
    let form = resolved_expr(alloc, &env.own, &scope, e)?;
    let words = words_of(env, &entered);
    let binders = entered.binders.as_slice();
    asked_behind(alloc, &ReadOff { e: &form }, binders, &env.declared, words)
}
