//! What coercions of the named tree prove.
ghost use Rattle.std.specs.Prelude.{◌≡◌, IfErr, IfOk};
ghost use Rattle.fc_syntax.specs.View.{co_of};
ghost use Rattle.fc_model.specs.Coercing.{ends_or_fault};
ghost use Rattle.fc_model.specs.NamelessView.{nco_of};
ghost use Rattle.fc_model.specs.Says.{Refuses};
ghost use Rattle.fc_typing.specs.Behind.{ends_judged, locals_behind};
ghost use Rattle.fc_typing.specs.Environments.{binders_known, modules_known, top_known};
ghost use Rattle.fc_typing.specs.Told.{AreEndsOf};

use crate::asking::{Question, asked_behind};
use crate::environment::TypeEnv;
use crate::naming::{Ends, Words, words_of};
use fc_coercion::ends_of;
use fc_lint_context::Context;
use fc_model::Flawed;
use fc_resolve_parts::resolved_co;
use fc_scope::Scope;
use fc_syntax::{Co, NCo};
use fc_type_table::TypeTable;
use std::alloc::Global;

/// What a coercion proves.
#[derive(Drop)]
struct EndsOf<'g> {
    g: &'g NCo,
}

impl Question for EndsOf<'_> {
    type Answer = Ends;

    ghost told = { λ q ms ctx own ws e. AreEndsOf own ws e (ends_or_fault ms ctx.kinds ctx.coercions (nco_of q.g.now)) };

    ghost refused = { λ q ms ctx f. Refuses f (ends_or_fault ms ctx.kinds ctx.coercions (nco_of q.g.now)) };

    #[tactic(auto, using(fc_lint_context::proofs::Contexts::context_rules))]
    fn ask(
        &self,
        alloc: Global,
        types: &mut TypeTable,
        context: &Context,
        words: Words,
    ) -> Result<Ends, Flawed> {
        let found = ends_of(alloc, self.g, types, &*context)?;
        Ok(words.named_ends(alloc, found, types)?)
    }

    ghost out_of_memory = { λ q ms ctx. tt };
}

/// What a coercion proves in an environment, or the first fault: of names in the binders in scope and then in the coercion (`Unbound`, and
/// `Duplicate` for a binder that has the word of another of its space), then the faults of coercions, as `fc_coercion::ends_of` tells
/// them. A fault stands in no declaration; its part numbers start at the coercion, but for one of the binders, which starts at the number
/// of its binder. The types of the answer name the own module's declarations without a dot, all others with their module. What all
/// modules declare is read anew by each call. Out of memory is answered also for a type of more than 1,500,000 pieces or 2,000 levels.
pub fn ends(alloc: Global, g: &Co, env: &TypeEnv) -> Result<Ends, Flawed>
    ensures told { IfOk result (λ e. AreEndsOf (top_known env.now).own (locals_behind (binders_known env.now)).types e (ends_judged (modules_known env.now) (top_known env.now) (binders_known env.now) (co_of g.now))) }
    ensures fault { IfErr result (λ e. Refuses e (ends_judged (modules_known env.now) (top_known env.now) (binders_known env.now) (co_of g.now))) }
{
    let entered = env.entered(alloc)?;
    let around = Scope::End;
    let scope = Scope::Binders(&entered.names, &around);
    let form = resolved_co(alloc, &env.own, &scope, g)?;
    let words = words_of(env, &entered);
    let binders = entered.binders.as_slice();
    asked_behind(alloc, &EndsOf { g: &form }, binders, &env.declared, words)
}
