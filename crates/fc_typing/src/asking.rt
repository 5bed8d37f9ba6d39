//! Questions about nameless pieces, asked behind the binders of an environment and answered with words.
ghost use Rattle.std.specs.Prelude.{◌≡◌, List, length, IfErr, IfOk};
ghost use Rattle.fc_syntax.specs.Tree.{Word};
ghost use Rattle.fc_model.specs.Kinding.{Modules};
ghost use Rattle.fc_model.specs.declared.flaw.Flawed.{Flawed};
ghost use Rattle.fc_model.specs.declared.flaw.Flawed.TheVariants.{Memory as memory};
ghost use Rattle.fc_model.specs.NamelessView.{nbinders_of};
ghost use Rattle.fc_model.specs.Typing as typing;
ghost use Rattle.fc_model.specs.Typing.{with_binders};
ghost use Rattle.fc_type_names.specs.Meant.{AreSeen};
ghost use Rattle.fc_types.specs.ModuleViews.{modules_of};
ghost use Rattle.fc_type_table.specs.TypeTables.{modules_in, nodes_of};
ghost use Rattle.fc_type_scope.specs.Behind.{IsEntered, kinds_past};
ghost use Rattle.fc_type_scope.specs.Scopes.{scope_in};
ghost use Rattle.fc_lint_context.specs.ContextViews.{IsContextOver, context_in, modules_of_context};
ghost use Rattle.fc_lint_context.specs.DeclaredViews.{AreRead, modules_read};
ghost use Rattle.fc_typing.specs.Behind.{context_behind};
ghost use Rattle.fc_typing.specs.Wording.{own_of, types_of};

use crate::naming::Words;
use fc_lint_context::{Context, DeclaredTypes};
use fc_model::Flawed;
use fc_syntax::NBinder;
use fc_type_scope::Entered;
use fc_type_table::{NumberedKinds, TypeTable};
use fc_types::Declarations;
use std::alloc::Global;

/// What is asked of a piece in a context.
pub(crate) trait Question {
    /// The answer, with words for its names.
    type Answer;

    // What an answer tells, among these modules and in this context, where these are the own module and the words of the type variables in scope.
    ghost told: { Self → Modules → typing.Context → Word → List Word → Self.Answer → Type 0 };

    // Why there is no answer.
    ghost refused: { Self → Modules → typing.Context → Flawed → Type 0 };

    /// The answer in a context.
    fn ask(
        &self,
        alloc: Global,
        types: &mut TypeTable,
        context: &Context,
        words: Words,
    ) -> Result<Self::Answer, Flawed>
        requires context { IsContextOver types.old context.now }
        requires seen { AreSeen (types_of words) }
        requires count { length (scope_in context.now.scope) ≡ length (types_of words) }
        ensures told { IfOk result (λ a. told self.now (modules_of_context context.now) (context_in types.old context.now) (own_of words.entry) (types_of words.entry) a) }
        ensures fault { IfErr result (λ f. refused self.now (modules_of_context context.now) (context_in types.old context.now) f) };

    // Out of memory is answered anywhere.
    ghost out_of_memory: { (q : Self) (ms : Modules) (ctx : typing.Context) → refused q ms ctx memory };
}

/// The answer behind binders that were entered in this context.
#[tactic(auto, using(fc_lint_context::proofs::Contexts::context_rules, fc_type_scope::proofs::PastBinders::entry_rules))]
fn asked_inside<Q: Question>(
    alloc: Global,
    question: &Q,
    binders: &[NBinder],
    bound: &Entered,
    types: &mut TypeTable,
    outside: &Context,
    words: Words,
) -> Result<Q::Answer, Flawed>
    requires context { IsContextOver types.old outside.now }
    requires entered { IsEntered (nodes_of types.old) (scope_in outside.now.scope) (nbinders_of binders.now) bound.now }
    requires seen { AreSeen (types_of words) }
    requires count { length (kinds_past (nbinders_of binders.now) (scope_in outside.now.scope)) ≡ length (types_of words) }
    ensures told { IfOk result (λ a. Q.told question.now (modules_of_context outside.now) (with_binders (nbinders_of binders.now) (context_in types.old outside.now)) (own_of words.entry) (types_of words.entry) a) }
    ensures fault { IfErr result (λ f. Q.refused question.now (modules_of_context outside.now) (with_binders (nbinders_of binders.now) (context_in types.old outside.now)) f) }
{
    let kinds = (&*bound).kinds_behind(&*outside.scope.kinds);
    let inside = (&*outside).behind_binders(&*bound, &kinds);
    question.ask(alloc, types, &inside, words)
}

/// The same where nothing else is in scope.
#[tactic(auto, using(fc_lint_context::proofs::Contexts::context_rules, fc_type_scope::proofs::PastBinders::entry_rules))]
fn asked_entered<Q: Question>(
    alloc: Global,
    question: &Q,
    binders: &[NBinder],
    types: &mut TypeTable,
    declared: &DeclaredTypes,
    words: Words,
) -> Result<Q::Answer, Flawed>
    requires read { AreRead (nodes_of types.old) declared.now }
    requires modules { modules_in types.old ≡ modules_read declared.now }
    requires seen { AreSeen (types_of words) }
    requires count { length (context_behind (nbinders_of binders.now)).kinds ≡ length (types_of words) }
    ensures told { IfOk result (λ a. Q.told question.now (modules_read declared.now) (context_behind (nbinders_of binders.now)) (own_of words.entry) (types_of words.entry) a) }
    ensures fault { IfErr result (λ f. Q.refused question.now (modules_read declared.now) (context_behind (nbinders_of binders.now)) f) }
{
    let kinds = NumberedKinds::End;
    let outside = Context::closed(&*declared, &kinds);
    let bound = outside.scope.enter(alloc, binders, types)?;
    asked_inside(alloc, question, binders, &bound, types, &outside, words)
}

/// The same where modules declare this, which is read into a table of its own.
pub(crate) fn asked_behind<Q: Question>(
    alloc: Global,
    question: &Q,
    binders: &[NBinder],
    declared: &Declarations,
    words: Words,
) -> Result<Q::Answer, Flawed>
    requires seen { AreSeen (types_of words) }
    requires count { length (context_behind (nbinders_of binders.now)).kinds ≡ length (types_of words) }
    ensures told { IfOk result (λ a. Q.told question.now (modules_of declared.now) (context_behind (nbinders_of binders.now)) (own_of words.entry) (types_of words.entry) a) }
    ensures fault { IfErr result (λ f. Q.refused question.now (modules_of declared.now) (context_behind (nbinders_of binders.now)) f) }
{
    let mut types = TypeTable::new(alloc, &*declared);
    let read = DeclaredTypes::new(alloc, &*declared, &mut types)?;
    asked_entered(alloc, question, binders, &mut types, &read, words)
}
