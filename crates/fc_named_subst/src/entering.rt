//! The words of a scope, entered one behind the other.
ghost use Rattle.std.specs.Prelude.{◌≡◌, ◌≤◌, ◌∷◌, IfErr, IfOk, OnOk, length};
ghost use Rattle.fc_syntax.specs.View.{expr_of};
ghost use Rattle.fc_model.specs.DeclaredWords.{top_by};
ghost use Rattle.fc_model.specs.Says.{Refuses};
ghost use Rattle.fc_scope.specs.ScopeWords.{locals_of};
ghost use Rattle.fc_named_subst.specs.Scopes.{AreJoinsBefore, AreNamesBefore, enter_words};
ghost use Rattle.fc_named_subst.specs.Substituted.{IsApart, IsSubstituted};
ghost use Rattle.fc_named_subst.specs.Tasks.{task_judged};

use crate::forms::substituted;
use crate::pieces::Task;
use crate::scope::ScopeWord;
use fc_model::Flawed;
use fc_numbers::deeper;
use fc_scope::{Binders, Names, Scope as Around};
use fc_syntax::{Expr, Memory, Text};
use std::alloc::Global;

/// The names at the front of words.
#[derive(Drop)]
struct NamesBefore {
    /// Their binders.
    binders: Binders,
    /// How many they are.
    count: usize,
}

/// The join points at the front of words.
#[derive(Drop)]
struct JoinsBefore {
    /// Their names.
    names: Names,
    /// How many they are.
    count: usize,
}

/// Puts a name in, as a type, a value and a coercion.
fn add_name(alloc: Global, binders: &mut Binders, name: &Text) -> Result<(), Memory>
    ensures { OnOk result (binders.new ≡ record { types = name.now ∷ binders.old.types; values = name.now ∷ binders.old.values; coercions = name.now ∷ binders.old.coercions }) }
{
    binders.types.add(alloc, name)?;
    binders.values.add(alloc, name)?;
    binders.coercions.add(alloc, name)
}

/// The names up to the first join point.
fn names_before(alloc: Global, words: &[ScopeWord]) -> Result<NamesBefore, Memory>
    ensures before { IfOk result (λ r. AreNamesBefore words.now r.binders r.count) }
    ensures within { IfOk result (λ r. r.count ≤ length words.now) }
{
    let mut binders = Binders::new(alloc);
    let mut count = 0;
    for word in words {
        match word {
            ScopeWord::Name(name) => add_name(alloc, &mut binders, name)?,
            ScopeWord::JoinPoint(_) => break,
        }
        count += 1;
    }
    Ok(NamesBefore { binders, count })
}

/// The join points up to the first name.
fn joins_before(alloc: Global, words: &[ScopeWord]) -> Result<JoinsBefore, Memory>
    ensures before { IfOk result (λ r. AreJoinsBefore words.now r.names r.count) }
    ensures within { IfOk result (λ r. r.count ≤ length words.now) }
{
    let mut names = Names::new(alloc);
    let mut count = 0;
    for word in words {
        match word {
            ScopeWord::JoinPoint(name) => names.add(alloc, name)?,
            ScopeWord::Name(_) => break,
        }
        count += 1;
    }
    Ok(JoinsBefore { names, count })
}

/// What a task comes to behind words, of which the next ones may be names.
#[cycle(entering)]
pub(crate) fn behind_names<'x>(
    alloc: Global,
    words: &[ScopeWord],
    task: Task<'_>,
    around: &'x Around<'x>,
    fuel: u32,
) -> Result<Expr, Flawed>
    requires { IsApart (top_by task.top.now) }
    ensures told { IfOk result (λ r. IsSubstituted (top_by task.entry.top.now) (enter_words words.now (locals_of around.now)) (expr_of r) (task_judged task.entry (enter_words words.now (locals_of around.now)))) }
    ensures fault { IfErr result (λ e. Refuses e (task_judged task.entry (enter_words words.now (locals_of around.now)))) }
{
    let fuel = deeper(fuel)?;
    let before = names_before(alloc, words)?;
    let inner = Around::Binders(&before.binders, &*around);
    behind_joins(alloc, &words[before.count..], task, &inner, fuel)
}

/// What a task comes to behind words, of which the next ones may be join points.
#[cycle(entering)]
fn behind_joins<'x>(
    alloc: Global,
    words: &[ScopeWord],
    task: Task<'_>,
    around: &'x Around<'x>,
    fuel: u32,
) -> Result<Expr, Flawed>
    requires { IsApart (top_by task.top.now) }
    ensures told { IfOk result (λ r. IsSubstituted (top_by task.entry.top.now) (enter_words words.now (locals_of around.now)) (expr_of r) (task_judged task.entry (enter_words words.now (locals_of around.now)))) }
    ensures fault { IfErr result (λ e. Refuses e (task_judged task.entry (enter_words words.now (locals_of around.now)))) }
{
    let fuel = deeper(fuel)?;
    if words.is_empty() {
        return substituted(alloc, task, &*around);
    }
    let before = joins_before(alloc, words)?;
    let inner = Around::Joins(&before.names, &*around);
    behind_names(alloc, &words[before.count..], task, &inner, fuel)
}
