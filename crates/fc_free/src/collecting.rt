//! The names that occur free in an expression.
ghost use Rattle.std.specs.Prelude.{◌≡◌, ◌∷◌, ◌++◌, [], if◌then◌else◌, OnOk, IfOk, map};
ghost use Rattle.fc_syntax.specs.Tree.{ELet};
ghost use Rattle.fc_syntax.specs.View.{alts_of, arg_of, args_of, binders_of, binds_of, expr_of, exprs_of, joins_of};
ghost use Rattle.fc_model.specs.Resolution.{bind_words, join_words};
ghost use Rattle.fc_model.specs.WordSets.{set_of};
ghost use Rattle.fc_free.specs.Bound.{words_of};
ghost use Rattle.fc_free.specs.Free.{each_once, free_in, free_in_alts, free_in_arg, free_in_args, free_in_binds, free_in_exprs, free_in_joins, of_words, value_words, without};

use crate::around::Around;
use crate::once::once_each;
use fc_model::WordSet;
use fc_syntax::{Alt, Arg, Bind, Binder, Expr, JoinBind, Memory, Name, Seq};
use std::alloc::Global;

// WORDS

/// The words of values that binders bind.
fn words_of_binders(alloc: Global, binders: &[Binder]) -> Result<WordSet, Memory>
    ensures { IfOk result (λ s. set_of s ≡ of_words (value_words (binders_of binders.now))) }
{
    let mut words = WordSet::new(alloc);
    for binder in binders {
        if let Binder::Value(x, _) = binder {
            words.add(alloc, x)?;
        }
    }
    Ok(words)
}

/// The words of binds.
fn words_of_binds(alloc: Global, binds: &[Bind]) -> Result<WordSet, Memory>
    ensures { IfOk result (λ s. set_of s ≡ of_words (bind_words (binds_of binds.now))) }
{
    let mut words = WordSet::new(alloc);
    for bind in binds {
        words.add(alloc, &bind.name)?;
    }
    Ok(words)
}

/// The words of join points.
fn words_of_joins(alloc: Global, joins: &[JoinBind]) -> Result<WordSet, Memory>
    ensures { IfOk result (λ s. set_of s ≡ of_words (join_words (joins_of joins.now))) }
{
    let mut words = WordSet::new(alloc);
    for join in joins {
        words.add(alloc, &join.name)?;
    }
    Ok(words)
}

// EXPRESSIONS

/// Puts a name behind others where it is not bound around it.
#[tactic(auto, using(crate::proofs::Kept::kept_rules))]
fn in_variable<'e, 'a>(
    name: &'e Name,
    around: &'a Around<'a>,
    to: &mut Vec<&'e Name>,
) -> Result<(), Memory>
    ensures { OnOk result (map (λ n. n.now) to.new.items ≡ map (λ n. n.now) to.old.items ++ without (words_of around.now) (name.now ∷ [])) }
{
    if !around.binds(name) {
        to.push(name)?;
    }
    Ok(())
}

/// Puts the names behind others that occur free in an expression and are not bound around it.
#[cycle(collecting)]
#[tactic(auto, using(fc_syntax::proofs::View::view_rules, crate::proofs::Kept::kept_rules))]
fn in_expression<'e, 'a>(
    alloc: Global,
    e: &'e Expr,
    around: &'a Around<'a>,
    to: &mut Vec<&'e Name>,
) -> Result<(), Memory>
    ensures { OnOk result (map (λ n. n.now) to.new.items ≡ map (λ n. n.now) to.old.items ++ without (words_of around.now) (free_in (expr_of e.now))) }
{
    match e {
        Expr::Var(name) => in_variable(name, &*around, to),
        Expr::Lit(_) => Ok(()),
        Expr::App(f, a) => {
            in_expression(alloc, f, &*around, to)?;
            in_argument(alloc, a, &*around, to)
        }
        Expr::Lam(binder, e) => match &**binder {
            Binder::Value(x, _) => in_expression(alloc, e, &Around::Word(x, &*around), to),
            Binder::OfType(_, _) => in_expression(alloc, e, &*around, to),
            Binder::OfCo(_, _, _, _) => in_expression(alloc, e, &*around, to),
        },
        Expr::Let(recursive, binds, e) => {
            in_let(alloc, *recursive, binds.as_slice(), e, &*around, to)
        }
        Expr::Case(e, x, _, _, alts) => {
            in_expression(alloc, e, &*around, to)?;
            in_alternatives(alloc, alts.as_slice(), &Around::Word(x, &*around), to)
        }
        Expr::Cast(e, _) => in_expression(alloc, e, &*around, to),
        Expr::Con(_, args) => in_arguments(alloc, args.as_slice(), &*around, to),
        Expr::Prim(_, operands) => in_expressions(alloc, operands.as_slice(), &*around, to),
        Expr::Fail(_) => Ok(()),
        Expr::Join(recursive, _, joins, e) => {
            in_join(alloc, *recursive, joins.as_slice(), e, &*around, to)
        }
        Expr::Jump(_, args) => in_arguments(alloc, args.as_slice(), &*around, to),
    }
}

/// Those of a let.
#[cycle(collecting)]
fn in_let<'e, 'a>(
    alloc: Global,
    recursive: bool,
    binds: &'e [Bind],
    e: &'e Expr,
    around: &'a Around<'a>,
    to: &mut Vec<&'e Name>,
) -> Result<(), Memory>
    ensures { OnOk result (map (λ n. n.now) to.new.items ≡ map (λ n. n.now) to.old.items ++ without (words_of around.now) (free_in (ELet recursive (binds_of binds.now) (expr_of e.now)))) }
{
    let bound = words_of_binds(alloc, binds)?;
    let inner = Around::Words(&bound, &*around);
    in_right_sides(alloc, recursive, binds, &inner, &*around, to)?;
    in_expression(alloc, e, &inner, to)
}

/// Those of the right sides of a let, which stand behind its binders where it is recursive.
#[cycle(collecting)]
fn in_right_sides<'e, 'a>(
    alloc: Global,
    recursive: bool,
    binds: &'e [Bind],
    inner: &'a Around<'a>,
    around: &'a Around<'a>,
    to: &mut Vec<&'e Name>,
) -> Result<(), Memory>
    ensures { OnOk result (map (λ n. n.now) to.new.items ≡ map (λ n. n.now) to.old.items ++ without (if recursive then words_of inner.now else words_of around.now) (free_in_binds (binds_of binds.now))) }
{
    if recursive {
        in_binds(alloc, binds, &*inner, to)
    } else {
        in_binds(alloc, binds, &*around, to)
    }
}

/// Those of what has join points.
#[cycle(collecting)]
fn in_join<'e, 'a>(
    alloc: Global,
    recursive: bool,
    joins: &'e [JoinBind],
    e: &'e Expr,
    around: &'a Around<'a>,
    to: &mut Vec<&'e Name>,
) -> Result<(), Memory>
    ensures { OnOk result (map (λ n. n.now) to.new.items ≡ map (λ n. n.now) to.old.items ++ without (words_of around.now) ((if recursive then without (of_words (join_words (joins_of joins.now))) (free_in_joins (joins_of joins.now)) else free_in_joins (joins_of joins.now)) ++ without (of_words (join_words (joins_of joins.now))) (free_in (expr_of e.now)))) }
{
    let bound = words_of_joins(alloc, joins)?;
    let inner = Around::Words(&bound, &*around);
    in_join_sides(alloc, recursive, joins, &inner, &*around, to)?;
    in_expression(alloc, e, &inner, to)
}

/// Those of the right sides of a group of join points, which stand behind their words where it is recursive.
#[cycle(collecting)]
fn in_join_sides<'e, 'a>(
    alloc: Global,
    recursive: bool,
    joins: &'e [JoinBind],
    inner: &'a Around<'a>,
    around: &'a Around<'a>,
    to: &mut Vec<&'e Name>,
) -> Result<(), Memory>
    ensures { OnOk result (map (λ n. n.now) to.new.items ≡ map (λ n. n.now) to.old.items ++ without (if recursive then words_of inner.now else words_of around.now) (free_in_joins (joins_of joins.now))) }
{
    if recursive {
        in_join_points(alloc, joins, &*inner, to)
    } else {
        in_join_points(alloc, joins, &*around, to)
    }
}

/// Those of an expression behind binders.
#[cycle(collecting)]
fn in_scoped<'e, 'a>(
    alloc: Global,
    binders: &'e [Binder],
    e: &'e Expr,
    around: &'a Around<'a>,
    to: &mut Vec<&'e Name>,
) -> Result<(), Memory>
    ensures { OnOk result (map (λ n. n.now) to.new.items ≡ map (λ n. n.now) to.old.items ++ without (words_of around.now) (without (of_words (value_words (binders_of binders.now))) (free_in (expr_of e.now)))) }
{
    let bound = words_of_binders(alloc, binders)?;
    in_expression(alloc, e, &Around::Words(&bound, &*around), to)
}

/// Those of an argument.
#[cycle(collecting)]
#[tactic(auto, using(fc_syntax::proofs::View::view_rules))]
fn in_argument<'e, 'a>(
    alloc: Global,
    a: &'e Arg,
    around: &'a Around<'a>,
    to: &mut Vec<&'e Name>,
) -> Result<(), Memory>
    ensures { OnOk result (map (λ n. n.now) to.new.items ≡ map (λ n. n.now) to.old.items ++ without (words_of around.now) (free_in_arg (arg_of a.now))) }
{
    match a {
        Arg::Term(e) => in_expression(alloc, e, &*around, to),
        Arg::OfType(_) => Ok(()),
        Arg::OfCo(_) => Ok(()),
    }
}

/// Those of arguments.
#[cycle(collecting)]
fn in_arguments<'e, 'a>(
    alloc: Global,
    items: &'e [Arg],
    around: &'a Around<'a>,
    to: &mut Vec<&'e Name>,
) -> Result<(), Memory>
    ensures { OnOk result (map (λ n. n.now) to.new.items ≡ map (λ n. n.now) to.old.items ++ without (words_of around.now) (free_in_args (args_of items.now))) }
{
    for x in items {
        in_argument(alloc, x, &*around, to)?;
    }
    Ok(())
}

/// Those of expressions.
#[cycle(collecting)]
fn in_expressions<'e, 'a>(
    alloc: Global,
    items: &'e [Expr],
    around: &'a Around<'a>,
    to: &mut Vec<&'e Name>,
) -> Result<(), Memory>
    ensures { OnOk result (map (λ n. n.now) to.new.items ≡ map (λ n. n.now) to.old.items ++ without (words_of around.now) (free_in_exprs (exprs_of items.now))) }
{
    for x in items {
        in_expression(alloc, x, &*around, to)?;
    }
    Ok(())
}

/// Those of the right sides of binds.
#[cycle(collecting)]
fn in_binds<'e, 'a>(
    alloc: Global,
    items: &'e [Bind],
    around: &'a Around<'a>,
    to: &mut Vec<&'e Name>,
) -> Result<(), Memory>
    ensures { OnOk result (map (λ n. n.now) to.new.items ≡ map (λ n. n.now) to.old.items ++ without (words_of around.now) (free_in_binds (binds_of items.now))) }
{
    for x in items {
        in_expression(alloc, &x.rhs, &*around, to)?;
    }
    Ok(())
}

/// Those of join points.
#[cycle(collecting)]
fn in_join_points<'e, 'a>(
    alloc: Global,
    items: &'e [JoinBind],
    around: &'a Around<'a>,
    to: &mut Vec<&'e Name>,
) -> Result<(), Memory>
    ensures { OnOk result (map (λ n. n.now) to.new.items ≡ map (λ n. n.now) to.old.items ++ without (words_of around.now) (free_in_joins (joins_of items.now))) }
{
    for x in items {
        in_scoped(alloc, x.params.as_slice(), &x.rhs, &*around, to)?;
    }
    Ok(())
}

/// Those of alternatives.
#[cycle(collecting)]
fn in_alternatives<'e, 'a>(
    alloc: Global,
    items: &'e [Alt],
    around: &'a Around<'a>,
    to: &mut Vec<&'e Name>,
) -> Result<(), Memory>
    ensures { OnOk result (map (λ n. n.now) to.new.items ≡ map (λ n. n.now) to.old.items ++ without (words_of around.now) (free_in_alts (alts_of items.now))) }
{
    for x in items {
        in_scoped(alloc, x.binders.as_slice(), &x.body, &*around, to)?;
    }
    Ok(())
}

/// The names that occur free in an expression, each once, where it occurs first: those of variables that no binder of the expression around them binds.
/// Constructors and join points are no values. Fails only where memory runs out.
#[tactic(auto, using(crate::proofs::Kept::kept_rules))]
pub fn free(alloc: Global, e: &Expr) -> Result<Seq<Name>, Memory>
    ensures { IfOk result (λ names. names ≡ each_once (free_in (expr_of e.now))) }
{
    let mut all = Vec::new(alloc);
    in_expression(alloc, e, &Around::Nothing, &mut all)?;
    once_each(alloc, all.as_slice())
}
