//! How often a word occurs in an expression of the named tree.
ghost use Rattle.std.specs.Prelude.{◌≡◌, ◌∷◌, [], if◌then◌else◌};
ghost use Rattle.fc_syntax.specs.Tree.{ELet};
ghost use Rattle.fc_syntax.specs.View.{alts_of, arg_of, args_of, binder_of, binders_of, binds_of, expr_of, exprs_of, joins_of};
ghost use Rattle.fc_model.specs.Resolution.{join_words};
ghost use Rattle.fc_free.specs.Free.{is_bound_by, of_one, of_words, value_words};
ghost use Rattle.fc_rows.specs.Occurrences.{and_further, inside};
ghost use Rattle.fc_rows.specs.declared.occurrence.Occurrence.TheVariants.{Dead, Once};
ghost use Rattle.fc_occur.specs.Counts.{below, count_of as count_said, counted, counted_in_alts, counted_in_arg, counted_in_args, counted_in_binds, counted_in_exprs, counted_in_joins, unless};

use crate::counts::{Count, count_of};
use fc_free::{binder_binds, binders_bind, binds_bind, joins_bind};
use fc_rows::Occurrence;
use fc_syntax::{Alt, Arg, Bind, Binder, Expr, JoinBind, Name, Text};

/// What a word counts where it stands.
fn of_word(word: &Text, x: &Text) -> Occurrence
    ensures { result ≡ (if of_one x.now word.now then Once else Dead) }
{
    if word.as_str() == x.as_str() {
        Occurrence::Once
    } else {
        Occurrence::Dead
    }
}

/// What a name counts as a variable.
fn of_name(name: &Name, x: &Text) -> Occurrence
    ensures { result ≡ (if is_bound_by (of_one x.now) name.now.module name.now.text then Once else Dead) }
{
    match &name.module {
        None => of_word(&name.text, x),
        Some(_) => Occurrence::Dead,
    }
}

/// How often it occurs in an expression.
#[cycle(named)]
#[tactic(auto, using(fc_syntax::proofs::View::view_rules))]
fn in_expression(e: &Expr, x: &Text) -> Occurrence
    ensures { result ≡ counted x.now (expr_of e.now) }
{
    match e {
        Expr::Var(name) => of_name(name, x),
        Expr::Lit(_) => Occurrence::Dead,
        Expr::App(f, a) => in_application(f, a, x),
        Expr::Lam(binder, body) => in_lambda(binder, body, x),
        Expr::Let(recursive, binds, body) => in_let(*recursive, binds.as_slice(), body, x),
        Expr::Case(scrutinee, y, _, _, alts) => in_case(scrutinee, y, alts.as_slice(), x),
        Expr::Cast(inner, _) => in_expression(inner, x),
        Expr::Con(_, args) => in_arguments(args.as_slice(), x),
        Expr::Prim(_, operands) => in_expressions(operands.as_slice(), x),
        Expr::Fail(_) => Occurrence::Dead,
        Expr::Join(recursive, _, joins, body) => in_join(*recursive, joins.as_slice(), body, x),
        Expr::Jump(j, args) => of_word(j, x).and_further(in_arguments(args.as_slice(), x)),
    }
}

/// How often it occurs in an application.
#[cycle(named)]
fn in_application(f: &Expr, a: &Arg, x: &Text) -> Occurrence
    ensures { result ≡ and_further (counted x.now (expr_of f.now)) (counted_in_arg x.now (arg_of a.now)) }
{
    let first = in_expression(f, x);
    if first.is_many() {
        return Occurrence::Many;
    }
    first.and_further(in_argument(a, x))
}

/// How often it occurs in a lambda.
#[cycle(named)]
#[tactic(auto, using(fc_syntax::proofs::View::view_rules))]
fn in_lambda(binder: &Binder, body: &Expr, x: &Text) -> Occurrence
    ensures { result ≡ unless (of_words (value_words (binder_of binder.now ∷ [])) x.now) (below (binder_of binder.now) (counted x.now (expr_of body.now))) }
{
    if binder_binds(binder, x) {
        return Occurrence::Dead;
    }
    let found = in_expression(body, x);
    match binder {
        Binder::OfType(_, _) => found,
        Binder::Value(_, _) => found.inside(),
        Binder::OfCo(_, _, _, _) => found.inside(),
    }
}

/// How often it occurs in a let.
#[cycle(named)]
fn in_let(recursive: bool, binds: &[Bind], body: &Expr, x: &Text) -> Occurrence
    ensures { result ≡ counted x.now (ELet recursive (binds_of binds.now) (expr_of body.now)) }
{
    if binds_bind(binds, x) {
        return if recursive {
            Occurrence::Dead
        } else {
            in_right_sides(binds, x)
        };
    }
    let first = in_right_sides(binds, x);
    if first.is_many() {
        return Occurrence::Many;
    }
    first.and_further(in_expression(body, x))
}

/// How often it occurs in a case.
#[cycle(named)]
fn in_case(scrutinee: &Expr, y: &Text, alts: &[Alt], x: &Text) -> Occurrence
    ensures { result ≡ and_further (counted x.now (expr_of scrutinee.now)) (unless (of_one y.now x.now) (counted_in_alts x.now (alts_of alts.now))) }
{
    let first = in_expression(scrutinee, x);
    if first.is_many() || y.as_str() == x.as_str() {
        return first;
    }
    first.and_further(in_alternatives(alts, x))
}

/// How often it occurs in what has join points.
#[cycle(named)]
fn in_join(recursive: bool, joins: &[JoinBind], body: &Expr, x: &Text) -> Occurrence
    ensures { result ≡ and_further (if recursive then unless (of_words (join_words (joins_of joins.now)) x.now) (inside (counted_in_joins x.now (joins_of joins.now))) else counted_in_joins x.now (joins_of joins.now)) (unless (of_words (join_words (joins_of joins.now)) x.now) (counted x.now (expr_of body.now))) }
{
    if joins_bind(joins, x) {
        return if recursive {
            Occurrence::Dead
        } else {
            in_join_points(joins, x)
        };
    }
    let first = if recursive {
        in_join_points(joins, x).inside()
    } else {
        in_join_points(joins, x)
    };
    if first.is_many() {
        return Occurrence::Many;
    }
    first.and_further(in_expression(body, x))
}

/// How often it occurs in an argument.
#[cycle(named)]
#[tactic(auto, using(fc_syntax::proofs::View::view_rules))]
fn in_argument(a: &Arg, x: &Text) -> Occurrence
    ensures { result ≡ counted_in_arg x.now (arg_of a.now) }
{
    match a {
        Arg::Term(e) => in_expression(e, x),
        Arg::OfType(_) => Occurrence::Dead,
        Arg::OfCo(_) => Occurrence::Dead,
    }
}

/// How often it occurs in an expression behind binders.
#[cycle(named)]
fn in_scoped(binders: &[Binder], body: &Expr, x: &Text) -> Occurrence
    ensures { result ≡ unless (of_words (value_words (binders_of binders.now)) x.now) (counted x.now (expr_of body.now)) }
{
    if binders_bind(binders, x) {
        Occurrence::Dead
    } else {
        in_expression(body, x)
    }
}

/// How often it occurs in arguments together.
#[cycle(named)]
#[tactic(auto, using(crate::proofs::Together::together_rules))]
fn in_arguments(items: &[Arg], x: &Text) -> Occurrence
    ensures { result ≡ counted_in_args x.now (args_of items.now) }
{
    let mut all = Occurrence::Dead;
    for item in items {
        if all.is_many() {
            return Occurrence::Many;
        }
        all = all.and_further(in_argument(item, x));
    }
    all
}

/// How often it occurs in expressions together.
#[cycle(named)]
#[tactic(auto, using(crate::proofs::Together::together_rules))]
fn in_expressions(items: &[Expr], x: &Text) -> Occurrence
    ensures { result ≡ counted_in_exprs x.now (exprs_of items.now) }
{
    let mut all = Occurrence::Dead;
    for item in items {
        if all.is_many() {
            return Occurrence::Many;
        }
        all = all.and_further(in_expression(item, x));
    }
    all
}

/// How often it occurs in the right sides of binds together.
#[cycle(named)]
#[tactic(auto, using(crate::proofs::Together::together_rules))]
fn in_right_sides(items: &[Bind], x: &Text) -> Occurrence
    ensures { result ≡ counted_in_binds x.now (binds_of items.now) }
{
    let mut all = Occurrence::Dead;
    for item in items {
        if all.is_many() {
            return Occurrence::Many;
        }
        all = all.and_further(in_expression(&item.rhs, x));
    }
    all
}

/// How often it occurs in the right sides of join points together.
#[cycle(named)]
#[tactic(auto, using(crate::proofs::Together::together_rules))]
fn in_join_points(items: &[JoinBind], x: &Text) -> Occurrence
    ensures { result ≡ counted_in_joins x.now (joins_of items.now) }
{
    let mut all = Occurrence::Dead;
    for item in items {
        if all.is_many() {
            return Occurrence::Many;
        }
        all = all.and_further(in_scoped(item.params.as_slice(), &item.rhs, x));
    }
    all
}

/// How often it occurs in alternatives together.
#[cycle(named)]
#[tactic(auto, using(crate::proofs::Together::together_rules))]
fn in_alternatives(items: &[Alt], x: &Text) -> Occurrence
    ensures { result ≡ counted_in_alts x.now (alts_of items.now) }
{
    let mut all = Occurrence::Dead;
    for item in items {
        if all.is_many() {
            return Occurrence::Many;
        }
        all = all.and_further(in_scoped(item.binders.as_slice(), &item.body, x));
    }
    all
}

/// How often a word of the terms occurs free in an expression: as a variable or as the join point of a jump, bound by no binder of the expression around it. It ends at the
/// second occurrence. Takes no memory.
pub fn count(e: &Expr, x: &Text) -> Count
    ensures { result ≡ count_said (counted x.now (expr_of e.now)) }
{
    count_of(in_expression(e, x))
}
