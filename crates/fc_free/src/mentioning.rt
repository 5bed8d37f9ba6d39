//! Whether a name occurs free in an expression.
ghost use Rattle.std.specs.Prelude.{◌≡◌, ◌∷◌, []};
ghost use Rattle.fc_syntax.specs.View.{alts_of, arg_of, args_of, binder_of, binders_of, binds_of, expr_of, exprs_of, joins_of};
ghost use Rattle.fc_model.specs.Resolution.{bind_words, join_words};
ghost use Rattle.fc_free.specs.Free.{free_in, free_in_alts, free_in_arg, free_in_args, free_in_binds, free_in_exprs, free_in_joins, is_among, is_bound_by, of_one, of_words, value_words, without};

use crate::binding::{binder_binds, binders_bind, binds_bind, joins_bind};
use fc_syntax::{Alt, Arg, Bind, Binder, Expr, JoinBind, Name, Text};
use fc_types::same_name;

/// Whether a word binds a name.
fn is_of(name: &Name, word: &Text) -> bool
    ensures { result ≡ is_bound_by (of_one word.now) name.now.module name.now.text }
{
    name.module.is_none() && word.as_str() == name.text.as_str()
}

/// Whether a binder binds a name.
fn is_of_binder(name: &Name, binder: &Binder) -> bool
    ensures { result ≡ is_bound_by (of_words (value_words (binder_of binder.now ∷ []))) name.now.module name.now.text }
{
    name.module.is_none() && binder_binds(binder, &name.text)
}

/// Whether one of the binders binds a name.
fn is_of_binders(name: &Name, binders: &[Binder]) -> bool
    ensures { result ≡ is_bound_by (of_words (value_words (binders_of binders.now))) name.now.module name.now.text }
{
    name.module.is_none() && binders_bind(binders, &name.text)
}

/// Whether one of the binds binds a name.
fn is_of_bind(name: &Name, binds: &[Bind]) -> bool
    ensures { result ≡ is_bound_by (of_words (bind_words (binds_of binds.now))) name.now.module name.now.text }
{
    name.module.is_none() && binds_bind(binds, &name.text)
}

/// Whether one of the join points has the word of a name.
fn is_of_join(name: &Name, joins: &[JoinBind]) -> bool
    ensures { result ≡ is_bound_by (of_words (join_words (joins_of joins.now))) name.now.module name.now.text }
{
    name.module.is_none() && joins_bind(joins, &name.text)
}

/// Whether a name occurs free in an expression: as a variable, and bound by no binder of the expression around it. Constructors and join points are no values.
/// Takes no memory, and time in the size of the expression.
#[cycle(mentions)]
#[tactic(auto, using(fc_syntax::proofs::View::view_rules, crate::proofs::Among::among_rules))]
pub fn mentions(e: &Expr, name: &Name) -> bool
    ensures { result ≡ is_among name.now (free_in (expr_of e.now)) }
{
    match e {
        Expr::Var(x) => same_name(x, name),
        Expr::Lit(_) => false,
        Expr::App(f, a) => mentions(f, name) || in_argument(a, name),
        Expr::Lam(binder, e) => !is_of_binder(name, binder) && mentions(e, name),
        Expr::Let(recursive, binds, e) => {
            let binds = binds.as_slice();
            let bound = is_of_bind(name, binds);
            (!(*recursive && bound) && in_binds(binds, name)) || (!bound && mentions(e, name))
        }
        Expr::Case(e, x, _, _, alts) => {
            mentions(e, name) || (!is_of(name, x) && in_alternatives(alts.as_slice(), name))
        }
        Expr::Cast(e, _) => mentions(e, name),
        Expr::Con(_, args) => in_arguments(args.as_slice(), name),
        Expr::Prim(_, operands) => in_expressions(operands.as_slice(), name),
        Expr::Fail(_) => false,
        Expr::Join(recursive, _, joins, e) => {
            let joins = joins.as_slice();
            let bound = is_of_join(name, joins);
            (!(*recursive && bound) && in_join_points(joins, name)) || (!bound && mentions(e, name))
        }
        Expr::Jump(_, args) => in_arguments(args.as_slice(), name),
    }
}

/// Whether a name occurs free in an argument.
#[cycle(mentions)]
#[tactic(auto, using(fc_syntax::proofs::View::view_rules))]
fn in_argument(a: &Arg, name: &Name) -> bool
    ensures { result ≡ is_among name.now (free_in_arg (arg_of a.now)) }
{
    match a {
        Arg::Term(e) => mentions(e, name),
        Arg::OfType(_) => false,
        Arg::OfCo(_) => false,
    }
}

/// Whether a name occurs free in one of the arguments.
#[cycle(mentions)]
fn in_arguments(items: &[Arg], name: &Name) -> bool
    ensures { result ≡ is_among name.now (free_in_args (args_of items.now)) }
{
    for x in items {
        if in_argument(x, name) {
            return true;
        }
    }
    false
}

/// Whether a name occurs free in one of the expressions.
#[cycle(mentions)]
fn in_expressions(items: &[Expr], name: &Name) -> bool
    ensures { result ≡ is_among name.now (free_in_exprs (exprs_of items.now)) }
{
    for x in items {
        if mentions(x, name) {
            return true;
        }
    }
    false
}

/// Whether a name occurs free in the right side of one of the binds.
#[cycle(mentions)]
fn in_binds(items: &[Bind], name: &Name) -> bool
    ensures { result ≡ is_among name.now (free_in_binds (binds_of items.now)) }
{
    for x in items {
        if mentions(&x.rhs, name) {
            return true;
        }
    }
    false
}

/// Whether a name occurs free in an expression behind binders.
#[cycle(mentions)]
#[tactic(auto, using(crate::proofs::Among::among_rules))]
fn in_scoped(e: &Expr, binders: &[Binder], name: &Name) -> bool
    ensures { result ≡ is_among name.now (without (of_words (value_words (binders_of binders.now))) (free_in (expr_of e.now))) }
{
    !is_of_binders(name, binders) && mentions(e, name)
}

/// Whether a name occurs free in one of the join points.
#[cycle(mentions)]
fn in_join_points(items: &[JoinBind], name: &Name) -> bool
    ensures { result ≡ is_among name.now (free_in_joins (joins_of items.now)) }
{
    for x in items {
        if in_scoped(&x.rhs, x.params.as_slice(), name) {
            return true;
        }
    }
    false
}

/// Whether a name occurs free in one of the alternatives.
#[cycle(mentions)]
fn in_alternatives(items: &[Alt], name: &Name) -> bool
    ensures { result ≡ is_among name.now (free_in_alts (alts_of items.now)) }
{
    for x in items {
        if in_scoped(&x.body, x.binders.as_slice(), name) {
            return true;
        }
    }
    false
}
