//! How many nodes an expression has.
ghost use Rattle.std.specs.Prelude.{◌≡◌, ◌+◌, ◌*◌, min};
ghost use Rattle.fc_syntax.specs.View.{expr_of, arg_of, binder_of, binders_of, exprs_of, args_of, binds_of, joins_of, alts_of};
ghost use Rattle.fc_syntax.specs.Measures.{nodes_of, is_trivial as is_trivial_term, lambda_count, value_count, alternative_count, arg_nodes, field_nodes, applied_nodes, exprs_nodes, args_nodes, fields_nodes, binds_nodes, alts_nodes, joins_nodes};

use crate::sums::add;
use fc_syntax::{Alt, Arg, Bind, Binder, Expr, Head, JoinBind};

// Whether an expression is a variable, a literal, or one of these under casts and applications to types.
#[tactic(auto, using(fc_syntax::proofs::View::view_rules))]
pub(crate) fn is_trivial(e: &Expr) -> bool
    ensures { result ≡ is_trivial_term (expr_of e.now) }
{
    match e {
        Expr::Var(_) => true,
        Expr::Lit(_) => true,
        Expr::App(f, a) => match &**a {
            Arg::OfType(_) => is_trivial(&**f),
            _ => false,
        },
        Expr::Cast(e, _) => is_trivial(&**e),
        _ => false,
    }
}

fn lambda_nodes(b: &Binder) -> u64
    ensures { result ≡ lambda_count (binder_of b.now) }
{
    match b {
        Binder::OfType(_, _) => 0,
        _ => 1,
    }
}

fn value_binders(binders: &[Binder], most: u64) -> u64
    ensures { result ≡ min (value_count (binders_of binders.now)) most }
{
    let mut sum = 0;
    for b in binders {
        sum = add(sum, lambda_nodes(b), most);
    }
    sum
}

fn alternative_nodes(head: &Head, binders: &[Binder], most: u64) -> u64
    ensures { result ≡ min (alternative_count head.now (binders_of binders.now)) most }
{
    match head {
        Head::Default => 0,
        Head::Lit(_) => most.min(1),
        Head::Con(_) => {
            let binders = value_binders(binders, most);
            add(1, add(binders, binders, most), most)
        }
    }
}

/// The nodes of an expression, or `most` where that is less: how many terms it is made of. Types, coercions and casts count
/// nothing, and a term of a constructor that is not trivial counts two more. Takes no memory.
#[cycle(nodes)]
#[tactic(auto, using(fc_syntax::proofs::View::view_rules))]
pub fn nodes(e: &Expr, most: u64) -> u64
    ensures { result ≡ min (nodes_of (expr_of e.now)) most }
{
    match e {
        Expr::Var(_) => most.min(1),
        Expr::Lit(_) => most.min(1),
        Expr::App(f, a) => {
            let count = nodes(&**f, most);
            add(nodes_of_applied(&**a, most), count, most)
        }
        Expr::Lam(b, e) => add(lambda_nodes(&**b), nodes(&**e, most), most),
        Expr::Let(_, binds, e) => {
            let count = nodes(&**e, most);
            add(nodes_of_binds(binds.as_slice(), most), count, most)
        }
        Expr::Case(s, _, _, _, alts) => {
            let count = nodes(&**s, most);
            add(
                1,
                add(count, nodes_of_alts(alts.as_slice(), most), most),
                most,
            )
        }
        Expr::Cast(e, _) => nodes(&**e, most),
        Expr::Con(_, args) => add(1, nodes_of_fields(args.as_slice(), most), most),
        Expr::Prim(_, args) => add(1, nodes_of_all(args.as_slice(), most), most),
        Expr::Fail(_) => most.min(1),
        Expr::Join(_, _, binds, e) => {
            let count = nodes(&**e, most);
            add(
                1,
                add(nodes_of_joins(binds.as_slice(), most), count, most),
                most,
            )
        }
        Expr::Jump(_, args) => add(1, nodes_of_args(args.as_slice(), most), most),
    }
}

#[cycle(nodes)]
fn nodes_of_applied(a: &Arg, most: u64) -> u64
    ensures { result ≡ min (applied_nodes (arg_of a.now)) most }
{
    match a {
        Arg::Term(e) => add(1, nodes(e, most), most),
        Arg::OfType(_) => 0,
        Arg::OfCo(_) => most.min(2),
    }
}

#[cycle(nodes)]
fn nodes_of_arg(a: &Arg, most: u64) -> u64
    ensures { result ≡ min (arg_nodes (arg_of a.now)) most }
{
    match a {
        Arg::Term(e) => nodes(e, most),
        Arg::OfType(_) => 0,
        Arg::OfCo(_) => most.min(1),
    }
}

#[cycle(nodes)]
fn nodes_of_field(a: &Arg, most: u64) -> u64
    ensures { result ≡ min (field_nodes (arg_of a.now)) most }
{
    match a {
        Arg::Term(e) => {
            let extra = if is_trivial(e) { 0 } else { 2 };
            add(nodes(e, most), extra, most)
        }
        Arg::OfType(_) => 0,
        Arg::OfCo(_) => most.min(1),
    }
}

#[cycle(nodes)]
fn nodes_of_all(es: &[Expr], most: u64) -> u64
    ensures { result ≡ min (exprs_nodes (exprs_of es.now)) most }
{
    let mut sum = 0;
    for e in es {
        sum = add(sum, nodes(e, most), most);
    }
    sum
}

#[cycle(nodes)]
fn nodes_of_args(args: &[Arg], most: u64) -> u64
    ensures { result ≡ min (args_nodes (args_of args.now)) most }
{
    let mut sum = 0;
    for a in args {
        sum = add(sum, nodes_of_arg(a, most), most);
    }
    sum
}

#[cycle(nodes)]
fn nodes_of_fields(args: &[Arg], most: u64) -> u64
    ensures { result ≡ min (fields_nodes (args_of args.now)) most }
{
    let mut sum = 0;
    for a in args {
        sum = add(sum, nodes_of_field(a, most), most);
    }
    sum
}

#[cycle(nodes)]
fn nodes_of_binds(binds: &[Bind], most: u64) -> u64
    ensures { result ≡ min (binds_nodes (binds_of binds.now)) most }
{
    let mut sum = 0;
    for b in binds {
        sum = add(sum, add(1, nodes(&b.rhs, most), most), most);
    }
    sum
}

#[cycle(nodes)]
fn nodes_of_alts(alts: &[Alt], most: u64) -> u64
    ensures { result ≡ min (alts_nodes (alts_of alts.now)) most }
{
    let mut sum = 0;
    for a in alts {
        let own = alternative_nodes(&a.head, a.binders.as_slice(), most);
        sum = add(sum, add(own, nodes(&a.body, most), most), most);
    }
    sum
}

#[cycle(nodes)]
fn nodes_of_joins(binds: &[JoinBind], most: u64) -> u64
    ensures { result ≡ min (joins_nodes (joins_of binds.now)) most }
{
    let mut sum = 0;
    for b in binds {
        let own = add(1, value_binders(b.params.as_slice(), most), most);
        sum = add(sum, add(own, nodes(&b.rhs, most), most), most);
    }
    sum
}
