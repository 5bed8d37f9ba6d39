//! How large expressions are.
ghost use Rattle.std.specs.Prelude.{◌≡◌, IfOk};
ghost use Rattle.fc_syntax.specs.View.{expr_of, exprs_of, arg_of, args_of, bind_of, binds_of, binders_of, join_of, joins_of, alt_of, alts_of};
ghost use Rattle.fc_syntax.specs.Measures.{alt_depth, alt_nodes, alt_size, alternative_count, alts_depth, alts_nodes, alts_size, applied_nodes, arg_depth, arg_nodes, arg_size, args_depth, args_nodes, args_size};
ghost use Rattle.fc_syntax.specs.Measures.{bind_depth, bind_nodes, bind_size, binds_depth, binds_nodes, binds_size, expr_depth, expr_size, exprs_depth, exprs_nodes, exprs_size, field_nodes, fields_nodes};
ghost use Rattle.fc_syntax.specs.Measures.{is_trivial as is_trivial_term, join_depth, join_nodes, join_size, joins_depth, joins_nodes, joins_size, nodes_of, value_count};

use crate::measures::{Measures, NOTHING, around, beside, with_nodes};
use crate::types::{of_binder, of_binders, of_coercion, of_type};
use fc_numbers::sum;
use fc_syntax::{Head, Memory, NAlt, NArg, NBind, NBinder, NExpr, NJoinBind};

/// Whether an expression is a variable, a literal, or one of these under casts and applications to types.
#[tactic(auto, using(fc_syntax::proofs::View::view_rules))]
fn is_trivial(e: &NExpr) -> bool
    ensures { result ≡ is_trivial_term (expr_of e.now) }
{
    match e {
        NExpr::Var(_) => true,
        NExpr::Lit(_) => true,
        NExpr::App(f, a) => match &**a {
            NArg::OfType(_) => is_trivial(&**f),
            _ => false,
        },
        NExpr::Cast(e, _) => is_trivial(&**e),
        _ => false,
    }
}

/// How large an expression is. Fails only where a number has no 32 bits; takes no memory.
#[cycle(expressions)]
#[tactic(auto, using(fc_syntax::proofs::View::view_rules))]
pub fn measures_of_expr(e: &NExpr) -> Result<Measures, Memory>
    ensures nodes { IfOk result (λ m. m.nodes ≡ nodes_of (expr_of e.now)) }
    ensures size { IfOk result (λ m. m.size ≡ expr_size (expr_of e.now)) }
    ensures depth { IfOk result (λ m. m.depth ≡ expr_depth (expr_of e.now)) }
{
    match e {
        NExpr::Var(_) => around(1, NOTHING),
        NExpr::Lit(_) => around(1, NOTHING),
        NExpr::App(f, a) => {
            let f = measures_of_expr(f)?;
            let a = of_applied(a)?;
            around(0, beside(f, a)?)
        }
        NExpr::Lam(b, e) => {
            let b = of_binder(b)?;
            let e = measures_of_expr(e)?;
            around(0, beside(b, e)?)
        }
        NExpr::Let(_, binds, e) => {
            let binds = of_binds(binds.as_slice())?;
            let e = measures_of_expr(e)?;
            around(0, beside(binds, e)?)
        }
        NExpr::Case(e, _, t, u, alts) => {
            let e = measures_of_expr(e)?;
            let types = beside(of_type(t)?, of_type(u)?)?;
            let alts = of_alternatives(alts.as_slice())?;
            around(1, beside(beside(e, types)?, alts)?)
        }
        NExpr::Cast(e, g) => {
            let e = measures_of_expr(e)?;
            let g = of_coercion(g)?;
            around(0, beside(e, g)?)
        }
        NExpr::Con(_, args) => around(1, of_fields(args.as_slice())?),
        NExpr::Prim(_, operands) => around(1, of_expressions(operands.as_slice())?),
        NExpr::Fail(t) => around(1, of_type(t)?),
        NExpr::Join(_, t, joins, e) => {
            let t = of_type(t)?;
            let joins = of_join_points(joins.as_slice())?;
            let e = measures_of_expr(e)?;
            around(1, beside(t, beside(joins, e)?)?)
        }
        NExpr::Jump(_, args) => around(1, of_arguments(args.as_slice())?),
    }
}

/// How large an argument is, with the node of the application to it.
#[cycle(expressions)]
fn of_applied(a: &NArg) -> Result<Measures, Memory>
    ensures nodes { IfOk result (λ m. m.nodes ≡ applied_nodes (arg_of a.now)) }
    ensures size { IfOk result (λ m. m.size ≡ arg_size (arg_of a.now)) }
    ensures depth { IfOk result (λ m. m.depth ≡ arg_depth (arg_of a.now)) }
{
    match a {
        NArg::Term(e) => with_nodes(1, measures_of_expr(e)?),
        NArg::OfType(t) => of_type(t),
        NArg::OfCo(g) => with_nodes(2, of_coercion(g)?),
    }
}

/// How large an argument is.
#[cycle(expressions)]
fn of_argument(a: &NArg) -> Result<Measures, Memory>
    ensures nodes { IfOk result (λ m. m.nodes ≡ arg_nodes (arg_of a.now)) }
    ensures size { IfOk result (λ m. m.size ≡ arg_size (arg_of a.now)) }
    ensures depth { IfOk result (λ m. m.depth ≡ arg_depth (arg_of a.now)) }
{
    match a {
        NArg::Term(e) => measures_of_expr(e),
        NArg::OfType(t) => of_type(t),
        NArg::OfCo(g) => with_nodes(1, of_coercion(g)?),
    }
}

/// How large an argument of a constructor is.
#[cycle(expressions)]
fn of_field(a: &NArg) -> Result<Measures, Memory>
    ensures nodes { IfOk result (λ m. m.nodes ≡ field_nodes (arg_of a.now)) }
    ensures size { IfOk result (λ m. m.size ≡ arg_size (arg_of a.now)) }
    ensures depth { IfOk result (λ m. m.depth ≡ arg_depth (arg_of a.now)) }
{
    match a {
        NArg::Term(e) => {
            let extra = if is_trivial(e) { 0 } else { 2 };
            with_nodes(extra, measures_of_expr(e)?)
        }
        NArg::OfType(t) => of_type(t),
        NArg::OfCo(g) => with_nodes(1, of_coercion(g)?),
    }
}

/// How large expressions are together.
#[cycle(expressions)]
fn of_expressions(items: &[NExpr]) -> Result<Measures, Memory>
    ensures nodes { IfOk result (λ m. m.nodes ≡ exprs_nodes (exprs_of items.now)) }
    ensures size { IfOk result (λ m. m.size ≡ exprs_size (exprs_of items.now)) }
    ensures depth { IfOk result (λ m. m.depth ≡ exprs_depth (exprs_of items.now)) }
{
    let mut all = NOTHING;
    for x in items {
        all = beside(all, measures_of_expr(x)?)?;
    }
    Ok(all)
}

/// How large arguments are together.
#[cycle(expressions)]
fn of_arguments(items: &[NArg]) -> Result<Measures, Memory>
    ensures nodes { IfOk result (λ m. m.nodes ≡ args_nodes (args_of items.now)) }
    ensures size { IfOk result (λ m. m.size ≡ args_size (args_of items.now)) }
    ensures depth { IfOk result (λ m. m.depth ≡ args_depth (args_of items.now)) }
{
    let mut all = NOTHING;
    for x in items {
        all = beside(all, of_argument(x)?)?;
    }
    Ok(all)
}

/// How large arguments of a constructor are together.
#[cycle(expressions)]
fn of_fields(items: &[NArg]) -> Result<Measures, Memory>
    ensures nodes { IfOk result (λ m. m.nodes ≡ fields_nodes (args_of items.now)) }
    ensures size { IfOk result (λ m. m.size ≡ args_size (args_of items.now)) }
    ensures depth { IfOk result (λ m. m.depth ≡ args_depth (args_of items.now)) }
{
    let mut all = NOTHING;
    for x in items {
        all = beside(all, of_field(x)?)?;
    }
    Ok(all)
}

/// How large a bind is.
#[cycle(expressions)]
fn of_bind(b: &NBind) -> Result<Measures, Memory>
    ensures nodes { IfOk result (λ m. m.nodes ≡ bind_nodes (bind_of b.now)) }
    ensures size { IfOk result (λ m. m.size ≡ bind_size (bind_of b.now)) }
    ensures depth { IfOk result (λ m. m.depth ≡ bind_depth (bind_of b.now)) }
{
    let t = of_type(&b.ty)?;
    let e = measures_of_expr(&b.rhs)?;
    around(1, beside(t, e)?)
}

/// How large a join point is.
#[cycle(expressions)]
fn of_join_point(j: &NJoinBind) -> Result<Measures, Memory>
    ensures nodes { IfOk result (λ m. m.nodes ≡ join_nodes (join_of j.now)) }
    ensures size { IfOk result (λ m. m.size ≡ join_size (join_of j.now)) }
    ensures depth { IfOk result (λ m. m.depth ≡ join_depth (join_of j.now)) }
{
    let params = of_binders(j.params.as_slice())?;
    let e = measures_of_expr(&j.rhs)?;
    around(1, beside(params, e)?)
}

/// How many nodes an alternative counts itself.
fn own_nodes(head: &Head, binders: &[NBinder], values: u32) -> Result<u32, Memory>
    requires { values ≡ value_count (binders_of binders.now) }
    ensures { IfOk result (λ n. n ≡ alternative_count head.now (binders_of binders.now)) }
{
    match head {
        Head::Default => Ok(0),
        Head::Lit(_) => Ok(1),
        Head::Con(_) => sum(1, sum(values, values)?),
    }
}

/// How large an alternative is.
#[cycle(expressions)]
fn of_alternative(a: &NAlt) -> Result<Measures, Memory>
    ensures nodes { IfOk result (λ m. m.nodes ≡ alt_nodes (alt_of a.now)) }
    ensures size { IfOk result (λ m. m.size ≡ alt_size (alt_of a.now)) }
    ensures depth { IfOk result (λ m. m.depth ≡ alt_depth (alt_of a.now)) }
{
    let binders = of_binders(a.binders.as_slice())?;
    let own = own_nodes(&a.head, a.binders.as_slice(), binders.nodes)?;
    let e = measures_of_expr(&a.body)?;
    around(
        own,
        beside(
            Measures {
                nodes: 0,
                ..binders
            },
            e,
        )?,
    )
}

/// How large binds are together.
#[cycle(expressions)]
fn of_binds(items: &[NBind]) -> Result<Measures, Memory>
    ensures nodes { IfOk result (λ m. m.nodes ≡ binds_nodes (binds_of items.now)) }
    ensures size { IfOk result (λ m. m.size ≡ binds_size (binds_of items.now)) }
    ensures depth { IfOk result (λ m. m.depth ≡ binds_depth (binds_of items.now)) }
{
    let mut all = NOTHING;
    for x in items {
        all = beside(all, of_bind(x)?)?;
    }
    Ok(all)
}

/// How large join points are together.
#[cycle(expressions)]
fn of_join_points(items: &[NJoinBind]) -> Result<Measures, Memory>
    ensures nodes { IfOk result (λ m. m.nodes ≡ joins_nodes (joins_of items.now)) }
    ensures size { IfOk result (λ m. m.size ≡ joins_size (joins_of items.now)) }
    ensures depth { IfOk result (λ m. m.depth ≡ joins_depth (joins_of items.now)) }
{
    let mut all = NOTHING;
    for x in items {
        all = beside(all, of_join_point(x)?)?;
    }
    Ok(all)
}

/// How large alternatives are together.
#[cycle(expressions)]
fn of_alternatives(items: &[NAlt]) -> Result<Measures, Memory>
    ensures nodes { IfOk result (λ m. m.nodes ≡ alts_nodes (alts_of items.now)) }
    ensures size { IfOk result (λ m. m.size ≡ alts_size (alts_of items.now)) }
    ensures depth { IfOk result (λ m. m.depth ≡ alts_depth (alts_of items.now)) }
{
    let mut all = NOTHING;
    for x in items {
        all = beside(all, of_alternative(x)?)?;
    }
    Ok(all)
}
