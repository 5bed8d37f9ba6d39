//! How deep a declaration is.
ghost use Rattle.std.specs.Prelude.{◌≡◌, ◌+◌, max, min, List, length};
ghost use Rattle.fc_syntax.specs.View.{ty_of, tys_of, co_of, cos_of, binder_of, binders_of, con_of, cons_of, decl_of};
ghost use Rattle.fc_syntax.specs.View.{expr_of, arg_of, bind_of, join_of, alt_of, exprs_of, args_of, binds_of, joins_of, alts_of};
ghost use Rattle.fc_syntax.specs.Measures.{depth_of, ty_depth, tys_depth, co_depth, cos_depth, binder_depth, binders_depth as all_binders_depth, con_depth, cons_depth, leaves_depth};
ghost use Rattle.fc_syntax.specs.Measures.{expr_depth as of_expr, arg_depth as argument_depth, bind_depth as bound_depth, join_depth as joined_depth, alt_depth as branch_depth, exprs_depth, args_depth, binds_depth, joins_depth, alts_depth};

use fc_syntax::{Alt, Arg, Bind, Binder, Co, ConDecl, Decl, Expr, JoinBind, Ty};

// One more than the deepest part.
fn above(parts: u32, most: u32) -> u32
    ensures { result ≡ min (1 + parts) most }
{
    parts.saturating_add(1).min(most)
}

#[tactic(auto, using(fc_syntax::proofs::View::view_rules))]
fn depth_of_type(t: &Ty, most: u32) -> u32
    ensures { result ≡ min (ty_depth (ty_of t.now)) most }
{
    let Some(below) = most.checked_sub(1) else {
        return 0;
    };
    match t {
        Ty::Var(_) => 1,
        Ty::Con(_) => 1,
        Ty::IntHash => 1,
        Ty::App(t, u) => {
            let left = depth_of_type(&**t, below);
            let right = depth_of_type(&**u, below);
            above(left.max(right), most)
        }
        Ty::Fun(t, u) => {
            let left = depth_of_type(&**t, below);
            let right = depth_of_type(&**u, below);
            above(left.max(right), most)
        }
        Ty::Forall(_, _, t) => above(depth_of_type(&**t, below), most),
        Ty::CoForall(_, t, u, v) => {
            let left = depth_of_type(&**t, below);
            let right = depth_of_type(&**u, below);
            let body = depth_of_type(&**v, below);
            above(left.max(right.max(body)), most)
        }
    }
}

#[cycle(co_depth)]
#[tactic(auto, using(fc_syntax::proofs::View::view_rules))]
fn depth_of_co(g: &Co, most: u32) -> u32
    ensures { result ≡ min (co_depth (co_of g.now)) most }
{
    let Some(below) = most.checked_sub(1) else {
        return 0;
    };
    match g {
        Co::Var(_) => 1,
        Co::Refl(_, t) => above(depth_of_type(t, below), most),
        Co::Sym(g) => above(depth_of_co(&**g, below), most),
        Co::Trans(g, h) => {
            let left = depth_of_co(&**g, below);
            let right = depth_of_co(&**h, below);
            above(left.max(right), most)
        }
        Co::Tc(_, _, gs) => above(depth_of_cos(gs.as_slice(), below), most),
        Co::Capp(g, h) => {
            let left = depth_of_co(&**g, below);
            let right = depth_of_co(&**h, below);
            above(left.max(right), most)
        }
        Co::FunCo(g, h) => {
            let left = depth_of_co(&**g, below);
            let right = depth_of_co(&**h, below);
            above(left.max(right), most)
        }
        Co::AllCo(_, _, g) => above(depth_of_co(&**g, below), most),
        Co::CoAllCo(_, _, f, g, h) => {
            let left = depth_of_co(&**f, below);
            let right = depth_of_co(&**g, below);
            let body = depth_of_co(&**h, below);
            above(left.max(right.max(body)), most)
        }
        Co::Inst(g, h) => {
            let left = depth_of_co(&**g, below);
            let right = depth_of_co(&**h, below);
            above(left.max(right), most)
        }
        Co::Nth(_, g) => above(depth_of_co(&**g, below), most),
        Co::Left(g) => above(depth_of_co(&**g, below), most),
        Co::Right(g) => above(depth_of_co(&**g, below), most),
        Co::Sub(g) => above(depth_of_co(&**g, below), most),
        Co::Ax(_, gs) => above(depth_of_cos(gs.as_slice(), below), most),
        Co::Univ(t, u) => {
            let left = depth_of_type(t, below);
            let right = depth_of_type(u, below);
            above(left.max(right), most)
        }
    }
}

#[cycle(co_depth)]
fn depth_of_cos(items: &[Co], most: u32) -> u32
    ensures { result ≡ min (cos_depth (cos_of items.now)) most }
{
    let mut deepest = 0u32;
    for x in items {
        deepest = depth_of_co(x, most).max(deepest);
    }
    deepest
}

fn depth_of_binder(b: &Binder, most: u32) -> u32
    ensures { result ≡ min (binder_depth (binder_of b.now)) most }
{
    let Some(below) = most.checked_sub(1) else {
        return 0;
    };
    match b {
        Binder::Value(_, t) => above(depth_of_type(t, below), most),
        Binder::OfType(_, _) => 1,
        Binder::OfCo(_, _, t, u) => {
            let left = depth_of_type(t, below);
            let right = depth_of_type(u, below);
            above(left.max(right), most)
        }
    }
}

fn depth_of_binders(items: &[Binder], most: u32) -> u32
    ensures { result ≡ min (all_binders_depth (binders_of items.now)) most }
{
    let mut deepest = 0u32;
    for x in items {
        deepest = depth_of_binder(x, most).max(deepest);
    }
    deepest
}

#[cycle(depth)]
#[tactic(auto, using(fc_syntax::proofs::View::view_rules))]
fn depth_of_expr(e: &Expr, most: u32) -> u32
    ensures { result ≡ min (of_expr (expr_of e.now)) most }
{
    let Some(below) = most.checked_sub(1) else {
        return 0;
    };
    match e {
        Expr::Var(_) => 1,
        Expr::Lit(_) => 1,
        Expr::App(f, a) => {
            let left = depth_of_expr(&**f, below);
            let right = depth_of_arg(&**a, below);
            above(left.max(right), most)
        }
        Expr::Lam(b, e) => {
            let binder = depth_of_binder(&**b, below);
            let body = depth_of_expr(&**e, below);
            above(binder.max(body), most)
        }
        Expr::Let(_, binds, e) => {
            let binds = depth_of_binds(binds.as_slice(), below);
            let body = depth_of_expr(&**e, below);
            above(binds.max(body), most)
        }
        Expr::Case(e, _, t, u, alts) => {
            let scrutinee = depth_of_expr(&**e, below);
            let of_binder = depth_of_type(t, below);
            let of_result = depth_of_type(u, below);
            let alts = depth_of_alts(alts.as_slice(), below);
            above(scrutinee.max(of_binder.max(of_result)).max(alts), most)
        }
        Expr::Cast(e, g) => {
            let left = depth_of_expr(&**e, below);
            let right = depth_of_co(g, below);
            above(left.max(right), most)
        }
        Expr::Con(_, args) => above(depth_of_args(args.as_slice(), below), most),
        Expr::Prim(_, es) => above(depth_of_exprs(es.as_slice(), below), most),
        Expr::Fail(t) => above(depth_of_type(t, below), most),
        Expr::Join(_, t, joins, e) => {
            let of_result = depth_of_type(t, below);
            let joins = depth_of_joins(joins.as_slice(), below);
            let body = depth_of_expr(&**e, below);
            above(of_result.max(joins.max(body)), most)
        }
        Expr::Jump(_, args) => above(depth_of_args(args.as_slice(), below), most),
    }
}

#[cycle(depth)]
fn depth_of_arg(a: &Arg, most: u32) -> u32
    ensures { result ≡ min (argument_depth (arg_of a.now)) most }
{
    match a {
        Arg::Term(e) => depth_of_expr(e, most),
        Arg::OfType(t) => depth_of_type(t, most),
        Arg::OfCo(g) => depth_of_co(g, most),
    }
}

#[cycle(depth)]
fn depth_of_bind(x: &Bind, most: u32) -> u32
    ensures { result ≡ min (bound_depth (bind_of x.now)) most }
{
    let Some(below) = most.checked_sub(1) else {
        return 0;
    };
    let left = depth_of_type(&x.ty, below);
    let right = depth_of_expr(&x.rhs, below);
    above(left.max(right), most)
}

#[cycle(depth)]
fn depth_of_join(x: &JoinBind, most: u32) -> u32
    ensures { result ≡ min (joined_depth (join_of x.now)) most }
{
    let Some(below) = most.checked_sub(1) else {
        return 0;
    };
    let left = depth_of_binders(x.params.as_slice(), below);
    let right = depth_of_expr(&x.rhs, below);
    above(left.max(right), most)
}

#[cycle(depth)]
fn depth_of_alt(x: &Alt, most: u32) -> u32
    ensures { result ≡ min (branch_depth (alt_of x.now)) most }
{
    let Some(below) = most.checked_sub(1) else {
        return 0;
    };
    let left = depth_of_binders(x.binders.as_slice(), below);
    let right = depth_of_expr(&x.body, below);
    above(left.max(right), most)
}

#[cycle(depth)]
fn depth_of_exprs(items: &[Expr], most: u32) -> u32
    ensures { result ≡ min (exprs_depth (exprs_of items.now)) most }
{
    let mut deepest = 0u32;
    for x in items {
        deepest = depth_of_expr(x, most).max(deepest);
    }
    deepest
}

#[cycle(depth)]
fn depth_of_args(items: &[Arg], most: u32) -> u32
    ensures { result ≡ min (args_depth (args_of items.now)) most }
{
    let mut deepest = 0u32;
    for x in items {
        deepest = depth_of_arg(x, most).max(deepest);
    }
    deepest
}

#[cycle(depth)]
fn depth_of_binds(items: &[Bind], most: u32) -> u32
    ensures { result ≡ min (binds_depth (binds_of items.now)) most }
{
    let mut deepest = 0u32;
    for x in items {
        deepest = depth_of_bind(x, most).max(deepest);
    }
    deepest
}

#[cycle(depth)]
fn depth_of_joins(items: &[JoinBind], most: u32) -> u32
    ensures { result ≡ min (joins_depth (joins_of items.now)) most }
{
    let mut deepest = 0u32;
    for x in items {
        deepest = depth_of_join(x, most).max(deepest);
    }
    deepest
}

#[cycle(depth)]
fn depth_of_alts(items: &[Alt], most: u32) -> u32
    ensures { result ≡ min (alts_depth (alts_of items.now)) most }
{
    let mut deepest = 0u32;
    for x in items {
        deepest = depth_of_alt(x, most).max(deepest);
    }
    deepest
}

fn depth_of_types(items: &[Ty], most: u32) -> u32
    ensures { result ≡ min (tys_depth (tys_of items.now)) most }
{
    let mut deepest = 0u32;
    for x in items {
        deepest = depth_of_type(x, most).max(deepest);
    }
    deepest
}

fn depth_of_constructor(x: &ConDecl, most: u32) -> u32
    ensures { result ≡ min (con_depth (con_of x.now)) most }
{
    let Some(below) = most.checked_sub(1) else {
        return 0;
    };
    let left = depth_of_binders(x.binders.as_slice(), below);
    let right = depth_of_types(x.fields.as_slice(), below);
    above(left.max(right), most)
}

fn depth_of_constructors(items: &[ConDecl], most: u32) -> u32
    ensures { result ≡ min (cons_depth (cons_of items.now)) most }
{
    let mut deepest = 0u32;
    for x in items {
        deepest = depth_of_constructor(x, most).max(deepest);
    }
    deepest
}

// Parameters have no parts.
fn depth_of_params(count: usize, most: u32) -> u32
    ensures { result ≡ min (min count 1) most }
{
    if count == 0 { 0 } else { most.min(1) }
}

/// The depth of a declaration, or `most` where that is less: 1 for a piece without parts, else one more than that of its
/// deepest part. Takes no memory.
#[tactic(auto, using(crate::proofs::Leaves::leaf_rules, std::proofs::lemmas::Grind::common_steps))]
pub fn depth(d: &Decl, most: u32) -> u32
    ensures { result ≡ min (depth_of (decl_of d.now)) most }
{
    let Some(below) = most.checked_sub(1) else {
        return 0;
    };
    match d {
        Decl::DataType(_, params, cons) => {
            let left = depth_of_params(params.len(), below);
            let right = depth_of_constructors(cons.as_slice(), below);
            above(left.max(right), most)
        }
        Decl::NewType(_, params, t, _) => {
            let left = depth_of_params(params.len(), below);
            let right = depth_of_type(t, below);
            above(left.max(right), most)
        }
        Decl::Family(_, params, _) => above(depth_of_params(params.len(), below), most),
        Decl::Axiom(_, params, t, u) => {
            let left = depth_of_params(params.len(), below);
            let right = depth_of_type(t, below).max(depth_of_type(u, below));
            above(left.max(right), most)
        }
        Decl::Def(_, t, e) => {
            let left = depth_of_type(t, below);
            let right = depth_of_expr(e, below);
            above(left.max(right), most)
        }
        Decl::Wrap(_, t, e) => {
            let left = depth_of_type(t, below);
            let right = depth_of_expr(e, below);
            above(left.max(right), most)
        }
    }
}
