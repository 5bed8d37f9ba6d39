//! How large a module is.
ghost use Rattle.std.specs.Prelude.{◌≡◌, ◌+◌, min, length};
ghost use Rattle.fc_syntax.specs.View.{ty_of, tys_of, co_of, cos_of, binder_of, binders_of, con_of, cons_of, decl_of, decls_of, module_of};
ghost use Rattle.fc_syntax.specs.View.{expr_of, arg_of, bind_of, join_of, alt_of, exprs_of, args_of, binds_of, joins_of, alts_of};
ghost use Rattle.fc_syntax.specs.Measures.{size_of, ty_size, tys_size, co_size, cos_size, binder_size, binders_size, con_size, cons_size, decl_size, decls_size};
ghost use Rattle.fc_syntax.specs.Measures.{expr_size, arg_size, bind_size, join_size, alt_size, exprs_size, args_size, binds_size, joins_size, alts_size};

use crate::sums::add;
use fc_syntax::{Alt, Arg, Bind, Binder, Co, ConDecl, Decl, Expr, JoinBind, Module, Ty};

#[tactic(auto, using(fc_syntax::proofs::View::view_rules))]
fn size_of_type(t: &Ty, most: u64) -> u64
    ensures { result ≡ min (ty_size (ty_of t.now)) most }
{
    match t {
        Ty::Var(_) => most.min(1),
        Ty::Con(_) => most.min(1),
        Ty::IntHash => most.min(1),
        Ty::App(t, u) => {
            let left = size_of_type(&**t, most);
            let right = size_of_type(&**u, most);
            add(1, add(left, right, most), most)
        }
        Ty::Fun(t, u) => {
            let left = size_of_type(&**t, most);
            let right = size_of_type(&**u, most);
            add(1, add(left, right, most), most)
        }
        Ty::Forall(_, _, t) => add(1, size_of_type(&**t, most), most),
        Ty::CoForall(_, t, u, v) => {
            let left = size_of_type(&**t, most);
            let right = size_of_type(&**u, most);
            let body = size_of_type(&**v, most);
            add(1, add(left, add(right, body, most), most), most)
        }
    }
}

#[cycle(co_size)]
#[tactic(auto, using(fc_syntax::proofs::View::view_rules))]
fn size_of_co(g: &Co, most: u64) -> u64
    ensures { result ≡ min (co_size (co_of g.now)) most }
{
    match g {
        Co::Var(_) => most.min(1),
        Co::Refl(_, t) => add(1, size_of_type(t, most), most),
        Co::Sym(g) => add(1, size_of_co(&**g, most), most),
        Co::Trans(g, h) => {
            let left = size_of_co(&**g, most);
            let right = size_of_co(&**h, most);
            add(1, add(left, right, most), most)
        }
        Co::Tc(_, _, gs) => add(1, size_of_cos(gs.as_slice(), most), most),
        Co::Capp(g, h) => {
            let left = size_of_co(&**g, most);
            let right = size_of_co(&**h, most);
            add(1, add(left, right, most), most)
        }
        Co::FunCo(g, h) => {
            let left = size_of_co(&**g, most);
            let right = size_of_co(&**h, most);
            add(1, add(left, right, most), most)
        }
        Co::AllCo(_, _, g) => add(1, size_of_co(&**g, most), most),
        Co::CoAllCo(_, _, f, g, h) => {
            let left = size_of_co(&**f, most);
            let right = size_of_co(&**g, most);
            let body = size_of_co(&**h, most);
            add(1, add(left, add(right, body, most), most), most)
        }
        Co::Inst(g, h) => {
            let left = size_of_co(&**g, most);
            let right = size_of_co(&**h, most);
            add(1, add(left, right, most), most)
        }
        Co::Nth(_, g) => add(1, size_of_co(&**g, most), most),
        Co::Left(g) => add(1, size_of_co(&**g, most), most),
        Co::Right(g) => add(1, size_of_co(&**g, most), most),
        Co::Sub(g) => add(1, size_of_co(&**g, most), most),
        Co::Ax(_, gs) => add(1, size_of_cos(gs.as_slice(), most), most),
        Co::Univ(t, u) => {
            let left = size_of_type(t, most);
            let right = size_of_type(u, most);
            add(1, add(left, right, most), most)
        }
    }
}

#[cycle(co_size)]
fn size_of_cos(items: &[Co], most: u64) -> u64
    ensures { result ≡ min (cos_size (cos_of items.now)) most }
{
    let mut sum = 0;
    for x in items {
        sum = add(sum, size_of_co(x, most), most);
    }
    sum
}

fn size_of_binder(b: &Binder, most: u64) -> u64
    ensures { result ≡ min (binder_size (binder_of b.now)) most }
{
    match b {
        Binder::Value(_, t) => add(1, size_of_type(t, most), most),
        Binder::OfType(_, _) => most.min(1),
        Binder::OfCo(_, _, t, u) => {
            let left = size_of_type(t, most);
            let right = size_of_type(u, most);
            add(1, add(left, right, most), most)
        }
    }
}

fn size_of_binders(items: &[Binder], most: u64) -> u64
    ensures { result ≡ min (binders_size (binders_of items.now)) most }
{
    let mut sum = 0;
    for x in items {
        sum = add(sum, size_of_binder(x, most), most);
    }
    sum
}

#[cycle(expr_size)]
#[tactic(auto, using(fc_syntax::proofs::View::view_rules))]
fn size_of_expr(e: &Expr, most: u64) -> u64
    ensures { result ≡ min (expr_size (expr_of e.now)) most }
{
    match e {
        Expr::Var(_) => most.min(1),
        Expr::Lit(_) => most.min(1),
        Expr::App(f, a) => {
            let left = size_of_expr(&**f, most);
            let right = size_of_arg(&**a, most);
            add(1, add(left, right, most), most)
        }
        Expr::Lam(b, e) => {
            let binder = size_of_binder(&**b, most);
            let body = size_of_expr(&**e, most);
            add(1, add(binder, body, most), most)
        }
        Expr::Let(_, binds, e) => {
            let binds = size_of_binds(binds.as_slice(), most);
            let body = size_of_expr(&**e, most);
            add(1, add(binds, body, most), most)
        }
        Expr::Case(e, _, t, u, alts) => {
            let scrutinee = size_of_expr(&**e, most);
            let of_binder = size_of_type(t, most);
            let of_result = size_of_type(u, most);
            let alts = size_of_alts(alts.as_slice(), most);
            let types = add(of_binder, of_result, most);
            add(1, add(add(scrutinee, types, most), alts, most), most)
        }
        Expr::Cast(e, g) => {
            let left = size_of_expr(&**e, most);
            let right = size_of_co(g, most);
            add(1, add(left, right, most), most)
        }
        Expr::Con(_, args) => add(1, size_of_args(args.as_slice(), most), most),
        Expr::Prim(_, es) => add(1, size_of_exprs(es.as_slice(), most), most),
        Expr::Fail(t) => add(1, size_of_type(t, most), most),
        Expr::Join(_, t, joins, e) => {
            let of_result = size_of_type(t, most);
            let joins = size_of_joins(joins.as_slice(), most);
            let body = size_of_expr(&**e, most);
            add(1, add(of_result, add(joins, body, most), most), most)
        }
        Expr::Jump(_, args) => add(1, size_of_args(args.as_slice(), most), most),
    }
}

#[cycle(expr_size)]
fn size_of_arg(a: &Arg, most: u64) -> u64
    ensures { result ≡ min (arg_size (arg_of a.now)) most }
{
    match a {
        Arg::Term(e) => size_of_expr(e, most),
        Arg::OfType(t) => size_of_type(t, most),
        Arg::OfCo(g) => size_of_co(g, most),
    }
}

#[cycle(expr_size)]
fn size_of_bind(x: &Bind, most: u64) -> u64
    ensures { result ≡ min (bind_size (bind_of x.now)) most }
{
    let left = size_of_type(&x.ty, most);
    let right = size_of_expr(&x.rhs, most);
    add(1, add(left, right, most), most)
}

#[cycle(expr_size)]
fn size_of_join(x: &JoinBind, most: u64) -> u64
    ensures { result ≡ min (join_size (join_of x.now)) most }
{
    let left = size_of_binders(x.params.as_slice(), most);
    let right = size_of_expr(&x.rhs, most);
    add(1, add(left, right, most), most)
}

#[cycle(expr_size)]
fn size_of_alt(x: &Alt, most: u64) -> u64
    ensures { result ≡ min (alt_size (alt_of x.now)) most }
{
    let left = size_of_binders(x.binders.as_slice(), most);
    let right = size_of_expr(&x.body, most);
    add(1, add(left, right, most), most)
}

#[cycle(expr_size)]
fn size_of_exprs(items: &[Expr], most: u64) -> u64
    ensures { result ≡ min (exprs_size (exprs_of items.now)) most }
{
    let mut sum = 0;
    for x in items {
        sum = add(sum, size_of_expr(x, most), most);
    }
    sum
}

#[cycle(expr_size)]
fn size_of_args(items: &[Arg], most: u64) -> u64
    ensures { result ≡ min (args_size (args_of items.now)) most }
{
    let mut sum = 0;
    for x in items {
        sum = add(sum, size_of_arg(x, most), most);
    }
    sum
}

#[cycle(expr_size)]
fn size_of_binds(items: &[Bind], most: u64) -> u64
    ensures { result ≡ min (binds_size (binds_of items.now)) most }
{
    let mut sum = 0;
    for x in items {
        sum = add(sum, size_of_bind(x, most), most);
    }
    sum
}

#[cycle(expr_size)]
fn size_of_joins(items: &[JoinBind], most: u64) -> u64
    ensures { result ≡ min (joins_size (joins_of items.now)) most }
{
    let mut sum = 0;
    for x in items {
        sum = add(sum, size_of_join(x, most), most);
    }
    sum
}

#[cycle(expr_size)]
fn size_of_alts(items: &[Alt], most: u64) -> u64
    ensures { result ≡ min (alts_size (alts_of items.now)) most }
{
    let mut sum = 0;
    for x in items {
        sum = add(sum, size_of_alt(x, most), most);
    }
    sum
}

fn size_of_types(items: &[Ty], most: u64) -> u64
    ensures { result ≡ min (tys_size (tys_of items.now)) most }
{
    let mut sum = 0;
    for x in items {
        sum = add(sum, size_of_type(x, most), most);
    }
    sum
}

fn size_of_constructor(x: &ConDecl, most: u64) -> u64
    ensures { result ≡ min (con_size (con_of x.now)) most }
{
    let left = size_of_binders(x.binders.as_slice(), most);
    let right = size_of_types(x.fields.as_slice(), most);
    add(1, add(left, right, most), most)
}

fn size_of_constructors(items: &[ConDecl], most: u64) -> u64
    ensures { result ≡ min (cons_size (cons_of items.now)) most }
{
    let mut sum = 0;
    for x in items {
        sum = add(sum, size_of_constructor(x, most), most);
    }
    sum
}

/// The size of a declaration, or `most` where that is less: the declaration itself, each of its parameters, and every
/// constructor, binder, bind, alternative, expression, type and coercion in it count one. Takes no memory.
#[tactic(auto, using(crate::proofs::Leaves::leaf_rules, std::proofs::lemmas::Grind::common_steps))]
pub fn size_of_decl(d: &Decl, most: u64) -> u64
    ensures { result ≡ min (decl_size (decl_of d.now)) most }
{
    match d {
        Decl::DataType(_, params, cons) => {
            let cons = size_of_constructors(cons.as_slice(), most);
            add(1, add(params.len() as u64, cons, most), most)
        }
        Decl::NewType(_, params, t, _) => {
            let t = size_of_type(t, most);
            add(1, add(params.len() as u64, t, most), most)
        }
        Decl::Family(_, params, _) => add(1, params.len() as u64, most),
        Decl::Axiom(_, params, t, u) => {
            let left = size_of_type(t, most);
            let right = size_of_type(u, most);
            let sides = add(left, right, most);
            add(1, add(params.len() as u64, sides, most), most)
        }
        Decl::Def(_, t, e) => {
            let left = size_of_type(t, most);
            let right = size_of_expr(e, most);
            add(1, add(left, right, most), most)
        }
        Decl::Wrap(_, t, e) => {
            let left = size_of_type(t, most);
            let right = size_of_expr(e, most);
            add(1, add(left, right, most), most)
        }
    }
}

fn size_of_decls(items: &[Decl], most: u64) -> u64
    ensures { result ≡ min (decls_size (decls_of items.now)) most }
{
    let mut sum = 0;
    for x in items {
        sum = add(sum, size_of_decl(x, most), most);
    }
    sum
}

/// The size of a module, or `most` where that is less: every declaration, constructor, binder, bind, alternative, expression,
/// type and coercion counts one. Takes no memory.
pub fn size(m: &Module, most: u64) -> u64
    ensures { result ≡ min (size_of (module_of m.now)) most }
{
    size_of_decls(m.decls.as_slice(), most)
}
