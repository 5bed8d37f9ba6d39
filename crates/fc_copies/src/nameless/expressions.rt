//! Copies of expressions and of what stands in them, of the nameless tree.
ghost use Rattle.std.specs.Prelude.{◌≡◌, IfOk};
ghost use Rattle.fc_syntax.specs.View.{expr_of, exprs_of, arg_of, args_of, bind_of, binds_of, join_of, joins_of, alt_of, alts_of};

use fc_syntax::{Memory, NAlt, NArg, NBind, NExpr, NJoinBind, Seq, boxed_copy, copy_binders};
use std::alloc::Global;

/// The same expression again. Fails only where memory runs out.
#[cycle(copies)]
#[tactic(auto, using(fc_syntax::proofs::View::view_rules))]
pub fn copy_expr(alloc: Global, e: &NExpr) -> Result<NExpr, Memory>
    ensures { IfOk result (λ r. expr_of r ≡ expr_of e.now) }
{
    match e {
        NExpr::Var(v) => Ok(NExpr::Var(v.copy(alloc)?)),
        NExpr::Lit(n) => Ok(NExpr::Lit(*n)),
        NExpr::App(f, a) => {
            let f = boxed_copy(alloc, copy_expr(alloc, f))?;
            let a = boxed_copy(alloc, copy_arg(alloc, a))?;
            Ok(NExpr::App(f, a))
        }
        NExpr::Lam(b, e) => {
            let b = boxed_copy(alloc, b.copy(alloc))?;
            let e = boxed_copy(alloc, copy_expr(alloc, e))?;
            Ok(NExpr::Lam(b, e))
        }
        NExpr::Let(recursive, binds, e) => {
            let binds = copy_binds(alloc, binds.as_slice())?;
            let e = boxed_copy(alloc, copy_expr(alloc, e))?;
            Ok(NExpr::Let(*recursive, binds, e))
        }
        NExpr::Case(s, x, t, u, alts) => {
            let s = boxed_copy(alloc, copy_expr(alloc, s))?;
            let x = x.copy(alloc)?;
            let t = t.copy(alloc)?;
            let u = u.copy(alloc)?;
            let alts = copy_alts(alloc, alts.as_slice())?;
            Ok(NExpr::Case(s, x, t, u, alts))
        }
        NExpr::Cast(e, g) => {
            let e = boxed_copy(alloc, copy_expr(alloc, e))?;
            let g = g.copy(alloc)?;
            Ok(NExpr::Cast(e, g))
        }
        NExpr::Con(name, args) => {
            let name = name.copy(alloc)?;
            let args = copy_args(alloc, args.as_slice())?;
            Ok(NExpr::Con(name, args))
        }
        NExpr::Prim(op, args) => {
            let args = copy_exprs(alloc, args.as_slice())?;
            Ok(NExpr::Prim(*op, args))
        }
        NExpr::Fail(t) => Ok(NExpr::Fail(t.copy(alloc)?)),
        NExpr::Join(recursive, t, binds, e) => {
            let t = t.copy(alloc)?;
            let binds = copy_joins(alloc, binds.as_slice())?;
            let e = boxed_copy(alloc, copy_expr(alloc, e))?;
            Ok(NExpr::Join(*recursive, t, binds, e))
        }
        NExpr::Jump(j, args) => {
            let args = copy_args(alloc, args.as_slice())?;
            Ok(NExpr::Jump(*j, args))
        }
    }
}

/// The same argument again. Fails only where memory runs out.
#[cycle(copies)]
#[tactic(auto, using(fc_syntax::proofs::View::view_rules))]
pub fn copy_arg(alloc: Global, a: &NArg) -> Result<NArg, Memory>
    ensures { IfOk result (λ r. arg_of r ≡ arg_of a.now) }
{
    match a {
        NArg::Term(e) => Ok(NArg::Term(copy_expr(alloc, e)?)),
        NArg::OfType(t) => Ok(NArg::OfType(t.copy(alloc)?)),
        NArg::OfCo(g) => Ok(NArg::OfCo(g.copy(alloc)?)),
    }
}

/// The same binding again. Fails only where memory runs out.
#[cycle(copies)]
pub fn copy_bind(alloc: Global, b: &NBind) -> Result<NBind, Memory>
    ensures { IfOk result (λ r. bind_of r ≡ bind_of b.now) }
{
    let name = b.name.copy(alloc)?;
    let ty = b.ty.copy(alloc)?;
    let rhs = copy_expr(alloc, &b.rhs)?;
    Ok(NBind { name, ty, rhs })
}

/// The same join point again. Fails only where memory runs out.
#[cycle(copies)]
pub fn copy_join(alloc: Global, b: &NJoinBind) -> Result<NJoinBind, Memory>
    ensures { IfOk result (λ r. join_of r ≡ join_of b.now) }
{
    let name = b.name.copy(alloc)?;
    let params = copy_binders(alloc, b.params.as_slice())?;
    let rhs = copy_expr(alloc, &b.rhs)?;
    Ok(NJoinBind { name, params, rhs })
}

/// The same alternative again. Fails only where memory runs out.
#[cycle(copies)]
pub fn copy_alt(alloc: Global, a: &NAlt) -> Result<NAlt, Memory>
    ensures { IfOk result (λ r. alt_of r ≡ alt_of a.now) }
{
    let head = a.head.copy(alloc)?;
    let binders = copy_binders(alloc, a.binders.as_slice())?;
    let body = copy_expr(alloc, &a.body)?;
    Ok(NAlt {
        head,
        binders,
        body,
    })
}

/// The same operands again. Fails only where memory runs out.
#[cycle(copies)]
#[tactic(auto, using(fc_syntax::proofs::Snoc::exprs_step))]
pub fn copy_exprs(alloc: Global, items: &[NExpr]) -> Result<Seq<NExpr>, Memory>
    ensures { IfOk result (λ s. exprs_of s ≡ exprs_of items.now) }
{
    let mut all = Seq::new(alloc);
    for x in items {
        all.push(copy_expr(alloc, x)?)?;
    }
    Ok(all)
}

/// The same arguments again. Fails only where memory runs out.
#[cycle(copies)]
#[tactic(auto, using(fc_syntax::proofs::Snoc::args_step))]
pub fn copy_args(alloc: Global, items: &[NArg]) -> Result<Seq<NArg>, Memory>
    ensures { IfOk result (λ s. args_of s ≡ args_of items.now) }
{
    let mut all = Seq::new(alloc);
    for x in items {
        all.push(copy_arg(alloc, x)?)?;
    }
    Ok(all)
}

/// The same bindings again. Fails only where memory runs out.
#[cycle(copies)]
#[tactic(auto, using(fc_syntax::proofs::Snoc::binds_step))]
pub fn copy_binds(alloc: Global, items: &[NBind]) -> Result<Seq<NBind>, Memory>
    ensures { IfOk result (λ s. binds_of s ≡ binds_of items.now) }
{
    let mut all = Seq::new(alloc);
    for x in items {
        all.push(copy_bind(alloc, x)?)?;
    }
    Ok(all)
}

/// The same join points again. Fails only where memory runs out.
#[cycle(copies)]
#[tactic(auto, using(fc_syntax::proofs::Snoc::joins_step))]
pub fn copy_joins(alloc: Global, items: &[NJoinBind]) -> Result<Seq<NJoinBind>, Memory>
    ensures { IfOk result (λ s. joins_of s ≡ joins_of items.now) }
{
    let mut all = Seq::new(alloc);
    for x in items {
        all.push(copy_join(alloc, x)?)?;
    }
    Ok(all)
}

/// The same alternatives again. Fails only where memory runs out.
#[cycle(copies)]
#[tactic(auto, using(fc_syntax::proofs::Snoc::alts_step))]
pub fn copy_alts(alloc: Global, items: &[NAlt]) -> Result<Seq<NAlt>, Memory>
    ensures { IfOk result (λ s. alts_of s ≡ alts_of items.now) }
{
    let mut all = Seq::new(alloc);
    for x in items {
        all.push(copy_alt(alloc, x)?)?;
    }
    Ok(all)
}
