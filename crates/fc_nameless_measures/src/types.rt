//! How large types, coercions and binders are.
ghost use Rattle.std.specs.Prelude.{◌≡◌, IfOk};
ghost use Rattle.fc_syntax.specs.View.{ty_of, tys_of, co_of, cos_of, binder_of, binders_of};
ghost use Rattle.fc_syntax.specs.Measures.{binder_depth, binder_size, binders_depth, binders_size, co_depth, co_size, cos_depth, cos_size, lambda_count, ty_depth, ty_size, tys_depth, tys_size, value_count};

use crate::measures::{Measures, NOTHING, around, beside};
use fc_syntax::{Memory, NBinder, NCo, NTy};

/// How large a type is; it has no nodes.
#[tactic(auto, using(fc_syntax::proofs::View::view_rules))]
pub(crate) fn of_type(t: &NTy) -> Result<Measures, Memory>
    ensures nodes { IfOk result (λ m. m.nodes ≡ 0) }
    ensures size { IfOk result (λ m. m.size ≡ ty_size (ty_of t.now)) }
    ensures depth { IfOk result (λ m. m.depth ≡ ty_depth (ty_of t.now)) }
{
    match t {
        NTy::Var(_) => around(0, NOTHING),
        NTy::Con(_) => around(0, NOTHING),
        NTy::IntHash => around(0, NOTHING),
        NTy::App(t, u) => {
            let t = of_type(t)?;
            let u = of_type(u)?;
            around(0, beside(t, u)?)
        }
        NTy::Fun(t, u) => {
            let t = of_type(t)?;
            let u = of_type(u)?;
            around(0, beside(t, u)?)
        }
        NTy::Forall(_, _, body) => around(0, of_type(body)?),
        NTy::CoForall(_, left, right, body) => {
            let left = of_type(left)?;
            let right = of_type(right)?;
            let body = of_type(body)?;
            around(0, beside(left, beside(right, body)?)?)
        }
    }
}

/// How large types are together.
pub(crate) fn of_types(items: &[NTy]) -> Result<Measures, Memory>
    ensures nodes { IfOk result (λ m. m.nodes ≡ 0) }
    ensures size { IfOk result (λ m. m.size ≡ tys_size (tys_of items.now)) }
    ensures depth { IfOk result (λ m. m.depth ≡ tys_depth (tys_of items.now)) }
{
    let mut all = NOTHING;
    for x in items {
        all = beside(all, of_type(x)?)?;
    }
    Ok(all)
}

/// How large a coercion is; it has no nodes.
#[cycle(coercions)]
#[tactic(auto, using(fc_syntax::proofs::View::view_rules))]
pub(crate) fn of_coercion(g: &NCo) -> Result<Measures, Memory>
    ensures nodes { IfOk result (λ m. m.nodes ≡ 0) }
    ensures size { IfOk result (λ m. m.size ≡ co_size (co_of g.now)) }
    ensures depth { IfOk result (λ m. m.depth ≡ co_depth (co_of g.now)) }
{
    match g {
        NCo::Var(_) => around(0, NOTHING),
        NCo::Refl(_, t) => around(0, of_type(t)?),
        NCo::Sym(g) => around(0, of_coercion(g)?),
        NCo::Trans(g, h) => {
            let g = of_coercion(g)?;
            let h = of_coercion(h)?;
            around(0, beside(g, h)?)
        }
        NCo::Tc(_, _, parts) => around(0, of_coercions(parts.as_slice())?),
        NCo::Capp(g, h) => {
            let g = of_coercion(g)?;
            let h = of_coercion(h)?;
            around(0, beside(g, h)?)
        }
        NCo::FunCo(g, h) => {
            let g = of_coercion(g)?;
            let h = of_coercion(h)?;
            around(0, beside(g, h)?)
        }
        NCo::AllCo(_, _, g) => around(0, of_coercion(g)?),
        NCo::CoAllCo(_, _, f, g, h) => {
            let f = of_coercion(f)?;
            let g = of_coercion(g)?;
            let h = of_coercion(h)?;
            around(0, beside(f, beside(g, h)?)?)
        }
        NCo::Inst(g, h) => {
            let g = of_coercion(g)?;
            let h = of_coercion(h)?;
            around(0, beside(g, h)?)
        }
        NCo::Nth(_, g) => around(0, of_coercion(g)?),
        NCo::Left(g) => around(0, of_coercion(g)?),
        NCo::Right(g) => around(0, of_coercion(g)?),
        NCo::Sub(g) => around(0, of_coercion(g)?),
        NCo::Ax(_, parts) => around(0, of_coercions(parts.as_slice())?),
        NCo::Univ(left, right) => {
            let left = of_type(left)?;
            let right = of_type(right)?;
            around(0, beside(left, right)?)
        }
    }
}

/// How large coercions are together.
#[cycle(coercions)]
fn of_coercions(items: &[NCo]) -> Result<Measures, Memory>
    ensures nodes { IfOk result (λ m. m.nodes ≡ 0) }
    ensures size { IfOk result (λ m. m.size ≡ cos_size (cos_of items.now)) }
    ensures depth { IfOk result (λ m. m.depth ≡ cos_depth (cos_of items.now)) }
{
    let mut all = NOTHING;
    for x in items {
        all = beside(all, of_coercion(x)?)?;
    }
    Ok(all)
}

/// How large a binder is; it counts a node where it binds a term or a coercion.
pub(crate) fn of_binder(b: &NBinder) -> Result<Measures, Memory>
    ensures nodes { IfOk result (λ m. m.nodes ≡ lambda_count (binder_of b.now)) }
    ensures size { IfOk result (λ m. m.size ≡ binder_size (binder_of b.now)) }
    ensures depth { IfOk result (λ m. m.depth ≡ binder_depth (binder_of b.now)) }
{
    match b {
        NBinder::Value(_, t) => around(1, of_type(t)?),
        NBinder::OfType(_, _) => around(0, NOTHING),
        NBinder::OfCo(_, _, left, right) => {
            let left = of_type(left)?;
            let right = of_type(right)?;
            around(1, beside(left, right)?)
        }
    }
}

/// How large binders are together.
pub(crate) fn of_binders(items: &[NBinder]) -> Result<Measures, Memory>
    ensures nodes { IfOk result (λ m. m.nodes ≡ value_count (binders_of items.now)) }
    ensures size { IfOk result (λ m. m.size ≡ binders_size (binders_of items.now)) }
    ensures depth { IfOk result (λ m. m.depth ≡ binders_depth (binders_of items.now)) }
{
    let mut all = NOTHING;
    for x in items {
        all = beside(all, of_binder(x)?)?;
    }
    Ok(all)
}
