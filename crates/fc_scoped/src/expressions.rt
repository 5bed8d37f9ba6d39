//! Whether expressions are scoped.
ghost use Rattle.std.specs.Prelude.{◌≡◌, IfOk};
ghost use Rattle.fc_model.specs.DeclaredWords.{top_by};
ghost use Rattle.fc_model.specs.NamelessView.{nalts_of, narg_of, nargs_of, nbinds_of, nexpr_of, nexprs_of, njoins_of};
ghost use Rattle.fc_used_words.specs.Around.{counts_of};
ghost use Rattle.fc_scoped.specs.Testing.{alts_scoped, arg_scoped, args_scoped, binds_scoped, expr_scoped, exprs_scoped, head_scoped, joins_scoped};

use crate::types::{binder, binders, co, in_binders, name, ty};
use fc_model::Declared;
use fc_syntax::{Head, Memory, NAlt, NArg, NBind, NExpr, NJoinBind, Ref};
use fc_used_words::{Inside, in_binder, in_group, in_joins};

/// Whether the constructor that an alternative is for means something.
fn head(top: &Declared, h: &Head) -> bool
    ensures { result ≡ head_scoped (top_by top.now) h.now }
{
    match h {
        Head::Default => true,
        Head::Lit(_) => true,
        Head::Con(n) => name(top, &top.spaces.terms, n),
    }
}

/// Whether each name in an expression means something.
#[cycle(expressions)]
#[tactic(auto, using(fc_syntax::proofs::View::view_rules))]
pub(crate) fn expr(top: &Declared, e: &NExpr, around: Inside) -> Result<bool, Memory>
    ensures { IfOk result (λ b. b ≡ expr_scoped (top_by top.now) (counts_of around) (nexpr_of e.now)) }
{
    match e {
        NExpr::Var(Ref::Local(distance)) => Ok(*distance < around.values),
        NExpr::Var(Ref::Top(n)) => Ok(name(top, &top.spaces.terms, n)),
        NExpr::Lit(_) => Ok(true),
        NExpr::App(f, a) => Ok(expr(top, f, around)? && arg(top, a, around)?),
        NExpr::Lam(b, e) => Ok(binder(top, b, around)? && expr(top, e, in_binder(around, b)?)?),
        NExpr::Let(recursive, items, e) => {
            let inner = in_group(around, items.as_slice())?;
            let beside = if *recursive { inner } else { around };
            Ok(binds(top, items.as_slice(), beside)? && expr(top, e, inner)?)
        }
        NExpr::Case(e, _, t, u, items) => Ok(
            expr(top, e, around)?
                && ty(top, t, around)?
                && ty(top, u, around)?
                && alts(top, items.as_slice(), around.in_value()?)?,
        ),
        NExpr::Cast(e, g) => Ok(expr(top, e, around)? && co(top, g, around)?),
        NExpr::Con(n, items) => {
            Ok(name(top, &top.spaces.terms, n) && args(top, items.as_slice(), around)?)
        }
        NExpr::Prim(_, items) => exprs(top, items.as_slice(), around),
        NExpr::Fail(t) => ty(top, t, around),
        NExpr::Join(recursive, t, items, e) => {
            let inner = in_joins(around, items.as_slice())?;
            let beside = if *recursive { inner } else { around };
            Ok(ty(top, t, around)? && joins(top, items.as_slice(), beside)? && expr(top, e, inner)?)
        }
        NExpr::Jump(distance, items) => {
            Ok(*distance < around.joins && args(top, items.as_slice(), around)?)
        }
    }
}

/// Whether each name in an argument means something.
#[cycle(expressions)]
#[tactic(auto, using(fc_syntax::proofs::View::view_rules))]
fn arg(top: &Declared, a: &NArg, around: Inside) -> Result<bool, Memory>
    ensures { IfOk result (λ b. b ≡ arg_scoped (top_by top.now) (counts_of around) (narg_of a.now)) }
{
    match a {
        NArg::Term(e) => expr(top, e, around),
        NArg::OfType(t) => ty(top, t, around),
        NArg::OfCo(g) => co(top, g, around),
    }
}

/// Whether each name in arguments means something.
#[cycle(expressions)]
fn args(top: &Declared, items: &[NArg], around: Inside) -> Result<bool, Memory>
    ensures { IfOk result (λ b. b ≡ args_scoped (top_by top.now) (counts_of around) (nargs_of items.now)) }
{
    for a in items {
        if !arg(top, a, around)? {
            return Ok(false);
        }
    }
    Ok(true)
}

/// Whether each name in expressions means something.
#[cycle(expressions)]
fn exprs(top: &Declared, items: &[NExpr], around: Inside) -> Result<bool, Memory>
    ensures { IfOk result (λ b. b ≡ exprs_scoped (top_by top.now) (counts_of around) (nexprs_of items.now)) }
{
    for e in items {
        if !expr(top, e, around)? {
            return Ok(false);
        }
    }
    Ok(true)
}

/// Whether each name in the types and right sides of binds means something.
#[cycle(expressions)]
fn binds(top: &Declared, items: &[NBind], around: Inside) -> Result<bool, Memory>
    ensures { IfOk result (λ b. b ≡ binds_scoped (top_by top.now) (counts_of around) (nbinds_of items.now)) }
{
    for bind in items {
        if !ty(top, &bind.ty, around)? || !expr(top, &bind.rhs, around)? {
            return Ok(false);
        }
    }
    Ok(true)
}

/// Whether each name in join points means something.
#[cycle(expressions)]
fn joins(top: &Declared, items: &[NJoinBind], around: Inside) -> Result<bool, Memory>
    ensures { IfOk result (λ b. b ≡ joins_scoped (top_by top.now) (counts_of around) (njoins_of items.now)) }
{
    for join in items {
        let params = join.params.as_slice();
        if !binders(top, params, around)? || !expr(top, &join.rhs, in_binders(around, params)?)? {
            return Ok(false);
        }
    }
    Ok(true)
}

/// Whether each name in alternatives means something.
#[cycle(expressions)]
fn alts(top: &Declared, items: &[NAlt], around: Inside) -> Result<bool, Memory>
    ensures { IfOk result (λ b. b ≡ alts_scoped (top_by top.now) (counts_of around) (nalts_of items.now)) }
{
    for alt in items {
        let bound = alt.binders.as_slice();
        if !head(top, &alt.head) || !binders(top, bound, around)? {
            return Ok(false);
        }
        if !expr(top, &alt.body, in_binders(around, bound)?)? {
            return Ok(false);
        }
    }
    Ok(true)
}
