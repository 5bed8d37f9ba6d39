//! Whether declarations and modules are scoped.
ghost use Rattle.std.specs.Prelude.{◌≡◌, IfOk};
ghost use Rattle.fc_model.specs.DeclaredWords.{top_by};
ghost use Rattle.fc_model.specs.NamelessView.{ncon_of, ncons_of, ndecl_of, ndecls_of, nmodule_of};
ghost use Rattle.fc_used_words.specs.Around.{counts_of};
ghost use Rattle.fc_used_words.specs.Scoped.{in_parameters, nothing_around};
ghost use Rattle.fc_scoped.specs.Testing.{con_scoped, cons_scoped, decl_scoped, decls_scoped, scoped};

use crate::expressions::expr;
use crate::types::{binders, in_binders, ty, tys};
use crate::words::are_words_distinct;
use fc_model::Declared;
use fc_syntax::{Memory, NConDecl, NDecl, NModule};
use fc_used_words::Inside;
use std::alloc::Global;

/// Below the parameters of a declaration.
fn in_parameters<X>(params: &[X]) -> Result<Inside, Memory>
    ensures { IfOk result (λ k. counts_of k ≡ in_parameters params.now nothing_around) }
{
    let mut inner = Inside::new();
    for param in params {
        inner = inner.in_type()?;
    }
    Ok(inner)
}

/// Whether each name in a constructor means something.
fn con(top: &Declared, c: &NConDecl, around: Inside) -> Result<bool, Memory>
    ensures { IfOk result (λ b. b ≡ con_scoped (top_by top.now) (counts_of around) (ncon_of c.now)) }
{
    let bound = c.binders.as_slice();
    Ok(binders(top, bound, around)? && tys(top, c.fields.as_slice(), in_binders(around, bound)?)?)
}

/// Whether each name in constructors means something.
fn cons(top: &Declared, items: &[NConDecl], around: Inside) -> Result<bool, Memory>
    ensures { IfOk result (λ b. b ≡ cons_scoped (top_by top.now) (counts_of around) (ncons_of items.now)) }
{
    for c in items {
        if !con(top, c, around)? {
            return Ok(false);
        }
    }
    Ok(true)
}

/// Whether each name in a declaration means something.
#[tactic(auto, using(crate::proofs::Parameters::as_many_around))]
fn decl(top: &Declared, d: &NDecl) -> Result<bool, Memory>
    ensures { IfOk result (λ b. b ≡ decl_scoped (top_by top.now) (ndecl_of d.now)) }
{
    match d {
        NDecl::DataType(_, params, items) => {
            cons(top, items.as_slice(), in_parameters(params.as_slice())?)
        }
        NDecl::NewType(_, params, t, _) => ty(top, t, in_parameters(params.as_slice())?),
        NDecl::Family(_, _, _) => Ok(true),
        NDecl::Axiom(_, params, t, u) => {
            let around = in_parameters(params.as_slice())?;
            Ok(ty(top, t, around)? && ty(top, u, around)?)
        }
        NDecl::Def(_, t, e) | NDecl::Wrap(_, t, e) => {
            Ok(ty(top, t, Inside::new())? && expr(top, e, Inside::new())?)
        }
    }
}

/// Whether each name in declarations means something.
fn decls(top: &Declared, items: &[NDecl]) -> Result<bool, Memory>
    ensures { IfOk result (λ b. b ≡ decls_scoped (top_by top.now) (ndecls_of items.now)) }
{
    for d in items {
        if !decl(top, d)? {
            return Ok(false);
        }
    }
    Ok(true)
}

/// Whether each name in a nameless module means something: words are declared once in each space, each distance reaches a binder, and each name is of the module itself, which
/// declares it, or of one that it imports. Fails only where memory runs out or a count has no 32 bits.
pub fn is_scoped(alloc: Global, m: &NModule) -> Result<bool, Memory>
    ensures { IfOk result (λ b. b ≡ scoped (nmodule_of m.now)) }
{
    if !are_words_distinct(alloc, m.decls.as_slice())? {
        return Ok(false);
    }
    let top = Declared::of_module(alloc, m)?;
    decls(&top, m.decls.as_slice())
}
