//! Declarations with words for their binders.
ghost use Rattle.std.specs.Prelude.{IfOk};
ghost use Rattle.fc_syntax.specs.View.{con_of, cons_of, decl_of, decls_of};
ghost use Rattle.fc_model.specs.DeclaredWords.{top_by};
ghost use Rattle.fc_scope.specs.ScopeWords.{locals_of};
ghost use Rattle.fc_naming.specs.Declarations.{IsNamedCon, IsNamedCons, IsNamedDecl, IsNamedDecls};

use crate::binders::con_binders;
use crate::expressions::named_expr;
use crate::params::{own_params, own_plains};
use crate::types::{named_ty, named_tys};
use fc_model::Declared;
use fc_scope::Scope;
use fc_syntax::{ConDecl, Decl, Memory, NConDecl, NDecl, Seq};
use std::alloc::Global;

// CONSTRUCTORS

/// A constructor with words for its binders.
fn named_con<'x>(
    alloc: Global,
    con: &NConDecl,
    top: &Declared,
    scope: &'x Scope<'x>,
) -> Result<ConDecl, Memory>
    ensures { IfOk result (λ r. IsNamedCon (top_by top.now) (locals_of scope.now) (con_of con.now) (con_of r)) }
{
    let named = con_binders(alloc, con, top, &*scope)?;
    let inner = Scope::Binders(&named.words, &*scope);
    let fields = named_tys(alloc, con.fields.as_slice(), top, &inner)?;
    let name = con.name.copy(alloc)?;
    let binders = named.binders;
    Ok(ConDecl {
        name,
        binders,
        fields,
    })
}

/// Constructors in the scope of their type's parameters.
fn named_cons<'x>(
    alloc: Global,
    cons: &[NConDecl],
    top: &Declared,
    scope: &'x Scope<'x>,
) -> Result<Seq<ConDecl>, Memory>
    ensures { IfOk result (λ r. IsNamedCons (top_by top.now) (locals_of scope.now) (cons_of cons.now) (cons_of r)) }
{
    let mut out = Seq::new(alloc);
    for con in cons {
        let next = named_con(alloc, con, top, &*scope)?;
        out.push(next)?;
    }
    Ok(out)
}

// DECLARATIONS

/// A declaration with words for its parameters and binders.
fn named_decl(alloc: Global, decl: &NDecl, top: &Declared) -> Result<Decl, Memory>
    ensures { IfOk result (λ r. IsNamedDecl (top_by top.now) (decl_of decl.now) (decl_of r)) }
{
    let none = Scope::End;
    match decl {
        NDecl::DataType(name, params, cons) => {
            let own = own_params(alloc, params.as_slice())?;
            let scope = Scope::Types(&own.names, &none);
            let cons = named_cons(alloc, cons.as_slice(), top, &scope)?;
            let name = name.copy(alloc)?;
            let params = own.params;
            Ok(Decl::DataType(name, params, cons))
        }
        NDecl::NewType(name, params, t, con) => {
            let own = own_params(alloc, params.as_slice())?;
            let scope = Scope::Types(&own.names, &none);
            let t = named_ty(alloc, t, top, &scope)?;
            let name = name.copy(alloc)?;
            let con = con.copy(alloc)?;
            let params = own.params;
            Ok(Decl::NewType(name, params, t, con))
        }
        NDecl::Family(name, params, kind) => {
            let own = own_plains(alloc, params.as_slice())?;
            let name = name.copy(alloc)?;
            let kind = kind.copy(alloc)?;
            let params = own.params;
            Ok(Decl::Family(name, params, kind))
        }
        NDecl::Axiom(name, params, t, u) => {
            let own = own_plains(alloc, params.as_slice())?;
            let scope = Scope::Types(&own.names, &none);
            let t = named_ty(alloc, t, top, &scope)?;
            let u = named_ty(alloc, u, top, &scope)?;
            let name = name.copy(alloc)?;
            let params = own.params;
            Ok(Decl::Axiom(name, params, t, u))
        }
        NDecl::Def(name, t, e) => {
            let t = named_ty(alloc, t, top, &none)?;
            let e = named_expr(alloc, e, top, &none)?;
            let name = name.copy(alloc)?;
            Ok(Decl::Def(name, t, e))
        }
        NDecl::Wrap(name, t, e) => {
            let t = named_ty(alloc, t, top, &none)?;
            let e = named_expr(alloc, e, top, &none)?;
            let name = name.copy(alloc)?;
            Ok(Decl::Wrap(name, t, e))
        }
    }
}

/// Declarations with words for their parameters and binders.
pub fn named_decls(alloc: Global, decls: &[NDecl], top: &Declared) -> Result<Seq<Decl>, Memory>
    ensures { IfOk result (λ r. IsNamedDecls (top_by top.now) (decls_of decls.now) (decls_of r)) }
{
    let mut out = Seq::new(alloc);
    for decl in decls {
        let next = named_decl(alloc, decl, top)?;
        out.push(next)?;
    }
    Ok(out)
}
