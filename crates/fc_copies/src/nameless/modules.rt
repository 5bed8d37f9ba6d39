//! Copies of modules and of what they declare, of the nameless tree.
ghost use Rattle.std.specs.Prelude.{◌≡◌, IfOk};
ghost use Rattle.fc_syntax.specs.View.{decl_of, decls_of, module_of};

use super::expressions::copy_expr;
use crate::constructors::copy_cons;
use fc_syntax::{Memory, NDecl, NModule, Seq, copy_params, copy_plains, copy_words};
use std::alloc::Global;

/// The same declaration again. Fails only where memory runs out.
pub fn copy_decl(alloc: Global, d: &NDecl) -> Result<NDecl, Memory>
    ensures { IfOk result (λ r. decl_of r ≡ decl_of d.now) }
{
    match d {
        NDecl::DataType(name, params, cons) => {
            let name = name.copy(alloc)?;
            let params = copy_params(alloc, params.as_slice())?;
            let cons = copy_cons(alloc, cons.as_slice())?;
            Ok(NDecl::DataType(name, params, cons))
        }
        NDecl::NewType(name, params, t, con) => {
            let name = name.copy(alloc)?;
            let params = copy_params(alloc, params.as_slice())?;
            let t = t.copy(alloc)?;
            let con = con.copy(alloc)?;
            Ok(NDecl::NewType(name, params, t, con))
        }
        NDecl::Family(name, params, kind) => {
            let name = name.copy(alloc)?;
            let params = copy_plains(alloc, params.as_slice())?;
            let kind = kind.copy(alloc)?;
            Ok(NDecl::Family(name, params, kind))
        }
        NDecl::Axiom(name, params, left, right) => {
            let name = name.copy(alloc)?;
            let params = copy_plains(alloc, params.as_slice())?;
            let left = left.copy(alloc)?;
            let right = right.copy(alloc)?;
            Ok(NDecl::Axiom(name, params, left, right))
        }
        NDecl::Def(name, t, e) => {
            let name = name.copy(alloc)?;
            let t = t.copy(alloc)?;
            let e = copy_expr(alloc, e)?;
            Ok(NDecl::Def(name, t, e))
        }
        NDecl::Wrap(name, t, e) => {
            let name = name.copy(alloc)?;
            let t = t.copy(alloc)?;
            let e = copy_expr(alloc, e)?;
            Ok(NDecl::Wrap(name, t, e))
        }
    }
}

/// The same module again. Fails only where memory runs out.
pub fn copy_module(alloc: Global, m: &NModule) -> Result<NModule, Memory>
    ensures { IfOk result (λ r. module_of r ≡ module_of m.now) }
{
    let name = m.name.copy(alloc)?;
    let imports = copy_words(alloc, m.imports.as_slice())?;
    let exports = copy_words(alloc, m.exports.as_slice())?;
    let hidden = copy_words(alloc, m.hidden.as_slice())?;
    let decls = copy_decls(alloc, m.decls.as_slice())?;
    Ok(NModule {
        name,
        imports,
        exports,
        hidden,
        decls,
    })
}

#[tactic(auto, using(std::proofs::lemmas::List::map_push, std::proofs::lemmas::Grind::common_steps))]
fn copy_decls(alloc: Global, items: &[NDecl]) -> Result<Seq<NDecl>, Memory>
    ensures { IfOk result (λ s. decls_of s ≡ decls_of items.now) }
{
    let mut all = Seq::new(alloc);
    for x in items {
        all.push(copy_decl(alloc, x)?)?;
    }
    Ok(all)
}
