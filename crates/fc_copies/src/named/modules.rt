//! Copies of modules and of what they declare, of the named tree.
ghost use Rattle.std.specs.Prelude.{◌≡◌, IfOk};
ghost use Rattle.fc_syntax.specs.View.{decl_of, decls_of, module_of};

use super::expressions::copy_expr;
use crate::constructors::copy_cons;
use fc_syntax::{Decl, Memory, Module, Seq, copy_params, copy_plains, copy_words};
use std::alloc::Global;

/// The same declaration again. Fails only where memory runs out.
pub fn copy_decl(alloc: Global, d: &Decl) -> Result<Decl, Memory>
    ensures { IfOk result (λ r. decl_of r ≡ decl_of d.now) }
{
    match d {
        Decl::DataType(name, params, cons) => {
            let name = name.copy(alloc)?;
            let params = copy_params(alloc, params.as_slice())?;
            let cons = copy_cons(alloc, cons.as_slice())?;
            Ok(Decl::DataType(name, params, cons))
        }
        Decl::NewType(name, params, t, con) => {
            let name = name.copy(alloc)?;
            let params = copy_params(alloc, params.as_slice())?;
            let t = t.copy(alloc)?;
            let con = con.copy(alloc)?;
            Ok(Decl::NewType(name, params, t, con))
        }
        Decl::Family(name, params, kind) => {
            let name = name.copy(alloc)?;
            let params = copy_plains(alloc, params.as_slice())?;
            let kind = kind.copy(alloc)?;
            Ok(Decl::Family(name, params, kind))
        }
        Decl::Axiom(name, params, left, right) => {
            let name = name.copy(alloc)?;
            let params = copy_plains(alloc, params.as_slice())?;
            let left = left.copy(alloc)?;
            let right = right.copy(alloc)?;
            Ok(Decl::Axiom(name, params, left, right))
        }
        Decl::Def(name, t, e) => {
            let name = name.copy(alloc)?;
            let t = t.copy(alloc)?;
            let e = copy_expr(alloc, e)?;
            Ok(Decl::Def(name, t, e))
        }
        Decl::Wrap(name, t, e) => {
            let name = name.copy(alloc)?;
            let t = t.copy(alloc)?;
            let e = copy_expr(alloc, e)?;
            Ok(Decl::Wrap(name, t, e))
        }
    }
}

/// The same module again. Fails only where memory runs out.
pub fn copy_module(alloc: Global, m: &Module) -> Result<Module, Memory>
    ensures { IfOk result (λ r. module_of r ≡ module_of m.now) }
{
    let name = m.name.copy(alloc)?;
    let imports = copy_words(alloc, m.imports.as_slice())?;
    let exports = copy_words(alloc, m.exports.as_slice())?;
    let hidden = copy_words(alloc, m.hidden.as_slice())?;
    let decls = copy_decls(alloc, m.decls.as_slice())?;
    Ok(Module {
        name,
        imports,
        exports,
        hidden,
        decls,
    })
}

#[tactic(auto, using(std::proofs::lemmas::List::map_push, std::proofs::lemmas::Grind::common_steps))]
fn copy_decls(alloc: Global, items: &[Decl]) -> Result<Seq<Decl>, Memory>
    ensures { IfOk result (λ s. decls_of s ≡ decls_of items.now) }
{
    let mut all = Seq::new(alloc);
    for x in items {
        all.push(copy_decl(alloc, x)?)?;
    }
    Ok(all)
}
