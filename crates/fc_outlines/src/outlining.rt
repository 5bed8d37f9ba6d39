//! Outlines of modules.
ghost use Rattle.std.specs.Prelude.{◌≡◌, IfOk, map};
ghost use Rattle.fc_model.specs.NamelessView.{ndecl_of, ndecls_of, nmodule_of, nmodules_of};
ghost use Rattle.fc_outlines.specs.Outlines.{outlined, outlined_all, outlined_decl};

use fc_copies::nameless::copy_decl;
use fc_syntax::{Memory, NDecl, NExpr, NModule, Seq, copy_words};
use std::alloc::Global;

/// A declaration with `0` in place of its right side, where it is a definition. The right side is not copied.
#[tactic(auto, using(fc_syntax::proofs::View::view_rules))]
fn outline_decl(alloc: Global, d: &NDecl) -> Result<NDecl, Memory>
    ensures { IfOk result (λ o. ndecl_of o ≡ outlined_decl (ndecl_of d.now)) }
{
    match d {
        NDecl::Def(name, t, _) => {
            let name = name.copy(alloc)?;
            let t = t.copy(alloc)?;
            Ok(NDecl::Def(name, t, NExpr::Lit(0)))
        }
        NDecl::Wrap(name, t, _) => {
            let name = name.copy(alloc)?;
            let t = t.copy(alloc)?;
            Ok(NDecl::Wrap(name, t, NExpr::Lit(0)))
        }
        NDecl::DataType(_, _, _)
        | NDecl::NewType(_, _, _, _)
        | NDecl::Family(_, _, _)
        | NDecl::Axiom(_, _, _, _) => copy_decl(alloc, d),
    }
}

/// Declarations with `0` in place of each right side.
fn outline_decls(alloc: Global, items: &[NDecl]) -> Result<Seq<NDecl>, Memory>
    ensures { IfOk result (λ s. ndecls_of s ≡ map outlined_decl (ndecls_of items.now)) }
{
    let mut all = Seq::new(alloc);
    for x in items {
        all.push(outline_decl(alloc, x)?)?;
    }
    Ok(all)
}

/// The outline of a module: its header and its declarations, with the literal `0` in place of the right side of each definition. Kinds, coercions and types are the same
/// among it as among the module. So a phase may change right sides and ask for types among the outline. It takes time and memory in what the module declares, and no
/// right side is copied. Fails only where memory runs out; then nothing is left.
pub fn outline(alloc: Global, m: &NModule) -> Result<NModule, Memory>
    ensures { IfOk result (λ o. nmodule_of o ≡ outlined (nmodule_of m.now)) }
{
    let name = m.name.copy(alloc)?;
    let imports = copy_words(alloc, m.imports.as_slice())?;
    let exports = copy_words(alloc, m.exports.as_slice())?;
    let hidden = copy_words(alloc, m.hidden.as_slice())?;
    let decls = outline_decls(alloc, m.decls.as_slice())?;
    Ok(NModule {
        name,
        imports,
        exports,
        hidden,
        decls,
    })
}

/// The outlines of modules, in their order. Fails only where memory runs out; then nothing is left.
pub fn outlines(alloc: Global, modules: &[NModule]) -> Result<Vec<NModule>, Memory>
    ensures { IfOk result (λ os. nmodules_of os.items ≡ outlined_all (nmodules_of modules.now)) }
{
    let mut all = Vec::new(alloc);
    for m in modules {
        all.push(outline(alloc, m)?)?;
    }
    Ok(all)
}
