//! From names to distances: the nameless form of a module.
#![tactic(auto)]

mod alternatives;
mod constructors;
mod declarations;
mod expressions;
mod groups;

ghost use Rattle.std.specs.Prelude.{◌≡◌, Ok, IfOk};
ghost use Rattle.fc_syntax.specs.Hints as kept;
ghost use Rattle.fc_syntax.specs.View.{decls_of, module_of};
ghost use Rattle.fc_model.specs.DeclaredWords.{top_by, words_by_space};
ghost use Rattle.fc_model.specs.Faulting.{and_then};
ghost use Rattle.fc_model.specs.Nameless.{NModuleOf};
ghost use Rattle.fc_model.specs.NamelessView.{ndecls_of, nmodule_of};
ghost use Rattle.fc_model.specs.OfferViews.{offers_in};
ghost use Rattle.fc_model.specs.Resolution.{resolved_among, resolved_decls as decls_resolved, resolved_or_fault};
ghost use Rattle.fc_model.specs.Says.{Says};

use crate::declarations::resolved_decls;
pub use crate::expressions::resolved_expr;
use fc_model::{Declared, Flawed, Offers, Spaces};
use fc_syntax::{Memory, Module, NDecl, NModule, Seq, copy_words};
use std::alloc::Global;

/// A module's header before declarations.
fn assembled(alloc: Global, m: &Module, decls: Seq<NDecl>) -> Result<NModule, Memory>
    ensures form { IfOk result (λ n. nmodule_of n ≡ NModuleOf m.now.name m.now.imports m.now.exports m.now.hidden (ndecls_of decls)) }
    ensures words { IfOk result (λ n. kept.module_hints (module_of n) ≡ kept.decls_hints (decls_of decls)) }
{
    let name = m.name.copy(alloc)?;
    let imports = copy_words(alloc, m.imports.as_slice())?;
    let exports = copy_words(alloc, m.exports.as_slice())?;
    let hidden = copy_words(alloc, m.hidden.as_slice())?;
    Ok(NModule {
        name,
        imports,
        exports,
        hidden,
        decls,
    })
}

/// The nameless form of a module over what it declares and imports, behind the words of declarations before.
fn resolved_over(
    alloc: Global,
    top: &Declared,
    earlier: &mut Spaces,
    m: &Module,
) -> Result<NModule, Flawed>
    ensures form { Says nmodule_of result (and_then (decls_resolved (top_by top.now) (words_by_space earlier.old) (decls_of m.now.decls)) (λ ds. Ok (NModuleOf m.now.name m.now.imports m.now.exports m.now.hidden ds))) }
    ensures words { IfOk result (λ n. kept.module_hints (module_of n) ≡ kept.decls_hints (decls_of m.now.decls)) }
{
    let decls = resolved_decls(alloc, top, earlier, m.decls.as_slice())?;
    let whole = assembled(alloc, m, decls)?;
    Ok(whole)
}

/// The nameless form of a module. A word that is not in scope is `Unbound`, one that is bound twice in its space `Duplicate`: the
/// first of them in the order of the text is answered, with its declaration and the numbers of the parts on the way to it. Where
/// memory runs out nothing is known of the module.
pub fn resolve(alloc: Global, m: &Module) -> Result<NModule, Flawed>
    ensures form { Says nmodule_of result (resolved_or_fault (module_of m.now)) }
    ensures words { IfOk result (λ n. kept.module_hints (module_of n) ≡ kept.module_hints (module_of m.now)) }
{
    let top = Declared::of_module(alloc, m)?;
    let mut earlier = Spaces::new(alloc);
    resolved_over(alloc, &top, &mut earlier, m)
}

/// The nameless form of a module that names what these modules have for others: a name of an imported module that it does not have is
/// `NotExported`, where it stands; the other faults are those of `resolve`. What the modules have is handed back with the form; after a
/// fault, or where memory runs out, it is gone.
pub fn resolve_among(alloc: Global, m: &Module, offers: Offers) -> Result<(NModule, Offers), Flawed>
    ensures form { Says (λ p. nmodule_of p.0) result (resolved_among (offers_in offers) (module_of m.now)) }
    ensures offers { IfOk result (λ p. p.1 ≡ offers) }
    ensures words { IfOk result (λ p. kept.module_hints (module_of p.0) ≡ kept.module_hints (module_of m.now)) }
{
    let top = Declared::among(alloc, m, offers)?;
    let mut earlier = Spaces::new(alloc);
    match resolved_over(alloc, &top, &mut earlier, m) {
        Ok(form) => Ok((form, top.offers)),
        Err(flawed) => Err(flawed),
    }
}
