//! Modules with their names put back.
ghost use Rattle.std.specs.Prelude.{◌≡◌, IfErr, IfOk, OnOk, option_map};
ghost use Rattle.fc_syntax.specs.View.{module_of};
ghost use Rattle.fc_model.specs.DeclaredWords.{top_by};
ghost use Rattle.fc_model.specs.Formed.{IsFormed};
ghost use Rattle.fc_model.specs.NamelessView.{nmodule_of};
ghost use Rattle.fc_model.specs.ResolutionRules.{Resolves};
ghost use Rattle.fc_formed.specs.FormedTrees.{IsFormedModule};
ghost use Rattle.fc_used_words.specs.Scoped.{IsScoped};
ghost use Rattle.fc_naming.specs.Declarations.{IsNamedBack, IsNamedModule};
ghost use Rattle.fc_naming.specs.declared.error.NotNamed.TheVariants.{Unscoped};

use crate::declarations::named_decls;
use crate::error::NotNamed;
use fc_model::Declared;
use fc_scoped::is_scoped;
use fc_syntax::{Memory, Module, NModule, copy_words};
use std::alloc::Global;

/// A module with words for the parameters and binders in it, where this is what it declares and imports.
fn named_module(alloc: Global, m: &NModule, top: &Declared) -> Result<Module, Memory>
    ensures { IfOk result (λ r. IsNamedModule (top_by top.now) (module_of m.now) (module_of r)) }
{
    let decls = named_decls(alloc, m.decls.as_slice(), top)?;
    let name = m.name.copy(alloc)?;
    let imports = copy_words(alloc, m.imports.as_slice())?;
    let exports = copy_words(alloc, m.exports.as_slice())?;
    let hidden = copy_words(alloc, m.hidden.as_slice())?;
    Ok(Module {
        name,
        imports,
        exports,
        hidden,
        decls,
    })
}

/// The named module in which a nameless one is written, and none where that is not scoped.
fn named_if_scoped(alloc: Global, m: &NModule) -> Result<Option<Module>, Memory>
    ensures { IfOk result (λ r. IsNamedBack (module_of m.now) (option_map module_of r)) }
{
    if !is_scoped(alloc, m)? {
        return Ok(None);
    }
    let top = Declared::of_module(alloc, m)?;
    let named = named_module(alloc, m, &top)?;
    Ok(Some(named))
}

/// The named module in which a nameless one is written: each binder has the word that it was read with, or `x` where that is no word that a
/// binder may have in a text, or one of these with a number where the word would hide one that is used in its scope, or where another binder
/// beside it has it. It is one of the text form, if the nameless one is, whatever the words of its binders. Fails with `Unscoped` exactly where the module is not scoped, memory aside.
pub fn name_back(alloc: Global, m: &NModule) -> Result<Module, NotNamed>
    ensures scoped { OnOk result (IsScoped (nmodule_of m.now)) }
    ensures resolves { IfOk result (λ r. Resolves (module_of r) (nmodule_of m.now)) }
    ensures formed { IfOk result (λ r. IsFormedModule (nmodule_of m.now) → IsFormed (module_of r)) }
    ensures unscoped { IfErr result (λ e. e ≡ Unscoped → IsScoped (nmodule_of m.now) → ⊥) }
{
    match named_if_scoped(alloc, m) {
        Ok(Some(named)) => Ok(named),
        Ok(None) => Err(NotNamed::Unscoped),
        Err(_) => Err(NotNamed::Memory),
    }
}
