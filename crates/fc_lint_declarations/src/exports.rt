//! That each exported and each hidden word is declared.
ghost use Rattle.std.specs.Prelude.{◌≡◌, IfOk};
ghost use Rattle.std.specs.List.{list_all};
ghost use Rattle.fc_model.specs.Declaring.{ndeclared_words};
ghost use Rattle.fc_model.specs.Linting.{done, exports_judged};
ghost use Rattle.fc_model.specs.NamelessView.{ndecls_of, nmodule_of};
ghost use Rattle.fc_model.specs.Resolution.{no_word, plus_all};
ghost use Rattle.fc_model.specs.Says.{Says};
ghost use Rattle.fc_model.specs.WordSets.{set_of};

use fc_model::{Flawed, WordSet, flaw_here, words_declared};
use fc_syntax::{FaultKind, Memory, NDecl, NModule, Text};
use std::alloc::Global;

/// The words that declarations declare, in any space.
#[tactic(auto, using(fc_model::proofs::Declares::bare_declared_words))]
fn declared_words(alloc: Global, decls: &[NDecl]) -> Result<WordSet, Memory>
    ensures { IfOk result (λ s. set_of s ≡ plus_all (ndeclared_words (ndecls_of decls.now)) no_word) }
{
    let words = words_declared(alloc, decls)?;
    let mut declared = WordSet::new(alloc);
    declared.add_all(alloc, words.as_slice())?;
    Ok(declared)
}

/// Whether each word is declared.
fn has_all(declared: &WordSet, words: &[Text]) -> bool
    ensures { result ≡ list_all (set_of declared.now) words.now }
{
    for word in words {
        if !declared.has(word) {
            return false;
        }
    }
    true
}

/// Exported and hidden words of a module: `ExportUnknown` where one has no declaration.
pub fn lint_exports(alloc: Global, m: &NModule) -> Result<(), Flawed>
    ensures { Says (λ _. done) result (exports_judged (nmodule_of m.now)) }
{
    let declared = declared_words(alloc, m.decls.as_slice())?;
    if has_all(&declared, m.exports.as_slice()) && has_all(&declared, m.hidden.as_slice()) {
        Ok(())
    } else {
        Err(flaw_here(alloc, FaultKind::ExportUnknown))
    }
}
