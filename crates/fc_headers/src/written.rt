//! A nameless module under the header that is written.
ghost use Rattle.std.specs.Prelude.{◌≡◌, ◌++◌, IfOk, OnOk};
ghost use Rattle.fc_model.specs.Declaring.{ndeclared_words};
ghost use Rattle.fc_model.specs.Headers.{others, words_but};
ghost use Rattle.fc_model.specs.NamelessView.{ndecls_of, nmodule_of};
ghost use Rattle.fc_model.specs.WordSets.{set_of};
ghost use Rattle.fc_headers.specs.NamelessHeaders.{form_written_among, hidden_of_form, imports_of_form};

use crate::mentioned::modules_mentioned;
use fc_model::{WordSet, words_declared};
use fc_syntax::{Memory, NDecl, NModule, Seq, Text, copy_words};
use std::alloc::Global;

/// Puts each word that is not in the set behind others, once.
fn push_others(
    alloc: Global,
    words: &[Text],
    seen: &mut WordSet,
    out: &mut Seq<Text>,
) -> Result<(), Memory>
    ensures { OnOk result (out.new ≡ out.old ++ others (set_of seen.old) words.now) }
{
    for word in words {
        if !seen.has(word) {
            seen.add(alloc, word)?;
            out.push(word.copy(alloc)?)?;
        }
    }
    Ok(())
}

/// Puts the words that are in the first set and not in the second behind others.
fn push_chosen(
    alloc: Global,
    words: &[Text],
    chosen: &WordSet,
    but: &WordSet,
    out: &mut Seq<Text>,
) -> Result<(), Memory>
    ensures { OnOk result (out.new ≡ out.old ++ words_but (set_of chosen.now) (set_of but.now) words.now) }
{
    for word in words {
        if chosen.has(word) && !but.has(word) {
            out.push(word.copy(alloc)?)?;
        }
    }
    Ok(())
}

/// The words that declarations declare.
fn words_of(alloc: Global, decls: &[NDecl]) -> Result<Seq<Text>, Memory>
    ensures { IfOk result (λ s. s ≡ ndeclared_words (ndecls_of decls.now)) }
{
    words_declared(alloc, decls)
}

/// The hidden names that are written: those of the module and then every other word that it declares and does not export, in their order.
fn hidden_names(alloc: Global, m: &NModule) -> Result<Seq<Text>, Memory>
    ensures { IfOk result (λ words. words ≡ hidden_of_form (nmodule_of m.now)) }
{
    let mut seen = WordSet::new(alloc);
    seen.add_all(alloc, m.exports.as_slice())?;
    seen.add_all(alloc, m.hidden.as_slice())?;
    let words = words_of(alloc, m.decls.as_slice())?;
    let mut hidden = copy_words(alloc, m.hidden.as_slice())?;
    push_others(alloc, words.as_slice(), &mut seen, &mut hidden)?;
    Ok(hidden)
}

/// The imports that are written: those of the module and then every other module that it mentions, in the order of `order`.
fn imports(alloc: Global, order: &[Text], m: &NModule) -> Result<Seq<Text>, Memory>
    ensures { IfOk result (λ words. words ≡ imports_of_form order.now (nmodule_of m.now)) }
{
    let mentioned = modules_mentioned(alloc, m.decls.as_slice())?;
    let mut known = WordSet::new(alloc);
    known.add(alloc, &m.name)?;
    known.add_all(alloc, m.imports.as_slice())?;
    let mut imports = copy_words(alloc, m.imports.as_slice())?;
    push_chosen(alloc, order, &mentioned, &known, &mut imports)?;
    Ok(imports)
}

/// A module under the header that is written, among modules of these names in the order in which they are built: its imports are those that it has and then every
/// other module that it mentions, in that order; its hidden names those that it has and then every other word that it declares and does not export, in their order. Its
/// declarations are not copied. Fails only where memory runs out; the module is gone then.
pub fn form_written(alloc: Global, order: &[Text], m: NModule) -> Result<NModule, Memory>
    ensures form { IfOk result (λ w. nmodule_of w ≡ form_written_among order.now (nmodule_of m)) }
    ensures declarations { IfOk result (λ w. w.decls ≡ m.decls) }
{
    let imports = imports(alloc, order, &m)?;
    let hidden = hidden_names(alloc, &m)?;
    let NModule {
        name,
        imports: _,
        exports,
        hidden: _,
        decls,
    } = m;
    Ok(NModule {
        name,
        imports,
        exports,
        hidden,
        decls,
    })
}
