//! The definitions of a module that one reaches.
ghost use Rattle.std.specs.Prelude.{◌≡◌, [], ◌∷◌, ◌++◌, IfOk, OnOk};
ghost use Rattle.std.specs.List.{filter, filter_map};
ghost use Rattle.fc_model.specs.NamelessView.{ndecl_of, ndecls_of, nmodule_of};
ghost use Rattle.fc_reaching.specs.DefinitionsView.{meant_by, number_by};
ghost use Rattle.fc_reaching.specs.Numbering.{AreFound, has_mark, meant_in, mention_graph, names_of_decl};
ghost use Rattle.fc_reaching.specs.Reaching.{AreReached, decls_in, defined_words};

use crate::definitions::Definitions;
use crate::mentions::mention_decl;
use fc_graph::reached;
use fc_syntax::{Memory, NDecl, NModule, Seq, Text};
use std::alloc::Global;

/// The numbers of the definitions that the right side of a declaration mentions, each as often as it does.
fn mentions_in(alloc: Global, definitions: &Definitions, decl: &NDecl) -> Result<Seq<usize>, Memory>
    ensures { IfOk result (λ found. found ≡ filter_map (meant_by definitions.now) (names_of_decl (ndecl_of decl.now))) }
{
    let mut found = Seq::new(alloc);
    mention_decl(definitions, decl, &mut found)?;
    Ok(found)
}

/// The numbers of the definitions that each declaration mentions.
pub(crate) fn graph_of(
    alloc: Global,
    definitions: &Definitions,
    decls: &[NDecl],
) -> Result<Seq<Seq<usize>>, Memory>
    ensures { IfOk result (λ graph. graph ≡ mention_graph (meant_by definitions.now) (ndecls_of decls.now)) }
{
    let mut graph = Seq::new(alloc);
    for decl in decls {
        graph.push(mentions_in(alloc, definitions, decl)?)?;
    }
    Ok(graph)
}

/// For each declaration of a module, the numbers of the definitions that its right side mentions, each as often as it does; none for a declaration that is no definition. Fails only where
/// memory runs out.
pub fn mentions_of_each(alloc: Global, m: &NModule) -> Result<Seq<Seq<usize>>, Memory>
    ensures { IfOk result (λ graph. graph ≡ mention_graph (meant_in (nmodule_of m.now)) (decls_in (nmodule_of m.now))) }
{
    let definitions = Definitions::new(alloc, m)?;
    graph_of(alloc, &definitions, m.decls.as_slice())
}

/// Whether the definition of a word is marked.
pub(crate) fn is_found(definitions: &Definitions, marks: &[bool], word: &Text) -> bool
    ensures { result ≡ has_mark (number_by definitions.now) marks.now word.now }
{
    match definitions.number_at(word.as_str()) {
        Some(number) => match marks.get(number) {
            Some(marked) => *marked,
            None => false,
        },
        None => false,
    }
}

/// Puts a word behind the others, if its definition is marked.
fn add_word(
    alloc: Global,
    definitions: &Definitions,
    marks: &[bool],
    word: &Text,
    words: &mut Seq<Text>,
) -> Result<(), Memory>
    ensures { OnOk result (words.new ≡ words.old ++ filter (has_mark (number_by definitions.now) marks.now) (word.now ∷ [])) }
{
    if is_found(definitions, marks, word) {
        words.push(word.copy(alloc)?)
    } else {
        Ok(())
    }
}

/// Puts the word of a declaration behind the others, if it is a definition and the first of its word is marked.
fn add_decl(
    alloc: Global,
    definitions: &Definitions,
    marks: &[bool],
    decl: &NDecl,
    words: &mut Seq<Text>,
) -> Result<(), Memory>
    ensures { OnOk result (words.new ≡ words.old ++ filter (has_mark (number_by definitions.now) marks.now) (defined_words (ndecl_of decl.now ∷ []))) }
{
    match decl {
        NDecl::DataType(_, _, _) => Ok(()),
        NDecl::NewType(_, _, _, _) => Ok(()),
        NDecl::Family(_, _, _) => Ok(()),
        NDecl::Axiom(_, _, _, _) => Ok(()),
        NDecl::Def(word, _, _) => add_word(alloc, definitions, marks, word, words),
        NDecl::Wrap(word, _, _) => add_word(alloc, definitions, marks, word, words),
    }
}

/// The words of the definitions that are marked, in declared order.
fn words_found(
    alloc: Global,
    definitions: &Definitions,
    marks: &[bool],
    decls: &[NDecl],
) -> Result<Seq<Text>, Memory>
    ensures { IfOk result (λ words. words ≡ filter (has_mark (number_by definitions.now) marks.now) (defined_words (ndecls_of decls.now))) }
{
    let mut words = Seq::new(alloc);
    for decl in decls {
        add_decl(alloc, definitions, marks, decl, &mut words)?;
    }
    Ok(words)
}

/// The words of the definitions that the one of a number leads to.
fn words_from(
    alloc: Global,
    definitions: &Definitions,
    decls: &[NDecl],
    from: usize,
) -> Result<Seq<Text>, Memory>
    ensures { IfOk result (AreFound (meant_by definitions.now) (number_by definitions.now) (ndecls_of decls.now) from) }
{
    let graph = graph_of(alloc, definitions, decls)?;
    let marks = reached(alloc, graph.as_slice(), from)?;
    words_found(alloc, definitions, marks.as_slice(), decls)
}

/// The definitions of a module that one reaches, each by its word, in the order in which they are declared: those that its right side
/// mentions, those that theirs mention, and so on; itself only where a chain of mentions comes back to it. Fails only where memory
/// runs out.
pub fn reaches(alloc: Global, m: &NModule, from: &str) -> Result<Seq<Text>, Memory>
    ensures { IfOk result (λ words. AreReached (nmodule_of m.now) from.now words) }
{
    let definitions = Definitions::new(alloc, m)?;
    match definitions.number_at(from) {
        Some(number) => words_from(alloc, &definitions, m.decls.as_slice(), number),
        None => Ok(Seq::new(alloc)),
    }
}
