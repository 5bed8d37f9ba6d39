//! The definitions of a module that none of some words reaches.
ghost use Rattle.std.specs.Prelude.{◌≡◌, [], ◌∷◌, ◌++◌, IfOk, OnOk, map};
ghost use Rattle.std.specs.List.{filter_map};
ghost use Rattle.fc_model.specs.NamelessView.{ndecl_of, ndecls_of, nmodule_of};
ghost use Rattle.fc_reaching.specs.DefinitionsView.{number_by};
ghost use Rattle.fc_reaching.specs.Numbering.{has_mark};
ghost use Rattle.fc_reaching.specs.Remaining.{AreUnreached, defines_other};

use crate::definitions::Definitions;
use crate::reaching::{graph_of, is_found};
use fc_graph::reached_from;
use fc_syntax::{Memory, NDecl, NModule, Seq};
use std::alloc::Global;

/// Puts the number of the definition of a word behind the others, if it has one.
fn add_number(definitions: &Definitions, word: &str, numbers: &mut Seq<usize>) -> Result<(), Memory>
    ensures { OnOk result (numbers.new ≡ numbers.old ++ filter_map (number_by definitions.now) (word.now ∷ [])) }
{
    match definitions.number_at(word) {
        Some(number) => numbers.push(number),
        None => Ok(()),
    }
}

/// The numbers of the definitions of some words, of those that have one.
fn numbers_at(
    alloc: Global,
    definitions: &Definitions,
    words: &[&str],
) -> Result<Seq<usize>, Memory>
    ensures { IfOk result (λ numbers. numbers ≡ filter_map (number_by definitions.now) (map (λ w. w.now) words.now)) }
{
    let mut numbers = Seq::new(alloc);
    for word in words {
        add_number(definitions, word, &mut numbers)?;
    }
    Ok(numbers)
}

/// Whether a declaration is a definition of a word whose first definition is not marked.
fn is_left(definitions: &Definitions, marks: &[bool], decl: &NDecl) -> bool
    ensures { result ≡ defines_other (has_mark (number_by definitions.now) marks.now) (ndecl_of decl.now) }
{
    match decl {
        NDecl::DataType(_, _, _) | NDecl::NewType(_, _, _, _) => false,
        NDecl::Family(_, _, _) | NDecl::Axiom(_, _, _, _) => false,
        NDecl::Def(word, _, _) => !is_found(definitions, marks, word),
        NDecl::Wrap(word, _, _) => !is_found(definitions, marks, word),
    }
}

/// For each declaration, whether it is a definition of a word whose first definition is not marked.
fn left_over(
    alloc: Global,
    definitions: &Definitions,
    marks: &[bool],
    decls: &[NDecl],
) -> Result<Vec<bool>, Memory>
    ensures { IfOk result (λ left. left.items ≡ map (defines_other (has_mark (number_by definitions.now) marks.now)) (ndecls_of decls.now)) }
{
    let mut left = Vec::new(alloc);
    for decl in decls {
        left.push(is_left(definitions, marks, decl))?;
    }
    Ok(left)
}

/// For each declaration of a module, in declared order, whether it is a definition whose word is none of these roots, and which none of
/// their definitions reaches. Of several definitions of one word the first counts for what it reaches, and all are told alike. A root that
/// the module does not define counts for nothing. Takes time in declarations, mentions and roots. Fails only where memory runs out.
pub fn unreached(alloc: Global, m: &NModule, roots: &[&str]) -> Result<Vec<bool>, Memory>
    ensures { IfOk result (λ marks. AreUnreached (nmodule_of m.now) (map (λ w. w.now) roots.now) marks.items) }
{
    let definitions = Definitions::new(alloc, m)?;
    let graph = graph_of(alloc, &definitions, m.decls.as_slice())?;
    let numbers = numbers_at(alloc, &definitions, roots)?;
    let marks = reached_from(alloc, graph.as_slice(), numbers.as_slice())?;
    left_over(alloc, &definitions, marks.as_slice(), m.decls.as_slice())
}
