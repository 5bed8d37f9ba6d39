//! The definitions of a module that count.
ghost use Rattle.std.specs.Prelude.{◌≡◌, IfOk};
ghost use Rattle.fc_model.specs.NamelessView.{ndecl_of, ndecls_of, nmodule_of};
ghost use Rattle.fc_reaching.specs.DefinitionsView.{number_by};
ghost use Rattle.fc_reaching.specs.Firsts.{AreFirst, defines_first, firsts_from};

use crate::definitions::Definitions;
use fc_syntax::{Memory, NDecl, NModule};
use std::alloc::Global;

/// Whether the declaration of a number is the first definition of its word.
fn is_first(definitions: &Definitions, decl: &NDecl, number: usize) -> bool
    ensures { result ≡ defines_first (number_by definitions.now) number (ndecl_of decl.now) }
{
    let found = match decl {
        NDecl::DataType(_, _, _) | NDecl::NewType(_, _, _, _) => None,
        NDecl::Family(_, _, _) | NDecl::Axiom(_, _, _, _) => None,
        NDecl::Def(word, _, _) => definitions.number_at(word.as_str()),
        NDecl::Wrap(word, _, _) => definitions.number_at(word.as_str()),
    };
    match found {
        Some(first) => first == number,
        None => false,
    }
}

/// For each declaration, whether it is the first definition of its word.
fn firsts_among(
    alloc: Global,
    definitions: &Definitions,
    decls: &[NDecl],
) -> Result<Vec<bool>, Memory>
    ensures { IfOk result (λ marks. marks.items ≡ firsts_from (number_by definitions.now) 0 (ndecls_of decls.now)) }
{
    let mut marks = Vec::new(alloc);
    for (number, decl) in decls.iter().enumerate() {
        marks.push(is_first(definitions, decl, number))?;
    }
    Ok(marks)
}

/// For each declaration of a module, in declared order, whether it is the first definition of its word. Takes time in declarations. Fails only where memory runs out.
pub fn first_definitions(alloc: Global, m: &NModule) -> Result<Vec<bool>, Memory>
    ensures { IfOk result (λ marks. AreFirst (nmodule_of m.now) marks.items) }
{
    let definitions = Definitions::new(alloc, m)?;
    firsts_among(alloc, &definitions, m.decls.as_slice())
}
