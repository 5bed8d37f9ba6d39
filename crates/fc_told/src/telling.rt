//! Modules as their interfaces tell them.
ghost use Rattle.std.specs.Prelude.{◌≡◌, IfOk, if◌then◌else◌};
ghost use Rattle.fc_model.specs.Nameless.{NDef, NFail};
ghost use Rattle.fc_model.specs.NamelessView.{ndecl_of, ndecls_of, nmodule_of, nty_of};
ghost use Rattle.fc_rows.specs.Telling.{told_declarations, told_module};
ghost use Rattle.fc_told.specs.Marks.{first_mark, is_definition as defines, other_marks, untold_decl};

use fc_syntax::{Memory, NDecl, NExpr, NModule, NTy, Seq, Text};
use std::alloc::Global;

/// Whether the first of some marks is true, and the others.
fn next_mark(marks: &[bool]) -> (bool, &[bool])
    ensures first { result.0 ≡ first_mark marks.now }
    ensures others { result.1.now ≡ other_marks marks.now }
{
    match marks.split_first() {
        Some((first, others)) => (*first, others),
        None => (false, marks),
    }
}

/// Whether a declaration is a definition.
fn is_definition(decl: &NDecl) -> bool
    ensures { result ≡ defines (ndecl_of decl.now) }
{
    matches!(decl, NDecl::Def(_, _, _) | NDecl::Wrap(_, _, _))
}

/// The definition of a word that fails at its type.
#[tactic(auto, using(fc_syntax::proofs::View::view_rules))]
fn failing(alloc: Global, word: Text, t: NTy) -> Result<NDecl, Memory>
    ensures { IfOk result (λ d. ndecl_of d ≡ NDef word (nty_of t) (NFail (nty_of t))) }
{
    let e = NExpr::Fail(t.copy(alloc)?);
    Ok(NDecl::Def(word, t, e))
}

/// A declaration without its right side: a definition fails at its type.
#[tactic(auto, using(fc_syntax::proofs::View::view_rules))]
fn untold(alloc: Global, decl: NDecl) -> Result<NDecl, Memory>
    ensures { IfOk result (λ d. ndecl_of d ≡ untold_decl (ndecl_of decl)) }
{
    match decl {
        NDecl::Def(word, t, _) => failing(alloc, word, t),
        NDecl::Wrap(word, t, _) => failing(alloc, word, t),
        other => Ok(other),
    }
}

/// A definition with its right side, if that is told, and else without it.
fn told_definition(alloc: Global, decl: NDecl, is_told: bool) -> Result<NDecl, Memory>
    ensures { IfOk result (λ d. ndecl_of d ≡ (if is_told then ndecl_of decl else untold_decl (ndecl_of decl))) }
{
    if is_told {
        Ok(decl)
    } else {
        untold(alloc, decl)
    }
}

/// Declarations with the right sides that are told.
fn told_decls(alloc: Global, decls: Seq<NDecl>, marks: &[bool]) -> Result<Seq<NDecl>, Memory>
    ensures { IfOk result (λ ds. ndecls_of ds ≡ told_declarations marks.now (ndecls_of decls)) }
{
    let mut all = Seq::new(alloc);
    let mut marks = marks;
    for decl in decls.into_vec() {
        if is_definition(&decl) {
            let (is_told, others) = next_mark(marks);
            all.push(told_definition(alloc, decl, is_told)?)?;
            marks = others;
        } else {
            all.push(decl)?;
        }
    }
    Ok(all)
}

/// The module as its interface tells it: of its right sides those whose mark is true, where there is one mark for each definition, in declared order; a definition without a mark is not
/// told. One that is not told fails at its type. Nothing but these types is copied. Fails only where memory runs out; the module is gone then.
pub fn told(alloc: Global, m: NModule, marks: &[bool]) -> Result<NModule, Memory>
    ensures { IfOk result (λ n. nmodule_of n ≡ told_module marks.now (nmodule_of m)) }
{
    let NModule {
        name,
        imports,
        exports,
        hidden,
        decls,
    } = m;
    let decls = told_decls(alloc, decls, marks)?;
    Ok(NModule {
        name,
        imports,
        exports,
        hidden,
        decls,
    })
}
