//! What an interface tells of the definitions of a module.
ghost use Rattle.std.specs.Prelude.{◌≡◌, ◌-◌, ◌^◌, ◌<◌, ◌++◌, Bool, IfOk, List, OnOk};
ghost use Rattle.fc_syntax.specs.Tree.{DDef, EFail};
ghost use Rattle.fc_syntax.specs.View.{decl_of, decls_of, module_of, ty_of};
ghost use Rattle.fc_lattice.specs.View.{as_interface, sigs_of};
ghost use Rattle.fc_graph.specs.Graphs.{is_marked};
ghost use Rattle.fc_iface.specs.Interfaces as spec;
ghost use Rattle.fc_iface.specs.Interfaces.{are_told, decl_told, decls_told, if_definition, interface_of};

use fc_copies::named::copy_decl;
use fc_lattice::{Interface, Sig};
use fc_measures::nodes;
use fc_syntax::{Decl, Expr, Memory, Module, Seq, Text, Ty, copy_words};
use std::alloc::Global;

/// Whether this number is marked; a number without a mark is not.
fn has_mark(marks: &[bool], number: usize) -> bool
    ensures { result ≡ is_marked marks.now number }
{
    match marks.get(number) {
        Some(marked) => *marked,
        None => false,
    }
}

/// Whether the right side of a declaration is told, by whether the declaration reaches itself.
fn is_told(decl: &Decl, recursive: bool, grow: u64) -> bool
    requires { grow < 2 ^ 64 - 1 }
    ensures { result ≡ spec.is_told grow recursive (decl_of decl.now) }
{
    match decl {
        Decl::Def(_, _, e) => !recursive && nodes(e, grow + 1) <= grow,
        Decl::Wrap(_, _, e) => nodes(e, grow + 1) <= grow,
        _ => false,
    }
}

/// A definition of this type that fails.
#[tactic(auto, using(fc_syntax::proofs::View::view_rules))]
fn failing(alloc: Global, name: &Text, t: &Ty) -> Result<Decl, Memory>
    ensures { IfOk result (λ d. decl_of d ≡ DDef name.now (ty_of t.now) (EFail (ty_of t.now))) }
{
    let name = name.copy(alloc)?;
    let right = Expr::Fail(t.copy(alloc)?);
    Ok(Decl::Def(name, t.copy(alloc)?, right))
}

/// A declaration as the interface has it.
fn told(alloc: Global, decl: &Decl, is_told: bool) -> Result<Decl, Memory>
    ensures { IfOk result (λ d. decl_of d ≡ decl_told is_told (decl_of decl.now)) }
{
    match decl {
        Decl::Def(name, t, _) if !is_told => failing(alloc, name, t),
        Decl::Wrap(name, t, _) if !is_told => failing(alloc, name, t),
        _ => copy_decl(alloc, decl),
    }
}

/// Puts whether the right side of a declaration is told behind what is known of others, where the declaration is a definition.
fn add_told(decl: &Decl, is_told: bool, known: &mut Seq<bool>) -> Result<(), Memory>
    ensures { OnOk result ((rest : List Bool) → known.new ++ rest ≡ known.old ++ if_definition (decl_of decl.now) is_told rest) }
{
    match decl {
        Decl::Def(_, _, _) => known.push(is_told),
        Decl::Wrap(_, _, _) => known.push(is_told),
        _ => Ok(()),
    }
}

/// Declarations as the interface has them, and for each definition among them whether its right side is told.
fn all_told(
    alloc: Global,
    decls: &[Decl],
    marks: &[bool],
    grow: u64,
) -> Result<(Seq<Decl>, Seq<bool>), Memory>
    requires { grow < 2 ^ 64 - 1 }
    ensures decls { IfOk result (λ r. decls_of r.0 ≡ decls_told grow marks.now 0 (decls_of decls.now)) }
    ensures told { IfOk result (λ r. r.1 ≡ are_told grow marks.now 0 (decls_of decls.now)) }
{
    let mut all = Seq::new(alloc);
    let mut known = Seq::new(alloc);
    for number in 0..decls.len() {
        let decl = &decls[number];
        let is_told = is_told(decl, has_mark(marks, number), grow);
        add_told(decl, is_told, &mut known)?;
        all.push(told(alloc, decl, is_told)?)?;
    }
    Ok((all, known))
}

/// The same signatures again.
fn copy_sigs(alloc: Global, sigs: &[Sig]) -> Result<Seq<Sig>, Memory>
    ensures { IfOk result (λ ss. sigs_of ss ≡ sigs_of sigs.now) }
{
    let mut all = Seq::new(alloc);
    for sig in sigs {
        all.push(sig.copy(alloc)?)?;
    }
    Ok(all)
}

/// The interface of a module with a signature for each of its definitions (the interface files of GHC). The right side is told of each
/// `wrap`, and of each `def` that does not reach itself, if it has at most `grow` nodes. Fails only where memory runs out.
///
/// `recursive` has for each declaration whether it is a definition that reaches itself, as `fc_reaching::recursive` answers it; a declaration
/// behind its end counts as one that does not. The signatures are handed on as they are: where there is not one for each definition, what comes
/// of it is not formed. Condition: `grow` is less than 2^64 - 1, so that nodes can be counted to one more.
pub fn interface(
    alloc: Global,
    m: &Module,
    recursive: &[bool],
    sigs: &[Sig],
    grow: u64,
) -> Result<Interface, Memory>
    requires { grow < 2 ^ 64 - 1 }
    ensures { IfOk result (λ i. as_interface i ≡ interface_of grow recursive.now (module_of m.now) (sigs_of sigs.now)) }
{
    let (decls, unfold) = all_told(alloc, m.decls.as_slice(), recursive, grow)?;
    let module = Module {
        name: m.name.copy(alloc)?,
        imports: copy_words(alloc, m.imports.as_slice())?,
        exports: copy_words(alloc, m.exports.as_slice())?,
        hidden: copy_words(alloc, m.hidden.as_slice())?,
        decls,
    };
    Ok(Interface {
        module,
        sigs: copy_sigs(alloc, sigs)?,
        unfold,
    })
}
