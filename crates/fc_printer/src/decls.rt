//! Prints declarations.
ghost use Rattle.std.specs.Prelude.{◌≡◌, ◌++◌, codes, OnOk};
ghost use Rattle.fc_syntax.specs.Tree.{DAxiom, DData, DDef, DFamily, DNew, DWrap};
ghost use Rattle.fc_syntax.specs.View.{con_of, cons_of, decl_of, decls_of, expr_of, kind_of, params_of, plains_of, ty_of};
ghost use Rattle.fc_model.specs.Pieces.{NoPieces, first_text, pieces_text, spaced_text};
ghost use Rattle.fc_model.specs.Spelling.{con_pieces, cons_pieces, params_pieces};
ghost use Rattle.fc_model.specs.Canonical.{decl_text, decls_text};

use crate::binders::{put_binders, put_params, put_plains};
use crate::exprs::put_last_expr;
use crate::kinds::put_next_kind;
use crate::types::{put_next_type, put_next_types};
use crate::words::put_word;
use fc_syntax::{ConDecl, Decl, Expr, Kind, Memory, Param, Plain, Text, Ty};

#[tactic(auto, using(std::proofs::lemmas::Grind::common_steps))]
fn put_con(c: &ConDecl, to: &mut Vec<u8>) -> Result<(), Memory>
    ensures { OnOk result (to.new.items ≡ to.old.items ++ first_text (con_pieces (con_of c.now) NoPieces)) }
{
    to.push(b'(')?;
    put_word(&c.name, to)?;
    to.extend_from_slice(b" (")?;
    put_binders(c.binders.as_slice(), to)?;
    to.push(b')')?;
    put_next_types(c.fields.as_slice(), to)?;
    to.push(b')')?;
    Ok(())
}

#[tactic(auto, using(crate::proofs::SpacedForms::next_con, std::proofs::lemmas::Grind::common_steps))]
fn put_next_cons(cons: &[ConDecl], to: &mut Vec<u8>) -> Result<(), Memory>
    ensures { OnOk result (to.new.items ≡ to.old.items ++ spaced_text (cons_pieces (cons_of cons.now) NoPieces)) }
{
    for c in cons {
        to.push(b' ')?;
        put_con(c, to)?;
    }
    Ok(())
}

// What is declared with its parameters, behind the text that opens it.
fn put_named_params(
    opening: &[u8],
    n: &Text,
    params: &[Param],
    to: &mut Vec<u8>,
) -> Result<(), Memory>
    ensures { OnOk result (to.new.items ≡ to.old.items ++ (opening.now ++ (n.now ++ (codes " (" ++ (pieces_text (params_pieces (params_of params.now) NoPieces) ++ codes ")"))))) }
{
    to.extend_from_slice(opening)?;
    put_word(n, to)?;
    to.extend_from_slice(b" (")?;
    put_params(params, to)?;
    to.push(b')')?;
    Ok(())
}

fn put_data(n: &Text, params: &[Param], cons: &[ConDecl], to: &mut Vec<u8>) -> Result<(), Memory>
    ensures { OnOk result (to.new.items ≡ to.old.items ++ decl_text (DData n.now (params_of params.now) (cons_of cons.now))) }
{
    put_named_params(b"(data ", n, params, to)?;
    put_next_cons(cons, to)?;
    to.push(b')')?;
    Ok(())
}

#[tactic(auto, using(crate::proofs::Spaced::part_rules))]
fn put_new_type(
    n: &Text,
    params: &[Param],
    t: &Ty,
    c: &Text,
    to: &mut Vec<u8>,
) -> Result<(), Memory>
    ensures { OnOk result (to.new.items ≡ to.old.items ++ decl_text (DNew n.now (params_of params.now) (ty_of t.now) c.now)) }
{
    put_named_params(b"(newtype ", n, params, to)?;
    put_next_type(t, to)?;
    to.push(b' ')?;
    put_word(c, to)?;
    to.push(b')')?;
    Ok(())
}

fn put_family(n: &Text, plains: &[Plain], k: &Kind, to: &mut Vec<u8>) -> Result<(), Memory>
    ensures { OnOk result (to.new.items ≡ to.old.items ++ decl_text (DFamily n.now (plains_of plains.now) (kind_of k.now))) }
{
    to.extend_from_slice(b"(family ")?;
    put_word(n, to)?;
    to.extend_from_slice(b" (")?;
    put_plains(plains, to)?;
    to.push(b')')?;
    put_next_kind(k, to)?;
    to.push(b')')?;
    Ok(())
}

#[tactic(auto, using(crate::proofs::Spaced::type_rules))]
fn put_axiom(n: &Text, plains: &[Plain], t: &Ty, u: &Ty, to: &mut Vec<u8>) -> Result<(), Memory>
    ensures { OnOk result (to.new.items ≡ to.old.items ++ decl_text (DAxiom n.now (plains_of plains.now) (ty_of t.now) (ty_of u.now))) }
{
    to.extend_from_slice(b"(axiom ")?;
    put_word(n, to)?;
    to.extend_from_slice(b" (")?;
    put_plains(plains, to)?;
    to.push(b')')?;
    put_next_type(t, to)?;
    put_next_type(u, to)?;
    to.push(b')')?;
    Ok(())
}

#[tactic(auto, using(crate::proofs::Spaced::type_rules))]
fn put_def(x: &Text, t: &Ty, e: &Expr, to: &mut Vec<u8>) -> Result<(), Memory>
    ensures { OnOk result (to.new.items ≡ to.old.items ++ decl_text (DDef x.now (ty_of t.now) (expr_of e.now))) }
{
    to.extend_from_slice(b"(def ")?;
    put_word(x, to)?;
    put_next_type(t, to)?;
    put_last_expr(e, to)
}

#[tactic(auto, using(crate::proofs::Spaced::type_rules))]
fn put_wrap(x: &Text, t: &Ty, e: &Expr, to: &mut Vec<u8>) -> Result<(), Memory>
    ensures { OnOk result (to.new.items ≡ to.old.items ++ decl_text (DWrap x.now (ty_of t.now) (expr_of e.now))) }
{
    to.extend_from_slice(b"(wrap ")?;
    put_word(x, to)?;
    put_next_type(t, to)?;
    put_last_expr(e, to)
}

/// Appends the text of a declaration, on one line. Where memory runs out, the bytes before stand and a part of the text may
/// follow.
pub fn put_decl(d: &Decl, to: &mut Vec<u8>) -> Result<(), Memory>
    ensures { OnOk result (to.new.items ≡ to.old.items ++ decl_text (decl_of d.now)) }
{
    match d {
        Decl::DataType(n, params, cons) => put_data(n, params.as_slice(), cons.as_slice(), to),
        Decl::NewType(n, params, t, c) => put_new_type(n, params.as_slice(), t, c, to),
        Decl::Family(n, plains, k) => put_family(n, plains.as_slice(), k, to),
        Decl::Axiom(n, plains, t, u) => put_axiom(n, plains.as_slice(), t, u, to),
        Decl::Def(x, t, e) => put_def(x, t, e, to),
        Decl::Wrap(x, t, e) => put_wrap(x, t, e, to),
    }
}

// Each declaration on a line of its own after one space.
pub(crate) fn put_decls(decls: &[Decl], to: &mut Vec<u8>) -> Result<(), Memory>
    ensures { OnOk result (to.new.items ≡ to.old.items ++ decls_text (decls_of decls.now)) }
{
    for d in decls {
        to.extend_from_slice(b"\n ")?;
        put_decl(d, to)?;
    }
    Ok(())
}
