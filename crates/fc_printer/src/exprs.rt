//! Prints expressions.
ghost use Rattle.std.specs.Prelude.{◌≡◌, ◌++◌, codes, if◌then◌else◌, OnOk};
ghost use Rattle.fc_syntax.specs.Tree as tree;
ghost use Rattle.fc_syntax.specs.Tree.{ECon, EFail, EJump, EPrim};
ghost use Rattle.fc_syntax.specs.View.{arg_of, args_of, binds_of, co_of, expr_of, exprs_of, joins_of, ty_of};
ghost use Rattle.fc_model.specs.Pieces.{NoPieces, first_text, pieces_text, spaced_text};
ghost use Rattle.fc_model.specs.Spelling.{Alone, AsHead, Binders, Body, arg_pieces, args_pieces, binds_pieces, co_pieces, expr_pieces, exprs_pieces, joins_pieces, type_pieces};
ghost use Rattle.fc_model.specs.Canonical.{expr_text};

use crate::alternatives::{put_binds, put_case, put_joins, put_next_binds, put_next_joins};
use crate::binders::{put_binder, put_next_binder};
use crate::coercions::put_next_co;
use crate::types::put_next_type;
use crate::words::{put_literal, put_name, put_operator, put_word};
use fc_syntax::{Arg, Bind, Co, Expr, JoinBind, Memory, Name, PrimOp, Text, Ty};

/// Appends the text of an expression. Where memory runs out, the bytes before stand and a part of the text may follow.
#[cycle(exprs)]
#[tactic(auto, using(crate::proofs::SpacedForms::expr_rules))]
pub fn put_expr(e: &Expr, to: &mut Vec<u8>) -> Result<(), Memory>
    ensures { OnOk result (to.new.items ≡ to.old.items ++ expr_text (expr_of e.now)) }
{
    match e {
        Expr::Var(n) => put_name(n, to),
        Expr::Lit(n) => put_literal(*n, to),
        Expr::App(f, a) => {
            to.extend_from_slice(b"(app")?;
            put_next_head(f, to)?;
            put_last_arg(a, to)
        }
        Expr::Lam(b, e) => {
            to.extend_from_slice(b"(lam (")?;
            put_binder(b, to)?;
            put_body(e, to)
        }
        Expr::Let(r, binds, e) => {
            put_let(binds.as_slice(), *r, to)?;
            put_last_expr(e, to)
        }
        Expr::Case(e, x, t, u, alts) => {
            to.extend_from_slice(b"(case")?;
            put_next_expr(e, to)?;
            put_case(alts.as_slice(), x, t, u, to)
        }
        Expr::Cast(e, g) => {
            to.extend_from_slice(b"(cast")?;
            put_next_expr(e, to)?;
            put_last_co(g, to)
        }
        Expr::Con(n, args) => put_con(args.as_slice(), n, to),
        Expr::Prim(o, es) => put_prim(es.as_slice(), *o, to),
        Expr::Fail(t) => put_fail(t, to),
        Expr::Join(r, t, joins, e) => {
            put_join_group(joins.as_slice(), *r, t, to)?;
            put_last_expr(e, to)
        }
        Expr::Jump(j, args) => put_jump(args.as_slice(), j, to),
    }
}

#[cycle(exprs)]
#[tactic(auto, using(crate::proofs::SpacedForms::next_expr_rules))]
pub(crate) fn put_next_expr(e: &Expr, to: &mut Vec<u8>) -> Result<(), Memory>
    ensures { OnOk result (to.new.items ≡ to.old.items ++ spaced_text (expr_pieces Alone (expr_of e.now) NoPieces)) }
{
    to.push(b' ')?;
    put_expr(e, to)
}

// The last part of a form, and the bracket behind it.
#[cycle(exprs)]
#[tactic(auto, using(crate::proofs::SpacedForms::next_expr_rules))]
pub(crate) fn put_last_expr(e: &Expr, to: &mut Vec<u8>) -> Result<(), Memory>
    ensures { OnOk result (to.new.items ≡ to.old.items ++ (spaced_text (expr_pieces Alone (expr_of e.now) NoPieces) ++ codes ")")) }
{
    to.push(b' ')?;
    put_expr(e, to)?;
    to.push(b')')?;
    Ok(())
}

fn put_last_co(g: &Co, to: &mut Vec<u8>) -> Result<(), Memory>
    ensures { OnOk result (to.new.items ≡ to.old.items ++ (spaced_text (co_pieces (co_of g.now) NoPieces) ++ codes ")")) }
{
    put_next_co(g, to)?;
    to.push(b')')?;
    Ok(())
}

// The head of an application: its own arguments stand before those that follow.
#[cycle(exprs)]
#[tactic(auto, using(crate::proofs::SpacedForms::expr_rules))]
fn put_next_head(e: &Expr, to: &mut Vec<u8>) -> Result<(), Memory>
    ensures { OnOk result (to.new.items ≡ to.old.items ++ spaced_text (expr_pieces AsHead (expr_of e.now) NoPieces)) }
{
    match e {
        Expr::App(f, a) => {
            put_next_head(f, to)?;
            put_next_arg(a, to)
        }
        Expr::Var(_)
        | Expr::Lit(_)
        | Expr::Lam(_, _)
        | Expr::Let(_, _, _)
        | Expr::Case(_, _, _, _, _)
        | Expr::Cast(_, _)
        | Expr::Con(_, _)
        | Expr::Prim(_, _)
        | Expr::Fail(_)
        | Expr::Join(_, _, _, _)
        | Expr::Jump(_, _) => put_next_expr(e, to),
    }
}

// The body of a lambda: the binders of a lambda in it go on with those before.
#[cycle(exprs)]
#[tactic(auto, using(crate::proofs::SpacedForms::body_rules))]
fn put_body(e: &Expr, to: &mut Vec<u8>) -> Result<(), Memory>
    ensures { OnOk result (to.new.items ≡ to.old.items ++ (spaced_text (expr_pieces Binders (expr_of e.now) NoPieces) ++ (codes ")" ++ (spaced_text (expr_pieces Body (expr_of e.now) NoPieces) ++ codes ")")))) }
{
    match e {
        Expr::Lam(b, e) => {
            put_next_binder(b, to)?;
            put_body(e, to)
        }
        Expr::Var(_)
        | Expr::Lit(_)
        | Expr::App(_, _)
        | Expr::Let(_, _, _)
        | Expr::Case(_, _, _, _, _)
        | Expr::Cast(_, _)
        | Expr::Con(_, _)
        | Expr::Prim(_, _)
        | Expr::Fail(_)
        | Expr::Join(_, _, _, _)
        | Expr::Jump(_, _) => {
            to.push(b')')?;
            put_last_expr(e, to)
        }
    }
}

// What a let has before its body.
#[cycle(exprs)]
fn put_let(binds: &[Bind], r: bool, to: &mut Vec<u8>) -> Result<(), Memory>
    ensures { OnOk result (to.new.items ≡ to.old.items ++ (if r then codes "(letrec (" ++ (pieces_text (binds_pieces (binds_of binds.now) NoPieces) ++ codes ")") else codes "(let" ++ spaced_text (binds_pieces (binds_of binds.now) NoPieces))) }
{
    if r {
        to.extend_from_slice(b"(letrec (")?;
        put_binds(binds, to)?;
        to.push(b')')?;
        Ok(())
    } else {
        to.extend_from_slice(b"(let")?;
        put_next_binds(binds, to)
    }
}

// What join points have before the expression that may jump to them.
#[cycle(exprs)]
fn put_join_group(joins: &[JoinBind], r: bool, t: &Ty, to: &mut Vec<u8>) -> Result<(), Memory>
    ensures { OnOk result (to.new.items ≡ to.old.items ++ (if r then codes "(joinrec" ++ (spaced_text (type_pieces Alone (ty_of t.now) NoPieces) ++ (codes " (" ++ (pieces_text (joins_pieces (joins_of joins.now) NoPieces) ++ codes ")"))) else codes "(join" ++ (spaced_text (type_pieces Alone (ty_of t.now) NoPieces) ++ spaced_text (joins_pieces (joins_of joins.now) NoPieces)))) }
{
    if r {
        to.extend_from_slice(b"(joinrec")?;
        put_next_type(t, to)?;
        to.extend_from_slice(b" (")?;
        put_joins(joins, to)?;
        to.push(b')')?;
        Ok(())
    } else {
        to.extend_from_slice(b"(join")?;
        put_next_type(t, to)?;
        put_next_joins(joins, to)
    }
}

fn put_fail(t: &Ty, to: &mut Vec<u8>) -> Result<(), Memory>
    ensures { OnOk result (to.new.items ≡ to.old.items ++ expr_text (EFail (ty_of t.now))) }
{
    to.extend_from_slice(b"(fail")?;
    put_next_type(t, to)?;
    to.push(b')')?;
    Ok(())
}

#[cycle(exprs)]
fn put_con(args: &[Arg], n: &Name, to: &mut Vec<u8>) -> Result<(), Memory>
    ensures { OnOk result (to.new.items ≡ to.old.items ++ expr_text (ECon n.now (args_of args.now))) }
{
    to.extend_from_slice(b"(con ")?;
    put_name(n, to)?;
    put_next_args(args, to)?;
    to.push(b')')?;
    Ok(())
}

#[cycle(exprs)]
fn put_jump(args: &[Arg], j: &Text, to: &mut Vec<u8>) -> Result<(), Memory>
    ensures { OnOk result (to.new.items ≡ to.old.items ++ expr_text (EJump j.now (args_of args.now))) }
{
    to.extend_from_slice(b"(jump ")?;
    put_word(j, to)?;
    put_next_args(args, to)?;
    to.push(b')')?;
    Ok(())
}

#[cycle(exprs)]
fn put_prim(es: &[Expr], o: PrimOp, to: &mut Vec<u8>) -> Result<(), Memory>
    ensures { OnOk result (to.new.items ≡ to.old.items ++ expr_text (EPrim o (exprs_of es.now))) }
{
    to.extend_from_slice(b"(prim ")?;
    put_operator(o, to)?;
    put_next_exprs(es, to)?;
    to.push(b')')?;
    Ok(())
}

#[cycle(exprs)]
#[tactic(auto, using(crate::proofs::SpacedForms::next_expr, std::proofs::lemmas::Grind::common_steps))]
fn put_next_exprs(es: &[Expr], to: &mut Vec<u8>) -> Result<(), Memory>
    ensures { OnOk result (to.new.items ≡ to.old.items ++ spaced_text (exprs_pieces (exprs_of es.now) NoPieces)) }
{
    for e in es {
        put_next_expr(e, to)?;
    }
    Ok(())
}

#[cycle(exprs)]
#[tactic(auto, using(crate::proofs::SpacedForms::next_arg, std::proofs::lemmas::Grind::common_steps))]
fn put_next_args(args: &[Arg], to: &mut Vec<u8>) -> Result<(), Memory>
    ensures { OnOk result (to.new.items ≡ to.old.items ++ spaced_text (args_pieces (args_of args.now) NoPieces)) }
{
    for a in args {
        put_next_arg(a, to)?;
    }
    Ok(())
}

#[cycle(exprs)]
fn put_next_arg(a: &Arg, to: &mut Vec<u8>) -> Result<(), Memory>
    ensures { OnOk result (to.new.items ≡ to.old.items ++ spaced_text (arg_pieces (arg_of a.now) NoPieces)) }
{
    match a {
        Arg::Term(e) => put_next_expr(e, to),
        Arg::OfType(t) => put_type_arg(t, to),
        Arg::OfCo(g) => put_co_arg(g, to),
    }
}

#[cycle(exprs)]
fn put_last_arg(a: &Arg, to: &mut Vec<u8>) -> Result<(), Memory>
    ensures { OnOk result (to.new.items ≡ to.old.items ++ (spaced_text (arg_pieces (arg_of a.now) NoPieces) ++ codes ")")) }
{
    put_next_arg(a, to)?;
    to.push(b')')?;
    Ok(())
}

#[tactic(auto, using(std::proofs::lemmas::Grind::common_steps))]
fn put_type_arg(t: &Ty, to: &mut Vec<u8>) -> Result<(), Memory>
    ensures { OnOk result (to.new.items ≡ to.old.items ++ spaced_text (arg_pieces (tree.AType (ty_of t.now)) NoPieces)) }
{
    to.extend_from_slice(b" (type")?;
    put_next_type(t, to)?;
    to.push(b')')?;
    Ok(())
}

#[tactic(auto, using(std::proofs::lemmas::Grind::common_steps))]
fn put_co_arg(g: &Co, to: &mut Vec<u8>) -> Result<(), Memory>
    ensures { OnOk result (to.new.items ≡ to.old.items ++ spaced_text (arg_pieces (tree.ACo (co_of g.now)) NoPieces)) }
{
    to.extend_from_slice(b" (co")?;
    put_next_co(g, to)?;
    to.push(b')')?;
    Ok(())
}
