//! The modules that expressions and declarations of the nameless tree mention.
ghost use Rattle.std.specs.Prelude.{◌≡◌, IfOk, OnOk};
ghost use Rattle.fc_model.specs.Mentioning.{in_head as spec_in_head};
ghost use Rattle.fc_model.specs.NamelessView.{nalts_of, narg_of, nargs_of, nbinds_of, ncons_of, ndecl_of, ndecls_of, nexpr_of, nexprs_of, njoins_of};
ghost use Rattle.std.specs.List.{flat_map};
ghost use Rattle.fc_model.specs.Resolution.{no_word, plus_all};
ghost use Rattle.fc_model.specs.WordSets.{set_of};
ghost use Rattle.fc_headers.specs.NamelessHeaders.{modules_in_alts, modules_in_arg, modules_in_args, modules_in_binds, modules_in_constructor, modules_in_decl, modules_in_decls, modules_in_expr, modules_in_exprs, modules_in_joins};

use crate::types::{in_binder, in_binders, in_coercion, in_name, in_type, in_types};
use fc_model::WordSet;
use fc_syntax::{Head, Memory, NAlt, NArg, NBind, NConDecl, NDecl, NExpr, NJoinBind, Ref};
use std::alloc::Global;

// EXPRESSIONS

/// Puts the module in of the constructor that an alternative is for.
fn in_head(alloc: Global, head: &Head, to: &mut WordSet) -> Result<(), Memory>
    ensures { OnOk result (set_of to.new ≡ plus_all (spec_in_head head.now) (set_of to.old)) }
{
    match head {
        Head::Con(name) => in_name(alloc, name, to),
        Head::Lit(_) => Ok(()),
        Head::Default => Ok(()),
    }
}

/// Puts the modules in that an expression mentions.
#[cycle(expressions)]
#[tactic(auto, using(fc_syntax::proofs::View::view_rules, crate::proofs::WordSteps::word_rules))]
fn in_expression(alloc: Global, e: &NExpr, to: &mut WordSet) -> Result<(), Memory>
    ensures { OnOk result (set_of to.new ≡ plus_all (modules_in_expr (nexpr_of e.now)) (set_of to.old)) }
{
    match e {
        NExpr::Var(Ref::Local(_)) => Ok(()),
        NExpr::Var(Ref::Top(name)) => in_name(alloc, name, to),
        NExpr::Lit(_) => Ok(()),
        NExpr::App(f, a) => {
            in_expression(alloc, f, to)?;
            in_argument(alloc, a, to)
        }
        NExpr::Lam(binder, e) => {
            in_binder(alloc, binder, to)?;
            in_expression(alloc, e, to)
        }
        NExpr::Let(_, binds, e) => {
            in_binds(alloc, binds.as_slice(), to)?;
            in_expression(alloc, e, to)
        }
        NExpr::Case(e, _, t, u, alts) => {
            in_expression(alloc, e, to)?;
            in_type(alloc, t, to)?;
            in_type(alloc, u, to)?;
            in_alternatives(alloc, alts.as_slice(), to)
        }
        NExpr::Cast(e, g) => {
            in_expression(alloc, e, to)?;
            in_coercion(alloc, g, to)
        }
        NExpr::Con(name, args) => {
            in_name(alloc, name, to)?;
            in_arguments(alloc, args.as_slice(), to)
        }
        NExpr::Prim(_, operands) => in_expressions(alloc, operands.as_slice(), to),
        NExpr::Fail(t) => in_type(alloc, t, to),
        NExpr::Join(_, t, joins, e) => {
            in_type(alloc, t, to)?;
            in_join_points(alloc, joins.as_slice(), to)?;
            in_expression(alloc, e, to)
        }
        NExpr::Jump(_, args) => in_arguments(alloc, args.as_slice(), to),
    }
}

/// Puts the modules in that an argument mentions.
#[cycle(expressions)]
#[tactic(auto, using(fc_syntax::proofs::View::view_rules))]
fn in_argument(alloc: Global, a: &NArg, to: &mut WordSet) -> Result<(), Memory>
    ensures { OnOk result (set_of to.new ≡ plus_all (modules_in_arg (narg_of a.now)) (set_of to.old)) }
{
    match a {
        NArg::Term(e) => in_expression(alloc, e, to),
        NArg::OfType(t) => in_type(alloc, t, to),
        NArg::OfCo(g) => in_coercion(alloc, g, to),
    }
}

/// Puts the modules in that arguments mention.
#[cycle(expressions)]
fn in_arguments(alloc: Global, items: &[NArg], to: &mut WordSet) -> Result<(), Memory>
    ensures { OnOk result (set_of to.new ≡ plus_all (modules_in_args (nargs_of items.now)) (set_of to.old)) }
{
    for x in items {
        in_argument(alloc, x, to)?;
    }
    Ok(())
}

/// Puts the modules in that expressions mention.
#[cycle(expressions)]
fn in_expressions(alloc: Global, items: &[NExpr], to: &mut WordSet) -> Result<(), Memory>
    ensures { OnOk result (set_of to.new ≡ plus_all (modules_in_exprs (nexprs_of items.now)) (set_of to.old)) }
{
    for x in items {
        in_expression(alloc, x, to)?;
    }
    Ok(())
}

/// Puts the modules in that the binds of a let mention.
#[cycle(expressions)]
fn in_binds(alloc: Global, items: &[NBind], to: &mut WordSet) -> Result<(), Memory>
    ensures { OnOk result (set_of to.new ≡ plus_all (modules_in_binds (nbinds_of items.now)) (set_of to.old)) }
{
    for x in items {
        in_type(alloc, &x.ty, to)?;
        in_expression(alloc, &x.rhs, to)?;
    }
    Ok(())
}

/// Puts the modules in that join points mention.
#[cycle(expressions)]
fn in_join_points(alloc: Global, items: &[NJoinBind], to: &mut WordSet) -> Result<(), Memory>
    ensures { OnOk result (set_of to.new ≡ plus_all (modules_in_joins (njoins_of items.now)) (set_of to.old)) }
{
    for x in items {
        in_binders(alloc, x.params.as_slice(), to)?;
        in_expression(alloc, &x.rhs, to)?;
    }
    Ok(())
}

/// Puts the modules in that alternatives mention.
#[cycle(expressions)]
fn in_alternatives(alloc: Global, items: &[NAlt], to: &mut WordSet) -> Result<(), Memory>
    ensures { OnOk result (set_of to.new ≡ plus_all (modules_in_alts (nalts_of items.now)) (set_of to.old)) }
{
    for x in items {
        in_head(alloc, &x.head, to)?;
        in_binders(alloc, x.binders.as_slice(), to)?;
        in_expression(alloc, &x.body, to)?;
    }
    Ok(())
}

// DECLARATIONS

/// Puts the modules in that constructors mention.
fn in_constructors(alloc: Global, items: &[NConDecl], to: &mut WordSet) -> Result<(), Memory>
    ensures { OnOk result (set_of to.new ≡ plus_all (flat_map modules_in_constructor (ncons_of items.now)) (set_of to.old)) }
{
    for x in items {
        in_binders(alloc, x.binders.as_slice(), to)?;
        in_types(alloc, x.fields.as_slice(), to)?;
    }
    Ok(())
}

/// Puts the modules in that a declaration mentions.
#[tactic(auto, using(fc_syntax::proofs::View::view_rules, crate::proofs::WordSteps::word_rules))]
fn in_declaration(alloc: Global, decl: &NDecl, to: &mut WordSet) -> Result<(), Memory>
    ensures { OnOk result (set_of to.new ≡ plus_all (modules_in_decl (ndecl_of decl.now)) (set_of to.old)) }
{
    match decl {
        NDecl::DataType(_, _, cons) => in_constructors(alloc, cons.as_slice(), to),
        NDecl::NewType(_, _, t, _) => in_type(alloc, t, to),
        NDecl::Family(_, _, _) => Ok(()),
        NDecl::Axiom(_, _, left, right) => {
            in_type(alloc, left, to)?;
            in_type(alloc, right, to)
        }
        NDecl::Def(_, t, e) | NDecl::Wrap(_, t, e) => {
            in_type(alloc, t, to)?;
            in_expression(alloc, e, to)
        }
    }
}

/// The modules that declarations mention. Fails only where memory runs out.
pub(crate) fn modules_mentioned(alloc: Global, decls: &[NDecl]) -> Result<WordSet, Memory>
    ensures { IfOk result (λ s. set_of s ≡ plus_all (modules_in_decls (ndecls_of decls.now)) no_word) }
{
    let mut to = WordSet::new(alloc);
    for decl in decls {
        in_declaration(alloc, decl, &mut to)?;
    }
    Ok(to)
}
