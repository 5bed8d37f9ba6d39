//! The definitions that expressions mention.
ghost use Rattle.std.specs.Prelude.{◌∷◌, [], OnOk};
ghost use Rattle.fc_model.specs.NamelessView.{nalts_of, narg_of, nargs_of, nbinds_of, ndecl_of, nexpr_of, nexprs_of, njoins_of};
ghost use Rattle.fc_reaching.specs.DefinitionsView.{meant_by};
ghost use Rattle.fc_reaching.specs.Numbering.{AddsNames, names_of_decl};
ghost use Rattle.fc_reaching.specs.Reaching.{names_in, names_in_alts, names_in_arg, names_in_args, names_in_binds, names_in_exprs, names_in_joins};

use crate::definitions::Definitions;
use fc_syntax::{Memory, NAlt, NArg, NBind, NDecl, NExpr, NJoinBind, Name, Ref, Seq};

/// Puts the number of the definition that a name means behind the others, if it means one.
#[tactic(auto, using(crate::proofs::Mentioning::name_adds))]
fn mention_name(
    definitions: &Definitions,
    name: &Name,
    found: &mut Seq<usize>,
) -> Result<(), Memory>
    ensures { OnOk result (AddsNames (meant_by definitions.now) (name.now ∷ []) found.old found.new) }
{
    match definitions.number_of(name) {
        Some(number) => found.push(number),
        None => Ok(()),
    }
}

/// Puts the numbers of the definitions that an expression mentions behind the others, each as often as it does.
#[cycle(mentions)]
#[tactic(auto, using(fc_syntax::proofs::View::view_rules, crate::proofs::Mentioning::adds_none))]
pub(crate) fn mention_expr(
    definitions: &Definitions,
    e: &NExpr,
    found: &mut Seq<usize>,
) -> Result<(), Memory>
    ensures { OnOk result (AddsNames (meant_by definitions.now) (names_in (nexpr_of e.now)) found.old found.new) }
{
    match e {
        NExpr::Var(Ref::Local(_)) => Ok(()),
        NExpr::Var(Ref::Top(name)) => mention_name(definitions, name, found),
        NExpr::Lit(_) => Ok(()),
        NExpr::App(f, a) => {
            mention_expr(definitions, f, found)?;
            mention_arg(definitions, a, found)?;
            Ok(())
        }
        NExpr::Lam(_, e) => mention_expr(definitions, e, found),
        NExpr::Let(_, binds, e) => {
            mention_binds(definitions, binds.as_slice(), found)?;
            mention_expr(definitions, e, found)?;
            Ok(())
        }
        NExpr::Case(e, _, _, _, alts) => {
            mention_expr(definitions, e, found)?;
            mention_alts(definitions, alts.as_slice(), found)?;
            Ok(())
        }
        NExpr::Cast(e, _) => mention_expr(definitions, e, found),
        NExpr::Con(_, args) => mention_args(definitions, args.as_slice(), found),
        NExpr::Prim(_, es) => mention_exprs(definitions, es.as_slice(), found),
        NExpr::Fail(_) => Ok(()),
        NExpr::Join(_, _, joins, e) => {
            mention_joins(definitions, joins.as_slice(), found)?;
            mention_expr(definitions, e, found)?;
            Ok(())
        }
        NExpr::Jump(_, args) => mention_args(definitions, args.as_slice(), found),
    }
}

#[cycle(mentions)]
#[tactic(auto, using(fc_syntax::proofs::View::view_rules, crate::proofs::Mentioning::adds_none))]
fn mention_arg(definitions: &Definitions, arg: &NArg, found: &mut Seq<usize>) -> Result<(), Memory>
    ensures { OnOk result (AddsNames (meant_by definitions.now) (names_in_arg (narg_of arg.now)) found.old found.new) }
{
    match arg {
        NArg::Term(e) => mention_expr(definitions, e, found),
        NArg::OfType(_) => Ok(()),
        NArg::OfCo(_) => Ok(()),
    }
}

#[cycle(mentions)]
fn mention_args(
    definitions: &Definitions,
    args: &[NArg],
    found: &mut Seq<usize>,
) -> Result<(), Memory>
    ensures { OnOk result (AddsNames (meant_by definitions.now) (names_in_args (nargs_of args.now)) found.old found.new) }
{
    for arg in args {
        mention_arg(definitions, arg, found)?;
    }
    Ok(())
}

#[cycle(mentions)]
fn mention_exprs(
    definitions: &Definitions,
    es: &[NExpr],
    found: &mut Seq<usize>,
) -> Result<(), Memory>
    ensures { OnOk result (AddsNames (meant_by definitions.now) (names_in_exprs (nexprs_of es.now)) found.old found.new) }
{
    for e in es {
        mention_expr(definitions, e, found)?;
    }
    Ok(())
}

#[cycle(mentions)]
fn mention_binds(
    definitions: &Definitions,
    binds: &[NBind],
    found: &mut Seq<usize>,
) -> Result<(), Memory>
    ensures { OnOk result (AddsNames (meant_by definitions.now) (names_in_binds (nbinds_of binds.now)) found.old found.new) }
{
    for bind in binds {
        mention_expr(definitions, &bind.rhs, found)?;
    }
    Ok(())
}

#[cycle(mentions)]
fn mention_joins(
    definitions: &Definitions,
    joins: &[NJoinBind],
    found: &mut Seq<usize>,
) -> Result<(), Memory>
    ensures { OnOk result (AddsNames (meant_by definitions.now) (names_in_joins (njoins_of joins.now)) found.old found.new) }
{
    for join in joins {
        mention_expr(definitions, &join.rhs, found)?;
    }
    Ok(())
}

#[cycle(mentions)]
fn mention_alts(
    definitions: &Definitions,
    alts: &[NAlt],
    found: &mut Seq<usize>,
) -> Result<(), Memory>
    ensures { OnOk result (AddsNames (meant_by definitions.now) (names_in_alts (nalts_of alts.now)) found.old found.new) }
{
    for alt in alts {
        mention_expr(definitions, &alt.body, found)?;
    }
    Ok(())
}

/// Puts the numbers of the definitions that the right side of a declaration mentions behind the others.
#[tactic(auto, using(crate::proofs::Mentioning::adds_none))]
pub(crate) fn mention_decl(
    definitions: &Definitions,
    decl: &NDecl,
    found: &mut Seq<usize>,
) -> Result<(), Memory>
    ensures { OnOk result (AddsNames (meant_by definitions.now) (names_of_decl (ndecl_of decl.now)) found.old found.new) }
{
    match decl {
        NDecl::DataType(_, _, _) => Ok(()),
        NDecl::NewType(_, _, _, _) => Ok(()),
        NDecl::Family(_, _, _) => Ok(()),
        NDecl::Axiom(_, _, _, _) => Ok(()),
        NDecl::Def(_, _, e) => mention_expr(definitions, e, found),
        NDecl::Wrap(_, _, e) => mention_expr(definitions, e, found),
    }
}
