//! What expressions and declarations of the nameless tree refer to, in the order of their text. Literals and primitives refer to nothing.
use crate::references::{References, in_binder, in_binders, in_coercion, in_type, in_types};
use fc_syntax::{Head, Memory, NAlt, NArg, NBind, NConDecl, NDecl, NExpr, NJoinBind, Ref};

// EXPRESSIONS

/// Puts a variable of a value or a definition.
fn in_variable(v: &Ref, to: &mut References) -> Result<(), Memory> {
    match v {
        Ref::Local(distance) => to.variable(b'v', *distance),
        Ref::Top(name) => to.name(name),
    }
}

/// Puts the constructor that an alternative is for.
fn in_head(head: &Head, to: &mut References) -> Result<(), Memory> {
    match head {
        Head::Con(name) => to.name(name),
        Head::Lit(_) => Ok(()),
        Head::Default => Ok(()),
    }
}

/// Puts what an expression refers to.
#[cycle(expressions)]
fn in_expression(e: &NExpr, to: &mut References) -> Result<(), Memory> {
    match e {
        NExpr::Var(v) => in_variable(v, to),
        NExpr::Lit(_) => Ok(()),
        NExpr::App(f, a) => {
            in_expression(f, to)?;
            in_argument(a, to)
        }
        NExpr::Cast(e, g) => {
            in_expression(e, to)?;
            in_coercion(g, to)
        }
        NExpr::Con(name, args) => {
            to.name(name)?;
            in_arguments(args.as_slice(), to)
        }
        NExpr::Prim(_, operands) => in_expressions(operands.as_slice(), to),
        NExpr::Fail(t) => in_type(t, to),
        NExpr::Jump(j, args) => {
            to.variable(b'j', *j)?;
            in_arguments(args.as_slice(), to)
        }
        binding => in_binding(binding, to),
    }
}

/// Puts what an expression refers to that binds words: a lambda, a let, a case or a join.
#[cycle(expressions)]
fn in_binding(e: &NExpr, to: &mut References) -> Result<(), Memory> {
    match e {
        NExpr::Lam(binder, e) => {
            in_binder(binder, to)?;
            in_expression(e, to)
        }
        NExpr::Let(_, binds, e) => {
            in_binds(binds.as_slice(), to)?;
            in_expression(e, to)
        }
        NExpr::Case(e, _, t, u, alts) => {
            in_expression(e, to)?;
            in_type(t, to)?;
            in_type(u, to)?;
            in_alternatives(alts.as_slice(), to)
        }
        NExpr::Join(_, t, joins, e) => {
            in_type(t, to)?;
            in_joins(joins.as_slice(), to)?;
            in_expression(e, to)
        }
        _ => Ok(()),
    }
}

/// Puts what expressions refer to.
#[cycle(expressions)]
fn in_expressions(all: &[NExpr], to: &mut References) -> Result<(), Memory> {
    for e in all {
        in_expression(e, to)?;
    }
    Ok(())
}

/// Puts what an argument refers to.
#[cycle(expressions)]
fn in_argument(arg: &NArg, to: &mut References) -> Result<(), Memory> {
    match arg {
        NArg::Term(e) => in_expression(e, to),
        NArg::OfType(t) => in_type(t, to),
        NArg::OfCo(g) => in_coercion(g, to),
    }
}

/// Puts what arguments refer to.
#[cycle(expressions)]
fn in_arguments(args: &[NArg], to: &mut References) -> Result<(), Memory> {
    for arg in args {
        in_argument(arg, to)?;
    }
    Ok(())
}

/// Puts what the binds of a let refer to.
#[cycle(expressions)]
fn in_binds(binds: &[NBind], to: &mut References) -> Result<(), Memory> {
    for bind in binds {
        in_type(&bind.ty, to)?;
        in_expression(&bind.rhs, to)?;
    }
    Ok(())
}

/// Puts what join points refer to.
#[cycle(expressions)]
fn in_joins(joins: &[NJoinBind], to: &mut References) -> Result<(), Memory> {
    for join in joins {
        in_binders(join.params.as_slice(), to)?;
        in_expression(&join.rhs, to)?;
    }
    Ok(())
}

/// Puts what the alternatives of a case refer to.
#[cycle(expressions)]
fn in_alternatives(alts: &[NAlt], to: &mut References) -> Result<(), Memory> {
    for alt in alts {
        in_head(&alt.head, to)?;
        in_binders(alt.binders.as_slice(), to)?;
        in_expression(&alt.body, to)?;
    }
    Ok(())
}

// DECLARATIONS

/// Puts what constructors refer to.
fn in_constructors(cons: &[NConDecl], to: &mut References) -> Result<(), Memory> {
    for con in cons {
        in_binders(con.binders.as_slice(), to)?;
        in_types(con.fields.as_slice(), to)?;
    }
    Ok(())
}

/// Puts what a declaration refers to.
pub(crate) fn in_declaration(decl: &NDecl, to: &mut References) -> Result<(), Memory> {
    match decl {
        NDecl::DataType(_, _, cons) => in_constructors(cons.as_slice(), to),
        NDecl::NewType(_, _, t, _) => in_type(t, to),
        NDecl::Family(_, _, _) => Ok(()),
        NDecl::Axiom(_, _, left, right) => {
            in_type(left, to)?;
            in_type(right, to)
        }
        NDecl::Def(_, t, e) | NDecl::Wrap(_, t, e) => {
            in_type(t, to)?;
            in_expression(e, to)
        }
    }
}
