//! Pieces of the named tree in environments. A piece stands below lambdas, whose binders are entered.
use fc_model::Flawed;
use fc_printer::put_type;
use fc_probe_files::{File, NoAnswer, flawed_in, form_in, line, module_in, number_in};
use fc_syntax::{Arg, Decl, Expr, Kind, Memory, Module, NModule, Role, Seq, Ty};
use fc_typing::{Ends, TypeEnv, ends, equal, instantiate, kind_of, lint, type_of};
use std::alloc::Global;

/// What is asked of a piece.
#[derive(Clone, Copy)]
pub enum Asked {
    /// What it is.
    Judged,
    /// The type that is read off of it.
    ReadOff,
}

/// The right side of the first definition of a module, where there is one.
pub(crate) fn piece_of(m: &Module) -> Option<&Expr> {
    for decl in m.decls.as_slice() {
        match decl {
            Decl::Def(_, _, e) => return Some(e),
            Decl::Wrap(_, _, e) => return Some(e),
            _ => {}
        }
    }
    None
}

// ANSWERS

/// The line of a type.
fn type_line(alloc: Global, t: &Ty) -> Result<Vec<u8>, Memory> {
    let mut text = Vec::new(alloc);
    put_type(t, &mut text)?;
    text.push(b'\n')?;
    Ok(text)
}

fn role_text(role: Role) -> &'static [u8] {
    match role {
        Role::N => b"N ",
        Role::R => b"R ",
        Role::P => b"P ",
    }
}

/// The line of a role and two types.
fn ends_line(alloc: Global, ends: &Ends) -> Result<Vec<u8>, Memory> {
    let mut text = Vec::from_slice(alloc, role_text(ends.role))?;
    put_type(&ends.left, &mut text)?;
    text.push(b' ')?;
    put_type(&ends.right, &mut text)?;
    text.push(b'\n')?;
    Ok(text)
}

fn kind_text(kind: &Kind) -> &'static str {
    match kind {
        Kind::Star => "*",
        Kind::Hash => "#",
        Kind::Arrow(_, _) => "->",
    }
}

// JUDGEMENTS

/// The kind of a type.
fn told_kind(alloc: Global, t: &Ty, env: &TypeEnv) -> Result<Vec<u8>, Flawed> {
    let kind = kind_of(alloc, t, env)?;
    Ok(line(alloc, kind_text(&kind))?)
}

/// What a piece is: the kind of the type of an error, what the coercion of a cast proves, a type at the type to which an error of it is
/// applied, and of anything else its type.
fn told_piece(alloc: Global, e: &Expr, env: &TypeEnv) -> Result<Vec<u8>, Flawed> {
    match e {
        Expr::Fail(t) => told_kind(alloc, t, env),
        Expr::Cast(_, g) => {
            let ends = ends(alloc, g, env)?;
            Ok(ends_line(alloc, &ends)?)
        }
        Expr::App(head, by) => told_application(alloc, e, head, by, env),
        _ => told_lint(alloc, e, env),
    }
}

/// The type of an expression.
fn told_lint(alloc: Global, e: &Expr, env: &TypeEnv) -> Result<Vec<u8>, Flawed> {
    let t = lint(alloc, e, env)?;
    Ok(type_line(alloc, &t)?)
}

/// What an application is.
fn told_application(
    alloc: Global,
    whole: &Expr,
    head: &Expr,
    by: &Arg,
    env: &TypeEnv,
) -> Result<Vec<u8>, Flawed> {
    match (head, by) {
        (Expr::Fail(t), Arg::OfType(by)) => told_instance(alloc, t, by, env),
        _ => told_lint(alloc, whole, env),
    }
}

/// A type at another one, where it is a `forall`.
fn told_instance(alloc: Global, t: &Ty, by: &Ty, env: &TypeEnv) -> Result<Vec<u8>, Flawed> {
    match instantiate(alloc, t, by, env)? {
        Some(t) => Ok(type_line(alloc, &t)?),
        None => Ok(line(alloc, "none")?),
    }
}

/// The type that is read off of a piece.
fn told_type(alloc: Global, e: &Expr, env: &TypeEnv) -> Result<Vec<u8>, Flawed> {
    match type_of(alloc, e, env)? {
        Some(t) => Ok(type_line(alloc, &t)?),
        None => Ok(line(alloc, "none")?),
    }
}

/// What is asked of the piece below the binders of lambdas.
fn told_below(alloc: Global, e: &Expr, asked: Asked, env: &mut TypeEnv) -> Result<Vec<u8>, Flawed> {
    match (e, asked) {
        (Expr::Lam(binder, body), _) => {
            env.enter(alloc, binder)?;
            let told = told_below(alloc, body, asked, env)?;
            env.leave();
            Ok(told)
        }
        (_, Asked::Judged) => told_piece(alloc, e, env),
        (_, Asked::ReadOff) => told_type(alloc, e, env),
    }
}

// FILES

/// The nameless forms of the modules of files, in their order.
fn forms_in(alloc: Global, files: &[File]) -> Result<Seq<NModule>, NoAnswer> {
    let mut forms = Seq::new(alloc);
    for file in files {
        forms.push(form_in(alloc, file)?)?;
    }
    Ok(forms)
}

/// What is asked of a piece in the module of this number. A fault of it stands in no module.
fn told_at(
    alloc: Global,
    forms: &[NModule],
    at: usize,
    e: &Expr,
    asked: Asked,
) -> Result<Vec<u8>, NoAnswer> {
    if at >= forms.len() {
        return Err(NoAnswer::Usage);
    }
    let mut env = TypeEnv::new(alloc, forms, at)?;
    match told_below(alloc, e, asked, &mut env) {
        Ok(told) => Ok(told),
        Err(flawed) => Err(flawed_in(alloc, "-", flawed)),
    }
}

/// What is asked of the piece in a file, in the module of a number among those of other files.
pub fn told(
    alloc: Global,
    asked: Asked,
    number: &str,
    files: &[File],
    piece: &File,
) -> Result<Vec<u8>, NoAnswer> {
    let at = number_in(number)? as usize;
    let forms = forms_in(alloc, files)?;
    let m = module_in(alloc, piece)?;
    match piece_of(&m) {
        Some(e) => told_at(alloc, forms.as_slice(), at, e, asked),
        None => Err(NoAnswer::Usage),
    }
}

/// Whether the two ends of the function type of the piece `(fail (fun t u))` in a file are the same.
pub fn compared(alloc: Global, file: &File) -> Result<Vec<u8>, NoAnswer> {
    let m = module_in(alloc, file)?;
    match piece_of(&m) {
        Some(Expr::Fail(Ty::Fun(t, u))) => {
            let said = if equal(t, u) { "same" } else { "other" };
            Ok(line(alloc, said)?)
        }
        _ => Err(NoAnswer::Usage),
    }
}
