//! Substitution on the named tree, and words that are new, where words are in scope.
use fc_named_subst::{Scope, freshen, subst_co, subst_expr, subst_type};
use fc_printer::put_expr;
use fc_probe_files::{File, NoAnswer, flawed_in, line, module_in};
use fc_syntax::{Decl, Expr, Memory, Module, Text};
use std::alloc::Global;

/// What stands in place of a name.
#[derive(Clone, Copy)]
pub enum By {
    /// An expression.
    Expression,
    /// A type.
    Type,
    /// A coercion.
    Coercion,
}

/// Puts a word in scope: `join:WORD` is that of a join point, and `module:WORD` that of a module.
fn add_word(alloc: Global, scope: &mut Scope, word: &str) -> Result<(), NoAnswer> {
    match word.split_once(':') {
        None => scope.add(alloc, &Text::from_str(alloc, word)?)?,
        Some(("join", name)) => scope.add_join(alloc, &Text::from_str(alloc, name)?)?,
        Some(("module", name)) => scope.add_module(alloc, &Text::from_str(alloc, name)?)?,
        Some(_) => return Err(NoAnswer::Usage),
    }
    Ok(())
}

/// The scope of the words between the commas of a text, the innermost last, and an empty one where it is a hyphen.
fn scope_of(alloc: Global, words: &str) -> Result<Scope, NoAnswer> {
    let mut scope = Scope::empty(alloc);
    if words == "-" {
        return Ok(scope);
    }
    for word in words.split(',') {
        add_word(alloc, &mut scope, word)?;
    }
    Ok(scope)
}

/// The right side of the definition that has so many behind it.
fn right_side(m: &Module, behind: usize) -> Option<&Expr> {
    let mut left = behind;
    for decl in m.decls.as_slice().iter().rev() {
        match decl {
            Decl::Def(_, _, e) | Decl::Wrap(_, _, e) => {
                if left == 0 {
                    return Some(e);
                }
                left -= 1;
            }
            _ => {}
        }
    }
    None
}

/// The line of an expression.
fn expression_line(alloc: Global, e: &Expr) -> Result<Vec<u8>, Memory> {
    let mut text = Vec::new(alloc);
    put_expr(e, &mut text)?;
    text.push(b'\n')?;
    Ok(text)
}

/// The right side of the last definition of a file, with something in place of a word, where words are in scope. What it is stands in the definition before: its right side, or
/// the type of an error, or the coercion of a cast.
pub fn put_in(
    alloc: Global,
    by: By,
    word: &str,
    words: &str,
    file: &File,
) -> Result<Vec<u8>, NoAnswer> {
    let word = Text::from_str(alloc, word)?;
    let scope = scope_of(alloc, words)?;
    let m = module_in(alloc, file)?;
    let (Some(e), Some(what)) = (right_side(&m, 0), right_side(&m, 1)) else {
        return Err(NoAnswer::Usage);
    };
    let answer = match (by, what) {
        (By::Expression, what) => subst_expr(alloc, e, &word, what, &scope),
        (By::Type, Expr::Fail(t)) => subst_type(alloc, e, &word, t, &scope),
        (By::Coercion, Expr::Cast(_, g)) => subst_co(alloc, e, &word, g, &scope),
        _ => return Err(NoAnswer::Usage),
    };
    match answer {
        Ok(e) => Ok(expression_line(alloc, &e)?),
        Err(flawed) => Err(flawed_in(alloc, "-", flawed)),
    }
}

/// A word that is none of those in scope.
pub fn fresh(alloc: Global, word: &str, words: &str) -> Result<Vec<u8>, NoAnswer> {
    let scope = scope_of(alloc, words)?;
    let word = freshen(alloc, &Text::from_str(alloc, word)?, &scope)?;
    Ok(line(alloc, word.as_str())?)
}
