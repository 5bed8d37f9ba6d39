//! From names to distances, and back.
use crate::binders::{leave_lambda, set_words};
use crate::references::References;
use crate::referring::in_declaration;
use crate::right_sides::exchange_right_side;
use fc_headers::form_written;
use fc_naming::{NotNamed, name_back};
use fc_printer::print_module;
use fc_probe_files::{File, NoAnswer, form_in, line, line_of, put_joined};
use fc_syntax::{Memory, NDecl, NExpr, NModule, Seq, Text};
use std::alloc::Global;

// NAMELESS FORMS

/// What a declaration refers to, on one line.
fn referred(alloc: Global, decl: &NDecl) -> Result<Vec<u8>, Memory> {
    let mut references = References::new(alloc);
    in_declaration(decl, &mut references)?;
    let mut text = Vec::new(alloc);
    put_joined(references.all.as_slice(), b" ", &mut text)?;
    Ok(text)
}

/// What declarations refer to, on one line.
fn referred_by_all(alloc: Global, decls: &[NDecl]) -> Result<Vec<u8>, Memory> {
    let mut parts = Vec::new(alloc);
    for decl in decls {
        parts.push(referred(alloc, decl)?)?;
    }
    line_of(alloc, parts.as_slice(), b" ; ")
}

/// What the declarations of the module of a file refer to.
pub fn resolved(alloc: Global, file: &File) -> Result<Vec<u8>, NoAnswer> {
    let form = form_in(alloc, file)?;
    Ok(referred_by_all(alloc, form.decls.as_slice())?)
}

// NAMED FORMS

/// The words between the commas of a text, and none where it is a hyphen.
fn words_of(alloc: Global, text: &str) -> Result<Vec<Text>, Memory> {
    let mut words = Vec::new(alloc);
    if text == "-" {
        return Ok(words);
    }
    for word in text.split(',') {
        words.push(Text::from_str(alloc, word)?)?;
    }
    Ok(words)
}

/// The canonical text of what a nameless module is named back to, or that a distance or a name in it is not in scope.
pub fn named(alloc: Global, n: &NModule) -> Result<Vec<u8>, Memory> {
    match name_back(alloc, n) {
        Ok(m) => print_module(alloc, &m),
        Err(NotNamed::Unscoped) => line(alloc, "unscoped"),
        Err(NotNamed::Memory) => Err(Memory),
    }
}

/// What the module of a file is named back to, after the binders of its last definition were given other words.
pub fn named_with(alloc: Global, words: &str, file: &File) -> Result<Vec<u8>, NoAnswer> {
    let mut form = form_in(alloc, file)?;
    let words = words_of(alloc, words)?;
    let mut e = NExpr::Lit(0);
    exchange_right_side(&mut form, 0, &mut e);
    set_words(alloc, &mut e, words.as_slice())?;
    exchange_right_side(&mut form, 0, &mut e);
    Ok(named(alloc, &form)?)
}

/// What the module of a file is named back to, after its imports were taken away and it was put under the header that is written, among modules of these names.
pub fn written(alloc: Global, order: &str, file: &File) -> Result<Vec<u8>, NoAnswer> {
    let mut form = form_in(alloc, file)?;
    form.imports = Seq::new(alloc);
    let order = words_of(alloc, order)?;
    let form = form_written(alloc, order.as_slice(), form)?;
    Ok(named(alloc, &form)?)
}

/// What the module of a file is named back to, after the outermost lambda of its last definition was taken off.
pub fn named_body(alloc: Global, file: &File) -> Result<Vec<u8>, NoAnswer> {
    let mut form = form_in(alloc, file)?;
    let mut e = NExpr::Lit(0);
    exchange_right_side(&mut form, 0, &mut e);
    leave_lambda(&mut e);
    exchange_right_side(&mut form, 0, &mut e);
    Ok(named(alloc, &form)?)
}
