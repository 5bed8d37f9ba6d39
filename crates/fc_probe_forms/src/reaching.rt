//! Which definitions one reaches, and which reach themselves.
use fc_probe_files::{File, NoAnswer, form_in, line_of};
use fc_reaching::{reaches, recursive};
use fc_syntax::{Memory, NDecl, NModule, Text};
use std::alloc::Global;

/// A word that definitions have, and the one that they get in its place.
#[derive(Clone, Copy)]
struct Rename<'a> {
    from: &'a str,
    to: &'a str,
}

/// The two words on both sides of the first colon of a text; none where it is a hyphen.
fn rename_of(text: &str) -> Result<Option<Rename<'_>>, NoAnswer> {
    if text == "-" {
        return Ok(None);
    }
    match text.split_once(':') {
        Some((from, to)) => Ok(Some(Rename { from, to })),
        None => Err(NoAnswer::Usage),
    }
}

/// Gives a declared word another one in its place, where it is the one to be renamed.
fn rename_word(alloc: Global, word: &mut Text, rename: Rename<'_>) -> Result<(), Memory> {
    if word.as_str() == rename.from {
        *word = Text::from_str(alloc, rename.to)?;
    }
    Ok(())
}

/// Renames the definitions of a word. What mentions the word still does.
fn rename_in(alloc: Global, n: &mut NModule, rename: Rename<'_>) -> Result<(), Memory> {
    for number in 0..n.decls.len() {
        match n.decls.at_mut(number) {
            NDecl::Def(word, _, _) => rename_word(alloc, word, rename)?,
            NDecl::Wrap(word, _, _) => rename_word(alloc, word, rename)?,
            _ => {}
        }
    }
    Ok(())
}

/// The nameless form of the module of a file, in which definitions were renamed.
fn renamed(alloc: Global, rename: &str, file: &File) -> Result<NModule, NoAnswer> {
    let rename = rename_of(rename)?;
    let mut form = form_in(alloc, file)?;
    if let Some(rename) = rename {
        rename_in(alloc, &mut form, rename)?;
    }
    Ok(form)
}

/// The line of words.
fn words_line(alloc: Global, words: &[Text]) -> Result<Vec<u8>, Memory> {
    let mut parts = Vec::new(alloc);
    for word in words {
        parts.push(Vec::from_slice(alloc, word.as_str().as_bytes())?)?;
    }
    line_of(alloc, parts.as_slice(), b" ")
}

/// The words of the definitions that the one of a word reaches, in the module of a file.
pub fn reached(alloc: Global, word: &str, rename: &str, file: &File) -> Result<Vec<u8>, NoAnswer> {
    let form = renamed(alloc, rename, file)?;
    let words = reaches(alloc, &form, word)?;
    Ok(words_line(alloc, words.as_slice())?)
}

/// The line of marks.
fn marks_line(alloc: Global, marks: &[bool]) -> Result<Vec<u8>, Memory> {
    let mut line = Vec::new(alloc);
    for mark in marks {
        line.push(if *mark { b'x' } else { b'.' })?;
    }
    line.push(b'\n')?;
    Ok(line)
}

/// For each declaration of the module of a file whether it is a definition that reaches itself.
pub fn marked(alloc: Global, rename: &str, file: &File) -> Result<Vec<u8>, NoAnswer> {
    let form = renamed(alloc, rename, file)?;
    let marks = recursive(alloc, &form)?;
    Ok(marks_line(alloc, marks.as_slice())?)
}
