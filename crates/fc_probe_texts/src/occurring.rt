//! Names and words that occur free in expressions of the named tree.
use crate::pieces::piece_of;
use fc_free::{free, mentions};
use fc_occur::{Count, count};
use fc_printer::put_name;
use fc_probe_files::{File, NoAnswer, line, line_of, module_in};
use fc_syntax::{Memory, Name, Text};
use std::alloc::Global;

/// A name as it is written: a word, with its module before the first dot where there is one.
fn name_of(alloc: Global, text: &str) -> Result<Name, Memory> {
    match text.split_once('.') {
        Some((module, word)) => Ok(Name {
            module: Some(Text::from_str(alloc, module)?),
            text: Text::from_str(alloc, word)?,
        }),
        None => Ok(Name {
            module: None,
            text: Text::from_str(alloc, text)?,
        }),
    }
}

/// The line of names.
fn names_line(alloc: Global, names: &[Name]) -> Result<Vec<u8>, Memory> {
    let mut parts = Vec::new(alloc);
    for name in names {
        let mut text = Vec::new(alloc);
        put_name(name, &mut text)?;
        parts.push(text)?;
    }
    line_of(alloc, parts.as_slice(), b" ")
}

/// The names that occur free in the right side of the first definition of a file.
pub fn free_names(alloc: Global, file: &File) -> Result<Vec<u8>, NoAnswer> {
    let m = module_in(alloc, file)?;
    let Some(e) = piece_of(&m) else {
        return Err(NoAnswer::Usage);
    };
    let names = free(alloc, e)?;
    Ok(names_line(alloc, names.as_slice())?)
}

/// Whether a name occurs free there.
pub fn mentioned(alloc: Global, name: &str, file: &File) -> Result<Vec<u8>, NoAnswer> {
    let name = name_of(alloc, name)?;
    let m = module_in(alloc, file)?;
    let Some(e) = piece_of(&m) else {
        return Err(NoAnswer::Usage);
    };
    let said = if mentions(e, &name) { "yes" } else { "no" };
    Ok(line(alloc, said)?)
}

/// How often a word occurs free there.
pub fn counted(alloc: Global, word: &str, file: &File) -> Result<Vec<u8>, NoAnswer> {
    let word = Text::from_str(alloc, word)?;
    let m = module_in(alloc, file)?;
    let Some(e) = piece_of(&m) else {
        return Err(NoAnswer::Usage);
    };
    let said = match count(e, &word) {
        Count::Dead => "dead",
        Count::Once => "once",
        Count::OnceInside => "once inside",
        Count::Many => "many",
    };
    Ok(line(alloc, said)?)
}
