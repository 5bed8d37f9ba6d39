//! Prints the header of a module.
ghost use Rattle.std.specs.Prelude.{◌≡◌, ◌++◌, OnOk};
ghost use Rattle.fc_syntax.specs.View.{module_of};
ghost use Rattle.fc_model.specs.Canonical.{header_text, hidden_text, part_text, words_text};

use fc_syntax::{Memory, Module, Text};

// One space before each word.
fn put_words(to: &mut Vec<u8>, words: &[Text]) -> Result<(), Memory>
    ensures { OnOk result (to.new.items ≡ to.old.items ++ words_text words.now) }
{
    for word in words {
        to.push(b' ')?;
        to.extend_from_slice(word.as_str().as_bytes())?;
    }
    Ok(())
}

// A part of the header, behind the text that opens it.
fn put_part(to: &mut Vec<u8>, opening: &[u8], words: &[Text]) -> Result<(), Memory>
    ensures { OnOk result (to.new.items ≡ to.old.items ++ part_text opening.now words.now) }
{
    to.extend_from_slice(opening)?;
    put_words(to, words)?;
    to.extend_from_slice(b")")?;
    Ok(())
}

fn put_hidden(to: &mut Vec<u8>, words: &[Text]) -> Result<(), Memory>
    ensures { OnOk result (to.new.items ≡ to.old.items ++ hidden_text words.now) }
{
    match words {
        [] => Ok(()),
        _ => put_part(to, b" (hidden", words),
    }
}

/// Appends the header of a module behind its first bracket and word: its name, the parts of its imports and exports, and
/// that of its hidden names where it has one. Where memory runs out, the bytes before stand and a part of the text may
/// follow.
pub fn put_header(to: &mut Vec<u8>, m: &Module) -> Result<(), Memory>
    ensures { OnOk result (to.new.items ≡ to.old.items ++ header_text (module_of m.now)) }
{
    to.extend_from_slice(m.name.as_str().as_bytes())?;
    put_part(to, b" (imports", m.imports.as_slice())?;
    put_part(to, b" (exports", m.exports.as_slice())?;
    put_hidden(to, m.hidden.as_slice())
}
