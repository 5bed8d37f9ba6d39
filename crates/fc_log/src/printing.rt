//! Prints a log.
ghost use Rattle.std.specs.Prelude.{◌≡◌, ◌++◌, ◌∷◌, [], codes, IfOk, OnOk, Some};
ghost use Rattle.std.specs.Fmt.{decimal};
ghost use Rattle.fc_log.specs.Dots.{dotted_text};
ghost use Rattle.fc_log.specs.Names.{phase_text};
ghost use Rattle.fc_log.specs.Texts as spec;

use crate::log::{Answer, Entry, Log, Phase, Step};
use fc_syntax::{Memory, Place, Text};
use itoa::Buffer;
use std::alloc::Global;

/// The text of a log, a line for each entry. Fails only where memory runs out.
pub fn print(alloc: Global, log: &Log) -> Result<Vec<u8>, Memory>
    ensures text { IfOk result (λ v. v.items ≡ spec.log_text log.now) }
    ensures reads_back { IfOk result (λ v. spec.IsFormedLog log.now → spec.SpellsLog v.items log.now) }
{
    let mut text = Vec::new(alloc);
    put_head(&log.module, &mut text)?;
    put_entries(log.entries.as_slice(), &mut text)?;
    Ok(text)
}

/// The first line. Where memory runs out, the bytes before stand and a part of the text may follow, here and in all functions that put
/// a text.
fn put_head(module: &Text, to: &mut Vec<u8>) -> Result<(), Memory>
    ensures { OnOk result (to.new.items ≡ to.old.items ++ spec.line_text (codes "log" ∷ codes "1" ∷ module.now ∷ [])) }
{
    to.extend_from_slice(b"log 1 ")?;
    to.extend_from_slice(module.as_str().as_bytes())?;
    to.push(b'\n')?;
    Ok(())
}

fn put_entries(entries: &[Entry], to: &mut Vec<u8>) -> Result<(), Memory>
    ensures { OnOk result (to.new.items ≡ to.old.items ++ spec.entries_text entries.now) }
{
    for entry in entries {
        put_entry(entry, to)?;
    }
    Ok(())
}

/// The line of an entry.
fn put_entry(entry: &Entry, to: &mut Vec<u8>) -> Result<(), Memory>
    ensures { OnOk result (to.new.items ≡ to.old.items ++ spec.line_text (spec.entry_words entry.now)) }
{
    match entry {
        Entry::Mark(phase) => put_mark(*phase, to),
        Entry::Step(step) => put_step(step, to),
    }
}

fn put_mark(phase: Phase, to: &mut Vec<u8>) -> Result<(), Memory>
    ensures { OnOk result (to.new.items ≡ to.old.items ++ spec.line_text (codes "mark" ∷ phase_text phase ∷ [])) }
{
    to.extend_from_slice(b"mark ")?;
    to.extend_from_slice(phase.text().as_bytes())?;
    to.push(b'\n')?;
    Ok(())
}

fn put_step(step: &Step, to: &mut Vec<u8>) -> Result<(), Memory>
    ensures { OnOk result (to.new.items ≡ to.old.items ++ spec.line_text (spec.entry_words (Entry.Step step.now))) }
{
    to.extend_from_slice(b"step ")?;
    to.extend_from_slice(step.row.text().as_bytes())?;
    to.push(b' ')?;
    put_def(&step.def, to)?;
    to.push(b' ')?;
    put_place(&step.path, to)?;
    put_step_end(step.answer, to)
}

fn put_def(def: &Option<Text>, to: &mut Vec<u8>) -> Result<(), Memory>
    ensures { OnOk result (to.new.items ≡ to.old.items ++ spec.def_text def.now) }
{
    match def {
        Some(word) => to.extend_from_slice(word.as_str().as_bytes())?,
        None => to.push(b'-')?,
    }
    Ok(())
}

fn put_place(place: &Place, to: &mut Vec<u8>) -> Result<(), Memory>
    ensures { OnOk result (to.new.items ≡ to.old.items ++ spec.place_text place.now) }
{
    match place {
        Place::Parts(parts) => put_path(parts.as_slice(), to),
        Place::Nowhere | Place::Byte(_) => {
            to.push(b'-')?;
            Ok(())
        }
    }
}

/// The numbers of the parts, with dots between them.
#[tactic(auto, using(crate::proofs::Printed::path_rules))]
fn put_path(parts: &[u32], to: &mut Vec<u8>) -> Result<(), Memory>
    ensures { OnOk result (to.new.items ≡ to.old.items ++ spec.path_text parts.now) }
{
    match parts.split_first() {
        None => Ok(()),
        Some((first, others)) => {
            put_number(*first, to)?;
            put_dotted(others, to)
        }
    }
}

/// A dot before each number.
fn put_dotted(parts: &[u32], to: &mut Vec<u8>) -> Result<(), Memory>
    ensures { OnOk result (to.new.items ≡ to.old.items ++ dotted_text parts.now) }
{
    for part in parts {
        to.push(b'.')?;
        put_number(*part, to)?;
    }
    Ok(())
}

fn put_number(n: u32, to: &mut Vec<u8>) -> Result<(), Memory>
    ensures { OnOk result (to.new.items ≡ to.old.items ++ decimal n) }
{
    let mut digits = Buffer::new();
    to.extend_from_slice(digits.format(n).as_bytes())?;
    Ok(())
}

/// What stands behind the place of a step, where that is the last word so far: the answer of a fold, and the end of the line.
fn put_step_end(answer: Option<Answer>, to: &mut Vec<u8>) -> Result<(), Memory>
    ensures { OnOk result (to.new.items ≡ to.old.items ++ spec.line_text ([] ∷ spec.answer_words answer)) }
{
    if let Some(answer) = answer {
        to.push(b' ')?;
        put_answer(answer, to)?;
    }
    to.push(b'\n')?;
    Ok(())
}

/// The answer of a fold.
fn put_answer(answer: Answer, to: &mut Vec<u8>) -> Result<(), Memory>
    ensures { OnOk result (to.new.items ++ 10 ∷ [] ≡ to.old.items ++ spec.line_text (spec.answer_words (Some answer))) }
{
    match answer {
        Answer::Literal(n) => {
            let mut digits = Buffer::new();
            to.extend_from_slice(digits.format(n).as_bytes())?;
            to.push(b'#')?;
        }
        Answer::First => to.extend_from_slice(b"first")?,
        Answer::Second => to.extend_from_slice(b"second")?,
    }
    Ok(())
}
