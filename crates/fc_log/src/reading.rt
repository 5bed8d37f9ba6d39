//! Reads a log from its tokens. Each reader takes the tokens of what it reads; it stops at the first that cannot stand there.
ghost use Rattle.std.specs.Prelude.{◌≡◌, ◌<◌, ◌≤◌, ◌++◌, ◌∷◌, [], List, Option, None, Some, length, IfErr, IfOk};
ghost use Rattle.std.specs.Option.{option_copied};
ghost use Rattle.fc_syntax.specs.Tree.{Word};
ghost use Rattle.fc_syntax.specs.declared.fault.Place.{Place};
ghost use Rattle.fc_log.specs.declared.log.Entry.{Entry};
ghost use Rattle.fc_log.specs.Grammar as spec;
ghost use Rattle.fc_log.specs.Reading.{StopsAt, ahead, behind_place, IsPathRead, in_line, place_read};

use crate::log::{Answer, Entry, Phase, Row, Step};
use crate::names::{phase_of, row_of};
use crate::steps::step_of;
use crate::tokens::{Stop, Tokens};
use crate::words::{answer_of, def_of, is_fold, path_of};
use fc_lex::is_module_name;
use fc_read_parts::module_text;
use fc_syntax::Seq;
use std::alloc::Global;

/// Reads `log`.
fn read_log_word(tokens: &mut Tokens<'_>) -> Result<(), Stop>
    ensures read { IfOk result (λ _. spec.reads spec.AtStart (ahead tokens.old) ≡ spec.reads spec.BehindLog (ahead tokens.new)) }
    ensures fault { IfErr result (StopsAt spec.AtStart (ahead tokens.old)) }
{
    let left = tokens.left();
    if tokens.takes(b"log") {
        Ok(())
    } else {
        Err(Stop::Form(left))
    }
}

/// Reads the number of the format, `1`.
fn read_version(tokens: &mut Tokens<'_>) -> Result<(), Stop>
    ensures read { IfOk result (λ _. spec.reads spec.BehindLog (ahead tokens.old) ≡ spec.reads spec.BehindOne (ahead tokens.new)) }
    ensures fault { IfErr result (StopsAt spec.BehindLog (ahead tokens.old)) }
{
    let left = tokens.left();
    if tokens.takes(b"1") {
        Ok(())
    } else {
        Err(Stop::Form(left))
    }
}

/// Reads the name of the module.
fn read_module_name<'a>(tokens: &mut Tokens<'a>) -> Result<&'a str, Stop>
    ensures read { IfOk result (λ m. spec.reads spec.BehindOne (ahead tokens.old) ≡ spec.reads (spec.BehindModule m.now) (ahead tokens.new)) }
    ensures fault { IfErr result (StopsAt spec.BehindOne (ahead tokens.old)) }
{
    let left = tokens.left();
    match tokens.word() {
        Some(word) if is_module_name(word) => Ok(module_text(word)),
        _ => Err(Stop::Form(left)),
    }
}

/// Reads the end of the first line.
fn read_head_end(tokens: &mut Tokens<'_>) -> Result<(), Stop>
    ensures read { IfOk result (λ _. (m : Word) → spec.reads (spec.BehindModule m) (ahead tokens.old) ≡ spec.reads (spec.AtLine m []) (ahead tokens.new)) }
    ensures fault { IfErr result (λ e. (m : Word) → StopsAt (spec.BehindModule m) (ahead tokens.old) e) }
{
    let left = tokens.left();
    if tokens.ends_line() {
        Ok(())
    } else {
        Err(Stop::Form(left))
    }
}

/// Reads the first line, and answers the name of the module.
pub(crate) fn read_head<'a>(tokens: &mut Tokens<'a>) -> Result<&'a str, Stop>
    ensures read { IfOk result (λ m. spec.reads spec.AtStart (ahead tokens.old) ≡ spec.reads (spec.AtLine m.now []) (ahead tokens.new)) }
    ensures fault { IfErr result (StopsAt spec.AtStart (ahead tokens.old)) }
{
    read_log_word(tokens)?;
    read_version(tokens)?;
    let module = read_module_name(tokens)?;
    read_head_end(tokens)?;
    Ok(module)
}

/// Reads the end of the line of an entry.
fn read_line_end(tokens: &mut Tokens<'_>) -> Result<(), Stop>
    ensures read { IfOk result (λ _. (m : Word) (es : List Entry) (e : Entry) → spec.reads (spec.BehindEntry m es e) (ahead tokens.old) ≡ spec.reads (spec.AtLine m (es ++ e ∷ [])) (ahead tokens.new)) }
    ensures shorter { IfOk result (λ _. length (ahead tokens.new) < length (ahead tokens.old)) }
    ensures fault { IfErr result (λ f. (m : Word) (es : List Entry) (e : Entry) → StopsAt (spec.BehindEntry m es e) (ahead tokens.old) f) }
{
    let left = tokens.left();
    if tokens.ends_line() {
        Ok(())
    } else {
        Err(Stop::Form(left))
    }
}

/// Reads the phase of a mark.
fn read_phase(tokens: &mut Tokens<'_>) -> Result<Phase, Stop>
    ensures read { IfOk result (λ p. (m : Word) (es : List Entry) → spec.reads (spec.BehindMark m es) (ahead tokens.old) ≡ spec.reads (spec.BehindEntry m es (Entry.Mark p)) (ahead tokens.new)) }
    ensures shorter { IfOk result (λ _. length (ahead tokens.new) < length (ahead tokens.old)) }
    ensures fault { IfErr result (λ f. (m : Word) (es : List Entry) → StopsAt (spec.BehindMark m es) (ahead tokens.old) f) }
{
    let left = tokens.left();
    let Some(word) = tokens.word() else {
        return Err(Stop::Form(left));
    };
    match phase_of(word) {
        Some(phase) => Ok(phase),
        None => Err(Stop::Form(left)),
    }
}

/// Reads the row of a step.
fn read_row(tokens: &mut Tokens<'_>) -> Result<Row, Stop>
    ensures read { IfOk result (λ r. (m : Word) (es : List Entry) → spec.reads (spec.BehindStep m es) (ahead tokens.old) ≡ spec.reads (spec.BehindRow m es r) (ahead tokens.new)) }
    ensures shorter { IfOk result (λ _. length (ahead tokens.new) < length (ahead tokens.old)) }
    ensures fault { IfErr result (λ f. (m : Word) (es : List Entry) → StopsAt (spec.BehindStep m es) (ahead tokens.old) f) }
{
    let left = tokens.left();
    let Some(word) = tokens.word() else {
        return Err(Stop::Form(left));
    };
    match row_of(word) {
        Some(row) => Ok(row),
        None => Err(Stop::Form(left)),
    }
}

/// Reads the definition of a step, `None` for a step of the whole module.
fn read_def<'a>(tokens: &mut Tokens<'a>, row: Row) -> Result<Option<&'a str>, Stop>
    ensures read { IfOk result (λ d. (m : Word) (es : List Entry) → spec.reads (spec.BehindRow m es row) (ahead tokens.old) ≡ spec.reads (spec.BehindDef m es row (option_copied d)) (ahead tokens.new)) }
    ensures shorter { IfOk result (λ _. length (ahead tokens.new) < length (ahead tokens.old)) }
    ensures fault { IfErr result (λ f. (m : Word) (es : List Entry) → StopsAt (spec.BehindRow m es row) (ahead tokens.old) f) }
{
    let left = tokens.left();
    let Some(word) = tokens.word() else {
        return Err(Stop::Form(left));
    };
    match def_of(row, word) {
        Some(def) => Ok(def),
        None => Err(Stop::Form(left)),
    }
}

/// Reads the path of a step, `None` for a step of the whole module.
#[tactic(auto, unfolding(crate::specs::Reading::behind_place))]
fn read_path<'a>(tokens: &mut Tokens<'a>, row: Row) -> Result<Option<&'a [u8]>, Stop>
    ensures read { IfOk result (λ p. (m : Word) (es : List Entry) (d : Option Word) → spec.reads (spec.BehindDef m es row d) (ahead tokens.old) ≡ spec.reads (behind_place m es row d (place_read (option_copied p))) (ahead tokens.new)) }
    ensures path { IfOk result IsPathRead }
    ensures shorter { IfOk result (λ _. length (ahead tokens.new) < length (ahead tokens.old)) }
    ensures fault { IfErr result (λ f. (m : Word) (es : List Entry) (d : Option Word) → StopsAt (spec.BehindDef m es row d) (ahead tokens.old) f) }
{
    let left = tokens.left();
    let Some(word) = tokens.word() else {
        return Err(Stop::Form(left));
    };
    match path_of(row, word) {
        Some(path) => Ok(path),
        None => Err(Stop::Form(left)),
    }
}

/// Reads the answer of a fold.
fn read_fold_answer(tokens: &mut Tokens<'_>) -> Result<Answer, Stop>
    ensures read { IfOk result (λ a. (m : Word) (es : List Entry) (d : Option Word) (p : Place) → spec.reads (spec.BehindPath m es d p) (ahead tokens.old) ≡ spec.reads (spec.BehindEntry m es (spec.step_at Row.Fold d p (Some a))) (ahead tokens.new)) }
    ensures shorter { IfOk result (λ _. length (ahead tokens.new) < length (ahead tokens.old)) }
    ensures fault { IfErr result (λ f. (m : Word) (es : List Entry) (d : Option Word) (p : Place) → StopsAt (spec.BehindPath m es d p) (ahead tokens.old) f) }
{
    let left = tokens.left();
    let Some(word) = tokens.word() else {
        return Err(Stop::Answer(left));
    };
    match answer_of(word) {
        Some(answer) => Ok(answer),
        None => Err(Stop::Answer(left)),
    }
}

/// Reads the answer of a step, `None` where its row has none.
#[tactic(auto, unfolding(crate::specs::Reading::behind_place))]
fn read_answer(tokens: &mut Tokens<'_>, row: Row) -> Result<Option<Answer>, Stop>
    ensures read { IfOk result (λ a. (m : Word) (es : List Entry) (d : Option Word) (p : Place) → spec.reads (behind_place m es row d p) (ahead tokens.old) ≡ spec.reads (spec.BehindEntry m es (spec.step_at row d p a)) (ahead tokens.new)) }
    ensures shorter { IfOk result (λ _. length (ahead tokens.new) ≤ length (ahead tokens.old)) }
    ensures fault { IfErr result (λ f. (m : Word) (es : List Entry) (d : Option Word) (p : Place) → StopsAt (behind_place m es row d p) (ahead tokens.old) f) }
{
    if is_fold(row) {
        let answer = read_fold_answer(tokens)?;
        Ok(Some(answer))
    } else {
        Ok(None)
    }
}

/// Reads the line of a step behind its first word.
fn read_step(alloc: Global, tokens: &mut Tokens<'_>) -> Result<Step, Stop>
    ensures read { IfOk result (λ s. (m : Word) (es : List Entry) → spec.reads (spec.BehindStep m es) (ahead tokens.old) ≡ spec.reads (spec.AtLine m (es ++ Entry.Step s ∷ [])) (ahead tokens.new)) }
    ensures shorter { IfOk result (λ _. length (ahead tokens.new) < length (ahead tokens.old)) }
    ensures fault { IfErr result (λ f. (m : Word) (es : List Entry) → StopsAt (spec.BehindStep m es) (ahead tokens.old) f) }
{
    let row = read_row(tokens)?;
    let def = read_def(tokens, row)?;
    let path = read_path(tokens, row)?;
    let answer = read_answer(tokens, row)?;
    read_line_end(tokens)?;
    Ok(step_of(alloc, row, def, path, answer)?)
}

/// Reads the line of a mark behind its first word.
fn read_mark(tokens: &mut Tokens<'_>) -> Result<Phase, Stop>
    ensures read { IfOk result (λ p. (m : Word) (es : List Entry) → spec.reads (spec.BehindMark m es) (ahead tokens.old) ≡ spec.reads (spec.AtLine m (es ++ Entry.Mark p ∷ [])) (ahead tokens.new)) }
    ensures shorter { IfOk result (λ _. length (ahead tokens.new) < length (ahead tokens.old)) }
    ensures fault { IfErr result (λ f. (m : Word) (es : List Entry) → StopsAt (spec.BehindMark m es) (ahead tokens.old) f) }
{
    let phase = read_phase(tokens)?;
    read_line_end(tokens)?;
    Ok(phase)
}

/// What a line is of.
#[derive(Clone, Copy, Debug)]
enum Line {
    /// `mark`
    Mark,
    /// `step`
    Step,
}

/// Reads the first word of a line.
fn read_line(tokens: &mut Tokens<'_>) -> Result<Line, Stop>
    requires { 0 < length (ahead tokens.old) }
    ensures read { IfOk result (λ l. (m : Word) (es : List Entry) → spec.reads (spec.AtLine m es) (ahead tokens.old) ≡ spec.reads (in_line m es l) (ahead tokens.new)) }
    ensures shorter { IfOk result (λ _. length (ahead tokens.new) < length (ahead tokens.old)) }
    ensures fault { IfErr result (λ f. (m : Word) (es : List Entry) → StopsAt (spec.AtLine m es) (ahead tokens.old) f) }
{
    let left = tokens.left();
    match tokens.word() {
        Some(b"mark") => Ok(Line::Mark),
        Some(b"step") => Ok(Line::Step),
        _ => Err(Stop::Form(left)),
    }
}

/// Reads the line of an entry.
fn read_entry(alloc: Global, tokens: &mut Tokens<'_>) -> Result<Entry, Stop>
    requires { 0 < length (ahead tokens.old) }
    ensures read { IfOk result (λ e. (m : Word) (es : List Entry) → spec.reads (spec.AtLine m es) (ahead tokens.old) ≡ spec.reads (spec.AtLine m (es ++ e ∷ [])) (ahead tokens.new)) }
    ensures shorter { IfOk result (λ _. length (ahead tokens.new) < length (ahead tokens.old)) }
    ensures fault { IfErr result (λ f. (m : Word) (es : List Entry) → StopsAt (spec.AtLine m es) (ahead tokens.old) f) }
{
    match read_line(tokens)? {
        Line::Mark => Ok(Entry::Mark(read_mark(tokens)?)),
        Line::Step => Ok(Entry::Step(read_step(alloc, tokens)?)),
    }
}

/// Reads the lines of entries up to the end.
pub(crate) fn read_entries(alloc: Global, tokens: &mut Tokens<'_>) -> Result<Seq<Entry>, Stop>
    ensures read { IfOk result (λ es. (m : Word) → spec.reads (spec.AtLine m []) (ahead tokens.old) ≡ spec.Got (record { «module» = m; entries = es })) }
    ensures fault { IfErr result (λ f. (m : Word) → StopsAt (spec.AtLine m []) (ahead tokens.old) f) }
{
    let mut entries = Seq::new(alloc);
    'each: while tokens.left() > 0 {
        let entry = read_entry(alloc, tokens)?;
        entries.push(entry)?;
    }
    Ok(entries)
}
