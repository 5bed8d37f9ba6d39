//! A check over files, and no part of the compiler: one call of the compiler's libraries on files, whose answer is put on the output as text.
//!
//! The words are the name of the call and what it is called with, files last. The outcome has the form of the program's: status 0 and the
//! answer on the output; 1 and the line of a refusal on the error stream; 2 where the words are no call; 3 where a file cannot be read; 4
//! where the answer cannot be put; 5 where no memory is left.
#![tactic(auto)]

use fc_files::{Files, HostFiles, HostSink};
use fc_probe_files::{File, NoAnswer, number_in, read_all, tell};
use fc_probe_forms::changing::Change;
use fc_probe_forms::{changing, names, reaching};
use fc_probe_rows::{applied, simplified};
use fc_probe_texts::named::By;
use fc_probe_texts::pieces::Asked;
use fc_probe_texts::texts::Form;
use fc_probe_texts::{interfaces, logs, named, occurring, pieces, texts};
use fc_syntax::Limits;
use std::alloc::Global;
use std::env::Env;
use std::io::{Error, ErrorKind};
use std::process::ExitCode;
use std::{env, io};

/// How many words stand before the files in those of a call.
fn words_before_files(call: &str) -> usize {
    match call {
        "read_module_in_room" | "read_interface_in_room" | "interface" | "name_back" => 2,
        "recursive" | "piece" | "read_off" | "mentions" | "count" => 2,
        "written" | "exchange" | "substitute" | "leave_binders" | "occurs" => 2,
        "reaches" | "subst_expr" | "subst_type" | "subst_co" | "freshen" => 3,
        _ => 1,
    }
}

/// What a call with these words answers on the nameless form of the module of a file.
fn answer_on_form(alloc: Global, words: &[&str], files: &[File]) -> Result<Vec<u8>, NoAnswer> {
    match (words, files) {
        (["written", order], [file]) => names::written(alloc, order, file),
        (["copy"], [file]) => changing::copied(alloc, file),
        (["outline"], [file]) => changing::outlined(alloc, file),
        (["measures"], [file]) => changing::measured(alloc, file),
        (["exchange", place], [file]) => changing::exchanged(alloc, place, file),
        (["substitute", place], [file]) => {
            changing::changed(alloc, Change::Arguments, place, file)
        }
        (["leave_binders", place], [file]) => {
            changing::changed(alloc, Change::Binders, place, file)
        }
        (["occurs", place], [file]) => changing::occurring(alloc, place, file),
        _ => Err(NoAnswer::Usage),
    }
}

/// What a call with these words answers on the named tree, where words are in scope.
fn answer_in_scope(alloc: Global, words: &[&str], files: &[File]) -> Result<Vec<u8>, NoAnswer> {
    match (words, files) {
        (["subst_expr", word, scope], [file]) => {
            named::put_in(alloc, By::Expression, word, scope, file)
        }
        (["subst_type", word, scope], [file]) => named::put_in(alloc, By::Type, word, scope, file),
        (["subst_co", word, scope], [file]) => {
            named::put_in(alloc, By::Coercion, word, scope, file)
        }
        (["freshen", word, scope], []) => named::fresh(alloc, word, scope),
        _ => answer_on_form(alloc, words, files),
    }
}

/// What a call with these words answers on files.
fn answer_of(alloc: Global, words: &[&str], files: &[File]) -> Result<Vec<u8>, NoAnswer> {
    match (words, files) {
        (["tokens"], [file]) => texts::tokens_in(alloc, file),
        (["read_module"], [file]) => texts::reads(alloc, Limits::standard().size, file),
        (["read_module_in_room", room], [file]) => texts::reads(alloc, number_in(room)?, file),
        (["print_module"], [file]) => texts::printed(alloc, file),
        (["read_expr"], [file]) => texts::form_read(alloc, Form::Expression, file),
        (["read_type"], [file]) => texts::form_read(alloc, Form::Type, file),
        (["read_decl"], [file]) => texts::form_read(alloc, Form::Declaration, file),
        (["up_to_deep_bracket"], [file]) => texts::cut(alloc, file),
        (["read_interface"], [file]) => interfaces::reads(alloc, Limits::standard().size, file),
        (["read_interface_in_room", room], [file]) => {
            interfaces::reads(alloc, number_in(room)?, file)
        }
        (["print_interface"], [file]) => interfaces::printed(alloc, file),
        (["interface", grow], [file]) => interfaces::told(alloc, grow, file),
        (["imports"], files) => interfaces::imported(alloc, files),
        (["simplify"], files) => simplified(alloc, files),
        (["print_log"], [file]) => logs::printed(alloc, file),
        (["resolve"], [file]) => names::resolved(alloc, file),
        (["name_back", words], [file]) => names::named_with(alloc, words, file),
        (["name_back_body"], [file]) => names::named_body(alloc, file),
        (["reaches", word, rename], [file]) => reaching::reached(alloc, word, rename, file),
        (["recursive", rename], [file]) => reaching::marked(alloc, rename, file),
        (["piece", number], [files @ .., piece]) => {
            pieces::told(alloc, Asked::Judged, number, files, piece)
        }
        (["read_off", number], [files @ .., piece]) => {
            pieces::told(alloc, Asked::ReadOff, number, files, piece)
        }
        (["same_types"], [file]) => pieces::compared(alloc, file),
        (["free"], [file]) => occurring::free_names(alloc, file),
        (["mentions", name], [file]) => occurring::mentioned(alloc, name, file),
        (["count", word], [file]) => occurring::counted(alloc, word, file),
        _ => answer_in_scope(alloc, words, files),
    }
}

/// What the call `apply` answers: its words are files, two hyphens, and a step.
fn answer_to_apply<F: Files>(
    alloc: Global,
    files: &mut F,
    words: &[&str],
) -> Result<Vec<u8>, NoAnswer> {
    let [names @ .., hyphens, step] = words else {
        return Err(NoAnswer::Usage);
    };
    if *hyphens != "--" {
        return Err(NoAnswer::Usage);
    }
    let files = read_all(alloc, files, names)?;
    applied(alloc, files.as_slice(), *step)
}

/// What the call of the words of a command line answers.
fn answer_to<F: Files>(
    alloc: Global,
    files: &mut F,
    words: &[String],
) -> Result<Vec<u8>, NoAnswer> {
    let words: Vec<&str> = words.iter().map(|word| word.as_str()).collect(alloc)?;
    let words = words.as_slice();
    let Some(call) = words.first() else {
        return Err(NoAnswer::Usage);
    };
    if *call == "apply" {
        return answer_to_apply(alloc, files, &words[1..]);
    }
    let before = words_before_files(*call);
    if words.len() < before {
        return Err(NoAnswer::Usage);
    }
    let files = read_all(alloc, files, &words[before..])?;
    answer_of(alloc, &words[..before], files.as_slice())
}

/// Why a command line has no words: one of them is not UTF-8, or no memory is left.
fn without_words(error: &Error) -> NoAnswer {
    if error.kind() == ErrorKind::InvalidData {
        NoAnswer::Usage
    } else {
        NoAnswer::Memory
    }
}

/// The words of the command line behind the program's name.
fn words_of<R: Env + AllocGlobal>(rt: &R) -> io::Result<Vec<String>> {
    Ok(env::args(rt)?.skip(1).collect(rt.alloc())?)
}

fn main(rt: HostRuntime) -> ExitCode {
    let alloc = rt.alloc();
    let mut out = HostSink::new(rt.stdout());
    let mut err = HostSink::new(rt.stderr());
    let words = words_of(&rt);
    let mut files = HostFiles::new(rt);
    let answer = match words {
        Ok(words) => answer_to(alloc, &mut files, words.as_slice()),
        Err(error) => Err(without_words(&error)),
    };
    ExitCode::from(tell(alloc, &mut out, &mut err, answer))
}
