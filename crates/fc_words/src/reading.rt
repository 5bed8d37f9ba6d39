//! Reads the words.
ghost use Rattle.std.specs.Prelude.{◌≡◌, ◌∷◌, [], Some, None, IfOk, IfSome, IsErrOf, MatchOption, codes, map, option_map, option_and_then};
ghost use Rattle.clap.specs.Walk.{rows_of};
ghost use Rattle.clap.specs.Matches.{found_of};
ghost use Rattle.clap.specs.Simple.{subcommand_rows_of};
ghost use Rattle.fc_words.specs.Asking.{asked, asked_by, asked_of, number_in, text_in, texts, tuning_in, values_in};
ghost use Rattle.fc_words.specs.Numbers.{HasNumbers, HasNumbersBy, IsNumber, IsWithinRanges};

use crate::commands::coreopt_command;
use crate::{Command, Request, Tuning, Unasked};
use clap::ArgMatches;
use clap::error::ErrorKind;
use std::alloc::Global;

/// The text of an option, its value or its default.
fn text_of<'a>(matches: &ArgMatches<'a>, id: &str) -> &'a str
    ensures { result.now ≡ text_in id.now (rows_of (found_of matches.now)) }
{
    matches.get_str(id).unwrap_or("")
}

/// The number that an option says.
fn number_of(matches: &ArgMatches<'_>, id: &str) -> u64
    requires { IsNumber u64.MAX (text_in id.now (rows_of (found_of matches.now))) }
    ensures { result ≡ number_in id.now (rows_of (found_of matches.now)) }
{
    text_of(matches, id).parse::<u64>().unwrap()
}

/// The three numbers.
fn tuning_of(matches: &ArgMatches<'_>) -> Tuning
    requires { HasNumbers (rows_of (found_of matches.now)) }
    ensures { result ≡ tuning_in (rows_of (found_of matches.now)) }
{
    Tuning {
        ticks: number_of(matches, "ticks"),
        small: number_of(matches, "small"),
        grow: number_of(matches, "grow"),
    }
}

/// The first of the files, and those behind it.
fn files_of<'b, 'a>(matches: &'b ArgMatches<'a>) -> Option<(&'a str, &'b [&'a str])>
    ensures { let files = values_in (codes "files") (rows_of (found_of matches.now)) in
        MatchOption result (files ≡ []) (λ p. files ≡ p.0.now ∷ map (λ f. f.now) p.1.now) }
{
    let files = matches.get_strs("files")?;
    let (file, others) = files.split_first()?;
    Some((*file, others))
}

/// The command that was met, and what was found behind it.
fn met_in<'b, 'a>(matches: &'b ArgMatches<'a>) -> Option<(&'a str, &'b ArgMatches<'a>)>
    ensures { option_map (λ p. (p.0.now, rows_of (found_of p.1.now))) result ≡ subcommand_rows_of matches.now }
{
    matches.subcommand()
}

/// What is asked for by what clap found.
fn request_in<'a>(alloc: Global, matches: &ArgMatches<'a>) -> Result<Request<'a>, Unasked>
    requires { IfSome (subcommand_rows_of matches.now) HasNumbersBy }
    ensures ok { IfOk result (λ r. option_and_then asked_by (subcommand_rows_of matches.now) ≡ Some (asked_of r)) }
    ensures within { IfOk result (λ r. IsWithinRanges r.command) }
    ensures usage { IsErrOf result Unasked.Usage → option_and_then asked_by (subcommand_rows_of matches.now) ≡ None }
{
    let Some((name, found)) = met_in(matches) else {
        return Err(Unasked::Usage);
    };
    let Some((file, others)) = files_of(found) else {
        return Err(Unasked::Usage);
    };
    let command = if name == "lint" {
        Command::Lint
    } else {
        let tuning = tuning_of(found);
        if tuning.small > tuning.grow {
            return Err(Unasked::Usage);
        }
        if name == "why" {
            Command::Why(tuning)
        } else {
            Command::Build(tuning, text_of(found, "out"))
        }
    };
    let Ok(others) = others.to_vec(alloc) else {
        return Err(Unasked::Memory);
    };
    Ok(Request {
        command,
        file,
        others,
    })
}

/// What the words of a command line ask for, without the name of the program.
///
/// # Errors
///
/// `Usage` only where clap refuses the words for another cause than that it is out of memory, or `small` is above `grow`; `Memory`
/// where there is no memory left.
pub fn request_of<'a>(alloc: Global, words: &'a [String]) -> Result<Request<'a>, Unasked>
    ensures ok { IfOk result (λ r. asked (texts words.entry.now) ≡ Some (asked_of r)) }
    ensures within { IfOk result (λ r. IsWithinRanges r.command) }
    ensures usage { IsErrOf result Unasked.Usage → asked (texts words.entry.now) ≡ None }
{
    let Ok(command) = coreopt_command(alloc) else {
        return Err(Unasked::Memory);
    };
    match command.try_get_matches_from(words) {
        Ok(matches) => request_in(alloc, &matches),
        Err(error) => {
            if error.kind() == ErrorKind::OutOfMemory {
                Err(Unasked::Memory)
            } else {
                Err(Unasked::Usage)
            }
        }
    }
}
