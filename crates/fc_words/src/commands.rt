//! The command line, as clap is told of it.
ghost use Rattle.std.specs.Prelude.{◌≡◌, IfOk, false};
ghost use Rattle.clap.specs.Walk.{rule_of};
ghost use Rattle.clap.specs.Simple.{app_of, shape_of, with_rule, with_subcommand};
ghost use Rattle.clap.specs.declared.builder.command.Command.TheViews.{out-Command as fields_of};
ghost use Rattle.fc_words.specs.Commands.{build_app, coreopt_app, files_rule, lint_app, number_rule, out_rule, top_app, tuned_app, why_app};

use clap::builder::ValueParser;
use clap::{Arg, ArgAction, Command};
use std::alloc::{AllocError, Global};

/// `--name N`, with N up to `most`.
fn number_arg<'a>(alloc: Global, name: &'a str, most: u64, given: &'a str) -> Arg<'a>
    ensures rule { rule_of result ≡ number_rule name.now most given.now }
    ensures local { result.global ≡ false }
{
    Arg::new(alloc, name)
        .long(name)
        .value_parser(ValueParser::Unsigned(0, most))
        .default_value(given)
}

/// `--out PREFIX`.
fn out_arg<'a>(alloc: Global) -> Arg<'a>
    ensures rule { rule_of result ≡ out_rule }
    ensures local { result.global ≡ false }
{
    Arg::new(alloc, "out").long("out").default_value("./")
}

/// The files, one or more.
fn files_arg<'a>(alloc: Global) -> Arg<'a>
    ensures rule { rule_of result ≡ files_rule }
    ensures local { result.global ≡ false }
{
    Arg::new(alloc, "files")
        .action(ArgAction::Append)
        .required(true)
}

/// The command with one more argument.
fn with_arg<'a>(command: Command<'a>, arg: Arg<'a>) -> Result<Command<'a>, AllocError>
    requires { arg.global ≡ false }
    ensures app { IfOk result (λ c. app_of c ≡ with_rule (app_of command.entry) (rule_of arg.entry)) }
    ensures local { IfOk result (λ c. (fields_of c).has_globals ≡ (fields_of command.entry).has_globals) }
{
    command.arg(arg)
}

/// The command with one more command below it.
fn with_command<'a>(command: Command<'a>, below: Command<'a>) -> Result<Command<'a>, AllocError>
    requires { (fields_of below).has_globals ≡ false }
    ensures app { IfOk result (λ c. app_of c ≡ with_subcommand (app_of command.entry) (shape_of below.entry)) }
    ensures local { IfOk result (λ c. (fields_of c).has_globals ≡ (fields_of command.entry).has_globals) }
{
    command.subcommand(below)
}

/// A command with the three numbers.
fn tuned_command<'a>(alloc: Global, name: &'a str) -> Result<Command<'a>, AllocError>
    ensures app { IfOk result (λ c. app_of c ≡ tuned_app name.entry.now) }
    ensures local { IfOk result (λ c. (fields_of c).has_globals ≡ false) }
{
    let ticks = number_arg(alloc, "ticks", 1_000_000, "2000");
    let small = number_arg(alloc, "small", 10_000, "30");
    let grow = number_arg(alloc, "grow", 10_000, "300");
    let command = with_arg(Command::new(alloc, name), ticks)?;
    let command = with_arg(command, small)?;
    with_arg(command, grow)
}

fn build_command<'a>(alloc: Global) -> Result<Command<'a>, AllocError>
    ensures app { IfOk result (λ c. app_of c ≡ build_app) }
    ensures local { IfOk result (λ c. (fields_of c).has_globals ≡ false) }
{
    let command = with_arg(tuned_command(alloc, "build")?, out_arg(alloc))?;
    with_arg(command, files_arg(alloc))
}

fn why_command<'a>(alloc: Global) -> Result<Command<'a>, AllocError>
    ensures app { IfOk result (λ c. app_of c ≡ why_app) }
    ensures local { IfOk result (λ c. (fields_of c).has_globals ≡ false) }
{
    with_arg(tuned_command(alloc, "why")?, files_arg(alloc))
}

fn lint_command<'a>(alloc: Global) -> Result<Command<'a>, AllocError>
    ensures app { IfOk result (λ c. app_of c ≡ lint_app) }
    ensures local { IfOk result (λ c. (fields_of c).has_globals ≡ false) }
{
    with_arg(Command::new(alloc, "lint"), files_arg(alloc))
}

/// The command above the others.
fn top_command<'a>(alloc: Global) -> Command<'a>
    ensures app { app_of result ≡ top_app }
    ensures local { (fields_of result).has_globals ≡ false }
{
    Command::new(alloc, "coreopt")
        .no_binary_name(true)
        .disable_help_flag(true)
        .disable_help_subcommand(true)
        .subcommand_required(true)
}

/// The whole command line: one of three commands.
pub(crate) fn coreopt_command<'a>(alloc: Global) -> Result<Command<'a>, AllocError>
    ensures { IfOk result (λ c. app_of c ≡ coreopt_app) }
{
    let command = with_command(top_command(alloc), build_command(alloc)?)?;
    let command = with_command(command, why_command(alloc)?)?;
    with_command(command, lint_command(alloc)?)
}
