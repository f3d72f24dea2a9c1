//! The program's command line, as the parser is told of it by the table.

ghost use Rattle.std.specs.Prelude.{◌≡◌, fold, false, IfOk};
ghost use Rattle.clap.specs.Words.{app_of, rule_of};
ghost use Rattle.ic_args.specs.Words.{app_for, command_line, program, rule_for};
ghost use Rattle.ic_args.specs.inner.Making.{IsMade, IsRule};

use crate::help::{PROGRAM, after};
use crate::rows::{Argument, Choice, Entry, Number, Place, Text};
use clap::builder::ValueParser;
use clap::{Arg, ArgAction, Command};
use std::alloc::{AllocError, Global};

/// The version of the program. A build with nothing proved says so in place of the last word (build.py).
const VERSION: &str = "0.2.0 (proved)";

/// What the parser is told of a row.
fn arg_of<'a>(alloc: Global, argument: Argument) -> Result<Arg<'a>, AllocError>
    ensures { IfOk result (IsRule (rule_for argument)) }
{
    match argument {
        Argument::Flag(flag) => Ok(
            Arg::new(alloc, flag.name)
                .long(flag.name)
                .action(ArgAction::SetTrue)
                .help(flag.help),
        ),
        Argument::Text(text) => text_arg(alloc, text),
        Argument::Number(number) => number_arg(alloc, number),
        Argument::Choice(choice) => Ok(choice_arg(alloc, choice)),
        Argument::Place(place) => Ok(place_arg(alloc, place)),
    }
}

/// What it is told of an option with a text.
fn text_arg<'a>(alloc: Global, text: Text) -> Result<Arg<'a>, AllocError>
    ensures { IfOk result (IsRule (rule_for (Argument.Text text))) }
{
    Arg::new(alloc, text.name)
        .long(text.name)
        .value_name(text.shown)
        .required(text.needed)
        .help(text.help)
        .conflicts_with_all(text.apart)
}

/// What it is told of an option with a number.
fn number_arg<'a>(alloc: Global, number: Number) -> Result<Arg<'a>, AllocError>
    ensures { IfOk result (IsRule (rule_for (Argument.Number number))) }
{
    let arg = Arg::new(alloc, number.name)
        .long(number.name)
        .value_name(number.shown)
        .help(number.help)
        .value_parser(ValueParser::Unsigned(number.least, number.most));
    let arg = match number.default {
        Some(text) => arg.default_value(text),
        None => arg,
    };
    arg.conflicts_with_all(number.apart)
}

/// What it is told of an option with one of several words.
fn choice_arg<'a>(alloc: Global, choice: Choice) -> Arg<'a>
    ensures { IsRule (rule_for (Argument.Choice choice)) result }
{
    Arg::new(alloc, choice.name)
        .long(choice.name)
        .value_name(choice.shown)
        .default_value(choice.default)
        .help(choice.help)
        .value_parser(ValueParser::Names(choice.among))
}

/// What it is told of what stands after the options.
fn place_arg<'a>(alloc: Global, place: Place) -> Arg<'a>
    ensures { IsRule (rule_for (Argument.Place place)) result }
{
    let arg = Arg::new(alloc, place.name)
        .value_name(place.shown)
        .required(place.needed)
        .help(place.help);
    match (place.several, place.needed) {
        (false, _) => arg,
        (true, true) => arg.num_args(1..),
        (true, false) => arg.num_args(0..),
    }
}

/// The command of a word.
fn command_of<'a>(alloc: Global, entry: Entry) -> Result<Command<'a>, AllocError>
    ensures { IfOk result (IsMade (app_for entry)) }
{
    let mut command = Command::new(alloc, entry.name)
        .about(entry.about)
        .after_help(after(entry.word));
    for argument in entry.arguments {
        command = command.arg(arg_of(alloc, *argument)?)?;
    }
    Ok(command)
}

/// The program without its words.
fn program<'a>(alloc: Global) -> Result<Command<'a>, AllocError>
    ensures { IfOk result (λ command. app_of command ≡ program) }
{
    Command::new(alloc, "icserve")
        .about("A job server for the interaction calculus")
        .after_help(PROGRAM)
        .version(VERSION)
        .no_binary_name(true)
        .disable_help_subcommand(true)
        .subcommand_required(true)
        .arg_required_else_help(true)
        .bin_name("icserve")
}

/// The program's command line, by a table of its words.
pub(crate) fn command<'a>(alloc: Global, table: &[Entry]) -> Result<Command<'a>, AllocError>
    ensures { IfOk result (λ command. app_of command ≡ command_line table.now) }
{
    let mut program = program(alloc)?;
    for entry in table {
        program = program.subcommand(command_of(alloc, *entry)?)?;
    }
    Ok(program)
}
