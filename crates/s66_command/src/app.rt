//! The command line as `clap` is told of it: its subcommands and their options, built from the rows of `subcommand.rt`.

ghost use Rattle.std.specs.Prelude.{◌≡◌, IfOk};
ghost use Rattle.clap.specs.Words.{App, app_of, new_app};
ghost use Rattle.s66_command.specs.{AreCalledByName, in_row, in_rows, IsArgumentOf, IsCommandOf, app_of_subcommand, named_rule, option_rule, s66_app, with_options};

use crate::help;
use crate::subcommand::{OptionRow, SEARCH, STUDY, SUBCOMMANDS, SubcommandRow, Value, Work};
use clap::{Arg, ArgAction, Command, value_parser};
use std::alloc::{AllocError, Global};

/// The version of the program.
pub const VERSION: &str = "0.10.0";

/// An option by its name, with its help.
fn named_argument<'a>(alloc: Global, name: &'a str, text: &'a str) -> Arg<'a>
    ensures { IsArgumentOf (named_rule name.now) result }
{
    let argument = Arg::new(alloc, name).long(name).help(text);
    match help::long(name) {
        Some(text) => argument.long_help(text),
        None => argument,
    }
}

/// An option, with its help.
fn argument<'a>(alloc: Global, name: &'a str, value: Value, text: &'a str) -> Arg<'a>
    ensures { IsArgumentOf (option_rule name.now value) result }
{
    let argument = named_argument(alloc, name, text);
    match value {
        Value::Flag => argument.action(ArgAction::SetTrue),
        Value::Written => argument.value_name("TEXT"),
        Value::Number { least, most } => argument.value_name("N").value_parser(value_parser!(
            u32
        ).range(i64::from(least)..=i64::from(most))),
    }
}

/// A subcommand with its help, and without options.
fn described<'a>(alloc: Global, row: SubcommandRow) -> Command<'a>
    ensures { IsCommandOf (new_app row.entry.0.now) result }
{
    let (name, _, _, about, usage, ending) = row;
    Command::new(alloc, name)
        .about(about)
        .override_usage(usage)
        .after_help(ending)
}

/// A command line with these options too.
fn with_options<'a>(
    alloc: Global,
    command: Command<'a>,
    options: &'static [OptionRow],
) -> Result<Command<'a>, AllocError>
    ensures { (a : App) → IsCommandOf a command.entry →
        IfOk result (IsCommandOf (with_options a (in_rows options.now))) }
{
    let mut command = command;
    for &(name, value, text) in options {
        command = command.arg(argument(alloc, name, value, text))?;
    }
    Ok(command)
}

/// The command line of a subcommand.
pub(crate) fn subcommand_line<'a>(
    alloc: Global,
    row: SubcommandRow,
) -> Result<Command<'a>, AllocError>
    ensures { IfOk result (IsCommandOf (app_of_subcommand (in_row row.entry))) }
{
    let (_, work, own, _, _, _) = row;
    let line = described(alloc, row);
    match work {
        Work::Search => {
            let line = with_options(alloc, line, SEARCH)?;
            let line = with_options(alloc, line, own)?;
            let line = line.next_help_heading("For the study of searches");
            with_options(alloc, line, STUDY)
        }
        _ => with_options(alloc, line, own),
    }
}

/// The command line of the program, which usage and help call s66 whatever the program's file is named.
pub(crate) fn program<'a>(alloc: Global) -> Result<Command<'a>, AllocError>
    ensures app { IfOk result (λ c. app_of c ≡ s66_app) }
    ensures called { AreCalledByName }
{
    let mut program = Command::new(alloc, "s66")
        .bin_name("s66")?
        .version(VERSION)
        .about(help::ABOUT)
        .subcommand_required(true);
    for row in SUBCOMMANDS {
        let added = subcommand_line(alloc, *row)?;
        program = program.subcommand(added)?;
    }
    Ok(program)
}
