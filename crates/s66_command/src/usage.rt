//! From the words of the command line to a command, or to help or a mistake with its text and status.

ghost use Rattle.std.specs.Prelude.{◌≡◌, IfOk, IfErr, List, MatchResult, map};
ghost use Rattle.clap.specs.Words.{Text, found_of, kind_of};
ghost use Rattle.clap.specs.declared.error.kind.ErrorKind.TheVariants.{UnknownArgument};
ghost use Rattle.s66_command.specs.FoundOptions.{IsFoundBy, IsTaken};
ghost use Rattle.s66_command.specs.Rows.{IsSubcommand};
ghost use Rattle.s66_command.specs.Usage.{Asks, AsksBy, Calls, IsUsageOf, Refuses, go_deep};
ghost use Rattle.s66_command.specs.declared.usage.Usage.TheVariants.{OutOfMemory};

use crate::app::{program, subcommand_line};
use crate::command::{Asked, Command, OrderStyle, SumStyle};
use crate::options::{block_in, conflict_in, flag_in, order_in, profile_in, strategy_in};
use crate::subcommand::row_named;
use clap::error::ErrorKind;
use clap::{ArgMatches, Error};
use std::alloc::{AllocError, Global};
use std::convert::AsStr;

/// Why words are no command.
#[derive(Debug, Drop)]
pub enum Usage {
    /// They ask for help or for the version, which is the text.
    Help(String),
    /// They are a mistake, which the text names.
    Bad(String),
    OutOfMemory,
}

impl From<AllocError> for Usage {
    ghost from_gives = { λ _ usage. usage ≡ OutOfMemory };

    fn from(_e: AllocError) -> Usage {
        Usage::OutOfMemory
    }
}

impl Usage {
    ghost use Rattle.std.specs.Prelude.{◌≡◌};
    ghost use Rattle.s66_command.specs.{usage_code};

    /// The status of the process.
    pub fn code(&self) -> u8
        ensures { result ≡ usage_code self.now }
    {
        match self {
            Usage::Help(_) => 0,
            Usage::Bad(_) => 2,
            Usage::OutOfMemory => 4,
        }
    }
}

/// The text of an unknown argument, with the way out after it: a word that is no option may be meant as the name of a file.
fn with_way_out(text: String) -> Usage
    ensures { IsUsageOf UnknownArgument result }
{
    let mut text = text;
    if text.as_str().starts_with("error: unexpected argument '-") {
        return Usage::Bad(text);
    }
    match text.push_str("s66 reads standard input: < FILE\n") {
        Ok(()) => Usage::Bad(text),
        Err(AllocError) => Usage::OutOfMemory,
    }
}

/// What an error of clap's is, with its text.
fn usage_of(alloc: Global, error: &Error) -> Usage
    ensures { IsUsageOf (kind_of error.now) result }
{
    let Ok(text) = error.to_string(alloc) else {
        return Usage::OutOfMemory;
    };
    match error.kind() {
        ErrorKind::DisplayHelp | ErrorKind::DisplayVersion => Usage::Help(text),
        ErrorKind::OutOfMemory => Usage::OutOfMemory,
        ErrorKind::UnknownArgument => with_way_out(text),
        _ => Usage::Bad(text),
    }
}

/// A mistake of this kind, as the command line of the subcommand of this name tells it.
fn mistake(alloc: Global, name: &str, kind: ErrorKind, message: &str) -> Usage
    requires { IsSubcommand name.now }
    ensures { IsUsageOf kind result }
{
    let Some(row) = row_named(name) else {
        unreachable!()
    };
    let Ok(mut command) = subcommand_line(alloc, row) else {
        return Usage::OutOfMemory;
    };
    match command.error(kind, message) {
        Ok(error) => usage_of(alloc, &error),
        Err(AllocError) => Usage::OutOfMemory,
    }
}

/// What the subcommand of this name writes, by what clap found of its options.
fn asked_by(name: &str, given: &ArgMatches) -> Asked
    requires named { IsSubcommand name.now }
    requires found { (words : List Text) × IsFoundBy (found_of given.now) words }
    ensures { (words : List Text) → IsFoundBy (found_of given.now) words → Calls words name.now → AsksBy words result }
{
    let text = flag_in(given, "text");
    let trace = flag_in(given, "trace");
    let strategy = strategy_in(given);
    let order = order_in(given);
    let compare = flag_in(given, "compare");
    match name {
        "lint" => Asked::Lint,
        "guard" => Asked::Guard,
        "order" => {
            let style = OrderStyle {
                trace,
                keep: flag_in(given, "keep"),
                columns: flag_in(given, "columns"),
                quiet: flag_in(given, "quiet"),
            };
            Asked::Order { strategy, style }
        }
        "compare" => Asked::Compare { text },
        "sum" => {
            let style = SumStyle {
                trace,
                words: flag_in(given, "words"),
            };
            Asked::Sum { strategy, style }
        }
        "prove" => Asked::Prove { strategy },
        "check" => Asked::Check { text },
        "time" => Asked::Time { trace },
        "why" => Asked::Why { order, text },
        "chart" => {
            let units = flag_in(given, "units");
            Asked::Chart { text, units }
        }
        "deps" => Asked::Deps { text },
        "page" => {
            if compare {
                Asked::Pairs
            } else {
                Asked::Page { strategy }
            }
        }
        "json" => Asked::Json { order },
        _ => unreachable!(),
    }
}

/// The command of the subcommand of this name, by what clap found of its options.
fn command_by<'a>(name: &str, given: &ArgMatches<'a>) -> Command<'a>
    requires named { IsSubcommand name.now }
    requires found { (words : List Text) × IsFoundBy (found_of given.now) words }
    ensures { (words : List Text) → IsFoundBy (found_of given.now) words → Calls words name.now → Asks words result }
{
    Command {
        cut: flag_in(given, "cut"),
        block: block_in(given),
        profile: profile_in(given),
        strict: flag_in(given, "strict"),
        some: flag_in(given, "some"),
        asked: asked_by(name, given),
    }
}

/// The command that the words give as clap took them. Options that don't go together are a mistake.
fn asked<'a>(alloc: Global, matches: &ArgMatches<'a>) -> Result<Command<'a>, Usage>
    requires { (words : List Text) × IsTaken matches.now words }
    ensures { (words : List Text) → IsTaken matches.now words → MatchResult result (Asks words) (Refuses words) }
{
    let Some((name, given)) = matches.subcommand() else {
        unreachable!()
    };
    match conflict_in(given) {
        Some((kind, message)) => Err(mistake(alloc, name, kind, message)),
        None => Ok(command_by(name, given)),
    }
}

/// The command that the words give, of which the first is the program's name.
pub fn command_of<'a, S: AsStr>(alloc: Global, words: &'a [S]) -> Result<Command<'a>, Usage>
    ensures ok { IfOk result (λ command. Asks (map S.text words.entry.now) command) }
    ensures err { IfErr result (λ usage. Refuses (map S.text words.entry.now) usage) }
{
    match program(alloc)?.try_get_matches_from(words) {
        Ok(matches) => asked(alloc, &matches),
        Err(error) => Err(usage_of(alloc, &error)),
    }
}

/// Whether the words, of which the first is the program's name, ask for a search or a check, whose calls go deepest.
pub fn goes_deep<S: AsStr>(words: &[S]) -> bool
    ensures { result ≡ go_deep (map S.text words.now) }
{
    match words {
        [_, name, ..] => match row_named(name.as_str()) {
            Some((_, work, _, _, _, _)) => work.is_deep(),
            None => false,
        },
        _ => false,
    }
}
