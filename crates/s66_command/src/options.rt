//! The values of a subcommand's options, as `clap` found them among the words. One that the subcommand doesn't take is not given.

ghost use Rattle.std.specs.Prelude.{◌≡◌, IfSome, List, is_some};
ghost use Rattle.clap.specs.Words.{Text, found_of};
ghost use Rattle.s66_command.specs.{IsFlagName, IsFoundBy, GivesBlock, GivesFlag, GivesNodes, GivesOrder, GivesProfile, GivesSearch, GivesWorkers, IsMistake, are_two, gives_conflict, gives_search};
ghost use Rattle.s66_command.specs.{has_value, is_one, rule_by, search_flags};

use crate::limits::{NODES_DEFAULT, WORKERS_DEFAULT};
use crate::strategy::Strategy;
use clap::ArgMatches;
use clap::error::ErrorKind;
use s66_model::{Options, Rule};

/// Whether a flag is given.
pub(crate) fn flag_in(matches: &ArgMatches, flag: &str) -> bool
    ensures { IsFlagName flag.now → (words : List Text) → IsFoundBy (found_of matches.now) words →
        GivesFlag flag.now words result }
{
    matches.get_flag(flag)
}

/// Whether a value is given for an option that has no other.
fn has_value(matches: &ArgMatches, name: &str) -> bool
    ensures { (words : List Text) → IsFoundBy (found_of matches.now) words → result ≡ has_value name.now words }
{
    matches.get_str(name).is_some()
}

/// The flags of a search, of which one at most may be given.
#[derive(Clone, Copy)]
struct SearchFlags {
    dominate: bool,
    dominate_tree: bool,
    deep: bool,
}

/// Which flags of a search are given.
fn search_flags_in(matches: &ArgMatches) -> SearchFlags
    ensures { (words : List Text) → IsFoundBy (found_of matches.now) words → result ≡ search_flags words }
{
    SearchFlags {
        dominate: flag_in(matches, "dominate"),
        dominate_tree: flag_in(matches, "dominate-tree"),
        deep: flag_in(matches, "deep"),
    }
}

/// How many workers search.
fn workers_in(matches: &ArgMatches) -> u8
    ensures { (words : List Text) → IsFoundBy (found_of matches.now) words → GivesWorkers words result }
{
    matches.get_one("workers").unwrap_or(WORKERS_DEFAULT)
}

/// The most splits of a search.
fn nodes_in(matches: &ArgMatches) -> u32
    ensures { (words : List Text) → IsFoundBy (found_of matches.now) words → GivesNodes words result }
{
    matches.get_one("nodes").unwrap_or(NODES_DEFAULT)
}

/// The number of the only block that is printed.
pub(crate) fn block_in(matches: &ArgMatches) -> Option<u32>
    ensures { (words : List Text) → IsFoundBy (found_of matches.now) words → GivesBlock words result }
{
    matches.get_one("block")
}

/// The text of the profile.
pub(crate) fn profile_in<'a>(matches: &ArgMatches<'a>) -> Option<&'a str>
    ensures { (words : List Text) → IsFoundBy (found_of matches.now) words → GivesProfile words result }
{
    matches.get_str("profile")
}

/// Which nodes dominated leaves name by the flags of a search.
fn rule_of(flags: SearchFlags) -> Rule
    ensures { result ≡ rule_by flags }
{
    if flags.dominate_tree || flags.deep {
        Rule::ClampedStanding
    } else if flags.dominate {
        Rule::WrittenEarlier
    } else {
        Rule::NoneNamed
    }
}

/// How the best order is looked for.
pub(crate) fn strategy_in(matches: &ArgMatches) -> Strategy
    requires { (words : List Text) × IsFoundBy (found_of matches.now) words }
    ensures { (words : List Text) → IsFoundBy (found_of matches.now) words → GivesSearch words result }
{
    let flags = search_flags_in(matches);
    let search = Options {
        workers: workers_in(matches),
        nodes: nodes_in(matches),
        rule: rule_of(flags),
    };
    Strategy {
        search,
        deep: flags.deep,
    }
}

/// How the best order is looked for, if the flag `--order` is given.
pub(crate) fn order_in(matches: &ArgMatches) -> Option<Strategy>
    requires { (words : List Text) × IsFoundBy (found_of matches.now) words }
    ensures { (words : List Text) → IsFoundBy (found_of matches.now) words → GivesOrder words result }
{
    if flag_in(matches, "order") {
        Some(strategy_in(matches))
    } else {
        None
    }
}

/// What is wrong with these flags together, if anything is. The texts are those of clap's own rule for this, on which there would be no
/// contract.
fn conflict_of(flags: SearchFlags) -> Option<&'static str>
    ensures { is_some result ≡ are_two flags }
{
    match (flags.dominate, flags.dominate_tree, flags.deep) {
        (true, true, false) => Some(
            "the argument '--dominate' cannot be used with '--dominate-tree'",
        ),
        (true, false, true) => Some("the argument '--dominate' cannot be used with '--deep'"),
        (false, true, true) => Some("the argument '--dominate-tree' cannot be used with '--deep'"),
        (true, true, true) => {
            Some("the argument '--dominate' cannot be used with:\n  --dominate-tree\n  --deep")
        }
        _ => None,
    }
}

/// Whether one of these flags is given.
fn is_one(flags: SearchFlags) -> bool
    ensures { result ≡ is_one flags }
{
    flags.dominate || flags.dominate_tree || flags.deep
}

/// Whether an option of a search is given, or the number of a block.
fn gives_search(matches: &ArgMatches) -> bool
    ensures { (words : List Text) → IsFoundBy (found_of matches.now) words → result ≡ gives_search words }
{
    let flag = is_one(search_flags_in(matches));
    let nodes = has_value(matches, "nodes");
    let workers = has_value(matches, "workers");
    let block = has_value(matches, "block");
    flag || nodes || workers || block
}

/// What is wrong with the options of a subcommand together, if anything is: the kind of the mistake, and its text.
pub(crate) fn conflict_in(matches: &ArgMatches) -> Option<(ErrorKind, &'static str)>
    ensures kind { IfSome result (λ conflict. IsMistake conflict.0) }
    ensures given { (words : List Text) → IsFoundBy (found_of matches.now) words →
        is_some result ≡ gives_conflict words }
{
    let columns = flag_in(matches, "columns");
    let keep = flag_in(matches, "keep");
    let compare = flag_in(matches, "compare");
    let search = gives_search(matches);
    if let Some(message) = conflict_of(search_flags_in(matches)) {
        return Some((ErrorKind::ArgumentConflict, message));
    }
    if columns && !keep {
        let message = "the following required arguments were not provided:\n  --keep";
        return Some((ErrorKind::MissingRequiredArgument, message));
    }
    if compare && search {
        let message =
            "the argument '--compare' cannot be used with options of a search, nor with '--block'";
        return Some((ErrorKind::ArgumentConflict, message));
    }
    None
}
