//! Commands as values, and how a test runs one; for other tests.

ghost use Rattle.std.specs.Prelude.{◌≤◌};
ghost use Rattle.s66_model.specs.{BUDGET_LIMIT, WORKERS_LIMIT};

use s66_device::{OverRead, OverWrite};
use s66_model::{Options, Rule};
use s66_program::{Asked, Command, Fault, OrderStyle, Silent, Status, Strategy, run_command};
use std::process::Abort;
use std::sync::Wait;
use std::thread::Threads;

/// `deps`, of all blocks. Each other command is this one with fields changed.
pub(crate) const PLAIN: Command<'static> = Command {
    cut: false,
    block: None,
    profile: None,
    strict: false,
    some: false,
    asked: Asked::Deps { text: false },
};

/// `check` without sentences.
pub(crate) const PLAIN_CHECK: Command<'static> = Command {
    asked: Asked::Check { text: false },
    ..PLAIN
};

/// How `order` prints if no flag is given.
pub(crate) const STYLE: OrderStyle = OrderStyle {
    trace: false,
    keep: false,
    columns: false,
    quiet: false,
};

/// How it prints by `--trace`.
pub(crate) const TRACED: OrderStyle = OrderStyle {
    trace: true,
    ..STYLE
};

/// What is asked for, of all blocks, under the standard profile.
pub(crate) fn plain(asked: Asked) -> Command<'static> {
    Command { asked, ..PLAIN }
}

/// A search by workers, of at most so many splits, by a rule.
fn search_by(workers: u8, nodes: u32, rule: Rule) -> Strategy
    requires { (1 ≤ workers) × (workers ≤ WORKERS_LIMIT) × (nodes ≤ BUDGET_LIMIT) }
{
    Strategy {
        search: Options {
            workers,
            nodes,
            rule,
        },
        deep: false,
    }
}

/// `order --trace` by such a search.
pub(crate) fn order_by(workers: u8, nodes: u32, rule: Rule) -> Command<'static>
    requires { (1 ≤ workers) × (workers ≤ WORKERS_LIMIT) × (nodes ≤ BUDGET_LIMIT) }
{
    let style = TRACED;
    let strategy = search_by(workers, nodes, rule);
    plain(Asked::Order { strategy, style })
}

/// `prove` by such a search.
pub(crate) fn prove_by(workers: u8, nodes: u32, rule: Rule) -> Command<'static>
    requires { (1 ≤ workers) × (workers ≤ WORKERS_LIMIT) × (nodes ≤ BUDGET_LIMIT) }
{
    let strategy = search_by(workers, nodes, rule);
    plain(Asked::Prove { strategy })
}

/// The result of a command at a text, and what it wrote.
pub(crate) fn run<R: AllocGlobal + Threads + Wait + Sync>(
    rt: &R,
    command: Command,
    text: &[u8],
) -> (Result<Status, Fault>, Vec<u8>) {
    let mut reader = OverRead::new(text);
    let mut writer = OverWrite::new(Vec::new(rt.alloc()));
    let result = match run_command(rt, command, &mut reader, &mut writer, &mut Silent) {
        Ok(ended) => Ok(ended.status),
        Err(fault) => Err(fault),
    };
    (result, writer.into_inner())
}

/// Checks how a command ends at a text, and what it writes.
pub(crate) fn check_output<R: AllocGlobal + Abort + Threads + Wait + Sync>(
    rt: &R,
    command: Command,
    text: &str,
    status: Status,
    output: &str,
) {
    let (result, written) = run(rt, command, text.as_bytes());
    assert_eq!(rt; result, Ok(status), "{text}");
    assert_eq!(rt; written.as_slice(), output.as_bytes(), "{text}");
}
