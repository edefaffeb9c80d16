//! Whole searches, by one thread and by workers, to be measured.

ghost use Rattle.std.specs.Prelude.{◌≤◌};
ghost use Rattle.s66_model.specs.{BUDGET_LIMIT};

use crate::tree::Counts;
use s66_isa::Profile;
use s66_ledger::{Answer, Ledger};
use s66_line::Block;
use s66_model::{Options, Rule};
use s66_node::{MarkTable, Walk};
use s66_pool::{Free, Hub, work};
use std::alloc::{AllocError, Global};
use std::sync::Wait;
use std::thread::Threads;

/// How many splits a search took, and the least total that it found. Its pushes aren't counted.
fn counts_of(answer: &Answer) -> Counts {
    Counts {
        splits: answer.splits(),
        pushes: 0,
        best: answer.time(),
    }
}

/// Offers two list schedules, and brings a search to its end. `Err` is out of memory.
pub(crate) fn finish(alloc: Global, mut ledger: Ledger<'_>) -> Result<Answer, AllocError>
    requires { 1 ≤ ledger.workers }
{
    let profile = *ledger.profile();
    let mut walk = Walk::new(ledger.block(), &profile);
    let mut marks = MarkTable::new(alloc, ledger.block(), &profile);
    ledger.offer_schedules(&mut walk)?;
    ledger.finish(alloc, &mut walk, &mut marks)
}

/// A search of at most `budget` splits without workers. `Err` is out of memory.
pub(crate) fn search_alone(
    alloc: Global,
    block: &Block,
    profile: &Profile,
    budget: u32,
) -> Result<Counts, AllocError>
    requires { budget ≤ BUDGET_LIMIT }
{
    let ledger = Ledger::new(
        alloc,
        &Walk::new(block, profile),
        Rule::NoneNamed,
        budget,
        1,
    )?;
    let answer = finish(alloc, ledger)?;
    Ok(counts_of(&answer))
}

/// A search by workers from the first split on, each in a thread of its own. `Err` is out of memory.
pub(crate) fn search_by_workers<R: AllocGlobal + Threads + Wait + Sync>(
    rt: &R,
    block: &Block,
    profile: &Profile,
    options: Options,
) -> Result<Counts, AllocError> {
    let alloc = rt.alloc();
    let Options {
        workers,
        nodes,
        rule,
    } = options;
    let ledger = Ledger::new(alloc, &Walk::new(block, profile), rule, nodes, workers)?;
    let (hub, mut seats) = Hub::new(alloc, ledger)?;
    let mut none = MarkTable::new(alloc, block, profile);
    work(rt, &hub, &mut seats, block, profile, rule, &Free, &mut none)?;
    // every seat came back
    let Ok(ledger) = hub.close(seats) else {
        return Err(AllocError);
    };
    let answer = finish(alloc, ledger)?;
    Ok(counts_of(&answer))
}
