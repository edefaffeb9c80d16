//! A whole search (`run`): first by the calling thread, which ends most searches, then by workers over the hub, and last by one thread
//! again.

ghost use Rattle.std.specs.Prelude.{◌≡◌, ◌≤◌, IfOk};
ghost use Rattle.s66_line.specs.{instrs_of};
ghost use Rattle.s66_pool.specs.{LedgerGoesOn};

use crate::crew::work;
use crate::gate::Gate;
use crate::hub::Hub;
use crate::limits::FIRST_SPLITS;
use crate::lone::LoneSearch;
use s66_isa::Profile;
use s66_ledger::{Answer, Ledger};
use s66_line::Block;
use s66_model::{Options, Rule};
use s66_node::{MarkTable, Walk};
use std::alloc::{AllocError, Global};
use std::sync::Wait;
use std::thread::Threads;

/// Whether a search has something left for workers: an open node whose floor is below the best time, and splits.
fn is_unfinished(ledger: &Ledger<'_>) -> bool {
    ledger.splits() < ledger.budget() && ledger.bound() < ledger.best()
}

/// Lets workers search what is left, until there is nothing more for them to do; none starts if nothing is. They know the nodes of
/// the table at first.
fn search_by_workers<'a, R: AllocGlobal + Threads + Wait + Sync, G: Gate + Sync>(
    rt: &R,
    ledger: Ledger<'a>,
    block: &Block,
    profile: &Profile,
    rule: Rule,
    gate: &G,
    marks: &mut MarkTable<'_>,
) -> Result<Ledger<'a>, AllocError>
    requires workers { 1 ≤ ledger.workers }
    requires marks { marks.old.problem ≡ record { block = instrs_of block.now; profile = profile.now } }
    ensures on { IfOk result (λ searched. LedgerGoesOn ledger.entry searched) }
    ensures marks { marks.new.problem ≡ marks.old.problem }
{
    if !is_unfinished(&ledger) {
        return Ok(ledger);
    }
    let (hub, mut seats) = Hub::new(rt.alloc(), ledger)?;
    work(rt, &hub, &mut seats, block, profile, rule, gate, marks)?;
    // every seat came back
    let Ok(ledger) = hub.close(seats) else {
        unreachable!()
    };
    Ok(ledger)
}

/// Searches the orders of a block in the calling thread alone, as `run` does with one worker. Of the options the number of workers
/// isn't read.
fn run_alone(
    alloc: Global,
    block: &Block,
    profile: &Profile,
    options: Options,
) -> Result<Answer, AllocError>
    ensures rule { IfOk result (λ a. a.rule ≡ options.rule) }
    ensures problem { IfOk result (λ a. a.problem ≡ record { block = instrs_of block.now; profile = profile.now }) }
    ensures budget { IfOk result (λ a. a.budget ≡ options.nodes) }
{
    LoneSearch::new(alloc, block, profile, options)?.finish()
}

/// Searches the orders of a block, and begins with the best of two list schedules. A single worker is the calling thread. If there
/// are several, the first `FIRST_SPLITS` splits are still the calling thread's, so that a short search starts no thread, and has one
/// result whatever the number of workers. What is left then they search, each in a thread of its own if one can be made, and else
/// one after the other. However their steps fall, it returns an answer for `options.nodes` splits.
///
/// `Err` is out of memory in the caller's own part, by which the search is dropped.
pub fn run<R: AllocGlobal + Threads + Wait + Sync, G: Gate + Sync>(
    rt: &R,
    block: &Block,
    profile: &Profile,
    options: Options,
    gate: &G,
) -> Result<Answer, AllocError>
    ensures rule { IfOk result (λ a. a.rule ≡ options.rule) }
    ensures problem { IfOk result (λ a. a.problem ≡ record { block = instrs_of block.now; profile = profile.now }) }
    ensures budget { IfOk result (λ a. a.budget ≡ options.nodes) }
{
    let alloc = rt.alloc();
    if options.workers == 1 {
        return run_alone(alloc, block, profile, options);
    }
    let mut walk = Walk::new(block, profile);
    let mut ledger = Ledger::new(alloc, &walk, options.rule, options.nodes, options.workers)?;
    ledger.offer_schedules(&mut walk)?;
    let mut marks = MarkTable::new(alloc, block, profile);
    ledger.search(alloc, &mut walk, &mut marks, FIRST_SPLITS, 0)?;
    let rule = options.rule;
    let ledger = search_by_workers(rt, ledger, block, profile, rule, gate, &mut marks)?;
    ledger.finish(alloc, &mut walk, &mut marks)
}
