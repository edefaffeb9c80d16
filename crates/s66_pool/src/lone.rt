//! A search of one thread that stops and goes on (`LoneSearch`): by the loop of `s66_ledger`, after some splits or at a time that is
//! enough. A single worker and `--deep` use it.

use s66_isa::Profile;
use s66_ledger::{Answer, Ledger};
use s66_line::Block;
use s66_model::Options;
use s66_node::{MarkTable, Walk};
use s66_time::Timed;
use std::alloc::{AllocError, Global};
use std::marker::Model;

/// A search of a block's orders in the calling thread alone, which stops after as many splits as it is told, and goes on from there.
/// It starts no thread, and waits for nobody.
#[derive(Drop)]
pub struct LoneSearch<'a> {
    alloc: Global,
    walk: Walk<'a>,
    ledger: Ledger<'a>,
    marks: MarkTable<'a>,
}

/// `Err` if memory has run out for a mark.
fn all_kept(marks: &MarkTable<'_>) -> Result<(), AllocError> {
    if marks.lacks_memory() {
        return Err(AllocError);
    }
    Ok(())
}

impl<'a> Model for LoneSearch<'a> {
    ghost use Rattle.s66_ledger.specs.{LedgerOf};
    ghost use Rattle.s66_pool.specs.Workers.{IsLone};

    ghost Value = { LedgerOf };

    ghost view = { λ s. s.ledger };

    ghost invariant = { λ s. IsLone s.ledger s.walk.problem s.marks.problem };
}

impl<'a> LoneSearch<'a> {
    ghost use Rattle.std.specs.Prelude.{◌≡◌, ◌≤◌, ◌↔◌, IsTrue, IfOk, OnOk};
    ghost use Rattle.s66_line.specs.{instrs_of};
    ghost use Rattle.s66_model.specs.{best_time, IsFinished, bound_of};
    ghost use Rattle.s66_ledger.specs.{answer_of};
    ghost use Rattle.s66_pool.specs.{LedgerGoesOn, HasTaken};

    /// Before the first split: its best order is the best of the source order and two list schedules. Of the options the number of
    /// workers isn't read. `Err` is out of memory.
    pub fn new(
        alloc: Global,
        block: &'a Block<'a>,
        profile: &Profile,
        options: Options,
    ) -> Result<LoneSearch<'a>, AllocError>
        ensures rule { IfOk result (λ s. s.rule ≡ options.rule) }
        ensures problem { IfOk result (λ s. s.problem ≡ record { block = instrs_of block.now; profile = profile.now }) }
        ensures budget { IfOk result (λ s. s.budget ≡ options.nodes) }
    {
        let mut walk = Walk::new(block, profile);
        let mut ledger = Ledger::new(alloc, &walk, options.rule, options.nodes, 1)?;
        ledger.offer_schedules(&mut walk)?;
        Ok(LoneSearch {
            alloc,
            walk,
            ledger,
            marks: MarkTable::new(alloc, block, profile),
        })
    }

    /// Searches until `most` splits are made in all, the best order takes no more than `goal` minor cycles, or the search is over. `Err`
    /// is out of memory, also for a mark: so what it does never depends on how much memory there is. What it did by then stays, and it
    /// may go on.
    pub fn search(&mut self, most: u32, goal: u32) -> Result<(), AllocError>
        ensures { LedgerGoesOn self.old self.new }
    {
        self.ledger
            .search(self.alloc, &mut self.walk, &mut self.marks, most, goal)?;
        all_kept(&self.marks)
    }

    /// Offers an order: it is the best from then on if it is faster, and is one of the block under the profile. `Err` is out of memory;
    /// the best order so far stays.
    pub fn offer(&mut self, timed: &Timed) -> Result<(), AllocError>
        ensures on { LedgerGoesOn self.old self.new }
        ensures order { OnOk result (HasTaken self.new timed.now) }
    {
        self.ledger.offer_order(timed.duplicate())?;
        Ok(())
    }

    /// The best order so far, with its times.
    pub fn best(&self) -> &Timed
        ensures { result.now ≡ record { problem = self.now.problem; numbers = self.now.state.best } }
    {
        self.ledger.best_order()
    }

    /// How many splits it has made.
    pub fn splits(&self) -> u32
        ensures value { result ≡ self.now.state.spent }
        ensures within { result ≤ self.now.budget }
    {
        self.ledger.splits()
    }

    /// Whether no legal order takes less than the best one so far. In time linear in the number of nodes.
    pub fn is_best(&self) -> bool
        ensures { IsTrue result ↔
            (best_time self.now.problem self.now.state ≤ bound_of self.now.problem self.now.state) }
    {
        self.ledger.best() <= self.ledger.bound()
    }

    /// Goes on until the search is over or the budget is spent, and gives its answer, which takes no longer than the best order so far. `Err`
    /// is out of memory, and drops the search.
    pub fn finish(self) -> Result<Answer, AllocError>
        ensures rule { IfOk result (λ a. a.rule ≡ self.entry.rule) }
        ensures problem { IfOk result (λ a. a.problem ≡ self.entry.problem) }
        ensures budget { IfOk result (λ a. a.budget ≡ self.entry.budget) }
        ensures finished { IfOk result (λ a.
            IsFinished self.entry.rule self.entry.problem self.entry.budget self.entry.state (answer_of a)) }
    {
        let LoneSearch {
            alloc,
            mut walk,
            ledger,
            mut marks,
        } = self;
        let answer = ledger.finish(alloc, &mut walk, &mut marks)?;
        all_kept(&marks)?;
        Ok(answer)
    }
}
