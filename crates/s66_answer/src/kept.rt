//! One answer after another, of which only what is asked for is kept (`Keep`): blocks in turn, each by all workers, or with facts side
//! by side, each by one thread.

ghost use Rattle.std.specs.Prelude.{◌≡◌, ◌≤◌, ◌<◌, ◌^◌, ◌+◌, ◌++◌, ℕ, List, true, IfOk, OnOk, length};
ghost use Rattle.s66_isa.specs.{Profile as ProfileOf};
ghost use Rattle.s66_command.specs.{Strategy as StrategyOf};
ghost use Rattle.s66_line.specs.{Block as BlockOf};
ghost use Rattle.s66_answer.specs.Answers.{Answer as AnswerOf};
ghost use Rattle.s66_answer.specs.Kept.{AreKept, IsKept, IsKeptAt, bounded_in, parts_in};
ghost use Rattle.s66_answer.specs.OfAnswers.{bounded_if};
ghost use Rattle.s66_answer.specs.Stored.{IsFor, answer_in};

use crate::answers::{Found, answer_alone, answer_to};
use crate::observer::Observer;
use crate::turns::{Task, make_each};
use s66_command::Strategy;
use s66_isa::Profile;
use s66_line::Block;
use std::alloc::{AllocError, Global};
use std::sync::Wait;
use std::thread::Threads;

/// An answer to a block under a profile, and the number of the block, from 1.
#[derive(Drop)]
pub struct BlockAnswer<'s, 'b> {
    pub alloc: Global,
    pub number: usize,
    pub block: &'s Block<'b>,
    pub profile: &'s Profile,
    pub strategy: Strategy,
    pub found: Found,
}

/// What is kept of an answer to a block. The answer itself, whose tree may be large, is let go.
pub trait Keep<X> {
    ghost part: { Self → StrategyOf → ProfileOf → ℕ → BlockOf → AnswerOf → List X };

    /// Whether documents are printed of what is kept.
    fn prints_documents(&self) -> bool {
        false
    }

    /// Appends what is kept of an answer.
    fn keep(&self, parts: &mut Vec<X>, answer: BlockAnswer) -> Result<(), AllocError>
        requires { IsFor answer.strategy answer.profile.now answer.block.now answer.found }
        ensures { OnOk result (parts.new.items ≡ parts.old.items ++
            part self.now answer.entry.strategy answer.entry.profile.now answer.entry.number answer.entry.block.now
            (answer_in answer.entry.found)) };
}

/// What is kept of an answer, and whether it is best.
#[derive(Drop)]
pub(crate) struct KeptBlock<X> {
    pub(crate) parts: Vec<X>,
    pub(crate) is_best: bool,
}

/// What is kept of answers to blocks, one after the other, and how many of them aren't best.
#[derive(Drop)]
pub(crate) struct Kept<X> {
    pub(crate) parts: Vec<X>,
    pub(crate) bounded: usize,
}

/// The searches of blocks, before which so many come, and what is kept of their answers.
#[derive(Drop)]
pub(crate) struct Searches<'s, 'b, K> {
    pub(crate) alloc: Global,
    pub(crate) what: &'s K,
    pub(crate) before: usize,
    pub(crate) blocks: &'s [Block<'b>],
    pub(crate) profile: &'s Profile,
    pub(crate) strategy: Strategy,
}

/// Appends what is kept of an answer to the block at a place. Returns whether the answer is best.
fn keep_found<X: Drop, K: Keep<X>>(
    searches: &Searches<'_, '_, K>,
    parts: &mut Vec<X>,
    place: usize,
    block: &Block,
    found: Found,
) -> Result<bool, AllocError>
    requires before { searches.now.before < 2 ^ 32 }
    requires within { place < length searches.now.blocks.now }
    requires found { IsFor searches.now.strategy searches.now.profile.now block.now found }
    ensures { let s = searches.now in IfOk result
        (λ best. IsKept (K.part s.what.now s.strategy s.profile.now) s.strategy s.profile.now
        (s.before + place + 1) block.now parts.old.items parts.new.items best) }
{
    let best = found.is_best();
    let answer = BlockAnswer {
        alloc: searches.alloc,
        number: searches.before + place + 1,
        block,
        profile: searches.profile,
        strategy: searches.strategy,
        found,
    };
    searches.what.keep(parts, answer)?;
    Ok(best)
}

/// What is kept of the block at a place, with facts, by the calling thread alone.
fn kept_at<X: Drop, K: Keep<X>>(
    searches: &Searches<'_, '_, K>,
    place: usize,
) -> Result<KeptBlock<X>, AllocError>
    requires deep { searches.now.strategy.deep ≡ true }
    requires before { searches.now.before < 2 ^ 32 }
    requires within { place < length searches.now.blocks.now }
    ensures { let s = searches.now in IfOk result
        (IsKeptAt (K.part s.what.now s.strategy s.profile.now) s.strategy s.profile.now s.before s.blocks.now place) }
{
    let block = &searches.blocks[place];
    let prints = searches.what.prints_documents();
    let found = answer_alone(
        searches.alloc,
        block,
        searches.profile,
        searches.strategy,
        prints,
    )?;
    let mut parts = Vec::new(searches.alloc);
    let is_best = keep_found(searches, &mut parts, place, block, found)?;
    Ok(KeptBlock { parts, is_best })
}

impl<'s, 'b, X: Drop, K: Keep<X>> Task<KeptBlock<X>> for Searches<'s, 'b, K> {
    ghost accepts = { λ t i. (i < length t.blocks.now) × (t.before < 2 ^ 32) × (t.strategy.deep ≡ true) };

    ghost gives = { λ t i kept. IsKeptAt (K.part t.what.now t.strategy t.profile.now) t.strategy t.profile.now t.before
        t.blocks.now i kept };

    fn make(&self, number: usize) -> Result<KeptBlock<X>, AllocError> {
        kept_at(self, number)
    }
}

/// So many, and one more if an answer isn't best.
fn counted(bounded: usize, is_best: bool) -> usize
    requires { bounded < 2 ^ 63 }
    ensures value { result ≡ bounded + bounded_if is_best }
    ensures near { result ≤ bounded + 1 }
{
    if is_best { bounded } else { bounded + 1 }
}

/// What was kept of each block, one after the other.
fn joined<X: Drop>(alloc: Global, each: Vec<KeptBlock<X>>) -> Result<Kept<X>, AllocError>
    ensures parts { IfOk result (λ all. all.parts.items ≡ parts_in each.items) }
    ensures bounded { IfOk result (λ all. all.bounded ≡ bounded_in each.items) }
{
    let mut parts = Vec::new(alloc);
    let mut bounded = 0;
    for kept in each {
        let KeptBlock {
            parts: mut own,
            is_best,
        } = kept;
        parts.append(&mut own)?;
        bounded = counted(bounded, is_best);
    }
    Ok(Kept { parts, bounded })
}

/// Searches the orders of blocks side by side, with facts, each by one thread.
fn keep_side_by_side<
    R: AllocGlobal + Threads + Sync,
    X: Send + Drop,
    K: Keep<X> + Sync,
    O: Observer,
>(rt: &R, searches: &Searches<'_, '_, K>, observer: &mut O) -> Result<Kept<X>, AllocError>
    requires deep { searches.now.strategy.deep ≡ true }
    requires before { searches.now.before < 2 ^ 32 }
    ensures { let s = searches.now in IfOk result
        (λ all. AreKept (K.part s.what.now s.strategy s.profile.now) s.strategy s.profile.now s.before s.blocks.now
        all.parts.items all.bounded) }
{
    let alloc = searches.alloc;
    let count = searches.blocks.len();
    let workers = searches.strategy.search.workers as usize;
    let each = make_each(rt, alloc, searches, count, workers, observer)?;
    let all = joined(alloc, each)?;
    Ok(all)
}

/// Searches the orders of each block, one after the other, by all workers.
fn keep_in_turn<R: AllocGlobal + Threads + Wait + Sync, X: Drop, K: Keep<X>, O: Observer>(
    rt: &R,
    searches: &Searches<'_, '_, K>,
    observer: &mut O,
) -> Result<Kept<X>, AllocError>
    requires before { searches.now.before < 2 ^ 32 }
    ensures { let s = searches.now in IfOk result
        (λ all. AreKept (K.part s.what.now s.strategy s.profile.now) s.strategy s.profile.now s.before s.blocks.now
        all.parts.items all.bounded) }
{
    let blocks = searches.blocks;
    let mut parts = Vec::new(searches.alloc);
    let mut bounded = 0;
    for (done, block) in blocks.iter().enumerate() {
        observer.done(done, blocks.len());
        let found = answer_to(rt, block, searches.profile, searches.strategy)?;
        let is_best = keep_found(searches, &mut parts, done, block, found)?;
        bounded = counted(bounded, is_best);
    }
    Ok(Kept { parts, bounded })
}

/// What is kept of an answer to each block. With facts the blocks are searched side by side, each by one thread; else one after the
/// other, each by all workers. `Err` is out of memory.
pub(crate) fn keep_each<
    R: AllocGlobal + Threads + Wait + Sync,
    X: Send + Drop,
    K: Keep<X> + Sync,
    O: Observer,
>(rt: &R, searches: &Searches<'_, '_, K>, observer: &mut O) -> Result<Kept<X>, AllocError>
    requires before { searches.now.before < 2 ^ 32 }
    ensures { let s = searches.now in IfOk result
        (λ all. AreKept (K.part s.what.now s.strategy s.profile.now) s.strategy s.profile.now s.before s.blocks.now
        all.parts.items all.bounded) }
{
    if searches.strategy.deep {
        keep_side_by_side(rt, searches, observer)
    } else {
        keep_in_turn(rt, searches, observer)
    }
}
