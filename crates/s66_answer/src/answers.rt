//! What is answered for a block: by a search of its orders, shared by all workers (`answer_to`), or by one thread with facts
//! (`answer_alone`).
//!
//! With facts a few splits come first, which decide most blocks. Else `s66_deep` looks for a better order and what shows a bound; its
//! document counts only if the checker accepts it; and the search goes on to that bound if no order that takes so little was found. Of a
//! search that made all its splits only the tree is kept meanwhile, and a faster order is put in its answer.

ghost use Rattle.std.specs.Prelude.{◌≡◌, ◌≤◌, ◌+◌, ◌/◌, true, IfOk, IfSome};
ghost use Rattle.s66_isa.specs.{Profile as ProfileOf};
ghost use Rattle.s66_model.specs.{source_time, total_of};
ghost use Rattle.s66_command.specs.{Strategy as StrategyOf};
ghost use Rattle.s66_line.specs.{instrs_of, Block as BlockOf};
ghost use Rattle.s66_cert.specs.{TIME_LIMIT};
ghost use Rattle.s66_ledger.specs.{answer_of};
ghost use Rattle.s66_deep.specs.{IsGood, IsLooked};
ghost use Rattle.s66_answer.specs.{problem_of, AreBeside, IsFor, IsFound, IsSearchOf, IsShownBy, IsWorth, tree_splits};

use crate::documents::{document_by, document_of, is_accepted};
use s66_cert::{Document, Evidence, Tree};
use s66_command::Strategy;
use s66_deep::{Look, Looked, faster, look_at, show_best};
use s66_isa::{BLOCK_LIMIT, Profile};
use s66_ledger::Answer;
use s66_line::Block;
use s66_model::Rule;
use s66_node::nearer;
use s66_pool::{Free, LoneSearch, run};
use s66_time::{Order, Timed};
use std::alloc::{AllocError, Global};
use std::sync::Wait;
use std::thread::Threads;

/// How many splits a search makes before facts are looked for, as a multiple of the square of the block's length.
const SQUARE_SPLITS: u32 = 20;

/// How many lines a tree has at most that no document by facts is sought to shorten: it would save less than the search for it costs.
const SHORT_TREE: usize = 200;

/// A tree by facts that is to be shorter has at most one split for so many lines of the other.
const SHORTER_SHARE: usize = 2;

/// An answer that facts show, by a document which the checker accepts.
#[derive(Drop)]
pub struct ByFacts {
    order: Order,
    document: Document,
    /// The total of the source order, in minor cycles.
    source: u32,
    /// How often orders were split, in all searches for it.
    splits: u32,
}

/// An answer of a search.
#[derive(Drop)]
pub struct BySearch {
    answer: Answer,
    /// How often orders were split, in this search and those beside it.
    splits: u32,
}

/// What is found for a block.
#[derive(Drop)]
pub enum Found {
    /// By a search of its orders.
    Searched(BySearch),
    /// By facts, which show more than a search or make it needless.
    Shown(ByFacts),
}

impl Found {
    ghost use Rattle.std.specs.Prelude.{◌≡◌, ◌==◌, IfOk};
    ghost use Rattle.s66_isa.specs.{Profile as ProfileOf};
    ghost use Rattle.s66_line.specs.{instrs_of, Block as BlockOf};
    ghost use Rattle.s66_model.specs.{source_time};
    ghost use Rattle.s66_cert.specs.{document_of};
    ghost use Rattle.s66_checker.specs.{verdict, Yes};
    ghost use Rattle.s66_command.specs.{Strategy as StrategyOf};
    ghost use Rattle.s66_answer.specs.{IsAnswer, document_under, problem_of, IsFor, answer_in};

    /// The order.
    pub fn order(&self) -> &Order
        ensures { (strategy : StrategyOf) (p : ProfileOf) (block : BlockOf) → IsFor strategy p block self.now →
            result.now ≡ record { block = instrs_of block; numbers = (answer_in self.now).order } }
    {
        match self {
            Found::Searched(found) => found.answer.order(),
            Found::Shown(shown) => &shown.order,
        }
    }

    /// The total of the order, in minor cycles.
    pub fn time(&self) -> u32
        ensures value { result ≡ (answer_in self.now).time }
        ensures answer { (strategy : StrategyOf) (p : ProfileOf) (block : BlockOf) → IsFor strategy p block self.now →
            IsAnswer strategy p block (answer_in self.now) }
    {
        match self {
            Found::Searched(found) => found.answer.time(),
            Found::Shown(shown) => shown.document.time(),
        }
    }

    /// The total of the source order, in minor cycles.
    pub fn source(&self) -> u32
        ensures { (strategy : StrategyOf) (p : ProfileOf) (block : BlockOf) → IsFor strategy p block self.now →
            result ≡ source_time (problem_of p block) }
    {
        match self {
            Found::Searched(found) => found.answer.source(),
            Found::Shown(shown) => shown.source,
        }
    }

    /// A lower bound of the totals of all legal orders, in minor cycles.
    pub fn bound(&self) -> u32
        ensures { result ≡ (answer_in self.now).bound }
    {
        match self {
            Found::Searched(found) => found.answer.bound(),
            Found::Shown(shown) => shown.document.bound(),
        }
    }

    /// How often orders were split to find it, in all searches.
    pub fn splits(&self) -> u32
        ensures { result ≡ (answer_in self.now).splits }
    {
        match self {
            Found::Searched(found) => found.splits,
            Found::Shown(shown) => shown.splits,
        }
    }

    /// Whether no legal order takes less.
    pub fn is_best(&self) -> bool
        ensures value { result ≡ ((answer_in self.now).bound == (answer_in self.now).time) }
        ensures answer { (strategy : StrategyOf) (p : ProfileOf) (block : BlockOf) → IsFor strategy p block self.now →
            IsAnswer strategy p block (answer_in self.now) }
    {
        self.bound() == self.time()
    }

    /// The document of an answer to this block under this profile, on which the verdict is yes. `Err` is out of memory.
    pub fn into_document(
        self,
        alloc: Global,
        block: &Block,
        profile: &Profile,
        strategy: Strategy,
    ) -> Result<Document, AllocError>
        requires { IsFor strategy profile.now block.now self }
        ensures document { IfOk result (λ document. document_of document ≡
            document_under strategy.search.rule profile.now block.now (answer_in self)) }
        ensures yes { IfOk result (λ document. verdict (document_of document) ≡
            Yes (answer_in self).time (answer_in self).bound) }
    {
        match self {
            Found::Searched(found) => document_of(alloc, block, profile, &found.answer),
            Found::Shown(shown) => Ok(shown.document),
        }
    }
}

/// An order, what it takes and what the source order takes, in minor cycles, and how often orders were split to find it.
#[derive(Drop)]
struct Candidate {
    order: Order,
    time: u32,
    source: u32,
    splits: u32,
}

/// The answer of a candidate by fact lines, if the checker accepts its document.
fn shown_by(
    alloc: Global,
    block: &Block,
    profile: &Profile,
    candidate: Candidate,
    evidence: Evidence,
) -> Result<Option<ByFacts>, AllocError>
    requires order { candidate.order.block ≡ instrs_of block.now }
    requires time { candidate.time ≤ TIME_LIMIT }
    ensures { IfOk result (λ shown. IfSome shown (λ s. IsShownBy profile.now block.now candidate evidence s)) }
{
    let Candidate {
        order,
        time,
        source,
        splits,
    } = candidate;
    let document = document_by(alloc, block, profile, &order, time, evidence)?;
    if !is_accepted(&document) {
        return Ok(None);
    }
    Ok(Some(ByFacts {
        order,
        document,
        source,
        splits,
    }))
}

/// An answer with an order that is nearer to the source and takes as long, if one is found.
fn nearest(block: &Block, answer: Answer) -> Answer
    requires { answer.problem.block ≡ instrs_of block.now }
    ensures rule { result.rule ≡ answer.rule }
    ensures problem { result.problem ≡ answer.problem }
    ensures budget { result.budget ≡ answer.budget }
{
    if answer.source() <= answer.time() {
        return answer;
    }
    let timed = nearer(block, answer.best());
    answer.with_order(timed)
}

/// An answer of a search beside which others made so many splits.
fn by_search(answer: Answer, beside: u32) -> Found
    ensures { (strategy : StrategyOf) (p : ProfileOf) (block : BlockOf) → IsFound strategy p block answer →
        AreBeside strategy beside → IsFor strategy p block result }
{
    let splits = answer.splits().saturating_add(beside);
    Found::Searched(BySearch { answer, splits })
}

/// What a search finds that is brought to its end, beside which others made so many splits.
fn found_by_search(block: &Block, search: LoneSearch<'_>, beside: u32) -> Result<Found, AllocError>
    requires { search.problem.block ≡ instrs_of block.now }
    ensures { (strategy : StrategyOf) (p : ProfileOf) → IsSearchOf strategy p block.now search.entry →
        AreBeside strategy beside → IfOk result (IsFor strategy p block.now) }
{
    let answer = search.finish()?;
    Ok(by_search(nearest(block, answer), beside))
}

/// An order that is nearer to the source and takes as long, if one is found; `source` is what the source order takes, in minor cycles.
fn nearest_order(block: &Block, best: Timed, source: u32) -> Timed
    requires block { best.problem.block ≡ instrs_of block.now }
    requires source { source ≡ source_time best.problem }
    ensures problem { result.problem ≡ best.problem }
    ensures time { total_of result.problem result.numbers ≡ total_of best.problem best.numbers }
    ensures first { source_time best.problem ≡ total_of best.problem best.numbers → result.numbers ≡ best.numbers }
{
    if source <= best.total() {
        return best;
    }
    nearer(block, &best)
}

/// An answer's order by facts, if the checker accepts its document; else the answer. Searches beside it made so many splits.
fn shown_or_searched(
    alloc: Global,
    block: &Block,
    profile: &Profile,
    answer: Answer,
    beside: u32,
    evidence: Evidence,
) -> Result<Found, AllocError>
    requires problem { answer.problem ≡ problem_of profile.now block.now }
    requires made { tree_splits evidence ≤ beside }
    ensures { (strategy : StrategyOf) → strategy.deep ≡ true → IsFound strategy profile.now block.now answer →
        AreBeside strategy beside → IsWorth strategy.search.nodes answer evidence →
        IfOk result (IsFor strategy profile.now block.now) }
{
    // so its time is one that a document may claim
    prove!(block.count() <= BLOCK_LIMIT);
    let candidate = Candidate {
        order: answer.order().duplicate(),
        time: answer.time(),
        source: answer.source(),
        splits: answer.splits().saturating_add(beside),
    };
    match shown_by(alloc, block, profile, candidate, evidence)? {
        Some(shown) => Ok(Found::Shown(shown)),
        None => Ok(by_search(answer, beside)),
    }
}

/// An answer with an order that is nearer to the source, if one is found; by facts if these show as much or more. Searches beside it made
/// so many splits.
fn found_or_shown(
    alloc: Global,
    block: &Block,
    profile: &Profile,
    answer: Answer,
    beside: u32,
    evidence: Evidence,
) -> Result<Found, AllocError>
    requires problem { answer.problem ≡ problem_of profile.now block.now }
    requires made { tree_splits evidence ≤ beside }
    ensures { (strategy : StrategyOf) → strategy.deep ≡ true → IsFound strategy profile.now block.now answer →
        AreBeside strategy beside → IfOk result (IsFor strategy profile.now block.now) }
{
    let near = nearest(block, answer);
    if evidence.bound() < near.bound() {
        return Ok(by_search(near, beside));
    }
    shown_or_searched(alloc, block, profile, near, beside, evidence)
}

/// An order that is sought, and how many splits were made for it.
#[derive(Drop)]
struct Sought {
    best: Timed,
    splits: u32,
}

/// The best order of a search that leaves out no beginning that another dominates, of half as many splits. Such a search goes deep sooner. It
/// ends at an order of at most so many minor cycles.
fn plain_order(
    alloc: Global,
    block: &Block,
    profile: &Profile,
    strategy: Strategy,
    goal: u32,
) -> Result<Sought, AllocError>
    ensures problem { IfOk result (λ plain. plain.best.problem ≡ problem_of profile.now block.now) }
    ensures splits { IfOk result (λ plain. plain.splits ≤ strategy.search.nodes) }
{
    let mut options = strategy.search;
    options.rule = Rule::NoneNamed;
    let mut search = LoneSearch::new(alloc, block, profile, options)?;
    search.search(options.nodes / 2, goal)?;
    Ok(Sought {
        best: search.best().duplicate(),
        splits: search.splits(),
    })
}

/// The best order, or a better one that a plain search finds which ends at a bound of all orders; there is nothing to find if it takes no
/// more. The splits are those of that search.
fn seek_plain(
    alloc: Global,
    block: &Block,
    profile: &Profile,
    strategy: Strategy,
    best: Timed,
    bound: u32,
) -> Result<Sought, AllocError>
    requires best { IsGood (problem_of profile.now block.now) best }
    ensures best { IfOk result (λ sought. IsGood (problem_of profile.now block.now) sought.best) }
    ensures splits { IfOk result (λ sought. sought.splits ≤ strategy.search.nodes) }
{
    if best.total() <= bound {
        return Ok(Sought { best, splits: 0 });
    }
    let plain = plain_order(alloc, block, profile, strategy, bound)?;
    let splits = plain.splits;
    Ok(Sought {
        best: faster(best, Some(plain.best)),
        splits,
    })
}

/// The best order, or a better one that searches find which end at a bound of all orders; there is nothing to find if it takes no more.
/// The splits are those of a search beside this one.
fn seek(
    alloc: Global,
    block: &Block,
    profile: &Profile,
    strategy: Strategy,
    search: &mut LoneSearch<'_>,
    best: Timed,
    bound: u32,
) -> Result<Sought, AllocError>
    requires search { IsSearchOf strategy profile.now block.now search.old }
    requires best { IsGood (problem_of profile.now block.now) best }
    ensures search { IsSearchOf strategy profile.now block.now search.new }
    ensures best { IfOk result (λ sought. IsGood (problem_of profile.now block.now) sought.best) }
    ensures splits { IfOk result (λ sought. sought.splits ≤ strategy.search.nodes) }
{
    let plain = seek_plain(alloc, block, profile, strategy, best, bound)?;
    let Sought { best, splits } = plain;
    if best.total() <= bound {
        return Ok(Sought { best, splits });
    }
    search.offer(&best)?;
    search.search(strategy.search.nodes, bound)?;
    let best = faster(best, Some(search.best().duplicate()));
    Ok(Sought { best, splits })
}

/// An answer by what was found beside the search, with so many splits, and by the search, if that has to go on.
fn answer_by(
    alloc: Global,
    block: &Block,
    profile: &Profile,
    strategy: Strategy,
    search: LoneSearch<'_>,
    looked: Looked,
    made: u32,
) -> Result<Found, AllocError>
    requires search { IsSearchOf strategy profile.now block.now search }
    requires deep { strategy.deep ≡ true }
    requires looked { IsLooked (problem_of profile.now block.now) strategy.search.nodes made looked }
    requires made { made ≤ strategy.search.nodes + strategy.search.nodes / 2 }
    ensures { IfOk result (IsFor strategy profile.now block.now) }
{
    let mut search = search;
    let Looked {
        best,
        source,
        evidence,
    } = looked;
    let bound = evidence.bound();
    let found = seek(alloc, block, profile, strategy, &mut search, best, bound)?;
    let Sought { best, splits } = found;
    let beside = made.saturating_add(splits);
    if best.total() != bound {
        let answer = search.finish()?;
        return found_or_shown(alloc, block, profile, answer, beside, evidence);
    }
    let near = nearest_order(block, best, source);
    let candidate = Candidate {
        order: near.order().duplicate(),
        time: near.total(),
        source,
        splits: search.splits().saturating_add(beside),
    };
    match shown_by(alloc, block, profile, candidate, evidence)? {
        Some(shown) => Ok(Found::Shown(shown)),
        None => found_by_search(block, search, beside),
    }
}

/// The answer, or the same with this order if that takes less.
fn with_faster(answer: Answer, best: Timed) -> Answer
    requires { best.problem ≡ answer.problem }
    ensures no_slower { (answer_of result).time ≤ (answer_of answer).time }
    ensures faster { (answer_of result).time ≤ total_of best.problem best.numbers }
    ensures rule { result.rule ≡ answer.rule }
    ensures problem { result.problem ≡ answer.problem }
    ensures budget { result.budget ≡ answer.budget }
{
    if best.total() < answer.time() {
        return answer.with_order(best);
    }
    answer
}

/// An answer by what was found beside a search that made all its splits; `made` more were made for that.
fn answer_beside(
    alloc: Global,
    block: &Block,
    profile: &Profile,
    strategy: Strategy,
    answer: Answer,
    looked: Looked,
    made: u32,
) -> Result<Found, AllocError>
    requires answer { IsFound strategy profile.now block.now answer }
    requires deep { strategy.deep ≡ true }
    requires looked { IsLooked (problem_of profile.now block.now) strategy.search.nodes made looked }
    requires made { made ≤ strategy.search.nodes + strategy.search.nodes / 2 }
    ensures { IfOk result (IsFor strategy profile.now block.now) }
{
    let Looked { best, evidence, .. } = looked;
    let found = seek_plain(alloc, block, profile, strategy, best, evidence.bound())?;
    let Sought { best, splits } = found;
    let beside = made.saturating_add(splits);
    let better = with_faster(answer, best);
    found_or_shown(alloc, block, profile, better, beside, evidence)
}

/// An answer with facts to a block that a search leaves open which made all its splits. While facts are looked for, only the tree of that
/// search is kept.
fn answer_after(
    alloc: Global,
    block: &Block,
    profile: &Profile,
    strategy: Strategy,
    search: LoneSearch<'_>,
    is_printed: bool,
) -> Result<Found, AllocError>
    requires search { IsSearchOf strategy profile.now block.now search }
    requires deep { strategy.deep ≡ true }
    ensures { IfOk result (IsFor strategy profile.now block.now) }
{
    let answer = search.finish()?;
    let most = strategy.search.nodes;
    let look = look_at(alloc, block, profile, answer.best(), most, is_printed)?;
    let Look { found, splits } = look;
    match found {
        Some(looked) => answer_beside(alloc, block, profile, strategy, answer, looked, splits),
        None => Ok(by_search(nearest(block, answer), splits)),
    }
}

/// How many lines a tree has.
fn line_count(tree: &Tree) -> usize {
    let mut lines = tree.lines();
    let mut count = 0usize;
    while let Some(_) = lines.next() {
        count = count.saturating_add(1);
    }
    count
}

/// An answer that is best, or its order by facts if these show that too, and in fewer lines. Searches beside it made so many splits.
fn in_fewer_lines(
    alloc: Global,
    block: &Block,
    profile: &Profile,
    answer: Answer,
    looked: Looked,
    beside: u32,
    most: u32,
) -> Result<Found, AllocError>
    requires problem { answer.problem ≡ problem_of profile.now block.now }
    requires looked { IsLooked (problem_of profile.now block.now) most beside looked }
    requires most { most ≤ answer.budget }
    ensures { (strategy : StrategyOf) → strategy.deep ≡ true → IsFound strategy profile.now block.now answer →
        AreBeside strategy beside → IfOk result (IsFor strategy profile.now block.now) }
{
    let evidence = looked.evidence;
    let lines = evidence.lines().len();
    if evidence.bound() != answer.time()
        || answer.line_count() <= lines.saturating_add(line_count(evidence.tree()))
    {
        return Ok(by_search(answer, beside));
    }
    shown_or_searched(alloc, block, profile, answer, beside, evidence)
}

/// How many splits a tree may have to be shorter than one of so many lines: in no case more than `most`.
fn shorter_splits(lines: usize, most: u32) -> u32
    ensures { result ≤ most }
{
    match u32::try_from(lines / SHORTER_SHARE) {
        Ok(splits) => splits.min(most),
        Err(_) => most,
    }
}

/// The answer of a search that found a best order; if documents are printed and its tree is long, one by facts if that is shorter, whose
/// tree has at most so many splits.
fn found_best(
    alloc: Global,
    block: &Block,
    profile: &Profile,
    search: LoneSearch<'_>,
    is_printed: bool,
    most: u32,
) -> Result<Found, AllocError>
    requires problem { search.problem ≡ problem_of profile.now block.now }
    requires most { most ≤ search.budget }
    ensures { (strategy : StrategyOf) → strategy.deep ≡ true → IsSearchOf strategy profile.now block.now search.entry →
        IfOk result (IsFor strategy profile.now block.now) }
{
    let found = search.finish()?;
    let answer = nearest(block, found);
    let lines = answer.line_count();
    if !is_printed || lines <= SHORT_TREE {
        return Ok(by_search(answer, 0));
    }
    let few = shorter_splits(lines, most);
    let look = show_best(alloc, block, profile, answer.best(), few)?;
    let Look { found, splits } = look;
    match found {
        Some(looked) => in_fewer_lines(alloc, block, profile, answer, looked, splits, few),
        None => Ok(by_search(answer, splits)),
    }
}

/// How many splits the search of a block makes before facts are looked for, if it may make so many: so many that few blocks that it
/// would decide are looked at by facts, which take longer for most of these.
fn first_splits(block: &Block) -> u32 {
    let count = block.count() as u32;
    count * count * SQUARE_SPLITS
}

/// What is answered for a block under a profile with facts, by the calling thread alone: if some splits don't find the best order, facts
/// are looked for, and then the search goes on, unless they show that an order is best. If documents are printed, a short one is sought.
///
/// `Err` is out of memory.
pub(crate) fn answer_alone(
    alloc: Global,
    block: &Block,
    profile: &Profile,
    strategy: Strategy,
    is_printed: bool,
) -> Result<Found, AllocError>
    requires deep { strategy.deep ≡ true }
    ensures { IfOk result (IsFor strategy profile.now block.now) }
{
    let mut search = LoneSearch::new(alloc, block, profile, strategy.search)?;
    let most = strategy.search.nodes;
    search.search(first_splits(block), 0)?;
    if search.is_best() {
        return found_best(alloc, block, profile, search, is_printed, most);
    }
    if most <= search.splits() {
        return answer_after(alloc, block, profile, strategy, search, is_printed);
    }
    let look = look_at(alloc, block, profile, search.best(), most, is_printed)?;
    let Look { found, splits } = look;
    match found {
        Some(looked) => answer_by(alloc, block, profile, strategy, search, looked, splits),
        None => found_by_search(block, search, splits),
    }
}

/// What is answered for a block under a profile by a search of its orders, which all workers share.
///
/// `Err` is out of memory.
pub(crate) fn answer_to<R: AllocGlobal + Threads + Wait + Sync>(
    rt: &R,
    block: &Block,
    profile: &Profile,
    strategy: Strategy,
) -> Result<Found, AllocError>
    ensures { IfOk result (IsFor strategy profile.now block.now) }
{
    let answer = run(rt, block, profile, strategy.search, &Free)?;
    Ok(by_search(nearest(block, answer), 0))
}
