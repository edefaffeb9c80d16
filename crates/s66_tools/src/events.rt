//! The events of a ledger. One that is refused is sent again, and then has to end as it would have at first.
ghost use Rattle.std.specs.Prelude.{◌≡◌, ◌≤◌, IfOk};

use crate::calls::Answered;
use crate::searches::finish;
use crate::sources::{block_of, source_of};
use s66_isa::Profile;
use s66_ledger::{Ledger, Offered, Ticket};
use s66_line::Block;
use s66_model::Rule;
use s66_node::{Constant, Piece, Walk};
use s66_test_search::{MULTIPLIES, as_written};
use s66_time::is_beginning;
use std::alloc::{AllocError, Global};

/// As many splits as the whole tree has.
const BUDGET: u32 = 10;

fn grant(ledger: &mut Ledger, w: u8) -> Result<u32, AllocError>
    requires { (1 ≤ w) × (w ≤ ledger.old.workers) }
    ensures { ledger.new.workers ≡ ledger.old.workers }
{
    match ledger.grant(w) {
        Ok(splits) => Ok(splits),
        Err(_) => ledger.grant(w),
    }
}

fn retire(ledger: &mut Ledger, w: u8) -> Result<(), AllocError>
    requires { (1 ≤ w) × (w ≤ ledger.old.workers) }
    ensures { ledger.new.workers ≡ ledger.old.workers }
{
    match ledger.retire(w) {
        Ok(()) => Ok(()),
        Err(_) => ledger.retire(w),
    }
}

/// Claims a node, of which some are open.
fn claim(ledger: &mut Ledger, w: u8) -> Result<Ticket, AllocError>
    requires { (1 ≤ w) × (w ≤ ledger.old.workers) }
    ensures { ledger.new.workers ≡ ledger.old.workers }
{
    let claimed = match ledger.claim(w) {
        Ok(claimed) => claimed,
        Err(_) => ledger.claim(w)?,
    };
    match claimed {
        Some(ticket) => Ok(ticket),
        None => Err(AllocError),
    }
}

fn graft(ledger: &mut Ledger, w: u8, node: u32, piece: &Piece) -> Result<(), AllocError>
    requires { (1 ≤ w) × (w ≤ ledger.old.workers) }
    ensures { ledger.new.workers ≡ ledger.old.workers }
{
    let Err(_) = ledger.graft(w, node, piece) else {
        return Ok(());
    };
    match ledger.graft(w, node, piece) {
        Ok(()) => Ok(()),
        Err(_) => Err(AllocError),
    }
}

/// Gives a node back; one that is refused for memory comes back.
fn back(ledger: &mut Ledger, w: u8, ticket: Ticket) -> Result<(), AllocError>
    requires { (1 ≤ w) × (w ≤ ledger.old.workers) }
    ensures { ledger.new.workers ≡ ledger.old.workers }
{
    let ticket = match ledger.back(w, ticket) {
        Ok(()) => return Ok(()),
        Err((_, ticket)) => ticket,
    };
    match ledger.back(w, ticket) {
        Ok(()) => Ok(()),
        Err(_) => Err(AllocError),
    }
}

/// Offers the source order.
fn offer(ledger: &mut Ledger, w: u8) -> Result<Offered, AllocError>
    requires { (1 ≤ w) × (w ≤ ledger.old.workers) }
    ensures { ledger.new.workers ≡ ledger.old.workers }
{
    let block = ledger.block();
    let profile = Profile::standard();
    match ledger.offer(w, as_written(block, &profile)) {
        Ok(offered) => Ok(offered),
        Err(_) => ledger.offer(w, as_written(block, &profile)),
    }
}

/// The piece of one split of a node.
fn piece_of(alloc: Global, block: &Block, ticket: &Ticket) -> Result<Piece, AllocError> {
    let prefix = ticket.prefix();
    if !is_beginning(block, prefix) {
        return Err(AllocError);
    }
    let mut walk = Walk::new(block, &Profile::standard());
    match walk.expand(alloc, prefix, &mut Constant(22), 1) {
        Ok(piece) => Ok(piece),
        Err(_) => walk.expand(alloc, prefix, &mut Constant(22), 1),
    }
}

/// A search of two workers with an event of each kind, which splits the root and leaves a child of it out.
fn search<'a>(alloc: Global, block: &'a Block<'a>) -> Result<Ledger<'a>, AllocError>
    ensures { IfOk result (λ ledger. ledger.workers ≡ 2) }
{
    let walk = Walk::new(block, &Profile::standard());
    let mut ledger = Ledger::new(alloc, &walk, Rule::NoneNamed, BUDGET, 2)?;
    grant(&mut ledger, 1)?;
    let root = claim(&mut ledger, 1)?;
    let piece = piece_of(alloc, block, &root)?;
    graft(&mut ledger, 1, root.node(), &piece)?;
    offer(&mut ledger, 2)?;
    let child = claim(&mut ledger, 2)?;
    back(&mut ledger, 2, child)?;
    claim(&mut ledger, 2)?;
    retire(&mut ledger, 1)?;
    grant(&mut ledger, 2)?;
    Ok(ledger)
}

/// The best time and the bound after that search, how many nodes there are, and how many events there were.
fn readings(alloc: Global, block: &Block) -> Result<Answered, AllocError> {
    let ledger = search(alloc, block)?;
    Ok([
        ledger.best() as usize,
        ledger.bound() as usize,
        ledger.node_count() as usize,
        ledger.history().entries.len(),
    ])
}

/// The time, the bound and the splits of the answer after that search.
fn answer(alloc: Global, block: &Block) -> Result<Answered, AllocError> {
    let ledger = search(alloc, block)?;
    let answer = finish(alloc, ledger)?;
    Ok([
        answer.time() as usize,
        answer.bound() as usize,
        answer.splits() as usize,
        0,
    ])
}

/// What the ledger returns after the events.
pub(crate) fn searched(alloc: Global) -> Result<Answered, AllocError> {
    let source = source_of(alloc, MULTIPLIES)?;
    let block = block_of(&source)?;
    readings(alloc, block)
}

/// What its answer is when it is finished.
pub(crate) fn finished(alloc: Global) -> Result<Answered, AllocError> {
    let source = source_of(alloc, MULTIPLIES)?;
    let block = block_of(&source)?;
    answer(alloc, block)
}
