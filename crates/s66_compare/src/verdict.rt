//! What a new block is beside an old one: the same, in another legal order, in one that isn't legal, or with other instructions.

ghost use Rattle.std.specs.Prelude.{◌≡◌, [], length};
ghost use Rattle.s66_isa.specs.{BLOCK_LIMIT};
ghost use Rattle.s66_line.specs.{instrs_of};
ghost use Rattle.s66_compare.specs.{AreWithin, by_order, judged, kept_verdict, verdict_of};

use crate::pairing::{first_left, paired};
use arrayvec::ArrayVec;
use s66_isa::{BLOCK_LIMIT, Set};
use s66_line::Block;
use s66_time::{Dependences, Order};
use std::marker::Model;

/// What a new block is beside an old one. Numbers are those of the old one's instructions.
#[derive(Clone, Copy)]
pub enum BlockVerdict {
    /// It is the old one.
    Same,
    /// It is the old one in another legal order.
    Reordered,
    /// The instruction of a number comes before one on which it depends, and which is missing.
    NotLegal { number: u8, missing: u8 },
    /// The old one lacks the instruction in this line of the new source.
    OtherNew { line: u32 },
    /// It lacks the instruction in this line of the old source.
    OtherOld { line: u32 },
}

impl BlockVerdict {
    ghost use Rattle.std.specs.Prelude.{◌≡◌};
    ghost use Rattle.s66_compare.specs.{is_kept};

    /// Whether the new block is the old one in a legal order.
    pub fn is_kept(&self) -> bool
        ensures { result ≡ is_kept self.now }
    {
        matches!(self, BlockVerdict::Same | BlockVerdict::Reordered)
    }
}

/// A verdict, and the numbers of the old block's instructions in the order of the new one.
#[derive(Drop)]
pub struct Judged {
    pub verdict: BlockVerdict,
    pub order: ArrayVec<u8, BLOCK_LIMIT>,
}

impl Model for Judged {
    ghost use Rattle.s66_compare.specs.Verdict.{Judged};

    ghost Value = { Judged };

    ghost view = { λ j. record { verdict = j.verdict; order = j.order.items } };
}

impl Judged {
    ghost use Rattle.std.specs.Prelude.{◌≡◌, IfSome, is_some};
    ghost use Rattle.s66_line.specs.{Block as BlockOf, instrs_of};
    ghost use Rattle.s66_compare.specs.{is_kept, judged};

    /// The order in which the new block has the old one's instructions, if that keeps every dependence. It looks at each two instructions
    /// once.
    pub fn kept_order(&self, old: &Block) -> Option<Order>
        requires { (new : BlockOf) × (self.now ≡ judged old.now new) }
        ensures kept { is_some result ≡ is_kept self.now.verdict }
        ensures block { IfSome result (λ order. order.block ≡ instrs_of old.now) }
        ensures numbers { IfSome result (λ order. order.numbers ≡ self.now.order) }
    {
        if !self.verdict.is_kept() {
            return None;
        }
        match Order::new(old, self.order.as_slice()) {
            Ok(order) => Some(order),
            Err(_) => unreachable!(),
        }
    }
}

/// An order that keeps every dependence.
fn kept_verdict(old: &Block, order: &[u8]) -> BlockVerdict
    ensures { result ≡ kept_verdict (instrs_of old.now) order.now }
{
    if order == Order::source(old).numbers() {
        BlockVerdict::Same
    } else {
        BlockVerdict::Reordered
    }
}

/// Whether an order keeps every dependence, or where it doesn't. It looks at each two instructions once, and then at a word for each
/// number.
#[tactic(auto, using(crate::proofs::Pairs::order_end, crate::proofs::Pairs::within_at))]
fn by_order(old: &Block, order: &[u8]) -> BlockVerdict
    requires { AreWithin (length (instrs_of old.now)) order.now }
    ensures { result ≡ by_order (instrs_of old.now) (kept_verdict (instrs_of old.now) order.now) [] order.now }
{
    // so a set has room for its numbers
    prove!(old.count() <= BLOCK_LIMIT);
    let dependences = Dependences::of(old);
    let mut before = Set::empty();
    for number in order {
        let mut missing = dependences.needs(*number).without(&before);
        if let Some(first) = missing.pop_first() {
            return BlockVerdict::NotLegal {
                number: *number,
                missing: first,
            };
        }
        before = before.with(*number);
    }
    kept_verdict(old, order)
}

/// The verdict on a new block, whose instructions are those of the old one in this order as far as the old one has them.
fn verdict_of(old: &Block, new: &Block, order: &[u8]) -> BlockVerdict
    requires { AreWithin (length (instrs_of old.now)) order.now }
    ensures { result ≡ verdict_of old.now new.now order.now }
{
    if order.len() < new.count() {
        return BlockVerdict::OtherNew {
            line: new.line(order.len() + 1),
        };
    }
    match first_left(old, order) {
        Some(number) => BlockVerdict::OtherOld {
            line: old.line(number as usize),
        },
        None => by_order(old, order),
    }
}

/// What a new block is beside an old one. It looks at each two instructions once.
pub(crate) fn judge(old: &Block, new: &Block) -> Judged
    ensures { result ≡ judged old.now new.now }
{
    let order = paired(old, new);
    Judged {
        verdict: verdict_of(old, new, order.as_slice()),
        order,
    }
}
