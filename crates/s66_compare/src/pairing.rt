//! Which instruction of an old block each of a new one is: the first with the same text that isn't taken.

ghost use Rattle.std.specs.Prelude.{◌≡◌, ◌≤◌, IfSome, IfNone, length};
ghost use Rattle.s66_isa.specs.{has, BLOCK_LIMIT};
ghost use Rattle.s66_line.specs.{instrs_of};
ghost use Rattle.s66_compare.specs.{AreWithin, first_left, is_untaken, paired, partner};

use arrayvec::ArrayVec;
use s66_isa::BLOCK_LIMIT;
use s66_line::Block;

/// Whether a number is among these.
pub(crate) fn is_among(number: u8, numbers: &[u8]) -> bool
    ensures { result ≡ has number numbers.now }
{
    for other in numbers {
        if number == *other {
            return true;
        }
    }
    false
}

/// Whether an instruction of the old block has this text and isn't taken.
fn is_open(old: &Block, taken: &[u8], text: &[u8], number: u8) -> bool
    requires { (1 ≤ number) × (number ≤ length (instrs_of old.now)) }
    ensures { result ≡ is_untaken old.now taken.now text.now number }
{
    old.whole_text(number as usize).as_slice() == text && !is_among(number, taken)
}

/// The first instruction of the old block that has this text and isn't taken.
#[tactic(auto, using(crate::proofs::Firsts::first_here, crate::proofs::Firsts::first_later, crate::proofs::Firsts::first_none))]
fn partner(old: &Block, taken: &[u8], text: &[u8]) -> Option<u8>
    ensures some { IfSome result (λ n. n ≡ partner old.now taken.now text.now) }
    ensures range { IfSome result (λ n. (1 ≤ n) × (n ≤ length (instrs_of old.now))) }
    ensures none { IfNone result (partner old.now taken.now text.now ≡ 0) }
{
    for position in 0..old.count() {
        let number = (position + 1) as u8;
        if is_open(old, taken, text, number) {
            return Some(number);
        }
    }
    None
}

/// Which instruction of the old block each of the new one is, up to the first that the old one lacks. It compares each two of their
/// texts at most.
#[tactic(auto, using(crate::proofs::Pairs::partners_next, crate::proofs::Pairs::partners_stop, crate::proofs::Pairs::partners_end, crate::proofs::Pairs::within_push))]
pub(crate) fn paired(old: &Block, new: &Block) -> ArrayVec<u8, BLOCK_LIMIT>
    ensures value { result.items ≡ paired old.now new.now }
    ensures range { AreWithin (length (instrs_of old.now)) result.items }
{
    let mut taken = ArrayVec::new();
    for position in 0..new.count() {
        let text = new.whole_text(position + 1);
        match partner(old, taken.as_slice(), text.as_slice()) {
            Some(number) => taken.push(number),
            None => return taken,
        }
    }
    taken
}

/// The first instruction of the old block that isn't taken.
#[tactic(auto, using(crate::proofs::Firsts::first_here, crate::proofs::Firsts::first_later, crate::proofs::Firsts::first_none))]
pub(crate) fn first_left(old: &Block, taken: &[u8]) -> Option<u8>
    ensures some { IfSome result (λ n. n ≡ first_left old.now taken.now) }
    ensures range { IfSome result (λ n. (1 ≤ n) × (n ≤ length (instrs_of old.now))) }
    ensures none { IfNone result (first_left old.now taken.now ≡ 0) }
{
    for position in 0..old.count() {
        let number = (position + 1) as u8;
        if !is_among(number, taken) {
            return Some(number);
        }
    }
    None
}
