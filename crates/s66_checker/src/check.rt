//! The verdict on a document (`verify`): the order and its time, then the fact lines, then the tree.

ghost use Rattle.std.specs.Prelude.{ℕ, ◌≡◌, ◌≤◌, [], Some, None, if◌then◌else◌, length, map};
ghost use Rattle.s66_isa.specs.{profile_of, BLOCK_LIMIT};
ghost use Rattle.s66_model.specs.{total_of, IsBound};
ghost use Rattle.s66_line.specs.{instr_in_text};
ghost use Rattle.s66_cert.specs.{document_of};
ghost use Rattle.s66_checker.specs.{is_legal_order, problem_of, proof_verdict, verdict, IsTrueClaim, Yes};

use crate::known::Known;
use crate::replay::Prefix;
use crate::verdict::{Reason, Verdict};
use crate::walk::tree_verdict;
use arrayvec::ArrayVec;
use s66_cert::{Document, InstructionText};
use s66_isa::{BLOCK_LIMIT, Instr, PROFILE_LENGTH, Profile};

/// A document's profile.
pub fn profile_of(document: &Document) -> Profile
    ensures { result ≡ profile_of document.now.profile }
{
    let Ok(numbers) = <&[u8; PROFILE_LENGTH]>::try_from(document.profile()) else {
        unreachable!()
    };
    let Some(profile) = Profile::of(numbers) else {
        unreachable!()
    };
    profile
}

/// The instructions of a document's block.
pub fn instructions_of(texts: &[InstructionText]) -> ArrayVec<Instr, BLOCK_LIMIT>
    requires { length texts.now ≤ BLOCK_LIMIT }
    ensures { result.items ≡ map instr_in_text texts.now }
{
    let mut instrs = ArrayVec::new();
    for text in texts {
        instrs.push(text.instr());
    }
    instrs
}

/// Goes through an order. Returns what it takes, in minor cycles; None if it isn't legal.
fn legal_total(prefix: &mut Prefix, order: &[u8]) -> Option<u32>
    ensures value { result ≡ (if is_legal_order prefix.old.problem.block order.now then
        Some (total_of prefix.old.problem order.now) else None) }
    ensures problem { prefix.new.problem ≡ prefix.old.problem }
{
    if !prefix.go_to(order) {
        return None;
    }
    if order.len() == prefix.count() as usize {
        Some(prefix.total())
    } else {
        None
    }
}

/// The verdict on the fact lines of a document of this block under this profile, and then on its tree. One prefix is that before the
/// first instruction, and the other may be anywhere.
fn proof_verdict(
    document: &Document,
    profile: &Profile,
    block: &[Instr],
    prefix: Prefix,
    named: Prefix,
) -> Verdict
    requires block { record { block = block.now; profile = profile.now } ≡ problem_of (document_of document.now) }
    requires some { 1 ≤ length block.now }
    requires few { length block.now ≤ BLOCK_LIMIT }
    requires start { prefix ≡ record { problem = problem_of (document_of document.now); numbers = [] } }
    requires same { named.problem ≡ problem_of (document_of document.now) }
    ensures { result ≡ proof_verdict (document_of document.now) }
{
    match Known::after(document, block, profile) {
        Err(line) => Verdict::No {
            line,
            reason: Reason::Fact,
        },
        Ok(known) => tree_verdict(document, &known, prefix, named),
    }
}

/// The verdict on a document, timed by its own profile. If it is yes, with the document's time and bound, what the document claims is
/// true; in versions 1 to 3 it is yes exactly then. No legal order then takes less than the bound. Else it is the first fault: that
/// of the order, of the time, of the bound, of a fact line, or of a line of the tree. It allocates nothing, and rests on no other
/// timing and no other test of dependence than its own.
///
/// Each pair of the block's instructions is looked at once. Beside that a line of the tree takes a time linear in the
/// block's length, on the average over all lines. For a dominated leaf its node is found by a jump for each earlier sibling
/// on the way.
pub fn verify(document: &Document) -> Verdict
    ensures verdict { result ≡ verdict (document_of document.now) }
    ensures claim { (time bound : ℕ) → result ≡ Yes time bound → IsTrueClaim (document_of document.now) }
    ensures bound { (time bound : ℕ) → result ≡ Yes time bound → IsBound (problem_of (document_of document.now)) bound }
{
    let block = instructions_of(document.block());
    let count = block.len() as u32;
    let profile = profile_of(document);
    let mut prefix = Prefix::new(block.as_slice(), &profile);
    let Some(total) = legal_total(&mut prefix, document.order()) else {
        return Verdict::No {
            line: count + 6,
            reason: Reason::Order,
        };
    };
    if total != document.time() {
        return Verdict::No {
            line: count + 4,
            reason: Reason::Time,
        };
    }
    if document.bound() > document.time() {
        return Verdict::No {
            line: count + 5,
            reason: Reason::Bound,
        };
    }
    proof_verdict(
        document,
        &profile,
        block.as_slice(),
        prefix.start_again(),
        prefix,
    )
}
