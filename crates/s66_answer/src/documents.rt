//! The document of an answer: what it claims, with the tree of a search (`document_of`) or with fact lines (`document_by`), and whether
//! the checker accepts it.

ghost use Rattle.std.specs.Prelude.{◌≡◌, ◌≤◌, if◌then◌else◌, IfOk, IsTrue};
ghost use Rattle.s66_model.specs.{NoneNamed, has_dominated_line};
ghost use Rattle.s66_line.specs.{instrs_of};
ghost use Rattle.s66_cert.specs.{TIME_LIMIT, document_of};
ghost use Rattle.s66_ledger.specs.{answer_of};
ghost use Rattle.s66_checker.specs.{verdict, Yes};
ghost use Rattle.s66_answer.specs.{document_under, searched, IsAccepted, parts_by};

use crate::block_texts::texts_of;
use arrayvec::ArrayVec;
use s66_cert::{Claim, Document, Evidence, Tree};
use s66_checker::{Verdict, verify};
use s66_isa::{BLOCK_LIMIT, Profile};
use s66_ledger::Answer;
use s66_line::Block;
use s66_model::{BUDGET_LIMIT, Rule};
use s66_time::Order;
use std::alloc::{AllocError, Global};

/// The rule of a document with this tree: that of its dominated leaves if it has some, else `NoneNamed`.
fn rule_of(rule: Rule, tree: &Tree) -> Rule
    ensures { result ≡ (if has_dominated_line tree.now then rule else NoneNamed) }
{
    if tree.has_dominated() {
        rule
    } else {
        Rule::NoneNamed
    }
}

/// The document of an answer to this block under this profile: what it claims, and the tree that shows its bound. The verdict on it is
/// yes. `Err` is out of memory.
pub fn document_of(
    alloc: Global,
    block: &Block,
    profile: &Profile,
    answer: &Answer,
) -> Result<Document, AllocError>
    requires { answer.now.problem ≡ record { block = instrs_of block.now; profile = profile.now } }
    ensures document { IfOk result (λ document. document_of document ≡
        document_under answer.now.rule profile.now block.now (searched (answer_of answer.now))) }
    ensures yes { IfOk result (λ document. verdict (document_of document) ≡
        Yes (answer_of answer.now).time (answer_of answer.now).bound) }
{
    let Ok(order) = ArrayVec::try_from(answer.order().numbers()) else {
        unreachable!()
    };
    // so the texts are a block's, and the splits few
    prove!(block.count() <= BLOCK_LIMIT);
    prove!(answer.splits() <= BUDGET_LIMIT);
    let tree = answer.tree(alloc, block)?;
    Ok(Document::new(Claim {
        rule: rule_of(answer.rule(), &tree),
        facts: None,
        profile: ArrayVec::from(profile.entries()),
        block: texts_of(alloc, block)?,
        time: answer.time(),
        bound: answer.bound(),
        order,
        tree,
    }))
}

/// The document of an order of this block under this profile, with what it takes, and of what is to show a bound. `Err` is out of memory.
pub(crate) fn document_by(
    alloc: Global,
    block: &Block,
    profile: &Profile,
    order: &Order,
    time: u32,
    evidence: Evidence,
) -> Result<Document, AllocError>
    requires order { order.now.block ≡ instrs_of block.now }
    requires time { time ≤ TIME_LIMIT }
    ensures { IfOk result (λ document. document ≡ parts_by profile.now block.now order.now.numbers time evidence) }
{
    let Ok(numbers) = ArrayVec::try_from(order.numbers()) else {
        unreachable!()
    };
    // so the texts are a block's
    prove!(block.count() <= BLOCK_LIMIT);
    let bound = evidence.bound();
    let (lines, tree) = evidence.into_parts();
    Ok(Document::new(Claim {
        rule: Rule::ClampedStanding,
        facts: Some(lines),
        profile: ArrayVec::from(profile.entries()),
        block: texts_of(alloc, block)?,
        time,
        bound,
        order: numbers,
        tree,
    }))
}

/// Whether the checker accepts a document.
pub(crate) fn is_accepted(document: &Document) -> bool
    ensures { IsTrue result → IsAccepted document.now }
{
    // so it is a document
    let _whole = document.order();
    matches!(verify(document), Verdict::Yes { .. })
}
