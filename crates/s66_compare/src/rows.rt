//! The blocks of two sources side by side, with their times and what is said of them.

ghost use Rattle.std.specs.Prelude.{List, ◌≡◌, ◌≤◌, ◌+◌, [], ◌∷◌, ◌++◌, drop, length, IfOk, OnOk};
ghost use Rattle.s66_isa.specs.{every};
ghost use Rattle.s66_line.specs.{Block as BlockOf};
ghost use Rattle.s66_compare.specs.{Step as StepOf, AreAligned, AreOfBlocks, both, is_legal, rows_by, rows_of, side_of};

use crate::alignment::{Step, align};
use crate::verdict::{Judged, judge};
use s66_isa::Profile;
use s66_line::Block;
use s66_time::{Order, Timer};
use std::alloc::{AllocError, Global};

/// What is printed of a block as it was written.
#[derive(Clone, Copy)]
pub struct Side {
    /// The line of its first instruction.
    pub line: u32,
    /// How many instructions it has.
    pub count: usize,
    /// In minor cycles.
    pub time: u32,
}

/// Two blocks that are compared, with what is said of them, or one that the other source lacks.
#[derive(Drop)]
pub enum Row {
    Both {
        old: Side,
        new: Side,
        judged: Judged,
    },
    OldAlone {
        old: Side,
    },
    NewAlone {
        new: Side,
    },
}

/// What is printed of a block as it was written, under the timer's profile.
fn side_of(timer: &mut Timer, block: &Block) -> Side
    ensures profile { timer.new ≡ timer.old }
    ensures side { result ≡ side_of timer.old block.now }
{
    // so there is a first instruction
    prove!(block.count() >= 1);
    let timed = timer.time(block, &Order::source(block));
    Side {
        line: block.line(1),
        count: block.count(),
        time: timed.total(),
    }
}

/// The row of an old block and a new one.
fn both(timer: &mut Timer, old: &Block, new: &Block) -> Row
    ensures profile { timer.new ≡ timer.old }
    ensures row { result ≡ both timer.old old.now new.now }
{
    Row::Both {
        old: side_of(timer, old),
        new: side_of(timer, new),
        judged: judge(old, new),
    }
}

/// The row of an old block and the new one at its place, from 0, if there is one.
#[tactic(auto, using(crate::proofs::RowSteps::old_row, crate::proofs::RowSteps::both_row))]
fn row_at(timer: &mut Timer, old: &Block, new: &[Block], place: usize) -> Row
    ensures profile { timer.new ≡ timer.old }
    ensures row { (os : List BlockOf) → rows_of timer.old (old.now ∷ os) (drop place new.now) ≡ result ∷
        rows_of timer.old os (drop (place + 1) new.now) }
{
    if place >= new.len() {
        return Row::OldAlone {
            old: side_of(timer, old),
        };
    }
    both(timer, old, &new[place])
}

/// Appends a row for each old block.
#[tactic(auto, using(crate::proofs::RowSteps::drop_at, crate::proofs::RowSteps::row_pushed))]
fn push_old(
    rows: &mut Vec<Row>,
    timer: &mut Timer,
    old: &[Block],
    new: &[Block],
) -> Result<(), AllocError>
    ensures profile { timer.new ≡ timer.old }
    ensures rows { OnOk result (rows.new.items ++ rows_of timer.old [] (drop (length old.now) new.now) ≡
        rows.old.items ++ rows_of timer.old old.now new.now) }
{
    for (place, block) in old.iter().enumerate() {
        rows.push(row_at(timer, block, new, place))?;
    }
    Ok(())
}

/// Appends a row for each new block from a place on, from 0, at which there is no old one.
#[tactic(auto, using(crate::proofs::RowSteps::new_row, crate::proofs::RowSteps::no_row, crate::proofs::RowSteps::row_pushed))]
fn push_new(
    rows: &mut Vec<Row>,
    timer: &mut Timer,
    new: &[Block],
    first: usize,
) -> Result<(), AllocError>
    ensures profile { timer.new ≡ timer.old }
    ensures rows { OnOk result (rows.new.items ≡ rows.old.items ++ rows_of timer.old [] (drop first new.now)) }
{
    for place in first..new.len() {
        rows.push(Row::NewAlone {
            new: side_of(timer, &new[place]),
        })?;
    }
    Ok(())
}

/// Appends the rows of blocks that are paired by number.
fn push_by_number(
    rows: &mut Vec<Row>,
    timer: &mut Timer,
    old: &[Block],
    new: &[Block],
) -> Result<(), AllocError>
    ensures profile { timer.new ≡ timer.old }
    ensures rows { OnOk result (rows.new.items ≡ rows.old.items ++ rows_of timer.old old.now new.now) }
{
    push_old(rows, timer, old, new)?;
    push_new(rows, timer, new, old.len())
}

/// How many blocks of each source have a row.
#[derive(Clone, Copy)]
struct Places {
    old: usize,
    new: usize,
}

/// Appends the row of a step, if the blocks that it takes are there; and returns how many blocks of each source then have a row.
#[tactic(auto, using(crate::proofs::RowSteps::pair_step, crate::proofs::RowSteps::gone_step, crate::proofs::RowSteps::added_step, crate::proofs::RowSteps::no_pair_old, crate::proofs::RowSteps::no_pair_new, crate::proofs::RowSteps::no_gone, crate::proofs::RowSteps::no_added, crate::proofs::RowSteps::row_pushed))]
fn push_step(
    rows: &mut Vec<Row>,
    timer: &mut Timer,
    step: Step,
    old: &[Block],
    new: &[Block],
    places: Places,
) -> Result<Places, AllocError>
    requires old { places.old ≤ length old.now }
    requires new { places.new ≤ length new.now }
    ensures profile { timer.new ≡ timer.old }
    ensures old { IfOk result (λ after. after.old ≤ length old.now) }
    ensures new { IfOk result (λ after. after.new ≤ length new.now) }
    ensures rows { IfOk result (λ after. (steps : List StepOf) →
        rows.new.items ++ rows_by timer.old steps (drop after.old old.now) (drop after.new new.now) ≡
        rows.old.items ++ rows_by timer.old (step ∷ steps) (drop places.old old.now) (drop places.new new.now)) }
{
    match step {
        Step::Pair => {
            if places.old >= old.len() || places.new >= new.len() {
                return Ok(places);
            }
            rows.push(both(timer, &old[places.old], &new[places.new]))?;
            Ok(Places {
                old: places.old + 1,
                new: places.new + 1,
            })
        }
        Step::Gone => {
            if places.old >= old.len() {
                return Ok(places);
            }
            rows.push(Row::OldAlone {
                old: side_of(timer, &old[places.old]),
            })?;
            Ok(Places {
                old: places.old + 1,
                new: places.new,
            })
        }
        Step::Added => {
            if places.new >= new.len() {
                return Ok(places);
            }
            rows.push(Row::NewAlone {
                new: side_of(timer, &new[places.new]),
            })?;
            Ok(Places {
                old: places.old,
                new: places.new + 1,
            })
        }
    }
}

/// Appends the rows of blocks that these steps pair, and of those that they leave by number.
#[tactic(auto, using(crate::proofs::RowSteps::drop_at))]
fn push_by_steps(
    rows: &mut Vec<Row>,
    timer: &mut Timer,
    steps: &[Step],
    old: &[Block],
    new: &[Block],
) -> Result<(), AllocError>
    ensures profile { timer.new ≡ timer.old }
    ensures rows { OnOk result (rows.new.items ≡ rows.old.items ++ rows_by timer.old steps.now old.now new.now) }
{
    let mut places = Places { old: 0, new: 0 };
    for step in steps {
        places = push_step(rows, timer, *step, old, new, places)?;
    }
    push_by_number(rows, timer, &old[places.old..], &new[places.new..])
}

/// The blocks of two sources, side by side by these steps, all of which one timer times. `Err` is out of memory.
fn rows_by(
    alloc: Global,
    profile: &Profile,
    steps: &[Step],
    old: &[Block],
    new: &[Block],
) -> Result<Vec<Row>, AllocError>
    ensures rows { IfOk result (λ rows. rows.items ≡ rows_by profile.now steps.now old.now new.now) }
    ensures blocks { IfOk result (λ rows. AreOfBlocks old.now new.now 0 0 rows.items) }
{
    let mut timer = Timer::new(profile);
    let mut rows = Vec::new(alloc);
    push_by_steps(&mut rows, &mut timer, steps, old, new)?;
    Ok(rows)
}

/// Whether each row is of an old block and of the new one that is the old one in a legal order.
pub(crate) fn are_legal(rows: &[Row]) -> bool
    ensures { result ≡ every is_legal rows.now }
{
    for row in rows {
        if !row.is_legal() {
            return false;
        }
    }
    true
}

/// The blocks of two sources, side by side: by number if each new block is the old one in a legal order, and else as `align` pairs
/// them. `Err` is out of memory.
pub fn aligned_rows(
    alloc: Global,
    profile: &Profile,
    old: &[Block],
    new: &[Block],
) -> Result<Vec<Row>, AllocError>
    ensures rows { IfOk result (λ rows. AreAligned profile.now old.now new.now rows.items) }
    ensures blocks { IfOk result (λ rows. AreOfBlocks old.now new.now 0 0 rows.items) }
{
    let numbered = rows_by(alloc, profile, &[], old, new)?;
    if are_legal(numbered.as_slice()) {
        return Ok(numbered);
    }
    let steps = align(alloc, old, new)?;
    let aligned = rows_by(alloc, profile, steps.as_slice(), old, new)?;
    Ok(aligned)
}
