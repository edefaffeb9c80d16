//! What `order` writes: the source with its blocks in the best orders found, and which of them stand.

ghost use Rattle.std.specs.Prelude.{◌≡◌, ◌++◌, None, IfOk, replicate};
ghost use Rattle.s66_isa.specs.{Profile as ProfileOf};
ghost use Rattle.s66_command.specs.{Strategy as StrategyOf};
ghost use Rattle.s66_line.specs.{Block as BlockOf};
ghost use Rattle.s66_answer.specs.{IsFor, answer_in};
ghost use Rattle.s66_program.specs.OrderText.{IsOrdered, columns_by, given_by, given_part, placed_by, placed_part, rise_from};

use arrayvec::ArrayVec;
use s66_answer::{
    Answered, BlockAnswer, Found, Keep, Observer, Output, blocks_before, keep_answers,
};
use s66_command::{OrderStyle, Strategy};
use s66_isa::Profile;
use s66_source::{Columns, Placed, Source, print_source};
use std::alloc::{AllocError, Global};
use std::sync::Wait;
use std::thread::Threads;

/// How an answer's block is to be printed.
fn placing(answer: &Found, trace: bool) -> Placed
    ensures { (strategy : StrategyOf) (p : ProfileOf) (block : BlockOf) → IsFor strategy p block answer.now →
        result ≡ placed_by p trace block (answer_in answer.now) }
{
    let Ok(order) = ArrayVec::try_from(answer.order().numbers()) else {
        unreachable!()
    };
    Placed {
        order,
        source: answer.source(),
        time: answer.time(),
        bound: answer.bound(),
        splits: if trace { Some(answer.splits()) } else { None },
    }
}

/// How blocks are to be printed.
#[derive(Drop)]
pub(crate) struct Placings {
    pub(crate) trace: bool,
}

impl Keep<Placed> for Placings {
    ghost part = { λ placings strategy p. placed_part p placings.trace };

    fn keep(&self, parts: &mut Vec<Placed>, answer: BlockAnswer) -> Result<(), AllocError> {
        parts.push(placing(&answer.found, self.trace))?;
        Ok(())
    }
}

/// Whether an order's numbers are those from 1 on, one after the other, as in the source.
fn keeps_order(order: &[u8]) -> bool
    ensures { result ≡ rise_from 1 order.now }
{
    for (i, number) in order.iter().enumerate() {
        if *number as usize != i + 1 {
            return false;
        }
    }
    true
}

/// How an answer's block is to be printed, or `None` if it stands.
fn given(answer: &Found, style: OrderStyle) -> Option<Placed>
    ensures { (strategy : StrategyOf) (p : ProfileOf) (block : BlockOf) → IsFor strategy p block answer.now →
        result ≡ given_by p style block (answer_in answer.now) }
{
    let placed = placing(answer, style.trace);
    if style.keep && keeps_order(placed.order.as_slice()) {
        None
    } else {
        Some(placed)
    }
}

/// How blocks are to be printed, some of which stand.
#[derive(Drop)]
struct Givings {
    style: OrderStyle,
}

impl Keep<Option<Placed>> for Givings {
    ghost part = { λ givings strategy p. given_part p givings.style };

    fn keep(&self, parts: &mut Vec<Option<Placed>>, answer: BlockAnswer) -> Result<(), AllocError> {
        parts.push(given(&answer.found, self.style))?;
        Ok(())
    }
}

/// In which columns the operations of a block stand that is put in order.
fn columns_by(own: bool) -> Columns
    ensures { result ≡ columns_by own }
{
    if own { Columns::Own } else { Columns::Usual }
}

/// How blocks are printed: so many stand, and then these come.
fn after_standing(
    alloc: Global,
    standing: usize,
    mut given: Vec<Option<Placed>>,
) -> Result<Vec<Option<Placed>>, AllocError>
    ensures { IfOk result (λ all. all.items ≡ replicate standing None ++ given.items) }
{
    let mut all = Vec::new(alloc);
    for _ in 0..standing {
        all.push(None)?;
    }
    all.append(&mut given)?;
    Ok(all)
}

/// A source with its blocks, or the only one that is put in order, in the best orders that a search finds under a profile, printed in this
/// way, where all other blocks stand.
pub(crate) fn ordered_output<R: AllocGlobal + Threads + Wait + Sync, O: Observer>(
    rt: &R,
    source: &Source,
    only: Option<u32>,
    profile: &Profile,
    strategy: Strategy,
    style: OrderStyle,
    observer: &mut O,
) -> Result<Output, AllocError>
    ensures { IfOk result (λ output.
        IsOrdered strategy profile.now style only source.now output.text.items output.status) }
{
    let givings = Givings { style };
    let Answered { parts, status } = keep_answers(
        rt, &givings, source, only, profile, strategy, observer,
    )?;
    let standing = blocks_before(only).min(source.blocks().len());
    let given = after_standing(rt.alloc(), standing, parts)?;
    Ok(Output {
        text: print_source(
            rt.alloc(),
            source,
            given.as_slice(),
            style.quiet,
            columns_by(style.columns),
        )?,
        status,
    })
}
