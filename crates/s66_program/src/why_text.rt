//! What `why` writes: what instructions wait for, and why no order is faster than a best one.

ghost use Rattle.std.specs.Prelude.{◌≡◌, ◌++◌, IfOk, OnOk};
ghost use Rattle.s66_line.specs.{instrs_of};
ghost use Rattle.s66_program.specs.WhyText.{IsWhyOutput, waits_lines, waits_part, why_lines};

use crate::best_reasons::push_best_reasons;
use crate::block_head::push_timed_line;
use crate::listing::{Listing, listing_output};
use s66_answer::{BlockAnswer, Keep, Observer, Output, text_of_answers};
use s66_command::Strategy;
use s66_isa::Profile;
use s66_line::Block;
use s66_source::Source;
use s66_time::{Order, Timed, Timer};
use s66_why::push_why;
use std::alloc::{AllocError, Global};
use std::sync::Wait;
use std::thread::Threads;

/// The lines of a block, whose number is from 1, in a timed order, with texts or without them. `Err` is out of memory.
fn push_waits(
    out: &mut Vec<u8>,
    text: bool,
    number: usize,
    block: &Block,
    timed: &Timed,
) -> Result<(), AllocError>
    requires { timed.now.problem.block ≡ instrs_of block.now }
    ensures { OnOk result (out.new.items ≡ out.old.items ++ waits_lines text number block.now timed.now) }
{
    push_timed_line(out, number, block, timed)?;
    push_why(out, text, block, timed)
}

/// What the instructions of blocks wait for: as the blocks were written, or in the orders of answers, and then why no order is faster
/// than a best one.
#[derive(Drop)]
struct Waits {
    text: bool,
}

impl Listing for Waits {
    ghost lines = { λ waits p. why_lines p waits.text };

    fn push_lines(
        &self,
        _alloc: Global,
        out: &mut Vec<u8>,
        timer: &mut Timer,
        number: usize,
        block: &Block,
    ) -> Result<(), AllocError> {
        let timed = timer.time(block, &Order::source(block));
        push_waits(out, self.text, number, block, &timed)
    }
}

impl Keep<u8> for Waits {
    ghost part = { λ waits. waits_part waits.text };

    fn prints_documents(&self) -> bool {
        true
    }

    fn keep(&self, parts: &mut Vec<u8>, answer: BlockAnswer) -> Result<(), AllocError> {
        let mut timer = Timer::new(answer.profile);
        let timed = timer.time(answer.block, answer.found.order());
        push_waits(parts, self.text, answer.number, answer.block, &timed)?;
        push_best_reasons(parts, answer)?;
        Ok(())
    }
}

/// What the instructions of a source's blocks wait for, or of the only one that is printed: as it was written, or in the best order
/// that is found so.
pub(crate) fn why_output<R: AllocGlobal + Threads + Wait + Sync, O: Observer>(
    rt: &R,
    source: &Source,
    order: Option<Strategy>,
    text: bool,
    only: Option<u32>,
    profile: &Profile,
    observer: &mut O,
) -> Result<Output, AllocError>
    ensures { IfOk result (λ output.
        IsWhyOutput profile.now order text only source.now output.text.items output.status) }
{
    let waits = Waits { text };
    match order {
        None => listing_output(rt.alloc(), profile, &waits, only, source),
        Some(strategy) => text_of_answers(rt, &waits, source, only, profile, strategy, observer),
    }
}
