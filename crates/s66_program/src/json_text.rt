//! What `json` writes: a line for each block, as written or also in the order found.

ghost use Rattle.std.specs.Prelude.{◌≡◌, ◌++◌, IfOk, OnOk};
ghost use Rattle.s66_line.specs.{instrs_of};
ghost use Rattle.s66_views.specs.{found_data, json_line};
ghost use Rattle.s66_program.specs.AsWritten.{as_written};
ghost use Rattle.s66_program.specs.JsonText.{IsJsonOutput, answer_line, written_line};

use crate::entries::{EntryPoint, entries_of, entry_at};
use crate::listing::{Listing, listing_output};
use s66_answer::{BlockAnswer, Keep, Observer, Output, text_of_answers};
use s66_command::Strategy;
use s66_isa::Profile;
use s66_line::Block;
use s66_source::Source;
use s66_time::{Order, Timer};
use s66_views::{push_found_line, push_written_line};
use std::alloc::{AllocError, Global};
use std::sync::Wait;
use std::thread::Threads;

/// The line of a block, whose number is from 1, as it was written, under the timer's profile.
fn push_json_line(
    out: &mut Vec<u8>,
    timer: &mut Timer,
    entries: &[EntryPoint],
    number: usize,
    block: &Block,
) -> Result<(), AllocError>
    ensures profile { timer.new ≡ timer.old }
    ensures line { OnOk result (out.new.items ≡ out.old.items ++ written_line entries.now timer.old number block.now) }
{
    let written = timer.time(block, &Order::source(block));
    push_written_line(out, number, entry_at(entries, number), block, &written)
}

/// The line of a block also in an order that was found by so many splits, when every order takes the bound at least.
fn push_json_found(
    out: &mut Vec<u8>,
    timer: &mut Timer,
    entry: &[u8],
    number: usize,
    block: &Block,
    order: &Order,
    bound: u32,
    splits: u32,
) -> Result<(), AllocError>
    requires { order.now.block ≡ instrs_of block.now }
    ensures profile { timer.new ≡ timer.old }
    ensures line { OnOk result (out.new.items ≡ out.old.items ++
        json_line number entry.now block.now (as_written timer.old (instrs_of block.now))
        (found_data
        (record { problem = record { block = instrs_of block.now; profile = timer.old }; numbers = order.now.numbers })
        bound splits)) }
{
    let written = timer.time(block, &Order::source(block));
    let found = timer.time(block, order);
    push_found_line(out, number, entry, block, &written, &found, bound, splits)
}

/// The lines of JSON of blocks, as they were written, or also with the orders of answers.
#[derive(Drop)]
struct JsonLines<'e, 'a> {
    /// The names by which all blocks of the source are entered.
    entries: &'e [EntryPoint<'a>],
}

impl<'e, 'a> Listing for JsonLines<'e, 'a> {
    ghost lines = { λ x. written_line x.entries.now };

    fn push_lines(
        &self,
        _alloc: Global,
        out: &mut Vec<u8>,
        timer: &mut Timer,
        number: usize,
        block: &Block,
    ) -> Result<(), AllocError> {
        push_json_line(out, timer, self.entries, number, block)
    }
}

impl<'e, 'a> Keep<u8> for JsonLines<'e, 'a> {
    ghost part = { λ x strategy. answer_line x.entries.now };

    fn keep(&self, parts: &mut Vec<u8>, answer: BlockAnswer) -> Result<(), AllocError> {
        let mut timer = Timer::new(answer.profile);
        let found = &answer.found;
        push_json_found(
            parts,
            &mut timer,
            entry_at(self.entries, answer.number),
            answer.number,
            answer.block,
            found.order(),
            found.bound(),
            found.splits(),
        )?;
        Ok(())
    }
}

/// A line of JSON for each block of a source, or for the only one that is printed: as it was written, or also in the best order that is
/// found so.
pub(crate) fn json_output<R: AllocGlobal + Threads + Wait + Sync, O: Observer>(
    rt: &R,
    source: &Source,
    order: Option<Strategy>,
    only: Option<u32>,
    profile: &Profile,
    observer: &mut O,
) -> Result<Output, AllocError>
    ensures { IfOk result (λ output. IsJsonOutput profile.now order only source.now output.text.items output.status) }
{
    let alloc = rt.alloc();
    let entries = entries_of(alloc, source)?;
    let lines = JsonLines {
        entries: entries.as_slice(),
    };
    match order {
        None => listing_output(alloc, profile, &lines, only, source),
        Some(strategy) => { text_of_answers(rt, &lines, source, only, profile, strategy, observer) }
    }
}
