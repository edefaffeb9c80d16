//! Modes, which run parts of a search over the blocks of a source, each so often or so far as a number says. The words are `new`,
//! `push` or `both` and how many times; `tree` or `finish` and how many splits; or `run`, how many splits and how many workers.

use crate::rounds::{sum_of_pushes, sum_of_rounds};
use crate::searches::{search_alone, search_by_workers};
use crate::tree::{Counts, grow};
use s66_isa::Profile;
use s66_line::Block;
use s66_model::{BUDGET_LIMIT, Options, Rule, WORKERS_LIMIT};
use s66_source::{Source, read_source};
use std::alloc::AllocError;
use std::io;
use std::process::ExitCode;
use std::sync::Wait;
use std::thread::Threads;

/// What is run, and how often.
#[derive(Clone, Copy)]
pub(crate) enum Mode {
    /// A new clock, onto which the block is pushed in source order, or its first number alone, as often as the count says.
    Push { is_whole: bool, rounds: u32 },
    /// One clock, onto which the block is pushed in source order and from which it is taken back, as often as the count says.
    Both(u32),
    /// A tree of at most this many splits.
    Tree(u32),
    /// A search of at most this many splits, without workers.
    Finish(u32),
    /// A search by workers.
    Run(Options),
}

/// How workers search, with at most a number of splits; the words say how many workers, one if they don't. Both numbers are
/// brought within their limits.
fn options_of(words: &[String], nodes: u32) -> Option<Options> {
    let workers = match words.get(3) {
        Some(word) => word.parse::<u8>().ok()?,
        None => 1,
    };
    Some(Options {
        workers: workers.max(1).min(WORKERS_LIMIT),
        nodes: nodes.min(BUDGET_LIMIT),
        rule: Rule::NoneNamed,
    })
}

/// The mode that the words of the command line ask for.
pub(crate) fn mode_of(words: &[String]) -> Option<Mode> {
    let name = words.get(1)?;
    let count = words.get(2)?.parse::<u32>().ok()?;
    match name.as_str() {
        "new" => Some(Mode::Push {
            is_whole: false,
            rounds: count,
        }),
        "push" => Some(Mode::Push {
            is_whole: true,
            rounds: count,
        }),
        "both" => Some(Mode::Both(count)),
        "tree" => Some(Mode::Tree(count)),
        "finish" => Some(Mode::Finish(count)),
        "run" => Some(Mode::Run(options_of(words, count)?)),
        _ => None,
    }
}

/// Runs a mode over a block. Returns the total, or the totals added up, and what a tree or a search counts.
fn run_block<R: AllocGlobal + Threads + Wait + Sync>(
    rt: &R,
    block: &Block,
    mode: Mode,
) -> Result<(u64, Counts), AllocError> {
    let profile = Profile::standard();
    let none = Counts::default();
    Ok(match mode {
        Mode::Push { is_whole, rounds } => {
            // a count that the compiler doesn't know, so that both kinds of rounds run the same code
            let count = if is_whole { block.count() } else { 1 };
            prove!(1 <= block.count());
            (sum_of_pushes(block, &profile, count, rounds), none)
        }
        Mode::Both(rounds) => (sum_of_rounds(block, &profile, rounds), none),
        Mode::Tree(budget) => {
            let counts = grow(rt.alloc(), block, &profile, budget)?;
            (counts.best as u64, counts)
        }
        Mode::Finish(budget) => {
            let counts = search_alone(rt.alloc(), block, &profile, budget.min(BUDGET_LIMIT))?;
            (counts.best as u64, counts)
        }
        Mode::Run(options) => {
            let counts = search_by_workers(rt, block, &profile, options)?;
            (counts.best as u64, counts)
        }
    })
}

/// Runs a mode over each block. Returns the totals, added up, and what the trees and searches count.
fn run_blocks<R: AllocGlobal + Threads + Wait + Sync>(
    rt: &R,
    source: &Source<'_>,
    mode: Mode,
) -> Result<(u64, Counts), AllocError> {
    let mut sum = 0u64;
    let mut counts = Counts::default();
    for block in source.blocks() {
        let (totals, counted) = run_block(rt, block, mode)?;
        sum = sum.wrapping_add(totals);
        counts.splits = counts.splits.wrapping_add(counted.splits);
        counts.pushes = counts.pushes.wrapping_add(counted.pushes);
    }
    Ok((sum, counts))
}

/// Runs a mode over the blocks of a source; None if the source is refused.
pub(crate) fn run<R: AllocGlobal + Threads + Wait + Sync>(
    rt: &R,
    text: &[u8],
    mode: Mode,
) -> Result<Option<(u64, Counts)>, AllocError> {
    match read_source(rt.alloc(), text) {
        Ok(source) => Ok(Some(run_blocks(rt, &source, mode)?)),
        Err(_) => Ok(None),
    }
}

/// Prints the totals, added up, and the counts of what was run.
pub(crate) fn tell_counts(
    rt: &HostRuntime,
    counted: Option<(u64, Counts)>,
) -> io::Result<ExitCode> {
    let Some((sum, counts)) = counted else {
        eprintln!(rt; "the source is refused")?;
        return Ok(ExitCode::FAILURE);
    };
    println!(rt; "{sum} {} {}", counts.splits, counts.pushes)?;
    Ok(ExitCode::SUCCESS)
}
