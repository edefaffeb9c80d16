//! Tests of what is below the program: of lines and sources; of orders, the clock, its marks and bounds; of expansions, the ledger
//! and the workers of a hub; and of what `--deep` looks at a block with, each by itself.
//! Begin at `reading.rt`.
//!
//! What isn't a test is the blocks. The tests of the program and the program for the tools use them too.
#![tactic(auto)]

#[cfg(test)]
mod beam;
mod blocks;
#[cfg(test)]
mod branch;
#[cfg(test)]
mod clock;
#[cfg(test)]
mod dominated;
#[cfg(test)]
mod expansion;
#[cfg(test)]
mod finder;
#[cfg(test)]
mod finish;
#[cfg(test)]
mod floors;
#[cfg(test)]
mod gates;
#[cfg(test)]
mod hint;
#[cfg(test)]
mod hostile;
#[cfg(test)]
mod hub;
#[cfg(test)]
mod instructions;
#[cfg(test)]
mod lanes;
#[cfg(test)]
mod ledger;
#[cfg(test)]
mod mark_table;
#[cfg(test)]
mod marks;
#[cfg(test)]
mod operands;
#[cfg(test)]
mod orders;
#[cfg(test)]
mod paths;
#[cfg(test)]
mod plain_clock;
#[cfg(test)]
mod plain_paths;
#[cfg(test)]
mod prefix;
#[cfg(test)]
mod reading;
#[cfg(test)]
mod schedule;
#[cfg(test)]
mod sources;
#[cfg(test)]
mod tables;
#[cfg(test)]
mod text;
#[cfg(test)]
mod walk;
#[cfg(test)]
mod workers;

pub use blocks::{
    MULTIPLIES, ONE_LOAD, PACKING_GAP, SEVEN_MULTIPLIES, THIRD_ORDER, THREE_ALIKE, as_written,
    only_block,
};
