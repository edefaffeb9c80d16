//! A command as it is asked for: the subcommand with the options that it takes, in types. Every other crate sees the command line only
//! through these.

use crate::strategy::Strategy;

/// What the program is asked for.
#[derive(Clone, Copy, PartialEq, Eq)]
pub struct Command<'a> {
    /// Whether lines that can't be read, and what a macro, a directive or a count covers, are left alone.
    pub cut: bool,
    /// The number of the only block that is printed or put in order, from 1; None if all are.
    pub block: Option<u32>,
    /// The text of the profile, if it isn't the standard one.
    pub profile: Option<&'a str>,
    /// Whether a source that is accepted in the place of another one is no success while `lint` lists lines of the other.
    pub strict: bool,
    /// Whether there has to be a document.
    pub some: bool,
    /// What is written, and how.
    pub asked: Asked,
}

/// What a command writes, and how.
#[derive(Clone, Copy, PartialEq, Eq)]
pub enum Asked {
    /// The times of each block of a source, as it was written.
    Time {
        /// Whether the times of each instruction are printed.
        trace: bool,
    },
    /// On which instructions each instruction of a block depends.
    Deps {
        /// Whether each pair has a line with their texts, and with why the second depends on the first.
        text: bool,
    },
    /// A chart of each block of a source, as it was written.
    Chart {
        /// Whether each row comes after the text of its instruction, below a ruler.
        text: bool,
        /// Whether below such rows each functional unit has one and each register, with the instructions that hold it.
        units: bool,
    },
    /// Why the instructions of each block of a source wait.
    Why {
        /// How the best order of each block is looked for, if that is the one that is explained and not the source order.
        order: Option<Strategy>,
        /// Whether the text of each instruction stands beside its number.
        text: bool,
    },
    /// A page that shows each block of a source, as it was written and in the best order that was found.
    Page {
        /// How the best order of each block is looked for.
        strategy: Strategy,
    },
    /// A page that shows the blocks of two sources in pairs, each in the orders of both.
    Pairs,
    /// Each block of a source in the best order that was found. The others are left as they stand if one block is asked for.
    Order {
        /// How the best order of each block is looked for.
        strategy: Strategy,
        /// How it is printed.
        style: OrderStyle,
    },
    /// A document for each block of a source: an order, its time, a bound, and a tree that shows the bound.
    Prove {
        /// How the best order of each block is looked for.
        strategy: Strategy,
    },
    /// The verdict on each document.
    Check {
        /// Whether sentences say why no order is faster.
        text: bool,
    },
    /// How long each block of a source takes in the best order that was found, and all of them.
    Sum {
        /// How the best order of each block is looked for.
        strategy: Strategy,
        /// What is printed beside the times.
        style: SumStyle,
    },
    /// Whether one source is another but for legal orders of its blocks.
    Compare {
        /// Whether an order that isn't legal is told by lines and instructions.
        text: bool,
    },
    /// Each block of a source as a line of JSON, as it was written and in the best order that was found.
    Json {
        /// How the best order of each block is looked for, if it is.
        order: Option<Strategy>,
    },
    /// The lines of a source, which may be any text, that are refused or that may not do what was meant; with `--cut` only what remains
    /// to be done by hand.
    Lint,
    /// A source with switches around the code that `order --cut` could harm.
    Guard,
}

/// What a command reads.
#[derive(Clone, Copy, PartialEq, Eq)]
pub enum Reads {
    /// A source, which may be refused.
    Source,
    /// Two sources, either of which may be refused.
    Sources,
    /// Documents, which may be refused.
    Documents,
    /// Any text, of which nothing is refused.
    Text,
}

/// How the blocks of a source are printed that are put in order.
#[derive(Clone, Copy, PartialEq, Eq)]
pub struct OrderStyle {
    /// Whether the number of splits is printed.
    pub trace: bool,
    /// Whether a block that keeps its order is copied as it stands, without a report.
    pub keep: bool,
    /// Whether the operation of each line of a block that is put in order stands in the column in which it stood; only with `keep`.
    pub columns: bool,
    /// Whether no report is printed.
    pub quiet: bool,
}

/// What is printed of a block beside its times.
#[derive(Clone, Copy, PartialEq, Eq)]
pub struct SumStyle {
    /// Whether the numbers of splits are printed.
    pub trace: bool,
    /// Whether the words that each block takes are printed, as it was written and in the best order that was found.
    pub words: bool,
}

impl Command<'_> {
    ghost use Rattle.std.specs.Prelude.{◌≡◌};
    ghost use Rattle.s66_command.specs.{reads_cut};

    /// Whether it reads a source as with `--cut`: always for `guard`.
    pub fn reads_cut(&self) -> bool
        ensures { result ≡ reads_cut self.now }
    {
        match self.asked {
            Asked::Guard => true,
            _ => self.cut,
        }
    }
}

impl Asked {
    ghost use Rattle.std.specs.Prelude.{◌≡◌};
    ghost use Rattle.s66_command.specs.{reads_of, strategy_of};

    /// How the best orders are looked for that are written, if any are.
    pub fn strategy(self) -> Option<Strategy>
        ensures { result ≡ strategy_of self }
    {
        match self {
            Asked::Why { order, .. } | Asked::Json { order } => order,
            Asked::Page { strategy }
            | Asked::Order { strategy, .. }
            | Asked::Prove { strategy }
            | Asked::Sum { strategy, .. } => Some(strategy),
            _ => None,
        }
    }

    /// What it reads.
    pub fn reads(self) -> Reads
        ensures { result ≡ reads_of self }
    {
        match self {
            Asked::Lint => Reads::Text,
            Asked::Compare { .. } | Asked::Pairs => Reads::Sources,
            Asked::Check { .. } => Reads::Documents,
            _ => Reads::Source,
        }
    }
}
