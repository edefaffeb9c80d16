//! The command line: a row for each subcommand, and in it a row for each of its own options. One that several take is a constant, and all
//! that search take more. What a call asks for by them is `asked_by` in `usage.rt`, and `AsksBy` in `specs/Usage.antt`.

ghost use Rattle.std.specs.Prelude.{◌≡◌, option_map};
ghost use Rattle.s66_command.specs.{in_row, is_deep, subcommand_named};

use crate::help::{help_ending, search_ending};
use crate::limits::BLOCK_NUMBER_LIMIT;
use Value::{Flag, Number, Written};
use Work::{Check, Plain, Search};
use s66_model::{BUDGET_LIMIT, WORKERS_LIMIT};

/// The value that an option takes.
#[derive(Clone, Copy)]
pub(crate) enum Value {
    /// None: it is given or not.
    Flag,
    /// A text, as it stands.
    Written,
    /// A number from the least to the most.
    Number { least: u32, most: u32 },
}

/// An option: its name, which comes after two dashes, the value that it takes, and what its help says.
pub(crate) type OptionRow = (&'static str, Value, &'static str);

/// How a subcommand works.
#[derive(Clone, Copy)]
pub(crate) enum Work {
    /// It searches orders: it takes the options of a search, and its calls go deep.
    Search,
    /// It checks certificates, in calls that go deep.
    Check,
    /// It does neither, and its calls stay shallow.
    Plain,
}

/// A subcommand: its name, which is a word of the command line, how it works, its own options, what it does, how it is called, and how its
/// help ends.
pub(crate) type SubcommandRow = (
    &'static str,
    Work,
    &'static [OptionRow],
    &'static str,
    &'static str,
    &'static str,
);

const CUT: OptionRow = (
    "cut",
    Flag,
    "Leaves alone, rather than refuses, lines that can't be\n\
     read, and code that directives, macros or counts cover",
);

const PROFILE: OptionRow = (
    "profile",
    Written,
    "The timing profile, as units_add=2,load=5 or in JSON",
);

const BLOCK_NUMBER: Value = Number {
    least: 1,
    most: BLOCK_NUMBER_LIMIT,
};

const BLOCK: OptionRow = (
    "block",
    BLOCK_NUMBER,
    "Prints only the block of this number, 1 to 20000",
);

/// What all subcommands take that search, in the help before their own options.
pub(crate) const SEARCH: &[OptionRow] = &[
    (
        "deep",
        Flag,
        "If some splits don't decide, looks for facts that rule\n\
         out faster orders: give it always, unless you study searches",
    ),
    CUT,
    PROFILE,
    (
        "nodes",
        Number {
            least: 0,
            most: BUDGET_LIMIT,
        },
        "The most splits of a block's search, 0 to 1000000\n\
         [default: 100000]",
    ),
    (
        "workers",
        Number {
            least: 1,
            most: WORKERS_LIMIT as u32,
        },
        "How many workers search, 1 to 16 [default: 4]",
    ),
];

/// What they take for the study of searches, in the help at the end.
pub(crate) const STUDY: &[OptionRow] = &[
    (
        "dominate",
        Flag,
        "Skips beginnings of orders that an earlier one dominates",
    ),
    (
        "dominate-tree",
        Flag,
        "Skips beginnings of orders that any other one dominates",
    ),
];

/// The subcommands, in the order in which one needs them.
pub(crate) const SUBCOMMANDS: &[SubcommandRow] = &[
    (
        "lint",
        Plain,
        &[(
            "cut",
            Flag,
            "Leaves out what other subcommands leave alone with\n\
             --cut: lists what remains to be done by hand",
        )],
        "Lists the lines that are refused, or that order could harm",
        "s66 lint [OPTIONS] < SOURCE",
        "Example: s66 lint < SOURCE\n\n\
         Status: 0 done, 2 usage, 4 out of memory, 5 some line is refused,\n        \
         6 a read or write failed, 8 other lines alone are listed",
    ),
    (
        "guard",
        Plain,
        &[],
        "Writes the source with switches around code that order could harm",
        "s66 guard < SOURCE",
        "Example: s66 guard < SOURCE | s66 order --cut --keep --deep\n\n\
         Status: 0 done, 2 usage, 3 input refused, 4 out of memory,\n        \
         6 a read or write failed",
    ),
    (
        "order",
        Search,
        &[
            ("trace", Flag, "Prints the number of splits of each block"),
            (
                "keep",
                Flag,
                "Copies a block that keeps its order as it stands, with\n\
                 its NOs and notes, and reports nothing of it",
            ),
            (
                "columns",
                Flag,
                "With --keep, puts the operation of each line of a\n\
                 changed block in the column in which it stood",
            ),
            ("quiet", Flag, "Prints no reports, but the source alone"),
            (
                "block",
                BLOCK_NUMBER,
                "Puts only the block of this number in order, 1 to 20000;\n\
                 copies the others as they stand",
            ),
        ],
        "Writes the source with each block in the best order found",
        "s66 order [OPTIONS] < SOURCE",
        search_ending!("s66 order --deep < SOURCE", ""),
    ),
    (
        "compare",
        Plain,
        &[
            CUT,
            PROFILE,
            (
                "strict",
                Flag,
                "Ends with 8, where it would with 0, if lint lists lines\n\
                 of OLD or NEW, and counts those of both",
            ),
            (
                "text",
                Flag,
                "Tells by lines and instructions which order isn't legal,\n\
                 and why",
            ),
        ],
        "Tells whether one source is another but for legal orders of blocks:\n\
         OLD, a line *S66 NEW, then NEW",
        "s66 compare [OPTIONS] < SOURCES",
        help_ending!(
            "s66 compare --cut < SOURCES",
            "a source or the profile was refused",
            ",\n        5 something else is changed, 8 lint lists lines (--strict)"
        ),
    ),
    (
        "sum",
        Search,
        &[
            (
                "trace",
                Flag,
                "Prints the number of splits of each block, and of all",
            ),
            (
                "words",
                Flag,
                "Prints the words of each block, or of the loop that a\n\
                 branch behind it closes, as written and as found",
            ),
            BLOCK,
        ],
        "Prints what order saves in each block, and in all",
        "s66 sum [OPTIONS] < SOURCE",
        search_ending!("s66 sum --deep < SOURCE", ""),
    ),
    (
        "prove",
        Search,
        &[BLOCK],
        "Writes a certificate for each block: order, time, bound, and proof",
        "s66 prove [OPTIONS] < SOURCE",
        search_ending!("s66 prove --deep < SOURCE > CERTIFICATES", ""),
    ),
    (
        "check",
        Check,
        &[
            ("text", Flag, "Says in sentences why no order is faster"),
            ("some", Flag, "Ends with 5 if there is no certificate"),
        ],
        "Checks each certificate by itself",
        "s66 check [OPTIONS] < CERTIFICATES",
        help_ending!(
            "s66 check < CERTIFICATES",
            "the documents were refused",
            ",\n        5 some verdict is NO or (--some) there is none"
        ),
    ),
    (
        "time",
        Plain,
        &[
            CUT,
            PROFILE,
            ("trace", Flag, "Prints the times of each instruction"),
            BLOCK,
        ],
        "Times each block as it is written",
        "s66 time [OPTIONS] < SOURCE",
        help_ending!("s66 time --trace < SOURCE"),
    ),
    (
        "why",
        Search,
        &[
            (
                "order",
                Flag,
                "Explains the best order found, and not the source's; the\n\
                 options of a search are for this",
            ),
            (
                "text",
                Flag,
                "Puts the text of each instruction beside its number",
            ),
            BLOCK,
        ],
        "Prints what each instruction waits for, and for how long",
        "s66 why [OPTIONS] < SOURCE",
        search_ending!("s66 why --text --block 2 < SOURCE", "with --order: "),
    ),
    (
        "chart",
        Plain,
        &[
            CUT,
            PROFILE,
            (
                "text",
                Flag,
                "Puts the text of each instruction before its row, and a\n\
                 ruler above the rows",
            ),
            (
                "units",
                Flag,
                "Also draws below such rows which instruction holds each\n\
                 functional unit and each register",
            ),
            BLOCK,
        ],
        "Draws each block as it is written",
        "s66 chart [OPTIONS] < SOURCE",
        help_ending!("s66 chart --text < SOURCE"),
    ),
    (
        "deps",
        Plain,
        &[
            CUT,
            (
                "text",
                Flag,
                "Prints a line for each pair, with their texts and why\n\
                 the one depends on the other: X6 RAW, MEMORY WAR",
            ),
            BLOCK,
        ],
        "Prints what each instruction depends on",
        "s66 deps [OPTIONS] < SOURCE",
        help_ending!("s66 deps < SOURCE", "the source was refused"),
    ),
    (
        "page",
        Search,
        &[
            (
                "compare",
                Flag,
                "Reads OLD, a line *S66 NEW, then NEW, and shows their\n\
                 blocks in pairs, as compare does, each in both orders;\n\
                 goes with --cut and --profile alone",
            ),
            BLOCK,
        ],
        "Writes a page for a browser: each block as it is written and in the\n\
         best order found",
        "s66 page [OPTIONS] < SOURCE > PAGE",
        help_ending!(
            "s66 page --deep < SOURCE > page.html",
            "a source or the profile was refused",
            ",\n        5 with --compare: something else is changed,\n        \
             7 some block is only bounded"
        ),
    ),
    (
        "json",
        Search,
        &[
            (
                "order",
                Flag,
                "Writes the best order found too; the options of a search\n\
                 are for this",
            ),
            BLOCK,
        ],
        "Writes each block as a line of JSON, for programs",
        "s66 json [OPTIONS] < SOURCE",
        search_ending!("s66 json --order --deep < SOURCE", "with --order: "),
    ),
];

impl Work {
    /// Whether its calls go deep.
    pub(crate) fn is_deep(self) -> bool
        ensures { result ≡ is_deep self }
    {
        match self {
            Search | Check => true,
            Plain => false,
        }
    }
}

/// The row of the subcommand of this name.
pub(crate) fn row_named(name: &str) -> Option<SubcommandRow>
    ensures { option_map in_row result ≡ subcommand_named name.now }
{
    SUBCOMMANDS.iter().find(|row| row.0 == name).copied()
}
