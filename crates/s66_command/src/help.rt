//! The texts of the help that the rows of `subcommand.rt` don't have. Lines have at most 80 columns: a text of an option at most 56 a
//! line, one of its long help at most 70.

use crate::limits::{BLOCK_NUMBER_LIMIT, NODES_DEFAULT, WORKERS_DEFAULT};
use s66_isa::PROFILE_LIMIT;
use s66_model::{BUDGET_LIMIT, WORKERS_LIMIT};

// the texts say these as numbers
const _: () = prove!(PROFILE_LIMIT == 100);

const _: () = prove!(WORKERS_LIMIT == 16);

const _: () = prove!(WORKERS_DEFAULT == 4);

const _: () = prove!(BUDGET_LIMIT == 1_000_000);

const _: () = prove!(NODES_DEFAULT == 100_000);

const _: () = prove!(BLOCK_NUMBER_LIMIT == 20_000);

/// What the help of a subcommand ends with: an example, the statuses, and those that it has alone.
macro_rules! help_ending {
    ($example:literal) => {
        help_ending!($example, "the source or the profile was refused")
    };
    ($example:literal, $refusal:literal $(, $own_statuses:literal)*) => {
        concat!(
            "Example: ",
            $example,
            "\n\nStatus: 0 done, 2 usage, 3 ",
            $refusal,
            ",\n        4 out of memory, 6 a read or write failed"
            $(, $own_statuses)*
        )
    };
}

/// That of a subcommand that searches, always or in some case.
macro_rules! search_ending {
    ($example:literal, $case:literal) => {
        help_ending!(
            $example,
            "the source or the profile was refused",
            ",\n        7 ",
            $case,
            "some block is only bounded"
        )
    };
}

pub(crate) use help_ending;
pub(crate) use search_ending;

/// What the program does.
pub(crate) const ABOUT: &str = "\
s66 order --deep < SOURCE   writes the source with each block in the best order

Blocks are straight-line COMPASS code for the CDC 6600. s66 orders, times, draws
and explains them, and proves that no order is faster.";

const PROFILE_LONG: &str = "\
The timing profile, a JSON object or a list as units_add=2,load=5
[default: {}]; what it does not name is standard.

Times in minor cycles: boolean, shift, normalise, add, longadd,
multiply, divide, population, increment, load.
Units of each kind: units_boolean, units_shift, units_add,
units_longadd, units_multiply, units_divide, units_increment.
Each is 1 to 100.

A third Multiply unit: --profile units_multiply=3
or, as JSON: --profile '{\"units_multiply\":3}'";

const NODES_LONG: &str = "\
The most splits of a block's search, 0 to 1000000 [default: 100000]

A split divides all orders with one beginning by the instruction that
comes next.";

/// What the long help says of the option of this name, if it says more.
pub(crate) fn long<'a>(name: &str) -> Option<&'a str> {
    match name {
        "profile" => Some(PROFILE_LONG),
        "nodes" => Some(NODES_LONG),
        _ => None,
    }
}
