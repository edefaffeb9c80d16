//! Rows of `--profile`: what a text sets, and texts that give none, with what is wrong in them.

use crate::rows::Row;
use crate::running::CHECK;
use s66_test_search::{MULTIPLIES, ONE_LOAD};

const ONE_BOOLEAN: &str = "  BX1 X2+X3\n";

/// The document of three multiplies if there are three units.
const THREE_UNITS: &str =
    "S66 CERTIFICATE 1\nPROFILE 3 3 4 4 3 10 29 8 3 8 1 1 1 1 3 1 2\nBLOCK 3\nI FX1 X2*X3\nI FX4 X5*X6\nI FX0 X7*X7\nTIME 13\nBOUND 13\nORDER 1 2 3\nP\nEND\n";

pub(crate) const ROWS: &[Row] = &[
    (
        "one Boolean, of 5",
        &["s66", "time", "--profile", "{\"boolean\":5}"],
        ONE_BOOLEAN,
        0,
        "BLOCK 1 LINE 1 COUNT 1 PARCELS 1 NO 0 TIME 6\n",
    ),
    (
        "one Boolean, of 5, with blanks and a trace",
        &["s66", "time", "--profile= { \"boolean\" : 5 } ", "--trace"],
        ONE_BOOLEAN,
        0,
        "BLOCK 1 LINE 1 COUNT 1 PARCELS 1 NO 0 TIME 6\nI 1 PARCEL 0 ISSUE 0 START 0 DONE 5 FREE 6\n",
    ),
    (
        "one Boolean, of 5, behind a load of 2",
        &["s66", "time", "--profile", "load=2,boolean=5"],
        ONE_BOOLEAN,
        0,
        "BLOCK 1 LINE 1 COUNT 1 PARCELS 1 NO 0 TIME 6\n",
    ),
    (
        "one Boolean, of 5, before a load of 2",
        &["s66", "time", "--profile=boolean=5,load=2"],
        ONE_BOOLEAN,
        0,
        "BLOCK 1 LINE 1 COUNT 1 PARCELS 1 NO 0 TIME 6\n",
    ),
    (
        "one Boolean, of 5 at last",
        &["s66", "time", "--profile", "boolean=9,boolean=5"],
        ONE_BOOLEAN,
        0,
        "BLOCK 1 LINE 1 COUNT 1 PARCELS 1 NO 0 TIME 6\n",
    ),
    (
        "one Boolean, of the standard profile",
        &["s66", "time", "--profile", "{}"],
        ONE_BOOLEAN,
        0,
        "BLOCK 1 LINE 1 COUNT 1 PARCELS 1 NO 0 TIME 4\n",
    ),
    (
        "one Boolean, of 5, drawn",
        &["s66", "chart", "--profile", "{\"boolean\":5}"],
        ONE_BOOLEAN,
        0,
        "BLOCK 1 LINE 1 TIME 6\n  1 I====.\n",
    ),
    (
        "three multiplies in three units",
        &[
            "s66",
            "order",
            "--trace",
            "--profile",
            "{\"units_multiply\":3}",
        ],
        MULTIPLIES,
        0,
        "* BLOCK 1 COUNT 3 SOURCE 13 TIME 13 BEST\n* SPLITS 0\n          FX1 X2*X3\n          FX4 X5*X6\n          FX0 X7*X7\n",
    ),
    (
        "three multiplies in three units, proved",
        &["s66", "prove", "--profile", "{\"units_multiply\":3}"],
        MULTIPLIES,
        0,
        THREE_UNITS,
    ),
    (
        "three multiplies in three units, by a list",
        &["s66", "prove", "--profile", "units_multiply=3"],
        MULTIPLIES,
        0,
        THREE_UNITS,
    ),
    (
        "three multiplies in three units, checked",
        CHECK,
        THREE_UNITS,
        0,
        "DOCUMENT 1 YES TIME 13 BOUND 13\n",
    ),
    (
        "one load, of 2",
        &["s66", "order", "--profile", "{\"load\":2}"],
        ONE_LOAD,
        0,
        "* BLOCK 1 COUNT 3 SOURCE 10 TIME 8 BEST\n          BX7 X2\n          SA1 A1+B1\n          BX6 X1\n",
    ),
    (
        "dependences of no profile",
        &["s66", "deps", "--profile", "{}"],
        ONE_LOAD,
        2,
        "error: unexpected argument '--profile' found\n\nUsage: s66 deps [OPTIONS] < SOURCE\n\nFor more information, try '--help'.\n",
    ),
    (
        "documents, whose profiles are their own",
        &["s66", "check", "--profile", "{}"],
        THREE_UNITS,
        2,
        "error: unexpected argument '--profile' found\n\nUsage: s66 check [OPTIONS] < CERTIFICATES\n\nFor more information, try '--help'.\n",
    ),
];

/// Texts that give no profile.
pub(crate) const BAD: &[(&str, &str)] = &[
    (
        "{\"boolean\":0}",
        "BAD PROFILE\n\"boolean\" is no whole number 1 to 100\n",
    ),
    (
        "{\"boolean\":101}",
        "BAD PROFILE\n\"boolean\" is no whole number 1 to 100\n",
    ),
    (
        "{\"boolean\":\"3\"}",
        "BAD PROFILE\n\"boolean\" is no whole number 1 to 100\n",
    ),
    (
        "{\"boolean\":3.0}",
        "BAD PROFILE\n\"boolean\" is no whole number 1 to 100\n",
    ),
    (
        "{\"branch\":3}",
        "BAD PROFILE\nno number of a profile is called \"branch\"\nthe names are boolean, shift, normalise, add, longadd, multiply, divide,\npopulation, increment, load, units_boolean, units_shift, units_add,\nunits_longadd, units_multiply, units_divide, units_increment\n",
    ),
    (
        "load=5,units_mult=2",
        "BAD PROFILE\nno number of a profile is called \"units_mult\"\nthe names are boolean, shift, normalise, add, longadd, multiply, divide,\npopulation, increment, load, units_boolean, units_shift, units_add,\nunits_longadd, units_multiply, units_divide, units_increment\n",
    ),
    (
        "load=5,boolean=101",
        "BAD PROFILE\n\"boolean\" is no whole number 1 to 100\n",
    ),
    (
        "[]",
        "BAD PROFILE\nno JSON object such as {\"units_add\":2}, nor units_add=2\n",
    ),
    (
        "{",
        "BAD PROFILE\nno JSON object such as {\"units_add\":2}, nor units_add=2\n",
    ),
    (
        "",
        "BAD PROFILE\nno JSON object such as {\"units_add\":2}, nor units_add=2\n",
    ),
    (
        "units_add",
        "BAD PROFILE\nno JSON object such as {\"units_add\":2}, nor units_add=2\n",
    ),
    (
        "units_add=",
        "BAD PROFILE\nno JSON object such as {\"units_add\":2}, nor units_add=2\n",
    ),
    (
        "=2",
        "BAD PROFILE\nno JSON object such as {\"units_add\":2}, nor units_add=2\n",
    ),
    (
        "units_add=2,",
        "BAD PROFILE\nno JSON object such as {\"units_add\":2}, nor units_add=2\n",
    ),
    (
        "units_add=2;load=5",
        "BAD PROFILE\nno JSON object such as {\"units_add\":2}, nor units_add=2\n",
    ),
    (
        "units_add=02",
        "BAD PROFILE\nno JSON object such as {\"units_add\":2}, nor units_add=2\n",
    ),
    (
        "units_add=2.0",
        "BAD PROFILE\nno JSON object such as {\"units_add\":2}, nor units_add=2\n",
    ),
    (
        "units_add=2, load=5",
        "BAD PROFILE\nno JSON object such as {\"units_add\":2}, nor units_add=2\n",
    ),
    (
        "units_add=true,units_add=2",
        "BAD PROFILE\nno JSON object such as {\"units_add\":2}, nor units_add=2\n",
    ),
];
