//! Rows of `--deep`: what each kind of search decides, in orders and in certificates.

use crate::rows::{Row, TWO_DIVIDES};
use s66_test_search::MULTIPLIES;

/// Orders by facts alone.
const NO_SPLIT: &[&str] = &[
    "s66",
    "order",
    "--workers",
    "1",
    "--deep",
    "--nodes",
    "0",
    "--trace",
];

/// The certificate of such an order.
const PROVE_NO_SPLIT: &[&str] = &["s66", "prove", "--workers", "1", "--deep", "--nodes", "0"];

/// The certificate of an order by so few splits that one pair is supposed.
const PROVE_FEW: &[&str] = &["s66", "prove", "--workers", "1", "--deep", "--nodes", "16"];

/// No order takes less than 37, which is found by the last of four searches. With ten splits none of them comes to its end: they make 10,
/// 10 for a tree, 5 to raise what it shows, and 10.
const FOUR_SEARCHES: &str =
    "  BX4 X0*X0\n  SB2 B1+1\n  NX2 B1,X3\n  BX2 X0*X2\n  SA4 A7+B2\n  SX4 X5+B2\n  IX2 X5+X7\n  LX3 3\n  MX5 5\n  UX1 B2,X4\n  SB2 B0+1\n  UX4 B1,X1\n  IX0 X0+X7\n  CX6 X3\n  UX0 B2,X0\n  FX0 X5*X5\n";

/// Of the orders that take 16, the least, one alone has only two pairs in reverse. The first beams find it.
const NARROW_BEAMS: &str =
    "  MX6 25\n  SA4 A4+B2\n  SX1 X7+B7\n  SB4 B6+1\n  PX0 B5,X1\n  PX0 B1,X1\n  UX5 B4,X5\n";

/// Every order takes 13. Two pairs show that, and neither of them alone; that 1 comes before 5 is found too, and not needed.
const TWO_PAIRS: &str = "  FX6 X5*X6\n  PX2 B5,X0\n  CX3 X4\n  ZX0 X0\n  MX4 57\n";

/// Every order takes 8, since two units do all of them. Two pairs are found too, and not needed.
const THREE_INCREMENTS: &str = "  SX5 B1+B2\n  SX5 B1+B2\n  SX7 B3+5\n";

/// Orders.
pub(crate) const ROWS: &[Row] = &[
    (
        "two divides and what waits for them: the search has no split, and facts need none",
        NO_SPLIT,
        TWO_DIVIDES,
        0,
        "* BLOCK 1 COUNT 4 SOURCE 70 TIME 70 BEST\n* SPLITS 0\n          FX1 X2/X3\n          FX4 X1+X5\n          FX1 X5/X6\n          FX6 X1*X2\n",
    ),
    (
        "three multiplies, without a split: one unit has two of them, one after the other",
        NO_SPLIT,
        MULTIPLIES,
        0,
        "* BLOCK 1 COUNT 3 SOURCE 22 TIME 22 BEST\n* SPLITS 0\n          FX1 X2*X3\n          FX4 X5*X6\n          FX0 X7*X7\n",
    ),
    (
        "four searches, and the splits of all",
        &[
            "s66",
            "order",
            "--workers",
            "1",
            "--deep",
            "--nodes",
            "10",
            "--trace",
        ],
        FOUR_SEARCHES,
        7,
        "* BLOCK 1 COUNT 16 SOURCE 49 TIME 37 AT LEAST 36\n* SPLITS 35\n          BX4 X0*X0\n          SB2 B1+1\n          NX2 B1,X3\n          SA4 A7+B2\n          BX2 X0*X2\n          LX3 3\n          IX2 X5+X7\n          SX4 X5+B2\n          MX5 5\n          UX1 B2,X4\n          IX0 X0+X7\n          SB2 B0+1\n          CX6 X3\n          UX0 B2,X0\n          FX0 X5*X5\n          UX4 B1,X1\n",
    ),
    (
        "of the best orders the one that is nearest to the source",
        NO_SPLIT,
        NARROW_BEAMS,
        0,
        "* BLOCK 1 COUNT 7 SOURCE 19 TIME 16 BEST\n* SPLITS 0\n          MX6 25\n          SX1 X7+B7\n          SA4 A4+B2\n          PX0 B5,X1\n          SB4 B6+1\n          PX0 B1,X1\n          UX5 B4,X5\n",
    ),
    (
        "without a split, a bound that is raised more than once",
        NO_SPLIT,
        "  SX4 X3+B6\n  LX6 B5,X7\n  FX3 X6*X1\n  FX7 X1*X2\n  LX0 B4,X4\n  BX1 X0\n  LX3 B0,X7\n  FX5 X5*X5\n  BX7 X2\n",
        7,
        "* BLOCK 1 COUNT 9 SOURCE 26 TIME 23 AT LEAST 22\n* SPLITS 0\n          LX6 B5,X7\n          FX7 X1*X2\n          SX4 X3+B6\n          FX3 X6*X1\n          LX0 B4,X4\n          BX1 X0\n          FX5 X5*X5\n          LX3 B0,X7\n          BX7 X2\n",
    ),
];

/// Orders that more splits find than come first, and facts beside them.
pub(crate) const SOUGHT_ROWS: &[Row] = &[
    (
        "2,000 splits first, 20 for each pair of places, and none after",
        &["s66", "order", "--workers", "1", "--deep", "--trace"],
        "  FX0 X7*X7\n  FX1 X7*X7\n  FX2 X7*X7\n  FX3 X7*X7\n  FX4 X7*X7\n  FX5 X7*X7\n  FX6 X7*X7\n  SB1 B0+1\n  SB2 B0+1\n  SB3 B0+1\n",
        0,
        "* BLOCK 1 COUNT 10 SOURCE 44 TIME 44 BEST\n* SPLITS 2000\n          FX0 X7*X7\n          FX1 X7*X7\n          FX2 X7*X7\n          FX3 X7*X7\n          FX4 X7*X7\n          FX5 X7*X7\n          FX6 X7*X7\n          SB1 B0+1\n          SB2 B0+1\n          SB3 B0+1\n",
    ),
    (
        "a search, a tree by facts, and the order brought nearer",
        &[
            "s66",
            "order",
            "--workers",
            "1",
            "--deep",
            "--nodes",
            "2200",
            "--trace",
        ],
        "  SB2 B1+1\n  FX7 X6*X5\n  SB7 B7+B2\n  SB3 B1+B7\n  FX4 X0+X3\n  FX1 X3*X1\n  SB5 B5+1\n  SB4 B7+1\n  IX6 X2+X3\n  BX0 X0*X0\n",
        0,
        "* BLOCK 1 COUNT 10 SOURCE 17 TIME 16 BEST\n* SPLITS 2322\n          SB2 B1+1\n          FX7 X6*X5\n          SB7 B7+B2\n          FX4 X0+X3\n          FX1 X3*X1\n          SB5 B5+1\n          SB3 B1+B7\n          IX6 X2+X3\n          SB4 B7+1\n          BX0 X0*X0\n",
    ),
    (
        "a search that is left open, and goes on",
        &[
            "s66",
            "order",
            "--workers",
            "1",
            "--deep",
            "--nodes",
            "7284",
            "--trace",
        ],
        "  FX0 X2/X1\n  BX0 X0*X5\n  SA0 A5+B5\n  MX4 2\n  SA7 A5+7\n  LX1 B0,X0\n  CX4 X0\n  FX7 X0*X6\n  SX3 X0+B7\n  IX2 X2+X6\n  IX3 X3+X7\n  FX4 X3*X7\n  SA2 A5+B6\n  SX2 B2+B7\n  LX5 B7,X6\n  FX5 X7*X3\n  SA6 A5+4\n  FX0 X2*X4\n  FX2 X1*X2\n",
        7,
        "* BLOCK 1 COUNT 19 SOURCE 79 TIME 68 AT LEAST 67\n* SPLITS 21858\n          FX0 X2/X1\n          SA0 A5+B5\n          MX4 2\n          SA7 A5+7\n          IX2 X2+X6\n          BX0 X0*X5\n          LX1 B0,X0\n          CX4 X0\n          FX7 X0*X6\n          SX3 X0+B7\n          SA2 A5+B6\n          IX3 X3+X7\n          FX4 X3*X7\n          SX2 B2+B7\n          LX5 B7,X6\n          FX5 X7*X3\n          SA6 A5+4\n          FX0 X2*X4\n          FX2 X1*X2\n",
    ),
];

/// Certificates.
pub(crate) const PROOF_ROWS: &[Row] = &[
    (
        "its certificate, whose only leaf is by the longest paths",
        PROVE_NO_SPLIT,
        TWO_DIVIDES,
        0,
        "S66 CERTIFICATE 4\nPROFILE 3 3 4 4 3 10 29 8 3 8 1 1 1 1 2 1 2\nBLOCK 4\nI FX1 X2/X3\nI FX4 X1+X5\nI FX1 X5/X6\nI FX6 X1*X2\nTIME 70\nBOUND 70\nORDER 1 2 3 4\nE 1\nEND\n",
    ),
    (
        "a certificate with no fact line that its leaf can do without",
        PROVE_NO_SPLIT,
        TWO_PAIRS,
        0,
        "S66 CERTIFICATE 4\nPROFILE 3 3 4 4 3 10 29 8 3 8 1 1 1 1 2 1 2\nBLOCK 5\nI FX6 X5*X6\nI PX2 B5,X0\nI CX3 X4\nI ZX0 X0\nI MX4 57\nTIME 13\nBOUND 13\nORDER 2 1 3 4 5\nF 2 5\nF 5 4\nE 2\nEND\n",
    ),
    (
        "a certificate whose leaf needs no fact line at all",
        PROVE_NO_SPLIT,
        THREE_INCREMENTS,
        0,
        "S66 CERTIFICATE 4\nPROFILE 3 3 4 4 3 10 29 8 3 8 1 1 1 1 2 1 2\nBLOCK 3\nI SX5 B1+B2\nI SX5 B1+B2\nI SX7 B3+5\nTIME 8\nBOUND 8\nORDER 1 2 3\nL 0 1 2 3\nEND\n",
    ),
    (
        "a certificate by a supposition",
        PROVE_FEW,
        "  DX3 X1-X4\n  IX3 X1+X0\n  DX2 X2-X5\n  FX7 X1*X1\n  LX2 B2,X3\n  BX2 X2*X2\n  BX0 X7*X4\n  BX5 X7*X5\n",
        0,
        "S66 CERTIFICATE 5\nPROFILE 3 3 4 4 3 10 29 8 3 8 1 1 1 1 2 1 2\nBLOCK 8\nI DX3 X1-X4\nI IX3 X1+X0\nI DX2 X2-X5\nI FX7 X1*X1\nI LX2 B2,X3\nI BX2 X2*X2\nI BX0 X7*X4\nI BX5 X7*X5\nTIME 22\nBOUND 22\nORDER 4 1 2 3 7 5 6 8\nA I4 END 10 18 7 8\nB 4 1\nF 1 3\nA 0 END 11 22 6 7 8\nQ\nA I4 END 10 22 6 7 8\nE 4\nEND\n",
    ),
    (
        "a supposition, which forces pairs that force others",
        PROVE_FEW,
        "  FX4 X5+X1\n  DX6 X2-X7\n  LX0 B0,X0\n  PX6 B2,X4\n  LX6 B5,X1\n  LX3 B6,X0\n  FX6 X2+X3\n",
        0,
        "S66 CERTIFICATE 5\nPROFILE 3 3 4 4 3 10 29 8 3 8 1 1 1 1 2 1 2\nBLOCK 7\nI FX4 X5+X1\nI DX6 X2-X7\nI LX0 B0,X0\nI PX6 B2,X4\nI LX6 B5,X1\nI LX3 B6,X0\nI FX6 X2+X3\nTIME 22\nBOUND 22\nORDER 1 3 2 6 4 5 7\nA 0 I4 0 6 1 2\nF 6 5\nF 6 4\nB 2 1\nF 6 2\nF 1 3\nQ\nF 6 1\nF 2 3\nE 2\nEND\n",
    ),
    (
        "a supposition that a load refutes, and what follows from the pair",
        PROVE_FEW,
        "  LX5 B0,X6\n  SX3 B2+B0\n  FX7 X3+X1\n  SX3 X2+B3\n  LX5 B0,X3\n  SX0 B1+B2\n  SX2 B7+B3\n",
        0,
        "S66 CERTIFICATE 5\nPROFILE 3 3 4 4 3 10 29 8 3 8 1 1 1 1 2 1 2\nBLOCK 7\nI LX5 B0,X6\nI SX3 B2+B0\nI FX7 X3+X1\nI SX3 X2+B3\nI LX5 B0,X3\nI SX0 B1+B2\nI SX2 B7+B3\nTIME 11\nBOUND 11\nORDER 2 1 3 4 5 6 7\nF 1 4\nF 2 1\nF 2 6\nB 3 1\nF 1 6\nF 3 6\nA 0 END 3 11 4 6 7\nQ\nF 6 5\nF 7 5\nF 3 6\nF 1 6\nA I1 I5 1 6 4 6 7\nE 2\nEND\n",
    ),
    (
        "a supposition with no line that it can do without",
        &["s66", "prove", "--workers", "1", "--deep", "--nodes", "32"],
        "  SB4 B5+B3\n  FX1 X6+X7\n  SX6 B3+B2\n  IX6 X2+X6\n  BX0 X5*X2\n  LX2 B7,X4\n  SB1 B5+B3\n  SB2 B1+B2\n  SB4 B1+B5\n",
        0,
        "S66 CERTIFICATE 5\nPROFILE 3 3 4 4 3 10 29 8 3 8 1 1 1 1 2 1 2\nBLOCK 9\nI SB4 B5+B3\nI FX1 X6+X7\nI SX6 B3+B2\nI IX6 X2+X6\nI BX0 X5*X2\nI LX2 B7,X4\nI SB1 B5+B3\nI SB2 B1+B2\nI SB4 B1+B5\nTIME 12\nBOUND 12\nORDER 7 2 3 5 1 4 6 8 9\nF 1 6\nF 2 9\nF 7 6\nB 1 4\nF 7 1\nF 6 9\nF 8 9\nF 2 5\nF 2 7\nF 3 5\nF 3 7\nF 7 4\nA 0 END 1 13 1 3 7 8 9\nQ\nS 1 2 5 7\nP\nP\nP\nS 1 2 5\nE 3\nP\nP\nEND\n",
    ),
    (
        "prefixes with a pair in reverse",
        &["s66", "prove", "--workers", "1", "--deep", "--nodes", "3"],
        "  FX3 X2*X1\n  FX3 X3*X3\n  FX2 X3*X4\n  FX6 X1*X4\n",
        0,
        "S66 CERTIFICATE 4\nPROFILE 3 3 4 4 3 10 29 8 3 8 1 1 1 1 2 1 2\nBLOCK 4\nI FX3 X2*X1\nI FX3 X3*X3\nI FX2 X3*X4\nI FX6 X1*X4\nTIME 32\nBOUND 32\nORDER 1 2 3 4\nF 1 4\nS 1 4\nS 2 4\nS 3 4\nE 4\nE 3\nE 2\nR 1 4\nEND\n",
    ),
    (
        "a tree of 2,374 lines, and a certificate of 15",
        &["s66", "prove", "--workers", "1", "--deep"],
        "  FX0 X7*X7\n  FX1 X7*X7\n  FX2 X7*X7\n  FX3 X7*X7\n  FX4 X7*X7\n  FX5 X7*X7\n  FX6 X7*X7\n",
        0,
        "S66 CERTIFICATE 4\nPROFILE 3 3 4 4 3 10 29 8 3 8 1 1 1 1 2 1 2\nBLOCK 7\nI FX0 X7*X7\nI FX1 X7*X7\nI FX2 X7*X7\nI FX3 X7*X7\nI FX4 X7*X7\nI FX5 X7*X7\nI FX6 X7*X7\nTIME 44\nBOUND 44\nORDER 1 2 3 4 5 6 7\nL 0 1 2 3 4 5 6 7\nEND\n",
    ),
];
