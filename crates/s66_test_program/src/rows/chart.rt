//! Rows of `chart`, `chart --text` and `chart --units`: a source, and the picture to the byte.

use crate::rows::Row;
use crate::running::CHART;
use s66_test_search::{ONE_LOAD, PACKING_GAP, THIRD_ORDER};

const CHART_UNITS: &[&str] = &["s66", "chart", "--units"];

pub(crate) const ROWS: &[Row] = &[
    ("empty input", CHART, "", 0, ""),
    (
        "one load",
        CHART,
        ONE_LOAD,
        0,
        "BLOCK 1 LINE 1 TIME 16\n  1 I=======........\n  2 .IWWWWWW===.....\n  3 ............I==.\n",
    ),
    (
        "packing gap",
        CHART,
        PACKING_GAP,
        0,
        "BLOCK 1 LINE 1 TIME 12\n  1 I==.........\n  2 .I==........\n  3 ..I==.......\n NO ...I........\n  4 ....I=======\n",
    ),
    (
        "third order",
        CHART,
        THIRD_ORDER,
        0,
        "BLOCK 1 LINE 1 TIME 33\n  1 I============================....\n  2 .IWWWWWWWWWWWWWWWWWWWWWWWWWWW===.\n  3 ..I==HHHHHHHHHHHHHHHHHHHHHHHHH...\n",
    ),
    (
        "B0 alone is written",
        CHART,
        "  SB0 5\n",
        0,
        "BLOCK 1 LINE 1 TIME 4\n  1 I==.\n",
    ),
    (
        "two blocks",
        CHART,
        "  BX1 X2\n  EQ B1,B2,L\n  FX1 X2+X3\n",
        0,
        "BLOCK 1 LINE 1 TIME 4\n  1 I==.\nBLOCK 2 LINE 3 TIME 5\n  1 I===.\n",
    ),
    (
        "packing gap, chart with texts",
        &["s66", "chart", "--text"],
        PACKING_GAP,
        0,
        "BLOCK 1 LINE 1 TIME 12\n               0         10\nBX7 X2       1 I==.........\nLX3 1        2 .I==........\nIX4 X5+X6    3 ..I==.......\n            NO ...I........\nSA1 A1+100   4 ....I=======\n",
    ),
    (
        "two blocks, chart with texts, in lower case and with remarks",
        &["s66", "chart", "--text"],
        "  bx1  x2   COPY\n  EQ B1,B2,L\n  FX1 X2+X3\n",
        0,
        "BLOCK 1 LINE 1 TIME 4\n           0\nBX1 X2   1 I==.\nBLOCK 2 LINE 3 TIME 5\n              0\nFX1 X2+X3   1 I===.\n",
    ),
    (
        "the second block, chart with texts",
        &["s66", "chart", "--text", "--block", "2"],
        "  BX1 X2\n  EQ B1,B2,L\n  FX1 X2+X3\n",
        0,
        "BLOCK 2 LINE 3 TIME 5\n              0\nFX1 X2+X3   1 I===.\n",
    ),
    (
        "the first block, chart",
        &["s66", "chart", "--block", "1"],
        "  BX1 X2\n  EQ B1,B2,L\n  FX1 X2+X3\n",
        0,
        "BLOCK 1 LINE 1 TIME 4\n  1 I==.\n",
    ),
    (
        "a result that is held, and its unit and its register with it",
        CHART_UNITS,
        "  SA1 B2\n  BX4 X1*X5\n  SX5 B1\n",
        0,
        "BLOCK 1 LINE 1 TIME 12\n                  0         10\nSA1 B2          1 I=======....\nBX4 X1*X5       2 .IWWWWWW===.\nSX5 B1          3 ..I==HHHH...\nBOOLEAN   1       .2----------\nINCREMENT 1       1---........\nINCREMENT 2       ..3-------..\nA1                1--.........\nX1                1-------....\nX4                .2---------.\nX5                ..3------...\n",
    ),
    (
        "two units of a kind, and the first taken again",
        CHART_UNITS,
        "  FX1 X2*X3\n  FX4 X5*X6\n  FX0 X7*X7\n",
        0,
        "BLOCK 1 LINE 1 TIME 22\n                  0         10        20\nFX1 X2*X3       1 I=========............\nFX4 X5*X6       2 .I=========...........\nFX0 X7*X7       3 ...........I=========.\nMULTIPLY  1       1----------3----------\nMULTIPLY  2       .2----------..........\nX0                ...........3---------.\nX1                1---------............\nX4                .2---------...........\n",
    ),
    (
        "B0 is no register that is reserved",
        &["s66", "chart", "--text", "--units"],
        "  SB0 5\n",
        0,
        "BLOCK 1 LINE 1 TIME 4\n                  0\nSB0 5           1 I==.\nINCREMENT 1       1---\n",
    ),
    (
        "two digits where they fit, and one where not",
        &["s66", "chart", "--units", "--profile", "{\"boolean\":1}"],
        "  BX0 X0\n  BX0 X0\n  BX0 X0\n  BX0 X0\n  BX0 X0\n  BX0 X0\n  BX0 X0\n  BX0 X0\n  BX0 X0\n  BX0 X0\n",
        0,
        "BLOCK 1 LINE 1 TIME 20\n                  0         10        20\nBX0 X0          1 I...................\nBX0 X0          2 ..I.................\nBX0 X0          3 ....I...............\nBX0 X0          4 ......I.............\nBX0 X0          5 ........I...........\nBX0 X0          6 ..........I.........\nBX0 X0          7 ............I.......\nBX0 X0          8 ..............I.....\nBX0 X0          9 ................I...\nBX0 X0         10 ..................I.\nBOOLEAN   1       1-2-3-4-5-6-7-8-9-10\nX0                1.2.3.4.5.6.7.8.9.1.\n",
    ),
    (
        "no third block, chart",
        &["s66", "chart", "--block", "3", "--text"],
        "  BX1 X2\n  EQ B1,B2,L\n  FX1 X2+X3\n",
        0,
        "",
    ),
];
