//! Rows of `deps` and `deps --text`: sources with each sort of dependence.

use crate::rows::{B0, Row, STORE_THEN_LOAD, UNPACK_THEN_SHIFT};
use crate::running::DEPS;
use s66_test_search::ONE_LOAD;

const DEPS_TEXT: &[&str] = &["s66", "deps", "--text"];

pub(crate) const ROWS: &[Row] = &[
    ("empty input", DEPS, "", 0, ""),
    (
        "one load",
        DEPS,
        ONE_LOAD,
        0,
        "BLOCK 1 LINE 1 COUNT 3 DEPENDENCES 1\n2 AFTER 1\n",
    ),
    (
        "store then load",
        DEPS,
        STORE_THEN_LOAD,
        0,
        "BLOCK 1 LINE 1 COUNT 2 DEPENDENCES 1\n2 AFTER 1\n",
    ),
    ("B0", DEPS, B0, 0, "BLOCK 1 LINE 1 COUNT 3 DEPENDENCES 0\n"),
    (
        "short normalise",
        DEPS,
        "  NX1\n  BX2 X1\n",
        0,
        "BLOCK 1 LINE 1 COUNT 2 DEPENDENCES 1\n2 AFTER 1\n",
    ),
    (
        "unpack, then shift",
        DEPS,
        UNPACK_THEN_SHIFT,
        0,
        "BLOCK 1 LINE 1 COUNT 2 DEPENDENCES 1\n2 AFTER 1\n",
    ),
    (
        "what follows from two others is printed",
        DEPS,
        "  FX1 X2*X3\n  FX4 X1+X5\n  FX6 X4*X1\n  SA6 A6+B1\n  FX0 X1+X4\n  BX7 X0+X6\n",
        0,
        "BLOCK 1 LINE 1 COUNT 6 DEPENDENCES 8\n2 AFTER 1\n3 AFTER 1 2\n4 AFTER 3\n5 AFTER 1 2\n6 AFTER 3 5\n",
    ),
    (
        "several after one, and one after several",
        DEPS,
        "  SA1 A1+B1\n  SA2 A2+B1\n  FX3 X1*X2\n  FX4 X3+X1\n  NX4 X4\n  SA6 A6+B1\n  BX6 X3+X4\n",
        0,
        "BLOCK 1 LINE 1 COUNT 7 DEPENDENCES 11\n3 AFTER 1 2\n4 AFTER 1 3\n5 AFTER 4\n6 AFTER 1 2\n7 AFTER 3 4 5 6\n",
    ),
    (
        "two blocks",
        DEPS,
        "  BX1 X2\n  EQ B1,B2,L\n  SA1 A1+B1\n  BX6 X1\n",
        0,
        "BLOCK 1 LINE 1 COUNT 1 DEPENDENCES 0\nBLOCK 2 LINE 3 COUNT 2 DEPENDENCES 1\n2 AFTER 1\n",
    ),
    (
        "a load, its copy and its store, with texts",
        DEPS_TEXT,
        "  SA1 A1+B1\n  BX6 X1\n  SA6 A6+B1\n",
        0,
        "BLOCK 1 LINE 1 COUNT 3 DEPENDENCES 3\n2 BX6 X1 AFTER 1 SA1 A1+B1: X1 RAW\n3 SA6 A6+B1 AFTER 1 SA1 A1+B1: MEMORY WAR\n3 SA6 A6+B1 AFTER 2 BX6 X1: X6 RAW\n",
    ),
    (
        "each kind in one register, with texts",
        DEPS_TEXT,
        "  FX1 X1*X2   PRODUCT\n  fx1 x1+x3\n",
        0,
        "BLOCK 1 LINE 1 COUNT 2 DEPENDENCES 1\n2 FX1 X1+X3 AFTER 1 FX1 X1*X2: X1 RAW, X1 WAR, X1 WAW\n",
    ),
    (
        "two registers, with texts",
        DEPS_TEXT,
        UNPACK_THEN_SHIFT,
        0,
        "BLOCK 1 LINE 1 COUNT 2 DEPENDENCES 1\n2 LX1 B1 AFTER 1 UX1 B1,X1: X1 RAW, B1 RAW, X1 WAR, X1 WAW\n",
    ),
    (
        "each kind in memory, with texts",
        DEPS_TEXT,
        "  SA6 A6+B1\n  SA1 A2+B2\n  SA7 A3+B3\n",
        0,
        "BLOCK 1 LINE 1 COUNT 3 DEPENDENCES 3\n2 SA1 A2+B2 AFTER 1 SA6 A6+B1: MEMORY RAW\n3 SA7 A3+B3 AFTER 1 SA6 A6+B1: MEMORY WAW\n3 SA7 A3+B3 AFTER 2 SA1 A2+B2: MEMORY WAR\n",
    ),
    (
        "B0, with texts",
        DEPS_TEXT,
        B0,
        0,
        "BLOCK 1 LINE 1 COUNT 3 DEPENDENCES 0\n",
    ),
    (
        "the second block, with texts",
        &["s66", "deps", "--text", "--block", "2"],
        "  BX1 X2\n  EQ B1,B2,L\n  BX1 X2\n  BX2 X3\n",
        0,
        "BLOCK 2 LINE 3 COUNT 2 DEPENDENCES 1\n2 BX2 X3 AFTER 1 BX1 X2: X2 WAR\n",
    ),
    (
        "a refused source",
        DEPS,
        "  BX1 X2\n  SA1 A1+B1+5\n",
        3,
        "LINE 2 BAD OPERAND\ns66 lint lists all such lines, --cut leaves them alone\n",
    ),
];
