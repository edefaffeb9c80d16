//! Rows of `guard`: sources, and these with switches around what is in danger.

use crate::rows::Row;
use crate::running::GUARD;
use s66_test_search::ONE_LOAD;

pub(crate) const ROWS: &[Row] = &[
    ("empty input", GUARD, "", 0, ""),
    ("one load", GUARD, ONE_LOAD, 0, ONE_LOAD),
    (
        "nothing is harmed, and no operand refused",
        GUARD,
        "  SA1 A1+B1\n*CALL COMXAMP\n  BX6 X1\n  IX1 X2*X3\n  EQ X\r\n*",
        0,
        "  SA1 A1+B1\n*CALL COMXAMP\n  BX6 X1\n  IX1 X2*X3\n  EQ X\r\n*\n",
    ),
    (
        "code that is loaded",
        GUARD,
        "  SA2 PLUG\n  IX6 X1+X2\n  SA6 A2\n  RJ VOID\nPLUG SX7 0\n  SA1 B2\n  SX6 B1\n  EQ X\n",
        0,
        "  SA2 PLUG\n  IX6 X1+X2\n  SA6 A2\n  RJ VOID\n*S66 OFF GUARD LOADS CODE SA2 PLUG\nPLUG SX7 0\n  SA1 B2\n  SX6 B1\n*S66 ON GUARD\n  EQ X\n",
    ),
    (
        "regions that a switch parts",
        GUARD,
        "  SX1 B1\n*S66 ON\n  SX2 B2\n  NZ X1,*-1\n",
        0,
        "*S66 OFF GUARD COUNTS WORDS NZ X1,*-1\n  SX1 B1\n*S66 ON GUARD\n*S66 ON\n*S66 OFF GUARD COUNTS WORDS NZ X1,*-1\n  SX2 B2\n*S66 ON GUARD\n  NZ X1,*-1\n",
    ),
    (
        "a region with two reasons",
        GUARD,
        "  SX1 B1\n  SX2 B2\n  NZ X1,*-1\n  SX3 B1\n  SX4 B2\n  NZ X1,*-1\n  EQ X\nM SX5 B1\n  SX6 B2\n  NZ X1,*",
        0,
        "*S66 OFF GUARD COUNTS WORDS NZ X1,*-1\n*S66 OFF GUARD COUNTS WORDS NZ X1,*\n  SX1 B1\n  SX2 B2\n  NZ X1,*-1\n  SX3 B1\n  SX4 B2\n  NZ X1,*-1\n  EQ X\nM SX5 B1\n  SX6 B2\n*S66 ON GUARD\n  NZ X1,*\n",
    ),
    (
        "lines that join a word",
        GUARD,
        "  RJ SUB\n- SX0 A0\n  BX7 X7\n  SA1 A\n  BX6 X1\n",
        0,
        "  RJ SUB\n*S66 OFF GUARD JOINS A WORD SX0 A0\n*S66 OFF GUARD JOINS A WORD BX7 X7\n- SX0 A0\n  BX7 X7\n*S66 ON GUARD\n  SA1 A\n  BX6 X1\n",
    ),
    (
        "what the reading leaves alone is in no danger",
        GUARD,
        "RXX*X OPDEF I,J,K\n  ENDM\n  RX5 X1*X2\n  SX6                         B1\n  BX7 X1\nL SX7                         B1\n",
        0,
        "RXX*X OPDEF I,J,K\n  ENDM\n  RX5 X1*X2\n  SX6                         B1\n  BX7 X1\nL SX7                         B1\n",
    ),
    (
        "a sum of two labels of code",
        GUARD,
        "L SX1 B1\n  SX2 B2\n  IDENT\nM SX3 B3\n  SX4 B4\n  IDENT\n  SA1 M+L+B1\n",
        0,
        "*S66 OFF GUARD LOADS CODE SA1 M+L+B1\nL SX1 B1\n  SX2 B2\n*S66 ON GUARD\n  IDENT\n*S66 OFF GUARD LOADS CODE SA1 M+L+B1\nM SX3 B3\n  SX4 B4\n*S66 ON GUARD\n  IDENT\n  SA1 M+L+B1\n",
    ),
    (
        "within switches nothing is added",
        GUARD,
        "  SA2 PLUG\n  IX6 X1+X2\n  SA6 A2\n  RJ VOID\n*S66 OFF GUARD LOADS CODE SA2 PLUG\nPLUG SX7 0\n  SA1 B2\n  SX6 B1\n*S66 ON GUARD\n  EQ X\n",
        0,
        "  SA2 PLUG\n  IX6 X1+X2\n  SA6 A2\n  RJ VOID\n*S66 OFF GUARD LOADS CODE SA2 PLUG\nPLUG SX7 0\n  SA1 B2\n  SX6 B1\n*S66 ON GUARD\n  EQ X\n",
    ),
    (
        "no option",
        &["s66", "guard", "--cut"],
        "  SA1 A1+B1\n",
        2,
        "error: unexpected argument '--cut' found\n\nUsage: s66 guard < SOURCE\n\nFor more information, try '--help'.\n",
    ),
];
