//! Rows of lines that are left alone, by switches and with `--cut`.

use crate::rows::Row;
use crate::running::{LINT, ORDER};

const CUT: &[&str] = &["s66", "order", "--workers", "1", "--cut"];

pub(crate) const ROWS: &[Row] = &[
    (
        "a macro stays as it is",
        CUT,
        "          MACRO  NEXT,W\n          SX6    W           CURRENT WORD\n          SA5    A5+B1       NEXT WORD\n          BX7    X5\n          SA6    A6+B1\n          ENDM\n          NEXT   X5\n",
        0,
        "          MACRO  NEXT,W\n          SX6    W           CURRENT WORD\n          SA5    A5+B1       NEXT WORD\n          BX7    X5\n          SA6    A6+B1\n          ENDM\n          NEXT   X5\n",
    ),
    (
        "directives stay in their places",
        CUT,
        "*DECK PROC\n          IDENT  PROC\nPROC      SA1    B2\n          BX6    X1\n*IF DEF,DEBUG\n          SX7    TRACE\n          SA7    B3\n*ENDIF\n          SA2    B4\n          LX6    3\n*CALL COMXAMP\n          IX6    X6+X2\n          SA6    B5\n          EQ     PROC\n          END\n",
        0,
        "*DECK PROC\n          IDENT  PROC\n* BLOCK 1 COUNT 2 SOURCE 12 TIME 12 BEST\nPROC      SA1    B2\n          BX6    X1\n*IF DEF,DEBUG\n* BLOCK 2 COUNT 2 SOURCE 7 TIME 7 BEST\n          SX7    TRACE\n          SA7    B3\n*ENDIF\n* BLOCK 3 COUNT 2 SOURCE 8 TIME 8 BEST\n          SA2    B4\n          LX6    3\n*CALL COMXAMP\n* BLOCK 4 COUNT 2 SOURCE 7 TIME 7 BEST\n          IX6    X6+X2\n          SA6    B5\n          EQ     PROC\n          END\n",
    ),
    (
        "code that is stored into, between switches",
        ORDER,
        "          SX6    B2\n          SA6    PLUGA       PLUG ADDRESS\n          EQ     GO\n*S66 OFF\nPLUGA     SX3    0           REPLACED AT RUN TIME\n          SA4    A4+B1\n          SA5    A4+B1\n          IX6    X3+X4\n          IX6    X6+X5\n          SA6    A6+B1\n*S66 ON\n          EQ     PLUGA\nGO        BSS    0\n",
        0,
        "* BLOCK 1 COUNT 2 SOURCE 7 TIME 7 BEST\n          SX6    B2\n          SA6    PLUGA       PLUG ADDRESS\n          EQ     GO\n*S66 OFF\nPLUGA     SX3    0           REPLACED AT RUN TIME\n          SA4    A4+B1\n          SA5    A4+B1\n          IX6    X3+X4\n          IX6    X6+X5\n          SA6    A6+B1\n*S66 ON\n          EQ     PLUGA\nGO        BSS    0\n",
    ),
    (
        "words that are counted, between switches",
        ORDER,
        "*S66 OFF\n          SB2    TAB\n          SX6    B0\n+         SA1    B2          WORD 1\n          SB2    B2+B1\n          IX6    X6+X1\n          BX7    X7-X1\n+         SX0    B2-TABE     WORD 2\n          NG     X0,*-1      BACK TO WORD 1\n          SA2    B3          WORD 1 OF A LOOP WITHOUT LABELS\n          LX2    1\n          SB3    B3+100B\n          SX5    B3\n          LX5    3\n          IX4    X2+X5\n          NZ     X4,*-2\n          EQ     LAST+1\nLAST      SX1    5\n          SX2    X1+10\n          SA3    X3\n          SA4    X3+B1\n          SX5    20B\n*S66 ON\n          END\n",
        0,
        "*S66 OFF\n          SB2    TAB\n          SX6    B0\n+         SA1    B2          WORD 1\n          SB2    B2+B1\n          IX6    X6+X1\n          BX7    X7-X1\n+         SX0    B2-TABE     WORD 2\n          NG     X0,*-1      BACK TO WORD 1\n          SA2    B3          WORD 1 OF A LOOP WITHOUT LABELS\n          LX2    1\n          SB3    B3+100B\n          SX5    B3\n          LX5    3\n          IX4    X2+X5\n          NZ     X4,*-2\n          EQ     LAST+1\nLAST      SX1    5\n          SX2    X1+10\n          SA3    X3\n          SA4    X3+B1\n          SX5    20B\n*S66 ON\n          END\n",
    ),
    (
        "words that another processor changes, between switches",
        ORDER,
        "*S66 OFF\n          SX4    X5+B1\n          SA2    X4          STATUS, FIRST\n          SA1    X3          IN, AFTER IT\n          LX1    3\n          IX7    X1+X2\n*S66 ON\n",
        0,
        "*S66 OFF\n          SX4    X5+B1\n          SA2    X4          STATUS, FIRST\n          SA1    X3          IN, AFTER IT\n          LX1    3\n          IX7    X1+X2\n*S66 ON\n",
    ),
    (
        "an operand that isn't seen",
        CUT,
        "  SX6                     B1\n  SA1 A1+B1\n  BX6 X1\n  BX7 X2\n",
        0,
        "  SX6                     B1\n* BLOCK 1 COUNT 3 SOURCE 16 TIME 12 BEST\n          SA1 A1+B1\n          BX7 X2\n          BX6 X1\n",
    ),
    (
        "an instruction that is redefined behind it",
        CUT,
        "  SA1 A1+B1\n  BX6 X1\n  BX7 X2\n  CX3 X5\nCXX OPDEF I,K\n  ENDM\n",
        0,
        "* BLOCK 1 COUNT 3 SOURCE 16 TIME 12 BEST\n          SA1 A1+B1\n          BX7 X2\n          BX6 X1\n  CX3 X5\nCXX OPDEF I,K\n  ENDM\n",
    ),
    (
        "a line that is continued behind a comment",
        CUT,
        "  SA1 A1+B1\n  BX6 X1\n  BX7 X2\n  BX5 X1\n* NOTE\n,  +1\n",
        0,
        "* BLOCK 1 COUNT 3 SOURCE 16 TIME 12 BEST\n          SA1 A1+B1\n          BX7 X2\n          BX6 X1\n  BX5 X1\n* NOTE\n,  +1\n",
    ),
];

/// Definitions, and lines that are counted.
pub(crate) const DEFINITION_ROWS: &[Row] = &[
    (
        "nested definitions",
        CUT,
        "A OPDEF X\n  BX1 X2\nB MACRO Y\n  SX6 Y\n  BX7 Y\n  ENDM\n  BX6 X1\n  ENDM\n  SA1 A1+B1\n  BX6 X1\n  BX7 X2\n",
        0,
        "A OPDEF X\n  BX1 X2\nB MACRO Y\n  SX6 Y\n  BX7 Y\n  ENDM\n  BX6 X1\n  ENDM\n* BLOCK 1 COUNT 3 SOURCE 16 TIME 12 BEST\n          SA1 A1+B1\n          BX7 X2\n          BX6 X1\n",
    ),
    (
        "a definition without an end",
        CUT,
        "  SA1 A1+B1\n  BX6 X1\n  BX7 X2\n  MACRO A\n  BX7 X2\n",
        0,
        "* BLOCK 1 COUNT 3 SOURCE 16 TIME 12 BEST\n          SA1 A1+B1\n          BX7 X2\n          BX6 X1\n  MACRO A\n  BX7 X2\n",
    ),
    (
        "counted lines, a comment among them",
        CUT,
        "  SA1 A1+B1\n  BX6 X1\n  BX7 X2\n  DUP 3,2\n  SA1 A1+B1\n* NOTE\n  BX6 X1\n  SA2 A2+B1\n  BX6 X2\n  BX7 X3\n",
        0,
        "* BLOCK 1 COUNT 3 SOURCE 16 TIME 12 BEST\n          SA1 A1+B1\n          BX7 X2\n          BX6 X1\n  DUP 3,2\n  SA1 A1+B1\n* NOTE\n  BX6 X1\n* BLOCK 2 COUNT 3 SOURCE 16 TIME 12 BEST\n          SA2 A2+B1\n          BX7 X3\n          BX6 X2\n",
    ),
    (
        "a count of which the value is not known",
        CUT,
        "  IFEQ A,B,N\n  SA1 A1+B1\n  BX6 X1\n  ENDIF\n  SA2 A2+B1\n  BX6 X2\n  BX7 X3\n",
        0,
        "  IFEQ A,B,N\n  SA1 A1+B1\n  BX6 X1\n  ENDIF\n* BLOCK 1 COUNT 3 SOURCE 16 TIME 12 BEST\n          SA2 A2+B1\n          BX7 X3\n          BX6 X2\n",
    ),
    (
        "counts within counts",
        CUT,
        "  IFEQ A,B,3\n  SKIP 4\n  BX1 X2\n  BX2 X3\n  BX3 X4\n  BX4 X5\n  SA2 A2+B1\n  BX6 X2\n  BX7 X3\n",
        0,
        "  IFEQ A,B,3\n  SKIP 4\n  BX1 X2\n  BX2 X3\n  BX3 X4\n  BX4 X5\n* BLOCK 1 COUNT 3 SOURCE 16 TIME 12 BEST\n          SA2 A2+B1\n          BX7 X3\n          BX6 X2\n",
    ),
    (
        "strings of an IFC",
        CUT,
        "  IFC EQ,/A,B/C/,1\n  BX1 X2\n  IFC NE,*A*B*\n  BX2 X3\n  IFC EQ,AB\n  BX3 X4\n  ENDIF\n",
        0,
        "  IFC EQ,/A,B/C/,1\n  BX1 X2\n  IFC NE,*A*B*\n* BLOCK 1 COUNT 1 SOURCE 4 TIME 4 BEST\n          BX2 X3\n  IFC EQ,AB\n  BX3 X4\n  ENDIF\n",
    ),
    (
        "a remark in column 30 is no count",
        CUT,
        "          ELSE               OTHERWISE\n  SA1 A1+B1\n  BX6 X1\n  BX7 X2\n          ELSE              1\n  BX1 X2\n  BX2 X3\n",
        0,
        "          ELSE               OTHERWISE\n* BLOCK 1 COUNT 3 SOURCE 16 TIME 12 BEST\n          SA1 A1+B1\n          BX7 X2\n          BX6 X1\n          ELSE              1\n  BX1 X2\n* BLOCK 2 COUNT 1 SOURCE 4 TIME 4 BEST\n          BX2 X3\n",
    ),
];

/// Operands that are left alone, and lines behind them; and switches.
pub(crate) const SWITCH_ROWS: &[Row] = &[
    (
        "bad operands and continued lines",
        CUT,
        "  SA1 A1+B1\n  BX6 X1\n  SA2 *+2\n  BX1 X2\n  BX2 X3\n,  X4\n  SA1 A1+B1\n  BX6 X1\n  BX7 X2\n",
        0,
        "* BLOCK 1 COUNT 2 SOURCE 12 TIME 12 BEST\n          SA1 A1+B1\n          BX6 X1\n  SA2 *+2\n* BLOCK 2 COUNT 1 SOURCE 4 TIME 4 BEST\n          BX1 X2\n  BX2 X3\n,  X4\n* BLOCK 3 COUNT 3 SOURCE 16 TIME 12 BEST\n          SA1 A1+B1\n          BX7 X2\n          BX6 X1\n",
    ),
    (
        "an operand that goes on behind its characters",
        CUT,
        "  SX1 B2\n  SX3 1R +X1\n  SX4 B3\n",
        0,
        "* BLOCK 1 COUNT 1 SOURCE 4 TIME 4 BEST\n          SX1 B2\n  SX3 1R +X1\n* BLOCK 2 COUNT 1 SOURCE 4 TIME 4 BEST\n          SX4 B3\n",
    ),
    (
        "it is refused otherwise",
        ORDER,
        "  SX1 X1-1R    CHECK\n  SA1 =10HREAD ERROR\n  SA1 =C/A B/+X1\n",
        3,
        "LINE 3 BAD OPERAND\ns66 lint lists all such lines, --cut leaves them alone\n",
    ),
    (
        "a correction, and prose",
        CUT,
        "  SX1 B2\n*I AM THE NEXT\n  BX6 X1\n*I 83\n  SA2 B3\n  BX7 X2\n",
        0,
        "* BLOCK 1 COUNT 2 SOURCE 7 TIME 7 BEST\n*I AM THE NEXT\n          SX1 B2\n          BX6 X1\n*I 83\n* BLOCK 2 COUNT 2 SOURCE 12 TIME 12 BEST\n          SA2 B3\n          BX7 X2\n",
    ),
    (
        "lines that a directive counts",
        CUT,
        "  ZR X2,L\n*IF DEF,TRACE,1\n  SX6 B1\n  SA1 A1+B1\n  BX7 X1\n",
        0,
        "  ZR X2,L\n*IF DEF,TRACE,1\n  SX6 B1\n* BLOCK 1 COUNT 2 SOURCE 12 TIME 12 BEST\n          SA1 A1+B1\n          BX7 X1\n",
    ),
    (
        "switches, in lower case and with remarks",
        ORDER,
        "  SA1 A1+B1\n*s66 off  READ ONLY\n  SX1 *+2\n*S66 ONE\n  BX6 X1\n*S66\ton\n  SA1 A1+B1\n  BX6 X1\n  BX7 X2\n",
        0,
        "* BLOCK 1 COUNT 1 SOURCE 8 TIME 8 BEST\n          SA1 A1+B1\n*s66 off  READ ONLY\n  SX1 *+2\n*S66 ONE\n  BX6 X1\n*S66\ton\n* BLOCK 2 COUNT 3 SOURCE 16 TIME 12 BEST\n          SA1 A1+B1\n          BX7 X2\n          BX6 X1\n",
    ),
    (
        "a switch without an end",
        ORDER,
        "  SA1 A1+B1\n  BX6 X1\n*S66 OFF\n  SX1 *+2\n\n  BX6 X1\n",
        0,
        "* BLOCK 1 COUNT 2 SOURCE 12 TIME 12 BEST\n          SA1 A1+B1\n          BX6 X1\n*S66 OFF\n  SX1 *+2\n\n  BX6 X1\n",
    ),
    (
        "a switch that is none",
        ORDER,
        "  SA1 A1+B1\n* S66 OFF\n  BX6 X1\n*S66 OFFSET\n  BX7 X2\n*S66 ON\n  BX1 X1\n",
        0,
        "* BLOCK 1 COUNT 4 SOURCE 20 TIME 16 BEST\n* S66 OFF\n*S66 OFFSET\n*S66 ON\n          SA1 A1+B1\n          BX7 X2\n          BX6 X1\n          BX1 X1\n",
    ),
    (
        "definitions and counts go on between switches",
        CUT,
        "*S66 OFF\n  DUP 2,3\n*S66 ON\n  BX1 X2\n  BX2 X3\n  BX3 X4\n  SA1 A1+B1\n  BX6 X1\n  BX7 X2\n",
        0,
        "*S66 OFF\n  DUP 2,3\n*S66 ON\n  BX1 X2\n  BX2 X3\n  BX3 X4\n* BLOCK 1 COUNT 3 SOURCE 16 TIME 12 BEST\n          SA1 A1+B1\n          BX7 X2\n          BX6 X1\n",
    ),
];

/// What `lint` lists of such lines.
pub(crate) const LISTED_ROWS: &[Row] = &[
    (
        "a macro with a body",
        LINT,
        "          MACRO  NEXT,W\n          SX6    W           CURRENT WORD\n          SA5    A5+B1       NEXT WORD\n          BX7    X5\n          SA6    A6+B1\n          ENDM\n          NEXT   X5\n",
        8,
        "LINE 1 HAS A BODY MACRO (CUT)\n",
    ),
    (
        "directives in blocks",
        LINT,
        "*DECK PROC\n          IDENT  PROC\nPROC      SA1    B2\n          BX6    X1\n*IF DEF,DEBUG\n          SX7    TRACE\n          SA7    B3\n*ENDIF\n          SA2    B4\n          LX6    3\n*CALL COMXAMP\n          IX6    X6+X2\n          SA6    B5\n          EQ     PROC\n          END\n",
        8,
        "LINE 5 DIRECTIVE *IF (CUT)\nLINE 8 DIRECTIVE *ENDIF (CUT)\nLINE 11 DIRECTIVE *CALL (CUT)\n",
    ),
    (
        "code that is stored into",
        LINT,
        "          SX6    B2\n          SA6    PLUGA       PLUG ADDRESS\n          EQ     GO\nPLUGA     SX3    0           REPLACED AT RUN TIME\n          SA4    A4+B1\n          SA5    A4+B1\n          IX6    X3+X4\n          IX6    X6+X5\n          SA6    A6+B1\n          EQ     PLUGA\nGO        BSS    0\n",
        8,
        "LINE 2 STORES INTO CODE SA6 PLUGA\n",
    ),
    (
        "words that are counted",
        LINT,
        "          SB2    TAB\n          SX6    B0\n+         SA1    B2          WORD 1\n          SB2    B2+B1\n          IX6    X6+X1\n          BX7    X7-X1\n+         SX0    B2-TABE     WORD 2\n          NG     X0,*-1      BACK TO WORD 1\n          SA2    B3          WORD 1 OF A LOOP WITHOUT LABELS\n          LX2    1\n          SB3    B3+100B\n          SX5    B3\n          LX5    3\n          IX4    X2+X5\n          NZ     X4,*-2\n          EQ     LAST+1\nLAST      SX1    5\n          SX2    X1+10\n          SA3    X3\n          SA4    X3+B1\n          SX5    20B\n          END\n",
        8,
        "LINE 8 COUNTS WORDS NG X0,*-1\nLINE 15 COUNTS WORDS NZ X4,*-2\nLINE 16 COUNTS WORDS EQ LAST+1\n",
    ),
    (
        "words that another processor changes",
        LINT,
        "          SX4    X5+B1\n          SA2    X4          STATUS, FIRST\n          SA1    X3          IN, AFTER IT\n          LX1    3\n          IX7    X1+X2\n",
        0,
        "",
    ),
    (
        "a line with two findings",
        LINT,
        "loop SA6 Loop+1\n  BX7 X1\n",
        8,
        "LINE 1 STORES INTO CODE SA6 Loop+1\nLINE 1 COUNTS WORDS SA6 Loop+1\n",
    ),
    (
        "between switches",
        LINT,
        "*S66 OFF\nLOOP SX1 *+2\n  BX8\n  MACRO A\n*S66 ON\n  BX6 X1\n  ENDM\n  SA6 LOOP\n",
        0,
        "",
    ),
];
