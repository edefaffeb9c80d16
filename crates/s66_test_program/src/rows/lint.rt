//! Rows of `lint`: a source for each rule, and the lines that are listed.

use crate::rows::{MIXED_SOURCE, Row};
use crate::running::LINT;
use s66_test_search::ONE_LOAD;

pub(crate) const ROWS: &[Row] = &[
    ("empty input", LINT, "", 0, ""),
    ("one load", LINT, ONE_LOAD, 0, ""),
    (
        "mixed source",
        LINT,
        MIXED_SOURCE,
        8,
        "LINE 8 FALLS INTO DATA BX1 X2\n",
    ),
    (
        "all that is refused",
        LINT,
        "  BX1 X2\n  BX3 X4\n  sa1 *+2 LOAD\n  NX8\n  BX1\r\n,X2\n  SX1 X2-B3\n  NO\n,  CONTINUED HERE\n",
        5,
        "LINE 3 BAD OPERAND sa1 *+2 (CUT)\nLINE 3 COUNTS WORDS sa1 *+2\nLINE 4 NOT AN INSTRUCTION NX8\nLINE 5 BAD OPERAND BX1 (CUT)\nLINE 6 BAD OPERAND (CUT)\nLINE 7 BAD OPERAND SX1 X2-B3 (CUT)\nLINE 9 BAD OPERAND CONTINUED HERE (CUT)\n",
    ),
    (
        "slips",
        LINT,
        "  BX\n  bx8 X1\nL SAl A1\n  BX11\n  SAVE\n  SBYTE 1\n  SX 1\n  IX12A\n  ZR X1,L\n* BX8\n",
        8,
        "LINE 1 NOT AN INSTRUCTION BX\nLINE 2 NOT AN INSTRUCTION bx8\nLINE 3 NOT AN INSTRUCTION SAl\nLINE 4 NOT AN INSTRUCTION BX11\nLINE 7 NOT AN INSTRUCTION SX\n",
    ),
    (
        "comments of other assemblers",
        LINT,
        "  BX1 X2\n# load\n  ; Sum of X\n//c\n; BX1 X2\n/ BX1 X2\n* # c\n  SX1 B1 # c\n  PERIPH\n# load\n",
        8,
        "LINE 2 NOT A COMMENT # load\nLINE 3 NOT A COMMENT ; Sum\nLINE 4 NOT A COMMENT //c\nLINE 5 NOT A COMMENT ; BX1\n",
    ),
    (
        "lines are counted",
        LINT,
        "A DUP 3,2\n  BX1 X2\n  echo 1\n  BX1 X2\n  IFEQ N,1,3\n  BX1 X2\n  IFEQ N,1,END\n  BX1 X2\n  IFGT N,\n  ifcp6 2\n  IF DEF,N,2 LINES\n  NO\n  IFC EQ,*A B*/*,10\n  ELSE 2\n  ENDIF\n  IX1 X2*X3\n",
        5,
        "LINE 1 COUNTS LINES DUP (CUT)\nLINE 3 COUNTS LINES echo (CUT)\nLINE 5 COUNTS LINES IFEQ (CUT)\nLINE 7 COUNTS LINES IFEQ (CUT)\nLINE 10 COUNTS LINES ifcp6 (CUT)\nLINE 11 COUNTS LINES IF (CUT)\nLINE 13 COUNTS LINES IFC (CUT)\nLINE 14 COUNTS LINES ELSE (CUT)\nLINE 16 BAD OPERAND IX1 X2*X3 (CUT)\n",
    ),
    (
        "lines without an instruction are counted, and lines in a macro",
        LINT,
        "  IF -DEF,QUAL,1\n  QUAL COM\n  DUP 64,1\n  CON 0\nGET MACRO A\n  IFC EQ,*A**,1\n  SX1 B1\n  ENDM\n",
        8,
        "LINE 5 HAS A BODY MACRO (CUT)\n",
    ),
    (
        "code is loaded and stored, to which labels of many lines lead",
        LINT,
        "  SA2 PLUG\n  SA6 TEST\n  SA7 SKIP\n  SA6 LAB=\n  SA1 SUB+1\n  RJ VOID\nPLUG SX3 **\n  SA1 T\n  BX6 X2\nTEST ZR X1,OUT\n  SX6 B1\n  SX7 B2\nSKIP BSS 0\n  SA4 T\n  BX5 X3\nLAB= EQU *-1\n  EQ X\nSUB PS\n  SX6 B1\n  SA4 T\n",
        5,
        "LINE 1 LOADS CODE SA2 PLUG\nLINE 2 STORES INTO CODE SA6 TEST\nLINE 3 STORES INTO CODE SA7 SKIP\nLINE 4 STORES INTO CODE SA6 LAB=\nLINE 5 LOADS CODE SA1 SUB+1\nLINE 7 BAD OPERAND SX3 ** (CUT)\nLINE 16 COUNTS WORDS EQU *-1\n",
    ),
    (
        "a word that holds one instruction is loaded and stored",
        LINT,
        "  SA6 PLUG\n  SA1 NOOP\n  SA1 SUB\n  RJ VOID\nPLUG IX4 X4+X5\n  NO\n  NO\n+ SA3 A3+B1\n  BX5 X3\n  EQ X\nNOOP NO\n  NO\n  USE DATA\nSUB PS\n  SX6 B1\n  SA4 T\n",
        0,
        "",
    ),
    (
        "instructions join words",
        LINT,
        "  RJ SUB\n- SX0 A0\n  SA1 A\n  BX6 X1\n  RE B2\n  NO\n  NO\n  SX6 1\n  SB0 ARG\n  EQ X\n  SA1 A\n  BX6 X2\n  RJ SUB\n- VFD 30/1\n",
        8,
        "LINE 2 JOINS A WORD SX0 A0\nLINE 3 JOINS A WORD SA1 A\nLINE 5 JOINS A WORD RE B2\nLINE 6 JOINS A WORD NO\nLINE 7 JOINS A WORD NO\nLINE 9 JOINS A WORD SB0 ARG\nLINE 13 JOINS A WORD RJ SUB\n",
    ),
    (
        "words that can't change are joined",
        LINT,
        "  RJ SUB\n- SX0 A0\n  EQ X\n  SX6 2\n- BX6 X2\n  SA3 Z\n+ RJ SUB\n- VFD 30/1\n  RE B2\n+ SX6 1\n  SA1 BUF\n",
        0,
        "",
    ),
    (
        "words are counted from here",
        LINT,
        "  SB7 *+3\n  BX6 X1\n  BX7 X1\n  IFGT *-GO,60\n  BX2 X1\n  BX3 X1\n  NZ X1,*\n  EQ *+1S17\n  RJ *+1\n+ SA1 B1\n  NZ X1,*\nL EQ *\n",
        5,
        "LINE 1 BAD OPERAND SB7 *+3 (CUT)\nLINE 1 COUNTS WORDS SB7 *+3\nLINE 4 COUNTS WORDS IFGT *-GO,60\nLINE 7 COUNTS WORDS NZ X1,*\n",
    ),
    (
        "words are counted from labels, and by jumps",
        LINT,
        "  EQ LOOP+N\n  SX6 1+LOOP\n  EQ SUB+1\n  EQ SUB+2\n  JP B3+CAS\n  JP B2+TAB\nLOOP BSS 0\n  SX1 B1\n  SA2 T\n  EQ X\nSUB PS\n  SX6 B1\n  SX7 B2\n  ZR X1,A\nCAS BSS 0\n+ LX1 6\n  BX2 X3\n  EQ OUT\nTAB BSS 0\n+ EQ A\n+ EQ B\n",
        8,
        "LINE 1 COUNTS WORDS EQ LOOP+N\nLINE 2 COUNTS WORDS SX6 1+LOOP\nLINE 4 COUNTS WORDS EQ SUB+2\nLINE 5 COUNTS WORDS JP B3+CAS\n",
    ),
];

/// Lines that are left alone by their form, and operations that are redefined.
pub(crate) const FORM_ROWS: &[Row] = &[
    (
        "bodies",
        LINT,
        "RXX*X OPDEF I,J,K\n  FX6 X1*X2\n  ENDM\nIXX*X OPDEF I,J,K\n  ENDM\n  ECHO ,R=(B2,B3)\n  DUP 2\n  SX7 R\n  ENDD\n  ENDD\n  ECHO ,R=(1,2)\n  CON R\n  ENDD\n  SX7 1\n",
        8,
        "LINE 1 HAS A BODY OPDEF (CUT)\nLINE 6 HAS A BODY ECHO (CUT)\n",
    ),
    (
        "instructions in columns 1 and 2",
        LINT,
        "SA1 A1+B1\n BX6 X1\nSA1 BSS 1\nBX6 EQU 6\nNX1\nSX1 SA1 A1\n",
        8,
        "LINE 1 IN COLUMN 1 SA1 A1+B1\nLINE 2 IN COLUMN 2 BX6 X1\nLINE 5 IN COLUMN 1 NX1\n",
    ),
    (
        "directives behind the label of a pad",
        LINT,
        "L NO\n*IF,DEF,A\n  SX1 5\n*THE NEXT WORD.\n*endif\n  SX2 X1\nM NO\n  NO\n*CALL COMX\n",
        8,
        "LINE 2 DIRECTIVE *IF,DEF,A (CUT)\nLINE 5 DIRECTIVE *endif (CUT)\n",
    ),
    (
        "directives by their form",
        LINT,
        "  SX1 B2\n*I 83\n*D COMCRDW.41,COMCRDW.43 OLD CODE\n*CA COMCX READ A WORD\n*PLUGIN COMCX\n*I AM THE NEXT\n*S66 HALLO\n* I 83\n  BX6 X1\n",
        8,
        "LINE 2 DIRECTIVE *I (CUT)\nLINE 3 DIRECTIVE *D (CUT)\nLINE 4 DIRECTIVE *CA (CUT)\nLINE 5 DIRECTIVE *PLUGIN (CUT)\n",
    ),
    (
        "directives that count lines",
        LINT,
        "  ZR X2,L\n*IF DEF,TRACE,1\n  SX6 B1\n*else 1\n  SA1 A1+B1\n*IF DEF,TRACE\n  SX7 B1\n",
        8,
        "LINE 2 COUNTS LINES *IF (CUT)\nLINE 4 DIRECTIVE *else (CUT)\nLINE 4 COUNTS LINES *else (CUT)\nLINE 6 DIRECTIVE *IF (CUT)\n",
    ),
    (
        "operands that go on behind their characters",
        LINT,
        "  SX1 B2\n  SX3 1R +X1\n  sa1 =c/A B/+X1\n  SX3 X1-1R    CHECK\n  SA1 =10HREAD ERROR\n",
        5,
        "LINE 2 BAD OPERAND SX3 1R (CUT)\nLINE 3 BAD OPERAND sa1 =c/A (CUT)\n",
    ),
    (
        "operands that aren't seen",
        LINT,
        "  SX6                     B1\n  SA1 B2\n+ SX6               B1\n          SX7                B1\n  NX1                       \n  NO                      REMARK\nN MACRO\n  SX7                         B1\n  ENDM\n*S66 OFF\n  SX7                         B1\n*S66 ON\n  SKIP 1\n  SX7                         B1\n  SX7                         B1+\n",
        5,
        "LINE 1 FAR OPERAND SX6 B1 (CUT)\nLINE 4 FAR OPERAND SX7 B1 (CUT)\nLINE 7 HAS A BODY MACRO (CUT)\nLINE 13 COUNTS LINES SKIP (CUT)\nLINE 14 FAR OPERAND SX7 B1 (CUT)\nLINE 15 BAD OPERAND SX7 B1+ (CUT)\n",
    ),
    (
        "operations that are redefined",
        LINT,
        "  bx7 X1\n  NO\nSX1 MACRO P\n  SX7 P\n  ENDM\n  MACRO BX7,P\n  ENDM\n*S66 OFF\nno CPSYN NIL\n*S66 ON\nSA1 EQU 1\n  SA1 B1\n  SX1 P(\n- SX2 B1\n",
        5,
        "LINE 1 REDEFINED bx7 X1 (CUT)\nLINE 2 REDEFINED NO (CUT)\nLINE 3 HAS A BODY MACRO (CUT)\nLINE 13 BAD OPERAND SX1 P( (CUT)\nLINE 13 REDEFINED SX1 P( (CUT)\n",
    ),
    (
        "forms that are redefined",
        LINT,
        "RXX*X OPDEF I,J,K\n  ENDM\n SXQ OPDEF I,Q\n  ENDM\nSAA+Q OPDEF\n  ENDM\nCXX+Q OPDEF\n  ENDM\n  RX5 X1*X2\n  RX5 X1/X2\n  SX1 N+1\n  SX2 N+X3\n  SX3 B1\n  SA1 A2+N*2-1B\n  SA1 A2-1\n  CX1 X2+1\n",
        5,
        "LINE 9 REDEFINED RX5 X1*X2 (CUT)\nLINE 11 REDEFINED SX1 N+1 (CUT)\nLINE 12 REDEFINED SX2 N+X3 (CUT)\nLINE 14 REDEFINED SA1 A2+N*2-1B (CUT)\nLINE 16 BAD OPERAND CX1 X2+1 (CUT)\n",
    ),
    (
        "a redefined line joins no word",
        LINT,
        "  RJ SUB\n- SB0 ARG\n  SB0 X1\nSB0 OPSYN SB1\n  EQ X\n- NO\n  SX1 B1\n",
        8,
        "LINE 2 REDEFINED SB0 ARG (CUT)\nLINE 3 REDEFINED SB0 X1 (CUT)\nLINE 6 JOINS A WORD NO\nLINE 7 JOINS A WORD SX1 B1\n",
    ),
    (
        "a program for a peripheral processor",
        LINT,
        "  PERIPH\n  SBN 5\n  END\n  IDENT A\n  SBN 5\n",
        8,
        "LINE 5 NOT AN INSTRUCTION SBN\n",
    ),
    (
        "an option",
        &["s66", "lint", "--trace"],
        "",
        2,
        "error: unexpected argument '--trace' found\n\nUsage: s66 lint [OPTIONS] < SOURCE\n\nFor more information, try '--help'.\n",
    ),
];
