//! Rows of what standard error gets after a success, of any subcommand.

use crate::rows::Row;
use crate::running::{CHECK, COMPARE, COMPARE_CUT, DEPS, ORDER, SUM, TIME, WHY};
use s66_test_search::ONE_LOAD;

const NO_LINE: &str = "no block: the source is empty\n";

const NO_BLOCK: &str = "no block: an instruction's operation begins in column 3 or later\n";

const NO_DOCUMENT: &str = "no document: s66 check reads what s66 prove prints\n";

const ONE_LINE: &str = "s66 lint lists 1 line that order may harm\n";

const TWO_LINES: &str = "s66 lint lists 2 lines that order may harm\n";

const ONE_BOUNDED: &str = "1 of 1 block is only bounded; --deep may decide it\n";

const TWO_FINDINGS: &str =
    "s66 lint --cut lists 2 findings; s66 guard puts switches around the code\n";

/// Two lines that `lint` lists, one of which `--cut` leaves alone.
const HARMED: &str = "  SA1 A1+B1\n*CALL COMXAMP\n  BX6 X1\n  BX7 X2\n  NZ X1,*-1\n";

/// One line that `lint` lists.
const COUNTED: &str = "  BX1 X2\n  BX6 X3\n  NZ X1,*-1\n";

/// What standard error gets of rows that succeed: name, subcommand, lines. Of other such rows it gets nothing.
pub(crate) const TOLD: &[(&str, &str, &str)] = &[
    ("empty input", "time", NO_LINE),
    ("empty input", "deps", NO_LINE),
    ("empty input", "chart", NO_LINE),
    ("empty input, why", "why", NO_LINE),
    ("empty input, page", "page", NO_LINE),
    ("empty input, json", "json", NO_LINE),
    ("empty input", "order", NO_LINE),
    ("empty input", "prove", NO_LINE),
    ("empty input", "sum", NO_LINE),
    ("nothing to keep", "order", NO_LINE),
    ("20,000 lines", "time", NO_BLOCK),
    ("a macro stays as it is", "order", NO_BLOCK),
    (
        "words that are counted, between switches",
        "order",
        NO_BLOCK,
    ),
    (
        "words that another processor changes, between switches",
        "order",
        NO_BLOCK,
    ),
    (
        "bad operands and continued lines",
        "order",
        "s66 lint --cut lists 1 finding; s66 guard puts switches around the code\n",
    ),
    ("B0", "order", "s66 lint lists 1 line that order may harm\n"),
    ("a comment of 200 bytes", "order", NO_BLOCK),
    ("no block", "sum", NO_BLOCK),
    ("no block has no word", "sum", NO_BLOCK),
    ("no block, with the trace", "sum", NO_BLOCK),
    (
        "mixed source",
        "order",
        "s66 lint lists 1 line that order may harm\n",
    ),
    (
        "mixed source",
        "sum",
        "s66 lint lists 1 line that order may harm\n",
    ),
    (
        "operations in columns 5, 2 by a tab, and 29",
        "order",
        "s66 lint lists 1 line that order may harm\n",
    ),
    (
        "four blocks",
        "sum",
        "s66 lint lists 1 line that order may harm\n",
    ),
    (
        "four blocks, with their words",
        "sum",
        "s66 lint lists 1 line that order may harm\n",
    ),
    (
        "words after splits",
        "sum",
        "s66 lint lists 3 lines that order may harm\n",
    ),
    (
        "three alike",
        "sum",
        "s66 lint lists 3 lines that order may harm\n",
    ),
    (
        "three alike, what is dominated left out",
        "sum",
        "s66 lint lists 3 lines that order may harm\n",
    ),
    (
        "three alike, what any other dominates left out",
        "sum",
        "s66 lint lists 3 lines that order may harm\n",
    ),
    (
        "two lines are told",
        "order",
        "s66 lint lists 2 lines that order may harm\n",
    ),
    (
        "two lines are told",
        "--order",
        "s66 lint lists 2 lines that order may harm\n",
    ),
    ("one line is told", "prove", ONE_LINE),
    ("one line is told", "json", ONE_LINE),
    ("one line is told, page", "page", ONE_LINE),
    ("one line is told, page of two sources", "page", ONE_LINE),
    (
        "with --cut it is one",
        "order",
        "s66 lint --cut lists 1 finding; s66 guard puts switches around the code\n",
    ),
    (
        "code that is loaded",
        "guard",
        "1 place with 3 lines is left alone\n",
    ),
    (
        "a line that is added",
        "guard",
        "1 place with 3 lines is left alone\n",
    ),
    (
        "a sum of two labels of code",
        "guard",
        "2 places with 4 lines are left alone\n",
    ),
    (
        "regions that a switch parts",
        "guard",
        "2 places with 2 lines are left alone\n",
    ),
    (
        "a region with two reasons",
        "guard",
        "1 place with 9 lines is left alone\n",
    ),
    (
        "lines that join a word",
        "guard",
        "1 place with 2 lines is left alone\n",
    ),
    (
        "lines that may be something else",
        "guard",
        "1 place with 2 lines is left alone\n",
    ),
    (
        "one is told of a block that is only bounded",
        "order",
        "s66 lint lists 1 line that order may harm\n1 of 1 block is only bounded; --deep may decide it\n",
    ),
    ("the same without facts", "order", ONE_BOUNDED),
    ("three multiplies, one split short", "order", ONE_BOUNDED),
    ("three multiplies, one split short", "sum", ONE_BOUNDED),
    (
        "three multiplies twice, one split short",
        "sum",
        "2 of 2 blocks are only bounded; --deep decides most of these\n",
    ),
    ("three multiplies, why, one split short", "why", ONE_BOUNDED),
    (
        "three multiplies, one split short, page",
        "page",
        ONE_BOUNDED,
    ),
    (
        "an instruction in column 1",
        "order",
        "no block: an instruction's operation begins in column 3 or later\ns66 lint lists 1 line that order may harm\n",
    ),
    ("an instruction in column 1", "deps", NO_BLOCK),
    ("an empty line", "time", NO_BLOCK),
    ("an empty source has no second block", "time", NO_LINE),
    ("a comment has no second block", "deps", NO_BLOCK),
    ("no such block", "order", "no block 3: the last is 2\n"),
    (
        "one block's certificate",
        "prove",
        "no block 3: the last is 2\n",
    ),
    ("no third block, why", "why", "no block 3: the last is 2\n"),
    (
        "no third block, chart",
        "chart",
        "no block 3: the last is 2\n",
    ),
    (
        "no second block, and a line is told",
        "sum",
        "no block 20000: the last is 1\ns66 lint lists 1 line that order may harm\n",
    ),
    ("empty input", "check", NO_DOCUMENT),
    ("no document", "check", NO_DOCUMENT),
    ("equal texts that write nothing", "compare", TWO_LINES),
    ("a macro is read", "compare", ONE_LINE),
    ("an instruction is moved out of *IF", "compare", TWO_LINES),
    ("a store is moved into code", "compare", TWO_FINDINGS),
    (
        "an instruction is moved out of *IF, strictly",
        "compare",
        "s66 lint lists 4 lines that order may harm\n",
    ),
    (
        "a store is moved into code, strictly",
        "compare",
        "s66 lint --cut lists 4 findings; s66 guard puts switches around the code\n",
    ),
    (
        "code is changed, and the old source counts words",
        "compare",
        "s66 lint lists 4 lines that order may harm\n",
    ),
    ("the new source alone counts words", "compare", ONE_LINE),
    ("a literal past column 72", "order", ONE_LINE),
    (
        "a literal that is left alone",
        "guard",
        "1 place with 1 line is left alone\n",
    ),
    ("the new source has a directive", "compare", ONE_LINE),
    (
        "the new source has an operand that isn't seen",
        "compare",
        ONE_LINE,
    ),
    ("both sources count words", "compare", TWO_LINES),
    (
        "the new source alone is past column 72",
        "compare",
        "s66 lint --cut lists 1 finding; s66 guard puts switches around the code\n",
    ),
];

/// An instruction between directives, and then before them.
const OUT_OF_IF: &str =
    "L  SA1 B1\n*IF DEF,A\n   BX2 X3\n*ENDIF\n   BX6 X1\n*S66 NEW\nL  SA1 B1\n   BX2 X3\n*IF DEF,A\n*ENDIF\n   BX6 X1\n";

/// A store into the code, which counts the words before its branch.
const INTO_CODE: &str =
    "L     SA1 B1\n      BX2 X3\n      SA6 L\n      SX7 B1\n      ZR X1,*-1\n*S66 NEW\nL     BX2 X3\n      SA1 B1\n      SX7 B1\n      SA6 L\n      ZR X1,*-1\n";

/// `lint` lists one line of the old source, and three of the new one.
const MORE_COUNTS: &str =
    "  BX1 X2\n  BX6 X3\n  NZ X1,*-1\n*S66 NEW\n  BX1 X2\n  BX7 X3\n  NZ X1,*-1\n  NZ X2,*-1\n  NZ X3,*-1\n";

/// `lint` lists a line of the new source alone.
const NEW_COUNTS: &str = "  BX1 X2\n  BX6 X3\n*S66 NEW\n  BX1 X2\n  BX6 X3\n  NZ X1,*-1\n";

pub(crate) const ROWS: &[Row] = &[
    (
        "what remains with --cut",
        &["s66", "lint", "--cut"],
        HARMED,
        8,
        "LINE 5 COUNTS WORDS NZ X1,*-1\n",
    ),
    (
        "nothing remains with --cut",
        &["s66", "lint", "--cut"],
        "  IX1 X2*X3\n  DUP 2,1\n  SA4 T\n",
        0,
        "",
    ),
    (
        "a line too long remains with --cut",
        &["s66", "lint", "--cut"],
        "  IX1 X2*X3\n*         111111111122222222223333333333444444444455555555556666666666777777777788888888889999999999000000000011111111112222222222333333333344444444445555555555666666666677777777778888888888999999999900000000001\n",
        5,
        "LINE 2 TOO LONG\n",
    ),
    (
        "two lines are told",
        ORDER,
        HARMED,
        0,
        "* BLOCK 1 COUNT 3 SOURCE 16 TIME 12 BEST\n*CALL COMXAMP\n          SA1 A1+B1\n          BX7 X2\n          BX6 X1\n  NZ X1,*-1\n",
    ),
    (
        "two lines are told",
        &["s66", "why", "--order", "--workers", "1"],
        HARMED,
        0,
        "BLOCK 1 LINE 1 TIME 12\n  2 FIRST 2 TO 5 UNIT BOOLEAN BY 3\n  2 SECOND 5 TO 8 REGISTER X1 BY 1\nPATH 1 2\nSTEPS 8 4 TIME 12\nLOST FIRST 3 SECOND 3 THIRD 0\nEvery order takes 12 or more:\n   8  X1 of 1 SA1 A1+B1 is there, which 2 BX6 X1 reads\n  12  the unit of 2 BX6 X1 is free, and that is the end\nSo the order of 12 is best.\n",
    ),
    (
        "one line is told",
        &["s66", "prove", "--workers", "1"],
        COUNTED,
        0,
        "S66 CERTIFICATE 1\nPROFILE 3 3 4 4 3 10 29 8 3 8 1 1 1 1 2 1 2\nBLOCK 2\nI BX1 X2\nI BX6 X3\nTIME 8\nBOUND 8\nORDER 1 2\nU BOOLEAN\nEND\n",
    ),
    (
        "one line is told",
        &["s66", "json", "--order", "--workers", "1"],
        COUNTED,
        0,
        "{\"schema\":1,\"block\":1,\"label\":null,\"entry\":null,\"line\":1,\"last_line\":2,\"count\":2,\"parcels\":2,\"instructions\":[{\"n\":1,\"line\":1,\"text\":\"BX1 X2\",\"unit\":\"boolean\",\"parcels\":1,\"works\":3,\"reads\":[\"X2\"],\"writes\":[\"X1\"],\"memory\":null,\"after\":[]},{\"n\":2,\"line\":2,\"text\":\"BX6 X3\",\"unit\":\"boolean\",\"parcels\":1,\"works\":3,\"reads\":[\"X3\"],\"writes\":[\"X6\"],\"memory\":null,\"after\":[]}],\"written\":{\"time\":8,\"no\":0,\"order\":[1,2],\"at\":[{\"n\":1,\"parcel\":0,\"issue\":0,\"start\":0,\"done\":3,\"free\":4,\"results\":[{\"register\":\"X1\",\"done\":3}],\"waits\":[]},{\"n\":2,\"parcel\":1,\"issue\":4,\"start\":4,\"done\":7,\"free\":8,\"results\":[{\"register\":\"X6\",\"done\":7}],\"waits\":[{\"conflict\":\"first\",\"from\":1,\"to\":4,\"for\":\"unit\",\"name\":\"boolean\",\"by\":1}]}],\"path\":[1,2],\"steps\":[4,4],\"lost\":{\"first\":3,\"second\":0,\"third\":0}},\"found\":{\"time\":8,\"no\":0,\"order\":[1,2],\"at\":[{\"n\":1,\"parcel\":0,\"issue\":0,\"start\":0,\"done\":3,\"free\":4,\"results\":[{\"register\":\"X1\",\"done\":3}],\"waits\":[]},{\"n\":2,\"parcel\":1,\"issue\":4,\"start\":4,\"done\":7,\"free\":8,\"results\":[{\"register\":\"X6\",\"done\":7}],\"waits\":[{\"conflict\":\"first\",\"from\":1,\"to\":4,\"for\":\"unit\",\"name\":\"boolean\",\"by\":1}]}],\"path\":[1,2],\"steps\":[4,4],\"lost\":{\"first\":3,\"second\":0,\"third\":0},\"bound\":8,\"best\":true,\"splits\":0}}\n",
    ),
    (
        "none is told of a listing",
        WHY,
        HARMED,
        0,
        "BLOCK 1 LINE 1 TIME 16\n  2 SECOND 1 TO 8 REGISTER X1 BY 1\n  3 FIRST 2 TO 12 UNIT BOOLEAN BY 2\nPATH 1 2 3\nSTEPS 8 4 4 TIME 16\nLOST FIRST 10 SECOND 7 THIRD 0\n",
    ),
    (
        "with --cut it is one",
        &["s66", "order", "--workers", "1", "--cut"],
        HARMED,
        0,
        "* BLOCK 1 COUNT 1 SOURCE 8 TIME 8 BEST\n          SA1 A1+B1\n*CALL COMXAMP\n* BLOCK 2 COUNT 2 SOURCE 8 TIME 8 BEST\n          BX6 X1\n          BX7 X2\n  NZ X1,*-1\n",
    ),
    (
        "one is told of a block that is only bounded",
        &["s66", "order", "--workers", "1", "--nodes", "9"],
        "  FX1 X2*X3\n  FX4 X5*X6\n  FX0 X7*X7\n  NZ X1,*-1\n",
        7,
        "* BLOCK 1 COUNT 3 SOURCE 22 TIME 22 AT LEAST 17\n          FX1 X2*X3\n          FX4 X5*X6\n          FX0 X7*X7\n  NZ X1,*-1\n",
    ),
    (
        "an instruction in column 1",
        ORDER,
        "SA1 A1+B1\n",
        0,
        "SA1 A1+B1\n",
    ),
    ("an instruction in column 1", DEPS, "SA1 A1+B1\n", 0, ""),
    (
        "nothing is told of a refused source",
        SUM,
        "  SA1 A1+B1\n  NZ X1,*-1\n  IX1 X2*X3\n",
        3,
        "LINE 3 BAD OPERAND\ns66 lint lists all such lines, --cut leaves them alone\n",
    ),
    (
        "a source in the place of certificates",
        CHECK,
        ONE_LOAD,
        3,
        "LINE 1 BAD LINE\ns66 check reads what s66 prove prints\n",
    ),
    (
        "a source in the place of certificates, without its newline",
        CHECK,
        "  SA1 A1+B1",
        3,
        "TRUNCATED\ns66 check reads what s66 prove prints\n",
    ),
    ("an empty line", TIME, "\n", 0, ""),
    (
        "an empty source has no second block",
        &["s66", "time", "--block", "2"],
        "",
        0,
        "",
    ),
    (
        "a comment has no second block",
        &["s66", "deps", "--block", "2"],
        "* NOTE\n",
        0,
        "",
    ),
    (
        "the last block is there",
        &["s66", "deps", "--block", "2"],
        "  BX1 X2\n  EQ L\n  BX1 X2\n",
        0,
        "BLOCK 2 LINE 3 COUNT 1 DEPENDENCES 0\n",
    ),
    (
        "no second block, and a line is told",
        &["s66", "sum", "--block", "20000"],
        "  BX1 X2\n  BX6 X3\n  NZ X1,*-1\n",
        0,
        "TOTAL BLOCKS 0 SOURCE 0 TIME 0 BEST 0 MOVED 0\n",
    ),
    ("no document", &["s66", "check", "--some"], "", 5, ""),
    (
        "some document",
        &["s66", "check", "--some"],
        "S66 CERTIFICATE 1\nPROFILE 3 3 4 4 3 10 29 8 3 8 1 1 1 1 2 1 2\nBLOCK 1\nI BX1 X2\nTIME 4\nBOUND 4\nORDER 1\nP\nEND\n",
        0,
        "DOCUMENT 1 YES TIME 4 BOUND 4\n",
    ),
    (
        "some document, which isn't right",
        &["s66", "check", "--some"],
        "S66 CERTIFICATE 1\nPROFILE 3 3 4 4 3 10 29 8 3 8 1 1 1 1 2 1 2\nBLOCK 1\nI BX1 X2\nTIME 5\nBOUND 5\nORDER 1\nP\nEND\n",
        5,
        "DOCUMENT 1 NO LINE 5 REASON 2\n",
    ),
];

/// What is told of two sources, and the status with `--strict`.
pub(crate) const PAIR_ROWS: &[Row] = &[
    (
        "an instruction is moved out of *IF",
        COMPARE,
        OUT_OF_IF,
        0,
        "BLOCK 1 LINE 1 COUNT 3 TIME 12 NEW LINE 1 COUNT 3 TIME 12 SAME\nTOTAL BLOCKS 1 TIME 12 NEW BLOCKS 1 TIME 12 LEGAL 1\n",
    ),
    (
        "an instruction is moved out of *IF, strictly",
        &["s66", "compare", "--strict"],
        OUT_OF_IF,
        8,
        "BLOCK 1 LINE 1 COUNT 3 TIME 12 NEW LINE 1 COUNT 3 TIME 12 SAME\nTOTAL BLOCKS 1 TIME 12 NEW BLOCKS 1 TIME 12 LEGAL 1\n",
    ),
    (
        "an instruction is moved out of *IF, which --cut sees",
        &["s66", "compare", "--strict", "--cut"],
        OUT_OF_IF,
        5,
        "BLOCK 1 LINE 1 COUNT 1 TIME 8 NEW LINE 1 COUNT 2 TIME 8 OTHER CODE NEW LINE 2\nBLOCK 2 LINE 3 COUNT 1 TIME 4 GONE\nBLOCK 3 LINE 5 COUNT 1 TIME 4 NEW LINE 5 COUNT 1 TIME 4 SAME\nDIFFERS LINE 3 NEW LINE 4\nTOTAL BLOCKS 3 TIME 16 NEW BLOCKS 2 TIME 12 LEGAL 1\n",
    ),
    (
        "a store is moved into code",
        COMPARE_CUT,
        INTO_CODE,
        0,
        "BLOCK 1 LINE 1 COUNT 4 TIME 8 NEW LINE 1 COUNT 4 TIME 9 ORDER 2 1 4 3\nTOTAL BLOCKS 1 TIME 8 NEW BLOCKS 1 TIME 9 LEGAL 1\n",
    ),
    (
        "a store is moved into code, strictly",
        &["s66", "compare", "--cut", "--strict"],
        INTO_CODE,
        8,
        "BLOCK 1 LINE 1 COUNT 4 TIME 8 NEW LINE 1 COUNT 4 TIME 9 ORDER 2 1 4 3\nTOTAL BLOCKS 1 TIME 8 NEW BLOCKS 1 TIME 9 LEGAL 1\n",
    ),
    (
        "code is changed, and the old source counts words",
        &["s66", "compare", "--strict"],
        MORE_COUNTS,
        5,
        "BLOCK 1 LINE 1 COUNT 2 TIME 8 NEW LINE 1 COUNT 2 TIME 8 OTHER CODE NEW LINE 2\nDIFFERS NEW LINE 4\nTOTAL BLOCKS 1 TIME 8 NEW BLOCKS 1 TIME 8 LEGAL 0\n",
    ),
    (
        "the new source alone counts words",
        &["s66", "compare", "--strict"],
        NEW_COUNTS,
        5,
        "BLOCK 1 LINE 1 COUNT 2 TIME 8 NEW LINE 1 COUNT 2 TIME 8 SAME\nDIFFERS NEW LINE 3\nTOTAL BLOCKS 1 TIME 8 NEW BLOCKS 1 TIME 8 LEGAL 1\n",
    ),
    (
        "nothing is listed",
        &["s66", "compare", "--strict"],
        "  BX1 X2\n  BX6 X3\n*S66 NEW\n  BX6 X3\n  BX1 X2\n",
        0,
        "BLOCK 1 LINE 1 COUNT 2 TIME 8 NEW LINE 1 COUNT 2 TIME 8 ORDER 2 1\nTOTAL BLOCKS 1 TIME 8 NEW BLOCKS 1 TIME 8 LEGAL 1\n",
    ),
    (
        "a refused source isn't compared",
        &["s66", "compare", "--strict"],
        "  NZ X1,*-1\n*S66 NEW\n  SA1 *+2\n",
        3,
        "NEW LINE 1 BAD OPERAND\ns66 lint lists all such lines, --cut leaves them alone\n",
    ),
];
