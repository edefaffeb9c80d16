//! Tests of `check --text`: documents, and what is said of each.

use crate::commands::{check_output, plain};
use crate::documents::{FORCED_PAIRS, LINES_NAMED, ONE_LOAD, THREE_MULTIPLIES};
use crate::verdicts::altered;
use s66_program::{Asked, Status};

/// Documents, and what `check --text` says of each.
const REASONS: &[(&str, &str)] = &[
    (
        ONE_LOAD,
        "DOCUMENT 1 YES TIME 12 BOUND 12\nEvery order takes 12 or more:\n   8  X1 of 1 SA1 A1+B1 is there, which 2 BX6 X1 reads\n  12  the unit of 2 BX6 X1 is free, and that is the end\nSo the order of 12 is best.\n",
    ),
    (
        THREE_MULTIPLIES,
        "DOCUMENT 1 YES TIME 22 BOUND 22\nEvery order takes 22 or more, by 10 splits.\nSo the order of 22 is best.\n",
    ),
    (
        FORCED_PAIRS,
        "DOCUMENT 1 YES TIME 11 BOUND 11\nEvery order takes 11 or more, by 2 splits and 3 facts.\nSo the order of 11 is best.\n",
    ),
    (
        LINES_NAMED,
        "DOCUMENT 1 YES TIME 8 BOUND 7\nEvery order takes 7 or more, by 4 splits.\nThe order found takes 8.\n",
    ),
    (
        "S66 CERTIFICATE 1\nPROFILE 3 3 4 4 3 10 29 8 3 8 1 1 1 1 2 1 2\nBLOCK 3\nI FX1 X2*X3\nI FX4 X5*X6\nI FX0 X7*X7\nTIME 22\nBOUND 17\nORDER 1 2 3\nU MULTIPLY\nEND\n",
        "DOCUMENT 1 YES TIME 22 BOUND 17\nEvery order takes 17 or more:\n  17  1 FX1 X2*X3, 2 FX4 X5*X6 and 3 FX0 X7*X7 need the Multiply units for 11 each: 33, shared by 2\nThe order found takes 22.\n",
    ),
    (
        "S66 CERTIFICATE 1\nPROFILE 3 3 4 4 3 10 29 8 3 8 1 1 1 1 2 1 2\nBLOCK 3\nI FX1 X2*X3\nI FX4 X5*X6\nI FX0 X7*X7\nTIME 22\nBOUND 0\nORDER 1 2 3\nU DIVIDE\nEND\n",
        "DOCUMENT 1 YES TIME 22 BOUND 0\nEvery order takes 0 or more:\n   0  no instruction needs the Divide unit\nThe order found takes 22.\n",
    ),
    (
        "S66 CERTIFICATE 1\nPROFILE 3 3 4 4 3 10 29 8 3 8 1 1 1 1 3 1 2\nBLOCK 3\nI FX1 X2*X3\nI FX4 X5*X6\nI FX0 X7*X7\nTIME 13\nBOUND 13\nORDER 1 2 3\nP\nEND\n",
        "DOCUMENT 1 YES TIME 13 BOUND 13\nEvery order takes 13 or more:\n  13  if 1 FX1 X2*X3 issues last: at 2 or later, and 11 to the end\n  13  if 2 FX4 X5*X6 issues last: at 2 or later, and 11 to the end\n  13  if 3 FX0 X7*X7 issues last: at 2 or later, and 11 to the end\nSo the order of 13 is best.\n",
    ),
    (
        "S66 CERTIFICATE 1\nPROFILE 3 3 4 4 3 10 29 8 3 8 1 1 1 1 2 1 2\nBLOCK 3\nI SA1 A1+B1\nI BX6 X1\nI BX7 X2\nTIME 12\nBOUND 12\nORDER 1 3 2\nS 1 3\nC 2\nC 1 2\nEND\n",
        "DOCUMENT 1 YES TIME 12 BOUND 12\nEvery order takes 12 or more, by 1 split:\nIf 1 comes first:\n   8  2 BX6 X1 can start\n  12  the unit of 2 BX6 X1 is free, and that is the end\nIf 3 comes first:\n   1  1 SA1 A1+B1 can start\n   9  X1 of 1 SA1 A1+B1 is there, which 2 BX6 X1 reads\n  13  the unit of 2 BX6 X1 is free, and that is the end\nSo the order of 12 is best.\n",
    ),
    (
        "S66 CERTIFICATE 1\nPROFILE 3 3 4 4 3 10 29 8 3 8 1 1 1 1 2 1 2\nBLOCK 2\nI FX1 X2*X3\nI FX4 X5*X6\nTIME 12\nBOUND 12\nORDER 1 2\nS 1 2\nP\nU MULTIPLY\nEND\n",
        "DOCUMENT 1 YES TIME 12 BOUND 12\nEvery order takes 12 or more, by 1 split:\nIf 1 comes first:\n  12  if 2 FX4 X5*X6 issues last: at 1 or later, and 11 to the end\nIf 2 comes first:\n  12  1 FX1 X2*X3 needs the Multiply units for 11: 11, shared by 2; with 10 for those before: 21; from 1 on\nSo the order of 12 is best.\n",
    ),
    (
        "S66 CERTIFICATE 1\nPROFILE 3 3 4 4 3 10 29 8 3 8 1 1 1 1 2 1 2\nBLOCK 2\nI FX1 X2*X3\nI FX4 X5*X6\nTIME 12\nBOUND 12\nORDER 1 2\nS 1 2\nS 2\nT\nP\nEND\n",
        "DOCUMENT 1 YES TIME 12 BOUND 12\nEvery order takes 12 or more, by 2 splits:\nIf 1 comes first, then 2:\n  12  all are placed, and that is the end\nIf 2 comes first:\n  12  if 1 FX1 X2*X3 issues last: at 1 or later, and 11 to the end\nSo the order of 12 is best.\n",
    ),
    (
        "S66 CERTIFICATE 1\nPROFILE 3 3 4 4 3 10 29 8 3 8 1 1 1 1 2 1 2\nBLOCK 2\nI FX1 X2*X3\nI BX4 X5\nTIME 11\nBOUND 4\nORDER 1 2\nS 1 2\nU MULTIPLY\nU BOOLEAN\nEND\n",
        "DOCUMENT 1 YES TIME 11 BOUND 4\nEvery order takes 4 or more, by 1 split:\nIf 1 comes first:\n   6  no other instruction needs the Multiply units; with 10 for those before: 10; from 1 on\nIf 2 comes first:\n   4  no other instruction needs the Boolean unit; with 3 for those before: 3; from 1 on\nThe order found takes 11.\n",
    ),
];

/// The same of documents with fact lines.
const FACT_REASONS: &[(&str, &str)] = &[
    (
        "S66 CERTIFICATE 4\nPROFILE 3 3 4 4 3 10 29 8 3 8 1 1 1 1 2 1 2\nBLOCK 4\nI BX1 X2*X3\nI BX4 X1*X1\nI BX5 X1*X1\nI FX6 X4+X5\nTIME 16\nBOUND 16\nORDER 1 2 3 4\nA I1 END 4 16 2 3\nE 1\nEND\n",
        "DOCUMENT 1 YES TIME 16 BOUND 16\nEvery order takes 16 or more:\n  1. From where 1 issues it is 4 or more until one of 2 and 3 has its Boolean unit; these need it for 4 each, 8 in all; so the last of them begins at 8 or later, and from there to the end it is 8 or more: 16\nIf an order took less than 16:\n   0  1 BX1 X2*X3 can issue\n  16  the end, by 1.\nSo the order of 16 is best.\n",
    ),
    (
        "S66 CERTIFICATE 4\nPROFILE 3 3 4 4 3 10 29 8 3 8 1 1 1 1 2 1 2\nBLOCK 4\nI BX1 X2\nI BX3 X4\nI FX2 X5*X6\nI FX4 X5*X6\nTIME 16\nBOUND 16\nORDER 1 3 2 4\nL 0 1 2\nEND\n",
        "DOCUMENT 1 YES TIME 16 BOUND 16\nEvery order takes 16 or more:\nIf an order took less than 16:\n  16  From the beginning it is 0 or more until one of 1 and 2 has its Boolean unit; these need it for 4 each, 8 in all; so the last of them begins at 4 or later, and from there to the end it is 12 or more: 16\nSo the order of 16 is best.\n",
    ),
    (
        "S66 CERTIFICATE 4\nPROFILE 3 3 4 4 3 10 29 8 3 8 1 1 1 1 2 1 2\nBLOCK 2\nI SA1 A1+B1\nI BX6 X1\nTIME 12\nBOUND 10\nORDER 1 2\nE 1\nEND\n",
        "DOCUMENT 1 YES TIME 12 BOUND 10\nEvery order takes 10 or more:\nIf an order took less than 10:\n   0  1 SA1 A1+B1 can issue\n   8  X1 of 1 SA1 A1+B1 is there, which 2 BX6 X1 reads\n  12  the unit of 2 BX6 X1 is free, and that is the end\nThe order found takes 12.\n",
    ),
    (
        "S66 CERTIFICATE 4\nPROFILE 3 3 4 4 3 10 29 8 3 8 1 1 1 1 2 1 2\nBLOCK 4\nI BX1 X2\nI BX3 X4\nI FX2 X5*X6\nI FX4 X5*X6\nTIME 16\nBOUND 3\nORDER 1 3 2 4\nL 0 1 2\nEND\n",
        "DOCUMENT 1 YES TIME 16 BOUND 3\nEvery order takes 3 or more:\nIf an order took less than 3:\n   4  From the beginning it is 0 or more until one of 1 and 2 has its Boolean unit; these need it for 4 each, 8 in all; so the last of them begins at 4 or later, and from there to the end it is 0 or more: 4\nThe order found takes 16.\n",
    ),
    (
        "S66 CERTIFICATE 4\nPROFILE 3 3 4 4 3 10 29 8 3 8 1 1 1 1 2 1 2\nBLOCK 3\nI LX1 5\nI BX2 X3\nI LX4 5\nTIME 8\nBOUND 5\nORDER 1 2 3\nF 1 2\nF 2 3\nE 1\nEND\n",
        "DOCUMENT 1 YES TIME 8 BOUND 5\nEvery order takes 5 or more:\n  1. 1 LX1 5 stands before 2 BX2 X3 in a faster order: 2 issues at 0 or later; behind it 1 could issue 1 later, and from there to the end it is 4 or more: 5\n  2. 2 BX2 X3 stands before 3 LX4 5 in a faster order: 3 issues at 0 or later; behind it 2 could issue 1 later, and from there to the end it is 4 or more: 5\nIf an order took less than 5:\n   0  1 LX1 5 can issue\n   4  the Shift unit of 1 LX1 5 is free, which 3 LX4 5 needs (by 1. and 2.)\n   8  the unit of 3 LX4 5 is free, and that is the end\nThe order found takes 8.\n",
    ),
    (
        "S66 CERTIFICATE 4\nPROFILE 3 3 4 4 3 10 29 8 3 8 1 1 1 1 2 1 2\nBLOCK 3\nI SA1 A1+B1\nI BX1 X2\nI BX3 X4\nTIME 16\nBOUND 5\nORDER 1 2 3\nF 3 2\nE 1\nEND\n",
        "DOCUMENT 1 YES TIME 16 BOUND 5\nEvery order takes 5 or more:\n  1. 3 BX3 X4 stands before 2 BX1 X2 in a faster order: 2 issues at 8 or later; behind it 3 could issue 1 later, and from there to the end it is 4 or more: 13\nIf an order took less than 5:\n   0  1 SA1 A1+B1 can issue\n   8  X1 of 1 SA1 A1+B1 is there, which 2 BX1 X2 writes again\n  12  the unit of 2 BX1 X2 is free, and that is the end\nThe order found takes 16.\n",
    ),
    (
        "S66 CERTIFICATE 4\nPROFILE 3 3 4 4 3 10 29 8 3 8 1 1 1 1 2 1 2\nBLOCK 2\nI FX1 X2/X3\nI CX4 X5\nTIME 39\nBOUND 20\nORDER 1 2\nF 2 1\nE 1\nEND\n",
        "DOCUMENT 1 YES TIME 39 BOUND 20\nEvery order takes 20 or more:\n  1. 2 CX4 X5 stands before 1 FX1 X2/X3 in a faster order: 1 has the Divide unit until 30 or later; behind it 2 could issue then, and from there to the end it is 9 or more: 39\nIf an order took less than 20:\n   0  1 FX1 X2/X3 can issue\n  30  the unit of 1 FX1 X2/X3 is free, and that is the end\nThe order found takes 39.\n",
    ),
    (
        "S66 CERTIFICATE 4\nPROFILE 3 3 4 4 3 10 29 8 3 8 1 1 1 1 2 1 2\nBLOCK 5\nI SB5 B7+B6\nI SB3 B2+B0\nI SB3 B6+B2\nI SB3 B5+B0\nI LX7 B5,X7\nTIME 11\nBOUND 11\nORDER 1 2 3 5 4\nF 1 3\nF 2 1\nF 5 4\nS 1 2\nR 2 1\nS 1 3\nL 4 3\nR 1 3\nEND\n",
        "DOCUMENT 1 YES TIME 11 BOUND 11\nEvery order takes 11 or more, by 2 splits:\n  1. 1 SB5 B7+B6 stands before 3 SB3 B6+B2 in a faster order: 3 issues at 3 or later; behind it 1 could issue 1 later, and from there to the end it is 7 or more: 11\n  2. 2 SB3 B2+B0 stands before 1 SB5 B7+B6 in a faster order: 1 issues at 0 or later; behind it 2 could issue 1 later, and from there to the end it is 10 or more: 11\n  3. 5 LX7 B5,X7 stands before 4 SB3 B5+B0 in a faster order: 4 issues at 6 or later; behind it 5 could issue 1 later, and from there to the end it is 4 or more: 11\nIf an order took less than 11:\nIf 1 comes first:\n      2 SB3 B2+B0 stands before 1 SB5 B7+B6 in a faster order (by 2.)\nIf 2 comes first, then 1:\n  11  From the beginning it is 4 or more until 3 has its Increment unit, and from there to the end it is 7 or more: 11\nIf 2 comes first, then 3:\n      1 SB5 B7+B6 stands before 3 SB3 B6+B2 in a faster order (by 1.)\nSo the order of 11 is best.\n",
    ),
    (
        "S66 CERTIFICATE 5\nPROFILE 3 3 4 4 3 10 29 8 3 8 1 1 1 1 2 1 2\nBLOCK 4\nI FX3 X2*X1\nI FX3 X3*X3\nI FX2 X3*X4\nI FX6 X1*X4\nTIME 32\nBOUND 32\nORDER 1 2 3 4\nB 4 2\nA 0 END 10 32 2 3 4\nQ\nL 0 1 2 4\nEND\n",
        "DOCUMENT 1 YES TIME 32 BOUND 32\nEvery order takes 32 or more:\n  1. If 2 FX3 X3*X3 stood before 4 FX6 X1*X4 in a faster order:\n    2. From the beginning it is 10 or more until one of 2, 3 and 4 has its Multiply unit; these need the 2 for 11 each, 33 in all and 22 side by side; so the last of them begins at 21 or later, and from there to the end it is 11 or more: 32\n  3. 4 FX6 X1*X4 stands before 2 FX3 X3*X3 in a faster order: if not, the end comes at 32 or later, by 2.\nIf an order took less than 32:\n  32  From the beginning it is 0 or more until one of 1, 2 and 4 has its Multiply unit; these need the 2 for 11 each, 33 in all and 22 side by side; so the last of them begins at 11 or later, and from there to the end it is 21 or more: 32\nSo the order of 32 is best.\n",
    ),
];

/// What it says of one load's document whose bound is above its time, and of the right one after it.
const ONE_DENIED: &str =
    "DOCUMENT 1 NO LINE 8 REASON 8\nDOCUMENT 2 YES TIME 12 BOUND 12\nEvery order takes 12 or more:\n   8  X1 of 1 SA1 A1+B1 is there, which 2 BX6 X1 reads\n  12  the unit of 2 BX6 X1 is free, and that is the end\nSo the order of 12 is best.\n";

#[test]
fn gives_reasons(rt: HostRuntime) {
    let command = plain(Asked::Check { text: true });
    for &(document, text) in REASONS {
        check_output(&rt, command, document, Status::Done, text);
    }
    check_output(&rt, command, "", Status::Done, "");
}

#[test]
fn gives_reasons_by_facts(rt: HostRuntime) {
    let command = plain(Asked::Check { text: true });
    for &(document, text) in FACT_REASONS {
        check_output(&rt, command, document, Status::Done, text);
    }
}

#[test]
fn gives_no_reasons_for_what_is_denied(rt: HostRuntime) {
    let command = plain(Asked::Check { text: true });
    let mut both = altered(&rt, ONE_LOAD, "BOUND 12", "BOUND 13");
    both.push_str(ONE_LOAD).expect(&rt, "memory");
    check_output(&rt, command, both.as_str(), Status::Denied, ONE_DENIED);
}
