//! Tests of reading: sources, and what each is read as.

use crate::reading::check_reading;

/// Sources by name, and what each is read as.
const SOURCES: &[(&str, &str, &str)] = &[
    ("a last line without its newline", "  BX1 X2", ALONE),
    (
        "lower case",
        "  bx1 x2\n",
        "[] 1: 1 10120 BX1 X2 <bx1 x2> to 1 10120\n",
    ),
    ("a tab in column 1", "\tBX1 X2\n", ALONE),
    ("a tab in column 2", " \tBX1 X2\n", ALONE),
    (
        "tabs between fields",
        "L\tBX1\tX2\tREMARK\n",
        "[L] 1: 1 10120 BX1 X2 <BX1\tX2\tREMARK> to 1 10120\n",
    ),
    ("an operation in column 1", "BX1 X2\n", ""),
    ("an operation in column 2", " BX1 X2\n", ""),
    (
        "a label in column 2",
        " LP       BX1 X2  NEXT WORD\r\n",
        "[ LP] 1: 1 10120 BX1 X2 <BX1 X2  NEXT WORD> to 1 10120\n",
    ),
    (
        "a form feed is no blank",
        "\x0c  BX1 X2\n",
        "[\x0c] 1: 1 10120 BX1 X2 <BX1 X2> to 1 10120\n",
    ),
    (
        "a comma in column 2 is a label",
        " ,  BX1 X2\n",
        "[ ,] 1: 1 10120 BX1 X2 <BX1 X2> to 1 10120\n",
    ),
    ("a carriage return at the end", "  BX1 X2\r\r\n", ALONE),
    ("a carriage return in a field", "  BX1\rX2\n", ""),
    ("a carriage return in front", "\rBX1 X2\n", ""),
    ("28 blanks", "                            BX1 X2\n", ALONE),
    ("29 blanks", "                             BX1 X2\n", ""),
    (
        "a remark after a blank",
        "  BX1 X2 + X3\n",
        "[] 1: 1 10120 BX1 X2 <BX1 X2 + X3> to 1 10120\n",
    ),
    (
        "a comment between",
        "  BX1 X2\n* NOTE\n  BX3 X4\n",
        TOGETHER,
    ),
    ("an empty line between", "  BX1 X2\n\n  BX3 X4\n", TOGETHER),
    (
        "a pad between",
        "  BX1 X2\n  NO  FILL\n  BX3 X4\n",
        TOGETHER,
    ),
    (
        "a located pad between",
        "  BX1 X2\nL NO\n  BX3 X4\n",
        "[] 1: 1 10120 BX1 X2 <BX1 X2> to 1 10120\n[L] 1: 3 10340 BX3 X4 <BX3 X4> to 3 10340\n",
    ),
    ("a star in column 2", "  BX1 X2\n * NOTE\n  BX3 X4\n", APART),
    (
        "carriage returns and blanks",
        "  BX1 X2\n \r \r\n  BX3 X4\n",
        APART,
    ),
    ("a digit 8", "  BX1 X2\n  BX8 X1\n  BX3 X4\n", APART),
    ("a branch", "  BX1 X2\n  EQ B1,B2,L\n  BX3 X4\n", APART),
    (
        "an operation and a digit more",
        "  BX1 X2\n  BX11 X1\n  BX3 X4\n",
        APART,
    ),
    (
        "a continuation behind a comment",
        "  BX1 X2\n* NOTE\n, X3\n",
        ALONE,
    ),
    ("a continuation of nothing", ", X3\n", ""),
    (
        "a label",
        "  BX1 X2\nL BX3 X4\n",
        "[] 1: 1 10120 BX1 X2 <BX1 X2> to 1 10120\n[L] 1: 2 10340 BX3 X4 <BX3 X4> to 2 10340\n",
    ),
    (
        "mixed source",
        "* TEST\nLOOP      SA1 A1+1     LOAD\n          NO\n* NOTE\n          BX6 X1\n+         SA6 A6+B1    STORE\n          ZR X1,LOOP\n          BX1 X2\n          VFD 60/0\n",
        "[LOOP] 2: 2 50110 SA1 A1+1 <SA1 A1+1     LOAD> to 5 10610\n[+] 1: 6 54661 SA6 A6+B1 <SA6 A6+B1    STORE> to 6 54661\n[] 1: 8 10120 BX1 X2 <BX1 X2> to 8 10120\n",
    ),
    ("a continuation", "  BX1 X2\n,  X3\n", "LINE 2 BAD OPERAND"),
    (
        "a continuation of a pad",
        "  NO\n,  X3\n",
        "LINE 2 BAD OPERAND",
    ),
    (
        "a carriage return as operand",
        "  NX1 \r \r\n",
        "LINE 1 BAD OPERAND",
    ),
    (
        "a remark for an operand",
        "  NX1   NORMALISE IT\n",
        "LINE 1 BAD OPERAND",
    ),
    (
        "a blank in an operand",
        "  NX1 B1, X2\n",
        "LINE 1 BAD OPERAND",
    ),
    ("no operand", "  BX1\n", "LINE 1 BAD OPERAND"),
    (
        "no operation",
        "  BX8 X2\n  BX X2\n  BX11 X2\n  EX1 X2\n  NO1 X2\n  XS1 X2\n  SC1 X2\n  AB1 X2\n  NO X2\n   X2\n",
        "",
    ),
];

/// What a block of one instruction is read as.
const ALONE: &str = "[] 1: 1 10120 BX1 X2 <BX1 X2> to 1 10120\n";

/// A block of two, with a line between them.
const TOGETHER: &str = "[] 2: 1 10120 BX1 X2 <BX1 X2> to 3 10340\n";

/// Two blocks of these.
const APART: &str =
    "[] 1: 1 10120 BX1 X2 <BX1 X2> to 1 10120\n[] 1: 3 10340 BX3 X4 <BX3 X4> to 3 10340\n";

/// Sources by name: a text, a piece with how often it is repeated, and a text; and what each is read as.
const LONG_SOURCES: &[(&str, &str, &str, usize, &str, &str)] = &[
    (
        "labels and bytes",
        " LOOP NO\n* NOTE\n   bx1   x2+x3   ADDS\r\n",
        "         nx0\n",
        128,
        "         END\nFIN  SX1\tB1\n",
        "[ LOOP] 128: 3 12123 BX1 X2+X3 <bx1   x2+x3   ADDS> to 130 24000\n[] 1: 131 24000 NX0 <nx0> to 131 24000\n[FIN] 1: 133 76110 SX1 B1 <SX1\tB1> to 133 76110\n",
    ),
    ("200 bytes", "", "*", 200, "\n", ""),
    ("201 bytes", "", "*", 201, "", "LINE 1 TOO LONG"),
    (
        "a bad operand on a line too long",
        "  BX1 ",
        "0",
        195,
        "\n",
        "LINE 1 TOO LONG",
    ),
    ("20,000 lines", "", "*\n", 20000, "", ""),
    ("20,001 lines", "", "*\n", 20001, "", "TOO MANY LINES"),
    (
        "a bad operand on line 20,001",
        "",
        "*\n",
        20000,
        "  BX1",
        "TOO MANY LINES",
    ),
    (
        "line 20,001 too long",
        "",
        "*\n",
        20000,
        "*00000000001111111111222222222233333333334444444444555555555566666666667777777777888888888899999999990000000000111111111122222222223333333333444444444455555555556666666666777777777788888888889999999999",
        "LINE 20001 TOO LONG",
    ),
];

#[test]
fn reads_sources(rt: HostRuntime) {
    for &(name, source, wanted) in SOURCES {
        check_reading(&rt, name, source, wanted);
    }
    for &(name, head, piece, times, tail, wanted) in LONG_SOURCES {
        let pieces = piece.repeat(rt.alloc(), times).expect(&rt, "memory");
        let source = format!(in rt.alloc(); "{head}{pieces}{tail}").expect(&rt, "memory");
        check_reading(&rt, name, source.as_str(), wanted);
    }
}
