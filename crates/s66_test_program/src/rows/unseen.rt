//! Rows of what COMPASS doesn't see: what ends past column 72 or is put there, what follows a `NO`, and what `compare` can't see in the
//! new source.

use crate::rows::Row;
use crate::running::{GUARD, LINT, ORDER};

const STRICT: &[&str] = &["s66", "compare", "--strict"];

const STRICT_CUT: &[&str] = &["s66", "compare", "--strict", "--cut"];

/// The operand ends in column 67, and would end in column 75 behind ten blanks.
const LONG_LITERAL: &str =
    "  SX1 B1\n  SA2 =C/A B C D E F G H I J K L M N O P Q R S T U V W X Y Z A B C/\n";

const CALL_IN_NEW: &str = "  BX6 X1\n  BX7 X2\n*S66 NEW\n  BX6 X1\n*CALL COMX\n  BX7 X2\n";

const FAR_IN_NEW: &str = "  SX6 B1\n*S66 NEW\n  SX6                              B1\n";

const LONG_IN_NEW: &str =
    "  SX6 AAAAAAAAAABBBBBBBBBBCCCCCCCCCCDDDDDDDDDDEEEEE\n*S66 NEW\n                        SX6 AAAAAAAAAABBBBBBBBBBCCCCCCCCCCDDDDDDDDDDEEEEE\n";

pub(crate) const ROWS: &[Row] = &[
    (
        "a literal that order puts past column 72",
        LINT,
        LONG_LITERAL,
        8,
        "LINE 2 PAST COLUMN 72 SA2 =C/A\n",
    ),
    (
        "a literal that order puts past column 72, read with --cut",
        &["s66", "lint", "--cut"],
        LONG_LITERAL,
        8,
        "LINE 2 PAST COLUMN 72 SA2 =C/A\n",
    ),
    (
        "a literal that is left alone",
        GUARD,
        LONG_LITERAL,
        0,
        "  SX1 B1\n*S66 OFF GUARD PAST COLUMN 72 SA2 =C/A\n  SA2 =C/A B C D E F G H I J K L M N O P Q R S T U V W X Y Z A B C/\n*S66 ON GUARD\n",
    ),
    (
        "a literal past column 72",
        ORDER,
        LONG_LITERAL,
        0,
        "* BLOCK 1 COUNT 2 SOURCE 9 TIME 8 BEST\n          SA2 =C/A B C D E F G H I J K L M N O P Q R S T U V W X Y Z A B C/\n          SX1 B1\n",
    ),
    (
        "literals that end in column 72",
        LINT,
        "  SA1 =C/A B C D E F G H I J K L M N O P Q R S T U V W X Y Z A/        REMARK\n  SA2               =C/AA B C D E F G H I J K L M N O P Q R S T/\n  SX3 AAAAAAAAAABBBBBBBBBBCCCCCCCCCCDDDDDDDDDDEEEEEEEEEEFFFFFFFF\nL                       SX4 AAAAAAAAAABBBBBBBBBBCCCCCCCCCCDDDDDDDDDDEEEE\n",
        0,
        "",
    ),
    (
        "operands that end in column 73",
        LINT,
        "  SX3 AAAAAAAAAABBBBBBBBBBCCCCCCCCCCDDDDDDDDDDEEEEEEEEEEFFFFFFFFF\n  EQ X\nL                       SX4 AAAAAAAAAABBBBBBBBBBCCCCCCCCCCDDDDDDDDDDEEEEE\n  EQ X\n TEN.WIDE. SX1 B1\n  SX3 AAAAAAAAAABBBBBBBBBBCCCCCCCCCCDDDDDDDDDDEEEEEEEEEEFFFFFFFF\n  EQ X\n  SX3 AAAAAAAAAABBBBBBBBBBCCCCCCCCCCDDDDDDDDDDEEEEEEEEEEFFFFFFFF\n",
        8,
        "LINE 1 PAST COLUMN 72 SX3 AAAAAAAAAABBBBBBBBBBCCCCCCCCCCDDDDDDDDDDEEEEEEEEEEFFFFFFFFF\nLINE 3 PAST COLUMN 72 SX4 AAAAAAAAAABBBBBBBBBBCCCCCCCCCCDDDDDDDDDDEEEEE\nLINE 6 PAST COLUMN 72 SX3 AAAAAAAAAABBBBBBBBBBCCCCCCCCCCDDDDDDDDDDEEEEEEEEEEFFFFFFFF\n",
    ),
    (
        "what follows a NO is a remark",
        LINT,
        "LOOP SA1 B1\n  NO\n  BSS 1\n  NO LOOP+1\n  LX7 5\n  SA1 100B\n",
        8,
        "LINE 2 FALLS INTO DATA NO\n",
    ),
    (
        "the new source has a directive",
        STRICT,
        CALL_IN_NEW,
        8,
        "BLOCK 1 LINE 1 COUNT 2 TIME 8 NEW LINE 1 COUNT 2 TIME 8 SAME\nTOTAL BLOCKS 1 TIME 8 NEW BLOCKS 1 TIME 8 LEGAL 1\n",
    ),
    (
        "the new source has an operand that isn't seen",
        STRICT,
        FAR_IN_NEW,
        8,
        "BLOCK 1 LINE 1 COUNT 1 TIME 4 NEW LINE 1 COUNT 1 TIME 4 SAME\nTOTAL BLOCKS 1 TIME 4 NEW BLOCKS 1 TIME 4 LEGAL 1\n",
    ),
    (
        "the new source has a directive, not strictly",
        &["s66", "compare"],
        CALL_IN_NEW,
        0,
        "BLOCK 1 LINE 1 COUNT 2 TIME 8 NEW LINE 1 COUNT 2 TIME 8 SAME\nTOTAL BLOCKS 1 TIME 8 NEW BLOCKS 1 TIME 8 LEGAL 1\n",
    ),
    (
        "both sources count words",
        STRICT,
        "  BX1 X2\n  BX6 X3\n  NZ X1,*-1\n*S66 NEW\n  BX6 X3\n  BX1 X2\n  NZ X1,*-1\n",
        8,
        "BLOCK 1 LINE 1 COUNT 2 TIME 8 NEW LINE 1 COUNT 2 TIME 8 ORDER 2 1\nTOTAL BLOCKS 1 TIME 8 NEW BLOCKS 1 TIME 8 LEGAL 1\n",
    ),
    (
        "the new source alone is past column 72",
        STRICT_CUT,
        LONG_IN_NEW,
        8,
        "BLOCK 1 LINE 1 COUNT 1 TIME 4 NEW LINE 1 COUNT 1 TIME 4 SAME\nTOTAL BLOCKS 1 TIME 4 NEW BLOCKS 1 TIME 4 LEGAL 1\n",
    ),
];
