//! Documents of each version as texts, which other tests alter and check.

/// The document of three multiplies.
pub(crate) const THREE_MULTIPLIES: &str =
    "S66 CERTIFICATE 1\nPROFILE 3 3 4 4 3 10 29 8 3 8 1 1 1 1 2 1 2\nBLOCK 3\nI FX1 X2*X3\nI FX4 X5*X6\nI FX0 X7*X7\nTIME 22\nBOUND 22\nORDER 1 2 3\nS 1 2 3\nS 2 3\nS 3\nT\nS 2\nT\nS 1 3\nS 3\nT\nS 1\nT\nS 1 2\nS 2\nT\nS 1\nT\nEND\n";

/// The document of one load.
pub(crate) const ONE_LOAD: &str =
    "S66 CERTIFICATE 1\nPROFILE 3 3 4 4 3 10 29 8 3 8 1 1 1 1 2 1 2\nBLOCK 3\nI SA1 A1+B1\nI BX6 X1\nI BX7 X2\nTIME 12\nBOUND 12\nORDER 1 3 2\nC 1 2\nEND\n";

/// A document of version 2: line 18 is a dominated leaf.
pub(crate) const ONE_DOMINATED: &str =
    "S66 CERTIFICATE 2\nPROFILE 3 3 4 4 3 10 29 8 3 8 1 1 1 1 2 1 2\nBLOCK 4\nI FX1 X2/X3\nI SX5 B1\nI BX4 X1\nI FX6 X7+X0\nTIME 33\nBOUND 33\nORDER 1 2 3 4\nS 1 2 4\nS 2 3 4\nS 3 4\nS 4\nT\nC 3\nS 2 4\nD 1 2 3\nS 2\nT\nC 3\nC 1 3\nC 1 3\nEND\n";

/// A document of version 4: three forced pairs leave two splits, and an event.
pub(crate) const FORCED_PAIRS: &str =
    "S66 CERTIFICATE 4\nPROFILE 3 3 4 4 3 10 29 8 3 8 1 1 1 1 2 1 2\nBLOCK 5\nI SB5 B7+B6\nI SB3 B2+B0\nI SB3 B6+B2\nI SB3 B5+B0\nI LX7 B5,X7\nTIME 11\nBOUND 11\nORDER 1 2 3 5 4\nF 1 3\nF 2 1\nF 5 4\nS 1 2\nR 2 1\nS 1 3\nE 3\nR 1 3\nEND\n";

/// A document of version 4: line 15 is a dominated leaf that names line 12, and line 17 one that names line 13.
pub(crate) const LINES_NAMED: &str =
    "S66 CERTIFICATE 4\nPROFILE 3 3 4 4 3 10 29 8 3 8 1 1 1 1 2 1 2\nBLOCK 3\nI SB0 B1\nI SB0 B1\nI SB0 B1\nTIME 8\nBOUND 7\nORDER 1 2 3\nS 1 2 3\nS 2 3\nU INCREMENT\nU INCREMENT\nS 1 3\nN 12\nU INCREMENT\nS 1 2\nN 13\nN 16\nEND\n";

/// A document of version 3, of three instructions that don't differ.
pub(crate) const THREE_DOMINATED: &str =
    "S66 CERTIFICATE 3\nPROFILE 3 3 4 4 3 10 29 8 3 8 1 1 1 1 2 1 2\nBLOCK 3\nI SB0 B1\nI SB0 B1\nI SB0 B1\nTIME 8\nBOUND 8\nORDER 1 2 3\nS 1 2 3\nS 2 3\nS 3\nT\nS 2\nT\nS 1 3\nD 1 2\nS 1\nT\nS 1 2\nD 1 3\nD 2 3\nEND\n";
