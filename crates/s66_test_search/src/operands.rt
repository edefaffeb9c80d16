//! Tests of operands: spellings that each operation takes, and such as it refuses.

use crate::reading::check_reading;
use std::process::Abort;

/// An operation, spellings of its operand with blanks between, and the instruction as octal digits: code, i, j, k.
const ACCEPTED: &[(&str, &str, &str)] = &[
    ("BX1", "X2", "10120"),
    ("BX1", "X2*X3", "11123"),
    ("BX1", "X2+X3", "12123"),
    ("BX1", "X2-X3", "13123"),
    ("BX1", "-X2", "14102"),
    ("BX1", "-X2*X3", "15132"),
    ("BX1", "-X2+X3", "16132"),
    ("BX1", "-X2-X3", "17132"),
    ("LX1", "X2*X3 B8 +5 -100 5", "20100"),
    ("AX1", "5 N-5", "21100"),
    ("LX1", "B1,X2 X2,B1", "22112"),
    ("LX1", "B1", "22111"),
    ("LX1", "X2 B0,X2 X2,B0", "22102"),
    ("AX1", "B1,X2 X2,B1", "23112"),
    ("NX1", "B1,X2 X2,B1", "24112"),
    ("NX1", "X2 B0,X2", "24102"),
    ("ZX1", "B1", "25111"),
    ("UX1", "B1,X2", "26112"),
    ("PX1", "X2", "27102"),
    ("FX1", "X2+X3", "30123"),
    ("FX1", "X2-X3 -X3+X2", "31123"),
    ("DX1", "X2+X3", "32123"),
    ("DX1", "X2-X3 -X3+X2", "33123"),
    ("RX1", "X2+X3", "34123"),
    ("RX1", "X2-X3 -X3+X2", "35123"),
    ("IX1", "X2+X3", "36123"),
    ("IX1", "X2-X3 -X3+X2", "37123"),
    ("FX1", "X2*X3", "40123"),
    ("RX1", "X2*X3", "41123"),
    ("DX1", "X2*X3", "42123"),
    ("MX1", "= . =1.0 =. .. .*. -5 2*N/3", "43100"),
    ("FX1", "X2/X3", "44123"),
    ("RX1", "X2/X3", "45123"),
    ("CX1", "X2", "47102"),
    ("SA1", "A1+0 0+A1 A1-0 A1+2*N-3 -3+A1", "50110"),
    ("SA1", "5 -5 +5 N-5 B0+5 5+B0", "51100"),
    ("SA1", "A1*2 2*X1 B1/B2 X2*X3", "51100"),
    ("SA1", "A8 X10 X1X A B X A1. =X.I .A. 1X.I AX.I", "51100"),
    ("SA1", "B1+5 5+B1", "51110"),
    ("SA1", "X1+5 5+X1 X1-5", "52110"),
    ("SA1", "X1 +X1 X1+B0", "53110"),
    ("SA1", "B1+X2 X2+B1", "53121"),
    ("SA1", "A1 +A1 A1+B0", "54110"),
    ("SA1", "B1+A2 A2+B1", "54121"),
    ("SA1", "-B1+A2 A2-B1", "55121"),
    ("SA1", "B1", "56110"),
    ("SA1", "B1+B2", "56112"),
    ("SA1", "B0 B0+B0", "56100"),
    ("SA1", "-B1 B0-B1", "57101"),
    ("SA1", "-B0 B0-B0", "57100"),
    ("SA1", "-B1+B2 B2-B1", "57121"),
    ("SA6", "5", "51600"),
    ("SA0", "A1", "54010"),
    ("SB1", "A2+5", "60120"),
    ("SB0", "5", "61000"),
    ("SB1", "X2-5", "62120"),
    ("SB1", "+B2", "66120"),
    ("SB2", "B3-B4", "67234"),
    ("SX1", "A2-N", "70120"),
    ("SX1", "X2*X3", "71100"),
    ("SX1", "X2+1", "72120"),
    ("SX7", "X6+B5", "73765"),
    ("SX1", "A2", "74120"),
    ("SX1", "A2-B3", "75123"),
    ("SX3", "B0", "76300"),
    ("SX1", "-B2", "77102"),
    ("NX1", "", "24101"),
    ("PX7", "", "27707"),
];

/// An operation, and operands that it does not take.
const REFUSED: &[(&str, &str)] = &[
    ("BX1", "+X2 +X2*X3 X2*-X3 X2/X3 X8 A2 B2 X2, X2+ 5"),
    ("LX1", ",X2 B1, X1,X2 B1,B2 B1,X2,B3 B1+X2 A1 -B1 +X1 A1,B1"),
    ("AX1", "5+ B1-5 X1,5 *"),
    ("NX1", "5 A1 B1, ,B1 X1+B1 NORMALISE"),
    ("FX1", "+X2+X3 -X2-X3 -X2*X3 -X2/X3 X2 X2+B3 X2+5"),
    ("DX1", "X2/X3"),
    ("IX1", "X2*X3 X2/X3"),
    ("MX1", "B1 2*=3 =*2 2**3 N*/2 * *+2 2* / $ A. B.1 X.I"),
    ("CX1", "-X2 B2 X2+X3 5"),
    ("SA1", "A. B.1 X.I A1+X.I"),
    ("SA1", "+ - 5+ 5--3 A1+-5 ++5 A1+* A1,B1"),
    ("SA1", "-A1 -X1 5-A1 5-X1 X1-B2 X1-B0 -B2+X1 -B1-B2"),
    ("SA1", "5-B1 -B1+5 -B0+5 A1+A2 A1+X1 X1+X2"),
    ("SA1", "A1+B0+5 5+A1+B0 B1+B2+B3 X1+B0+B0 A1+B1+B2-B3"),
    ("SB1", "X1-B2 X1+B1+5"),
    ("SX1", "X1-B2 A1+A2"),
    ("BX1", ""),
    ("FX1", ""),
    ("SA1", ""),
    ("CX1", ""),
    ("LX1", ""),
    ("AX1", ""),
    ("MX1", ""),
];

/// Checks what the line of an operation and an operand is read as, in upper case and in lower case.
fn check_line<R: AllocGlobal + Abort>(
    rt: &R,
    operation: &str,
    operand: &str,
    parcel: Option<&str>,
) {
    let alloc = rt.alloc();
    let blank = if operand.is_empty() { "" } else { " " };
    let text = format!(in alloc; "{operation}{blank}{operand}").expect(rt, "memory");
    let mut line = text.repeat(alloc, 1).expect(rt, "memory");
    for _ in 0..2 {
        let wanted = match parcel {
            Some(parcel) => format!(in alloc; "[] 1: 1 {parcel} {text} <{line}> to 1 {parcel}\n"),
            None => format!(in alloc; "LINE 1 BAD OPERAND"),
        };
        let wanted = wanted.expect(rt, "memory");
        let source = format!(in alloc; "  {line}\n").expect(rt, "memory");
        check_reading(rt, text.as_str(), source.as_str(), wanted.as_str());
        line.make_ascii_lowercase();
    }
}

#[test]
fn takes_operands(rt: HostRuntime) {
    for &(operation, operands, parcel) in ACCEPTED {
        for operand in operands.split(' ') {
            check_line(&rt, operation, operand, Some(parcel));
        }
    }
}

#[test]
fn refuses_operands(rt: HostRuntime) {
    for &(operation, operands) in REFUSED {
        for operand in operands.split(' ') {
            check_line(&rt, operation, operand, None);
        }
    }
}
