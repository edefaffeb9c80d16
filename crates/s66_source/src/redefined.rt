//! Operations and instructions that a source gives another meaning, anywhere in it, by `MACRO`, `OPSYN`, `OPDEF` and the like: such
//! lines are left alone with `--cut`.

ghost use Rattle.std.specs.Prelude.{ℕ, List, ◌≡◌, ◌≤◌, ◌<◌, ◌+◌, ◌++◌, ◌==◌, [], ◌∷◌, OnOk, IfSome, IfNone, codes, false, length, map, replicate, take, true, filter};
ghost use Rattle.s66_isa.specs.{has};
ghost use Rattle.s66_line.specs.{body, continues, from_operation, is_comment, lines_of, upper, word, is_sign, TEXT_LIMIT};
ghost use Rattle.s66_source.specs.{is_one_of, has_operation, defined_name, ends_name, form_in, form_of, forming, is_bank, is_in_name, is_redefined, is_short, letters_of, nothing_redefined};
ghost use Rattle.s66_source.specs.{own_operation, redefined_in, renaming, names_in, one_begins_so};

use crate::counts::{before_byte, is_one_of};
use crate::lines::cut_line;
use crate::operation::{has_operation, is_upper_case};
use arrayvec::ArrayVec;
use s66_line::{
    TEXT_LIMIT, body_of, fields_of, from_operand, is_octal_digit, operation_and_operand,
    split_word, upper_case,
};
use std::alloc::{AllocError, Global};
use std::marker::Model;

/// The operations that define macros.
const MACROS: [&[u8]; 2] = [b"MACRO", b"MACROE"];

/// Those that define an operation.
const RENAMING: [&[u8]; 4] = [b"MACRO", b"MACROE", b"OPSYN", b"CPSYN"];

/// The one that defines a form of an instruction.
const FORMING: [&[u8]; 1] = [b"OPDEF"];

/// The most letters of one of these.
const LONGEST_NAME: usize = 6;

/// The most bytes of the operation of an instruction.
const LONGEST_OPERATION: usize = 3;

/// Whether the operation in front of these bytes may define something, by its first letter, as few do.
#[inline(always)]
fn begins_definition(bytes: &[u8]) -> bool
    ensures renaming { result ≡ false → is_one_of renaming (upper (word bytes.now)) ≡ false }
    ensures forming { result ≡ false → is_one_of forming (upper (word bytes.now)) ≡ false }
{
    match bytes {
        [first, ..] => matches!(*first, b'M' | b'm' | b'O' | b'o' | b'C' | b'c'),
        [] => false,
    }
}

/// What a body with this operation, in upper case, defines, as it is written.
fn defined_name<'a>(body: &'a [u8], operation: &[u8]) -> &'a [u8]
    requires { own_operation body.now ≡ operation.now }
    ensures { upper result.now ≡ defined_name body.now }
{
    let location = fields_of(body).location;
    if !location.is_empty() || !is_one_of(&MACROS, operation) {
        return location;
    }
    let (operand, _) = split_word(from_operand(body));
    before_byte(b',', operand)
}

/// Adds a name in upper case.
fn push_name(names: &mut Vec<Vec<u8>>, alloc: Global, name: &[u8]) -> Result<(), AllocError>
    ensures ok { OnOk result (names_in names.new.items ≡ names_in names.old.items ++ upper name.now ∷ []) }
{
    names.push(name.to_ascii_uppercase(alloc)?)?;
    Ok(())
}

/// Adds a name in upper case, if it may be the operation of an instruction or a pad.
fn push_if_short(names: &mut Vec<Vec<u8>>, alloc: Global, name: &[u8]) -> Result<(), AllocError>
    ensures { OnOk result (names_in names.new.items ≡ names_in names.old.items ++ filter is_short (upper name.now ∷ [])) }
{
    if name.len() > LONGEST_OPERATION {
        return Ok(());
    }
    push_name(names, alloc, name)?;
    Ok(())
}

/// Whether a word is one of these names.
fn is_among(names: &[Vec<u8>], word: &[u8]) -> bool
    ensures { result ≡ is_one_of (names_in names.now) word.now }
{
    for name in names {
        if word.len() == name.len() && word == name.as_slice() {
            return true;
        }
    }
    false
}

/// Whether a word, in either case, is one of these names. What is in upper case isn't copied.
fn is_named(names: &[Vec<u8>], word: &[u8]) -> bool
    requires { length word.now ≤ TEXT_LIMIT }
    ensures { result ≡ is_one_of (names_in names.now) (upper word.now) }
{
    if is_upper_case(word) {
        is_among(names, word)
    } else {
        is_among(names, upper_case(word).as_slice())
    }
}

/// Whether one of these names begins with these two bytes.
fn one_begins_so(names: &[Vec<u8>], first: u8, second: u8) -> bool
    ensures { result ≡ one_begins_so first second (names_in names.now) }
{
    for name in names {
        if let [a, b, ..] = name.as_slice() {
            if *a == first && *b == second {
                return true;
            }
        }
    }
    false
}

/// Whether one of these forms may be that of an instruction with this operation, by its two letters.
fn may_have_form(forms: &[Vec<u8>], operation: &[u8]) -> bool
    ensures { result ≡ false → (operand : List ℕ) → is_one_of (names_in forms.now) (take 2 (upper operation.now) ++ operand) ≡ false }
{
    match operation {
        [first, second, ..] => one_begins_so(
            forms,
            first.to_ascii_uppercase(),
            second.to_ascii_uppercase(),
        ),
        _ => true,
    }
}

fn is_in_name(byte: u8) -> bool
    ensures { result ≡ is_in_name byte }
{
    matches!(byte, b'A'..=b'Z' | b'0'..=b'9' | b'.' | b'=')
}

fn is_bank(byte: u8) -> bool
    ensures { result ≡ is_bank byte }
{
    matches!(byte, b'A' | b'B' | b'X')
}

fn is_sign(byte: u8) -> bool
    ensures { result ≡ is_sign byte }
{
    matches!(byte, b'+' | b'-')
}

/// Whether a name doesn't go on with these bytes.
fn ends_name(bytes: &[u8]) -> bool
    ensures { result ≡ ends_name bytes.now }
{
    match bytes {
        [first, ..] => !is_in_name(*first),
        [] => true,
    }
}

/// What follows a byte that stands for itself in the form of an operand: an operator, or the letter of a register, whose number is
/// passed. None if another name begins with it.
fn after_letter(first: u8, more: &[u8]) -> Option<&[u8]>
    ensures some { IfSome result (λ rest. letters_of (first ∷ more.now) ≡ first ∷ letters_of rest.now) }
    ensures letter { IfSome result (λ rest. (81 == first) ≡ false) }
    ensures shorter { IfSome result (λ rest. length rest.now ≤ length more.now) }
    ensures none { IfNone result (letters_of (first ∷ more.now) ≡ codes "Q") }
{
    if !is_in_name(first) || is_bank(first) && ends_name(more) {
        return Some(more);
    }
    if let [digit, rest @ ..] = more {
        if is_bank(first) && is_octal_digit(*digit) && ends_name(rest) {
            return Some(rest);
        }
    }
    None
}

/// Whether an operand has an expression.
fn has_expression(operand: &[u8]) -> bool
    ensures { result ≡ has 81 (letters_of operand.now) }
{
    let mut rest = operand;
    while let [first, more @ ..] = rest {
        match after_letter(*first, more) {
            Some(next) => rest = next,
            None => return true,
        }
    }
    false
}

/// Appends the letters of the registers, the operators between them, and a `Q` for an expression.
fn push_letters(form: &mut ArrayVec<u8, TEXT_LIMIT>, operand: &[u8])
    requires { length form.old.items + length operand.now ≤ TEXT_LIMIT }
    ensures { form.new.items ≡ form.old.items ++ letters_of operand.now }
{
    let mut rest = operand;
    while let [first, more @ ..] = rest {
        match after_letter(*first, more) {
            Some(next) => {
                form.push(*first);
                rest = next;
            }
            None => {
                form.push(b'Q');
                return;
            }
        }
    }
}

/// Whether an operand has an expression, and a sign in front.
fn is_signed(operand: &[u8]) -> bool
    ensures some { result ≡ true → form_of operand.now ≡ codes "Q" }
    ensures none { result ≡ false → form_of operand.now ≡ letters_of operand.now }
    ensures filled { result ≡ true → 1 ≤ length operand.now }
{
    match operand {
        [first, rest @ ..] => is_sign(*first) && has_expression(rest),
        [] => false,
    }
}

/// Appends the form of an operand in upper case.
fn push_form(form: &mut ArrayVec<u8, TEXT_LIMIT>, operand: &[u8])
    requires { length form.old.items + length operand.now ≤ TEXT_LIMIT }
    ensures { form.new.items ≡ form.old.items ++ form_of operand.now }
{
    if is_signed(operand) {
        form.push(b'Q');
    } else {
        push_letters(form, operand);
    }
}

/// The two bytes in front, if there are so many.
fn first_two(bytes: &[u8]) -> &[u8]
    ensures value { result.now ≡ take 2 bytes.now }
    ensures within { length result.now ≤ 2 }
    ensures shorter { length result.now ≤ length bytes.now }
{
    if bytes.len() > 2 {
        return &bytes[..2];
    }
    bytes
}

/// The form of an instruction: the two letters of its operation, and the form of its operand.
fn form_in(operation: &[u8], operand: &[u8]) -> ArrayVec<u8, TEXT_LIMIT>
    requires operation { length operation.now ≤ TEXT_LIMIT }
    requires both { 0 < length operand.now → length operation.now + length operand.now < TEXT_LIMIT }
    ensures { result.items ≡ take 2 (upper operation.now) ++ form_of (upper operand.now) }
{
    let mut form = upper_case(first_two(operation));
    push_form(&mut form, upper_case(operand).as_slice());
    form
}

/// Whether an instruction, by its bytes from the operation on, has one of these forms. Most have other letters than all forms.
fn has_one_form(forms: &[Vec<u8>], bytes: &[u8]) -> bool
    requires { length bytes.now ≤ TEXT_LIMIT }
    ensures { result ≡ is_one_of (names_in forms.now) (form_in bytes.now) }
{
    let (operation, operand) = operation_and_operand(bytes);
    if !may_have_form(forms, operation) {
        return false;
    }
    is_among(forms, form_in(operation, operand).as_slice())
}

/// The operations and instructions that a source gives another meaning, anywhere in it.
#[derive(Drop)]
pub struct Redefined {
    /// Operations, by their names in upper case.
    operations: Vec<Vec<u8>>,
    /// Instructions, by the names of their forms in upper case.
    forms: Vec<Vec<u8>>,
}

impl Model for Redefined {
    ghost use Rattle.s66_source.specs.Redefinitions.{Redefined};
    ghost use Rattle.s66_source.specs.Redefining.{names_in};

    ghost Value = { Redefined };

    ghost view = { λ r. record { operations = names_in r.operations.items; forms = names_in r.forms.items } };
}

impl Redefined {
    ghost use Rattle.std.specs.Prelude.{◌≡◌, ◌≤◌, ◌∷◌, ◌||◌, [], OnOk, IfOk, false, length};
    ghost use Rattle.s66_line.specs.{body, continues, from_operation, is_comment, lines_of, operation_in, TEXT_LIMIT};
    ghost use Rattle.s66_source.specs.{redefined_by, is_one_of, form_in, is_redefined, nothing_redefined, redefined_in, with_bodies, with_lines};

    /// None.
    pub fn nothing(alloc: Global) -> Redefined
        ensures { result ≡ nothing_redefined }
    {
        Redefined {
            operations: Vec::new(alloc),
            forms: Vec::new(alloc),
        }
    }

    /// Those of a source, in one pass.
    pub fn of(alloc: Global, text: &[u8]) -> Result<Redefined, AllocError>
        ensures { IfOk result (λ redefined. redefined ≡ redefined_in (lines_of text.now)) }
    {
        let mut redefined = Redefined::nothing(alloc);
        redefined.take_all(alloc, text)?;
        Ok(redefined)
    }

    /// What is asked of a source: with `--cut` what it redefines, and else nothing.
    pub fn by(alloc: Global, cut: bool, text: &[u8]) -> Result<Redefined, AllocError>
        ensures { IfOk result (λ redefined. redefined ≡ redefined_by (record { cut = cut; text = text.now })) }
    {
        if cut {
            Redefined::of(alloc, text)
        } else {
            Ok(Redefined::nothing(alloc))
        }
    }

    /// Adds what a body that is neither a comment nor a continuation defines, of which these are the bytes from the operation on.
    #[inline(never)]
    fn take_definition(
        &mut self,
        alloc: Global,
        body: &[u8],
        bytes: &[u8],
    ) -> Result<(), AllocError>
        requires own { (is_comment body.now || continues body.now) ≡ false }
        requires bytes { bytes.now ≡ from_operation body.now }
        ensures { OnOk result (self.new ≡ with_bodies self.old (body.now ∷ [])) }
    {
        let (operation, _) = split_word(bytes);
        if operation.len() > LONGEST_NAME {
            return Ok(());
        }
        let operation = upper_case(operation);
        if is_one_of(&RENAMING, operation.as_slice()) {
            push_if_short(
                &mut self.operations,
                alloc,
                defined_name(body, operation.as_slice()),
            )?;
        }
        if is_one_of(&FORMING, operation.as_slice()) {
            push_name(
                &mut self.forms,
                alloc,
                defined_name(body, operation.as_slice()),
            )?;
        }
        Ok(())
    }

    /// Adds what a line defines. Most define nothing, which their first letter shows.
    fn take_line(&mut self, alloc: Global, line: &[u8]) -> Result<(), AllocError>
        ensures { OnOk result (self.new ≡ with_bodies self.old (body line.now ∷ [])) }
    {
        let body = body_of(line);
        let bytes = fields_of(body).from_operation;
        if begins_definition(bytes) && has_operation(body) {
            self.take_definition(alloc, body, bytes)?;
        }
        Ok(())
    }

    /// Adds what the lines of a text define.
    fn take_all(&mut self, alloc: Global, text: &[u8]) -> Result<(), AllocError>
        ensures { OnOk result (self.new ≡ with_lines self.old (lines_of text.now)) }
    {
        let mut rest = text;
        while let Some((line, more)) = cut_line(rest) {
            self.take_line(alloc, line)?;
            rest = more;
        }
        Ok(())
    }

    /// Whether an operation, in front of these bytes, is redefined by its name.
    pub fn has_operation(&self, bytes: &[u8]) -> bool
        requires { length bytes.now ≤ TEXT_LIMIT }
        ensures { result ≡ is_one_of self.now.operations (operation_in bytes.now) }
    {
        let (operation, _) = split_word(bytes);
        !self.operations.is_empty() && is_named(self.operations.as_slice(), operation)
    }

    /// Whether an instruction, by its bytes from the operation on, is redefined by its form.
    fn has_form(&self, bytes: &[u8]) -> bool
        requires { length bytes.now ≤ TEXT_LIMIT }
        ensures { result ≡ is_one_of self.now.forms (form_in bytes.now) }
    {
        !self.forms.is_empty() && has_one_form(self.forms.as_slice(), bytes)
    }

    /// Whether an instruction or a pad, by its bytes from the operation on, is redefined.
    pub fn has(&self, bytes: &[u8]) -> bool
        requires { length bytes.now ≤ TEXT_LIMIT }
        ensures { result ≡ is_redefined self.now bytes.now }
    {
        self.has_operation(bytes) || self.has_form(bytes)
    }
}

/// Forms of operands; what small sources give another meaning; and what that does and doesn't change.
pub fn redefined_examples()
    ensures registers { map form_of (codes "X1*X2" ∷ codes "B1" ∷ codes "-X1*X2" ∷ codes "B2,X3" ∷ codes "X5/X0" ∷ []) ≡
        codes "X*X" ∷ codes "B" ∷ codes "-X*X" ∷ codes "B,X" ∷ codes "X/X" ∷ [] }
    ensures expressions { map form_of (codes "N+1" ∷ codes "60" ∷ codes "-1" ∷ codes "=XTABLE" ∷ codes "AB" ∷ codes "X8" ∷
        codes "X10" ∷ []) ≡ replicate 7 (codes "Q") }
    ensures both { map form_of (codes "A1+N" ∷ codes "B1-4*N+1" ∷ codes "N+B1" ∷ codes "-N+B1" ∷ codes "A1+B" ∷ []) ≡
        codes "A+Q" ∷ codes "B-Q" ∷ codes "Q" ∷ codes "Q" ∷ codes "A+B" ∷ [] }
    ensures operations { redefined_in (lines_of
        (codes "SX1 MACRO A\n  macroe  bx6,A\nno opsyn NIL\n  MACRO\n RJ CPSYN EQ\nIXX+X OPDEF I,J\nSAVE MACRO\nSX2 EQU 1\n*SX3 MACRO\n,SX4 MACRO\n")) ≡
        record { operations = codes "SX1" ∷ codes "BX6" ∷ codes "NO" ∷ [] ∷ codes "RJ" ∷ []; forms = codes "IXX+X" ∷ [] } }
    ensures by_name { map (is_redefined (record { operations = codes "SX1" ∷ codes "NO" ∷ []; forms = [] }))
        (codes "sx1 B1" ∷ codes "NO" ∷ codes "SX2 SX1" ∷ codes "SX10 B1" ∷ []) ≡ true ∷ true ∷ false ∷ false ∷ [] }
    ensures by_form { map (is_redefined (record { operations = []; forms = codes "RXX*X" ∷ codes "SXQ" ∷ [] }))
        (codes "RX5 x1*x2  NOTE" ∷ codes "RX5 X1/X2" ∷ codes "SX1 N+1" ∷ codes "SX1 B1" ∷ codes "SB1 N+1" ∷ []) ≡ true ∷ false ∷
        true ∷ false ∷ false ∷ [] }
{}
