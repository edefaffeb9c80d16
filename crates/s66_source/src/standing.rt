//! Which lines are left alone: between switches, in definitions, under counts, as directives, if continued or redefined, or with an
//! operand that isn't seen. It is a state that each line moves on, which `reader.rt`, `frame.rt` and `s66_lint` share.

ghost use Rattle.std.specs.Prelude.{◌≡◌, ◌≤◌, ◌<◌, ◌&&◌, ◌||◌, suc, false, if◌then◌else◌, true, bytes_eq, codes, length, take};
ghost use Rattle.s66_line.specs.{IsSpelled, class_of, is_code, body, from_operation, is_comment, label_bytes, operation, upper, LINE_BYTES_LIMIT, TEXT_LIMIT};
ghost use Rattle.s66_source.specs.{counting_text, is_comment_class, after_line, has_operation, after_operation, at_first, bodies_after, class_at, is_alone, is_directive, is_doubtful, is_far, is_held};
ghost use Rattle.s66_source.specs.{is_switch, with_directive, with_operation, SOURCE_LINES_LIMIT};

use crate::counts::{RANGE_ENDS, counting_text, cover_of, is_one_of};
use crate::cover::Covered;
use crate::directive::{directive_cover, is_directive};
use crate::operation::{has_operation, is_ordinary, is_upper_case};
use crate::redefined::Redefined;
use s66_line::{
    Class, Classified, body_of, classify, fields_of, from_operand, operation_and_operand,
    split_word, upper_case,
};
use std::marker::Model;

/// The operations that begin a definition.
const DEFINITIONS: [&[u8]; 3] = [b"MACRO", b"MACROE", b"OPDEF"];

/// As far behind the begin of its operation an operand begins in column 30, if the operation stands in column 11.
const FAR: usize = 19;

/// So many bytes come before column 30.
const BEFORE_REMARK: usize = 29;

/// So many bytes come before column 11.
const LABEL_FIELD: usize = 10;

/// What stands from one line of a source to the next.
#[derive(Drop)]
pub struct Standing<'r> {
    /// Whether a switch `*S66 OFF` came before, and no switch `*S66 ON` after it.
    pub off: bool,
    /// How many definitions are open.
    pub bodies: u32,
    /// What is still covered by counts and repetitions.
    pub cover: Covered,
    /// What the source redefines, before or after.
    redefined: &'r Redefined,
}

impl<'r> Model for Standing<'r> {
    ghost use Rattle.s66_source.specs.LeftAlone.{Standing};

    ghost Value = { Standing };

    ghost view = { λ s.
        record { off = s.off; bodies = s.bodies; cover = s.cover; redefined = s.redefined.now } };
}

/// Whether a word is this name, which is in upper case and short, but for the case of its letters.
fn is_name(word: &[u8], name: &[u8]) -> bool
    requires { length name.now ≤ TEXT_LIMIT }
    ensures { result ≡ bytes_eq (upper word.now) name.now }
{
    word.len() == name.len() && upper_case(word).as_slice() == name
}

/// Whether a line begins as a switch does. Other comments are told from one without a copy of their first word.
fn begins_switch(line: &[u8]) -> bool
    ensures { result ≡ bytes_eq (upper (take 4 line.now)) (codes "*S66") }
{
    match line {
        [star, letter, tens, ones, ..] => {
            *star == b'*' && (*letter == b'S' || *letter == b's') && *tens == b'6' && *ones == b'6'
        }
        _ => false,
    }
}

/// Whether a body is a switch: a comment from column 1 that begins with `*S66` and this second word.
pub fn is_switch(body: &[u8], second: &[u8]) -> bool
    requires { length second.now ≤ TEXT_LIMIT }
    ensures { result ≡ is_switch second.now body.now }
{
    if !begins_switch(body) {
        return false;
    }
    let (first, _) = split_word(body);
    if !is_name(first, b"*S66") {
        return false;
    }
    let (_, next) = operation_and_operand(body);
    is_name(next, second)
}

/// Whether a line is a switch with this second word.
#[inline(always)]
fn is_switch_line(line: &[u8], second: &[u8]) -> bool
    requires { length second.now ≤ TEXT_LIMIT }
    ensures { result ≡ is_switch second.now (body line.now) }
{
    begins_switch(line) && is_switch(body_of(line), second)
}

/// Whether a line is a directive.
fn is_directive_line(line: &[u8]) -> bool
    requires { length line.now ≤ LINE_BYTES_LIMIT }
    ensures { result ≡ is_directive (body line.now) }
{
    is_directive(body_of(line))
}

/// How many definitions are open after an operation, whose name is in upper case, if `bodies` were before it.
fn bodies_after(bodies: u32, name: &[u8]) -> u32
    requires { bodies < SOURCE_LINES_LIMIT }
    ensures { result ≡ bodies_after bodies name.now }
{
    if is_one_of(&DEFINITIONS, name) {
        bodies + 1
    } else if name == b"ENDM".as_slice() {
        bodies.saturating_sub(1)
    } else {
        bodies
    }
}

const LEFT_ALONE: Classified<'static> = Classified {
    class: Class::Other,
    label: &[],
    bytes: &[],
};

const COMMENT: Classified<'static> = Classified {
    class: Class::Comment,
    label: &[],
    bytes: &[],
};

/// Whether a line is empty or begins with a star, and so is a comment.
#[inline(always)]
fn is_plain_comment(line: &[u8]) -> bool
    ensures comment { result ≡ true → is_comment (body line.now) ≡ true }
    ensures other { result ≡ false → is_directive (body line.now) ≡ false }
{
    matches!(line, [] | [b'*', ..])
}

/// A line with its class, as `classify` gives it. Most comments are told by their first byte.
#[inline(always)]
fn classify_line(after_code: bool, line: &[u8]) -> Classified<'_>
    requires { length line.now ≤ LINE_BYTES_LIMIT }
    ensures class { result.class ≡ class_of after_code line.now }
    ensures label { is_code result.class ≡ true → result.label.now ≡ label_bytes (body line.now) }
    ensures bytes { is_code result.class ≡ true → result.bytes.now ≡ from_operation (body line.now) }
    ensures spelled { IsSpelled result.class result.bytes.now }
    ensures few { length result.bytes.now ≤ TEXT_LIMIT }
{
    if is_plain_comment(line) {
        COMMENT
    } else {
        classify(after_code, line)
    }
}

/// Whether a line of this class, if it isn't left alone, changes nothing of what stands.
fn is_settled(class: &Class) -> bool
    ensures { result ≡ (is_code class.now || is_comment_class class.now) }
{
    class.is_code() || matches!(class, Class::Comment)
}

/// Whether the operand of a body isn't seen, which begins in column 30 or later, or would where the operation is put into column 11.
pub fn is_far(body: &[u8]) -> bool
    ensures { result ≡ is_far body.now }
{
    let fields = fields_of(body);
    let operand = from_operand(body).len();
    if operand == 0 {
        return false;
    }
    fields.from_operation.len().saturating_sub(operand) >= FAR
        || fields.label.len() < LABEL_FIELD && body.len().saturating_sub(operand) >= BEFORE_REMARK
}

impl<'r> Standing<'r> {
    /// Before the first line of a source that redefines this.
    pub fn at_first(redefined: &'r Redefined) -> Standing<'r>
        ensures { result ≡ at_first redefined.now }
    {
        Standing {
            off: false,
            bodies: 0,
            cover: Covered::nothing(),
            redefined,
        }
    }

    /// Whether the next line is left alone for what comes before and after it, and for being a switch or a directive.
    fn holds(&self, cut: bool, line: &[u8], continued: bool) -> bool
        requires { length line.now ≤ LINE_BYTES_LIMIT }
        ensures { result ≡ is_held cut self.now line.now continued }
    {
        self.off
            || is_switch_line(line, b"OFF")
            || cut
                && (self.bodies > 0
                    || self.cover.is_covering()
                    || continued
                    || is_directive_line(line))
    }

    /// Whether a line, which was classified, is refused, or COMPASS may take it for something else.
    fn doubts(&self, classified: &Classified, line: &[u8]) -> bool
        requires label { is_code classified.now.class ≡ true → classified.now.label.now ≡ label_bytes (body line.now) }
        requires bytes { is_code classified.now.class ≡ true → classified.now.bytes.now ≡ from_operation (body line.now) }
        requires few { length classified.now.bytes.now ≤ TEXT_LIMIT }
        ensures { result ≡ is_doubtful self.now.redefined classified.now.class (body line.now) }
    {
        match classified.class {
            Class::Refused => true,
            Class::Pad { .. } => self.redefined.has(classified.bytes),
            Class::Instruction { .. } => {
                self.redefined.has(classified.bytes) || is_far(body_of(line))
            }
            _ => false,
        }
    }

    /// Whether a line, which was classified, is left alone for a doubt.
    fn passes_over(&self, cut: bool, classified: &Classified, line: &[u8]) -> bool
        requires label { is_code classified.now.class ≡ true → classified.now.label.now ≡ label_bytes (body line.now) }
        requires bytes { is_code classified.now.class ≡ true → classified.now.bytes.now ≡ from_operation (body line.now) }
        requires few { length classified.now.bytes.now ≤ TEXT_LIMIT }
        ensures { result ≡ (cut && is_doubtful self.now.redefined classified.now.class (body line.now)) }
    {
        cut && self.doubts(classified, line)
    }

    /// Whether the next line is left alone.
    pub fn is_alone(&self, cut: bool, line: &[u8], continued: bool) -> bool
        requires { length line.now ≤ LINE_BYTES_LIMIT }
        ensures { result ≡ is_alone cut self.now line.now continued }
    {
        self.holds(cut, line, continued) || self.passes_over(cut, &classify_line(true, line), line)
    }

    /// The next line with its class, by whether the line directly before it is code, and whether the line after it continues it.
    pub fn classify<'a>(
        &self,
        cut: bool,
        after_code: bool,
        line: &'a [u8],
        continued: bool,
    ) -> Classified<'a>
        requires { length line.now ≤ LINE_BYTES_LIMIT }
        ensures class { result.class ≡
            class_at after_code (record { alone = is_alone cut self.now line.now continued; bytes = line.now }) }
        ensures label { is_code result.class ≡ true → result.label.now ≡ label_bytes (body line.now) }
        ensures bytes { is_code result.class ≡ true → result.bytes.now ≡ from_operation (body line.now) }
        ensures spelled { IsSpelled result.class result.bytes.now }
        ensures few { length result.bytes.now ≤ TEXT_LIMIT }
    {
        if self.holds(cut, line, continued) {
            return LEFT_ALONE;
        }
        let classified = classify_line(after_code, line);
        if self.passes_over(cut, &classified, line) {
            return LEFT_ALONE;
        }
        classified
    }

    /// After an operation, whose name and the text from its operand on are in upper case.
    fn pass_named(&mut self, name: &[u8], text: &[u8])
        requires { self.old.bodies < SOURCE_LINES_LIMIT }
        ensures { self.new ≡ after_operation self.old name.now text.now }
    {
        self.cover = if self.bodies == 0 {
            self.cover.after(name, &cover_of(name, text))
        } else {
            self.cover.count_down(is_one_of(&RANGE_ENDS, name))
        };
        self.bodies = bodies_after(self.bodies, name);
    }

    /// After the operation of a body that is neither a comment nor a continuation, of which these are the bytes from the operation
    /// on. What is in upper case isn't copied.
    #[inline(never)]
    fn pass_operation(&mut self, body: &[u8], bytes: &[u8])
        requires few { length body.now ≤ LINE_BYTES_LIMIT }
        requires bytes { bytes.now ≡ from_operation body.now }
        requires bodies { self.old.bodies < SOURCE_LINES_LIMIT }
        ensures { self.new ≡ after_operation self.old (upper (operation body.now)) (upper (counting_text body.now)) }
    {
        let (operation, _) = split_word(bytes);
        let text = counting_text(body);
        if is_upper_case(operation) && is_upper_case(text) {
            self.pass_named(operation, text);
        } else {
            self.pass_named(
                upper_case(operation).as_slice(),
                upper_case(text).as_slice(),
            );
        }
    }

    /// After a body. Most have an operation that covers, begins and ends nothing, and come under no count.
    fn pass_body(&mut self, body: &[u8])
        requires few { length body.now ≤ LINE_BYTES_LIMIT }
        requires bodies { self.old.bodies < SOURCE_LINES_LIMIT }
        ensures { self.new ≡ (if has_operation body.now then
            after_operation self.old (upper (operation body.now)) (upper (counting_text body.now)) else self.old) }
    {
        let bytes = fields_of(body).from_operation;
        if !is_ordinary(bytes) {
            if has_operation(body) {
                self.pass_operation(body, bytes);
            }
        } else if self.cover.is_covering() && has_operation(body) {
            self.cover = self.cover.count_down(false);
        }
    }

    /// After a comment with a star in column 1, as a body.
    fn pass_comment(&mut self, body: &[u8])
        requires { length body.now ≤ LINE_BYTES_LIMIT }
        ensures { self.new ≡ with_directive true self.old body.now }
    {
        if self.bodies == 0 && is_directive(body) {
            self.cover = self.cover.with(&directive_cover(&body[1..]));
        }
    }

    /// After a line, but for its switch.
    #[tactic(auto, using(crate::proofs::Directives::by_operation, crate::proofs::Directives::by_directive))]
    fn pass_statement(&mut self, line: &[u8])
        requires few { length line.now ≤ LINE_BYTES_LIMIT }
        requires bodies { self.old.bodies < SOURCE_LINES_LIMIT }
        ensures { self.new ≡ with_operation true self.old (body line.now) }
    {
        let body = body_of(line);
        if is_plain_comment(line) {
            self.pass_comment(body);
        } else {
            self.pass_body(body);
        }
    }

    /// Passes a line.
    pub fn pass(&mut self, cut: bool, line: &[u8])
        requires few { length line.now ≤ LINE_BYTES_LIMIT }
        requires bodies { self.old.bodies < SOURCE_LINES_LIMIT }
        ensures { self.new ≡ after_line cut self.old line.now }
    {
        let off = !is_switch_line(line, b"ON") && (self.off || is_switch_line(line, b"OFF"));
        if cut {
            self.pass_statement(line);
        }
        self.off = off;
    }

    /// Whether a line may be left alone, or change what stands.
    fn is_open(&self, cut: bool, line: &[u8]) -> bool
        ensures { result ≡ (cut || (self.now.off || bytes_eq (upper (take 4 line.now)) (codes "*S66"))) }
    {
        cut || self.off || begins_switch(line)
    }

    /// Passes a line, and returns it with its class, as `classify` does. Most lines are read without `--cut` and after no switch
    /// `OFF`: then a switch alone is left alone, or changes what stands.
    pub(crate) fn take<'a>(
        &mut self,
        cut: bool,
        after_code: bool,
        line: &'a [u8],
        continued: bool,
    ) -> Classified<'a>
        requires few { length line.now ≤ LINE_BYTES_LIMIT }
        requires bodies { self.old.bodies < SOURCE_LINES_LIMIT }
        ensures class { result.class ≡
            class_at after_code (record { alone = is_alone cut self.old line.now continued; bytes = line.now }) }
        ensures label { is_code result.class ≡ true → result.label.now ≡ label_bytes (body line.now) }
        ensures bytes { is_code result.class ≡ true → result.bytes.now ≡ from_operation (body line.now) }
        ensures spelled { IsSpelled result.class result.bytes.now }
        ensures few { length result.bytes.now ≤ TEXT_LIMIT }
        ensures after { self.new ≡ after_line cut self.old line.now }
        ensures bodies { self.new.bodies ≤ suc self.old.bodies }
    {
        if !self.is_open(cut, line) {
            return classify_line(after_code, line);
        }
        let classified = self.classify(cut, after_code, line, continued);
        if !is_settled(&classified.class) {
            self.pass(cut, line);
        }
        classified
    }
}
