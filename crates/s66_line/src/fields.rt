//! The fields of a line: location, operation, operand and remark; and which lines are comments or continuations.

ghost use Rattle.std.specs.Prelude.{◌≡◌, ◌≤◌, ◌<◌, ◌+◌, ◌-◌, ◌==◌, ◌||◌, nat_le, not, length};
ghost use Rattle.std.specs.List.{prefix_len};
ghost use Rattle.s66_line.specs.{is_blank, is_trailing, trim, upper_byte, body, skip_blanks, word, after_word, blanks, is_comment, from_location, location, from_operation, from_operand, label_bytes};
ghost use Rattle.s66_line.specs.{continues};

/// The fields of a line that is no comment; a field that is not there is empty.
#[derive(Clone, Copy)]
pub struct Fields<'a> {
    pub location: &'a [u8],
    /// The location, with the blank before it if it begins in column 2.
    pub label: &'a [u8],
    /// The operation and all that follows it.
    pub from_operation: &'a [u8],
}

pub(crate) fn is_blank_byte(byte: u8) -> bool
    ensures { result ≡ is_blank byte }
{
    byte == b' ' || byte == b'\t'
}

/// How many blanks are in front.
fn blanks_in_front(bytes: &[u8]) -> usize
    ensures value { result ≡ prefix_len is_blank bytes.now }
    ensures within { result ≤ length bytes.now }
{
    bytes.iter().take_while(|b| is_blank_byte(**b)).count()
}

/// How many bytes come before the first blank.
fn word_length(bytes: &[u8]) -> usize
    ensures value { result ≡ prefix_len (λ b. not (is_blank b)) bytes.now }
    ensures within { result ≤ length bytes.now }
{
    bytes.iter().take_while(|b| !is_blank_byte(**b)).count()
}

/// The bytes before the first blank, and those from it on.
#[tactic(auto, using(crate::proofs::LineFields::word_steps))]
pub fn split_word(bytes: &[u8]) -> (&[u8], &[u8])
    ensures word { result.0.now ≡ word bytes.now }
    ensures rest { result.1.now ≡ after_word bytes.now }
    ensures word_within { length result.0.now ≤ length bytes.now }
    ensures rest_within { length result.1.now ≤ length bytes.now }
{
    let end = word_length(bytes);
    (&bytes[..end], &bytes[end..])
}

/// The bytes from the first that is no blank on.
#[tactic(auto, using(crate::proofs::LineFields::word_steps))]
fn without_blanks(bytes: &[u8]) -> &[u8]
    ensures value { result.now ≡ skip_blanks bytes.now }
    ensures within { length result.now ≤ length bytes.now }
{
    &bytes[blanks_in_front(bytes)..]
}

/// A line without the carriage returns at its end.
pub fn body_of(line: &[u8]) -> &[u8]
    ensures value { result.now ≡ body line.now }
    ensures within { length result.now ≤ length line.now }
{
    let mut end = line.len();
    while end > 0 && line[end - 1] == b'\r' {
        end -= 1;
    }
    &line[..end]
}

/// Whether there are blanks alone, or 29 blanks in front.
#[tactic(auto, using(crate::proofs::LineFields::word_steps))]
fn is_indented_away(line: &[u8]) -> bool
    ensures { result ≡ (blanks line.now == length line.now || nat_le 29 (blanks line.now)) }
{
    let count = blanks_in_front(line);
    count == line.len() || count >= 29
}

/// Whether a body is a comment: a star in column 1, blanks alone, or 29 blanks in front.
#[tactic(auto, using(crate::proofs::LineFields::indented_no))]
pub fn is_comment_line(line: &[u8]) -> bool
    ensures { result ≡ is_comment line.now }
{
    match line {
        [] => true,
        [first, ..] => *first == b'*' || is_blank_byte(*first) && is_indented_away(line),
    }
}

/// Whether a body continues the line before it: a comma in column 1.
pub fn is_continuation(line: &[u8]) -> bool
    ensures { result ≡ continues line.now }
{
    matches!(line, [b',', ..])
}

/// A body from the column on in which a location field would begin: column 2 if column 1 is a space, else column 1.
fn from_location_column(line: &[u8]) -> &[u8]
    ensures value { result.now ≡ from_location line.now }
    ensures within { length result.now ≤ length line.now }
{
    match line {
        [b' ', rest @ ..] => rest,
        _ => line,
    }
}

/// The fields of a body.
#[tactic(auto, using(crate::proofs::LineFields::from_operation_within))]
pub fn fields_of(line: &[u8]) -> Fields<'_>
    ensures location { result.location.now ≡ location line.now }
    ensures label { result.label.now ≡ label_bytes line.now }
    ensures from_operation { result.from_operation.now ≡ from_operation line.now }
    ensures from_within { length result.from_operation.now ≤ length line.now - 1 }
{
    let begin = from_location_column(line);
    let (location, rest) = split_word(begin);
    Fields {
        location,
        label: &line[..line.len() - begin.len() + location.len()],
        from_operation: without_blanks(rest),
    }
}

/// A body from its operand on.
pub fn from_operand(line: &[u8]) -> &[u8]
    ensures value { result.now ≡ from_operand line.now }
    ensures within { length result.now ≤ length line.now }
{
    let (_, rest) = split_word(fields_of(line).from_operation);
    without_blanks(rest)
}

/// The word after the blanks in front of these bytes.
pub(crate) fn next_word(bytes: &[u8]) -> &[u8]
    ensures value { result.now ≡ word (skip_blanks bytes.now) }
    ensures within { length result.now ≤ length bytes.now }
{
    let (word, _) = split_word(without_blanks(bytes));
    word
}

/// The operation and the operand in front of these bytes.
pub fn operation_and_operand(bytes: &[u8]) -> (&[u8], &[u8])
    ensures operation { result.0.now ≡ word bytes.now }
    ensures operand { result.1.now ≡ word (skip_blanks (after_word bytes.now)) }
    ensures operation_within { length result.0.now ≤ length bytes.now }
    ensures operand_within { length result.1.now ≤ length bytes.now }
    ensures both_within { 0 < length result.1.now → length result.0.now + length result.1.now < length bytes.now }
{
    let (operation, rest) = split_word(bytes);
    (operation, next_word(rest))
}

/// The operand of bytes that begin with an operation, and what follows it.
pub(crate) fn operand_and_rest(bytes: &[u8]) -> (&[u8], &[u8])
    ensures operand { result.0.now ≡ word (skip_blanks (after_word bytes.now)) }
    ensures rest { result.1.now ≡ after_word (skip_blanks (after_word bytes.now)) }
    ensures operand_within { length result.0.now ≤ length bytes.now }
    ensures rest_within { length result.1.now ≤ length bytes.now }
{
    let (_, rest) = split_word(bytes);
    split_word(without_blanks(rest))
}

fn is_trailing_byte(byte: u8) -> bool
    ensures { result ≡ is_trailing byte }
{
    is_blank_byte(byte) || byte == b'\r'
}

/// The bytes without the blanks and carriage returns at their end.
pub fn without_trailing(bytes: &[u8]) -> &[u8]
    ensures value { result.now ≡ trim is_trailing bytes.now }
    ensures within { length result.now ≤ length bytes.now }
{
    let mut end = bytes.len();
    while end > 0 && is_trailing_byte(bytes[end - 1]) {
        end -= 1;
    }
    &bytes[..end]
}

pub(crate) fn upper_case_byte(byte: u8) -> u8
    ensures { result ≡ upper_byte byte }
{
    if byte >= b'a' && byte <= b'z' {
        byte - 32
    } else {
        byte
    }
}
