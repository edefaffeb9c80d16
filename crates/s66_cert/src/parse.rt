//! One line of a document, from its bytes to what it says (`line_of`). Whether that line may come next is `reader.rt`'s.

ghost use Rattle.std.specs.Prelude.{◌≡◌, ◌≤◌, bytes_eq, option_map};
ghost use Rattle.s66_isa.specs.{BLOCK_LIMIT};
ghost use Rattle.s66_model.specs.{Chain, Load, AtTerminal, AtSplit, Bounding, Dominated, Factual, Next, Turned, AtLine};
ghost use Rattle.s66_moments.specs.declared.fact_line.FactLine.TheVariants as fact;
ghost use Rattle.s66_moments.specs.declared.fact_line.FactStep.TheVariants as step;
ghost use Rattle.s66_cert.specs.{line_read, word_in, rest_in, block_numbers, two_numbers, pair_with, profile_in, one_number, stage_in, front_in, back_in, load_in, load_from_in, instruction_in};
ghost use Rattle.s66_cert.specs.{kind_in, header_in, alone, OfFact, OfTree, said, TIME_LIMIT, LINE_LIMIT};
ghost use Rattle.s66_cert.specs.Lines as line;

use crate::instruction::ReadText;
use crate::limits::{LINE_LIMIT, TIME_LIMIT};
use crate::line::LineOf;
use crate::scan::{number_in, numbers_in, split_word};
use crate::version::Version;
use arrayvec::ArrayVec;
use s66_isa::{BLOCK_LIMIT, Kind, PROFILE_LENGTH, PROFILE_LIMIT};
use s66_line::instruction_of_text;
use s66_model::{FactLeaf, TreeLine};
use s66_moments::{FactLine, FactStep, LoadLine, Moment, Stage};

fn is_name(bytes: &[u8], name: &[u8]) -> bool
    ensures { result ≡ bytes_eq bytes.now name.now }
{
    bytes == name
}

/// One number.
fn number(rest: Option<&[u8]>, low: u32, high: u32) -> Option<u32>
    requires { high ≤ LINE_LIMIT }
    ensures { result ≡ one_number low high (option_map (λ r. r.now) rest.entry) }
{
    number_in(rest?, low, high)
}

/// Numbers of instructions of a block, one at least.
fn some_numbers(rest: Option<&[u8]>) -> Option<ArrayVec<u8, BLOCK_LIMIT>>
    ensures { option_map (λ ns. ns.items) result ≡ block_numbers BLOCK_LIMIT (option_map (λ r. r.now) rest.entry) }
{
    let numbers = numbers_in::<BLOCK_LIMIT>(rest, 1, BLOCK_LIMIT as u32)?;
    if numbers.is_empty() {
        return None;
    }
    Some(numbers)
}

/// Numbers of instructions of a block, one at least, which are put into this room.
fn block_numbers<'a>(
    rest: Option<&[u8]>,
    room: &'a mut ArrayVec<u8, BLOCK_LIMIT>,
) -> Option<&'a [u8]>
    ensures { option_map (λ ns. ns.now) result ≡ block_numbers BLOCK_LIMIT (option_map (λ r. r.now) rest.entry) }
{
    *room = some_numbers(rest)?;
    Some(room.as_slice())
}

/// Two numbers of instructions of a block.
fn two_numbers(rest: Option<&[u8]>) -> Option<ArrayVec<u8, 2>>
    ensures { option_map (λ ns. ns.items) result ≡ two_numbers BLOCK_LIMIT (option_map (λ r. r.now) rest.entry) }
{
    let numbers = numbers_in::<2>(rest, 1, BLOCK_LIMIT as u32)?;
    if !numbers.is_full() {
        return None;
    }
    Some(numbers)
}

/// The numbers of a profile.
fn profile_in(rest: Option<&[u8]>) -> Option<ArrayVec<u8, PROFILE_LENGTH>>
    ensures { option_map (λ v. v.items) result ≡ profile_in (option_map (λ r. r.now) rest.entry) }
{
    let numbers = numbers_in::<PROFILE_LENGTH>(rest, 1, PROFILE_LIMIT)?;
    if !numbers.is_full() {
        return None;
    }
    Some(numbers)
}

/// The kind of a name.
fn kind_in(rest: Option<&[u8]>) -> Option<Kind>
    ensures { result ≡ kind_in (option_map (λ r. r.now) rest.entry) }
{
    let name = rest?;
    if is_name(name, b"BOOLEAN") {
        Some(Kind::Boolean)
    } else if is_name(name, b"SHIFT") {
        Some(Kind::Shift)
    } else if is_name(name, b"ADD") {
        Some(Kind::Add)
    } else if is_name(name, b"LONGADD") {
        Some(Kind::LongAdd)
    } else if is_name(name, b"MULTIPLY") {
        Some(Kind::Multiply)
    } else if is_name(name, b"DIVIDE") {
        Some(Kind::Divide)
    } else if is_name(name, b"INCREMENT") {
        Some(Kind::Increment)
    } else {
        None
    }
}

/// The text of an instruction.
fn instruction_line(rest: Option<&[u8]>) -> Option<LineOf<'_>>
    ensures { option_map said result ≡ instruction_in (option_map (λ r. r.now) rest.entry) }
{
    let bytes = rest?;
    let Some(instr) = instruction_of_text(bytes) else {
        return None;
    };
    Some(LineOf::Instruction(ReadText { bytes, instr }))
}

/// The first line of a document, of each version.
fn header_line(rest: Option<&[u8]>) -> Option<LineOf<'_>>
    ensures { option_map said result ≡ header_in (option_map (λ r. r.now) rest.entry) }
{
    let name = rest?;
    if is_name(name, b"CERTIFICATE 1") {
        Some(LineOf::Header(Version::BoundsAlone))
    } else if is_name(name, b"CERTIFICATE 2") {
        Some(LineOf::Header(Version::EarlierNodes))
    } else if is_name(name, b"CERTIFICATE 3") {
        Some(LineOf::Header(Version::StandingNodes))
    } else if is_name(name, b"CERTIFICATE 4") {
        Some(LineOf::Header(Version::FactLines))
    } else if is_name(name, b"CERTIFICATE 5") {
        Some(LineOf::Header(Version::Suppositions))
    } else {
        None
    }
}

/// A line, if nothing follows its word.
fn alone_line<'a>(line: LineOf<'a>, rest: Option<&'a [u8]>) -> Option<LineOf<'a>>
    ensures { option_map said result ≡ alone (said line.entry) (option_map (λ r. r.now) rest.entry) }
{
    match rest {
        None => Some(line),
        Some(_) => None,
    }
}

fn split_line<'a>(
    rest: Option<&[u8]>,
    room: &'a mut ArrayVec<u8, BLOCK_LIMIT>,
) -> Option<LineOf<'a>>
    ensures { option_map said result ≡
        option_map (λ ns. OfTree (AtSplit ns)) (block_numbers BLOCK_LIMIT (option_map (λ r. r.now) rest.entry)) }
{
    Some(LineOf::OfTree(TreeLine::Split(block_numbers(rest, room)?)))
}

fn chain_line<'a>(
    rest: Option<&[u8]>,
    room: &'a mut ArrayVec<u8, BLOCK_LIMIT>,
) -> Option<LineOf<'a>>
    ensures { option_map said result ≡ option_map (λ ns. OfTree (AtTerminal (Bounding (Chain ns))))
        (block_numbers BLOCK_LIMIT (option_map (λ r. r.now) rest.entry)) }
{
    Some(LineOf::OfTree(TreeLine::Chain(block_numbers(rest, room)?)))
}

fn dominated_line<'a>(
    rest: Option<&[u8]>,
    room: &'a mut ArrayVec<u8, BLOCK_LIMIT>,
) -> Option<LineOf<'a>>
    ensures { option_map said result ≡ option_map (λ ns. OfTree (AtTerminal (Dominated ns)))
        (block_numbers BLOCK_LIMIT (option_map (λ r. r.now) rest.entry)) }
{
    Some(LineOf::OfTree(TreeLine::Dominated(block_numbers(rest, room)?)))
}

fn next_line(rest: Option<&[u8]>) -> Option<LineOf<'_>>
    ensures { option_map said result ≡
        option_map (λ n. OfTree (AtTerminal (Factual (Next n)))) (one_number 1 BLOCK_LIMIT (option_map (λ r. r.now) rest.entry)) }
{
    let number = number(rest, 1, BLOCK_LIMIT as u32)?;
    Some(LineOf::OfTree(TreeLine::Factual(FactLeaf::Next(number as u8))))
}

fn turned_line(rest: Option<&[u8]>) -> Option<LineOf<'_>>
    ensures { option_map said result ≡ pair_with (λ n m. OfTree (AtTerminal (Factual (Turned n m))))
        (two_numbers BLOCK_LIMIT (option_map (λ r. r.now) rest.entry)) }
{
    match two_numbers(rest)?.as_slice() {
        [first, second] => Some(LineOf::OfTree(TreeLine::Factual(FactLeaf::Turned(
            *first, *second,
        )))),
        _ => None,
    }
}

fn at_line(rest: Option<&[u8]>) -> Option<LineOf<'_>>
    ensures { option_map said result ≡ option_map (λ n. OfTree (AtTerminal (Factual (AtLine n))))
        (one_number 1 LINE_LIMIT (option_map (λ r. r.now) rest.entry)) }
{
    let line = number(rest, 1, LINE_LIMIT)?;
    Some(LineOf::OfTree(TreeLine::Factual(FactLeaf::AtLine(line))))
}

/// A leaf of a load: a minor cycle, at most `TIME_LIMIT`, and numbers of instructions of a block.
fn load_from_line<'a>(
    rest: Option<&[u8]>,
    room: &'a mut ArrayVec<u8, BLOCK_LIMIT>,
) -> Option<LineOf<'a>>
    ensures { option_map said result ≡ load_from_in BLOCK_LIMIT (option_map (λ r. r.now) rest.entry) }
{
    let (after, rest) = next_word(rest);
    let after = number(after, 0, TIME_LIMIT)?;
    let numbers = block_numbers(rest, room)?;
    Some(LineOf::OfTree(TreeLine::Factual(FactLeaf::LoadFrom(after, numbers))))
}

fn pair_line(rest: Option<&[u8]>) -> Option<LineOf<'_>>
    ensures { option_map said result ≡
        pair_with (λ n m. OfFact (step.Fact (fact.Pair n m))) (two_numbers BLOCK_LIMIT (option_map (λ r. r.now) rest.entry)) }
{
    match two_numbers(rest)?.as_slice() {
        [first, second] => Some(LineOf::OfFact(FactStep::Fact(FactLine::Pair(*first, *second)))),
        _ => None,
    }
}

fn suppose_line(rest: Option<&[u8]>) -> Option<LineOf<'_>>
    ensures { option_map said result ≡
        pair_with (λ n m. OfFact (step.Suppose n m)) (two_numbers BLOCK_LIMIT (option_map (λ r. r.now) rest.entry)) }
{
    match two_numbers(rest)?.as_slice() {
        [first, second] => Some(LineOf::OfFact(FactStep::Suppose(*first, *second))),
        _ => None,
    }
}

/// The next word, if there is one, and what comes after its blank.
fn next_word(rest: Option<&[u8]>) -> (Option<&[u8]>, Option<&[u8]>)
    ensures word { option_map (λ r. r.now) result.0 ≡ word_in (option_map (λ r. r.now) rest.entry) }
    ensures rest { option_map (λ r. r.now) result.1 ≡ rest_in (option_map (λ r. r.now) rest.entry) }
{
    match rest {
        None => (None, None),
        Some(bytes) => {
            let (word, more) = split_word(bytes);
            (Some(word), more)
        }
    }
}

/// The issue or the start of an instruction.
fn stage_in(word: &[u8]) -> Option<Moment>
    ensures { result ≡ stage_in BLOCK_LIMIT word.now }
{
    let (letter, digits) = word.split_first()?;
    if *letter == b'I' {
        let number = number_in(digits, 1, BLOCK_LIMIT as u32)?;
        return Some(Moment::At(number as u8, Stage::Issue));
    }
    if *letter == b'S' {
        let number = number_in(digits, 1, BLOCK_LIMIT as u32)?;
        return Some(Moment::At(number as u8, Stage::Start));
    }
    None
}

/// What a load may come after.
fn front_in(word: Option<&[u8]>) -> Option<Moment>
    ensures { result ≡ front_in BLOCK_LIMIT (option_map (λ r. r.now) word.entry) }
{
    let name = word?;
    if is_name(name, b"0") {
        return Some(Moment::Origin);
    }
    stage_in(name)
}

/// What a load may come before.
fn back_in(word: Option<&[u8]>) -> Option<Moment>
    ensures { result ≡ back_in BLOCK_LIMIT (option_map (λ r. r.now) word.entry) }
{
    let name = word?;
    if is_name(name, b"END") {
        return Some(Moment::End);
    }
    stage_in(name)
}

fn load_fact<'a>(rest: Option<&[u8]>) -> Option<LineOf<'a>>
    ensures { option_map said result ≡ load_in BLOCK_LIMIT (option_map (λ r. r.now) rest.entry) }
{
    let (from, rest) = next_word(rest);
    let (to, rest) = next_word(rest);
    let (after, rest) = next_word(rest);
    let (wait, rest) = next_word(rest);
    let line = LoadLine {
        from: front_in(from)?,
        to: back_in(to)?,
        after: number(after, 0, TIME_LIMIT)?,
        wait: number(wait, 0, TIME_LIMIT)?,
        numbers: some_numbers(rest)?,
    };
    Some(LineOf::OfFact(FactStep::Fact(FactLine::Load(line))))
}

fn order_line<'a>(
    rest: Option<&[u8]>,
    room: &'a mut ArrayVec<u8, BLOCK_LIMIT>,
) -> Option<LineOf<'a>>
    ensures { option_map said result ≡
        option_map line.Order (block_numbers BLOCK_LIMIT (option_map (λ r. r.now) rest.entry)) }
{
    Some(LineOf::Order(block_numbers(rest, room)?))
}

fn profile_line(rest: Option<&[u8]>) -> Option<LineOf<'_>>
    ensures { option_map said result ≡ option_map line.Profile (profile_in (option_map (λ r. r.now) rest.entry)) }
{
    Some(LineOf::Profile(profile_in(rest)?))
}

fn load_line(rest: Option<&[u8]>) -> Option<LineOf<'_>>
    ensures { option_map said result ≡
        option_map (λ kind. OfTree (AtTerminal (Bounding (Load kind)))) (kind_in (option_map (λ r. r.now) rest.entry)) }
{
    Some(LineOf::OfTree(TreeLine::Load(kind_in(rest)?)))
}

fn block_line(rest: Option<&[u8]>) -> Option<LineOf<'_>>
    ensures { option_map said result ≡
        option_map line.Block (one_number 1 BLOCK_LIMIT (option_map (λ r. r.now) rest.entry)) }
{
    Some(LineOf::Block(number(rest, 1, BLOCK_LIMIT as u32)?))
}

fn time_line(rest: Option<&[u8]>) -> Option<LineOf<'_>>
    ensures { option_map said result ≡
        option_map line.Time (one_number 0 TIME_LIMIT (option_map (λ r. r.now) rest.entry)) }
{
    Some(LineOf::Time(number(rest, 0, TIME_LIMIT)?))
}

fn bound_line(rest: Option<&[u8]>) -> Option<LineOf<'_>>
    ensures { option_map said result ≡
        option_map line.Bound (one_number 0 TIME_LIMIT (option_map (λ r. r.now) rest.entry)) }
{
    Some(LineOf::Bound(number(rest, 0, TIME_LIMIT)?))
}

/// What a line says, or that it is no line of a document. The numbers of a line that has some are put into this room.
pub(crate) fn line_of<'a>(
    bytes: &'a [u8],
    room: &'a mut ArrayVec<u8, BLOCK_LIMIT>,
) -> Option<LineOf<'a>>
    ensures { option_map said result ≡ line_read BLOCK_LIMIT bytes.now }
{
    let (name, rest) = split_word(bytes);
    if is_name(name, b"T") {
        return alone_line(LineOf::OfTree(TreeLine::Whole), rest);
    }
    if is_name(name, b"S") {
        return split_line(rest, room);
    }
    if is_name(name, b"C") {
        return chain_line(rest, room);
    }
    if is_name(name, b"D") {
        return dominated_line(rest, room);
    }
    if is_name(name, b"U") {
        return load_line(rest);
    }
    if is_name(name, b"P") {
        return alone_line(LineOf::OfTree(TreeLine::Parcels), rest);
    }
    if is_name(name, b"E") {
        return next_line(rest);
    }
    if is_name(name, b"R") {
        return turned_line(rest);
    }
    if is_name(name, b"N") {
        return at_line(rest);
    }
    if is_name(name, b"L") {
        return load_from_line(rest, room);
    }
    if is_name(name, b"F") {
        return pair_line(rest);
    }
    if is_name(name, b"A") {
        return load_fact(rest);
    }
    if is_name(name, b"B") {
        return suppose_line(rest);
    }
    if is_name(name, b"Q") {
        return alone_line(LineOf::OfFact(FactStep::Refuted), rest);
    }
    if is_name(name, b"I") {
        return instruction_line(rest);
    }
    if is_name(name, b"S66") {
        return header_line(rest);
    }
    if is_name(name, b"PROFILE") {
        return profile_line(rest);
    }
    if is_name(name, b"BLOCK") {
        return block_line(rest);
    }
    if is_name(name, b"TIME") {
        return time_line(rest);
    }
    if is_name(name, b"BOUND") {
        return bound_line(rest);
    }
    if is_name(name, b"ORDER") {
        return order_line(rest, room);
    }
    if is_name(name, b"END") {
        return alone_line(LineOf::End, rest);
    }
    None
}
