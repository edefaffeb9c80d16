//! A chart of a timed order: a row of letters for each instruction (`push_chart`), or with texts before the rows and a ruler above
//! (`push_text_chart`). One row is drawn in `row.rt`.

ghost use Rattle.std.specs.Prelude.{◌≡◌, ◌*◌, ◌^◌, ◌<◌, ◌≤◌, ◌++◌, OnOk, flat_map, length};
ghost use Rattle.std.specs.List.{range_with_len};
ghost use Rattle.s66_line.specs.{instrs_of, TEXT_LIMIT};
ghost use Rattle.s66_why.specs.{chart_text, has_filler, instruction_row, before_row, no_row_in, row_in, rows_in, chart_in_places, in_ten, ruler, text_chart};

use crate::activity::Activity;
use crate::places::{push_blanks, push_in_places, text_width};
use crate::row::{NAME_ROOM, push_row};
use itoa::Buffer;
use s66_device::push_field;
use s66_line::Block;
use s66_time::Timed;
use std::alloc::AllocError;

/// A number on the left of ten places.
fn push_in_ten(out: &mut Vec<u8>, number: usize) -> Result<(), AllocError>
    ensures { OnOk result (out.new.items ≡ out.old.items ++ in_ten number) }
{
    let mut buffer = Buffer::new();
    let digits = buffer.format(number).as_bytes();
    out.extend_from_slice(digits)?;
    push_blanks(out, 10usize.saturating_sub(digits.len()))
}

/// The numbers of as many tens, from 0, each on the left of ten places.
fn push_tens(out: &mut Vec<u8>, count: usize) -> Result<(), AllocError>
    requires { count < 2 ^ 32 }
    ensures { OnOk result (out.new.items ≡ out.old.items ++
        flat_map (λ ten. in_ten (10 * ten)) (range_with_len 0 count)) }
{
    for ten in 0..count {
        push_in_ten(out, 10 * ten)?;
    }
    Ok(())
}

/// The ruler above rows whose texts need this many places.
fn push_ruler(out: &mut Vec<u8>, width: usize, cycles: u32) -> Result<(), AllocError>
    requires { width ≤ TEXT_LIMIT }
    ensures { OnOk result (out.new.items ≡ out.old.items ++ ruler width cycles) }
{
    let tens = cycles as usize / 10;
    push_blanks(out, width + 1 + NAME_ROOM + 1)?;
    push_tens(out, tens)?;
    push_field(out, b"", 10 * tens)?;
    out.extend_from_slice(b"\n")
}

/// How many instructions an order has.
fn count(timed: &Timed) -> usize
    ensures { result ≡ length timed.now.numbers }
{
    timed.order().numbers().len()
}

/// Whether a `NO` is between the instruction at a position and the next one.
fn has_filler(timed: &Timed, position: usize) -> bool
    requires { position < length timed.now.numbers }
    ensures { result ≡ has_filler timed.now position }
{
    if count(timed) == position + 1 {
        return false;
    }
    let end = timed.at(position).parcel as usize + timed.parcels(position) as usize;
    timed.at(position + 1).parcel as usize != end
}

/// Appends a text in as many places as are given for it, if any are.
fn push_before(out: &mut Vec<u8>, places: Option<usize>, text: &[u8]) -> Result<(), AllocError>
    ensures { OnOk result (out.new.items ≡ out.old.items ++ before_row places text.now) }
{
    match places {
        None => Ok(()),
        Some(width) => push_in_places(out, text, width),
    }
}

/// Appends the row of the instruction at a position.
fn push_instruction(out: &mut Vec<u8>, timed: &Timed, position: usize) -> Result<(), AllocError>
    requires { position < length timed.now.numbers }
    ensures { OnOk result (out.new.items ≡ out.old.items ++ instruction_row timed.now position) }
{
    let activity = Activity::of_instruction(timed, position);
    let mut buffer = Buffer::new();
    let number = buffer.format(timed.number(position));
    push_row(out, number.as_bytes(), &activity, timed.total())
}

/// Appends the row of the instruction at a position, after its text.
fn push_text_row(
    out: &mut Vec<u8>,
    block: &Block,
    places: Option<usize>,
    timed: &Timed,
    position: usize,
) -> Result<(), AllocError>
    requires block { timed.now.problem.block ≡ instrs_of block.now }
    requires position { position < length timed.now.numbers }
    ensures { OnOk result (out.new.items ≡ out.old.items ++ row_in places block.now timed.now position) }
{
    let number = timed.order().numbers()[position];
    let text = block.text(number as usize);
    push_before(out, places, text.as_slice())?;
    push_instruction(out, timed, position)
}

/// Appends the row of the `NO` after the instruction at a position, if there is one.
fn push_blank_row(
    out: &mut Vec<u8>,
    places: Option<usize>,
    timed: &Timed,
    position: usize,
) -> Result<(), AllocError>
    requires { position < length timed.now.numbers }
    ensures { OnOk result (out.new.items ≡ out.old.items ++ no_row_in places timed.now position) }
{
    if !has_filler(timed, position) {
        return Ok(());
    }
    let activity = Activity::of_filler(timed, position);
    push_before(out, places, b"")?;
    push_row(out, b"NO", &activity, timed.total())
}

/// Appends the rows of all positions, each after its text in as many places as are given, if any are.
fn push_rows(
    out: &mut Vec<u8>,
    block: &Block,
    places: Option<usize>,
    timed: &Timed,
) -> Result<(), AllocError>
    requires { timed.now.problem.block ≡ instrs_of block.now }
    ensures { OnOk result (out.new.items ≡ out.old.items ++ rows_in places block.now timed.now) }
{
    for position in 0..count(timed) {
        push_text_row(out, block, places, timed, position)?;
        push_blank_row(out, places, timed, position)?;
    }
    Ok(())
}

/// Appends a timed order of a block as a picture. Each instruction has a row, in order, and so has each `NO` between two of them. Each
/// minor cycle of 100 ns from the first issue to the end has a column.
///
/// A row is the instruction's number, right in three places, one blank, and a letter for each cycle. `I` it issues, `W` its unit
/// waits for operands or for memory, `=` it works, `H` a result waits for earlier readers of its register, `.` anything else. `Err`
/// is out of memory. It takes time linear in the length of what it appends, and allocates nothing but room in `out`.
pub fn push_chart(out: &mut Vec<u8>, block: &Block, timed: &Timed) -> Result<(), AllocError>
    requires { timed.now.problem.block ≡ instrs_of block.now }
    ensures { OnOk result (out.new.items ≡ out.old.items ++ chart_text timed.now) }
{
    push_rows(out, block, None, timed)
}

/// As `push_chart`, each row after the text of its instruction in this many places, below a ruler.
///
/// A text is on the left of its places, and a blank follows it; the row of a `NO` has none. The ruler has the number of every tenth
/// minor cycle, from 0 to the end, above its column.
pub(crate) fn push_chart_in_places(
    out: &mut Vec<u8>,
    block: &Block,
    width: usize,
    timed: &Timed,
) -> Result<(), AllocError>
    requires block { timed.now.problem.block ≡ instrs_of block.now }
    requires width { width ≤ TEXT_LIMIT }
    ensures { OnOk result (out.new.items ≡ out.old.items ++ chart_in_places width block.now timed.now) }
{
    push_ruler(out, width, timed.total())?;
    push_rows(out, block, Some(width), timed)
}

/// As `push_chart`, each row after the text of its instruction in as many places as the longest of the block needs, below a ruler.
pub fn push_text_chart(out: &mut Vec<u8>, block: &Block, timed: &Timed) -> Result<(), AllocError>
    requires { timed.now.problem.block ≡ instrs_of block.now }
    ensures { OnOk result (out.new.items ≡ out.old.items ++ text_chart block.now timed.now) }
{
    push_chart_in_places(out, block, text_width(block), timed)
}
