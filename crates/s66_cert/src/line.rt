//! What one line of a document says (`LineOf`). `parse.rt` makes it of bytes, `reader.rt` takes it.

use crate::instruction::ReadText;
use crate::version::Version;
use arrayvec::ArrayVec;
use s66_isa::PROFILE_LENGTH;
use s66_model::TreeLine;
use s66_moments::FactStep;

/// What a line of a document says.
#[derive(Drop)]
pub(crate) enum LineOf<'a> {
    Header(Version),
    Profile(ArrayVec<u8, PROFILE_LENGTH>),
    /// How many instructions the block has.
    Block(u32),
    /// The text of one.
    Instruction(ReadText<'a>),
    Time(u32),
    Bound(u32),
    Order(&'a [u8]),
    OfFact(FactStep),
    OfTree(TreeLine<'a>),
    End,
}
