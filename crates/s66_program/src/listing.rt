//! What is printed of each block of a source as it was written, one after the other: the loop that `time`, `deps`, `chart`, `why` and
//! `json` share.

ghost use Rattle.std.specs.Prelude.{◌≡◌, ◌<◌, ◌^◌, ◌++◌, ℕ, List, OnOk, IfOk};
ghost use Rattle.s66_isa.specs.{Profile as ProfileOf};
ghost use Rattle.s66_line.specs.{Block as BlockOf};
ghost use Rattle.s66_program.specs.Listing.{IsListing, lines_of_blocks};

use s66_answer::{Output, Status, blocks_before, shown};
use s66_isa::Profile;
use s66_line::Block;
use s66_source::Source;
use s66_time::Timer;
use std::alloc::{AllocError, Global};

/// What is printed of a block as it was written.
pub(crate) trait Listing {
    ghost lines: { Self → ProfileOf → ℕ → BlockOf → List ℕ };

    /// Appends the lines of a block, whose number is from 1, under the timer's profile.
    fn push_lines(
        &self,
        alloc: Global,
        out: &mut Vec<u8>,
        timer: &mut Timer,
        number: usize,
        block: &Block,
    ) -> Result<(), AllocError>
        ensures profile { timer.new ≡ timer.old }
        ensures lines { OnOk result (out.new.items ≡ out.old.items ++ lines self.now timer.old number block.now) };
}

/// The lines of these blocks, before which so many come, and all of which one timer times.
fn text_of_blocks<L: Listing>(
    alloc: Global,
    profile: &Profile,
    listing: &L,
    before: usize,
    blocks: &[Block],
) -> Result<Vec<u8>, AllocError>
    requires { before < 2 ^ 32 }
    ensures { IfOk result (λ text. text.items ≡ lines_of_blocks (L.lines listing.now profile.now) before blocks.now) }
{
    let mut timer = Timer::new(profile);
    let mut out = Vec::new(alloc);
    for (i, block) in blocks.iter().enumerate() {
        let number = before + i + 1;
        listing.push_lines(alloc, &mut out, &mut timer, number, block)?;
    }
    Ok(out)
}

/// The listing of a source's blocks, or of the only one that is printed. `Err` is out of memory.
pub(crate) fn listing_output<L: Listing>(
    alloc: Global,
    profile: &Profile,
    listing: &L,
    only: Option<u32>,
    source: &Source,
) -> Result<Output, AllocError>
    ensures { IfOk result (λ output.
        IsListing (L.lines listing.now profile.now) only source.now output.text.items output.status) }
{
    let blocks = shown(source.blocks(), only);
    Ok(Output {
        text: text_of_blocks(alloc, profile, listing, blocks_before(only), blocks)?,
        status: Status::Done,
    })
}
