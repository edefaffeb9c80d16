//! What is kept of the answers to all blocks of a source that are shown (`keep_answers`), and how the command ends by that.

ghost use Rattle.std.specs.Prelude.{IfOk};
ghost use Rattle.s66_answer.specs.{AreAnswered};

use crate::kept::{Keep, Searches, keep_each};
use crate::observer::Observer;
use crate::outcome::{Output, Status, status_by};
use crate::selection::{blocks_before, shown};
use s66_command::Strategy;
use s66_isa::Profile;
use s66_source::Source;
use std::alloc::AllocError;
use std::sync::Wait;
use std::thread::Threads;

/// What is kept of answers to the blocks of a source that are shown, one after the other, and how the command ends.
#[derive(Drop)]
pub struct Answered<X> {
    pub parts: Vec<X>,
    pub status: Status,
}

/// What is kept of an answer to each block of a source under a profile, or to the only one that is printed. Numbers are those of the
/// source. `Err` is out of memory.
pub fn keep_answers<
    R: AllocGlobal + Threads + Wait + Sync,
    X: Send + Drop,
    K: Keep<X> + Sync,
    O: Observer,
>(
    rt: &R,
    what: &K,
    source: &Source,
    only: Option<u32>,
    profile: &Profile,
    strategy: Strategy,
    observer: &mut O,
) -> Result<Answered<X>, AllocError>
    ensures { IfOk result (λ all. AreAnswered
        (K.part what.now strategy profile.now) strategy profile.now only source.now all.parts.items all.status) }
{
    let blocks = shown(source.blocks(), only);
    let searches = Searches {
        alloc: rt.alloc(),
        what,
        before: blocks_before(only),
        blocks,
        profile,
        strategy,
    };
    let kept = keep_each(rt, &searches, observer)?;
    Ok(Answered {
        parts: kept.parts,
        status: status_by(kept.bounded, blocks.len()),
    })
}

/// The text that is kept of an answer to each block of a source, or to the only one that is printed.
pub fn text_of_answers<R: AllocGlobal + Threads + Wait + Sync, K: Keep<u8> + Sync, O: Observer>(
    rt: &R,
    what: &K,
    source: &Source,
    only: Option<u32>,
    profile: &Profile,
    strategy: Strategy,
    observer: &mut O,
) -> Result<Output, AllocError>
    ensures { IfOk result (λ output. AreAnswered
        (K.part what.now strategy profile.now) strategy profile.now only source.now output.text.items output.status) }
{
    let all = keep_answers(rt, what, source, only, profile, strategy, observer)?;
    Ok(Output {
        text: all.parts,
        status: all.status,
    })
}
