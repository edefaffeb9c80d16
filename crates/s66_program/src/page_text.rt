//! What `page` writes: a page of all blocks, with answers and reasons.

ghost use Rattle.std.specs.Prelude.{IfOk};
ghost use Rattle.s66_program.specs.PageText.{IsPageOutput, found_part};

use crate::best_reasons::push_best_reasons;
use crate::entries::{EntryPoint, entries_of, entry_at};
use s66_answer::{BlockAnswer, Keep, Observer, Output, blocks_before, keep_answers, shown};
use s66_command::Strategy;
use s66_isa::Profile;
use s66_source::Source;
use s66_views::{FoundOrder, push_page};
use std::alloc::AllocError;
use std::sync::Wait;
use std::thread::Threads;

/// What a page shows of blocks beside their source orders.
#[derive(Drop)]
struct Views<'e, 'a> {
    /// The names by which all blocks of the source are entered.
    entries: &'e [EntryPoint<'a>],
}

impl<'e, 'a> Keep<FoundOrder> for Views<'e, 'a> {
    ghost part = { λ x. found_part x.entries.now };

    fn prints_documents(&self) -> bool {
        true
    }

    fn keep(&self, parts: &mut Vec<FoundOrder>, answer: BlockAnswer) -> Result<(), AllocError> {
        let entry = Vec::from_slice(answer.alloc, entry_at(self.entries, answer.number))?;
        let order = answer.found.order().duplicate();
        let bound = answer.found.bound();
        let mut reasons = Vec::new(answer.alloc);
        push_best_reasons(&mut reasons, answer)?;
        parts.push(FoundOrder {
            entry,
            order,
            bound,
            reasons,
        })?;
        Ok(())
    }
}

/// A page that shows each block of a source, or the only one that is printed, as it was written and in the best order that a search
/// finds under a profile.
pub(crate) fn page_output<R: AllocGlobal + Threads + Wait + Sync, O: Observer>(
    rt: &R,
    source: &Source,
    only: Option<u32>,
    profile: &Profile,
    strategy: Strategy,
    observer: &mut O,
) -> Result<Output, AllocError>
    ensures { IfOk result (λ output.
        IsPageOutput strategy profile.now only source.now output.text.items output.status) }
{
    let alloc = rt.alloc();
    let entries = entries_of(alloc, source)?;
    let views = Views {
        entries: entries.as_slice(),
    };
    let all = keep_answers(rt, &views, source, only, profile, strategy, observer)?;
    let blocks = shown(source.blocks(), only);
    let mut text = Vec::new(alloc);
    push_page(
        &mut text,
        profile,
        blocks_before(only),
        blocks,
        all.parts.as_slice(),
    )?;
    Ok(Output {
        text,
        status: all.status,
    })
}
