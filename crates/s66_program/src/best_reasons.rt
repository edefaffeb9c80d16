//! The sentences below a best order that say why no order is faster, for `why` and `page`.

ghost use Rattle.std.specs.Prelude.{◌≡◌, ◌++◌, OnOk};
ghost use Rattle.s66_answer.specs.{IsFor, answer_in};
ghost use Rattle.s66_program.specs.{best_reasons};

use s66_answer::BlockAnswer;
use s66_reasons::push_reasons;
use std::alloc::AllocError;

/// Appends the sentences that say why no order of a block is faster, if that of an answer is best; else nothing.
pub(crate) fn push_best_reasons(out: &mut Vec<u8>, answer: BlockAnswer) -> Result<(), AllocError>
    requires { IsFor answer.strategy answer.profile.now answer.block.now answer.found }
    ensures { OnOk result (out.new.items ≡ out.old.items ++
        best_reasons answer.entry.strategy.search.rule answer.entry.profile.now answer.entry.block.now
        (answer_in answer.entry.found)) }
{
    let BlockAnswer {
        alloc,
        block,
        profile,
        strategy,
        found,
        ..
    } = answer;
    if !found.is_best() {
        return Ok(());
    }
    let time = found.time();
    let bound = found.bound();
    let document = found.into_document(alloc, block, profile, strategy)?;
    push_reasons(out, &document, time, bound)
}
