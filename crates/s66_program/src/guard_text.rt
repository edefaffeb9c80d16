//! What `guard` writes: the source with switches, and what is told of them.

ghost use Rattle.std.specs.Prelude.{◌≡◌, true, IfErr, IfOk};
ghost use Rattle.s66_isa.specs.{Profile};
ghost use Rattle.s66_command.specs.{Guard};
ghost use Rattle.s66_answer.specs.{Done};
ghost use Rattle.s66_program.specs.declared.remark.Missing.TheVariants.{Nothing};
ghost use Rattle.s66_program.specs.{IsOutput, IsRemark, IsRefusal};

use crate::fault::Fault;
use crate::remark::{Finished, Missing, Remark};
use s66_answer::{Output, Status};
use s66_command::Command;
use s66_lint::{Guarded, guard_text};
use s66_source::read_source_with;
use std::alloc::Global;

/// A source with switches around lines, and what is told of it.
fn finished_with(guarded: Guarded) -> Finished
    ensures text { result.output.text ≡ guarded.text }
    ensures status { result.output.status ≡ Done }
    ensures remark { result.remark ≡
        record { missing = Nothing; cut = true; listed = 0; regions = guarded.regions; lines = guarded.lines } }
{
    Finished {
        output: Output {
            text: guarded.text,
            status: Status::Done,
        },
        remark: Remark {
            missing: Missing::Nothing,
            cut: true,
            listed: 0,
            regions: guarded.regions,
            lines: guarded.lines,
        },
    }
}

/// A source with switches around the code that `order --cut` could harm, and what is told of it, or why the source was refused.
pub(crate) fn guard_output(alloc: Global, command: Command, input: &[u8]) -> Result<Finished, Fault>
    requires { command.asked ≡ Guard }
    ensures ok { (p : Profile) → IfOk result (λ finished.
        IsOutput p command.entry input.now finished.output.text.items finished.output.status) }
    ensures remark { IfOk result (λ finished.
        IsRemark command.entry input.now finished.output.text.items finished.remark) }
    ensures err { IfErr result (IsRefusal command.entry input.now) }
{
    let _source = read_source_with(alloc, command.reads_cut(), input)?;
    let guarded = guard_text(alloc, input)?;
    Ok(finished_with(guarded))
}
