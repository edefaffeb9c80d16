//! Which text a command writes for what it reads (`output_for`): one case for each subcommand.

ghost use Rattle.std.specs.Prelude.{◌≡◌, false, true, IfOk, IfErr};
ghost use Rattle.s66_command.specs.{reads_cut, reads_of};
ghost use Rattle.s66_command.specs.declared.command.Reads.TheVariants as reads;
ghost use Rattle.s66_program.specs.{IsAskedOutput, IsOutput, shows_blocks, IsViewOutput, IsRemark, prints_orders, IsRefusal};

use crate::chart_text::chart_output;
use crate::check_text::check_output;
use crate::compare_text::{View, compare_output};
use crate::deps_text::deps_output;
use crate::fault::Fault;
use crate::guard_text::guard_output;
use crate::json_text::json_output;
use crate::lint_text::lint_output;
use crate::order_text::ordered_output;
use crate::page_text::page_output;
use crate::prove_text::prove_output;
use crate::remark::{
    Finished, Missing, listed_of_halves, missing_of_documents, remark_of, remark_with,
};
use crate::sum_text::sum_output;
use crate::time_text::time_output;
use crate::why_text::why_output;
use s66_answer::{Observer, Output};
use s66_command::{Asked, Command};
use s66_isa::Profile;
use s66_source::{Source, read_source_with};
use std::alloc::{AllocError, Global};
use std::sync::Wait;
use std::thread::Threads;

/// What is written for a source under a profile, by what is asked for. `Err` is out of memory.
fn output_of<R: AllocGlobal + Threads + Wait + Sync, O: Observer>(
    rt: &R,
    command: Command,
    profile: &Profile,
    source: &Source,
    observer: &mut O,
) -> Result<Output, AllocError>
    requires shows { shows_blocks command.asked ≡ true }
    ensures { IfOk result (λ output.
        IsAskedOutput profile.now command.entry.asked command.entry.block source.now output.text.items output.status) }
{
    let alloc = rt.alloc();
    let only = command.block;
    match command.asked {
        Asked::Time { trace } => time_output(alloc, profile, trace, only, source),
        Asked::Deps { text } => deps_output(alloc, profile, text, only, source),
        Asked::Chart { text, units } => { chart_output(alloc, profile, text, units, only, source) },
        Asked::Why { order, text } => why_output(rt, source, order, text, only, profile, observer),
        Asked::Json { order } => json_output(rt, source, order, only, profile, observer),
        Asked::Page { strategy } => page_output(rt, source, only, profile, strategy, observer),
        Asked::Order { strategy, style } => {
            ordered_output(rt, source, only, profile, strategy, style, observer)
        }
        Asked::Prove { strategy } => prove_output(rt, source, only, profile, strategy, observer),
        Asked::Sum { strategy, style } => {
            sum_output(rt, source, profile, strategy, style, only, observer)
        }
        Asked::Check { .. } | Asked::Lint | Asked::Compare { .. } | Asked::Pairs | Asked::Guard =>
            unreachable!(),
    }
}

/// What a command that shows the blocks of a source writes for an input under a profile, and what is told after that, or why the input
/// was refused.
fn source_output<R: AllocGlobal + Threads + Wait + Sync, O: Observer>(
    rt: &R,
    command: Command,
    profile: &Profile,
    input: &[u8],
    observer: &mut O,
) -> Result<Finished, Fault>
    requires reads { reads_of command.asked ≡ reads.Source }
    requires shows { shows_blocks command.asked ≡ true }
    ensures ok { IfOk result (λ finished.
        IsOutput profile.now command.entry input.now finished.output.text.items finished.output.status) }
    ensures remark { IfOk result (λ finished.
        IsRemark command.entry input.now finished.output.text.items finished.remark) }
    ensures err { IfErr result (IsRefusal command.entry input.now) }
{
    let source = read_source_with(rt.alloc(), command.reads_cut(), input)?;
    let remark = remark_of(rt.alloc(), command, &source, input)?;
    let output = output_of(rt, command, profile, &source, observer)?;
    Ok(Finished { output, remark })
}

/// What a command that shows two sources so writes for an input under a profile, and what is told after that, or why the input was
/// refused.
fn sources_output(
    alloc: Global,
    command: Command,
    profile: &Profile,
    view: View,
    input: &[u8],
) -> Result<Finished, Fault>
    requires prints { prints_orders command ≡ false }
    requires reads { reads_of command.asked ≡ reads.Sources }
    ensures ok { IfOk result (λ finished.
        IsViewOutput profile.now view (reads_cut command.entry) input.now finished.output.text.items finished.output.status) }
    ensures remark { IfOk result (λ finished.
        IsRemark command.entry input.now finished.output.text.items finished.remark) }
    ensures err { IfErr result (IsRefusal command.entry input.now) }
{
    let listed = listed_of_halves(alloc, command, input)?;
    let remark = remark_with(command, Missing::Nothing, listed);
    let output = compare_output(alloc, command.reads_cut(), profile, view, input)?;
    Ok(Finished { output, remark })
}

/// What a command writes for an input under a profile, and what is told after that, or why the input was refused; no other fault than
/// `Source`, `NewSource`, `NoNewSource`, `Document` and `Memory`. The observer is called as the work goes on, and not at the end.
pub(crate) fn output_for<R: AllocGlobal + Threads + Wait + Sync, O: Observer>(
    rt: &R,
    command: Command,
    profile: &Profile,
    input: &[u8],
    observer: &mut O,
) -> Result<Finished, Fault>
    ensures ok { IfOk result (λ finished.
        IsOutput profile.now command.entry input.now finished.output.text.items finished.output.status) }
    ensures remark { IfOk result (λ finished.
        IsRemark command.entry input.now finished.output.text.items finished.remark) }
    ensures err { IfErr result (IsRefusal command.entry input.now) }
{
    let alloc = rt.alloc();
    match command.asked {
        Asked::Check { text } => {
            let remark = remark_with(command, missing_of_documents(input), 0);
            let output = check_output(alloc, text, input, observer)?;
            Ok(Finished { output, remark })
        }
        Asked::Lint => {
            let remark = remark_with(command, Missing::Nothing, 0);
            let output = lint_output(alloc, input, command.reads_cut())?;
            Ok(Finished { output, remark })
        }
        Asked::Compare { text } => sources_output(
            alloc,
            command,
            profile,
            View::InLines { text },
            input,
        ),
        Asked::Pairs => sources_output(alloc, command, profile, View::InPairs, input),
        Asked::Guard => guard_output(alloc, command, input),
        _ => source_output(rt, command, profile, input, observer),
    }
}
