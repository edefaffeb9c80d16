//! Runs a command (`run_command`): reads its profile and its input, makes all text, and only then writes.

ghost use Rattle.std.specs.Prelude.{true, ◌≡◌, ◌-◌, ◌^◌, ◌<◌, IfOk, IfErr, IfSome};
ghost use Rattle.s66_program.specs.{IsUnder, reads_source, SOURCE_FRONT, IsOutcome, IsOutcomeUnder, IsProfileFault};

use crate::fault::Fault;
use crate::limits::SOURCE_FRONT;
use crate::output::output_for;
use crate::reading::read_all;
use crate::remark::{Ended, raised};
use s66_answer::Observer;
use s66_command::{Command, Reads, read_profile};
use s66_device::{Feed, Sink, write_all};
use s66_isa::Profile;
use std::alloc::Global;
use std::sync::Wait;
use std::thread::Threads;

/// The profile that a command asks for.
fn profile_of(alloc: Global, command: Command) -> Result<Profile, Fault>
    ensures ok { IfOk result (IsUnder command.entry) }
    ensures err { IfErr result (IsProfileFault command.entry) }
{
    match command.profile {
        Some(text) => Ok(read_profile(alloc, text)?),
        None => Ok(Profile::standard()),
    }
}

/// How many bytes of an input a command needs at most; None if it needs all. A source of more bytes is refused, for a reason that
/// these show.
fn most_kept(command: Command) -> Option<usize>
    ensures { IfSome result (λ most. (most ≡ SOURCE_FRONT) × (reads_source command.entry.asked ≡ true)) }
{
    match command.asked.reads() {
        Reads::Source => Some(SOURCE_FRONT),
        _ => None,
    }
}

/// Runs a command under a profile: reads to the end, builds all text, and only then writes.
fn run_under<R: AllocGlobal + Threads + Wait + Sync, F: Feed, S: Sink, O: Observer>(
    rt: &R,
    command: Command,
    profile: &Profile,
    reader: &mut F,
    writer: &mut S,
    observer: &mut O,
) -> Result<Ended, Fault>
    requires reads { (F.seen reader.old).failures < 2 ^ 64 - 1 }
    requires writes { (S.seen writer.old).failures < 2 ^ 64 - 1 }
    ensures { IsOutcomeUnder profile.now command.entry (F.seen reader.old) (F.seen reader.new) (S.seen writer.old)
        (S.seen writer.new) result }
{
    let held = read_all(rt.alloc(), reader, most_kept(command))?;
    let finished = output_for(rt, command, profile, held.as_slice(), observer);
    observer.ended();
    let finished = finished?;
    match write_all(writer, finished.output.text.as_slice()) {
        Ok(()) => Ok(Ended {
            status: raised(command, finished.remark, finished.output.status),
            remark: finished.remark,
        }),
        Err(_) => Err(Fault::Write),
    }
}

/// Runs a command: reads to the end, builds all text, and only then writes. Returns what is to be told, and `Bounded` with their number
/// if a search left blocks only bounded, `Denied` if `check` has a verdict that isn't yes or no document although it has to have one,
/// `lint` lists a line that is refused or `compare` finds more than legal orders, `Listed` if `lint` lists other lines alone, or a strict
/// `compare` tells of lines that it would list, and else `Done`. An observer is called as the work goes on, and when it has ended, before
/// anything is written; what it does changes nothing of what is written and returned.
///
/// Errors: `Profile` if the text for the profile gives none, and then nothing was read; `Source` or `Document` if the source or
/// the documents were refused, with the reason; `Memory` if memory ran out; `Read` if the reader failed or none of `FEED_CALLS`
/// calls gave the end; `Write` if the writer failed. Nothing is written but at `Write`, which leaves a beginning of the text.
pub fn run_command<R: AllocGlobal + Threads + Wait + Sync, F: Feed, S: Sink, O: Observer>(
    rt: &R,
    command: Command,
    reader: &mut F,
    writer: &mut S,
    observer: &mut O,
) -> Result<Ended, Fault>
    requires reads { (F.seen reader.old).failures < 2 ^ 64 - 1 }
    requires writes { (S.seen writer.old).failures < 2 ^ 64 - 1 }
    ensures { IsOutcome command.entry (F.seen reader.old) (F.seen reader.new) (S.seen writer.old)
        (S.seen writer.new) result }
{
    let profile = profile_of(rt.alloc(), command)?;
    run_under(rt, command, &profile, reader, writer, observer)
}
