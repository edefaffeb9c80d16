//! What is written to standard error: faults, mistakes of the command line, and remarks.

ghost use Rattle.std.specs.Prelude.{◌≡◌, ◌-◌, ◌^◌, ◌<◌, ◌++◌, IfOk, codes, option_map, string_bytes};
ghost use Rattle.std.specs.IoError.{error_kind};
ghost use Rattle.s66_command.specs.{hint_in_text};
ghost use Rattle.s66_answer.specs.{status_code};
ghost use Rattle.s66_program.specs.{Tells, EndsAt, EndsByFault, EndsWith, LacksWords, ShowsUsage, IsTold, told_text};

use crate::fault::Fault;
use crate::hint::way_out;
use crate::remark::Ended;
use s66_command::{Command, Usage, profile_hint};
use s66_device::{Sink, write_all};
use std::alloc::{AllocError, Global};
use std::io;

/// Writes a text, as far as the writer takes it.
fn tell<S: Sink>(errors: &mut S, text: &[u8])
    requires { (S.seen errors.old).failures < 2 ^ 64 - 1 }
    ensures { Tells (S.seen errors.old) (S.seen errors.new) text.now }
{
    let _ = write_all(errors, text);
}

/// Writes one text after another, as far as the writer takes them.
fn tell_both<S: Sink>(errors: &mut S, first: &[u8], second: &[u8])
    requires { (S.seen errors.old).failures < 2 ^ 64 - 1 }
    ensures { Tells (S.seen errors.old) (S.seen errors.new) (first.now ++ second.now) }
{
    match write_all(errors, first) {
        Ok(()) => tell(errors, second),
        Err(_) => {}
    }
}

/// Writes the line of a fault and what comes after it, and returns the status.
fn tell_line<S: Sink>(errors: &mut S, fault: Fault, hint: &[u8]) -> u8
    requires { (S.seen errors.old).failures < 2 ^ 64 - 1 }
    ensures { EndsWith hint.now fault (S.seen errors.old) (S.seen errors.new) result }
{
    let mut line = fault.line();
    line.push('\n');
    tell_both(errors, line.as_bytes(), hint);
    fault.code()
}

/// What is wrong with the text of a profile, in a line.
fn hint_line(alloc: Global, text: &str) -> Result<String, AllocError>
    ensures { IfOk result (λ hint. string_bytes hint ≡ hint_in_text text.now ++ codes "\n") }
{
    let mut hint = profile_hint(alloc, text)?;
    hint.push_str("\n")?;
    Ok(hint)
}

/// Writes why a command, which asks for a profile of this text, failed, and returns the status.
pub(crate) fn tell_failure<S: Sink>(
    alloc: Global,
    errors: &mut S,
    profile: Option<&str>,
    fault: Fault,
) -> u8
    requires { (S.seen errors.old).failures < 2 ^ 64 - 1 }
    ensures { EndsByFault (option_map (λ text. text.now) profile.entry) fault (S.seen errors.old)
        (S.seen errors.new) result }
{
    match (fault, profile) {
        (Fault::Profile, Some(text)) => match hint_line(alloc, text) {
            Ok(hint) => tell_line(errors, fault, hint.as_bytes()),
            Err(_) => tell_fault(errors, Fault::Memory),
        },
        _ => tell_line(errors, fault, way_out(fault)),
    }
}

/// Writes a text, if there is one, as far as the writer takes it.
fn tell_any<S: Sink>(errors: &mut S, text: &[u8])
    requires { (S.seen errors.old).failures < 2 ^ 64 - 1 }
    ensures { IsTold text.now (S.seen errors.old) (S.seen errors.new) }
{
    match text {
        [] => {}
        [_, ..] => tell(errors, text),
    }
}

/// Writes what is told of a command that wrote all its text, and returns the status.
pub(crate) fn tell_end<S: Sink>(errors: &mut S, command: Command, ended: &Ended) -> u8
    requires { (S.seen errors.old).failures < 2 ^ 64 - 1 }
    ensures told { IsTold (told_text command.entry ended.now) (S.seen errors.old) (S.seen errors.new) }
    ensures status { result ≡ status_code ended.now.status }
{
    tell_any(errors, ended.text(command).as_bytes());
    ended.status.code()
}

/// Writes the line of a fault, and returns the status.
fn tell_fault<S: Sink>(errors: &mut S, fault: Fault) -> u8
    requires { (S.seen errors.old).failures < 2 ^ 64 - 1 }
    ensures { EndsAt fault (S.seen errors.old) (S.seen errors.new) result }
{
    let mut line = fault.line();
    line.push('\n');
    tell(errors, line.as_bytes());
    fault.code()
}

/// Shows why words are no command, and returns the status.
pub(crate) fn show_usage<S: Sink, E: Sink>(usage: &Usage, writer: &mut S, errors: &mut E) -> u8
    requires writes { (S.seen writer.old).failures < 2 ^ 64 - 1 }
    requires tells { (E.seen errors.old).failures < 2 ^ 64 - 1 }
    ensures { ShowsUsage usage.now (S.seen writer.old) (S.seen writer.new) (E.seen errors.old)
        (E.seen errors.new) result }
{
    match usage {
        Usage::Help(text) => {
            if write_all(writer, text.as_bytes()).is_err() {
                return tell_fault(errors, Fault::Write);
            }
        }
        Usage::Bad(text) => tell(errors, text.as_bytes()),
        Usage::OutOfMemory => return tell_fault(errors, Fault::Memory),
    }
    usage.code()
}

/// Writes why the process has no words, and returns its status.
pub fn refuse_words<E: Sink>(error: &io::Error, errors: &mut E) -> u8
    requires { (E.seen errors.old).failures < 2 ^ 64 - 1 }
    ensures { LacksWords (error_kind error.now) (E.seen errors.old) (E.seen errors.new) result }
{
    match error.kind() {
        io::ErrorKind::OutOfMemory => tell_fault(errors, Fault::Memory),
        _ => {
            tell(errors, b"error: an argument is not UTF-8\n");
            2
        }
    }
}
