//! The program (`run_program`): from words, a reader and writers to a status.

ghost use Rattle.std.specs.Prelude.{◌-◌, ◌^◌, ◌<◌, map};
ghost use Rattle.s66_program.specs.{IsRun};

use crate::run::run_command;
use crate::telling::{show_usage, tell_end, tell_failure};
use s66_answer::Observer;
use s66_command::command_of;
use s66_device::{Feed, Sink};
use std::convert::AsStr;
use std::sync::Wait;
use std::thread::Threads;

/// Runs the command that the words give, of which the first is the program's name, or writes why they give none. Returns the
/// status of the process. What `errors` doesn't take changes neither the status nor what is written; nor does what the observer
/// does, which is called as the command goes on.
pub fn run_program<
    'a,
    R: AllocGlobal + Threads + Wait + Sync,
    W: AsStr,
    F: Feed,
    S: Sink,
    E: Sink,
    O: Observer,
>(rt: &R, words: &'a [W], reader: &mut F, writer: &mut S, errors: &mut E, observer: &mut O) -> u8
    requires reads { (F.seen reader.old).failures < 2 ^ 64 - 1 }
    requires writes { (S.seen writer.old).failures < 2 ^ 64 - 1 }
    requires tells { (E.seen errors.old).failures < 2 ^ 64 - 1 }
    ensures { IsRun (map W.text words.entry.now) (F.seen reader.old) (F.seen reader.new) (S.seen writer.old)
        (S.seen writer.new) (E.seen errors.old) (E.seen errors.new) result }
{
    let command = match command_of(rt.alloc(), words) {
        Ok(command) => command,
        Err(usage) => return show_usage(&usage, writer, errors),
    };
    match run_command(rt, command, reader, writer, observer) {
        Ok(ended) => tell_end(errors, command, &ended),
        Err(fault) => tell_failure(rt.alloc(), errors, command.profile, fault),
    }
}
