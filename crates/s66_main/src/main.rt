//! The process: its words, its standard streams, and its status. It touches the stack, and passes words, streams and an observer of the
//! terminal to `run_program`; nothing is decided here. Begin at `main.rt`.
#![tactic(auto)]

mod closed_pipe;

use crate::closed_pipe::{Silenced, Watched};
use s66_device::{OverRead, OverWrite};
use s66_program::{Progress, goes_deep, refuse_words, run_program};
use std::alloc::AllocError;
use std::cell::Cell;
use std::io::{IsTerminal, Write};
use std::process::ExitCode;
use std::{env, io};

/// As many bytes of the stack as the deepest call of a search or a check takes, and half as many more.
const DEEP_ROOM: usize = 2_400_000;

/// The same of all else.
const ROOM: usize = 240_000;

/// More than the call that touches the stack takes beside that.
const SPARE: usize = 200_000;

/// Touches `ROOM` bytes of the stack, so that it doesn't have to grow later. By then the stacks of the workers, or what was read, may
/// have taken all the memory that the process is allowed, and a stack that can't grow ends the process. A write of no bytes keeps
/// the compiler from leaving the array out.
#[inline(never)]
fn touch_stack(rt: &HostRuntime) {
    let room = [0u8; ROOM];
    let _ = rt.stderr().write(&room[..0]);
}

/// Touches `DEEP_ROOM` bytes of the stack, as `touch_stack` does.
#[inline(never)]
fn touch_deep_stack(rt: &HostRuntime) {
    let room = [0u8; DEEP_ROOM];
    let _ = rt.stderr().write(&room[..0]);
}

/// Makes sure that the stack may grow by almost so many bytes, as far as the memory goes that the process is allowed: as many are asked
/// for, and given back. A stack that can't grow ends the process, and a request is refused.
fn ask_for_stack(rt: &HostRuntime, room: usize) -> Result<(), AllocError> {
    let _given_back: Vec<u8> = Vec::with_capacity(rt.alloc(), room)?;
    Ok(())
}

/// The words of the command line, of which the first is the program's name, once the stack has grown as far as they need it.
fn words_of(rt: &HostRuntime) -> io::Result<Vec<String>> {
    let words: Vec<String> = env::args(rt)?.collect(rt.alloc())?;
    if goes_deep(words.as_slice()) {
        ask_for_stack(rt, DEEP_ROOM + SPARE)?;
        touch_deep_stack(rt);
    } else {
        ask_for_stack(rt, ROOM + SPARE)?;
        touch_stack(rt);
    }
    Ok(words)
}

fn main(rt: HostRuntime) -> ExitCode {
    let words = words_of(&rt);
    let mut reader = OverRead::new(rt.stdin());
    let is_closed = Cell::new(false);
    let mut writer = OverWrite::new(Watched::new(rt.stdout(), &is_closed));
    let mut errors = OverWrite::new(Silenced::new(rt.stderr(), &is_closed));
    let mut terminal = rt.stderr();
    let is_terminal = terminal.is_terminal();
    let mut progress = Progress::new(&rt, is_terminal.then_some(&mut terminal));
    let status = match words {
        Ok(words) => run_program(
            &rt,
            words.as_slice(),
            &mut reader,
            &mut writer,
            &mut errors,
            &mut progress,
        ),
        Err(error) => refuse_words(&error, &mut errors),
    };
    ExitCode::from(status)
}
