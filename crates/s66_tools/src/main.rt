//! The program that tools and benchmarks call, to refuse memory to one call of a library or to measure parts of a search. Begin at
//! `main.rt`, then `calls.rt` and `modes.rt`. Its first word says what it does:
//!
//! - `call` makes one call of the libraries, for `tools/refused.py` to refuse it memory;
//! - a mode runs parts of a search over the blocks of a source, for `bench/search.py` and `bench/pool.py` to measure.
#![tactic(auto)]

mod calls;
mod documents;
mod events;
mod modes;
mod pieces;
mod rounds;
mod searches;
mod sources;
mod tree;

use std::io::Read;
use std::process::ExitCode;
use std::{env, io};

/// The words of the command line, of which the first is the program's name.
fn words_of(rt: &HostRuntime) -> io::Result<Vec<String>> {
    Ok(env::args(rt)?.collect(rt.alloc())?)
}

fn read_all(rt: &HostRuntime) -> io::Result<Vec<u8>> {
    let mut text = Vec::new(rt.alloc());
    let mut input = rt.stdin();
    input.read_to_end(&mut text)?;
    Ok(text)
}

/// Prints what the first word may be.
fn tell_usage(rt: &HostRuntime) -> io::Result<ExitCode> {
    eprintln!(rt; "wanted: call, or new, push, both, tree, finish or run, and a number")?;
    Ok(ExitCode::FAILURE)
}

fn main(rt: HostRuntime) -> io::Result<ExitCode> {
    let Ok(words) = words_of(&rt) else {
        return calls::tell_refusal(&rt);
    };
    match words.as_slice() {
        [_, first, names @ ..] if first.as_str() == "call" => match calls::call_in(names) {
            Some(call) => calls::tell_answer(&rt, calls::make(&rt, call)),
            None => calls::tell_names(&rt),
        },
        words => match modes::mode_of(words) {
            Some(mode) => {
                let text = read_all(&rt)?;
                modes::tell_counts(&rt, modes::run(&rt, text.as_slice(), mode)?)
            }
            None => tell_usage(&rt),
        },
    }
}
