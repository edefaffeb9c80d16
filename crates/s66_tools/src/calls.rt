//! Calls of the libraries. A word names one; without such a word the names of all are printed. What a call returns is printed as
//! numbers. If memory runs out, nothing is printed, and the status is 4.

use crate::{documents, events, pieces, sources};
use std::alloc::AllocError;
use std::io;
use std::process::ExitCode;
use std::sync::Wait;
use std::thread::Threads;

/// What a call returns.
pub(crate) type Answered = [usize; 4];

/// A call of the libraries.
#[derive(Clone, Copy)]
pub(crate) enum Call {
    ReadSource,
    PrintSource,
    FindingsIn,
    Expand,
    ExpandDominated,
    Events,
    Finish,
    Run,
    DocumentOf,
    Read,
    Sum,
}

/// The calls and their names.
const CALLS: &[(&str, Call)] = &[
    ("read_source", Call::ReadSource),
    ("print_source", Call::PrintSource),
    ("findings_in", Call::FindingsIn),
    ("expand", Call::Expand),
    ("expand_dominated", Call::ExpandDominated),
    ("events", Call::Events),
    ("finish", Call::Finish),
    ("run", Call::Run),
    ("document_of", Call::DocumentOf),
    ("read", Call::Read),
    ("sum", Call::Sum),
];

/// The call of a name.
fn call_of(name: &str) -> Option<Call> {
    for &(known, call) in CALLS {
        if known == name {
            return Some(call);
        }
    }
    None
}

/// Makes a call.
pub(crate) fn make<R: AllocGlobal + Threads + Wait + Sync>(
    rt: &R,
    call: Call,
) -> Result<Answered, AllocError> {
    let alloc = rt.alloc();
    match call {
        Call::ReadSource => sources::read(alloc),
        Call::PrintSource => sources::printed(alloc),
        Call::FindingsIn => sources::found(alloc),
        Call::Expand => pieces::expanded(alloc),
        Call::ExpandDominated => pieces::expanded_dominated(alloc),
        Call::Events => events::searched(alloc),
        Call::Finish => events::finished(alloc),
        Call::Run => documents::searched(rt),
        Call::DocumentOf => documents::documented(rt),
        Call::Read => documents::read_again(alloc),
        Call::Sum => documents::summed(rt),
    }
}

/// Prints that memory ran out.
pub(crate) fn tell_refusal(rt: &HostRuntime) -> io::Result<ExitCode> {
    eprintln!(rt; "OUT OF MEMORY")?;
    Ok(ExitCode::from(4))
}

/// Prints what a call returns.
pub(crate) fn tell_answer(
    rt: &HostRuntime,
    made: Result<Answered, AllocError>,
) -> io::Result<ExitCode> {
    let Ok(answered) = made else {
        return tell_refusal(rt);
    };
    println!(rt;
        "{} {} {} {}",
        answered[0], answered[1], answered[2], answered[3]
    )?;
    Ok(ExitCode::SUCCESS)
}

/// The call that the first word names; None if it names none.
pub(crate) fn call_in(words: &[String]) -> Option<Call> {
    call_of(words.first()?.as_str())
}

/// Prints the names of all calls.
pub(crate) fn tell_names(rt: &HostRuntime) -> io::Result<ExitCode> {
    for &(name, _) in CALLS {
        println!(rt; "{name}")?;
    }
    Ok(ExitCode::SUCCESS)
}
