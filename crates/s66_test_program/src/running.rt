//! Runs the program in a test, and compares what it writes and its status.

ghost use Rattle.std.specs.Prelude.{◌-◌, ◌^◌, ◌<◌};

use s66_device::{Feed, OverRead, OverWrite};
use s66_program::{Observer, Silent, run_program};
use std::process::Abort;
use std::sync::Wait;
use std::thread::Threads;

pub(crate) const TIME: &[&str] = &["s66", "time"];

pub(crate) const TRACE: &[&str] = &["s66", "time", "--trace"];

pub(crate) const DEPS: &[&str] = &["s66", "deps"];

pub(crate) const CHART: &[&str] = &["s66", "chart"];

pub(crate) const WHY: &[&str] = &["s66", "why"];

pub(crate) const JSON: &[&str] = &["s66", "json"];

pub(crate) const PAGE: &[&str] = &["s66", "page", "--workers", "1"];

pub(crate) const PAIRS: &[&str] = &["s66", "page", "--compare"];

pub(crate) const CHECK: &[&str] = &["s66", "check"];

pub(crate) const LINT: &[&str] = &["s66", "lint"];

pub(crate) const GUARD: &[&str] = &["s66", "guard"];

pub(crate) const COMPARE: &[&str] = &["s66", "compare"];

pub(crate) const COMPARE_CUT: &[&str] = &["s66", "compare", "--cut"];

pub(crate) const COMPARE_TEXT: &[&str] = &["s66", "compare", "--text"];

pub(crate) const ORDER: &[&str] = &["s66", "order", "--workers", "1"];

pub(crate) const SUM: &[&str] = &["s66", "sum", "--workers", "1"];

pub(crate) const ORDER_TRACE: &[&str] = &["s66", "order", "--workers", "1", "--trace"];

/// The status of a run, its output, and what went to standard error.
#[derive(Drop)]
pub(crate) struct Ran {
    pub(crate) status: u8,
    pub(crate) written: Vec<u8>,
    pub(crate) stated: Vec<u8>,
}

/// Runs the program with an observer.
pub(crate) fn run_observed<R: AllocGlobal + Threads + Wait + Sync, F: Feed, O: Observer>(
    rt: &R,
    words: &[&str],
    reader: &mut F,
    observer: &mut O,
) -> Ran
    requires { (F.seen reader.old).failures < 2 ^ 64 - 1 }
{
    let mut writer = OverWrite::new(Vec::new(rt.alloc()));
    let mut errors = OverWrite::new(Vec::new(rt.alloc()));
    let status = run_program(rt, words, reader, &mut writer, &mut errors, observer);
    Ran {
        status,
        written: writer.into_inner(),
        stated: errors.into_inner(),
    }
}

/// Runs the program on an input.
pub(crate) fn run<R: AllocGlobal + Threads + Wait + Sync>(
    rt: &R,
    words: &[&str],
    input: &[u8],
) -> Ran {
    run_observed(rt, words, &mut OverRead::new(input), &mut Silent)
}

/// Checks the status, the text that is written if it is 0, 5, 7 or 8, and else goes to standard error, and what is told there after a
/// success.
pub(crate) fn check_told<R: AllocGlobal + Abort + Threads + Wait + Sync>(
    rt: &R,
    name: &str,
    words: &[&str],
    input: &[u8],
    status: u8,
    text: &str,
    told: &str,
) {
    let ran = run(rt, words, input);
    let (written, stated) = match status {
        0 | 5 | 7 | 8 => (text, told),
        _ => ("", text),
    };
    assert!(rt; ran.status == status, "{name}: {}", ran.status);
    assert!(rt;
        ran.written.as_slice() == written.as_bytes(),
        "{name}: {:?}",
        ran.written
    );
    assert!(rt;
        ran.stated.as_slice() == stated.as_bytes(),
        "{name}: {:?}",
        ran.stated
    );
}

/// Checks the status, and the text that is written if it is 0, 5, 7 or 8, and else goes to standard error.
pub(crate) fn check<R: AllocGlobal + Abort + Threads + Wait + Sync>(
    rt: &R,
    name: &str,
    words: &[&str],
    input: &[u8],
    status: u8,
    text: &str,
) {
    check_told(rt, name, words, input, status, text, "");
}

/// The Adler-32 checksum of bytes.
fn adler32(bytes: &[u8]) -> u32 {
    let mut low = 1u32;
    let mut high = 0u32;
    for byte in bytes {
        low = low.wrapping_add(*byte as u32) % 65521;
        high = high.wrapping_add(low) % 65521;
    }
    high.wrapping_mul(65536).wrapping_add(low)
}

/// Checks that a run is done, how many bytes it writes, and their checksum.
pub(crate) fn check_sum<R: AllocGlobal + Abort + Threads + Wait + Sync>(
    rt: &R,
    name: &str,
    words: &[&str],
    input: &[u8],
    length: usize,
    sum: u32,
) {
    let ran = run(rt, words, input);
    let seen = adler32(ran.written.as_slice());
    assert!(rt;
        ran.status == 0 && ran.stated.is_empty(),
        "{name}: {}",
        ran.status
    );
    assert!(rt;
        ran.written.len() == length && seen == sum,
        "{name}: {} {seen}",
        ran.written.len()
    );
}
