//! Tests of what an observer is told, and of what a terminal shows.

use crate::running::{CHECK, ORDER, run_observed};
use arrayvec::ArrayVec;
use s66_device::OverRead;
use s66_program::{Observer, Progress};
use std::io;
use std::process::Abort;
use std::sync::Wait;
use std::sync::atomic::{AtomicU64, Ordering};
use std::thread::Threads;
use std::time::{Clock, Duration};

/// A clock that has gone on by 600 milliseconds whenever it is read.
#[derive(Drop)]
struct Ticks {
    reads: AtomicU64,
}

impl Clock for Ticks {
    fn monotonic(&self) -> io::Result<Duration> {
        let reads = self.reads.fetch_add(1, Ordering::SeqCst);
        Ok(Duration::from_millis(reads.wrapping_mul(600)))
    }

    fn since_1970(&self) -> io::Result<Duration> {
        self.monotonic()
    }
}

/// What a terminal gets of work on four blocks that ends when `count` are done.
fn shown_until<R: AllocGlobal>(rt: &R, count: usize) -> Vec<u8> {
    let clock = Ticks {
        reads: AtomicU64::new(0),
    };
    let mut shown = Vec::new(rt.alloc());
    let mut progress = Progress::new(&clock, Some(&mut shown));
    for done in 0..=count {
        progress.done(done, 4);
    }
    progress.ended();
    shown
}

#[test]
fn shows_long_work(rt: HostRuntime) {
    let shown = shown_until(&rt, 3);
    assert!(rt; shown.as_slice() == b"\r2 of 4 blocks\r3 of 4 blocks\r\x1b[K".as_slice());
    assert!(rt; shown_until(&rt, 1).is_empty());
}

/// What an observer is called with, as far as there is room.
#[derive(Drop)]
struct Stated {
    steps: ArrayVec<(usize, usize), 8>,
    ends: u32,
}

impl Observer for Stated {
    fn done(&mut self, count: usize, of: usize) {
        let _ = self.steps.try_push((count, of));
    }

    fn ended(&mut self) {
        self.ends = self.ends.saturating_add(1);
    }
}

/// Checks the status and the calls of an observer: for each block or document, one after the other, and for the end. Returns what
/// was written.
fn check_stated<R: AllocGlobal + Abort + Threads + Wait + Sync>(
    rt: &R,
    words: &[&str],
    input: &[u8],
    status: u8,
    steps: &[(usize, usize)],
) -> Vec<u8> {
    let mut stated = Stated {
        steps: ArrayVec::new(),
        ends: 0,
    };
    let ran = run_observed(rt, words, &mut OverRead::new(input), &mut stated);
    assert!(rt; ran.status == status, "{words:?}");
    assert!(rt;
        stated.steps.as_slice() == steps && stated.ends == 1,
        "{words:?}"
    );
    ran.written
}

#[test]
fn tells_of_blocks_and_documents(rt: HostRuntime) {
    let source = b"  BX1 X2+X3\nL BX1 X2\n";
    let two = [(0, 2), (1, 2)];
    check_stated(&rt, ORDER, source, 0, &two);
    let documents = check_stated(&rt, &["s66", "prove"], source, 0, &two);
    check_stated(&rt, CHECK, documents.as_slice(), 0, &two);
    check_stated(&rt, ORDER, b"  SA1 *+2\n", 3, &[]);
}
