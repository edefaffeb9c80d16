//! Tests of work that is shared out: it is done side by side, with the same output by any number of workers, also if memory runs out for
//! some.

ghost use Rattle.std.specs.Prelude.{◌≡◌, ◌*◌, ◌<◌};

use crate::running::{run, run_observed};
use s66_device::OverRead;
use s66_program::{Observer, Silent, Task, make_each};
use std::alloc::AllocError;
use std::process::Abort;
use std::sync::Wait;
use std::sync::atomic::{AtomicBool, AtomicUsize, Ordering};
use std::thread;
use std::thread::Threads;
use std::time::{Clock, Duration};

/// Twice each number. Memory runs out for the first calls, `failing` of them.
#[derive(Drop)]
struct Doubles {
    failing: usize,
    calls: AtomicUsize,
}

impl Task<usize> for Doubles {
    ghost accepts = { λ doubles n. n < 1000 };

    ghost gives = { λ doubles n made. made ≡ 2 * n };

    fn make(&self, number: usize) -> Result<usize, AllocError> {
        if self.calls.fetch_add(1, Ordering::SeqCst) < self.failing {
            return Err(AllocError);
        }
        Ok(2 * number)
    }
}

/// Checks that a hundred numbers are doubled, though memory runs out for some workers.
fn check_doubled<R: AllocGlobal + Abort + Threads + Sync>(rt: &R, workers: usize, failing: usize) {
    let doubles = Doubles {
        failing,
        calls: AtomicUsize::new(0),
    };
    let made = make_each(rt, rt.alloc(), &doubles, 100, workers, &mut Silent).expect(rt, "memory");
    assert!(rt; made.len() == 100);
    for (number, double) in made.iter().enumerate() {
        assert!(rt; *double == 2 * number);
    }
}

#[test]
fn makes_what_workers_leave(rt: HostRuntime) {
    check_doubled(&rt, 1, 0);
    check_doubled(&rt, 1, 1);
    check_doubled(&rt, 4, 3);
    check_doubled(&rt, 16, 15);
}

/// How many turns a call waits for the other: in each it looks whether that has begun, and sleeps for a millisecond.
const TURNS: u32 = 10_000;

/// Each number itself, for one of two calls, which waits until the other has begun.
#[derive(Drop)]
struct Meets<'a, R> {
    rt: &'a R,
    begun: AtomicUsize,
    /// Whether a call waited in vain.
    is_over: AtomicBool,
}

impl<'a, R: Clock> Task<usize> for Meets<'a, R> {
    ghost accepts = { λ meets n. n < 2 };

    ghost gives = { λ meets n made. made ≡ n };

    fn make(&self, number: usize) -> Result<usize, AllocError> {
        self.begun.fetch_add(1, Ordering::SeqCst);
        for _ in 0..TURNS {
            if self.begun.load(Ordering::SeqCst) == 2 {
                return Ok(number);
            }
            thread::sleep(self.rt, Duration::from_millis(1));
        }
        self.is_over.store(true, Ordering::SeqCst);
        Ok(number)
    }
}

#[test]
fn two_calls_meet(rt: HostRuntime) {
    let meets = Meets {
        rt: &rt,
        begun: AtomicUsize::new(0),
        is_over: AtomicBool::new(false),
    };
    let made = make_each(&rt, rt.alloc(), &meets, 2, 2, &mut Silent).expect(&rt, "memory");
    assert!(rt; made.as_slice() == [0, 1].as_slice());
    assert!(rt; !meets.is_over.load(Ordering::SeqCst));
}

/// Four blocks, no two of which are alike.
const BLOCKS: &[u8] =
    b"  SA1 A1+B1\n  BX6 X1\n  BX7 X2\nA  FX1 X2*X3\n  FX4 X5*X6\nB  SA2 A2+B2\nC  BX1 X2\n  FX3 X1+X2\n  NX3 X3\n  SA6 B6\n";

/// Checks that a subcommand writes the same by one worker and by several.
fn check_same<R: AllocGlobal + Abort + Threads + Wait + Sync>(
    rt: &R,
    by_one: &[&str],
    by_four: &[&str],
) {
    let one = run(rt, by_one, BLOCKS);
    let four = run(rt, by_four, BLOCKS);
    assert!(rt; !one.written.is_empty(), "{by_one:?}");
    assert!(rt;
        one.status == four.status && one.written.as_slice() == four.written.as_slice(),
        "{by_one:?}"
    );
}

#[test]
fn facts_are_the_same_by_any_workers(rt: HostRuntime) {
    for name in ["order", "sum", "prove", "page"] {
        check_same(
            &rt,
            &["s66", name, "--deep", "--workers", "1"],
            &["s66", name, "--deep", "--workers", "4"],
        );
    }
    check_same(
        &rt,
        &["s66", "why", "--order", "--deep", "--workers", "1"],
        &["s66", "why", "--order", "--deep", "--workers", "4"],
    );
    check_same(
        &rt,
        &["s66", "json", "--order", "--deep", "--workers", "1"],
        &["s66", "json", "--order", "--deep", "--workers", "4"],
    );
}

/// It is called for each block that its thread takes, and sleeps until others have taken the rest.
#[derive(Drop)]
struct Sleeps<'a, R> {
    rt: &'a R,
    calls: u32,
}

impl<'a, R: Clock> Observer for Sleeps<'a, R> {
    fn done(&mut self, _count: usize, _of: usize) {
        self.calls = self.calls.saturating_add(1);
        thread::sleep(self.rt, Duration::from_millis(500));
    }

    fn ended(&mut self) {}
}

/// With facts one thread takes a block, and another takes others meanwhile.
#[test]
fn workers_take_blocks_by_facts(rt: HostRuntime) {
    let words = ["s66", "order", "--deep", "--workers", "2"];
    let mut sleeps = Sleeps { rt: &rt, calls: 0 };
    let ran = run_observed(&rt, &words, &mut OverRead::new(BLOCKS), &mut sleeps);
    assert!(rt; ran.status == 0 && sleeps.calls < 4);
}
