//! Tests of readers and writers that fail at any call, and of those of `std`.

ghost use Rattle.std.specs.Prelude.{◌≡◌, ◌≤◌, ◌-◌, ◌<◌, None, Some, IfOk};

use crate::running::{CHART, CHECK, DEPS, LINT, ORDER, SUM, TIME, run, run_observed};
use arrayvec::ArrayVec;
use s66_device::{Failed, Feed, OverRead, OverWrite, Sink};
use s66_program::{FEED_CALLS, FEED_ROOM, Silent, run_program};
use std::cell::Cell;
use std::io::{self, Read, Write};
use std::process::Abort;
use std::sync::Wait;
use std::thread::Threads;

/// A reader of a text, again and again, a byte a call, which ends or fails when none is left.
#[derive(Drop)]
struct GivesFew<'a> {
    text: &'a [u8],
    at: usize,
    left: u32,
    is_ending: bool,
    reads: u64,
    ends: u64,
    failed: u64,
    least_room: usize,
    most_room: usize,
}

impl Feed for GivesFew<'_> {
    ghost seen = { λ s. record {
      bytes = None;
      reads = s.reads;
      ends = s.ends;
      failures = s.failed;
      least_room = s.least_room;
      most_room = s.most_room;
    } };

    fn feed(&mut self, buffer: &mut [u8]) -> Result<usize, Failed> {
        let is_over = self.left == 0 || buffer.is_empty() || self.text.len() <= self.at;
        if is_over && !self.is_ending {
            self.failed += 1;
            return Err(Failed);
        }
        self.least_room = self.least_room.min(buffer.len());
        self.most_room = self.most_room.max(buffer.len());
        if is_over {
            self.ends = self.ends.saturating_add(1);
            return Ok(0);
        }
        self.reads = self.reads.saturating_add(1);
        self.left -= 1;
        buffer[0] = self.text[self.at];
        self.at += 1;
        if self.at == self.text.len() {
            self.at = 0;
        }
        Ok(1)
    }
}

/// A reader of `left` bytes of a text, again and again from its beginning, which then ends or fails.
fn reader_of(text: &[u8], left: u32, is_ending: bool) -> GivesFew<'_>
    ensures { result.failed ≡ 0 }
{
    GivesFew {
        text,
        at: 0,
        left,
        is_ending,
        reads: 0,
        ends: 0,
        failed: 0,
        least_room: usize::MAX,
        most_room: 0,
    }
}

/// A writer that takes a byte a call, and fails when it has no room.
#[derive(Drop)]
struct TakesFew {
    room: usize,
    taken: ArrayVec<u8, 256>,
    failed: u64,
}

impl Sink for TakesFew {
    ghost seen = { λ s. record { bytes = Some s.taken.items; failures = s.failed } };

    fn sink(&mut self, text: &[u8]) -> Result<usize, Failed> {
        if text.is_empty() {
            return Ok(0);
        }
        if self.taken.len() >= self.room || self.taken.is_full() {
            self.failed += 1;
            return Err(Failed);
        }
        self.taken.push(text[0]);
        Ok(1)
    }
}

/// Checks what `time` says of a reader of this many newlines: it writes nothing.
fn check_newlines<R: AllocGlobal + Abort + Threads + Wait + Sync>(
    rt: &R,
    left: u32,
    is_ending: bool,
    failed: u64,
    status: u8,
    stated: &[u8],
) {
    let mut reader = reader_of(b"\n", left, is_ending);
    let ran = run_observed(rt, TIME, &mut reader, &mut Silent);
    assert!(rt;
        ran.status == status && ran.written.is_empty(),
        "after {left}"
    );
    assert!(rt; ran.stated.as_slice() == stated, "after {left}");
    assert!(rt; reader.left == 0 && reader.failed == failed, "after {left}");
    assert_eq!(rt; reader.least_room, FEED_ROOM);
    assert_eq!(rt; reader.most_room, FEED_ROOM);
}

/// The reader fails at its second call, and one without an end is called no more than `FEED_CALLS` times.
#[test]
fn tells_read_faults(rt: HostRuntime) {
    check_newlines(&rt, 1, false, 1, 6, b"READ FAILED\n");
    check_newlines(&rt, FEED_CALLS, false, 0, 6, b"READ FAILED\n");
}

/// It may end at the last of these calls.
#[test]
fn reads_an_end_at_the_last_call(rt: HostRuntime) {
    check_newlines(
        &rt,
        FEED_CALLS - 1,
        true,
        0,
        3,
        b"TOO MANY LINES\na source has at most 20000 lines; s66 order --quiet adds none\n",
    );
}

/// If the profile is none, the reader isn't called, though it would fail.
#[test]
fn reads_nothing_for_a_bad_profile(rt: HostRuntime) {
    let mut reader = reader_of(b"", 0, false);
    let words = &["s66", "time", "--profile", "[]"];
    let ran = run_observed(&rt, words, &mut reader, &mut Silent);
    assert!(rt; ran.status == 3 && ran.written.is_empty());
    assert!(rt;
        ran.stated.as_slice()
            == b"BAD PROFILE\nno JSON object such as {\"units_add\":2}, nor units_add=2\n".as_slice()
    );
    assert!(rt; reader.reads == 0 && reader.failed == 0);
}

const CODE: &str = "  BX1 X2+X3\n";

const DOCUMENT: &str =
    "S66 CERTIFICATE 1\nPROFILE 3 3 4 4 3 10 29 8 3 8 1 1 1 1 2 1 2\nBLOCK 1\nI BX1 X2+X3\nTIME 4\nBOUND 4\nORDER 1\nC 1\nEND\n";

/// Each subcommand, an input, and its status.
const SUBCOMMANDS: &[(&[&str], &str, u8)] = &[
    (TIME, CODE, 0),
    (DEPS, CODE, 0),
    (CHART, CODE, 0),
    (ORDER, CODE, 0),
    (SUM, CODE, 0),
    (&["s66", "prove", "--workers", "1"], CODE, 0),
    (CHECK, DOCUMENT, 0),
    (LINT, "  SA1 *+2\n", 5),
];

/// Each call of the reader fails in turn, that at the end too.
#[test]
fn fails_at_each_read(rt: HostRuntime) {
    for &(words, input, status) in SUBCOMMANDS {
        let length = input.len() as u32;
        for left in 0..=length {
            let mut reader = reader_of(input.as_bytes(), left, false);
            let ran = run_observed(&rt, words, &mut reader, &mut Silent);
            assert!(rt;
                ran.status == 6 && ran.written.is_empty(),
                "{words:?} {left}"
            );
            assert!(rt; ran.stated.as_slice() == b"READ FAILED\n".as_slice());
            assert!(rt; reader.left == 0 && reader.failed == 1, "{words:?} {left}");
        }
        let mut reader = reader_of(input.as_bytes(), length, true);
        let ran = run_observed(&rt, words, &mut reader, &mut Silent);
        assert!(rt; ran.status == status && reader.ends == 1, "{words:?}");
    }
}

/// A writer with room for `room` bytes.
fn writer_of(room: usize) -> TakesFew
    ensures { result.failed ≡ 0 }
{
    TakesFew {
        room,
        taken: ArrayVec::new(),
        failed: 0,
    }
}

/// Words, input, room in the output and in standard error, status, what is written, and what goes to standard error.
const BROKEN: &[(&[&str], &str, usize, usize, u8, &str, &str)] = &[
    (ORDER, "  BX1 X2+X3\n", 0, 16, 6, "", "WRITE FAILED\n"),
    (TIME, "  BX1 X2+X3\n", 5, 16, 6, "BLOCK", "WRITE FAILED\n"),
    (TIME, "  SA1 *+2\n", 16, 0, 3, "", ""),
    (&["s66", "time", "more"], "  SA1 *+2\n", 16, 0, 2, "", ""),
    (&["s66", "--help"], "", 0, 16, 6, "", "WRITE FAILED\n"),
];

#[test]
fn tells_write_faults(rt: HostRuntime) {
    for &(words, input, room, errors_room, status, written, stated) in BROKEN {
        let mut reader = OverRead::new(input.as_bytes());
        let mut writer = writer_of(room);
        let mut errors = writer_of(errors_room);
        let ended = run_program(
            &rt,
            words,
            &mut reader,
            &mut writer,
            &mut errors,
            &mut Silent,
        );
        assert!(rt; ended == status, "{words:?}");
        assert!(rt; writer.taken.as_slice() == written.as_bytes(), "{words:?}");
        assert!(rt; errors.taken.as_slice() == stated.as_bytes(), "{words:?}");
    }
}

/// Runs a subcommand with a writer that has room for `room` bytes: it takes all of this text, or a beginning of it and fails.
fn check_room<R: AllocGlobal + Abort + Threads + Wait + Sync>(
    rt: &R,
    words: &[&str],
    input: &str,
    room: usize,
    text: &[u8],
    status: u8,
) {
    let mut reader = OverRead::new(input.as_bytes());
    let mut writer = writer_of(room);
    let mut errors = writer_of(16);
    let ended = run_program(
        rt,
        words,
        &mut reader,
        &mut writer,
        &mut errors,
        &mut Silent,
    );
    let (status, failed, stated) = if room < text.len() {
        (6, 1, "WRITE FAILED\n")
    } else {
        (status, 0, "")
    };
    let taken = &text[..room.min(text.len())];
    assert!(rt;
        ended == status && writer.failed == failed,
        "{words:?} {room}"
    );
    assert!(rt; writer.taken.as_slice() == taken, "{words:?} {room}");
    assert!(rt;
        errors.taken.as_slice() == stated.as_bytes(),
        "{words:?} {room}"
    );
}

/// Each call of the writer fails in turn.
#[test]
fn fails_at_each_write(rt: HostRuntime) {
    for &(words, input, status) in SUBCOMMANDS {
        let ran = run(&rt, words, input.as_bytes());
        let text = ran.written.as_slice();
        assert!(rt; !text.is_empty(), "{words:?}");
        for room in 0..=text.len() {
            check_room(&rt, words, input, room, text, status);
        }
    }
}

/// A writer that takes nothing, and calls that no error.
#[derive(Drop)]
struct TakesNone;

impl Write for TakesNone {
    fn write(&mut self, _buf: &[u8]) -> io::Result<usize> {
        Ok(0)
    }

    fn flush(&mut self) -> io::Result<()> {
        Ok(())
    }
}

/// A write that takes nothing is a failed one.
#[test]
fn fails_where_nothing_is_taken(rt: HostRuntime) {
    let mut reader = OverRead::new(CODE.as_bytes());
    let mut writer = OverWrite::new(TakesNone);
    let mut errors = writer_of(16);
    let ended = run_program(
        &rt,
        TIME,
        &mut reader,
        &mut writer,
        &mut errors,
        &mut Silent,
    );
    assert_eq!(rt; ended, 6);
    assert!(rt; errors.taken.as_slice() == b"WRITE FAILED\n".as_slice());
}

/// What a reader or a writer was asked: how often, and for how many bytes the last time.
#[derive(Drop)]
struct Asked {
    calls: Cell<u32>,
    room: Cell<usize>,
}

impl Asked {
    fn new() -> Asked {
        Asked {
            calls: Cell::new(0),
            room: Cell::new(0),
        }
    }

    /// A call with so much room: the third fails, and any other moves a byte.
    fn call(&self, room: usize) -> io::Result<usize>
        ensures { IfOk result (λ n. n ≤ room) }
    {
        let calls = self.calls.get().saturating_add(1);
        self.calls.set(calls);
        self.room.set(room);
        if calls == 3 {
            return Err(io::Error::from(io::ErrorKind::BrokenPipe));
        }
        Ok(room.min(1))
    }
}

/// A reader and a writer that records what it is asked.
#[derive(Drop)]
struct Tells<'a> {
    asked: &'a Asked,
}

impl Read for Tells<'_> {
    fn read(&mut self, buf: &mut [u8]) -> io::Result<usize> {
        self.asked.call(buf.len())
    }
}

impl Write for Tells<'_> {
    fn write(&mut self, buf: &[u8]) -> io::Result<usize> {
        self.asked.call(buf.len())
    }

    fn flush(&mut self) -> io::Result<()> {
        Ok(())
    }
}

#[test]
fn feeds_by_one_call_of_std(rt: HostRuntime) {
    let asked = Asked::new();
    let mut buffer = [0u8; 300];
    for call in 1..6u32 {
        let mut reader = OverRead::new(Tells { asked: &asked });
        let answer = reader.feed(&mut buffer);
        assert_eq!(rt; answer.is_err(), call == 3);
        assert_eq!(rt; asked.calls.get(), call);
        assert_eq!(rt; asked.room.get(), 300);
    }
}

#[test]
fn sinks_by_one_call_of_std(rt: HostRuntime) {
    let asked = Asked::new();
    let text = [b'*'; 300];
    for call in 1..6u32 {
        let mut writer = OverWrite::new(Tells { asked: &asked });
        let answer = writer.sink(&text);
        assert_eq!(rt; answer.is_err(), call == 3);
        assert_eq!(rt; asked.calls.get(), call);
        assert_eq!(rt; asked.room.get(), 300);
    }
}
