//! The line on a terminal that shows how many blocks are done, once work has taken a second.

use s66_answer::Observer;
use std::io::Write;
use std::time::{Clock, Duration, Instant};

/// Work that takes more milliseconds than these shows how far it is.
const LONG: u64 = 1_000;

/// The least time between two writes of the line, in milliseconds.
const PAUSE: u64 = 100;

/// Back to the line's first column, and nothing after it.
const ERASE: &[u8] = b"\r\x1b[K";

/// A line on a terminal that shows how many blocks are done, once the work has taken a second, and goes when the work ends. What
/// the terminal doesn't take isn't shown.
#[derive(Drop)]
pub struct Progress<'a, C, W> {
    clock: &'a C,
    /// None if there is no terminal.
    terminal: Option<&'a mut W>,
    /// When the line is written next, from the first call on.
    next: Option<Instant>,
    is_shown: bool,
}

impl<'a, C: Clock, W: Write> Progress<'a, C, W> {
    /// If there is no terminal, nothing is shown.
    pub fn new(clock: &'a C, terminal: Option<&'a mut W>) -> Progress<'a, C, W> {
        Progress {
            clock,
            terminal,
            next: None,
            is_shown: false,
        }
    }

    /// Whether the line is to be written now; a clock that fails writes none.
    fn is_due(&mut self) -> bool {
        let Ok(now) = Instant::now(self.clock) else {
            return false;
        };
        let Some(next) = self.next else {
            self.next = now.checked_add(Duration::from_millis(LONG));
            return false;
        };
        if now < next {
            return false;
        }
        self.next = now.checked_add(Duration::from_millis(PAUSE));
        true
    }
}

impl<'a, C: Clock, W: Write> Observer for Progress<'a, C, W> {
    fn done(&mut self, count: usize, of: usize) {
        if self.terminal.is_none() || !self.is_due() {
            return;
        }
        if let Some(terminal) = &mut self.terminal {
            // the line never gets shorter, so nothing is left of the one before
            let _ = write!(terminal, "\r{count} of {of} blocks");
            self.is_shown = true;
        }
    }

    fn ended(&mut self) {
        if !self.is_shown {
            return;
        }
        if let Some(terminal) = &mut self.terminal {
            let _ = terminal.write_all(ERASE);
            self.is_shown = false;
        }
    }
}
