//! Standard output whose reader may go away, as `head -1` does, which is no failure to tell of.

use std::cell::Cell;
use std::io::{self, ErrorKind, Write};

/// A writer that notes whether its reader has closed the pipe.
#[derive(Drop)]
pub(crate) struct Watched<'a, W> {
    inner: W,
    is_closed: &'a Cell<bool>,
}

impl<'a, W: Write> Watched<'a, W> {
    pub(crate) fn new(inner: W, is_closed: &'a Cell<bool>) -> Watched<'a, W> {
        Watched { inner, is_closed }
    }
}

impl<W: Write> Write for Watched<'_, W> {
    fn write(&mut self, buf: &[u8]) -> io::Result<usize> {
        let result = self.inner.write(buf);
        if let Err(error) = &result {
            if error.kind() == ErrorKind::BrokenPipe {
                self.is_closed.set(true);
            }
        }
        result
    }

    fn flush(&mut self) -> io::Result<()> {
        self.inner.flush()
    }
}

/// A writer that drops what it is given once the pipe is closed.
#[derive(Drop)]
pub(crate) struct Silenced<'a, W> {
    inner: W,
    is_closed: &'a Cell<bool>,
}

impl<'a, W: Write> Silenced<'a, W> {
    pub(crate) fn new(inner: W, is_closed: &'a Cell<bool>) -> Silenced<'a, W> {
        Silenced { inner, is_closed }
    }
}

impl<W: Write> Write for Silenced<'_, W> {
    fn write(&mut self, buf: &[u8]) -> io::Result<usize> {
        if self.is_closed.get() {
            return Ok(buf.len());
        }
        self.inner.write(buf)
    }

    fn flush(&mut self) -> io::Result<()> {
        self.inner.flush()
    }
}
