//! How far a run has come, on standard error, while a person waits for it.

use clap::ArgMatches;
use std::cell::Cell;
use std::io;
use std::io::{IsTerminal, Read, Write};
use std::time::{Duration, Instant};

/// For so long nothing is said, in ms.
const SILENT: u64 = 2000;

/// From one word to the next, in ms.
const APART: u64 = 500;

const MEBIBYTE: u64 = 1_048_576;

/// To the first column of the terminal's line, of which the rest is cleared.
const CLEAR: &str = "\r\x1b[K";

/// Whether progress is to be told: it is asked for, and standard error is a terminal.
pub fn is_told(rt: &HostRuntime, matches: &ArgMatches<'_>) -> bool {
    matches.get_flag("progress") && rt.stderr().is_terminal()
}

/// How many bytes were read, of all inputs of a run, and when that is told next.
#[derive(Drop)]
pub struct Count<'a> {
    rt: &'a HostRuntime,
    bytes: Cell<u64>,
    due: Cell<Option<Instant>>,
}

impl<'a> Count<'a> {
    /// Nothing was read. It tells nothing unless `is_told`.
    pub fn new(rt: &'a HostRuntime, is_told: bool) -> Count<'a> {
        let due = match Instant::now(rt) {
            Ok(now) if is_told => now.checked_add(Duration::from_millis(SILENT)),
            _ => None,
        };
        Count {
            rt,
            bytes: Cell::new(0),
            due: Cell::new(due),
        }
    }

    fn add(&self, more: usize) {
        self.bytes.set(self.bytes.get().saturating_add(more as u64));
        let Some(due) = self.due.get() else {
            return;
        };
        match Instant::now(self.rt) {
            Ok(now) if due <= now => {
                self.due.set(now.checked_add(Duration::from_millis(APART)));
                let read = self.bytes.get() / MEBIBYTE;
                let _ = eprint!(self.rt; "{CLEAR}{read} MiB read");
            }
            _ => {}
        }
    }
}

/// A reader that tells from time to time how many bytes were read, by it and by others with the
/// same count. Each call is passed on as it is.
#[derive(Drop)]
pub struct Counted<'a, R> {
    device: R,
    count: &'a Count<'a>,
}

impl<'a, R> Counted<'a, R> {
    /// A reader of which nothing was read.
    pub fn new(count: &'a Count<'a>, device: R) -> Counted<'a, R> {
        Counted { device, count }
    }
}

impl<R: Read> Read for Counted<'_, R> {
    ghost remaining = { λ counted. R.remaining counted.device };

    fn read(&mut self, buf: &mut [u8]) -> io::Result<usize> {
        let read = self.device.read(buf);
        if let Ok(more) = &read {
            self.count.add(*more);
        }
        read
    }
}

/// What was told of progress, to be cleared once.
#[derive(Drop)]
pub struct Notice<'a> {
    rt: &'a HostRuntime,
    is_there: bool,
}

impl Notice<'_> {
    /// Clears it, unless that was done.
    pub fn clear(&mut self) {
        if self.is_there {
            let _ = eprint!(self.rt; "{CLEAR}");
            self.is_there = false;
        }
    }
}

/// A writer on the terminal that first clears what was told of progress. Each call is passed on as
/// it is.
#[derive(Drop)]
pub struct Cleared<'a, W> {
    device: W,
    notice: Notice<'a>,
}

impl<'a, W> Cleared<'a, W> {
    /// A writer to which nothing was written.
    pub fn new(rt: &'a HostRuntime, is_told: bool, device: W) -> Cleared<'a, W> {
        let notice = Notice {
            rt,
            is_there: is_told,
        };
        Cleared { device, notice }
    }

    /// What is to be cleared of progress.
    pub fn notice_mut(&mut self) -> &mut Notice<'a> {
        &mut self.notice
    }
}

impl<W: Write> Write for Cleared<'_, W> {
    ghost contents = { λ cleared. W.contents cleared.device };

    fn write(&mut self, buf: &[u8]) -> io::Result<usize> {
        self.notice.clear();
        self.device.write(buf)
    }

    fn flush(&mut self) -> io::Result<()> {
        self.device.flush()
    }
}
