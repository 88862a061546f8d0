//! A reader or a writer that remembers how its calls went.

ghost use Rattle.std.specs.Prelude.{ℕ, Bool, ◌≡◌, ◌≤◌, ◌+◌, ◌-◌, ◌^◌, ◌||◌, min, length};
ghost use Rattle.std.specs.Prelude.{is_err, false, true};
ghost use Rattle.std.specs.Io.{ReadsAtMost, WritesAtMost};
ghost use Rattle.std.specs.Io.KnownBytes.{Keeps, ReadConsumes, WriteAppends};
ghost use Rattle.afdx_input_lines.specs.Calls.{gave_end, took_none};

use std::io;
use std::io::{ErrorKind, Read, Write};

/// Holds a reader or a writer, counts the calls, and tells whether one failed or gave the end.
///
/// It passes each call on as it is, once: it neither retries nor holds bytes back, and reports no
/// failure but the device's. Once a read or a write failed none is passed on any more, nor is a
/// read after the end.
#[derive(Debug, Drop)]
pub struct Watched<T> {
    pub(crate) inner: T,
    pub(crate) failed: bool,
    flush_failed: bool,
    ended: bool,
    pub(crate) calls: u64,
}

/// What a call answers that the device isn't asked for.
fn refusal() -> io::Error {
    io::Error::from(ErrorKind::Other)
}

impl<T> Watched<T> {
    ghost use Rattle.afdx_input_lines.specs.Watching.{device_of, has_failed, has_ended, calls_of};
    ghost use Rattle.afdx_input_lines.specs.Watching.{flush_has_failed};

    /// A device of which no call was made yet.
    pub fn new(inner: T) -> Watched<T>
        ensures device { device_of result ≡ inner }
        ensures sound { has_failed result ≡ false }
        ensures flushed { flush_has_failed result ≡ false }
        ensures unended { has_ended result ≡ false }
        ensures calls { calls_of result ≡ 0 }
    {
        Watched {
            inner,
            failed: false,
            flush_failed: false,
            ended: false,
            calls: 0,
        }
    }

    /// The reader or writer, as it then is.
    pub fn into_inner(self) -> T
        ensures { result ≡ device_of self }
    {
        self.inner
    }

    /// Whether a read or a write through it failed, or a write of some bytes took none of them.
    pub fn failed(&self) -> bool
        ensures { result ≡ has_failed self.now }
    {
        self.failed
    }

    /// Whether a flush through it failed.
    pub fn flush_failed(&self) -> bool
        ensures { result ≡ flush_has_failed self.now }
    {
        self.flush_failed
    }

    /// Whether a read through it, into some room, gave no byte.
    pub fn ended(&self) -> bool
        ensures { result ≡ has_ended self.now }
    {
        self.ended
    }

    /// How many reads and writes the device was asked for, up to the greatest `u64`.
    pub fn calls(&self) -> u64
        ensures { result ≡ calls_of self.now }
    {
        self.calls
    }
}

/// A reader of which one call is told apart from two.
pub trait Asked: Read {
    /// From the first to the second one read was made, into so much room, that failed or didn't.
    ghost Once: { Self → Self → ℕ → Bool → Type 0 };

    /// Reads, once.
    fn ask(&mut self, buf: &mut [u8]) -> io::Result<usize>
        ensures bound { ReadsAtMost result buf.new }
        ensures left { ReadConsumes (Self.remaining self.old) (Self.remaining self.new)
            result buf.new }
        ensures once { Once self.old self.new (length buf.old) (is_err result) };
}

impl<R: Read> Asked for R {
    ghost Once = { λ old new room result. Unit {0} };

    fn ask(&mut self, buf: &mut [u8]) -> io::Result<usize> {
        self.read(buf)
    }
}

impl<R: Asked> Read for Watched<R> {
    ghost use Rattle.afdx_input_lines.specs.Watching.{device_of, has_failed, has_ended, calls_of};
    ghost use Rattle.afdx_input_lines.specs.Watching.{is_over, still_in};

    ghost remaining = { still_in R.remaining };

    /// Reads, but from a device that failed or gave its end: that isn't asked.
    fn read(&mut self, buf: &mut [u8]) -> io::Result<usize>
        ensures bound { ReadsAtMost result buf.new }
        ensures left { ReadConsumes (still_in R.remaining self.old) (still_in R.remaining self.new)
            result buf.new }
        ensures bytes { has_ended self.old ≡ false → ReadConsumes (R.remaining (device_of self.old))
            (R.remaining (device_of self.new)) result buf.new }
        ensures failed { has_failed self.new ≡ (has_failed self.old || is_err result) }
        ensures ended { has_ended self.new
            ≡ (has_ended self.old || gave_end result (length buf.old)) }
        ensures unasked { is_over self.old ≡ true → self.new ≡ self.old }
        ensures calls { is_over self.old ≡ false →
            calls_of self.new ≡ min (calls_of self.old + 1) (2 ^ 64 - 1) }
        ensures few { calls_of self.new ≤ calls_of self.old + 1 }
        ensures once { is_over self.old ≡ false → R.Once (device_of self.old)
            (device_of self.new) (length buf.old) (is_err result) }
    {
        if self.failed {
            return Err(refusal());
        }
        if self.ended {
            return Ok(0);
        }
        self.calls = self.calls.saturating_add(1);
        match self.inner.ask(buf) {
            Ok(count) => {
                if count == 0 && !buf.is_empty() {
                    self.ended = true;
                }
                Ok(count)
            }
            Err(error) => {
                self.failed = true;
                Err(error)
            }
        }
    }
}

/// A writer of which one call is told apart from two.
pub trait Told: Write {
    /// From the first to the second one write was made, of so many bytes, that failed or didn't.
    ghost Took: { Self → Self → ℕ → Bool → Type 0 };

    /// The same of one flush.
    ghost Flushed: { Self → Self → Bool → Type 0 };

    /// Writes, once.
    fn tell(&mut self, buf: &[u8]) -> io::Result<usize>
        ensures bound { WritesAtMost result buf.now }
        ensures bytes { WriteAppends (Self.contents self.old) (Self.contents self.new)
            result buf.now }
        ensures once { Took self.old self.new (length buf.now) (is_err result) };

    /// Flushes, once.
    fn hand_over(&mut self) -> io::Result<()>
        ensures bytes { Keeps (Self.contents self.old) (Self.contents self.new) }
        ensures once { Flushed self.old self.new (is_err result) };
}

impl<W: Write> Told for W {
    ghost Took = { λ old new offered failed. Unit {0} };

    ghost Flushed = { λ old new failed. Unit {0} };

    fn tell(&mut self, buf: &[u8]) -> io::Result<usize> {
        self.write(buf)
    }

    fn hand_over(&mut self) -> io::Result<()> {
        self.flush()
    }
}

impl<W: Told> Write for Watched<W> {
    ghost use Rattle.afdx_input_lines.specs.Watching.{device_of, has_failed, has_ended, calls_of};
    ghost use Rattle.afdx_input_lines.specs.Watching.{flush_has_failed};

    ghost contents = { λ w. W.contents (device_of w) };

    /// Writes, but to a device that failed: that isn't asked.
    fn write(&mut self, buf: &[u8]) -> io::Result<usize>
        ensures bound { WritesAtMost result buf.now }
        ensures bytes { WriteAppends (W.contents (device_of self.old))
            (W.contents (device_of self.new)) result buf.now }
        ensures failed { has_failed self.new
            ≡ (has_failed self.old || took_none result (length buf.now)) }
        ensures flushed { flush_has_failed self.new ≡ flush_has_failed self.old }
        ensures ended { has_ended self.new ≡ has_ended self.old }
        ensures unasked { has_failed self.old ≡ true → self.new ≡ self.old }
        ensures calls { has_failed self.old ≡ false →
            calls_of self.new ≡ min (calls_of self.old + 1) (2 ^ 64 - 1) }
        ensures once { has_failed self.old ≡ false → W.Took (device_of self.old)
            (device_of self.new) (length buf.now) (is_err result) }
    {
        if self.failed() {
            return Err(refusal());
        }
        self.calls = self.calls.saturating_add(1);
        match self.inner.tell(buf) {
            Ok(count) => {
                if count == 0 && !buf.is_empty() {
                    self.failed = true;
                }
                Ok(count)
            }
            Err(error) => {
                self.failed = true;
                Err(error)
            }
        }
    }

    fn flush(&mut self) -> io::Result<()>
        ensures bytes { Keeps (W.contents (device_of self.old)) (W.contents (device_of self.new)) }
        ensures failed { has_failed self.new ≡ has_failed self.old }
        ensures flushed { flush_has_failed self.new ≡ (flush_has_failed self.old || is_err result) }
        ensures ended { has_ended self.new ≡ has_ended self.old }
        ensures calls { calls_of self.new ≡ calls_of self.old }
        ensures once { W.Flushed (device_of self.old) (device_of self.new) (is_err result) }
    {
        let flushed = self.inner.hand_over();
        if flushed.is_err() {
            self.flush_failed = true;
        }
        flushed
    }
}
