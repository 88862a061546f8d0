//! A reader whose first bytes can be looked at before they are read.

ghost use Rattle.std.specs.Prelude.{◌≤◌, ◌<◌, ◌≡◌, ◌+◌, ◌-◌, ◌⊎◌, take, length, IfSome, true, false};
ghost use Rattle.std.specs.Io.KnownBytes.{Keeps, IsAtEnd};
ghost use Rattle.afdx_input_lines.specs.Watching.{device_of, has_failed};

use crate::watched::{Asked, Watched};
use std::io;
use std::io::Read;

/// The most bytes that are looked at.
const LOOKED_AT: usize = 4;

/// Holds a reader whose first bytes may be looked at. Reads give them all the same.
///
/// Behind its end, or a failure, the reader isn't asked again: whoever reads meets that in its
/// place.
#[derive(Debug, Drop)]
pub struct Peeked<R> {
    inner: Watched<R>,
    first: [u8; LOOKED_AT],
    start: usize,
    end: usize,
    ghost ordered: { start ≤ end },
    ghost within: { end ≤ 4 },
}

impl<R: Read> Peeked<R> {
    ghost use Rattle.afdx_input_lines.specs.Peeking.{held, is_untouched, left_in};

    /// A reader of which nothing was read.
    pub fn new(inner: R) -> Peeked<R>
        ensures untouched { is_untouched result }
        ensures left { left_in R.remaining result ≡ R.remaining inner }
    {
        Peeked {
            inner: Watched::new(inner),
            first: [0; LOOKED_AT],
            start: 0,
            end: 0,
        }
    }

    /// The reader, as it then is.
    pub fn into_inner(self) -> R {
        self.inner.into_inner()
    }

    /// The bytes that are to be looked at, and that no read gave as yet.
    pub fn seen(&self) -> &[u8]
        ensures { result.now ≡ held self.now }
    {
        &self.first[self.start..self.end]
    }
}

impl<R: Asked> Peeked<R> {
    ghost use Rattle.afdx_input_lines.specs.Watching.{still_in};
    ghost use Rattle.afdx_input_lines.specs.Peeking.{held, looked_at, is_untouched, left_in, has_broken};
    ghost use Rattle.afdx_input_lines.specs.Peeking.{IsAsked, is_at_end, reader_of};

    /// Reads its first four bytes, to be looked at, and gives in how many reads. Fewer bytes: it
    /// has no more, or failed after them.
    fn look(&mut self) -> u64
        requires { is_untouched self.old }
        ensures left { Keeps (left_in R.remaining self.old) (left_in R.remaining self.new) }
        ensures asked { IsAsked R.Once (reader_of self.old) result (reader_of self.new)
            (has_broken self.new) }
        ensures at_most { result ≤ looked_at }
        ensures few { has_broken self.new ≡ true → length (held self.new) < looked_at }
        ensures full { has_broken self.new ≡ false →
            (length (held self.new) ≡ looked_at) ⊎ (is_at_end self.new ≡ true) }
        ensures first { has_broken self.new ≡ false → IfSome (left_in R.remaining self.old)
            (λ bytes. held self.new ≡ take looked_at bytes) }
    {
        let mut reads = 0_u64;
        while self.end < LOOKED_AT {
            reads += 1;
            if !self.look_further() {
                return reads;
            }
        }
        reads
    }

    /// Reads once, behind what is held. False: there is no more, or it failed.
    fn look_further(&mut self) -> bool
        requires first { self.old.start ≡ 0 }
        requires few { self.old.end < looked_at }
        requires unbroken { has_broken self.old ≡ false }
        requires unended { is_at_end self.old ≡ false }
        ensures first { self.new.start ≡ 0 }
        ensures seen { length (held self.new) ≡ self.new.end }
        ensures left { Keeps (left_in R.remaining self.old) (left_in R.remaining self.new) }
        ensures once { R.Once (reader_of self.old) (reader_of self.new)
            (looked_at - self.old.end) (has_broken self.new) }
        ensures more { result ≡ true → self.old.end < self.new.end }
        ensures whole { result ≡ true → has_broken self.new ≡ false }
        ensures unended { result ≡ true → is_at_end self.new ≡ false }
        ensures none { result ≡ false → self.new.end ≡ self.old.end }
        ensures last { result ≡ false → has_broken self.new ≡ false →
            is_at_end self.new ≡ true × IsAtEnd (still_in R.remaining self.new.inner) }
    {
        let end = self.end;
        match self.inner.read(&mut self.first[end..]) {
            Ok(count) => {
                self.end += count;
                count > 0
            }
            Err(_) => false,
        }
    }
}

impl<R: Asked> Watched<Peeked<R>> {
    ghost use Rattle.afdx_input_lines.specs.Peeking.{held, is_untouched, HasLooked};

    /// Reads the first four bytes of its reader, to be looked at, in at most four reads. True: the
    /// last of them failed, before the fourth byte, and nothing is read any more.
    pub fn look(&mut self) -> bool
        requires untouched { is_untouched (device_of self.old) }
        requires sound { has_failed self.old ≡ false }
        ensures { HasLooked R.remaining R.Once self.old self.new result }
    {
        let reads = self.inner.look();
        self.calls = self.calls.saturating_add(reads);
        self.failed = self.inner.inner.failed();
        self.failed
    }

    /// The bytes that are to be looked at, and that no read gave as yet.
    pub fn seen(&self) -> &[u8]
        ensures { result.now ≡ held (device_of self.now) }
    {
        self.inner.seen()
    }
}

impl<R: Read> Read for Peeked<R> {
    ghost use Rattle.afdx_input_lines.specs.Peeking.{left_in};

    ghost remaining = { left_in R.remaining };

    fn read(&mut self, buf: &mut [u8]) -> io::Result<usize> {
        if self.start == self.end {
            return self.inner.read(buf);
        }
        let count = buf.len().min(self.end - self.start);
        buf[..count].copy_from_slice(&self.first[self.start..self.start + count]);
        self.start += count;
        Ok(count)
    }
}
