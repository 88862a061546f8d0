//! A text is offered to a writer in one write.

ghost use Rattle.std.specs.Prelude.{ℕ, Bool, List, Option, ◌≤◌, is_err, length, take};
ghost use Rattle.std.specs.Io.{WritesAtMost};
ghost use Rattle.std.specs.Io.KnownBytes.{Appends, Keeps, WriteAppends};
ghost use Rattle.std.specs.Result.{result_ok};
ghost use Rattle.afdx_text.specs.WholeLines.{OffersWhole};

use std::io;
use std::io::Write;

/// A writer of which one call is told apart from two.
pub trait Offered: Write {
    /// From the first to the second one write was made, of these bytes, which took so many of them,
    /// or failed.
    ghost Took: { Self → Self → List ℕ → Option ℕ → Type 0 };

    /// The same of one flush, which failed or didn't.
    ghost Flushed: { Self → Self → Bool → Type 0 };

    /// Writes, once.
    fn offer(&mut self, bytes: &[u8]) -> io::Result<usize>
        ensures bound { WritesAtMost result bytes.now }
        ensures bytes { WriteAppends (Self.contents self.old) (Self.contents self.new)
            result bytes.now }
        ensures once { Took self.old self.new bytes.now (result_ok result) };

    /// Flushes, once.
    fn hand_on(&mut self) -> io::Result<()>
        ensures bytes { Keeps (Self.contents self.old) (Self.contents self.new) }
        ensures once { Flushed self.old self.new (is_err result) };
}

impl<W: Write> Offered for W {
    ghost Took = { λ old new bytes taken. Unit {0} };

    ghost Flushed = { λ old new failed. Unit {0} };

    fn offer(&mut self, bytes: &[u8]) -> io::Result<usize> {
        self.write(bytes)
    }

    fn hand_on(&mut self) -> io::Result<()> {
        self.flush()
    }
}

/// Offers a text to a writer in one write, and what that didn't take again, until the writer fails,
/// or takes none of some bytes. Gives how many it took.
pub(crate) fn offer_whole<W: Offered>(device: &mut W, text: &[u8]) -> usize
    ensures within { result ≤ length text.now }
    ensures taken { Appends (W.contents device.old) (W.contents device.new)
        (take result text.now) }
    ensures whole { OffersWhole W.Took device.old device.new text.now }
{
    let first = match device.offer(text) {
        Ok(count) => count,
        Err(_) => return 0,
    };
    if first == 0 || first == text.len() {
        return first;
    }
    let mut taken = first;
    while taken < text.len() {
        match device.write(&text[taken..]) {
            Ok(0) | Err(_) => return taken,
            Ok(count) => taken += count,
        }
    }
    taken
}
