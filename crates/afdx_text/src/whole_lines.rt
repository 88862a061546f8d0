//! Lines that go to a device whole, in however many pieces they come.

ghost use Rattle.std.specs.Prelude.{◌≡◌, ◌≤◌, ◌+◌, ◌++◌, [], IfOk, OnErr, OnOk, Ok, false, true};
ghost use Rattle.std.specs.Prelude.{is_err, length, take};
ghost use Rattle.std.specs.Io.{WritesAtMost};
ghost use Rattle.std.specs.Io.KnownBytes.{Appends, Keeps, WriteAppends, append_known};
ghost use Rattle.afdx_text.specs.Flushing.{HandsOn};
ghost use Rattle.afdx_text.specs.WholeLines.{Fits, OffersWhole, device_under, ends_line};
ghost use Rattle.afdx_text.specs.WholeLines.{given, held_in};

use crate::offered::{Offered, offer_whole};
use arrayvec::ArrayVec;
use std::io;
use std::io::{ErrorKind, Write};

/// The most bytes of a line that is put together. No line of a fault has as many.
const ROOM: usize = 128;

/// Puts bytes behind those that are held.
fn append(held: &mut ArrayVec<u8, ROOM>, bytes: &[u8])
    requires { Fits held.old.items bytes.now }
    ensures { held.new.items ≡ held.old.items ++ bytes.now }
{
    let Ok(()) = held.try_extend_from_slice(bytes) else {
        // (`Fits`: there is room for them)
        unreachable!()
    };
}

/// Hands each line to its device in one write, if it has up to 128 bytes.
///
/// What it is given is held until a piece ends with a line feed. It takes no memory. What it still
/// holds when it is dropped is not handed over.
#[derive(Drop)]
pub struct WholeLines<W> {
    device: W,
    held: ArrayVec<u8, ROOM>,
}

impl<W: Offered> WholeLines<W> {
    /// A device to which nothing was handed yet.
    pub fn new(device: W) -> WholeLines<W>
        ensures device { device_under result ≡ device }
        ensures empty { held_in result ≡ [] }
    {
        WholeLines {
            device,
            held: ArrayVec::new(),
        }
    }

    /// The device, as it then is. What is held is lost.
    pub fn into_device(self) -> W
        ensures { result ≡ device_under self }
    {
        self.device
    }

    /// Hands over what is held, and gives how many bytes were taken behind the first `before`. If
    /// not all of these were, it is an error, and the rest of them is held.
    fn hand_over(&mut self, before: usize) -> io::Result<usize>
        requires { before ≤ length (held_in self.old) }
        ensures within { IfOk result (λ n. before + n ≤ length (held_in self.old)) }
        ensures taken { IfOk result (λ n. Appends (W.contents (device_under self.old))
            (W.contents (device_under self.new)) (take (before + n) (held_in self.old))) }
        ensures none_left { IfOk result (λ n. held_in self.new ≡ []) }
        ensures some_left { OnErr result (held_in self.new ≡ [] → ⊥) }
        ensures kept { OnErr result (Keeps (append_known (W.contents (device_under self.old))
            (take before (held_in self.old))) (given W.contents self.new)) }
        ensures whole { OffersWhole W.Took (device_under self.old) (device_under self.new)
            (held_in self.old) }
    {
        let taken = offer_whole(&mut self.device, self.held.as_slice());
        let mut rest = ArrayVec::new();
        if taken < before {
            append(&mut rest, &self.held.as_slice()[taken..before]);
            self.held = rest;
            return Err(io::Error::from(ErrorKind::Other));
        }
        self.held = rest;
        Ok(taken - before)
    }

    /// Hands over what is held, if anything is.
    fn empty(&mut self) -> io::Result<()>
        ensures bytes { Keeps (given W.contents self.old) (given W.contents self.new) }
        ensures none_left { OnOk result (held_in self.new ≡ []) }
        ensures some_left { OnErr result (held_in self.new ≡ [] → ⊥) }
        ensures whole { OnErr result
            (OffersWhole W.Took (device_under self.old) (device_under self.new)
            (held_in self.old)) }
    {
        if self.held.is_empty() {
            return Ok(());
        }
        let before = self.held.len();
        self.hand_over(before)?;
        Ok(())
    }
}

impl<W: Offered> Write for WholeLines<W> {
    ghost contents = { λ lines. given W.contents lines };

    /// Holds a piece of a line, and hands over the line that it ends. A piece for which there is no
    /// room is handed on, behind what is held.
    fn write(&mut self, piece: &[u8]) -> io::Result<usize>
        ensures bound { WritesAtMost result piece.now }
        ensures bytes { WriteAppends (given W.contents self.old) (given W.contents self.new)
            result piece.now }
        ensures waits { Fits (held_in self.old) piece.now → ends_line piece.now ≡ false →
            (result ≡ Ok (length piece.now)) × (device_under self.new ≡ device_under self.old)
            × (held_in self.new ≡ held_in self.old ++ piece.now) }
        ensures whole { Fits (held_in self.old) piece.now → ends_line piece.now ≡ true →
            OffersWhole W.Took (device_under self.old) (device_under self.new)
            (held_in self.old ++ piece.now) }
    {
        let before = self.held.len();
        if ROOM - before < piece.len() {
            self.empty()?;
            return self.device.write(piece);
        }
        append(&mut self.held, piece);
        if !piece.ends_with(b"\n") {
            return Ok(piece.len());
        }
        self.hand_over(before)
    }

    /// Hands over what is held, and then flushes the device, and answers as that does. Where some
    /// of what is held isn't taken, that is an error, and the device isn't flushed.
    fn flush(&mut self) -> io::Result<()>
        ensures bytes { Keeps (given W.contents self.old) (given W.contents self.new) }
        ensures handed_on { held_in self.new ≡ [] →
            HandsOn W.contents W.Flushed (given W.contents self.old) (device_under self.new)
            (is_err result) }
        ensures refused { (held_in self.new ≡ [] → ⊥) → (is_err result ≡ true)
            × OffersWhole W.Took (device_under self.old) (device_under self.new)
            (held_in self.old) }
    {
        self.empty()?;
        self.device.hand_on()
    }
}
