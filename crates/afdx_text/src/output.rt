//! The output of a run: lines that are held until there is no more room for them, before a device.

ghost use Rattle.std.specs.Prelude.{◌≡◌, ◌≤◌, ◌+◌, [], Bool, OnOk, OnErr, IfOk, IfErr, false, true, is_err, nat_eq};
ghost use Rattle.std.specs.Io.KnownBytes.{Appends, Keeps};
ghost use Rattle.afdx_input_lines.specs.Calls.{AppendsFront};
ghost use Rattle.afdx_input_lines.specs.Watching.{has_failed};
ghost use Rattle.afdx_text.specs.Flushing.{HandsOn};
ghost use Rattle.afdx_text.specs.OutLines.{line_text};
ghost use Rattle.afdx_text.specs.Outputs.{written, held_bytes, room_of, is_at_once};
ghost use Rattle.afdx_text.specs.Outputs.{inner_device, device_has_failed};
ghost use Rattle.afdx_text.specs.PutFaults.{IsKept, is_unwritten};
ghost use Rattle.afdx_text.specs.Sinks.{SinkKept};

use crate::line::OutLine;
use crate::put_fault::SinkFault;
use crate::sink::Sink;
use crate::text::Text;
use crate::writing::hand_bytes;
use afdx_input_lines::{RunFault, Told, Watched};
use std::alloc::{AllocError, Global};
use std::io::Write;

/// Holds lines until there is no more room for them, and then hands all to its device.
///
/// What was handed to the device and what is held are together what was put, in order. Once the
/// device has failed nothing is handed to it any more, by `flush` neither. What is held when it is
/// dropped is not handed over.
#[derive(Drop)]
pub struct Output<W> {
    device: Watched<W>,
    held: Text,
    /// Each line is handed over as soon as it is put.
    is_at_once: bool,
}

impl<W: Write + Drop> Output<W> {
    /// Room for so many bytes before a device. With none, each line is handed over at once.
    pub fn new(alloc: Global, room: usize, device: W) -> Result<Output<W>, AllocError>
        ensures empty { IfOk result (λ o. written W.contents o ≡ W.contents device) }
        ensures sound { IfOk result (λ o. device_has_failed o ≡ false) }
        ensures room { IfOk result (λ o. room ≤ room_of o) }
        ensures at_once { IfOk result (λ o. is_at_once o ≡ nat_eq room 0) }
    {
        let mut held = Text::new(alloc);
        held.make_room(room)?;
        Ok(Output {
            device: Watched::new(device),
            held,
            is_at_once: room == 0,
        })
    }

    /// Whether a write to the device, or its flush, has failed.
    pub fn failed(&self) -> bool
        ensures { result ≡ device_has_failed self.now }
    {
        self.device.failed() || self.device.flush_failed()
    }

    /// The device, as it then is. What is held is lost.
    pub fn into_device(self) -> W
        ensures { result ≡ inner_device self }
    {
        self.device.into_inner()
    }

    /// Hands all that is held to the device, which has not failed before.
    fn hand_over(&mut self) -> Result<(), SinkFault>
        requires { device_has_failed self.old ≡ false }
        ensures none_left { OnOk result (held_bytes self.new ≡ []) }
        ensures refused { OnErr result (has_failed self.new.device ≡ true) }
        ensures failed { device_has_failed self.new ≡ is_unwritten result }
        ensures fault { IfErr result (λ fault. fault ≡ SinkFault.Write) }
        ensures bytes { Keeps (written W.contents self.old) (written W.contents self.new) }
        ensures at_once { is_at_once self.new ≡ is_at_once self.old }
    {
        let taken = hand_bytes(self.held.as_bytes(), &mut self.device);
        self.held.remove_front(taken);
        if self.device.failed() {
            return Err(SinkFault::Write);
        }
        Ok(())
    }

    /// Makes room for so many more bytes: first all that is held is handed over.
    #[cold]
    #[inline(never)]
    fn make_room(&mut self, more: usize) -> Result<(), SinkFault>
        requires { device_has_failed self.old ≡ false }
        ensures kept { IsKept device_has_failed is_at_once self.old self.new result }
        ensures bytes { Keeps (written W.contents self.old) (written W.contents self.new) }
        ensures room { OnOk result (self.new.held.end + more ≤ self.new.held.room.len) }
    {
        self.hand_over()?;
        self.held.make_room(more)?;
        Ok(())
    }

    /// Puts a line, which is held.
    #[inline(always)]
    fn hold(&mut self, line: &OutLine<'_>) -> Result<(), SinkFault>
        requires { device_has_failed self.old ≡ false }
        ensures put { OnOk result (Appends (written W.contents self.old)
            (written W.contents self.new) (line_text line.now)) }
        ensures same { OnErr result
            (Keeps (written W.contents self.old) (written W.contents self.new)) }
        ensures kept { IsKept device_has_failed is_at_once self.old self.new result }
    {
        let most = line.room_wanted()?;
        if !self.held.has_room(most) {
            self.make_room(most)?;
        }
        self.held.add(line);
        Ok(())
    }
}

impl<W: Told + Drop> Output<W> {
    /// Hands all that is held to the device, and then flushes that, and answers as it does. An
    /// error comes exactly where the device has failed. One that failed before is not asked, and
    /// one that fails to take what is held isn't flushed.
    pub fn flush(&mut self) -> Result<(), RunFault>
        ensures none_left { device_has_failed self.new ≡ false → held_bytes self.new ≡ [] }
        ensures failed { device_has_failed self.new ≡ is_err result }
        ensures fault { IfErr result (λ fault. fault ≡ RunFault.Write) }
        ensures unasked { device_has_failed self.old ≡ true → self.new ≡ self.old }
        ensures bytes { Keeps (written W.contents self.old) (written W.contents self.new) }
        ensures handed_on { device_has_failed self.old ≡ false →
            has_failed self.new.device ≡ false →
            HandsOn W.contents W.Flushed (written W.contents self.old) (inner_device self.new)
            (is_err result) }
    {
        if self.failed() {
            return Err(RunFault::Write);
        }
        self.hand_over()?;
        match self.device.flush() {
            Ok(()) => Ok(()),
            Err(_) => Err(RunFault::Write),
        }
    }
}

impl<W: Write + Drop> Sink for Output<W> {
    ghost written = { λ o. written W.contents o };

    ghost failed = { λ o. device_has_failed o };

    ghost Settings = { Bool };

    ghost settings = { λ o. is_at_once o };

    /// Puts a line in its place among those that are held. Where that fails, none of it was put; or
    /// all of it, where it is handed over at once and the device failed. Where lines are handed
    /// over at once nothing is held after it.
    #[inline(always)]
    fn put(&mut self, line: &OutLine<'_>) -> Result<(), RunFault>
        requires sound { device_has_failed self.old ≡ false }
        ensures sink { SinkKept device_has_failed is_at_once self.old self.new result }
        ensures whole { OnOk result (Appends (written W.contents self.old)
            (written W.contents self.new) (line_text line.now)) }
        ensures front { OnErr result (AppendsFront (written W.contents self.old)
            (written W.contents self.new) (line_text line.now)) }
        ensures at_once { is_at_once self.old ≡ true → OnOk result (held_bytes self.new ≡ []) }
    {
        self.hold(line)?;
        if self.is_at_once {
            self.hand_over()?;
        }
        Ok(())
    }
}
