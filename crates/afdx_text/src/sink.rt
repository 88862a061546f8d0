//! Where the lines of the output go.

ghost use Rattle.std.specs.Prelude.{◌≡◌, ℕ, Bool, List, Option, OnOk, OnErr, false};
ghost use Rattle.std.specs.Io.KnownBytes.{Appends};
ghost use Rattle.afdx_input_lines.specs.Calls.{AppendsFront};
ghost use Rattle.afdx_input_lines.specs.Watching.{device_of, has_failed};
ghost use Rattle.afdx_text.specs.OutLines.{line_text};
ghost use Rattle.afdx_text.specs.Sinks.{SinkKept};

use crate::line::OutLine;
use crate::text::Text;
use crate::writing::write_text;
use afdx_input_lines::{RunFault, Watched};
use std::io::Write;

/// Takes the lines of the output, one after another.
pub trait Sink {
    /// What was put, where that is known.
    ghost written: { Self → Option (List ℕ) };

    /// Whether its device has failed.
    ghost failed: { Self → Bool };

    /// What it works by, which no call changes.
    ghost Settings: { Type 0 };

    ghost settings: { Self → Settings };

    /// Puts a line. Where that fails, a beginning of it was put, and the device isn't asked again.
    fn put(&mut self, line: &OutLine<'_>) -> Result<(), RunFault>
        requires sound { failed self.old ≡ false }
        ensures sink { SinkKept failed settings self.old self.new result }
        ensures whole { OnOk result
            (Appends (written self.old) (written self.new) (line_text line.now)) }
        ensures front { OnErr result
            (AppendsFront (written self.old) (written self.new) (line_text line.now)) };
}

/// Hands each line at once to a device that was lent to it.
#[derive(Drop)]
pub struct AtOnce<'a, W> {
    device: &'a mut Watched<W>,
    /// Where a line is put together.
    text: &'a mut Text,
}

impl<'a, W> AtOnce<'a, W> {
    /// A sink before this device. What `text` held is lost.
    pub fn new(device: &'a mut Watched<W>, text: &'a mut Text) -> AtOnce<'a, W>
        ensures same_reference { result.device.ghost_name ≡ device.entry.ghost_name }
        ensures device { result.device.now ≡ device.old }
    {
        AtOnce { device, text }
    }
}

impl<W: Write> Sink for AtOnce<'_, W> {
    ghost written = { λ sink. W.contents (device_of sink.device.now) };

    ghost failed = { λ sink. has_failed sink.device.now };

    /// The device that it was lent.
    ghost Settings = { ℕ };

    ghost settings = { λ sink. sink.device.ghost_name };

    fn put(&mut self, line: &OutLine<'_>) -> Result<(), RunFault> {
        self.text.clear();
        line.put(&mut *self.text)?;
        write_text(&mut *self.device, self.text.as_bytes())
    }
}
