//! Faults are told, each in one line, without memory.

ghost use Rattle.std.specs.Prelude.{decimal};
ghost use Rattle.afdx_text.specs.Telling.{Tells, TellsFault};

use crate::fault_line::{LONGEST_LINE, put_fault};
use crate::writing::write_text;
use afdx_input_lines::{RunFault, Watched};
use arrayvec::ArrayString;
use itoa::Buffer;
use std::io::Write;

/// Hands a text to a device, or a beginning of it where that fails. A device that failed before is
/// not asked.
pub fn tell<W: Write>(device: &mut Watched<W>, text: &[u8])
    ensures { Tells W.contents device.old device.new text.now }
{
    if !device.failed() {
        let _ = write_text(device, text);
    }
}

/// Hands a number to a device, in decimal digits, or a beginning of them where that fails.
pub fn tell_number<W: Write>(device: &mut Watched<W>, number: u64)
    ensures { Tells W.contents device.old device.new (decimal number) }
{
    let mut digits = Buffer::new();
    tell(device, digits.format(number).as_bytes());
}

/// Hands the one line of a fault to a device, in one write, or a beginning of it where that fails.
/// A device that failed before is not asked.
pub fn tell_fault<W: Write>(device: &mut Watched<W>, fault: &RunFault)
    ensures { TellsFault W.contents device.old device.new fault.now }
{
    let mut line = ArrayString::<LONGEST_LINE>::new();
    put_fault(&mut line, fault);
    line.push_str("\n");
    tell(device, line.as_str().as_bytes());
}
