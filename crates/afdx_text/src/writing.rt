//! Text is handed to a writer.

ghost use Rattle.std.specs.Prelude.{◌≡◌, ◌≤◌, ◌+◌, OnOk, OnErr, IfErr, false, length, nat_lt, take};
ghost use Rattle.std.specs.Io.KnownBytes.{Appends};
ghost use Rattle.afdx_input_lines.specs.Calls.{AppendsFront, is_failed_write};
ghost use Rattle.afdx_input_lines.specs.Watching.{calls_of, device_of, flush_has_failed, has_failed};

use afdx_input_lines::{RunFault, Watched};
use std::io::Write;

/// Hands bytes to a device until it fails, or takes none of some, and gives how many it took. Each
/// call but one that fails takes a byte at least.
pub(crate) fn hand_bytes<W: Write>(bytes: &[u8], device: &mut Watched<W>) -> usize
    requires { has_failed device.old ≡ false }
    ensures within { result ≤ length bytes.now }
    ensures failed { has_failed device.new ≡ nat_lt result (length bytes.now) }
    ensures taken { Appends (W.contents (device_of device.old)) (W.contents (device_of device.new))
        (take result bytes.now) }
    ensures flushed { flush_has_failed device.new ≡ flush_has_failed device.old }
    ensures calls { calls_of device.new ≤ calls_of device.old + length bytes.now }
{
    let mut taken = 0;
    while taken < bytes.len() {
        match device.write(&bytes[taken..]) {
            Ok(0) | Err(_) => return taken,
            Ok(count) => taken += count,
        }
    }
    taken
}

/// Writes the whole text, or a beginning of it where the writer fails, or takes none of some bytes.
///
/// Nothing is written again after such a failure. Each call but that takes a byte at least, and the
/// writer isn't flushed.
pub fn write_text<W: Write>(output: &mut Watched<W>, text: &[u8]) -> Result<(), RunFault>
    requires { has_failed output.old ≡ false }
    ensures failed { has_failed output.new ≡ is_failed_write result }
    ensures fault { IfErr result (λ fault. fault ≡ RunFault.Write) }
    ensures written { OnOk result (
        Appends (W.contents (device_of output.old)) (W.contents (device_of output.new)) text.now) }
    ensures front { OnErr result (
        AppendsFront (W.contents (device_of output.old)) (W.contents (device_of output.new))
        text.now) }
    ensures flushed { flush_has_failed output.new ≡ flush_has_failed output.old }
    ensures calls { calls_of output.new ≤ calls_of output.old + length text.now }
{
    let taken = hand_bytes(text, output);
    if taken < text.len() {
        return Err(RunFault::Write);
    }
    Ok(())
}
