//! Lines that are told, and how many of them are findings.

ghost use Rattle.std.specs.Prelude.{◌≡◌, OnErr, OnOk, false, min};
ghost use Rattle.std.specs.Io.KnownBytes.{Appends};
ghost use Rattle.afdx_command_conform.specs.Telling as spec;
ghost use Rattle.afdx_input_lines.specs.Calls.{AppendsFront};
ghost use Rattle.afdx_text.specs.Sinks.{SinkKept};

use afdx_input_lines::RunFault;
use afdx_text::{ConformLine, OutLine, Sink};

/// Whether a line says what the switch did wrong, or a system as a sender.
fn is_finding(line: &ConformLine) -> bool
    ensures { result ≡ spec.is_finding line.now }
{
    match line {
        ConformLine::Found { .. } => true,
        ConformLine::Sender { .. } | ConformLine::Sourceless { .. } => true,
        ConformLine::Unsure { .. } | ConformLine::Judged(_) => false,
    }
}

/// How many lines say so.
pub fn findings_in(lines: &[ConformLine]) -> u64
    ensures { result ≡ min (spec.findings_in lines.now) spec.most_counted }
{
    let mut count: u64 = 0;
    for line in lines {
        if is_finding(line) {
            count = count.saturating_add(1);
        }
    }
    count
}

/// Puts some lines.
pub fn put_lines<O: Sink>(lines: &[ConformLine], output: &mut O) -> Result<(), RunFault>
    requires sound { O.failed output.old ≡ false }
    ensures sink { SinkKept O.failed O.settings output.old output.new result }
    ensures told { OnOk result (Appends (O.written output.old) (O.written output.new)
        (spec.lines_text lines.now)) }
    ensures begun { OnErr result (AppendsFront (O.written output.old) (O.written output.new)
        (spec.lines_text lines.now)) }
{
    for line in lines {
        output.put(&OutLine::Conform(*line))?;
    }
    Ok(())
}
