//! Lines that are due, and whose they are.

ghost use Rattle.std.specs.Prelude.{◌≡◌, ◌++◌, OnErr, OnOk, false, map};
ghost use Rattle.std.specs.Io.KnownBytes.{Appends};
ghost use Rattle.afdx_command_conform.specs.Lines.{due_at};
ghost use Rattle.afdx_command_conform.specs.Telling as spec;
ghost use Rattle.afdx_input_lines.specs.Calls.{AppendsFront};
ghost use Rattle.afdx_text.specs.Sinks.{SinkKept};

use crate::key::Key;
use afdx_input_lines::RunFault;
use afdx_text::{ConformLine, OutLine, Sink};
use std::alloc::AllocError;

/// A line that is due at a moment, in ns, and whose it is.
#[derive(Clone, Copy, Debug)]
pub struct DueLine {
    pub moment: u64,
    pub key: Key,
    pub line: ConformLine,
}

/// Lines of one key are due at one moment, behind those that are.
pub(crate) fn add_lines(
    moment: u64,
    key: Key,
    lines: &[ConformLine],
    due: &mut Vec<DueLine>,
) -> Result<(), AllocError>
    ensures { OnOk result
        (due.new.items ≡ due.old.items ++ map (due_at key moment) lines.now) }
{
    for line in lines {
        let line = *line;
        due.push(DueLine { moment, key, line })?;
    }
    Ok(())
}

/// Puts what is due, in its order.
pub fn put_due<O: Sink>(due: &[DueLine], output: &mut O) -> Result<(), RunFault>
    requires sound { O.failed output.old ≡ false }
    ensures sink { SinkKept O.failed O.settings output.old output.new result }
    ensures told { OnOk result (Appends (O.written output.old) (O.written output.new)
        (spec.lines_text (map (λ d. d.line) due.now))) }
    ensures begun { OnErr result (AppendsFront (O.written output.old) (O.written output.new)
        (spec.lines_text (map (λ d. d.line) due.now))) }
{
    for next in due {
        output.put(&OutLine::Conform(next.line))?;
    }
    Ok(())
}
