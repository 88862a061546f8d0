//! What is told at once of a switch and of the systems that send to it, in one order.

ghost use Rattle.std.specs.Prelude.{◌≡◌, ◌+◌, ◌*◌, ◌∷◌, [], ℕ, IfNone, IfSome, OnErr, OnOk, false, map, min, true};
ghost use Rattle.std.specs.Io.KnownBytes.{Appends};
ghost use Rattle.afdx_input_lines.specs.Calls.{AppendsFront};
ghost use Rattle.afdx_senders.specs.Lines.{line_of};
ghost use Rattle.afdx_senders.specs.Order as order;
ghost use Rattle.afdx_text.specs.Sinks.{SinkKept};
ghost use Rattle.afdx_command_conform.specs.Telling.{findings_in, lines_text, most_counted};
ghost use Rattle.afdx_command_senders.specs.Merging as spec;
ghost use Rattle.afdx_command_senders.specs.Merging.{lines_up, merged};
ghost use Rattle.afdx_command_senders.specs.SenderRun.{IsSameButFindings, told_in};
ghost use Rattle.afdx_command_senders.specs.SenderTexts.{told_lines};

use crate::judging::SendersRun;
use afdx_command_conform::{DueLine, put_due};
use afdx_frame::Side;
use afdx_input_lines::RunFault;
use afdx_senders::SenderLine;
use afdx_text::{OutLine, Sink};

/// Where a port of a side stands among all ports.
fn spot(side: Side, port: u8) -> u64
    ensures { result ≡ order.side_rank side * 256 + port }
{
    match side {
        Side::A => u64::from(port),
        Side::B => 256 + u64::from(port),
    }
}

/// Whether a line of the switch comes before what is found of a system's frame.
fn comes_before(next: &DueLine, line: &SenderLine) -> bool
    ensures { result ≡ spec.comes_before next.now (line_of line.now) }
{
    let here = spot(next.key.side, next.key.port);
    let there = spot(line.side, line.port);
    if next.moment < line.moment {
        return true;
    }
    next.moment == line.moment && here < there
}

/// The first of some lines of the switch, if it comes before what is found of a system's frame, and
/// the others.
fn next_before<'a>(due: &'a [DueLine], line: &SenderLine) -> Option<(&'a DueLine, &'a [DueLine])>
    ensures next { IfSome result (λ some. (due.now ≡ some.0.now ∷ some.1.now)
        × (spec.comes_before some.0.now (line_of line.now) ≡ true)) }
    ensures none { IfNone result (spec.IsNoneBefore (line_of line.now) due.now) }
{
    let [next, rest @ ..] = due else {
        return None;
    };
    if comes_before(next, line) {
        Some((next, rest))
    } else {
        None
    }
}

/// The first of what is found of some frames, and the others.
fn first_of<'a>(lines: &'a [SenderLine]) -> Option<(&'a SenderLine, &'a [SenderLine])>
    ensures next { IfSome result (λ some. lines.now ≡ some.0.now ∷ some.1.now) }
    ensures none { IfNone result (lines.now ≡ []) }
{
    match lines {
        [first, rest @ ..] => Some((first, rest)),
        [] => None,
    }
}

/// Tells what is found of some frames, and counts it, and between it lines of the switch: all in
/// one order. Both have the oldest first.
pub(crate) fn tell_merged<O: Sink>(
    senders: &mut SendersRun<'_>,
    mut lines: &[SenderLine],
    mut due: &[DueLine],
    output: &mut O,
) -> Result<(), RunFault>
    requires sound { O.failed output.old ≡ false }
    ensures sink { SinkKept O.failed O.settings output.old output.new result }
    ensures others { IsSameButFindings senders.old senders.new }
    ensures told { OnOk result (Appends (O.written output.old) (O.written output.new)
        (lines_text (lines_up (merged (map line_of lines.entry.now) due.entry.now)))) }
    ensures counted { (n : ℕ) → senders.old.findings ≡ min n most_counted →
        OnOk result (senders.new.findings
        ≡ min (n + findings_in (told_lines (told_in lines.entry.now))) most_counted) }
    ensures begun { OnErr result (AppendsFront (O.written output.old) (O.written output.new)
        (lines_text (lines_up (merged (map line_of lines.entry.now) due.entry.now)))) }
{
    while let Some((line, more)) = first_of(lines) {
        match next_before(due, line) {
            Some((next, rest)) => {
                output.put(&OutLine::Conform(next.line))?;
                due = rest;
            }
            None => {
                senders.tell_line(line, output)?;
                lines = more;
            }
        }
    }
    put_due(due, output)
}
