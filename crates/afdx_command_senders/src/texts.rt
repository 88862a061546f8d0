//! What is told of frames that systems sent, as lines.

ghost use Rattle.std.specs.Prelude.{◌≡◌, IfOk, OnOk, ◌++◌, map};
ghost use Rattle.afdx_lawful.specs.declared.finding.SenderFinding.{SenderFinding as Finding};
ghost use Rattle.afdx_senders.specs.Lines.{line_of};
ghost use Rattle.afdx_text.specs.declared.conform_line.ConformLine.TheVariants.{Sender};
ghost use Rattle.afdx_command_senders.specs.SenderTexts as spec;

use afdx_frame::Side;
use afdx_lawful::{Flaw, SenderFinding};
use afdx_senders::{SenderLine, Stray, ToldOf};
use afdx_text::{ConformLine, NoSource};
use std::alloc::{AllocError, Global};

/// The line of frame `n`, which is no source's, at a system's port.
fn stray_line(n: u64, side: Side, port: u8, stray: Stray) -> ConformLine
    ensures { result ≡ spec.stray_line n side port stray }
{
    let why = match stray {
        Stray::Damaged(fault) => {
            let finding = SenderFinding::Unlawful(n, Flaw::Damaged(fault));
            return ConformLine::Sender {
                side,
                port,
                finding,
            };
        }
        Stray::UnknownLink => NoSource::UnknownLink,
        Stray::NotItsLink => NoSource::NotItsLink,
    };
    ConformLine::Sourceless { n, side, port, why }
}

/// Puts the lines of some findings behind others.
fn put_findings(
    lines: &mut Vec<ConformLine>,
    side: Side,
    port: u8,
    findings: &[SenderFinding],
) -> Result<(), AllocError>
    ensures { OnOk result
        (lines.new.items ≡ lines.old.items ++ map (Sender side port) findings.now) }
{
    match findings {
        [] => Ok(()),
        [first, rest @ ..] => {
            lines.push(ConformLine::Sender {
                side,
                port,
                finding: *first,
            })?;
            put_findings(lines, side, port, rest)
        }
    }
}

/// The lines of what is told of a frame, in their order. Fails only out of memory.
pub(crate) fn lines_of(alloc: Global, x: &SenderLine) -> Result<Vec<ConformLine>, AllocError>
    ensures { IfOk result (λ lines. lines.items ≡ spec.lines_of (line_of x.now)) }
{
    let mut lines = Vec::new(alloc);
    match x.told {
        ToldOf::Heard(heard) => {
            let found = heard.findings(alloc, x.line)?;
            put_findings(&mut lines, x.side, x.port, found.as_slice())?;
        }
        ToldOf::Single => lines.push(ConformLine::Sender {
            side: x.side,
            port: x.port,
            finding: SenderFinding::Single(x.line),
        })?,
        ToldOf::Strayed(stray) => lines.push(stray_line(x.line, x.side, x.port, stray))?,
    }
    Ok(lines)
}
