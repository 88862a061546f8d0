//! Policing over whatever gives a run its arrivals.

ghost use Rattle.std.specs.Prelude.{◌≡◌, IfSome, OnOk, false};
ghost use Rattle.afdx_police.specs.RuleOf.{rule_of};
ghost use Rattle.afdx_input_lines.specs.Calls.{is_failed_read, is_failed_write};
ghost use Rattle.afdx_input_runs.specs.Arrivals.{TakesFrames};
ghost use Rattle.afdx_input_sources.specs.Claims.{one_port};
ghost use Rattle.afdx_replay.specs.policing.Input.{Polices};

use crate::input_ending::InputSummary;
use crate::policing::run::Police;
use afdx_command_tables::{NO_COUNTS, Summary};
use afdx_input_lines::{Heading, RunFault};
use afdx_input_runs::{Reading, RunInput};
use afdx_input_sources::{FrameLines, Placing, UnsaidPort};
use afdx_police::LinkRule;
use afdx_text::Sink;
use std::alloc::Global;

/// Polices the arrivals of an input for one virtual link. Frames of a recording come in at the
/// link's port, where no option says another.
pub(crate) fn police_over<P: Placing + Drop, A: RunInput<P, Heading>, O: Sink>(
    alloc: Global,
    options: P,
    rule: &LinkRule,
    input: &mut A,
    output: &mut O,
) -> Result<InputSummary, RunFault>
    requires new { A.IsNew input.old }
    requires sound_output { O.failed output.old ≡ false }
    ensures ended { OnOk result (A.ended input.new) }
    ensures read { A.failed input.new ≡ is_failed_read result }
    ensures write { O.failed output.new ≡ is_failed_write result }
    ensures calls { A.IsAskedFew (P.is_settled options) input.old input.new }

    // Where its bytes are known: what is answered and written for the arrivals that it takes.
    ensures polices { IfSome (A.known input.old) (λ bytes. Polices (rule_of rule.now)
        (A.Takes TakesFrames options (one_port (rule_of rule.now).port) bytes input.new)
        (O.written output.old) (O.written output.new) result) }
{
    let mut police = Police::new(rule);
    let reading = Reading {
        unsaid: UnsaidPort::One(rule.port),
        form: FrameLines,
    };
    let count = input.tell_all(alloc, options, reading, &mut police, output)?;
    let counts = Summary {
        accepted: police.accepted,
        dropped: police.dropped,
        ..NO_COUNTS
    };
    Ok(InputSummary::of(counts, count))
}
