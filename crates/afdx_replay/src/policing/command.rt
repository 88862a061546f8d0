//! The command `police`.

ghost use Rattle.std.specs.Prelude.{◌≡◌, ◌≤◌, ◌+◌, ◌⊎◌, ◌↔◌, IfSome, IsSome, codes, false};
ghost use Rattle.afdx_input_lines.specs.Lines.{most_reads};
ghost use Rattle.afdx_text.specs.Telling.{Tells};
ghost use Rattle.afdx_command_tables.specs.Commands.{IsFourIfFailed, IsWholeIfDone};
ghost use Rattle.afdx_replay.specs.policing.Command.{commanded_rule, usual_rule, EndsPolicing, IsCommanded};
ghost use Rattle.afdx_command_tables.specs.declared.ending.Ended.{Ended as End};
ghost use Rattle.afdx_input_lines.specs.Watching.{calls_of, device_of, has_ended, has_failed};

use crate::policing::run::run_police;
use afdx_command_tables::end;
use afdx_command_tables::status::WRONG_WORDS;
use afdx_frame::{LAST_PORT, LEAST_FRAME, Policing, VlId};
use afdx_input_lines::Watched;
use afdx_police::LinkRule;
use afdx_text::tell;
use std::alloc::Global;
use std::io::{Read, Write};

const LARGEST_LINK: u64 = 65_535;

/// The rule of a link as a command is given it: its values may be out of their ranges.
///
/// `vl` is the link's identifier, `port` the one input port of its frames, `bag_ms` the gap in
/// milliseconds, `lmin` and `lmax` the least and greatest frame length in bytes with the check
/// sequence, `jitter_us` the admitted jitter in microseconds.
#[derive(Clone, Copy, Debug)]
pub struct CommandedRule {
    pub vl: u64,
    pub port: u64,
    pub bag_ms: u64,
    pub lmin: u64,
    pub lmax: u64,
    pub jitter_us: u64,
    pub policing: Policing,
}

impl CommandedRule {
    ghost use Rattle.afdx_police.specs.RuleOf.{rule_of};

    /// The rule, if each value is in its range.
    pub(crate) fn rule(&self) -> Option<LinkRule>
        ensures in_range { IsSome result ↔ IsCommanded self.now }
        ensures given { IfSome result (λ rule. rule_of rule ≡ commanded_rule self.now) }
    {
        if self.vl > LARGEST_LINK || self.port > u64::from(LAST_PORT) {
            return None;
        }
        LinkRule::new(
            VlId(self.vl as u16),
            self.port as u8,
            self.bag_ms,
            self.lmin,
            self.lmax,
            self.jitter_us,
            self.policing,
        )
    }
}

/// Polices the frames of link 1 at port 1, of 64 to `lmax` bytes, by bytes, with a gap of `bag_ms`
/// milliseconds and a jitter of `jitter_us` microseconds: verdicts go to `output`, a fault's one
/// line to `errors`. The exit status is 0 done, 2 a value out of range, 3 a fault of the list, 4 a
/// device or memory.
pub fn police<R: Read, O: Write, E: Write>(
    alloc: Global,
    bag_ms: u64,
    lmax: u64,
    jitter_us: u64,
    input: &mut Watched<R>,
    output: &mut Watched<O>,
    errors: &mut Watched<E>,
) -> u8
    requires sound_input { has_failed input.old ≡ false }
    requires unended { has_ended input.old ≡ false }
    requires sound_output { has_failed output.old ≡ false }
    ensures statuses { (result ≡ 0) ⊎ (result ≡ 2) ⊎ (result ≡ 3) ⊎ (result ≡ 4) }
    ensures done { IsWholeIfDone result input.new (has_failed output.new) }
    ensures device { IsFourIfFailed result input.new (has_failed output.new) }
    ensures calls { calls_of input.new ≤ calls_of input.old + most_reads }
    ensures out_of_range { (IsCommanded (usual_rule bag_ms lmax jitter_us) → ⊥) →
        (result ≡ 2) × Tells E.contents errors.old errors.new (codes "words BadRule\n")
        × (input.new ≡ input.old) × (output.new ≡ output.old) }
    ensures polices { IsCommanded (usual_rule bag_ms lmax jitter_us) →
        (ended : End) × (ended.status ≡ result) × EndsPolicing R.remaining E.contents
        (commanded_rule (usual_rule bag_ms lmax jitter_us)) input.old input.new
        errors.old errors.new (has_failed output.new) (O.contents (device_of output.old))
        (O.contents (device_of output.new)) ended }
{
    let given = CommandedRule {
        vl: 1,
        port: 1,
        bag_ms,
        lmin: LEAST_FRAME as u64,
        lmax,
        jitter_us,
        policing: Policing::Byte,
    };
    let Some(rule) = given.rule() else {
        tell(errors, b"words BadRule\n");
        return WRONG_WORDS;
    };
    let answer = run_police(alloc, &rule, input, output);
    end(answer, errors).status
}
