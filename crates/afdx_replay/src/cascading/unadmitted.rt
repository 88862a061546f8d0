//! Replaying a list of frames through several switches on each side, admitted or not.

ghost use Rattle.std.specs.Prelude.{◌≡◌, ◌≤◌, ◌+◌, IfSome, OnOk, true, false};
ghost use Rattle.afdx_input_lines.specs.Calls.{is_failed_read, is_failed_write};
ghost use Rattle.afdx_input_lines.specs.Lines.{most_reads};
ghost use Rattle.afdx_input_lines.specs.Watching.{calls_of, device_of, has_ended, has_failed};
ghost use Rattle.afdx_replay.specs.cascading.Ran.{Answers};

use crate::cascading::run::Cascading;
use crate::cascading::sites::{SitedLines, sites_of};
use afdx_command_tables::Summary;
use afdx_config::Switches;
use afdx_input_lines::{RunFault, Watched};
use afdx_input_sources::run_list;
use afdx_text::{AtOnce, Text};
use std::alloc::Global;
use std::io::{Read, Stderr, Write};

/// Replays a list of frames through several switches on each side, which cables join, and the
/// systems behind them.
///
/// Each line names a switch: `F 3000 A fwd 1 ..`. Its events are handed to `output` before the next
/// line is read: what happens at all switches before its frame arrives, in the one order of events,
/// and then what became of that; at the end, all that is still to happen. A list that can't be read
/// ends the run with its first fault; the text of the events up to the line before stands written.
///
/// Whether the switches are admitted or not, the lines of each, without its name, are the text of
/// a run of its own tables on what came to it; a cable brings byte for byte, in order, what left
/// the port at its other end; and on a side each switch accepts a frame at most as often as the
/// list has it there. `RunFault::Read` and `RunFault::Write` come exactly where the input's or the
/// output's device failed; neither is tried again.
pub fn run_cascade_unadmitted<R: Read, W: Write>(
    alloc: Global,
    switches: &Switches,
    input: &mut Watched<R>,
    output: &mut Watched<W>,
) -> Result<Summary, RunFault>
    requires sound_input { has_failed input.old ≡ false }
    requires unended { has_ended input.old ≡ false }
    requires sound_output { has_failed output.old ≡ false }
    ensures ended { OnOk result (has_ended input.new ≡ true) }
    ensures read { has_failed input.new ≡ is_failed_read result }
    ensures write { has_failed output.new ≡ is_failed_write result }
    ensures calls { calls_of input.new ≤ calls_of input.old + most_reads }

    // Where the input's bytes are known: what is answered and written for the list that they are.
    ensures answer { IfSome (R.remaining (device_of input.old)) (λ bytes.
        Answers switches.now bytes (R.remaining (device_of input.new))
        (W.contents (device_of output.old)) (W.contents (device_of output.new)) result) }
{
    let mut text = Text::new(alloc);
    let mut output = AtOnce::new(output, &mut text);
    let sites = sites_of(alloc, switches)?;
    let form = SitedLines {
        switches: sites.as_slice(),
    };
    // (there is no device that is told of frames that came too early: any kind serves)
    let mut cascading: Cascading<'_, Stderr> = Cascading::new(alloc, switches)?;
    let lines = run_list(alloc, form, &mut cascading, input, &mut output)?;
    let mut summary = cascading.teller.counts;
    summary.lines = lines;
    Ok(summary)
}
