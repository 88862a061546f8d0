//! Runs over recordings of what came in at switches and of what left them: a machine tells their
//! frames, one by one.

ghost use Rattle.std.specs.Prelude.{◌≡◌, ◌||◌, IfSome, OnOk, true, false};
ghost use Rattle.afdx_input_sources.specs.Engine.{HoldsOfAllTold, IsReadyForAll};
ghost use Rattle.afdx_input_runs.specs.Over.{bytes_by_role};
ghost use Rattle.afdx_input_runs.specs.ReadPair.{IsNewByRole};
ghost use Rattle.afdx_input_runs.specs.RecordingRun.{IsAskedOnce};
ghost use Rattle.afdx_input_runs.specs.SeenRun.{RolesAnswer, SeenAnswers};
ghost use Rattle.afdx_input_lines.specs.Calls.{is_failed_read, is_failed_write};
ghost use Rattle.afdx_input_lines.specs.declared.role.ByRole.{ByRole as Two};
ghost use Rattle.afdx_input_lines.specs.Watching.{calls_of, device_of, has_ended, has_failed};
ghost use Rattle.afdx_input_sources.specs.Becoming.{options_of};
ghost use Rattle.afdx_input_sources.specs.Claims.{Ports, ports_unsaid};
ghost use Rattle.afdx_input_sources.specs.declared.becoming.RecordingOptions.{RecordingOptions as Said};

use crate::over::run_over;
use crate::read_pair::{read_by_role, read_one};
use crate::seeing::Seeing;
use crate::seen::Seen;
use afdx_input_lines::{ByRole, RunFault, Watched};
use afdx_input_sources::{
    Machine, Ordered, ReadRecording, RecordingOptions, SystemPorts, Tally, TimedPair, UnsaidPort,
};
use afdx_text::Sink;
use std::alloc::Global;
use std::io::Read;

/// Lets a machine tell the frames of a recording, of what came in and of what left, and counts what
/// is none.
///
/// Frames are told by their moments. The whole text of one is handed to `output` before the next
/// block is read. The first fault ends the run; the text of the frames before it stands written.
pub(crate) fn run_seen<R: Read, M: Machine<Seen>, O: Sink>(
    alloc: Global,
    options: RecordingOptions,
    unsaid: UnsaidPort<'_>,
    machine: &mut M,
    input: &mut Watched<R>,
    output: &mut O,
) -> Result<Tally, RunFault>
    requires sound_input { has_failed input.old ≡ false }
    requires unended { has_ended input.old ≡ false }
    requires sound_output { O.failed output.old ≡ false }
    requires told { IsReadyForAll M.Can M.Told machine.old (O.written output.old) }
    ensures ended { OnOk result (has_ended input.new ≡ true) }
    ensures read { has_failed input.new ≡ is_failed_read result }
    ensures write { O.failed output.new ≡ is_failed_write result }
    ensures calls { IsAskedOnce (R.remaining (device_of input.old))
        (R.remaining (device_of input.new)) (calls_of input.old) (calls_of input.new) }
    ensures answer { HoldsOfAllTold M.Can M.Done M.Told M.Begins machine.old machine.new
        (O.written output.old) (O.written output.new) (λ done told begins.
        IfSome (R.remaining (device_of input.old)) (λ bytes.
        SeenAnswers (options_of options) (ports_unsaid unsaid.entry) done told begins
        bytes (R.remaining (device_of input.new)) result)) }
{
    let ports = SystemPorts::unsaid(alloc, unsaid)?;
    let mut frames = Seeing::new(read_one(alloc, options, ports)?);
    run_over(&mut frames, machine, input, output)
}

/// Lets a machine tell the frames of two recordings, of which nothing was read, and counts what is
/// none, of each.
fn tell_by_role<R: Read, M: Machine<Seen>, O: Sink>(
    frames: &mut Seeing<TimedPair<Ordered<ReadRecording>>>,
    machine: &mut M,
    inputs: &mut ByRole<Watched<R>>,
    output: &mut O,
) -> Result<ByRole<Tally>, RunFault>
    requires new { (options : Two Said) × (ports : Ports)
        × IsNewByRole options ports frames.old.lines }
    requires sound_came { has_failed inputs.old.came ≡ false }
    requires sound_left { has_failed inputs.old.left ≡ false }
    requires unended_came { has_ended inputs.old.came ≡ false }
    requires unended_left { has_ended inputs.old.left ≡ false }
    requires sound_output { O.failed output.old ≡ false }
    requires told { IsReadyForAll M.Can M.Told machine.old (O.written output.old) }
    ensures ended { OnOk result
        ((has_ended inputs.new.came ≡ true) × (has_ended inputs.new.left ≡ true)) }
    ensures read { (has_failed inputs.new.came || has_failed inputs.new.left)
        ≡ is_failed_read result }
    ensures write { O.failed output.new ≡ is_failed_write result }
    ensures calls_came { IsAskedOnce (R.remaining (device_of inputs.old.came))
        (R.remaining (device_of inputs.new.came))
        (calls_of inputs.old.came) (calls_of inputs.new.came) }
    ensures calls_left { IsAskedOnce (R.remaining (device_of inputs.old.left))
        (R.remaining (device_of inputs.new.left))
        (calls_of inputs.old.left) (calls_of inputs.new.left) }
    ensures answer { (options : Two Said) (ports : Ports) →
        IsNewByRole options ports frames.old.lines →
        HoldsOfAllTold M.Can M.Done M.Told M.Begins machine.old machine.new
        (O.written output.old) (O.written output.new) (λ done told begins.
        IfSome (bytes_by_role R.remaining inputs.old) (λ bytes.
        RolesAnswer options ports R.remaining bytes inputs.new done told begins result)) }
{
    match run_over(frames, machine, inputs, output) {
        Ok(_) => {}
        Err(fault) => return Err(fault.by_role()),
    }
    Ok(ByRole {
        came: frames.lines.pair.first.source.tally(),
        left: frames.lines.pair.second.source.tally(),
    })
}

/// Lets a machine tell the frames of two recordings, of what came in and of what left, and counts
/// what is none, of each.
///
/// The heads of both are looked for, that of what came in first: the earlier frame is told, the one
/// that came in where both have the same moment. The whole text of a frame is handed to `output`
/// before the next block is read. The first fault of either, as it is found, ends the run, and is
/// that of its recording; the text of the frames before it stands written.
pub(crate) fn run_seen_by_role<R: Read, M: Machine<Seen>, O: Sink>(
    alloc: Global,
    options: ByRole<RecordingOptions>,
    unsaid: UnsaidPort<'_>,
    machine: &mut M,
    inputs: &mut ByRole<Watched<R>>,
    output: &mut O,
) -> Result<ByRole<Tally>, RunFault>
    requires sound_came { has_failed inputs.old.came ≡ false }
    requires sound_left { has_failed inputs.old.left ≡ false }
    requires unended_came { has_ended inputs.old.came ≡ false }
    requires unended_left { has_ended inputs.old.left ≡ false }
    requires sound_output { O.failed output.old ≡ false }
    requires told { IsReadyForAll M.Can M.Told machine.old (O.written output.old) }
    ensures ended { OnOk result
        ((has_ended inputs.new.came ≡ true) × (has_ended inputs.new.left ≡ true)) }
    ensures read { (has_failed inputs.new.came || has_failed inputs.new.left)
        ≡ is_failed_read result }
    ensures write { O.failed output.new ≡ is_failed_write result }
    ensures calls_came { IsAskedOnce (R.remaining (device_of inputs.old.came))
        (R.remaining (device_of inputs.new.came))
        (calls_of inputs.old.came) (calls_of inputs.new.came) }
    ensures calls_left { IsAskedOnce (R.remaining (device_of inputs.old.left))
        (R.remaining (device_of inputs.new.left))
        (calls_of inputs.old.left) (calls_of inputs.new.left) }
    ensures answer { HoldsOfAllTold M.Can M.Done M.Told M.Begins machine.old machine.new
        (O.written output.old) (O.written output.new) (λ done told begins.
        IfSome (bytes_by_role R.remaining inputs.old) (λ bytes.
        RolesAnswer options (ports_unsaid unsaid.entry) R.remaining bytes inputs.new
        done told begins result)) }
{
    let mut frames = Seeing::new(read_by_role(alloc, options, unsaid)?);
    tell_by_role(&mut frames, machine, inputs, output)
}
