//! A run over an input that is a list of frames, or a recording.

ghost use Rattle.std.specs.Prelude.{◌≡◌, IfSome, OnOk, take, true, false};
ghost use Rattle.afdx_input_lines.specs.Calls.{is_failed_read, is_failed_write};
ghost use Rattle.afdx_input_lines.specs.Peeking.{held, is_untouched, left_in, looked_at};
ghost use Rattle.afdx_input_lines.specs.Watching.{calls_of, device_of, has_ended, has_failed};
ghost use Rattle.afdx_input_sources.specs.Engine.{HoldsOfTold, IsReadyFor};
ghost use Rattle.afdx_input_sources.specs.Becoming.{options_of};
ghost use Rattle.afdx_input_sources.specs.Claims.{ports_unsaid};
ghost use Rattle.afdx_input_sources.specs.Entering.{IsEntered};
ghost use Rattle.afdx_input_runs.specs.InputRun as spec;
ghost use Rattle.afdx_input_runs.specs.InputRun.{CanBeRead, IsAskedBy, IsAskedFew, ReadingAnswers};
ghost use Rattle.afdx_input_runs.specs.RecordingRun.{IsAskedOnce, RecordingAnswers};

use crate::reading::Reading;
use crate::recording_run::run_recording;
use afdx_input_files::is_recording;
use afdx_input_lines::{Heading, Peeked, RunFault, Watched};
use afdx_input_sources::{
    LineForm, Machine, RecordingOptions, SystemPorts, Tally, UnsaidPort, run_list,
};
use afdx_text::Sink;
use std::alloc::Global;
use std::io::Read;

/// What a run read.
#[derive(Clone, Copy, Debug, PartialEq, Eq)]
pub enum InputCount {
    /// So many lines of a list.
    Lines(u64),
    /// A recording.
    Recorded(Tally),
}

/// Whether an input with these first bytes is read as a recording: it has to be one, or begins as
/// one.
fn is_recorded(options: &RecordingOptions, seen: &[u8]) -> bool
    ensures { result ≡ spec.is_recorded options.now.are_given seen.now }
{
    options.are_given || is_recording(seen)
}

/// Lets a machine tell the arrivals of a recording, and counts what is no arrival.
fn run_recorded<R: Read, M: Machine<Heading>, O: Sink>(
    alloc: Global,
    options: RecordingOptions,
    unsaid: UnsaidPort<'_>,
    machine: &mut M,
    input: &mut Watched<R>,
    output: &mut O,
) -> Result<Tally, RunFault>
    requires sound_input { has_failed input.old ≡ false }
    requires unended { has_ended input.old ≡ false }
    requires sound_output { O.failed output.old ≡ false }
    requires told { IsReadyFor M.Can M.Told machine.old (O.written output.old)
        (IsEntered (options_of options) (ports_unsaid unsaid)) }
    ensures ended { OnOk result (has_ended input.new ≡ true) }
    ensures read { has_failed input.new ≡ is_failed_read result }
    ensures write { O.failed output.new ≡ is_failed_write result }
    ensures calls { IsAskedOnce (R.remaining (device_of input.old))
        (R.remaining (device_of input.new)) (calls_of input.old) (calls_of input.new) }
    ensures answer { HoldsOfTold M.Can M.Done M.Told M.Begins machine.old machine.new
        (O.written output.old) (O.written output.new)
        (IsEntered (options_of options) (ports_unsaid unsaid.entry)) (λ done told begins.
        IfSome (R.remaining (device_of input.old)) (λ bytes.
        RecordingAnswers (options_of options) (ports_unsaid unsaid.entry) done told begins
        bytes (R.remaining (device_of input.new)) result)) }
{
    let ports = SystemPorts::unsaid(alloc, unsaid)?;
    run_recording(alloc, options, ports, machine, input, output)
}

/// Lets a machine tell what an input says, of which the first bytes were looked at, and counts its
/// lines, or what is no arrival.
fn run_looked<F: LineForm<Heading>, R: Read, M: Machine<Heading>, O: Sink>(
    alloc: Global,
    options: RecordingOptions,
    reading: Reading<'_, F>,
    machine: &mut M,
    input: &mut Watched<Peeked<R>>,
    output: &mut O,
) -> Result<InputCount, RunFault>
    requires sound_input { has_failed input.old ≡ false }
    requires unended { has_ended input.old ≡ false }
    requires sound_output { O.failed output.old ≡ false }
    requires form { F.IsForm reading.form }
    requires told { IsReadyFor M.Can M.Told machine.old (O.written output.old)
        (CanBeRead options reading F.Gives) }
    ensures ended { OnOk result (has_ended input.new ≡ true) }
    ensures read { has_failed input.new ≡ is_failed_read result }
    ensures write { O.failed output.new ≡ is_failed_write result }
    ensures calls { IsAskedBy (spec.is_recorded options.are_given (held (device_of input.old)))
        (left_in R.remaining (device_of input.old)) (left_in R.remaining (device_of input.new))
        (calls_of input.old) (calls_of input.new) }
    ensures answer { HoldsOfTold M.Can M.Done M.Told M.Begins machine.old machine.new
        (O.written output.old) (O.written output.new) (CanBeRead options reading.entry F.Gives)
        (λ done told begins. IfSome (left_in R.remaining (device_of input.old)) (λ bytes.
        ReadingAnswers options reading.entry F.kind F.says_of (held (device_of input.old))
        done told begins bytes (left_in R.remaining (device_of input.new)) result)) }
{
    let Reading { unsaid, form } = reading;
    if is_recorded(&options, input.seen()) {
        let tally = run_recorded(alloc, options, unsaid, machine, input, output)?;
        return Ok(InputCount::Recorded(tally));
    }
    let lines = run_list(alloc, form, machine, input, output)?;
    Ok(InputCount::Lines(lines))
}

/// Lets a machine tell what an input says, and counts its lines, or what is no arrival.
///
/// Its first four bytes are looked at. It is read as a recording if it begins as one, or if an
/// option of recordings is given; else as a list of frames, whose lines have this form. The machine
/// can tell what such lines say, and arrivals that came in where the options say, or the bytes of a
/// frame. The whole text of a line or an arrival is handed to `output` before the next byte is
/// read. The first fault ends the run; what was told before it stands written. `RunFault::Read` and
/// `RunFault::Write` come exactly where the input's or the output's device failed, the input's also
/// while it is looked at; neither is tried again.
pub(crate) fn run_input<F: LineForm<Heading>, R: Read, M: Machine<Heading>, O: Sink>(
    alloc: Global,
    options: RecordingOptions,
    reading: Reading<'_, F>,
    machine: &mut M,
    input: &mut Watched<Peeked<R>>,
    output: &mut O,
) -> Result<InputCount, RunFault>
    requires untouched { is_untouched (device_of input.old) }
    requires sound_input { has_failed input.old ≡ false }
    requires unended { has_ended input.old ≡ false }
    requires sound_output { O.failed output.old ≡ false }
    requires form { F.IsForm reading.form }
    requires told { IsReadyFor M.Can M.Told machine.old (O.written output.old)
        (CanBeRead options reading F.Gives) }
    ensures ended { OnOk result (has_ended input.new ≡ true) }
    ensures read { has_failed input.new ≡ is_failed_read result }
    ensures write { O.failed output.new ≡ is_failed_write result }
    ensures calls { IsAskedFew options.are_given
        (left_in R.remaining (device_of input.old)) (left_in R.remaining (device_of input.new))
        (calls_of input.old) (calls_of input.new) }

    // Where all its bytes are known: what is answered and written for the list, or the recording,
    // that they are by the first of them.
    ensures answer { HoldsOfTold M.Can M.Done M.Told M.Begins machine.old machine.new
        (O.written output.old) (O.written output.new) (CanBeRead options reading.entry F.Gives)
        (λ done told begins. IfSome (left_in R.remaining (device_of input.old)) (λ bytes.
        ReadingAnswers options reading.entry F.kind F.says_of (take looked_at bytes)
        done told begins bytes (left_in R.remaining (device_of input.new)) result)) }
{
    if input.look() {
        return Err(RunFault::Read);
    }
    run_looked(alloc, options, reading, machine, input, output)
}
