//! A run over a recording, or over two: a machine tells its arrivals, one by one.

ghost use Rattle.std.specs.Prelude.{◌≡◌, ◌||◌, IfSome, OnOk, true, false};
ghost use Rattle.afdx_input_lines.specs.Calls.{is_failed_read, is_failed_write};
ghost use Rattle.afdx_input_lines.specs.Watching.{calls_of, device_of, has_ended, has_failed};
ghost use Rattle.afdx_input_sources.specs.Engine.{HoldsOfTold, IsReadyFor};
ghost use Rattle.afdx_input_sources.specs.Becoming.{options_of};
ghost use Rattle.afdx_input_sources.specs.Claims.{ports_of, ports_unsaid};
ghost use Rattle.afdx_input_sources.specs.Entering.{IsEntered};
ghost use Rattle.afdx_input_runs.specs.RecordingRun.{IfBothKnown, IsAskedOnce};
ghost use Rattle.afdx_input_runs.specs.RecordingRun.{IsEnteredBy, PairAnswers, RecordingAnswers};

use crate::over::run_over;
use crate::read_pair::{read_one, read_pair};
use afdx_frame::BySide;
use afdx_input_lines::{Heading, RunFault, Watched};
use afdx_input_sources::{
    Arriving, Machine, PairOptions, RecordingOptions, SystemPorts, Tally, UnsaidPort,
};
use afdx_text::Sink;
use std::alloc::Global;
use std::io::Read;

/// Lets a machine tell the arrivals of a recording, and counts what is no arrival.
///
/// The machine can tell each arrival that came in where the options say, or the bytes of a frame.
///
/// Arrivals are told by their moments. One is told once `reorder` others were read that come behind
/// it, or the end or a fault was; its whole text is handed to `output` before the next frame is
/// read. The first fault ends the run; the text of the arrivals before it stands written, but for
/// those that are held where a device or memory fails. `RunFault::Read` and
/// `RunFault::Write` come exactly where the input's or the output's device failed; neither is tried
/// again.
pub fn run_recording<R: Read, M: Machine<Heading>, O: Sink>(
    alloc: Global,
    options: RecordingOptions,
    ports: SystemPorts,
    machine: &mut M,
    input: &mut Watched<R>,
    output: &mut O,
) -> Result<Tally, RunFault>
    requires sound_input { has_failed input.old ≡ false }
    requires unended { has_ended input.old ≡ false }
    requires sound_output { O.failed output.old ≡ false }
    requires told { IsReadyFor M.Can M.Told machine.old (O.written output.old)
        (IsEntered (options_of options) (ports_of ports)) }
    ensures ended { OnOk result (has_ended input.new ≡ true) }
    ensures read { has_failed input.new ≡ is_failed_read result }
    ensures write { O.failed output.new ≡ is_failed_write result }
    ensures calls { IsAskedOnce (R.remaining (device_of input.old))
        (R.remaining (device_of input.new)) (calls_of input.old) (calls_of input.new) }

    // Where the input's bytes are known: what is answered and written for the recording that they
    // are.
    ensures answer { HoldsOfTold M.Can M.Done M.Told M.Begins machine.old machine.new
        (O.written output.old) (O.written output.new)
        (IsEntered (options_of options) (ports_of ports)) (λ done told begins.
        IfSome (R.remaining (device_of input.old)) (λ bytes.
        RecordingAnswers (options_of options) (ports_of ports) done told begins
        bytes (R.remaining (device_of input.new)) result)) }
{
    let mut arrivals = Arriving::new(read_one(alloc, options, ports)?);
    run_over(&mut arrivals, machine, input, output)
}

/// Lets a machine tell the arrivals of two recordings that are read at once, of network A and of
/// network B, and counts what is no arrival.
///
/// The machine can tell each arrival that came in where the options of one of them say, or the
/// bytes of a frame.
///
/// The heads of both are looked for, that of A first: the earlier arrival is told, that of A where
/// both have the same moment. The whole text of an arrival is handed to `output` before the next
/// frame is read. The first fault of either, as it is found, ends the run; the text of the arrivals
/// before it stands written. `RunFault::Read` and `RunFault::Write` come exactly where the device
/// of an input, or the output's, failed; none is tried again.
pub(crate) fn run_pair<R: Read, M: Machine<Heading>, O: Sink>(
    alloc: Global,
    options: PairOptions,
    unsaid: UnsaidPort<'_>,
    machine: &mut M,
    inputs: &mut BySide<Watched<R>>,
    output: &mut O,
) -> Result<Tally, RunFault>
    requires sound_a { has_failed inputs.old.a ≡ false }
    requires sound_b { has_failed inputs.old.b ≡ false }
    requires unended_a { has_ended inputs.old.a ≡ false }
    requires unended_b { has_ended inputs.old.b ≡ false }
    requires sound_output { O.failed output.old ≡ false }
    requires told { IsReadyFor M.Can M.Told machine.old (O.written output.old)
        (IsEnteredBy options (ports_unsaid unsaid)) }
    ensures ended { OnOk result (has_ended inputs.new.a ≡ true × has_ended inputs.new.b ≡ true) }
    ensures read { (has_failed inputs.new.a || has_failed inputs.new.b) ≡ is_failed_read result }
    ensures write { O.failed output.new ≡ is_failed_write result }
    ensures calls_a { IsAskedOnce (R.remaining (device_of inputs.old.a))
        (R.remaining (device_of inputs.new.a)) (calls_of inputs.old.a) (calls_of inputs.new.a) }
    ensures calls_b { IsAskedOnce (R.remaining (device_of inputs.old.b))
        (R.remaining (device_of inputs.new.b)) (calls_of inputs.old.b) (calls_of inputs.new.b) }

    // Where the bytes of both are known: what is answered and written for the recordings that they
    // are.
    ensures answer { HoldsOfTold M.Can M.Done M.Told M.Begins machine.old machine.new
        (O.written output.old) (O.written output.new)
        (IsEnteredBy options (ports_unsaid unsaid.entry)) (λ done told begins.
        IfBothKnown R.remaining inputs.old (λ a b.
        PairAnswers options (ports_unsaid unsaid.entry) R.remaining inputs.new
        done told begins a b result)) }
{
    let mut arrivals = Arriving::new(read_pair(alloc, options, unsaid)?);
    run_over(&mut arrivals, machine, inputs, output)
}
