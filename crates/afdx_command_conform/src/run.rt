//! A run over what came and what left, whatever gives the frames.

ghost use Rattle.std.specs.Prelude.{◌≡◌, [], IfSome, OnOk, false, true};
ghost use Rattle.afdx_command_conform.specs.ChoicesOf.{choices_of};
ghost use Rattle.afdx_command_conform.specs.Sight.{of_tables};
ghost use Rattle.afdx_command_conform.specs.Ran as spec;
ghost use Rattle.afdx_command_conform.specs.Ran.{ConformAnswers, RunTells};
ghost use Rattle.afdx_input_lines.specs.Calls.{is_failed_read, is_failed_write};
ghost use Rattle.afdx_input_runs.specs.Arrivals.{TakesFrames};
ghost use Rattle.afdx_input_sources.specs.Claims.{ports_of_one};
ghost use Rattle.afdx_input_sources.specs.Engine.{CanAll, IsReadyForAll};

use crate::choices::Choices;
use crate::judge::Judge;
use crate::judging::JudgingRun;
use afdx_config::Tables;
use afdx_input_lines::{RecordingFault, RunFault};
use afdx_input_runs::{Reading, RunInput, Seen, SeenCount, Tapping};
use afdx_input_sources::{FrameLines, UnsaidPort};
use afdx_text::{Conclusion, ConformLine, OutLine, Sink};
use std::alloc::Global;

/// What a run to the end answered, with what it counted of what it judged; and what it read.
#[derive(Clone, Copy, Debug)]
pub struct RunCounts {
    pub conclusion: Conclusion,
    pub count: SeenCount,
}

/// Whose run it is: the tables of a switch; and whether it doesn't matter that recorders lost
/// frames.
#[derive(Clone, Copy, Debug)]
pub struct RunTerms<'a> {
    pub tables: &'a Tables,
    pub is_lossy: bool,
}

/// The fault of recorders that lost so many frames, if that matters.
fn loss_told(is_lossy: bool, lost: u64) -> Option<RunFault>
    ensures { result ≡ spec.loss_told is_lossy lost }
{
    if !is_lossy && lost > 0 {
        Some(RunFault::Recording(RecordingFault::Lossy(lost)))
    } else {
        None
    }
}

/// The fault that is told in the place of the last line: a recording never described an interface
/// that options name; or recorders lost frames, and that matters.
fn fault_behind(is_lossy: bool, count: &SeenCount) -> Option<RunFault>
    ensures { result ≡ spec.fault_behind is_lossy count.now }
{
    match count.absent() {
        Some(fault) => Some(fault),
        None => loss_told(is_lossy, count.lost()),
    }
}

/// Lets what is judged take frames that were recorded at a switch, and tell; gives its answer, with
/// what it counted. What came in at a port of which nothing is said came in at the port of the
/// sender that it names.
///
/// Frames are taken by time, at one time what came first. The last line is written when the inputs
/// have ended. The first fault ends the run, without a last line. In the place of the last line
/// `RecordingFault::Absent` comes where options name an interface that its recording never
/// described, else `RecordingFault::Lossy` where recorders lost frames, unless that doesn't matter.
/// `RunFault::Read` and `RunFault::Write` come exactly where the device of an input, or the
/// output's, failed; none is tried again.
pub fn run_judged<P, A: RunInput<P, Seen>, J: Judge, O: Sink>(
    alloc: Global,
    terms: RunTerms<'_>,
    options: P,
    inputs: &mut A,
    judge: &mut J,
    output: &mut O,
) -> Result<RunCounts, RunFault>
    requires new { A.IsNew inputs.old }
    requires sound_output { O.failed output.old ≡ false }
    requires ready { IsReadyForAll J.Can J.Told judge.old (O.written output.old) }
    ensures ended { OnOk result (A.ended inputs.new) }
    ensures read { A.failed inputs.new ≡ is_failed_read result }
    ensures write { O.failed output.new ≡ is_failed_write result }
    ensures asked { A.IsAskedFew true inputs.old inputs.new }

    // Where the bytes are known: what is answered, and told, for the frames that it takes.
    ensures answer { let start = O.written output.old in (k : J.Rules) →
        J.Told k judge.old start start [] → CanAll (J.Can k) →
        IfSome (A.known inputs.old) (λ bytes. RunTells
        (A.Takes TakesFrames options (ports_of_one terms.entry.tables.now) bytes inputs.new)
        (J.Done k judge.new) (J.Told k judge.new) (J.Begins k judge.new)
        (J.HasCounted judge.new) terms.entry.is_lossy start (O.written output.new) result) }
{
    let reading = Reading {
        unsaid: UnsaidPort::OfSender(terms.tables),
        form: FrameLines,
    };
    let count = inputs.tell_all(alloc, options, reading, judge, output)?;
    let conclusion = judge.conclusion();
    if let Some(fault) = fault_behind(terms.is_lossy, &count) {
        return Err(fault);
    }
    output.put(&OutLine::Conform(ConformLine::Judged(conclusion)))?;
    Ok(RunCounts { conclusion, count })
}

/// Judges whether a switch of these tables did what they say, by the frames that came to it and
/// those that left it; gives what it counted. What came in at a port of which nothing is said came
/// in at the port of the sender that it names.
///
/// Frames are taken by time, at one time what came first. Before a frame is taken all findings of
/// moments before its time are written. The last line is written when the inputs have ended. The
/// first fault ends the run, without a last line. In the place of the last line
/// `RecordingFault::Absent` comes where options name an interface that its recording never
/// described, else `RecordingFault::Lossy` where recorders lost frames, unless the choices allow
/// it.
/// `RunFault::Read` and `RunFault::Write` come exactly where the device of an input, or the
/// output's, failed; none is tried again.
pub fn run_conform<P: Tapping + Drop, A: RunInput<P, Seen>, O: Sink>(
    alloc: Global,
    tables: &Tables,
    choices: &Choices,
    options: P,
    inputs: &mut A,
    output: &mut O,
) -> Result<RunCounts, RunFault>
    requires new { A.IsNew inputs.old }
    requires sound_output { O.failed output.old ≡ false }
    ensures ended { OnOk result (A.ended inputs.new) }
    ensures read { A.failed inputs.new ≡ is_failed_read result }
    ensures write { O.failed output.new ≡ is_failed_write result }
    ensures asked { A.IsAskedFew true inputs.old inputs.new }

    // Where the bytes are known: what is answered and written for the frames that it takes.
    ensures answer { IfSome (A.known inputs.old) (λ bytes. ConformAnswers
        (A.Takes TakesFrames options (ports_of_one tables.now) bytes inputs.new)
        (tables.now, choices_of (of_tables tables.now (P.tapped options)) choices.now)
        choices.now.is_lossy
        (O.written output.old) (O.written output.new) result) }
{
    // (laws of the inputs: before they are asked for anything they haven't failed; where memory is
    // wanting at once nothing is taken)
    A::starts();
    A::takes_none::<FrameLines>();
    let taps = options.taps();
    let mut judging = JudgingRun::new(alloc, tables, choices, &taps)?;
    let terms = RunTerms {
        tables,
        is_lossy: choices.is_lossy,
    };
    run_judged(alloc, terms, options, inputs, &mut judging, output)
}
