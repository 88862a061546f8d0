//! A run over what systems sent, alone or beside the switch, whatever gives the frames.

ghost use Rattle.std.specs.Prelude.{◌≡◌, OnOk, false, true};
ghost use Rattle.afdx_command_senders.specs.Outlook.{outlook_of};
ghost use Rattle.afdx_command_senders.specs.SenderAnswers.{AskedAnswer, BothAnswer, SendersAnswer};
ghost use Rattle.afdx_input_lines.specs.Calls.{is_failed_read, is_failed_write};
ghost use Rattle.afdx_input_runs.specs.Arrivals.{TakesFrames};

use crate::asked::{Beside, SenderChoices};
use crate::both::BothRun;
use crate::command::SenderQuestion;
use crate::judging::SendersRun;
use crate::outlook::SenderOutlook;
use afdx_command_conform::{RunCounts, RunTerms, run_judged};
use afdx_input_lines::RunFault;
use afdx_input_runs::{RunInput, Seen, Tapping};
use afdx_input_sources::FrameLines;
use afdx_text::Sink;
use std::alloc::Global;

/// Judges whether the systems of a switch sent as its tables say, by the frames that came to it;
/// gives the answer, with what it counted. Frames that left are passed over. What came in at
/// a port of which nothing is said came in at the port of the sender that it names.
///
/// Frames are taken by time. Before a frame is taken all findings of moments before its time are
/// written. The last line is written when the inputs have ended. The first fault ends the run,
/// without a last line. In the place of the last line `RecordingFault::Absent` comes where options
/// name an interface that its recording never described, else `RecordingFault::Lossy` where
/// recorders lost frames, unless the choices allow it. `RunFault::Read` and `RunFault::Write` come
/// exactly where the device of an input, or the output's, failed; none is tried again.
pub(crate) fn run_senders<P: Tapping + Drop, A: RunInput<P, Seen>, O: Sink>(
    alloc: Global,
    outlook: SenderOutlook<'_>,
    asked: SenderChoices<'_>,
    options: P,
    inputs: &mut A,
    output: &mut O,
) -> Result<RunCounts, RunFault>
    requires new { A.IsNew inputs.old }
    requires sound_output { O.failed output.old ≡ false }
    ensures ended { OnOk result (A.ended inputs.new) }
    ensures read { A.failed inputs.new ≡ is_failed_read result }
    ensures write { O.failed output.new ≡ is_failed_write result }
    ensures asked { A.IsAskedFew true inputs.old inputs.new }

    // Where the bytes are known: what is answered and written for the frames that it takes.
    ensures answer { SendersAnswer (A.known inputs.old) (A.Takes TakesFrames options) inputs.new
        (outlook_of outlook.entry) (P.tapped options) asked.entry (O.written output.old)
        (O.written output.new) result }
{
    // (a law of the inputs: where memory is wanting at once nothing is taken)
    A::starts();
    A::takes_none::<FrameLines>();
    let taps = options.taps();
    let mut judging = SendersRun::new(alloc, outlook, asked, &taps)?;
    let terms = RunTerms {
        tables: outlook.tables,
        is_lossy: asked.choices.is_lossy,
    };
    run_judged(alloc, terms, options, inputs, &mut judging, output)
}

/// Judges whether the systems of a switch sent as its tables say, by the frames that came to it,
/// and whether the switch did what they say, by these and those that left it; gives the answer,
/// with what it counted. Frames are taken, and it ends, as where the systems are judged alone.
///
/// Before a frame is taken all findings of moments before its time are written: of one moment by
/// side and port, and there those of systems before those of the switch.
pub(crate) fn run_both<P: Tapping + Drop, A: RunInput<P, Seen>, O: Sink>(
    alloc: Global,
    outlook: SenderOutlook<'_>,
    asked: SenderChoices<'_>,
    options: P,
    inputs: &mut A,
    output: &mut O,
) -> Result<RunCounts, RunFault>
    requires new { A.IsNew inputs.old }
    requires sound_output { O.failed output.old ≡ false }
    ensures ended { OnOk result (A.ended inputs.new) }
    ensures read { A.failed inputs.new ≡ is_failed_read result }
    ensures write { O.failed output.new ≡ is_failed_write result }
    ensures asked { A.IsAskedFew true inputs.old inputs.new }

    // Where the bytes are known: what is answered and written for the frames that it takes.
    ensures answer { BothAnswer (A.known inputs.old) (A.Takes TakesFrames options) inputs.new
        (outlook_of outlook.entry) (P.tapped options) asked.entry (O.written output.old)
        (O.written output.new) result }
{
    // (a law of the inputs: where memory is wanting at once nothing is taken)
    A::starts();
    A::takes_none::<FrameLines>();
    let taps = options.taps();
    let mut judging = BothRun::new(alloc, outlook, asked, &taps)?;
    let terms = RunTerms {
        tables: outlook.tables,
        is_lossy: asked.choices.is_lossy,
    };
    run_judged(alloc, terms, options, inputs, &mut judging, output)
}

/// Judges the systems of a switch, with what is asked for beside them.
pub(crate) fn run_asked<P: Tapping + Drop, A: RunInput<P, Seen>, O: Sink>(
    alloc: Global,
    outlook: SenderOutlook<'_>,
    what: SenderQuestion<'_>,
    options: P,
    inputs: &mut A,
    output: &mut O,
) -> Result<RunCounts, RunFault>
    requires new { A.IsNew inputs.old }
    requires sound_output { O.failed output.old ≡ false }
    ensures ended { OnOk result (A.ended inputs.new) }
    ensures read { A.failed inputs.new ≡ is_failed_read result }
    ensures write { O.failed output.new ≡ is_failed_write result }
    ensures asked { A.IsAskedFew true inputs.old inputs.new }
    ensures answer { AskedAnswer what.entry.beside (A.known inputs.old)
        (A.Takes TakesFrames options) inputs.new (outlook_of outlook.entry) (P.tapped options)
        what.entry.asked (O.written output.old) (O.written output.new) result }
{
    match what.beside {
        Beside::Nothing => run_senders(alloc, outlook, what.asked, options, inputs, output),
        Beside::Switch => run_both(alloc, outlook, what.asked, options, inputs, output),
    }
}
