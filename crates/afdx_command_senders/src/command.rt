//! The command `conform --senders`.

ghost use Rattle.std.specs.Prelude.{◌≡◌, ◌||◌, ◌⊎◌, false, true};
ghost use Rattle.afdx_command_conform.specs.Commands.{IsRun};
ghost use Rattle.afdx_command_senders.specs.SenderAnswers.{AskedAnswer, IsAskedOr};
ghost use Rattle.afdx_input_runs.specs.Arrivals.{TakesFrames};

use crate::asked::{Beside, SenderChoices};
use crate::outlook::SenderOutlook;
use crate::run::run_asked;
use afdx_command_conform::{Judged, end_judged, ended_with, refuse_switch, tables_named};
use afdx_command_tables::read_described;
use afdx_input_lines::Watched;
use afdx_input_runs::{RunInput, Seen, Tapping};
use afdx_text::Sink;
use std::alloc::Global;
use std::io::Write;

/// What is judged: the systems at the switch of a configuration, by its name where it describes
/// several, and what beside them; and what is asked for.
#[derive(Clone, Copy, Debug)]
pub struct SenderQuestion<'a> {
    pub config: &'a [u8],
    pub switch: Option<&'a str>,
    pub beside: Beside,
    pub asked: SenderChoices<'a>,
}

/// Judges whether the systems at a switch of a configuration sent as its tables say, by the frames
/// that came to it; and, if that is asked for, whether the switch did what they say, by these and
/// by the frames that left it. What links there are, and how systems get them, is said by all
/// switches that the configuration describes. The lines go to `output`, the one line of a fault to
/// `errors`. Where the last line was written it also gives what was read.
///
/// Nothing of the inputs is read before the tables are taken. The exit status is 0 conforms, 5
/// deviates, 3 undecided or a fault of a list or a recording, 1 a fault of the configuration, 2 no
/// such switch, or 4 a device or memory.
pub fn judge_senders<P: Tapping + Drop, A: RunInput<P, Seen>, O: Sink, E: Write>(
    alloc: Global,
    what: SenderQuestion<'_>,
    options: P,
    inputs: &mut A,
    output: &mut O,
    errors: &mut Watched<E>,
) -> Judged
    requires new { A.IsNew inputs.old }
    requires sound_output { O.failed output.old ≡ false }
    ensures statuses { let status = result.status in
        (status ≡ 0) ⊎ (status ≡ 1) ⊎ (status ≡ 2) ⊎ (status ≡ 3) ⊎ (status ≡ 4)
        ⊎ (status ≡ 5) }
    ensures device { (A.failed inputs.new || O.failed output.new) ≡ true → result.status ≡ 4 }
    ensures asked { A.IsAskedFew true inputs.old inputs.new }

    // The command ends as a run at the switch answered, by all that is described; or the
    // configuration isn't read, or has no such switch: then nothing is read and nothing is written.
    ensures judges { IsAskedOr E.contents what.entry errors.old errors.new result
        (λ o answer.
        IsRun (A.ended inputs.new) (A.failed inputs.new) (O.failed output.new) answer
        × AskedAnswer what.entry.beside (A.known inputs.old) (A.Takes TakesFrames options)
        inputs.new o (P.tapped options) what.entry.asked (O.written output.old)
        (O.written output.new) answer)
        ((inputs.new ≡ inputs.old) × (output.new ≡ output.old)) }
{
    // (a law of the inputs: before they are asked for anything they haven't failed)
    A::starts();
    let described = match read_described(alloc, what.config, errors) {
        Ok(described) => described,
        Err(status) => return ended_with(status),
    };
    let Some(tables) = tables_named(&described, what.switch) else {
        return ended_with(refuse_switch(errors));
    };
    let outlook = SenderOutlook::at(&described, tables);
    let answer = run_asked(alloc, outlook, what, options, inputs, output);
    end_judged(answer, errors)
}
