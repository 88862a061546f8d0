//! The command `conform`.

ghost use Rattle.std.specs.Prelude.{◌≡◌, ◌||◌, ◌⊎◌, true, false, option_map};
ghost use Rattle.afdx_command_conform.specs.Commands as spec;
ghost use Rattle.afdx_command_conform.specs.Commands.{EndsAs, IsJudgedOr, IsRun, IsToldNoSwitch};
ghost use Rattle.afdx_command_conform.specs.Ran.{Answers};
ghost use Rattle.afdx_input_runs.specs.Arrivals.{TakesFrames};

use crate::choices::Choices;
use crate::run::{RunCounts, run_conform};
use crate::totals::status_of;
use afdx_command_tables::read_described;
use afdx_command_tables::status::WRONG_WORDS;
use afdx_config::{Described, Tables};
use afdx_input_lines::{RunFault, Watched};
use afdx_input_runs::{RunInput, Seen, SeenCount, Tapping};
use afdx_text::{Sink, tell, tell_fault};
use std::alloc::Global;
use std::io::Write;

/// How the command ended: its exit status, and what was read, if the last line was written.
#[derive(Clone, Copy, Debug)]
pub struct Judged {
    pub status: u8,
    pub count: Option<SeenCount>,
}

/// What is judged: the switch of a configuration, by its name where it describes several; and what
/// is asked for.
#[derive(Clone, Copy, Debug)]
pub struct Question<'a> {
    pub config: &'a [u8],
    pub switch: Option<&'a str>,
    pub choices: &'a Choices,
}

/// It ended before its last line.
pub fn ended_with(status: u8) -> Judged
    ensures { result ≡ spec.ended_with status }
{
    Judged {
        status,
        count: None,
    }
}

/// The tables of the switch of this name, or those of the one switch where no name is given. None:
/// no switch has the name, one is wanted, or none may be.
pub fn tables_named<'a>(described: &'a Described, switch: Option<&str>) -> Option<&'a Tables>
    ensures { option_map (λ t. t.now) result
        ≡ spec.tables_judged described.now (option_map (λ name. name.now) switch.entry) }
{
    match described {
        Described::One(tables) => match switch {
            None => Some(tables),
            Some(_) => None,
        },
        Described::Several(switches) => {
            let name = switch?;
            let place = switches.named(name)?;
            Some(switches.tables(place))
        }
    }
}

/// Tells that no switch is judged, and gives the exit status.
pub fn refuse_switch<E: Write>(errors: &mut Watched<E>) -> u8
    ensures { IsToldNoSwitch E.contents errors.old errors.new result }
{
    tell(errors, b"words NoSuchSwitch\n");
    WRONG_WORDS
}

/// Tells the fault of a run in one line, if it has one, and says how the command ended.
pub fn end_judged<E: Write>(answer: Result<RunCounts, RunFault>, errors: &mut Watched<E>) -> Judged
    ensures { EndsAs E.contents errors.old errors.new result answer }
{
    match answer {
        Ok(counted) => Judged {
            status: status_of(counted.conclusion.answer),
            count: Some(counted.count),
        },
        Err(fault) => {
            tell_fault(errors, &fault);
            ended_with(fault.status())
        }
    }
}

/// Judges whether the switch of a configuration did what its tables say, by the frames that came to
/// it and those that left it: of two lists, of one recording of both, or of two recordings. The
/// lines go to `output`, the one line of a fault to `errors`. Where the last line was written it
/// also gives what was read.
///
/// Nothing of the inputs is read before the tables are taken. The exit status is 0 conforms, 5
/// deviates, 3 undecided or a fault of a list or a recording, 1 a fault of the configuration, 2 no
/// such switch, or 4 a device or memory.
pub fn conform<P: Tapping + Drop, A: RunInput<P, Seen>, O: Sink, E: Write>(
    alloc: Global,
    question: Question<'_>,
    options: P,
    inputs: &mut A,
    output: &mut O,
    errors: &mut Watched<E>,
) -> Judged
    requires new { A.IsNew inputs.old }
    requires sound_output { O.failed output.old ≡ false }
    ensures statuses { let status = result.status in
        (status ≡ 0) ⊎ (status ≡ 1) ⊎ (status ≡ 2) ⊎ (status ≡ 3) ⊎ (status ≡ 4)
        ⊎ (status ≡ 5) }
    ensures device { (A.failed inputs.new || O.failed output.new) ≡ true → result.status ≡ 4 }
    ensures asked { A.IsAskedFew true inputs.old inputs.new }

    // The command ends as a run by the tables of the switch answered; or the configuration isn't
    // read, or has no such switch: then nothing is read and nothing is written.
    ensures judges { IsJudgedOr E.contents question.entry errors.old errors.new result
        (λ described t answer.
        IsRun (A.ended inputs.new) (A.failed inputs.new) (O.failed output.new) answer
        × Answers (A.known inputs.old) (A.Takes TakesFrames options) inputs.new t (P.tapped options)
        question.entry.choices.now (O.written output.old) (O.written output.new) answer)
        ((inputs.new ≡ inputs.old) × (output.new ≡ output.old)) }
{
    // (a law of the inputs: before they are asked for anything they haven't failed)
    A::starts();
    let described = match read_described(alloc, question.config, errors) {
        Ok(described) => described,
        Err(status) => return ended_with(status),
    };
    let Some(tables) = tables_named(&described, question.switch) else {
        return ended_with(refuse_switch(errors));
    };
    let answer = run_conform(alloc, tables, question.choices, options, inputs, output);
    end_judged(answer, errors)
}
