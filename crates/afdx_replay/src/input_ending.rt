//! How a command ends that ran over an input, and what it counted.

ghost use Rattle.std.specs.Prelude.{◌≡◌, ◌↔◌, IsSome, OnOk, IfErr};
ghost use Rattle.std.specs.Result.{result_ok};
ghost use Rattle.afdx_text.specs.Telling.{TellsFault};
ghost use Rattle.afdx_command_tables.specs.Commands.{status_of_answer};
ghost use Rattle.afdx_replay.specs.Inputs.{summary_in, summary_of, tally_in};

use afdx_command_tables::{Ended, Summary, end};
use afdx_input_lines::{RunFault, Watched};
use afdx_input_runs::InputCount;
use afdx_input_sources::Tally;
use std::io::Write;

/// What a run over an input counted that is a list of frames, or a recording.
#[derive(Clone, Copy, Debug, PartialEq, Eq)]
pub struct InputSummary {
    /// The counts of the run; of a recording the lines are its numbers.
    pub summary: Summary,
    /// If it was a recording: how many numbers were skipped, and why.
    pub tally: Option<Tally>,
}

impl InputSummary {
    /// These counts, and what was read.
    pub(crate) fn of(counts: Summary, count: InputCount) -> InputSummary
        ensures { result ≡ summary_of counts count }
    {
        match count {
            InputCount::Lines(lines) => InputSummary {
                summary: Summary { lines, ..counts },
                tally: None,
            },
            InputCount::Recorded(tally) => InputSummary {
                summary: Summary {
                    lines: tally.numbers,
                    ..counts
                },
                tally: Some(tally),
            },
        }
    }
}

/// How a command over a list, a recording or two of them ended.
#[derive(Clone, Copy, Debug, PartialEq, Eq)]
pub struct InputEnded {
    /// Its exit status, and the counts of the run.
    pub ended: Ended,
    /// If the status is 0 and it was a recording: how many numbers were skipped, and why.
    pub tally: Option<Tally>,
}

impl InputEnded {
    /// A command that has nothing to count: it ended with a fault.
    pub(crate) fn without_counts(status: u8) -> InputEnded
        ensures status { result.ended.status ≡ status }
        ensures summary { result.ended.summary ≡ None }
        ensures tally { result.tally ≡ None }
    {
        InputEnded {
            ended: Ended::without_counts(status),
            tally: None,
        }
    }
}

/// The same of a run over a list or recordings.
pub(crate) fn end_input<E: Write>(
    answer: Result<InputSummary, RunFault>,
    errors: &mut Watched<E>,
) -> InputEnded
    ensures status { result.ended.status ≡ status_of_answer (summary_in answer) }
    ensures summary { result.ended.summary ≡ result_ok (summary_in answer) }
    ensures tally { result.tally ≡ tally_in answer }
    ensures counts { IsSome result.ended.summary ↔ (result.ended.status ≡ 0) }
    ensures told { IfErr (summary_in answer) (TellsFault E.contents errors.old errors.new) }
    ensures silent { OnOk (summary_in answer) (errors.new ≡ errors.old) }
{
    match answer {
        Ok(all) => InputEnded {
            ended: end(Ok(all.summary), errors),
            tally: all.tally,
        },
        Err(fault) => InputEnded {
            ended: end(Err(fault), errors),
            tally: None,
        },
    }
}
