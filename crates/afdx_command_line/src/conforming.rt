//! The command `conform`: its devices, and how it ends.

use crate::beginnings::{NoList, look_at_both};
use crate::console::{
    Cause, Cleared, Count, Counted, InputDevice, Traced, WatchedWriter, error_lines,
    explain_if_asked, is_told, memory,
};
use crate::judging::{judge, what_is_judged};
use crate::running::{cause_in, failed_of, open, output_room, refuse};
use afdx_command_conform::{ByRole, Choices, Judged, Leeway};
use afdx_command_tables::status::DONE;
use afdx_command_words::{
    BadPlace, ConformInputs, Refused, STANDARD_INPUT, conform_options, seen_options,
    seen_pair_options, switch_in, wants_summary,
};
use afdx_frame::BySide;
use afdx_input_lines::Role;
use afdx_input_runs::{AsLists, SeenCount};
use afdx_replay::{Output, Peeked, RunFault, Tally, Watched, finish};
use afdx_text::{WholeLines, tell_fault};
use clap::ArgMatches;
use std::alloc::Global;
use std::io;
use std::io::{IsTerminal, Write};

/// How a run ends whose input comes as it is recorded.
const ITS_END: &str = "\
To end this run stop what writes its input, not afdx: the last line is the verdict.";

/// What the words ask for, if their numbers are in range.
pub(crate) fn choices_in<'a>(
    alloc: Global,
    matches: &ArgMatches<'a>,
) -> Result<Choices, Refused<'a>> {
    let said = conform_options(alloc, matches)?;
    let together = Leeway::new(said.slack, said.drift, said.inner, said.asked, said.from);
    let Some(leeway) = together.and_then(|leeway| leeway.apart(said.between)) else {
        return Err(Refused::BadNumber);
    };
    let (until, left_out) = (said.until, said.left_out);
    let choices = Choices::new(leeway, until, left_out, said.is_lossy, said.is_exercised);
    choices.ok_or(Refused::BadNumber)
}

/// Refuses that two inputs are one.
fn are_two<'a>(words: &ByRole<&str>) -> Result<(), Refused<'a>> {
    if words.came == STANDARD_INPUT && words.left == STANDARD_INPUT {
        return Err(Refused::SameInput);
    }
    Ok(())
}

/// What words say, or the status where they are refused.
pub(crate) fn taken<T>(
    rt: &HostRuntime,
    matches: &ArgMatches<'_>,
    said: Result<T, Refused<'_>>,
) -> Result<T, u8> {
    match said {
        Ok(said) => Ok(said),
        Err(refused) => Err(refuse(rt, matches, refused)),
    }
}

/// Writes how much of each recording was left out, a line for each.
fn write_skipped<W: Write>(count: SeenCount, device: &mut W) -> io::Result<()> {
    match count {
        SeenCount::Lists(_) => Ok(()),
        SeenCount::Recorded(tally) => writeln!(device, "{tally}"),
        SeenCount::Both(tallies) => {
            writeln!(device, "{}", tallies.came)?;
            writeln!(device, "{}", tallies.left)
        }
    }
}

/// Ends the command: hands over what its output still holds and, if that is asked for, how much of
/// each recording was left out, explains its fault, and gives the exit status. `read` says why
/// reading failed, if it did.
pub(crate) fn end_judged<W: Write + Drop, E: Write + Drop>(
    rt: &HostRuntime,
    matches: &ArgMatches<'_>,
    judged: Judged,
    read: Cause<'_>,
    mut output: Output<Traced<W>>,
    mut errors: Watched<WatchedWriter<Cleared<'_, E>>>,
) -> u8 {
    let mut status = finish(judged.status, &mut output, &mut errors);
    let is_told = !output.failed() && wants_summary(matches);
    let mut device = WholeLines::new(output.into_device());
    if let Some(count) = judged.count
        && is_told
        && write_skipped(count, &mut device).is_err()
        && status == DONE
    {
        tell_fault(&mut errors, &RunFault::Write);
        status = RunFault::Write.status();
    }
    let written = device.into_device().reason();
    let cause = Cause {
        config: read.config,
        path: read.path,
        reason: read.reason.or(written),
    };
    let mut errors = errors.into_inner();
    errors.device_mut().notice_mut().clear();
    explain_if_asked(rt, matches, errors.line(), &cause);
    status
}

/// Judges a switch by one recording of what came and what left.
fn judge_one(
    rt: &HostRuntime,
    matches: &ArgMatches<'_>,
    config: &[u8],
    word: &str,
    input: InputDevice,
) -> Result<u8, u8> {
    let options = taken(rt, matches, seen_options(rt.alloc(), matches))?;
    let choices = taken(rt, matches, choices_in(rt.alloc(), matches))?;
    let switch = switch_in(matches);
    let what = what_is_judged(rt, matches, config, switch, &choices)?;
    let device = Traced::new(rt.stdout());
    let Ok(mut output) = Output::new(rt.alloc(), output_room(rt, matches), device) else {
        return Err(memory(rt));
    };
    tell_its_end(rt, word);
    let told = is_told(rt, matches);
    let count = Count::new(rt, told);
    let mut input = Watched::new(Traced::new(Counted::new(&count, input)));
    let mut errors = Watched::new(WatchedWriter::new(Cleared::new(rt, told, error_lines(rt))));
    let (ins, outs, faults) = (&mut input, &mut output, &mut errors);
    let judged = judge(rt.alloc(), what, options, ins, outs, faults);
    let read = cause_in(config, word, input.into_inner());
    Ok(end_judged(rt, matches, judged, read, output, errors))
}

/// The recording of this role is given, and no option says where its interfaces were.
pub(crate) fn unsaid<'a>(role: Role) -> Refused<'a> {
    Refused::BadInterface(BadPlace::Absent(match role {
        Role::Came => "interface",
        Role::Left => "left",
    }))
}

/// It ended by a fault before anything was judged, which is told.
pub(crate) fn ended_by<E: Write>(fault: &RunFault, errors: &mut Watched<E>) -> Judged {
    tell_fault(errors, fault);
    Judged {
        status: fault.status(),
        count: None,
    }
}

/// Says on a terminal how the run ends, if it reads standard input.
pub(crate) fn tell_its_end(rt: &HostRuntime, word: &str) {
    if word == STANDARD_INPUT && rt.stderr().is_terminal() {
        let _ = eprintln!(rt; "{ITS_END}");
    }
}

/// Judges a switch by two inputs, of what came and of what left: two lists or two recordings.
fn judge_two(
    rt: &HostRuntime,
    matches: &ArgMatches<'_>,
    config: &[u8],
    words: ByRole<&str>,
    inputs: ByRole<InputDevice>,
) -> Result<u8, u8> {
    let options = taken(rt, matches, seen_pair_options(rt.alloc(), matches))?;
    let choices = taken(rt, matches, choices_in(rt.alloc(), matches))?;
    let switch = switch_in(matches);
    let what = what_is_judged(rt, matches, config, switch, &choices)?;
    taken(rt, matches, are_two(&words))?;
    let device = Traced::new(rt.stdout());
    let Ok(mut output) = Output::new(rt.alloc(), output_room(rt, matches), device) else {
        return Err(memory(rt));
    };
    tell_its_end(rt, words.came);
    tell_its_end(rt, words.left);
    let told = is_told(rt, matches);
    let count = Count::new(rt, told);
    let mut inputs = ByRole {
        came: Watched::new(Peeked::new(Traced::new(Counted::new(&count, inputs.came)))),
        left: Watched::new(Peeked::new(Traced::new(Counted::new(&count, inputs.left)))),
    };
    let mut errors = Watched::new(WatchedWriter::new(Cleared::new(rt, told, error_lines(rt))));
    let (ins, outs, faults) = (&mut inputs, &mut output, &mut errors);
    let judged = match options {
        None => match look_at_both(ins) {
            Ok(()) => judge(rt.alloc(), what, AsLists, ins, outs, faults),
            Err(NoList::Recording(role)) => return Err(refuse(rt, matches, unsaid(role))),
            Err(NoList::Fault(fault)) => ended_by(&fault, faults),
        },
        Some(options) => judge(rt.alloc(), what, options, ins, outs, faults),
    };
    let names = BySide {
        a: words.came,
        b: words.left,
    };
    let ByRole { came, left } = inputs;
    let (word, device) = failed_of(names, BySide { a: came, b: left });
    let read = cause_in(config, word, device.into_inner());
    Ok(end_judged(rt, matches, judged, read, output, errors))
}

/// Judges a switch by the inputs that the words name: one, or two with `left`. Err: the status
/// where one can't be had, or where the words are refused.
pub fn judge_inputs(
    rt: &HostRuntime,
    matches: &ArgMatches<'_>,
    config: &[u8],
    inputs: ConformInputs<'_>,
) -> Result<u8, u8> {
    let ConformInputs { came, left } = inputs;
    let input = open(rt, matches, came)?;
    let Some(left) = left else {
        return judge_one(rt, matches, config, came, input);
    };
    let words = ByRole { came, left };
    let second = open(rt, matches, left)?;
    let inputs = ByRole {
        came: input,
        left: second,
    };
    judge_two(rt, matches, config, words, inputs)
}
