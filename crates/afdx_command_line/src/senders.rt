//! The command `conform --senders`: its devices.

use crate::beginnings::{NoList, look_at_both};
use crate::conforming::{choices_in, end_judged, ended_by, taken, tell_its_end, unsaid};
use crate::console::{
    Cleared, Count, Counted, InputDevice, Traced, WatchedWriter, error_lines, is_told, memory,
};
use crate::running::{cause_in, open, output_room, refuse};
use afdx_command_conform::{ByRole, Choices};
use afdx_command_senders::{Beside, SenderChoices, SenderQuestion, judge_senders};
use afdx_command_words::{Refused, came_options, copies_apart, switch_in};
use afdx_input_runs::AsLists;
use afdx_input_sources::RecordingOptions;
use afdx_replay::{Output, Peeked, Watched};
use clap::ArgMatches;

/// The systems at a switch of a configuration are judged, as the words ask for, alone or beside it.
/// Err: the status where they are refused.
pub(crate) fn senders_question<'a>(
    rt: &HostRuntime,
    matches: &ArgMatches<'_>,
    config: &'a [u8],
    switch: Option<&'a str>,
    choices: &'a Choices,
    beside: Beside,
) -> Result<SenderQuestion<'a>, u8> {
    match SenderChoices::new(choices, copies_apart(matches)) {
        Some(asked) => Ok(SenderQuestion {
            config,
            switch,
            beside,
            asked,
        }),
        None => Err(refuse(rt, matches, Refused::BadNumber)),
    }
}

/// Judges the systems by a recording of what they sent.
fn judge_recording(
    rt: &HostRuntime,
    matches: &ArgMatches<'_>,
    question: SenderQuestion<'_>,
    word: &str,
    options: RecordingOptions,
) -> Result<u8, u8> {
    let input = open(rt, matches, word)?;
    let device = Traced::new(rt.stdout());
    let Ok(mut output) = Output::new(rt.alloc(), output_room(rt, matches), device) else {
        return Err(memory(rt));
    };
    tell_its_end(rt, word);
    let told = is_told(rt, matches);
    let count = Count::new(rt, told);
    let mut input = Watched::new(Traced::new(Counted::new(&count, input)));
    let mut errors = Watched::new(WatchedWriter::new(Cleared::new(rt, told, error_lines(rt))));
    let (ins, outs, faults) = (&mut input, &mut output, &mut errors);
    let judged = judge_senders(rt.alloc(), question, options, ins, outs, faults);
    let read = cause_in(question.config, word, input.into_inner());
    Ok(end_judged(rt, matches, judged, read, output, errors))
}

/// Judges the systems by a list of what they sent: nothing left the switch.
fn judge_list(
    rt: &HostRuntime,
    matches: &ArgMatches<'_>,
    question: SenderQuestion<'_>,
    word: &str,
) -> Result<u8, u8> {
    let input = open(rt, matches, word)?;
    let device = Traced::new(rt.stdout());
    let Ok(mut output) = Output::new(rt.alloc(), output_room(rt, matches), device) else {
        return Err(memory(rt));
    };
    tell_its_end(rt, word);
    let told = is_told(rt, matches);
    let count = Count::new(rt, told);
    let nothing = Counted::new(&count, InputDevice::Nothing);
    let mut inputs = ByRole {
        came: Watched::new(Peeked::new(Traced::new(Counted::new(&count, input)))),
        left: Watched::new(Peeked::new(Traced::new(nothing))),
    };
    let mut errors = Watched::new(WatchedWriter::new(Cleared::new(rt, told, error_lines(rt))));
    let (ins, outs, faults) = (&mut inputs, &mut output, &mut errors);
    let judged = match look_at_both(ins) {
        Ok(()) => judge_senders(rt.alloc(), question, AsLists, ins, outs, faults),
        Err(NoList::Recording(role)) => return Err(refuse(rt, matches, unsaid(role))),
        Err(NoList::Fault(fault)) => ended_by(&fault, faults),
    };
    let read = cause_in(question.config, word, inputs.came.into_inner().into_inner());
    Ok(end_judged(rt, matches, judged, read, output, errors))
}

/// Judges the systems by what came, in the input that a word names. Err: the status where it can't
/// be had, or where the words are refused.
pub fn judge_what_came(
    rt: &HostRuntime,
    matches: &ArgMatches<'_>,
    config: &[u8],
    word: &str,
) -> Result<u8, u8> {
    let options = taken(rt, matches, came_options(rt.alloc(), matches))?;
    let choices = taken(rt, matches, choices_in(rt.alloc(), matches))?;
    let switch = switch_in(matches);
    let question = senders_question(rt, matches, config, switch, &choices, Beside::Nothing)?;
    match options {
        Some(options) => judge_recording(rt, matches, question, word, options),
        None => judge_list(rt, matches, question, word),
    }
}
