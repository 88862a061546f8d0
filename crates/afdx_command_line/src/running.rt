//! Runs over lists and recordings: their devices, and how they end.

ghost use Rattle.std.specs.Prelude.{◌≡◌, Some, codes, false};
ghost use Rattle.clap.specs.Words.{found_of, one_text};

use crate::console::{
    Cause, Cleared, Count, Counted, InputDevice, Traced, WatchedWriter, complain, error_lines,
    explain_if_asked, is_told, memory, name_of_input, no_file, tell_visible,
};
use afdx_command_tables::status::{DONE, WRONG_WORDS};
use afdx_command_words::{
    Refused, ReplayOptions, SendWords, pair_options, recording_options, wants_summary,
};
use afdx_frame::BySide;
use afdx_input_lines::Heading;
use afdx_replay::{
    CommandedRule, Ended, InputEnded, ListEnded, NumberLine, Output, Peeked, Placing,
    ReplaySettings, RunInput, Sink, Watched, finish, list_and_count, police_input, replay_input,
    send_and_count,
};
use afdx_text::WholeLines;
use clap::ArgMatches;
use std::io::{IsTerminal, Stderr, Write};

const OUTPUT_BUFFER: usize = 65_536;

/// How many bytes are gathered before they go to standard output: none if each line is to be seen
/// at once, or a person reads.
pub fn output_room(rt: &HostRuntime, matches: &ArgMatches<'_>) -> usize
    ensures { one_text (found_of matches.now) (codes "line-buffered") ≡ Some (codes "true")
        → result ≡ 0 }
{
    if matches.get_flag("line-buffered") || rt.stdout().is_terminal() {
        0
    } else {
        OUTPUT_BUFFER
    }
}

/// Prints the counts of a run on standard error, and those of a recording.
fn print_counts(rt: &HostRuntime, ended: &InputEnded) {
    if let Some(summary) = ended.ended.summary {
        let _ = eprintln!(rt; "{summary}");
    }
    if let Some(tally) = ended.tally {
        let _ = eprintln!(rt; "{tally}");
    }
}

/// Ends a command that ran over lists or recordings: hands over what its output still holds,
/// explains its fault or prints its counts, if that is asked for, and gives the exit status. `read`
/// says why reading failed, if it did.
pub fn end_run<W: Write + Drop, E: Write + Drop>(
    rt: &HostRuntime,
    matches: &ArgMatches<'_>,
    ended: InputEnded,
    read: Cause<'_>,
    mut output: Output<Traced<W>>,
    mut errors: Watched<WatchedWriter<Cleared<'_, E>>>,
) -> u8 {
    let status = finish(ended.ended.status, &mut output, &mut errors);
    let written = output.into_device().reason();
    let cause = Cause {
        config: read.config,
        path: read.path,
        reason: read.reason.or(written),
    };
    let mut errors = errors.into_inner();
    errors.device_mut().notice_mut().clear();
    explain_if_asked(rt, matches, errors.line(), &cause);
    if status == DONE && wants_summary(matches) {
        print_counts(rt, &ended);
    }
    status
}

/// What is replayed, and how.
#[derive(Drop)]
pub struct Replaying<'a> {
    pub config: &'a [u8],
    pub options: ReplayOptions,
}

/// What is done with the arrivals of an input, and with what it is done.
#[derive(Drop)]
pub enum Run<'a> {
    Police(CommandedRule),
    Replay(Replaying<'a>),
    List { config: &'a [u8] },
}

impl Run<'_> {
    fn config(&self) -> &[u8] {
        match self {
            Run::Police(_) => &[],
            Run::Replay(replaying) => replaying.config,
            Run::List { config } => config,
        }
    }

    /// Whether it goes by a configuration, which may describe several switches on a side.
    fn has_configuration(&self) -> bool {
        match self {
            Run::Police(_) => false,
            Run::Replay(_) | Run::List { .. } => true,
        }
    }

    /// Whether lines come on standard error while it goes on.
    fn explains_drops(&self) -> bool {
        match self {
            Run::Replay(replaying) => replaying.options.explains_drops,
            Run::Police(_) | Run::List { .. } => false,
        }
    }
}

/// Tells why the words of a run over recordings are refused, and gives the status.
pub fn refuse(rt: &HostRuntime, matches: &ArgMatches<'_>, refused: Refused<'_>) -> u8 {
    let line = match refused {
        Refused::Memory => return memory(rt),
        Refused::BadInterface(_) => "words BadInterface",
        Refused::BadNumber => "words BadNumber",
        Refused::SameInput => "words SameInput",
    };
    complain(rt, line);
    if explain_if_asked(rt, matches, line, &Cause::none())
        && let Refused::BadInterface(place) = refused
    {
        tell_visible(rt, &place);
    }
    WRONG_WORDS
}

/// Where lines go that tell of frames that came too early, if they are asked for.
fn early_lines(rt: &HostRuntime, are_asked: bool) -> Option<Watched<WholeLines<Stderr>>> {
    if are_asked {
        Some(Watched::new(error_lines(rt)))
    } else {
        None
    }
}

/// How a run over recordings ended that `list` made.
fn ended_of(listed: ListEnded) -> InputEnded {
    InputEnded {
        ended: Ended {
            status: listed.status,
            summary: None,
        },
        tally: listed.tally,
    }
}

/// Makes the run over what an input gives.
fn run_over<
    P: Placing + Drop,
    A: RunInput<P, Heading> + RunInput<P, NumberLine>,
    O: Sink,
    E: Write,
>(
    rt: &HostRuntime,
    run: &Run<'_>,
    options: P,
    input: &mut A,
    lines: &mut O,
    faults: &mut Watched<E>,
) -> InputEnded
    requires new { A.RunInput-1.IsNew input.old × A.RunInput-2.IsNew input.old }
    requires sound_output { O.failed lines.old ≡ false }
{
    match run {
        Run::Police(rule) => { police_input(rt.alloc(), options, rule, input, lines, faults) }
        Run::Replay(replaying) => {
            let early = early_lines(rt, replaying.options.explains_drops);
            let settings = ReplaySettings {
                config: replaying.config,
                admission: replaying.options.admission,
                options,
                early,
            };
            let ended = replay_input(rt.alloc(), settings, input, lines, faults);
            ended.0
        }
        Run::List { config } => {
            ended_of(list_and_count(rt.alloc(), options, config, input, lines, faults))
        }
    }
}

/// Of two inputs that which failed, else the first, with the word that names it. Behind a failure
/// neither is read, so at most one has failed.
pub fn failed_of<'a, R: Drop>(lists: BySide<&'a str>, inputs: BySide<Watched<R>>) -> (&'a str, R) {
    let BySide { a, b } = inputs;
    if b.failed() {
        (lists.b, b.into_inner())
    } else {
        (lists.a, a.into_inner())
    }
}

/// Why reading the input failed that this word names, if it did.
pub fn cause_in<'a, R: Drop>(config: &'a [u8], list: &'a str, device: Traced<R>) -> Cause<'a> {
    Cause {
        config,
        path: name_of_input(list),
        reason: device.reason(),
    }
}

/// Makes the run over what an input gives, which the word `list` names, and hands all its lines to
/// standard output.
fn run_one(
    rt: &HostRuntime,
    matches: &ArgMatches<'_>,
    run: &Run<'_>,
    list: &str,
    input: InputDevice,
) -> u8 {
    let device = Traced::new(rt.stdout());
    let Ok(mut output) = Output::new(rt.alloc(), output_room(rt, matches), device) else {
        return memory(rt);
    };
    let options = match recording_options(rt.alloc(), matches, run.has_configuration()) {
        Ok(options) => options,
        Err(refused) => return refuse(rt, matches, refused),
    };
    let told = is_told(rt, matches) && !run.explains_drops();
    let count = Count::new(rt, told);
    let device = Traced::new(Counted::new(&count, input));
    let mut input = Watched::new(Peeked::new(device));
    let mut errors = Watched::new(WatchedWriter::new(Cleared::new(rt, told, error_lines(rt))));
    let ended = run_over(rt, run, options, &mut input, &mut output, &mut errors);
    let read = cause_in(run.config(), list, input.into_inner().into_inner());
    end_run(rt, matches, ended, read, output, errors)
}

/// Makes the run over what two inputs give, which these words name, and hands all its lines to
/// standard output.
fn run_two(
    rt: &HostRuntime,
    matches: &ArgMatches<'_>,
    run: &Run<'_>,
    lists: BySide<&str>,
    inputs: BySide<InputDevice>,
) -> u8 {
    let device = Traced::new(rt.stdout());
    let Ok(mut output) = Output::new(rt.alloc(), output_room(rt, matches), device) else {
        return memory(rt);
    };
    let options = match pair_options(rt.alloc(), matches, lists) {
        Ok(options) => options,
        Err(refused) => return refuse(rt, matches, refused),
    };
    let told = is_told(rt, matches) && !run.explains_drops();
    let count = Count::new(rt, told);
    let mut inputs = BySide {
        a: Watched::new(Traced::new(Counted::new(&count, inputs.a))),
        b: Watched::new(Traced::new(Counted::new(&count, inputs.b))),
    };
    let mut errors = Watched::new(WatchedWriter::new(Cleared::new(rt, told, error_lines(rt))));
    let ended = run_over(rt, run, options, &mut inputs, &mut output, &mut errors);
    let (list, device) = failed_of(lists, inputs);
    let read = cause_in(run.config(), list, device);
    end_run(rt, matches, ended, read, output, errors)
}

/// The input that a word names, a file, or standard input, which is `-`. Err: the status where it
/// can't be had.
pub fn open(rt: &HostRuntime, matches: &ArgMatches<'_>, list: &str) -> Result<InputDevice, u8> {
    match InputDevice::open(rt, list) {
        Ok(input) => Ok(input),
        Err(reason) => Err(no_file(rt, matches, "device List", list, reason)),
    }
}

/// Makes the run over the inputs that the words name: one, or with `second` two, that of network A
/// and that of network B. Err: the status where one can't be had.
pub fn run_inputs(
    rt: &HostRuntime,
    matches: &ArgMatches<'_>,
    run: &Run<'_>,
    list: &str,
    second: Option<&str>,
) -> Result<u8, u8> {
    let a = open(rt, matches, list)?;
    let Some(second) = second else {
        return Ok(run_one(rt, matches, run, list, a));
    };
    let b = open(rt, matches, second)?;
    let lists = BySide { a: list, b: second };
    Ok(run_two(rt, matches, run, lists, BySide { a, b }))
}

/// Sends the messages of a list from a system. Err: the status where the list can't be had.
pub fn run_sender(
    rt: &HostRuntime,
    matches: &ArgMatches<'_>,
    config: &[u8],
    said: SendWords<'_>,
) -> Result<u8, u8> {
    let input = open(rt, matches, said.submissions)?;
    let device = Traced::new(rt.stdout());
    let Ok(mut output) = Output::new(rt.alloc(), output_room(rt, matches), device) else {
        return Err(memory(rt));
    };
    let told = is_told(rt, matches);
    let count = Count::new(rt, told);
    let mut input = Watched::new(Traced::new(Counted::new(&count, input)));
    let mut errors = Watched::new(WatchedWriter::new(Cleared::new(rt, told, error_lines(rt))));
    let ended = InputEnded {
        ended: send_and_count(
            rt.alloc(),
            config,
            said.system,
            &mut input,
            &mut output,
            &mut errors,
        ),
        tally: None,
    };
    let read = Cause {
        config,
        path: name_of_input(said.submissions),
        reason: input.into_inner().reason(),
    };
    Ok(end_run(rt, matches, ended, read, output, errors))
}
