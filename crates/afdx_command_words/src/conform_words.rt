//! The words of `conform`, and what they say.

ghost use Rattle.std.specs.List.{AllZip};
ghost use Rattle.std.specs.Prelude.{◌≡◌, IfOk, codes, is_some, map};
ghost use Rattle.clap.specs.Words.{first_value, found_of};
ghost use Rattle.afdx_command_words.specs.ConformSaid.{NamesLink, SaysConform};
ghost use Rattle.afdx_command_words.specs.Said.{SaysFlag, SaysNumber, words_of};

use crate::recording_words::Refused;
use crate::said::{is_given, number_of};
use crate::seen_words::{
    came_option, left_option, lossy_option, seen_fcs_option, seen_reorder_option,
    seen_stamps_option,
};
use crate::words::{
    CONFIG_HELP, command, explain_option, flag, line_buffered, progress_option, word,
};
use afdx_frame::VlId;
use clap::{Arg, ArgAction, ArgMatches, Command, value_parser};
use std::alloc::{AllocError, Global};

const CONFORM_ABOUT: &str = "Says whether a recorded switch did what its tables say";

const CONFORM_AFTER: &str = "\
CAME has the frames that came to both switches, LEFT those that left them. Both are
lists as for 'replay', CAME's with the input port, LEFT's with the output port, both
with the time of the last bit; or both are recordings; or CAME alone is a recording
of both. Of recordings --interface and --left say what was plugged in where.

A line is printed for each thing that a switch did wrong; n is a line of CAME, m one
of LEFT, of recordings the number of a frame, as Wireshark counts:

  strange m side port WORD  nothing explains this frame of LEFT; WORD says why
  passed n side port WORD   its frame left, and had to be dropped; WORD says why
  stopped n side port       its frame had to leave, and didn't
  late n side port NS       its frame left NS ns later than its latency allows
  early n side port NS      its frame left NS ns before all of it can have
  unsure n side port        from here on nothing is said of its link at that port

The last line begins with one of these, of which each has a status of its own:

  conforms    0  each frame that left is explained, each that had to leave did
  deviates D  5  there are D lines of what was wrong
  undecided   3  nothing was wrong, but no frame is explained, or a line is 'unsure';
                 with --exercised also if a link at an output port is idle

Behind it stands how much that says:

  explained N    frames that left rightly
  open K         arrivals whose frames may come behind the end
  uncertain U    arrivals that may pass and may be dropped, by the options
  left-out L     lines and frames that were passed over
  unseen W       links at output ports that weren't recorded
  idle I         of those that were, the ones of which nothing was shown

Without options the stamps are exact, and both switches were reset before the first
line. It is never said of a right switch that it deviates, if stamps and clocks differ
by no more than the options say. The tables of CONFIG need not be admitted.

One input, or one of --interface, --left, --fcs, --stamps, --reorder and --lossy, says
that each input is a recording. Of one input --interface and --left name interfaces of
it, of two those of CAME and those of LEFT. What others recorded is left out. Only links
of which the sender's port and an output port were recorded are judged there. Time 0 is
the moment of the first frame. The last line doesn't come where a recording has no
interface K of --interface or --left: the fault is 'recording Absent K'. Nor does it
where a recorder lost N frames by its own word: 'recording Lossy N', unless --lossy is
given.

CONFIG may describe several switches a side. --switch names the one that is judged;
CAME then has all that came to it, from its systems and by its cables, and each
--interface says a port.

With --senders the systems are judged as senders, too; with --switch those of that
switch. They are judged alone where neither LEFT nor --left is given: CAME is then a
list, or with one of the options above a recording of what they sent. What came by a
cable has no sender there. A line is printed for each thing that a system did wrong; n
is a line of CAME:

  unlawful n side port WORD  frame n isn't lawful by itself; WORD says why
  number n side port Q       its sequence number isn't Q, which stood next
  soon n side port NS        it was sent NS ns too soon after those before it
  differs n side port        it isn't the same as its copy on the other network
  apart n side port NS       it was sent NS ns too late after that copy
  single n side port         it has no copy there

The last line then has behind 'idle I':

  sent S     frames of systems of which no line is printed
  cut C      frames whose copy may lie before the start or behind the end
  alone G    links of which not both networks were recorded

A closed pipe, as with '| head', is the fault 'device Write', status 4.

Examples:
  afdx conform --slack 500 --drift 100 network.toml came.list left.list
  afdx conform --interface 0=A:1 --left 1=A:3 network.toml bench.pcapng
  afdx conform --senders network.toml came.list left.list";

const CAME_HELP: &str = "\
The path of a list or a recording (pcap) of the frames that came, or, without LEFT,
of a recording of both; - for standard input";

const LEFT_HELP: &str = "The path of a list or a recording of the frames that left, or - for \
standard input";

const SUMMARY_HELP: &str = "Prints how much of each recording was left out, behind the last line";

const BETWEEN_HELP: &str = "\
By how many ns more a stamp of LEFT may be off, where recorders are
apart, at most 100,000,000";

const SLACK_HELP: &str = "By how many ns a stamp may be off, at most 1,000,000";

const DRIFT_HELP: &str = "\
By how many millionths the rates of the switch's clock and of the
recorders' may differ, at most 1,000";

const INNER_HELP: &str = "\
How many ns a frame may take inside beyond its link's latency, at most
1,000,000";

const ASKED_HELP: &str = "\
By how many ns later than its last bit a frame's account may be asked,
at most 1,000,000";

const FROM_HELP: &str = "\
There was traffic before this time, in ns, at most 10^15: lines before
it are passed over; else the switches were reset before the first line";

const UNTIL_HELP: &str = "\
The end of the recordings, in ns, at most 10^15: later lines are passed
over; else the greatest time of all lines";

const LEAVE_OUT_HELP: &str = "\
The link, 0 to 65535, whose frames are passed over, or 'other' for
frames that name no link; may be given again";

const EXERCISED_HELP: &str = "\
Says 'undecided' if of a link at an output port that was recorded no
frame is explained";

const SENDERS_HELP: &str = "\
Judges the systems by what they sent, too; alone where nothing is given
of what left";

const APART_HELP: &str = "\
By how many ns later the copy of a frame may be sent, at most
100,000,000; else what the tables leave";

const SWITCH_HELP: &str = "\
The name of the switch that is judged, or whose systems are, where
CONFIG describes several a side";

/// The word for frames that name no link.
const OTHER: &str = "other";

/// An option with a number and, where it isn't given, none.
fn time_option<'a>(alloc: Global, name: &'a str, help: &'a str) -> Arg<'a> {
    Arg::new(alloc, name)
        .help(help)
        .value_parser(value_parser!(u64))
        .long(name)
        .value_name("NS")
}

/// An option with a number that is 0 where it isn't given.
fn leeway_option<'a>(alloc: Global, name: &'a str, unit: &'a str, help: &'a str) -> Arg<'a> {
    time_option(alloc, name, help)
        .value_name(unit)
        .default_value("0")
}

/// The option by which frames of a link are passed over.
fn leave_out_option<'a>(alloc: Global) -> Arg<'a> {
    Arg::new(alloc, "leave-out")
        .long("leave-out")
        .value_name("VL")
        .help(LEAVE_OUT_HELP)
        .action(ArgAction::Append)
}

/// The option by which senders are judged.
fn senders_option<'a>(alloc: Global) -> Arg<'a> {
    flag(alloc, "senders", SENDERS_HELP)
}

/// The option that says how far apart copies may be sent.
fn copies_apart_option<'a>(alloc: Global) -> Result<Arg<'a>, AllocError> {
    time_option(alloc, "apart", APART_HELP).requires_arg("senders")
}

/// The option by which a switch of several is judged.
fn switch_option<'a>(alloc: Global) -> Arg<'a> {
    Arg::new(alloc, "switch")
        .long("switch")
        .value_name("NAME")
        .help(SWITCH_HELP)
}

/// With what says how recordings are read.
fn with_recordings<'a>(alloc: Global, command: Command<'a>) -> Result<Command<'a>, AllocError> {
    let words = vec![in alloc;
        came_option(alloc),
        left_option(alloc),
        seen_fcs_option(alloc),
        seen_reorder_option(alloc),
        seen_stamps_option(alloc),
        lossy_option(alloc),
    ]?;
    command.args(words)
}

pub fn conform_command<'a>(alloc: Global) -> Result<Command<'a>, AllocError> {
    let words = vec![in alloc;
        leeway_option(alloc, "slack", "NS", SLACK_HELP),
        leeway_option(alloc, "between", "NS", BETWEEN_HELP),
        leeway_option(alloc, "drift", "PPM", DRIFT_HELP),
        leeway_option(alloc, "inner", "NS", INNER_HELP),
        leeway_option(alloc, "asked", "NS", ASKED_HELP),
        time_option(alloc, "from", FROM_HELP),
        time_option(alloc, "until", UNTIL_HELP),
        leave_out_option(alloc),
        flag(alloc, "exercised", EXERCISED_HELP),
        switch_option(alloc),
        senders_option(alloc),
        copies_apart_option(alloc)?,
    ]?;
    let command = command(alloc, "conform", CONFORM_ABOUT, CONFORM_AFTER).args(words)?;
    let words = vec![in alloc;
        explain_option(alloc),
        line_buffered(alloc),
        progress_option(alloc),
        flag(alloc, "summary", SUMMARY_HELP),
        word(alloc, "CONFIG", CONFIG_HELP),
        word(alloc, "CAME", CAME_HELP),
        Arg::new(alloc, "LEFT").help(LEFT_HELP),
    ]?;
    with_recordings(alloc, command)?.args(words)
}

/// What the words of `conform` ask for, in whole ns, and the drift in millionths; but for those of
/// `left_out` each number is as it was given, also if it is out of its range.
#[derive(Debug, Drop)]
pub struct ConformOptions {
    pub slack: u64,
    /// By how much stamps of what left may be off beyond that.
    pub between: u64,
    pub drift: u64,
    pub inner: u64,
    pub asked: u64,
    pub from: Option<u64>,
    pub until: Option<u64>,
    /// The links whose frames are passed over; None is for frames that name no link.
    pub left_out: Vec<Option<VlId>>,
    /// Whether frames that recorders lost don't matter.
    pub is_lossy: bool,
    /// Whether it conforms only if something is shown of each stream that is judged.
    pub is_exercised: bool,
}

/// The link that a word of `--leave-out` names.
fn link_in(word: &str) -> Result<Option<VlId>, Refused<'_>>
    ensures { IfOk result (NamesLink word.now) }
{
    if word == OTHER {
        return Ok(None);
    }
    match word.parse::<u16>() {
        Ok(vl) => Ok(Some(VlId(vl))),
        Err(_) => Err(Refused::BadNumber),
    }
}

/// The links that the words of `--leave-out` name.
fn links_in<'a>(alloc: Global, words: &[&'a str]) -> Result<Vec<Option<VlId>>, Refused<'a>>
    ensures { IfOk result (λ links.
        AllZip NamesLink (map (λ word. word.now) words.now) links.items) }
{
    let mut links = Vec::new(alloc);
    for word in words {
        let link = link_in(word)?;
        match links.push(link) {
            Ok(()) => {}
            Err(_) => return Err(Refused::Memory),
        }
    }
    Ok(links)
}

/// The links that are passed over.
fn left_out_in<'a>(
    alloc: Global,
    matches: &ArgMatches<'a>,
) -> Result<Vec<Option<VlId>>, Refused<'a>>
    ensures { IfOk result (λ links.
        AllZip NamesLink (words_of (found_of matches.now) (codes "leave-out")) links.items) }
{
    let words = matches.get_strs("leave-out").unwrap_or(&[]);
    links_in(alloc, words)
}

/// What the words of `conform` ask for, if those of `--leave-out` are taken.
pub fn conform_options<'a>(
    alloc: Global,
    matches: &ArgMatches<'a>,
) -> Result<ConformOptions, Refused<'a>>
    ensures { IfOk result (SaysConform (found_of matches.now)) }
{
    Ok(ConformOptions {
        slack: number_of(matches, "slack").unwrap_or(0),
        between: number_of(matches, "between").unwrap_or(0),
        drift: number_of(matches, "drift").unwrap_or(0),
        inner: number_of(matches, "inner").unwrap_or(0),
        asked: number_of(matches, "asked").unwrap_or(0),
        from: number_of(matches, "from"),
        until: number_of(matches, "until"),
        left_out: left_out_in(alloc, matches)?,
        is_lossy: is_given(matches, "lossy"),
        is_exercised: is_given(matches, "exercised"),
    })
}

/// Whether senders are judged.
pub fn wants_senders(matches: &ArgMatches<'_>) -> bool
    ensures { SaysFlag (found_of matches.now) (codes "senders") result }
{
    is_given(matches, "senders")
}

/// Whether an option says where frames left.
pub fn names_left(matches: &ArgMatches<'_>) -> bool
    ensures { result ≡ is_some (first_value (found_of matches.now) (codes "left")) }
{
    matches.get_str("left").is_some()
}

/// By how many ns later the copy of a frame may be sent on the other network, if that is said; the
/// number as it was given.
pub fn copies_apart(matches: &ArgMatches<'_>) -> Option<u64>
    ensures { SaysNumber (found_of matches.now) (codes "apart") result }
{
    number_of(matches, "apart")
}
