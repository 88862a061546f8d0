//! The options of a recording, and what their words say.

ghost use Rattle.std.specs.Prelude.{◌≡◌, codes, unwrap_or, IfOk, false};
ghost use Rattle.clap.specs.Words.{found_of};
ghost use Rattle.afdx_frame.specs.declared.link.Side.TheVariants.{A, B};
ghost use Rattle.afdx_command_words.specs.Placed.{AreCame, AreCameOn};
ghost use Rattle.afdx_command_words.specs.RecordingSaid.{SaysRecording, SaysReorder, is_said};
ghost use Rattle.afdx_command_words.specs.Said.{SaysNumber, words_of};

use crate::misplaced::BadPlace;
use crate::place_words::{interfaces_in, pair_interfaces_in};
use crate::said::{is_given, is_word, number_of};
use afdx_frame::BySide;
use afdx_input_sources::{PairOptions, RecordingOptions};
use clap::{Arg, ArgAction, ArgMatches, value_parser};
use std::alloc::{AllocError, Global};

/// The word that names standard input.
pub const STANDARD_INPUT: &str = "-";

/// The greatest moment, in ns since 1970.
const LATEST_MOMENT: u64 = 9_223_372_036_854_775_807;

const INTERFACE_HELP: &str = "\
Where the frames of interface K of the recording came in: A, B, A:PORT
or B:PORT; - leaves them out";

const SITED_INTERFACE_HELP: &str = "\
Where the frames of interface K of the recording came in: A, B, A:PORT
or B:PORT, of several switches 'A SWITCH' or 'A SWITCH:PORT'; - leaves
them out";

/// The option that says where an interface's frames came in, which may be given again. Of one
/// switch on a side.
pub fn interface_option<'a>(alloc: Global) -> Arg<'a> {
    Arg::new(alloc, "interface")
        .long("interface")
        .value_name("K=PLACE")
        .help(INTERFACE_HELP)
        .action(ArgAction::Append)
}

/// The same where there may be several.
pub fn sited_interface_option<'a>(alloc: Global) -> Arg<'a> {
    interface_option(alloc).help(SITED_INTERFACE_HELP)
}

const FCS_HELP: &str = "\
Whether each frame of the recording ends with its check sequence,
whatever it says";

const ANSWERS: &[&str] = &["yes", "no"];

/// The option that says whether frames have their check sequence.
pub fn fcs_option<'a>(alloc: Global) -> Arg<'a> {
    Arg::new(alloc, "fcs")
        .long("fcs")
        .help(FCS_HELP)
        .value_name("ANSWER")
        .value_parser(ANSWERS)
}

const ORIGIN_HELP: &str = "\
The moment of the recording that is time 0, in ns since 1970; else that
of its first arrival";

/// The option that says when time 0 is.
pub fn origin_option<'a>(alloc: Global) -> Arg<'a> {
    Arg::new(alloc, "origin")
        .help(ORIGIN_HELP)
        .value_parser(value_parser!(u64))
        .long("origin")
        .value_name("NS")
}

/// How many arrivals may be later than one behind them, where no option says it.
const USUAL_REORDER: u32 = 10_000;

/// The most that may be said.
const MOST_REORDER: u64 = 100_000;

const REORDER_HELP: &str = "\
By how many arrivals times of a recording may go back, at most 100,000;
else 10,000, and with --line-buffered 0";

/// The option that says by how many arrivals times may go back.
pub fn reorder_option<'a>(alloc: Global) -> Arg<'a> {
    Arg::new(alloc, "reorder")
        .help(REORDER_HELP)
        .value_parser(value_parser!(u64))
        .long("reorder")
        .value_name("N")
}

const STAMPS_HELP: &str = "\
Whether the recorder stamps the end of a frame, as most do, or its
start";

const STAMPED: &[&str] = &["end", "start"];

/// The option that says which bit of a frame is stamped.
pub fn stamps_option<'a>(alloc: Global) -> Arg<'a> {
    Arg::new(alloc, "stamps")
        .long("stamps")
        .help(STAMPS_HELP)
        .value_name("BIT")
        .value_parser(STAMPED)
}

const SECOND_HELP: &str = "\
The path of the recording of network B, or - for standard input; the first LIST is
then that of network A";

/// The word that names a second recording, which may be absent.
pub fn second_list<'a>(alloc: Global) -> Arg<'a> {
    Arg::new(alloc, "LIST_B")
        .value_name("LIST")
        .help(SECOND_HELP)
}

/// Why words are not taken.
#[derive(Clone, Copy, Debug, PartialEq, Eq)]
pub enum Refused<'a> {
    /// A word of `--interface` or `--left` has another form, its interface was named before, or a
    /// switch is named where there can be none; or `conform` lacks one of both.
    BadInterface(BadPlace<'a>),
    /// The number of `--origin` is over 2^63 - 1, or that of `--reorder` over 100,000; a number of
    /// `conform` is out of its range.
    BadNumber,
    /// Both recordings, or both lists, are standard input.
    SameInput,
    /// There was no memory.
    Memory,
}

impl<'a> From<AllocError> for Refused<'a> {
    fn from(_error: AllocError) -> Refused<'a> {
        Refused::Memory
    }
}

/// Whether each frame ends with its check sequence, where that is said.
pub(crate) fn fcs_in(matches: &ArgMatches<'_>) -> Option<bool>
    ensures { result ≡ is_said (found_of matches.now) (codes "fcs") (codes "yes") }
{
    is_word(matches, "fcs", "yes")
}

/// The moment that is time 0, where that is said.
fn origin_in<'a>(matches: &ArgMatches<'a>) -> Result<Option<u64>, Refused<'a>>
    ensures { IfOk result (SaysNumber (found_of matches.now) (codes "origin")) }
{
    match number_of(matches, "origin") {
        Some(moment) if moment > LATEST_MOMENT => Err(Refused::BadNumber),
        origin => Ok(origin),
    }
}

/// By how many arrivals times may go back: a command that tells each line at once holds nothing
/// where it isn't said.
pub(crate) fn reorder_in<'a>(matches: &ArgMatches<'a>) -> Result<u32, Refused<'a>>
    ensures { IfOk result (SaysReorder (found_of matches.now)) }
{
    let holds_nothing = is_given(matches, "line-buffered");
    match number_of(matches, "reorder") {
        Some(most) if most > MOST_REORDER => Err(Refused::BadNumber),
        Some(most) => Ok(most as u32),
        None if holds_nothing => Ok(0),
        None => Ok(USUAL_REORDER),
    }
}

/// What is said of the recorder's clock and of its order.
#[derive(Clone, Copy, Debug)]
struct Moments {
    origin: Option<u64>,
    reorder: u32,
    /// Whether the stamps of frames' first bits are meant.
    from_start: bool,
}

/// What the words say of it.
fn moments_in<'a>(matches: &ArgMatches<'a>) -> Result<Moments, Refused<'a>>
    ensures origin { IfOk result (λ said.
        SaysNumber (found_of matches.now) (codes "origin") said.origin) }
    ensures reorder { IfOk result (λ said. SaysReorder (found_of matches.now) said.reorder) }
    ensures bit { IfOk result (λ said. said.from_start ≡ unwrap_or
        (is_said (found_of matches.now) (codes "stamps") (codes "start")) false) }
{
    let origin = origin_in(matches)?;
    let reorder = reorder_in(matches)?;
    let from_start = is_word(matches, "stamps", "start").unwrap_or(false);
    Ok(Moments {
        origin,
        reorder,
        from_start,
    })
}

/// Whether an option is given that is about recordings alone.
fn are_given(matches: &ArgMatches<'_>) -> bool {
    for name in ["interface", "fcs", "origin", "reorder", "stamps"] {
        if matches.contains_id(name) {
            return true;
        }
    }
    false
}

/// What the words say of a recording, if they are taken; there may be several switches on a side,
/// or there is one.
pub fn recording_options<'a>(
    alloc: Global,
    matches: &ArgMatches<'a>,
    several: bool,
) -> Result<RecordingOptions, Refused<'a>>
    ensures reading { IfOk result (λ said. SaysRecording (found_of matches.now)
        said.fcs said.origin said.reorder said.from_start) }
    ensures places { IfOk result (λ said.
        AreCame (words_of (found_of matches.now) (codes "interface")) said.interfaces) }
{
    let words = matches.get_strs("interface").unwrap_or(&[]);
    let interfaces = interfaces_in(alloc, words, several)?;
    let moments = moments_in(matches)?;
    Ok(RecordingOptions {
        interfaces,
        leaves_unsaid: false,
        fcs: fcs_in(matches),
        origin: moments.origin,
        network: None,
        is_second: false,
        reorder: moments.reorder,
        from_start: moments.from_start,
        left_from_start: false,
        are_given: are_given(matches),
    })
}

/// What the words say of two recordings, which are at these paths, if they are taken.
pub fn pair_options<'a>(
    alloc: Global,
    matches: &ArgMatches<'a>,
    lists: BySide<&str>,
) -> Result<PairOptions, Refused<'a>>
    ensures reading { IfOk result (λ said. SaysRecording (found_of matches.now)
        said.fcs said.origin said.reorder said.from_start) }
    ensures places_a { IfOk result (λ said. AreCameOn A
        (words_of (found_of matches.now) (codes "interface")) said.interfaces.a) }
    ensures places_b { IfOk result (λ said. AreCameOn B
        (words_of (found_of matches.now) (codes "interface")) said.interfaces.b) }
{
    let words = matches.get_strs("interface").unwrap_or(&[]);
    let interfaces = pair_interfaces_in(alloc, words)?;
    let moments = moments_in(matches)?;
    if lists.a == STANDARD_INPUT && lists.b == STANDARD_INPUT {
        return Err(Refused::SameInput);
    }
    Ok(PairOptions {
        interfaces,
        fcs: fcs_in(matches),
        origin: moments.origin,
        reorder: moments.reorder,
        from_start: moments.from_start,
    })
}
