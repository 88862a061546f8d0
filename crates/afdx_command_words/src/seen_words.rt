//! What the words of `conform` say of recordings: where each interface was, and how to read them.

ghost use Rattle.std.specs.Prelude.{◌≡◌, IfOk, IfSome, OnOk, codes};
ghost use Rattle.clap.specs.Words.{found_of};
ghost use Rattle.afdx_input_sources.specs.Places.{names_of, place_of};
ghost use Rattle.afdx_command_words.specs.Placed.{AreCame, AreGone, ArePutBeside, AreSeen, Came, Gone, OfAll};
ghost use Rattle.afdx_command_words.specs.RecordingSaid.{SaysSeen, says_either};
ghost use Rattle.afdx_command_words.specs.Said.{words_of};

use crate::misplaced::{BadPlace, Given, Misplaced};
use crate::place_words::{place_on, put_new, sided_in};
use crate::recording_words::{
    Refused, fcs_in, fcs_option, interface_option, reorder_in, reorder_option,
};
use crate::words::flag;
use afdx_input_lines::ByRole;
use afdx_input_sources::{Interfaces, RecordingOptions, TapPoint};
use clap::{Arg, ArgAction, ArgMatches};
use std::alloc::Global;

const INTERFACE_HELP: &str = "\
Where the frames of interface K came in: A:PORT or B:PORT, or A or B
where each names its sender; may be given again";

const LEFT_HELP: &str = "\
Where the frames of interface K left: A:PORT or B:PORT; may be given
again";

const FCS_HELP: &str = "\
Whether each recorded frame ends with its check sequence, whatever the
recording says";

const REORDER_HELP: &str = "\
By how many frames times of a recording may go back, at most 100,000;
else 10,000, and with --line-buffered 0";

const STAMPS_HELP: &str = "\
Whether recorders stamp the end of a frame, as most do, or its start;
in 'start-end' the first word is for what came, the second for what
left";

const LOSSY_HELP: &str = "Gives the last line though a recorder lost frames by its own word";

/// Which bit of what came and of what left is stamped; one word is for both.
const STAMPED: &[&str] = &["end", "start", "start-end", "end-start"];

/// The option that says where an interface's frames came in.
pub(crate) fn came_option<'a>(alloc: Global) -> Arg<'a> {
    interface_option(alloc)
        .value_name("K=PLACE")
        .help(INTERFACE_HELP)
}

/// The option that says where an interface's frames left.
pub(crate) fn left_option<'a>(alloc: Global) -> Arg<'a> {
    Arg::new(alloc, "left")
        .long("left")
        .value_name("K=PLACE")
        .help(LEFT_HELP)
        .action(ArgAction::Append)
}

/// The option that says whether frames have their check sequence.
pub(crate) fn seen_fcs_option<'a>(alloc: Global) -> Arg<'a> {
    fcs_option(alloc).help(FCS_HELP)
}

/// The option that says by how many frames times may go back.
pub(crate) fn seen_reorder_option<'a>(alloc: Global) -> Arg<'a> {
    reorder_option(alloc).help(REORDER_HELP)
}

/// The option that says which bits of frames are stamped.
pub(crate) fn seen_stamps_option<'a>(alloc: Global) -> Arg<'a> {
    Arg::new(alloc, "stamps")
        .long("stamps")
        .value_name("BIT")
        .help(STAMPS_HELP)
        .value_parser(STAMPED)
}

/// The option by which lost frames don't matter.
pub(crate) fn lossy_option<'a>(alloc: Global) -> Arg<'a> {
    flag(alloc, "lossy", LOSSY_HELP)
}

/// Whether an option is given that is about recordings.
fn are_recordings(matches: &ArgMatches<'_>) -> bool {
    for name in ["interface", "left", "fcs", "reorder", "stamps"] {
        if matches.contains_id(name) {
            return true;
        }
    }
    matches.get_flag("lossy")
}

/// Takes what each word of `--interface` says, of which there is one at least. Where a switch of
/// several is judged each says a port: what a frame claims is its first sender.
fn put_came<'a>(interfaces: &mut Interfaces, matches: &ArgMatches<'a>) -> Result<(), Refused<'a>>
    ensures { OnOk result (ArePutBeside OfAll (Came (names_of interfaces.new))
        (words_of (found_of matches.now) (codes "interface"))
        (place_of interfaces.old) (place_of interfaces.new)) }
{
    let needs_port = matches.contains_id("switch");
    let words = matches.get_strs("interface").unwrap_or(&[]);
    for word in words {
        let given = Given::interface(word);
        let (interface, side, port) = sided_in(given)?;
        if needs_port && port.is_none() {
            return Err(given.refused(Misplaced::Port));
        }
        put_new(interfaces, given, interface, place_on(side, port))?;
    }
    any_of("interface", words)
}

/// Takes what each word of `--left` says, of which there is one at least; each says a port.
fn put_left<'a>(interfaces: &mut Interfaces, matches: &ArgMatches<'a>) -> Result<(), Refused<'a>>
    ensures put { OnOk result (ArePutBeside OfAll Gone
        (words_of (found_of matches.now) (codes "left"))
        (place_of interfaces.old) (place_of interfaces.new)) }
    ensures names { OnOk result (names_of interfaces.new ≡ names_of interfaces.old) }
{
    let words = matches.get_strs("left").unwrap_or(&[]);
    for word in words {
        let given = Given::left(word);
        let (interface, side, port) = sided_in(given)?;
        let Some(port) = port else {
            return Err(given.refused(Misplaced::Port));
        };
        put_new(interfaces, given, interface, TapPoint::Left(side, port))?;
    }
    any_of("left", words)
}

/// Refuses that there is no word of an option.
fn any_of<'a>(option: &'static str, words: &[&'a str]) -> Result<(), Refused<'a>> {
    if words.is_empty() {
        return Err(Refused::BadInterface(BadPlace::Absent(option)));
    }
    Ok(())
}

/// Whether one of two words stands at the option of stamps.
fn stamps_are(matches: &ArgMatches<'_>, first: &str, second: &str) -> bool
    ensures { result ≡ says_either (found_of matches.now) first.now second.now }
{
    match matches.get_str("stamps") {
        Some(said) => said == first || said == second,
        None => false,
    }
}

/// With these interfaces, what the words say of how a recording is read.
fn options_of<'a>(
    interfaces: Interfaces,
    matches: &ArgMatches<'a>,
) -> Result<RecordingOptions, Refused<'a>>
    ensures reading { IfOk result (SaysSeen (found_of matches.now)) }
    ensures places { IfOk result (λ said. said.interfaces ≡ interfaces) }
{
    let reorder = reorder_in(matches)?;
    Ok(RecordingOptions {
        interfaces,
        leaves_unsaid: true,
        fcs: fcs_in(matches),
        origin: None,
        network: None,
        is_second: false,
        reorder,
        from_start: stamps_are(matches, "start", "start-end"),
        left_from_start: stamps_are(matches, "start", "end-start"),
        are_given: true,
    })
}

/// What the words say of one recording of what came and what left, if they are taken.
pub fn seen_options<'a>(
    alloc: Global,
    matches: &ArgMatches<'a>,
) -> Result<RecordingOptions, Refused<'a>>
    ensures reading { IfOk result (SaysSeen (found_of matches.now)) }
    ensures places { IfOk result (λ said. AreSeen
        (words_of (found_of matches.now) (codes "interface"))
        (words_of (found_of matches.now) (codes "left")) said.interfaces) }
{
    let mut interfaces = Interfaces::new(alloc)?;
    put_came(&mut interfaces, matches)?;
    put_left(&mut interfaces, matches)?;
    options_of(interfaces, matches)
}

/// What the words say of one recording of what came alone, if they are taken. None: they say that
/// it is a list.
pub fn came_options<'a>(
    alloc: Global,
    matches: &ArgMatches<'a>,
) -> Result<Option<RecordingOptions>, Refused<'a>>
    ensures reading { IfOk result (λ said. IfSome said (SaysSeen (found_of matches.now))) }
    ensures places { IfOk result (λ said. IfSome said (λ came. AreCame
        (words_of (found_of matches.now) (codes "interface")) came.interfaces)) }
{
    if !are_recordings(matches) {
        return Ok(None);
    }
    let mut came = Interfaces::new(alloc)?;
    put_came(&mut came, matches)?;
    let options = options_of(came, matches)?;
    Ok(Some(options))
}

/// What the words say of two recordings, of what came and of what left, if they are taken. None:
/// they say that both inputs are lists.
pub fn seen_pair_options<'a>(
    alloc: Global,
    matches: &ArgMatches<'a>,
) -> Result<Option<ByRole<RecordingOptions>>, Refused<'a>>
    ensures came { IfOk result (λ said. IfSome said (λ both.
        SaysSeen (found_of matches.now) both.came)) }
    ensures left { IfOk result (λ said. IfSome said (λ both.
        SaysSeen (found_of matches.now) both.left)) }
    ensures places_came { IfOk result (λ said. IfSome said (λ both. AreCame
        (words_of (found_of matches.now) (codes "interface")) both.came.interfaces)) }
    ensures places_left { IfOk result (λ said. IfSome said (λ both. AreGone
        (words_of (found_of matches.now) (codes "left")) both.left.interfaces)) }
{
    if !are_recordings(matches) {
        return Ok(None);
    }
    let mut came = Interfaces::new(alloc)?;
    let mut left = Interfaces::new(alloc)?;
    put_came(&mut came, matches)?;
    put_left(&mut left, matches)?;
    let of_came = options_of(came, matches)?;
    let of_left = options_of(left, matches)?;
    Ok(Some(ByRole {
        came: of_came,
        left: of_left,
    }))
}
