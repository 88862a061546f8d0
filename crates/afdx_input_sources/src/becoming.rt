//! What a number of a recording becomes.

ghost use Rattle.std.specs.Prelude.{◌≡◌, ◌<◌, ℕ, IfOk, None, false};
ghost use Rattle.afdx_input_sources.specs.Becoming as spec;
ghost use Rattle.afdx_input_sources.specs.Becoming.{options_of};
ghost use Rattle.afdx_input_sources.specs.Claims.{ports_of};
ghost use Rattle.afdx_input_sources.specs.Places as places;

use crate::entering::entrance_of;
use crate::places::{Interfaces, TapPoint, TapPort};
use crate::senders::SystemPorts;
use crate::skipped::Skipped;
use afdx_frame::{Side, fcs};
use afdx_input_files::{CheckSequence, Recorded, RecordedFrame, Stamp};
use afdx_input_lines::{FrameKind, RecordingFault, Role};
use std::alloc::{AllocError, Global};

/// The link type of Ethernet.
const ETHERNET: u32 = 1;

/// The check sequence of bytes that end with their own.
const RESIDUE: u32 = 0x2144_df1c;

/// What the options of a run over a recording say.
#[derive(Debug, Drop)]
pub struct RecordingOptions {
    /// Where the frames of each interface came in, or left.
    pub interfaces: Interfaces,
    /// Whether the frames of an interface of which nothing is said are left out.
    pub leaves_unsaid: bool,
    /// Whether each frame ends with its check sequence, where that is said.
    pub fcs: Option<bool>,
    /// The moment that is time 0, in ns since 1970, where that is said.
    pub origin: Option<u64>,
    /// The network whose recording it is, of two that are read at once.
    pub network: Option<Side>,
    /// Whether it is the second of two that are read at once.
    pub is_second: bool,
    /// How many arrivals may have a later moment than one that stands behind them.
    pub reorder: u32,
    /// Whether the stamps of what came in are those of frames' first bits, else of their last
    /// ones.
    pub from_start: bool,
    /// The same of what left.
    pub left_from_start: bool,
    /// Whether an option was given: then the input has to be a recording.
    pub are_given: bool,
}

impl RecordingOptions {
    /// None is given, and nothing is said.
    pub fn none(alloc: Global) -> Result<RecordingOptions, AllocError>
        ensures given { IfOk result (λ options. options.are_given ≡ false) }
        ensures fcs { IfOk result (λ options. options.fcs ≡ None) }
        ensures origin { IfOk result (λ options. options.origin ≡ None) }
        ensures network { IfOk result (λ options. options.network ≡ None) }
        ensures reorder { IfOk result (λ options. options.reorder ≡ 0) }
        ensures start { IfOk result (λ options. options.from_start ≡ false) }
        ensures left_start { IfOk result (λ options. options.left_from_start ≡ false) }
        ensures unsaid { IfOk result (λ options. options.leaves_unsaid ≡ false) }
        ensures second { IfOk result (λ options. options.is_second ≡ false) }
        ensures place { IfOk result (λ options. (k : ℕ) →
            places.place_of options.interfaces k ≡ None) }
    {
        Ok(RecordingOptions {
            interfaces: Interfaces::new(alloc)?,
            leaves_unsaid: false,
            fcs: None,
            origin: None,
            network: None,
            is_second: false,
            reorder: 0,
            from_start: false,
            left_from_start: false,
            are_given: false,
        })
    }
}

/// An arrival, or a frame that left, beside its number and its recorded bytes.
#[derive(Clone, Copy, Debug, PartialEq, Eq)]
pub struct FoundFrame {
    /// When it came, or left, in ns since 1970.
    pub moment: u64,
    /// Which of both it did.
    pub role: Role,
    /// Whether it is of the second of two recordings that are read at once.
    pub is_second: bool,
    /// The network by which it came, or left.
    pub side: Side,
    /// The place of the switch at which it came in among those of its side, from 0; 0 where there
    /// is one, and of what left.
    pub switch: u8,
    /// The port at which it came in, or left.
    pub port: u8,
    /// Whether its side, its switch or its port was taken from its bytes.
    pub is_claimed: bool,
    /// Whether its source address names the other network.
    pub is_contradicted: bool,
    /// What is done with its recorded bytes: `Raw` where they end with their check sequence.
    pub kind: FrameKind,
}

/// Why a number is no arrival.
#[derive(Clone, Copy, Debug, PartialEq, Eq)]
pub enum NoArrival {
    /// It is skipped.
    Skipped(Skipped),
    /// The run ends with this fault.
    Faulted(RecordingFault),
}

/// The moment of frame n's stamp.
fn moment_of(n: u64, stamp: Stamp) -> Result<u64, NoArrival>
    ensures { result ≡ spec.moment_of n stamp }
{
    match stamp {
        Stamp::Missing => Err(NoArrival::Faulted(RecordingFault::NoTime(n))),
        Stamp::Bad => Err(NoArrival::Faulted(RecordingFault::BadTime(n))),
        Stamp::At(moment) => Ok(moment),
    }
}

/// Whether a frame ends with its check sequence, if that is said: by an option, else by the
/// recorder.
fn ends_with_sequence(option: Option<bool>, recorder: CheckSequence) -> Option<bool>
    ensures { result ≡ spec.ends_with_sequence option recorder }
{
    match (option, recorder) {
        (Some(said), _) => Some(said),
        (None, CheckSequence::With) => Some(true),
        (None, CheckSequence::Without) => Some(false),
        (None, CheckSequence::Unsaid) => None,
    }
}

/// Whether fewer bytes were captured than the frame had. Four fewer are lawful where an option says
/// that no frame has its check sequence.
fn is_cut(option: Option<bool>, original: u32, captured: usize) -> bool
    ensures { result ≡ spec.is_cut option original captured }
{
    let original = original as usize;
    match option {
        Some(false) => captured < original && original - captured != 4,
        _ => captured < original,
    }
}

/// The moment of frame n, which has so many captured bytes, if it is an Ethernet frame that is
/// whole.
#[tactic(auto, unfolding(crate::specs::Becoming::whole_moment))]
fn whole_moment(
    option: Option<bool>,
    n: u64,
    frame: &RecordedFrame,
    captured: usize,
) -> Result<u64, NoArrival>
    ensures { result ≡ spec.whole_moment option n frame.now captured }
{
    if frame.link_type != ETHERNET {
        return Err(NoArrival::Faulted(RecordingFault::NotEthernet(n)));
    }
    let moment = moment_of(n, frame.stamp)?;
    if is_cut(option, frame.original, captured) {
        return Err(NoArrival::Faulted(RecordingFault::Cut(n)));
    }
    Ok(moment)
}

/// What is done with the bytes of an arrival. None: it isn't said whether they have their check
/// sequence, and it seems so.
#[tactic(auto, unfolding(crate::specs::Becoming::kind_with))]
fn kind_with(has_sequence: Option<bool>, found_wrong: bool, bytes: &[u8]) -> Option<FrameKind>
    ensures { result ≡ spec.kind_with has_sequence found_wrong bytes.now }
{
    if has_sequence == Some(true) {
        return Some(FrameKind::Raw);
    }
    if has_sequence.is_none() && fcs(bytes) == RESIDUE {
        return None;
    }
    if found_wrong {
        Some(FrameKind::Bad)
    } else {
        Some(FrameKind::Good)
    }
}

/// The greatest moment that is told, in ns since 1970: far behind all that a stamp can say.
const LATEST_MOMENT: u128 = 18_446_744_073_709_551_615;

/// How many bytes a frame has with its check sequence.
fn whole_length(has_sequence: Option<bool>, bytes: &[u8]) -> u128
    ensures { result ≡ spec.whole_length has_sequence bytes.now }
{
    let length = bytes.len() as u128;
    if has_sequence == Some(true) {
        length
    } else {
        length + 4
    }
}

/// How long a frame lasts where it came in, or left, in ns.
fn line_time(ports: &SystemPorts, entry: TapPort, has_sequence: Option<bool>, bytes: &[u8]) -> u128
    ensures time { result ≡ spec.line_time (ports_of ports.now) entry has_sequence bytes.now }
    ensures small { result < 0x20000000000000000000000000 }
{
    let byte_ns = ports.byte_ns(entry).unwrap_or(0);
    whole_length(has_sequence, bytes) * u128::from(byte_ns)
}

/// The moment of the last bit of frame n, whose first bit is stamped, and which lasts so long.
fn last_bit(n: u64, stamp: u64, time: u128) -> Result<u64, NoArrival>
    requires { time < 0x20000000000000000000000000 }
    ensures { result ≡ spec.last_bit n stamp time }
{
    let last = u128::from(stamp) + time;
    if last > LATEST_MOMENT {
        return Err(NoArrival::Faulted(RecordingFault::BadTime(n)));
    }
    Ok(last as u64)
}

/// The most recorded bytes of an arrival that are used.
const MOST_USED: usize = 2000;

/// What is done with those bytes of an arrival that are used: a longer one has no room for its
/// check sequence.
fn kind_used(kind: FrameKind, bytes: &[u8]) -> FrameKind
    ensures { result ≡ spec.kind_used kind bytes.now }
{
    if bytes.len() > MOST_USED {
        FrameKind::Raw
    } else {
        kind
    }
}

/// Those of these bytes that are used.
pub(crate) fn first_bytes(bytes: &[u8]) -> &[u8]
    ensures { result.now ≡ spec.first_bytes bytes.entry.now }
{
    &bytes[..MOST_USED.min(bytes.len())]
}

/// Whether a moment is before that of time 0.
fn is_before(origin: Option<u64>, moment: u64) -> bool
    ensures { result ≡ spec.is_before origin moment }
{
    match origin {
        Some(origin) => moment < origin,
        None => false,
    }
}

/// Whether the frames of an interface with this place are left out.
fn is_left_out(leaves_unsaid: bool, place: Option<TapPoint>) -> bool
    ensures { result ≡ places.is_left_out leaves_unsaid place }
{
    match place {
        Some(TapPoint::LeftOut) => true,
        Some(_) => false,
        None => leaves_unsaid,
    }
}

/// Whether stamps of frames of this role are those of first bits.
fn is_from_start(options: &RecordingOptions, role: Role) -> bool
    ensures { result ≡ spec.is_from_start (options_of options.now) role }
{
    match role {
        Role::Came => options.from_start,
        Role::Left => options.left_from_start,
    }
}

/// What frame n becomes.
#[inline(always)]
#[tactic(auto, unfolding(crate::specs::Becoming::frame_becomes))]
fn frame_becomes(
    options: &RecordingOptions,
    ports: &SystemPorts,
    n: u64,
    frame: &RecordedFrame,
    bytes: &[u8],
) -> Result<FoundFrame, NoArrival>
    ensures { result ≡ spec.frame_becomes (options_of options.now) (ports_of ports.now)
        n frame.now bytes.now }
{
    let place = options.interfaces.place(frame.interface);
    if is_left_out(options.leaves_unsaid, place) {
        return Err(NoArrival::Skipped(Skipped::LeftOut));
    }
    let stamp = whole_moment(options.fcs, n, frame, bytes.len())?;
    let entrance = entrance_of(options.network, place, ports, bytes)?;
    let has_sequence = ends_with_sequence(options.fcs, frame.check_sequence);
    let moment = if is_from_start(options, entrance.role) {
        let time = line_time(ports, entrance.entry, has_sequence, bytes);
        last_bit(n, stamp, time)?
    } else {
        stamp
    };
    if is_before(options.origin, moment) {
        return Err(NoArrival::Skipped(Skipped::BeforeOrigin));
    }
    let Some(kind) = kind_with(has_sequence, frame.found_wrong, bytes) else {
        return Err(NoArrival::Faulted(RecordingFault::FcsUnclear(n)));
    };
    Ok(FoundFrame {
        moment,
        role: entrance.role,
        is_second: options.is_second,
        side: entrance.side,
        switch: entrance.entry.switch,
        port: entrance.entry.port,
        is_claimed: entrance.is_claimed,
        is_contradicted: entrance.is_contradicted,
        kind: kind_used(kind, bytes),
    })
}

/// What the number n of a recording becomes, whose captured bytes these are.
///
/// The first check that is false decides, in this order. A block that is no frame, and a frame
/// whose interface is left out, are skipped. Faults are `NotEthernet`, `NoTime`, `BadTime` and
/// `Cut`. A frame of no link, of no known port, of no known side, and one before the origin are
/// skipped; but none of an interface whose frames left is skipped for what its bytes say. The last
/// fault is `FcsUnclear`. A frame of more than 2,000 bytes is taken as its first 2,000, as they
/// are.
#[inline(always)]
pub fn becomes(
    options: &RecordingOptions,
    ports: &SystemPorts,
    n: u64,
    recorded: &Recorded,
    bytes: &[u8],
) -> Result<FoundFrame, NoArrival>
    ensures { result ≡ spec.becomes (options_of options.now) (ports_of ports.now)
        n recorded.now bytes.now }
{
    match recorded {
        Recorded::NoFrame => Err(NoArrival::Skipped(Skipped::NoFrame)),
        Recorded::Frame(frame) => frame_becomes(options, ports, n, frame, bytes),
    }
}
