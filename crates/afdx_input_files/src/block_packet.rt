//! Packets of a pcapng.

ghost use Rattle.std.specs.Prelude.{◌≡◌, ◌≤◌, ◌+◌, length, true, IfSome};
ghost use Rattle.afdx_input_files.specs.Options.{filled};
ghost use Rattle.afdx_input_files.specs.Packets.{is_captured, check_by_flags, is_found_wrong, packet_frame, packet_by};
ghost use Rattle.afdx_input_files.specs.Packets.{simple_frame, simple_captured, simple_by};

use crate::form::check_by;
use crate::interface::Interface;
use crate::options::{filled_up, said_in};
use crate::order::Order;
use crate::recorded::{CheckSequence, Recorded, RecordedFrame, Stamp};
use crate::stamp::stamp_by;

/// The most bytes that are captured of a frame.
const LONGEST_CAPTURE: u32 = 262_144;
/// The option of a packet that has its flags.
const FLAGS: u16 = 2;
/// The bytes before those that a packet captured.
const PACKET_START: usize = 20;
/// The same of a simple packet.
const SIMPLE_START: usize = 4;

/// What takes a number, and where its bytes stand in the body of its block.
#[derive(Clone, Copy, Debug, PartialEq, Eq)]
pub struct Placed {
    /// What it is.
    pub what: Recorded,
    /// The bytes of the body before them.
    pub start: usize,
    /// How many they are.
    pub count: usize,
}

/// Whether so many bytes were captured, which stand with their filling in the body.
#[tactic(auto, unfolding(crate::specs::Packets::is_captured))]
fn are_captured(start: usize, captured: u32, body: &[u8]) -> bool
    requires { start ≤ 20 }
    ensures answer { result ≡ is_captured start captured body.now }
    ensures room { result ≡ true → start + filled captured ≤ length body.now }
    ensures within { result ≡ true → start + captured ≤ length body.now }
{
    captured <= LONGEST_CAPTURE && start + filled_up(captured as usize) <= body.len()
}

/// Whether a frame ends with its check sequence, by its packet's flags.
#[tactic(auto, unfolding(crate::specs::Packets::check_by_flags))]
fn check_of(interface: CheckSequence, flags: u64) -> CheckSequence
    ensures { result ≡ check_by_flags interface flags }
{
    let bytes = flags / 0x20 % 0x10;
    if bytes == 0 {
        interface
    } else {
        check_by(bytes)
    }
}

/// The frame of a packet with such flags.
#[inline(always)]
#[tactic(auto, unfolding(crate::specs::Packets::packet_frame))]
fn frame_with(
    order: Order,
    body: &[u8],
    place: u16,
    interface: Interface,
    flags: u64,
) -> RecordedFrame
    requires { 20 ≤ length body.now }
    ensures { result ≡ packet_frame order body.now place interface flags }
{
    let high = u64::from(order.word(body, 4));
    let ticks = high * 0x1_0000_0000 + u64::from(order.word(body, 8));
    RecordedFrame {
        interface: place,
        link_type: interface.link_type,
        stamp: stamp_by(interface.resolution, interface.offset, ticks),
        original: order.word(body, 16),
        check_sequence: check_of(interface.check_sequence, flags),
        found_wrong: flags / 0x100_0000 % 2 == 1,
    }
}

/// A packet of an interface. None: its bytes don't fit, or its options are wrong.
#[inline(always)]
#[tactic(auto, unfolding(crate::specs::Packets::packet_by))]
pub fn packet_of(order: Order, body: &[u8], place: u16, interface: Interface) -> Option<Placed>
    requires { 20 ≤ length body.now }
    ensures placed { result ≡ packet_by order body.now place interface }
    ensures within { IfSome result (λ placed. placed.start + placed.count ≤ length body.now) }
{
    let captured = order.word(body, 12);
    if !are_captured(PACKET_START, captured, body) {
        return None;
    }
    let count = captured as usize;
    // (most packets say no flags: what is found then is written out by itself)
    let frame = match said_in(order, &body[PACKET_START + filled_up(count)..], FLAGS, 4)? {
        None => frame_with(order, body, place, interface, 0),
        Some(flags) => frame_with(order, body, place, interface, flags),
    };
    Some(Placed {
        what: Recorded::Frame(frame),
        start: PACKET_START,
        count,
    })
}

/// The bytes that a simple packet captured.
#[tactic(auto, unfolding(crate::specs::Packets::simple_captured))]
fn captured_of(snap: u32, original: u32) -> u32
    ensures { result ≡ simple_captured snap original }
{
    if snap == 0 {
        original
    } else {
        original.min(snap)
    }
}

/// A simple packet. None: its bytes don't fit.
#[tactic(auto, unfolding(crate::specs::Packets::simple_by, crate::specs::Packets::simple_frame))]
pub fn simple_packet_of(order: Order, body: &[u8], interface: Interface) -> Option<Placed>
    requires { 4 ≤ length body.now }
    ensures placed { result ≡ simple_by order body.now interface }
    ensures within { IfSome result (λ placed. placed.start + placed.count ≤ length body.now) }
{
    let original = order.word(body, 0);
    let captured = captured_of(interface.snap, original);
    if !are_captured(SIMPLE_START, captured, body) {
        return None;
    }
    let frame = RecordedFrame {
        interface: 0,
        link_type: interface.link_type,
        stamp: Stamp::Missing,
        original,
        check_sequence: interface.check_sequence,
        found_wrong: false,
    };
    Some(Placed {
        what: Recorded::Frame(frame),
        start: SIMPLE_START,
        count: captured as usize,
    })
}
