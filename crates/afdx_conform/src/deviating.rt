//! What a switch did with an arrival that leaves no state.

ghost use Rattle.std.specs.Prelude.{◌≡◌, ◌+◌, ◌-◌, drop, map};
ghost use Rattle.std.specs.List.{list_any};
ghost use Rattle.std.specs.Str.{bytes_eq};
ghost use Rattle.afdx_conform.specs.Findings.{is_far as far, is_late as late, is_early as early};
ghost use Rattle.afdx_conform.specs.Findings.{deviation_of};
ghost use Rattle.afdx_conform.specs.KnownBytes.{StandAt, may_fit};
ghost use Rattle.afdx_conform.specs.Limits.{AreLimits, gone_of};
ghost use Rattle.afdx_conform.specs.Marks.{arrival_of};
ghost use Rattle.afdx_conform.specs.Streams.{Terms, fits as fits_it, is_no_sooner as no_sooner};
ghost use Rattle.afdx_conform.specs.Streams.{latency, wire_time};

use crate::arrived::Arrived;
use crate::finding::{Deviation, Finding};
use crate::limits::{LeftFrame, Limits};
use crate::places::no_less;

/// Whether the frame left so late that, at worst, it is of another arrival.
fn is_far(limits: &Limits, arrived: &Arrived, frame: &LeftFrame) -> bool
    ensures { (z : Terms) → AreLimits z limits.now →
        result ≡ far z (arrival_of arrived.now) (gone_of frame.now) }
{
    arrived.time + limits.latency + limits.latency + limits.reach < frame.time
}

/// Whether the frame left too late to be of the arrival.
fn is_late(limits: &Limits, arrived: &Arrived, frame: &LeftFrame) -> bool
    ensures { (z : Terms) → AreLimits z limits.now →
        result ≡ late z (arrival_of arrived.now) (gone_of frame.now) }
{
    arrived.time + limits.latency + limits.reach < frame.time
}

/// Whether the frame isn't too early to be of the arrival.
fn is_no_sooner(limits: &Limits, arrived: &Arrived, frame: &LeftFrame) -> bool
    ensures { (z : Terms) → AreLimits z limits.now →
        result ≡ no_sooner z (arrival_of arrived.now) (gone_of frame.now) }
{
    let wire = limits.wire_time(arrived.bytes.length());
    arrived.time + wire <= frame.time + limits.reach
}

/// Whether the frame has the bytes of the arrival.
fn is_same(arrived: &Arrived, frame: &LeftFrame) -> bool
    ensures { result ≡ bytes_eq arrived.now.bytes frame.now.bytes }
{
    arrived.bytes.is_same(&frame.bytes)
}

/// Whether the frame is the arrival's, and left too early.
fn is_early(limits: &Limits, arrived: &Arrived, frame: &LeftFrame) -> bool
    ensures { (z : Terms) → AreLimits z limits.now →
        result ≡ early z (arrival_of arrived.now) (gone_of frame.now) }
{
    if !is_same(arrived, frame) {
        return false;
    }
    if arrived.time > frame.time + limits.reach {
        return false;
    }
    !is_no_sooner(limits, arrived, frame)
}

/// Whether the frame fits one of the arrivals from `from` on. All of these that it fits stand at
/// `places`.
fn fits_one(
    limits: &Limits,
    arrivals: &[Arrived],
    from: usize,
    places: &[usize],
    frame: &LeftFrame,
) -> bool
    requires { StandAt (may_fit limits.now frame.now) from (drop from arrivals.now) places.now }
    ensures { (z : Terms) → AreLimits z limits.now → result
        ≡ list_any (λ w. fits_it z w (gone_of frame.now))
        (map arrival_of (drop from arrivals.now)) }
{
    for place in places {
        if *place >= arrivals.len() {
            return false;
        }
        let arrived = &arrivals[*place];
        if limits.fits(arrived.time, &arrived.bytes, frame) {
            return true;
        }
    }
    false
}

/// By how many ns the frame, which is the arrival's, left too early.
fn early_by(limits: &Limits, arrived: &Arrived, frame: &LeftFrame) -> u64
    ensures { (z : Terms) → AreLimits z limits.now → result
        ≡ arrived.now.time + wire_time z arrived.now.bytes - frame.now.time }
{
    let wire = limits.wire_time(arrived.bytes.length());
    (arrived.time + wire).saturating_sub(frame.time)
}

/// By how many ns the frame, which is the arrival's, left too late.
fn late_by(limits: &Limits, arrived: &Arrived, frame: &LeftFrame) -> u64
    ensures { (z : Terms) → AreLimits z limits.now → result
        ≡ frame.now.time - arrived.now.time - latency z }
{
    frame
        .time
        .saturating_sub(arrived.time)
        .saturating_sub(limits.latency)
}

/// What the switch did with an arrival, by the next frame; those from `from` on came after it. All
/// arrivals that the frame fits stand at `places`.
pub(crate) fn deviation(
    limits: &Limits,
    arrived: &Arrived,
    arrivals: &[Arrived],
    from: usize,
    places: &[usize],
    frame: &LeftFrame,
) -> Deviation
    requires { StandAt (may_fit limits.now frame.now) 0 arrivals.now places.now }
    ensures { (z : Terms) → AreLimits z limits.now → result
        ≡ deviation_of z (map arrival_of (drop from arrivals.now)) (arrival_of arrived.now)
        (gone_of frame.now) }
{
    if is_far(limits, arrived, frame) {
        return Deviation::Stopped;
    }
    if is_early(limits, arrived, frame) {
        let by = early_by(limits, arrived, frame);
        return Deviation::Took(Finding::Early(arrived.number, by));
    }
    let behind = no_less(places, from);
    if fits_one(limits, arrivals, from, behind, frame) {
        return Deviation::Stopped;
    }
    if is_late(limits, arrived, frame) {
        if is_same(arrived, frame) {
            let by = late_by(limits, arrived, frame);
            Deviation::Took(Finding::Late(arrived.number, by))
        } else {
            Deviation::Stopped
        }
    } else {
        Deviation::Other
    }
}
