//! Which frame may be what a switch made of an arrival.

ghost use Rattle.std.specs.Prelude.{◌≡◌, ◌≤◌, ◌<◌, ◌+◌, ◌*◌, ℕ, List, length, map, drop};
ghost use Rattle.std.specs.Int.{div_ceil};
ghost use Rattle.afdx_police.specs.Arrival.{Arrival};
ghost use Rattle.afdx_conform.specs.HeldStates.{IsNext};
ghost use Rattle.afdx_conform.specs.Levels.{parts};
ghost use Rattle.afdx_conform.specs.LimitRanges.{AreLimitsInRange, most_bytes};
ghost use Rattle.afdx_frame.specs.Regulation.{greatest_delay, slowest_byte};
ghost use Rattle.afdx_frame.specs.Times.{latest_listed};
ghost use Rattle.afdx_conform.specs.Streams.{Terms, fits as fits_it, is_open as is_open_by};

use crate::checked_bytes::CheckedBytes;
use crate::leeway::{Leeway, PARTS};
use crate::states::NextFrame;

/// A frame that left: its number, the time of its last bit in ns, its bytes.
#[derive(Debug, Drop)]
pub struct LeftFrame {
    pub number: u64,
    pub time: u64,
    pub bytes: CheckedBytes,
    pub ghost listed: { time ≤ latest_listed },
}

/// What a stream's frames are held against.
///
/// The longest from an arrival to its frame is `latency` ns, by the recorder's clock; their two
/// stamps together may be off by `reach` ns; a byte lasts `byte_ns` on the line; a clock's rate may
/// be off by `drift` millionths.
#[derive(Clone, Copy, Debug)]
pub(crate) struct Limits {
    pub latency: u64,
    pub reach: u64,
    pub byte_ns: u64,
    pub drift: u64,
    pub ghost in_range: { AreLimitsInRange latency reach byte_ns drift },
}

impl Limits {
    ghost use Rattle.afdx_conform.specs.Limits.{AreLimits, gone_of};
    ghost use Rattle.afdx_conform.specs.LeewayOf.{leeway_of};

    /// Those of a stream whose link has this latency, at a port where a byte lasts so long, both in
    /// ns.
    pub fn new(latency_ns: u64, byte_ns: u64, by: &Leeway) -> Limits
        requires latency { latency_ns ≤ 1000 * greatest_delay }
        requires byte { byte_ns ≤ slowest_byte }
        ensures { (z : Terms) → z.latency_ns ≡ latency_ns → z.byte_ns ≡ byte_ns →
            z.by ≡ leeway_of by.now → AreLimits z result }
    {
        Limits {
            latency: PARTS * (latency_ns + by.inner) / (PARTS - by.drift),
            reach: by.reach(),
            byte_ns,
            drift: by.drift,
        }
    }

    /// The shortest, in ns, that a frame of so many bytes lasts on the line.
    pub fn wire_time(&self, length: u64) -> u64
        requires { length ≤ most_bytes }
        ensures { result
            ≡ div_ceil (parts * ((length + 8) * self.now.byte_ns)) (parts + self.now.drift) }
    {
        (PARTS * ((length + 8) * self.byte_ns)).div_ceil(PARTS + self.drift)
    }

    /// Whether the frame may be what the switch made of an arrival of these bytes at this time.
    pub fn fits(&self, time: u64, bytes: &CheckedBytes, frame: &LeftFrame) -> bool
        requires time { time ≤ latest_listed }
        requires bytes { length bytes.now ≤ most_bytes }
        ensures { (z : Terms) (x : Arrival) → AreLimits z self.now →
            x.time ≡ time → x.bytes ≡ bytes.now →
            result ≡ fits_it z x (gone_of frame.now) }
    {
        if !bytes.is_same(&frame.bytes) {
            return false;
        }
        let wire = self.wire_time(bytes.length());
        if frame.time + self.reach < time + wire {
            return false;
        }
        frame.time <= time + self.latency + self.reach
    }

    /// What stands next for an arrival, where so many frames are explained.
    pub fn next(
        &self,
        time: u64,
        bytes: &CheckedBytes,
        frames: &[LeftFrame],
        passed: usize,
        is_open: bool,
    ) -> NextFrame
        requires time { time ≤ latest_listed }
        requires bytes { length bytes.now ≤ most_bytes }
        ensures defined { (z : Terms) (x : Arrival) → AreLimits z self.now →
            x.time ≡ time → x.bytes ≡ bytes.now → is_open ≡ is_open_by z x →
            IsNext z x (drop passed (map gone_of frames.now)) result }
        ensures left { result ≡ NextFrame.Fits → passed < length frames.now }
    {
        if passed < frames.len() {
            if self.fits(time, bytes, &frames[passed]) {
                NextFrame::Fits
            } else {
                NextFrame::Other
            }
        } else if is_open {
            NextFrame::Open
        } else {
            NextFrame::Over
        }
    }

    /// Whether what the switch makes of an arrival at this time may leave after `end`, and so
    /// unseen.
    pub fn is_open(&self, time: u64, end: u64) -> bool
        requires { time ≤ latest_listed }
        ensures { (z : Terms) (x : Arrival) → AreLimits z self.now →
            x.time ≡ time → z.until ≡ end → result ≡ is_open_by z x }
    {
        end < time + self.latency + self.reach + self.reach
    }
}
