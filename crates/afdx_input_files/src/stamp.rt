//! When frames were recorded.

ghost use Rattle.std.specs.Prelude.{◌≡◌, ◌≤◌, ◌<◌, ◌*◌, ◌/◌, ◌^◌, SomeIff};
ghost use Rattle.afdx_input_files.specs.Stamps.{second, pcap_stamp, whole_ns, latest_stamp, stamp_with};
ghost use Rattle.afdx_input_files.specs.Stamps.{ticked_stamp};

use crate::recorded::Stamp;

/// ns in a second.
const SECOND: u64 = 1_000_000_000;
/// The latest stamp, in ns.
const LATEST: u64 = 0x7fff_ffff_ffff_ffff;
/// The resolution of ns.
const NANOSECONDS: u8 = 9;
/// The first resolution of a power of two.
const BINARY: u8 = 128;
/// What 32 bits count to.
const WORD: u64 = 0x1_0000_0000;

/// The stamp of a pcap: its fraction is in ns or in us.
#[tactic(auto, unfolding(crate::specs::Stamps::pcap_stamp))]
pub fn stamp_of(nanoseconds: bool, seconds: u32, fraction: u32) -> Stamp
    ensures { result ≡ pcap_stamp nanoseconds seconds fraction }
{
    let ns = if nanoseconds {
        u64::from(fraction)
    } else {
        u64::from(fraction) * 1000
    };
    if ns < SECOND {
        Stamp::At(u64::from(seconds) * SECOND + ns)
    } else {
        Stamp::Bad
    }
}

/// The stamp of a pcapng: so many units of its interface's resolution, and an offset in s.
#[inline(always)]
#[tactic(auto, unfolding(crate::specs::Stamps::ticked_stamp))]
pub fn stamp_by(resolution: u8, offset: u64, ticks: u64) -> Stamp
    ensures { result ≡ ticked_stamp resolution offset ticks }
{
    match to_ns(resolution, ticks) {
        Some(ns) => {
            if ns <= LATEST {
                with_offset(offset, ns)
            } else {
                Stamp::Bad
            }
        }
        None => Stamp::Bad,
    }
}

/// The stamp with an offset in s, two's complement.
#[inline(always)]
#[tactic(auto, unfolding(crate::specs::Stamps::stamp_with))]
fn with_offset(offset: u64, ns: u64) -> Stamp
    requires { ns ≤ latest_stamp }
    ensures { result ≡ stamp_with offset ns }
{
    if offset == 0 {
        Stamp::At(ns)
    } else {
        moved_by(offset, ns)
    }
}

/// The same, where there may be one.
#[inline(never)]
#[tactic(auto, unfolding(crate::specs::Stamps::stamp_with))]
fn moved_by(offset: u64, ns: u64) -> Stamp
    requires { ns ≤ latest_stamp }
    ensures { result ≡ stamp_with offset ns }
{
    if offset <= LATEST {
        let sum = ns.saturating_add(offset.saturating_mul(SECOND));
        if sum <= LATEST {
            Stamp::At(sum)
        } else {
            Stamp::Bad
        }
    } else {
        let less = (u64::MAX - offset + 1).saturating_mul(SECOND);
        if less <= ns {
            Stamp::At(ns - less)
        } else {
            Stamp::Bad
        }
    }
}

/// The whole ns of so many units, if they fit 64 bits.
#[inline(always)]
#[tactic(auto, unfolding(crate::specs::Stamps::whole_ns, crate::specs::Stamps::units))]
pub fn to_ns(resolution: u8, ticks: u64) -> Option<u64>
    ensures { SomeIff result (whole_ns resolution ticks < 2 ^ 64) (whole_ns resolution ticks) }
{
    if resolution == NANOSECONDS {
        Some(ticks)
    } else if resolution < BINARY {
        decimal_ns(u32::from(resolution), ticks)
    } else {
        binary_ns(u32::from(resolution - BINARY), ticks)
    }
}

/// The whole ns of so many units of 10^-n s.
#[inline(never)]
fn decimal_ns(n: u32, ticks: u64) -> Option<u64>
    ensures { SomeIff result (ticks * second / 10 ^ n < 2 ^ 64) (ticks * second / 10 ^ n) }
{
    if n <= 9 {
        return ticks.checked_mul(10_u64.pow(9 - n));
    }
    match 10_u64.checked_pow(n - 9) {
        Some(divisor) => Some(ticks / divisor),
        None => Some(0),
    }
}

/// The whole ns of so many units of 2^-n s.
#[inline(never)]
fn binary_ns(n: u32, ticks: u64) -> Option<u64>
    ensures { SomeIff result (ticks * second / 2 ^ n < 2 ^ 64) (ticks * second / 2 ^ n) }
{
    if n < 32 {
        coarse_ns(n, ticks)
    } else {
        Some(fine_ns(n - 32, ticks))
    }
}

/// The same, where a second has less than 2^32 units.
fn coarse_ns(n: u32, ticks: u64) -> Option<u64>
    requires { n < 32 }
    ensures { SomeIff result (ticks * second / 2 ^ n < 2 ^ 64) (ticks * second / 2 ^ n) }
{
    let units = 1_u64 << n;
    let fraction = (ticks % units) * SECOND / units;
    match (ticks / units).checked_mul(SECOND) {
        Some(ns) => ns.checked_add(fraction),
        None => None,
    }
}

/// The whole ns of so many units of 2^-(32 + n) s.
fn fine_ns(n: u32, ticks: u64) -> u64
    ensures { result ≡ ticks * second / 2 ^ 32 / 2 ^ n }
{
    let high = (ticks / WORD) * SECOND;
    let ns = high + (ticks % WORD) * SECOND / WORD;
    if n < 64 { ns >> n } else { 0 }
}
