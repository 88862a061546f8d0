//! Which arrivals a frame may be of by its time.

ghost use Rattle.std.specs.Prelude.{◌≡◌, ◌≤◌, ◌<◌, ◌++◌, ◌∷◌, [], ℕ, IsTrue, false};
ghost use Rattle.std.specs.Prelude.{get_or, length};
ghost use Rattle.afdx_conform.specs.KnownBytes.{GoByTime, StandAt, has_bytes, may_fit};

use crate::arrived::Arrived;
use crate::limits::{LeftFrame, Limits};
use crate::places::{less, no_less};

/// More bytes than any arrival has.
const MOST_BYTES: u64 = 65_535;

/// Whether none of these came before one that stands in front of it.
pub(crate) fn go_by_time(arrivals: &[Arrived]) -> bool
    ensures { IsTrue result → GoByTime arrivals.now }
{
    let mut count = 1;
    while count < arrivals.len() {
        let before = &arrivals[count - 1];
        let arrived = &arrivals[count];
        if arrived.time < before.time {
            return false;
        }
        count += 1;
    }
    true
}

/// Whether an arrival didn't come before the last of these.
pub(crate) fn comes_behind(arrivals: &[Arrived], arrived: &Arrived) -> bool
    ensures { IsTrue result → GoByTime arrivals.now →
        GoByTime (arrivals.now ++ arrived.now ∷ []) }
{
    let count = arrivals.len();
    if count == 0 {
        return true;
    }
    let last = &arrivals[count - 1];
    last.time <= arrived.time
}

/// So many of the first arrivals came too early for the frame.
pub(crate) fn count_early(limits: &Limits, arrivals: &[Arrived], frame: &LeftFrame) -> usize
    requires { GoByTime arrivals.now }
    ensures { (i : ℕ) (a : Arrived) → i < result →
        may_fit limits.now frame.now (get_or arrivals.now i a) ≡ false }
{
    let since = frame
        .time
        .saturating_sub(limits.latency)
        .saturating_sub(limits.reach);
    arrivals.partition_point(|arrived| arrived.time < since)
}

/// Those behind so many arrivals came too late for the frame.
fn count_until(limits: &Limits, arrivals: &[Arrived], frame: &LeftFrame) -> usize
    requires { GoByTime arrivals.now }
    ensures { (i : ℕ) (a : Arrived) → result ≤ i → i < length arrivals.now →
        may_fit limits.now frame.now (get_or arrivals.now i a) ≡ false }
{
    let wire = limits.wire_time(frame.bytes.length().min(MOST_BYTES));
    let left = frame.time + limits.reach;
    if left < wire {
        return 0;
    }
    let until = left - wire;
    arrivals.partition_point(|arrived| arrived.time <= until)
}

/// Of the places of arrivals that go by time, where all stand that have the frame's bytes, those
/// of the arrivals that the frame may be of by its time.
pub(crate) fn in_time<'a>(
    limits: &Limits,
    arrivals: &[Arrived],
    places: &'a [usize],
    frame: &LeftFrame,
) -> &'a [usize]
    requires order { GoByTime arrivals.now }
    requires places { StandAt (has_bytes frame.now.bytes) 0 arrivals.now places.now }
    ensures { StandAt (may_fit limits.now frame.now) 0 arrivals.now result.now }
{
    let early = count_early(limits, arrivals, frame);
    let until = count_until(limits, arrivals, frame);
    let later = no_less(places, early);
    less(later, until)
}
