//! The next event of a stream.

ghost use Rattle.std.specs.Prelude.{◌≡◌, ◌≤◌, ◌<◌, ◌+◌, IsTrue, ◌↔◌, length, get_or};
ghost use Rattle.std.specs.Prelude.{Some, None};
ghost use Rattle.afdx_conform.specs.Growing.{IsSound, due_at, due_by};

use crate::arrived::Arrived;
use crate::growth::Growth;
use crate::limits::{LeftFrame, Limits};

/// What an event of a stream is: an arrival, or the closing of a frame.
#[derive(Clone, Copy, Debug, PartialEq, Eq)]
pub(crate) enum Upcoming {
    Arrival,
    Closing,
}

/// Whether the frame is closed before the arrival comes.
fn closes_before(limits: &Limits, frame: &LeftFrame, arrived: &Arrived) -> bool
    ensures { IsTrue result ↔ (frame.now.time + limits.now.reach < arrived.now.time) }
{
    frame.time + limits.reach < arrived.time
}

/// The moment of what is found at an event of this time.
pub(crate) fn moment_of(limits: &Limits, time: u64) -> u64
    requires { time ≤ 0x1000000000000000 }
    ensures { result ≡ due_at limits.now time }
{
    time + limits.latency + limits.latency + limits.reach + limits.reach
}

impl Growth {
    /// Which event is the next, if there is one. At one time the arrival is first.
    pub(crate) fn upcoming(&self) -> Option<Upcoming>
        requires { IsSound self.now }
        ensures none { result ≡ None → (length self.now.frames.items ≤ self.now.closed)
            × (length self.now.arrivals.items ≤ length self.now.judging.marks.items) }
        ensures arrival { result ≡ Some Upcoming.Arrival →
            length self.now.judging.marks.items < length self.now.arrivals.items }
        ensures first { (a : Arrived) (f : LeftFrame) → result ≡ Some Upcoming.Arrival →
            self.now.closed < length self.now.frames.items →
            a ≡ get_or self.now.arrivals.items (length self.now.judging.marks.items) a →
            f ≡ get_or self.now.frames.items self.now.closed f →
            a.time ≤ f.time + self.now.bounds.limits.reach }
        ensures closing { result ≡ Some Upcoming.Closing →
            self.now.closed < length self.now.frames.items }
        ensures before { (a : Arrived) (f : LeftFrame) → result ≡ Some Upcoming.Closing →
            length self.now.judging.marks.items < length self.now.arrivals.items →
            a ≡ get_or self.now.arrivals.items (length self.now.judging.marks.items) a →
            f ≡ get_or self.now.frames.items self.now.closed f →
            f.time + self.now.bounds.limits.reach < a.time }
    {
        let place = self.judging.marks.len();
        if self.closed >= self.frames.len() {
            if place >= self.arrivals.len() {
                return None;
            }
            return Some(Upcoming::Arrival);
        }
        if place >= self.arrivals.len() {
            return Some(Upcoming::Closing);
        }
        let frame = &self.frames[self.closed];
        if closes_before(&self.bounds.limits, frame, &self.arrivals[place]) {
            Some(Upcoming::Closing)
        } else {
            Some(Upcoming::Arrival)
        }
    }

    /// The moment of the next event, if there is one.
    pub(crate) fn due(&self) -> Option<u64>
        requires { IsSound self.now }
        ensures { result ≡ due_by self.now }
    {
        if self.judging.is_unsure {
            return None;
        }
        match self.upcoming() {
            None => None,
            Some(Upcoming::Arrival) => {
                let place = self.judging.marks.len();
                Some(moment_of(&self.bounds.limits, self.arrivals[place].time))
            }
            Some(Upcoming::Closing) => {
                let closing = self.frames[self.closed].time + self.bounds.limits.reach;
                Some(moment_of(&self.bounds.limits, closing))
            }
        }
    }
}
