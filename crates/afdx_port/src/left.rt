//! What leaves a port, and when.

ghost use Rattle.std.specs.Prelude.{◌<◌, ◌↔◌, IsTrue};
ghost use Rattle.afdx_port.specs.Times.{drain_end};

use afdx_frame::Priority;

/// A frame that left the port.
#[derive(Debug, Drop)]
pub struct Left<T> {
    pub item: T,
    /// When its slot ended, in ns. For a frame that was dropped, the moment of its turn.
    pub end: u64,
    pub priority: Priority,
    /// The frame was dropped: its turn came when its longest wait was past.
    pub too_old: bool,
}

/// When a turn will be over, in ns: the end of a slot, or the moment of a drop.
#[derive(Clone, Copy, Debug, PartialEq, Eq)]
pub struct Due {
    pub time: u64,
    pub too_old: bool,
}

impl Due {
    ghost use Rattle.std.specs.Prelude.{◌≡◌, ◌≤◌};
    ghost use Rattle.afdx_port.specs.Due.{given_at, order_of, IsBy};

    /// Whether the turn is given by `until`: a slot if it ends at or before, a drop if its moment
    /// is before.
    pub fn is_by(&self, until: u64) -> bool
        ensures { IsTrue result ↔ IsBy until self.now }
    {
        if self.too_old {
            self.time < until
        } else {
            self.time <= until
        }
    }

    /// The place of the turn in the order in which ports are served together: by time, and at one
    /// time slots before drops.
    pub(crate) fn order(&self) -> u64
        requires { given_at self.now ≤ drain_end }
        ensures { result ≡ order_of self.now }
    {
        if self.too_old {
            2 * self.time + 1
        } else {
            2 * self.time
        }
    }

    /// Whether this turn goes before the other one, where ports are served together: by time, and
    /// at one time slots before drops.
    pub fn is_before(&self, other: &Due) -> bool
        ensures { IsTrue result ↔ order_of self.now < order_of other.now }
    {
        if self.time == other.time {
            !self.too_old && other.too_old
        } else {
            self.time < other.time
        }
    }
}
