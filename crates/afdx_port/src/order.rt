//! The order in which ports are served together.

ghost use Rattle.std.specs.Prelude.{◌≡◌, ◌≤◌, ◌↔◌, Option, None, IsTrue, IfSome};
ghost use Rattle.afdx_port.specs.Due.{given_at, order_of};
ghost use Rattle.afdx_port.specs.Ports.{order_at, IsGivenBy};
ghost use Rattle.afdx_port.specs.Times.{drain_end};
ghost use Rattle.afdx_port.specs.declared.left.Due.{Due as DueTurn};

use crate::left::Due;

/// Where a port without a turn to come stands: after each turn.
const WITHOUT_TURN: u64 = 1 << 52;

/// Where a port's next turn stands in the order in which ports are served together: by time, and
/// at one time slots before drops. A port without a turn to come stands after all others.
///
/// It is one number: twice the time, and one more for a drop.
#[derive(Clone, Copy, Debug, PartialEq, Eq)]
pub struct TurnOrder(pub(crate) u64);

impl TurnOrder {
    /// That of the turn that is due, if one is.
    pub(crate) fn of(due: Option<Due>) -> TurnOrder
        requires { IfSome due (λ d. given_at d ≤ drain_end) }
        ensures { result.0 ≡ order_at due }
    {
        match due {
            Some(due) => TurnOrder(due.order()),
            None => TurnOrder(WITHOUT_TURN),
        }
    }

    /// The turn that is due, if one is.
    #[inline]
    pub(crate) fn due(self) -> Option<Due>
        ensures { (due : Option DueTurn) → self.0 ≡ order_at due →
            IfSome due (λ d. given_at d ≤ drain_end) → result ≡ due }
    {
        if self.0 >= WITHOUT_TURN {
            return None;
        }
        Some(Due {
            time: self.0 / 2,
            too_old: self.0 % 2 == 1,
        })
    }

    /// The turn that is due, where one is.
    #[inline]
    pub(crate) fn turn(self) -> Due
        ensures { (due : DueTurn) → self.0 ≡ order_of due → result ≡ due }
    {
        Due {
            time: self.0 / 2,
            too_old: self.0 % 2 == 1,
        }
    }

    /// Whether no turn is due.
    #[inline]
    pub(crate) fn is_without_turn(self) -> bool
        ensures { (due : Option DueTurn) → self.0 ≡ order_at due →
            IfSome due (λ d. given_at d ≤ drain_end) → (IsTrue result ↔ due ≡ None) }
    {
        self.0 >= WITHOUT_TURN
    }

    /// Whether the turn is given by `until`: a slot if it ends at or before, a drop if its moment
    /// is before.
    #[inline]
    pub fn is_given(self, until: u64) -> bool
        ensures { (due : Option DueTurn) → self.0 ≡ order_at due →
            IfSome due (λ d. given_at d ≤ drain_end) → (IsTrue result ↔ IsGivenBy until due) }
    {
        self.0 < WITHOUT_TURN && self.0.div_ceil(2) <= until
    }

    /// The number: twice the time, and one more for a drop; 2^52 for a port without a turn to come.
    #[inline]
    pub fn number(self) -> u64
        ensures { result ≡ self.0 }
    {
        self.0
    }

    /// Whether no turn of the other port goes before: at one place this one goes first.
    #[inline]
    pub fn goes_before(self, other: TurnOrder) -> bool
        ensures { IsTrue result ↔ self.0 ≤ other.0 }
    {
        self.0 <= other.0
    }
}
