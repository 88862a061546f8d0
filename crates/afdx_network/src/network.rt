//! The switches of both sides as one.

ghost use Rattle.std.specs.Prelude.{◌≡◌, ℕ, ◌+◌, ◌≤◌, ◌∷◌, [], List, Option, IfSome, IfNone, IfOk, OnOk, OnErr, MatchOption, None};
ghost use Rattle.afdx_frame.specs.Parts.{bytes_of};
ghost use Rattle.afdx_frame.specs.Ports.{last_port};
ghost use Rattle.afdx_port.specs.Times.{drain_end, latest_put};
ghost use Rattle.afdx_port.specs.Ports.{order_at};
ghost use Rattle.afdx_port.specs.declared.left.Due.{Due};
ghost use Rattle.afdx_network.specs.First.{IsFirstOf, IsFirstSide, IsLimited};

use afdx_config::Tables;
use afdx_frame::{BySide, Checked, Side};
use afdx_port::TurnOrder;
use afdx_switch::{Departure, Switch, Verdict};
use std::alloc::{AllocError, Global};

/// The first of the next turns of both sides: where it stands in the order of turns, and its side,
/// which is A if both stand at one place.
fn first_of(order_a: TurnOrder, order_b: TurnOrder) -> (TurnOrder, Side)
    ensures { IsFirstOf order_a.0 order_b.0 result.0.0 result.1 }
{
    if order_a.goes_before(order_b) {
        (order_a, Side::A)
    } else {
        (order_b, Side::B)
    }
}

/// The side whose turn goes first, if it is given by `until`: by time, at one time slots before
/// drops, then side A.
fn first_side(order_a: TurnOrder, order_b: TurnOrder, until: u64) -> Option<Side>
    ensures { (a b : Option Due) → order_a.0 ≡ order_at a → order_b.0 ≡ order_at b →
        IsLimited a → IsLimited b → IsFirstSide until a b result }
{
    let (order, side) = first_of(order_a, order_b);
    if order.is_given(until) {
        Some(side)
    } else {
        None
    }
}

/// The switches of both sides.
pub struct Network {
    switches: BySide<Switch>,
}

impl Drop for Network {
    // (written out, it is one call wherever a value is let go)
    fn drop(self) {
        let Self { switches } = self;
    }
}

impl Network {
    ghost use Rattle.afdx_config.specs.Rows.{Rows};
    ghost use Rattle.afdx_police.specs.Arrival.{arrival_with};
    ghost use Rattle.afdx_switch.specs.Early.{IsEarlyBy};
    ghost use Rattle.afdx_switch.specs.Verdicts.{shape_fault};
    ghost use Rattle.afdx_network.specs.Events.{Event, Came, admission_after, arrivals_in};
    ghost use Rattle.afdx_network.specs.Order.{AreEvents};
    ghost use Rattle.afdx_network.specs.Network.{IsUntil, IsQuiet, IsFirstBy, StandsFor, Tells, TellsOrder};
    ghost use Rattle.afdx_network.specs.Network.{Gives, frames_held};

    /// The switches of these tables at time 0, with full accounts and idle ports.
    /// The error says that memory was refused.
    pub fn new(alloc: Global, tables: &Tables) -> Result<Network, AllocError>
        ensures stands { IfOk result (λ n. StandsFor tables.now n []) }
        ensures quiet { (time : ℕ) → IfOk result (λ n. IsQuiet n time) }
        ensures clock { IfOk result (λ n. IsUntil n 0) }
        ensures held { IfOk result (λ n. frames_held n ≡ 0) }
    {
        let a = Switch::new(alloc, tables)?;
        let b = Switch::new(alloc, tables)?;
        Ok(Network {
            switches: BySide { a, b },
        })
    }

    /// A frame arrives at `time`, in ns, at an input port of one side's switch, which filters and
    /// polices it and offers it to the output ports of its link.
    ///
    /// `time` isn't before the last time used and is at most 1,000,032,768,000,000; `take(time)`
    /// would give nothing. `tag` is handed back with the frame's departures. The error says that
    /// memory was refused: then nothing has changed. A frame that is dropped for its shape needs
    /// none.
    #[inline(always)]
    pub fn arrive(
        &mut self,
        side: Side,
        time: u64,
        port: u8,
        tag: u64,
        frame: Checked<'_>,
    ) -> Result<Verdict, AllocError>
        requires limit { time ≤ latest_put }
        requires clock { IsUntil self.old time }
        requires quiet { IsQuiet self.old time }
        ensures verdict { (t : Rows) (events : List Event) → StandsFor t self.old events →
            let arrival = arrival_with tag time side port (bytes_of frame.entry) in
            let admission = admission_after t (arrivals_in events) arrival in
            IfOk result (λ verdict. Tells verdict admission) }
        ensures stands { (t : Rows) (events : List Event) → StandsFor t self.old events →
            let arrival = arrival_with tag time side port (bytes_of frame.entry) in
            let admission = admission_after t (arrivals_in events) arrival in
            OnOk result (StandsFor t self.new (Came admission ∷ events)) }
        ensures judged { (t : Rows) (events : List Event) → StandsFor t self.old events →
            let arrival = arrival_with tag time side port (bytes_of frame.entry) in
            OnErr result (shape_fault t arrival ≡ None) }
        ensures refused { OnErr result (self.new ≡ self.old) }
        ensures quiet { IsQuiet self.new time }
        ensures held { frames_held self.new ≤ frames_held self.old + last_port }
        ensures clock { IsUntil self.new time }
    {
        self.switches
            .get_mut(side)
            .arrive_checked(time, port, tag, frame)
    }

    /// By how many nanoseconds a frame comes too early that arrives at one side's switch at `time`,
    /// if none comes before it: the least wait after which its link's account there covers it, 0
    /// for one that would be accepted. Of one with something wrong in its shape it says nothing.
    pub fn early(&self, side: Side, time: u64, port: u8, frame: Checked<'_>) -> u64
        requires { IsUntil self.now time }
        ensures { (t : Rows) (events : List Event) (tag : ℕ) → StandsFor t self.now events →
            let arrival = arrival_with tag time side port (bytes_of frame.entry) in
            shape_fault t arrival ≡ None → IsEarlyBy t (arrivals_in events) arrival result }
    {
        self.switches.get(side).early(time, port, frame)
    }

    /// Where the next turn of both sides stands in the order of turns, and whose it is: by time, at
    /// one time slots before drops, then side A.
    pub fn order(&self) -> (TurnOrder, Side)
        ensures { TellsOrder self.now result.0.0 result.1 }
    {
        first_of(self.switches.a.order(), self.switches.b.order())
    }

    /// The next departure of both sides by `until`, in ns: a slot that ends at or before `until`,
    /// or a drop whose moment is before `until`. They go by time, at one time those that leave
    /// before those too old, then side A before side B, then by port. If `until` is 1.2e15 or
    /// later, None says that these were all events.
    #[inline(always)]
    pub fn take(&mut self, until: u64) -> Option<Departure>
        requires clock { IsUntil self.old until }
        ensures given { (t : Rows) (events : List Event) → StandsFor t self.old events →
            IfSome result (λ value. Gives t events until value self.new) }
        ensures none { IfNone result (self.new ≡ self.old) }
        ensures quiet { IfNone result (IsQuiet self.new until) }
        ensures all_done { (t : Rows) (events : List Event) → StandsFor t self.old events →
            drain_end ≤ until → IfNone result (AreEvents t (arrivals_in events) events) }
        ensures held { MatchOption result (frames_held self.new ≡ frames_held self.old)
            (λ _. frames_held self.new + 1 ≡ frames_held self.old) }
        ensures clock { IsUntil self.new until }
    {
        let side = first_side(self.switches.a.order(), self.switches.b.order(), until)?;
        Some(self.take_first(side, until))
    }

    /// The next departure of both sides, where it is one of this side by `until`: then
    /// `take(until)` would give it.
    #[inline(always)]
    pub fn take_first(&mut self, side: Side, until: u64) -> Departure
        requires clock { IsUntil self.old until }
        requires first { IsFirstBy self.old until side }
        ensures given { (t : Rows) (events : List Event) → StandsFor t self.old events →
            Gives t events until result self.new }
        ensures held { frames_held self.new + 1 ≡ frames_held self.old }
        ensures clock { IsUntil self.new until }
    {
        let departure = self.switches.get_mut(side).take_due(until);
        departure.on(side)
    }

    /// Gives a departure back, of these switches or of others, once its frame was read: a frame
    /// that comes later on its side takes its memory. What the switches hold, and what they will
    /// do, stays the same.
    pub fn give_back(&mut self, departure: Departure)
        ensures { self.new ≡ self.old }
    {
        let side = departure.side();
        self.switches.get_mut(side).give_back(departure);
    }
}
