//! An output port.

ghost use Rattle.std.specs.Prelude.{◌≡◌, ℕ, ◌≤◌, ◌↔◌, Some, IfOk, IsTrue, IfSome, IfNone};
ghost use Rattle.afdx_frame.specs.Lengths.{least_frame, greatest_buffer};
ghost use Rattle.afdx_port.specs.Times.{drain_end, latest_put};
ghost use Rattle.afdx_port.specs.Schedule.{Turn, IsNext, IsSchedule};
ghost use Rattle.afdx_port.specs.Due.{given_at};

use crate::has_length::HasLength;
use crate::left::{Due, Left};
use crate::order::TurnOrder;
use crate::port_state::PortState;
use afdx_frame::Priority;
use std::alloc::{AllocError, Global};
use std::marker::Model;

/// An output port (ARINC 664 Part 7): two queues of frames, high before low, that share a buffer
/// and a line. No frame is interrupted, and the next frame is chosen after all that came by that
/// moment. It keeps the frames that still have a turn to come, and nothing of those that left.
#[derive(Drop)]
pub struct Port<T: HasLength> {
    state: PortState<T>,
    /// Where the next turn stands among those of ports that are served together.
    order: TurnOrder,
    /// The class of its frame, where that turn hasn't begun.
    class: Priority,
}

impl<T: HasLength> Model for Port<T> {
    ghost use Rattle.afdx_port.specs.declared.port_state.PortState.{PortState};

    ghost Value = { PortState T };

    ghost use Rattle.std.specs.Prelude.{◌≡◌};
    ghost use Rattle.afdx_port.specs.Held.{due_of, IsNextClass};
    ghost use Rattle.afdx_port.specs.Sound.{IsPortSound};

    ghost view = { λ p. p.state };

    ghost use Rattle.afdx_port.specs.Ports.{order_at};

    ghost invariant = { λ p. IsPortSound T.facts p.state
        × (p.order.0 ≡ order_at (due_of T.facts p.state)) × IsNextClass p.class p.state };
}

impl<T: HasLength> Port<T> {
    ghost use Rattle.afdx_port.specs.Due.{given_at};
    ghost use Rattle.afdx_port.specs.Ports.{order_at, order_without_turn, IsGivenBy};
    ghost use Rattle.afdx_port.specs.Held.{IsByteTime, due_of, IsQuiet, last_time, frames_held};
    ghost use Rattle.afdx_port.specs.Calls.{Puts, Takes};
    ghost use Rattle.afdx_port.specs.History.{PortHistory, StandsFor, no_calls, due_at};

    /// An idle port at time 0, whose line takes `byte_ns` for a byte: 8, 80 or 800 ns.
    /// The frames that wait may have `buffer` bytes together, 64 to 4,194,304; there is room for
    /// `buffer / 64` of them in each class. The error says that memory was refused.
    pub fn new(alloc: Global, byte_ns: u64, buffer: u64) -> Result<Port<T>, AllocError>
        requires rate { IsByteTime byte_ns }
        requires buffer { (least_frame ≤ buffer) × (buffer ≤ greatest_buffer) }
        ensures stands { IfOk result (λ p. StandsFor T.facts p (no_calls byte_ns buffer)) }
        ensures quiet { (t : ℕ) → IfOk result (λ p. IsQuiet T.facts p t) }
        ensures held { IfOk result (λ p. frames_held p ≡ 0) }
        ensures clock { IfOk result (λ p. last_time p ≡ 0) }
    {
        Ok(Port {
            state: PortState::new(alloc, byte_ns, buffer)?,
            order: TurnOrder::of(None),
            class: Priority::High,
        })
    }

    /// Offers a frame at `time`, in ns, which isn't before the last time used and is at most
    /// 1,000,032,768,000,000; `take(time)` would give nothing. The frame is lost, and handed back,
    /// exactly if the lengths of the frames that wait, with its own, sum to more than the buffer. A
    /// frame whose turn comes at `time` or later still waits. A lost frame changes nothing but the
    /// last time used.
    pub fn put(&mut self, time: u64, priority: Priority, item: T) -> Result<(), T>
        requires clock { last_time self.old ≤ time }
        requires limit { time ≤ latest_put }
        requires quiet { IsQuiet T.facts self.old time }
        ensures { Puts T.facts self.old self.new time priority item result }
    {
        if self.order.is_without_turn() {
            let due = match self.state.put_alone(time, priority, item) {
                Ok(due) => due,
                Err(item) => return Err(item),
            };
            self.order = TurnOrder::of(Some(due));
            self.class = priority;
            return Ok(());
        }
        let taken = self.state.put(time, priority, item, self.order, self.class);
        if !self.state.is_sending() {
            self.order = TurnOrder::of(self.state.due());
            self.class = self.state.next_class();
        }
        taken
    }

    /// When the next turn will be over if no frame is put before, and whether it is a drop.
    /// None if the port holds nothing: then each frame that was put and not lost has had its turn.
    pub fn due(&self) -> Option<Due>
        ensures due { result ≡ due_of T.facts self.now }
        ensures is_next { (h : PortHistory T) (s : Turn T) → StandsFor T.facts self.now h →
            IsNext h.byte_ns h.entries h.taken s → result ≡ Some (due_at s) }
        ensures comes { (h : PortHistory T) → StandsFor T.facts self.now h →
            IfSome result (λ due. (s : Turn T) × IsNext h.byte_ns h.entries h.taken s
            × (due ≡ due_at s)) }
        ensures all_done { (h : PortHistory T) → StandsFor T.facts self.now h →
            IfNone result (IsSchedule h.byte_ns h.entries h.taken) }
        ensures limit { IfSome result (λ due. given_at due ≤ drain_end) }
    {
        self.order.due()
    }

    /// Where the next turn stands among those of ports that are served together; after each turn if
    /// the port holds nothing.
    pub fn order(&self) -> TurnOrder
        ensures is { result.0 ≡ order_at (due_of T.facts self.now) }
        ensures most { result.0 ≤ order_without_turn }
        ensures limit { IfSome (due_of T.facts self.now) (λ due. given_at due ≤ drain_end) }
    {
        self.order
    }

    /// Whether `take(time)` would give nothing.
    pub fn is_quiet(&self, time: u64) -> bool
        ensures { IsTrue result ↔ IsQuiet T.facts self.now time }
    {
        !self.order.is_given(time)
    }

    /// The next turn, if it is over by `until`, in ns: a slot that ends at or before `until`, or a
    /// drop whose moment is before `until`. `until` isn't before the last time used. None leaves
    /// what is due as it was. If `until` is 1.2e15 or later, None says that each frame that was put
    /// and not lost has had its turn.
    #[inline(always)]
    pub fn take(&mut self, until: u64) -> Option<Left<T>>
        requires clock { last_time self.old ≤ until }
        ensures { Takes T.facts self.old self.new until result }
    {
        if self.is_quiet(until) {
            self.state.wait(until);
            return None;
        }
        Some(self.take_due(until))
    }

    /// The next turn, where it is over by `until`: then `take(until)` would give it.
    #[inline(always)]
    pub fn take_due(&mut self, until: u64) -> Left<T>
        requires clock { last_time self.old ≤ until }
        requires given { IsGivenBy until (due_of T.facts self.old) }
        ensures { Takes T.facts self.old self.new until (Some result) }
    {
        let due = self.order.turn();
        let left = self.state.take(until, due, self.class);
        self.order = TurnOrder::of(self.state.due());
        self.class = self.state.next_class();
        left
    }
}
