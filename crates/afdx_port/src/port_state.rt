//! What a port still has to do: its two queues, and the frame that is being sent.

ghost use Rattle.std.specs.Prelude.{◌≡◌, ℕ, ◌+◌, ◌-◌, ◌*◌, ◌/◌, ◌<◌, ◌≤◌, ◌^◌, ◌⊎◌, [], ◌∷◌};
ghost use Rattle.std.specs.Prelude.{◌++◌, Some, None, IfOk, OnOk, OnErr};
ghost use Rattle.std.specs.Prelude.{IfSome, OnSome, IfNone, MatchOption};
ghost use Rattle.std.specs.Prelude.{is_some, option_copied, slice_get, true};
ghost use Rattle.afdx_frame.specs.Regulation.{slowest_byte};
ghost use Rattle.afdx_port.specs.Times.{drain_end, latest_put, longest_slot};
ghost use Rattle.afdx_frame.specs.Lengths.{least_frame, greatest_buffer};
ghost use Rattle.afdx_frame.specs.declared.link.Priority.{Priority};
ghost use Rattle.afdx_port.specs.Schedule.{is_past};

use crate::has_length::HasLength;
use crate::left::{Due, Left};
use crate::order::TurnOrder;
use afdx_frame::{LEAST_FRAME, Priority, WIRE_EXTRA};
use circular_buffer::HeapCircularBuffer;
use std::alloc::{AllocError, Global};

/// A frame that waits, and when it came.
#[derive(Debug, Drop)]
pub(crate) struct Waiting<T> {
    pub(crate) time: u64,
    pub(crate) item: T,
}

/// What a port still has to do.
#[derive(Drop)]
pub(crate) struct PortState<T> {
    byte_ns: u64,
    buffer: u64,
    /// The last time used.
    clock: u64,
    /// When the last turn that has begun is over.
    free: u64,
    /// The frame of that turn, until it is taken.
    sending: Option<Left<T>>,
    /// The lengths of the frames that wait.
    waiting: u64,
    high: HeapCircularBuffer<Waiting<T>>,
    low: HeapCircularBuffer<Waiting<T>>,
}

/// Whether a frame that came at `time` has waited too long at `moment`.
fn is_too_old(longest_wait: Option<u64>, time: u64, moment: u64) -> bool
    requires { time ≤ moment }
    ensures { result ≡ is_past longest_wait time moment }
{
    match longest_wait {
        None => false,
        Some(wait) => wait < moment - time,
    }
}

/// Takes the first frame of a queue. A lone frame leaves it where it stands, so that a queue of few
/// frames doesn't go round all its places.
#[inline(always)]
fn pop_first<T>(queue: &mut HeapCircularBuffer<Waiting<T>>) -> Option<Waiting<T>>
    ensures first { MatchOption result (queue.old.items ≡ [])
        (λ w. queue.old.items ≡ w ∷ queue.new.items) }
    ensures room { queue.new.capacity ≡ queue.old.capacity }
{
    if queue.len() == 1 {
        queue.pop_back()
    } else {
        queue.pop_front()
    }
}

impl<T: HasLength> PortState<T> {
    ghost use Rattle.afdx_port.specs.Due.{given_at, IsBy};
    ghost use Rattle.afdx_port.specs.Ports.{order_at};
    ghost use Rattle.afdx_port.specs.Held.{IsByteTime, choice_of, queue_of, due_from, due_of};
    ghost use Rattle.afdx_port.specs.Held.{IsQuiet, IsNextClass, frames_held};
    ghost use Rattle.afdx_port.specs.Sound.{ChangesQueue, HasRoom, IsPortSound};
    ghost use Rattle.afdx_port.specs.History.{StandsFor, no_calls};
    ghost use Rattle.afdx_port.specs.Calls.{Advances, BeginsBefore, Puts, Takes};

    pub(crate) fn new(alloc: Global, byte_ns: u64, buffer: u64) -> Result<PortState<T>, AllocError>
        requires rate { IsByteTime byte_ns }
        requires buffer { (least_frame ≤ buffer) × (buffer ≤ greatest_buffer) }
        ensures sound { IfOk result (λ p. IsPortSound T.facts p) }
        ensures stands { IfOk result (λ p. StandsFor T.facts p (no_calls byte_ns buffer)) }
        ensures held { IfOk result (λ p. frames_held p ≡ 0) }
        ensures quiet { (t : ℕ) → IfOk result (λ p. IsQuiet T.facts p t) }
        ensures clock { IfOk result (λ p. p.clock ≡ 0) }
    {
        let places = buffer as usize / LEAST_FRAME;
        let high = HeapCircularBuffer::with_capacity(alloc, places)?;
        let low = HeapCircularBuffer::with_capacity(alloc, places)?;
        Ok(PortState {
            byte_ns,
            buffer,
            clock: 0,
            free: 0,
            sending: None,
            waiting: 0,
            high,
            low,
        })
    }

    /// The class that goes next, and its moment.
    #[inline]
    fn next_choice(&self) -> Option<(Priority, u64)>
        ensures { result ≡ choice_of self.now }
    {
        let high = self.high.front().map(|front| front.time.max(self.free));
        let low = self.low.front().map(|front| front.time.max(self.free));
        match (high, low) {
            (Some(high), Some(low)) if low < high => Some((Priority::Low, low)),
            (Some(high), _) => Some((Priority::High, high)),
            (None, Some(low)) => Some((Priority::Low, low)),
            (None, None) => None,
        }
    }

    /// The class that goes next, if a frame waits.
    #[inline]
    pub(crate) fn next_class(&self) -> Priority
        ensures { (c : Priority) (moment : ℕ) → choice_of self.now ≡ Some (c, moment) → result ≡ c }
    {
        match self.next_choice() {
            Some((class, _)) => class,
            None => Priority::High,
        }
    }

    /// The first frame of a class.
    fn front(&self, priority: Priority) -> Option<&Waiting<T>>
        ensures { option_copied result ≡ slice_get (queue_of priority self.now) 0 }
    {
        match priority {
            Priority::High => self.high.front(),
            Priority::Low => self.low.front(),
        }
    }

    /// The turn at `moment` of a frame that came at `time`.
    #[inline]
    fn turn_of(&self, time: u64, item: &T, moment: u64) -> Due
        requires came { time ≤ moment }
        requires rate { self.now.byte_ns ≤ slowest_byte }
        requires fits { moment + longest_slot < 2 ^ 64 }
        ensures { result ≡ due_from T.facts self.now.byte_ns
            (record { time = time; item = item.now }) moment }
    {
        let too_old = is_too_old(item.longest_wait(), time, moment);
        let slot = (item.length() + WIRE_EXTRA) * self.byte_ns;
        let lasts = if too_old { 0 } else { slot };
        Due {
            time: moment + lasts,
            too_old,
        }
    }

    /// Whether a turn has begun whose frame isn't taken.
    pub(crate) fn is_sending(&self) -> bool
        ensures { result ≡ is_some self.now.sending }
    {
        self.sending.is_some()
    }

    /// When the next turn is over.
    #[inline]
    pub(crate) fn due(&self) -> Option<Due>
        requires sound { IsPortSound T.facts self.now }
        ensures due { result ≡ due_of T.facts self.now }
        ensures limit { IfSome result (λ due. given_at due ≤ drain_end) }
    {
        if let Some(left) = &self.sending {
            return Some(Due {
                time: self.free,
                too_old: left.too_old,
            });
        }
        let (priority, moment) = self.next_choice()?;
        let front = self.front(priority)?;
        Some(self.turn_of(front.time, &front.item, moment))
    }

    /// Takes the first frame of a class.
    #[inline(always)]
    fn pop(&mut self, priority: Priority) -> Option<Waiting<T>>
        ensures first { MatchOption result (queue_of priority self.old ≡ [])
            (λ w. queue_of priority self.old ≡ w ∷ queue_of priority self.new) }
        ensures others { ChangesQueue priority self.old self.new }
    {
        match priority {
            Priority::High => pop_first(&mut self.high),
            Priority::Low => pop_first(&mut self.low),
        }
    }

    /// Adds a frame to its class, which has room.
    fn push(&mut self, priority: Priority, waiting: Waiting<T>)
        requires { HasRoom priority self.old }
        ensures queue { queue_of priority self.new ≡ queue_of priority self.old ++ waiting ∷ [] }
        ensures others { ChangesQueue priority self.old self.new }
    {
        let pushed = match priority {
            Priority::High => self.high.try_push_back(waiting),
            Priority::Low => self.low.try_push_back(waiting),
        };
        let fits = pushed.is_ok();
        prove!(fits);
    }

    /// Takes the first frame of the class that goes next out of its queue, as its turn begins.
    /// `due` is when that turn is over.
    #[inline(always)]
    fn begin(&mut self, priority: Priority, due: Due) -> Left<T>
        requires sound { IsPortSound T.facts self.old }
        requires idle { self.old.sending ≡ None }
        requires begins { BeginsBefore self.old self.old.clock priority }
        requires due { due_of T.facts self.old ≡ Some due }
        ensures begun { Advances T.facts self.old (record self.new { sending = Some result })
            self.old.clock }
        ensures idle { self.new.sending ≡ None }
    {
        let Some(waiting) = self.pop(priority) else {
            // Never: the class that goes next is one in which a frame waits.
            unreachable!();
        };
        let Waiting { time: _, item } = waiting;
        let length = item.length();
        self.waiting -= length;
        self.free = due.time;
        Left {
            item,
            priority,
            end: due.time,
            too_old: due.too_old,
        }
    }

    /// Begins the next turn, if its moment is before `time`. `order` says when that turn is over,
    /// `class` of which class its frame is.
    #[inline(always)]
    fn advance(&mut self, time: u64, order: TurnOrder, class: Priority)
        requires clock { self.old.clock ≤ time }
        requires sound { IsPortSound T.facts self.old }
        requires order { order.0 ≡ order_at (due_of T.facts self.old) }
        requires class { IsNextClass class self.old }
        ensures { Advances T.facts self.old self.new time }
    {
        self.clock = time;
        if self.sending.is_some() {
            return;
        }
        let Some(front) = self.front(class) else {
            return;
        };
        let moment = front.time.max(self.free);
        if moment >= time {
            return;
        }
        let due = order.turn();
        let left = self.begin(class, due);
        self.sending = Some(left);
    }

    /// Offers a frame. While a turn has begun, that doesn't change when the next one is over, of
    /// which `order` says when that is, and `class` of which class its frame is.
    #[inline]
    pub(crate) fn put(
        &mut self,
        time: u64,
        priority: Priority,
        item: T,
        order: TurnOrder,
        class: Priority,
    ) -> Result<(), T>
        requires clock { self.old.clock ≤ time }
        requires limit { time ≤ latest_put }
        requires quiet { IsQuiet T.facts self.old time }
        requires sound { IsPortSound T.facts self.old }
        requires order { order.0 ≡ order_at (due_of T.facts self.old) }
        requires class { IsNextClass class self.old }
        ensures sound { IsPortSound T.facts self.new }
        ensures puts { Puts T.facts self.old self.new time priority item result }
        ensures due { is_some self.new.sending ≡ true →
            due_of T.facts self.new ≡ due_of T.facts self.old }
    {
        self.advance(time, order, class);
        let length = item.length();
        if self.waiting + length > self.buffer {
            return Err(item);
        }
        self.push(priority, Waiting { time, item });
        self.waiting += length;
        Ok(())
    }

    /// Offers a frame to a port that holds none. Answers when its turn will be over.
    #[inline]
    pub(crate) fn put_alone(&mut self, time: u64, priority: Priority, item: T) -> Result<Due, T>
        requires clock { self.old.clock ≤ time }
        requires limit { time ≤ latest_put }
        requires sound { IsPortSound T.facts self.old }
        requires alone { due_of T.facts self.old ≡ None }
        ensures sound { IsPortSound T.facts self.new }
        ensures puts { Puts T.facts self.old self.new time priority item result }
        ensures due { IfOk result (λ due. due_of T.facts self.new ≡ Some due) }
        ensures limit { IfOk result (λ due. given_at due ≤ drain_end) }
        ensures none { OnErr result (due_of T.facts self.new ≡ None) }
        ensures class { OnOk result (IsNextClass priority self.new) }
    {
        self.clock = time;
        let length = item.length();
        if self.waiting + length <= self.buffer {
            let due = self.turn_of(time, &item, time.max(self.free));
            self.push(priority, Waiting { time, item });
            self.waiting += length;
            return Ok(due);
        }
        Err(item)
    }

    /// Sets the clock.
    pub(crate) fn wait(&mut self, time: u64)
        ensures { self.new ≡ record self.old { clock = time } }
    {
        self.clock = time;
    }

    /// Takes the next turn, which is over at `due`, and is given by `until`. `class` says of which
    /// class its frame is.
    #[inline(always)]
    pub(crate) fn take(&mut self, until: u64, due: Due, class: Priority) -> Left<T>
        requires clock { self.old.clock ≤ until }
        requires sound { IsPortSound T.facts self.old }
        requires due { due_of T.facts self.old ≡ Some due }
        requires given { IsBy until due }
        requires class { IsNextClass class self.old }
        ensures sound { IsPortSound T.facts self.new }
        ensures takes { Takes T.facts self.old self.new until (Some result) }
    {
        self.clock = until;
        if self.sending.is_some() {
            let Some(left) = self.sending.take() else {
                // Never: a turn has begun.
                unreachable!();
            };
            return left;
        }
        self.begin(class, due)
    }
}
