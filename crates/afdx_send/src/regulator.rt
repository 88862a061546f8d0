//! The regulator of one link: its sub-VLs' queues and the gap between releases.

ghost use Rattle.std.specs.Prelude.{◌≡◌, ℕ, ◌+◌, ◌*◌, ◌<◌, ◌≤◌, List, Some, None, IfSome, IfNone, IfOk, OnOk, OnErr, IsTrue, ◌↔◌, ◌^◌, [], MatchOption, max, sum_by, length};
ghost use Rattle.afdx_frame.specs.Lengths.{greatest_payload};

use std::alloc::{AllocError, Global};
use std::collections::VecDeque;

/// A message that isn't released yet, and when it was submitted.
#[derive(Drop)]
pub(crate) struct Queued {
    time: u64,
    udp: u16,
    payload: Vec<u8>,
    ghost in_range: { (1 ≤ length payload.items) × (length payload.items ≤ greatest_payload) },
}

/// One link's messages. A queue is that of the sub-VL one more than its place.
#[derive(Drop)]
pub(crate) struct Regulator {
    /// The least time between two releases, in ns.
    bag: u64,
    /// The earliest moment for the next release.
    earliest: u64,
    /// The sub-VL that was served last, 0 at first.
    served: usize,
    queues: Vec<VecDeque<Queued>>,
    ghost within: { served ≤ length queues.items },
}

/// How many messages of a sub-VL may wait.
const QUEUE_LIMIT: usize = 64;

impl Queued {
    pub(crate) fn new(time: u64, udp: u16, payload: Vec<u8>) -> Queued
        requires payload { (1 ≤ length payload.items) × (length payload.items ≤ greatest_payload) }
        ensures time { result.time ≡ time }
        ensures udp { result.udp ≡ udp }
        ensures payload { result.payload ≡ payload }
    {
        Queued { time, udp, payload }
    }

    pub(crate) fn udp(&self) -> u16
        ensures { result ≡ self.now.udp }
    {
        self.udp
    }

    pub(crate) fn into_payload(self) -> Vec<u8>
        ensures payload { result ≡ self.payload }
        ensures in_range { (1 ≤ length result.items) × (length result.items ≤ greatest_payload) }
    {
        let Queued { payload, .. } = self;
        payload
    }
}

impl Regulator {
    ghost use Rattle.afdx_send.specs.Releases.{Submission, Release, queue_limit};
    ghost use Rattle.afdx_send.specs.declared.regulator.Queued.{Queued};
    ghost use Rattle.afdx_send.specs.Regulator.{Regulates, HasQueue, IsReady, IsChosen, Pops, Pushes, Serves, Releases, next_time_of, waiting_of, sub_count};

    /// When the next message is released.
    pub(crate) fn next_time(&self) -> Option<u64>
        ensures { result ≡ next_time_of self.now }
    {
        let mut first: Option<u64> = None;
        for queue in &self.queues {
            if let Some(message) = queue.front() {
                first = Some(first.map_or(message.time, |time| time.min(message.time)));
            }
        }
        first.map(|time| time.max(self.earliest))
    }

    /// Whether the front of the queue at this place has come.
    fn has_come(&self, time: u64, index: usize) -> bool
        requires place { index < sub_count self.now }
        ensures { IsTrue result ↔ IsReady (waiting_of self.now) time index }
    {
        match self.queues[index].front() {
            Some(message) => message.time <= time,
            None => false,
        }
    }

    /// The queue whose turn it is at this time, by its place.
    fn next_in_turn(&self, time: u64) -> usize
        requires due { next_time_of self.now ≡ Some time }
        ensures chosen { IsChosen (sub_count self.now)
            (waiting_of self.now) self.now.served time result }
    {
        let count = self.queues.len();
        for step in 0..count {
            let turn = self.served + step;
            let index = if turn < count { turn } else { turn - count };
            if self.has_come(time, index) {
                return index;
            }
        }
        // Never: the next release is due, so a message that has come waits in some queue.
        unreachable!()
    }

    /// Takes the front of the queue at this place.
    fn pop(&mut self, index: usize) -> Option<Queued>
        requires place { index < sub_count self.old }
        ensures front { MatchOption result (HasQueue (waiting_of self.old) index [])
            (λ m. Pops (waiting_of self.old) index m (waiting_of self.new)) }
        ensures bag { self.new.bag ≡ self.old.bag }
        ensures served { self.new.served ≡ self.old.served }
        ensures earliest { self.new.earliest ≡ self.old.earliest }
    {
        self.queues[index].pop_front()
    }

    /// Releases the next message, and tells its sub-VL.
    pub(crate) fn release(&mut self, time: u64) -> (usize, Queued)
        requires due { next_time_of self.old ≡ Some time }
        requires limit { time + self.old.bag < 2 ^ 64 }
        ensures serves { Serves self.old time result.0 result.1 self.new }
        ensures held { sum_by length (waiting_of self.new) + 1
            ≡ sum_by length (waiting_of self.old) }
        ensures later { (t : ℕ) → next_time_of self.new ≡ Some t → time ≤ t }
        ensures released { (ss : List Submission) (rs : List Release) → Regulates self.old ss rs →
            Releases self.old ss rs time result.0 result.1 self.new }
    {
        let index = self.next_in_turn(time);
        let Some(message) = self.pop(index) else {
            // Never: the queue whose turn it is has a message.
            unreachable!();
        };
        self.served = index + 1;
        self.earliest = time + self.bag;
        (self.served, message)
    }

    pub(crate) fn new(alloc: Global, bag: u64, subs: usize) -> Result<Regulator, AllocError>
        ensures made { IfOk result (λ p. (p.bag ≡ bag) × (sub_count p ≡ subs)) }
        ensures stands { IfOk result (λ p. Regulates p [] []) }
        ensures empty { IfOk result (λ p. sum_by length (waiting_of p) ≡ 0) }
        ensures next { IfOk result (λ p. next_time_of p ≡ None) }
    {
        let mut queues = Vec::with_capacity(alloc, subs)?;
        for _ in 0..subs {
            queues.push(VecDeque::new(alloc))?;
        }
        Ok(Regulator {
            bag,
            earliest: 0,
            served: 0,
            queues,
        })
    }

    /// How many sub-VLs the link has.
    pub(crate) fn sub_count(&self) -> usize
        ensures { result ≡ sub_count self.now }
    {
        self.queues.len()
    }

    /// Whether the queue at this place takes no further message.
    pub(crate) fn is_full(&self, index: usize) -> bool
        requires place { index < sub_count self.now }
        ensures { (ms : List Queued) → HasQueue (waiting_of self.now) index ms →
            IsTrue result ↔ (queue_limit ≤ length ms) }
    {
        self.queues[index].len() >= QUEUE_LIMIT
    }

    /// Adds a message to the queue at this place.
    pub(crate) fn push(&mut self, index: usize, message: Queued) -> Result<(), AllocError>
        requires place { index < sub_count self.old }
        ensures ok { OnOk result (Pushes (waiting_of self.old) index message
            (waiting_of self.new)) }
        ensures err { OnErr result (waiting_of self.new ≡ waiting_of self.old) }
        ensures bag { self.new.bag ≡ self.old.bag }
        ensures served { self.new.served ≡ self.old.served }
        ensures earliest { self.new.earliest ≡ self.old.earliest }
    {
        self.queues[index].push_back(message)?;
        Ok(())
    }
}
