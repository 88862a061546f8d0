//! What one port holds.

ghost use Rattle.std.specs.Prelude.{◌≡◌, ◌↔◌, ◌≤◌, ◌<◌, [], ◌∷◌, ◌++◌, length, nat_eq, IsTrue, Err};
ghost use Rattle.std.specs.Prelude.{None, Some, false, IsOk, IfOk, OnOk, OnErr, MatchOption};
ghost use Rattle.std.specs.Prelude.{option_map};
ghost use Rattle.std.specs.Vec.{vec_capacity};
ghost use Rattle.afdx_comport.specs.Held.{is_full, with_message, sample_of, first_of};
ghost use Rattle.afdx_comport.specs.Held.{without_first, with_spare, is_enough, has_spare};
ghost use Rattle.afdx_comport.specs.declared.fault.PutFault.TheVariants.{Full, Memory};

use crate::fault::PutFault;
use std::alloc::{AllocError, Global};
use std::collections::VecDeque;
use std::marker::Model;

/// A message that came to a sampling port.
#[derive(Drop)]
pub(crate) struct Sample {
    pub(crate) time: u64,
    pub(crate) bytes: Vec<u8>,
}

impl Model for Sample {
    ghost use Rattle.afdx_comport.specs.Messages.{TimedMessage};

    ghost Value = { TimedMessage };

    ghost view = { λ s. record { time = s.time; bytes = s.bytes.items } };
}

impl Sample {
    /// Puts a message in the place of this one, and in its room where that is enough.
    fn replace(&mut self, alloc: Global, time: u64, message: &[u8]) -> Result<(), AllocError>
        ensures ok { OnOk result (self.new ≡ record { time = time; bytes = message.now }) }
        ensures err { OnErr result (self.new ≡ self.old) }
    {
        if message.len() <= self.bytes.capacity() {
            self.bytes.clear();
            self.bytes.extend_from_slice(message)?;
        } else {
            self.bytes = Vec::from_slice(alloc, message)?;
        }
        self.time = time;
        Ok(())
    }
}

/// The messages of a queuing port.
#[derive(Drop)]
pub(crate) struct Queue {
    depth: usize,
    messages: VecDeque<Vec<u8>>,
    /// Room for the next message.
    spare: Option<Vec<u8>>,
}

impl Model for Queue {
    ghost use Rattle.std.specs.Prelude.{◌≤◌, map, option_map};
    ghost use Rattle.std.specs.Vec.{vec_capacity};
    ghost use Rattle.std.specs.VecDeque.{deque_len, deque_capacity};
    ghost use Rattle.afdx_comport.specs.Messages.{Line};

    ghost Value = { Line };

    ghost view = { λ q. record {
      depth = q.depth;
      messages = map (λ m. m.items) q.messages.items;
      spare = option_map (λ room. vec_capacity room) q.spare;
    } };

    ghost invariant = { λ q.
        (deque_len q.messages ≤ q.depth) × (q.depth ≤ deque_capacity q.messages) };
}

impl Queue {
    /// An empty queue, with room for as many messages as its depth.
    pub(crate) fn new(alloc: Global, depth: usize) -> Result<Queue, AllocError>
        ensures { IfOk result (λ q. q ≡ record { depth = depth; messages = []; spare = None }) }
    {
        let messages = VecDeque::with_capacity(alloc, depth)?;
        Ok(Queue {
            depth,
            messages,
            spare: None,
        })
    }

    /// Whether it holds as many messages as its depth. It never holds more.
    pub(crate) fn is_full(&self) -> bool
        ensures full { result ≡ nat_eq (length self.now.messages) self.now.depth }
        ensures bounded { length self.now.messages ≤ self.now.depth }
    {
        self.messages.len() == self.depth
    }

    /// Takes the memory that was given back, if this many bytes have room in it.
    fn take_spare(&mut self, length: usize) -> Option<Vec<u8>>
        ensures spare { MatchOption result
            ((is_enough length self.old.spare ≡ false) × (self.new ≡ self.old))
            (λ room. (length ≤ vec_capacity room) × (self.new ≡ record self.old { spare = None })) }
    {
        match self.spare.take() {
            Some(room) if length <= room.capacity() => Some(room),
            small => {
                self.spare = small;
                None
            }
        }
    }

    /// A copy of a message, in the memory that was given back where that is enough: then it asks
    /// for none.
    pub(crate) fn copy(&mut self, alloc: Global, message: &[u8]) -> Result<Vec<u8>, AllocError>
        ensures copy { IfOk result (λ bytes. bytes.items ≡ message.now) }
        ensures ok { OnOk result (self.new ≡ record self.old { spare = None }) }
        ensures err { OnErr result (self.new ≡ self.old) }
        ensures spared { IsTrue (is_enough (length message.now) self.old.spare) → IsOk result }
    {
        let Some(mut room) = self.take_spare(message.len()) else {
            let copied = Vec::from_slice(alloc, message)?;
            self.spare = None;
            return Ok(copied);
        };
        room.clear();
        room.extend_from_slice(message)?;
        Ok(room)
    }

    /// Keeps room for the next message.
    pub(crate) fn give_back(&mut self, room: Vec<u8>)
        ensures { self.new ≡ record self.old { spare = Some (vec_capacity room) } }
    {
        self.spare = Some(room);
    }

    /// Puts a message behind the others. The room is there.
    pub(crate) fn push(&mut self, message: Vec<u8>)
        requires { length self.old.messages < self.old.depth }
        ensures { self.new
            ≡ record self.old { messages = self.old.messages ++ message.items ∷ [] } }
    {
        self.messages.push_back_reserved(message);
    }

    /// Takes out the oldest message.
    pub(crate) fn pop(&mut self) -> Option<Vec<u8>>
        ensures { MatchOption result ((self.old.messages ≡ []) × (self.new ≡ self.old))
            (λ m. self.old ≡ record self.new { messages = m.items ∷ self.new.messages }) }
    {
        self.messages.pop_front()
    }
}

/// What a port holds, by its kind.
#[derive(Drop)]
pub(crate) enum PortMemory {
    Sampling(Option<Sample>),
    Queuing(Queue),
}

impl PortMemory {
    /// Takes in a message that comes now.
    pub(crate) fn put(&mut self, alloc: Global, time: u64, message: &[u8]) -> Result<(), PutFault>
        ensures full { (result ≡ Err Full) ↔ IsTrue (is_full self.old) }
        ensures ok { OnOk result (self.new ≡ with_message time message.now self.old) }
        ensures err { OnErr result (self.new ≡ self.old) }
        ensures spared { IsTrue (has_spare (length message.now) self.old) →
            ¬ (result ≡ Err Memory) }
    {
        match self {
            PortMemory::Sampling(Some(sample)) => sample.replace(alloc, time, message)?,
            PortMemory::Sampling(none) => {
                let bytes = Vec::from_slice(alloc, message)?;
                *none = Some(Sample { time, bytes });
            }
            PortMemory::Queuing(queue) => {
                if queue.is_full() {
                    return Err(PutFault::Full);
                }
                let bytes = queue.copy(alloc, message)?;
                queue.push(bytes);
            }
        }
        Ok(())
    }

    /// The newest message and its time, if this is a sampling port and one came.
    pub(crate) fn sample(&self) -> Option<(u64, &[u8])>
        ensures { option_map (λ s. record { time = s.0; bytes = s.1.now }) result
            ≡ sample_of self.now }
    {
        match self {
            PortMemory::Sampling(Some(sample)) => Some((sample.time, sample.bytes.as_slice())),
            PortMemory::Sampling(None) | PortMemory::Queuing(_) => None,
        }
    }

    /// Takes out the oldest message, if this is a queuing port that has one.
    pub(crate) fn take(&mut self) -> Option<Vec<u8>>
        ensures first { option_map (λ m. m.items) result ≡ first_of self.old }
        ensures rest { self.new ≡ without_first self.old }
    {
        match self {
            PortMemory::Sampling(_) => None,
            PortMemory::Queuing(queue) => queue.pop(),
        }
    }

    /// Gives room for the next message, if this is a queuing port.
    pub(crate) fn give_back(&mut self, room: Vec<u8>)
        ensures { self.new ≡ with_spare (vec_capacity room) self.old }
    {
        if let PortMemory::Queuing(queue) = self {
            queue.give_back(room);
        }
    }
}
