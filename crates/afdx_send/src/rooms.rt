//! The rooms of bytes that were sent, for bytes to come.

ghost use Rattle.std.specs.Prelude.{◌≡◌, IfOk};

use std::alloc::{AllocError, Global};
use std::marker::Model;

/// Vectors that aren't wanted any more, whose memory is used again. What it holds means nothing.
#[derive(Drop)]
pub(crate) struct Rooms {
    alloc: Global,
    rooms: Vec<Vec<u8>>,
}

impl Model for Rooms {
    ghost Value = { Unit {0} };

    ghost view = { λ _. tt };
}

impl Rooms {
    pub(crate) fn new(alloc: Global) -> Rooms {
        Rooms {
            alloc,
            rooms: Vec::new(alloc),
        }
    }

    /// A vector with any bytes: one that isn't wanted any more, or a new one without memory.
    pub(crate) fn take(&mut self) -> Vec<u8> {
        match self.rooms.pop() {
            Some(room) => room,
            None => Vec::new(self.alloc),
        }
    }

    /// A copy of these bytes. It takes memory where there is no room, or one that is too small.
    pub(crate) fn copy(&mut self, bytes: &[u8]) -> Result<Vec<u8>, AllocError>
        ensures copied { IfOk result (λ copy. copy.items ≡ bytes.now) }
    {
        let mut copy = self.take();
        copy.clear();
        copy.extend_from_slice(bytes)?;
        Ok(copy)
    }

    /// Takes a vector that isn't wanted any more; where memory for its place is refused, it is let
    /// go.
    pub(crate) fn give_back(&mut self, room: Vec<u8>) {
        let _ = self.rooms.push(room);
    }
}
