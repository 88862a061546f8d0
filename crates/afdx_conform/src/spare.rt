//! The memory of messages that are forgotten, which later ones take.

ghost use Rattle.std.specs.Prelude.{◌≡◌, [], IfOk, OnOk};

use std::alloc::{AllocError, Global};
use std::rc::Rc;

/// A message of so many bytes at most takes room for so many, which is kept once it is forgotten.
const ROOM: usize = 128;

/// So many rooms are kept at most.
const KEPT: usize = 1_024;

/// Rooms for messages: those of short ones that were forgotten, the newest last.
#[derive(Drop)]
pub struct Spare {
    alloc: Global,
    rooms: Vec<Rc<Vec<u8>>>,
}

/// Room for a message of so many bytes. Fails only out of memory.
fn new_room(alloc: Global, length: usize) -> Result<Vec<u8>, AllocError>
    ensures { IfOk result (λ room. room.items ≡ []) }
{
    Vec::with_capacity(alloc, length.max(ROOM))
}

/// A message in a room of its own. Fails only out of memory.
fn new_copy(alloc: Global, message: &[u8]) -> Result<Rc<Vec<u8>>, AllocError>
    ensures { IfOk result (λ copy. copy.value.items ≡ message.now) }
{
    let mut room = new_room(alloc, message.len())?;
    room.extend_from_slice(message)?;
    let copy = Rc::new(alloc, room)?;
    Ok(copy)
}

/// Puts a message in a room that nobody shares, else in one of its own. Fails only out of memory.
fn put(alloc: Global, room: &mut Rc<Vec<u8>>, message: &[u8]) -> Result<(), AllocError>
    ensures { OnOk result (room.new.value.items ≡ message.now) }
{
    if let Some(bytes) = Rc::get_mut(room) {
        bytes.clear();
        return bytes.extend_from_slice(message);
    }
    *room = new_copy(alloc, message)?;
    Ok(())
}

impl Spare {
    /// Nothing was forgotten yet.
    pub fn new(alloc: Global) -> Spare {
        Spare {
            alloc,
            rooms: Vec::new(alloc),
        }
    }

    /// Where memory comes from.
    pub(crate) fn alloc(&self) -> Global {
        self.alloc
    }

    /// A copy of the message. Fails only out of memory.
    pub(crate) fn copy(&mut self, message: &[u8]) -> Result<Rc<Vec<u8>>, AllocError>
        ensures { IfOk result (λ copy. copy.value.items ≡ message.now) }
    {
        if message.len() <= ROOM
            && let Some(mut room) = self.rooms.pop()
        {
            put(self.alloc, &mut room, message)?;
            return Ok(room);
        }
        new_copy(self.alloc, message)
    }

    /// Takes back the room of a message that is forgotten, if nobody shares it and it may be used
    /// again.
    pub(crate) fn take_back(&mut self, message: Rc<Vec<u8>>) {
        if Rc::strong_count(&message) == 1
            && message.as_ref().capacity() == ROOM
            && self.rooms.len() < KEPT
        {
            let _kept = self.rooms.push(message);
        }
    }
}
