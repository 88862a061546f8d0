//! Text that is put together line by line.

ghost use Rattle.std.specs.Prelude.{◌≡◌, ◌≤◌, ◌<◌, ◌+◌, ◌++◌, [], OnOk, OnErr, is_ok, true, length, drop, vec_len, IsTrue, ◌↔◌};

use crate::kinds::LastNumbers;
use crate::line::OutLine;
use std::alloc::{AllocError, Global};

/// Lines that are added at its end, in memory that is used again after each `clear`.
///
/// The lines of a run often have the time of the line before, or tell of the same line of a list or
/// of the same link. So the digits of such a number are kept until another one is put.
#[derive(Debug, Drop)]
pub struct Text {
    room: Vec<u8>,
    end: usize,
    kept: LastNumbers,
    ghost within: { end ≤ vec_len room },
}

impl Text {
    ghost use Rattle.afdx_text.specs.Texts.{text_bytes};
    ghost use Rattle.afdx_text.specs.OutLines.{line_text, longest};

    /// No text. It takes no memory yet.
    pub fn new(alloc: Global) -> Text
        ensures { text_bytes result ≡ [] }
    {
        Text {
            room: Vec::new(alloc),
            end: 0,
            kept: LastNumbers::new(),
        }
    }

    /// Takes all of the text away, and keeps its memory.
    #[inline]
    pub fn clear(&mut self)
        ensures { text_bytes self.new ≡ [] }
    {
        self.end = 0;
    }

    /// The text.
    #[inline]
    pub fn as_bytes(&self) -> &[u8]
        ensures { result.now ≡ text_bytes self.now }
    {
        &self.room[..self.end]
    }

    /// Makes room for so many more bytes.
    #[inline(always)]
    pub(crate) fn make_room(&mut self, more: usize) -> Result<(), AllocError>
        ensures end { self.new.end ≡ self.old.end }
        ensures bytes { text_bytes self.new ≡ text_bytes self.old }
        ensures room { OnOk result (self.new.end + more ≤ vec_len self.new.room) }
        ensures sure { self.old.end + more ≤ vec_len self.old.room → is_ok result ≡ true }
    {
        if more <= self.room.len() - self.end {
            return Ok(());
        }
        self.grow(more)
    }

    /// Makes the room longer.
    #[cold]
    #[inline(never)]
    fn grow(&mut self, more: usize) -> Result<(), AllocError>
        requires { vec_len self.old.room < self.old.end + more }
        ensures end { self.new.end ≡ self.old.end }
        ensures bytes { text_bytes self.new ≡ text_bytes self.old }
        ensures room { OnOk result (self.new.end + more ≤ vec_len self.new.room) }
    {
        let least = self.end.saturating_add(more);
        self.room.resize(least.saturating_add(256), 0)
    }

    /// Whether there is room for so many more bytes.
    #[inline(always)]
    pub(crate) fn has_room(&self, more: usize) -> bool
        ensures { IsTrue result ↔ self.now.end + more ≤ vec_len self.now.room }
    {
        more <= self.room.len() - self.end
    }

    /// Adds a line for which there is room.
    #[inline(always)]
    pub(crate) fn add(&mut self, line: &OutLine<'_>)
        requires { self.old.end + longest line.now ≤ vec_len self.old.room }
        ensures { text_bytes self.new ≡ text_bytes self.old ++ line_text line.now }
    {
        self.end = line.put_at(self.room.as_mut_slice(), self.end, &mut self.kept);
    }

    /// Removes the first bytes, so many.
    pub(crate) fn remove_front(&mut self, count: usize)
        requires { count ≤ length (text_bytes self.old) }
        ensures { text_bytes self.new ≡ drop count (text_bytes self.old) }
    {
        let end = self.end;
        self.room.as_mut_slice().copy_within(count..end, 0);
        self.end = end - count;
    }
}

impl OutLine<'_> {
    ghost use Rattle.afdx_text.specs.OutLines.{line_text};
    ghost use Rattle.afdx_text.specs.Texts.{text_bytes, HasRoomFor};

    /// Adds the line to a text. Want of memory leaves the text as it is; it comes only where the
    /// text has to grow.
    #[inline(always)]
    pub fn put(&self, text: &mut Text) -> Result<(), AllocError>
        ensures added { OnOk result
            (text_bytes text.new ≡ text_bytes text.old ++ line_text self.now) }
        ensures same { OnErr result (text_bytes text.new ≡ text_bytes text.old) }
        ensures sure { HasRoomFor text.old self.now → is_ok result ≡ true }
    {
        let most = self.room_wanted()?;
        text.make_room(most)?;
        text.add(self);
        Ok(())
    }
}
