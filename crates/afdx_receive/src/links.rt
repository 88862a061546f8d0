//! What a receiver keeps of all its links, each found by its identifier.

ghost use Rattle.std.specs.Prelude.{◌≡◌, ℕ, ◌+◌, ◌<◌, cond, nat_eq, None, Some, length};
ghost use Rattle.std.specs.Prelude.{OnOk, IfNone, IfSome, IsTrue};
ghost use Rattle.afdx_frame.specs.Layout.{identifier_count};
ghost use Rattle.afdx_receive.specs.Kept.{memory_at, IsConsidered};
ghost use Rattle.afdx_receive.specs.Places.{place_in};

use crate::memory::{LinkMemory, Standing};
use crate::places::Places;
use afdx_frame::{Side, VlId};
use std::alloc::{AllocError, Global};
use std::marker::Model;

/// The memories of the links that go to a system.
#[derive(Drop)]
pub(crate) struct Links {
    /// By identifier, the place of its link's memory.
    places: Places,
    memories: Vec<LinkMemory>,
    /// By the row of a link in the tables, the place where its memory is looked for first. Nothing
    /// rests on it.
    hints: Vec<u16>,
}

impl Model for Links {
    ghost use Rattle.afdx_receive.specs.Kept.{Kept, IsKept};

    ghost Value = { Kept };

    ghost view = { λ l. record { places = l.places; memories = l.memories.items } };

    ghost invariant = { λ l.
        IsKept (record { places = l.places; memories = l.memories.items }) };
}

impl Links {
    /// No link. It takes no memory.
    pub(crate) fn new(alloc: Global) -> Links
        ensures none { (vl : ℕ) → memory_at result vl ≡ None }
        ensures count { length result.memories ≡ 0 }
    {
        Links {
            places: Places::new(alloc),
            memories: Vec::new(alloc),
            hints: Vec::new(alloc),
        }
    }

    /// Keeps the memory of a link, which stands in this row of the tables. It takes room for that,
    /// and for its place.
    pub(crate) fn insert(&mut self, row: usize, memory: LinkMemory) -> Result<(), AllocError>
        requires row { row < identifier_count }
        requires few { length self.old.memories < identifier_count }
        requires absent { memory_at self.old memory.vl.0 ≡ None }
        ensures updates { OnOk result ((q : ℕ) → memory_at self.new q
            ≡ cond (nat_eq memory.vl.0 q) (Some memory) (memory_at self.old q)) }
        ensures count { OnOk result
            (length self.new.memories ≡ length self.old.memories + 1) }
    {
        let place = self.memories.len() as u16;
        self.hints.resize(row + 1, place)?;
        self.memories.reserve(1)?;
        self.places.insert(memory.vl, place)?;
        self.memories.push_reserved(memory);
        Ok(())
    }

    /// Whether the memory of a link is at this place.
    #[inline(always)]
    fn is_at(&self, place: usize, vl: VlId) -> bool
        ensures { IsTrue result → place_in self.now.places vl.0 ≡ Some place }
    {
        place < self.memories.len() && self.memories[place].vl == vl
    }

    /// The place of a link's memory, found by its identifier alone.
    fn search(&self, vl: VlId) -> Option<usize>
        ensures place { result ≡ place_in self.now.places vl.0 }
    {
        match self.places.get(vl) {
            Some(place) => Some(place as usize),
            None => None,
        }
    }

    /// The place of a link's memory, which is looked for at the hint of this row first.
    #[inline(always)]
    fn find(&self, row: u16, vl: VlId) -> Option<usize>
        ensures place { result ≡ place_in self.now.places vl.0 }
    {
        let row = row as usize;
        if row < self.hints.len() {
            let place = self.hints[row] as usize;
            if self.is_at(place, vl) {
                return Some(place);
            }
        }
        self.search(vl)
    }

    /// Takes in a frame that comes now, and says what becomes of it, if its link is kept. The row
    /// says where to look first: whatever it is, the answer is the same.
    #[inline(always)]
    pub(crate) fn consider(
        &mut self,
        row: u16,
        vl: VlId,
        time: u64,
        side: Side,
        number: u8,
    ) -> Option<Standing>
        ensures none { IfNone result (memory_at self.old vl.0 ≡ None) }
        ensures unchanged { IfNone result (self.new ≡ self.old) }
        ensures considered { IfSome result (λ how.
            IsConsidered self.old vl.0 time side number how self.new) }
    {
        let place = self.find(row, vl)?;
        Some(self.memories[place].consider(time, side, number))
    }
}
