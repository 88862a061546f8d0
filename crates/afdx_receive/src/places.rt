//! Places that are found by the identifiers of links.

ghost use Rattle.std.specs.Prelude.{◌≡◌, ℕ, ◌+◌, ◌*◌, ◌%◌, ◌<◌, ◌≤◌, cond, nat_eq, None, Some};
ghost use Rattle.std.specs.Prelude.{length, IfOk, OnOk, OnErr};
ghost use Rattle.afdx_frame.specs.Layout.{identifier_count};
ghost use Rattle.afdx_receive.specs.Places.{found_at, number_in, page_size, slot_in, place_in};

use afdx_frame::VlId;
use std::alloc::{AllocError, Global};
use std::marker::Model;

/// So many identifiers are on a page.
const PAGE: usize = 16;

/// By identifier, a place. The identifiers lie on pages, and only those pages have slots that
/// have a place: few links take little room, whatever their identifiers are.
#[derive(Drop)]
pub(crate) struct Places {
    /// By page, its number among those that have slots. No longer than the last such page needs.
    pages: Vec<Option<u16>>,
    /// The slots of the pages that have such, by number.
    slots: Vec<Option<u16>>,
}

impl Model for Places {
    ghost use Rattle.afdx_receive.specs.Places.{Paged, IsPaged};

    ghost Value = { Paged };

    ghost view = { λ p. record { pages = p.pages.items; slots = p.slots.items } };

    ghost invariant = { λ p.
        IsPaged (record { pages = p.pages.items; slots = p.slots.items }) };
}

/// The slot of an identifier, on a page of this number.
#[inline(always)]
fn slot_on(number: u16, vl: VlId) -> usize
    ensures { result ≡ page_size * number + vl.0 % page_size }
{
    PAGE * number as usize + vl.0 as usize % PAGE
}

/// Fills up with `None` until this page has a place.
fn lengthen(pages: &mut Vec<Option<u16>>, page: usize) -> Result<(), AllocError>
    requires { page < identifier_count }
    ensures same { (q : ℕ) → found_at pages.new.items q ≡ found_at pages.old.items q }
    ensures room { OnOk result (page < length pages.new.items) }
{
    if pages.len() <= page {
        pages.resize(page + 1, None)?;
    }
    Ok(())
}

impl Places {
    /// No place. It takes no memory.
    pub(crate) fn new(alloc: Global) -> Places
        ensures none { (vl : ℕ) → place_in result vl ≡ None }
        ensures count { length result.slots ≡ 0 }
    {
        Places {
            pages: Vec::new(alloc),
            slots: Vec::new(alloc),
        }
    }

    /// The number of a page, if it has slots.
    #[inline(always)]
    fn number_of(&self, page: usize) -> Option<u16>
        ensures { result ≡ number_in self.now page }
    {
        self.pages.get(page).copied().flatten()
    }

    /// Takes room for the slots of a page that has none, and gives its number.
    fn add_page(&mut self, page: usize) -> Result<u16, AllocError>
        requires page { page < identifier_count }
        requires few { length self.old.slots < page_size * identifier_count }
        requires none { number_in self.old page ≡ None }
        ensures same { (q : ℕ) → place_in self.new q ≡ place_in self.old q }
        ensures number { IfOk result (λ number. number_in self.new page ≡ Some number) }
        ensures count { length self.new.slots ≤ length self.old.slots + page_size }
        ensures room { OnErr result (length self.new.slots ≡ length self.old.slots) }
    {
        lengthen(&mut self.pages, page)?;
        let number = (self.slots.len() / PAGE) as u16;
        self.slots.extend_from_slice(&[None; PAGE])?;
        self.pages[page] = Some(number);
        Ok(number)
    }

    /// The slot of an identifier, for whose page room is taken if it has none.
    fn make_room(&mut self, vl: VlId) -> Result<usize, AllocError>
        requires few { length self.old.slots < page_size * identifier_count }
        ensures same { (q : ℕ) → place_in self.new q ≡ place_in self.old q }
        ensures slot { IfOk result (λ slot. slot_in self.new vl.0 ≡ Some slot) }
        ensures count { length self.new.slots ≤ length self.old.slots + page_size }
        ensures room { OnErr result (length self.new.slots ≡ length self.old.slots) }
    {
        let page = vl.0 as usize / PAGE;
        if let Some(number) = self.number_of(page) {
            return Ok(slot_on(number, vl));
        }
        let number = self.add_page(page)?;
        Ok(slot_on(number, vl))
    }

    /// Makes this the place of an identifier.
    pub(crate) fn insert(&mut self, vl: VlId, place: u16) -> Result<(), AllocError>
        requires few { length self.old.slots < page_size * identifier_count }
        ensures updates { OnOk result ((q : ℕ) →
            place_in self.new q ≡ cond (nat_eq vl.0 q) (Some place) (place_in self.old q)) }
        ensures same { OnErr result ((q : ℕ) → place_in self.new q ≡ place_in self.old q) }
        ensures count { length self.new.slots ≤ length self.old.slots + page_size }
        ensures room { OnErr result (length self.new.slots ≡ length self.old.slots) }
    {
        let slot = self.make_room(vl)?;
        self.slots[slot] = Some(place);
        Ok(())
    }

    /// The place of an identifier, if it has one.
    #[inline(always)]
    pub(crate) fn get(&self, vl: VlId) -> Option<u16>
        ensures { result ≡ place_in self.now vl.0 }
    {
        let number = self.number_of(vl.0 as usize / PAGE)?;
        self.slots[slot_on(number, vl)]
    }
}
