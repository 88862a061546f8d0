//! What is kept of all keys, and what is to be told of them.

ghost use Rattle.std.specs.Prelude.{◌≡◌, ◌<◌, ◌≤◌, ◌*◌, ◌+◌, [], ℕ, List, length, Some, None, OnOk, IfOk, IfSome, IfNone};
ghost use Rattle.std.specs.Prelude.{IsSome, IsTrue, ◌↔◌, true, false};
ghost use Rattle.std.specs.List.{AllByRecursion};
ghost use Rattle.afdx_config.specs.Lawful.{IsLawfulSwitch};
ghost use Rattle.afdx_config.specs.Rows.{Rows};
ghost use Rattle.afdx_conform.specs.Streams.{Gone, Terms};
ghost use Rattle.afdx_police.specs.Arrival.{Arrival};
ghost use Rattle.afdx_command_conform.specs.Awaited.{Awaits, IsBefore, awaited};
ghost use Rattle.afdx_command_conform.specs.Choices.{Choices};
ghost use Rattle.afdx_command_conform.specs.Counting.{Counted, HasCounted, both_counted, stream_counted};
ghost use Rattle.afdx_command_conform.specs.Keys.{key_place};
ghost use Rattle.afdx_command_conform.specs.declared.slot.Slot.TheVariants as Slot;
ghost use Rattle.afdx_command_conform.specs.Keeping.{AreKept, Given, IsNothingDue, IsSomeUpTo, is_known, nothing_given, slot_at};
ghost use Rattle.afdx_command_conform.specs.Lines.{Due};
ghost use Rattle.afdx_command_conform.specs.Slots.{IsStrange, IsStream, StreamEnds, told_at};
ghost use Rattle.afdx_command_conform.specs.Taking.{AddsArrival, AddsFrame, AddsStranger, PutsStream};
ghost use Rattle.afdx_command_conform.specs.Taking.{TellsFirst};
ghost use Rattle.afdx_command_conform.specs.Waiting.{left_in, slot_due};

use crate::agenda::{Agenda, AgendaEntry};
use crate::key::Key;
use crate::slot::{Slot, add_arrival, add_frame, add_stranger, end_at, step};
use crate::strangers::{Stranger, Strangers};
use crate::totals::Totals;
use afdx_conform::{Arrived, LeftFrame, Spare, Stream};
use afdx_text::ConformLine;
use std::alloc::{AllocError, Global};

/// Lines that are due at one moment, in ns, and whose they are.
#[derive(Drop)]
pub(crate) struct Lines {
    pub(crate) moment: u64,
    pub(crate) key: Key,
    pub(crate) lines: Vec<ConformLine>,
}

/// What is kept of each key, at its place, and what is to be told of it.
#[derive(Drop)]
pub(crate) struct KeptByKey {
    slots: Vec<Slot>,
    agenda: Agenda,
}

/// So many slots of which nothing came.
fn new_slots(alloc: Global, count: usize) -> Result<Vec<Slot>, AllocError>
    ensures count { IfOk result (λ slots. length slots.items ≡ count) }
    ensures nothing { IfOk result (λ slots. (k : Key) → slot_at slots.items k ≡ Slot.Nothing) }
{
    let mut slots = Vec::with_capacity(alloc, count)?;
    for _ in 0..count {
        slots.push(Slot::Nothing)?;
    }
    Ok(slots)
}

/// Whether that is what is due there.
fn is_due(slots: &[Slot], entry: &AgendaEntry) -> bool
    ensures within { IsTrue result → key_place entry.now.key < length slots.now }
    ensures due { IsTrue result
        ↔ (slot_due (slot_at slots.now entry.now.key) ≡ Some entry.now.moment) }
{
    let place = entry.key.place();
    if place >= slots.len() {
        return false;
    }
    slots[place].due() == Some(entry.moment)
}

/// At this moment something is to be told of the key, if there is one.
fn await_due(agenda: &mut Agenda, due: Option<u64>, key: Key) -> Result<(), AllocError>
    ensures { OnOk result (Awaits due key agenda.old agenda.new) }
{
    match due {
        Some(moment) => agenda.push(moment, key),
        None => Ok(()),
    }
}

/// Whether a stream is kept there.
fn has_stream(slots: &[Slot], key: Key) -> bool
    ensures { IsTrue result ↔ IsStream (slot_at slots.now key) }
{
    let place = key.place();
    if place >= slots.len() {
        return false;
    }
    slots[place].is_stream()
}

impl KeptByKey {
    /// Nothing came, of so many places.
    pub(crate) fn new(alloc: Global, count: usize) -> Result<KeptByKey, AllocError>
        ensures { (t : Rows) (c : Choices) (until time : ℕ) → count ≡ 512 + 64 * length t.links →
            IfOk result (λ kept. AreKept t c until None time nothing_given [] kept) }
    {
        let slots = new_slots(alloc, count)?;
        Ok(KeptByKey {
            slots,
            agenda: Agenda::new(alloc),
        })
    }

    /// Whether a stream is kept of the key.
    pub(crate) fn has_stream(&self, key: Key) -> bool
        ensures { IsTrue result ↔ IsStream (slot_at self.now.slots.items key) }
    {
        has_stream(self.slots.as_slice(), key)
    }

    /// A stream of the key, of which nothing came, in the place of none.
    #[cold]
    #[inline(never)]
    pub(crate) fn put_stream(
        &mut self,
        alloc: Global,
        key: Key,
        stream: Stream,
    ) -> Result<(), AllocError>
        ensures { PutsStream (λ done. OnOk result done) self.old self.new key stream }
    {
        let place = key.place();
        if place < self.slots.len() {
            self.slots[place] = Slot::Stream(Box::new(alloc, stream)?, false);
        }
        Ok(())
    }

    /// An arrival comes to the stream of the key.
    pub(crate) fn add_arrival(&mut self, key: Key, arrived: Arrived) -> Result<(), AllocError>
        ensures { AddsArrival (λ done. OnOk result done) self.old self.new key arrived }
    {
        let place = key.place();
        if place >= self.slots.len() {
            return Ok(());
        }
        let due = add_arrival(&mut self.slots[place], arrived)?;
        await_due(&mut self.agenda, due, key)
    }

    /// A frame of the stream of the key left.
    pub(crate) fn add_frame(&mut self, key: Key, frame: LeftFrame) -> Result<(), AllocError>
        ensures { AddsFrame (λ done. OnOk result done) self.old self.new key frame }
    {
        let place = key.place();
        if place >= self.slots.len() {
            return Ok(());
        }
        let due = add_frame(&mut self.slots[place], frame)?;
        await_due(&mut self.agenda, due, key)
    }

    /// Whether frames of no stream are kept of the key.
    pub(crate) fn has_strangers(&self, key: Key) -> bool
        ensures { IsTrue result ↔ IsStrange (slot_at self.now.slots.items key) }
    {
        let place = key.place();
        if place >= self.slots.len() {
            return false;
        }
        self.slots[place].is_strange()
    }

    /// Room for frames of no stream of the key, in the place of none.
    pub(crate) fn put_strangers(&mut self, alloc: Global, key: Key) -> Result<(), AllocError>
        ensures { (t : Rows) (c : Choices) (until time : ℕ) (given : Key → Given)
            (lines : List Due) → IsLawfulSwitch t → key.link ≡ None → is_known t key ≡ true →
            (IsStrange (slot_at self.old.slots.items key) → ⊥) →
            AreKept t c until None time given lines self.old →
            OnOk result (AreKept t c until None time given lines self.new
            × IsStrange (slot_at self.new.slots.items key)) }
    {
        let place = key.place();
        if place < self.slots.len() {
            let strangers = Strangers::new(alloc);
            self.slots[place] = Slot::Strangers(Box::new(alloc, strangers)?);
        }
        Ok(())
    }

    /// A frame of no stream left.
    pub(crate) fn add_stranger(&mut self, key: Key, stranger: Stranger) -> Result<(), AllocError>
        ensures { AddsStranger (λ done. OnOk result done) self.old self.new key stranger }
    {
        let place = key.place();
        if place >= self.slots.len() {
            return Ok(());
        }
        let due = add_stranger(&mut self.slots[place], stranger)?;
        await_due(&mut self.agenda, due, key)
    }

    /// The lines of what is due, which stands on the agenda no more. It is over then.
    fn step(
        &mut self,
        alloc: Global,
        spare: &mut Spare,
        entry: &AgendaEntry,
        ended: Option<u64>,
    ) -> Result<Lines, AllocError>
        requires within { key_place entry.now.key < length self.old.slots.items }
        requires due { slot_due (slot_at self.old.slots.items entry.now.key)
            ≡ Some entry.now.moment }
        ensures told { TellsFirst (λ done. IfOk result done) self.old self.new entry.now ended }
        ensures less { OnOk result (left_in self.new.slots.items < left_in self.old.slots.items) }
        ensures of { IfOk result (λ l. awaited l.moment l.key ≡ entry.now) }
    {
        let (key, moment) = (entry.key, entry.moment);
        let place = key.place();
        let lines = step(&mut self.slots[place], alloc, spare, key, ended)?;
        let due = self.slots[place].due();
        await_due(&mut self.agenda, due, key)?;
        Ok(Lines { moment, key, lines })
    }

    /// The lines of what is to be told next, if its moment lies before that time, in ns; without a
    /// time whenever it is. `ended` is the time at which the recordings end, once it is known. What
    /// is forgotten then leaves its memory to `spare`.
    pub(crate) fn take_before(
        &mut self,
        alloc: Global,
        spare: &mut Spare,
        before: Option<u64>,
        ended: Option<u64>,
    ) -> Result<Option<Lines>, AllocError>
        ensures told { (t : Rows) (c : Choices) (until time : ℕ) (given : Key → Given)
            (lines : List Due) → IsLawfulSwitch t →
            (ended ≡ None → IsSomeUpTo time before) →
            AreKept t c until ended time given lines self.old →
            IfOk result (λ taken. IfSome taken (λ l. AreKept t c until ended time given
            (told_at l.key l.moment l.lines.items lines) self.new)) }
        ensures none { (t : Rows) (c : Choices) (until time : ℕ) (given : Key → Given)
            (lines : List Due) → AreKept t c until ended time given lines self.old →
            IfOk result (λ taken. IfNone taken (AreKept t c until ended time given lines self.new
            × IsNothingDue t before self.new)) }
        ensures less { IfOk result (λ lines. IsSome lines →
            left_in self.new.slots.items < left_in self.old.slots.items) }
        ensures in_time { IfOk result (λ taken. IfSome taken (λ l.
            IsBefore before (awaited l.moment l.key))) }
    {
        while let Some(entry) = self.agenda.take_before(before) {
            if is_due(self.slots.as_slice(), &entry) {
                let lines = self.step(alloc, spare, &entry, ended)?;
                return Ok(Some(lines));
            }
        }
        Ok(None)
    }

    /// The recordings end at this time, in ns.
    pub(crate) fn end(&mut self, until: u64)
        ensures { (t : Rows) (c : Choices) (time : ℕ) (given : Key → Given) (lines : List Due) →
            IsLawfulSwitch t → time ≤ until →
            ((k : Key) → AllByRecursion (λ x. x.time ≤ until) (given k).came) →
            AreKept t c until None time given lines self.old →
            AreKept t c until (Some until) time given lines self.new }
    {
        for place in 0..self.slots.len() {
            end_at(&mut self.slots[place], until);
        }
    }

    /// What is counted of the stream of the key.
    pub(crate) fn count(&self, key: Key, totals: &mut Totals)
        ensures findings { totals.new.findings ≡ totals.old.findings }
        ensures left_out { totals.new.left_out ≡ totals.old.left_out }
        ensures unseen { totals.new.unseen ≡ totals.old.unseen }
        ensures exercised { totals.new.is_exercised ≡ totals.old.is_exercised }
        ensures counted { (n : Counted) (z : Terms) (xs : List Arrival) (ys : List Gone)
            (lines : List Due) → slot_due (slot_at self.now.slots.items key) ≡ None →
            StreamEnds z key xs ys lines (slot_at self.now.slots.items key) →
            HasCounted n totals.old → HasCounted (both_counted n (stream_counted z xs ys))
            totals.new }
    {
        let place = key.place();
        if place < self.slots.len() {
            totals.add(&self.slots[place]);
        } else {
            totals.add(&Slot::Nothing);
        }
    }
}
