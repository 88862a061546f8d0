//! Frames of the senders that wait no longer, and what is told next.

ghost use Rattle.std.specs.Prelude.{◌≡◌, ◌<◌, ◌≤◌, ◌∷◌, All, Some, ℕ, length, slice_get, true};
ghost use Rattle.std.specs.Prelude.{IfNone, IfOk, IfSome, IsSome, List, OnOk};
ghost use Rattle.std.specs.List.Sorted.{IsPermutation};
ghost use Rattle.afdx_config.specs.Rows.{LinkRow};
ghost use Rattle.afdx_law_bounds.specs.Tables.{port_of as port_at};
ghost use Rattle.afdx_lawful.specs.Courses.{IsKnownBy, next_told};
ghost use Rattle.afdx_lawful.specs.Partners.{Waiting};
ghost use Rattle.afdx_senders.specs.Counting.{held_in_all, lines_left};
ghost use Rattle.afdx_senders.specs.Followed.{ByPlace, Followed, put_at, told_next};
ghost use Rattle.afdx_senders.specs.Lines.{AddsLines, lines_single, single_line};
ghost use Rattle.afdx_senders.specs.Order.{AreInType, AreNotBefore, IsBefore, rank_of};
ghost use Rattle.afdx_senders.specs.Settling.{AreSources, IsEnd, Settled, Step, lines_told};
ghost use Rattle.afdx_senders.specs.Standing.{IsDue, IsNothingDue, SendersStand, SendersStandBut};

use crate::agenda::is_moment;
use crate::found_lines::FoundLines;
use crate::sender_line::{SenderLine, ToldOf};
use crate::senders::Senders;
use afdx_lawful::UnpairedFrame;
use std::alloc::AllocError;

/// What is found of a frame that waited in vain is to be told, if anything is. Its source's system
/// stands at this port.
fn put_single(found: &mut FoundLines, port: u8, told: UnpairedFrame) -> Result<(), AllocError>
    ensures { OnOk result (AddsLines
        (single_line port told.line told.side told.moment told.is_cut) found.old found.new) }
{
    if told.is_cut {
        return Ok(());
    }
    found.push(SenderLine {
        moment: told.moment,
        side: told.side,
        port,
        line: told.line,
        told: ToldOf::Single,
    })
}

impl Senders<'_> {
    /// The place of the next source of which a frame waits no longer, if that moment lies before
    /// that time, in ns; without a time whenever it is. It has to be told then (`tell`).
    fn take_due(&mut self, before: Option<u64>) -> Option<usize>
        ensures due { (at : ByPlace) → SendersStand at self.old → IfSome result (λ place.
            IsDue before at place × SendersStandBut place at self.new) }
        ensures none { (at : ByPlace) → SendersStand at self.old →
            IfNone result (SendersStand at self.new × IsNothingDue before at) }
        ensures found { self.new.found ≡ self.old.found }
        ensures kept { self.new.kept ≡ self.old.kept }
        ensures sites { self.new.sites ≡ self.old.sites }
    {
        while let Some(entry) = self.agenda.take_before(before) {
            if is_moment(self.kept.due(entry.place), entry.moment) {
                return Some(entry.place);
            }
        }
        None
    }

    /// The next line that is to be told, if its moment lies before that time, in ns; without a time
    /// whenever it is. All that is due before has to be told first (`take_due`).
    pub(crate) fn take_line(&mut self, before: Option<u64>) -> Option<SenderLine>
        ensures first { IfSome result (λ x. All (λ y. rank_of x ≤ rank_of y) self.new.found) }
        ensures in_time { IfSome result (IsBefore before) }
        ensures numbers { IfSome result AreInType }
        ensures rest { IfSome result (λ x. IsPermutation self.old.found (x ∷ self.new.found)) }
        ensures less { IsSome result → lines_left self.new < lines_left self.old }
        ensures none { IfNone result (AreNotBefore before self.old.found) }
        ensures same { IfNone result (self.new ≡ self.old) }
        ensures stands { (at : ByPlace) → SendersStand at self.old → SendersStand at self.new }
        ensures sites { self.new.sites ≡ self.old.sites }
        ensures room { length self.new.kept.slots.items ≡ length self.old.kept.slots.items }
    {
        self.found.take_before(before)
    }

    /// The next frame of the source at this place that waits for its copy waits no longer, if there
    /// is one: whether one waited. `end` is the time in ns at which the recordings end, once it is
    /// known; before, they must not end sooner than the moment of what is told. The error says that
    /// memory was refused.
    fn tell(&mut self, place: usize, end: Option<u64>) -> Result<bool, AllocError>
        ensures stands { (at : ByPlace) (f : Followed) (y : Waiting) → at place ≡ Some f →
            next_told f.source f.course ≡ Some y → IsKnownBy f.source end y →
            SendersStandBut place at self.old →
            OnOk result (SendersStand (put_at place (told_next f y) at) self.new) }
        ensures found { (at : ByPlace) (f : Followed) (y : Waiting) (l : LinkRow) →
            slice_get self.old.sites.tables.now.links place ≡ Some l → at place ≡ Some f →
            next_told f.source f.course ≡ Some y → IsKnownBy f.source end y →
            SendersStandBut place at self.old → OnOk result (AddsLines
            (lines_single (port_at self.old.sites.tables.now l.from) f y)
            self.old.found self.new.found) }
        ensures waited { (at : ByPlace) (f : Followed) (y : Waiting) → at place ≡ Some f →
            next_told f.source f.course ≡ Some y → SendersStandBut place at self.old →
            IfOk result (λ waited. waited ≡ true) }
        ensures less { IfOk result (λ waited. waited ≡ true →
            held_in_all self.new.kept < held_in_all self.old.kept) }
        ensures left { IfOk result (λ waited. waited ≡ true →
            lines_left self.new ≤ lines_left self.old) }
        ensures sites { self.new.sites ≡ self.old.sites }
        ensures room { length self.new.kept.slots.items ≡ length self.old.kept.slots.items }
    {
        let port = self.sites.port_of(place);
        let Some(told) = self.kept.tell(place, end) else {
            return Ok(false);
        };
        put_single(&mut self.found, port, told)?;
        let after = self.kept.due(place);
        self.agenda.put_due(place, None, after)?;
        Ok(true)
    }

    /// All frames wait no longer whose moment lies before that time, in ns; without a time all that
    /// wait. `end` is the time in ns at which the recordings end, once it is known; before, they
    /// must not end sooner than `before`. The error says that memory was refused.
    pub(crate) fn settle(&mut self, before: Option<u64>, end: Option<u64>) -> Result<(), AllocError>
        ensures settled { let t = self.old.sites.tables.now in (at : ByPlace) (until : ℕ) →
            SendersStand at self.old → AreSources t until at → IsEnd end before until →
            OnOk result ((steps : List Step) × Settled t before at steps self.new
            × AddsLines (lines_told t steps) self.old.found self.new.found) }
        ensures left { (at : ByPlace) (until : ℕ) → SendersStand at self.old →
            AreSources self.old.sites.tables.now until at → IsEnd end before until →
            OnOk result (lines_left self.new ≤ lines_left self.old) }
        ensures sites { self.new.sites ≡ self.old.sites }
        ensures room { length self.new.kept.slots.items ≡ length self.old.kept.slots.items }
    {
        while let Some(place) = self.take_due(before) {
            let waited = self.tell(place, end)?;
            if !waited {
                return Ok(());
            }
        }
        Ok(())
    }
}
