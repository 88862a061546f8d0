//! The sources that are followed, by their links' places.

ghost use Rattle.std.specs.Prelude.{◌≡◌, ◌<◌, Option, length, None, Some};
ghost use Rattle.std.specs.Prelude.{IfNone, IfOk, IfSome, OnErr, OnOk, is_some};
ghost use Rattle.afdx_lawful.specs.Courses.{AllTold, IsKnownBy, next_told};
ghost use Rattle.afdx_lawful.specs.Judged.{found_of};
ghost use Rattle.afdx_lawful.specs.Partners.{Waiting};
ghost use Rattle.afdx_lawful.specs.Tallies.{counted};
ghost use Rattle.afdx_lawful.specs.Unpaired.{IsToldOf};
ghost use Rattle.afdx_senders.specs.Counting.{AreOver, IsOver, cut_below, cut_of, held_at};
ghost use Rattle.afdx_senders.specs.Counting.{held_in_all, sent_below, sent_of};
ghost use Rattle.afdx_senders.specs.Followed.{AreFollowed, ByPlace, Followed, IsFound, MayCome};
ghost use Rattle.afdx_senders.specs.Followed.{came_next, came_of, due_at, nothing_followed, put_at};
ghost use Rattle.afdx_senders.specs.Followed.{StandsAt, told_next};

use crate::site_frame::SiteFrame;
use afdx_conform::Spare;
use afdx_lawful::{HeardFrame, JudgedSource, SourceCounts, UnpairedFrame};
use std::alloc::{AllocError, Global};

/// A frame comes to a source, if it is one: what is found of it. Fails only out of memory; then
/// nothing has changed.
fn came_to(
    slot: &mut Option<JudgedSource>,
    spare: &mut Spare,
    x: &SiteFrame<'_>,
) -> Result<Option<HeardFrame>, AllocError>
    ensures found { (f : Followed) → MayCome f x.now.time → StandsAt (Some f) slot.old →
        IfOk result (IsFound x.now.line (found_of f.source f.course.came (came_of x.now))) }
    ensures stands { (f : Followed) → MayCome f x.now.time → StandsAt (Some f) slot.old →
        OnOk result (StandsAt (Some (came_next f x.now)) slot.new) }
    ensures refused { (f : Followed) → StandsAt (Some f) slot.old →
        OnErr result (StandsAt (Some f) slot.new) }
    ensures none { slot.old ≡ None → slot.new ≡ None }
    ensures silent { slot.old ≡ None → IfOk result (λ heard. heard ≡ None) }
{
    match slot {
        Some(source) => {
            let heard = source.came(spare, x.side, x.line, x.time, x.frame)?;
            Ok(Some(heard))
        }
        None => Ok(None),
    }
}

/// The next frame of a source that waits for its copy waits no longer, if it is a source and one
/// waits.
fn tell_of(slot: &mut Option<JudgedSource>, end: Option<u64>) -> Option<UnpairedFrame>
    ensures none { (f : Followed) → StandsAt (Some f) slot.old →
        IfNone result (AllTold f.source f.course × StandsAt (Some f) slot.new) }
    ensures told { (f : Followed) → StandsAt (Some f) slot.old → IfSome result (λ told.
        (y : Waiting) × (next_told f.source f.course ≡ Some y) × (IsKnownBy f.source end y →
        IsToldOf f.source f.course y told × StandsAt (Some (told_next f y)) slot.new)) }
    ensures empty { slot.old ≡ None → (result ≡ None) × (slot.new ≡ None) }
    ensures less { IfSome result (λ told. held_at slot.new < held_at slot.old) }
{
    match slot {
        Some(source) => source.tell(end),
        None => None,
    }
}

/// What is counted of a source, if it is one.
fn counts_of(slot: &Option<JudgedSource>) -> SourceCounts
    ensures sent { (o : Option Followed) → StandsAt o slot.now → IsOver o →
        result.sent ≡ sent_of o }
    ensures cut { (o : Option Followed) → StandsAt o slot.now → IsOver o → result.cut ≡ cut_of o }
{
    match slot {
        Some(source) => source.counts(),
        None => SourceCounts { sent: 0, cut: 0 },
    }
}

/// The sources that are followed, each at its link's place.
#[derive(Debug, Drop)]
pub struct FollowedSources {
    slots: Vec<Option<JudgedSource>>,
}

impl FollowedSources {
    /// Room for those of so many links; none is followed.
    pub fn new(alloc: Global, count: usize) -> Result<FollowedSources, AllocError>
        ensures none { IfOk result (λ kept. AreFollowed nothing_followed kept) }
        ensures room { IfOk result (λ kept. length kept.slots.items ≡ count) }
    {
        let mut slots = Vec::with_capacity(alloc, count)?;
        for _ in 0..count {
            slots.push(None)?;
        }
        Ok(FollowedSources { slots })
    }

    /// From now on this source is followed, at its link's place.
    pub fn put(&mut self, place: usize, source: JudgedSource)
        requires within { place < length self.old.slots.items }
        ensures follows { (at : ByPlace) (f : Followed) → StandsAt (Some f) (Some source) →
            AreFollowed at self.old → AreFollowed (put_at place f at) self.new }
        ensures room { length self.new.slots.items ≡ length self.old.slots.items }
    {
        self.slots[place] = Some(source);
    }

    /// A frame comes to the source at this place, if one is followed there: what is found of it.
    /// Fails only out of memory; then nothing has changed.
    pub fn came(
        &mut self,
        place: usize,
        spare: &mut Spare,
        x: &SiteFrame<'_>,
    ) -> Result<Option<HeardFrame>, AllocError>
        ensures found { (at : ByPlace) (f : Followed) → at place ≡ Some f → MayCome f x.now.time →
            AreFollowed at self.old → IfOk result
            (IsFound x.now.line (found_of f.source f.course.came (came_of x.now))) }
        ensures stands { (at : ByPlace) (f : Followed) → at place ≡ Some f →
            MayCome f x.now.time → AreFollowed at self.old →
            OnOk result (AreFollowed (put_at place (came_next f x.now) at) self.new) }
        ensures refused { (at : ByPlace) (f : Followed) → at place ≡ Some f →
            AreFollowed at self.old → OnErr result (AreFollowed at self.new) }
        ensures none { (at : ByPlace) → at place ≡ None → AreFollowed at self.old →
            AreFollowed at self.new }
        ensures silent { (at : ByPlace) → at place ≡ None → AreFollowed at self.old →
            IfOk result (λ heard. heard ≡ None) }
        ensures room { length self.new.slots.items ≡ length self.old.slots.items }
    {
        if place >= self.slots.len() {
            return Ok(None);
        }
        came_to(&mut self.slots[place], spare, x)
    }

    /// What is counted of all sources once none of their frames waits, of fewer than 2^64 frames
    /// each. Neither number goes beyond the greatest one.
    pub fn counts(&self) -> SourceCounts
        ensures sent { (at : ByPlace) → AreFollowed at self.now → AreOver at →
            result.sent ≡ counted (sent_below at (length self.now.slots.items)) }
        ensures cut { (at : ByPlace) → AreFollowed at self.now → AreOver at →
            result.cut ≡ counted (cut_below at (length self.now.slots.items)) }
    {
        let mut counts = SourceCounts { sent: 0, cut: 0 };
        for place in 0..self.slots.len() {
            let own = counts_of(&self.slots[place]);
            counts.sent = counts.sent.saturating_add(own.sent);
            counts.cut = counts.cut.saturating_add(own.cut);
        }
        counts
    }

    /// Whether a source is followed at this place.
    pub fn has(&self, place: usize) -> bool
        ensures { (at : ByPlace) → AreFollowed at self.now → result ≡ is_some (at place) }
    {
        if place >= self.slots.len() {
            return false;
        }
        match &self.slots[place] {
            Some(_) => true,
            None => false,
        }
    }

    /// The moment in ns at which the next frame of the source at this place is told that waits for
    /// its copy; None: none waits, or no source is followed there.
    pub fn due(&self, place: usize) -> Option<u64>
        ensures { (at : ByPlace) → AreFollowed at self.now → result ≡ due_at (at place) }
    {
        if place >= self.slots.len() {
            return None;
        }
        match &self.slots[place] {
            Some(source) => source.due(),
            None => None,
        }
    }

    /// The next frame of the source at this place that waits for its copy waits no longer, if there
    /// is one. `end` is the time in ns at which the recordings end, once it is known; before, they
    /// must not end sooner than the moment of what is told.
    pub fn tell(&mut self, place: usize, end: Option<u64>) -> Option<UnpairedFrame>
        ensures none { (at : ByPlace) (f : Followed) → at place ≡ Some f →
            AreFollowed at self.old →
            IfNone result (AllTold f.source f.course × AreFollowed at self.new) }
        ensures told { (at : ByPlace) (f : Followed) → at place ≡ Some f →
            AreFollowed at self.old → IfSome result (λ told. (y : Waiting)
            × (next_told f.source f.course ≡ Some y) × (IsKnownBy f.source end y →
            IsToldOf f.source f.course y told
            × AreFollowed (put_at place (told_next f y) at) self.new)) }
        ensures empty { (at : ByPlace) → at place ≡ None → AreFollowed at self.old →
            (result ≡ None) × AreFollowed at self.new }
        ensures less { IfSome result (λ told. held_in_all self.new < held_in_all self.old) }
        ensures room { length self.new.slots.items ≡ length self.old.slots.items }
    {
        if place >= self.slots.len() {
            return None;
        }
        tell_of(&mut self.slots[place], end)
    }
}
