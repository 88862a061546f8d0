//! Where arrivals of a stream stand that have the bytes of a frame.

ghost use Rattle.std.specs.Prelude.{◌≡◌, ◌≤◌, ◌++◌, ◌∷◌, [], Bool, List, IfOk, OnErr, OnOk};
ghost use Rattle.std.specs.Prelude.{length};
ghost use Rattle.afdx_conform.specs.KnownBytes.{AreEach, AreKept, AreKnown, StandAt, may_fit};
ghost use Rattle.afdx_conform.specs.Naming.{AreSettled, NoneIsWanted};
ghost use Rattle.afdx_conform.specs.declared.gaps.Wanted.TheVariants.{ToName, Accepted};

use crate::arrived::Arrived;
use crate::by_bytes::ByBytes;
use crate::finding::Mark;
use crate::gaps::{Gaps, first_alike, next_gaps, unknown_all, unknown_gaps};
use crate::in_time::{comes_behind, count_early, go_by_time, in_time};
use crate::limits::{LeftFrame, Limits};
use std::alloc::{AllocError, Global};

/// Of fewer arrivals each is looked at.
const FEW_ARRIVALS: usize = 256;

/// Where the arrivals stand that are held, by their bytes, if `is_whole`: then they go by time.
/// Else they are few, don't, or weren't gathered yet. `gaps` are those of the bytes of each; they
/// are kept up where those bytes first stand.
#[derive(Drop)]
pub(crate) struct KnownBytes {
    alloc: Global,
    places: ByBytes,
    is_whole: bool,
    pub(crate) gaps: Vec<Gaps>,
}

/// Where arrivals are looked for that a frame may be of: `each` are the places that `known` gave.
/// Those from `from` on came after the arrival that is judged.
#[derive(Clone, Copy)]
pub(crate) struct Lookup<'a> {
    pub known: &'a KnownBytes,
    pub each: &'a [usize],
    pub from: usize,
}

/// Where each of these arrivals stands, by its bytes. Fails only out of memory.
fn places_of(alloc: Global, arrivals: &[Arrived]) -> Result<ByBytes, AllocError>
    ensures { IfOk result (λ places. AreKept places arrivals.now) }
{
    let mut places = ByBytes::new(alloc);
    for place in 0..arrivals.len() {
        places.add(&arrivals[place].bytes, place)?;
    }
    Ok(places)
}

/// The place of each of these arrivals. Fails only out of memory.
fn each_of(alloc: Global, arrivals: &[Arrived]) -> Result<Vec<usize>, AllocError>
    ensures { IfOk result (λ each. (test : Arrived → Bool) →
        StandAt test 0 arrivals.now each.items) }
{
    let mut each = Vec::with_capacity(alloc, arrivals.len())?;
    for place in 0..arrivals.len() {
        each.push(place)?;
    }
    Ok(each)
}

impl KnownBytes {
    /// It was told of none yet.
    pub(crate) fn new(alloc: Global) -> KnownBytes
        ensures known { (arrivals : List Arrived) → AreKnown result arrivals }
        ensures settled { (arrivals : List Arrived) (marks : List Mark) →
            AreSettled result.gaps.items arrivals marks }
    {
        KnownBytes {
            alloc,
            places: ByBytes::new(alloc),
            is_whole: false,
            gaps: Vec::new(alloc),
        }
    }

    /// It knows where each of these arrivals stands, if they are many and go by time. Fails only
    /// out of memory.
    pub(crate) fn gather(&mut self, arrivals: &[Arrived]) -> Result<(), AllocError>
        requires { AreKnown self.old arrivals.now }
        ensures known { AreKnown self.new arrivals.now }
        ensures settled { (marks : List Mark) → AreSettled self.old.gaps.items arrivals.now marks →
            AreSettled self.new.gaps.items arrivals.now marks }
    {
        if self.is_whole || arrivals.len() < FEW_ARRIVALS || !go_by_time(arrivals) {
            return Ok(());
        }
        let places = places_of(self.alloc, arrivals)?;
        let gaps = unknown_all(self.alloc, arrivals.len())?;
        self.places = places;
        self.gaps = gaps;
        self.is_whole = true;
        Ok(())
    }

    /// One more arrival comes behind these. Fails only out of memory.
    pub(crate) fn tell(&mut self, arrivals: &[Arrived], arrived: &Arrived) -> Result<(), AllocError>
        requires { AreKnown self.old arrivals.now }
        ensures told { OnOk result (AreKnown self.new (arrivals.now ++ arrived.now ∷ [])) }
        ensures refused { OnErr result (AreKnown self.new arrivals.now) }
        ensures settled { (marks : List Mark) → length marks ≤ length arrivals.now →
            AreSettled self.old.gaps.items arrivals.now marks →
            OnOk result (AreSettled self.new.gaps.items (arrivals.now ++ arrived.now ∷ []) marks) }
        ensures refused_settled { (marks : List Mark) →
            AreSettled self.old.gaps.items arrivals.now marks →
            OnErr result (AreSettled self.new.gaps.items arrivals.now marks) }
    {
        if !self.is_whole {
            return Ok(());
        }
        self.is_whole = false;
        if !comes_behind(arrivals, arrived) {
            return Ok(());
        }
        self.places.add(&arrived.bytes, arrivals.len())?;
        self.gaps.push(unknown_gaps())?;
        self.is_whole = true;
        Ok(())
    }

    /// The first arrivals are forgotten: those that are left stand at other places.
    pub(crate) fn forget(&mut self)
        ensures known { (arrivals : List Arrived) → AreKnown self.new arrivals }
        ensures settled { (arrivals : List Arrived) (marks : List Mark) →
            AreSettled self.new.gaps.items arrivals marks }
    {
        if !self.is_whole {
            self.gaps.truncate(0);
            return;
        }
        *self = KnownBytes::new(self.alloc);
    }

    /// What `places` wants: the place of each arrival, unless it knows those of some bytes. Fails
    /// only out of memory.
    pub(crate) fn each(&self, arrivals: &[Arrived]) -> Result<Vec<usize>, AllocError>
        ensures { IfOk result (λ each. AreEach self.now arrivals.now each.items) }
    {
        if self.is_whole {
            Ok(Vec::new(self.alloc))
        } else {
            each_of(self.alloc, arrivals)
        }
    }

    /// Where all arrivals stand that the frame may be of, by the bytes and times of both; others
    /// only where it knows no places, as `each` has them.
    pub(crate) fn places<'a>(
        &'a self,
        limits: &Limits,
        arrivals: &[Arrived],
        frame: &LeftFrame,
        each: &'a [usize],
    ) -> &'a [usize]
        requires known { AreKnown self.now arrivals.now }
        requires each { AreEach self.now arrivals.now each.now }
        ensures { StandAt (may_fit limits.now frame.now) 0 arrivals.now result.now }
    {
        if self.is_whole {
            let alike = self.places.at(&frame.bytes);
            in_time(limits, arrivals, alike, frame)
        } else {
            each
        }
    }

    /// Behind which of the first arrivals those are that are wanted and that the frame may be of.
    /// The gaps of its bytes are kept from there on.
    pub(crate) fn settle(
        &mut self,
        limits: &Limits,
        arrivals: &[Arrived],
        marks: &[Mark],
        frame: &LeftFrame,
    ) -> Gaps
        requires marks { length marks.now ≤ length arrivals.now }
        requires known { AreKnown self.old arrivals.now }
        requires settled { AreSettled self.old.gaps.items arrivals.now marks.now }
        ensures same { self.new ≡ record self.old { gaps = self.new.gaps } }
        ensures settled { AreSettled self.new.gaps.items arrivals.now marks.now }
        ensures to_name { NoneIsWanted ToName limits.now frame.now result.to_name.to arrivals.now
            marks.now }
        ensures accepted { NoneIsWanted Accepted limits.now frame.now result.accepted.to
            arrivals.now marks.now }
    {
        if !self.is_whole {
            return unknown_gaps();
        }
        let alike = self.places.at(&frame.bytes);
        let Some(first) = first_alike(arrivals, alike, frame) else {
            return unknown_gaps();
        };
        if first >= self.gaps.len() {
            return unknown_gaps();
        }
        let early = count_early(limits, arrivals, frame);
        let before = self.gaps[first];
        let gaps = next_gaps(before, early, marks, alike);
        self.gaps[first] = gaps;
        gaps
    }
}
