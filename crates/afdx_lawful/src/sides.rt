//! The frames of a source on both networks.

ghost use Rattle.std.specs.Prelude.{◌≡◌, ◌≤◌, ◌<◌, ◌+◌, List, [], ◌∷◌, if◌then◌else◌, option_map};
ghost use Rattle.std.specs.Prelude.{IfNone, IfOk, IfSome, MatchOption, None, OnErr, OnOk, Some};
ghost use Rattle.afdx_frame.specs.Times.{latest_listed};
ghost use Rattle.afdx_frame.specs.declared.link.Side.{Side};
ghost use Rattle.afdx_lawful.specs.Accepted.{ComeUpTo};
ghost use Rattle.afdx_lawful.specs.Alone.{first_number};
ghost use Rattle.afdx_lawful.specs.Courses.{Course, IsKnownBy, at_first, oldest, waited_on};
ghost use Rattle.afdx_lawful.specs.Flaws.{flaw_of};
ghost use Rattle.afdx_lawful.specs.Judged.{found_of};
ghost use Rattle.afdx_lawful.specs.OneSide.{HasToWait, IsCame, told_heard};
ghost use Rattle.afdx_lawful.specs.Partners.{Waiting};
ghost use Rattle.afdx_lawful.specs.Sides.{AreNext, StandBoth, held_by, next_in, ring_on};
ghost use Rattle.afdx_lawful.specs.Sources.{Came, Source as Terms};
ghost use Rattle.afdx_lawful.specs.Tallies.{IsTally};
ghost use Rattle.afdx_lawful.specs.Unpaired.{IsToldBy};
ghost use Rattle.afdx_lawful.specs.Ways.{AreTerms};

use crate::finding::Flaw;
use crate::heard::HeardFrame;
use crate::one_side::{OneSide, hear};
use crate::tally::SourceTally;
use crate::unpaired::{UnpairedFrame, tell_oldest};
use crate::ways::SourceTerms;
use crate::whole::Whole;
use afdx_conform::Spare;
use afdx_frame::Side;
use std::alloc::{AllocError, Global};

/// The frames of both sides.
#[derive(Debug, Drop)]
pub(crate) struct BothSides {
    a: OneSide,
    b: OneSide,
}

impl BothSides {
    /// Nothing came yet; the first number is 0, unless frames came before the recordings.
    pub fn new(alloc: Global, is_begun: bool) -> BothSides
        ensures { (s : Terms) → first_number s s.by.start ≡ (if is_begun then None else Some 0) →
            StandBoth s [] (waited_on at_first) result }
    {
        BothSides {
            a: OneSide::new(alloc, is_begun),
            b: OneSide::new(alloc, is_begun),
        }
    }

    /// One more frame comes, which isn't damaged: what is found of it. Fails only out of memory,
    /// and only where the frame has to wait; then nothing has changed.
    pub fn hear(
        &mut self,
        terms: &SourceTerms,
        side: Side,
        whole: Whole<'_>,
        flaw: Option<Flaw>,
        spare: &mut Spare,
    ) -> Result<HeardFrame, AllocError>
        ensures found { (s : Terms) (past : List Came) (gone : Side → List Waiting) (x : Came) →
            AreTerms s terms.now → IsCame side whole.entry x → flaw ≡ flaw_of s x →
            AreNext s x gone self.old → StandBoth s past gone self.old →
            IfOk result (λ heard. told_heard whole.entry.line heard ≡ found_of s past x) }
        ensures stand { (s : Terms) (past : List Came) (gone : Side → List Waiting) (x : Came) →
            AreTerms s terms.now → IsCame side whole.entry x → flaw ≡ flaw_of s x →
            AreNext s x gone self.old → ComeUpTo x.time past → StandBoth s past gone self.old →
            OnOk result (StandBoth s (x ∷ past) gone self.new) }
        ensures refused { (s : Terms) (past : List Came) (gone : Side → List Waiting) →
            StandBoth s past gone self.old → OnErr result (StandBoth s past gone self.new) }
        ensures waits { (s : Terms) (past : List Came) (gone : Side → List Waiting) (x : Came) →
            AreTerms s terms.now → IsCame side whole.entry x → AreNext s x gone self.old →
            StandBoth s past gone self.old → OnErr result (HasToWait s past x) }
    {
        match side {
            Side::A => hear(&mut self.a, &mut self.b, terms, whole, flaw, spare),
            Side::B => hear(&mut self.b, &mut self.a, terms, whole, flaw, spare),
        }
    }

    /// Where and when, in ns, the oldest frame that waits came, that of A at one time.
    pub fn next(&self) -> Option<(Side, u64)>
        ensures next { result ≡ option_map (λ y. (y.frame.side, y.frame.time)) (next_in self.now) }
        ensures listed { IfSome result (λ next. next.1 ≤ latest_listed) }
    {
        let Some(a) = self.a.oldest() else {
            return match self.b.oldest() {
                Some(b) => Some((Side::B, b)),
                None => None,
            };
        };
        match self.b.oldest() {
            Some(b) => {
                if b < a {
                    Some((Side::B, b))
                } else {
                    Some((Side::A, a))
                }
            }
            None => Some((Side::A, a)),
        }
    }

    /// The oldest frame of a side that waits is told, if there is one.
    pub fn tell(
        &mut self,
        terms: &SourceTerms,
        side: Side,
        end: Option<u64>,
        tally: &mut SourceTally,
    ) -> Option<UnpairedFrame>
        ensures none { IfNone result ((oldest (ring_on side self.old) ≡ None)
            × (self.new ≡ self.old) × (tally.new ≡ tally.old)) }
        ensures less { IfSome result (λ told. held_by self.new + 1 ≡ held_by self.old) }
        ensures told { (s : Terms) (c : Course) → AreTerms s terms.now →
            StandBoth s c.came (waited_on c) self.old → IsTally s c tally.old →
            IfSome result (λ told. (y : Waiting) × (oldest (ring_on side self.old) ≡ Some y)
            × (IsKnownBy s end y → IsToldBy s c y self.new tally.new told)) }
    {
        match side {
            Side::A => tell_oldest(&mut self.a, &self.b, terms, Side::A, end, tally),
            Side::B => tell_oldest(&mut self.b, &self.a, terms, Side::B, end, tally),
        }
    }

    /// How many frames wait.
    pub fn held(&self) -> usize
        ensures { result ≡ held_by self.now }
    {
        self.a.held() + self.b.held()
    }
}
