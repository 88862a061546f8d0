//! A source that is judged while its frames come.

ghost use Rattle.std.specs.Prelude.{◌≡◌, ◌≤◌, ◌<◌, ◌+◌, ◌^◌, ℕ, length, option_map};
ghost use Rattle.std.specs.Prelude.{IfNone, IfOk, IfSome, OnErr, OnOk, None, Some};
ghost use Rattle.afdx_frame.specs.Parts.{bytes_of};
ghost use Rattle.afdx_frame.specs.Times.{latest_listed};
ghost use Rattle.afdx_frame.specs.declared.link.Side.TheVariants.{A, B};
ghost use Rattle.afdx_lawful.specs.Courses.{AllTold, Course, IsKnownBy, NotBefore, at_first};
ghost use Rattle.afdx_lawful.specs.Courses.{came_too, next_told, told_at, told_too};
ghost use Rattle.afdx_lawful.specs.Judged.{found_of};
ghost use Rattle.afdx_lawful.specs.OneSide.{HasToWait, told_heard};
ghost use Rattle.afdx_lawful.specs.Partners.{Waiting};
ghost use Rattle.afdx_lawful.specs.Senders.{IsOf, StandsFor, held_in, recent_on};
ghost use Rattle.afdx_lawful.specs.Sources.{Source as Terms, came_with};
ghost use Rattle.afdx_lawful.specs.Tallies.{TellsAll};
ghost use Rattle.afdx_lawful.specs.Unpaired.{IsToldOf};

use crate::flaws::{Looked, look};
use crate::heard::HeardFrame;
use crate::limits::SenderLimits;
use crate::sides::BothSides;
use crate::tally::{SourceCounts, SourceTally};
use crate::unpaired::UnpairedFrame;
use crate::ways::{Apart, SourceTerms};
use crate::whole::Whole;
use afdx_conform::{Leeway, Spare};
use afdx_frame::{Checked, Side};
use afdx_police::LinkRule;
use std::alloc::{AllocError, Global};

/// A link, and the system that sends it on both networks, judged while its frames come.
///
/// Each frame is told of when it comes. One whose copy doesn't come within the hold, the greatest
/// skew by a recorder's clock and stamps, is told of once more, at the moment when the hold is over
/// (`due`). Before a frame comes, all of earlier moments have to be told. Of each side are kept the
/// frames of the last hold that wait, a level, and of each number when it came last.
#[derive(Debug, Drop)]
pub struct JudgedSource {
    rule: LinkRule,
    system: u16,
    terms: SourceTerms,
    sides: BothSides,
    tally: SourceTally,
}

impl JudgedSource {
    /// Nothing came yet of a link of this rule from this system, where stamps and clocks may be off
    /// so much, copies are sent so far apart, and both networks are seen, or one. If the leeway has
    /// a start, in ns, frames may have been sent before.
    pub fn new(
        alloc: Global,
        rule: &LinkRule,
        system: u16,
        by: &Leeway,
        apart: Apart,
        is_paired: bool,
    ) -> JudgedSource
        ensures { (s : Terms) → IsOf s rule.now system by.now apart is_paired →
            StandsFor s at_first result }
    {
        let is_begun = by.start.is_some();
        JudgedSource {
            rule: *rule,
            system,
            terms: SourceTerms {
                limits: SenderLimits::new(rule, by),
                apart,
                start: by.start,
                is_paired,
            },
            sides: BothSides::new(alloc, is_begun),
            tally: SourceTally::new(),
        }
    }

    /// A frame comes on a side, of this line and at this time, in ns, no earlier than any before it
    /// nor than what was told: what is found of it by those before it. Fails only out of memory,
    /// and only where the frame has to wait for its copy; then nothing has changed.
    pub fn came(
        &mut self,
        spare: &mut Spare,
        side: Side,
        line: u64,
        time: u64,
        frame: Checked<'_>,
    ) -> Result<HeardFrame, AllocError>
        requires listed { time ≤ latest_listed }
        ensures found { (s : Terms) (c : Course) → c.reached ≤ time →
            NotBefore s time (next_told s c) → StandsFor s c self.old →
            IfOk result (λ heard. told_heard line heard
            ≡ found_of s c.came (came_with line time side (bytes_of frame.entry))) }
        ensures stands { (s : Terms) (c : Course) → c.reached ≤ time →
            NotBefore s time (next_told s c) → StandsFor s c self.old → OnOk result (StandsFor s
            (came_too c (came_with line time side (bytes_of frame.entry))) self.new) }
        ensures refused { (s : Terms) (c : Course) → StandsFor s c self.old →
            OnErr result (StandsFor s c self.new) }
        ensures waits { (s : Terms) (c : Course) → c.reached ≤ time →
            NotBefore s time (next_told s c) → StandsFor s c self.old → OnErr result
            (HasToWait s c.came (came_with line time side (bytes_of frame.entry))) }
    {
        let Looked { flaw, number } = look(&self.rule, self.system, side, frame);
        let Some(number) = number else {
            let heard = HeardFrame::damaged(flaw);
            self.tally.come(heard.is_quiet());
            return Ok(heard);
        };
        let whole = Whole {
            line,
            time,
            frame,
            number,
        };
        let heard = self.sides.hear(&self.terms, side, whole, flaw, spare)?;
        self.tally.come(heard.is_quiet());
        Ok(heard)
    }

    /// The moment in ns at which the next frame that waits for its copy is told; None: none waits.
    pub fn due(&self) -> Option<u64>
        ensures { (s : Terms) (c : Course) → StandsFor s c self.now →
            result ≡ option_map (told_at s) (next_told s c) }
    {
        match self.sides.next() {
            Some((_, time)) => Some(time + self.terms.limits.hold),
            None => None,
        }
    }

    /// The next frame that waits for its copy waits no longer, if there is one: of both sides the
    /// oldest, that of A at one time. `end` is the time in ns at which the recordings end, once it
    /// is known; before, they must not end sooner than the moment of what is told.
    pub fn tell(&mut self, end: Option<u64>) -> Option<UnpairedFrame>
        ensures none { (s : Terms) (c : Course) → StandsFor s c self.old →
            IfNone result (AllTold s c × StandsFor s c self.new) }
        ensures told { (s : Terms) (c : Course) → StandsFor s c self.old → IfSome result (λ told.
            (y : Waiting) × (next_told s c ≡ Some y)
            × (IsKnownBy s end y → IsToldOf s c y told × StandsFor s (told_too s c y) self.new)) }
        ensures less { IfSome result (λ told. held_in self.new < held_in self.old) }
    {
        match self.sides.next() {
            Some((side, _)) => self.sides.tell(&self.terms, side, end, &mut self.tally),
            None => None,
        }
    }

    /// What is counted of it once none waits, of fewer than 2^64 frames.
    pub fn counts(&self) -> SourceCounts
        ensures { (s : Terms) (c : Course) → StandsFor s c self.now → AllTold s c →
            length c.came < 2 ^ 64 → TellsAll s c result }
    {
        self.tally.counts()
    }

    /// How many frames it holds: while none of an earlier moment is due, no more than came within
    /// the hold before it.
    pub fn held(&self) -> usize
        ensures held { result ≡ held_in self.now }
        ensures recent { (s : Terms) (c : Course) (time : ℕ) → StandsFor s c self.now →
            NotBefore s time (next_told s c) →
            result ≤ recent_on s c time A + recent_on s c time B }
    {
        self.sides.held()
    }
}
