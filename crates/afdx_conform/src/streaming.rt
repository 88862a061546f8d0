//! One stream, judged while its arrivals and frames come.

ghost use Rattle.std.specs.Prelude.{◌≡◌};
ghost use Rattle.std.proofs.Props.{props};
ghost use Rattle.afdx_conform.specs.Growing.{IsSound, due_by};

use crate::arrived::Arrived;
use crate::bounds::Bounds;
use crate::counts::Counts;
use crate::finding::Finding;
use crate::growth::Growth;
use crate::leeway::Leeway;
use crate::levels::Rates;
use crate::limits::{LeftFrame, Limits};
use crate::spare::Spare;
use afdx_police::LinkRule;
use std::alloc::{AllocError, Global};

/// One stream: a link, on one side, at one port where it leaves. It is judged while its arrivals
/// and frames come, each of them in order of time, and lets go of what is decided.
///
/// What is found at an event has a moment: the event's time, two latencies and twice the reach of
/// two stamps later. An event may be decided once all lines of times before its moment, and of none
/// behind it, have come: what comes later, and when the recordings end, then changes nothing of it.
/// With the event of an arrival the closing of a frame behind it may be over too, where nothing is
/// found there.
#[derive(Drop)]
pub struct Stream {
    growth: Growth,
    /// The moment of the next event.
    due: Option<u64>,
    ghost sound: { IsSound growth } by { Prim.hlevel props },
    ghost next: { due ≡ due_by growth },
}

impl Stream {
    ghost use Rattle.std.specs.Prelude.{◌≡◌, ◌≤◌, ◌<◌, ◌*◌, ◌++◌, ◌∷◌, [], ℕ, List};
    ghost use Rattle.std.specs.Prelude.{Some, None, OnOk, OnErr, IfOk, ◌⊎◌};
    ghost use Rattle.std.specs.List.{AllByRecursion};
    ghost use Rattle.afdx_frame.specs.Regulation.{greatest_delay, slowest_byte};
    ghost use Rattle.afdx_police.specs.Arrival.{Arrival};
    ghost use Rattle.afdx_police.specs.RuleOf.{rule_of};
    ghost use Rattle.afdx_conform.specs.Findings.{Judged};
    ghost use Rattle.afdx_conform.specs.Growing.{IsDueLater, IsNoSooner, IsSameOrLater};
    ghost use Rattle.afdx_conform.specs.Growing.{MayCome, MayLeave};
    ghost use Rattle.afdx_conform.specs.Histories.{counts_of, judged_of, nothing_judged, shown};
    ghost use Rattle.afdx_conform.specs.Histories.{unsure_in};
    ghost use Rattle.afdx_conform.specs.LeewayOf.{leeway_of};
    ghost use Rattle.afdx_conform.specs.Limits.{gone_of};
    ghost use Rattle.afdx_conform.specs.Marks.{IsJudged, arrival_of};
    ghost use Rattle.afdx_conform.specs.Standing.{Finds, IsEnding, StandsFor, due_of, held_in};
    ghost use Rattle.afdx_conform.specs.Standing.{in_window, undecided_in};
    ghost use Rattle.afdx_conform.specs.Streams.{Gone, Terms};

    /// A stream of which nothing came, of a link of this rule and latency, at a port on whose line
    /// a byte lasts so long, both in ns.
    pub fn new(alloc: Global, rule: &LinkRule, latency_ns: u64, byte_ns: u64, by: Leeway) -> Stream
        requires latency { latency_ns ≤ 1000 * greatest_delay }
        requires byte { byte_ns ≤ slowest_byte }
        ensures stands { (z : Terms) (time : ℕ) → z.rule ≡ rule_of rule.now →
            z.latency_ns ≡ latency_ns → z.byte_ns ≡ byte_ns → z.by ≡ leeway_of by →
            StandsFor z [] [] nothing_judged time result }
        ensures due { due_of result ≡ None }
    {
        let rates = Rates::new(rule, &by);
        let limits = Limits::new(latency_ns, byte_ns, &by);
        let growth = Growth::new(alloc, rule, Bounds { rates, limits }, by);
        Stream { growth, due: None }
    }

    /// One more arrival came, of a time no earlier than that of any line before, nor than the
    /// start. Of 2^56 arrivals or more nothing is judged any more. Fails only out of memory; then
    /// nothing has changed.
    pub fn came(&mut self, arrived: Arrived) -> Result<(), AllocError>
        ensures stands { (z : Terms) (xs : List Arrival) (ys : List Gone) (j : Judged)
            (time : ℕ) → IsJudged z arrived → MayCome z xs time (arrival_of arrived) →
            StandsFor z xs ys j time self.old →
            OnOk result (StandsFor z (xs ++ arrival_of arrived ∷ []) ys j time self.new) }
        ensures due { OnOk result
            (IsSameOrLater (due_of self.old) arrived.time (due_of self.new)) }
        ensures refused { (z : Terms) (xs : List Arrival) (ys : List Gone) (j : Judged)
            (time : ℕ) → StandsFor z xs ys j time self.old →
            OnErr result (StandsFor z xs ys j time self.new) }
        ensures due_then { OnErr result (due_of self.new ≡ due_of self.old) }
    {
        let added = self.growth.add_arrival(arrived);
        self.due = self.growth.due();
        added
    }

    /// One more frame left, at a time no earlier than that of any line before. Of 2^56 frames or
    /// more nothing is judged any more. Fails only out of memory; then nothing has changed.
    pub fn left(&mut self, frame: LeftFrame) -> Result<(), AllocError>
        ensures stands { (z : Terms) (xs : List Arrival) (ys : List Gone) (j : Judged)
            (time : ℕ) → MayLeave z ys time (gone_of frame) → StandsFor z xs ys j time self.old →
            OnOk result (StandsFor z xs (ys ++ gone_of frame ∷ []) j time self.new) }
        ensures due { OnOk result
            (IsSameOrLater (due_of self.old) frame.time (due_of self.new)) }
        ensures refused { (z : Terms) (xs : List Arrival) (ys : List Gone) (j : Judged)
            (time : ℕ) → StandsFor z xs ys j time self.old →
            OnErr result (StandsFor z xs ys j time self.new) }
        ensures due_then { OnErr result (due_of self.new ≡ due_of self.old) }
    {
        let added = self.growth.add_frame(frame);
        self.due = self.growth.due();
        added
    }

    /// The moment of the next event, in ns; None: there is none, or the stream is unsure.
    pub fn due(&self) -> Option<u64>
        ensures due { result ≡ due_of self.now }
        ensures later { (z : Terms) (xs : List Arrival) (ys : List Gone) (j : Judged)
            (time other : ℕ) → time ≤ other → StandsFor z xs ys j time self.now →
            StandsFor z xs ys j other self.now }
    {
        self.due
    }

    /// Judges the next event, if there is one: gives what is found there, in its order. `end` is
    /// the time in ns at which the recordings end, once it is known. The memory of messages that
    /// are forgotten then is for others. Fails only out of memory; then nothing has changed.
    pub fn decide(
        &mut self,
        spare: &mut Spare,
        end: Option<u64>,
    ) -> Result<Vec<Finding>, AllocError>
        ensures stands { (z : Terms) (xs : List Arrival) (ys : List Gone) (j : Judged)
            (time moment : ℕ) → end ≡ None → due_of self.old ≡ Some moment → moment < time →
            StandsFor z xs ys j time self.old → IfOk result (λ found. (k : Judged)
            × StandsFor z xs ys k time self.new
            × Finds z moment found.items j k (due_of self.new)) }
        ensures ends { (z : Terms) (xs : List Arrival) (ys : List Gone) (j : Judged)
            (moment : ℕ) → end ≡ Some z.until → due_of self.old ≡ Some moment →
            IsEnding z xs ys j self.old → IfOk result (λ found. (k : Judged)
            × IsEnding z xs ys k self.new
            × Finds z moment found.items j k (due_of self.new)) }
        ensures refused { (z : Terms) (xs : List Arrival) (ys : List Gone) (j : Judged)
            (time : ℕ) → StandsFor z xs ys j time self.old →
            OnErr result (StandsFor z xs ys j time self.new) }
        ensures refused_then { (z : Terms) (xs : List Arrival) (ys : List Gone) (j : Judged) →
            IsEnding z xs ys j self.old → OnErr result (IsEnding z xs ys j self.new) }
        ensures due_then { OnErr result (due_of self.new ≡ due_of self.old) }
        ensures less { (moment : ℕ) → due_of self.old ≡ Some moment →
            OnOk result (undecided_in self.new < undecided_in self.old) }
    {
        let found = self.growth.decide(spare, end);
        self.due = self.growth.due();
        found
    }

    /// The recordings end at this time, in ns, no earlier than any line: frames that may be of
    /// arrivals behind it are cut off.
    pub fn end(&mut self, until: u64)
        ensures ends { (z : Terms) (xs : List Arrival) (ys : List Gone) (j : Judged)
            (time : ℕ) → z.until ≡ until → time ≤ until → StandsFor z xs ys j time self.old →
            IsEnding z xs ys j self.new }
        ensures due { IsDueLater (due_of self.old) (due_of self.new) }
        ensures due_same { (z : Terms) (xs : List Arrival) (ys : List Gone) (j : Judged)
            (time : ℕ) → z.until ≡ until → time ≤ until →
            AllByRecursion (λ x. x.time ≤ until) xs → StandsFor z xs ys j time self.old →
            (due_of self.new ≡ due_of self.old) ⊎ (due_of self.new ≡ None) }
    {
        self.growth.end(until);
        self.due = self.growth.due();
    }

    /// The number of the arrival behind which there were too many states, if it is unsure: from
    /// there on nothing is judged.
    pub fn unsure_behind(&self) -> Option<u64>
        ensures stands { (z : Terms) (xs : List Arrival) (ys : List Gone) (j : Judged)
            (time : ℕ) → StandsFor z xs ys j time self.now → result ≡ unsure_in j }
        ensures ends { (z : Terms) (xs : List Arrival) (ys : List Gone) (j : Judged) →
            IsEnding z xs ys j self.now → result ≡ unsure_in j }
    {
        self.growth.unsure
    }

    /// What is counted of it once its events are over; of an unsure stream nothing.
    pub fn counts(&self) -> Counts
        ensures judged { (z : Terms) (xs : List Arrival) (ys : List Gone) (j : Judged) →
            due_of self.now ≡ None → IsEnding z xs ys j self.now →
            j ≡ shown (judged_of z xs ys) }
        ensures counted { (z : Terms) (xs : List Arrival) (ys : List Gone) (j : Judged) →
            due_of self.now ≡ None → IsEnding z xs ys j self.now →
            result ≡ counts_of z xs ys }
    {
        self.growth.counts()
    }

    /// How many arrivals and frames it holds: while no event of an earlier moment is due, at most
    /// twice as many as came and left in the last window before it.
    pub fn held(&self) -> usize
        ensures held { result ≡ held_in self.now }
        ensures window { (z : Terms) (xs : List Arrival) (ys : List Gone) (j : Judged)
            (time moment : ℕ) → StandsFor z xs ys j time self.now →
            IsNoSooner moment (due_of self.now) → result ≤ 2 * in_window z xs ys moment }
    {
        self.growth.arrivals.len() + self.growth.frames.len()
    }
}
