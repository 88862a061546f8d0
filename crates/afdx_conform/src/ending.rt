//! The end of a stream: what is cut off there, and what is counted.

ghost use Rattle.std.specs.Prelude.{◌≡◌, [], if◌then◌else◌, ◌≤◌, ◌<◌, ◌+◌, ◌-◌, ℕ, List, IsTrue, ◌↔◌, length, map};
ghost use Rattle.std.specs.Prelude.{get_or, true, None, ◌⊎◌};
ghost use Rattle.std.specs.List.{AllByRecursion};
ghost use Rattle.afdx_police.specs.Arrival.{Arrival};
ghost use Rattle.afdx_conform.specs.HeldStates.{state_of};
ghost use Rattle.afdx_conform.specs.Histories.{AreOver, coming, counts_by, counts_with, judged_by};
ghost use Rattle.afdx_conform.specs.Histories.{least_waiting as least_of, next_of, uncut, unclosed};
ghost use Rattle.afdx_conform.specs.Growing.{IsAfter, IsDueLater, IsSound, due_by};
ghost use Rattle.afdx_conform.specs.States.{Event};
ghost use Rattle.afdx_conform.specs.Streams.{Gone, Terms};

use crate::counts::Counts;
use crate::fronts::front_of;
use crate::growth::Growth;
use crate::limits::{LeftFrame, Limits};
use crate::states::StreamState;

/// Whether what is shown of the frame may lie behind the end of the recordings.
fn is_cut(limits: &Limits, frame: &LeftFrame, until: u64) -> bool
    ensures { IsTrue result ↔ (until < frame.now.time + limits.now.reach) }
{
    until < frame.time + limits.reach
}

/// How many of the frames aren't cut off; those from `from` on are looked at.
fn kept_until(limits: &Limits, frames: &[LeftFrame], from: usize, until: u64) -> usize
    requires { from ≤ length frames.now }
    ensures low { from ≤ result }
    ensures high { result ≤ length frames.now }
    ensures kept { (k : ℕ) (f : LeftFrame) → from ≤ k → k < result → f ≡ get_or frames.now k f →
        f.time + limits.now.reach ≤ until }
    ensures cut { (f : LeftFrame) → result < length frames.now → f ≡ get_or frames.now result f →
        until < f.time + limits.now.reach }
{
    for place in from..frames.len() {
        if is_cut(limits, &frames[place], until) {
            return place;
        }
    }
    frames.len()
}

/// Before the first event no state is known.
fn known_states(held: &mut Vec<StreamState>, is_started: bool)
    ensures { held.new.items ≡ (if is_started then held.old.items else []) }
{
    if !is_started {
        held.truncate(0);
    }
}

/// The least number that waits in one of these states; without states 0.
fn least_waiting(held: &[StreamState]) -> u64
    ensures { (ys : List Gone) → result ≡ least_of (map (state_of ys) held.now) }
{
    if held.is_empty() {
        return 0;
    }
    let mut least = held[0].waiting;
    for state in held {
        least = least.min(state.waiting);
    }
    least
}

impl Growth {
    /// The recordings end at this time: the frames that left later, as far as stamps can tell, are
    /// cut off.
    pub(crate) fn end(&mut self, until: u64)
        requires { IsSound self.old }
        ensures sound { IsSound self.new }
        ensures after { (z : Terms) (xs : List Arrival) (ys : List Gone) (time : ℕ)
            (over : List Event) → z.until ≡ until → time ≤ until → AreOver z time over →
            IsAfter z xs ys 0 over self.old → IsAfter z xs (uncut z ys)
            (length ys - length (uncut z ys)) over self.new }
        ensures due { IsDueLater (due_by self.old) (due_by self.new) }
        ensures due_same { (z : Terms) (xs : List Arrival) (ys : List Gone) (over : List Event) →
            z.until ≡ until → AllByRecursion (λ x. x.time ≤ until) xs →
            IsAfter z xs ys 0 over self.old →
            (due_by self.new ≡ due_by self.old) ⊎ (due_by self.new ≡ None) }
    {
        if self.judging.is_unsure {
            return;
        }
        known_states(&mut self.judging.held, self.is_started);
        let front = front_of(self.judging.held.as_slice(), 0).max(self.closed);
        let kept = kept_until(&self.bounds.limits, self.frames.as_slice(), front, until);
        let cut = (self.frames.len() - kept) as u64;
        self.frames.truncate(kept);
        self.left -= cut;
        self.cut += cut;
    }

    /// What is counted of it once its events are over: of an unsure one nothing.
    pub(crate) fn counts(&self) -> Counts
        requires { IsSound self.now }
        ensures unsure { self.now.judging.is_unsure ≡ true → result ≡ counts_with 0 0 0 }
        ensures counted { (z : Terms) (xs : List Arrival) (ys : List Gone) (cut : ℕ)
            (over : List Event) → next_of z (coming xs over) (unclosed ys over) ≡ None →
            IsAfter z xs ys cut over self.now →
            result ≡ counts_by (length ys) cut (judged_by z xs ys over) }
    {
        if self.judging.is_unsure {
            return Counts {
                explained: 0,
                waiting: 0,
                uncertain: 0,
            };
        }
        Counts {
            explained: self.left.saturating_sub(self.found),
            waiting: self.cut + least_waiting(self.judging.held.as_slice()),
            uncertain: self.judging.uncertain,
        }
    }
}
