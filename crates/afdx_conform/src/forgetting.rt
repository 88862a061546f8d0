//! What is decided of a stream is let go of.

ghost use Rattle.std.specs.Prelude.{◌≡◌, ◌≤◌, ◌<◌, ◌+◌, ◌-◌, ◌*◌, ℕ, List, IsTrue, ◌↔◌, All};
ghost use Rattle.std.specs.Prelude.{Contains, [], drop, get_or, length, map, nat_eq, true, ◌⊎◌};
ghost use Rattle.std.specs.List.{list_all};
ghost use Rattle.afdx_police.specs.Arrival.{Arrival};
ghost use Rattle.afdx_conform.specs.Ahead.{NoneIsOpen};
ghost use Rattle.afdx_conform.specs.HeldStates.{past};
ghost use Rattle.afdx_conform.specs.Growing.{IsAfter, IsSound, due_by, is_some, undecided_by};
ghost use Rattle.afdx_conform.specs.Holding.{AreArrivals, AreAsked, IsLean, IsTooEarly};
ghost use Rattle.afdx_conform.specs.Holding.{KeepsArrivals, KeepsFrames};
ghost use Rattle.afdx_conform.specs.States.{Event};
ghost use Rattle.afdx_conform.specs.Streams.{Gone, Terms};
ghost use Rattle.afdx_conform.specs.declared.states.StreamState.{StreamState};

use crate::arrived::Arrived;
use crate::growth::Growth;
use crate::known_bytes::KnownBytes;
use crate::limits::{LeftFrame, Limits};
use crate::spare::Spare;
use crate::states::StreamState;

/// Lets go of the first `count` items.
pub(crate) fn forget_first<T: Drop>(items: &mut Vec<T>, count: usize)
    requires { count ≤ length items.old.items }
    ensures { items.new.items ≡ drop count items.old.items }
{
    if count == items.len() {
        items.truncate(0);
        return;
    }
    let left = items.len() - count;
    items.as_mut_slice().rotate_left(count);
    items.truncate(left);
}

/// What is kept with the bytes of a frame.
trait HasBytes {
    /// It is forgotten: the memory of the bytes is for others.
    fn give_back(self, spare: &mut Spare);
}

impl HasBytes for Arrived {
    fn give_back(self, spare: &mut Spare) {
        self.bytes.give_back(spare);
    }
}

impl HasBytes for LeftFrame {
    fn give_back(self, spare: &mut Spare) {
        self.bytes.give_back(spare);
    }
}

/// Lets go of the first `count` items, whose memory is for others.
fn give_back_first<T: HasBytes>(items: &mut Vec<T>, count: usize, spare: &mut Spare)
    requires { count ≤ length items.old.items }
    ensures { items.new.items ≡ drop count items.old.items }
{
    items.as_mut_slice().rotate_left(count);
    for given in 0..count {
        if let Some(item) = items.pop() {
            item.give_back(spare);
        }
    }
}

/// The fewest frames that are explained in one of the states; without states `none`.
fn fewest_passed(held: &[StreamState], none: usize) -> usize
    ensures least { All (λ h. result ≤ h.passed) held.now }
    ensures among { ((held.now ≡ []) × (result ≡ none))
        ⊎ ((h : StreamState) × Contains held.now h × (h.passed ≡ result)) }
{
    match held.iter().min_by_key(|state| state.passed) {
        Some(state) => state.passed,
        None => none,
    }
}

/// How many frames, of `most` at most, are explained in each state.
pub(crate) fn passed_by_all(held: &[StreamState], most: usize) -> usize
    ensures most { result ≤ most }
    ensures all { All (λ h. result ≤ h.passed) held.now }
    ensures whole { All (λ h. most ≤ h.passed) held.now → result ≡ most }
{
    fewest_passed(held, most).min(most)
}

/// The same states, where the first `count` frames are forgotten.
fn without_first(held: &mut Vec<StreamState>, count: usize)
    ensures { held.new.items ≡ map (λ h. past (h.passed - count) h) held.old.items }
{
    for place in 0..held.len() {
        held[place].passed = held[place].passed.saturating_sub(count);
    }
}

/// Whether none of these waits.
fn none_waits(held: &[StreamState]) -> bool
    ensures { result ≡ list_all (λ h. nat_eq h.waiting 0) held.now }
{
    held.iter().all(|state| state.waiting == 0)
}

/// Whether the frame left early enough to be of the arrival.
fn is_in_time(limits: &Limits, arrived: &Arrived, frame: &LeftFrame) -> bool
    ensures { IsTrue result ↔ (frame.now.time
        ≤ arrived.now.time + limits.now.latency + limits.now.reach) }
{
    frame.time <= arrived.time + limits.latency + limits.reach
}

/// How many of the arrivals before `past` came too early for the frame; those from `from` on are
/// looked at.
fn count_early(
    limits: &Limits,
    arrivals: &[Arrived],
    from: usize,
    past: usize,
    frame: &LeftFrame,
) -> usize
    requires from { from ≤ past }
    requires past { past ≤ length arrivals.now }
    ensures low { from ≤ result }
    ensures high { result ≤ past }
    ensures early { (k : ℕ) (a : Arrived) → from ≤ k → k < result → a ≡ get_or arrivals.now k a →
        IsTooEarly limits.now a frame.now }
    ensures behind { (a : Arrived) → result < past → a ≡ get_or arrivals.now result a →
        frame.now.time ≤ a.time + limits.now.latency + limits.now.reach }
{
    for place in from..past {
        if is_in_time(limits, &arrivals[place], frame) {
            return place;
        }
    }
    past
}

impl Growth {
    /// How many of the arrivals may be let go of once the first `passed` frames are: those that
    /// came too early for the next frame, if they are half of them or more and no state waits.
    fn count_over(&self, passed: usize) -> usize
        requires { IsSound self.now }
        ensures within { result ≤ length self.now.judging.marks.items }
        ensures half { 0 < result → length self.now.arrivals.items ≤ 2 * result }
        ensures waits { 0 < result → All (λ h. h.waiting ≡ 0) self.now.judging.held.items }
        ensures early { (a : Arrived) (f : LeftFrame) → 0 < result →
            passed < length self.now.frames.items →
            a ≡ get_or self.now.arrivals.items (result - 1) a →
            f ≡ get_or self.now.frames.items passed f → IsTooEarly self.now.bounds.limits a f }
        ensures asked { (place : ℕ) → All (λ h. h.waiting ≡ 0) self.now.judging.held.items →
            AreArrivals self.now.arrivals.items → result ≤ place →
            length self.now.arrivals.items ≤ 2 * (place + 1) →
            AreAsked self.now.bounds.limits self.now.arrivals.items
            (length self.now.judging.marks.items) (drop passed self.now.frames.items) place }
    {
        let half = self.arrivals.len().div_ceil(2);
        let over = self.judging.marks.len();
        if half == 0 {
            return 0;
        }
        if half > over {
            return 0;
        }
        if !none_waits(self.judging.held.as_slice()) {
            return 0;
        }
        if passed >= self.frames.len() {
            return over;
        }
        let limits = &self.bounds.limits;
        let arrivals = self.arrivals.as_slice();
        let count = count_early(limits, arrivals, half - 1, over, &self.frames[passed]);
        if count < half {
            return 0;
        }
        count
    }

    /// Lets go of the first frames, which are closed and explained in each state.
    fn let_go_of_frames(&mut self, count: usize, spare: &mut Spare)
        requires sound { IsSound self.old }
        requires closed { count ≤ self.old.closed }
        requires passed { All (λ h. count ≤ h.passed) self.old.judging.held.items }
        ensures sound { IsSound self.new }
        ensures after { (z : Terms) (xs : List Arrival) (ys : List Gone) (cut : ℕ)
            (over : List Event) → IsAfter z xs ys cut over self.old →
            IsAfter z xs ys cut over self.new }
        ensures due { due_by self.new ≡ due_by self.old }
        ensures undecided { undecided_by self.new ≡ undecided_by self.old }
        ensures frames { self.new.frames.items ≡ drop count self.old.frames.items }
        ensures closed { self.new.closed ≡ self.old.closed - count }
        ensures held { self.new.judging.held.items
            ≡ map (λ h. past (h.passed - count) h) self.old.judging.held.items }
        ensures keeps { KeepsArrivals self.old self.new }
    {
        give_back_first(&mut self.frames, count, spare);
        without_first(&mut self.judging.held, count);
        self.closed -= count;
    }

    /// Lets go of the first arrivals, whose events are over, while no state waits, and which came
    /// too early for each frame that is held.
    fn let_go_of_arrivals(&mut self, count: usize, spare: &mut Spare)
        requires sound { IsSound self.old }
        requires over { count ≤ length self.old.judging.marks.items }
        requires waits { All (λ h. h.waiting ≡ 0) self.old.judging.held.items }
        requires early { (a : Arrived) (f : LeftFrame) → 0 < count →
            0 < length self.old.frames.items →
            a ≡ get_or self.old.arrivals.items (count - 1) a →
            f ≡ get_or self.old.frames.items 0 f → IsTooEarly self.old.bounds.limits a f }
        ensures sound { IsSound self.new }
        ensures after { (z : Terms) (xs : List Arrival) (ys : List Gone) (cut : ℕ)
            (over : List Event) → IsAfter z xs ys cut over self.old →
            IsAfter z xs ys cut over self.new }
        ensures due { due_by self.new ≡ due_by self.old }
        ensures undecided { undecided_by self.new ≡ undecided_by self.old }
        ensures arrivals { self.new.arrivals.items ≡ drop count self.old.arrivals.items }
        ensures marks { self.new.judging.marks.items ≡ drop count self.old.judging.marks.items }
        ensures keeps { KeepsFrames self.old self.new }
    {
        give_back_first(&mut self.arrivals, count, spare);
        forget_first(&mut self.judging.marks, count);
        self.known.forget();
    }

    /// Lets go of the first `passed` frames, which are closed and explained in each state, once
    /// they are half of those that are held.
    fn forget_frames(&mut self, passed: usize, spare: &mut Spare)
        requires sound { IsSound self.old }
        requires closed { passed ≤ self.old.closed }
        requires passed { All (λ h. passed ≤ h.passed) self.old.judging.held.items }
        ensures sound { IsSound self.new }
        ensures after { (z : Terms) (xs : List Arrival) (ys : List Gone) (cut : ℕ)
            (over : List Event) → IsAfter z xs ys cut over self.old →
            IsAfter z xs ys cut over self.new }
        ensures due { due_by self.new ≡ due_by self.old }
        ensures undecided { undecided_by self.new ≡ undecided_by self.old }
        ensures half { passed ≡ self.old.closed →
            self.new.closed + self.new.closed ≤ length self.new.frames.items }
        ensures unclosed { drop self.new.closed self.new.frames.items
            ≡ drop self.old.closed self.old.frames.items }
        ensures keeps { KeepsArrivals self.old self.new }
    {
        if passed < self.frames.len() - passed {
            return;
        }
        self.let_go_of_frames(passed, spare);
    }

    /// Lets go of all: nothing is judged any more.
    #[cold]
    #[inline(never)]
    fn forget_all(&mut self, spare: &mut Spare)
        requires sound { IsSound self.old }
        requires unsure { self.old.judging.is_unsure ≡ true }
        ensures sound { IsSound self.new }
        ensures after { (z : Terms) (xs : List Arrival) (ys : List Gone) (cut : ℕ)
            (over : List Event) → IsAfter z xs ys cut over self.old →
            IsAfter z xs ys cut over self.new }
        ensures due { due_by self.new ≡ due_by self.old }
        ensures undecided { undecided_by self.new ≡ undecided_by self.old }
        ensures lean { IsLean self.new }
    {
        let came = self.arrivals.len();
        give_back_first(&mut self.arrivals, came, spare);
        let left = self.frames.len();
        give_back_first(&mut self.frames, left, spare);
        self.judging.held.truncate(0);
        self.judging.marks.truncate(0);
        self.known = KnownBytes::new(spare.alloc());
        self.closed = 0;
    }

    /// Lets go of what no later event asks for, whose memory is for others: of frames once half of
    /// them are closed, of arrivals once half of them are over and came too early for the frames
    /// that aren't closed, and of all once nothing is judged any more.
    pub(crate) fn forget(&mut self, spare: &mut Spare)
        requires { IsSound self.old }
        ensures sound { IsSound self.new }
        ensures after { (z : Terms) (xs : List Arrival) (ys : List Gone) (cut : ℕ)
            (over : List Event) → IsAfter z xs ys cut over self.old →
            IsAfter z xs ys cut over self.new }
        ensures lean { (z : Terms) (xs : List Arrival) (ys : List Gone) (cut : ℕ)
            (over : List Event) → is_some over ≡ true → NoneIsOpen z over →
            IsAfter z xs ys cut over self.old → IsLean self.new }
        ensures due { due_by self.new ≡ due_by self.old }
        ensures undecided { undecided_by self.new ≡ undecided_by self.old }
    {
        if self.judging.is_unsure {
            self.forget_all(spare);
            return;
        }
        let passed = passed_by_all(self.judging.held.as_slice(), self.closed);
        let count = self.count_over(passed);
        if count == 0 {
            self.forget_frames(passed, spare);
            return;
        }
        self.let_go_of_frames(passed, spare);
        self.let_go_of_arrivals(count, spare);
    }
}
