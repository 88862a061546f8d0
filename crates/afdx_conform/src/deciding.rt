//! The next event of a stream is judged.

ghost use Rattle.std.specs.Prelude.{◌≡◌, ◌≤◌, ◌<◌, ◌+◌, ℕ, List, min, length, get_or, true, false};
ghost use Rattle.std.specs.Prelude.{IfOk, OnOk, OnErr, Option, Some, None, is_none, if◌then◌else◌};
ghost use Rattle.std.specs.Prelude.{IsTrue, ◌↔◌};
ghost use Rattle.afdx_police.specs.Arrival.{Arrival};
ghost use Rattle.afdx_conform.specs.Arriving.{DecidesArrival};
ghost use Rattle.afdx_conform.specs.Findings.{frames_in, frames_of};
ghost use Rattle.afdx_conform.specs.Histories.{coming, next_of, unclosed};
ghost use Rattle.afdx_conform.specs.Limits.{AreLimits};
ghost use Rattle.afdx_conform.specs.Marks.{arrival_of};
ghost use Rattle.afdx_conform.specs.Growing.{Decides, IsAfter, IsKnownBy, IsQuiet, IsReady, IsSame};
ghost use Rattle.afdx_conform.specs.Growing.{IsSound, closed_too, due_by, most_found, undecided_by};
ghost use Rattle.afdx_conform.specs.States.{Event, Came, Closing};
ghost use Rattle.afdx_conform.specs.Streams.{Gone, Terms, is_open};
ghost use Rattle.afdx_conform.specs.declared.upcoming.Upcoming.TheVariants.{Closing as closing};
ghost use Rattle.afdx_frame.specs.Times.{latest_listed};

use crate::arrived::Arrived;
use crate::arriving::judge_with;
use crate::closing::closed_by;
use crate::coming::Coming;
use crate::finding::Finding;
use crate::first::first_held;
use crate::forgetting::passed_by_all;
use crate::growth::Growth;
use crate::judging::close_with;
use crate::limits::{LeftFrame, Limits};
use crate::recorded::StreamRecord;
use crate::spare::Spare;
use crate::upcoming::{Upcoming, moment_of};
use std::alloc::{AllocError, Global};

/// How many frames are in the finding.
fn count_of(finding: &Finding) -> u64
    ensures { result ≡ frames_of finding.now }
{
    match finding {
        Finding::Stopped(_) => 0,
        Finding::Strange(_, _) | Finding::Passed(_, _) => 1,
        Finding::Late(_, _) | Finding::Early(_, _) => 1,
    }
}

/// How many frames are in these findings.
fn count_all(found: &[Finding]) -> u64
    ensures { result ≡ min (frames_in found.now) most_found }
{
    let mut frames = 0_u64;
    for finding in found {
        frames = frames.saturating_add(count_of(finding));
    }
    frames
}

/// Whether the arrival is open: before the end is known none is whose event is decided.
fn is_open_by(limits: &Limits, arrived: &Arrived, end: Option<u64>) -> bool
    ensures { (z : Terms) → AreLimits z limits.now →
        IsKnownBy z end (Came (arrival_of arrived.now)) →
        result ≡ is_open z (arrival_of arrived.now) }
{
    match end {
        None => false,
        Some(until) => limits.is_open(arrived.time, until),
    }
}

/// The number, if it is asked for.
fn number_if(is_asked: bool, number: u64) -> Option<u64>
    ensures { result ≡ (if is_asked then Some number else None) }
{
    if is_asked { Some(number) } else { None }
}

/// Whether the next event is a closing.
fn is_closing(upcoming: Option<Upcoming>) -> bool
    ensures { IsTrue result ↔ (upcoming ≡ Some closing) }
{
    upcoming == Some(Upcoming::Closing)
}

/// Whether the closing of a frame that left at this time is later than the moment.
fn is_later(limits: &Limits, time: u64, moment: u64) -> bool
    requires { time ≤ latest_listed }
    ensures { IsTrue result ↔ (moment < time + limits.now.reach) }
{
    moment < time + limits.reach
}

/// When the last arrival of the right shape came, once this one did.
fn last_after(arrived: &Arrived, last: u64) -> u64
    ensures { result ≡ (if is_none arrived.now.fault then arrived.now.time else last) }
{
    if arrived.fault.is_none() {
        arrived.time
    } else {
        last
    }
}

impl Growth {
    /// Before an event: where the arrivals stand is known. Before the first one its states are
    /// those of all frames that may be of arrivals before the start. Fails only out of memory;
    /// then nothing has changed.
    fn start(&mut self, alloc: Global) -> Result<(), AllocError>
        requires sound { IsSound self.old }
        ensures sound { IsSound self.new }
        ensures ready { (z : Terms) (xs : List Arrival) (ys : List Gone) (cut : ℕ)
            (over : List Event) → IsAfter z xs ys cut over self.old →
            self.old.judging.is_unsure ≡ false → OnOk result (IsReady z xs ys cut over self.new) }
        ensures same { IsSame self.old self.new }
    {
        self.known.gather(self.arrivals.as_slice())?;
        if self.is_started {
            return Ok(());
        }
        let held = first_held(alloc, &self.bounds, &self.by, self.frames.as_slice())?;
        self.judging.held = held;
        Ok(())
    }

    /// Counts what was found at an event.
    fn count(&mut self, found: &[Finding])
        ensures { self.new ≡ record self.old {
          is_started = true;
          found = min (self.old.found + frames_in found.now) most_found;
        } }
    {
        self.is_started = true;
        self.found = self.found.saturating_add(count_all(found));
    }

    /// The closing of a frame too, where that is the next event, no later than this moment, and
    /// each state explains the frame: nothing is found there.
    fn close_explained(&mut self, moment: u64)
        requires sound { IsSound self.old }
        requires started { self.old.is_started ≡ true }
        ensures sound { IsSound self.new }
        ensures after { (closed : Option ℕ) × ((z : Terms) (xs : List Arrival) (ys : List Gone)
            (cut : ℕ) (over : List Event) → IsAfter z xs ys cut over self.old →
            IsAfter z xs ys cut (closed_too closed over) self.new
            × IsQuiet z xs ys over moment closed) }
        ensures less { undecided_by self.new ≤ undecided_by self.old }
    {
        if self.judging.is_unsure {
            return;
        }
        if !is_closing(self.upcoming()) {
            return;
        }
        let time = self.frames[self.closed].time;
        if is_later(&self.bounds.limits, time, moment) {
            return;
        }
        let closed = self.closed + 1;
        let to = closed_by(self.frames.as_slice(), closed, self.closing, time);
        let passed = passed_by_all(self.judging.held.as_slice(), to);
        if passed < to {
            return;
        }
        self.closed = closed;
        self.closing = to;
    }

    /// The event of an arrival, and the closing of a frame behind it at which nothing is found.
    /// Fails only out of memory; then nothing has changed.
    fn come(&mut self, spare: &mut Spare, end: Option<u64>) -> Result<Vec<Finding>, AllocError>
        requires sound { IsSound self.old }
        requires place { length self.old.judging.marks.items < length self.old.arrivals.items }
        ensures sound { IsSound self.new }
        ensures decides { IfOk result (λ found.
            DecidesArrival self.old self.new end found.items) }
        ensures less { self.old.judging.is_unsure ≡ false →
            OnOk result (undecided_by self.new < undecided_by self.old) }
        ensures refused { OnErr result (IsSame self.old self.new) }
    {
        let arrived = &self.arrivals[self.judging.marks.len()];
        let number = arrived.number;
        let is_open = is_open_by(&self.bounds.limits, arrived, end);
        let ns = arrived.time.saturating_sub(self.last);
        let told = moment_of(&self.bounds.limits, arrived.time);
        let last = last_after(arrived, self.last);
        let coming = Coming {
            arrived,
            ns,
            is_open,
        };
        let recorded = StreamRecord {
            arrivals: self.arrivals.as_slice(),
            frames: self.frames.as_slice(),
        };
        let found = judge_with(
            &mut self.judging,
            spare.alloc(),
            &self.bounds,
            &mut self.known,
            &recorded,
            &coming,
        )?;
        self.unsure = number_if(self.judging.is_unsure, number);
        self.last = last;
        self.count(found.as_slice());
        self.close_explained(told);
        self.forget(spare);
        Ok(found)
    }

    /// The closing of a frame. Fails only out of memory; then nothing has changed.
    fn close(&mut self, spare: &mut Spare) -> Result<Vec<Finding>, AllocError>
        requires sound { IsSound self.old }
        requires place { self.old.closed < length self.old.frames.items }
        ensures sound { IsSound self.new }
        ensures decides { IfOk result (λ found. (z : Terms) (xs : List Arrival) (ys : List Gone)
            (cut : ℕ) (over : List Event) (f : LeftFrame) → self.old.judging.is_unsure ≡ false →
            f ≡ get_or self.old.frames.items self.old.closed f →
            next_of z (coming xs over) (unclosed ys over) ≡ Some (Closing f.time) →
            IsReady z xs ys cut over self.old →
            Decides z xs ys cut over self.new (Closing f.time) None found.items) }
        ensures less { self.old.judging.is_unsure ≡ false →
            OnOk result (undecided_by self.new < undecided_by self.old) }
        ensures refused { OnErr result (IsSame self.old self.new) }
    {
        let time = self.frames[self.closed].time;
        let frames = self.frames.as_slice();
        let to = closed_by(frames, self.closed + 1, self.closing, time);
        let recorded = StreamRecord {
            arrivals: self.arrivals.as_slice(),
            frames: self.frames.as_slice(),
        };
        let found = close_with(
            &mut self.judging,
            spare.alloc(),
            &self.bounds,
            &mut self.known,
            &recorded,
            to,
        )?;
        self.closed += 1;
        self.closing = to;
        self.count(found.as_slice());
        self.forget(spare);
        Ok(found)
    }

    /// The next event, if there is one: what is found there, in its order; and the closing of a
    /// frame behind it, if nothing is found there. `end` is the time at which the recordings end,
    /// once it is known; before, the next arrival can't be open. Fails only out of memory; then
    /// nothing has changed.
    pub(crate) fn decide(
        &mut self,
        spare: &mut Spare,
        end: Option<u64>,
    ) -> Result<Vec<Finding>, AllocError>
        requires sound { IsSound self.old }
        ensures sound { IsSound self.new }
        ensures decides { IfOk result (λ found. (closed : Option ℕ) × ((z : Terms)
            (xs : List Arrival) (ys : List Gone) (cut : ℕ) (over : List Event) (e : Event) →
            self.old.judging.is_unsure ≡ false →
            next_of z (coming xs over) (unclosed ys over) ≡ Some e → IsKnownBy z end e →
            IsAfter z xs ys cut over self.old →
            Decides z xs ys cut over self.new e closed found.items)) }
        ensures less { (moment : ℕ) → due_by self.old ≡ Some moment →
            OnOk result (undecided_by self.new < undecided_by self.old) }
        ensures refused { OnErr result (IsSame self.old self.new) }
    {
        if self.judging.is_unsure {
            return Ok(Vec::new(spare.alloc()));
        }
        let Some(upcoming) = self.upcoming() else {
            return Ok(Vec::new(spare.alloc()));
        };
        self.start(spare.alloc())?;
        match upcoming {
            Upcoming::Arrival => self.come(spare, end),
            Upcoming::Closing => self.close(spare),
        }
    }
}
