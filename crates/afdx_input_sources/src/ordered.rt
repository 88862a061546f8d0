//! The numbers of a recording in order: arrivals by their moments, and a number that is skipped at
//! once.

ghost use Rattle.std.specs.Prelude.{◌≡◌, ◌≤◌, ◌<◌, ◌∷◌, [], ℕ, IfErr, None, Ok, true, false};
ghost use Rattle.afdx_input_lines.specs.Calls.{is_failed_write};
ghost use Rattle.afdx_input_sources.specs.NumberLines.{NumberFollows};
ghost use Rattle.afdx_input_sources.specs.OrderedSource as spec;
ghost use Rattle.afdx_input_sources.specs.OrderedSource.{HasOrdered, HasStoppedOrdering};
ghost use Rattle.afdx_input_sources.specs.OrderedSteps.{HandsOn, IsInTime, TakesIn, left_in_order, steps_left};
ghost use Rattle.afdx_input_sources.specs.Sequences.{Numbers};

use crate::becoming::FoundFrame;
use crate::engine::Source;
use crate::held::{HeldArrival, HeldArrivals};
use crate::number::{AsRead, Number};
use afdx_input_lines::{Next, Progress, RecordingFault, RunFault};
use std::alloc::Global;

/// What is known of the end of a recording.
#[derive(Clone, Copy, Debug)]
pub enum Stage {
    /// Nothing.
    Reading,
    /// All was read.
    Over,
    /// This fault stands behind what was read.
    Stopped(RecordingFault),
}

/// Gives the numbers of another source in order.
///
/// An arrival is held until `most` others were read that come behind it, or the end or the fault.
/// One that comes behind more than `most` others is a fault.
#[derive(Drop)]
pub struct Ordered<S> {
    pub source: S,
    alloc: Global,
    most: usize,
    held: HeldArrivals,
    /// The arrival that was handed on last of those that were held.
    last: Option<HeldArrival>,
    /// Whether that was given last, and not the number that was read last.
    is_held: bool,
    /// The moment of the arrival that was given last, or 0.
    latest: u64,
    stage: Stage,
}

impl<S> Ordered<S> {
    /// The numbers of this source, of which nothing was read.
    pub fn new(alloc: Global, source: S, most: u32) -> Ordered<S>
        ensures source { result.source ≡ source }
        ensures most { result.most ≡ most }
        ensures held { result.held ≡ [] }
        ensures latest { result.latest ≡ 0 }
        ensures stage { result.stage ≡ Stage.Reading }
    {
        Ordered {
            source,
            alloc,
            most: most as usize,
            held: HeldArrivals::new(alloc),
            last: None,
            is_held: false,
            latest: 0,
            stage: Stage::Reading,
        }
    }

    /// Hands on the arrival that comes first of those that are held. False: none is held.
    #[inline(always)]
    fn hand_on(&mut self) -> bool
        ensures first { result ≡ true → HandsOn self.old self.new }
        ensures none { result ≡ false → (self.old.held ≡ []) × (self.new ≡ self.old) }
    {
        let Some(first) = self.held.take_first() else {
            return false;
        };
        if let Number::Arrival(found) = first.head() {
            self.latest = found.moment;
        }
        self.last = Some(first);
        self.is_held = true;
        true
    }
}

/// The fault of a recording, if it is one; else the fault itself.
fn recorded_fault(fault: RunFault) -> Result<RecordingFault, RunFault>
    ensures { result ≡ spec.recorded_in fault }
{
    match fault {
        RunFault::Recording(fault) => Ok(fault),
        other => Err(other),
    }
}

/// Reads one number more. If none is given it is held, or the end is known. A fault that is
/// returned is none of the recording.
#[inline(always)]
fn read_one<I, S: Source<AsRead, I>>(
    ordered: &mut Ordered<S>,
    input: &mut I,
) -> Result<Progress, RunFault>
    requires gave { (start : I) × (past : Numbers)
        × HasOrdered S.Gave S.Ended S.Stopped start ordered.old input.old past }
    requires reading { ordered.old.stage ≡ Stage.Reading }
    ensures given { (start : I) (past : Numbers) →
        HasOrdered S.Gave S.Ended S.Stopped start ordered.old input.old past →
        result ≡ Ok Progress.Given → HasOrdered S.Gave S.Ended S.Stopped start ordered.new input.new
        (spec.given_in_order S.current ordered.new ∷ past)
        × NumberFollows past (spec.given_in_order S.current ordered.new) }
    ensures none { (start : I) (past : Numbers) →
        HasOrdered S.Gave S.Ended S.Stopped start ordered.old input.old past →
        result ≡ Ok Progress.NotYet →
        HasOrdered S.Gave S.Ended S.Stopped start ordered.new input.new past }
    ensures stop { (start : I) (past : Numbers) →
        HasOrdered S.Gave S.Ended S.Stopped start ordered.old input.old past →
        IfErr result
        (HasStoppedOrdering S.Gave S.Ended S.Stopped start ordered.new input.new past) }
    ensures unwritten { is_failed_write result ≡ false }
    ensures settings { S.settings ordered.new.source ≡ S.settings ordered.old.source }
    ensures most { ordered.new.most ≡ ordered.old.most }
    ensures less { result ≡ Ok Progress.Given →
        left_in_order S.left_of ordered.new < left_in_order S.left_of ordered.old }
    ensures no_more { result ≡ Ok Progress.NotYet →
        left_in_order S.left_of ordered.new ≤ left_in_order S.left_of ordered.old }
    ensures steps { result ≡ Ok Progress.NotYet →
        steps_left S.left_of ordered.new < steps_left S.left_of ordered.old }
{
    match ordered.source.next(input) {
        Ok(Next::Given) => take_in(ordered),
        Ok(Next::Ended) => {
            ordered.stage = Stage::Over;
            Ok(Progress::NotYet)
        }
        Err(fault) => match recorded_fault(fault) {
            Ok(fault) => {
                ordered.stage = Stage::Stopped(fault);
                Ok(Progress::NotYet)
            }
            Err(other) => Err(other),
        },
    }
}

/// Takes in the number that was read last.
#[inline(always)]
fn take_in<I, S: Source<AsRead, I>>(ordered: &mut Ordered<S>) -> Result<Progress, RunFault>
    ensures { TakesIn (S.current ordered.old.source) ordered.old ordered.new result }
{
    let found = match ordered.source.head().becomes {
        Number::Arrival(found) => found,
        Number::Skipped(_) => {
            ordered.is_held = false;
            return Ok(Progress::Given);
        }
    };
    if found.moment < ordered.latest {
        ordered.stage = Stage::Stopped(RecordingFault::TimeBack(ordered.source.number()));
        return Ok(Progress::NotYet);
    }
    if ordered.most == 0 {
        ordered.is_held = false;
        ordered.latest = found.moment;
        return Ok(Progress::Given);
    }
    hold_one(ordered, found)
}

/// Holds the arrival that was read last. One is given if more are held than may be.
#[inline(always)]
fn hold_one<I, S: Source<AsRead, I>>(
    ordered: &mut Ordered<S>,
    found: FoundFrame,
) -> Result<Progress, RunFault>
    requires arrival { (S.current ordered.old.source).head.becomes ≡ Number.Arrival found }
    requires in_time { IsInTime (S.current ordered.old.source) ordered.old }
    ensures { TakesIn (S.current ordered.old.source) ordered.old ordered.new result }
{
    let room = ordered.last.take();
    let number = ordered.source.number();
    let bytes = ordered.source.bytes();
    ordered
        .held
        .hold(ordered.alloc, room, number, found, bytes)?;
    if ordered.held.len() <= ordered.most {
        return Ok(Progress::NotYet);
    }
    if ordered.hand_on() {
        Ok(Progress::Given)
    } else {
        Ok(Progress::NotYet)
    }
}

impl<I, S: Source<AsRead, I>> Source<Number, I> for Ordered<S> {
    ghost current = { spec.given_in_order S.current };

    ghost left_of = { left_in_order S.left_of };

    ghost Settings = { S.Settings × ℕ };

    ghost settings = { λ ordered. (S.settings ordered.source, ordered.most) };

    ghost Gives = { λ settings item. Unit {0} };

    ghost Gave = { spec.HasOrdered S.Gave S.Ended S.Stopped };

    ghost Ended = { spec.HasOrderedAll S.Gave S.Ended S.Stopped };

    ghost Stopped = { spec.HasStoppedOrdering S.Gave S.Ended S.Stopped };

    #[inline(always)]
    fn next(&mut self, input: &mut I) -> Result<Next, RunFault> {
        while let Stage::Reading = self.stage {
            if let Progress::Given = read_one(self, input)? {
                return Ok(Next::Given);
            }
        }
        if self.hand_on() {
            return Ok(Next::Given);
        }
        match self.stage {
            Stage::Stopped(fault) => Err(RunFault::Recording(fault)),
            Stage::Reading | Stage::Over => Ok(Next::Ended),
        }
    }

    fn number(&self) -> u64 {
        match &self.last {
            Some(arrival) if self.is_held => arrival.number(),
            _ => self.source.number(),
        }
    }

    fn head(&self) -> Number {
        match &self.last {
            Some(arrival) if self.is_held => arrival.head(),
            _ => self.source.head().becomes,
        }
    }

    fn bytes(&self) -> &[u8] {
        match &self.last {
            Some(arrival) if self.is_held => arrival.bytes(),
            _ => self.source.bytes(),
        }
    }
}
