//! What is found where an arrival leads to no state.

ghost use Rattle.std.specs.Prelude.{◌≡◌, ◌<◌, ◌+◌, ℕ, [], length, map, drop};
ghost use Rattle.std.specs.Prelude.{false, IsTrue, All, IfOk, Some};
ghost use Rattle.afdx_frame.specs.Regulation.{Regulation};
ghost use Rattle.afdx_conform.specs.Accounts.{AreRates, AreLevels};
ghost use Rattle.afdx_conform.specs.Arriving.{AreAccepted, Deviates, IsSpanOf, MayLookUp};
ghost use Rattle.afdx_conform.specs.Findings.{deviation_of};
ghost use Rattle.afdx_conform.specs.HeldStates.{AreWithin};
ghost use Rattle.afdx_conform.specs.Leeway.{Leeway as By};
ghost use Rattle.afdx_conform.specs.Limits.{AreLimits, gone_of};
ghost use Rattle.afdx_conform.specs.Marks.{arrival_of};
ghost use Rattle.afdx_conform.specs.Ranges.{most_held};
ghost use Rattle.afdx_conform.specs.Streams.{Terms};

use crate::bounds::Bounds;
use crate::coming::Coming;
use crate::deviating::deviation;
use crate::finding::{Deviation, Finding};
use crate::fronts::{front_of, lead_past};
use crate::known_bytes::Lookup;
use crate::leading::{accept_all, led_from};
use crate::levels::Rates;
use crate::limits::{LeftFrame, Limits};
use crate::recorded::StreamRecord;
use crate::states::StreamState;
use std::alloc::{AllocError, Global};

/// Frames of a stream: those from `first` on, before `past`.
#[derive(Clone, Copy, Debug)]
pub(crate) struct Span {
    pub(crate) first: usize,
    pub(crate) past: usize,
}

/// The states behind an arrival. The `passed` frames are unexplained; `last` is found behind them,
/// if there is something.
#[derive(Drop)]
pub(crate) struct Outcome {
    pub(crate) held: Vec<StreamState>,
    pub(crate) passed: Span,
    pub(crate) last: Option<Finding>,
}

/// Whether there is a state.
pub(crate) fn has_any(held: &[StreamState]) -> bool
    ensures left { IsTrue result → ¬ (held.now ≡ []) }
    ensures none { result ≡ false → held.now ≡ [] }
{
    !held.is_empty()
}

/// The finding that ends an arrival's event, and the states once it was accepted in each of these,
/// in which it has to pass. The `passed` frames are unexplained.
fn accept_with(
    alloc: Global,
    rates: &Rates,
    held: Vec<StreamState>,
    coming: &Coming<'_>,
    passed: Span,
    finding: Finding,
) -> Result<Outcome, AllocError>
    requires { All (λ h. AreLevels rates.now h.levels) held.items }
    ensures defined { AreAccepted (λ done. IfOk result (λ out. done out.held.items)) rates.now
        coming.now.arrived.now coming.now.ns held.items }
    ensures found { IfOk result (λ out. (out.passed ≡ passed) × (out.last ≡ Some finding)) }
    ensures within { (link : Regulation) (by : By) (frames count : ℕ) →
        AreRates link by rates.now → AreWithin rates.now frames count held.items →
        IfOk result (λ out. AreWithin rates.now frames count out.held.items) }
{
    let before = held.as_slice();
    let held = accept_all(alloc, rates, before, coming.arrived, coming.ns)?;
    Ok(Outcome {
        held,
        passed,
        last: Some(finding),
    })
}

/// What the switch did with the arrival, by this frame.
fn deviation_by(
    limits: &Limits,
    recorded: &StreamRecord<'_>,
    lookup: &Lookup<'_>,
    coming: &Coming<'_>,
    frame: &LeftFrame,
) -> Deviation
    requires { MayLookUp lookup.now recorded.now.arrivals.now }
    ensures { (z : Terms) → AreLimits z limits.now → result
        ≡ deviation_of z (map arrival_of (drop lookup.now.from recorded.now.arrivals.now))
        (arrival_of coming.now.arrived.now) (gone_of frame.now) }
{
    let arrivals = recorded.arrivals;
    let arrived = coming.arrived;
    let places = lookup.known.places(limits, arrivals, frame, lookup.each);
    deviation(limits, arrived, arrivals, lookup.from, places, frame)
}

/// What the switch did with an arrival that leads to no state, and how the states go on. Fails only
/// out of memory.
pub(crate) fn deviate(
    alloc: Global,
    bounds: &Bounds,
    held: Vec<StreamState>,
    recorded: &StreamRecord<'_>,
    lookup: &Lookup<'_>,
    coming: &Coming<'_>,
) -> Result<Outcome, AllocError>
    requires few { length recorded.now.frames.now < most_held }
    requires lookup { MayLookUp lookup.now recorded.now.arrivals.now }
    requires within { (count : ℕ) × (count < most_held)
        × AreWithin bounds.now.rates (length recorded.now.frames.now) count held.items }
    ensures defined { Deviates (λ done. IfOk result done) bounds.now recorded.now lookup.now.from
        coming.now held.items }
    ensures within { (link : Regulation) (by : By) (count : ℕ) →
        AreRates link by bounds.now.rates →
        AreWithin bounds.now.rates (length recorded.now.frames.now) count held.items →
        IfOk result (λ out. AreWithin bounds.now.rates (length recorded.now.frames.now) (count + 1)
        out.held.items) }
    ensures passed { IfOk result (λ out. IsSpanOf out.passed recorded.now.frames.now) }
{
    let mut held = held;
    let frames = recorded.frames;
    let at_first = held.as_slice();
    let first = front_of(at_first, frames.len());
    let stopped = Finding::Stopped(coming.arrived.number);
    let mut front = first;
    while front < frames.len() {
        let frame = &frames[front];
        match deviation_by(&bounds.limits, recorded, lookup, coming, frame) {
            Deviation::Stopped => {
                let passed = Span { first, past: front };
                return accept_with(alloc, &bounds.rates, held, coming, passed, stopped);
            }
            Deviation::Took(finding) => {
                let leading = held.as_slice();
                let ahead = lead_past(alloc, leading, front, front + 1)?;
                let passed = Span { first, past: front };
                return accept_with(alloc, &bounds.rates, ahead, coming, passed, finding);
            }
            Deviation::Other => {}
        }
        let before = held.as_slice();
        let lead = lead_past(alloc, before, front, front + 1)?;
        held = lead;
        front += 1;
        let asked = held.as_slice();
        let led = led_from(alloc, bounds, asked, frames, coming)?;
        if has_any(led.as_slice()) {
            return Ok(Outcome {
                held: led,
                passed: Span { first, past: front },
                last: None,
            });
        }
    }
    let passed = Span { first, past: front };
    accept_with(alloc, &bounds.rates, held, coming, passed, stopped)
}
