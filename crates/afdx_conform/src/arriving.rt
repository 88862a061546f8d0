//! How far a stream is judged: what an arrival changes.

ghost use Rattle.std.specs.Prelude.{◌≡◌, ◌≤◌, ◌<◌, ◌-◌, ◌+◌, ◌++◌, ◌∷◌, [], ℕ, List, false, nat_lt};
ghost use Rattle.std.specs.Prelude.{if◌then◌else◌, length, map, All, IfOk, OnOk, OnErr};
ghost use Rattle.std.specs.Prelude.{vec_len, vec_capacity};
ghost use Rattle.std.specs.Option.{option_to_list};
ghost use Rattle.afdx_frame.specs.Regulation.{Regulation};
ghost use Rattle.afdx_conform.specs.Accounts.{AreLevels, AreRates};
ghost use Rattle.afdx_conform.specs.Arriving.{JudgesArrival, JudgesDeviation};
ghost use Rattle.afdx_conform.specs.KnownBytes.{AreKnown};
ghost use Rattle.afdx_conform.specs.Leeway.{Leeway as By};
ghost use Rattle.afdx_conform.specs.Explanations.{link};
ghost use Rattle.afdx_conform.specs.Findings.{thinned_onto, most_states, rate_mark};
ghost use Rattle.afdx_conform.specs.Findings.{is_uncertain as uncertain_of};
ghost use Rattle.afdx_conform.specs.HeldStates.{AreWithin, IsWithin, state_of};
ghost use Rattle.afdx_conform.specs.Judging.{IsUnchanged};
ghost use Rattle.afdx_conform.specs.Marks.{IsCharged, arrival_of};
ghost use Rattle.afdx_conform.specs.Naming.{AreSettled};
ghost use Rattle.afdx_conform.specs.Ranges.{most_held};
ghost use Rattle.afdx_conform.specs.Streams.{Gone, Terms};

use crate::arrived::Arrived;
use crate::bounds::Bounds;
use crate::coming::Coming;
use crate::deviate::{deviate, has_any};
use crate::finding::{Finding, Mark};
use crate::judging::Judging;
use crate::known_bytes::{KnownBytes, Lookup};
use crate::leading::{led_alone, led_from};
use crate::levels::Rates;
use crate::naming::unexplained_all;
use crate::recorded::StreamRecord;
use crate::states::{StreamState, thinned};
use crate::testing::{is_uncertain, may_go_once};
use afdx_police::Reason;
use std::alloc::{AllocError, Global};

/// The most states that are kept.
const MOST_STATES: usize = 1_024;

/// Why the rule refuses an arrival, if it does so in each state, and whether both answers were
/// right in one.
#[derive(Clone, Copy, Debug)]
struct Tested {
    reason: Option<Reason>,
    is_uncertain: bool,
}

/// Why the rule refuses an arrival for its rate, if it does so in each of these states.
fn refusal(rates: &Rates, held: &[StreamState], arrived: &Arrived, ns: u64) -> Option<Reason>
    requires { All (λ h. AreLevels rates.now h.levels) held.now }
    ensures { (z : Terms) (ys : List Gone) (last : ℕ) →
        AreRates (link z) z.by rates.now → IsCharged z arrived.now →
        ns ≡ arrived.now.time - last → result
        ≡ rate_mark z last (arrival_of arrived.now) (map (state_of ys) held.now) }
{
    if may_go_once(rates, held, arrived, ns) {
        None
    } else {
        Some(Reason::OverRate)
    }
}

/// Tests an arrival in the states before it.
fn test_arrival(rates: &Rates, held: &[StreamState], arrived: &Arrived, ns: u64) -> Tested
    requires { All (λ h. AreLevels rates.now h.levels) held.now }
    ensures reason { (z : Terms) (ys : List Gone) (last : ℕ) →
        AreRates (link z) z.by rates.now → IsCharged z arrived.now →
        ns ≡ arrived.now.time - last → result.reason
        ≡ rate_mark z last (arrival_of arrived.now) (map (state_of ys) held.now) }
    ensures uncertain { (z : Terms) (ys : List Gone) (last : ℕ) →
        AreRates (link z) z.by rates.now → IsCharged z arrived.now →
        ns ≡ arrived.now.time - last → result.is_uncertain
        ≡ uncertain_of z last (arrival_of arrived.now) (map (state_of ys) held.now) }
{
    Tested {
        reason: refusal(rates, held, arrived, ns),
        is_uncertain: is_uncertain(rates, held, arrived, ns),
    }
}

/// These are the states then; if they are too many, nothing is judged any more.
fn settle(judging: &mut Judging, few: Vec<StreamState>, is_uncertain: bool)
    requires { judging.old.uncertain < most_held }
    ensures held { judging.new.held.items ≡ few.items }
    ensures marks { judging.new.marks.items ≡ judging.old.marks.items }
    ensures uncertain { judging.new.uncertain
        ≡ judging.old.uncertain + (if is_uncertain then 1 else 0) }
    ensures unsure { judging.new.is_unsure ≡ nat_lt most_states (length few.items) }
{
    if is_uncertain {
        judging.uncertain += 1;
    }
    judging.is_unsure = few.len() > MOST_STATES;
    judging.held = few;
}

/// The arrival led to these states: its mark, and those that no other outdoes, are kept.
fn go_on(
    judging: &mut Judging,
    alloc: Global,
    led: &[StreamState],
    tested: Tested,
) -> Result<(), AllocError>
    requires { judging.old.uncertain < most_held }
    ensures marks { OnOk result (judging.new.marks.items
        ≡ judging.old.marks.items ++ record { reason = tested.reason; is_named = false } ∷ []) }
    ensures uncertain { OnOk result (judging.new.uncertain
        ≡ judging.old.uncertain + (if tested.is_uncertain then 1 else 0)) }
    ensures unsure { OnOk result (judging.new.is_unsure
        ≡ nat_lt most_states (length judging.new.held.items)) }
    ensures thinned { (ys : List Gone) → All (λ h. h.passed ≤ length ys) led.now →
        OnOk result (map (state_of ys) judging.new.held.items
        ≡ thinned_onto [] (map (state_of ys) led.now)) }
    ensures within { (rates : Rates) (frames count : ℕ) →
        All (λ h. IsWithin rates frames count h) led.now →
        OnOk result (All (λ h. IsWithin rates frames count h) judging.new.held.items) }
    ensures refused { OnErr result (IsUnchanged judging.old judging.new) }
{
    let few = thinned(alloc, led)?;
    judging.marks.push(Mark {
        reason: tested.reason,
        is_named: false,
    })?;
    settle(judging, few, tested.is_uncertain);
    Ok(())
}

/// The arrival led from the one state to one: its mark is kept, and this state in place of the one
/// before. Fails only out of memory; then nothing has changed.
fn go_on_alone(judging: &mut Judging, state: StreamState, tested: Tested) -> Result<(), AllocError>
    requires counted { judging.old.uncertain < most_held }
    requires alone { length judging.old.held.items ≡ 1 }
    ensures held { OnOk result (judging.new.held.items ≡ state ∷ []) }
    ensures marks { OnOk result (judging.new.marks.items
        ≡ judging.old.marks.items ++ record { reason = tested.reason; is_named = false } ∷ []) }
    ensures uncertain { OnOk result (judging.new.uncertain
        ≡ judging.old.uncertain + (if tested.is_uncertain then 1 else 0)) }
    ensures unsure { OnOk result (judging.new.is_unsure ≡ false) }
    ensures refused { OnErr result (IsUnchanged judging.old judging.new) }
{
    judging.marks.push(Mark {
        reason: tested.reason,
        is_named: false,
    })?;
    judging.held[0] = state;
    judging.is_unsure = false;
    if tested.is_uncertain {
        judging.uncertain += 1;
    }
    Ok(())
}

/// One finding more, if there is one, for which there is room.
fn add_last(found: &mut Vec<Finding>, last: Option<Finding>)
    requires { vec_len found.old < vec_capacity found.old }
    ensures { found.new.items ≡ found.old.items ++ option_to_list last }
{
    if let Some(finding) = last {
        found.push_reserved(finding);
    }
}

/// The arrival led to no state: what is found, in its order. Once a mark has changed nothing fails.
#[cold]
#[inline(never)]
fn go_wrong(
    judging: &mut Judging,
    alloc: Global,
    bounds: &Bounds,
    known: &mut KnownBytes,
    recorded: &StreamRecord<'_>,
    coming: &Coming<'_>,
) -> Result<Vec<Finding>, AllocError>
    requires place { length judging.old.marks.items < length recorded.now.arrivals.now }
    requires few { length recorded.now.frames.now < most_held }
    requires counted { judging.old.uncertain < most_held }
    requires known { AreKnown known.old recorded.now.arrivals.now }
    requires settled { AreSettled known.old.gaps.items recorded.now.arrivals.now
        judging.old.marks.items }
    requires within { (count : ℕ) × (count < most_held)
        × AreWithin bounds.now.rates (length recorded.now.frames.now) count
        judging.old.held.items }
    ensures defined { JudgesDeviation (λ done. IfOk result done) bounds.now recorded.now
        judging.old judging.new coming.now }
    ensures marks { OnOk result
        (length judging.new.marks.items ≡ length judging.old.marks.items + 1) }
    ensures counted { OnOk result (judging.new.uncertain ≤ judging.old.uncertain + 1) }
    ensures within { (l : Regulation) (by : By) (count : ℕ) → AreRates l by bounds.now.rates →
        AreWithin bounds.now.rates (length recorded.now.frames.now) count judging.old.held.items →
        OnOk result (AreWithin bounds.now.rates (length recorded.now.frames.now) (count + 1)
        judging.new.held.items) }
    ensures known { AreKnown known.new recorded.now.arrivals.now }
    ensures settled { AreSettled known.new.gaps.items recorded.now.arrivals.now
        judging.new.marks.items }
    ensures refused { OnErr result (IsUnchanged judging.old judging.new) }
{
    let arrivals = recorded.arrivals;
    let states = judging.held.as_slice();
    let tested = test_arrival(&bounds.rates, states, coming.arrived, coming.ns);
    let held = Vec::from_slice(alloc, states)?;
    let from = judging.marks.len() + 1;
    let all = known.each(arrivals)?;
    let each = all.as_slice();
    let lookup = Lookup { known, each, from };
    let outcome = deviate(alloc, bounds, held, recorded, &lookup, coming)?;
    let few = thinned(alloc, outcome.held.as_slice())?;
    let frames = &recorded.frames[outcome.passed.first..outcome.passed.past];
    let mut found = Vec::with_capacity(alloc, frames.len() + 1)?;
    judging.marks.reserve(1)?;
    let marks = &mut judging.marks;
    let passed = StreamRecord { arrivals, frames };
    unexplained_all(&bounds.limits, known, &passed, each, marks, &mut found);
    add_last(&mut found, outcome.last);
    judging.marks.push_reserved(Mark {
        reason: tested.reason,
        is_named: false,
    });
    settle(judging, few, tested.is_uncertain);
    Ok(found)
}

/// Judges an arrival, the first without a mark: gives what is found, in its order. Fails only out
/// of memory; then nothing has changed. `known` are the bytes of the arrivals.
pub(crate) fn judge_with(
    judging: &mut Judging,
    alloc: Global,
    bounds: &Bounds,
    known: &mut KnownBytes,
    recorded: &StreamRecord<'_>,
    coming: &Coming<'_>,
) -> Result<Vec<Finding>, AllocError>
    requires place { length judging.old.marks.items < length recorded.now.arrivals.now }
    requires few { length recorded.now.frames.now < most_held }
    requires counted { judging.old.uncertain < most_held }
    requires known { AreKnown known.old recorded.now.arrivals.now }
    requires settled { AreSettled known.old.gaps.items recorded.now.arrivals.now
        judging.old.marks.items }
    requires within { (count : ℕ) × (count < most_held)
        × AreWithin bounds.now.rates (length recorded.now.frames.now) count
        judging.old.held.items }
    ensures defined { JudgesArrival (λ done. IfOk result done) bounds.now recorded.now
        judging.old judging.new coming.now }
    ensures marks { OnOk result
        (length judging.new.marks.items ≡ length judging.old.marks.items + 1) }
    ensures counted { OnOk result (judging.new.uncertain ≤ judging.old.uncertain + 1) }
    ensures within { (l : Regulation) (by : By) (count : ℕ) → AreRates l by bounds.now.rates →
        AreWithin bounds.now.rates (length recorded.now.frames.now) count judging.old.held.items →
        OnOk result (AreWithin bounds.now.rates (length recorded.now.frames.now) (count + 1)
        judging.new.held.items) }
    ensures known { AreKnown known.new recorded.now.arrivals.now }
    ensures settled { AreSettled known.new.gaps.items recorded.now.arrivals.now
        judging.new.marks.items }
    ensures refused { OnErr result (IsUnchanged judging.old judging.new) }
{
    let arrived = coming.arrived;
    let frames = recorded.frames;
    match arrived.fault {
        Some(fault) => {
            judging.marks.push(Mark {
                reason: Some(fault),
                is_named: false,
            })?;
            return Ok(Vec::new(alloc));
        }
        None => {}
    }
    let states = judging.held.as_slice();
    let tested = test_arrival(&bounds.rates, states, arrived, coming.ns);
    if let Some(state) = led_alone(bounds, states, frames, coming) {
        go_on_alone(judging, state, tested)?;
        return Ok(Vec::new(alloc));
    }
    let led = led_from(alloc, bounds, states, frames, coming)?;
    let ahead = led.as_slice();
    if has_any(ahead) {
        go_on(judging, alloc, ahead, tested)?;
        return Ok(Vec::new(alloc));
    }
    go_wrong(judging, alloc, bounds, known, recorded, coming)
}
