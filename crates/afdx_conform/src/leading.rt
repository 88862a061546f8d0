//! The states to which an arrival leads.

ghost use Rattle.std.specs.Prelude.{◌≡◌, ◌≤◌, ◌-◌, ◌+◌, ◌++◌, ◌∷◌, [], ℕ, length, map, All};
ghost use Rattle.std.specs.Prelude.{IfOk, IfSome, IsTrue};
ghost use Rattle.std.specs.Option.{option_to_list};
ghost use Rattle.afdx_frame.specs.Regulation.{Regulation};
ghost use Rattle.afdx_conform.specs.Accounts.{AreRates, AreLevels, AreNear};
ghost use Rattle.afdx_conform.specs.Arriving.{AreAccepted, ComesAt, all_led};
ghost use Rattle.afdx_conform.specs.Bounds.{AreBounds};
ghost use Rattle.afdx_conform.specs.Explanations.{link, levels_then};
ghost use Rattle.afdx_conform.specs.Levels.{has_to_pass, charged};
ghost use Rattle.afdx_conform.specs.HeldStates.{IsSmall, IsWithin, state_of};
ghost use Rattle.afdx_conform.specs.Leeway.{Leeway as By};
ghost use Rattle.afdx_conform.specs.Limits.{gone_of};
ghost use Rattle.afdx_conform.specs.Marks.{IsCharged, arrival_of};
ghost use Rattle.afdx_conform.specs.Ranges.{most_charge};
ghost use Rattle.afdx_conform.specs.States.{states_at};
ghost use Rattle.afdx_conform.specs.Streams.{Terms};

use crate::arrived::Arrived;
use crate::bounds::Bounds;
use crate::cases::cases_of;
use crate::coming::Coming;
use crate::levels::{Levels, Rates};
use crate::limits::LeftFrame;
use crate::states::{StreamState, lead_all};
use std::alloc::{AllocError, Global};

/// The state that there is, if there is just one.
fn only(accepted: Option<StreamState>, refused: Option<StreamState>) -> Option<StreamState>
    ensures { IfSome result (λ h. option_to_list accepted ++ option_to_list refused ≡ h ∷ []) }
{
    match accepted {
        Some(_) => match refused {
            Some(_) => None,
            None => accepted,
        },
        None => refused,
    }
}

/// The state to which an arrival leads from this one, if it leads to one alone.
fn led_one(
    bounds: &Bounds,
    state: StreamState,
    frames: &[LeftFrame],
    coming: &Coming<'_>,
) -> Option<StreamState>
    requires { IsSmall bounds.now.rates state }
    ensures defined { (z : Terms) (last : ℕ) →
        AreBounds z bounds.now → IsCharged z coming.now.arrived.now → ComesAt z last coming.now →
        IfSome result (λ h. states_at z (arrival_of coming.now.arrived.now)
        (levels_then z state.levels last (arrival_of coming.now.arrived.now))
        (state_of (map gone_of frames.now) state) ≡ state_of (map gone_of frames.now) h ∷ []) }
    ensures within { (link : Regulation) (by : By) (count : ℕ) →
        AreRates link by bounds.now.rates →
        IsWithin bounds.now.rates (length frames.now) count state →
        IfSome result (λ h. IsWithin bounds.now.rates (length frames.now) (count + 1) h) }
{
    let arrived = coming.arrived;
    let bytes = &arrived.bytes;
    let next = bounds
        .limits
        .next(arrived.time, bytes, frames, state.passed, coming.is_open);
    let levels = bounds.rates.later(state.levels, coming.ns);
    let (accepted, refused) = state.lead(&bounds.rates, levels, arrived.charge, next);
    only(accepted, refused)
}

/// The state to which an arrival leads, where there is one state and it leads to one alone.
pub(crate) fn led_alone(
    bounds: &Bounds,
    held: &[StreamState],
    frames: &[LeftFrame],
    coming: &Coming<'_>,
) -> Option<StreamState>
    requires { All (λ h. IsSmall bounds.now.rates h) held.now }
    ensures alone { IfSome result (λ h. length held.now ≡ 1) }
    ensures defined { (z : Terms) (last : ℕ) →
        AreBounds z bounds.now → IsCharged z coming.now.arrived.now → ComesAt z last coming.now →
        IfSome result (λ h. map (state_of (map gone_of frames.now)) (h ∷ []) ≡ all_led z last
        (arrival_of coming.now.arrived.now) (map (state_of (map gone_of frames.now)) held.now)) }
    ensures within { (link : Regulation) (by : By) (count : ℕ) →
        AreRates link by bounds.now.rates →
        All (λ h. IsWithin bounds.now.rates (length frames.now) count h) held.now →
        IfSome result (λ h. All
        (λ k. IsWithin bounds.now.rates (length frames.now) (count + 1) k) (h ∷ [])) }
{
    match held {
        [state] => led_one(bounds, *state, frames, coming),
        _ => None,
    }
}

/// The states to which an arrival leads from these. Fails only out of memory.
pub(crate) fn led_from(
    alloc: Global,
    bounds: &Bounds,
    held: &[StreamState],
    frames: &[LeftFrame],
    coming: &Coming<'_>,
) -> Result<Vec<StreamState>, AllocError>
    requires { All (λ h. IsSmall bounds.now.rates h) held.now }
    ensures defined { (z : Terms) (last : ℕ) →
        AreBounds z bounds.now → IsCharged z coming.now.arrived.now → ComesAt z last coming.now →
        IfOk result (λ out. map (state_of (map gone_of frames.now)) out.items ≡ all_led z last
        (arrival_of coming.now.arrived.now) (map (state_of (map gone_of frames.now)) held.now)) }
    ensures within { (link : Regulation) (by : By) (count : ℕ) →
        AreRates link by bounds.now.rates →
        All (λ h. IsWithin bounds.now.rates (length frames.now) count h) held.now →
        IfOk result (λ out.
        All (λ h. IsWithin bounds.now.rates (length frames.now) (count + 1) h) out.items) }
{
    let cases = cases_of(alloc, &bounds.limits, held, frames, coming)?;
    lead_all(
        alloc,
        &bounds.rates,
        cases.as_slice(),
        coming.ns,
        coming.arrived.charge,
    )
}

/// The levels once a frame of this charge was accepted; the same where it can't have been.
fn charged_with_room(rates: &Rates, levels: Levels, charge: u64) -> Levels
    requires cost { charge ≤ most_charge }
    requires bounded { AreLevels rates.now levels }
    ensures bounded { AreLevels rates.now result }
    ensures near { AreNear rates.now levels → AreNear rates.now result }
    ensures moved { (link : Regulation) (by : By) → AreRates link by rates.now →
        AreNear rates.now levels → IsTrue (has_to_pass link by charge levels) →
        result ≡ charged link by charge levels }
{
    if rates.may_pass(levels, charge) {
        rates.charged(levels, charge)
    } else {
        levels
    }
}

/// The states where an arrival was accepted that has to pass in each of these.
pub(crate) fn accept_all(
    alloc: Global,
    rates: &Rates,
    held: &[StreamState],
    arrived: &Arrived,
    ns: u64,
) -> Result<Vec<StreamState>, AllocError>
    requires { All (λ h. AreLevels rates.now h.levels) held.now }
    ensures defined { AreAccepted (λ done. IfOk result (λ out. done out.items)) rates.now
        arrived.now ns held.now }
    ensures within { (link : Regulation) (by : By) (frames count : ℕ) →
        AreRates link by rates.now →
        All (λ h. IsWithin rates.now frames count h) held.now →
        IfOk result (λ out. All (λ h. IsWithin rates.now frames count h) out.items) }
{
    let mut out = Vec::new(alloc);
    for state in held {
        let levels = rates.later(state.levels, ns);
        let levels = charged_with_room(rates, levels, arrived.charge);
        out.push(StreamState { levels, ..*state })?;
    }
    Ok(out)
}
