//! What stands next in each of a stream's states.

ghost use Rattle.std.specs.Prelude.{◌≡◌, ℕ, length, map, drop, All, IfOk};
ghost use Rattle.afdx_conform.specs.HeldStates.{IsNext, IsWithin, IsCaseWithin};
ghost use Rattle.afdx_conform.specs.declared.levels.Rates.{Rates};
ghost use Rattle.afdx_conform.specs.Limits.{AreLimits, gone_of};
ghost use Rattle.afdx_conform.specs.Marks.{arrival_of};
ghost use Rattle.afdx_conform.specs.Streams.{Terms, is_open as is_open_by};

use crate::coming::Coming;
use crate::limits::{LeftFrame, Limits};
use crate::states::{Case, StreamState};
use std::alloc::{AllocError, Global};

/// Of each state, what stands next in it for the arrival that comes. Fails only out of memory.
pub(crate) fn cases_of(
    alloc: Global,
    limits: &Limits,
    held: &[StreamState],
    frames: &[LeftFrame],
    coming: &Coming<'_>,
) -> Result<Vec<Case>, AllocError>
    ensures held { IfOk result (λ out. map (λ c. c.held) out.items ≡ held.now) }
    ensures next { (z : Terms) → AreLimits z limits.now →
        coming.now.is_open ≡ is_open_by z (arrival_of coming.now.arrived.now) →
        IfOk result (λ out. All (λ c. IsNext z (arrival_of coming.now.arrived.now)
        (drop c.held.passed (map gone_of frames.now)) c.next) out.items) }
    ensures within { (rates : Rates) (count : ℕ) →
        All (λ h. IsWithin rates (length frames.now) count h) held.now →
        IfOk result (λ out. All (λ c. IsCaseWithin rates (length frames.now) count c) out.items) }
{
    let mut out = Vec::new(alloc);
    let arrived = coming.arrived;
    let is_open = coming.is_open;
    for state in held {
        let next = limits.next(arrived.time, &arrived.bytes, frames, state.passed, is_open);
        out.push(Case { held: *state, next })?;
    }
    Ok(out)
}
