//! The states of a stream before its first event.

ghost use Rattle.std.specs.Prelude.{◌≡◌, ◌≤◌, ℕ, length, map, All, IfOk};
ghost use Rattle.afdx_frame.specs.Regulation.{Regulation};
ghost use Rattle.afdx_conform.specs.Accounts.{AreRates, AreLevels, AreNear};
ghost use Rattle.afdx_conform.specs.Bounds.{AreBounds};
ghost use Rattle.afdx_conform.specs.Explanations.{link};
ghost use Rattle.afdx_conform.specs.HeldStates.{IsWithin, state_of};
ghost use Rattle.afdx_conform.specs.Leeway.{Leeway as By};
ghost use Rattle.afdx_conform.specs.LeewayOf.{leeway_of};
ghost use Rattle.afdx_conform.specs.Levels.{first_levels as first_levels_of};
ghost use Rattle.afdx_conform.specs.Limits.{AreLimits, gone_of};
ghost use Rattle.afdx_conform.specs.States.{first_states};
ghost use Rattle.afdx_conform.specs.Streams.{Terms, is_begun as is_begun_by};

use crate::bounds::Bounds;
use crate::leeway::Leeway;
use crate::levels::{Levels, Rates};
use crate::limits::{LeftFrame, Limits};
use crate::states::StreamState;
use std::alloc::{AllocError, Global};

/// What is known of the account before the first arrival.
fn first_levels(rates: &Rates, by: &Leeway) -> Levels
    ensures defined { (link : Regulation) (b : By) → AreRates link b rates.now →
        b ≡ leeway_of by.now → result ≡ first_levels_of link b b.start }
    ensures bounded { AreLevels rates.now result }
    ensures near { AreNear rates.now result }
{
    match by.start {
        None => Levels { lo: 0, hi: 0 },
        Some(_) => Levels {
            lo: 0,
            hi: rates.full + rates.slow_slip,
        },
    }
}

/// Whether the frame may be of an arrival before the start.
fn is_begun(limits: &Limits, by: &Leeway, frame: &LeftFrame) -> bool
    ensures { (z : Terms) → AreLimits z limits.now → z.by ≡ leeway_of by.now →
        result ≡ is_begun_by z (gone_of frame.now) }
{
    match by.start {
        None => false,
        Some(start) => frame.time < start + limits.latency + limits.reach,
    }
}

/// The states before the first event: one for each number of frames that may be of arrivals before
/// the start. Fails only out of memory.
#[cold]
#[inline(never)]
pub(crate) fn first_held(
    alloc: Global,
    bounds: &Bounds,
    by: &Leeway,
    frames: &[LeftFrame],
) -> Result<Vec<StreamState>, AllocError>
    ensures defined { (z : Terms) → AreBounds z bounds.now → z.by ≡ leeway_of by.now →
        IfOk result (λ out. map (state_of (map gone_of frames.now)) out.items
        ≡ first_states z (first_levels_of (link z) z.by z.by.start) (map gone_of frames.now)) }
    ensures within { IfOk result (λ out.
        All (λ h. IsWithin bounds.now.rates (length frames.now) 0 h) out.items) }
{
    let levels = first_levels(&bounds.rates, by);
    let first = StreamState {
        passed: 0,
        levels,
        waiting: 0,
    };
    let mut out = Vec::from_slice(alloc, &[first])?;
    for place in 0..frames.len() {
        if is_begun(&bounds.limits, by, &frames[place]) {
            out.push(StreamState {
                passed: place + 1,
                levels,
                waiting: 0,
            })?;
        } else {
            return Ok(out);
        }
    }
    Ok(out)
}
