//! The states of a stream in which the most frames are explained.

ghost use Rattle.std.specs.Prelude.{◌≡◌, ◌≤◌, ◌⊎◌, [], map, nat_eq, All, Contains, IfOk};
ghost use Rattle.std.specs.List.{filter};
ghost use Rattle.afdx_conform.specs.HeldStates.{past};
ghost use Rattle.afdx_conform.specs.declared.states.StreamState.{StreamState};

use crate::states::StreamState;
use std::alloc::{AllocError, Global};

/// The most frames that are explained in one of the states; without states `none`.
pub(crate) fn front_of(held: &[StreamState], none: usize) -> usize
    ensures greatest { All (λ h. h.passed ≤ result) held.now }
    ensures among { ((held.now ≡ []) × (result ≡ none))
        ⊎ ((h : StreamState) × Contains held.now h × (h.passed ≡ result)) }
{
    match held.iter().max_by_key(|state| state.passed) {
        Some(state) => state.passed,
        None => none,
    }
}

/// The states in which `front` frames are explained, as if `to` were. Fails only out of memory.
pub(crate) fn lead_past(
    alloc: Global,
    held: &[StreamState],
    front: usize,
    to: usize,
) -> Result<Vec<StreamState>, AllocError>
    ensures { IfOk result (λ out. out.items
        ≡ map (λ h. past to h) (filter (λ h. nat_eq h.passed front) held.now)) }
{
    held.iter()
        .filter(|state| state.passed == front)
        .map(|state| StreamState {
            passed: to,
            ..*state
        })
        .collect(alloc)
}
