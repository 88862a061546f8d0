//! Between which places no arrival of some bytes is left that is looked for.

ghost use Rattle.std.specs.Prelude.{◌≡◌, ◌≤◌, ◌<◌, ℕ, Bool, List, IfOk, IfSome, length, drop, get_or};
ghost use Rattle.std.specs.Prelude.{true};
ghost use Rattle.afdx_conform.specs.KnownBytes.{StandAt, has_bytes};
ghost use Rattle.afdx_conform.specs.Naming.{AreGaps, IsGap, is_wanted as is_wanted_by, no_gaps};

use crate::arrived::Arrived;
use crate::finding::Mark;
use crate::limits::LeftFrame;
use crate::naming::is_to_name;
use crate::places::no_less;
use std::alloc::{AllocError, Global};

/// What is looked for among arrivals whose events are over.
#[derive(Clone, Copy, Debug, PartialEq, Eq)]
pub(crate) enum Wanted {
    /// One that a finding may name.
    ToName,
    /// One that isn't refused.
    Accepted,
}

/// From one place on, before another, no arrival of some bytes is wanted.
#[derive(Clone, Copy, Debug)]
pub(crate) struct Gap {
    pub(crate) from: usize,
    pub(crate) to: usize,
}

/// The gaps of some bytes.
#[derive(Clone, Copy, Debug)]
pub(crate) struct Gaps {
    pub(crate) to_name: Gap,
    pub(crate) accepted: Gap,
}

/// Whether an arrival that is marked so is wanted.
fn is_wanted(wanted: Wanted, mark: Mark) -> bool
    ensures { result ≡ is_wanted_by wanted mark }
{
    match wanted {
        Wanted::ToName => is_to_name(mark),
        Wanted::Accepted => mark.reason.is_none(),
    }
}

/// Where the first of these places is whose arrival isn't judged yet, or wanted.
fn next_wanted(wanted: Wanted, marks: &[Mark], places: &[usize]) -> usize
    ensures { (test : Arrived → Bool) (arrivals : List Arrived) (start : ℕ) →
        length marks.now ≤ length arrivals →
        StandAt test start (drop start arrivals) places.now →
        IsGap wanted test (record { from = start; to = result }) arrivals marks.now }
{
    for place in places {
        if *place >= marks.len() {
            return marks.len();
        }
        if is_wanted(wanted, marks[*place]) {
            return *place;
        }
    }
    marks.len()
}

/// From where on it isn't known from a place on.
fn start_in(gap: Gap, from: usize) -> usize
    ensures low { from ≤ result }
    ensures known { (p : ℕ) → from ≤ p → p < result → (gap.from ≤ p) × (p < gap.to) }
{
    if gap.from > from {
        return from;
    }
    from.max(gap.to)
}

/// From a later place on, by what was known from an earlier one on. All arrivals of these bytes
/// stand at `places`.
fn next_gap(wanted: Wanted, gap: Gap, from: usize, marks: &[Mark], places: &[usize]) -> Gap
    ensures from { result.from ≡ from }
    ensures gap { (test : Arrived → Bool) (arrivals : List Arrived) →
        length marks.now ≤ length arrivals → StandAt test 0 arrivals places.now →
        IsGap wanted test gap arrivals marks.now →
        IsGap wanted test result arrivals marks.now }
{
    let start = start_in(gap, from);
    let later = no_less(places, start);
    let to = next_wanted(wanted, marks, later);
    Gap { from, to }
}

/// The gaps from a later place on.
pub(crate) fn next_gaps(gaps: Gaps, from: usize, marks: &[Mark], places: &[usize]) -> Gaps
    ensures to_name { result.to_name.from ≡ from }
    ensures accepted { result.accepted.from ≡ from }
    ensures gaps { (test : Arrived → Bool) (arrivals : List Arrived) →
        length marks.now ≤ length arrivals → StandAt test 0 arrivals places.now →
        AreGaps test gaps arrivals marks.now → AreGaps test result arrivals marks.now }
{
    let to_name = next_gap(Wanted::ToName, gaps.to_name, from, marks, places);
    let accepted = next_gap(Wanted::Accepted, gaps.accepted, from, marks, places);
    Gaps { to_name, accepted }
}

/// Where nothing is known.
pub(crate) fn unknown_gaps() -> Gaps
    ensures { result ≡ no_gaps }
{
    let to_name = Gap { from: 0, to: 0 };
    let accepted = Gap { from: 0, to: 0 };
    Gaps { to_name, accepted }
}

/// So many of which nothing is known. Fails only out of memory.
pub(crate) fn unknown_all(alloc: Global, count: usize) -> Result<Vec<Gaps>, AllocError>
    ensures { IfOk result (λ all. (length all.items ≡ count)
        × ((i : ℕ) → get_or all.items i no_gaps ≡ no_gaps)) }
{
    let mut all = Vec::with_capacity(alloc, count)?;
    for place in 0..count {
        all.push(unknown_gaps())?;
    }
    Ok(all)
}

/// The first of these places, if the arrival there has the frame's bytes.
pub(crate) fn first_alike(
    arrivals: &[Arrived],
    places: &[usize],
    frame: &LeftFrame,
) -> Option<usize>
    ensures { IfSome result (λ first. (a : Arrived) →
        has_bytes frame.now.bytes (get_or arrivals.now first a) ≡ true) }
{
    if places.is_empty() {
        return None;
    }
    let first = places[0];
    if first >= arrivals.len() {
        return None;
    }
    let arrived = &arrivals[first];
    if arrived.bytes.is_same(&frame.bytes) {
        Some(first)
    } else {
        None
    }
}
