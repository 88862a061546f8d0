//! How far a stream is judged: what a closing changes.

ghost use Rattle.std.specs.Prelude.{◌≡◌, ◌≤◌, ℕ, length, nat_le, IfOk, OnErr};
ghost use Rattle.std.specs.List.{list_any};
ghost use Rattle.afdx_conform.specs.Arriving.{JudgesClosing, JudgesSkipped};
ghost use Rattle.afdx_conform.specs.HeldStates.{AreWithin};
ghost use Rattle.afdx_conform.specs.KnownBytes.{AreKnown};
ghost use Rattle.afdx_conform.specs.Naming.{AreSettled};

use crate::bounds::Bounds;
use crate::finding::{Finding, Mark};
use crate::fronts::{front_of, lead_past};
use crate::known_bytes::KnownBytes;
use crate::naming::unexplained_all;
use crate::recorded::StreamRecord;
use crate::states::{StreamState, close};
use std::alloc::{AllocError, Global};

/// How far a stream is judged: its states, what is known of the arrivals whose events are over, how
/// many of them the options left uncertain; and whether there were more states than are kept, from
/// where on nothing is judged.
#[derive(Debug, Drop)]
pub(crate) struct Judging {
    pub held: Vec<StreamState>,
    pub marks: Vec<Mark>,
    pub uncertain: u64,
    pub is_unsure: bool,
}

/// Whether so many frames, or more, are explained in one of the states.
fn is_one_passed(held: &[StreamState], passed: usize) -> bool
    ensures { result ≡ list_any (λ h. nat_le passed h.passed) held.now }
{
    held.iter().any(|state| passed <= state.passed)
}

/// What is found where no state passed the first `closed` frames: those that no arrival explains.
#[cold]
#[inline(never)]
fn skip(
    judging: &mut Judging,
    alloc: Global,
    bounds: &Bounds,
    known: &mut KnownBytes,
    recorded: &StreamRecord<'_>,
    closed: usize,
) -> Result<Vec<Finding>, AllocError>
    requires marks { length judging.old.marks.items ≤ length recorded.now.arrivals.now }
    requires closed { closed ≤ length recorded.now.frames.now }
    requires known { AreKnown known.old recorded.now.arrivals.now }
    requires settled { AreSettled known.old.gaps.items recorded.now.arrivals.now
        judging.old.marks.items }
    ensures defined { JudgesSkipped (λ done. IfOk result done) bounds.now recorded.now judging.old
        judging.new closed }
    ensures marks { length judging.new.marks.items ≡ length judging.old.marks.items }
    ensures uncertain { judging.new.uncertain ≡ judging.old.uncertain }
    ensures within { (count : ℕ) →
        AreWithin bounds.now.rates (length recorded.now.frames.now) count judging.old.held.items →
        AreWithin bounds.now.rates (length recorded.now.frames.now) count judging.new.held.items }
    ensures known { AreKnown known.new recorded.now.arrivals.now }
    ensures settled { AreSettled known.new.gaps.items recorded.now.arrivals.now
        judging.new.marks.items }
    ensures refused { OnErr result (judging.new ≡ judging.old) }
{
    let arrivals = recorded.arrivals;
    let held = judging.held.as_slice();
    let foremost = front_of(held, recorded.frames.len());
    let front = foremost.min(closed);
    let frames = &recorded.frames[front..closed];
    let lead = lead_past(alloc, judging.held.as_slice(), front, closed)?;
    let each = known.each(arrivals)?;
    let mut found = Vec::with_capacity(alloc, frames.len())?;
    let passed = StreamRecord { arrivals, frames };
    unexplained_all(
        &bounds.limits,
        known,
        &passed,
        each.as_slice(),
        &mut judging.marks,
        &mut found,
    );
    judging.held = lead;
    Ok(found)
}

/// Judges the closing of the first `closed` frames: gives what is found, in its order. Fails only
/// out of memory; then nothing has changed. `known` are the bytes of the arrivals.
pub(crate) fn close_with(
    judging: &mut Judging,
    alloc: Global,
    bounds: &Bounds,
    known: &mut KnownBytes,
    recorded: &StreamRecord<'_>,
    closed: usize,
) -> Result<Vec<Finding>, AllocError>
    requires marks { length judging.old.marks.items ≤ length recorded.now.arrivals.now }
    requires closed { closed ≤ length recorded.now.frames.now }
    requires known { AreKnown known.old recorded.now.arrivals.now }
    requires settled { AreSettled known.old.gaps.items recorded.now.arrivals.now
        judging.old.marks.items }
    ensures defined { JudgesClosing (λ done. IfOk result done) bounds.now recorded.now judging.old
        judging.new closed }
    ensures marks { length judging.new.marks.items ≡ length judging.old.marks.items }
    ensures uncertain { judging.new.uncertain ≡ judging.old.uncertain }
    ensures within { (count : ℕ) →
        AreWithin bounds.now.rates (length recorded.now.frames.now) count judging.old.held.items →
        AreWithin bounds.now.rates (length recorded.now.frames.now) count judging.new.held.items }
    ensures known { AreKnown known.new recorded.now.arrivals.now }
    ensures settled { AreSettled known.new.gaps.items recorded.now.arrivals.now
        judging.new.marks.items }
    ensures refused { OnErr result (judging.new ≡ judging.old) }
{
    if is_one_passed(judging.held.as_slice(), closed) {
        close(&mut judging.held, closed);
        return Ok(Vec::new(alloc));
    }
    skip(judging, alloc, bounds, known, recorded, closed)
}
