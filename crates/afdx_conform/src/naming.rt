//! What is found of a frame that no arrival explains.

ghost use Rattle.std.specs.Prelude.{◌≡◌, ◌≤◌, ◌<◌, [], ℕ, IfSome, MatchOption};
ghost use Rattle.std.specs.Prelude.{drop, length, map, vec_capacity, vec_len};
ghost use Rattle.std.specs.List.{list_any};
ghost use Rattle.afdx_conform.specs.Findings.{names_it as may_name, is_of_right};
ghost use Rattle.afdx_conform.specs.Findings.{damage as damage_of, strangeness as strangeness_of};
ghost use Rattle.afdx_conform.specs.Findings.{first_named, once_named, finding_or, Judged};
ghost use Rattle.afdx_conform.specs.KnownBytes.{AreEach, AreKnown, StandAt, may_fit};
ghost use Rattle.afdx_conform.specs.declared.finding.Finding.TheVariants.{Strange};
ghost use Rattle.afdx_conform.specs.Marks.{marked_of, marked_all, told};
ghost use Rattle.afdx_conform.specs.Naming.{IsNoneNamed, IsNamedAt, AreSettled, NoneIsWanted};
ghost use Rattle.afdx_conform.specs.Naming.{StayUnwanted, may_be_named, unexplained_all};
ghost use Rattle.afdx_conform.specs.declared.gaps.Wanted.TheVariants.{ToName, Accepted};
ghost use Rattle.afdx_conform.specs.Limits.{AreLimits, gone_of};
ghost use Rattle.afdx_conform.specs.Streams.{Terms};

use crate::arrived::Arrived;
use crate::checked_bytes::CheckedBytes;
use crate::finding::{Finding, Mark};
use crate::gaps::Gaps;
use crate::known_bytes::KnownBytes;
use crate::limits::{LeftFrame, Limits};
use crate::places::no_less;
use crate::recorded::StreamRecord;
use crate::strangeness::Strangeness;
use afdx_frame::{GREATEST_FRAME, LEAST_FRAME};
use afdx_police::Reason;

/// Whether a finding may name an arrival with this mark.
pub(crate) fn is_to_name(mark: Mark) -> bool
    ensures { result ≡ may_be_named mark }
{
    mark.reason.is_some() && !mark.is_named
}

/// The reason by which the finding of a frame may name the arrival.
fn names_it(limits: &Limits, arrived: &Arrived, mark: Mark, frame: &LeftFrame) -> Option<Reason>
    ensures { (z : Terms) → AreLimits z limits.now →
        result ≡ may_name z (gone_of frame.now) (marked_of arrived.now mark) }
{
    if is_to_name(mark) && limits.fits(arrived.time, &arrived.bytes, frame) {
        mark.reason
    } else {
        None
    }
}

/// The first arrival that the finding of a frame may name, which is behind the first `settled`: its
/// place, and the reason. Behind those all that the frame fits stand at `places`.
fn first_place(
    limits: &Limits,
    arrivals: &[Arrived],
    marks: &[Mark],
    settled: usize,
    places: &[usize],
    frame: &LeftFrame,
) -> Option<(usize, Reason)>
    requires marks { length marks.now ≤ length arrivals.now }
    requires settled { NoneIsWanted ToName limits.now frame.now settled arrivals.now marks.now }
    requires places { StandAt (may_fit limits.now frame.now) settled (drop settled arrivals.now)
        places.now }
    ensures within { IfSome result (λ at. at.0 < length marks.now) }
    ensures named { (z : Terms) → AreLimits z limits.now → MatchOption result
        (IsNoneNamed z (gone_of frame.now) (marked_all arrivals.now marks.now))
        (λ at. IsNamedAt z (gone_of frame.now) (marked_all arrivals.now marks.now) at.0 at.1) }
{
    for place in places {
        if *place >= marks.len() {
            return None;
        }
        match names_it(limits, &arrivals[*place], marks[*place], frame) {
            Some(reason) => return Some((*place, reason)),
            None => {}
        }
    }
    None
}

/// Whether the frame fits the arrival, which isn't refused.
fn fits_without_mark(limits: &Limits, arrived: &Arrived, mark: Mark, frame: &LeftFrame) -> bool
    ensures { (z : Terms) → AreLimits z limits.now →
        result ≡ is_of_right z (gone_of frame.now) (marked_of arrived.now mark) }
{
    mark.reason.is_none() && limits.fits(arrived.time, &arrived.bytes, frame)
}

/// Whether the frame fits an arrival that isn't refused, which is behind the first `settled`. All
/// that it fits stand at `places`.
fn fits_unmarked(
    limits: &Limits,
    arrivals: &[Arrived],
    marks: &[Mark],
    settled: usize,
    places: &[usize],
    frame: &LeftFrame,
) -> bool
    requires marks { length marks.now ≤ length arrivals.now }
    requires settled { NoneIsWanted Accepted limits.now frame.now settled arrivals.now marks.now }
    requires places { StandAt (may_fit limits.now frame.now) 0 arrivals.now places.now }
    ensures { (z : Terms) → AreLimits z limits.now → result
        ≡ list_any (λ m. is_of_right z (gone_of frame.now) m) (marked_all arrivals.now marks.now) }
{
    let later = no_less(places, settled);
    for place in later {
        if *place >= marks.len() {
            return false;
        }
        if fits_without_mark(limits, &arrivals[*place], marks[*place], frame) {
            return true;
        }
    }
    false
}

/// The first that is true of the bytes: too short, too long, a wrong check sequence.
fn damage(bytes: &CheckedBytes) -> Option<Reason>
    ensures { result ≡ damage_of bytes.now }
{
    if bytes.length() < LEAST_FRAME as u64 {
        return Some(Reason::TooShort);
    }
    if bytes.length() > GREATEST_FRAME as u64 {
        return Some(Reason::TooLong);
    }
    if !bytes.is_sealed() {
        return Some(Reason::BadFcs);
    }
    None
}

/// What is wrong with a frame that no arrival explains. An arrival that it fits and that isn't
/// refused is behind the first `settled`. All that it fits stand at `places`.
fn strangeness(
    limits: &Limits,
    arrivals: &[Arrived],
    marks: &[Mark],
    settled: usize,
    places: &[usize],
    frame: &LeftFrame,
) -> Strangeness
    requires marks { length marks.now ≤ length arrivals.now }
    requires settled { NoneIsWanted Accepted limits.now frame.now settled arrivals.now marks.now }
    requires places { StandAt (may_fit limits.now frame.now) 0 arrivals.now places.now }
    ensures { (z : Terms) → AreLimits z limits.now →
        result ≡ strangeness_of z (marked_all arrivals.now marks.now) (gone_of frame.now) }
{
    match damage(&frame.bytes) {
        Some(reason) => Strangeness::Shape(reason),
        None => {
            if fits_unmarked(limits, arrivals, marks, settled, places, frame) {
                Strangeness::OutOfTurn
            } else {
                Strangeness::NoArrival
            }
        }
    }
}

/// What is found of a frame that no arrival explains. An arrival that the finding names is marked
/// so. Marks are those of the first arrivals. All arrivals that the frame fits stand at `places`;
/// in its gaps none is wanted.
pub(crate) fn unexplained(
    limits: &Limits,
    arrivals: &[Arrived],
    marks: &mut Vec<Mark>,
    gaps: Gaps,
    places: &[usize],
    frame: &LeftFrame,
) -> Finding
    requires marks { length marks.old.items ≤ length arrivals.now }
    requires to_name { NoneIsWanted ToName limits.now frame.now gaps.to_name.to arrivals.now
        marks.old.items }
    requires accepted { NoneIsWanted Accepted limits.now frame.now gaps.accepted.to arrivals.now
        marks.old.items }
    requires places { StandAt (may_fit limits.now frame.now) 0 arrivals.now places.now }
    ensures finding { (z : Terms) → AreLimits z limits.now → result
        ≡ finding_or (first_named z (gone_of frame.now) (marked_all arrivals.now marks.old.items))
        (Strange frame.now.number
        (strangeness_of z (marked_all arrivals.now marks.old.items) (gone_of frame.now))) }
    ensures named { (z : Terms) → AreLimits z limits.now → marked_all arrivals.now marks.new.items
        ≡ once_named z (gone_of frame.now) (marked_all arrivals.now marks.old.items) }
    ensures length { length marks.new.items ≡ length marks.old.items }
    ensures capacity { vec_capacity marks.new ≡ vec_capacity marks.old }
    ensures stay { StayUnwanted marks.old.items marks.new.items }
{
    let settled = gaps.to_name.to;
    let later = no_less(places, settled);
    match first_place(limits, arrivals, marks.as_slice(), settled, later, frame) {
        None => {
            let judged = marks.as_slice();
            let behind = gaps.accepted.to;
            let strangeness = strangeness(limits, arrivals, judged, behind, places, frame);
            Finding::Strange(frame.number, strangeness)
        }
        Some((place, reason)) => {
            marks[place] = Mark {
                reason: Some(reason),
                is_named: true,
            };
            Finding::Passed(arrivals[place].number, reason)
        }
    }
}

/// What is found of frames that no arrival explains, in their order, as `unexplained` finds it of
/// each. There is room for it, so that nothing fails once a mark has changed. `each` are the places
/// that `known` gave.
pub(crate) fn unexplained_all(
    limits: &Limits,
    known: &mut KnownBytes,
    recorded: &StreamRecord<'_>,
    each: &[usize],
    marks: &mut Vec<Mark>,
    found: &mut Vec<Finding>,
)
    requires marks { length marks.old.items ≤ length recorded.now.arrivals.now }
    requires known { AreKnown known.old recorded.now.arrivals.now }
    requires each { AreEach known.old recorded.now.arrivals.now each.now }
    requires settled { AreSettled known.old.gaps.items recorded.now.arrivals.now marks.old.items }
    requires none { found.old.items ≡ [] }
    requires room { length recorded.now.frames.now ≤ vec_capacity found.old }
    ensures found { (z : Terms) (time : ℕ) (j : Judged) → AreLimits z limits.now →
        j.arrivals ≡ marked_all recorded.now.arrivals.now marks.old.items →
        told time found.new.items (marked_all recorded.now.arrivals.now marks.new.items) j
        ≡ unexplained_all z time (map gone_of recorded.now.frames.now) j }
    ensures count { vec_len found.new ≡ length recorded.now.frames.now }
    ensures capacity { vec_capacity found.new ≡ vec_capacity found.old }
    ensures length { length marks.new.items ≡ length marks.old.items }
    ensures marks_capacity { vec_capacity marks.new ≡ vec_capacity marks.old }
    ensures known { AreKnown known.new recorded.now.arrivals.now }
    ensures settled { AreSettled known.new.gaps.items recorded.now.arrivals.now marks.new.items }
{
    let arrivals = recorded.arrivals;
    for frame in recorded.frames {
        let judged = marks.as_slice();
        let gaps = known.settle(limits, arrivals, judged, frame);
        let places = known.places(limits, arrivals, frame, each);
        let finding = unexplained(limits, arrivals, marks, gaps, places, frame);
        found.push_reserved(finding);
    }
}
