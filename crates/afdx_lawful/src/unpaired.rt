//! Frames that waited for their copies in vain.

ghost use Rattle.std.specs.Prelude.{◌≡◌, ℕ, ◌≤◌, ◌+◌, ◌&&◌, not, nat_le, nat_lt};
ghost use Rattle.std.specs.Prelude.{List, [], length, IfNone, IfSome, Some};
ghost use Rattle.std.specs.List.{list_any};
ghost use Rattle.afdx_frame.specs.Times.{latest_listed};
ghost use Rattle.afdx_frame.specs.declared.link.Side.{Side};
ghost use Rattle.afdx_lawful.specs.Accepted.{ComeUpTo};
ghost use Rattle.afdx_lawful.specs.Alone.{number_in};
ghost use Rattle.afdx_lawful.specs.Courses.{Course, IsKnownBy, oldest, told_at, waited_on};
ghost use Rattle.afdx_lawful.specs.Flaws.{whole_of};
ghost use Rattle.afdx_lawful.specs.Judged.{is_cut_of};
ghost use Rattle.afdx_lawful.specs.LastCame.{AreLast, stands_so};
ghost use Rattle.afdx_lawful.specs.OneSide.{StandOn};
ghost use Rattle.afdx_lawful.specs.Partners.{Waiting, is_before, other};
ghost use Rattle.afdx_lawful.specs.Rings.{all_as, waiting_as};
ghost use Rattle.afdx_lawful.specs.Sources.{Came, Source as Terms, apart as apart_of, hold, on_side};
ghost use Rattle.afdx_lawful.specs.Sources.{slip};
ghost use Rattle.afdx_lawful.specs.Tallies.{IsTally};
ghost use Rattle.afdx_lawful.specs.Unpaired.{IsToldOn};
ghost use Rattle.afdx_lawful.specs.Ways.{AreTerms};

use crate::finding::SenderFinding;
use crate::last::LastCame;
use crate::one_side::OneSide;
use crate::tally::SourceTally;
use crate::waits::Waits;
use crate::ways::SourceTerms;
use afdx_frame::Side;

/// A frame that waited for its copy in vain: its line, its side, the moment in ns of what is told
/// of it, and whether its copy may have been sent behind the end of the recordings, or before their
/// start. Then nothing is found of it.
#[derive(Clone, Copy, Debug, PartialEq, Eq)]
pub struct UnpairedFrame {
    pub line: u64,
    pub side: Side,
    pub moment: u64,
    pub is_cut: bool,
}

impl UnpairedFrame {
    ghost use Rattle.afdx_lawful.specs.Unpaired.{found_unpaired};

    /// What is found of it, if anything is.
    pub fn finding(&self) -> Option<SenderFinding>
        ensures { result ≡ found_unpaired self.now }
    {
        if self.is_cut {
            None
        } else {
            Some(SenderFinding::Single(self.line))
        }
    }
}

/// How many ns later than a frame its copy may be stamped, at most: no more than the hold.
fn reach_of(terms: &SourceTerms, waits: &Waits) -> u64
    ensures reach { (s : Terms) (side : Side) → AreTerms s terms.now →
        result ≡ apart_of s (waiting_as side waits.now).frame + slip s }
    ensures near { (s : Terms) → AreTerms s terms.now → result ≤ hold s }
    ensures small { result ≤ 300000000 }
{
    let apart = terms.apart.of(&terms.limits, waits.bytes.length());
    apart + terms.limits.slip
}

/// Whether the copy of a frame of this time may be stamped behind the end, which is known, or lies
/// no sooner than the hold behind the frame.
fn may_be_behind(end: Option<u64>, time: u64, reach: u64) -> bool
    requires listed { time ≤ latest_listed }
    requires small { reach ≤ 300000000 }
    ensures { (s : Terms) (y : Waiting) → y.frame.time ≡ time →
        apart_of s y.frame + slip s ≡ reach → reach ≤ hold s → IsKnownBy s end y →
        result ≡ nat_lt s.until (y.frame.time + apart_of s y.frame + slip s) }
{
    match end {
        Some(until) => until < time + reach,
        None => false,
    }
}

/// Whether it may have been sent before the start.
fn may_be_before(start: Option<u64>, time: u64, reach: u64) -> bool
    requires listed { time ≤ latest_listed }
    ensures { (s : Terms) (x : Came) → x.time ≡ time → apart_of s x + slip s ≡ reach →
        result ≡ is_before s start x }
{
    match start {
        Some(start) => time < start.saturating_add(reach),
        None => false,
    }
}

/// Whether it may be so, and no frame that came at this moment, in ns, or later tells otherwise:
/// one whose number stands 1 to 45 steps behind this one, or before it.
fn is_unsaid(may_be: bool, others: &LastCame, moment: u64, is_later: bool, number: u8) -> bool
    ensures { (xs : List Came) (end : ℕ) → AreLast xs others.now → ComeUpTo end xs →
        result ≡ (may_be && not (list_any
        (λ x. nat_le moment x.time && stands_so is_later number (number_in x)) xs)) }
{
    if may_be {
        !others.any_since(moment, is_later, number)
    } else {
        false
    }
}

/// Whether the copy of a frame that waited in vain may be stamped behind the end, or before the
/// start: of the other side's frames none tells otherwise.
fn is_cut(terms: &SourceTerms, waits: &Waits, others: &LastCame, end: Option<u64>) -> bool
    ensures { (s : Terms) (side : Side) (xs : List Came) → AreTerms s terms.now →
        AreLast (on_side (other side) (whole_of xs)) others.now →
        ComeUpTo (told_at s (waiting_as side waits.now)) xs →
        IsKnownBy s end (waiting_as side waits.now) →
        result ≡ is_cut_of s xs (waiting_as side waits.now) }
{
    let reach = reach_of(terms, waits);
    let moment = waits.time.saturating_sub(terms.limits.hold);
    let may_be_later = may_be_behind(end, waits.time, reach);
    let may_be_sooner = may_be_before(terms.start, waits.time, reach);
    let is_behind = is_unsaid(may_be_later, others, moment, true, waits.number);
    let is_before = is_unsaid(may_be_sooner, others, moment, false, waits.number);
    is_behind || is_before
}

/// The oldest frame of a side that waits is told, and waits no longer. `end` is the time in ns at
/// which the recordings end, once it is known: before, they must not end sooner than the moment of
/// what is told.
pub(crate) fn tell_oldest(
    own: &mut OneSide,
    others: &OneSide,
    terms: &SourceTerms,
    side: Side,
    end: Option<u64>,
    tally: &mut SourceTally,
) -> Option<UnpairedFrame>
    ensures none { IfNone result ((own.old.waiting ≡ []) × (own.new ≡ own.old)
        × (tally.new ≡ tally.old)) }
    ensures less { IfSome result
        (λ told. length own.new.waiting + 1 ≡ length own.old.waiting) }
    ensures told { (s : Terms) (c : Course) → AreTerms s terms.now →
        StandOn s side c.came (waited_on c) own.old others.now → IsTally s c tally.old →
        IfSome result (λ told. (y : Waiting)
        × (oldest (all_as side own.old.waiting) ≡ Some y)
        × (IsKnownBy s end y → IsToldOn s c side y own.new others.now tally.new told)) }
{
    let Some(waits) = own.waiting.take_oldest() else {
        return None;
    };
    let is_cut = is_cut(terms, &waits, &others.last, end);
    tally.tell(is_cut, waits.is_quiet);
    Some(UnpairedFrame {
        line: waits.line,
        side,
        moment: waits.time + terms.limits.hold,
        is_cut,
    })
}
