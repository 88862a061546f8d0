//! What is kept of a stream while its arrivals and frames come.

ghost use Rattle.std.specs.Prelude.{◌≡◌, ◌≤◌, ◌++◌, ◌∷◌, [], ℕ, List, OnOk, OnErr, None};
ghost use Rattle.afdx_police.specs.Arrival.{Arrival};
ghost use Rattle.afdx_police.specs.Rule.{regulation_of};
ghost use Rattle.afdx_police.specs.RuleOf.{rule_of};
ghost use Rattle.afdx_conform.specs.Accounts.{AreRates};
ghost use Rattle.afdx_conform.specs.Bounds.{AreBounds};
ghost use Rattle.afdx_conform.specs.Explanations.{from_time};
ghost use Rattle.afdx_conform.specs.Histories.{AreOver};
ghost use Rattle.afdx_conform.specs.LeewayOf.{leeway_of};
ghost use Rattle.afdx_conform.specs.Limits.{gone_of};
ghost use Rattle.afdx_conform.specs.Marks.{IsJudged, arrival_of};
ghost use Rattle.afdx_conform.specs.Growing.{IsAfter, IsSame, IsSameOrLater, IsSound};
ghost use Rattle.afdx_conform.specs.Growing.{MayCome, MayLeave, due_by};
ghost use Rattle.afdx_conform.specs.Holding.{IsLean};
ghost use Rattle.afdx_conform.specs.States.{Event};
ghost use Rattle.afdx_conform.specs.Streams.{Gone, Terms};

use crate::arrived::Arrived;
use crate::bounds::Bounds;
use crate::judging::Judging;
use crate::known_bytes::KnownBytes;
use crate::leeway::Leeway;
use crate::limits::LeftFrame;
use afdx_police::LinkRule;
use std::alloc::{AllocError, Global};

/// More arrivals, and frames, than a stream is told.
const MOST_HELD: u64 = 1 << 56;

/// What is kept of a stream: what it is judged by, the arrivals and frames that are held and how
/// far they are judged, where these arrivals stand, and what is counted of all of them.
///
/// `rule` is that of its link. `closed` of the frames that are held are closed; `closing` were as
/// old as the one that was closed last, by which a guess saves to count them for each frame of one
/// time. `last` is when the last arrival of the right shape came, or the start. `is_started` says
/// whether an event is over.
/// `came` arrivals and `left` frames were told, without the `cut` that left where the recordings
/// had ended; `found` of the frames are in findings. `unsure` is the arrival behind which there
/// were too many states.
#[derive(Drop)]
pub(crate) struct Growth {
    pub(crate) rule: LinkRule,
    pub(crate) bounds: Bounds,
    pub(crate) by: Leeway,
    pub(crate) arrivals: Vec<Arrived>,
    pub(crate) known: KnownBytes,
    pub(crate) frames: Vec<LeftFrame>,
    pub(crate) judging: Judging,
    pub(crate) closed: usize,
    pub(crate) closing: usize,
    pub(crate) last: u64,
    pub(crate) is_started: bool,
    pub(crate) came: u64,
    pub(crate) left: u64,
    pub(crate) cut: u64,
    pub(crate) found: u64,
    pub(crate) unsure: Option<u64>,
}

/// From when on arrivals are known: the start, or the reset.
pub(crate) fn start_of(by: &Leeway) -> u64
    ensures { (z : Terms) → z.by ≡ leeway_of by.now → result ≡ from_time z.by.start }
{
    match by.start {
        None => 0,
        Some(start) => start,
    }
}

impl Growth {
    /// Before anything came.
    pub(crate) fn new(alloc: Global, rule: &LinkRule, bounds: Bounds, by: Leeway) -> Growth
        requires { AreRates (regulation_of (rule_of rule.now)) (leeway_of by) bounds.rates }
        ensures sound { IsSound result }
        ensures after { (z : Terms) → AreBounds z bounds → z.by ≡ leeway_of by →
            IsAfter z [] [] 0 [] result }
        ensures due { due_by result ≡ None }
    {
        let judging = Judging {
            held: Vec::new(alloc),
            marks: Vec::new(alloc),
            uncertain: 0,
            is_unsure: false,
        };
        let last = start_of(&by);
        Growth {
            rule: *rule,
            bounds,
            by,
            arrivals: Vec::new(alloc),
            known: KnownBytes::new(alloc),
            frames: Vec::new(alloc),
            judging,
            closed: 0,
            closing: 0,
            last,
            is_started: false,
            came: 0,
            left: 0,
            cut: 0,
            found: 0,
            unsure: None,
        }
    }

    /// One more arrival; if there are too many, nothing is judged any more. Fails only out of
    /// memory; then nothing has changed.
    pub(crate) fn add_arrival(&mut self, arrived: Arrived) -> Result<(), AllocError>
        requires sound { IsSound self.old }
        ensures sound { IsSound self.new }
        ensures after { (z : Terms) (xs : List Arrival) (ys : List Gone) (cut time : ℕ)
            (over : List Event) → IsJudged z arrived → MayCome z xs time (arrival_of arrived) →
            AreOver z time over → IsAfter z xs ys cut over self.old →
            OnOk result (IsAfter z (xs ++ arrival_of arrived ∷ []) ys cut over self.new
            × (IsLean self.old → IsLean self.new)) }
        ensures due { OnOk result
            (IsSameOrLater (due_by self.old) arrived.time (due_by self.new)) }
        ensures refused { OnErr result (IsSame self.old self.new) }
    {
        if self.judging.is_unsure {
            return Ok(());
        }
        if self.came + 1 >= MOST_HELD {
            self.judging.is_unsure = true;
            return Ok(());
        }
        self.known.tell(self.arrivals.as_slice(), &arrived)?;
        match self.arrivals.push(arrived) {
            Ok(()) => {}
            Err(error) => {
                self.known.forget();
                return Err(error.into());
            }
        }
        self.came += 1;
        Ok(())
    }

    /// One more frame; if there are too many, nothing is judged any more. Fails only out of
    /// memory; then nothing has changed.
    pub(crate) fn add_frame(&mut self, frame: LeftFrame) -> Result<(), AllocError>
        requires sound { IsSound self.old }
        ensures sound { IsSound self.new }
        ensures after { (z : Terms) (xs : List Arrival) (ys : List Gone) (time : ℕ)
            (over : List Event) → MayLeave z ys time (gone_of frame) → time ≤ z.until →
            AreOver z time over → IsAfter z xs ys 0 over self.old →
            OnOk result (IsAfter z xs (ys ++ gone_of frame ∷ []) 0 over self.new
            × (IsLean self.old → IsLean self.new)) }
        ensures due { OnOk result
            (IsSameOrLater (due_by self.old) frame.time (due_by self.new)) }
        ensures refused { OnErr result (IsSame self.old self.new) }
    {
        if self.judging.is_unsure {
            return Ok(());
        }
        if self.left + self.cut + 1 >= MOST_HELD {
            self.judging.is_unsure = true;
            return Ok(());
        }
        self.frames.push(frame)?;
        self.left += 1;
        Ok(())
    }
}
