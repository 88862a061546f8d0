//! Two sources that are read at once: what comes of both, the earlier first.

ghost use Rattle.std.specs.Prelude.{◌≡◌, ◌<◌, ◌∷◌, List, IfErr, Ok, false};
ghost use Rattle.afdx_frame.specs.declared.by_side.BySide.{BySide};
ghost use Rattle.afdx_input_lines.specs.Calls.{is_failed_write};
ghost use Rattle.afdx_input_sources.specs.MergedSource as spec;
ghost use Rattle.afdx_input_sources.specs.MergedSource.{AreMerged, AreMergedToEnd, FollowsBoth};
ghost use Rattle.afdx_input_sources.specs.MergedSource.{OfTwo, StopsMerging, given};
ghost use Rattle.afdx_input_sources.specs.MergedSource.{left_in};

use crate::ahead::{Ahead, AtHead, InOrder, seek};
use crate::engine::Source;
use crate::two::Two;
use afdx_input_lines::{Next, Progress, RunFault};

/// Which of two sources.
#[derive(Clone, Copy, Debug, PartialEq, Eq)]
pub enum Nth {
    First,
    Second,
}

/// Two sources that are read at once.
#[derive(Drop)]
pub struct Merged<S> {
    pub first: Ahead<S>,
    pub second: Ahead<S>,
    /// Which of them gave an item last, or stopped.
    pub from: Nth,
}

impl<S> Merged<S> {
    /// Of these nothing was read.
    pub fn new(first: S, second: S) -> Merged<S>
        ensures first { result.first.source ≡ first }
        ensures second { result.second.source ≡ second }
        ensures head_first { result.first.head ≡ AtHead.Unknown }
        ensures head_second { result.second.head ≡ AtHead.Unknown }
    {
        Merged {
            first: Ahead::new(first),
            second: Ahead::new(second),
            from: Nth::First,
        }
    }

    /// The source that gave an item last.
    #[inline(always)]
    pub fn source(&self) -> &S
        ensures { result.now ≡ spec.source_by self.now.from self.now }
    {
        match self.from {
            Nth::First => &self.first.source,
            Nth::Second => &self.second.source,
        }
    }
}

/// Of which source the next item is, once both heads are known: of that whose head is earlier, of
/// the first at one time. None: both are at their end.
fn next_of(first: AtHead, second: AtHead) -> Option<Nth>
    ensures { result ≡ spec.next_of first second }
{
    match (first, second) {
        (AtHead::Item(x), AtHead::Item(y)) => Some(if y < x { Nth::Second } else { Nth::First }),
        (AtHead::Item(_), _) => Some(Nth::First),
        (_, AtHead::Item(_)) => Some(Nth::Second),
        (_, _) => None,
    }
}

/// Gives the next item of both.
///
/// Their heads are looked for, that of the first before. What comes at once, and a fault, come as
/// soon as they are found; else the earlier item, that of the first where both have the same time.
#[inline(always)]
pub fn give_next<H: InOrder, P: Two, S: Source<H, P::Part>>(
    merged: &mut Merged<S>,
    inputs: &mut P,
) -> Result<Next, RunFault>
    requires { (start : BySide P.Part) × (past : List (OfTwo H))
        × AreMerged H.order H.can_follow S.current S.Gave S.Ended start merged.old
        (P.both inputs.old) past }
    ensures item { (start : BySide P.Part) (past : List (OfTwo H)) →
        AreMerged H.order H.can_follow S.current S.Gave S.Ended start merged.old
        (P.both inputs.old) past → result ≡ Ok Next.Given →
        AreMerged H.order H.can_follow S.current S.Gave S.Ended start merged.new
        (P.both inputs.new) (given S.current merged.new ∷ past)
        × FollowsBoth H.order H.can_follow past (given S.current merged.new) }
    ensures end { (start : BySide P.Part) (past : List (OfTwo H)) →
        AreMerged H.order H.can_follow S.current S.Gave S.Ended start merged.old
        (P.both inputs.old) past → result ≡ Ok Next.Ended →
        AreMergedToEnd H.order H.can_follow S.current S.Gave S.Ended start merged.new
        (P.both inputs.new) past }
    ensures stop { (start : BySide P.Part) (past : List (OfTwo H)) →
        AreMerged H.order H.can_follow S.current S.Gave S.Ended start merged.old
        (P.both inputs.old) past →
        IfErr result (StopsMerging H.order H.can_follow S.current S.Gave S.Ended S.Stopped start
        merged.new (P.both inputs.new) past) }
    ensures unwritten { is_failed_write result ≡ false }
    ensures settings_first { S.settings merged.new.first.source
        ≡ S.settings merged.old.first.source }
    ensures settings_second { S.settings merged.new.second.source
        ≡ S.settings merged.old.second.source }
    ensures less { result ≡ Ok Next.Given →
        left_in S.left_of merged.new < left_in S.left_of merged.old }
{
    H::keeps();
    P::holds_both();
    merged.from = Nth::First;
    if let Progress::Given = seek(&mut merged.first, inputs.first())? {
        return Ok(Next::Given);
    }
    merged.from = Nth::Second;
    if let Progress::Given = seek(&mut merged.second, inputs.second())? {
        return Ok(Next::Given);
    }
    match next_of(merged.first.head, merged.second.head) {
        Some(Nth::First) => {
            merged.first.head = AtHead::Unknown;
            merged.from = Nth::First;
            Ok(Next::Given)
        }
        Some(Nth::Second) => {
            merged.second.head = AtHead::Unknown;
            Ok(Next::Given)
        }
        None => Ok(Next::Ended),
    }
}
