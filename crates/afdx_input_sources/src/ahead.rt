//! One of two sources that are read at once, of which the head may stand.

ghost use Rattle.std.specs.Prelude.{◌≡◌, ◌≤◌, ◌<◌, ◌∷◌, ℕ, List, Option, IfErr, Ok, true, false};
ghost use Rattle.afdx_input_lines.specs.Calls.{is_failed_write};
ghost use Rattle.afdx_input_sources.specs.Engine.{Item};
ghost use Rattle.afdx_input_sources.specs.MergedSource.{GivesAtOnce, IsAhead, IsInTurn, IsKnown};
ghost use Rattle.afdx_input_sources.specs.MergedSource.{IsSought, Order, left_ahead};

use crate::engine::{Head, Source};
use afdx_input_lines::{Next, Progress, RunFault};

/// What is said of an item that has a time, or comes at once.
pub trait InOrder: Head {
    /// By it: when it comes, and how many a source gives at most.
    ghost order: { Order Self };

    /// When it comes. None: as soon as it is found.
    fn comes(&self) -> Option<u64>
        ensures { result ≡ order.time self.now };

    /// Items come no earlier than those before them, and there are not too many.
    fn keeps()
        ensures { (past : List (Item Self)) (x : Item Self) → Self.can_follow past x →
            IsInTurn order past x };
}

/// What stands at the head of a source.
#[derive(Clone, Copy, Debug)]
pub enum AtHead {
    /// Nobody looked for it.
    Unknown,
    /// An item that comes at this time.
    Item(u64),
    /// Nothing: it is at its end.
    Over,
}

/// A source, and what stands at its head.
#[derive(Drop)]
pub struct Ahead<S> {
    pub source: S,
    pub head: AtHead,
}

impl<S> Ahead<S> {
    /// One of whose head nothing is known.
    pub fn new(source: S) -> Ahead<S>
        ensures source { result.source ≡ source }
        ensures head { result.head ≡ AtHead.Unknown }
    {
        Ahead {
            source,
            head: AtHead::Unknown,
        }
    }
}

/// Looks for the head of a source, unless it is known. An item that comes at once stands in front
/// of it: it is given.
pub(crate) fn seek<H: InOrder, I, S: Source<H, I>>(
    ahead: &mut Ahead<S>,
    input: &mut I,
) -> Result<Progress, RunFault>
    requires { (latest : ℕ) × (start : I) × (taken : List (Item H))
        × IsAhead H.order H.can_follow S.current S.Gave S.Ended latest start ahead.old input.old
        taken }
    ensures at_once { (latest : ℕ) (start : I) (taken : List (Item H)) →
        IsAhead H.order H.can_follow S.current S.Gave S.Ended latest start ahead.old input.old
        taken → result ≡ Ok Progress.Given →
        GivesAtOnce H.order H.can_follow S.current S.Gave S.Ended latest start ahead.new input.new
        taken }
    ensures unknown { result ≡ Ok Progress.Given → ahead.old.head ≡ AtHead.Unknown }
    ensures known { (latest : ℕ) (start : I) (taken : List (Item H)) →
        IsAhead H.order H.can_follow S.current S.Gave S.Ended latest start ahead.old input.old
        taken → result ≡ Ok Progress.NotYet →
        IsAhead H.order H.can_follow S.current S.Gave S.Ended latest start ahead.new input.new
        taken × IsKnown ahead.new.head × IsSought ahead.old ahead.new }
    ensures stop { (latest : ℕ) (start : I) (taken : List (Item H)) →
        IsAhead H.order H.can_follow S.current S.Gave S.Ended latest start ahead.old input.old
        taken → IfErr result (λ fault. (ahead.old.head ≡ AtHead.Unknown)
        × S.Stopped start ahead.new.source input.new taken fault) }
    ensures unwritten { is_failed_write result ≡ false }
    ensures settings { S.settings ahead.new.source ≡ S.settings ahead.old.source }
    ensures less { result ≡ Ok Progress.NotYet →
        left_ahead S.left_of ahead.new ≤ left_ahead S.left_of ahead.old }
    ensures fewer { result ≡ Ok Progress.Given →
        left_ahead S.left_of ahead.new < left_ahead S.left_of ahead.old }
{
    H::keeps();
    match ahead.head {
        AtHead::Unknown => {}
        AtHead::Item(_) | AtHead::Over => return Ok(Progress::NotYet),
    }
    if let Next::Ended = ahead.source.next(input)? {
        ahead.head = AtHead::Over;
        return Ok(Progress::NotYet);
    }
    let head = ahead.source.head();
    match head.comes() {
        Some(time) => {
            ahead.head = AtHead::Item(time);
            Ok(Progress::NotYet)
        }
        None => Ok(Progress::Given),
    }
}
