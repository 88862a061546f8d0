//! What a stream shows where its switch did what the rules don't allow.

use crate::strangeness::Strangeness;
use afdx_police::Reason;

/// What the switch did with a frame or an arrival, by its number.
#[derive(Clone, Copy, Debug, PartialEq, Eq)]
pub enum Finding {
    /// The frame left, and no arrival explains it.
    Strange(u64, Strangeness),
    /// A frame left of the arrival, which the rule refuses for this reason.
    Passed(u64, Reason),
    /// No frame left of the arrival.
    Stopped(u64),
    /// The arrival's frame left so many ns too late.
    Late(u64, u64),
    /// The arrival's frame left so many ns too early.
    Early(u64, u64),
}

/// What is known of an arrival whose event is over: why the rule refuses it, if it does so in each
/// state, and whether a finding named it.
#[derive(Clone, Copy, Debug, PartialEq, Eq)]
pub(crate) struct Mark {
    pub reason: Option<Reason>,
    pub is_named: bool,
}

/// What the switch did with an arrival that leaves no state.
#[derive(Clone, Copy, Debug, PartialEq, Eq)]
pub(crate) enum Deviation {
    /// It stopped it.
    Stopped,
    /// The next frame is its own, with this finding.
    Took(Finding),
    /// The next frame isn't its own.
    Other,
}
