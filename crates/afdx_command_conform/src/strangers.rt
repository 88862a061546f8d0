//! Frames that left and are of no stream.

ghost use Rattle.std.specs.Prelude.{◌≡◌, ◌++◌, ◌∷◌, [], OnOk, None, Some, IfNone, IfSome, IsSome, length, ◌<◌};
ghost use Rattle.afdx_frame.specs.Parts.{bytes_of};
ghost use Rattle.afdx_police.specs.Shape.{fault_of};
ghost use Rattle.afdx_command_conform.specs.Lines.{stranger_by};
ghost use Rattle.afdx_command_conform.specs.Tapped as spec;
ghost use Rattle.afdx_command_conform.specs.Waiting.{first_time};

use afdx_conform::Strangeness;
use afdx_frame::Checked;
use afdx_police::{Reason, judge_checked};
use std::alloc::{AllocError, Global};
use std::collections::VecDeque;

/// A frame of no stream: its number, the time of its last bit in ns, and why it is strange.
#[derive(Clone, Copy, Debug)]
pub(crate) struct Stranger {
    pub(crate) number: u64,
    pub(crate) time: u64,
    pub(crate) why: Strangeness,
}

/// Why a frame of no stream is strange; `is_named` says whether it names a link of the tables.
pub(crate) fn why_strange(frame: Checked<'_>, is_named: bool) -> Strangeness
    ensures { result ≡ stranger_by is_named (fault_of None 0 (bytes_of frame.entry)) }
{
    match judge_checked(None, 0, frame) {
        Some(Reason::UnknownLink) => {
            if is_named {
                Strangeness::NotItsPort
            } else {
                Strangeness::Shape(Reason::UnknownLink)
            }
        }
        Some(reason) => Strangeness::Shape(reason),
        None => Strangeness::NotItsPort,
    }
}

/// Whether a reason is that a frame is too short, too long, or has a wrong check sequence.
fn is_damage(reason: Reason) -> bool
    ensures { result ≡ spec.is_damage (Some reason) }
{
    match reason {
        Reason::TooShort | Reason::TooLong | Reason::BadFcs => true,
        Reason::BadAddress
        | Reason::UnknownLink
        | Reason::WrongPort
        | Reason::OverLmax
        | Reason::UnderLmin
        | Reason::OverRate => false,
    }
}

/// Whether a frame is too short, too long, or has a wrong check sequence.
#[tactic(auto, unfolding(crate::specs::Tapped::is_damaged))]
pub(crate) fn is_damaged(frame: Checked<'_>) -> bool
    ensures { result ≡ spec.is_damaged (bytes_of frame.entry) }
{
    match judge_checked(None, 0, frame) {
        Some(reason) => is_damage(reason),
        None => false,
    }
}

/// Those of one side and port of which nothing was told yet, in their order.
#[derive(Drop)]
pub(crate) struct Strangers {
    waiting: VecDeque<Stranger>,
}

impl Strangers {
    /// There are none.
    pub(crate) fn new(alloc: Global) -> Strangers
        ensures { result.waiting.items ≡ [] }
    {
        Strangers {
            waiting: VecDeque::new(alloc),
        }
    }

    /// When the first of them left.
    pub(crate) fn due(&self) -> Option<u64>
        ensures { result ≡ first_time self.now.waiting.items }
    {
        match self.waiting.front() {
            Some(first) => Some(first.time),
            None => None,
        }
    }

    /// One more.
    pub(crate) fn push(&mut self, stranger: Stranger) -> Result<(), AllocError>
        ensures { OnOk result
            (self.new.waiting.items ≡ self.old.waiting.items ++ stranger ∷ []) }
    {
        self.waiting.push_back(stranger)?;
        Ok(())
    }

    /// Takes the first out.
    pub(crate) fn take_first(&mut self) -> Option<Stranger>
        ensures some { IfSome result (λ first.
            self.old.waiting.items ≡ first ∷ self.new.waiting.items) }
        ensures none { IfNone result (self.old.waiting.items ≡ []) }
        ensures less { IsSome (first_time self.old.waiting.items) →
            length self.new.waiting.items < length self.old.waiting.items }
    {
        self.waiting.pop_front()
    }
}
