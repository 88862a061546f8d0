//! The shares of a frame's one copy.

ghost use Rattle.std.specs.Prelude.{◌≡◌, ◌≤◌, ◌+◌, length, IfOk, OnOk, IfSome};
ghost use Rattle.afdx_frame.specs.Lengths.{greatest_frame};
ghost use Rattle.afdx_frame.specs.Parts.{IsLinkFrame};
ghost use Rattle.afdx_frame.specs.Sealing.{sealed};
ghost use Rattle.afdx_port.specs.Times.{greatest_wait};

use afdx_frame::CHECK_SEQUENCE;
use afdx_port::HasLength;
use std::alloc::{AllocError, Global};
use std::marker::Model;
use std::rc::Rc;

/// What all shares of a frame have in common.
#[derive(Drop)]
pub(crate) struct Stored {
    tag: u64,
    /// The row of its link in the tables.
    row: u16,
    /// How long the frame may wait for its turn, in ns, if there is a limit.
    longest_wait: Option<u64>,
    /// All bytes but the check sequence, which is theirs.
    message: Vec<u8>,
}

impl Stored {
    ghost use Rattle.afdx_switch.specs.HeldFrames.{held_frame, stored_frame};

    pub(crate) fn new(
        alloc: Global,
        tag: u64,
        row: u16,
        longest_wait: Option<u64>,
        message: &[u8],
    ) -> Result<Stored, AllocError>
        ensures { IfOk result
            (λ s. stored_frame s ≡ held_frame tag longest_wait (sealed message.now)) }
    {
        let message = Vec::from_slice(alloc, message)?;
        Ok(Stored {
            tag,
            row,
            longest_wait,
            message,
        })
    }

    /// Puts another frame in its place, into the same memory where that suffices.
    pub(crate) fn renew(
        &mut self,
        tag: u64,
        row: u16,
        longest_wait: Option<u64>,
        message: &[u8],
    ) -> Result<(), AllocError>
        ensures { OnOk result
            (stored_frame self.new ≡ held_frame tag longest_wait (sealed message.now)) }
    {
        self.message.clear();
        self.message.extend_from_slice(message)?;
        self.tag = tag;
        self.row = row;
        self.longest_wait = longest_wait;
        Ok(())
    }
}

/// A frame on its way through the switch: one of the shares of its one copy.
#[derive(Drop)]
pub struct Frame {
    stored: Rc<Stored>,
}

impl Model for Frame {
    ghost use Rattle.std.specs.Prelude.{◌≤◌, ◌+◌, length, IfSome};
    ghost use Rattle.afdx_frame.specs.Lengths.{least_frame, greatest_frame};
    ghost use Rattle.afdx_frame.specs.Parts.{IsLinkFrame};
    ghost use Rattle.afdx_frame.specs.Sealing.{sealed};
    ghost use Rattle.afdx_port.specs.Times.{greatest_wait};
    ghost use Rattle.afdx_switch.specs.HeldFrames.{HeldFrame};

    ghost Value = { HeldFrame };

    ghost view = { λ f. record {
      tag = f.stored.value.tag;
      longest_wait = f.stored.value.longest_wait;
      bytes = sealed f.stored.value.message.items;
    } };

    ghost invariant = { λ f. (least_frame ≤ length f.stored.value.message.items + 4)
        × (length f.stored.value.message.items + 4 ≤ greatest_frame)
        × IfSome f.stored.value.longest_wait (λ wait. wait ≤ greatest_wait)
        × IsLinkFrame (sealed f.stored.value.message.items) };
}

impl Frame {
    ghost use Rattle.afdx_switch.specs.HeldFrames.{HeldFrame, stored_frame};

    /// The first share of a frame's one copy.
    pub(crate) fn of(stored: Rc<Stored>) -> Frame
        requires framed { IsLinkFrame (stored_frame stored.value).bytes }
        requires wait { IfSome (stored_frame stored.value).longest_wait
            (λ wait. wait ≤ greatest_wait) }
        ensures { result ≡ stored_frame stored.value }
    {
        Frame { stored }
    }

    /// One more share.
    pub(crate) fn share(&self) -> Result<Frame, AllocError>
        ensures { IfOk result (λ f. f ≡ self.now) }
    {
        Ok(Frame {
            stored: self.stored.clone()?,
        })
    }

    /// Whether no other share of its copy is left.
    #[inline(always)]
    pub(crate) fn is_last(&self) -> bool {
        Rc::strong_count(&self.stored) <= 1
    }

    /// The copy that it is a share of.
    pub(crate) fn copy(&self) -> Result<Rc<Stored>, AllocError> {
        self.stored.clone()
    }

    pub(crate) fn tag(&self) -> u64
        ensures { result ≡ self.now.tag }
    {
        self.stored.as_ref().tag
    }

    /// The row of its link in the tables.
    pub(crate) fn row(&self) -> u16 {
        self.stored.as_ref().row
    }

    /// All bytes but the check sequence.
    pub(crate) fn message(&self) -> &[u8]
        ensures message { sealed result.now ≡ self.now.bytes }
        ensures longest { length result.now + 4 ≤ greatest_frame }
        ensures framed { IsLinkFrame self.now.bytes }
    {
        self.stored.as_ref().message.as_slice()
    }
}

impl HasLength for Frame {
    ghost use Rattle.afdx_switch.specs.HeldFramesLaw.{facts-lawful};
    ghost use Rattle.afdx_switch.specs.HeldFrames.{facts};

    ghost facts = { facts };

    fn length(&self) -> u64 {
        (self.stored.as_ref().message.len() + CHECK_SEQUENCE) as u64
    }

    fn longest_wait(&self) -> Option<u64> {
        self.stored.as_ref().longest_wait
    }

    ghost lawful = { facts-lawful };
}
