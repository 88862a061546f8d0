//! The copies of frames, whose memory is used again.

ghost use Rattle.std.specs.Prelude.{◌≡◌, ◌≤◌, IfOk, IfSome, OnOk, IsTrue};
ghost use Rattle.afdx_frame.specs.Parts.{IsLinkFrame};
ghost use Rattle.afdx_frame.specs.Sealing.{sealed};
ghost use Rattle.afdx_port.specs.Times.{greatest_wait};
ghost use Rattle.afdx_switch.specs.HeldFrames.{held_frame, stored_frame};

use crate::frame::{Frame, Stored};
use std::alloc::{AllocError, Global};
use std::rc::Rc;

/// So many copies are kept at most.
const KEPT: usize = 1_024;

/// The copies of frames that no port holds any more, the newest last. A later frame takes the
/// memory of the newest.
#[derive(Drop)]
pub(crate) struct Store {
    alloc: Global,
    kept: Vec<Rc<Stored>>,
}

/// Puts another frame in the place of one: in its memory, or in new memory if there are shares of
/// the one.
fn replace(
    alloc: Global,
    kept: &mut Rc<Stored>,
    tag: u64,
    row: u16,
    longest_wait: Option<u64>,
    message: &[u8],
) -> Result<(), AllocError>
    ensures { OnOk result
        (stored_frame kept.new.value ≡ held_frame tag longest_wait (sealed message.now)) }
{
    if let Some(stored) = Rc::get_mut(kept) {
        return stored.renew(tag, row, longest_wait, message);
    }
    *kept = Rc::new(alloc, Stored::new(alloc, tag, row, longest_wait, message)?)?;
    Ok(())
}

impl Store {
    pub(crate) fn new(alloc: Global) -> Result<Store, AllocError> {
        Ok(Store {
            alloc,
            kept: Vec::with_capacity(alloc, KEPT)?,
        })
    }

    /// The one copy of a frame that is sealed right.
    pub(crate) fn copy(
        &mut self,
        tag: u64,
        row: u16,
        longest_wait: Option<u64>,
        message: &[u8],
    ) -> Result<Frame, AllocError>
        requires framed { IsLinkFrame (sealed message.now) }
        requires wait { IfSome longest_wait (λ wait. wait ≤ greatest_wait) }
        ensures { IfOk result (λ f. f ≡ held_frame tag longest_wait (sealed message.now)) }
    {
        if let Some(mut stored) = self.kept.pop() {
            replace(self.alloc, &mut stored, tag, row, longest_wait, message)?;
            return Ok(Frame::of(stored));
        }
        let stored = Stored::new(self.alloc, tag, row, longest_wait, message)?;
        Ok(Frame::of(Rc::new(self.alloc, stored)?))
    }

    /// Keeps the copy of a frame of which this is the last share, if there is room.
    #[inline(always)]
    pub(crate) fn keep(&mut self, share: &Frame) {
        if share.is_last() {
            self.keep_copy(share);
        }
    }

    /// Keeps the copy of the frame, if there is room.
    fn keep_copy(&mut self, share: &Frame) {
        if self.kept.len() < KEPT
            && let Ok(copy) = share.copy()
        {
            let _kept = self.kept.push(copy);
        }
    }
}
