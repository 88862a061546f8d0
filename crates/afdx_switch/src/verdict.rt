//! What a switch makes of an arrival.

use crate::ports::PortSet;
use afdx_police::Reason;

/// What the switch makes of an arrival.
#[derive(Clone, Copy, Debug, PartialEq, Eq)]
pub enum Verdict {
    /// The frame was dropped, for its shape or for its link's rate.
    Dropped(Reason),
    /// The frame was accepted. It went on to the output ports of its link, but for these, whose
    /// buffers had no room.
    Accepted { lost: PortSet },
}
