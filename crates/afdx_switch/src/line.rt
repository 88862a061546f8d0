//! What a switch keeps of a link.

use afdx_frame::{PORT_COUNT, Priority};
use afdx_police::LinkAccount;
use arrayvec::ArrayVec;

/// What the switch keeps of a link.
#[derive(Drop)]
pub struct Line {
    pub(crate) account: LinkAccount,
    pub(crate) priority: Priority,
    /// How long its frames may wait for their turn, in ns, if there is a limit.
    pub(crate) longest_wait: Option<u64>,
    /// The places of the output ports that the link goes to, in ascending order.
    pub(crate) goes: ArrayVec<u8, PORT_COUNT>,
}
