//! What a source shows where its system didn't send as it may.

use afdx_frame::{IpFault, MacFault};

/// What is wrong with a frame by itself.
#[derive(Clone, Copy, Debug, PartialEq, Eq)]
pub enum Flaw {
    /// It is too short or too long, or its check sequence is wrong.
    Damaged(MacFault),
    /// It is longer than its link's frames may be.
    OverLmax,
    /// It is shorter than its link's frames may be.
    UnderLmin,
    /// Its source address isn't that of its system on its network.
    NotItsAddress,
    /// It carries no datagram.
    Unread(IpFault),
}

/// What a system did with a frame, by the frame's line.
#[derive(Clone, Copy, Debug, PartialEq, Eq)]
pub enum SenderFinding {
    /// The frame isn't lawful by itself.
    Unlawful(u64, Flaw),
    /// It has another sequence number than this one, which stands next.
    Number(u64, u8),
    /// It came so many ns too soon after those before it.
    Soon(u64, u64),
    /// It isn't the same as its copy on the other network.
    Differs(u64),
    /// It came so many ns too late after its copy on the other network.
    Apart(u64, u64),
    /// It has no copy on the other network.
    Single(u64),
}
