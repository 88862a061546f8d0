//! What the list that says the same as a recording has for each number.

ghost use Rattle.afdx_input_sources.specs.NumberLines.{LineFollows};

use crate::engine::Head;
use crate::skipped::Skipped;
use afdx_frame::Side;
use afdx_input_lines::{FrameKind, Role};

/// What the line of a number says.
#[derive(Clone, Copy, Debug, PartialEq, Eq)]
pub enum NumberLine {
    /// It is an arrival, or a frame that left, of which this is done with the recorded bytes.
    Arrival {
        kind: FrameKind,
        /// When it comes, or leaves, in ns, at most 10^15.
        time: u64,
        /// Which of both it does.
        role: Role,
        /// The network by which it comes, or leaves.
        side: Side,
        /// The place of its switch among those of its side, from 0; 0 where there is one.
        switch: u8,
        /// The port at which it comes in, or leaves, 1 to 24.
        port: u8,
    },
    /// It is skipped.
    Skipped(Skipped),
}

impl Head for NumberLine {
    ghost can_follow = { LineFollows };
}
