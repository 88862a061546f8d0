//! What a switch hands over to an end system.

ghost use Rattle.std.specs.Prelude.{◌≡◌, true};
ghost use Rattle.afdx_frame.specs.Parts.{bytes_of};
ghost use Rattle.afdx_end_systems.specs.LinkFrames.{is_link_frame};

use afdx_frame::{Checked, Side};

/// A frame that leaves an output port of a switch, and is handed over to the system there.
#[derive(Clone, Copy, Debug)]
pub struct Handover<'a> {
    /// The switch, and so the network by which the frame comes.
    pub side: Side,
    /// The output port, 1 to 24.
    pub port: u8,
    /// When its slot ended, in ns.
    pub time: u64,
    /// The line of the list that it came from.
    pub line: u64,
    /// Where the tables have the frame's link: the system looks for its memory there first. What it
    /// makes of the frame is the same whatever this says.
    pub row: u16,
    /// The frame, one of a link: a switch lets no other pass.
    pub frame: Checked<'a>,
    pub ghost framed: { is_link_frame (bytes_of frame) ≡ true },
}
