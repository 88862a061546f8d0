//! A frame of one of two lists that are read at once.

ghost use Rattle.afdx_input_runs.specs.Seeing.{SeenFollows};
ghost use Rattle.afdx_input_runs.specs.SeenLines.{seen_listed};

use crate::over::OfLines;
use afdx_input_lines::{Heading, Role};
use afdx_input_sources::Head;

/// What is said of a frame that came in at a switch, or that left one, beside its bytes.
#[derive(Clone, Copy, Debug, PartialEq, Eq)]
pub struct Seen {
    /// Which of both it did.
    pub role: Role,
    /// When, by which network and at which port, and how it is sealed. Of what left, the port is
    /// the one at which it left.
    pub heading: Heading,
}

impl Head for Seen {
    ghost can_follow = { SeenFollows };
}

impl OfLines for Seen {
    ghost items_of = { seen_listed };

    fn peels() {}
}
