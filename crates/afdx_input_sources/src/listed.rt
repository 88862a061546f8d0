//! The two kinds of lists: of frames, and of messages.

ghost use Rattle.std.specs.Prelude.{refl};
ghost use Rattle.afdx_input_lines.specs.FrameLines.{ListedFrame, listed_frame};
ghost use Rattle.afdx_input_lines.specs.SubmissionLines.{Submission, submission_of};
ghost use Rattle.afdx_police.specs.Arrival.{Arrival};
ghost use Rattle.afdx_input_sources.specs.Items.{CanFollow, CanBeHanded, heading_order};
ghost use Rattle.afdx_input_sources.specs.Listed.{frames};
ghost use Rattle.afdx_input_sources.specs.Listed.{submissions};
ghost use Rattle.afdx_input_sources.specs.Listed as listed;

use crate::ahead::InOrder;
use crate::engine::Head;
use crate::line_form::{LineForm, Listed};
use afdx_frame::{Seal, Side};
use afdx_input_lines::{Handed, Heading, LineError, read_frame_line, read_submission_line};

impl Head for Heading {
    ghost can_follow = { CanFollow };
}

impl InOrder for Heading {
    ghost order = { heading_order };

    fn comes(&self) -> Option<u64> {
        Some(self.time)
    }

    fn keeps() {}
}

impl Listed for Heading {
    ghost time_of = { λ heading. heading.time };

    fn none() -> Heading {
        Heading {
            time: 0,
            side: Side::A,
            switch: 0,
            port: 1,
            seal: Seal::Missing,
        }
    }

    fn time(&self) -> u64 {
        self.time
    }
}

/// The lines of a list of frames, of one switch.
#[derive(Clone, Copy, Debug)]
pub struct FrameLines;

impl LineForm<Heading> for FrameLines {
    ghost IsForm = { λ form. Unit {0} };

    ghost Said = { ListedFrame };

    ghost Thing = { Arrival };

    ghost kind = { λ form. frames };

    ghost says_of = { listed_frame };

    ghost Gives = { λ form item. Unit {0} };

    ghost times = { λ form n heading bytes. refl };

    #[inline(always)]
    fn read_line(
        &self,
        line: &[u8],
        latest: u64,
        frame: &mut Vec<u8>,
    ) -> Result<Option<Heading>, LineError> {
        read_frame_line(line, latest, frame)
    }
}

impl Head for Handed {
    ghost can_follow = { CanBeHanded };
}

impl Listed for Handed {
    ghost time_of = { λ handed. handed.time };

    fn none() -> Handed {
        Handed {
            time: 0,
            vl: 0,
            sub: 0,
            udp: 0,
        }
    }

    fn time(&self) -> u64 {
        self.time
    }
}

/// The lines of a list of messages.
#[derive(Clone, Copy, Debug)]
pub struct MessageLines;

impl LineForm<Handed> for MessageLines {
    ghost IsForm = { λ form. Unit {0} };

    ghost Said = { Submission };

    ghost Thing = { listed.Handed };

    ghost kind = { λ form. submissions };

    ghost says_of = { submission_of };

    ghost Gives = { λ form item. Unit {0} };

    ghost times = { λ form n handed bytes. refl };

    fn read_line(
        &self,
        line: &[u8],
        latest: u64,
        payload: &mut Vec<u8>,
    ) -> Result<Option<Handed>, LineError> {
        read_submission_line(line, latest, payload)
    }
}
