//! A frame that isn't damaged.

ghost use Rattle.std.specs.Prelude.{◌≡◌, ◌≤◌};
ghost use Rattle.afdx_frame.specs.Parts.{bytes_of, number_of_frame};
ghost use Rattle.afdx_frame.specs.Times.{latest_listed};
ghost use Rattle.afdx_lawful.specs.Flaws.{IsWholeFrame};

use afdx_frame::Checked;

/// A frame that isn't damaged: its line, its time in ns, its bytes, and its sequence number.
#[derive(Clone, Copy, Debug)]
pub(crate) struct Whole<'a> {
    pub line: u64,
    pub time: u64,
    pub frame: Checked<'a>,
    pub number: u8,
    pub ghost listed: { time ≤ latest_listed },
    pub ghost numbered: { number ≡ number_of_frame (bytes_of frame) },
    pub ghost whole: { IsWholeFrame (bytes_of frame) },
}
