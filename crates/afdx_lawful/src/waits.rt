//! A frame that waits for its copy.

ghost use Rattle.std.specs.Prelude.{◌≡◌, ◌≤◌};
ghost use Rattle.afdx_frame.specs.Parts.{number_of_frame};
ghost use Rattle.afdx_frame.specs.Times.{latest_listed};
ghost use Rattle.afdx_lawful.specs.Flaws.{IsWholeFrame};

use afdx_conform::{CheckedBytes, Spare};

/// A frame that waits for its copy: its line, its time in ns, its sequence number, its bytes, and
/// whether nothing was found of it when it came.
#[derive(Debug, Drop)]
pub(crate) struct Waits {
    pub line: u64,
    pub time: u64,
    pub number: u8,
    pub bytes: CheckedBytes,
    pub is_quiet: bool,
    pub ghost listed: { time ≤ latest_listed },
    pub ghost numbered: { number ≡ number_of_frame bytes },
    pub ghost whole: { IsWholeFrame bytes },
}

impl Waits {
    /// It is forgotten: the memory of its bytes is for others.
    pub fn give_back(self, spare: &mut Spare) {
        let Waits {
            line: _,
            time: _,
            number: _,
            bytes,
            is_quiet: _,
        } = self;
        bytes.give_back(spare);
    }
}
