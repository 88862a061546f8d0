//! The counts of a run.

use std::fmt;

/// What a run counted. A count that has no meaning in a run stays 0.
#[derive(Clone, Copy, Debug, PartialEq, Eq)]
pub struct Summary {
    /// The lines that were read, those that were skipped among them.
    pub lines: u64,
    /// The frames that were accepted; in a run of a sender the messages that were taken.
    pub accepted: u64,
    /// The frames that were dropped at a switch, for any reason; in a run of a sender the messages
    /// that were refused.
    pub dropped: u64,
    /// The copies of accepted frames that were lost to a full buffer.
    pub lost: u64,
    /// The copies that left a port; in a run of a sender the frames that left, one for both sides.
    pub departed: u64,
    /// The copies that were dropped at their turn, as they had waited too long.
    pub too_old: u64,
    /// The messages that were delivered.
    pub delivered: u64,
}

/// The counts of a run that has read nothing.
pub const NO_COUNTS: Summary = Summary {
    lines: 0,
    accepted: 0,
    dropped: 0,
    lost: 0,
    departed: 0,
    too_old: 0,
    delivered: 0,
};

/// The counts in one line: `summary lines 6 accepted 4 ..`, in the order of the fields.
impl fmt::Display for Summary {
    ghost use Rattle.std.specs.Prelude.{Some};
    ghost use Rattle.afdx_command_tables.specs.Commands.{summary_text};

    ghost output = { λ summary. Some (summary_text summary) };

    fn fmt<W: fmt::Write>(&self, f: &mut fmt::Formatter<W>) -> fmt::Result {
        write!(
            f,
            "summary lines {} accepted {} dropped {} lost {} departed {} too-old {} delivered {}",
            self.lines,
            self.accepted,
            self.dropped,
            self.lost,
            self.departed,
            self.too_old,
            self.delivered
        )
    }
}
