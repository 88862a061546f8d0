//! How a row of senders is spelled that are judged as a run does it.

use afdx_frame::Side;
use afdx_lawful::SenderFinding;
use afdx_senders::Stray;

/// A frame: that of link 1 on the side where it comes, with this number or with number 0 and a
/// change; or another one.
#[derive(Clone, Copy, Debug, PartialEq, Eq)]
pub enum Kind {
    First(u8),
    /// With another byte at a place.
    Changed(usize, u8),
    /// With the address of side A.
    Crossed,
    /// With a header that says that more fragments come.
    Fragment,
    /// With another last byte.
    Damaged,
    /// With one more byte, sealed.
    Longer,
    /// Its first six bytes alone.
    Short,
    /// That of link 2 on side A.
    Second,
    /// That of link 1 on a link that the tables don't have.
    Unknown,
    /// The same with another last byte.
    DamagedUnknown,
    /// That of no link.
    Strange,
}

/// When a frame came, in ns, on which side, and at which port.
pub type Came = (u32, Side, u8, Kind);

/// What is told.
#[derive(Clone, Copy, Debug, PartialEq, Eq)]
pub enum Said {
    Found(SenderFinding),
    /// The frame of this line waited for its copy in vain.
    Single(u64),
    Strayed(u64, Stray),
}

/// At which moment, in ns, on which side, and at which port.
pub type Line = (u64, Side, u8, Said);

/// The input ports that were recorded: all, or port 1 of both sides, or of A.
#[derive(Clone, Copy, Debug, PartialEq, Eq)]
pub enum Seen {
    All,
    First,
    FirstOfA,
}

/// A list: slack, drift and start; how far apart copies may be sent, if that is given; when it
/// ends, in ns; what was recorded; the frames; what is told; how many are sent, of how many the
/// copy is cut off, and how many links are alone.
pub struct Row {
    pub name: &'static str,
    pub by: (u64, u64, Option<u64>),
    pub given: Option<u64>,
    pub until: u64,
    pub seen: Seen,
    pub came: &'static [Came],
    pub told: &'static [Line],
    pub counts: (u64, u64, usize),
}

pub const EXACT: (u64, u64, Option<u64>) = (0, 0, None);

pub const SLACK: (u64, u64, Option<u64>) = (1, 0, None);

pub const DRIFT: (u64, u64, Option<u64>) = (0, 1_000, None);
