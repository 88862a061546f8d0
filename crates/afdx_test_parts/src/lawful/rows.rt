//! The rows of sources that are judged while their frames come.

use afdx_frame::{IpFault, MacFault, Side};
use afdx_lawful::{Flaw, SenderFinding};

/// A frame of link 1: when it came, in ns, where, its number, and what else of it is changed: bytes
/// before its check sequence, or this one's last byte.
pub type Sent = (u32, Side, u8, &'static [(usize, u8)]);

/// What is told: at which moment, in ns, on which side.
pub type Line = (u64, Side, SenderFinding);

/// A recording: slack, drift and start; how far copies may be sent apart, if that is given; when it
/// ends, in ns; the frames; what is told; how many are sent, and of how many the copy is cut off.
pub struct Row {
    pub name: &'static str,
    pub by: (u64, u64, Option<u64>),
    pub given: Option<u64>,
    pub until: u64,
    pub sent: &'static [Sent],
    pub found: &'static [Line],
    pub counts: (u64, u64),
}

pub const EXACT: (u64, u64, Option<u64>) = (0, 0, None);

pub const SLACK: (u64, u64, Option<u64>) = (1, 0, None);

pub const DRIFT: (u64, u64, Option<u64>) = (0, 1_000, None);

/// The byte of side B's network, on side A.
pub const CROSSED: &[(usize, u8)] = &[(11, 0x40)];

pub const DAMAGED: &[(usize, u8)] = &[(63, 0)];

pub const LIVES_TWICE: &[(usize, u8)] = &[(22, 2)];

pub const OTHER_LETTER: &[(usize, u8)] = &[(42, 0x69)];

pub const ROWS: [Row; 27] = [
    Row {
        name: "both at one time",
        by: EXACT,
        given: None,
        until: 0,
        sent: &[(0, Side::A, 0, &[]), (0, Side::B, 0, &[])],
        found: &[],
        counts: (2, 0),
    },
    Row {
        name: "as far apart as the way leaves",
        by: EXACT,
        given: None,
        until: 988_760,
        sent: &[(0, Side::A, 0, &[]), (988_760, Side::B, 0, &[])],
        found: &[],
        counts: (2, 0),
    },
    Row {
        name: "further apart",
        by: EXACT,
        given: None,
        until: 988_761,
        sent: &[(0, Side::A, 0, &[]), (988_761, Side::B, 0, &[])],
        found: &[(988_761, Side::B, SenderFinding::Apart(2, 1))],
        counts: (1, 0),
    },
    Row {
        name: "the copy may be behind the end",
        by: EXACT,
        given: None,
        until: 988_759,
        sent: &[(0, Side::A, 0, &[])],
        found: &[],
        counts: (1, 1),
    },
    Row {
        name: "the copy isn't behind the end",
        by: EXACT,
        given: None,
        until: 988_760,
        sent: &[(0, Side::A, 0, &[])],
        found: &[(100_000_000, Side::A, SenderFinding::Single(1))],
        counts: (0, 0),
    },
    Row {
        name: "at the last moment",
        by: EXACT,
        given: None,
        until: 100_000_000,
        sent: &[(0, Side::A, 0, &[]), (100_000_000, Side::B, 0, &[])],
        found: &[(100_000_000, Side::B, SenderFinding::Apart(2, 99_011_240))],
        counts: (1, 0),
    },
    Row {
        name: "behind the hold",
        by: EXACT,
        given: None,
        until: 100_000_001,
        sent: &[(0, Side::A, 0, &[]), (100_000_001, Side::B, 0, &[])],
        found: &[(100_000_000, Side::A, SenderFinding::Single(1))],
        counts: (1, 1),
    },
    Row {
        name: "a number is left out",
        by: EXACT,
        given: None,
        until: 0,
        sent: &[(0, Side::A, 0, &[]), (0, Side::A, 2, &[])],
        found: &[
            (0, Side::A, SenderFinding::Number(2, 1)),
            (0, Side::A, SenderFinding::Soon(2, 500_000)),
        ],
        counts: (1, 2),
    },
    Row {
        name: "the first number",
        by: EXACT,
        given: None,
        until: 0,
        sent: &[(0, Side::A, 1, &[])],
        found: &[(0, Side::A, SenderFinding::Number(1, 0))],
        counts: (0, 1),
    },
    Row {
        name: "1 stands behind 255",
        by: (0, 0, Some(0)),
        given: None,
        until: 1_000_000,
        sent: &[(0, Side::A, 255, &[]), (1_000_000, Side::A, 1, &[])],
        found: &[],
        counts: (2, 2),
    },
    Row {
        name: "0 doesn't",
        by: (0, 0, Some(0)),
        given: None,
        until: 1_000_000,
        sent: &[(0, Side::A, 255, &[]), (1_000_000, Side::A, 0, &[])],
        found: &[(1_000_000, Side::A, SenderFinding::Number(2, 1))],
        counts: (1, 2),
    },
    Row {
        name: "too soon",
        by: EXACT,
        given: None,
        until: 499_999,
        sent: &[(0, Side::A, 0, &[]), (499_999, Side::A, 1, &[])],
        found: &[(499_999, Side::A, SenderFinding::Soon(2, 1))],
        counts: (1, 2),
    },
    Row {
        name: "the jitter is used once",
        by: EXACT,
        given: None,
        until: 1_499_999,
        sent: &[
            (0, Side::A, 0, &[]),
            (500_000, Side::A, 1, &[]),
            (1_499_999, Side::A, 2, &[]),
        ],
        found: &[
            (1_499_999, Side::A, SenderFinding::Soon(3, 1)),
            (100_000_000, Side::A, SenderFinding::Single(1)),
            (100_500_000, Side::A, SenderFinding::Single(2)),
        ],
        counts: (0, 1),
    },
    Row {
        name: "too soon isn't charged",
        by: EXACT,
        given: None,
        until: 500_000,
        sent: &[
            (0, Side::A, 0, &[]),
            (1, Side::A, 1, &[]),
            (500_000, Side::A, 2, &[]),
        ],
        found: &[(1, Side::A, SenderFinding::Soon(2, 499_999))],
        counts: (2, 3),
    },
    Row {
        name: "stamps are off",
        by: SLACK,
        given: None,
        until: 499_998,
        sent: &[(0, Side::A, 0, &[]), (499_998, Side::A, 1, &[])],
        found: &[],
        counts: (2, 2),
    },
    Row {
        name: "stamps are off by more",
        by: SLACK,
        given: None,
        until: 499_997,
        sent: &[(0, Side::A, 0, &[]), (499_997, Side::A, 1, &[])],
        found: &[(499_997, Side::A, SenderFinding::Soon(2, 1))],
        counts: (1, 2),
    },
    Row {
        name: "clocks are apart",
        by: DRIFT,
        given: None,
        until: 499_501,
        sent: &[(0, Side::A, 0, &[]), (499_501, Side::A, 1, &[])],
        found: &[],
        counts: (2, 2),
    },
    Row {
        name: "the other network's address",
        by: EXACT,
        given: None,
        until: 0,
        sent: &[(0, Side::A, 0, CROSSED)],
        found: &[(0, Side::A, SenderFinding::Unlawful(1, Flaw::NotItsAddress))],
        counts: (0, 1),
    },
    Row {
        name: "a damaged frame",
        by: EXACT,
        given: None,
        until: 1,
        sent: &[(0, Side::A, 0, DAMAGED), (1, Side::A, 0, &[])],
        found: &[(
            0,
            Side::A,
            SenderFinding::Unlawful(1, Flaw::Damaged(MacFault::BadFcs)),
        )],
        counts: (1, 1),
    },
    Row {
        name: "the copy isn't the same",
        by: EXACT,
        given: None,
        until: 0,
        sent: &[(0, Side::A, 0, &[]), (0, Side::B, 0, OTHER_LETTER)],
        found: &[(0, Side::B, SenderFinding::Differs(2))],
        counts: (1, 0),
    },
    Row {
        name: "it isn't lawful too",
        by: EXACT,
        given: None,
        until: 0,
        sent: &[(0, Side::A, 0, &[]), (0, Side::B, 0, LIVES_TWICE)],
        found: &[
            (
                0,
                Side::B,
                SenderFinding::Unlawful(2, Flaw::Unread(IpFault::BadIpHeader)),
            ),
            (0, Side::B, SenderFinding::Differs(2)),
        ],
        counts: (1, 0),
    },
    Row {
        name: "a distance is given",
        by: SLACK,
        given: Some(0),
        until: 1_000_003,
        sent: &[
            (0, Side::A, 0, &[]),
            (2, Side::B, 0, &[]),
            (1_000_000, Side::A, 1, &[]),
            (1_000_003, Side::B, 1, &[]),
        ],
        found: &[(1_000_003, Side::B, SenderFinding::Apart(4, 3))],
        counts: (3, 0),
    },
    Row {
        name: "the copy may be before the start",
        by: (0, 0, Some(5)),
        given: None,
        until: 3_000_000,
        sent: &[(988_764, Side::A, 7, &[])],
        found: &[],
        counts: (1, 1),
    },
    Row {
        name: "the copy isn't before the start",
        by: (0, 0, Some(5)),
        given: None,
        until: 3_000_000,
        sent: &[(988_765, Side::A, 7, &[])],
        found: &[(100_988_765, Side::A, SenderFinding::Single(1))],
        counts: (0, 0),
    },
    Row {
        name: "its side had begun",
        by: (0, 0, Some(0)),
        given: None,
        until: 3_000_000,
        sent: &[(0, Side::B, 6, &[]), (10, Side::A, 7, &[])],
        found: &[(100_000_010, Side::A, SenderFinding::Single(2))],
        counts: (1, 1),
    },
    Row {
        name: "its side went on",
        by: EXACT,
        given: None,
        until: 1_000_000,
        sent: &[
            (0, Side::A, 0, &[]),
            (0, Side::B, 0, &[]),
            (999_999, Side::A, 1, &[]),
            (1_000_000, Side::B, 2, &[]),
        ],
        found: &[
            (1_000_000, Side::B, SenderFinding::Number(4, 1)),
            (100_999_999, Side::A, SenderFinding::Single(3)),
        ],
        counts: (2, 1),
    },
    Row {
        name: "A's is told first, and before what comes behind its moment",
        by: EXACT,
        given: None,
        until: 300_000_000,
        sent: &[
            (0, Side::B, 0, &[]),
            (0, Side::A, 0, LIVES_TWICE),
            (1_000_000, Side::B, 1, &[]),
            (1_000_000, Side::A, 2, &[]),
            (150_000_000, Side::A, 3, &[]),
            (150_000_000, Side::B, 2, &[]),
        ],
        found: &[
            (
                0,
                Side::A,
                SenderFinding::Unlawful(2, Flaw::Unread(IpFault::BadIpHeader)),
            ),
            (0, Side::A, SenderFinding::Differs(2)),
            (1_000_000, Side::A, SenderFinding::Number(4, 1)),
            (101_000_000, Side::A, SenderFinding::Single(4)),
            (101_000_000, Side::B, SenderFinding::Single(3)),
            (250_000_000, Side::A, SenderFinding::Single(5)),
            (250_000_000, Side::B, SenderFinding::Single(6)),
        ],
        counts: (1, 0),
    },
];
