//! Rows of senders: ports that weren't recorded.

use super::row::{EXACT, Kind, Row, Said, Seen};
use afdx_frame::Side;
use afdx_lawful::SenderFinding;

pub const ALONE: [Row; 3] = [
    Row {
        name: "link 2 wasn't recorded",
        by: EXACT,
        given: None,
        until: 100,
        seen: Seen::First,
        came: &[
            (0, Side::A, 1, Kind::First(0)),
            (100, Side::B, 1, Kind::First(0)),
        ],
        told: &[],
        counts: (2, 0, 1),
    },
    Row {
        name: "nor was link 1 on B",
        by: EXACT,
        given: None,
        until: 5,
        seen: Seen::FirstOfA,
        came: &[
            (0, Side::A, 1, Kind::First(0)),
            (5, Side::A, 1, Kind::Strange),
        ],
        told: &[],
        counts: (1, 0, 2),
    },
    Row {
        name: "what comes at such a port isn't looked at",
        by: EXACT,
        given: None,
        until: 300_000_000,
        seen: Seen::FirstOfA,
        came: &[
            (0, Side::A, 1, Kind::First(1)),
            (5, Side::B, 1, Kind::First(7)),
            (6, Side::A, 2, Kind::Unknown),
            (300_000_000, Side::A, 1, Kind::First(2)),
        ],
        told: &[(0, Side::A, 1, Said::Found(SenderFinding::Number(1, 0)))],
        counts: (1, 0, 2),
    },
];
