//! Rows of senders: frames that aren't lawful by themselves, or no source's.

use super::row::{EXACT, Kind, Row, Said, Seen};
use afdx_frame::{IpFault, MacFault, Side};
use afdx_lawful::{Flaw, SenderFinding};
use afdx_senders::Stray;

pub const SHAPES: [Row; 10] = [
    Row {
        name: "a byte too long",
        by: EXACT,
        given: None,
        until: 0,
        seen: Seen::All,
        came: &[(0, Side::A, 1, Kind::Longer)],
        told: &[(
            0,
            Side::A,
            1,
            Said::Found(SenderFinding::Unlawful(1, Flaw::OverLmax)),
        )],
        counts: (0, 1, 0),
    },
    Row {
        name: "the other network's address",
        by: EXACT,
        given: None,
        until: 0,
        seen: Seen::All,
        came: &[(0, Side::B, 1, Kind::Crossed)],
        told: &[(
            0,
            Side::B,
            1,
            Said::Found(SenderFinding::Unlawful(1, Flaw::NotItsAddress)),
        )],
        counts: (0, 1, 0),
    },
    Row {
        name: "damaged, so it has no number",
        by: EXACT,
        given: None,
        until: 1,
        seen: Seen::All,
        came: &[
            (0, Side::A, 1, Kind::Damaged),
            (1, Side::A, 1, Kind::First(0)),
        ],
        told: &[(
            0,
            Side::A,
            1,
            Said::Found(SenderFinding::Unlawful(1, Flaw::Damaged(MacFault::BadFcs))),
        )],
        counts: (1, 1, 0),
    },
    Row {
        name: "a bad header on both",
        by: EXACT,
        given: None,
        until: 0,
        seen: Seen::All,
        came: &[
            (0, Side::A, 1, Kind::Changed(20, 0x20)),
            (0, Side::B, 1, Kind::Changed(20, 0x20)),
        ],
        told: &[
            (
                0,
                Side::A,
                1,
                Said::Found(SenderFinding::Unlawful(1, Flaw::Unread(IpFault::BadIpHeader))),
            ),
            (
                0,
                Side::B,
                1,
                Said::Found(SenderFinding::Unlawful(2, Flaw::Unread(IpFault::BadIpHeader))),
            ),
        ],
        counts: (0, 0, 0),
    },
    Row {
        name: "a fragment",
        by: EXACT,
        given: None,
        until: 0,
        seen: Seen::All,
        came: &[(0, Side::A, 1, Kind::Fragment)],
        told: &[(
            0,
            Side::A,
            1,
            Said::Found(SenderFinding::Unlawful(1, Flaw::Unread(IpFault::Fragment))),
        )],
        counts: (0, 1, 0),
    },
    Row {
        name: "another system's link",
        by: EXACT,
        given: None,
        until: 0,
        seen: Seen::All,
        came: &[
            (0, Side::A, 2, Kind::First(0)),
            (0, Side::A, 2, Kind::Second),
        ],
        told: &[(0, Side::A, 2, Said::Strayed(1, Stray::NotItsLink))],
        counts: (1, 1, 0),
    },
    Row {
        name: "of no link",
        by: EXACT,
        given: None,
        until: 0,
        seen: Seen::All,
        came: &[(0, Side::A, 1, Kind::Unknown), (0, Side::A, 1, Kind::Short)],
        told: &[
            (0, Side::A, 1, Said::Strayed(1, Stray::UnknownLink)),
            (
                0,
                Side::A,
                1,
                Said::Found(SenderFinding::Unlawful(2, Flaw::Damaged(MacFault::TooShort))),
            ),
        ],
        counts: (0, 0, 0),
    },
    Row {
        name: "passed over",
        by: EXACT,
        given: None,
        until: 0,
        seen: Seen::All,
        came: &[
            (0, Side::A, 1, Kind::Strange),
            (0, Side::A, 5, Kind::First(0)),
            (0, Side::A, 1, Kind::First(0)),
        ],
        told: &[],
        counts: (1, 1, 0),
    },
    Row {
        name: "lives twice",
        by: EXACT,
        given: None,
        until: 0,
        seen: Seen::All,
        came: &[
            (0, Side::A, 1, Kind::First(0)),
            (0, Side::B, 1, Kind::Changed(22, 2)),
        ],
        told: &[
            (
                0,
                Side::B,
                1,
                Said::Found(SenderFinding::Unlawful(2, Flaw::Unread(IpFault::BadIpHeader))),
            ),
            (0, Side::B, 1, Said::Found(SenderFinding::Differs(2))),
        ],
        counts: (1, 0, 0),
    },
    Row {
        name: "damaged, and of no link",
        by: EXACT,
        given: None,
        until: 0,
        seen: Seen::All,
        came: &[
            (0, Side::A, 1, Kind::DamagedUnknown),
            (0, Side::A, 2, Kind::Damaged),
        ],
        told: &[
            (
                0,
                Side::A,
                1,
                Said::Strayed(1, Stray::Damaged(MacFault::BadFcs)),
            ),
            (
                0,
                Side::A,
                2,
                Said::Strayed(2, Stray::Damaged(MacFault::BadFcs)),
            ),
        ],
        counts: (0, 0, 0),
    },
];
