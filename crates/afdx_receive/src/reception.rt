//! What a receiver makes of what arrived.

use afdx_frame::{IpFault, MacFault, VlId};
use std::fmt;

/// Why a receiver drops what arrived: the first of these, in this order, that is true of it.
#[derive(Clone, Copy, Debug, PartialEq, Eq)]
pub enum DropReason {
    /// The bytes are no frame of a virtual link.
    Mac(MacFault),
    /// The frame's link doesn't go to this system.
    NotSubscribed,
    /// The frame isn't the first of its link on its network, its number isn't 0, and isn't one or
    /// two steps after that of the frame before it there.
    Sequence,
    /// A copy that is as new won already: the frame comes at most the link's skew after the last
    /// winner, and its number isn't 1 to 127 steps after the winner's.
    Redundant,
    /// The frame won, but carries no datagram that a receiver takes.
    Ip(IpFault),
    /// The frame won, but the system has no communication port for its link and UDP port.
    NoPort,
}

/// Each reason of a receiver's own, in their order: in a word, and what it means, with what may be
/// done. The others are in the words of the frame's faults.
pub const DROP_REASONS: [(DropReason, &str, &str); 4] = [
    (
        DropReason::NotSubscribed,
        "not-subscribed",
        "not-subscribed: the system isn't among the receivers of the frame's link (the key to).",
    ),
    (
        DropReason::Sequence,
        "sequence",
        "\
sequence: the frame isn't valid: its number doesn't follow that of the frame before it on its
side. It came twice, or after two or more others that were lost.",
    ),
    (
        DropReason::Redundant,
        "redundant",
        "\
redundant: the frame is valid, but a copy of it came first. So it is with one of two copies
of each frame where both networks work.",
    ),
    (
        DropReason::NoPort,
        "no-port",
        "\
no-port: the frame is for a UDP port that the system has no communication port for.
If it is to read the message, add a port to the configuration with this system, link and udp.",
    ),
];

impl DropReason {
    ghost use Rattle.std.specs.Prelude.{◌≡◌, ◌<◌, Some, slice_get};
    ghost use Rattle.afdx_receive.specs.Words.{drop_word, own_reasons, own_word};

    /// Its row, which stands at this place.
    #[tactic(auto, unfolding(crate::specs::Words::own_reasons, crate::specs::Words::own_words))]
    fn row(self, place: usize) -> &'static (DropReason, &'static str, &'static str)
        requires within { place < 4 }
        requires own { slice_get own_reasons place ≡ Some self }
        ensures word { result.now.1.now ≡ own_word place }
    {
        &DROP_REASONS[place]
    }

    /// It in a word.
    #[tactic(auto, unfolding(crate::specs::Words::own_reasons))]
    pub fn word(self) -> &'static str
        ensures { result.now ≡ drop_word self }
    {
        match self {
            DropReason::Mac(fault) => fault.word(),
            DropReason::NotSubscribed => self.row(0).1,
            DropReason::Sequence => self.row(1).1,
            DropReason::Redundant => self.row(2).1,
            DropReason::Ip(fault) => fault.word(),
            DropReason::NoPort => self.row(3).1,
        }
    }
}

impl fmt::Display for DropReason {
    ghost use Rattle.std.specs.Prelude.{Some};
    ghost use Rattle.afdx_receive.specs.Words.{drop_word};

    ghost output = { λ reason. Some (drop_word reason) };

    fn fmt<W: fmt::Write>(&self, f: &mut fmt::Formatter<W>) -> fmt::Result {
        f.write_str(self.word())
    }
}

impl std::error::Error for DropReason {}

/// What a receiver makes of what arrived.
#[derive(Clone, Copy, Debug, PartialEq, Eq)]
pub enum Reception<'a> {
    /// The payload of a frame that won, lent from its bytes, with its link and the UDP port that it
    /// goes to.
    Message { vl: VlId, udp: u16, bytes: &'a [u8] },
    Dropped(DropReason),
}
