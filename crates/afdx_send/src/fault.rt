//! Why a message is refused.

use std::fmt;

/// Why a message wasn't taken.
#[derive(Clone, Copy, Debug, PartialEq, Eq)]
pub enum SendFault {
    /// The system sends no such link.
    NotMyLink,
    /// The link has no such sub-VL.
    NoSuchSub,
    /// The message has no bytes.
    Empty,
    /// Its frame would be longer than the link's greatest.
    TooLarge,
    /// 64 messages of the sub-VL aren't released yet.
    QueueFull,
    /// Memory was refused.
    Memory,
}

/// Each fault at its own place, the order of `SendFault`: in a word, and what it means, with what
/// may be done. The last one is in no line: a run ends by it.
pub const SEND_FAULTS: [(SendFault, &str, &str); 6] = [
    (
        SendFault::NotMyLink,
        "S1",
        "\
S1: the link isn't one of this system's. A system sends the links whose key from names it.",
    ),
    (
        SendFault::NoSuchSub,
        "S2",
        "\
S2: the sub-VL isn't one of the link's. They are numbered from 1 to the key subs of the link,
1 to 4.",
    ),
    (SendFault::Empty, "S3", "S3: the message is empty."),
    (
        SendFault::TooLarge,
        "S4",
        "\
S4: it is too large: its bytes and 47 are more than Lmax, the key lmax of the link, lmin to
1518.",
    ),
    (
        SendFault::QueueFull,
        "S5",
        "\
S5: 64 messages of that sub-VL already wait for their release. A link releases one message
in each bag_ms: give fewer, or make bag_ms smaller.",
    ),
    (
        SendFault::Memory,
        "S6",
        "S6: there was no memory for the message.",
    ),
];

impl SendFault {
    ghost use Rattle.std.specs.Prelude.{◌≡◌};
    ghost use Rattle.afdx_send.specs.Words.{refusal_word};

    /// Its row, which stands at its place.
    #[tactic(auto, unfolding(crate::specs::Words::refusal_words))]
    fn row(self) -> &'static (SendFault, &'static str, &'static str)
        ensures own { result.now.0 ≡ self }
        ensures word { result.now.1.now ≡ refusal_word self }
    {
        &SEND_FAULTS[self as usize]
    }

    /// It in a word.
    pub fn word(self) -> &'static str
        ensures { result.now ≡ refusal_word self }
    {
        self.row().1
    }
}

impl fmt::Display for SendFault {
    ghost use Rattle.std.specs.Prelude.{Some};
    ghost use Rattle.afdx_send.specs.Words.{refusal_word};

    ghost output = { λ fault. Some (refusal_word fault) };

    fn fmt<W: fmt::Write>(&self, f: &mut fmt::Formatter<W>) -> fmt::Result {
        f.write_str(self.word())
    }
}

impl std::error::Error for SendFault {}
