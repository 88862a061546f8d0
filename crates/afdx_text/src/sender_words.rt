//! Why a frame that a system sent isn't lawful by itself, in a word.

ghost use Rattle.std.specs.Prelude.{◌≡◌};
ghost use Rattle.afdx_text.specs.SenderWords.{flaw_word, no_source_word};

use afdx_lawful::Flaw;
use afdx_police::Reason;

/// Why a frame is no source's that a system sent, and that isn't damaged.
#[derive(Clone, Copy, Debug, PartialEq, Eq)]
pub enum NoSource {
    /// No row has the link that it names.
    UnknownLink,
    /// The system that sent it doesn't send the link that it names.
    NotItsLink,
}

const NOT_ITS_ADDRESS: &str = "not-its-address";

const NOT_ITS_LINK: &str = "not-its-link";

/// The flaw that only a sender's frame has: in a word, and what it means, with what may be done.
/// The others are in the words of a switch and of a receiver.
pub const FLAW_REASONS: [(Flaw, &str, &str); 1] = [(
    Flaw::NotItsAddress,
    NOT_ITS_ADDRESS,
    "\
not-its-address: the frame's source address isn't that of its system on its network: 02 00 00, the
two bytes of the system's id, and 20 on A or 40 on B.
If all frames of a system have this, A and B are plugged crosswise, or the system has another id.",
)];

/// The same of a frame that is no source's.
pub const NO_SOURCE_REASONS: [(NoSource, &str, &str); 1] = [(
    NoSource::NotItsLink,
    NOT_ITS_LINK,
    "\
not-its-link: the frame names a link that the system at this port doesn't send.
The system has other tables than CONFIG, or CAME gives the wrong port. On a bench it is mostly a
cable in the wrong port.",
)];

/// What is wrong with a frame by itself, in a word.
#[tactic(auto, unfolding(crate::specs::SenderWords::flaw_word))]
pub(crate) fn word_of_flaw(flaw: Flaw) -> &'static str
    ensures { result.now ≡ flaw_word flaw }
{
    match flaw {
        Flaw::Damaged(fault) => fault.word(),
        Flaw::OverLmax => Reason::OverLmax.word(),
        Flaw::UnderLmin => Reason::UnderLmin.word(),
        Flaw::NotItsAddress => NOT_ITS_ADDRESS,
        Flaw::Unread(fault) => fault.word(),
    }
}

impl NoSource {
    /// It in a word.
    #[tactic(auto, unfolding(crate::specs::SenderWords::no_source_word))]
    pub fn word(self) -> &'static str
        ensures { result.now ≡ no_source_word self }
    {
        match self {
            NoSource::UnknownLink => Reason::UnknownLink.word(),
            NoSource::NotItsLink => NOT_ITS_LINK,
        }
    }
}
