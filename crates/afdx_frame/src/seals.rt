//! How a frame is sealed.

ghost use Rattle.std.specs.Prelude.{◌≡◌};
ghost use Rattle.afdx_frame.specs.Seals.{whole, IsSealedAs, seal_length};

use crate::check_sequence::is_sealed;
use crate::lengths::CHECK_SEQUENCE;

/// How a frame is sealed (IEEE 802.3 clause 3): what follows its message.
#[derive(Clone, Copy, Debug, PartialEq, Eq)]
pub enum Seal {
    /// The check sequence of the message.
    Right,
    /// The complement of that.
    Wrong,
    /// Nothing. The message is all bytes; their last four aren't the check sequence of the others.
    Missing,
}

impl Seal {
    /// How many bytes follow the message.
    pub(crate) fn length(self) -> usize
        ensures { result ≡ seal_length self }
    {
        match self {
            Seal::Right | Seal::Wrong => CHECK_SEQUENCE,
            Seal::Missing => 0,
        }
    }
}

/// Leaves of the bytes of a frame its message: takes the check sequence off their end, if it is
/// that of the others.
pub fn unseal(bytes: &mut Vec<u8>) -> Seal
    ensures whole { whole result bytes.new.items ≡ bytes.old.items }
    ensures known { IsSealedAs result bytes.new.items }
{
    if is_sealed(bytes.as_slice()) {
        bytes.truncate(bytes.len() - CHECK_SEQUENCE);
        Seal::Right
    } else {
        Seal::Missing
    }
}
