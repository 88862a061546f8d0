//! Frames whose check sequence is known to be right or not, and isn't held.

ghost use Rattle.std.specs.Prelude.{◌≡◌, length};
ghost use Rattle.afdx_frame.specs.Sealing.{AreBytes};
ghost use Rattle.afdx_frame.specs.Seals.{IsSealedAs};

use crate::check_sequence::is_sealed;
use crate::lengths::CHECK_SEQUENCE;
use crate::seals::Seal;

/// The bytes of a frame, as its message and its seal.
///
/// What filters, polices or receives a frame takes this: nobody on its road asks what the check
/// sequence is, but only whether it is right.
#[derive(Clone, Copy, Debug)]
pub struct Checked<'a> {
    /// All bytes before those of the seal.
    pub message: &'a [u8],
    /// What follows them.
    pub seal: Seal,
    pub ghost known: { IsSealedAs seal message.now },
    pub ghost fits: { AreBytes message.now },
}

impl<'a> Checked<'a> {
    ghost use Rattle.afdx_frame.specs.Parts.{bytes_of};

    /// Reads the check sequence of these bytes.
    pub fn new(bytes: &'a [u8]) -> Checked<'a>
        ensures { bytes_of result ≡ bytes.now }
    {
        if !is_sealed(bytes) {
            return Checked {
                message: bytes,
                seal: Seal::Missing,
            };
        }
        Checked {
            message: &bytes[..bytes.len() - CHECK_SEQUENCE],
            seal: Seal::Right,
        }
    }

    /// How many bytes they are, with those of the seal.
    pub fn length(&self) -> u64
        ensures { result ≡ length (bytes_of self.now) }
    {
        (self.message.len() + self.seal.length()) as u64
    }
}
