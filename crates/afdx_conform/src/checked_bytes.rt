//! The bytes of a frame that is kept, whose check sequence isn't held.

ghost use Rattle.std.specs.Prelude.{◌≡◌, ◌↔◌, IfOk, IsTrue, if◌then◌else◌, length};
ghost use Rattle.std.specs.Str.{bytes_eq};
ghost use Rattle.afdx_frame.specs.Parts.{bytes_of};
ghost use Rattle.afdx_frame.specs.Sealing.{is_sealed, sealed_wrongly};
ghost use Rattle.afdx_frame.specs.declared.seals.Seal.TheVariants.{Wrong, Missing};
ghost use Rattle.afdx_conform.specs.KnownBytes.{are_wrong, front_of, key_of, seal_of};

use crate::spare::Spare;
use afdx_frame::{Checked, Seal, fcs};
use std::alloc::AllocError;
use std::marker::Model;
use std::rc::Rc;

/// Whether the bytes are this message and the complement of its check sequence.
#[cold]
#[inline(never)]
fn is_sealed_wrongly(bytes: &[u8], message: &[u8]) -> bool
    ensures { result ≡ bytes_eq bytes.now (sealed_wrongly message.now) }
{
    if bytes.len() < message.len() {
        return false;
    }
    let (front, last) = bytes.split_at(message.len());
    front == message && last == (!fcs(message)).to_le_bytes().as_slice()
}

/// All of these bytes but the last four.
fn without_four(bytes: &[u8]) -> &[u8]
    ensures { result.now ≡ front_of bytes.now }
{
    &bytes[..bytes.len().saturating_sub(4)]
}

/// Of bytes that aren't sealed whether they are sealed wrongly, and these bytes, without the last
/// four if they are.
#[cold]
#[inline(never)]
fn key_of_unsealed(bytes: &[u8]) -> (Seal, &[u8])
    ensures seal { result.0 ≡ (if are_wrong bytes.now then Wrong else Missing) }
    ensures key { result.1.now ≡ (if are_wrong bytes.now then front_of bytes.now else bytes.now) }
{
    let front = without_four(bytes);
    if is_sealed_wrongly(bytes, front) {
        (Seal::Wrong, front)
    } else {
        (Seal::Missing, bytes)
    }
}

/// Whether two frames are sealed alike.
fn is_sealed_alike(seal: Seal, other: Seal) -> bool
    ensures { IsTrue result ↔ (seal ≡ other) }
{
    seal == other
}

/// The bytes of a message that may be shared.
fn bytes_in(message: &Rc<Vec<u8>>) -> &[u8]
    ensures { result.now ≡ message.now.value.items }
{
    message.as_ref().as_slice()
}

/// The bytes of a frame, kept as its message and its seal. All that share them have one copy.
#[derive(Debug, Drop)]
pub struct CheckedBytes {
    message: Rc<Vec<u8>>,
    seal: Seal,
}

impl Model for CheckedBytes {
    ghost use Rattle.std.specs.Prelude.{List, ℕ};
    ghost use Rattle.afdx_frame.specs.Sealing.{AreBytes};
    ghost use Rattle.afdx_frame.specs.Seals.{whole, IsSealedAs};

    ghost Value = { List ℕ };

    ghost view = { λ kept. whole kept.seal kept.message.value.items };

    ghost invariant = { λ kept.
        IsSealedAs kept.seal kept.message.value.items × AreBytes kept.message.value.items };
}

impl CheckedBytes {
    /// A copy of these bytes, in the memory of a message that was forgotten if there is one. Fails
    /// only out of memory.
    pub fn of(spare: &mut Spare, frame: Checked<'_>) -> Result<CheckedBytes, AllocError>
        ensures { IfOk result (λ kept. kept ≡ bytes_of frame.entry) }
    {
        let message = spare.copy(frame.message)?;
        Ok(CheckedBytes {
            message,
            seal: frame.seal,
        })
    }

    /// The same bytes, which are not copied. Fails only out of memory.
    pub fn share(&self) -> Result<CheckedBytes, AllocError>
        ensures { IfOk result (λ share. share ≡ self.now) }
    {
        Ok(CheckedBytes {
            message: self.message.clone()?,
            seal: self.seal,
        })
    }

    /// They are forgotten: their memory is for others.
    pub fn give_back(self, spare: &mut Spare) {
        let CheckedBytes { message, seal: _ } = self;
        spare.take_back(message);
    }

    /// The frame that they are.
    pub fn frame(&self) -> Checked<'_>
        ensures { bytes_of result ≡ self.now }
    {
        Checked {
            message: bytes_in(&self.message),
            seal: self.seal,
        }
    }

    /// How many they are, with those of the seal.
    pub fn length(&self) -> u64
        ensures { result ≡ length self.now }
    {
        self.frame().length()
    }

    /// What they are found by: how they are sealed, and the message. Only of bytes that are the
    /// same both are the same.
    pub(crate) fn key(&self) -> (Seal, &[u8])
        ensures seal { result.0 ≡ seal_of self.now }
        ensures key { result.1.now ≡ key_of self.now }
    {
        let message = bytes_in(&self.message);
        match self.seal {
            Seal::Right => (Seal::Right, message),
            Seal::Wrong => (Seal::Wrong, message),
            Seal::Missing => key_of_unsealed(message),
        }
    }

    /// Whether the last four are the check sequence of the others.
    pub fn is_sealed(&self) -> bool
        ensures { result ≡ is_sealed self.now }
    {
        self.seal == Seal::Right
    }

    /// Whether these are the same bytes. No check sequence is computed, but where one of both is
    /// sealed wrongly and the other isn't sealed.
    pub fn is_same(&self, other: &CheckedBytes) -> bool
        ensures { result ≡ bytes_eq self.now other.now }
    {
        let (message, others) = (bytes_in(&self.message), bytes_in(&other.message));
        if is_sealed_alike(self.seal, other.seal) {
            return message == others;
        }
        match (self.seal, other.seal) {
            (Seal::Wrong, Seal::Missing) => is_sealed_wrongly(others, message),
            (Seal::Missing, Seal::Wrong) => is_sealed_wrongly(message, others),
            _ => false,
        }
    }
}
