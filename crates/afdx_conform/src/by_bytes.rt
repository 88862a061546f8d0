//! Places in a list, which are found by the bytes of what stands there.

ghost use Rattle.std.specs.Prelude.{◌≡◌, ◌++◌, ◌∷◌, [], ℕ, List, OnOk, if◌then◌else◌};
ghost use Rattle.std.specs.Str.{bytes_eq};
ghost use Rattle.afdx_conform.specs.KnownBytes.{kept_of};

use crate::checked_bytes::CheckedBytes;
use crate::places::KeyPlaces;
use afdx_frame::Seal;
use std::alloc::{AllocError, Global};

/// Places in a list, by the bytes of what stands there: those of one message apart by how it is
/// sealed.
#[derive(Drop)]
pub(crate) struct ByBytes {
    right: KeyPlaces,
    wrong: KeyPlaces,
    other: KeyPlaces,
}

impl ByBytes {
    /// None yet.
    pub(crate) fn new(alloc: Global) -> ByBytes
        ensures { (bytes : List ℕ) → kept_of result bytes ≡ [] }
    {
        let right = KeyPlaces::new(alloc);
        let wrong = KeyPlaces::new(alloc);
        let other = KeyPlaces::new(alloc);
        ByBytes {
            right,
            wrong,
            other,
        }
    }

    /// One more place, behind those of its bytes. Fails only out of memory.
    pub(crate) fn add(&mut self, bytes: &CheckedBytes, place: usize) -> Result<(), AllocError>
        ensures { OnOk result ((other : List ℕ) → kept_of self.new other
            ≡ (if bytes_eq bytes.now other then kept_of self.old other ++ place ∷ []
            else kept_of self.old other)) }
    {
        let (seal, key) = bytes.key();
        match seal {
            Seal::Right => self.right.add(key, place),
            Seal::Wrong => self.wrong.add(key, place),
            Seal::Missing => self.other.add(key, place),
        }
    }

    /// The places of these bytes, in the order in which they were added.
    pub(crate) fn at(&self, bytes: &CheckedBytes) -> &[usize]
        ensures { result.now ≡ kept_of self.now bytes.now }
    {
        let (seal, key) = bytes.key();
        match seal {
            Seal::Right => self.right.at(key),
            Seal::Wrong => self.wrong.at(key),
            Seal::Missing => self.other.at(key),
        }
    }
}
