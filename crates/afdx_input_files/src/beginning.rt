//! How the bytes of a recording begin, and those of no list.

ghost use Rattle.std.specs.Prelude.{◌≡◌};
ghost use Rattle.afdx_input_files.specs.Beginning as spec;
ghost use Rattle.afdx_input_files.specs.Beginning.{names_packed};

use crate::form::{Magic, magic_named};
use crate::order::Order;

/// The bytes that tell what a recording is.
const MAGIC: usize = 4;

/// Whether bytes are read as a recording: the first four name a form of one, or are those of a
/// packed file, which is a fault of a recording.
#[tactic(auto, unfolding(crate::specs::Beginning::is_recording))]
pub fn is_recording(bytes: &[u8]) -> bool
    ensures { result ≡ spec.is_recording bytes.now }
{
    bytes.len() >= MAGIC && magic_named(Order::HighFirst.word(bytes, 0)).is_some()
}

/// Whether the form that is named is a packed file.
fn is_packed(magic: Option<Magic>) -> bool
    ensures { result ≡ names_packed magic }
{
    match magic {
        Some(Magic::Packed) => true,
        _ => false,
    }
}

/// Whether bytes begin as those of a packed file: gzip, zstd, bzip2, xz or zip.
#[tactic(auto, unfolding(crate::specs::Beginning::is_packed_file))]
pub fn is_packed_file(bytes: &[u8]) -> bool
    ensures { result ≡ spec.is_packed_file bytes.now }
{
    bytes.len() >= MAGIC && is_packed(magic_named(Order::HighFirst.word(bytes, 0)))
}
