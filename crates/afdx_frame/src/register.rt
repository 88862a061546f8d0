//! The register that finds the remainder of a check sequence.

ghost use Rattle.std.specs.Prelude.{◌≡◌, ◌<◌, ◌+◌, ◌*◌, bit_xor, length};
ghost use Rattle.afdx_frame.specs.Register.{number, shift};

use crate::tables::TABLES;

/// What a byte leaves in the register when `later` bytes of a block come after it.
#[inline(always)]
fn left_by(byte: u8, later: usize) -> u32
    requires { later < 8 }
    ensures { result ≡ shift (8 * later + 8) byte }
{
    TABLES[later][byte as usize]
}

/// The register after one more byte.
fn byte_step(register: u32, byte: u8) -> u32
    ensures { result ≡ shift 8 (bit_xor register byte) }
{
    let low = ((register ^ u32::from(byte)) & 0xff) as u8;
    left_by(low, 0) ^ register >> 8
}

/// The register after a block.
pub(crate) fn block_step(register: u32, block: &[u8]) -> u32
    requires { length block.now ≡ 8 }
    ensures { result ≡ shift 64 (bit_xor register (number block.now)) }
{
    let low = u32::from_le_bytes([block[0], block[1], block[2], block[3]]);
    let [b0, b1, b2, b3] = (register ^ low).to_le_bytes();
    let front = left_by(b0, 7) ^ left_by(b1, 6) ^ left_by(b2, 5) ^ left_by(b3, 4);
    let back = left_by(block[4], 3)
        ^ left_by(block[5], 2)
        ^ left_by(block[6], 1)
        ^ left_by(block[7], 0);
    front ^ back
}

/// The register after some bytes more.
#[inline(always)]
pub(crate) fn after_bytes(mut register: u32, bytes: &[u8]) -> u32
    ensures { result ≡ shift (8 * length bytes.now) (bit_xor register (number bytes.now)) }
{
    let (blocks, rest) = bytes.as_chunks::<8>();
    for block in blocks {
        register = block_step(register, block.as_slice());
    }
    for byte in rest {
        register = byte_step(register, *byte);
    }
    register
}
