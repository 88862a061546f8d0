//! Bytes in hexadecimal digits.

ghost use Rattle.std.specs.Prelude.{◌≡◌, ◌≤◌, ◌<◌, ◌+◌, ◌*◌, ◌/◌, ◌%◌, ◌++◌, length, map, slice_index, take, drop};
ghost use Rattle.hex.specs.Hex.{encode_lower, lower_digits};

use std::simd::prelude::*;

/// So many bytes are written in hexadecimal digits at once.
const BLOCK: usize = 16;
/// The digits, each at the place of its value.
const DIGITS: [u8; BLOCK] = *b"0123456789abcdef";

/// The lower-case digit of a number.
fn digit_of(number: u8) -> u8
    requires { number < 16 }
    ensures { result ≡ slice_index lower_digits number }
{
    if number < 10 {
        number + b'0'
    } else {
        number + (b'a' - 10)
    }
}

/// Puts the digits of all bytes in the place of `digits`. It has no branches and reads no table, so
/// that it is done for several bytes at once.
fn encode_to(bytes: &[u8], digits: &mut [u8])
    requires { length digits.old ≡ 2 * length bytes.now }
    ensures { digits.new ≡ encode_lower bytes.now }
{
    'bytes: for i in 0..bytes.len() {
        let byte = bytes[i];
        let high = digit_of(byte >> 4);
        let low = digit_of(byte & 0x0f);
        digits[2 * i] = high;
        digits[2 * i + 1] = low;
    }
}

/// The first digits of bytes: each is read from the table in one step for all of them.
#[inline(always)]
fn high_digits(bytes: u8x16) -> u8x16
    ensures { result ≡ map (λ byte. slice_index lower_digits (byte / 16)) bytes }
{
    u8x16::from_array(DIGITS).swizzle_dyn(bytes >> u8x16::splat(4))
}

/// The second digits of bytes.
#[inline(always)]
fn low_digits(bytes: u8x16) -> u8x16
    ensures { result ≡ map (λ byte. slice_index lower_digits (byte % 16)) bytes }
{
    u8x16::from_array(DIGITS).swizzle_dyn(bytes & u8x16::splat(15))
}

/// Puts the digits of a block of bytes in the place of `digits`.
#[inline(always)]
fn encode_block(bytes: &[u8], digits: &mut [u8])
    requires size { length bytes.now ≡ 16 }
    requires pairs { length digits.old ≡ 2 * length bytes.now }
    ensures { digits.new ≡ encode_lower bytes.now }
{
    let block = u8x16::from_slice(bytes);
    let (front, back) = high_digits(block).interleave(low_digits(block));
    front.copy_to_slice(digits);
    back.copy_to_slice(&mut digits[BLOCK..]);
}

/// Puts the digits of all bytes, a block or more, in the place of `digits`. The last block may
/// begin among bytes whose digits stand there already.
fn encode_blocks(bytes: &[u8], digits: &mut [u8])
    requires pairs { length digits.old ≡ 2 * length bytes.now }
    requires long { 16 ≤ length bytes.now }
    ensures { digits.new ≡ encode_lower bytes.now }
{
    let count = (bytes.len() - 1) / BLOCK;
    for block in 0..count {
        let at = block * BLOCK;
        let some = &bytes[at..at + BLOCK];
        encode_block(some, &mut digits[2 * at..2 * at + 2 * BLOCK]);
    }
    let at = bytes.len() - BLOCK;
    let last = &bytes[at..at + BLOCK];
    encode_block(last, &mut digits[2 * at..2 * at + 2 * BLOCK]);
}

/// Puts the digits of all bytes at a place of the room.
pub(crate) fn encode_at(room: &mut [u8], at: usize, bytes: &[u8])
    requires { at + 2 * length bytes.now ≤ length room.old }
    ensures { room.new
        ≡ take at room.old ++ encode_lower bytes.now ++ drop (at + 2 * length bytes.now) room.old }
{
    let digits = &mut room[at..at + 2 * bytes.len()];
    if bytes.len() < BLOCK {
        encode_to(bytes, digits);
    } else {
        encode_blocks(bytes, digits);
    }
}
